ghost use Rattle.std.specs.Prelude.{◌≡◌, ◌/◌, ◌%◌};
ghost use Rattle.qh_packet.specs.Version.{number_of, type_bits};

/// A version of QUIC whose packets are read and written here.
#[derive(Clone, Copy, PartialEq, Eq)]
pub enum Version {
    /// Version 1 (RFC 9000, section 15).
    One,
}

/// What a packet with a long header is, beside one of version negotiation (RFC 9000, section 17.2).
#[derive(Clone, Copy, PartialEq, Eq)]
pub enum PacketType {
    Initial,
    ZeroRtt,
    Handshake,
    Retry,
}

impl Version {
    /// The number that stands for it in a header.
    pub fn number(self) -> u32
        ensures { result ≡ number_of self }
    {
        match self {
            Version::One => 1,
        }
    }

    /// What bits 4 and 5 of a long header's first byte say in this version.
    pub fn packet_type(self, first: u8) -> PacketType
        ensures { type_bits self result ≡ first / 16 % 4 }
    {
        match (self, first / 16 % 4) {
            (Version::One, 0) => PacketType::Initial,
            (Version::One, 1) => PacketType::ZeroRtt,
            (Version::One, 2) => PacketType::Handshake,
            (Version::One, _) => PacketType::Retry,
        }
    }
}
