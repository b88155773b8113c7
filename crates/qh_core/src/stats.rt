ghost use Rattle.std.specs.Prelude.{◌≡◌};
ghost use Rattle.qh_core.specs.Inner.{counted};

/// Datagrams of one direction (quinn-proto, `UdpStats`). A count stands still at the greatest number that there is.
#[derive(Clone, Copy)]
pub struct UdpStats {
    pub datagrams: u64,
    /// The bytes of all of them.
    pub bytes: u64,
}

impl UdpStats {
    // One datagram more, of so many bytes.
    pub(crate) fn count(&mut self, size: usize)
        ensures { self.new ≡ counted size self.old }
    {
        self.datagrams = self.datagrams.saturating_add(1);
        self.bytes = self.bytes.saturating_add(size as u64);
    }
}

/// What a connection did since it was made (quinn-proto, `ConnectionStats`). A count stands still at the greatest number that
/// there is.
#[derive(Clone, Copy)]
pub struct ConnectionStats {
    /// The datagrams that were handed out.
    pub datagrams_sent: u64,
    /// The datagrams that were handed in, those that were dropped too.
    pub datagrams_received: u64,
    /// The bytes of the datagrams that were handed out.
    pub bytes_sent: u64,
    /// The bytes of the datagrams that were handed in.
    pub bytes_received: u64,
    /// The packets that counted as lost (RFC 9002, section 6.1).
    pub packets_lost: u64,
    /// The probe packets (RFC 9002, section 6.2).
    pub probes: u64,
}
