ghost use Rattle.std.specs.Prelude.{◌≡◌, ℕ, ◌<◌, Bool, false, List, [], IfOk, IfErr, IfSome, IfNone};
ghost use Rattle.std.specs.List.{AllByRecursion};
ghost use Rattle.qh_stateless.specs.Header.{Header, IsFault, IsHeader, IsLong, IsMalformed, IsShort, IsUnsupported, IsWrong};
ghost use Rattle.qh_stateless.specs.View.{destination_of, fault_of, header_of, is_first, is_long};

use crate::long::{is_fixed, lists, read_long, token_of};
use qh_base::ConnectionId;
use qh_packet::{LongHeader, PacketType, Version};

/// What the header of a datagram's first packet says (RFC 9000, section 17).
#[derive(Clone, Copy)]
pub enum DatagramHeader<'a> {
    /// Of an Initial packet (section 17.2.2).
    Initial {
        /// One of the endpoint's versions.
        version: u32,
        /// The first byte, as it stands in the datagram.
        first: u8,
        /// The connection id of the end that it goes to.
        destination: &'a [u8],
        /// The connection id of the end that it comes from.
        source: &'a [u8],
        /// The token of a Retry or of an earlier connection, empty if there is none.
        token: &'a [u8],
    },
    /// Of a 0-RTT packet (section 17.2.3).
    ZeroRtt {
        version: u32,
        destination: &'a [u8],
        source: &'a [u8],
    },
    /// Of a Handshake or a Retry packet, or of version negotiation, whose version is 0 (sections 17.2.1, 17.2.4 and 17.2.5).
    Long {
        version: u32,
        destination: &'a [u8],
        source: &'a [u8],
    },
    /// Of a 1-RTT packet (section 17.3.1).
    Short {
        first: u8,
        destination: &'a [u8],
    },
}

/// Why no header is read.
#[derive(Clone, Copy)]
pub enum HeaderFault<'a> {
    /// The header is cut, a connection id has more than 20 bytes, or the fixed bit is missing.
    Malformed,
    /// A long header of a version that the endpoint doesn't have, of which only the part that all versions share is read (RFC 8999,
    /// section 5.1).
    UnsupportedVersion {
        version: u32,
        destination: &'a [u8],
        source: &'a [u8],
    },
}

/// The header of the first packet of a datagram, for an endpoint whose connection ids have `local_id_len` bytes and which has these
/// versions. With `grease_quic_bit` the fixed bit isn't looked at (RFC 9287, section 3.1).
///
/// A long header is read up to its source id, and that of an Initial also its token and its length, which doesn't go beyond the datagram.
/// The types are those of version 1, in any supported version. Version 0, that of version negotiation, counts as supported.
///
/// In an unsupported version too, the fixed bit is asked for and an id has at most 20 bytes, as `quinn-proto` has it, though RFC 8999 asks
/// for neither: else the header is malformed.
pub fn read_header<'a>(
    datagram: &'a [u8],
    local_id_len: usize,
    versions: &[u32],
    grease_quic_bit: bool,
) -> Result<DatagramHeader<'a>, HeaderFault<'a>>
    ensures header { IfOk result (λ h. IsHeader local_id_len versions.now grease_quic_bit datagram.now (header_of h)) }
    ensures fault { IfErr result (λ f. IsFault local_id_len versions.now grease_quic_bit datagram.now (fault_of f)) }
{
    let Some((first, _)) = datagram.split_first() else {
        return Err(HeaderFault::Malformed);
    };
    if *first < 0x80 {
        return match read_short(datagram, local_id_len, grease_quic_bit) {
            Some(short) => Ok(short),
            None => Err(HeaderFault::Malformed),
        };
    }
    match read_long(datagram, grease_quic_bit) {
        Some(long) => of_long(&long, versions),
        None => Err(HeaderFault::Malformed),
    }
}

/// A datagram begins with one header at most, and with none if its version is unsupported. It is malformed exactly if one of these holds: it is
/// empty; its fixed bit is missing, and asked for; a short header has fewer bytes than one more than the endpoint's ids have; a long one is cut
/// up to its source id, or has an id of more than 20 bytes; or the token or the length of an Initial in a supported version is cut, or that
/// length goes beyond the datagram.
pub fn datagram_headers()
    ensures one { (n : ℕ) (versions : List ℕ) (grease : Bool) (datagram : List ℕ) (h k : Header) → IsHeader n versions grease datagram h → IsHeader n versions grease datagram k → h ≡ k }
    ensures apart { (n version : ℕ) (versions : List ℕ) (grease : Bool) (datagram destination source : List ℕ) (h : Header)
        → IsHeader n versions grease datagram h → IsUnsupported versions grease datagram version destination source → ⊥ }
    ensures unsupported { (version other : ℕ) (versions : List ℕ) (grease : Bool) (datagram destination source d s : List ℕ)
        → IsUnsupported versions grease datagram version destination source → IsUnsupported versions grease datagram other d s → (version ≡ other) × (destination ≡ d) × (source ≡ s) }
    ensures malformed { (n : ℕ) (versions : List ℕ) (grease : Bool) (datagram : List ℕ) → IsWrong n versions grease datagram → IsMalformed n versions grease datagram }
    ensures wrong { (n : ℕ) (versions : List ℕ) (grease : Bool) (datagram : List ℕ) → AllByRecursion (λ byte. byte < 256) datagram → IsMalformed n versions grease datagram → IsWrong n versions grease datagram }
{}

// What a long header says.
fn of_long<'a>(
    long: &LongHeader<'a>,
    versions: &[u32],
) -> Result<DatagramHeader<'a>, HeaderFault<'a>>
    ensures header { IfOk result (λ h. (id_length : ℕ) (grease : Bool) (datagram : List ℕ)
        → IsLong grease datagram long.now.first long.now.version long.now.destination.now long.now.source.now long.now.rest.now → IsHeader id_length versions.now grease datagram (header_of h)) }
    ensures fault { IfErr result (λ f. (id_length : ℕ) (grease : Bool) (datagram : List ℕ)
        → IsLong grease datagram long.now.first long.now.version long.now.destination.now long.now.source.now long.now.rest.now → IsFault id_length versions.now grease datagram (fault_of f)) }
{
    let version = long.version;
    let destination = long.destination;
    let source = long.source;
    if version == 0 {
        return Ok(DatagramHeader::Long {
            version,
            destination,
            source,
        });
    }
    if !lists(versions, version) {
        return Err(HeaderFault::UnsupportedVersion {
            version,
            destination,
            source,
        });
    }
    match Version::One.packet_type(long.first) {
        PacketType::Initial => match token_of(long.rest) {
            Some(token) => Ok(DatagramHeader::Initial {
                version,
                first: long.first,
                destination,
                source,
                token,
            }),
            None => Err(HeaderFault::Malformed),
        },
        PacketType::ZeroRtt => Ok(DatagramHeader::ZeroRtt {
            version,
            destination,
            source,
        }),
        PacketType::Handshake | PacketType::Retry => Ok(DatagramHeader::Long {
            version,
            destination,
            source,
        }),
    }
}

// The short header that begins the datagram. None exactly if none does at an end whose ids have this length.
fn read_short(datagram: &[u8], id_len: usize, grease: bool) -> Option<DatagramHeader<'_>>
    ensures found { IfSome result (λ h. IsHeader id_len [] grease datagram.now (header_of h)) }
    ensures short { IfSome result (λ h. is_long (header_of h) ≡ false) }
    ensures none { IfNone result ((first : ℕ) (destination : List ℕ) → IsShort id_len grease datagram.now first destination → ⊥) }
{
    let (first, rest) = datagram.split_first()?;
    let first = *first;
    if first >= 0x80 || !is_fixed(grease, first) {
        return None;
    }
    if id_len > ConnectionId::MAX_LEN || id_len > rest.len() {
        return None;
    }
    Some(DatagramHeader::Short {
        first,
        destination: &rest[..id_len],
    })
}

impl<'a> DatagramHeader<'a> {
    /// The connection id of the end that it goes to, by which the datagram is routed.
    pub fn destination(&self) -> &'a [u8]
        ensures { result.now ≡ destination_of (header_of self.now) }
    {
        match *self {
            DatagramHeader::Initial { destination, .. } => destination,
            DatagramHeader::ZeroRtt { destination, .. } => destination,
            DatagramHeader::Long { destination, .. } => destination,
            DatagramHeader::Short { destination, .. } => destination,
        }
    }

    /// Whether it is that of an Initial or a 0-RTT packet, which may come before an endpoint has issued an id.
    pub fn is_first(&self) -> bool
        ensures { result ≡ is_first (header_of self.now) }
    {
        matches!(
            self,
            DatagramHeader::Initial { .. } | DatagramHeader::ZeroRtt { .. }
        )
    }

    /// Whether it is a long header (RFC 9000, section 17.2).
    pub fn has_long_header(&self) -> bool
        ensures { result ≡ is_long (header_of self.now) }
    {
        !matches!(self, DatagramHeader::Short { .. })
    }
}
