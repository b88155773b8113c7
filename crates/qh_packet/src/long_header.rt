ghost use Rattle.std.specs.Prelude.{◌≡◌, ℕ, ◌≤◌, ◌/◌, ◌%◌, ◌∷◌, ◌++◌, ◌↔◌, List, length, IsTrue, IfSome, IfNone, OnOk, OnErr};
ghost use Rattle.std.specs.Int.{w32, to_be_bytes};
ghost use Rattle.qh_packet.specs.LongHeader.{IsLongHeader, long_head};
ghost use Rattle.qh_packet.specs.Version.{number_of, type_bits};

use crate::version::{PacketType, Version};
use qh_base::{ConnectionId, Memory};

/// What stands in a long header up to the source id, in any version, and what follows it (RFC 9000, section 17.2).
#[derive(Clone, Copy)]
pub struct LongHeader<'a> {
    /// The first byte.
    pub first: u8,
    /// The version's number, 0 in version negotiation.
    pub version: u32,
    /// The connection id of the end that it goes to.
    pub destination: &'a [u8],
    /// The connection id of the end that it comes from.
    pub source: &'a [u8],
    /// What follows.
    pub rest: &'a [u8],
}

impl<'a> LongHeader<'a> {
    /// The long header that begins the bytes. None exactly if none does that has its fixed bit set and ids of at most 20 bytes
    /// (RFC 9000, section 17.2).
    pub fn read(bytes: &'a [u8]) -> Option<LongHeader<'a>>
        ensures found { IfSome result (λ h. IsLongHeader bytes.now h.first h.version h.destination.now h.source.now h.rest.now) }
        ensures none { IfNone result ((first version : ℕ) (destination source rest : List ℕ) → IsLongHeader bytes.now first version destination source rest → ⊥) }
    {
        let (first, version, rest) = first_and_version(bytes)?;
        let (destination, rest) = id(rest)?;
        let (source, rest) = id(rest)?;
        Some(LongHeader {
            first,
            version,
            destination,
            source,
            rest,
        })
    }

    /// Whether it is that of such a packet in this version.
    pub fn is_of(&self, version: Version, kind: PacketType) -> bool
        ensures { IsTrue result ↔ ((self.now.version ≡ number_of version) × (self.now.first / 16 % 4 ≡ type_bits version kind)) }
    {
        self.version == version.number() && version.packet_type(self.first) == kind
    }
}

/// Appends a long header up to the source id, or nothing (RFC 9000, section 17.2).
pub(crate) fn put_long_header(
    out: &mut Vec<u8>,
    first: u8,
    version: u32,
    destination: &[u8],
    source: &[u8],
) -> Result<(), Memory>
    requires destination { length destination.now ≤ 20 }
    requires source { length source.now ≤ 20 }
    ensures ok { OnOk result (out.new.items ≡ out.old.items ++ long_head first version destination.now source.now) }
    ensures err { OnErr result (out.new.items ≡ out.old.items) }
{
    out.try_reserve(7 + destination.len() + source.len())?;
    out.push(first)?;
    out.extend_from_slice(&version.to_be_bytes())?;
    out.push(destination.len() as u8)?;
    out.extend_from_slice(destination)?;
    out.push(source.len() as u8)?;
    out.extend_from_slice(source)?;
    Ok(())
}

// The first byte with the long form's and the fixed bit, the version, and what follows.
fn first_and_version(bytes: &[u8]) -> Option<(u8, u32, &[u8])>
    ensures found { IfSome result (λ f. (bytes.now ≡ f.0 ∷ (to_be_bytes w32 f.1 ++ f.2.now)) × (192 ≤ f.0)) }
    ensures none { IfNone result ((first version : ℕ) (rest : List ℕ) → bytes.now ≡ first ∷ (to_be_bytes w32 version ++ rest) → 192 ≤ first → ⊥) }
{
    let (first, rest) = bytes.split_first()?;
    if *first < 192 {
        return None;
    }
    let (version, rest) = rest.split_first_chunk::<4>()?;
    Some((*first, u32::from_be_bytes(*version), rest))
}

// A connection id of at most 20 bytes behind its length, and what follows.
fn id(bytes: &[u8]) -> Option<(&[u8], &[u8])>
    ensures found { IfSome result (λ f. (bytes.now ≡ length f.0.now ∷ (f.0.now ++ f.1.now)) × (length f.0.now ≤ 20)) }
    ensures none { IfNone result ((id rest : List ℕ) → bytes.now ≡ length id ∷ (id ++ rest) → length id ≤ 20 → ⊥) }
{
    let (length, rest) = bytes.split_first()?;
    let length = *length as usize;
    if length > ConnectionId::MAX_LEN || length > rest.len() {
        return None;
    }
    Some(rest.split_at(length))
}
