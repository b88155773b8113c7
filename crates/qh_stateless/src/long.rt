ghost use Rattle.std.specs.Prelude.{◌≡◌, ◌⊎◌, ◌↔◌, ℕ, ◌<◌, ◌≤◌, ◌/◌, ◌%◌, ◌∷◌, ◌++◌, Bool, List, length, true, Contains, IsTrue, IfSome, IfNone};
ghost use Rattle.std.specs.Int.{w32, to_be_bytes};
ghost use Rattle.qh_stateless.specs.Header.{IsFixed, IsLong, IsTokenAndBody};

use qh_base::{ConnectionId, get_counted};
use qh_packet::LongHeader;

// The fixed bit of a first byte (RFC 9000, section 17.2).
const FIXED_BIT: u8 = 0x40;

/// The long header that begins the datagram, up to its source id, in any version. None exactly if none does whose ids have at most 20
/// bytes and whose fixed bit is set, if that is asked for.
pub(crate) fn read_long(datagram: &[u8], grease: bool) -> Option<LongHeader<'_>>
    ensures found { IfSome result (λ h. IsLong grease datagram.now h.first h.version h.destination.now h.source.now h.rest.now) }
    ensures none { IfNone result ((first version : ℕ) (destination source rest : List ℕ) → IsLong grease datagram.now first version destination source rest → ⊥) }
{
    let (first, version, rest) = first_and_version(datagram)?;
    if first < 0x80 || !is_fixed(grease, first) {
        return None;
    }
    let (destination, rest) = id(rest)?;
    let (source, rest) = id(rest)?;
    Some(LongHeader {
        first,
        version,
        destination,
        source,
        rest,
    })
}

/// Whether the fixed bit is set, or isn't asked for.
pub(crate) fn is_fixed(grease: bool, first: u8) -> bool
    ensures { IsTrue result ↔ IsFixed grease first }
{
    grease || first / FIXED_BIT % 2 == 1
}

/// The token of an Initial, of which these bytes follow the source id. None exactly if the token or what its length counts is cut.
pub(crate) fn token_of(bytes: &[u8]) -> Option<&[u8]>
    ensures found { IfSome result (λ t. IsTokenAndBody bytes.now t.now) }
    ensures none { IfNone result ((token : List ℕ) → IsTokenAndBody bytes.now token → ⊥) }
{
    let (token, rest) = get_counted(bytes)?;
    get_counted(rest)?;
    Some(token)
}

/// Whether the version is among them.
pub(crate) fn lists(versions: &[u32], version: u32) -> bool
    ensures { IsTrue result ↔ Contains versions.now version }
{
    versions.contains(&version)
}

// The first byte, the version, and what follows.
fn first_and_version(bytes: &[u8]) -> Option<(u8, u32, &[u8])>
    ensures found { IfSome result (λ f. bytes.now ≡ f.0 ∷ (to_be_bytes w32 f.1 ++ f.2.now)) }
    ensures none { IfNone result ((first version : ℕ) (rest : List ℕ) → bytes.now ≡ first ∷ (to_be_bytes w32 version ++ rest) → ⊥) }
{
    let (first, rest) = bytes.split_first()?;
    let (version, rest) = rest.split_first_chunk::<4>()?;
    Some((*first, u32::from_be_bytes(*version), rest))
}

// A connection id of at most 20 bytes behind its length, and what follows.
fn id(bytes: &[u8]) -> Option<(&[u8], &[u8])>
    ensures found { IfSome result (λ f. (bytes.now ≡ length f.0.now ∷ (f.0.now ++ f.1.now)) × (length f.0.now ≤ 20)) }
    ensures none { IfNone result ((id rest : List ℕ) → bytes.now ≡ length id ∷ (id ++ rest) → length id ≤ 20 → ⊥) }
{
    let (length, rest) = bytes.split_first()?;
    let length = *length as usize;
    if length > ConnectionId::MAX_LEN || length > rest.len() {
        return None;
    }
    Some(rest.split_at(length))
}
