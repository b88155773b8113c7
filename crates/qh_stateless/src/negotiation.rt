ghost use Rattle.std.specs.Prelude.{◌≡◌, ◌≢◌, ℕ, ◌+◌, ◌<◌, ◌≤◌, ◌%◌, ◌^◌, ◌++◌, [], ◌∷◌, List, length, OnOk, OnErr};
ghost use Rattle.std.specs.List.{AllByRecursion};
ghost use Rattle.qh_spec.specs.Lists.{In};
ghost use Rattle.qh_packet.specs.VersionNegotiation.{IsVersionNegotiation, version_bytes, versions_in};
ghost use Rattle.qh_stateless.specs.Words.{and_word};
ghost use Rattle.qh_stateless.specs.Negotiation.{listed_to, negotiation_bytes, reserved_beside};

use crate::Words;
use qh_base::Memory;
use qh_packet::put_version_negotiation;

// Two versions that are reserved, of the form ?a?a?a?a (RFC 9000, section 15).
const RESERVED_VERSION: u32 = 0x0a1a2a3a;

const OTHER_RESERVED_VERSION: u32 = 0x0a1a2a4a;

/// Appends the packet of version negotiation that answers a datagram of an unsupported version with these ids, or nothing. A word chooses
/// the low six bits of its first byte, both ids are exchanged, and it lists a reserved version other than the datagram's and then the
/// endpoint's in order (RFC 9000, sections 6.1 and 17.2.1). The word is drawn after want of memory too.
pub fn put_versions<W: Words>(
    words: &mut W,
    version: u32,
    destination: &[u8],
    source: &[u8],
    versions: &[u32],
    out: &mut Vec<u8>,
) -> Result<(), Memory>
    requires destination { length destination.now ≤ 20 }
    requires source { length source.now ≤ 20 }
    ensures ok { OnOk result ((word : ℕ) × (W.given words.new ≡ and_word (W.given words.old) word)
        × (out.new.items ≡ out.old.items ++ negotiation_bytes word version destination.now source.now versions.now)) }
    ensures drawn { OnErr result ((word : ℕ) × (W.given words.new ≡ and_word (W.given words.old) word)) }
    ensures err { OnErr result (out.new.items ≡ out.old.items) }
{
    let start = out.len();
    let first = 0xc0 + (words.next() % 64) as u8;
    let reserved = [reserved_beside(version)];
    put_version_negotiation(out, first, source, destination, &reserved)?;
    if put_listed(versions, out).is_err() {
        out.truncate(start);
        return Err(Memory);
    }
    Ok(())
}

/// What `put_versions` appends is a packet of version negotiation to the source of the datagram, with these versions, and a version that
/// the endpoint doesn't have isn't among them.
pub fn written_versions()
    ensures is { (word version : ℕ) (destination source versions : List ℕ) → length destination ≤ 20 → length source ≤ 20
        → IsVersionNegotiation (negotiation_bytes word version destination source versions) source destination (version_bytes (listed_to version versions)) }
    ensures listed { (version : ℕ) (versions : List ℕ) → AllByRecursion (λ v. v < 2 ^ 32) versions → versions_in (version_bytes (listed_to version versions)) ≡ listed_to version versions }
    ensures other { (version : ℕ) (versions : List ℕ) → In version (listed_to version versions) → In version versions }
{}

// A reserved version other than this one.
fn reserved_beside(version: u32) -> u32
    ensures { result ≡ reserved_beside version }
{
    if version == RESERVED_VERSION {
        OTHER_RESERVED_VERSION
    } else {
        RESERVED_VERSION
    }
}

// Appends each version, or nothing.
fn put_listed(versions: &[u32], out: &mut Vec<u8>) -> Result<(), Memory>
    ensures ok { OnOk result (out.new.items ≡ out.old.items ++ version_bytes versions.now) }
    ensures err { OnErr result (out.new.items ≡ out.old.items) }
{
    let start = out.len();
    for version in versions {
        if out.extend_from_slice(&version.to_be_bytes()).is_err() {
            out.truncate(start);
            return Err(Memory);
        }
    }
    Ok(())
}
