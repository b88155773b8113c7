ghost use Rattle.std.specs.Prelude.{◌≡◌, ℕ, ◌<◌, ◌≤◌, ◌^◌, ◌++◌, ◌↔◌, List, length, IsTrue, IfSome, IfNone, OnOk, OnErr};
ghost use Rattle.std.specs.List.{AllByRecursion};
ghost use Rattle.qh_spec.specs.Lists.{In};
ghost use Rattle.qh_packet.specs.LongHeader.{long_head};
ghost use Rattle.qh_packet.specs.VersionNegotiation.{IsVersionNegotiation, versions_in, version_bytes};

use crate::long_header::{LongHeader, put_long_header};
use qh_base::Memory;

/// The parts of a packet of version negotiation (RFC 9000, section 17.2.1).
#[derive(Clone, Copy)]
pub struct VersionNegotiation<'a> {
    /// The connection id of the client.
    pub destination: &'a [u8],
    /// The connection id that the client chose for the server.
    pub source: &'a [u8],
    /// The versions, four bytes for each.
    pub listed: &'a [u8],
}

impl<'a> VersionNegotiation<'a> {
    /// The packet of version negotiation that the bytes are. None exactly if they aren't one with its fixed bit set and ids of at
    /// most 20 bytes (RFC 9000, section 17.2.1).
    pub fn read(bytes: &'a [u8]) -> Option<VersionNegotiation<'a>>
        ensures found { IfSome result (λ p. IsVersionNegotiation bytes.now p.destination.now p.source.now p.listed.now) }
        ensures none { IfNone result ((destination source listed : List ℕ) → IsVersionNegotiation bytes.now destination source listed → ⊥) }
    {
        let header = LongHeader::read(bytes)?;
        if header.version != 0 || header.rest.is_empty() || header.rest.len() % 4 != 0 {
            return None;
        }
        Some(VersionNegotiation {
            destination: header.destination,
            source: header.source,
            listed: header.rest,
        })
    }

    /// Whether the version is among those listed.
    pub fn lists(&self, version: u32) -> bool
        ensures { IsTrue result ↔ In version (versions_in self.now.listed.now) }
    {
        let mut rest = self.listed;
        while let Some((first, more)) = rest.split_first_chunk::<4>() {
            if u32::from_be_bytes(*first) == version {
                return true;
            }
            rest = more;
        }
        false
    }
}

/// Appends a packet of version negotiation, or nothing. Of its first byte the two greatest bits are 1, and the others are anything.
/// Its destination id is the source id of the packet that it answers, and its source id that one's destination id (RFC 9000,
/// section 17.2.1).
pub fn put_version_negotiation(
    out: &mut Vec<u8>,
    first: u8,
    destination: &[u8],
    source: &[u8],
    versions: &[u32],
) -> Result<(), Memory>
    requires first { 192 ≤ first }
    requires destination { length destination.now ≤ 20 }
    requires source { length source.now ≤ 20 }
    requires some { 0 < length versions.now }
    ensures ok { OnOk result (out.new.items ≡ out.old.items ++ (long_head first 0 destination.now source.now ++ version_bytes versions.now)) }
    ensures err { OnErr result (out.new.items ≡ out.old.items) }
{
    let start = out.len();
    put_long_header(out, first, 0, destination, source)?;
    if put_versions(out, versions).is_err() {
        out.truncate(start);
        return Err(Memory);
    }
    Ok(())
}

/// What `put_version_negotiation` appends is a packet of version negotiation with these parts, and these versions are read from
/// it.
pub fn written_version_negotiation()
    ensures is { (first : ℕ) (destination source versions : List ℕ) → 192 ≤ first → first < 256 → length destination ≤ 20 → length source ≤ 20
        → 0 < length versions → IsVersionNegotiation (long_head first 0 destination source ++ version_bytes versions) destination source (version_bytes versions) }
    ensures versions { (versions : List ℕ) → AllByRecursion (λ v. v < 2 ^ 32) versions → versions_in (version_bytes versions) ≡ versions }
{}

// Appends each version, or nothing.
fn put_versions(out: &mut Vec<u8>, versions: &[u32]) -> Result<(), Memory>
    ensures ok { OnOk result (out.new.items ≡ out.old.items ++ version_bytes versions.now) }
    ensures err { OnErr result (out.new.items ≡ out.old.items) }
{
    let start = out.len();
    for version in versions {
        if out.extend_from_slice(&version.to_be_bytes()).is_err() {
            out.truncate(start);
            return Err(Memory);
        }
    }
    Ok(())
}
