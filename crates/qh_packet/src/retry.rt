ghost use Rattle.std.specs.Prelude.{◌≡◌, ◌≢◌, ℕ, ◌<◌, ◌≤◌, ◌++◌, ◌↔◌, List, length, IsTrue, IfSome, IfNone, OnOk, OnErr};
ghost use Rattle.qh_packet.specs.Retry.{IsRetryPacket, retry_bytes, retry_tag_of};

use crate::long_header::{LongHeader, put_long_header};
use crate::session::put_padded;
use crate::version::{PacketType, Version};
use arrayvec::ArrayVec;
use qh_base::{ConnectionId, Memory};

// How many bytes the tag has.
const RETRY_TAG_LEN: usize = 16;

// How many bytes of an id the tag has.
const KEPT: usize = 14;

/// The parts of a Retry packet (RFC 9000, section 17.2.5).
#[derive(Clone, Copy)]
pub struct RetryPacket<'a> {
    /// The connection id of the client.
    pub destination: &'a [u8],
    /// The connection id that the server wants.
    pub source: &'a [u8],
    /// What the client's next Initial has to bear.
    pub token: &'a [u8],
    /// The last 16 bytes.
    pub tag: &'a [u8],
}

impl<'a> RetryPacket<'a> {
    /// The Retry packet of version 1 that the bytes are. None exactly if they aren't one (RFC 9000, section 17.2.5).
    pub fn read(bytes: &'a [u8]) -> Option<RetryPacket<'a>>
        ensures found { IfSome result (λ p. IsRetryPacket bytes.now p.destination.now p.source.now p.token.now p.tag.now) }
        ensures none { IfNone result ((destination source token tag : List ℕ) → IsRetryPacket bytes.now destination source token tag → ⊥) }
    {
        let header = LongHeader::read(bytes)?;
        if !header.is_of(Version::One, PacketType::Retry) {
            return None;
        }
        if header.rest.len() < RETRY_TAG_LEN {
            return None;
        }
        let (token, tag) = header.rest.split_at(header.rest.len() - RETRY_TAG_LEN);
        Some(RetryPacket {
            destination: header.destination,
            source: header.source,
            token,
            tag,
        })
    }

    /// Whether its tag is that of a client whose first Initial went to this id (own, where RFC 9001, section 5.8 has a cipher's).
    pub fn is_for(&self, original: &ConnectionId) -> bool
        ensures { IsTrue result ↔ (self.now.tag.now ≡ retry_tag_of original.now) }
    {
        self.tag == retry_tag(original).as_slice()
    }
}

/// The tag of a Retry to a client whose first Initial went to this id (own, where RFC 9001, section 5.8 has a cipher's): A5,
/// the id's length, and its first 14 bytes with zeros behind them.
pub fn retry_tag(original: &ConnectionId) -> [u8; 16]
    ensures { result ≡ retry_tag_of original.now }
{
    let id = original.bytes();
    let mut tag = ArrayVec::new();
    tag.push(0xa5);
    tag.push(id.len() as u8);
    put_padded(&mut tag, id, KEPT);
    tag.into_inner().unwrap()
}

/// Appends a Retry packet of version 1 to a client whose first Initial went to `original`, or nothing. Its token isn't empty, and
/// its source id is another than that one (RFC 9000, sections 17.2.5 and 17.2.5.1).
pub fn put_retry(
    out: &mut Vec<u8>,
    destination: &ConnectionId,
    source: &ConnectionId,
    token: &[u8],
    original: &ConnectionId,
) -> Result<(), Memory>
    requires token { 0 < length token.now }
    requires source { source.now ≢ original.now }
    ensures ok { OnOk result (out.new.items ≡ out.old.items ++ retry_bytes destination.now source.now token.now original.now) }
    ensures err { OnErr result (out.new.items ≡ out.old.items) }
{
    let start = out.len();
    let version = Version::One.number();
    put_long_header(out, 0xf0, version, destination.bytes(), source.bytes())?;
    if put_token_and_tag(out, token, original).is_err() {
        out.truncate(start);
        return Err(Memory);
    }
    Ok(())
}

/// What `put_retry` appends is a Retry packet with these parts.
pub fn written_retry()
    ensures { (destination source token original : List ℕ) → length destination ≤ 20 → length source ≤ 20
        → IsRetryPacket (retry_bytes destination source token original) destination source token (retry_tag_of original) }
{}

// Appends a token and the tag of this id, or nothing.
fn put_token_and_tag(out: &mut Vec<u8>, token: &[u8], original: &ConnectionId) -> Result<(), Memory>
    ensures ok { OnOk result (out.new.items ≡ out.old.items ++ (token.now ++ retry_tag_of original.now)) }
    ensures err { OnErr result (out.new.items ≡ out.old.items) }
{
    let start = out.len();
    out.extend_from_slice(token)?;
    if out.extend_from_slice(&retry_tag(original)).is_err() {
        out.truncate(start);
        return Err(Memory);
    }
    Ok(())
}
