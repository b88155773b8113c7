//! Frames of HTTP/3, one after another.

ghost use Rattle.std.specs.Prelude.{◌≡◌, ◌==◌, ℕ, List, filter, IfOk, IfSome, IfNone};
ghost use Rattle.std.specs.List.{concat, list_any};
ghost use Rattle.std.specs.Option.{option_map};
ghost use Rattle.qh_spec.specs.HttpFrame.{HttpFrame as AFrame, AreHttpFrames};
ghost use Rattle.qh_spec.specs.Spelling.{known_kinds, known_frames};
ghost use Rattle.qh_plain.specs.Frames.{Parts, AreParts, number_at, frame_at, data_payloads, after_data, last_at, parts_at};

use crate::sections::counted;
use qh_base::{Memory, get_varint};
use std::alloc::Global;
use std::marker::Model;

/// A frame (RFC 9114, section 7.1).
#[derive(Drop)]
pub struct HttpFrame {
    kind: u64,
    payload: Vec<u8>,
}

impl Model for HttpFrame {
    ghost use Rattle.qh_spec.specs.HttpFrame.{HttpFrame};

    ghost Value = { HttpFrame };

    ghost view = { λ f. record { kind = f.kind; payload = f.payload.items } };
}

impl HttpFrame {
    /// The frame of this type with this payload.
    pub fn new(kind: u64, payload: Vec<u8>) -> HttpFrame
        ensures { result ≡ record { kind = kind; payload = payload.items } }
    {
        HttpFrame { kind, payload }
    }

    /// The type.
    pub fn kind(&self) -> u64
        ensures { result ≡ self.now.kind }
    {
        self.kind
    }

    /// The payload.
    pub fn payload(&self) -> &[u8]
        ensures { result.now ≡ self.now.payload }
    {
        self.payload.as_slice()
    }

    /// The frame with its payload in memory of its own.
    fn copied(alloc: Global, kind: u64, payload: &[u8]) -> Result<HttpFrame, Memory>
        ensures { IfOk result (λ f. f ≡ record { kind = kind; payload = payload.now }) }
    {
        let payload = payload.to_vec(alloc)?;
        Ok(HttpFrame { kind, payload })
    }
}

/// The type of a DATA frame (section 7.2.1).
const DATA: u64 = 0;

/// The type of a HEADERS frame (section 7.2.2).
const HEADERS: u64 = 1;

/// The type of a CANCEL_PUSH frame (section 7.2.3).
const CANCEL_PUSH: u64 = 3;

/// The type of a SETTINGS frame (section 7.2.4).
const SETTINGS: u64 = 4;

/// The type of a PUSH_PROMISE frame (section 7.2.5).
const PUSH_PROMISE: u64 = 5;

/// The type of a GOAWAY frame (section 7.2.6).
const GOAWAY: u64 = 7;

/// The type of a MAX_PUSH_ID frame (section 7.2.7).
const MAX_PUSH_ID: u64 = 13;

/// The type of a PRIORITY frame of HTTP/2 (section 7.2.8).
const HTTP2_PRIORITY: u64 = 2;

/// The type of a PING frame of HTTP/2.
const HTTP2_PING: u64 = 6;

/// The type of a WINDOW_UPDATE frame of HTTP/2.
const HTTP2_WINDOW_UPDATE: u64 = 8;

/// The type of a CONTINUATION frame of HTTP/2.
const HTTP2_CONTINUATION: u64 = 9;

/// The types to which HTTP/3 gives a meaning (section 7.2), and those to which HTTP/2 gave one (section 7.2.8).
const KNOWN_KINDS: [u64; 11] = [
    DATA,
    HEADERS,
    CANCEL_PUSH,
    SETTINGS,
    PUSH_PROMISE,
    GOAWAY,
    MAX_PUSH_ID,
    HTTP2_PRIORITY,
    HTTP2_PING,
    HTTP2_WINDOW_UPDATE,
    HTTP2_CONTINUATION,
];

/// The frames that the bytes are, one after another, or None where the bytes are no frames.
pub fn frames(alloc: Global, bytes: &[u8]) -> Result<Option<Vec<HttpFrame>>, Memory>
    ensures found { IfOk result (λ r. IfSome r (λ fs. AreHttpFrames bytes.now fs.items)) }
    ensures none { IfOk result (λ r. IfNone r ((frames : List AFrame) → AreHttpFrames bytes.now frames → ⊥)) }
{
    let mut frames = Vec::new(alloc);
    let mut rest = bytes;
    while !rest.is_empty() {
        let Some((kind, payload, after)) = first_frame(rest) else {
            return Ok(None);
        };
        let frame = HttpFrame::copied(alloc, kind, payload)?;
        frames.push(frame)?;
        rest = after;
    }
    Ok(Some(frames))
}

/// The type and the payload of the frame that begins the bytes, and what follows it.
fn first_frame(bytes: &[u8]) -> Option<(u64, &[u8], &[u8])>
    ensures { option_map (λ f. (record { kind = f.0; payload = f.1.now }, f.2.now)) result ≡ frame_at bytes.now }
{
    let (kind, rest) = number(bytes)?;
    let (count, rest) = number(rest)?;
    let (payload, rest) = counted(count, rest)?;
    Some((kind, payload, rest))
}

/// The number that begins the bytes, and what follows it.
fn number(bytes: &[u8]) -> Option<(u64, &[u8])>
    ensures { option_map (λ f. (f.0, f.1.now)) result ≡ number_at bytes.now }
{
    let (number, size) = get_varint(bytes)?;
    Some((number.into_inner(), &bytes[size..]))
}

/// The parts of a message (section 4.1).
#[derive(Drop)]
pub struct MessageParts {
    /// The payload of the first HEADERS frame, a field section.
    pub section: Vec<u8>,
    /// The payloads of the DATA frames in one piece.
    pub body: Vec<u8>,
    /// The payload of the last HEADERS frame, where there are two.
    pub last: Option<Vec<u8>>,
}

impl Model for MessageParts {
    ghost use Rattle.std.specs.Option.{option_map};
    ghost use Rattle.qh_plain.specs.Frames.{Parts};

    ghost Value = { Parts };

    ghost view = { λ m. record { section = m.section.items; body = m.body.items; last = option_map (λ v. v.items) m.last } };
}

/// The parts of the message that the bytes have, or None where the bytes are no frames of a message. Frames of unknown
/// types are skipped (section 9).
pub fn message_parts(alloc: Global, bytes: &[u8]) -> Result<Option<MessageParts>, Memory>
    ensures found { IfOk result (λ r. IfSome r (λ parts. AreParts bytes.now parts)) }
    ensures none { IfOk result (λ r. IfNone r ((parts : Parts) → AreParts bytes.now parts → ⊥)) }
{
    let Some(frames) = frames(alloc, bytes)? else {
        return Ok(None);
    };
    let known = known(alloc, frames)?;
    parts(alloc, known.as_slice())
}

/// The frames without those of unknown types.
fn known(alloc: Global, frames: Vec<HttpFrame>) -> Result<Vec<HttpFrame>, Memory>
    ensures { IfOk result (λ fs. fs.items ≡ known_frames frames.items) }
{
    let mut known = Vec::new(alloc);
    for frame in frames {
        if is_known(frame.kind()) {
            known.push(frame)?;
        }
    }
    Ok(known)
}

/// Whether a type is known.
fn is_known(kind: u64) -> bool
    ensures { result ≡ list_any (λ k. k == kind) known_kinds }
{
    KNOWN_KINDS.iter().any(|known| *known == kind)
}

/// The parts of frames of known types.
fn parts(alloc: Global, frames: &[HttpFrame]) -> Result<Option<MessageParts>, Memory>
    ensures { IfOk result (λ r. r ≡ parts_at frames.now) }
{
    let [first, rest @ ..] = frames else {
        return Ok(None);
    };
    if first.kind() != HEADERS {
        return Ok(None);
    }
    let (body, rest) = data(alloc, rest)?;
    let Some(last) = last(alloc, rest)? else {
        return Ok(None);
    };
    let section = first.payload().to_vec(alloc)?;
    Ok(Some(MessageParts {
        section,
        body,
        last,
    }))
}

/// The payloads of the DATA frames in front, and the frames that follow them.
fn data(alloc: Global, frames: &[HttpFrame]) -> Result<(Vec<u8>, &[HttpFrame]), Memory>
    ensures body { IfOk result (λ r. r.0.items ≡ concat (data_payloads frames.now)) }
    ensures rest { IfOk result (λ r. r.1.now ≡ after_data frames.now) }
{
    let mut body = Vec::new(alloc);
    let mut rest = frames;
    while let [first, tail @ ..] = rest {
        if first.kind() != DATA {
            return Ok((body, rest));
        }
        body.extend_from_slice(first.payload())?;
        rest = tail;
    }
    Ok((body, rest))
}

/// The section of one HEADERS frame, or of none. None where other frames are left.
fn last(alloc: Global, frames: &[HttpFrame]) -> Result<Option<Option<Vec<u8>>>, Memory>
    ensures { IfOk result (λ r. option_map (option_map (λ v. v.items)) r ≡ last_at frames.now) }
{
    match frames {
        [] => Ok(Some(None)),
        [frame] if frame.kind() == HEADERS => {
            let section = frame.payload().to_vec(alloc)?;
            Ok(Some(Some(section)))
        }
        _ => Ok(None),
    }
}
