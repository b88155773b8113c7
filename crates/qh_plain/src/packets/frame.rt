ghost use Rattle.std.specs.Prelude.{◌≡◌, ℕ, ◌<◌, List, map, IfOk, IfSome, IfNone};
ghost use Rattle.std.specs.Option.{option_map};
ghost use Rattle.qh_spec.specs.QuicFrame.{has_bit as has_bit_of_type};
ghost use Rattle.qh_spec.specs.QuicFrames.{Value as AValue, QuicFrame, shape_of as shape_by_type, stream_shape as stream_shape_by_bits, AreValues, IsQuicFrame, AreQuicFrames};
ghost use Rattle.qh_plain.specs.Packets.{part_of};

use super::value::{FieldValue, Part, read_number};
use crate::types::{
    ACK, ACK_ECN, APPLICATION_CLOSE, CONNECTION_CLOSE, CRYPTO, DATA_BLOCKED, DATAGRAM,
    DATAGRAM_WITH_LENGTH, HANDSHAKE_DONE, LENGTH_BIT, MAX_DATA, MAX_STREAM_DATA, MAX_STREAMS_BIDI,
    MAX_STREAMS_UNI, NEW_CONNECTION_ID, NEW_TOKEN, OFFSET_BIT, PADDING, PATH_CHALLENGE,
    PATH_RESPONSE, PING, RESET_STREAM, RETIRE_CONNECTION_ID, STOP_SENDING, STREAM,
    STREAM_DATA_BLOCKED, STREAMS_BLOCKED_BIDI, STREAMS_BLOCKED_UNI, has_bit,
};
use qh_base::Memory;
use std::alloc::Global;
use std::marker::Model;

/// A frame of QUIC: its type, and its fields in order (RFC 9000, section 12.4).
#[derive(Drop)]
pub struct Frame {
    kind: u64,
    values: Vec<FieldValue>,
}

impl Model for Frame {
    ghost use Rattle.qh_spec.specs.QuicFrames.{QuicFrame as AFrame};

    ghost Value = { AFrame };

    ghost view = { λ f. record { kind = f.kind; values = f.values.items } };
}

impl Frame {
    /// Its type.
    pub fn kind(&self) -> u64
        ensures { result ≡ self.now.kind }
    {
        self.kind
    }

    /// Its fields in order.
    pub fn values(&self) -> &[FieldValue]
        ensures { result.now ≡ self.now.values }
    {
        &self.values
    }

    /// The frame that begins the bytes, and what follows it.
    fn read(alloc: Global, bytes: &[u8]) -> Result<Option<(Frame, &[u8])>, Memory>
        ensures found { IfOk result (λ r. IfSome r (λ f. IsQuicFrame bytes.now f.0 f.1.now)) }
        ensures none { IfOk result (λ r. IfNone r ((f : QuicFrame) (rest : List ℕ) → IsQuicFrame bytes.now f rest → ⊥)) }
    {
        let Some((kind, fields)) = read_number(bytes) else {
            return Ok(None);
        };
        let Some(shape) = shape_of(kind) else {
            return Ok(None);
        };
        let Some((values, rest)) = read_values(alloc, shape, fields)? else {
            return Ok(None);
        };
        Ok(Some((Frame { kind, values }, rest)))
    }
}

/// The fields of each type (RFC 9000, sections 19.1 to 19.20, and RFC 9221, section 4).
#[tactic(auto, unfolding(qh_spec::specs::QuicFrames::shape_of))]
fn shape_of(kind: u64) -> Option<&'static [Part]>
    ensures { option_map (λ parts. map part_of parts.now) result ≡ shape_by_type kind }
{
    match kind {
        PADDING | PING | HANDSHAKE_DONE => Some(&[]),
        ACK => Some(&[Part::Number, Part::Number, Part::Ranges]),
        ACK_ECN => Some(&[
            Part::Number,
            Part::Number,
            Part::Ranges,
            Part::Number,
            Part::Number,
            Part::Number,
        ]),
        RESET_STREAM => Some(&[Part::Number, Part::Number, Part::Number]),
        STOP_SENDING | MAX_STREAM_DATA | STREAM_DATA_BLOCKED => Some(&[Part::Number, Part::Number]),
        CRYPTO | APPLICATION_CLOSE => Some(&[Part::Number, Part::Counted]),
        NEW_TOKEN | DATAGRAM_WITH_LENGTH => Some(&[Part::Counted]),
        STREAM..MAX_DATA => Some(stream_shape(kind)),
        MAX_DATA
        | MAX_STREAMS_BIDI
        | MAX_STREAMS_UNI
        | DATA_BLOCKED
        | STREAMS_BLOCKED_BIDI
        | STREAMS_BLOCKED_UNI
        | RETIRE_CONNECTION_ID => Some(&[Part::Number]),
        NEW_CONNECTION_ID => Some(&[
            Part::Number,
            Part::Number,
            Part::ShortCounted,
            Part::Fixed(16),
        ]),
        PATH_CHALLENGE | PATH_RESPONSE => Some(&[Part::Fixed(8)]),
        CONNECTION_CLOSE => Some(&[Part::Number, Part::Number, Part::Counted]),
        DATAGRAM => Some(&[Part::Left]),
        _ => None,
    }
}

/// The fields of a STREAM frame of this type (RFC 9000, section 19.8).
fn stream_shape(kind: u64) -> &'static [Part]
    ensures { map part_of result.now ≡ stream_shape_by_bits (has_bit_of_type 4 kind) (has_bit_of_type 2 kind) }
{
    match (has_bit(kind, OFFSET_BIT), has_bit(kind, LENGTH_BIT)) {
        (false, false) => &[Part::Number, Part::Left],
        (false, true) => &[Part::Number, Part::Counted],
        (true, false) => &[Part::Number, Part::Number, Part::Left],
        (true, true) => &[Part::Number, Part::Number, Part::Counted],
    }
}

/// The values of such fields that begin the bytes, and what follows them.
fn read_values<'a>(
    alloc: Global,
    shape: &[Part],
    bytes: &'a [u8],
) -> Result<Option<(Vec<FieldValue>, &'a [u8])>, Memory>
    ensures found { IfOk result (λ r. IfSome r (λ f. AreValues (map part_of shape.now) bytes.now f.0.items f.1.now)) }
    ensures none { IfOk result (λ r. IfNone r ((vs : List AValue) (rest : List ℕ) → AreValues (map part_of shape.now) bytes.now vs rest → ⊥)) }
{
    let mut values = Vec::new(alloc);
    let mut rest = bytes;
    for part in shape {
        let Some((value, after)) = part.read(alloc, rest)? else {
            return Ok(None);
        };
        values.push(value)?;
        rest = after;
    }
    Ok(Some((values, rest)))
}

/// The frames that bytes are.
pub(super) fn read_frames(alloc: Global, bytes: &[u8]) -> Result<Option<Vec<Frame>>, Memory>
    ensures found { IfOk result (λ r. IfSome r (λ frames. AreQuicFrames bytes.now frames.items)) }
    ensures none { IfOk result (λ r. IfNone r ((frames : List QuicFrame) → AreQuicFrames bytes.now frames → ⊥)) }
{
    let mut frames = Vec::new(alloc);
    let mut rest = bytes;
    while !rest.is_empty() {
        let Some((frame, after)) = Frame::read(alloc, rest)? else {
            return Ok(None);
        };
        frames.push(frame)?;
        rest = after;
    }
    Ok(Some(frames))
}
