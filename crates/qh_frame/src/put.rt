ghost use Rattle.std.specs.Prelude.{◌≡◌, ℕ, ◌<◌, ◌≤◌, ◌+◌, ◌^◌, ◌++◌, List, [], ◌∷◌, length, replicate, OnOk, OnErr, if◌then◌else◌};
ghost use Rattle.qh_frame.specs.FrameBytes.{IsPut};
ghost use Rattle.qh_frame.specs.Plain.{frame, by_dir, stream_of};
ghost use Rattle.qh_frame.specs.WrittenForm.{stream_form};
ghost use Rattle.qh_spec.specs.FrameTypes as frame_types;
ghost use Rattle.qh_spec.specs.QuicFrames.{QuicFrame, Num, Text, AreQuicFrames};

use crate::Stream;
use crate::write::{
    number, put_counted, put_numbers, put_one, put_one_counted, put_text, put_three, put_two,
    put_two_counted, put_zeros,
};
use qh_base::{ConnectionId, Dir, FrameType, Memory, ResetToken, StreamId, VarInt};

/// Appends a PING frame (RFC 9000, section 19.2), or nothing.
pub fn put_ping(out: &mut Vec<u8>) -> Result<(), Memory>
    ensures ok { OnOk result (IsPut out.old.items out.new.items (frame frame_types.ping []) (1)) }
    ensures err { OnErr result (out.new.items ≡ out.old.items) }
{
    put_numbers(out, &[FrameType::PING.0])
}

/// Appends a RESET_STREAM frame (RFC 9000, section 19.4), or nothing.
#[tactic(auto, unfolding(qh_spec::specs::QuicFrames::shape_of))]
pub fn put_reset_stream(
    out: &mut Vec<u8>,
    id: StreamId,
    error_code: VarInt,
    final_size: VarInt,
) -> Result<(), Memory>
    requires id { id.0 < 2 ^ 62 }
    ensures ok { OnOk result (IsPut out.old.items out.new.items (frame frame_types.reset_stream (Num id.0 ∷ Num error_code ∷ Num final_size ∷ [])) (25)) }
    ensures err { OnErr result (out.new.items ≡ out.old.items) }
{
    put_three(
        out,
        FrameType::RESET_STREAM.0,
        number(id.0),
        error_code,
        final_size,
    )
}

/// Appends a STOP_SENDING frame (RFC 9000, section 19.5), or nothing.
#[tactic(auto, unfolding(qh_spec::specs::QuicFrames::shape_of))]
pub fn put_stop_sending(out: &mut Vec<u8>, id: StreamId, error_code: VarInt) -> Result<(), Memory>
    requires id { id.0 < 2 ^ 62 }
    ensures ok { OnOk result (IsPut out.old.items out.new.items (frame frame_types.stop_sending (Num id.0 ∷ Num error_code ∷ [])) (17)) }
    ensures err { OnErr result (out.new.items ≡ out.old.items) }
{
    put_two(out, FrameType::STOP_SENDING.0, number(id.0), error_code)
}

/// Appends a CRYPTO frame (RFC 9000, section 19.6), or nothing.
#[tactic(auto, unfolding(qh_spec::specs::QuicFrames::shape_of))]
pub fn put_crypto(out: &mut Vec<u8>, offset: VarInt, payload: &[u8]) -> Result<(), Memory>
    requires { length payload.now < 2 ^ 62 }
    ensures ok { OnOk result (IsPut out.old.items out.new.items (frame frame_types.crypto (Num offset ∷ Text payload.now ∷ [])) (17 + length payload.now)) }
    ensures err { OnErr result (out.new.items ≡ out.old.items) }
{
    put_one_counted(out, FrameType::CRYPTO.0, offset, payload)
}

/// Appends a NEW_TOKEN frame (RFC 9000, section 19.7), or nothing. A token is never empty.
#[tactic(auto, unfolding(qh_spec::specs::QuicFrames::shape_of))]
pub fn put_new_token(out: &mut Vec<u8>, token: &[u8]) -> Result<(), Memory>
    requires some { 1 ≤ length token.now }
    requires short { length token.now < 2 ^ 62 }
    ensures ok { OnOk result (IsPut out.old.items out.new.items (frame frame_types.new_token (Text token.now ∷ [])) (9 + length token.now)) }
    ensures err { OnErr result (out.new.items ≡ out.old.items) }
{
    put_counted(out, FrameType::NEW_TOKEN.0, token)
}

/// Appends a MAX_DATA frame (RFC 9000, section 19.9), or nothing.
#[tactic(auto, unfolding(qh_spec::specs::QuicFrames::shape_of))]
pub fn put_max_data(out: &mut Vec<u8>, limit: VarInt) -> Result<(), Memory>
    ensures ok { OnOk result (IsPut out.old.items out.new.items (frame frame_types.max_data (Num limit ∷ [])) (9)) }
    ensures err { OnErr result (out.new.items ≡ out.old.items) }
{
    put_one(out, FrameType::MAX_DATA.0, limit)
}

/// Appends a MAX_STREAM_DATA frame (RFC 9000, section 19.10), or nothing.
#[tactic(auto, unfolding(qh_spec::specs::QuicFrames::shape_of))]
pub fn put_max_stream_data(out: &mut Vec<u8>, id: StreamId, offset: VarInt) -> Result<(), Memory>
    requires id { id.0 < 2 ^ 62 }
    ensures ok { OnOk result (IsPut out.old.items out.new.items (frame frame_types.max_stream_data (Num id.0 ∷ Num offset ∷ [])) (17)) }
    ensures err { OnErr result (out.new.items ≡ out.old.items) }
{
    put_two(out, FrameType::MAX_STREAM_DATA.0, number(id.0), offset)
}

/// Appends a MAX_STREAMS frame of a direction (RFC 9000, section 19.11), or nothing.
#[tactic(auto, unfolding(qh_spec::specs::QuicFrames::shape_of))]
pub fn put_max_streams(out: &mut Vec<u8>, dir: Dir, count: VarInt) -> Result<(), Memory>
    ensures ok { OnOk result (IsPut out.old.items out.new.items (frame (by_dir dir frame_types.max_streams_bidi frame_types.max_streams_uni) (Num count ∷ [])) (9)) }
    ensures err { OnErr result (out.new.items ≡ out.old.items) }
{
    match dir {
        Dir::Bi => put_one(out, FrameType::MAX_STREAMS_BIDI.0, count),
        Dir::Uni => put_one(out, FrameType::MAX_STREAMS_UNI.0, count),
    }
}

/// Appends a RETIRE_CONNECTION_ID frame (RFC 9000, section 19.16), or nothing.
#[tactic(auto, unfolding(qh_spec::specs::QuicFrames::shape_of))]
pub fn put_retire_connection_id(out: &mut Vec<u8>, sequence: VarInt) -> Result<(), Memory>
    ensures ok { OnOk result (IsPut out.old.items out.new.items (frame frame_types.retire_connection_id (Num sequence ∷ [])) (9)) }
    ensures err { OnErr result (out.new.items ≡ out.old.items) }
{
    put_one(out, FrameType::RETIRE_CONNECTION_ID.0, sequence)
}

/// Appends a CONNECTION_CLOSE frame of the transport (RFC 9000, section 19.19), or nothing. The type is that of the frame at
/// fault, 0 where none is known.
#[tactic(auto, unfolding(qh_spec::specs::QuicFrames::shape_of))]
pub fn put_connection_close(
    out: &mut Vec<u8>,
    code: VarInt,
    frame_type: VarInt,
    reason: &[u8],
) -> Result<(), Memory>
    requires { length reason.now < 2 ^ 62 }
    ensures ok { OnOk result (IsPut out.old.items out.new.items (frame frame_types.connection_close (Num code ∷ Num frame_type ∷ Text reason.now ∷ [])) (25 + length reason.now)) }
    ensures err { OnErr result (out.new.items ≡ out.old.items) }
{
    put_two_counted(out, FrameType::CONNECTION_CLOSE.0, code, frame_type, reason)
}

/// Appends a CONNECTION_CLOSE frame of the application (RFC 9000, section 19.19), or nothing.
#[tactic(auto, unfolding(qh_spec::specs::QuicFrames::shape_of))]
pub fn put_application_close(out: &mut Vec<u8>, code: VarInt, reason: &[u8]) -> Result<(), Memory>
    requires { length reason.now < 2 ^ 62 }
    ensures ok { OnOk result (IsPut out.old.items out.new.items (frame frame_types.application_close (Num code ∷ Text reason.now ∷ [])) (17 + length reason.now)) }
    ensures err { OnErr result (out.new.items ≡ out.old.items) }
{
    put_one_counted(out, FrameType::APPLICATION_CLOSE.0, code, reason)
}

/// Appends a DATAGRAM frame with its length (RFC 9221, section 4), or nothing.
#[tactic(auto, unfolding(qh_spec::specs::QuicFrames::shape_of))]
pub fn put_datagram(out: &mut Vec<u8>, payload: &[u8]) -> Result<(), Memory>
    requires { length payload.now < 2 ^ 62 }
    ensures ok { OnOk result (IsPut out.old.items out.new.items (frame frame_types.datagram_with_length (Text payload.now ∷ [])) (9 + length payload.now)) }
    ensures err { OnErr result (out.new.items ≡ out.old.items) }
{
    put_counted(out, FrameType::DATAGRAM_WITH_LENGTH.0, payload)
}

/// Appends a PATH_RESPONSE frame (RFC 9000, section 19.18), or nothing.
pub fn put_path_response(out: &mut Vec<u8>, bytes: &[u8; 8]) -> Result<(), Memory>
    ensures ok { OnOk result (IsPut out.old.items out.new.items (frame frame_types.path_response (Text bytes.now ∷ [])) (9)) }
    ensures err { OnErr result (out.new.items ≡ out.old.items) }
{
    put_text(out, &[FrameType::PATH_RESPONSE.0], bytes)
}

/// Appends a NEW_CONNECTION_ID frame (RFC 9000, section 19.15), or nothing.
pub fn put_new_connection_id(
    out: &mut Vec<u8>,
    sequence: VarInt,
    retire_prior_to: VarInt,
    id: ConnectionId,
    reset_token: ResetToken,
) -> Result<(), Memory>
    ensures ok { OnOk result (IsPut out.old.items out.new.items (frame frame_types.new_connection_id (Num sequence ∷ Num retire_prior_to ∷ Text id ∷ Text reset_token.0 ∷ [])) (34 + length id)) }
    ensures err { OnErr result (out.new.items ≡ out.old.items) }
{
    put_id_with_token(out, sequence, retire_prior_to, id, &reset_token.0)
}

// The same of a token's bytes.
fn put_id_with_token(
    out: &mut Vec<u8>,
    sequence: VarInt,
    retire_prior_to: VarInt,
    id: ConnectionId,
    token: &[u8; 16],
) -> Result<(), Memory>
    ensures ok { OnOk result (IsPut out.old.items out.new.items (frame frame_types.new_connection_id (Num sequence ∷ Num retire_prior_to ∷ Text id ∷ Text token.now ∷ [])) (34 + length id)) }
    ensures err { OnErr result (out.new.items ≡ out.old.items) }
{
    let start = out.len();
    let sequence = sequence.into_inner();
    let prior = retire_prior_to.into_inner();
    put_text(
        out,
        &[
            FrameType::NEW_CONNECTION_ID.0,
            sequence,
            prior,
            id.len() as u64,
        ],
        id.bytes(),
    )?;
    if out.extend_from_slice(token).is_err() {
        out.truncate(start);
        return Err(Memory);
    }
    Ok(())
}

/// Appends a STREAM frame (RFC 9000, section 19.8) with its length always and its offset where that isn't 0, or nothing.
pub fn put_stream(out: &mut Vec<u8>, stream: Stream<'_>) -> Result<(), Memory>
    requires id { stream.id.0 < 2 ^ 62 }
    requires payload { length stream.payload.now < 2 ^ 62 }
    ensures ok { OnOk result (IsPut out.old.items out.new.items (stream_form (stream_of stream.entry)) (25 + length stream.entry.payload.now)) }
    ensures err { OnErr result (out.new.items ≡ out.old.items) }
{
    let id = number(stream.id.0);
    if stream.offset.into_inner() == 0 {
        put_one_counted(out, stream_type(false, stream.fin), id, stream.payload)
    } else {
        put_two_counted(
            out,
            stream_type(true, stream.fin),
            id,
            stream.offset,
            stream.payload,
        )
    }
}

/// Appends the head of a STREAM frame, as `put_stream` writes it, or nothing. With so many bytes behind it, it is that frame.
pub fn put_stream_head(
    out: &mut Vec<u8>,
    id: StreamId,
    offset: VarInt,
    payload_len: u64,
    fin: bool,
) -> Result<(), Memory>
    requires id { id.0 < 2 ^ 62 }
    requires payload { payload_len < 2 ^ 62 }
    ensures ok { OnOk result ((payload : List ℕ) → length payload ≡ payload_len
        → IsPut out.old.items (out.new.items ++ payload) (stream_form (record { id = id.0; offset = offset; payload = payload; fin = fin })) (25 + payload_len)) }
    ensures err { OnErr result (out.new.items ≡ out.old.items) }
{
    let offset = offset.into_inner();
    if offset == 0 {
        let kind = stream_type(false, fin);
        put_numbers(out, &[kind, id.0, payload_len])
    } else {
        let kind = stream_type(true, fin);
        put_numbers(out, &[kind, id.0, offset, payload_len])
    }
}

// The type of a STREAM frame with a length.
fn stream_type(has_offset: bool, fin: bool) -> u64
    ensures { result ≡ 10 + (if has_offset then 4 else 0) + (if fin then 1 else 0) }
{
    0x0a + if has_offset { 4 } else { 0 } + if fin { 1 } else { 0 }
}

/// Appends so many PADDING frames (RFC 9000, section 19.1), or nothing.
pub fn put_padding(out: &mut Vec<u8>, count: usize) -> Result<(), Memory>
    ensures ok { OnOk result (out.new.items ≡ out.old.items ++ replicate count 0) }
    ensures err { OnErr result (out.new.items ≡ out.old.items) }
    ensures frames { (rest : List ℕ) (fs : List QuicFrame) → AreQuicFrames rest fs
        → AreQuicFrames (replicate count 0 ++ rest) (replicate count (frame frame_types.padding []) ++ fs) }
{
    put_zeros(out, count)
}
