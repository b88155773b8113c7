ghost use Rattle.std.specs.Prelude.{◌≡◌, List, IfSome};
ghost use Rattle.std.specs.Option.{option_map};
ghost use Rattle.qh_frame.specs.FrameAt.{fields_at};
ghost use Rattle.qh_frame.specs.Plain.{plain_of};
ghost use Rattle.qh_frame.specs.TypeOf.{type_of};
ghost use Rattle.qh_spec.specs.FrameTypes as frame_types;

use crate::Frame;
use crate::fields::{array_of, counted_of, number_of, short_of};
use qh_base::{ConnectionId, ResetToken};

// CRYPTO.
#[tactic(auto, unfolding(crate::specs::FrameAt::fields_at, qh_spec::specs::QuicFrames::shape_of))]
pub(super) fn crypto(bytes: &[u8]) -> Option<(Frame<'_>, &[u8])>
    ensures { option_map (λ f. (plain_of f.0, f.1.now)) result ≡ fields_at frame_types.crypto bytes.now }
{
    let Some((offset, rest)) = number_of(bytes) else {
        return None;
    };
    let Some((payload, rest)) = counted_of(rest) else {
        return None;
    };
    if offset.into_inner() + payload.len() as u64 >= 1 << 62 {
        return None;
    }
    Some((Frame::Crypto { offset, payload }, rest))
}

// NEW_TOKEN.
#[tactic(auto, unfolding(crate::specs::FrameAt::fields_at, qh_spec::specs::QuicFrames::shape_of))]
pub(super) fn new_token(bytes: &[u8]) -> Option<(Frame<'_>, &[u8])>
    ensures { option_map (λ f. (plain_of f.0, f.1.now)) result ≡ fields_at frame_types.new_token bytes.now }
{
    let Some((token, rest)) = counted_of(bytes) else {
        return None;
    };
    if token.is_empty() {
        return None;
    }
    Some((Frame::NewToken { token }, rest))
}

// RETIRE_CONNECTION_ID.
#[tactic(auto, unfolding(crate::specs::FrameAt::fields_at, qh_spec::specs::QuicFrames::shape_of))]
pub(super) fn retire_connection_id(bytes: &[u8]) -> Option<(Frame<'_>, &[u8])>
    ensures { option_map (λ f. (plain_of f.0, f.1.now)) result ≡ fields_at frame_types.retire_connection_id bytes.now }
{
    let Some((sequence, rest)) = number_of(bytes) else {
        return None;
    };
    Some((Frame::RetireConnectionId { sequence }, rest))
}

// PATH_CHALLENGE.
#[tactic(auto, unfolding(crate::specs::FrameAt::fields_at, qh_spec::specs::QuicFrames::shape_of))]
pub(super) fn path_challenge(bytes: &[u8]) -> Option<(Frame<'_>, &[u8])>
    ensures { option_map (λ f. (plain_of f.0, f.1.now)) result ≡ fields_at frame_types.path_challenge bytes.now }
{
    let Some((bytes, rest)) = array_of(bytes) else {
        return None;
    };
    Some((Frame::PathChallenge(*bytes), rest))
}

// PATH_RESPONSE.
#[tactic(auto, unfolding(crate::specs::FrameAt::fields_at, qh_spec::specs::QuicFrames::shape_of))]
pub(super) fn path_response(bytes: &[u8]) -> Option<(Frame<'_>, &[u8])>
    ensures { option_map (λ f. (plain_of f.0, f.1.now)) result ≡ fields_at frame_types.path_response bytes.now }
{
    let Some((bytes, rest)) = array_of(bytes) else {
        return None;
    };
    Some((Frame::PathResponse(*bytes), rest))
}

// CONNECTION_CLOSE of the transport.
#[tactic(auto, unfolding(crate::specs::FrameAt::fields_at, qh_spec::specs::QuicFrames::shape_of))]
pub(super) fn connection_close(bytes: &[u8]) -> Option<(Frame<'_>, &[u8])>
    ensures { option_map (λ f. (plain_of f.0, f.1.now)) result ≡ fields_at frame_types.connection_close bytes.now }
{
    let Some((code, rest)) = number_of(bytes) else {
        return None;
    };
    let Some((frame_type, rest)) = number_of(rest) else {
        return None;
    };
    let Some((reason, rest)) = counted_of(rest) else {
        return None;
    };
    Some((
        Frame::ConnectionClose {
            code,
            frame_type,
            reason,
        },
        rest,
    ))
}

// CONNECTION_CLOSE of the application.
#[tactic(auto, unfolding(crate::specs::FrameAt::fields_at, qh_spec::specs::QuicFrames::shape_of))]
pub(super) fn application_close(bytes: &[u8]) -> Option<(Frame<'_>, &[u8])>
    ensures { option_map (λ f. (plain_of f.0, f.1.now)) result ≡ fields_at frame_types.application_close bytes.now }
{
    let Some((code, rest)) = number_of(bytes) else {
        return None;
    };
    let Some((reason, rest)) = counted_of(rest) else {
        return None;
    };
    Some((Frame::ApplicationClose { code, reason }, rest))
}

// DATAGRAM with its length.
#[tactic(auto, unfolding(crate::specs::FrameAt::fields_at, qh_spec::specs::QuicFrames::shape_of))]
pub(super) fn datagram_with_length(bytes: &[u8]) -> Option<(Frame<'_>, &[u8])>
    ensures fields { option_map (λ f. (plain_of f.0, f.1.now)) result ≡ fields_at frame_types.datagram_with_length bytes.now }
    ensures named { IfSome result (λ f. type_of f.0 ≡ frame_types.datagram_with_length) }
{
    let Some((payload, rest)) = counted_of(bytes) else {
        return None;
    };
    Some((
        Frame::Datagram {
            payload,
            has_length: true,
        },
        rest,
    ))
}

// NEW_CONNECTION_ID.
#[tactic(auto, unfolding(crate::specs::FrameAt::fields_at, qh_spec::specs::QuicFrames::shape_of))]
pub(super) fn new_connection_id(bytes: &[u8]) -> Option<(Frame<'_>, &[u8])>
    ensures { option_map (λ f. (plain_of f.0, f.1.now)) result ≡ fields_at frame_types.new_connection_id bytes.now }
{
    let Some((sequence, rest)) = number_of(bytes) else {
        return None;
    };
    let Some((retire_prior_to, rest)) = number_of(rest) else {
        return None;
    };
    let Some((id, rest)) = short_of(rest) else {
        return None;
    };
    let Some((token, rest)) = array_of(rest) else {
        return None;
    };
    if retire_prior_to > sequence {
        return None;
    }
    if id.is_empty() {
        return None;
    }
    let Some(id) = ConnectionId::new(id) else {
        return None;
    };
    Some((
        Frame::NewConnectionId {
            sequence,
            retire_prior_to,
            id,
            reset_token: ResetToken(*token),
        },
        rest,
    ))
}

// DATAGRAM to the packet's end.
#[tactic(auto, unfolding(crate::specs::FrameAt::fields_at, qh_spec::specs::QuicFrames::shape_of))]
pub(super) fn datagram_to_the_end(bytes: &[u8]) -> Option<(Frame<'_>, &[u8])>
    ensures fields { option_map (λ f. (plain_of f.0, f.1.now)) result ≡ fields_at frame_types.datagram bytes.now }
    ensures named { IfSome result (λ f. type_of f.0 ≡ frame_types.datagram) }
{
    Some((
        Frame::Datagram {
            payload: bytes,
            has_length: false,
        },
        &bytes[bytes.len()..],
    ))
}
