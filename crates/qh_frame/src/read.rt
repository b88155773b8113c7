ghost use Rattle.std.specs.Prelude.{◌≡◌, ◌<◌, ◌≤◌, ◌/◌, List, IfOk, IfErr, IfSome};
ghost use Rattle.std.specs.Option.{option_map};
ghost use Rattle.qh_frame.specs.AckAt.{behind_counts};
ghost use Rattle.qh_frame.specs.FrameAt.{fields_at, Begins, BeginsWithType, HasNoFrame};
ghost use Rattle.qh_frame.specs.Plain.{plain_of};
ghost use Rattle.qh_frame.specs.StreamAt.{stream_at, ranged_stream};
ghost use Rattle.qh_frame.specs.TypeOf.{HasType, named, type_of};
ghost use Rattle.qh_spec.specs.FrameTypes as frame_types;
ghost use Rattle.qh_spec.specs.QuicFrame.{has_bit};

mod limits;
mod others;

use crate::fields::{number_of, value_of};
use crate::stream::stream_of;
use crate::types::{
    ACK, ACK_ECN, APPLICATION_CLOSE, CONNECTION_CLOSE, CRYPTO, DATA_BLOCKED, DATAGRAM,
    DATAGRAM_WITH_LENGTH, HANDSHAKE_DONE, MAX_DATA, MAX_STREAM_DATA, MAX_STREAMS_BIDI,
    MAX_STREAMS_UNI, NEW_CONNECTION_ID, PADDING, PATH_CHALLENGE, PATH_RESPONSE, PING, RESET_STREAM,
    RETIRE_CONNECTION_ID, STOP_SENDING, STREAM, STREAM_DATA_BLOCKED, STREAMS_BLOCKED_BIDI,
};
use crate::{Ack, EcnCounts, Frame, FrameFault};
use limits::{
    data_blocked, max_data, max_stream_data, max_streams_bi, max_streams_uni, reset_stream,
    stop_sending, stream_data_blocked, streams_blocked_bi, streams_blocked_uni,
};
use others::{
    application_close, connection_close, crypto, datagram_to_the_end, datagram_with_length,
    new_connection_id, new_token, path_challenge, path_response, retire_connection_id,
};

/// Reads the frame that begins the bytes, and says what follows it. A type may be written in any form.
pub fn get_frame(bytes: &[u8]) -> Result<(Frame<'_>, &[u8]), FrameFault>
    ensures found { IfOk result (λ f. Begins bytes.now (plain_of f.0) f.1.now) }
    ensures kind { IfOk result (λ f. HasType bytes.now f.0) }
    ensures none { IfErr result (λ _. HasNoFrame bytes.now) }
    ensures fault { IfErr result (λ e. BeginsWithType bytes.now e.frame) }
{
    let Some((kind, rest)) = value_of(bytes) else {
        return Err(FrameFault { frame: None });
    };
    let Some((frame, rest)) = fields_of(kind, rest) else {
        return Err(FrameFault { frame: Some(kind) });
    };
    Ok((frame, rest))
}

// The fields behind a type.
fn fields_of(kind: u64, bytes: &[u8]) -> Option<(Frame<'_>, &[u8])>
    ensures fields { option_map (λ f. (plain_of f.0, f.1.now)) result ≡ fields_at kind bytes.now }
    ensures named { IfSome result (λ f. type_of f.0 ≡ named kind) }
{
    match kind {
        ACK | ACK_ECN => ack(kind, bytes),
        PADDING..STREAM => first_of(kind, bytes),
        STREAM..MAX_DATA => stream(kind, bytes),
        MAX_DATA..NEW_CONNECTION_ID => limit_of(kind, bytes),
        NEW_CONNECTION_ID..=HANDSHAKE_DONE => last_of(kind, bytes),
        DATAGRAM => datagram_to_the_end(bytes),
        DATAGRAM_WITH_LENGTH => datagram_with_length(bytes),
        _ => None,
    }
}

// The same of the types below those of STREAM.
#[tactic(auto, unfolding(crate::specs::FrameAt::fields_at, qh_spec::specs::QuicFrames::shape_of))]
fn first_of(kind: u64, bytes: &[u8]) -> Option<(Frame<'_>, &[u8])>
    requires low { kind < 8 }
    requires other { kind / 2 ≡ 1 → ⊥ }
    ensures { option_map (λ f. (plain_of f.0, f.1.now)) result ≡ fields_at kind bytes.now }
{
    match kind {
        PADDING => Some((Frame::Padding, bytes)),
        PING => Some((Frame::Ping, bytes)),
        RESET_STREAM => reset_stream(bytes),
        STOP_SENDING => stop_sending(bytes),
        CRYPTO => crypto(bytes),
        _ => new_token(bytes),
    }
}

// The same of the types that tell a limit, or that it was reached.
fn limit_of(kind: u64, bytes: &[u8]) -> Option<(Frame<'_>, &[u8])>
    requires low { 16 ≤ kind }
    requires high { kind < 24 }
    ensures { option_map (λ f. (plain_of f.0, f.1.now)) result ≡ fields_at kind bytes.now }
{
    match kind {
        MAX_DATA => max_data(bytes),
        MAX_STREAM_DATA => max_stream_data(bytes),
        MAX_STREAMS_BIDI => max_streams_bi(bytes),
        MAX_STREAMS_UNI => max_streams_uni(bytes),
        DATA_BLOCKED => data_blocked(bytes),
        STREAM_DATA_BLOCKED => stream_data_blocked(bytes),
        STREAMS_BLOCKED_BIDI => streams_blocked_bi(bytes),
        _ => streams_blocked_uni(bytes),
    }
}

// The same of the types of connection ids, paths and closes.
#[tactic(auto, unfolding(crate::specs::FrameAt::fields_at, qh_spec::specs::QuicFrames::shape_of))]
fn last_of(kind: u64, bytes: &[u8]) -> Option<(Frame<'_>, &[u8])>
    requires low { 24 ≤ kind }
    requires high { kind < 31 }
    ensures { option_map (λ f. (plain_of f.0, f.1.now)) result ≡ fields_at kind bytes.now }
{
    match kind {
        NEW_CONNECTION_ID => new_connection_id(bytes),
        RETIRE_CONNECTION_ID => retire_connection_id(bytes),
        PATH_CHALLENGE => path_challenge(bytes),
        PATH_RESPONSE => path_response(bytes),
        CONNECTION_CLOSE => connection_close(bytes),
        APPLICATION_CLOSE => application_close(bytes),
        _ => Some((Frame::HandshakeDone, bytes)),
    }
}

// ACK, of either type.
fn ack(kind: u64, bytes: &[u8]) -> Option<(Frame<'_>, &[u8])>
    requires { kind / 2 ≡ 1 }
    ensures fields { option_map (λ f. (plain_of f.0, f.1.now)) result ≡ fields_at kind bytes.now }
    ensures named { IfSome result (λ f. type_of f.0 ≡ kind) }
{
    if kind == ACK {
        ack_alone(bytes)
    } else {
        ack_with_counts(bytes)
    }
}

fn ack_alone(bytes: &[u8]) -> Option<(Frame<'_>, &[u8])>
    ensures fields { option_map (λ f. (plain_of f.0, f.1.now)) result ≡ fields_at frame_types.ack bytes.now }
    ensures named { IfSome result (λ f. type_of f.0 ≡ frame_types.ack) }
{
    let Some((ack, rest)) = Ack::read(bytes) else {
        return None;
    };
    Some((Frame::Ack(ack), rest))
}

#[tactic(auto, unfolding(crate::specs::AckAt::behind_counts))]
fn ack_with_counts(bytes: &[u8]) -> Option<(Frame<'_>, &[u8])>
    ensures fields { option_map (λ f. (plain_of f.0, f.1.now)) result ≡ behind_counts (fields_at frame_types.ack bytes.now) }
    ensures named { IfSome result (λ f. type_of f.0 ≡ frame_types.ack_ecn) }
{
    let Some((mut ack, rest)) = Ack::read(bytes) else {
        return None;
    };
    let Some((ect0, rest)) = number_of(rest) else {
        return None;
    };
    let Some((ect1, rest)) = number_of(rest) else {
        return None;
    };
    let Some((ce, rest)) = number_of(rest) else {
        return None;
    };
    ack.ecn = Some(EcnCounts { ect0, ect1, ce });
    Some((Frame::Ack(ack), rest))
}

// STREAM, in each form.
#[tactic(auto, unfolding(crate::specs::StreamAt::ranged_stream))]
fn stream(kind: u64, bytes: &[u8]) -> Option<(Frame<'_>, &[u8])>
    ensures { option_map (λ f. (plain_of f.0, f.1.now)) result
        ≡ ranged_stream (stream_at (has_bit 4 kind) (has_bit 2 kind) (has_bit 1 kind) bytes.now) }
{
    let Some((stream, rest)) = stream_of(kind, bytes) else {
        return None;
    };
    if stream.offset.into_inner() + stream.payload.len() as u64 >= 1 << 62 {
        return None;
    }
    Some((Frame::Stream(stream), rest))
}
