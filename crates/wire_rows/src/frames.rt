//! Frames of QUIC, read.
use crate::frames_written::write;
use crate::say::{Answer, dir_name, put, put_content, put_hex, put_named};
use qh_base::{ConnectionId, Dir, ResetToken, StreamId, VarInt};
use qh_frame::{Ack, AckRange, EcnCounts, Frame, FrameFault, Stream, get_frame};
use qh_packet::{PacketFault, ValidFrames, validate_frames};
use row_text::{RowFault, Words, put_hex_number, put_number};
use std::alloc::Global;

/// Answers a row. Whether its word is known.
pub(crate) fn answer(
    alloc: Global,
    word: &str,
    words: &mut Words<'_>,
    out: &mut Vec<u8>,
) -> Result<bool, RowFault> {
    match word {
        "frame" | "survey" => tell(alloc, out, word, words)?,
        "put" => write(alloc, out, words)?,
        _ => return Ok(false),
    }
    Ok(true)
}

// Tells what this word says of bytes.
fn tell(alloc: Global, out: &mut Vec<u8>, word: &str, words: &mut Words<'_>) -> Answer {
    let bytes = words.bytes(alloc)?;
    if word == "frame" {
        read(out, &bytes)
    } else {
        tell_survey(out, &bytes)
    }
}

// Reads the frame that begins the bytes, and tells how many are left behind it.
fn read(out: &mut Vec<u8>, bytes: &[u8]) -> Answer {
    match first(bytes) {
        Ok((frame, left)) => {
            put_frame(out, &frame)?;
            put_named(out, ", left", left.len() as u64)
        }
        Err(fault) => put_fault(out, fault),
    }
}

fn first(bytes: &[u8]) -> Result<(Frame<'_>, &[u8]), FrameFault> {
    get_frame(bytes)
}

fn put_fault(out: &mut Vec<u8>, fault: FrameFault) -> Answer {
    match fault.frame {
        Some(kind) => {
            put(out, "fault ")?;
            put_hex_number(out, kind)?;
            Ok(())
        }
        None => put(out, "fault without a type"),
    }
}

// Tells whether a packet of these frames wants an acknowledgement.
fn tell_survey(out: &mut Vec<u8>, bytes: &[u8]) -> Answer {
    match surveyed(bytes) {
        Ok(survey) => put(
            out,
            if survey.is_ack_eliciting {
                "ack-eliciting"
            } else {
                "quiet"
            },
        ),
        Err(PacketFault::Empty) => put(out, "empty"),
        Err(PacketFault::Frame(fault)) => put_fault(out, fault),
    }
}

fn surveyed(bytes: &[u8]) -> Result<ValidFrames, PacketFault> {
    validate_frames(bytes)
}

// Appends a frame.
fn put_frame(out: &mut Vec<u8>, frame: &Frame<'_>) -> Answer {
    match frame {
        Frame::Padding => put(out, "PADDING"),
        Frame::Ping => put(out, "PING"),
        Frame::HandshakeDone => put(out, "HANDSHAKE_DONE"),
        Frame::Ack(ack) => put_ack(out, ack),
        Frame::Stream(stream) => put_stream(out, stream),
        Frame::Crypto { offset, payload } => put_counted(out, "CRYPTO offset", *offset, payload),
        Frame::NewToken { token } => put_payload(out, "NEW_TOKEN ", token),
        Frame::PathChallenge(bytes) => put_payload(out, "PATH_CHALLENGE ", bytes),
        Frame::PathResponse(bytes) => put_payload(out, "PATH_RESPONSE ", bytes),
        Frame::Datagram {
            payload,
            has_length,
        } => put_payload(
            out,
            if *has_length {
                "DATAGRAM with length "
            } else {
                "DATAGRAM without length "
            },
            payload,
        ),
        Frame::ApplicationClose { code, reason } => put_counted(
            out,
            "APPLICATION_CLOSE code",
            *code,
            reason,
        ),
        Frame::ConnectionClose {
            code,
            frame_type,
            reason,
        } => put_close(out, *code, *frame_type, reason),
        _ => put_plain(out, frame),
    }
}

// Appends a frame of ids and numbers alone.
fn put_plain(out: &mut Vec<u8>, frame: &Frame<'_>) -> Answer {
    match frame {
        Frame::ResetStream {
            id,
            error_code,
            final_size,
        } => put_reset(out, *id, *error_code, *final_size),
        Frame::StopSending { id, error_code } => put_two(
            out,
            "STOP_SENDING",
            *id,
            " code",
            *error_code,
        ),
        Frame::MaxData(limit) => put_one(out, "MAX_DATA limit", *limit),
        Frame::MaxStreamData { id, offset } => put_two(
            out,
            "MAX_STREAM_DATA",
            *id,
            " limit",
            *offset,
        ),
        Frame::MaxStreams { dir, count } => put_streams(out, "MAX_STREAMS ", *dir, *count),
        Frame::DataBlocked { offset } => put_one(out, "DATA_BLOCKED limit", *offset),
        Frame::StreamDataBlocked { id, offset } => put_two(
            out,
            "STREAM_DATA_BLOCKED",
            *id,
            " limit",
            *offset,
        ),
        Frame::StreamsBlocked { dir, limit } => put_streams(out, "STREAMS_BLOCKED ", *dir, *limit),
        Frame::NewConnectionId {
            sequence,
            retire_prior_to,
            id,
            reset_token,
        } => put_id(out, *sequence, *retire_prior_to, id, reset_token),
        Frame::RetireConnectionId { sequence } => put_one(
            out,
            "RETIRE_CONNECTION_ID sequence",
            *sequence,
        ),
        _ => Ok(()),
    }
}

fn put_one(out: &mut Vec<u8>, name: &str, number: VarInt) -> Answer {
    put_named(out, name, number.into_inner())
}

fn put_two(out: &mut Vec<u8>, name: &str, id: StreamId, label: &str, number: VarInt) -> Answer {
    put(out, name)?;
    put_named(out, " stream", id.0)?;
    put_one(out, label, number)
}

fn put_reset(out: &mut Vec<u8>, id: StreamId, code: VarInt, size: VarInt) -> Answer {
    put_two(out, "RESET_STREAM", id, " code", code)?;
    put_one(out, " size", size)
}

fn put_streams(out: &mut Vec<u8>, name: &str, dir: Dir, count: VarInt) -> Answer {
    put(out, name)?;
    put(out, dir_name(dir))?;
    put_one(out, " count", count)
}

fn put_payload(out: &mut Vec<u8>, name: &str, payload: &[u8]) -> Answer {
    put(out, name)?;
    put_content(out, payload)
}

fn put_counted(out: &mut Vec<u8>, name: &str, number: VarInt, payload: &[u8]) -> Answer {
    put_one(out, name, number)?;
    put_payload(out, " ", payload)
}

fn put_close(out: &mut Vec<u8>, code: VarInt, frame: VarInt, reason: &[u8]) -> Answer {
    put_one(out, "CONNECTION_CLOSE code", code)?;
    put_counted(out, " frame", frame, reason)
}

fn put_stream(out: &mut Vec<u8>, stream: &Stream<'_>) -> Answer {
    put_two(out, "STREAM", stream.id, " offset", stream.offset)?;
    put_payload(
        out,
        if stream.fin { " fin " } else { " open " },
        stream.payload,
    )
}

fn put_id(
    out: &mut Vec<u8>,
    sequence: VarInt,
    prior: VarInt,
    id: &ConnectionId,
    token: &ResetToken,
) -> Answer {
    put_one(out, "NEW_CONNECTION_ID sequence", sequence)?;
    put_one(out, " prior", prior)?;
    put(out, " id ")?;
    put_hex(out, id.bytes())?;
    put_payload(out, " token ", &token.0)
}

// Appends an acknowledgement with its ranges, and with its counts if it has any.
fn put_ack(out: &mut Vec<u8>, ack: &Ack<'_>) -> Answer {
    put_one(out, "ACK delay", ack.delay)?;
    let (range, mut rest) = ack.split();
    put_range(out, range)?;
    for _range in 0..u64::MAX {
        let Some(ranges) = rest else {
            break;
        };
        let (range, below) = ranges.split();
        put_range(out, range)?;
        rest = below;
    }
    match ack.ecn {
        Some(counts) => put_counts(out, counts),
        None => Ok(()),
    }
}

fn put_counts(out: &mut Vec<u8>, counts: EcnCounts) -> Answer {
    put_one(out, " ect0", counts.ect0)?;
    put_one(out, " ect1", counts.ect1)?;
    put_one(out, " ce", counts.ce)
}

fn put_range(out: &mut Vec<u8>, range: AckRange) -> Answer {
    put_named(out, "", range.least)?;
    put(out, "-")?;
    put_number(out, range.greatest)?;
    Ok(())
}
