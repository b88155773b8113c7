//! Frames of QUIC, written.
ghost use Rattle.std.specs.Prelude.{IsTrue};
ghost use Rattle.qh_frame.specs.AckWritten.{AreApart, AreBelow};

use crate::say::{Answer, dir, put_hex, varint};
use qh_base::{ConnectionId, Memory, ResetToken, StreamId, VarInt};
use qh_frame::{
    AckRange, Stream, put_ack, put_application_close, put_connection_close, put_crypto,
    put_datagram, put_max_data, put_max_stream_data, put_max_streams, put_new_connection_id,
    put_new_token, put_padding, put_path_response, put_ping, put_reset_stream,
    put_retire_connection_id, put_stop_sending, put_stream, put_stream_head,
};
use row_text::{RowFault, Words};
use std::alloc::Global;

/// Writes the frame that the words tell.
pub(crate) fn write(alloc: Global, out: &mut Vec<u8>, words: &mut Words<'_>) -> Answer {
    let mut frame = Vec::new(alloc);
    put_plain(alloc, &mut frame, words)?;
    put_hex(out, &frame)
}

// Writes a frame of numbers alone.
fn put_plain(alloc: Global, out: &mut Vec<u8>, words: &mut Words<'_>) -> Answer {
    match words.next() {
        "PADDING" => put_padding(out, words.number()?.min(1 << 20) as usize)?,
        "PING" => put_ping(out)?,
        "ACK" => acknowledgement(alloc, out, words)?,
        "MAX_DATA" => put_max_data(out, varint(words)?)?,
        "MAX_STREAMS" => put_max_streams(out, dir(words)?, varint(words)?)?,
        "RETIRE_CONNECTION_ID" => put_retire_connection_id(out, varint(words)?)?,
        name => put_of_stream(alloc, out, name, words)?,
    }
    Ok(())
}

// Writes a frame of one stream.
fn put_of_stream(alloc: Global, out: &mut Vec<u8>, name: &str, words: &mut Words<'_>) -> Answer {
    match name {
        "RESET_STREAM" => reset(out, varint(words)?, varint(words)?, varint(words)?)?,
        "STOP_SENDING" => stop(out, varint(words)?, varint(words)?)?,
        "MAX_STREAM_DATA" => stream_limit(out, varint(words)?, varint(words)?)?,
        "STREAM" => stream(alloc, out, words)?,
        "STREAM-head" => stream_head(out, words)?,
        _ => put_with_bytes(alloc, out, name, words)?,
    }
    Ok(())
}

fn reset(out: &mut Vec<u8>, id: VarInt, code: VarInt, size: VarInt) -> Result<(), Memory> {
    put_reset_stream(out, StreamId(id.into_inner()), code, size)
}

fn stop(out: &mut Vec<u8>, id: VarInt, code: VarInt) -> Result<(), Memory> {
    put_stop_sending(out, StreamId(id.into_inner()), code)
}

fn stream_limit(out: &mut Vec<u8>, id: VarInt, limit: VarInt) -> Result<(), Memory> {
    put_max_stream_data(out, StreamId(id.into_inner()), limit)
}

// Whether the stream ends, as the next word says.
fn fin(words: &mut Words<'_>) -> Result<bool, RowFault> {
    match words.next() {
        "fin" => Ok(true),
        "open" => Ok(false),
        _ => Err(RowFault::Form),
    }
}

fn stream(alloc: Global, out: &mut Vec<u8>, words: &mut Words<'_>) -> Answer {
    let id = varint(words)?;
    let offset = varint(words)?;
    let fin = fin(words)?;
    let payload = words.bytes(alloc)?;
    write_stream(out, id, offset, fin, &payload)
}

fn write_stream(
    out: &mut Vec<u8>,
    id: VarInt,
    offset: VarInt,
    fin: bool,
    payload: &[u8],
) -> Answer {
    if payload.len() >= 1 << 62 {
        return Err(RowFault::Form);
    }
    let id = StreamId(id.into_inner());
    put_stream(
        out,
        Stream {
            id,
            offset,
            fin,
            payload,
        },
    )?;
    Ok(())
}

fn stream_head(out: &mut Vec<u8>, words: &mut Words<'_>) -> Answer {
    let id = StreamId(varint(words)?.into_inner());
    let offset = varint(words)?;
    let fin = fin(words)?;
    put_stream_head(out, id, offset, varint(words)?.into_inner(), fin)?;
    Ok(())
}

// Writes one of the other frames, which all have bytes.
fn put_with_bytes(alloc: Global, out: &mut Vec<u8>, name: &str, words: &mut Words<'_>) -> Answer {
    match name {
        "CRYPTO" => crypto(out, varint(words)?, &words.bytes(alloc)?),
        "NEW_TOKEN" => token(out, &words.bytes(alloc)?),
        "DATAGRAM" => datagram(out, &words.bytes(alloc)?),
        "PATH_RESPONSE" => path_response(out, &words.bytes(alloc)?),
        "CONNECTION_CLOSE" => close(out, varint(words)?, varint(words)?, &words.bytes(alloc)?),
        "APPLICATION_CLOSE" => application_close(out, varint(words)?, &words.bytes(alloc)?),
        "NEW_CONNECTION_ID" => new_id(alloc, out, words),
        _ => Err(RowFault::Form),
    }
}

fn crypto(out: &mut Vec<u8>, offset: VarInt, payload: &[u8]) -> Answer {
    if payload.len() >= 1 << 62 {
        return Err(RowFault::Form);
    }
    put_crypto(out, offset, payload)?;
    Ok(())
}

fn token(out: &mut Vec<u8>, token: &[u8]) -> Answer {
    if token.is_empty() || token.len() >= 1 << 62 {
        return Err(RowFault::Form);
    }
    put_new_token(out, token)?;
    Ok(())
}

fn datagram(out: &mut Vec<u8>, payload: &[u8]) -> Answer {
    if payload.len() >= 1 << 62 {
        return Err(RowFault::Form);
    }
    put_datagram(out, payload)?;
    Ok(())
}

fn path_response(out: &mut Vec<u8>, bytes: &[u8]) -> Answer {
    match bytes.first_chunk() {
        Some(chunk) if bytes.len() == 8 => put_path_response(out, chunk)?,
        _ => return Err(RowFault::Form),
    }
    Ok(())
}

fn close(out: &mut Vec<u8>, code: VarInt, frame: VarInt, reason: &[u8]) -> Answer {
    if reason.len() >= 1 << 62 {
        return Err(RowFault::Form);
    }
    put_connection_close(out, code, frame, reason)?;
    Ok(())
}

fn application_close(out: &mut Vec<u8>, code: VarInt, reason: &[u8]) -> Answer {
    if reason.len() >= 1 << 62 {
        return Err(RowFault::Form);
    }
    put_application_close(out, code, reason)?;
    Ok(())
}

fn new_id(alloc: Global, out: &mut Vec<u8>, words: &mut Words<'_>) -> Answer {
    let sequence = varint(words)?;
    let prior = varint(words)?;
    let id = ConnectionId::new(&words.bytes(alloc)?).ok_or(RowFault::Form)?;
    let token = words.bytes(alloc)?;
    match token.as_slice().first_chunk() {
        Some(chunk) if token.len() == 16 => {
            put_new_connection_id(out, sequence, prior, id, ResetToken(*chunk))?;
        }
        _ => return Err(RowFault::Form),
    }
    Ok(())
}

fn acknowledgement(alloc: Global, out: &mut Vec<u8>, words: &mut Words<'_>) -> Answer {
    let delay = varint(words)?;
    let ranges = ranges(alloc, words)?;
    write_ack(out, delay, &ranges)
}

// The ranges that the words tell: of each the least number and the greatest.
fn ranges(alloc: Global, words: &mut Words<'_>) -> Result<Vec<AckRange>, RowFault> {
    let mut ranges = Vec::new(alloc);
    for _range in 0..u64::MAX {
        if words.is_at_end() {
            break;
        }
        let least = words.number()?;
        let greatest = words.number()?;
        ranges.push(AckRange { least, greatest })?;
    }
    Ok(ranges)
}

fn write_ack(out: &mut Vec<u8>, delay: VarInt, ranges: &[AckRange]) -> Answer {
    if !are_apart(ranges) {
        return Err(RowFault::Form);
    }
    put_ack(out, delay, ranges)?;
    Ok(())
}

// Whether there is a range, each number has a form, and the ranges stand apart, the greatest first.
fn are_apart(ranges: &[AckRange]) -> bool
    ensures { IsTrue result → AreApart ranges.now }
{
    match ranges {
        [first, below @ ..] => {
            first.least <= first.greatest
                && first.greatest < 1 << 62
                && are_below(first.least, below)
        }
        [] => false,
    }
}

// Whether each range is below the last one, with a number between them that is in neither.
fn are_below(above: u64, ranges: &[AckRange]) -> bool
    ensures { IsTrue result → AreBelow above ranges.now }
{
    match ranges {
        [first, below @ ..] => {
            first.least <= first.greatest
                && first.greatest < above
                && above - first.greatest >= 2
                && are_below(first.least, below)
        }
        [] => true,
    }
}
