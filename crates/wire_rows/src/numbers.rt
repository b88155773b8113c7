//! Numbers, ids and short texts.
use crate::say::{Answer, dir, dir_name, put, put_content, put_hex, put_named, side, side_name};
use qh_base::{ConnectionId, Name, Reason, StreamId, VarInt, get_varint, put_varint};
use row_text::{RowFault, Words, put_number};
use std::alloc::Global;

/// Answers a row. Whether its word is known.
pub(crate) fn answer(
    alloc: Global,
    word: &str,
    words: &mut Words<'_>,
    out: &mut Vec<u8>,
) -> Result<bool, RowFault> {
    match word {
        "varint" | "id" | "reason" | "name" => tell_bytes(alloc, out, word, words)?,
        "number" => write_number(alloc, out, words.number()?)?,
        "compare-ids" => compare_ids(alloc, out, words)?,
        "stream-id" => tell_stream(out, StreamId(words.number()?))?,
        "make-stream-id" => make_stream(out, words)?,
        _ => return Ok(false),
    }
    Ok(true)
}

// Tells what this word says of bytes.
fn tell_bytes(alloc: Global, out: &mut Vec<u8>, word: &str, words: &mut Words<'_>) -> Answer {
    let bytes = words.bytes(alloc)?;
    tell(out, word, &bytes)
}

fn tell(out: &mut Vec<u8>, word: &str, bytes: &[u8]) -> Answer {
    match word {
        "varint" => read_number(out, bytes),
        "id" => tell_id(out, bytes),
        "reason" => put_content(out, Reason::of(bytes).copied().bytes()),
        _ => put_content(out, Name::of(bytes).copied().bytes()),
    }
}

// Reads the number that begins the bytes.
fn read_number(out: &mut Vec<u8>, bytes: &[u8]) -> Answer {
    match get_varint(bytes) {
        Some((number, size)) => {
            put_number(out, number.into_inner())?;
            put_named(out, " in", size as u64)
        }
        None => put(out, "cut"),
    }
}

// Writes a number in its shortest form.
fn write_number(alloc: Global, out: &mut Vec<u8>, number: u64) -> Answer {
    let Some(number) = VarInt::from_u64(number) else {
        return put(out, "too large");
    };
    let mut bytes = Vec::new(alloc);
    put_varint(&mut bytes, number)?;
    put_hex(out, &bytes)?;
    put_named(out, " size", number.size() as u64)
}

// Tells a connection id.
fn tell_id(out: &mut Vec<u8>, bytes: &[u8]) -> Answer {
    let Some(id) = ConnectionId::new(bytes) else {
        return put(out, "too long");
    };
    put_hex(out, id.bytes())?;
    put_named(out, " length", id.len() as u64)?;
    put(out, if id.is_empty() { " empty" } else { "" })
}

// Compares two connection ids.
fn compare_ids(alloc: Global, out: &mut Vec<u8>, words: &mut Words<'_>) -> Answer {
    let left = ConnectionId::new(&words.bytes(alloc)?);
    let right = ConnectionId::new(&words.bytes(alloc)?);
    match (left, right) {
        (Some(left), Some(right)) => put(out, order(&left, &right)),
        _ => put(out, "too long"),
    }
}

fn order(left: &ConnectionId, right: &ConnectionId) -> &'static str {
    if left == right {
        "equal"
    } else if left < right {
        "less"
    } else {
        "greater"
    }
}

// Tells what a stream id says.
fn tell_stream(out: &mut Vec<u8>, id: StreamId) -> Answer {
    put(out, side_name(id.initiator()))?;
    put(out, " ")?;
    put(out, dir_name(id.dir()))?;
    put_named(out, " index", id.index())?;
    put(out, if id.is_request() { " request" } else { "" })
}

// Makes the stream id of an index below 2^60.
fn make_stream(out: &mut Vec<u8>, words: &mut Words<'_>) -> Answer {
    let side = side(words)?;
    let dir = dir(words)?;
    let index = words.number()?;
    if index >= 1 << 60 {
        return Err(RowFault::Form);
    }
    put_number(out, StreamId::new(side, dir, index).0)?;
    Ok(())
}
