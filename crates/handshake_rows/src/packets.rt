//! Packets with a long header, as they are read.
use crate::say::{id, put_named, put_part, side};
use crate::written::version;
use qh_base::{ConnectionId, Memory, Side};
use qh_packet::{InitialForm, PlainSession, RetryPacket, VersionNegotiation, open_initial};
use row_text::{RowFault, Words, put_text};
use std::alloc::Global;

/// Answers a row.
pub(crate) fn answer(
    alloc: Global,
    word: &str,
    words: &mut Words<'_>,
    out: &mut Vec<u8>,
) -> Result<(), RowFault> {
    match word {
        "read-initial" => {
            let bytes = words.bytes(alloc)?;
            Ok(tell_initial(out, &bytes)?)
        }
        "read-retry" => {
            let original = id(alloc, words)?;
            let bytes = words.bytes(alloc)?;
            Ok(tell_retry(out, &original, &bytes)?)
        }
        "read-versions" => {
            let version = version(words)?;
            let bytes = words.bytes(alloc)?;
            Ok(tell_versions(out, version, &bytes)?)
        }
        "open" => open(alloc, words, out),
        _ => Err(RowFault::Form),
    }
}

fn tell_initial(out: &mut Vec<u8>, bytes: &[u8]) -> Result<(), Memory> {
    let Some(form) = InitialForm::read(bytes) else {
        return put_text(out, "none");
    };
    put_part(out, "first ", &[form.first])?;
    put_ids(out, form.destination, form.source)?;
    put_part(out, " token ", form.token)?;
    put_part(out, " body ", form.body)?;
    put_part(out, " rest ", form.rest)
}

fn put_ids(out: &mut Vec<u8>, destination: &[u8], source: &[u8]) -> Result<(), Memory> {
    put_part(out, " destination ", destination)?;
    put_part(out, " source ", source)
}

fn tell_retry(out: &mut Vec<u8>, original: &ConnectionId, bytes: &[u8]) -> Result<(), Memory> {
    let Some(packet) = RetryPacket::read(bytes) else {
        return put_text(out, "none");
    };
    put_text(
        out,
        if packet.is_for(original) {
            "fits"
        } else {
            "other"
        },
    )?;
    put_ids(out, packet.destination, packet.source)?;
    put_part(out, " token ", packet.token)?;
    put_part(out, " tag ", packet.tag)
}

fn tell_versions(out: &mut Vec<u8>, version: u32, bytes: &[u8]) -> Result<(), Memory> {
    let Some(packet) = VersionNegotiation::read(bytes) else {
        return put_text(out, "none");
    };
    put_text(
        out,
        if packet.lists(version) {
            "listed"
        } else {
            "absent"
        },
    )?;
    put_ids(out, packet.destination, packet.source)?;
    put_part(out, " versions ", packet.listed)
}

// SENDER KEY EXPECTED BYTES: the Initial packet that begins the bytes is opened.
fn open(alloc: Global, words: &mut Words<'_>, out: &mut Vec<u8>) -> Result<(), RowFault> {
    let sender = side(words)?;
    let session = PlainSession::new(id(alloc, words)?, b"")?;
    let expected = words.number()?;
    let bytes = words.bytes(alloc)?;
    Ok(tell_opened(out, &session, sender, expected, &bytes)?)
}

/// Appends the number and the frames of the Initial packet that begins the bytes, or that none does.
pub(crate) fn tell_opened(
    out: &mut Vec<u8>,
    session: &PlainSession,
    sender: Side,
    expected: u64,
    bytes: &[u8],
) -> Result<(), Memory> {
    let expected = expected.min(1 << 62);
    let Some(form) = InitialForm::read(bytes) else {
        return put_text(out, "none");
    };
    match open_initial(session, &form, sender, expected) {
        Some(packet) => {
            put_named(out, "number ", packet.number)?;
            put_part(out, " frames ", packet.frames)
        }
        None => put_text(out, "none"),
    }
}
