//! Bytes that are cut.
use crate::say::put_named;
use qh_base::Memory;
use qh_hello::front_hello;
use qh_packet::{InitialForm, RetryPacket, VersionNegotiation};
use row_text::{RowFault, Words, put_bytes, put_text};
use std::alloc::Global;

/// Answers `front BYTES`, the hello that begins the bytes, and `cuts KIND BYTES`, the lengths at which their prefix is taken.
pub(crate) fn answer(
    alloc: Global,
    word: &str,
    words: &mut Words<'_>,
    out: &mut Vec<u8>,
) -> Result<(), RowFault> {
    let kind = if word == "front" { "" } else { words.next() };
    let bytes = words.bytes(alloc)?;
    match kind {
        "" => put_front(out, &bytes)?,
        _ => put_lengths(out, kind, &bytes)?,
    }
    Ok(())
}

fn put_front(out: &mut Vec<u8>, bytes: &[u8]) -> Result<(), Memory> {
    match front_hello(bytes) {
        Some(front) => put_bytes(out, front),
        None => put_text(out, "none"),
    }
}

fn put_lengths(out: &mut Vec<u8>, kind: &str, bytes: &[u8]) -> Result<(), Memory> {
    put_text(out, "taken at")?;
    for length in 0..=bytes.len() {
        if is_taken(kind, bytes.get(..length).unwrap_or(&[])) {
            put_named(out, " ", length as u64)?;
        }
    }
    Ok(())
}

fn is_taken(kind: &str, bytes: &[u8]) -> bool {
    match kind {
        "front" => front_hello(bytes).is_some(),
        "initial" => InitialForm::read(bytes).is_some(),
        "retry" => RetryPacket::read(bytes).is_some(),
        "versions" => VersionNegotiation::read(bytes).is_some(),
        _ => false,
    }
}
