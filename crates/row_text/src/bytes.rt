//! Bytes as a row spells them.
use crate::RowFault;
use crate::words::{digit_of, number_of};
use std::alloc::Global;

// How often a byte is repeated at most.
const MAX_REPEAT: u64 = 100_000_000;

/// The bytes that a word spells.
pub(crate) fn bytes_of(alloc: Global, word: &str) -> Result<Vec<u8>, RowFault> {
    let mut bytes = Vec::new(alloc);
    if let Some(text) = word.strip_prefix("'") {
        bytes.extend_from_slice(text.as_bytes())?;
        return Ok(bytes);
    }
    if word == "-" {
        return Ok(bytes);
    }
    push_parts(&mut bytes, word)?;
    Ok(bytes)
}

// Appends the bytes of parts that are joined by dots.
fn push_parts(bytes: &mut Vec<u8>, word: &str) -> Result<(), RowFault> {
    let mut left = word;
    for _part in 0..=word.len() {
        match left.split_once('.') {
            Some((part, rest)) => {
                push_part(bytes, part)?;
                left = rest;
            }
            None => return push_part(bytes, left),
        }
    }
    Err(RowFault::Form)
}

// Appends the bytes of one part.
fn push_part(bytes: &mut Vec<u8>, part: &str) -> Result<(), RowFault> {
    match part.split_once('*') {
        Some((byte, count)) => push_repeated(bytes, byte, count),
        None => push_hex(bytes, part.as_bytes()),
    }
}

// Appends a byte so many times.
fn push_repeated(bytes: &mut Vec<u8>, byte: &str, count: &str) -> Result<(), RowFault> {
    let value = match byte.as_bytes() {
        [high, low] => byte_of(*high, *low)?,
        _ => return Err(RowFault::Form),
    };
    let count = number_of(count).ok_or(RowFault::Form)?;
    if count > MAX_REPEAT {
        return Err(RowFault::Form);
    }
    for _ in 0..count {
        bytes.push(value)?;
    }
    Ok(())
}

// Appends the bytes of pairs of digits.
fn push_hex(bytes: &mut Vec<u8>, digits: &[u8]) -> Result<(), RowFault> {
    let mut left = digits;
    for _pair in 0..=digits.len() {
        match left {
            [] => return Ok(()),
            [high, low, rest @ ..] => {
                bytes.push(byte_of(*high, *low)?)?;
                left = rest;
            }
            _ => return Err(RowFault::Form),
        }
    }
    Ok(())
}

// The byte of two digits.
fn byte_of(high: u8, low: u8) -> Result<u8, RowFault> {
    match (digit_of(high), digit_of(low)) {
        (Some(high), Some(low)) => Ok(high.wrapping_mul(16).wrapping_add(low)),
        _ => Err(RowFault::Form),
    }
}
