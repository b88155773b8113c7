//! What arguments and answers have in common.
use bytes::Bytes;
use qh_base::{Dir, Side, VarInt};
use row_text::{RowFault, Words, put_bytes, put_number, put_text};
use std::alloc::Global;

/// Whether a row was answered, or why it can't be.
pub(crate) type Answer = Result<(), RowFault>;

// A text is told as such up to this length.
const MAX_TEXT: usize = 64;

/// Appends a text.
pub(crate) fn put(out: &mut Vec<u8>, text: &str) -> Answer {
    put_text(out, text)?;
    Ok(())
}

/// Appends a name, and a number behind it.
pub(crate) fn put_named(out: &mut Vec<u8>, name: &str, number: u64) -> Answer {
    put_text(out, name)?;
    put_text(out, " ")?;
    put_number(out, number)?;
    Ok(())
}

/// Appends bytes in hexadecimal.
pub(crate) fn put_hex(out: &mut Vec<u8>, bytes: &[u8]) -> Answer {
    put_bytes(out, bytes)?;
    Ok(())
}

/// Appends bytes as an argument has them: as a text behind `'` where they are a short one without blanks, else in hexadecimal.
pub(crate) fn put_content(out: &mut Vec<u8>, bytes: &[u8]) -> Answer {
    if bytes.is_empty() || bytes.len() > MAX_TEXT || !bytes.iter().all(|b| b.is_ascii_graphic()) {
        return put_hex(out, bytes);
    }
    put_text(out, "'")?;
    out.extend_from_slice(bytes)?;
    Ok(())
}

/// Appends a blank, a name, a blank and a value.
pub(crate) fn put_field(out: &mut Vec<u8>, name: &[u8], value: &[u8]) -> Answer {
    put_text(out, " ")?;
    put_content(out, name)?;
    put_text(out, " ")?;
    put_content(out, value)
}

/// Appends `yes` or `no`.
pub(crate) fn put_bool(out: &mut Vec<u8>, holds: bool) -> Answer {
    put(out, if holds { "yes" } else { "no" })
}

/// The next word as a number below 2^62.
pub(crate) fn varint(words: &mut Words<'_>) -> Result<VarInt, RowFault> {
    VarInt::from_u64(words.number()?).ok_or(RowFault::Form)
}

/// The next word as a side.
pub(crate) fn side(words: &mut Words<'_>) -> Result<Side, RowFault> {
    match words.next() {
        "client" => Ok(Side::Client),
        "server" => Ok(Side::Server),
        _ => Err(RowFault::Form),
    }
}

/// A side's word.
pub(crate) fn side_name(side: Side) -> &'static str {
    match side {
        Side::Client => "client",
        Side::Server => "server",
    }
}

/// The next word as a direction: both sides send, or one.
pub(crate) fn dir(words: &mut Words<'_>) -> Result<Dir, RowFault> {
    match words.next() {
        "both" => Ok(Dir::Bi),
        "one" => Ok(Dir::Uni),
        _ => Err(RowFault::Form),
    }
}

/// A direction's word.
pub(crate) fn dir_name(dir: Dir) -> &'static str {
    match dir {
        Dir::Bi => "both",
        Dir::Uni => "one",
    }
}

/// The next word as the bits of a byte.
pub(crate) fn mask(words: &mut Words<'_>) -> Result<u8, RowFault> {
    let mask = words.number()?;
    if mask > 255 {
        return Err(RowFault::Form);
    }
    Ok(mask as u8)
}

/// The next word as bytes that are shared.
pub(crate) fn shared(alloc: Global, words: &mut Words<'_>) -> Result<Bytes, RowFault> {
    Ok(Bytes::from_vec(words.bytes(alloc)?)?)
}
