//! What arguments and answers have in common.
use qh_base::{ConnectionId, Memory, Side};
use row_text::{RowFault, Words, put_bytes, put_number, put_text};
use std::alloc::Global;

/// A millisecond, in nanoseconds.
pub(crate) const MILLISECOND: u64 = 1_000_000;

/// The next word as a side.
pub(crate) fn side(words: &mut Words<'_>) -> Result<Side, RowFault> {
    match words.next() {
        "client" => Ok(Side::Client),
        "server" => Ok(Side::Server),
        _ => Err(RowFault::Form),
    }
}

/// The next word as a connection id.
pub(crate) fn id(alloc: Global, words: &mut Words<'_>) -> Result<ConnectionId, RowFault> {
    ConnectionId::new(&words.bytes(alloc)?).ok_or(RowFault::Form)
}

/// Appends a name, and a number behind it.
pub(crate) fn put_named(out: &mut Vec<u8>, name: &str, number: u64) -> Result<(), Memory> {
    put_text(out, name)?;
    put_number(out, number)
}

/// Appends a name, and bytes behind it.
pub(crate) fn put_part(out: &mut Vec<u8>, name: &str, bytes: &[u8]) -> Result<(), Memory> {
    put_text(out, name)?;
    put_bytes(out, bytes)
}
