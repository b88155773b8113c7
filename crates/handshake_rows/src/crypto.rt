//! CRYPTO bytes that come in any order.
use bytes::Bytes;
use qh_hello::{CryptoStream, MAX_CRYPTO};
use row_text::{RowFault, Words, put_bytes, put_text};
use std::alloc::Global;

/// OFFSET BYTES, repeated: pieces come, and what stands in front after each.
pub(crate) fn answer(
    alloc: Global,
    words: &mut Words<'_>,
    out: &mut Vec<u8>,
) -> Result<(), RowFault> {
    let mut stream = CryptoStream::new(alloc);
    take_all(alloc, &mut stream, words, out)
}

fn take_all(
    alloc: Global,
    stream: &mut CryptoStream,
    words: &mut Words<'_>,
    out: &mut Vec<u8>,
) -> Result<(), RowFault> {
    for piece in 0..u64::MAX {
        if words.is_at_end() {
            break;
        }
        let offset = words.number()?;
        take(stream, offset, Bytes::from_vec(words.bytes(alloc)?)?)?;
        put_text(out, if piece == 0 { "" } else { " " })?;
        put_bytes(out, stream.bytes())?;
    }
    Ok(())
}

fn take(stream: &mut CryptoStream, offset: u64, payload: Bytes) -> Result<(), RowFault> {
    if offset > MAX_CRYPTO || payload.len() as u64 > MAX_CRYPTO - offset {
        return Err(RowFault::Form);
    }
    stream.insert(offset, payload)?;
    Ok(())
}
