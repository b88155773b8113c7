ghost use Rattle.std.specs.Prelude.{◌≡◌, ◌+◌, ◌<◌, ◌^◌, length, take, drop, IfOk};
ghost use Rattle.qh_buffers.specs.Assembler.{end_of, end_behind, all_bytes, run_of, after_front, AreInOrder};

use super::Chunk;
use bytes::Bytes;
use qh_base::Memory;
use std::alloc::Global;
use std::collections::VecDeque;

/// How many pieces the room is for that a queue keeps in any case.
const SMALL_ROOM: usize = 64;

/// The offset behind all pieces.
pub(super) fn end_of_all(chunks: &VecDeque<Chunk>) -> u64
    requires { AreInOrder 0 chunks.now.items }
    ensures { result ≡ end_behind 0 chunks.now.items }
{
    match chunks.back() {
        Some(last) => last.end(),
        None => 0,
    }
}

/// How many bytes stand in front without a gap from an offset on, at most `max_length`.
pub(super) fn run(chunks: &VecDeque<Chunk>, offset: u64, max_length: usize) -> usize
    requires { AreInOrder 0 chunks.now.items }
    ensures { result ≡ run_of offset max_length chunks.now.items }
{
    let mut at = offset;
    let mut left = max_length;
    for index in 0..chunks.len() {
        let chunk = &chunks[index];
        if chunk.offset != at {
            return max_length - left;
        }
        if left <= chunk.bytes.len() {
            return max_length;
        }
        at = chunk.end();
        left -= chunk.bytes.len();
    }
    max_length - left
}

/// The first `length` bytes that wait: a part of the first one, or a copy of parts of several.
pub(super) fn front_bytes(
    alloc: Global,
    chunks: &VecDeque<Chunk>,
    length: usize,
) -> Result<Bytes, Memory>
    ensures { IfOk result (λ bytes. bytes ≡ take length (all_bytes chunks.now.items)) }
{
    if let Some(first) = chunks.front() {
        if length <= first.bytes.len() {
            return Ok(first.bytes.slice(..length)?);
        }
    }
    let bytes = copied(alloc, chunks, length)?;
    Ok(Bytes::from_vec(bytes)?)
}

/// A copy of the first `length` bytes that wait.
fn copied(alloc: Global, chunks: &VecDeque<Chunk>, length: usize) -> Result<Vec<u8>, Memory>
    ensures { IfOk result (λ bytes. bytes.items ≡ take length (all_bytes chunks.now.items)) }
{
    let mut bytes = Vec::with_capacity(alloc, length)?;
    for index in 0..chunks.len() {
        let chunk = chunks[index].bytes.as_slice();
        let left = length - bytes.len();
        if left <= chunk.len() {
            bytes.extend_from_slice(&chunk[..left])?;
            return Ok(bytes);
        }
        bytes.extend_from_slice(chunk)?;
    }
    Ok(bytes)
}

/// Drops the first `length` bytes that wait.
pub(super) fn drop_front(chunks: &mut VecDeque<Chunk>, length: usize)
    requires { AreInOrder 0 chunks.old.items }
    ensures { chunks.new.items ≡ after_front length chunks.old.items }
{
    let mut left = length;
    while let Some(first) = chunks.front() {
        let count = first.bytes.len();
        if left < count {
            cut_front(&mut chunks[0], left);
            return;
        }
        drop(chunks.pop_front());
        left -= count;
    }
}

/// Drops the first bytes of a piece.
fn cut_front(chunk: &mut Chunk, count: usize)
    requires inside { count < length chunk.old.bytes }
    requires fits { end_of chunk.old < 2 ^ 62 }
    ensures { chunk.new ≡ record { offset = chunk.old.offset + count; bytes = drop count chunk.old.bytes } }
{
    chunk.bytes.advance(count);
    chunk.offset += count as u64;
}

/// Gives room back if three quarters of it are unused, unless it is small. If the pieces can't be moved for want of memory, the
/// room stays.
pub(super) fn give_back(chunks: &mut VecDeque<Chunk>)
    ensures { chunks.new.items ≡ chunks.old.items }
{
    let room = chunks.capacity();
    let count = chunks.len();
    if SMALL_ROOM < room && count < room / 4 {
        chunks.shrink_to(2 * count);
    }
}
