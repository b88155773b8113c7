ghost use Rattle.std.specs.Prelude.{◌≡◌, ℕ, ◌+◌, ◌<◌, ◌≤◌, ◌^◌, ◌==◌, ◌++◌, List, [], ◌∷◌, length, slice_range, take, true, false, None, OnOk, OnErr, IfOk, if◌then◌else◌};
ghost use Rattle.std.specs.Ordering.{nat_cmp};
ghost use Rattle.std.specs.BTreeMap.{get, IsOrdered};
ghost use Rattle.qh_buffers.specs.Assembler.{pieces, waits_in, end_of, end_behind, chunk_at, part, parts_of, all_bytes, run_of, first_of, after_front, is_end, AreStored, AreGaps, AreMissing, AreExclusive, AreMerged, IsAmong};
ghost use Rattle.qh_buffers.specs.Ranges.{has, kept, IsNextGap};

use super::Chunk;
use crate::RangeSet;
use bytes::Bytes;
use qh_base::Memory;
use std::alloc::Global;
use std::collections::BTreeMap;
use std::ops::Range;

/// The first offsets within a range at which no byte waits.
fn next_gap(chunks: &BTreeMap<u64, Bytes>, within: Range<u64>) -> Range<u64>
    requires stored { AreStored 0 chunks.now.entries }
    requires order { within.start ≤ within.end }
    requires fits { within.end < 2 ^ 62 }
    ensures { IsNextGap (waits_in (pieces chunks.now.entries)) within.start within.end result.start result.end }
{
    let Some((end, bytes)) = chunks.range(within.start + 1..).next() else {
        return within;
    };
    let offset = *end - bytes.len() as u64;
    if within.start < offset {
        return within.start..offset.min(within.end);
    }
    let start = within.end.min(*end);
    start..start
}

/// The offset behind all pieces.
fn end_of_all(chunks: &BTreeMap<u64, Bytes>) -> u64
    requires { AreStored 0 chunks.now.entries }
    ensures { result ≡ end_behind 0 (pieces chunks.now.entries) }
{
    match chunks.last_key_value() {
        Some((end, _)) => *end,
        None => 0,
    }
}

/// How many bytes stand in the first piece, at most `max_length`.
pub(super) fn first_length(chunks: &BTreeMap<u64, Bytes>, max_length: usize) -> usize
    ensures { result ≡ first_of max_length (pieces chunks.now.entries) }
{
    match chunks.first_key_value() {
        Some((_, first)) => max_length.min(first.len()),
        None => 0,
    }
}

/// The offset of the first piece, 0 where there is none.
pub(super) fn front_offset(chunks: &BTreeMap<u64, Bytes>) -> u64
    requires { AreStored 0 chunks.now.entries }
    ensures { result ≡ (chunk_at (pieces chunks.now.entries) 0).offset }
{
    match chunks.first_key_value() {
        Some((end, bytes)) => *end - bytes.len() as u64,
        None => 0,
    }
}

/// Puts what is missing of a new piece with bytes among the pieces.
pub(super) fn insert(
    alloc: Global,
    given: &RangeSet,
    chunks: &mut BTreeMap<u64, Bytes>,
    new: Chunk,
) -> Result<(), Memory>
    requires stored { AreStored 0 chunks.old.entries }
    requires some { 0 < length new.bytes }
    requires fits { end_of new < 2 ^ 62 }
    ensures stored { OnOk result (AreStored 0 chunks.new.entries) }
    ensures ok { OnOk result (IsAmong given.now (pieces chunks.old.entries) new (pieces chunks.new.entries)) }
    ensures err { OnErr result (chunks.new.entries ≡ chunks.old.entries) }
{
    if is_behind(given, end_of_all(chunks), &new) {
        return put(chunks, new);
    }
    let gaps = missing(alloc, given, chunks, &new)?;
    fill(alloc, chunks, &new, &gaps)
}

/// Whether a piece begins behind all that was given, and at an offset or later.
pub(super) fn is_behind(given: &RangeSet, end: u64, new: &Chunk) -> bool
    ensures given { result ≡ true → (k : ℕ) → new.now.offset ≤ k → has given.now k ≡ false }
    ensures end { result ≡ true → end ≤ new.now.offset }
{
    if new.offset < end {
        return false;
    }
    match given.max() {
        Some(last) => last < new.offset,
        None => true,
    }
}

/// The offsets of a new piece that weren't given and at which no byte waits.
fn missing(
    alloc: Global,
    given: &RangeSet,
    chunks: &BTreeMap<u64, Bytes>,
    new: &Chunk,
) -> Result<Vec<Range<u64>>, Memory>
    requires stored { AreStored 0 chunks.now.entries }
    requires fits { end_of new.now < 2 ^ 62 }
    ensures gaps { IfOk result (λ gaps. AreGaps new.now.offset (end_of new.now) gaps.items) }
    ensures parts { IfOk result (λ gaps. AreMissing given.now (pieces chunks.now.entries) new.now (parts_of new.now gaps.items)) }
{
    let end = new.end();
    let mut at = new.offset;
    let mut gaps = Vec::new(alloc);
    while at < end {
        let gap = next_gap(chunks, given.next_gap(at..end));
        at = gap.end;
        push_gap(&mut gaps, gap)?;
    }
    Ok(gaps)
}

/// Appends a range that isn't empty.
fn push_gap(gaps: &mut Vec<Range<u64>>, gap: Range<u64>) -> Result<(), Memory>
    ensures { OnOk result (gaps.new.items ≡ gaps.old.items ++ kept gap) }
{
    if gap.start < gap.end {
        gaps.push(gap)?;
    }
    Ok(())
}

/// Puts the parts of a new piece between some offsets among the pieces.
fn fill(
    alloc: Global,
    chunks: &mut BTreeMap<u64, Bytes>,
    new: &Chunk,
    gaps: &[Range<u64>],
) -> Result<(), Memory>
    requires stored { AreStored 0 chunks.old.entries }
    requires fits { end_of new.now < 2 ^ 62 }
    requires gaps { AreGaps new.now.offset (end_of new.now) gaps.now }
    requires exclusive { AreExclusive (pieces chunks.old.entries) (parts_of new.now gaps.now) }
    ensures stored { OnOk result (AreStored 0 chunks.new.entries) }
    ensures ok { OnOk result (AreMerged (pieces chunks.old.entries) (pieces chunks.new.entries) (parts_of new.now gaps.now)) }
    ensures err { OnErr result (chunks.new.entries ≡ chunks.old.entries) }
{
    for index in 0..gaps.len() {
        let gap = &gaps[index];
        if put_part(alloc, chunks, new, gap.start, gap.end).is_err() {
            withdraw(chunks, &gaps[..index]);
            return Err(Memory);
        }
    }
    Ok(())
}

/// Puts the part of a piece between two offsets among the pieces.
fn put_part(
    alloc: Global,
    chunks: &mut BTreeMap<u64, Bytes>,
    new: &Chunk,
    from: u64,
    to: u64,
) -> Result<(), Memory>
    requires stored { AreStored 0 chunks.old.entries }
    requires fits { end_of new.now < 2 ^ 62 }
    requires low { new.now.offset ≤ from }
    requires some { from < to }
    requires high { to ≤ end_of new.now }
    requires exclusive { AreExclusive (pieces chunks.old.entries) (part from to new.now) }
    ensures stored { OnOk result (AreStored 0 chunks.new.entries) }
    ensures ok { OnOk result (AreMerged (pieces chunks.old.entries) (pieces chunks.new.entries) (part from to new.now)) }
    ensures others { OnOk result ((k : ℕ) → (to == k) ≡ false → get nat_cmp chunks.new k ≡ get nat_cmp chunks.old k) }
    ensures err { OnErr result (chunks.new.entries ≡ chunks.old.entries) }
    ensures ordered { IsOrdered nat_cmp chunks.new }
{
    let start = (from - new.offset) as usize;
    let end = (to - new.offset) as usize;
    let bytes = bytes_between(alloc, &new.bytes, start, end)?;
    put(
        chunks,
        Chunk {
            offset: from,
            bytes,
        },
    )
}

/// The bytes between two indexes: a slice of the same buffer if they are at least half of it, else a copy. So what waits of a
/// piece keeps at most twice its bytes.
fn bytes_between(alloc: Global, bytes: &Bytes, start: usize, end: usize) -> Result<Bytes, Memory>
    requires order { start ≤ end }
    requires within { end ≤ length bytes.now }
    ensures { IfOk result (λ between. between ≡ slice_range bytes.now start end) }
{
    if bytes.len() - bytes.len() / 2 <= end - start {
        return Ok(bytes.slice(start..end)?);
    }
    let between = &bytes.as_slice()[start..end];
    Ok(Bytes::copy_from_slice(alloc, between)?)
}

/// Puts one piece among the others.
fn put(chunks: &mut BTreeMap<u64, Bytes>, piece: Chunk) -> Result<(), Memory>
    requires stored { AreStored 0 chunks.old.entries }
    requires some { 0 < length piece.bytes }
    requires fits { end_of piece < 2 ^ 62 }
    requires exclusive { AreExclusive (pieces chunks.old.entries) (piece ∷ []) }
    ensures stored { OnOk result (AreStored 0 chunks.new.entries) }
    ensures ok { OnOk result (AreMerged (pieces chunks.old.entries) (pieces chunks.new.entries) (piece ∷ [])) }
    ensures others { OnOk result ((k : ℕ) → (end_of piece == k) ≡ false → get nat_cmp chunks.new k ≡ get nat_cmp chunks.old k) }
    ensures err { OnErr result (chunks.new.entries ≡ chunks.old.entries) }
    ensures ordered { IsOrdered nat_cmp chunks.new }
{
    chunks.insert(piece.end(), piece.bytes)?;
    Ok(())
}

/// Takes the pieces out that end where some ranges do.
fn withdraw(chunks: &mut BTreeMap<u64, Bytes>, gaps: &[Range<u64>])
    requires { IsOrdered nat_cmp chunks.old }
    ensures pieces { (k : ℕ) → get nat_cmp chunks.new k ≡ (if is_end gaps.now k then None else get nat_cmp chunks.old k) }
    ensures ordered { IsOrdered nat_cmp chunks.new }
{
    for gap in gaps {
        let _ = chunks.remove(&gap.end);
    }
}

/// How many bytes stand in front without a gap from an offset on, at most `max_length`.
pub(super) fn run(chunks: &BTreeMap<u64, Bytes>, offset: u64, max_length: usize) -> usize
    requires { AreStored 0 chunks.now.entries }
    ensures { result ≡ run_of offset max_length (pieces chunks.now.entries) }
{
    let mut at = offset;
    let mut left = max_length;
    for (end, bytes) in chunks {
        if *end - bytes.len() as u64 != at {
            return max_length - left;
        }
        if left <= bytes.len() {
            return max_length;
        }
        at = *end;
        left -= bytes.len();
    }
    max_length - left
}

/// The first `length` bytes that wait: a part of the first one, or a copy of parts of several.
pub(super) fn front_bytes(
    alloc: Global,
    chunks: &BTreeMap<u64, Bytes>,
    length: usize,
) -> Result<Bytes, Memory>
    ensures { IfOk result (λ bytes. bytes ≡ take length (all_bytes (pieces chunks.now.entries))) }
{
    if let Some((_, first)) = chunks.first_key_value() {
        if length <= first.len() {
            return Ok(first.slice(..length)?);
        }
    }
    let bytes = copied(alloc, chunks, length)?;
    Ok(Bytes::from_vec(bytes)?)
}

/// A copy of the first `length` bytes that wait.
fn copied(alloc: Global, chunks: &BTreeMap<u64, Bytes>, length: usize) -> Result<Vec<u8>, Memory>
    ensures { IfOk result (λ bytes. bytes.items ≡ take length (all_bytes (pieces chunks.now.entries))) }
{
    let mut bytes = Vec::with_capacity(alloc, length)?;
    for (_, piece) in chunks {
        let piece = piece.as_slice();
        let left = length - bytes.len();
        if left <= piece.len() {
            bytes.extend_from_slice(&piece[..left])?;
            return Ok(bytes);
        }
        bytes.extend_from_slice(piece)?;
    }
    Ok(bytes)
}

/// Drops the first `length` bytes that wait.
pub(super) fn drop_front(chunks: &mut BTreeMap<u64, Bytes>, length: usize)
    requires { AreStored 0 chunks.old.entries }
    ensures pieces { pieces chunks.new.entries ≡ after_front length (pieces chunks.old.entries) }
    ensures stored { AreStored 0 chunks.new.entries }
{
    let mut left = length;
    while let Some((end, first)) = chunks.first_key_value() {
        let end = *end;
        let count = first.len();
        if left < count {
            cut_front(chunks, end, left);
            return;
        }
        drop(chunks.pop_first());
        left -= count;
    }
}

/// Drops the first bytes of the first piece.
fn cut_front(chunks: &mut BTreeMap<u64, Bytes>, end: u64, count: usize)
    requires stored { AreStored 0 chunks.old.entries }
    requires front { (bytes : List ℕ) × (rest : List (ℕ × List ℕ)) × (chunks.old.entries ≡ (end, bytes) ∷ rest) × (count < length bytes) }
    ensures pieces { pieces chunks.new.entries ≡ after_front count (pieces chunks.old.entries) }
    ensures stored { AreStored 0 chunks.new.entries }
{
    if let Some(first) = chunks.get_mut(&end) {
        first.advance(count);
    }
}
