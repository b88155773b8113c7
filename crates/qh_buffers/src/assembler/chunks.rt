ghost use Rattle.std.specs.Prelude.{◌≡◌, ◌<◌, ◌^◌, ◌++◌, [], length, take, OnOk, OnErr, IfOk};
ghost use Rattle.qh_buffers.specs.Assembler.{pieces, end_of, chunk_at, all_bytes, run_of, first_of, after_front, AreInOrder, AreStored, AreQueuedOrStored, IsAmong};

use super::{Chunk, map, queue};
use crate::RangeSet;
use bytes::Bytes;
use qh_base::Memory;
use std::alloc::Global;
use std::collections::{BTreeMap, VecDeque};
use std::marker::Model;

/// The pieces that wait, in order of their offsets.
///
/// They stand in a queue as long as each one that comes begins behind all that wait and all that was given. One that doesn't
/// moves them all into a map, where later ones go too until reads have taken all of them out. So one of the two is always empty.
#[derive(Drop)]
pub(super) struct Chunks {
    queue: VecDeque<Chunk>,
    /// By the offset behind the last byte: a read that takes a part of the first piece cuts it in place, so that it takes no
    /// memory and can't fail halfway.
    map: BTreeMap<u64, Bytes>,
}

impl Model for Chunks {
    ghost use Rattle.std.specs.Prelude.{List, ◌++◌};
    ghost use Rattle.qh_buffers.specs.declared.assembler.Chunk.{Chunk};
    ghost use Rattle.qh_buffers.specs.Assembler.{pieces, AreQueuedOrStored};

    ghost Value = { List Chunk };

    ghost view = { λ s. s.queue.items ++ pieces s.map.entries };

    ghost invariant = { λ s. AreQueuedOrStored s.queue.items s.map.entries };
}

impl Chunks {
    /// No piece waits.
    pub(super) fn new(alloc: Global) -> Chunks
        ensures { result ≡ [] }
    {
        Chunks {
            queue: VecDeque::new(alloc),
            map: BTreeMap::new(alloc),
        }
    }

    /// Puts what is missing of a new piece among the pieces. If memory is wanting after they were moved into the map, they stay
    /// there, and wait as before.
    pub(super) fn insert(
        &mut self,
        alloc: Global,
        given: &RangeSet,
        new: Chunk,
    ) -> Result<(), Memory>
        requires { end_of new < 2 ^ 62 }
        ensures ok { OnOk result (IsAmong given.now self.old new self.new) }
        ensures err { OnErr result (self.new ≡ self.old) }
    {
        let end = queue::end_of_all(&self.queue);
        if new.bytes.is_empty() {
            return Ok(());
        }
        if self.map.is_empty() && map::is_behind(given, end, &new) {
            self.queue.push_back(new)?;
            return Ok(());
        }
        store_all(alloc, &mut self.queue, &mut self.map)?;
        map::insert(alloc, given, &mut self.map, new)
    }

    /// The offset of the first piece, 0 if there is none.
    pub(super) fn front_offset(&self) -> u64
        ensures { result ≡ (chunk_at self.now 0).offset }
    {
        match self.queue.front() {
            Some(first) => first.offset,
            None => map::front_offset(&self.map),
        }
    }

    /// How many bytes stand in the first piece, at most `max_length`.
    pub(super) fn first_length(&self, max_length: usize) -> usize
        ensures { result ≡ first_of max_length self.now }
    {
        match self.queue.front() {
            Some(first) => max_length.min(first.bytes.len()),
            None => map::first_length(&self.map, max_length),
        }
    }

    /// How many bytes stand in front without a gap from an offset on, at most `max_length`.
    pub(super) fn run(&self, offset: u64, max_length: usize) -> usize
        ensures { result ≡ run_of offset max_length self.now }
    {
        if self.map.is_empty() {
            return queue::run(&self.queue, offset, max_length);
        }
        map::run(&self.map, offset, max_length)
    }

    /// The first `length` bytes that wait: a part of the first one, or a copy of parts of several.
    pub(super) fn front_bytes(&self, alloc: Global, length: usize) -> Result<Bytes, Memory>
        ensures { IfOk result (λ bytes. bytes ≡ take length (all_bytes self.now)) }
    {
        if self.queue.is_empty() {
            return map::front_bytes(alloc, &self.map, length);
        }
        queue::front_bytes(alloc, &self.queue, length)
    }

    /// Drops the first `length` bytes that wait. It doesn't fail for want of memory.
    pub(super) fn drop_front(&mut self, length: usize)
        ensures { self.new ≡ after_front length self.old }
    {
        if self.queue.is_empty() {
            map::drop_front(&mut self.map, length);
            return;
        }
        queue::drop_front(&mut self.queue, length);
        queue::give_back(&mut self.queue);
    }
}

/// Moves the pieces of a queue, if it has any, into a map, which is empty then. An `Err` leaves both as they were.
fn store_all(
    alloc: Global,
    queue: &mut VecDeque<Chunk>,
    map: &mut BTreeMap<u64, Bytes>,
) -> Result<(), Memory>
    requires { AreQueuedOrStored queue.old.items map.old.entries }
    ensures none { OnOk result (queue.new.items ≡ []) }
    ensures stored { OnOk result (AreStored 0 map.new.entries) }
    ensures ok { OnOk result (pieces map.new.entries ≡ queue.old.items ++ pieces map.old.entries) }
    ensures err_queue { OnErr result (queue.new.items ≡ queue.old.items) }
    ensures err_map { OnErr result (map.new.entries ≡ map.old.entries) }
{
    if queue.is_empty() {
        return Ok(());
    }
    *map = map_of(alloc, queue)?;
    *queue = VecDeque::new(alloc);
    Ok(())
}

/// A map of the pieces of a queue, with the same buffers.
fn map_of(alloc: Global, queue: &VecDeque<Chunk>) -> Result<BTreeMap<u64, Bytes>, Memory>
    requires { AreInOrder 0 queue.now.items }
    ensures stored { IfOk result (λ map. AreStored 0 map.entries) }
    ensures ok { IfOk result (λ map. pieces map.entries ≡ queue.now.items) }
{
    let mut map = BTreeMap::new(alloc);
    for index in 0..queue.len() {
        let chunk = &queue[index];
        let bytes = chunk.bytes.clone()?;
        map.insert(chunk.end(), bytes)?;
    }
    Ok(map)
}
