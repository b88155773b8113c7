ghost use Rattle.std.specs.Prelude.{◌≡◌, ℕ, ◌+◌, ◌<◌, ◌≤◌, ◌^◌, is_some, length, None, true, false, OnOk, OnErr, IfOk, MatchOption};
ghost use Rattle.qh_buffers.specs.Assembler.{PlainAssembler, empty_assembler, read_to, to_give, was_given, run_of, first_of, end_of, IsInserted, IsGiven, IsFrontPiece, IsLeastPiece, HasNext, HasNothing};
ghost use Rattle.qh_buffers.specs.Ranges.{count_of, front_of};
ghost use Rattle.qh_buffers.specs.declared.assembler.Chunk.{Chunk};

use crate::RangeSet;
use bytes::Bytes;
use qh_base::Memory;
use std::alloc::Global;
use std::marker::Model;

mod chunks;
mod map;
mod queue;

/// A piece of a stream, and where it begins.
#[derive(Drop)]
pub struct Chunk {
    /// The offset of its first byte.
    pub offset: u64,
    /// The bytes.
    pub bytes: Bytes,
}

impl Chunk {
    /// The offset behind the last byte.
    pub fn end(&self) -> u64
        requires { end_of self.now < 2 ^ 62 }
        ensures { result ≡ end_of self.now }
    {
        self.offset + self.bytes.len() as u64
    }
}

/// The bytes of a stream that came and wait to be read.
///
/// As long as each piece begins behind all that came before it, the pieces stand in a queue, and one is put in or taken out in
/// constant time. A piece that doesn't, since it fills a gap or came before, moves them all into a map, which costs the logarithm
/// of how many wait for each of them, and it is put there itself. So are those that come after it, until reads have taken out all
/// that wait: then a queue begins again. A piece is moved once at most.
///
/// Each piece that waits costs more than its bytes. In the queue it takes 48 bytes. The room of the queue doubles when it is full,
/// and a read that leaves three quarters of it unused gives back all but twice what the pieces take, unless the room is for at
/// most 64 pieces: so it is at most four times what the pieces take, or that of 64. In the map a piece takes up to about 125 bytes
/// of the nodes (an entry takes 48, and every node but the root is at least 7 of 15 full). While pieces are moved into the map the
/// queue stands too. Unless another piece shares its buffer there are the two allocations of a `Bytes` as well: the buffer itself,
/// and 32 bytes that count its owners. What the allocator adds to an allocation isn't counted.
///
/// A piece that comes whole isn't copied. Of one that is cut, since some of its bytes came or were given before, a part of at
/// least half its length stays a slice of its buffer, and a lesser part is copied: so what waits keeps at most twice its bytes.
/// A read that takes a part of the first piece leaves the rest in its buffer.
///
/// Flow control counts offsets, so it bounds this memory by a multiple of the window alone: a peer that sends single bytes with
/// gaps between them makes an end keep some 80 bytes for each byte of the window.
#[derive(Drop)]
pub struct Assembler {
    alloc: Global,
    given: RangeSet,
    bytes_read: u64,
    chunks: chunks::Chunks,
}

impl Model for Assembler {
    ghost use Rattle.qh_buffers.specs.Assembler.{PlainAssembler, IsKept};

    ghost Value = { PlainAssembler };

    ghost view = { λ s. record { given = s.given; chunks = s.chunks } };

    ghost invariant = { λ s. IsKept s.given s.chunks s.bytes_read };
}

impl Assembler {
    /// Nothing came yet.
    pub fn new(alloc: Global) -> Assembler
        ensures { result ≡ empty_assembler }
    {
        Assembler {
            alloc,
            given: RangeSet::new(alloc),
            bytes_read: 0,
            chunks: chunks::Chunks::new(alloc),
        }
    }

    /// How many bytes reads gave.
    pub fn bytes_read(&self) -> u64
        ensures { result ≡ count_of self.now.given }
    {
        self.bytes_read
    }

    /// How many bytes reads gave from the beginning on, without a gap.
    pub fn read_to(&self) -> u64
        ensures { result ≡ read_to self.now }
    {
        self.given.front()
    }

    /// Where all that was given lies below an offset, it isn't more than that.
    pub fn counts_below(&self, end: u64)
        requires { (k : ℕ) → was_given self.now k ≡ true → k < end }
        ensures { count_of self.now.given ≤ end }
    {
        let _ = &self.given;
    }

    /// The offset behind those that reads gave without a gap wasn't given. It does nothing: its contract says so.
    pub fn reads_on(&self)
        ensures { was_given self.now (read_to self.now) ≡ false }
    {
        let _ = self.given.front();
    }

    /// Keeps the bytes of a piece that didn't come before. Of those that came before the first ones stay. A piece behind all that
    /// came costs constant time while a queue is kept. Each part that is put into the map, and each piece or given range that it
    /// is cut at, costs the logarithm of how many there are, and so does each piece of a queue that is moved into the map for it.
    pub fn insert(&mut self, offset: u64, payload: Bytes) -> Result<(), Memory>
        requires { offset + length payload < 2 ^ 62 }
        ensures ok { OnOk result (IsInserted self.old self.new (record { offset = offset; bytes = payload })) }
        ensures err { OnErr result (self.new ≡ self.old) }
    {
        let new = Chunk {
            offset,
            bytes: payload,
        };
        self.chunks.insert(self.alloc, &self.given, new)
    }

    /// Gives bytes that wait, at most as many as are asked for; None if none waits, in an ordered read if the next one doesn't. An
    /// ordered read gives all that it may from the first offset on that no read gave, an unordered one a piece. The bytes are a
    /// slice of the first piece if it has them all, and a copy of several pieces if not. A piece is taken out of a queue in
    /// constant time, and out of the map in the logarithm of how many wait.
    pub fn read(&mut self, max_length: usize, ordered: bool) -> Result<Option<Chunk>, Memory>
        requires { 0 < max_length }
        ensures none { IfOk result (λ o. o ≡ None → self.new ≡ self.old) }
        ensures none_ordered { IfOk result (λ o. o ≡ None → ordered ≡ true → (to_give self.old (read_to self.old) ≡ None) × (was_given self.old (read_to self.old) ≡ false)) }
        ensures none_unordered { IfOk result (λ o. o ≡ None → ordered ≡ false → HasNothing self.old) }
        ensures some { IfOk result (λ o. MatchOption o (Unit {0}) (IsGiven self.old self.new max_length)) }
        ensures front { IfOk result (λ o. ordered ≡ true → MatchOption o (Unit {0}) (IsFrontPiece self.old max_length)) }
        ensures least { IfOk result (λ o. ordered ≡ false → MatchOption o (Unit {0}) (IsLeastPiece self.old)) }
        ensures counted { IfOk result (λ o. MatchOption o (Unit {0}) (λ c. count_of self.new.given ≡ count_of self.old.given + length c.bytes)) }
        ensures err { OnErr result (self.new ≡ self.old) }
        ensures lacks { OnErr result (HasNext self.old ordered) }
    {
        let length = self.next_length(max_length, ordered);
        if length == 0 {
            return Ok(None);
        }
        let offset = self.chunks.front_offset();
        let bytes = self.chunks.front_bytes(self.alloc, length)?;
        self.given.insert(offset..offset + length as u64)?;
        self.given.is_apart();
        self.chunks.drop_front(length);
        self.bytes_read += length as u64;
        Ok(Some(Chunk { offset, bytes }))
    }

    /// Whether bytes wait that a read gives, in an ordered read the next ones.
    pub fn has_next(&self, ordered: bool) -> bool
        ensures yes { result ≡ true → HasNext self.now ordered }
        ensures none_ordered { result ≡ false → ordered ≡ true → (to_give self.now (read_to self.now) ≡ None) × (was_given self.now (read_to self.now) ≡ false) }
        ensures none_unordered { result ≡ false → ordered ≡ false → HasNothing self.now }
    {
        let _ = &self.given;
        self.next_length(1, ordered) > 0
    }

    /// The most bytes that the next read can give: of an ordered one exactly as many as it gives, of an unordered one as many as wait without
    /// a gap from the first piece on. At most `max_length`. It looks at the pieces that it counts.
    pub fn longest(&self, max_length: usize, ordered: bool) -> usize
        ensures few { result ≤ max_length }
        ensures waits { ordered ≡ true → (k : ℕ) → k < result → is_some (to_give self.now (read_to self.now + k)) ≡ true }
        ensures in_order { ordered ≡ true → (new : PlainAssembler) → (c : Chunk) → IsGiven self.now new max_length c → c.offset ≡ read_to self.now → length c.bytes ≤ result }
        ensures least { ordered ≡ false → (new : PlainAssembler) → (c : Chunk) → IsGiven self.now new max_length c → IsLeastPiece self.now c → length c.bytes ≤ result }
    {
        let offset = if ordered {
            self.given.front()
        } else {
            self.chunks.front_offset()
        };
        self.chunks.run(offset, max_length)
    }

    /// Drops all bytes that wait, and keeps no room for others.
    pub fn clear(&mut self)
        ensures waits { HasNothing self.new }
        ensures given { self.new.given ≡ self.old.given }
    {
        self.chunks = chunks::Chunks::new(self.alloc);
    }

    /// How many bytes the next read gives of the first pieces.
    fn next_length(&self, max_length: usize, ordered: bool) -> usize
        ensures ordered { ordered ≡ true → result ≡ run_of (front_of self.now.given) max_length self.now.chunks }
        ensures unordered { ordered ≡ false → result ≡ first_of max_length self.now.chunks }
        ensures lacks { ordered ≡ true → was_given self.now (read_to self.now) ≡ false }
    {
        if ordered {
            return self.chunks.run(self.given.front(), max_length);
        }
        self.chunks.first_length(max_length)
    }
}
