ghost use Rattle.std.specs.Prelude.{◌≡◌, ℕ, ◌+◌, ◌<◌, ◌≤◌, ◌++◌, [], List, Some, Ok, Err, Option, length, take, drop, is_err, option_map, IfOk, IfSome};
ghost use Rattle.qh_spec.specs.Fault.{CountsFaults};
ghost use Rattle.qh_base.specs.Io.{moved, moves_none, PlainSource, PlainSink, calls_left, next_call as call_after, after_read, read_answer, after_write, write_answer};

use super::{Failed, Sink, Source};
use crate::Memory;
use std::alloc::Global;
use std::marker::Model;

/// A source over bytes in memory, one call of which may fail.
#[derive(Drop)]
pub struct MemSource {
    bytes: Vec<u8>,
    read: usize,
    // The number of calls up to the one that fails.
    fails_in: Option<u64>,
    faults: u64,
}

impl Model for MemSource {
    ghost use Rattle.std.specs.Prelude.{drop, length, ◌≤◌};
    ghost use Rattle.qh_base.specs.Io.{PlainSource};

    ghost Value = { PlainSource };

    ghost view = { λ s. record { left = drop s.read s.bytes.items; fails_in = s.fails_in; faults = s.faults } };

    ghost invariant = { λ s. s.read ≤ length s.bytes.items };
}

impl MemSource {
    /// A source of these bytes. The `fail_at`-th call fails, counted from 1, and reads nothing; the calls after it go
    /// on.
    pub fn new(bytes: Vec<u8>, fail_at: Option<u64>) -> MemSource
        ensures { result ≡ record { left = bytes.items; fails_in = calls_left fail_at; faults = 0 } }
    {
        MemSource {
            bytes,
            read: 0,
            fails_in: fail_at.filter(|at| *at > 0),
            faults: 0,
        }
    }
}

impl Source for MemSource {
    ghost left = { λ s. Some s.left };

    ghost faults = { λ s. s.faults };

    /// Reads as many bytes as there are and the slice takes.
    fn read(&mut self, buf: &mut [u8]) -> Result<usize, Failed>
        ensures exact { result ≡ read_answer self.old (length buf.old) }
        ensures after { self.new ≡ after_read self.old (length buf.old) }
        ensures fits { IfOk result (λ n. n ≤ length buf.new) }
        ensures bytes { IfOk result (λ n. take n buf.new ≡ take n self.old.left) }
        ensures rest { Some self.new.left ≡ Some (drop (moved result) self.old.left) }
        ensures end { IfOk result (λ n. n ≡ 0 → 0 < length buf.new → self.old.left ≡ []) }
        ensures cause { CountsFaults self.old.faults self.new.faults (is_err result) }
    {
        let fails = self.fails_in == Some(1);
        self.fails_in = next_call(self.fails_in);
        if fails {
            self.faults = self.faults.saturating_add(1);
            return Err(Failed);
        }
        let left = &self.bytes[self.read..];
        let n = left.len().min(buf.len());
        buf[..n].copy_from_slice(&left[..n]);
        self.read += n;
        Ok(n)
    }
}

/// A sink into memory whose room was taken once, one call of which may fail.
#[derive(Drop)]
pub struct MemSink {
    bytes: Vec<u8>,
    room: usize,
    // The number of calls up to the one that fails.
    fails_in: Option<u64>,
    faults: u64,
}

impl Model for MemSink {
    ghost use Rattle.std.specs.Prelude.{◌+◌, ◌≤◌, vec_len, vec_capacity};
    ghost use Rattle.qh_base.specs.Io.{PlainSink};

    ghost Value = { PlainSink };

    ghost view = { λ s. record { written = s.bytes.items; room = s.room; fails_in = s.fails_in; faults = s.faults } };

    ghost invariant = { λ s. vec_len s.bytes + s.room ≤ vec_capacity s.bytes };
}

impl MemSink {
    /// A sink that takes this many bytes in all. The `fail_at`-th call fails, counted from 1, and writes nothing; the
    /// calls after it go on.
    pub fn new(alloc: Global, room: usize, fail_at: Option<u64>) -> Result<MemSink, Memory>
        ensures { IfOk result (λ sink. sink
            ≡ record { written = []; room = room; fails_in = calls_left fail_at; faults = 0 }) }
    {
        Ok(MemSink {
            bytes: Vec::with_capacity(alloc, room)?,
            room,
            fails_in: fail_at.filter(|at| *at > 0),
            faults: 0,
        })
    }

    /// The bytes that were written.
    pub fn bytes(&self) -> &[u8]
        ensures { result.now ≡ self.now.written }
    {
        &self.bytes
    }
}

impl Sink for MemSink {
    ghost written = { λ s. Some s.written };

    ghost faults = { λ s. s.faults };

    /// Writes as many bytes as the piece has and there is room for.
    fn write(&mut self, piece: &[u8]) -> Result<usize, Failed>
        ensures exact { result ≡ write_answer self.old (length piece.now) }
        ensures after { self.new ≡ after_write self.old piece.now }
        ensures fits { IfOk result (λ n. n ≤ length piece.now) }
        ensures bytes { Some self.new.written ≡ Some (self.old.written ++ take (moved result) piece.now) }
        ensures cause { CountsFaults self.old.faults self.new.faults (moves_none (length piece.now) result) }
    {
        let fails = self.fails_in == Some(1);
        self.fails_in = next_call(self.fails_in);
        if fails {
            self.faults = self.faults.saturating_add(1);
            return Err(Failed);
        }
        let n = piece.len().min(self.room);
        if n == 0 && !piece.is_empty() {
            self.faults = self.faults.saturating_add(1);
            return Ok(0);
        }
        self.bytes.extend_from_slice(&piece[..n]).unwrap();
        self.room -= n;
        Ok(n)
    }
}

// The number of calls up to the one that fails, after a call.
fn next_call(fails_in: Option<u64>) -> Option<u64>
    ensures { result ≡ call_after fails_in }
{
    match fails_in {
        Some(calls) if calls > 1 => Some(calls - 1),
        _ => None,
    }
}
