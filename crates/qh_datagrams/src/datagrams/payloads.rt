ghost use Rattle.std.specs.Prelude.{◌≡◌, ◌+◌, ◌<◌, ◌≤◌, ◌^◌, ◌++◌, ◌∷◌, ◌==◌, [], drop, length, nat_le, slice_get, None, Some, IfSome, OnErr, OnOk};
ghost use Rattle.std.specs.VecDeque.{deque_len, deque_capacity};
ghost use Rattle.qh_datagrams.specs.Datagrams.{bytes_of, with_room};

use bytes::Bytes;
use qh_base::Memory;
use std::alloc::Global;
use std::collections::VecDeque;
use std::marker::Model;

/// Payloads that wait, the oldest first.
#[derive(Drop)]
pub(super) struct Payloads {
    waiting: VecDeque<Bytes>,
    /// How many bytes they have together.
    total: u64,
}

impl Model for Payloads {
    ghost use Rattle.std.specs.Prelude.{◌≡◌, ℕ, List};
    ghost use Rattle.qh_datagrams.specs.Datagrams.{bytes_of};

    ghost Value = { List (List ℕ) };

    ghost view = { λ s. s.waiting.items };

    ghost invariant = { λ s. s.total ≡ bytes_of s.waiting.items };
}

impl Payloads {
    /// No payload waits.
    pub(super) fn new(alloc: Global) -> Payloads
        ensures { result ≡ [] }
    {
        Payloads {
            waiting: VecDeque::new(alloc),
            total: 0,
        }
    }

    /// Whether none waits.
    pub(super) fn is_empty(&self) -> bool
        ensures { result ≡ (length self.now == 0) }
    {
        self.waiting.is_empty()
    }

    /// How many bytes they have together.
    pub(super) fn total(&self) -> u64
        ensures { result ≡ bytes_of self.now }
    {
        self.total
    }

    /// Whether `room` bytes are enough for them and for `len` bytes more.
    pub(super) fn has_room(&self, len: u64, room: u64) -> bool
        ensures { result ≡ nat_le (bytes_of self.now + len) room }
    {
        fits(self.total, len, room)
    }

    /// The one behind the first `index`. None exactly if there are no more than `index`.
    pub(super) fn get(&self, index: usize) -> Option<&Bytes>
        ensures some { IfSome result (λ payload. slice_get self.now index ≡ Some payload.now) }
        ensures none { result ≡ None → length self.now ≤ index }
    {
        self.waiting.get(index)
    }

    /// Puts one behind the others. As few of the oldest as must go are dropped so that all have at most `room` bytes together, or all of the
    /// others.
    pub(super) fn push(&mut self, payload: Bytes, room: u64) -> Result<(), Memory>
        ensures ok { OnOk result (self.new ≡ with_room (length payload) room self.old ++ payload ∷ []) }
        ensures err { OnErr result (self.new ≡ self.old) }
    {
        self.waiting.try_reserve(1)?;
        let len = payload.len() as u64;
        self.total = make_room(&mut self.waiting, self.total, len, room) + len;
        self.waiting.push_back_reserved(payload);
        Ok(())
    }

    /// Takes the oldest one. None exactly if none waits.
    pub(super) fn pop(&mut self) -> Option<Bytes>
        ensures some { IfSome result (λ payload. self.old ≡ payload ∷ self.new) }
        ensures none { result ≡ None → self.old ≡ [] }
        ensures rest { self.new ≡ drop 1 self.old }
    {
        let payload = self.waiting.pop_front()?;
        self.total -= payload.len() as u64;
        Some(payload)
    }

    /// Drops the oldest `count`, or all.
    pub(super) fn drop_first(&mut self, count: usize)
        ensures { self.new ≡ drop count self.old }
    {
        for _ in 0..count {
            self.pop();
        }
    }

    /// Drops all.
    pub(super) fn clear(&mut self)
        ensures { self.new ≡ [] }
    {
        self.waiting.clear();
        self.total = 0;
    }
}

/// Whether two sizes together are at most `room`.
fn fits(total: u64, len: u64, room: u64) -> bool
    ensures { result ≡ nat_le (total + len) room }
{
    len <= room && total <= room - len
}

/// Drops as few of the oldest as must go so that `len` bytes more have room, or all. How many bytes the others have.
fn make_room(waiting: &mut VecDeque<Bytes>, total: u64, len: u64, room: u64) -> u64
    requires { total ≡ bytes_of waiting.old.items }
    ensures items { waiting.new.items ≡ with_room len room waiting.old.items }
    ensures value { result ≡ bytes_of waiting.new.items }
    ensures fits { result + len < 2 ^ 64 }
    ensures len { deque_len waiting.new ≤ deque_len waiting.old }
    ensures capacity { deque_capacity waiting.new ≡ deque_capacity waiting.old }
{
    let mut left = total;
    while !fits(left, len, room) {
        let Some(oldest) = waiting.pop_front() else {
            return 0;
        };
        left -= oldest.len() as u64;
    }
    left
}
