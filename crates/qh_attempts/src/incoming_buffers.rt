ghost use Rattle.std.specs.Prelude.{◌≡◌, ℕ, ◌+◌, ◌-◌, ◌<◌, ◌≤◌, ◌↔◌, ◌^◌, ◌++◌, ◌∷◌, [], length, IsTrue, IfOk, OnErr, Ok, Some, None, true, false, option_copied};
ghost use Rattle.qh_attempts.specs.Attempts.{AreAttempts, HasInstead, HasRoom, IfGiven, IsLater, IsName, IsPending, PlainAttempt, attempt_at, attempt_count, bytes_kept, config_at, total_bytes};
ghost use Rattle.qh_attempts.specs.declared.incoming_buffers.AttemptKey.{AttemptKey as Name};

use crate::attempt::{Attempt, BufferLimits, KeptDatagram};
use qh_base::Memory;
use slab::Slab;
use std::alloc::Global;
use std::marker::Model;

/// The name of an attempt: the key by which its datagrams are routed, which another attempt may have after it, and its number, which no other one has.
#[derive(Clone, Copy)]
pub struct AttemptKey {
    pub key: usize,
    pub number: u64,
}

/// The attempts that wait, with what is kept for each.
///
/// A call takes constant time, amortized over those that grow the room, and dropping an attempt takes time for its own datagrams. The room of an attempt
/// that left is kept for later ones. The limits count payloads alone: beside its payload a kept datagram takes 80 to 160 bytes, and one with an
/// empty payload is counted as nothing. A payload that shares a larger block keeps all of the block.
#[derive(Drop)]
pub struct IncomingBuffers<C> {
    attempts: Slab<Attempt<C>>,
    // How many attempts were numbered, with the numbers below this one.
    numbered: u64,
    // The sum of the bytes that are kept for each attempt.
    total: u64,
    alloc: Global,
}

impl<C> Model for IncomingBuffers<C> {
    ghost use Rattle.std.specs.Prelude.{◌≡◌};
    ghost use Rattle.qh_attempts.specs.Attempts.{AreAttempts, PlainBuffers, total_bytes};

    ghost Value = { PlainBuffers C };

    ghost view = { λ b. record { slots = b.attempts.slots; numbered = b.numbered } };

    ghost invariant = { λ b. AreAttempts (record { slots = b.attempts.slots; numbered = b.numbered }) × (b.total ≡ total_bytes (record { slots = b.attempts.slots; numbered = b.numbered })) };
}

impl<C: Drop> IncomingBuffers<C> {
    /// No attempt waits, and none was numbered.
    pub fn new(alloc: Global) -> IncomingBuffers<C>
        ensures { result ≡ record { slots = []; numbered = 0 } }
    {
        IncomingBuffers {
            attempts: Slab::new(alloc),
            numbered: 0,
            total: 0,
            alloc,
        }
    }

    /// How many attempts wait.
    pub fn len(&self) -> usize
        ensures { result ≡ attempt_count self.now }
    {
        self.attempts.len()
    }

    /// How many bytes are kept for all attempts that wait. Their first datagrams aren't counted.
    pub fn bytes(&self) -> u64
        ensures { result ≡ total_bytes self.now }
    {
        self.total
    }

    /// Whether a further attempt would have a number: fewer than 2^64 - 1 were numbered.
    pub fn has_next_number(&self) -> bool
        ensures { IsTrue result ↔ (self.now.numbered < 2 ^ 64 - 1) }
    {
        self.numbered < u64::MAX
    }

    /// A further attempt waits, with the next number and with nothing kept for it. None if 2^64 - 1 attempts were numbered. Then, and without memory,
    /// nothing changes, and `config` is dropped: an endpoint that can't let an attempt wait ignores its datagram.
    pub fn insert(&mut self, limits: BufferLimits, config: C) -> Result<Option<AttemptKey>, Memory>
        ensures none { (result ≡ Ok None) ↔ (self.old.numbered ≡ 2 ^ 64 - 1) }
        ensures number { IfGiven result (λ k. k.number ≡ self.old.numbered) }
        ensures numbered { IfGiven result (λ k. self.new.numbered ≡ self.old.numbered + 1) }
        ensures named { IfGiven result (IsName self.new) }
        ensures was_free { IfGiven result (λ k. attempt_at self.old k.key ≡ None) }
        ensures waits { IfGiven result (λ k. HasInstead self.old self.new k.key (Some (record { config = config; datagrams = []; limits = limits; number = k.number }))) }
        ensures len { IfGiven result (λ k. attempt_count self.new ≡ attempt_count self.old + 1) }
        ensures bytes { IfGiven result (λ k. total_bytes self.new ≡ total_bytes self.old) }
        ensures later { IsLater self.old self.new }
        ensures unchanged { result ≡ Ok None → self.new ≡ self.old }
        ensures err { OnErr result (self.new ≡ self.old) }
    {
        if self.numbered == u64::MAX {
            return Ok(None);
        }
        let number = self.numbered;
        let attempt = Attempt::new(self.alloc, limits, number, config);
        let key = self.attempts.insert(attempt)?;
        self.numbered += 1;
        Ok(Some(AttemptKey { key, number }))
    }

    /// Whether the attempt waits.
    pub fn is_pending(&self, attempt: &AttemptKey) -> bool
        ensures { IsTrue result ↔ IsPending self.now attempt.now }
    {
        match self.attempts.get(attempt.key) {
            Some(waiting) => waiting.number() == attempt.number,
            None => false,
        }
    }

    /// What the endpoint keeps with the attempt that waits by this key. None if none does.
    pub fn config(&self, key: usize) -> Option<&C>
        ensures { option_copied result ≡ config_at self.now key }
    {
        let waiting = self.attempts.get(key)?;
        Some(waiting.config())
    }

    /// A datagram came for the attempt that waits by this key. It is kept behind the earlier ones if the attempt's bytes with it are at most its
    /// `incoming_buffer_size`, and all attempts' bytes with it at most its `incoming_buffer_size_total`. Otherwise it is dropped, also if no attempt
    /// waits by this key. Whether it is kept. Without memory nothing changes.
    pub fn keep(&mut self, key: usize, datagram: KeptDatagram) -> Result<bool, Memory>
        ensures verdict { IfOk result (λ is_kept. IsTrue is_kept ↔ HasRoom self.old key (length datagram.payload)) }
        ensures kept { (a : PlainAttempt C) → result ≡ Ok true → attempt_at self.old key ≡ Some a → HasInstead self.old self.new key (Some (record a { datagrams = a.datagrams ++ datagram ∷ [] })) }
        ensures pending { (k : Name) → IsPending self.new k ↔ IsPending self.old k }
        ensures configs { (other : ℕ) → config_at self.new other ≡ config_at self.old other }
        ensures numbered { self.new.numbered ≡ self.old.numbered }
        ensures len { attempt_count self.new ≡ attempt_count self.old }
        ensures bytes { result ≡ Ok true → total_bytes self.new ≡ total_bytes self.old + length datagram.payload }
        ensures later { IsLater self.old self.new }
        ensures dropped { result ≡ Ok false → self.new ≡ self.old }
        ensures had_room { OnErr result (HasRoom self.old key (length datagram.payload)) }
        ensures err { OnErr result (self.new ≡ self.old) }
    {
        let len = datagram.payload.len() as u64;
        let Some(attempt) = self.attempts.get_mut(key) else {
            return Ok(false);
        };
        if !attempt.has_room_for(len, self.total) {
            return Ok(false);
        }
        attempt.push(datagram)?;
        self.total += len;
        Ok(true)
    }

    /// The attempt waits no more: all that was kept for it leaves with it, and no other attempt is touched.
    pub fn take(&mut self, attempt: AttemptKey) -> Attempt<C>
        requires { IsPending self.old attempt }
        ensures taken { attempt_at self.old attempt.key ≡ Some result }
        ensures rest { HasInstead self.old self.new attempt.key None }
        ensures numbered { self.new.numbered ≡ self.old.numbered }
        ensures len { attempt_count self.new + 1 ≡ attempt_count self.old }
        ensures later { IsLater self.old self.new }
        ensures bytes { total_bytes self.new + bytes_kept result ≡ total_bytes self.old }
    {
        let taken = self.attempts.remove(attempt.key);
        self.total -= taken.bytes();
        taken
    }

    /// Each attempt that waits has a number of its own, which was given, and no more bytes are kept for it than its limit says. All kept bytes can be
    /// counted. It does nothing: its contract says so.
    pub fn are_attempts(&self)
        ensures sound { AreAttempts self.now }
        ensures numbers { self.now.numbered < 2 ^ 64 }
        ensures bytes { total_bytes self.now < 2 ^ 64 }
    {
        let (_numbered, _total) = (self.numbered, self.total);
    }
}
