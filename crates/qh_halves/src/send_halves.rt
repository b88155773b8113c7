ghost use Rattle.std.specs.Prelude.{◌≡◌, ◌⊎◌, ℕ, ◌+◌, ◌*◌, ◌++◌, ◌<◌, ◌≤◌, ◌^◌, ◌==◌, ◌↔◌, min, max as max_of, List, [], length, take, Option, Some, None, true, false, IsTrue, OnOk, OnErr, IfOk, IfErr, IfSome, MatchOption, MatchResult, IsSome, is_some, IsSomeAnd, if◌then◌else◌};
ghost use Rattle.std.specs.List.{concat};
ghost use Rattle.std.specs.Option.{option_map};
ghost use Rattle.std.specs.Ordering.{nat_cmp};
ghost use Rattle.std.specs.BTreeMap.{insert_entry};
ghost use Rattle.std.specs.Map.{keys_of};
ghost use Rattle.std.specs.List.Sorted.{IsStrictlySortedBy};
ghost use Rattle.qh_buffers.specs.SendBuffer.{empty_buffer, bytes_between, taken_to};
ghost use Rattle.qh_half.specs.declared.send.SendState.TheVariants.{Ready};
ghost use Rattle.qh_half.specs.Send.{is_blocked_fault, PlainSend, IsWriteFault, credit, chunks_after, whole_chunks, Waits, new_send};
ghost use Rattle.qh_halves.specs.SendHalves.{send_at, write_limit, write_fault_at, finish_fault_at, is_reset_refused_at, IsHalf, IsStep, IsAbsent, IsSettledBy, Takes, Finishes, IsResetWith, HasPriority, IsStoppedWith, HasLimit, IsUnblocked, IsAcked, IsLost, IsResetAcked, IsResetLost, IsSentNext, NoneWaits, IsSpanAt, IsOutNow, half_holds, half_in, KeepsSpans, IsSettledAt, half_owes_reset, half_priority, half_is_writable, half_end_acked, Gives, AreAdded, HasForm, PlainSendHalves, half_is_out, IsNextToSend};
ghost use Rattle.qh_halves.specs.Counts.{is_in_range};

use crate::{PendingStream, PendingStreamsQueue};
use bytes::Bytes;
use qh_base::{Memory, VarInt};
use qh_half::{ClosedStream, FinishFault, Outgoing, ResetFrame, Send, WriteFault, Written};
use std::alloc::Global;
use std::collections::BTreeMap;
use std::marker::Model;

/// What a stream sends next.
#[derive(Clone, Drop)]
pub enum Transmission {
    /// Bytes, or an end, for a STREAM frame.
    Stream(Outgoing),
    /// A RESET_STREAM frame.
    Reset(ResetFrame),
}

// Whether something waits in the half of a stream.
fn waits_in(halves: &BTreeMap<u64, Send>, id: u64) -> bool
    ensures some { result ≡ true → IsSomeAnd (half_in halves.now.entries id) Waits }
    ensures none { result ≡ false → IfSome (half_in halves.now.entries id) (λ h. Waits h → ⊥) }
{
    match halves.get(&id) {
        Some(half) => half.waits(),
        None => false,
    }
}

// What a half sends next: its reset, or else a frame.
fn hand_out(half: &mut Send, max_len: usize) -> Result<Option<Transmission>, Memory>
    requires room { 0 < max_len }
    ensures none { IfOk result (λ o. o ≡ None → (half.new ≡ half.old) × (Waits half.old → ⊥)) }
    ensures some { IfOk result (λ o. IfSome o (λ t. Gives max_len t half.old half.new)) }
    ensures is_out { IfOk result (λ o. IfSome o (λ t. half_is_out (Some half.new) t)) }
    ensures bound { IfOk result (λ o. IfSome o HasForm) }
    ensures err { OnErr result (half.new ≡ half.old) }
{
    if let Some(frame) = half.reset_frame() {
        return Ok(Some(Transmission::Reset(frame)));
    }
    match half.poll_transmit(max_len)? {
        Some(frame) => Ok(Some(Transmission::Stream(frame))),
        None => Ok(None),
    }
}

/// The sending halves of a connection's streams, and what they share: the peer's limit on the bytes of all streams, and the
/// send window. A half that is done leaves.
#[derive(Drop)]
pub struct SendHalves {
    halves: BTreeMap<u64, Send>,
    pending: PendingStreamsQueue,
    max_data: u64,
    data_sent: u64,
    send_window: u64,
    unacked_data: u64,
}

impl Model for SendHalves {
    ghost use Rattle.qh_halves.specs.SendHalves.{PlainSendHalves, AreSendHalves};

    ghost Value = { PlainSendHalves };

    ghost view = { λ s. record { halves = s.halves.entries; max_data = s.max_data; data_sent = s.data_sent; send_window = s.send_window } };

    ghost invariant = { λ s. AreSendHalves s.halves.entries s.pending s.max_data s.data_sent s.unacked_data };
}

impl SendHalves {
    /// No halves. Nothing may be sent until the peer's limit comes.
    pub fn new(alloc: Global, send_window: u64) -> SendHalves
        ensures { result ≡ record { halves = []; max_data = 0; data_sent = 0; send_window = send_window } }
    {
        SendHalves {
            halves: BTreeMap::new(alloc),
            pending: PendingStreamsQueue::new(alloc),
            max_data: 0,
            data_sent: 0,
            send_window,
            unacked_data: 0,
        }
    }

    /// Whether the stream has a half that isn't done.
    pub fn contains(&self, id: u64) -> bool
        ensures { result ≡ is_some (send_at self.now id) }
    {
        self.halves.contains_key(&id)
    }

    /// How many halves there are.
    pub fn len(&self) -> usize
        ensures len { result ≡ length self.now.halves }
        ensures small { result < 2 ^ 63 }
        ensures sorted { IsStrictlySortedBy nat_cmp (keys_of self.now.halves) }
    {
        self.halves.len()
    }

    /// All bytes of a stream before this offset are acknowledged. None if its half is done, or was never there.
    pub fn confirmed_to(&self, id: u64) -> Option<u64>
        ensures { result ≡ option_map (λ h. h.buffer.start) (send_at self.now id) }
    {
        let half = self.halves.get(&id)?;
        Some(half.offset() - half.unacked())
    }

    /// Whether the end of a stream is acknowledged, or its half is done or was never there.
    pub fn is_end_acked(&self, id: u64) -> bool
        ensures { result ≡ half_end_acked (send_at self.now id) }
    {
        match self.halves.get(&id) {
            Some(half) => half.is_end_acked(),
            None => true,
        }
    }

    /// How many bytes of a stream were taken. None if its half is done, or was never there.
    pub fn taken_to(&self, id: u64) -> Option<u64>
        ensures { result ≡ option_map (λ h. taken_to h.buffer) (send_at self.now id) }
    {
        let half = self.halves.get(&id)?;
        Some(half.offset())
    }

    /// How many bytes may be taken now by the limits that the streams share.
    pub fn write_limit(&self) -> u64
        ensures { result ≡ write_limit self.now }
    {
        let credit = self.max_data - self.data_sent;
        credit.min(self.send_window.saturating_sub(self.unacked_data))
    }

    // The halves stand in order of their ids. It does nothing: its contract says so.
    fn are_sorted(&self)
        ensures { IsStrictlySortedBy nat_cmp (keys_of self.now.halves) }
    {
        let _ = self.halves.len();
    }

    /// A stream gets its half, with the peer's limit on it, and with room for all that it may have to send.
    pub fn insert(&mut self, alloc: Global, id: u64, max_data: VarInt) -> Result<(), Memory>
        requires { send_at self.old id ≡ None }
        ensures ok { OnOk result (IsHalf self.old self.new id (Some (new_send max_data)) 0) }
        ensures entries { OnOk result (self.new.halves ≡ insert_entry nat_cmp self.old.halves id (new_send max_data)) }
        ensures len { OnOk result (length self.new.halves ≡ length self.old.halves + 1) }
        ensures sorted { IsStrictlySortedBy nat_cmp (keys_of self.old.halves) }
        ensures err { OnErr result (self.new ≡ self.old) }
    {
        self.are_sorted();
        self.pending.admit(id)?;
        match self.halves.insert(id, Send::new(alloc, max_data)) {
            Ok(_) => Ok(()),
            Err(_) => {
                self.pending.leave(id);
                Err(Memory)
            }
        }
    }

    /// Takes back the half that a stream just got.
    pub fn withdraw(&mut self, id: u64)
        ensures entries { (before : List (ℕ × PlainSend)) (h : PlainSend) → half_in before id ≡ None → IsStrictlySortedBy nat_cmp (keys_of before)
            → self.old.halves ≡ insert_entry nat_cmp before id h → self.new.halves ≡ before }
        ensures halves { (k : ℕ) → send_at self.new k ≡ (if k == id then None else send_at self.old k) }
        ensures rest { self.new ≡ record self.old { halves = self.new.halves } }
        ensures sorted { IsStrictlySortedBy nat_cmp (keys_of self.new.halves) }
        ensures len { length self.new.halves ≤ length self.old.halves }
    {
        let Some(half) = self.halves.remove(&id) else {
            return;
        };
        self.unacked_data -= half.held();
        self.pending.leave(id);
    }

    /// `count` streams get their halves, each fourth id from the first on, with the peer's limit on each.
    pub fn insert_range(
        &mut self,
        alloc: Global,
        first: u64,
        count: u64,
        max_data: VarInt,
    ) -> Result<(), Memory>
        requires fits { first + 4 * count < 2 ^ 64 }
        requires fresh { (k : ℕ) → is_in_range first count k ≡ true → send_at self.old k ≡ None }
        ensures ok { OnOk result (AreAdded self.old self.new first count max_data) }
        ensures len { OnOk result (length self.new.halves ≡ length self.old.halves + count) }
        ensures err { OnErr result (self.new ≡ self.old) }
        ensures sorted { IsStrictlySortedBy nat_cmp (keys_of self.old.halves) }
    {
        self.are_sorted();
        for i in 0..count {
            if self.insert(alloc, first + 4 * i, max_data).is_err() {
                self.withdraw_range(first, i);
                return Err(Memory);
            }
        }
        Ok(())
    }

    /// Takes back the halves that streams just got.
    pub fn withdraw_range(&mut self, first: u64, count: u64)
        requires { first + 4 * count < 2 ^ 64 }
        ensures before { (before : PlainSendHalves) (max_data : ℕ) → IsStrictlySortedBy nat_cmp (keys_of before.halves)
            → ((k : ℕ) → is_in_range first count k ≡ true → send_at before k ≡ None) → AreAdded before self.old first count max_data → self.new ≡ before }
        ensures halves { (k : ℕ) → send_at self.new k ≡ (if is_in_range first count k then None else send_at self.old k) }
        ensures rest { self.new ≡ record self.old { halves = self.new.halves } }
        ensures sorted { IsStrictlySortedBy nat_cmp (keys_of self.new.halves) }
        ensures len { length self.new.halves ≤ length self.old.halves }
    {
        if self.len() == 0 {
            return;
        }
        for i in 0..count {
            self.withdraw(first + 4 * i);
        }
    }

    /// The peer's limit on the bytes of all streams rises. Answers whether it rose.
    pub fn received_max_data(&mut self, max: VarInt) -> bool
        ensures value { self.new ≡ record self.old { max_data = max_of self.old.max_data max } }
        ensures rose { IsTrue result ↔ (self.old.max_data < max) }
    {
        let max = max.into_inner();
        let is_risen = self.max_data < max;
        self.max_data = self.max_data.max(max);
        is_risen
    }

    /// Sets how many bytes may be held that aren't acknowledged. Bytes that are held already stay.
    pub fn set_send_window(&mut self, bytes: u64)
        ensures { self.new ≡ record self.old { send_window = bytes } }
    {
        self.send_window = bytes;
    }

    /// Takes the first bytes, as many as the limits permit: the stream's, the connection's and the send window. If no byte
    /// may be taken it answers ClosedStream, Stopped or Blocked, the first that fits; if the allocator has no memory,
    /// Memory. Then nothing changes.
    pub fn write(&mut self, alloc: Global, id: u64, payload: &[u8]) -> Result<usize, WriteFault>
        ensures count { IfOk result (λ n. IfSome (send_at self.old id) (λ h. n ≡ min (length payload.now) (credit h (write_limit self.old)))) }
        ensures ok { IfOk result (λ n. IsStep (Takes (take n payload.now)) self.old self.new id n) }
        ensures taken { OnOk result (write_fault_at self.old id ≡ None) }
        ensures fault { IfErr result (λ e. IsWriteFault e (write_fault_at self.old id)) }
        ensures err { OnErr result (self.new ≡ self.old) }
        ensures spans { KeepsSpans self.old self.new }
    {
        let limit = self.write_limit();
        let Some(half) = self.halves.get_mut(&id) else {
            return Err(WriteFault::ClosedStream);
        };
        let bytes = half.write(alloc, payload, limit)?;
        let priority = half.rank();
        self.data_sent += bytes as u64;
        self.unacked_data += bytes as u64;
        self.pending.insert(PendingStream { priority, id });
        Ok(bytes)
    }

    /// Takes the first bytes of chunks, as `write`, and leaves the rest in them: a chunk that was taken whole is left empty.
    pub fn write_chunks(
        &mut self,
        alloc: Global,
        id: u64,
        chunks: &mut [Bytes],
    ) -> Result<Written, WriteFault>
        ensures count { IfOk result (λ w. IfSome (send_at self.old id) (λ h. w.bytes ≡ min (length (concat chunks.old)) (credit h (write_limit self.old)))) }
        ensures ok { IfOk result (λ w. IsStep (Takes (take w.bytes (concat chunks.old))) self.old self.new id w.bytes) }
        ensures chunks { IfOk result (λ w. (chunks.new ≡ chunks_after w.bytes chunks.old) × (w.chunks ≡ whole_chunks w.bytes chunks.old)) }
        ensures taken { OnOk result (write_fault_at self.old id ≡ None) }
        ensures fault { IfErr result (λ e. IsWriteFault e (write_fault_at self.old id)) }
        ensures err { OnErr result ((self.new ≡ self.old) × (chunks.new ≡ chunks.old)) }
        ensures spans { KeepsSpans self.old self.new }
    {
        let limit = self.write_limit();
        let Some(half) = self.halves.get_mut(&id) else {
            return Err(WriteFault::ClosedStream);
        };
        let written = half.write_chunks(alloc, chunks, limit)?;
        let priority = half.rank();
        self.data_sent += written.bytes as u64;
        self.unacked_data += written.bytes as u64;
        self.pending.insert(PendingStream { priority, id });
        Ok(written)
    }

    /// No bytes come after those that were taken.
    pub fn finish(&mut self, id: u64) -> Result<(), FinishFault>
        ensures ok { OnOk result (IsStep Finishes self.old self.new id 0) }
        ensures fault { IfErr result (λ e. (finish_fault_at self.old id ≡ Some e) × (self.new ≡ self.old)) }
        ensures spans { KeepsSpans self.old self.new }
    {
        let Some(half) = self.halves.get_mut(&id) else {
            return Err(FinishFault::ClosedStream);
        };
        half.finish()?;
        let priority = half.rank();
        self.pending.insert(PendingStream { priority, id });
        Ok(())
    }

    /// Resets the stream, with this code: what waits isn't sent, and the send window has room for as many bytes again.
    pub fn reset(&mut self, id: u64, code: VarInt) -> Result<(), ClosedStream>
        ensures ok { OnOk result (IsStep (IsResetWith code) self.old self.new id 0) }
        ensures fault { OnErr result ((is_reset_refused_at self.old id ≡ true) × (self.new ≡ self.old)) }
        ensures spans { KeepsSpans self.old self.new }
    {
        let Some(half) = self.halves.get_mut(&id) else {
            return Err(ClosedStream);
        };
        half.reset(code)?;
        let priority = half.rank();
        self.unacked_data -= half.unacked();
        self.pending.insert(PendingStream { priority, id });
        Ok(())
    }

    /// Whether the peer asked to stop, and with which code. ClosedStream if the half is done.
    pub fn stopped(&self, id: u64) -> Result<Option<VarInt>, ClosedStream>
        ensures code { MatchResult result (λ code. IfSome (send_at self.now id) (λ h. code ≡ h.stop_reason)) (λ e. send_at self.now id ≡ None) }
        ensures ok { OnOk result (IsSome (send_at self.now id)) }
    {
        match self.halves.get(&id) {
            Some(half) => half.stopped(),
            None => Err(ClosedStream),
        }
    }

    /// The priority among the streams that wait to be sent, 0 at first. ClosedStream if the half is done.
    pub fn priority(&self, id: u64) -> Result<i32, ClosedStream>
        ensures { MatchResult result (λ n. half_priority (send_at self.now id) ≡ Some n) (λ e. send_at self.now id ≡ None) }
    {
        match self.halves.get(&id) {
            Some(half) => Ok(half.rank()),
            None => Err(ClosedStream),
        }
    }

    /// Sets the priority among the streams that wait to be sent. ClosedStream if the half is done.
    pub fn set_priority(&mut self, id: u64, priority: i32) -> Result<(), ClosedStream>
        ensures ok { OnOk result (IsStep (HasPriority priority) self.old self.new id 0) }
        ensures fault { OnErr result (IsAbsent self.old self.new id) }
        ensures spans { KeepsSpans self.old self.new }
    {
        let Some(half) = self.halves.get_mut(&id) else {
            return Err(ClosedStream);
        };
        half.set_priority(priority)?;
        if half.waits() {
            self.pending.insert(PendingStream { priority, id });
        } else {
            self.pending.remove(id);
        }
        Ok(())
    }

    /// The peer asks to stop. Answers whether it is the first time and the half isn't done: a later code is dropped.
    pub fn received_stop_sending(&mut self, id: u64, code: VarInt) -> bool
        ensures first { result ≡ true → IsStep (IsStoppedWith code) self.old self.new id 0 }
        ensures again { result ≡ false → (self.new ≡ self.old) × (IfSome (send_at self.old id) (λ h. (h.stop_reason ≡ None) → ⊥)) }
        ensures spans { KeepsSpans self.old self.new }
    {
        let Some(half) = self.halves.get_mut(&id) else {
            return false;
        };
        half.try_stop(code)
    }

    /// The peer's limit on a stream rises. Answers whether bytes may be written again that were blocked by it.
    pub fn received_max_stream_data(&mut self, id: u64, max: VarInt) -> bool
        ensures value { IsStep (HasLimit max) self.old self.new id 0 ⊎ IsAbsent self.old self.new id }
        ensures unblocked { IsTrue result ↔ IsUnblocked max (send_at self.old id) }
        ensures spans { KeepsSpans self.old self.new }
    {
        let Some(half) = self.halves.get_mut(&id) else {
            return false;
        };
        half.increase_max_data(max)
    }

    /// What is to be sent next, of the first stream in which something waits: the greater priority goes first, then the lesser
    /// id. A STREAM frame has at most `max_len` bytes. It counts as sent. None if nothing waits in any stream.
    pub fn poll_transmit(&mut self, max_len: usize) -> Result<Option<(u64, Transmission)>, Memory>
        requires { 0 < max_len }
        ensures none { IfOk result (λ o. o ≡ None → (self.new ≡ self.old) × NoneWaits self.old) }
        ensures some { IfOk result (λ o. IfSome o (λ t. IsSentNext self.old self.new max_len t.0 t.1)) }
        ensures is_out { IfOk result (λ o. IfSome o (λ t. IsOutNow self.new t.0 t.1)) }
        ensures bound { IfOk result (λ o. IfSome o (λ t. HasForm t.1)) }
        ensures waits { OnErr result (NoneWaits self.old → ⊥) }
        ensures err { OnErr result (self.new ≡ self.old) }
        ensures spans { KeepsSpans self.old self.new }
    {
        let Some(first) = self.pending.first() else {
            return Ok(None);
        };
        match self.transmit(first.id, max_len) {
            Ok(Some(transmission)) => Ok(Some((first.id, transmission))),
            Ok(None) => self.poll_waiting(max_len),
            Err(_) => self.poll_waiting(max_len),
        }
    }

    // The same, if streams in which nothing waits may stand first in the queue. After want of memory it asks for it once more, of
    // a stream in which something waits.
    fn poll_waiting(&mut self, max_len: usize) -> Result<Option<(u64, Transmission)>, Memory>
        requires { 0 < max_len }
        ensures none { IfOk result (λ o. o ≡ None → (self.new ≡ self.old) × NoneWaits self.old) }
        ensures some { IfOk result (λ o. IfSome o (λ t. IsSentNext self.old self.new max_len t.0 t.1)) }
        ensures is_out { IfOk result (λ o. IfSome o (λ t. IsOutNow self.new t.0 t.1)) }
        ensures bound { IfOk result (λ o. IfSome o (λ t. HasForm t.1)) }
        ensures waits { OnErr result (NoneWaits self.old → ⊥) }
        ensures err { OnErr result (self.new ≡ self.old) }
        ensures spans { KeepsSpans self.old self.new }
    {
        let Some(id) = self.first_waiting() else {
            return Ok(None);
        };
        match self.transmit(id, max_len)? {
            Some(transmission) => Ok(Some((id, transmission))),
            None => Ok(None),
        }
    }

    // The stream that is served next. Those before it in the queue, in which nothing waits, leave the queue.
    fn first_waiting(&mut self) -> Option<u64>
        ensures same { self.new ≡ self.old }
        ensures none { result ≡ None → NoneWaits self.old }
        ensures some { IfSome result (IsNextToSend self.old) }
    {
        while let Some(first) = self.pending.first() {
            if waits_in(&self.halves, first.id) {
                return Some(first.id);
            }
            self.pending.remove(first.id);
        }
        None
    }

    // What a stream sends next. If nothing waits in it afterwards it leaves the queue.
    fn transmit(&mut self, id: u64, max_len: usize) -> Result<Option<Transmission>, Memory>
        requires room { 0 < max_len }
        ensures none { IfOk result (λ o. o ≡ None → (self.new ≡ self.old) × IfSome (send_at self.old id) (λ h. Waits h → ⊥)) }
        ensures some { IfOk result (λ o. IfSome o (λ t. IsStep (Gives max_len t) self.old self.new id 0)) }
        ensures is_out { IfOk result (λ o. IfSome o (λ t. IsOutNow self.new id t)) }
        ensures bound { IfOk result (λ o. IfSome o HasForm) }
        ensures err { OnErr result (self.new ≡ self.old) }
        ensures spans { KeepsSpans self.old self.new }
    {
        let Some(half) = self.halves.get_mut(&id) else {
            return Ok(None);
        };
        let given = hand_out(half, max_len);
        if !half.waits() {
            self.pending.remove(id);
        }
        given
    }

    /// Appends the bytes of a frame that `poll_transmit` just gave.
    pub fn put(&self, id: u64, frame: &Outgoing, out: &mut Vec<u8>) -> Result<(), Memory>
        requires { half_holds (send_at self.now id) frame.now }
        ensures ok { OnOk result (IfSome (send_at self.now id) (λ h. out.new.items ≡ out.old.items ++ bytes_between h.buffer frame.now.offsets.start frame.now.offsets.end)) }
        ensures err { OnErr result (out.new.items ≡ out.old.items) }
    {
        match self.halves.get(&id) {
            Some(half) => half.put(frame.offsets.start..frame.offsets.end, out),
            None => Ok(()),
        }
    }

    /// A STREAM frame is acknowledged. Answers whether the half is done by it: its end and all its bytes are acknowledged.
    pub fn ack(&mut self, id: u64, frame: Outgoing) -> bool
        requires { IsSpanAt self.old id frame }
        ensures settled { IsSettledBy (IsAcked frame) self.old self.new id result }
        ensures spans { KeepsSpans self.old self.new }
    {
        let Some(half) = self.halves.get_mut(&id) else {
            return false;
        };
        let before = half.held();
        half.ack(frame);
        let is_done = half.is_done();
        self.unacked_data -= before - half.held();
        if is_done {
            self.halves.remove(&id);
            self.pending.leave(id);
        }
        is_done
    }

    /// A STREAM frame is lost, or is to be sent again for another reason.
    pub fn retransmit(&mut self, id: u64, frame: &Outgoing)
        requires { IsSpanAt self.old id frame.now }
        ensures queued { IsStep (IsLost frame.now) self.old self.new id 0 ⊎ IsAbsent self.old self.new id }
        ensures spans { KeepsSpans self.old self.new }
    {
        let Some(half) = self.halves.get_mut(&id) else {
            return;
        };
        half.retransmit(frame);
        let priority = half.rank();
        self.pending.insert(PendingStream { priority, id });
    }

    /// Whether something of a STREAM frame is still to be acknowledged.
    pub fn owes(&self, id: u64, frame: &Outgoing) -> bool
        requires { IsSpanAt self.now id frame.now }
        ensures some { result ≡ true → IsSettledAt self.now id frame.now → ⊥ }
        ensures none { result ≡ false → IsSettledAt self.now id frame.now }
    {
        match self.halves.get(&id) {
            Some(half) => half.owes(frame),
            None => false,
        }
    }

    /// A RESET_STREAM frame is acknowledged. Answers whether the half is done by it.
    pub fn ack_reset(&mut self, id: u64) -> bool
        ensures settled { IsSettledBy IsResetAcked self.old self.new id result }
        ensures spans { KeepsSpans self.old self.new }
    {
        let Some(half) = self.halves.get_mut(&id) else {
            return false;
        };
        half.ack_reset();
        let is_done = half.is_done();
        if is_done {
            self.halves.remove(&id);
            self.pending.leave(id);
        }
        is_done
    }

    /// A RESET_STREAM frame is lost, or is to be sent again for another reason.
    pub fn lose_reset(&mut self, id: u64)
        ensures queued { IsStep IsResetLost self.old self.new id 0 ⊎ IsAbsent self.old self.new id }
        ensures spans { KeepsSpans self.old self.new }
    {
        let Some(half) = self.halves.get_mut(&id) else {
            return;
        };
        half.lose_reset();
        let priority = half.rank();
        self.pending.insert(PendingStream { priority, id });
    }

    /// Whether a RESET_STREAM frame is still to be acknowledged.
    pub fn owes_reset(&self, id: u64) -> bool
        ensures { result ≡ half_owes_reset (send_at self.now id) }
    {
        match self.halves.get(&id) {
            Some(half) => half.owes_reset(),
            None => false,
        }
    }

    /// Whether bytes may be written as far as the stream's own state and limit go.
    pub fn is_writable(&self, id: u64) -> bool
        ensures { result ≡ half_is_writable (send_at self.now id) }
    {
        match self.halves.get(&id) {
            Some(half) => half.is_writable(),
            None => false,
        }
    }

    /// Whether a write waits: it is neither refused nor is a byte permitted, by the limit of the stream, by that of all or by the send window.
    pub fn is_blocked(&self, id: u64) -> bool
        ensures { result ≡ is_blocked_fault (write_fault_at self.now id) }
    {
        match self.halves.get(&id) {
            Some(half) => half.is_blocked(self.write_limit()),
            None => false,
        }
    }

    /// Whether this limit permits bytes again that the stream's own limit forbade.
    pub fn is_unblocked_by(&self, id: u64, limit: VarInt) -> bool
        ensures { IsTrue result ↔ IsUnblocked limit (send_at self.now id) }
    {
        match self.halves.get(&id) {
            Some(half) => half.is_unblocked_by(limit),
            None => false,
        }
    }
}
