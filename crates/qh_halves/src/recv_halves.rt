ghost use Rattle.std.specs.Prelude.{◌≡◌, ◌⊎◌, ℕ, Bool, ◌+◌, ◌-◌, ◌*◌, ◌<◌, ◌≤◌, ◌^◌, ◌==◌, ◌||◌, min, List, [], length, Option, Some, None, true, false, Err, OnOk, OnErr, IfOk, IfErr, IfSome, MatchResult, is_some, if◌then◌else◌};
ghost use Rattle.qh_buffers.specs.Assembler.{read_to, was_given};
ghost use Rattle.std.specs.Ordering.{nat_cmp};
ghost use Rattle.std.specs.BTreeMap.{insert_entry};
ghost use Rattle.std.specs.Map.{keys_of};
ghost use Rattle.std.specs.List.Sorted.{IsStrictlySortedBy};
ghost use Rattle.qh_buffers.specs.declared.send_buffer.Mark.TheVariants.{Sent, Acked};
ghost use Rattle.qh_half.specs.declared.fault.ReadFault.TheVariants.{Memory as Lacking};
ghost use Rattle.qh_halves.specs.Limit.{is_due, acked_at, lost_at, owes_value};
ghost use Rattle.qh_half.specs.Recv.{PlainRecv, AreWaiting, ReadsAtMost, new_recv, ingest_fault, is_frame_due, IsFaultOf};
ghost use Rattle.qh_halves.specs.RecvHalves.{IsReadBlockedAt, half_awaits_reset, recv_at, recv_half_in, data_limit, IsRecvHalf, IsRecvStep, IsRecvAbsent, ingest_fault_at, IsPieceTaken, IsResetTaken, readable_fault_at, is_closed_at, Reads, Begins, WaitsForMoreAt, WaitsForMoreInOrderAt, IsBegunRead, is_wanting, Stops, TakesReset, NoneIsDue, GivesControl, IsLimitAcked, IsLimitLost, IsStopAcked, IsStopLost, half_owes_limit, half_owes_stop, half_is_wanted, due_entry, is_credit_due, AreRecvAdded, PlainRecvHalves, IsSettled, IsHalfWritten, IsNoneDue};
ghost use Rattle.qh_halves.specs.Counts.{is_in_range};
ghost use Rattle.qh_halves.specs.Pending.{has_room};

use crate::{AnnouncedLimit, PendingStream, PendingStreamsQueue};
use qh_base::{Memory, VarInt};
use qh_buffers::Chunk;
use qh_half::{ClosedStream, IngestFault, ReadFault, ReadableFault, Recv};
use std::alloc::Global;
use std::collections::BTreeMap;
use std::marker::Model;

/// A frame that the reader of a stream has to send.
#[derive(Clone, Copy)]
pub enum StreamControl {
    /// STOP_SENDING, with the application's code.
    StopSending(VarInt),
    /// MAX_STREAM_DATA, with the limit.
    MaxStreamData(VarInt),
}

/// The receiving halves of a connection's streams, and what they share: the connection's limit. A half that is done leaves.
#[derive(Drop)]
pub struct RecvHalves {
    halves: BTreeMap<u64, Recv>,
    due: PendingStreamsQueue,
    received: u64,
    credited: u64,
    receive_window: u64,
    stream_window: u64,
    announced: AnnouncedLimit,
}

impl Model for RecvHalves {
    ghost use Rattle.qh_halves.specs.RecvHalves.{PlainRecvHalves, AreRecvHalves};

    ghost Value = { PlainRecvHalves };

    ghost view = { λ s. record { halves = s.halves.entries; received = s.received; credited = s.credited; receive_window = s.receive_window; stream_window = s.stream_window; announced = s.announced } };

    ghost invariant = { λ s. AreRecvHalves s.halves.entries s.due s.received s.stream_window s.announced };
}

impl RecvHalves {
    /// No halves. The peer knows the first limit of the connection, which is the window, at most 2^62 - 1.
    pub fn new(alloc: Global, receive_window: u64, stream_window: u64) -> RecvHalves
        ensures { result ≡ record { halves = []; received = 0; credited = 0; receive_window = receive_window; stream_window = stream_window; announced = record { value = min receive_window (2 ^ 62 - 1); mark = Acked } } }
    {
        RecvHalves {
            halves: BTreeMap::new(alloc),
            due: PendingStreamsQueue::new(alloc),
            received: 0,
            credited: 0,
            receive_window,
            stream_window,
            announced: AnnouncedLimit::new(receive_window.min(VarInt::MAX_VALUE)),
        }
    }

    /// Whether the stream has a half that isn't done.
    pub fn contains(&self, id: u64) -> bool
        ensures { result ≡ is_some (recv_at self.now id) }
    {
        self.halves.contains_key(&id)
    }

    /// How many halves there are.
    pub fn len(&self) -> usize
        ensures len { result ≡ length self.now.halves }
        ensures small { result < 2 ^ 63 }
        ensures sorted { IsStrictlySortedBy nat_cmp (keys_of self.now.halves) }
    {
        self.halves.len()
    }

    /// Whether the stream has a half that isn't done nor stopped.
    pub fn is_wanted(&self, id: u64) -> bool
        ensures { result ≡ half_is_wanted (recv_at self.now id) }
    {
        match self.halves.get(&id) {
            Some(half) => !half.is_stopped(),
            None => false,
        }
    }

    // The halves stand in order of their ids. It does nothing: its contract says so.
    fn are_sorted(&self)
        ensures { IsStrictlySortedBy nat_cmp (keys_of self.now.halves) }
    {
        let _ = self.halves.len();
    }

    /// A stream gets its half, with the first limit on it, which the peer knows: the window, at most 2^62 - 1. It gets room for
    /// all that it may have to send.
    pub fn insert(&mut self, alloc: Global, id: u64) -> Result<(), Memory>
        requires { recv_at self.old id ≡ None }
        ensures ok { OnOk result (IsRecvHalf self.old self.new id (Some (new_recv (min self.old.stream_window (2 ^ 62 - 1))))) }
        ensures entries { OnOk result (self.new.halves ≡ insert_entry nat_cmp self.old.halves id (new_recv (min self.old.stream_window (2 ^ 62 - 1)))) }
        ensures err { OnErr result (self.new ≡ self.old) }
    {
        self.due.admit(id)?;
        let half = Recv::new(alloc, first_limit(self.stream_window));
        match self.halves.insert(id, half) {
            Ok(_) => Ok(()),
            Err(_) => {
                self.due.leave(id);
                Err(Memory)
            }
        }
    }

    /// Takes back the half that a stream just got.
    pub fn withdraw(&mut self, id: u64)
        ensures entries { (before : List (ℕ × PlainRecv)) (r : PlainRecv) → recv_half_in before id ≡ None → IsStrictlySortedBy nat_cmp (keys_of before)
            → self.old.halves ≡ insert_entry nat_cmp before id r → self.new.halves ≡ before }
        ensures halves { (k : ℕ) → recv_at self.new k ≡ (if k == id then None else recv_at self.old k) }
        ensures rest { self.new ≡ record self.old { halves = self.new.halves } }
        ensures sorted { IsStrictlySortedBy nat_cmp (keys_of self.new.halves) }
    {
        self.due.leave(id);
        let _ = self.halves.remove(&id);
    }

    /// Gives `count` streams their halves, each fourth id from the first on.
    pub fn insert_range(&mut self, alloc: Global, first: u64, count: u64) -> Result<(), Memory>
        requires fits { first + 4 * count < 2 ^ 64 }
        requires fresh { (k : ℕ) → is_in_range first count k ≡ true → recv_at self.old k ≡ None }
        ensures ok { OnOk result (AreRecvAdded self.old self.new first count) }
        ensures err { OnErr result (self.new ≡ self.old) }
        ensures sorted { IsStrictlySortedBy nat_cmp (keys_of self.old.halves) }
    {
        self.are_sorted();
        for i in 0..count {
            if self.insert(alloc, first + 4 * i).is_err() {
                self.withdraw_range(first, i);
                return Err(Memory);
            }
        }
        Ok(())
    }

    /// Takes back the halves that streams just got.
    pub fn withdraw_range(&mut self, first: u64, count: u64)
        requires { first + 4 * count < 2 ^ 64 }
        ensures before { (before : PlainRecvHalves) → IsStrictlySortedBy nat_cmp (keys_of before.halves)
            → ((k : ℕ) → is_in_range first count k ≡ true → recv_at before k ≡ None) → AreRecvAdded before self.old first count → self.new ≡ before }
        ensures halves { (k : ℕ) → recv_at self.new k ≡ (if is_in_range first count k then None else recv_at self.old k) }
        ensures rest { self.new ≡ record self.old { halves = self.new.halves } }
        ensures sorted { IsStrictlySortedBy nat_cmp (keys_of self.new.halves) }
    {
        if self.len() == 0 {
            return;
        }
        for i in 0..count {
            self.withdraw(first + 4 * i);
        }
    }

    /// Sets how many bytes more than are read may come. The connection's limit doesn't fall by it.
    pub fn set_receive_window(&mut self, bytes: u64)
        ensures { self.new ≡ record self.old { receive_window = bytes } }
    {
        self.receive_window = bytes;
    }

    /// A piece of a stream came, with its end or not. If the stream has no half it is dropped.
    pub fn ingest(&mut self, id: u64, piece: Chunk, fin: bool) -> Result<(), IngestFault>
        ensures ok { OnOk result (IsPieceTaken self.old self.new id piece fin ⊎ IsRecvAbsent self.old self.new id) }
        ensures taken { OnOk result (ingest_fault_at self.old id (piece.offset + length piece.bytes) fin ≡ None) }
        ensures fault { IfErr result (λ e. IsFaultOf e (ingest_fault_at self.old id (piece.offset + length piece.bytes) fin)) }
        ensures err { OnErr result (self.new ≡ self.old) }
    {
        let Some(half) = self.halves.get_mut(&id) else {
            return Ok(());
        };
        let before = half.counted();
        let fresh = half.ingest(piece, fin, self.received, self.announced.value)?;
        let after = half.counted();
        let is_done = half.is_done();
        self.received += fresh;
        self.credited = self.credited.saturating_add(after - before);
        settle(&mut self.halves, &mut self.due, id, is_done, false);
        Ok(())
    }

    /// Why bytes of a stream up to an offset, or an end there, are refused, as `ingest` tells it.
    pub fn ingest_fault(&self, id: u64, to: u64, is_end: bool) -> Option<IngestFault>
        ensures { result ≡ ingest_fault_at self.now id to is_end }
    {
        let half = self.halves.get(&id)?;
        half.ingest_fault(to, is_end, self.received, self.announced.value)
    }

    /// Why bytes of a stream up to an offset, or an end there, are refused if they are its first.
    pub fn first_ingest_fault(&self, to: u64) -> Option<IngestFault>
        ensures { (is_end : Bool) → result ≡ ingest_fault (new_recv (min self.now.stream_window (2 ^ 62 - 1))) to is_end self.now.received self.now.announced.value }
    {
        let limit = first_limit(self.stream_window).into_inner();
        if limit < to || self.announced.value - self.received < to {
            return Some(IngestFault::FlowControl);
        }
        None
    }

    /// A reset of a stream came, with its final size. If the stream has no half it is dropped.
    pub fn received_reset(&mut self, id: u64, code: VarInt, size: VarInt) -> Result<(), IngestFault>
        ensures ok { OnOk result (IsResetTaken self.old self.new id code size ⊎ IsRecvAbsent self.old self.new id) }
        ensures taken { OnOk result (ingest_fault_at self.old id size true ≡ None) }
        ensures fault { IfErr result (λ e. (ingest_fault_at self.old id size true ≡ Some e) × (self.new ≡ self.old)) }
    {
        let Some(half) = self.halves.get_mut(&id) else {
            return Ok(());
        };
        let before = half.counted();
        let fresh = half.received_reset(code, size, self.received, self.announced.value)?;
        let after = half.counted();
        let is_done = half.is_done();
        self.received += fresh;
        self.credited = self.credited.saturating_add(after - before);
        settle(&mut self.halves, &mut self.due, id, is_done, false);
        Ok(())
    }

    /// Begins to read, in order or not. An ordered read after an unordered one is refused; ClosedStream if the stream has no
    /// half, or was stopped.
    pub fn begin_read(&mut self, id: u64, ordered: bool) -> Result<(), ReadableFault>
        ensures ok { OnOk result ((readable_fault_at self.old id ordered ≡ None) × IsRecvStep (Begins ordered) self.old self.new id 0) }
        ensures fault { IfErr result (λ e. (readable_fault_at self.old id ordered ≡ Some e) × (self.new ≡ self.old)) }
    {
        let Some(half) = self.halves.get_mut(&id) else {
            return Err(ReadableFault::ClosedStream);
        };
        half.begin_read(ordered)
    }

    /// Whether a read of the stream in this order waits: it may be made, and there is nothing for it, neither bytes nor the end nor the reset.
    pub fn is_blocked(&self, id: u64, ordered: bool) -> bool
        ensures yes { result ≡ true → IsReadBlockedAt self.now id ordered }
        ensures no { result ≡ false → IsReadBlockedAt self.now id ordered → ⊥ }
    {
        match self.halves.get(&id) {
            Some(half) => half.is_blocked(ordered),
            None => false,
        }
    }

    /// The most bytes that the next read of a stream in this order can give, at most `max_length`; 0 if it has no half. It takes the time of the
    /// pieces that it counts.
    pub fn longest(&self, id: u64, max_length: usize, ordered: bool) -> usize
        ensures few { result ≤ max_length }
        ensures enough { IfSome (recv_at self.now id) (λ r. ReadsAtMost r ordered max_length result) }
        ensures waits { IfSome (recv_at self.now id) (λ r. AreWaiting r ordered result) }
        ensures none { recv_at self.now id ≡ None → result ≡ 0 }
    {
        match self.halves.get(&id) {
            Some(half) => half.longest(max_length, ordered),
            None => 0,
        }
    }

    /// Of a half the offset behind those that reads gave without a gap wasn't given. It does nothing: its contract says so.
    pub fn reads_on(&self, id: u64)
        ensures { IfSome (recv_at self.now id) (λ r. was_given r.assembler (read_to r.assembler) ≡ false) }
    {
        if let Some(half) = self.halves.get(&id) {
            half.reads_on();
        }
    }

    /// Whether whoever waits for the peer's reset of the stream waits still: none came, and reads aren't refused.
    pub fn awaits_reset(&self, id: u64) -> bool
        ensures { result ≡ half_awaits_reset (recv_at self.now id) }
    {
        match self.halves.get(&id) {
            Some(half) => half.awaits_reset(),
            None => false,
        }
    }

    /// Why a read isn't begun, in order or not, as `begin_read` tells it.
    pub fn readable_fault(&self, id: u64, ordered: bool) -> Option<ReadableFault>
        ensures { result ≡ readable_fault_at self.now id ordered }
    {
        match self.halves.get(&id) {
            Some(half) => half.readable_fault(ordered),
            None => Some(ReadableFault::ClosedStream),
        }
    }

    /// Begins to read, in order or not, and gives what `next` gives. For want of memory nothing changes: no read out of order is
    /// begun either.
    pub fn read(
        &mut self,
        id: u64,
        max_length: usize,
        ordered: bool,
    ) -> Result<Option<Chunk>, ReadFault>
        requires { readable_fault_at self.old id ordered ≡ None }
        ensures answer { IsBegunRead max_length (ordered || is_wanting result) result self.old self.new id }
        ensures memory { result ≡ Err Lacking → self.new ≡ self.old }
        ensures lacks { result ≡ Err Lacking → WaitsForMoreInOrderAt self.old id ordered → ⊥ }
    {
        let Some(half) = self.halves.get_mut(&id) else {
            return Err(ReadFault::Blocked);
        };
        let before = half.counted();
        let result = half.read(max_length, ordered);
        if is_wanting(&result) {
            return result;
        }
        let after = half.counted();
        let is_done = half.is_done();
        let is_due = half.is_frame_due(self.stream_window);
        self.credited = self.credited.saturating_add(after - before);
        settle(&mut self.halves, &mut self.due, id, is_done, is_due);
        result
    }

    /// Whether reads are refused: the stream has no half, or was stopped, or its end or its reset was given.
    pub fn is_closed(&self, id: u64) -> bool
        ensures { result ≡ is_closed_at self.now id }
    {
        match self.halves.get(&id) {
            Some(half) => half.is_closed(),
            None => true,
        }
    }

    /// Gives at most `max_length` bytes that wait, or the end, None, or the reset. If it gives the end or the reset the half is
    /// done and leaves.
    pub fn next(&mut self, id: u64, max_length: usize) -> Result<Option<Chunk>, ReadFault>
        requires { is_closed_at self.old id ≡ false }
        ensures answer { IsRecvStep (Reads max_length result) self.old self.new id 0 }
        ensures lacks { result ≡ Err Lacking → WaitsForMoreAt self.old id → ⊥ }
    {
        let Some(half) = self.halves.get_mut(&id) else {
            return Err(ReadFault::Blocked);
        };
        let before = half.counted();
        let result = half.next(max_length);
        let after = half.counted();
        let is_done = half.is_done();
        let is_due = half.is_frame_due(self.stream_window);
        self.credited = self.credited.saturating_add(after - before);
        settle(&mut self.halves, &mut self.due, id, is_done, is_due);
        result
    }

    /// No more bytes of a stream are wanted: what waits is dropped, and what comes. If the final size isn't known the peer is
    /// to be told, with this code; else the half is done and leaves. ClosedStream if the stream has no half, or was stopped.
    pub fn stop(&mut self, id: u64, code: VarInt) -> Result<(), ClosedStream>
        ensures ok { OnOk result (IsRecvStep (Stops code) self.old self.new id 0) }
        ensures fault { OnErr result ((is_closed_at self.old id ≡ true) × (self.new ≡ self.old)) }
    {
        let Some(half) = self.halves.get_mut(&id) else {
            return Err(ClosedStream);
        };
        let before = half.counted();
        half.stop(code)?;
        let after = half.counted();
        let is_done = half.is_done();
        self.credited = self.credited.saturating_add(after - before);
        settle(&mut self.halves, &mut self.due, id, is_done, true);
        Ok(())
    }

    /// The code of the peer's reset, if one came: the half is done then and leaves. ClosedStream as `stop`.
    pub fn take_reset(&mut self, id: u64) -> Result<Option<VarInt>, ClosedStream>
        ensures ok { IfOk result (λ code. IsRecvStep (TakesReset code) self.old self.new id 0) }
        ensures fault { OnErr result ((is_closed_at self.old id ≡ true) × (self.new ≡ self.old)) }
    {
        let Some(half) = self.halves.get_mut(&id) else {
            return Err(ClosedStream);
        };
        let code = half.take_reset()?;
        let is_done = half.is_done();
        settle(&mut self.halves, &mut self.due, id, is_done, false);
        Ok(code)
    }

    /// The next STOP_SENDING or MAX_STREAM_DATA frame that is to be sent, and its stream. It counts as sent. None if none is
    /// due.
    pub fn next_control(&mut self) -> Option<(u64, StreamControl)>
        ensures some { IfSome result (λ t. IsRecvStep (GivesControl self.old.stream_window t.1) self.old self.new t.0 0) }
        ensures none { result ≡ None → (self.new ≡ self.old) × NoneIsDue self.old }
    {
        while let Some(first) = self.due.first() {
            if let Some(control) = control(&mut self.halves, first.id, self.stream_window) {
                return Some((first.id, control));
            }
            self.due.remove(first.id);
        }
        None
    }

    /// Whether `next_control` has anything to look at: if not, no STOP_SENDING or MAX_STREAM_DATA frame is due. A stream of which
    /// the frame is no longer due may still be there.
    pub fn has_control(&self) -> bool
        ensures { result ≡ false → NoneIsDue self.now }
    {
        self.due.first().is_some()
    }

    /// The connection's limit: the bytes read and the window, at most 2^62 - 1. It never falls.
    pub fn max_data(&self) -> u64
        ensures { result ≡ data_limit self.now }
    {
        let limit = self.credited.saturating_add(self.receive_window);
        limit.min(VarInt::MAX_VALUE).max(self.announced.value)
    }

    /// The connection's limit that is to be announced, if it rose over the last one or the frame with the last one is lost.
    /// It counts as announced then.
    pub fn next_max_data(&mut self) -> Option<VarInt>
        ensures some { IfSome result (λ limit. (limit ≡ data_limit self.old) × (is_due self.old.announced limit ≡ true) × (self.new ≡ record self.old { announced = record { value = limit; mark = Sent } })) }
        ensures none { result ≡ None → (is_due self.old.announced (data_limit self.old) ≡ false) × (self.new ≡ self.old) }
    {
        let limit = self.max_data();
        if !self.announced.is_due(limit) {
            return None;
        }
        self.announced = AnnouncedLimit::sent(limit);
        VarInt::from_u64(limit)
    }

    /// Whether the connection's limit is to be announced, as `next_max_data` has it.
    pub fn is_max_data_due(&self) -> bool
        ensures { result ≡ is_due self.now.announced (data_limit self.now) }
    {
        self.announced.is_due(self.max_data())
    }

    /// Whether the connection's limit is to be announced, or that of a stream.
    pub fn is_credit_due(&self, id: u64) -> bool
        ensures { result ≡ is_credit_due self.now id }
    {
        let is_limit_due = match self.halves.get(&id) {
            Some(half) => half.is_limit_due(self.stream_window),
            None => false,
        };
        is_limit_due || self.announced.is_due(self.max_data())
    }

    /// A MAX_DATA frame with this limit is acknowledged.
    pub fn ack_max_data(&mut self, limit: VarInt)
        ensures { self.new ≡ record self.old { announced = acked_at limit self.old.announced } }
    {
        self.announced = self.announced.acked(limit.into_inner());
    }

    /// A MAX_DATA frame with this limit is lost: if none with a greater one was sent, it waits again.
    pub fn lose_max_data(&mut self, limit: VarInt)
        ensures { self.new ≡ record self.old { announced = lost_at limit self.old.announced } }
    {
        self.announced = self.announced.lost(limit.into_inner());
    }

    /// Whether a MAX_DATA frame with this limit is still to be acknowledged.
    pub fn owes_max_data(&self, limit: VarInt) -> bool
        ensures { result ≡ owes_value self.now.announced limit }
    {
        self.announced.owes(limit.into_inner())
    }

    /// A MAX_STREAM_DATA frame with this limit is acknowledged.
    pub fn ack_max_stream_data(&mut self, id: u64, limit: VarInt)
        ensures { IsRecvStep (IsLimitAcked limit) self.old self.new id 0 ⊎ IsRecvAbsent self.old self.new id }
    {
        let Some(half) = self.halves.get_mut(&id) else {
            return;
        };
        half.ack_max_stream_data(limit);
    }

    /// A MAX_STREAM_DATA frame with this limit is lost: if none with a greater one was sent, it waits again.
    pub fn lose_max_stream_data(&mut self, id: u64, limit: VarInt)
        ensures { IsRecvStep (IsLimitLost limit) self.old self.new id 0 ⊎ IsRecvAbsent self.old self.new id }
    {
        let Some(half) = self.halves.get_mut(&id) else {
            return;
        };
        half.lose_max_stream_data(limit);
        self.due.insert(due_entry(id));
    }

    /// Whether a MAX_STREAM_DATA frame with this limit is still to be acknowledged.
    pub fn owes_max_stream_data(&self, id: u64, limit: VarInt) -> bool
        ensures { result ≡ half_owes_limit (recv_at self.now id) limit }
    {
        match self.halves.get(&id) {
            Some(half) => half.owes_max_stream_data(limit),
            None => false,
        }
    }

    /// A STOP_SENDING frame is acknowledged.
    pub fn ack_stop(&mut self, id: u64)
        ensures { IsRecvStep IsStopAcked self.old self.new id 0 ⊎ IsRecvAbsent self.old self.new id }
    {
        let Some(half) = self.halves.get_mut(&id) else {
            return;
        };
        half.ack_stop();
    }

    /// A STOP_SENDING frame is lost: if it isn't acknowledged it waits again.
    pub fn lose_stop(&mut self, id: u64)
        ensures { IsRecvStep IsStopLost self.old self.new id 0 ⊎ IsRecvAbsent self.old self.new id }
    {
        let Some(half) = self.halves.get_mut(&id) else {
            return;
        };
        half.lose_stop();
        self.due.insert(due_entry(id));
    }

    /// Whether a STOP_SENDING frame is still to be acknowledged.
    pub fn owes_stop(&self, id: u64) -> bool
        ensures { result ≡ half_owes_stop (recv_at self.now id) }
    {
        match self.halves.get(&id) {
            Some(half) => half.owes_stop(),
            None => false,
        }
    }
}

// Memory lacked for the answer of a read.
fn is_wanting(answer: &Result<Option<Chunk>, ReadFault>) -> bool
    ensures value { result ≡ is_wanting answer.now }
    ensures yes { result ≡ true → answer.now ≡ Err Lacking }
    ensures no { result ≡ false → answer.now ≡ Err Lacking → ⊥ }
{
    matches!(answer, Err(ReadFault::Memory))
}

// The frame that is due of a stream.
fn control(halves: &mut BTreeMap<u64, Recv>, id: u64, window: u64) -> Option<StreamControl>
    ensures some { IfSome result (λ c. IsHalfWritten (GivesControl window c) halves.old.entries halves.new.entries id) }
    ensures none { result ≡ None → (halves.new.entries ≡ halves.old.entries) × IsNoneDue (recv_half_in halves.old.entries id) window }
{
    let half = halves.get_mut(&id)?;
    if let Some(code) = half.take_stop_frame() {
        return Some(StreamControl::StopSending(code));
    }
    let limit = half.max_stream_data(window)?;
    Some(StreamControl::MaxStreamData(limit))
}

// A half that is done leaves, with what it had to send. Of one that isn't a frame may be due.
fn settle(
    halves: &mut BTreeMap<u64, Recv>,
    due: &mut PendingStreamsQueue,
    id: u64,
    is_done: bool,
    is_due: bool,
)
    requires { has_room due.old id ≡ true }
    ensures { IsSettled halves.old.entries halves.new.entries due.old due.new id is_done is_due }
{
    if is_done {
        due.leave(id);
        let _ = halves.remove(&id);
        return;
    }
    if is_due {
        due.insert(due_entry(id));
    }
}

// Only sending halves have a priority.
fn due_entry(id: u64) -> PendingStream
    ensures { result ≡ due_entry id }
{
    PendingStream { priority: 0, id }
}

// The first limit of a stream.
fn first_limit(window: u64) -> VarInt
    ensures { result ≡ min window (2 ^ 62 - 1) }
{
    VarInt::from_u64(window.min(VarInt::MAX_VALUE)).unwrap()
}
