ghost use Rattle.std.specs.Prelude.{◌≤◌, ◌≡◌, ◌⊎◌, ◌||◌, take, min, length, true, false, Ok, Err, OnOk, OnErr, IfOk, IfErr, IfSome, MatchResult, None, Some, IsSome};
ghost use Rattle.qh_buffers.specs.Assembler.{read_to, was_given};
ghost use Rattle.std.specs.List.{concat};
ghost use Rattle.qh_half.specs.declared.fault.ReadFault.TheVariants.{Memory as Lacking};
ghost use Rattle.qh_half.specs.declared.fault.WriteFault.TheVariants.{Blocked, Memory as Wanting};
ghost use Rattle.qh_half.specs.Send.{credit, is_blocked_fault, chunks_after, whole_chunks};
ghost use Rattle.qh_halves.specs.SendHalves.{send_at, write_limit, write_fault_at, finish_fault_at, is_reset_refused_at, half_priority, IsStep, IsAbsent, Takes, Finishes, IsResetWith, HasPriority};
ghost use Rattle.qh_halves.specs.RecvHalves.{IsRecvStep, Reads, Begins, WaitsForMoreAt, WaitsForMoreInOrderAt, IsBegunRead, is_wanting, Stops, TakesReset, readable_fault_at, is_closed_at, is_credit_due, recv_at, IsReadBlockedAt, half_awaits_reset};
ghost use Rattle.qh_streams.specs.Streams.{counted_closed, is_live, with_blocked, IsWriteRefusal, KeepsOut};
ghost use Rattle.qh_half.specs.Recv.{AreWaiting, ReadsAtMost};

use crate::{ClosedStream, FinishFault, ReadFault, ReadableFault, Streams, WriteFault, Written};
use bytes::Bytes;
use qh_base::{Memory, StreamId, VarInt};
use qh_buffers::Chunk;
use std::alloc::Global;

impl Streams {
    /// Takes the first bytes for a stream, as many as the limits permit: the stream's, the connection's and the send window.
    /// If no byte may be taken it answers ClosedStream, Stopped or Blocked, the first that fits; if the allocator has no
    /// memory, Memory. A writer that is Blocked by the limits that all share is told by `Writable`.
    pub fn write(
        &mut self,
        alloc: Global,
        id: StreamId,
        payload: &[u8],
    ) -> Result<usize, WriteFault>
        ensures count { IfOk result (λ n. IfSome (send_at self.old.send id.0) (λ h. n ≡ min (length payload.now) (credit h (write_limit self.old.send)))) }
        ensures ok { IfOk result (λ n. IsStep (Takes (take n payload.now)) self.old.send self.new.send id.0 n × (self.new ≡ record self.old { send = self.new.send })) }
        ensures taken { OnOk result (write_fault_at self.old.send id.0 ≡ None) }
        ensures fault { IfErr result (IsWriteRefusal self.old self.new id.0) }
        ensures keeps_out { KeepsOut self.old self.new }
    {
        match self.send.write(alloc, id.0, payload) {
            Ok(count) => Ok(count),
            Err(fault) => Err(self.refuse(id, fault)),
        }
    }

    /// Takes the first bytes of chunks for a stream, as `write`, and leaves the rest in them: a chunk that was taken whole is
    /// left empty.
    pub fn write_chunks(
        &mut self,
        alloc: Global,
        id: StreamId,
        chunks: &mut [Bytes],
    ) -> Result<Written, WriteFault>
        ensures count { IfOk result (λ w. IfSome (send_at self.old.send id.0) (λ h. w.bytes ≡ min (length (concat chunks.old)) (credit h (write_limit self.old.send)))) }
        ensures ok { IfOk result (λ w. IsStep (Takes (take w.bytes (concat chunks.old))) self.old.send self.new.send id.0 w.bytes × (self.new ≡ record self.old { send = self.new.send })) }
        ensures chunks { IfOk result (λ w. (chunks.new ≡ chunks_after w.bytes chunks.old) × (w.chunks ≡ whole_chunks w.bytes chunks.old)) }
        ensures taken { OnOk result (write_fault_at self.old.send id.0 ≡ None) }
        ensures fault { IfErr result (IsWriteRefusal self.old self.new id.0) }
        ensures kept { OnErr result (chunks.new ≡ chunks.old) }
        ensures keeps_out { KeepsOut self.old self.new }
    {
        match self.send.write_chunks(alloc, id.0, chunks) {
            Ok(written) => Ok(written),
            Err(fault) => Err(self.refuse(id, fault)),
        }
    }

    // Notes a writer that is refused for the limits that all share. Answers the fault, or Memory.
    fn refuse(&mut self, id: StreamId, fault: WriteFault) -> WriteFault
        ensures fault { ((result ≡ Wanting) × (fault ≡ Blocked) × (write_limit self.old.send ≡ 0) × (self.new ≡ self.old)) ⊎ ((result ≡ fault) × (self.new ≡ with_blocked self.old id.0 fault)) }
        ensures send { self.new.send ≡ self.old.send }
        ensures keeps_out { KeepsOut self.old self.new }
    {
        if fault != WriteFault::Blocked || self.send.write_limit() > 0 {
            return fault;
        }
        match self.connection_blocked.insert(id.0) {
            Ok(_) => fault,
            Err(_) => WriteFault::Memory,
        }
    }

    /// No bytes of the stream come after those that were taken. Answers Stopped or ClosedStream, the first that fits.
    pub fn finish(&mut self, id: StreamId) -> Result<(), FinishFault>
        ensures ok { OnOk result (IsStep Finishes self.old.send self.new.send id.0 0 × (self.new ≡ record self.old { send = self.new.send })) }
        ensures fault { IfErr result (λ e. (finish_fault_at self.old.send id.0 ≡ Some e) × (self.new ≡ self.old)) }
        ensures keeps_out { KeepsOut self.old self.new }
    {
        self.send.finish(id.0)
    }

    /// Resets the stream, with this code: what waits isn't sent. A finished stream can be reset.
    pub fn reset(&mut self, id: StreamId, code: VarInt) -> Result<(), ClosedStream>
        ensures ok { OnOk result (IsStep (IsResetWith code) self.old.send self.new.send id.0 0 × (self.new ≡ record self.old { send = self.new.send })) }
        ensures fault { OnErr result ((is_reset_refused_at self.old.send id.0 ≡ true) × (self.new ≡ self.old)) }
        ensures keeps_out { KeepsOut self.old self.new }
    {
        self.send.reset(id.0, code)
    }

    /// Whether the peer asked to stop, and with which code.
    pub fn stopped(&self, id: StreamId) -> Result<Option<VarInt>, ClosedStream>
        ensures code { MatchResult result (λ code. IfSome (send_at self.now.send id.0) (λ h. code ≡ h.stop_reason)) (λ e. send_at self.now.send id.0 ≡ None) }
        ensures ok { OnOk result (IsSome (send_at self.now.send id.0)) }
    {
        self.send.stopped(id.0)
    }

    /// The stream's priority among those that wait to be sent, 0 at first: the greater goes first.
    pub fn priority(&self, id: StreamId) -> Result<i32, ClosedStream>
        ensures { MatchResult result (λ n. half_priority (send_at self.now.send id.0) ≡ Some n) (λ e. send_at self.now.send id.0 ≡ None) }
    {
        self.send.priority(id.0)
    }

    /// Sets the stream's priority among those that wait to be sent.
    pub fn set_priority(&mut self, id: StreamId, priority: i32) -> Result<(), ClosedStream>
        ensures ok { OnOk result (IsStep (HasPriority priority) self.old.send self.new.send id.0 0 × (self.new ≡ record self.old { send = self.new.send })) }
        ensures fault { OnErr result ((send_at self.old.send id.0 ≡ None) × (self.new ≡ self.old)) }
        ensures keeps_out { KeepsOut self.old self.new }
    {
        self.send.set_priority(id.0, priority)
    }

    /// Begins to read a stream, in order or not. An ordered read after an unordered one is refused.
    pub fn begin_read(&mut self, id: StreamId, ordered: bool) -> Result<(), ReadableFault>
        ensures ok { OnOk result ((readable_fault_at self.old.recv id.0 ordered ≡ None) × IsRecvStep (Begins ordered) self.old.recv self.new.recv id.0 0 × (self.new ≡ record self.old { recv = self.new.recv })) }
        ensures fault { IfErr result (λ e. (readable_fault_at self.old.recv id.0 ordered ≡ Some e) × (self.new ≡ self.old)) }
        ensures keeps_out { KeepsOut self.old self.new }
    {
        self.recv.begin_read(id.0, ordered)
    }

    /// Whether reads of a stream are refused: it wasn't opened, or it was stopped, or its end or its reset was given.
    pub fn is_closed(&self, id: StreamId) -> bool
        ensures { result ≡ is_closed_at self.now.recv id.0 }
    {
        self.recv.is_closed(id.0)
    }

    /// Gives bytes of a stream that wait, at most as many as are asked for, or the end, None, or the reset. With a length of 0 it gives no
    /// bytes, and neither the end nor the reset. What was read permits the peer as many bytes more.
    pub fn next(&mut self, id: StreamId, max_length: usize) -> Result<Option<Chunk>, ReadFault>
        requires { is_closed_at self.old.recv id.0 ≡ false }
        ensures answer { IsRecvStep (Reads max_length result) self.old.recv self.new.recv id.0 0 }
        ensures lacks { result ≡ Err Lacking → WaitsForMoreAt self.old.recv id.0 → ⊥ }
        ensures value { self.new ≡ counted_closed (record self.old { recv = self.new.recv }) id.0 (is_live self.old id.0) }
        ensures keeps_out { KeepsOut self.old self.new }
    {
        let result = self.recv.next(id.0, max_length);
        self.count_closed(id, true);
        result
    }

    /// Why a read of a stream isn't begun, in order or not, as `begin_read` tells it.
    pub fn readable_fault(&self, id: StreamId, ordered: bool) -> Option<ReadableFault>
        ensures { result ≡ readable_fault_at self.now.recv id.0 ordered }
    {
        self.recv.readable_fault(id.0, ordered)
    }

    /// Begins to read a stream, in order or not, and gives what `next` gives. For want of memory nothing changes: no read out of
    /// order is begun either.
    pub fn read(
        &mut self,
        id: StreamId,
        max_length: usize,
        ordered: bool,
    ) -> Result<Option<Chunk>, ReadFault>
        requires { readable_fault_at self.old.recv id.0 ordered ≡ None }
        ensures answer { IsBegunRead max_length (ordered || is_wanting result) result self.old.recv self.new.recv id.0 }
        ensures memory { result ≡ Err Lacking → self.new ≡ self.old }
        ensures lacks { result ≡ Err Lacking → WaitsForMoreInOrderAt self.old.recv id.0 ordered → ⊥ }
        ensures value { self.new ≡ counted_closed (record self.old { recv = self.new.recv }) id.0 (is_live self.old id.0) }
        ensures keeps_out { KeepsOut self.old self.new }
    {
        let result = self.recv.read(id.0, max_length, ordered);
        self.count_closed(id, true);
        result
    }

    /// No more bytes of a stream are wanted: what waits is dropped, and what comes. If its final size isn't known the peer
    /// is told, with this code.
    pub fn stop(&mut self, id: StreamId, code: VarInt) -> Result<(), ClosedStream>
        ensures ok { OnOk result (IsRecvStep (Stops code) self.old.recv self.new.recv id.0 0 × (self.new ≡ counted_closed (record self.old { recv = self.new.recv }) id.0 (is_live self.old id.0))) }
        ensures fault { OnErr result ((is_closed_at self.old.recv id.0 ≡ true) × (self.new ≡ self.old)) }
        ensures keeps_out { KeepsOut self.old self.new }
    {
        let was_live = self.is_live(id);
        self.recv.stop(id.0, code)?;
        self.count_closed(id, was_live);
        Ok(())
    }

    /// The code of the peer's reset, if one came. It counts as given then.
    pub fn received_reset(&mut self, id: StreamId) -> Result<Option<VarInt>, ClosedStream>
        ensures ok { IfOk result (λ code. IsRecvStep (TakesReset code) self.old.recv self.new.recv id.0 0 × (self.new ≡ counted_closed (record self.old { recv = self.new.recv }) id.0 (is_live self.old id.0))) }
        ensures fault { OnErr result ((is_closed_at self.old.recv id.0 ≡ true) × (self.new ≡ self.old)) }
        ensures keeps_out { KeepsOut self.old self.new }
    {
        let was_live = self.is_live(id);
        let code = self.recv.take_reset(id.0)?;
        self.count_closed(id, was_live);
        Ok(code)
    }

    /// Whether a read of a stream in this order waits: it may be made, and there is nothing for it, neither bytes nor the end nor the reset.
    pub fn is_read_blocked(&self, id: StreamId, ordered: bool) -> bool
        ensures yes { result ≡ true → IsReadBlockedAt self.now.recv id.0 ordered }
        ensures no { result ≡ false → IsReadBlockedAt self.now.recv id.0 ordered → ⊥ }
    {
        self.recv.is_blocked(id.0, ordered)
    }

    /// The most bytes that the next read of a stream in this order can give, at most `max_length`; 0 if it has no half. It takes the time of the
    /// pieces that it counts.
    pub fn longest(&self, id: StreamId, max_length: usize, ordered: bool) -> usize
        ensures few { result ≤ max_length }
        ensures enough { IfSome (recv_at self.now.recv id.0) (λ r. ReadsAtMost r ordered max_length result) }
        ensures waits { IfSome (recv_at self.now.recv id.0) (λ r. AreWaiting r ordered result) }
        ensures none { recv_at self.now.recv id.0 ≡ None → result ≡ 0 }
    {
        self.recv.longest(id.0, max_length, ordered)
    }

    /// Of a half the offset behind those that reads gave without a gap wasn't given. It does nothing: its contract says so.
    pub fn reads_on(&self, id: StreamId)
        ensures { IfSome (recv_at self.now.recv id.0) (λ r. was_given r.assembler (read_to r.assembler) ≡ false) }
    {
        self.recv.reads_on(id.0);
    }

    /// Whether whoever waits for the peer's reset of a stream waits still: none came, and reads aren't refused.
    pub fn awaits_reset(&self, id: StreamId) -> bool
        ensures { result ≡ half_awaits_reset (recv_at self.now.recv id.0) }
    {
        self.recv.awaits_reset(id.0)
    }

    /// Whether a write to a stream waits: it is neither refused nor is a byte permitted.
    pub fn is_write_blocked(&self, id: StreamId) -> bool
        ensures { result ≡ is_blocked_fault (write_fault_at self.now.send id.0) }
    {
        self.send.is_blocked(id.0)
    }

    /// Whether a limit is to be announced: the connection's, or the stream's.
    pub fn is_credit_due(&self, id: StreamId) -> bool
        ensures { result ≡ is_credit_due self.now.recv id.0 }
    {
        self.recv.is_credit_due(id.0)
    }
}
