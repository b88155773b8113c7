ghost use Rattle.std.specs.Prelude.{◌≤◌, nat_lt, ◌≡◌, ◌⊎◌, ◌++◌, ◌<◌, [], ◌∷◌, ℕ, List, take, min, length, true, false, None, Some, Ok, OnOk, IsOk, OnErr, IfOk, IfErr, IfSome, IsSome, MatchResult};
ghost use Rattle.qh_buffers.specs.Assembler.{read_to, was_given};
ghost use Rattle.std.specs.List.{concat};
ghost use Rattle.qh_core.specs.Follows.{Follows, write_acts, write_chunks_acts, finish_acts, reset_by_acts, stop_acts, take_acts, received_reset_acts};
ghost use Rattle.qh_core.specs.Inner.{is_open, with_streams};
ghost use Rattle.qh_core.specs.Streams.{IsRead, IsReadFault, IsWriteRefused};
ghost use Rattle.qh_core.specs.declared.fault.TakeFault.TheVariants.{Read};
ghost use Rattle.qh_half.specs.declared.fault.ReadFault.TheVariants.{Memory as Wanting};
ghost use Rattle.qh_half.specs.Send.{credit, is_blocked_fault, chunks_after, whole_chunks};
ghost use Rattle.qh_halves.specs.RecvHalves.{IsRecvStep, WaitsForMoreInOrderAt, Stops, TakesReset, is_closed_at, recv_at, IsReadBlockedAt, half_awaits_reset};
ghost use Rattle.qh_halves.specs.SendHalves.{send_at, write_limit, write_fault_at, finish_fault_at, is_reset_refused_at, half_priority, IsStep, Takes, Finishes, IsResetWith, HasPriority};
ghost use Rattle.qh_spec.specs.StreamId.{stream_id};
ghost use Rattle.qh_spec.specs.Transcript.{Act, written, finished, read};
ghost use Rattle.qh_streams.specs.Streams.{IsOpened, counts_of, counted_closed, is_live, is_two_way, with_accepted, with_counts};
ghost use Rattle.qh_halves.specs.Counts.{other_side};
ghost use Rattle.qh_half.specs.Recv.{AreWaiting, ReadsAtMost};

use crate::{Connection, TakeFault};
use bytes::Bytes;
use qh_base::{Dir, Memory, StreamId, VarInt};
use qh_buffers::Chunk;
use qh_streams::{ClosedStream, FinishFault, WriteFault, Written};

impl<S> Connection<S> {
    /// Opens a stream. None exactly where the peer permits no more in this direction, or the connection is closed.
    pub fn open(&mut self, dir: Dir) -> Result<Option<StreamId>, Memory>
        ensures some { IfOk result (λ o. IfSome o (λ id. (is_open self.old.state ≡ true) × (id.0 ≡ stream_id self.old.space.streams.side dir (counts_of self.old.space.streams (is_two_way dir)).opened)
            × ((counts_of self.old.space.streams (is_two_way dir)).opened < (counts_of self.old.space.streams (is_two_way dir)).max_opened)
            × IsOpened self.old.space.streams self.new.space.streams id.0 × (self.new ≡ with_streams self.old self.new.space.streams))) }
        ensures none { IfOk result (λ o. o ≡ None → (self.new ≡ self.old)
            × ((is_open self.old.state ≡ false) ⊎ ((counts_of self.old.space.streams (is_two_way dir)).opened ≡ (counts_of self.old.space.streams (is_two_way dir)).max_opened))) }
        ensures limited { (is_open self.old.state ≡ false) ⊎ ((counts_of self.old.space.streams (is_two_way dir)).opened ≡ (counts_of self.old.space.streams (is_two_way dir)).max_opened) → IsOk result }
        ensures err { OnErr result (self.new ≡ self.old) }
        ensures follows { (t : List Act) → Follows self.old t → Follows self.new t }
        ensures unwritten { IfOk result (λ o. IfSome o (λ id. (t : List Act) → Follows self.old t → (written t id.0 ≡ []) × (finished t id.0 ≡ false) × (read t id.0 ≡ []))) }
    {
        if !self.inner.state.is_open() {
            return Ok(None);
        }
        self.inner.space.streams.open(self.alloc, dir)
    }

    /// Gives a stream that the peer opened, the next in order; None exactly where none is new.
    pub fn accept(&mut self, dir: Dir) -> Option<StreamId>
        ensures some { IfSome result (λ id. (id.0 ≡ stream_id (other_side self.old.space.streams.side) dir (counts_of self.old.space.streams (is_two_way dir)).accepted)
            × ((counts_of self.old.space.streams (is_two_way dir)).accepted < (counts_of self.old.space.streams (is_two_way dir)).arrived)
            × (self.new ≡ with_streams self.old (with_counts self.old.space.streams (is_two_way dir) (with_accepted (counts_of self.old.space.streams (is_two_way dir)))))) }
        ensures none { result ≡ None → ((counts_of self.old.space.streams (is_two_way dir)).accepted ≡ (counts_of self.old.space.streams (is_two_way dir)).arrived) × (self.new ≡ self.old) }
        ensures follows { (t : List Act) → Follows self.old t → Follows self.new t }
    {
        self.inner.space.streams.accept(dir)
    }

    /// Takes the first bytes for a stream, as many as the limits permit: the stream's, the connection's and the send window.
    /// Where no byte may be taken it answers ClosedStream, Stopped or Blocked, the first that fits, and once the connection is
    /// closed Blocked; where the allocator has no memory, Memory.
    pub fn write(&mut self, id: StreamId, payload: &[u8]) -> Result<usize, WriteFault>
        ensures count { IfOk result (λ n. IfSome (send_at self.old.space.streams.send id.0) (λ h. n ≡ min (length payload.now) (credit h (write_limit self.old.space.streams.send)))) }
        ensures ok { IfOk result (λ n. (is_open self.old.state ≡ true) × IsStep (Takes (take n payload.now)) self.old.space.streams.send self.new.space.streams.send id.0 n
            × (self.new ≡ with_streams self.old (record self.old.space.streams { send = self.new.space.streams.send }))) }
        ensures taken { OnOk result (write_fault_at self.old.space.streams.send id.0 ≡ None) }
        ensures fault { IfErr result (λ e. IsWriteRefused id.0 e self.old self.new) }
        ensures follows { (t : List Act) → Follows self.old t → Follows self.new (t ++ write_acts id.0 payload.now result) }
    {
        if !self.inner.state.is_open() {
            return Err(WriteFault::Blocked);
        }
        self.inner.space.streams.write(self.alloc, id, payload)
    }

    /// Takes the first bytes of chunks for a stream, as `write`, and leaves the rest in them: a chunk that was taken whole is
    /// left empty.
    pub fn write_chunks(
        &mut self,
        id: StreamId,
        chunks: &mut [Bytes],
    ) -> Result<Written, WriteFault>
        ensures count { IfOk result (λ w. IfSome (send_at self.old.space.streams.send id.0) (λ h. w.bytes ≡ min (length (concat chunks.old)) (credit h (write_limit self.old.space.streams.send)))) }
        ensures ok { IfOk result (λ w. (is_open self.old.state ≡ true) × IsStep (Takes (take w.bytes (concat chunks.old))) self.old.space.streams.send self.new.space.streams.send id.0 w.bytes
            × (self.new ≡ with_streams self.old (record self.old.space.streams { send = self.new.space.streams.send }))) }
        ensures chunks { IfOk result (λ w. (chunks.new ≡ chunks_after w.bytes chunks.old) × (w.chunks ≡ whole_chunks w.bytes chunks.old)) }
        ensures taken { OnOk result (write_fault_at self.old.space.streams.send id.0 ≡ None) }
        ensures fault { IfErr result (λ e. IsWriteRefused id.0 e self.old self.new) }
        ensures kept { OnErr result (chunks.new ≡ chunks.old) }
        ensures follows { (t : List Act) → Follows self.old t → Follows self.new (t ++ write_chunks_acts id.0 chunks.old result) }
    {
        if !self.inner.state.is_open() {
            return Err(WriteFault::Blocked);
        }
        self.inner
            .space
            .streams
            .write_chunks(self.alloc, id, chunks)
    }

    /// No bytes of the stream come after those that were taken. Answers Stopped or ClosedStream, the first that fits.
    pub fn finish(&mut self, id: StreamId) -> Result<(), FinishFault>
        ensures ok { OnOk result (IsStep Finishes self.old.space.streams.send self.new.space.streams.send id.0 0
            × (self.new ≡ with_streams self.old (record self.old.space.streams { send = self.new.space.streams.send }))) }
        ensures fault { IfErr result (λ e. (finish_fault_at self.old.space.streams.send id.0 ≡ Some e) × (self.new ≡ self.old)) }
        ensures follows { (t : List Act) → Follows self.old t → Follows self.new (t ++ finish_acts id.0 result) }
    {
        self.inner.space.streams.finish(id)
    }

    /// Resets the stream with this code: what waits isn't sent. A finished stream can be reset.
    pub fn reset(&mut self, id: StreamId, code: VarInt) -> Result<(), ClosedStream>
        ensures ok { OnOk result (IsStep (IsResetWith code) self.old.space.streams.send self.new.space.streams.send id.0 0
            × (self.new ≡ with_streams self.old (record self.old.space.streams { send = self.new.space.streams.send }))) }
        ensures fault { OnErr result ((is_reset_refused_at self.old.space.streams.send id.0 ≡ true) × (self.new ≡ self.old)) }
        ensures follows { (t : List Act) → Follows self.old t → Follows self.new (t ++ reset_by_acts id.0 code result) }
    {
        self.inner.space.streams.reset(id, code)
    }

    /// Whether the peer asked to stop, and with which code.
    pub fn stopped(&self, id: StreamId) -> Result<Option<VarInt>, ClosedStream>
        ensures code { MatchResult result (λ code. IfSome (send_at self.now.space.streams.send id.0) (λ h. code ≡ h.stop_reason)) (λ e. send_at self.now.space.streams.send id.0 ≡ None) }
        ensures ok { OnOk result (IsSome (send_at self.now.space.streams.send id.0)) }
    {
        self.inner.space.streams.stopped(id)
    }

    /// The stream's priority among those that wait to be sent, 0 at first: the greater goes first.
    pub fn priority(&self, id: StreamId) -> Result<i32, ClosedStream>
        ensures { MatchResult result (λ n. half_priority (send_at self.now.space.streams.send id.0) ≡ Some n) (λ e. send_at self.now.space.streams.send id.0 ≡ None) }
    {
        self.inner.space.streams.priority(id)
    }

    /// Sets the stream's priority among those that wait to be sent.
    pub fn set_priority(&mut self, id: StreamId, priority: i32) -> Result<(), ClosedStream>
        ensures ok { OnOk result (IsStep (HasPriority priority) self.old.space.streams.send self.new.space.streams.send id.0 0
            × (self.new ≡ with_streams self.old (record self.old.space.streams { send = self.new.space.streams.send }))) }
        ensures fault { OnErr result ((send_at self.old.space.streams.send id.0 ≡ None) × (self.new ≡ self.old)) }
        ensures follows { (t : List Act) → Follows self.old t → Follows self.new t }
    {
        self.inner.space.streams.set_priority(id, priority)
    }

    /// Gives bytes of a stream that wait, at most as many as are asked for, or the end, None, or the reset; in order or not. What
    /// was read permits the peer as many bytes more. With a length of 0 it gives no bytes, and neither the end nor the reset. For
    /// want of memory it gives nothing, and all stays as it was.
    pub fn read(
        &mut self,
        id: StreamId,
        max_length: usize,
        ordered: bool,
    ) -> Result<Option<Chunk>, TakeFault>
        ensures ok { IfOk result (λ o. IsRead max_length ordered id.0 (Ok o) self.old.space.streams self.new.space.streams) }
        ensures fault { IfErr result (λ e. IsReadFault max_length ordered id.0 e self.old.space.streams self.new.space.streams) }
        ensures unread { IfErr result (λ e. e ≡ Read Wanting → self.new ≡ self.old) }
        ensures lacks { IfErr result (λ e. e ≡ Read Wanting → WaitsForMoreInOrderAt self.old.space.streams.recv id.0 ordered → ⊥) }
        ensures rest { self.new ≡ with_streams self.old self.new.space.streams }
        ensures follows { (t : List Act) → Follows self.old t → Follows self.new (t ++ take_acts id.0 result) }
        ensures in_order { IfOk result (λ o. IfSome o (λ c. (t : List Act) → Follows self.old t → ordered ≡ true → 0 < length c.bytes → c.offset ≡ length (read t id.0))) }
    {
        let streams = &mut self.inner.space.streams;
        if let Some(fault) = streams.readable_fault(id, ordered) {
            return Err(TakeFault::Readable(fault));
        }
        match streams.read(id, max_length, ordered) {
            Ok(chunk) => Ok(chunk),
            Err(fault) => Err(TakeFault::Read(fault)),
        }
    }

    /// No more bytes of a stream are wanted: what waits is dropped, and what comes. Where its final size isn't known the peer
    /// is told, with this code.
    pub fn stop(&mut self, id: StreamId, code: VarInt) -> Result<(), ClosedStream>
        ensures ok { OnOk result (IsRecvStep (Stops code) self.old.space.streams.recv self.new.space.streams.recv id.0 0
            × (self.new ≡ with_streams self.old (counted_closed (record self.old.space.streams { recv = self.new.space.streams.recv }) id.0 (is_live self.old.space.streams id.0)))) }
        ensures fault { OnErr result ((is_closed_at self.old.space.streams.recv id.0 ≡ true) × (self.new ≡ self.old)) }
        ensures follows { (t : List Act) → Follows self.old t → Follows self.new (t ++ stop_acts id.0 code result) }
    {
        self.inner.space.streams.stop(id, code)
    }

    /// The code of the peer's reset, where one came. It counts as given then.
    pub fn received_reset(&mut self, id: StreamId) -> Result<Option<VarInt>, ClosedStream>
        ensures ok { IfOk result (λ code. IsRecvStep (TakesReset code) self.old.space.streams.recv self.new.space.streams.recv id.0 0
            × (self.new ≡ with_streams self.old (counted_closed (record self.old.space.streams { recv = self.new.space.streams.recv }) id.0 (is_live self.old.space.streams id.0)))) }
        ensures fault { OnErr result ((is_closed_at self.old.space.streams.recv id.0 ≡ true) × (self.new ≡ self.old)) }
        ensures follows { (t : List Act) → Follows self.old t → Follows self.new (t ++ received_reset_acts id.0 result) }
    {
        self.inner.space.streams.received_reset(id)
    }

    /// Sets how many streams of the peer's in this direction may be open at once. The count that was announced doesn't fall.
    pub fn set_max_concurrent_streams(&mut self, dir: Dir, count: VarInt)
        ensures value { self.new ≡ with_streams self.old (with_counts self.old.space.streams (is_two_way dir) (record (counts_of self.old.space.streams (is_two_way dir)) { max_concurrent = count })) }
        ensures follows { (t : List Act) → Follows self.old t → Follows self.new t }
    {
        self.inner
            .space
            .streams
            .set_max_concurrent(dir, count.into_inner());
    }

    /// Sets how many bytes may be held that aren't acknowledged, of all streams.
    pub fn set_send_window(&mut self, bytes: u64)
        ensures value { self.new ≡ with_streams self.old (record self.old.space.streams { send = record self.old.space.streams.send { send_window = bytes } }) }
        ensures follows { (t : List Act) → Follows self.old t → Follows self.new t }
    {
        self.inner.space.streams.set_send_window(bytes);
    }

    /// Sets how many bytes more than were read may come, on all streams. The limit that was announced doesn't fall.
    pub fn set_receive_window(&mut self, bytes: VarInt)
        ensures value { self.new ≡ with_streams self.old (record self.old.space.streams { recv = record self.old.space.streams.recv { receive_window = bytes } }) }
        ensures follows { (t : List Act) → Follows self.old t → Follows self.new t }
    {
        self.inner
            .space
            .streams
            .set_receive_window(bytes.into_inner());
    }

    /// Whether the peer permits one more stream of a direction (RFC 9000, section 4.6).
    pub fn can_open(&self, dir: Dir) -> bool
        ensures { result ≡ nat_lt (counts_of self.now.space.streams (is_two_way dir)).opened (counts_of self.now.space.streams (is_two_way dir)).max_opened }
    {
        self.inner.space.streams.can_open(dir)
    }

    /// Whether a stream that the peer opened waits to be accepted.
    pub fn can_accept(&self, dir: Dir) -> bool
        ensures { result ≡ nat_lt (counts_of self.now.space.streams (is_two_way dir)).accepted (counts_of self.now.space.streams (is_two_way dir)).arrived }
    {
        self.inner.space.streams.can_accept(dir)
    }

    /// Whether a read of a stream in this order waits: it may be made, and there is nothing for it, neither bytes nor the end nor the reset.
    pub fn is_read_blocked(&self, id: StreamId, ordered: bool) -> bool
        ensures yes { result ≡ true → IsReadBlockedAt self.now.space.streams.recv id.0 ordered }
        ensures no { result ≡ false → IsReadBlockedAt self.now.space.streams.recv id.0 ordered → ⊥ }
    {
        self.inner.space.streams.is_read_blocked(id, ordered)
    }

    /// The most bytes that the next read of a stream in this order can give, at most `max_length`; 0 if it has no half. It takes the time of the
    /// pieces that it counts.
    pub fn longest(&self, id: StreamId, max_length: usize, ordered: bool) -> usize
        ensures few { result ≤ max_length }
        ensures enough { IfSome (recv_at self.now.space.streams.recv id.0) (λ r. ReadsAtMost r ordered max_length result) }
        ensures waits { IfSome (recv_at self.now.space.streams.recv id.0) (λ r. AreWaiting r ordered result) }
        ensures none { recv_at self.now.space.streams.recv id.0 ≡ None → result ≡ 0 }
    {
        self.inner.space.streams.longest(id, max_length, ordered)
    }

    /// Of a half the offset behind those that reads gave without a gap wasn't given. It does nothing: its contract says so.
    pub fn reads_on(&self, id: StreamId)
        ensures { IfSome (recv_at self.now.space.streams.recv id.0) (λ r. was_given r.assembler (read_to r.assembler) ≡ false) }
    {
        self.inner.space.streams.reads_on(id);
    }

    /// Whether whoever waits for the peer's reset of a stream waits still: none came, and reads aren't refused.
    pub fn awaits_reset(&self, id: StreamId) -> bool
        ensures { result ≡ half_awaits_reset (recv_at self.now.space.streams.recv id.0) }
    {
        self.inner.space.streams.awaits_reset(id)
    }

    /// Whether a write to a stream waits, as far as its streams go: it is neither refused nor is a byte permitted.
    pub fn is_write_blocked(&self, id: StreamId) -> bool
        ensures { result ≡ is_blocked_fault (write_fault_at self.now.space.streams.send id.0) }
    {
        self.inner.space.streams.is_write_blocked(id)
    }
}
