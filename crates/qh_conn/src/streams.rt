ghost use Rattle.std.specs.Prelude.{◌≤◌, nat_lt, ◌≡◌, ◌⊎◌, ◌<◌, [], ℕ, List, take, min, length, true, false, None, Some, Ok, is_some, OnOk, IsOk, OnErr, IfOk, IfErr, IfSome, IsSome, MatchResult};
ghost use Rattle.qh_buffers.specs.Assembler.{read_to, was_given};
ghost use Rattle.std.specs.List.{concat};
ghost use Rattle.qh_conn.specs.Whole.{CarriesOn, IsWhole, Stands, StandsStill};
ghost use Rattle.qh_core.specs.Follows.{write_acts, write_chunks_acts, finish_acts, reset_by_acts, stop_acts, take_acts, received_reset_acts};
ghost use Rattle.qh_core.specs.Inner.{is_open, with_streams};
ghost use Rattle.qh_core.specs.Made.{AcceptsTags, MakesTagsOf};
ghost use Rattle.qh_core.specs.Streams.{IsRead, IsReadFault, IsWriteRefused};
ghost use Rattle.qh_core.specs.declared.fault.TakeFault.TheVariants.{Read, Readable};
ghost use Rattle.qh_half.specs.declared.fault.FinishFault.TheVariants as finish_faults;
ghost use Rattle.qh_half.specs.declared.fault.ReadFault.TheVariants.{Memory as Wanting};
ghost use Rattle.qh_half.specs.declared.fault.ReadableFault.TheVariants as readable_faults;
ghost use Rattle.qh_half.specs.declared.fault.WriteFault.TheVariants as write_faults;
ghost use Rattle.qh_half.specs.Send.{is_blocked_fault, credit, chunks_after, whole_chunks};
ghost use Rattle.qh_halves.specs.Counts.{other_side};
ghost use Rattle.qh_halves.specs.RecvHalves.{IsRecvStep, WaitsForMoreInOrderAt, Stops, TakesReset, is_closed_at, recv_at, IsReadBlockedAt, half_awaits_reset};
ghost use Rattle.qh_halves.specs.SendHalves.{send_at, write_limit, write_fault_at, finish_fault_at, is_reset_refused_at, half_priority, IsStep, Takes, Finishes, IsResetWith, HasPriority};
ghost use Rattle.qh_spec.specs.StreamId.{stream_id};
ghost use Rattle.qh_spec.specs.Transcript.{Act, written, finished, read};
ghost use Rattle.qh_streams.specs.Streams.{IsOpened, counts_of, counted_closed, is_live, is_two_way, with_accepted, with_counts};
ghost use Rattle.qh_half.specs.Recv.{AreWaiting, ReadsAtMost};

use crate::Connection;
use crate::laws::still;
use bytes::Bytes;
use qh_base::{Dir, Memory, StreamId, VarInt};
use qh_buffers::Chunk;
use qh_converse::sends;
use qh_core::{TakeFault, made};
use qh_streams::{ClosedStream, FinishFault, ReadableFault, WriteFault, Written};

// The streams of a connection (RFC 9000, sections 2 and 3; quinn-proto, `Streams`, `SendStream` and `RecvStream`). An end has none before its
// peer's hello was read.
impl<S> Connection<S> {
    /// Opens a stream of a direction (RFC 9000, section 2.1). None exactly if the peer permits no more in this direction (section 4.6), its
    /// hello wasn't read, or the connection is closed. For want of memory nothing changes.
    pub fn open(&mut self, dir: Dir) -> Result<Option<StreamId>, Memory>
        requires { IsWhole self.old }
        ensures greeted { IfOk result (λ o. IfSome o (λ id. is_some self.old.handshake.peer ≡ true)) }
        ensures some { IfOk result (λ o. IfSome o (λ id. (is_open self.old.core.state ≡ true) × (id.0 ≡ stream_id self.old.core.space.streams.side dir (counts_of self.old.core.space.streams (is_two_way dir)).opened)
            × ((counts_of self.old.core.space.streams (is_two_way dir)).opened < (counts_of self.old.core.space.streams (is_two_way dir)).max_opened)
            × IsOpened self.old.core.space.streams self.new.core.space.streams id.0 × (self.new.core ≡ with_streams self.old.core self.new.core.space.streams))) }
        ensures none { IfOk result (λ o. o ≡ None → (self.new ≡ self.old) × ((is_some self.old.handshake.peer ≡ false)
            ⊎ ((is_open self.old.core.state ≡ false) ⊎ ((counts_of self.old.core.space.streams (is_two_way dir)).opened ≡ (counts_of self.old.core.space.streams (is_two_way dir)).max_opened)))) }
        ensures limited { (is_some self.old.handshake.peer ≡ false)
            ⊎ ((is_open self.old.core.state ≡ false) ⊎ ((counts_of self.old.core.space.streams (is_two_way dir)).opened ≡ (counts_of self.old.core.space.streams (is_two_way dir)).max_opened)) → IsOk result }
        ensures err { OnErr result (self.new ≡ self.old) }
        ensures rest { self.new ≡ record self.old { core = self.new.core } }
        ensures unwritten { IfOk result (λ o. IfSome o (λ id. (accepts : AcceptsTags S) (sealed : MakesTagsOf S) (hello : List ℕ) (t : List Act) → Stands accepts sealed hello self.old t → (written t id.0 ≡ []) × (finished t id.0 ≡ false) × (read t id.0 ≡ []))) }
        ensures stands { StandsStill self.old self.new }
        ensures whole { IsWhole self.new }
    {
        still::<S>();
        made::<S>();
        if !self.is_greeted() {
            return Ok(None);
        }
        self.core.open(dir)
    }

    /// Answers a stream that the peer opened, the next in order (RFC 9000, section 2.1). None exactly if none is new, or the peer's hello
    /// wasn't read.
    pub fn accept(&mut self, dir: Dir) -> Option<StreamId>
        requires { IsWhole self.old }
        ensures greeted { IfSome result (λ id. is_some self.old.handshake.peer ≡ true) }
        ensures some { IfSome result (λ id. (id.0 ≡ stream_id (other_side self.old.core.space.streams.side) dir (counts_of self.old.core.space.streams (is_two_way dir)).accepted)
            × ((counts_of self.old.core.space.streams (is_two_way dir)).accepted < (counts_of self.old.core.space.streams (is_two_way dir)).arrived)
            × (self.new.core ≡ with_streams self.old.core (with_counts self.old.core.space.streams (is_two_way dir) (with_accepted (counts_of self.old.core.space.streams (is_two_way dir)))))) }
        ensures none { result ≡ None → ((is_some self.old.handshake.peer ≡ false)
            ⊎ ((counts_of self.old.core.space.streams (is_two_way dir)).accepted ≡ (counts_of self.old.core.space.streams (is_two_way dir)).arrived)) × (self.new ≡ self.old) }
        ensures rest { self.new ≡ record self.old { core = self.new.core } }
        ensures stands { StandsStill self.old self.new }
        ensures whole { IsWhole self.new }
    {
        still::<S>();
        made::<S>();
        if !self.is_greeted() {
            return None;
        }
        self.core.accept(dir)
    }

    /// Writes the first bytes to a stream, as many as the limits permit: the stream's, the connection's and the send window (RFC 9000, section
    /// 4.1). If no byte may be written it answers ClosedStream, Stopped or Blocked, the first that fits, and once the connection is closed
    /// Blocked; if the allocator has no memory, Memory. Before the peer's hello was read it answers ClosedStream.
    pub fn write(&mut self, id: StreamId, payload: &[u8]) -> Result<usize, WriteFault>
        requires { IsWhole self.old }
        ensures greeted { OnOk result (is_some self.old.handshake.peer ≡ true) }
        ensures count { IfOk result (λ n. IfSome (send_at self.old.core.space.streams.send id.0) (λ h. n ≡ min (length payload.now) (credit h (write_limit self.old.core.space.streams.send)))) }
        ensures ok { IfOk result (λ n. (is_open self.old.core.state ≡ true) × IsStep (Takes (take n payload.now)) self.old.core.space.streams.send self.new.core.space.streams.send id.0 n
            × (self.new.core ≡ with_streams self.old.core (record self.old.core.space.streams { send = self.new.core.space.streams.send }))) }
        ensures taken { OnOk result (write_fault_at self.old.core.space.streams.send id.0 ≡ None) }
        ensures fault { IfErr result (λ e. ((is_some self.old.handshake.peer ≡ false) × (e ≡ write_faults.ClosedStream) × (self.new ≡ self.old))
            ⊎ ((is_some self.old.handshake.peer ≡ true) × IsWriteRefused id.0 e self.old.core self.new.core)) }
        ensures rest { self.new ≡ record self.old { core = self.new.core } }
        ensures carries { CarriesOn self.old self.new (write_acts id.0 payload.now result) }
        ensures whole { IsWhole self.new }
    {
        sends::<S>();
        made::<S>();
        if !self.is_greeted() {
            return Err(WriteFault::ClosedStream);
        }
        self.core.write(id, payload)
    }

    /// Writes the first bytes of chunks to a stream, as `write`, and leaves the rest in them: a chunk that was written whole is left empty.
    pub fn write_chunks(
        &mut self,
        id: StreamId,
        chunks: &mut [Bytes],
    ) -> Result<Written, WriteFault>
        requires { IsWhole self.old }
        ensures greeted { OnOk result (is_some self.old.handshake.peer ≡ true) }
        ensures count { IfOk result (λ w. IfSome (send_at self.old.core.space.streams.send id.0) (λ h. w.bytes ≡ min (length (concat chunks.old)) (credit h (write_limit self.old.core.space.streams.send)))) }
        ensures ok { IfOk result (λ w. (is_open self.old.core.state ≡ true) × IsStep (Takes (take w.bytes (concat chunks.old))) self.old.core.space.streams.send self.new.core.space.streams.send id.0 w.bytes
            × (self.new.core ≡ with_streams self.old.core (record self.old.core.space.streams { send = self.new.core.space.streams.send }))) }
        ensures chunks { IfOk result (λ w. (chunks.new ≡ chunks_after w.bytes chunks.old) × (w.chunks ≡ whole_chunks w.bytes chunks.old)) }
        ensures taken { OnOk result (write_fault_at self.old.core.space.streams.send id.0 ≡ None) }
        ensures fault { IfErr result (λ e. ((is_some self.old.handshake.peer ≡ false) × (e ≡ write_faults.ClosedStream) × (self.new ≡ self.old))
            ⊎ ((is_some self.old.handshake.peer ≡ true) × IsWriteRefused id.0 e self.old.core self.new.core)) }
        ensures kept { OnErr result (chunks.new ≡ chunks.old) }
        ensures rest { self.new ≡ record self.old { core = self.new.core } }
        ensures carries { CarriesOn self.old self.new (write_chunks_acts id.0 chunks.old result) }
        ensures whole { IsWhole self.new }
    {
        sends::<S>();
        made::<S>();
        if !self.is_greeted() {
            return Err(WriteFault::ClosedStream);
        }
        self.core.write_chunks(id, chunks)
    }

    /// Ends a stream behind the bytes that were written (RFC 9000, section 3.1). If the peer asked to stop it answers Stopped, and if the
    /// stream was finished or reset, is none of this end's, or the peer's hello wasn't read, ClosedStream.
    pub fn finish(&mut self, id: StreamId) -> Result<(), FinishFault>
        requires { IsWhole self.old }
        ensures greeted { OnOk result (is_some self.old.handshake.peer ≡ true) }
        ensures ok { OnOk result (IsStep Finishes self.old.core.space.streams.send self.new.core.space.streams.send id.0 0
            × (self.new.core ≡ with_streams self.old.core (record self.old.core.space.streams { send = self.new.core.space.streams.send }))) }
        ensures fault { IfErr result (λ e. (((is_some self.old.handshake.peer ≡ false) × (e ≡ finish_faults.ClosedStream))
            ⊎ ((is_some self.old.handshake.peer ≡ true) × (finish_fault_at self.old.core.space.streams.send id.0 ≡ Some e))) × (self.new ≡ self.old)) }
        ensures rest { self.new ≡ record self.old { core = self.new.core } }
        ensures carries { CarriesOn self.old self.new (finish_acts id.0 result) }
        ensures whole { IsWhole self.new }
    {
        sends::<S>();
        made::<S>();
        if !self.is_greeted() {
            return Err(FinishFault::ClosedStream);
        }
        self.core.finish(id)
    }

    /// Resets a stream with a code of the application's: what waits isn't sent (RFC 9000, section 3.1). A finished stream can be reset.
    /// ClosedStream exactly if it was reset before, or is done, or the peer's hello wasn't read.
    pub fn reset(&mut self, id: StreamId, code: VarInt) -> Result<(), ClosedStream>
        requires { IsWhole self.old }
        ensures greeted { OnOk result (is_some self.old.handshake.peer ≡ true) }
        ensures ok { OnOk result (IsStep (IsResetWith code) self.old.core.space.streams.send self.new.core.space.streams.send id.0 0
            × (self.new.core ≡ with_streams self.old.core (record self.old.core.space.streams { send = self.new.core.space.streams.send }))) }
        ensures fault { OnErr result (((is_some self.old.handshake.peer ≡ false) ⊎ (is_reset_refused_at self.old.core.space.streams.send id.0 ≡ true)) × (self.new ≡ self.old)) }
        ensures rest { self.new ≡ record self.old { core = self.new.core } }
        ensures carries { CarriesOn self.old self.new (reset_by_acts id.0 code result) }
        ensures whole { IsWhole self.new }
    {
        sends::<S>();
        made::<S>();
        if !self.is_greeted() {
            return Err(ClosedStream);
        }
        self.core.reset(id, code)
    }

    /// Answers the code with which the peer asked to stop a stream, None if it didn't (RFC 9000, section 3.5). ClosedStream exactly if the
    /// stream is done or was never there, or the peer's hello wasn't read.
    pub fn stopped(&self, id: StreamId) -> Result<Option<VarInt>, ClosedStream>
        ensures code { MatchResult result (λ code. IfSome (send_at self.now.core.space.streams.send id.0) (λ h. code ≡ h.stop_reason))
            (λ e. (is_some self.now.handshake.peer ≡ false) ⊎ (send_at self.now.core.space.streams.send id.0 ≡ None)) }
        ensures ok { OnOk result ((is_some self.now.handshake.peer ≡ true) × IsSome (send_at self.now.core.space.streams.send id.0)) }
    {
        if !self.is_greeted() {
            return Err(ClosedStream);
        }
        self.core.stopped(id)
    }

    /// Answers the priority of a stream among those that wait to be sent, 0 at first: the greater goes first (RFC 9000, section 2.3).
    /// ClosedStream exactly if the stream is done or was never there, or the peer's hello wasn't read.
    pub fn priority(&self, id: StreamId) -> Result<i32, ClosedStream>
        ensures { MatchResult result (λ n. (is_some self.now.handshake.peer ≡ true) × (half_priority (send_at self.now.core.space.streams.send id.0) ≡ Some n))
            (λ e. (is_some self.now.handshake.peer ≡ false) ⊎ (send_at self.now.core.space.streams.send id.0 ≡ None)) }
    {
        if !self.is_greeted() {
            return Err(ClosedStream);
        }
        self.core.priority(id)
    }

    /// Sets the priority of a stream among those that wait to be sent (RFC 9000, section 2.3). ClosedStream exactly if the stream is done or
    /// was never there, or the peer's hello wasn't read.
    pub fn set_priority(&mut self, id: StreamId, priority: i32) -> Result<(), ClosedStream>
        requires { IsWhole self.old }
        ensures greeted { OnOk result (is_some self.old.handshake.peer ≡ true) }
        ensures ok { OnOk result (IsStep (HasPriority priority) self.old.core.space.streams.send self.new.core.space.streams.send id.0 0
            × (self.new.core ≡ with_streams self.old.core (record self.old.core.space.streams { send = self.new.core.space.streams.send }))) }
        ensures fault { OnErr result (((is_some self.old.handshake.peer ≡ false) ⊎ (send_at self.old.core.space.streams.send id.0 ≡ None)) × (self.new ≡ self.old)) }
        ensures rest { self.new ≡ record self.old { core = self.new.core } }
        ensures stands { StandsStill self.old self.new }
        ensures whole { IsWhole self.new }
    {
        still::<S>();
        made::<S>();
        if !self.is_greeted() {
            return Err(ClosedStream);
        }
        self.core.set_priority(id, priority)
    }

    /// Reads bytes of a stream that wait, at most as many as are asked for, or the end, None, or the reset; in order or not (RFC 9000, section
    /// 2.2). What was read permits the peer as many bytes more (section 4.1). With a length of 0 it reads no bytes, and neither the end nor
    /// the reset. It answers ClosedStream if the stream was stopped, its end or its reset was read, it is none of this end's, or the peer's
    /// hello wasn't read; IllegalOrderedRead after a read that wasn't in order; Reset if the peer reset the stream; and Blocked if nothing
    /// waits. For want of memory nothing changes.
    pub fn read(
        &mut self,
        id: StreamId,
        max_length: usize,
        ordered: bool,
    ) -> Result<Option<Chunk>, TakeFault>
        requires { IsWhole self.old }
        ensures greeted { OnOk result (is_some self.old.handshake.peer ≡ true) }
        ensures ok { IfOk result (λ o. IsRead max_length ordered id.0 (Ok o) self.old.core.space.streams self.new.core.space.streams) }
        ensures fault { IfErr result (λ e. ((is_some self.old.handshake.peer ≡ false) × (e ≡ Readable readable_faults.ClosedStream) × (self.new ≡ self.old))
            ⊎ ((is_some self.old.handshake.peer ≡ true) × IsReadFault max_length ordered id.0 e self.old.core.space.streams self.new.core.space.streams)) }
        ensures unread { IfErr result (λ e. e ≡ Read Wanting → self.new ≡ self.old) }
        ensures lacks { IfErr result (λ e. e ≡ Read Wanting → WaitsForMoreInOrderAt self.old.core.space.streams.recv id.0 ordered → ⊥) }
        ensures streams { self.new.core ≡ with_streams self.old.core self.new.core.space.streams }
        ensures rest { self.new ≡ record self.old { core = self.new.core } }
        ensures in_order { IfOk result (λ o. IfSome o (λ c. (accepts : AcceptsTags S) (sealed : MakesTagsOf S) (hello : List ℕ) (t : List Act) → Stands accepts sealed hello self.old t → ordered ≡ true → 0 < length c.bytes → c.offset ≡ length (read t id.0))) }
        ensures carries { CarriesOn self.old self.new (take_acts id.0 result) }
        ensures whole { IsWhole self.new }
    {
        sends::<S>();
        made::<S>();
        if !self.is_greeted() {
            return Err(TakeFault::Readable(ReadableFault::ClosedStream));
        }
        self.core.read(id, max_length, ordered)
    }

    /// Stops reading a stream: what waits is dropped, and what comes. If its final size isn't known the peer is asked to stop, with this code
    /// (RFC 9000, section 3.5). ClosedStream exactly if it was stopped before, its end or its reset was read, it is none of this end's, or the
    /// peer's hello wasn't read.
    pub fn stop(&mut self, id: StreamId, code: VarInt) -> Result<(), ClosedStream>
        requires { IsWhole self.old }
        ensures greeted { OnOk result (is_some self.old.handshake.peer ≡ true) }
        ensures ok { OnOk result (IsRecvStep (Stops code) self.old.core.space.streams.recv self.new.core.space.streams.recv id.0 0
            × (self.new.core ≡ with_streams self.old.core (counted_closed (record self.old.core.space.streams { recv = self.new.core.space.streams.recv }) id.0 (is_live self.old.core.space.streams id.0)))) }
        ensures fault { OnErr result (((is_some self.old.handshake.peer ≡ false) ⊎ (is_closed_at self.old.core.space.streams.recv id.0 ≡ true)) × (self.new ≡ self.old)) }
        ensures rest { self.new ≡ record self.old { core = self.new.core } }
        ensures carries { CarriesOn self.old self.new (stop_acts id.0 code result) }
        ensures whole { IsWhole self.new }
    {
        sends::<S>();
        made::<S>();
        if !self.is_greeted() {
            return Err(ClosedStream);
        }
        self.core.stop(id, code)
    }

    /// Answers the code with which the peer reset a stream, None if it didn't (RFC 9000, section 3.2). It counts as read then. ClosedStream
    /// exactly if the stream was stopped, its end or its reset was read, it is none of this end's, or the peer's hello wasn't read.
    pub fn received_reset(&mut self, id: StreamId) -> Result<Option<VarInt>, ClosedStream>
        requires { IsWhole self.old }
        ensures greeted { OnOk result (is_some self.old.handshake.peer ≡ true) }
        ensures ok { IfOk result (λ code. IsRecvStep (TakesReset code) self.old.core.space.streams.recv self.new.core.space.streams.recv id.0 0
            × (self.new.core ≡ with_streams self.old.core (counted_closed (record self.old.core.space.streams { recv = self.new.core.space.streams.recv }) id.0 (is_live self.old.core.space.streams id.0)))) }
        ensures fault { OnErr result (((is_some self.old.handshake.peer ≡ false) ⊎ (is_closed_at self.old.core.space.streams.recv id.0 ≡ true)) × (self.new ≡ self.old)) }
        ensures rest { self.new ≡ record self.old { core = self.new.core } }
        ensures carries { CarriesOn self.old self.new (received_reset_acts id.0 result) }
        ensures whole { IsWhole self.new }
    {
        sends::<S>();
        made::<S>();
        if !self.is_greeted() {
            return Err(ClosedStream);
        }
        self.core.received_reset(id)
    }

    /// Whether the peer permits one more stream of a direction (RFC 9000, section 4.6).
    pub fn can_open(&self, dir: Dir) -> bool
        ensures { result ≡ nat_lt (counts_of self.now.core.space.streams (is_two_way dir)).opened (counts_of self.now.core.space.streams (is_two_way dir)).max_opened }
    {
        self.core.can_open(dir)
    }

    /// Whether a stream that the peer opened waits to be accepted.
    pub fn can_accept(&self, dir: Dir) -> bool
        ensures { result ≡ nat_lt (counts_of self.now.core.space.streams (is_two_way dir)).accepted (counts_of self.now.core.space.streams (is_two_way dir)).arrived }
    {
        self.core.can_accept(dir)
    }

    /// Whether a read of a stream in this order waits: it may be made, and there is nothing for it, neither bytes nor the end nor the reset.
    pub fn is_read_blocked(&self, id: StreamId, ordered: bool) -> bool
        ensures yes { result ≡ true → IsReadBlockedAt self.now.core.space.streams.recv id.0 ordered }
        ensures no { result ≡ false → IsReadBlockedAt self.now.core.space.streams.recv id.0 ordered → ⊥ }
    {
        self.core.is_read_blocked(id, ordered)
    }

    /// The most bytes that the next read of a stream in this order can give, at most `max_length`; 0 if it has no half. It takes the time of the
    /// pieces that it counts.
    pub fn longest(&self, id: StreamId, max_length: usize, ordered: bool) -> usize
        ensures few { result ≤ max_length }
        ensures enough { IfSome (recv_at self.now.core.space.streams.recv id.0) (λ r. ReadsAtMost r ordered max_length result) }
        ensures waits { IfSome (recv_at self.now.core.space.streams.recv id.0) (λ r. AreWaiting r ordered result) }
        ensures none { recv_at self.now.core.space.streams.recv id.0 ≡ None → result ≡ 0 }
    {
        self.core.longest(id, max_length, ordered)
    }

    /// Of a half the offset behind those that reads gave without a gap wasn't given. It does nothing: its contract says so.
    pub fn reads_on(&self, id: StreamId)
        ensures { IfSome (recv_at self.now.core.space.streams.recv id.0) (λ r. was_given r.assembler (read_to r.assembler) ≡ false) }
    {
        self.core.reads_on(id);
    }

    /// Whether whoever waits for the peer's reset of a stream waits still: none came, and reads aren't refused.
    pub fn awaits_reset(&self, id: StreamId) -> bool
        ensures { result ≡ half_awaits_reset (recv_at self.now.core.space.streams.recv id.0) }
    {
        self.core.awaits_reset(id)
    }

    /// Whether a write to a stream waits, as far as its streams go: it is neither refused nor is a byte permitted.
    pub fn is_write_blocked(&self, id: StreamId) -> bool
        ensures { result ≡ is_blocked_fault (write_fault_at self.now.core.space.streams.send id.0) }
    {
        self.core.is_write_blocked(id)
    }
}
