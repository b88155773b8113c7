ghost use Rattle.std.specs.Prelude.{◌≡◌, ◌⊎◌, take, min, length, true, false, Err, OnOk, OnErr, IfOk, IfErr, IfSome, MatchResult, None, Some, IsSome};
ghost use Rattle.std.specs.List.{concat};
ghost use Rattle.qh_streams.specs.declared.halves.ChunksState.TheVariants.{Readable};
ghost use Rattle.qh_streams.specs.Halves.{IsChunk, last_answer, state_after};
ghost use Rattle.qh_half.specs.declared.fault.ReadFault.TheVariants.{Memory as Lacking};
ghost use Rattle.qh_half.specs.Send.{credit, chunks_after, whole_chunks};
ghost use Rattle.qh_halves.specs.SendHalves.{send_at, write_limit, write_fault_at, finish_fault_at, is_reset_refused_at, half_priority, IsStep, Takes, Finishes, IsResetWith, HasPriority};
ghost use Rattle.qh_halves.specs.RecvHalves.{IsRecvStep, Begins, WaitsForMoreAt, Stops, TakesReset, readable_fault_at, is_closed_at, is_credit_due};
ghost use Rattle.qh_streams.specs.Streams.{counted_closed, is_live, IsWriteRefusal, KeepsOut};

use crate::{ClosedStream, FinishFault, ReadFault, ReadableFault, Streams, WriteFault, Written};
use bytes::Bytes;
use qh_base::{StreamId, VarInt};
use qh_buffers::Chunk;
use std::alloc::Global;

/// The sending half of a stream, lent out (quinn-proto, `SendStream`). Calls of a stream that wasn't opened nor accepted, or that
/// has no such half, or whose half is done, answer ClosedStream.
#[derive(Drop)]
pub struct SendHalf<'a> {
    /// The streams of the connection.
    pub streams: &'a mut Streams,
    /// The stream.
    pub id: StreamId,
}

/// The receiving half of a stream, lent out (quinn-proto, `RecvStream`). ClosedStream as of `SendHalf`.
#[derive(Drop)]
pub struct RecvHalf<'a> {
    /// The streams of the connection.
    pub streams: &'a mut Streams,
    /// The stream.
    pub id: StreamId,
}

/// What a reader of a stream got to.
#[derive(Clone, Copy)]
pub enum ChunksState {
    /// Bytes, the end or a reset may come.
    Readable,
    /// The end was given.
    Finished,
    /// The peer's reset was given, with this code.
    Reset(VarInt),
}

/// A reader of a stream (quinn-proto, `Chunks`).
#[derive(Drop)]
pub struct Chunks<'a> {
    /// The streams of the connection.
    pub streams: &'a mut Streams,
    /// The stream.
    pub id: StreamId,
    /// What was given so far.
    pub state: ChunksState,
}

impl Streams {
    /// The sending half of a stream.
    pub fn send(&mut self, id: StreamId) -> SendHalf<'_>
        ensures same_reference { result.streams.ghost_name ≡ self.entry.ghost_name }
        ensures streams { result.streams.now ≡ self.old }
        ensures id { result.id ≡ id }
    {
        SendHalf { streams: self, id }
    }

    /// The receiving half of a stream.
    pub fn recv(&mut self, id: StreamId) -> RecvHalf<'_>
        ensures same_reference { result.streams.ghost_name ≡ self.entry.ghost_name }
        ensures streams { result.streams.now ≡ self.old }
        ensures id { result.id ≡ id }
    {
        RecvHalf { streams: self, id }
    }
}

impl SendHalf<'_> {
    /// Takes the first bytes, as `Streams::write`.
    pub fn write(&mut self, alloc: Global, payload: &[u8]) -> Result<usize, WriteFault>
        ensures same_reference { self.new.streams.ghost_name ≡ self.old.streams.ghost_name }
        ensures id { self.new.id ≡ self.old.id }
        ensures keeps_out { KeepsOut self.old.streams.now self.new.streams.now }
        ensures count { IfOk result (λ n. IfSome (send_at self.old.streams.now.send self.old.id.0) (λ h. n ≡ min (length payload.now) (credit h (write_limit self.old.streams.now.send)))) }
        ensures ok { IfOk result (λ n. IsStep (Takes (take n payload.now)) self.old.streams.now.send self.new.streams.now.send self.old.id.0 n × (self.new.streams.now ≡ record self.old.streams.now { send = self.new.streams.now.send })) }
        ensures taken { OnOk result (write_fault_at self.old.streams.now.send self.old.id.0 ≡ None) }
        ensures fault { IfErr result (IsWriteRefusal self.old.streams.now self.new.streams.now self.old.id.0) }
    {
        self.streams.write(alloc, self.id, payload)
    }

    /// Takes the first bytes of chunks, as `Streams::write_chunks`.
    pub fn write_chunks(
        &mut self,
        alloc: Global,
        chunks: &mut [Bytes],
    ) -> Result<Written, WriteFault>
        ensures same_reference { self.new.streams.ghost_name ≡ self.old.streams.ghost_name }
        ensures id { self.new.id ≡ self.old.id }
        ensures keeps_out { KeepsOut self.old.streams.now self.new.streams.now }
        ensures count { IfOk result (λ w. IfSome (send_at self.old.streams.now.send self.old.id.0) (λ h. w.bytes ≡ min (length (concat chunks.old)) (credit h (write_limit self.old.streams.now.send)))) }
        ensures ok { IfOk result (λ w. IsStep (Takes (take w.bytes (concat chunks.old))) self.old.streams.now.send self.new.streams.now.send self.old.id.0 w.bytes × (self.new.streams.now ≡ record self.old.streams.now { send = self.new.streams.now.send })) }
        ensures chunks { IfOk result (λ w. (chunks.new ≡ chunks_after w.bytes chunks.old) × (w.chunks ≡ whole_chunks w.bytes chunks.old)) }
        ensures taken { OnOk result (write_fault_at self.old.streams.now.send self.old.id.0 ≡ None) }
        ensures fault { IfErr result (IsWriteRefusal self.old.streams.now self.new.streams.now self.old.id.0) }
        ensures kept { OnErr result (chunks.new ≡ chunks.old) }
    {
        self.streams.write_chunks(alloc, self.id, chunks)
    }

    /// No bytes come after those that were taken.
    pub fn finish(&mut self) -> Result<(), FinishFault>
        ensures same_reference { self.new.streams.ghost_name ≡ self.old.streams.ghost_name }
        ensures id { self.new.id ≡ self.old.id }
        ensures keeps_out { KeepsOut self.old.streams.now self.new.streams.now }
        ensures ok { OnOk result (IsStep Finishes self.old.streams.now.send self.new.streams.now.send self.old.id.0 0 × (self.new.streams.now ≡ record self.old.streams.now { send = self.new.streams.now.send })) }
        ensures fault { IfErr result (λ e. (finish_fault_at self.old.streams.now.send self.old.id.0 ≡ Some e) × (self.new.streams.now ≡ self.old.streams.now)) }
    {
        self.streams.finish(self.id)
    }

    /// Abandons the stream, with this code.
    pub fn reset(&mut self, code: VarInt) -> Result<(), ClosedStream>
        ensures same_reference { self.new.streams.ghost_name ≡ self.old.streams.ghost_name }
        ensures id { self.new.id ≡ self.old.id }
        ensures keeps_out { KeepsOut self.old.streams.now self.new.streams.now }
        ensures ok { OnOk result (IsStep (IsResetWith code) self.old.streams.now.send self.new.streams.now.send self.old.id.0 0 × (self.new.streams.now ≡ record self.old.streams.now { send = self.new.streams.now.send })) }
        ensures fault { OnErr result ((is_reset_refused_at self.old.streams.now.send self.old.id.0 ≡ true) × (self.new.streams.now ≡ self.old.streams.now)) }
    {
        self.streams.reset(self.id, code)
    }

    /// Whether the peer asked to stop, and with which code.
    pub fn stopped(&self) -> Result<Option<VarInt>, ClosedStream>
        ensures code { MatchResult result (λ code. IfSome (send_at self.now.streams.now.send self.now.id.0) (λ h. code ≡ h.stop_reason)) (λ e. send_at self.now.streams.now.send self.now.id.0 ≡ None) }
        ensures ok { OnOk result (IsSome (send_at self.now.streams.now.send self.now.id.0)) }
    {
        self.streams.stopped(self.id)
    }

    /// The stream's priority among those that wait to be sent.
    pub fn priority(&self) -> Result<i32, ClosedStream>
        ensures { MatchResult result (λ n. half_priority (send_at self.now.streams.now.send self.now.id.0) ≡ Some n) (λ e. send_at self.now.streams.now.send self.now.id.0 ≡ None) }
    {
        self.streams.priority(self.id)
    }

    /// Sets the stream's priority among those that wait to be sent.
    pub fn set_priority(&mut self, priority: i32) -> Result<(), ClosedStream>
        ensures same_reference { self.new.streams.ghost_name ≡ self.old.streams.ghost_name }
        ensures id { self.new.id ≡ self.old.id }
        ensures keeps_out { KeepsOut self.old.streams.now self.new.streams.now }
        ensures ok { OnOk result (IsStep (HasPriority priority) self.old.streams.now.send self.new.streams.now.send self.old.id.0 0 × (self.new.streams.now ≡ record self.old.streams.now { send = self.new.streams.now.send })) }
        ensures fault { OnErr result ((send_at self.old.streams.now.send self.old.id.0 ≡ None) × (self.new.streams.now ≡ self.old.streams.now)) }
    {
        self.streams.set_priority(self.id, priority)
    }
}

impl<'a> RecvHalf<'a> {
    /// Begins to read, in order or not: the half becomes a reader.
    pub fn read(self, ordered: bool) -> Result<Chunks<'a>, ReadableFault>
        ensures same_reference { IfOk result (λ c. c.streams.ghost_name ≡ self.entry.streams.ghost_name) }
        ensures ok { IfOk result (λ c. (readable_fault_at self.entry.streams.now.recv self.entry.id.0 ordered ≡ None) × (c.id ≡ self.entry.id) × (c.state ≡ Readable)
            × IsRecvStep (Begins ordered) self.entry.streams.now.recv c.streams.now.recv self.entry.id.0 0 × (c.streams.now ≡ record self.entry.streams.now { recv = c.streams.now.recv })) }
        ensures readable { IfOk result (λ c. is_closed_at c.streams.now.recv c.id.0 ≡ false) }
        ensures keeps_out { IfOk result (λ c. KeepsOut self.entry.streams.now c.streams.now) }
        ensures fault { IfErr result (λ e. readable_fault_at self.entry.streams.now.recv self.entry.id.0 ordered ≡ Some e) }
    {
        let RecvHalf { streams, id } = self;
        streams.begin_read(id, ordered)?;
        Ok(Chunks {
            streams,
            id,
            state: ChunksState::Readable,
        })
    }

    /// No more bytes are wanted, as `Streams::stop`.
    pub fn stop(&mut self, code: VarInt) -> Result<(), ClosedStream>
        ensures same_reference { self.new.streams.ghost_name ≡ self.old.streams.ghost_name }
        ensures id { self.new.id ≡ self.old.id }
        ensures keeps_out { KeepsOut self.old.streams.now self.new.streams.now }
        ensures ok { OnOk result (IsRecvStep (Stops code) self.old.streams.now.recv self.new.streams.now.recv self.old.id.0 0
            × (self.new.streams.now ≡ counted_closed (record self.old.streams.now { recv = self.new.streams.now.recv }) self.old.id.0 (is_live self.old.streams.now self.old.id.0))) }
        ensures fault { OnErr result ((is_closed_at self.old.streams.now.recv self.old.id.0 ≡ true) × (self.new.streams.now ≡ self.old.streams.now)) }
    {
        self.streams.stop(self.id, code)
    }

    /// The code of the peer's reset, if one came. It counts as given then.
    pub fn received_reset(&mut self) -> Result<Option<VarInt>, ClosedStream>
        ensures same_reference { self.new.streams.ghost_name ≡ self.old.streams.ghost_name }
        ensures id { self.new.id ≡ self.old.id }
        ensures keeps_out { KeepsOut self.old.streams.now self.new.streams.now }
        ensures ok { IfOk result (λ code. IsRecvStep (TakesReset code) self.old.streams.now.recv self.new.streams.now.recv self.old.id.0 0
            × (self.new.streams.now ≡ counted_closed (record self.old.streams.now { recv = self.new.streams.now.recv }) self.old.id.0 (is_live self.old.streams.now self.old.id.0))) }
        ensures fault { OnErr result ((is_closed_at self.old.streams.now.recv self.old.id.0 ≡ true) × (self.new.streams.now ≡ self.old.streams.now)) }
    {
        self.streams.received_reset(self.id)
    }
}

impl Chunks<'_> {
    /// Gives at most `max_length` bytes that wait, or the end, None, or the reset. With a length of 0 it gives no bytes, and
    /// neither the end nor the reset. The end and the reset are given again by each later call.
    pub fn next(&mut self, max_length: usize) -> Result<Option<Chunk>, ReadFault>
        requires { self.old.state ≡ Readable → is_closed_at self.old.streams.now.recv self.old.id.0 ≡ false }
        ensures same_reference { self.new.streams.ghost_name ≡ self.old.streams.ghost_name }
        ensures id { self.new.id ≡ self.old.id }
        ensures keeps_out { KeepsOut self.old.streams.now self.new.streams.now }
        ensures answer { IsChunk self.old.streams.now self.new.streams.now self.old.id.0 max_length self.old.state self.new.state result }
        ensures lacks { result ≡ Err Lacking → WaitsForMoreAt self.old.streams.now.recv self.old.id.0 → ⊥ }
        ensures readable { self.new.state ≡ Readable → is_closed_at self.new.streams.now.recv self.new.id.0 ≡ false }
    {
        if let Some(last) = last_answer(self.state) {
            return last;
        }
        let result = self.streams.next(self.id, max_length);
        self.state = state_after(&result);
        result
    }

    /// Ends the reading. Answers whether a limit is to be announced: the connection's, or the stream's.
    pub fn finalize(self) -> bool
        ensures { result ≡ is_credit_due self.entry.streams.now.recv self.entry.id.0 }
    {
        let Chunks { streams, id, .. } = self;
        streams.is_credit_due(id)
    }
}

// What a reader that got to its end gives again.
fn last_answer(state: ChunksState) -> Option<Result<Option<Chunk>, ReadFault>>
    ensures { result ≡ last_answer state }
{
    match state {
        ChunksState::Readable => None,
        ChunksState::Finished => Some(Ok(None)),
        ChunksState::Reset(code) => Some(Err(ReadFault::Reset(code))),
    }
}

// What a reader got to by this answer.
fn state_after(answer: &Result<Option<Chunk>, ReadFault>) -> ChunksState
    ensures { result ≡ state_after answer.now }
{
    match answer {
        Ok(None) => ChunksState::Finished,
        Err(ReadFault::Reset(code)) => ChunksState::Reset(*code),
        _ => ChunksState::Readable,
    }
}
