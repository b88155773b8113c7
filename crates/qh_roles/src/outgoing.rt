ghost use Rattle.std.specs.Prelude.{◌≡◌, ◌++◌, ◌-◌, ◌^◌, ℕ, ◌<◌, ◌≤◌, List, length, min, true, IsSome, Ok, IfOk, OnOk, OnErr};
ghost use Rattle.qh_core.specs.Follows.{finish_acts};
ghost use Rattle.qh_core.specs.Inner.{is_open};
ghost use Rattle.qh_core.specs.declared.inner.Inner.{Inner as AnInner};
ghost use Rattle.qh_halves.specs.SendHalves.{finish_fault_at};
ghost use Rattle.qh_roles.specs.Going.{WentFrom};
ghost use Rattle.qh_roles.specs.Steps.{IsPushed, Pushes, pushed};
ghost use Rattle.qh_roles.specs.Streams.{AreOn, IsBlocked, IsFresh, IsGivenUp, IsOver, IsStirred, IsWriting, KeepsOver, NoneArrived, TakesNothing, Writes};
ghost use Rattle.qh_roles.specs.declared.outgoing.WriteState.TheVariants as writing;
ghost use Rattle.qh_spec.specs.Transcript.{Act};

use qh_base::{Code, Memory, StreamId, VarInt};
use qh_conduct::behaves;
use qh_core::{Connection, made};
use qh_streams::{FinishFault, WriteFault};
use std::marker::Model;

/// The bytes of a message on their way to a stream.
#[derive(Drop)]
pub struct Outgoing {
    stream: StreamId,
    bytes: Vec<u8>,
    taken: usize,
}

impl Model for Outgoing {
    ghost use Rattle.qh_roles.specs.Streams.{Outgoing};

    ghost Value = { Outgoing };

    ghost view = { λ o. record { stream = o.stream.0; bytes = o.bytes.items; taken = o.taken } };

    ghost use Rattle.std.specs.Prelude.{◌≤◌, length};

    ghost invariant = { λ o. o.taken ≤ length o.bytes.items };
}

/// How far a message is on its way out.
#[derive(Clone, Copy, PartialEq, Eq)]
pub enum WriteState {
    /// Bytes are left, which the limits don't permit yet.
    Blocked,
    /// All was taken, and the stream is finished.
    Finished,
    /// The stream takes nothing more: the peer stopped it, or it is closed.
    Refused,
}

impl Outgoing {
    /// The bytes of a message for a stream, of which none was taken yet.
    pub fn new(stream: StreamId, bytes: Vec<u8>) -> Outgoing
        ensures { result ≡ record { stream = stream.0; bytes = bytes.items; taken = 0 } }
    {
        Outgoing {
            stream,
            bytes,
            taken: 0,
        }
    }

    /// The stream.
    pub fn stream(&self) -> StreamId
        ensures { result.0 ≡ self.now.stream }
    {
        self.stream
    }

    /// Writes as many of the bytes that are left as the limits permit, and finishes the stream behind the last one. Memory is
    /// wanted only on an open connection, and not for a stream that is closed, or that the peer stopped.
    pub fn write<S>(&mut self, connection: &mut Connection<S>) -> Result<WriteState, Memory>
        ensures same { (self.new.stream ≡ self.old.stream) × (self.new.bytes ≡ self.old.bytes) }
        ensures stirred { IsStirred connection.old connection.new }
        ensures none_arrived { NoneArrived connection.old.space.streams connection.new.space.streams }
        ensures over { KeepsOver connection.old.space.streams.send connection.new.space.streams.send }
        ensures writes { (start : AnInner S) (before t : List Act) → WentFrom start before connection.old t → IsWriting t self.old → Writes start before result self.new connection.new t }
        ensures finished { result ≡ Ok writing.Finished → IsOver connection.new.space.streams.send self.old.stream }
        ensures blocked { result ≡ Ok writing.Blocked → IsBlocked connection.old self.old self.new }
        ensures refused { result ≡ Ok writing.Refused → TakesNothing connection.old.space.streams.send self.old }
        ensures memory { OnErr result ((is_open connection.old.state ≡ true) × (TakesNothing connection.old.space.streams.send self.old → ⊥)) }
    {
        match push(connection, self.stream, &self.bytes[self.taken..]) {
            Ok(count) => {
                self.taken += count;
                Ok(self.end(connection))
            }
            Err(WriteFault::Blocked) => Ok(WriteState::Blocked),
            Err(WriteFault::Memory) => Err(Memory),
            Err(_) => Ok(WriteState::Refused),
        }
    }

    // Finishes the stream where all bytes were taken.
    fn end<S>(&self, connection: &mut Connection<S>) -> WriteState
        ensures stirred { IsStirred connection.old connection.new }
        ensures none_arrived { NoneArrived connection.old.space.streams connection.new.space.streams }
        ensures over { KeepsOver connection.old.space.streams.send connection.new.space.streams.send }
        ensures writes { (start : AnInner S) (before t : List Act) → WentFrom start before connection.old t → IsWriting t self.now → Writes start before (Ok result) self.now connection.new t }
        ensures finished { result ≡ writing.Finished → IsOver connection.new.space.streams.send self.now.stream }
        ensures blocked { result ≡ writing.Blocked → self.now.taken < length self.now.bytes }
        ensures refused { result ≡ writing.Refused → (self.now.taken ≡ length self.now.bytes) × IsSome (finish_fault_at connection.old.space.streams.send self.now.stream) }
    {
        if self.taken < self.bytes.len() {
            return WriteState::Blocked;
        }
        match finish(connection, self.stream) {
            Ok(()) => WriteState::Finished,
            Err(_) => WriteState::Refused,
        }
    }
}

// Writes bytes on a stream, as many as the limits permit.
fn push<S>(
    connection: &mut Connection<S>,
    stream: StreamId,
    bytes: &[u8],
) -> Result<usize, WriteFault>
    ensures count { IfOk result (λ n. n ≤ length bytes.now) }
    ensures stirred { IsStirred connection.old connection.new }
    ensures none_arrived { NoneArrived connection.old.space.streams connection.new.space.streams }
    ensures over { KeepsOver connection.old.space.streams.send connection.new.space.streams.send }
    ensures pushes { (start : AnInner S) (before t : List Act) → WentFrom start before connection.old t → Pushes start before stream.0 (pushed bytes.now result) connection.new t }
    ensures pushed { IsPushed stream.0 bytes.now result connection.old connection.new }
{
    if bytes.is_empty() {
        return Ok(0);
    }
    behaves::<S>();
    made::<S>();
    connection.write(stream, bytes)
}

// Finishes a stream.
fn finish<S>(connection: &mut Connection<S>, stream: StreamId) -> Result<(), FinishFault>
    ensures stirred { IsStirred connection.old connection.new }
    ensures none_arrived { NoneArrived connection.old.space.streams connection.new.space.streams }
    ensures over { KeepsOver connection.old.space.streams.send connection.new.space.streams.send }
    ensures follows { (start : AnInner S) (before t : List Act) → WentFrom start before connection.old t → WentFrom start before connection.new (t ++ finish_acts stream.0 result) }
    ensures finished { OnOk result (IsOver connection.new.space.streams.send stream.0) }
    ensures fault { OnErr result (IsSome (finish_fault_at connection.old.space.streams.send stream.0)) }
{
    behaves::<S>();
    made::<S>();
    connection.finish(stream)
}

/// Resets a stream on which nothing more is written, with this code (RFC 9114, section 4.1.1). Nothing where it is closed.
pub(crate) fn give_up<S>(connection: &mut Connection<S>, stream: StreamId, code: Code)
    ensures stirred { IsStirred connection.old connection.new }
    ensures none_arrived { NoneArrived connection.old.space.streams connection.new.space.streams }
    ensures over { KeepsOver connection.old.space.streams.send connection.new.space.streams.send }
    ensures acted { (start : AnInner S) (before t : List Act) → WentFrom start before connection.old t → (acts : List Act) × AreOn stream.0 acts × IsFresh acts stream.0 × WentFrom start before connection.new (t ++ acts) }
    ensures done { IsOver connection.new.space.streams.send stream.0 }
    ensures given_up { IsGivenUp connection.old.space.streams.send connection.new.space.streams.send stream.0 code.0 }
{
    behaves::<S>();
    made::<S>();
    let _refused = connection.reset(stream, number_of(code));
}

// The code as a frame bears it.
fn number_of(code: Code) -> VarInt
    ensures { result ≡ min code.0 (2 ^ 62 - 1) }
{
    VarInt::from_u64(code.0.min(VarInt::MAX_VALUE)).unwrap()
}
