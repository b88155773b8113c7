ghost use Rattle.std.specs.Prelude.{◌≡◌, ◌<◌, ◌++◌, [], ℕ, List, length, None, Some, Ok, OnErr, OnOk, IfOk, IfSome};
ghost use Rattle.qh_core.specs.Follows.{take_acts};
ghost use Rattle.qh_core.specs.declared.inner.Inner.{Inner as AnInner};
ghost use Rattle.qh_roles.specs.Going.{WentFrom};
ghost use Rattle.qh_roles.specs.Steps.{IsTaken, so_far};
ghost use Rattle.qh_roles.specs.Streams.{GivesNoMore, IsReading, IsStirred, NoneArrived, ReadsOn, WaitsToRead};
ghost use Rattle.qh_roles.specs.declared.incoming.ReadState.TheVariants as reading;
ghost use Rattle.qh_spec.specs.Transcript.{Act, read};

use qh_base::{Memory, StreamId};
use qh_buffers::Chunk;
use qh_conduct::behaves;
use qh_core::{Connection, TakeFault, made};
use qh_streams::ReadFault;
use std::alloc::Global;
use std::marker::Model;

// How many bytes one read asks for.
const PIECE: usize = 65_536;

/// The bytes of a message that come on a stream.
#[derive(Drop)]
pub struct Incoming {
    stream: StreamId,
    bytes: Vec<u8>,
}

impl Model for Incoming {
    ghost use Rattle.qh_roles.specs.Streams.{Incoming};

    ghost Value = { Incoming };

    ghost view = { λ i. record { stream = i.stream.0; bytes = i.bytes.items } };
}

/// How far a message is on its way in.
#[derive(Clone, Copy, PartialEq, Eq)]
pub enum ReadState {
    /// More is to come.
    Blocked,
    /// The end was told: these are all its bytes.
    Ended,
    /// No more comes: the peer reset the stream, or it can't be read.
    Refused,
}

impl Incoming {
    /// What comes on a stream, before its first byte.
    pub fn new(alloc: Global, stream: StreamId) -> Incoming
        ensures { result ≡ record { stream = stream.0; bytes = [] } }
    {
        Incoming {
            stream,
            bytes: Vec::new(alloc),
        }
    }

    /// The bytes that came so far.
    pub fn bytes(&self) -> &[u8]
        ensures { result.now ≡ self.now.bytes }
    {
        &self.bytes
    }

    /// Reads all that waits. Memory is wanted only for bytes: not for a stream that the peer reset, or that can't be read.
    pub fn read<S>(&mut self, connection: &mut Connection<S>) -> Result<ReadState, Memory>
        ensures same { self.new.stream ≡ self.old.stream }
        ensures stirred { IsStirred connection.old connection.new }
        ensures reads { (start : AnInner S) (before t : List Act) → WentFrom start before connection.old t → IsReading t self.old → ReadsOn start before result self.new connection.new t }
        ensures none_arrived { NoneArrived connection.old.space.streams connection.new.space.streams }
        ensures unwritten { connection.new.space.streams.send ≡ connection.old.space.streams.send }
        ensures blocked { result ≡ Ok reading.Blocked → WaitsToRead connection.new.space.streams.recv self.old.stream }
        ensures refused { result ≡ Ok reading.Refused → GivesNoMore connection.old.space.streams.recv self.old.stream }
        ensures memory { OnErr result (GivesNoMore connection.old.space.streams.recv self.old.stream → ⊥) }
    {
        for _piece in 0..u64::MAX {
            if let Some(state) = self.read_piece(connection)? {
                return Ok(state);
            }
        }
        // No memory holds so many bytes, one of each piece.
        Err(Memory)
    }

    // Reads once: None where more may wait.
    fn read_piece<S>(&mut self, connection: &mut Connection<S>) -> Result<Option<ReadState>, Memory>
        ensures same { self.new.stream ≡ self.old.stream }
        ensures stirred { IsStirred connection.old connection.new }
        ensures reads { (start : AnInner S) (before t : List Act) → WentFrom start before connection.old t → IsReading t self.old → ReadsOn start before (so_far result) self.new connection.new t }
        ensures none_arrived { NoneArrived connection.old.space.streams connection.new.space.streams }
        ensures unwritten { connection.new.space.streams.send ≡ connection.old.space.streams.send }
        ensures blocked { result ≡ Ok (Some reading.Blocked) → WaitsToRead connection.new.space.streams.recv self.old.stream }
        ensures refused { result ≡ Ok (Some reading.Refused) → GivesNoMore connection.old.space.streams.recv self.old.stream }
        ensures given { result ≡ Ok None → GivesNoMore connection.old.space.streams.recv self.old.stream → ⊥ }
        ensures more { result ≡ Ok None → GivesNoMore connection.new.space.streams.recv self.old.stream → GivesNoMore connection.old.space.streams.recv self.old.stream }
        ensures memory { OnErr result (GivesNoMore connection.old.space.streams.recv self.old.stream → ⊥) }
    {
        match take_piece(connection, self.stream) {
            Ok(Some(chunk)) => {
                append(&mut self.bytes, chunk)?;
                Ok(None)
            }
            Ok(None) => Ok(Some(ReadState::Ended)),
            Err(TakeFault::Read(ReadFault::Blocked)) => Ok(Some(ReadState::Blocked)),
            Err(TakeFault::Read(ReadFault::Memory)) => Err(Memory),
            Err(_) => Ok(Some(ReadState::Refused)),
        }
    }
}

// Puts a piece behind the bytes before it.
fn append(bytes: &mut Vec<u8>, chunk: Chunk) -> Result<(), Memory>
    ensures ok { OnOk result (bytes.new.items ≡ bytes.old.items ++ chunk.bytes) }
{
    Ok(bytes.extend_from_slice(chunk.bytes.as_slice())?)
}

// Takes the next piece of a stream, in order.
fn take_piece<S>(
    connection: &mut Connection<S>,
    stream: StreamId,
) -> Result<Option<Chunk>, TakeFault>
    ensures stirred { IsStirred connection.old connection.new }
    ensures follows { (start : AnInner S) (before t : List Act) → WentFrom start before connection.old t → WentFrom start before connection.new (t ++ take_acts stream.0 result) }
    ensures in_order { IfOk result (λ o. IfSome o (λ c. (start : AnInner S) (before t : List Act) → WentFrom start before connection.old t → 0 < length c.bytes → c.offset ≡ length (read t stream.0))) }
    ensures none_arrived { NoneArrived connection.old.space.streams connection.new.space.streams }
    ensures unwritten { connection.new.space.streams.send ≡ connection.old.space.streams.send }
    ensures taken { IsTaken stream.0 result connection.old.space.streams.recv connection.new.space.streams.recv }
{
    behaves::<S>();
    made::<S>();
    connection.read(stream, PIECE, true)
}
