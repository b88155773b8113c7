ghost use Rattle.std.specs.Prelude.{◌≡◌, ◌+◌, ◌≤◌, ◌<◌, ◌++◌, ◌∷◌, [], length, Option, None, Some, true, is_some, IfOk, IfSome, IsOk, MatchOption, vec_len, vec_capacity};
ghost use Rattle.qh_base.specs.declared.connection_error.ConnectionError.{ConnectionError as AnError};
ghost use Rattle.qh_book.specs.History.{PlainEntry};
ghost use Rattle.qh_book.specs.declared.call.Call.TheVariants as calls;
ghost use Rattle.qh_book.specs.declared.reply.Reply.TheVariants as replies;
ghost use Rattle.qh_quinn.specs.Recording.{HasTold, IsBare, IsEntryWith, again, items_kept, payload_of, with_payload};

use bytes::Bytes;
use qh_base::{ConnectionError, Memory, Moment};
use qh_book::{Call, Reply};
use qh_conn::LogEntry;
use std::alloc::Global;
use std::marker::Model;

/// An entry of a history: a call with its reply, and of a driver's turn what it brought (own). What it has was taken from the allocator before the call.
#[derive(Drop)]
pub struct HistoryEntry<T> {
    call: Call,
    /// If it has bytes, they stand beside it.
    reply: Reply<T>,
    payload: Vec<u8>,
    brought: Vec<LogEntry>,
    lost: Option<ConnectionError>,
}

impl<T> Model for HistoryEntry<T> {
    ghost use Rattle.qh_book.specs.History.{PlainEntry};
    ghost use Rattle.qh_quinn.specs.Recording.{items_kept, with_payload};

    ghost Value = { PlainEntry T };

    ghost view = { λ k. record { call = k.call; reply = with_payload k.payload.items k.reply; items = items_kept k.brought.items k.lost } };
}

impl<T> HistoryEntry<T> {
    /// What was called.
    pub fn call(&self) -> &Call
        ensures { result.now ≡ self.now.call }
    {
        &self.call
    }

    /// What it replied. The bytes of one that has some stand beside it.
    pub fn reply(&self) -> (&Reply<T>, &[u8])
        ensures { with_payload result.1.now result.0.now ≡ self.now.reply }
    {
        (&self.reply, self.payload.as_slice())
    }

    /// What a turn brought, in the order in which it came, and why the connection is lost, if it is lost since.
    pub fn items(&self) -> (&[LogEntry], Option<&ConnectionError>)
        ensures { (lost : Option AnError) × (MatchOption result.1 (lost ≡ None) (λ e. lost ≡ Some e.now)) × (items_kept result.0.now lost ≡ self.now.items) }
    {
        (self.brought.as_slice(), self.lost.as_ref())
    }
}

/// What the entry of a call needs of the allocator, taken before the call is made.
#[derive(Drop)]
pub struct Room {
    pub call: Call,
    pub payload: Vec<u8>,
}

/// The entries of a state's calls and turns, in the order in which they were made.
#[derive(Drop)]
pub struct History<T> {
    pub entries: Vec<HistoryEntry<T>>,
}

impl<T: Drop> History<T> {
    /// Room for an entry of this call, whose reply has so many bytes at most, and for so many entries more.
    pub fn room(
        &mut self,
        alloc: Global,
        call: &Call,
        bytes: usize,
        more: usize,
    ) -> Result<Room, Memory>
        ensures same { self.new.entries.items ≡ self.old.entries.items }
        ensures len { vec_len self.new.entries ≡ vec_len self.old.entries }
        ensures kept { vec_capacity self.old.entries ≤ vec_capacity self.new.entries }
        ensures room { IfOk result (λ r. vec_len self.new.entries + (1 + more) ≤ vec_capacity self.new.entries) }
        ensures call { IfOk result (λ r. r.call ≡ call.now) }
        ensures payload { IfOk result (λ r. (r.payload.items ≡ []) × (bytes ≤ vec_capacity r.payload)) }
        ensures free { IsBare call.now → bytes ≡ 0 → vec_len self.old.entries + (1 + more) ≤ vec_capacity self.old.entries → IsOk result }
    {
        let Some(count) = more.checked_add(1) else {
            return Err(Memory);
        };
        self.entries.reserve(count)?;
        let call = copied_call(alloc, call)?;
        let payload = Vec::with_capacity(alloc, bytes)?;
        Ok(Room { call, payload })
    }

    /// Keeps an entry. There is room for it.
    pub fn push(&mut self, alloc: Global, room: Room, reply: &Reply<T>, told: Option<T>)
        requires slot { vec_len self.old.entries < vec_capacity self.old.entries }
        requires empty { room.payload.items ≡ [] }
        requires payload { length (payload_of reply.now) ≤ vec_capacity room.payload }
        requires told { HasTold reply.now told }
        ensures entry { (e : PlainEntry T) × IsEntryWith room.call reply.now told e × (self.new.entries.items ≡ self.old.entries.items ++ e ∷ []) }
        ensures len { vec_len self.new.entries ≡ vec_len self.old.entries + 1 }
        ensures capacity { vec_capacity self.new.entries ≡ vec_capacity self.old.entries }
    {
        let mut payload = room.payload;
        let _ = payload.extend_from_slice(payload_of(reply));
        self.entries.push_reserved(HistoryEntry {
            call: room.call,
            reply: bare(reply, told),
            payload,
            brought: Vec::new(alloc),
            lost: None,
        });
    }

    /// Keeps the entry of a turn. There is room for it.
    pub fn push_turn(
        &mut self,
        alloc: Global,
        now: Moment,
        reply: Reply<T>,
        brought: Vec<LogEntry>,
        lost: Option<ConnectionError>,
    )
        requires slot { vec_len self.old.entries < vec_capacity self.old.entries }
        requires bare { payload_of reply ≡ [] }
        ensures entry { self.new.entries.items ≡ self.old.entries.items ++ record { call = calls.Drive now; reply = reply; items = items_kept brought.items lost } ∷ [] }
        ensures len { vec_len self.new.entries ≡ vec_len self.old.entries + 1 }
        ensures capacity { vec_capacity self.new.entries ≡ vec_capacity self.old.entries }
    {
        self.entries.push_reserved(HistoryEntry {
            call: Call::Drive { now },
            reply,
            payload: Vec::new(alloc),
            brought,
            lost,
        });
    }
}

// The bytes of a reply that has some.
fn payload_of<T>(reply: &Reply<T>) -> &[u8]
    ensures { result.now ≡ payload_of reply.now }
{
    match reply {
        Reply::Bytes { payload, .. } | Reply::Datagram(payload) => payload.as_slice(),
        _ => &[],
    }
}

// A reply again, without its bytes; in place of a value that the book doesn't have stands the other one.
fn bare<T: Drop>(reply: &Reply<T>, told: Option<T>) -> Reply<T>
    requires { HasTold reply.now told }
    ensures { with_payload (payload_of reply.now) result ≡ again reply.now told }
{
    match reply {
        Reply::Pending => Reply::Pending,
        Reply::Opened(id) => Reply::Opened(*id),
        Reply::Bytes { offset, .. } => Reply::Bytes {
            offset: *offset,
            payload: Bytes::new(),
        },
        Reply::Ended => Reply::Ended,
        Reply::Count(count) => Reply::Count(*count),
        Reply::Code(code) => Reply::Code(*code),
        Reply::Number(number) => Reply::Number(*number),
        Reply::Priority(priority) => Reply::Priority(*priority),
        Reply::Done => Reply::Done,
        Reply::Datagram(_) => Reply::Datagram(Bytes::new()),
        Reply::MaxDatagramSize(size) => Reply::MaxDatagramSize(*size),
        Reply::Side(side) => Reply::Side(*side),
        Reply::RemoteAddress(address) => Reply::RemoteAddress(*address),
        Reply::LocalIp(ip) => Reply::LocalIp(*ip),
        Reply::Told(_) => told_again(told),
        Reply::ConnectionLost(error) => Reply::ConnectionLost(error.copied()),
        Reply::Reset(code) => Reply::Reset(*code),
        Reply::Stopped(code) => Reply::Stopped(*code),
        Reply::ClosedStream => Reply::ClosedStream,
        Reply::IllegalOrderedRead => Reply::IllegalOrderedRead,
        Reply::UnsupportedByPeer => Reply::UnsupportedByPeer,
        Reply::Disabled => Reply::Disabled,
        Reply::TooLarge => Reply::TooLarge,
        Reply::Failed => Reply::Failed,
        Reply::Memory => Reply::Memory,
    }
}

// There is a value.
fn told_again<T: Drop>(told: Option<T>) -> Reply<T>
    requires { is_some told ≡ true }
    ensures { IfSome told (λ value. result ≡ replies.Told value) }
{
    match told {
        Some(value) => Reply::Told(value),
        None => Reply::Memory,
    }
}

// A call again. Memory is taken for its bytes alone.
fn copied_call(alloc: Global, call: &Call) -> Result<Call, Memory>
    ensures same { IfOk result (λ c. c ≡ call.now) }
    ensures free { IsBare call.now → IsOk result }
{
    Ok(match call {
        Call::Connecting => Call::Connecting,
        Call::HandshakeData => Call::HandshakeData,
        Call::Open(dir) => Call::Open(*dir),
        Call::Accept(dir) => Call::Accept(*dir),
        Call::Read {
            id,
            max_length,
            is_ordered,
        } => Call::Read {
            id: *id,
            max_length: *max_length,
            is_ordered: *is_ordered,
        },
        Call::Write { id, payload } => Call::Write {
            id: *id,
            payload: Bytes::copy_from_slice(alloc, payload.as_slice())?,
        },
        Call::Finish(id) => Call::Finish(*id),
        Call::Reset { id, code } => Call::Reset {
            id: *id,
            code: *code,
        },
        Call::Stop { id, code } => Call::Stop {
            id: *id,
            code: *code,
        },
        Call::Stopped(id) => Call::Stopped(*id),
        Call::ReceivedReset(id) => Call::ReceivedReset(*id),
        Call::SetPriority { id, priority } => Call::SetPriority {
            id: *id,
            priority: *priority,
        },
        Call::Priority(id) => Call::Priority(*id),
        Call::ReadDatagram => Call::ReadDatagram,
        Call::SendDatagram { payload, wait } => Call::SendDatagram {
            payload: Bytes::copy_from_slice(alloc, payload.as_slice())?,
            wait: *wait,
        },
        Call::CloseReason => Call::CloseReason,
        Call::Closed => Call::Closed,
        Call::Close {
            now,
            error_code,
            reason,
        } => Call::Close {
            now: *now,
            error_code: *error_code,
            reason: reason.copied(),
        },
        Call::EndSend(id) => Call::EndSend(*id),
        Call::EndRecv(id) => Call::EndRecv(*id),
        Call::CloneHandle => Call::CloneHandle,
        Call::EndHandle => Call::EndHandle,
        Call::Get(getter) => Call::Get(*getter),
        Call::Set(setting) => Call::Set(*setting),
        Call::Drive { now } => Call::Drive { now: *now },
    })
}
