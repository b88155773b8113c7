//! The rows of an application: what it does with the streams of an end, with a connection or without one.
use crate::answers::{
    find, put_either, put_event, put_form, put_maybe, put_named, put_ok, put_signed, put_text,
};
use crate::calls::StreamCalls;
use crate::settings::{dir_of, stream_of, varint_of};
use bytes::Bytes;
use qh_base::{StreamId, VarInt};
use qh_buffers::Chunk;
use qh_core::{Event, TakeFault};
use qh_streams::{ClosedStream, FinishFault, ReadFault, ReadableFault, WriteFault, Written};
use row_text::{RowFault, Words};
use std::alloc::Global;

// So many pieces are read at most, and so many events taken, by one row.
const MANY: u32 = 1_000_000;

// The word of a row of an application's.
#[derive(Clone, Copy)]
enum Call {
    Open,
    OpenMany,
    Accept,
    AcceptMany,
    Event,
    Events,
    CountEvents,
    Write,
    WriteMany,
    Chunks,
    Finish,
    Reset,
    Prefer,
    Stopped,
    Priority,
    TakeReset,
    Read,
    ReadAny,
    ReadAll,
    Stop,
    SetStreams,
    SetSend,
    SetReceive,
}

const CALLS: [(&str, Call); 23] = [
    ("open", Call::Open),
    ("open-many", Call::OpenMany),
    ("accept", Call::Accept),
    ("accept-many", Call::AcceptMany),
    ("event", Call::Event),
    ("events", Call::Events),
    ("count-events", Call::CountEvents),
    ("write", Call::Write),
    ("write-many", Call::WriteMany),
    ("chunks", Call::Chunks),
    ("finish", Call::Finish),
    ("reset", Call::Reset),
    ("prefer", Call::Prefer),
    ("stopped", Call::Stopped),
    ("priority", Call::Priority),
    ("take-reset", Call::TakeReset),
    ("read", Call::Read),
    ("read-any", Call::ReadAny),
    ("read-all", Call::ReadAll),
    ("stop", Call::Stop),
    ("set-streams", Call::SetStreams),
    ("set-send", Call::SetSend),
    ("set-receive", Call::SetReceive),
];

/// Answers a row of an application's, if it is one. Whether it is.
pub(crate) fn answer<E: StreamCalls>(
    alloc: Global,
    end: &mut E,
    word: &str,
    words: &mut Words<'_>,
    out: &mut Vec<u8>,
) -> Result<bool, RowFault> {
    match find(&CALLS, word) {
        Some(call) => answer_call(alloc, end, call, words, out)?,
        None => return Ok(false),
    }
    Ok(true)
}

fn answer_call<E: StreamCalls>(
    alloc: Global,
    end: &mut E,
    call: Call,
    words: &mut Words<'_>,
    out: &mut Vec<u8>,
) -> Result<(), RowFault> {
    match call {
        Call::Open => open(alloc, end, words, out),
        Call::OpenMany => open_many(alloc, end, words, out),
        Call::Accept => accept(end, words, out),
        Call::AcceptMany => accept_many(end, words, out),
        Call::Event => put_event(out, &end.poll()),
        Call::Events => put_events(alloc, end, out),
        Call::CountEvents => put_count(end, out),
        Call::Write => write(alloc, end, words, out),
        Call::WriteMany => write_many(alloc, end, words, out),
        Call::Chunks => write_chunks(alloc, end, words, out),
        Call::Finish => finish(end, words, out),
        Call::Reset => reset(end, words, out),
        Call::Prefer => prefer(end, words, out),
        _ => answer_other(alloc, end, call, words, out),
    }
}

// The rows that ask for something of a stream, read it, or set limits.
fn answer_other<E: StreamCalls>(
    alloc: Global,
    end: &mut E,
    call: Call,
    words: &mut Words<'_>,
    out: &mut Vec<u8>,
) -> Result<(), RowFault> {
    match call {
        Call::Stopped => put_whether_stopped(out, end.stopped(stream_of(words)?)),
        Call::Priority => put_priority(out, end.priority(stream_of(words)?)),
        Call::TakeReset => put_whether_reset(out, end.received_reset(stream_of(words)?)),
        Call::Read => read(end, words, out, true),
        Call::ReadAny => read(end, words, out, false),
        Call::ReadAll => read_all(alloc, end, words, out),
        Call::Stop => stop(end, words, out),
        Call::SetStreams => set_streams(end, words, out),
        Call::SetSend => set_send(end, words, out),
        _ => set_receive(end, words, out),
    }
}

fn open<E: StreamCalls>(
    alloc: Global,
    end: &mut E,
    words: &mut Words<'_>,
    out: &mut Vec<u8>,
) -> Result<(), RowFault> {
    let id = end.open(alloc, dir_of(words)?)?;
    put_stream(out, id)
}

fn accept<E: StreamCalls>(
    end: &mut E,
    words: &mut Words<'_>,
    out: &mut Vec<u8>,
) -> Result<(), RowFault> {
    let id = end.accept(dir_of(words)?);
    put_stream(out, id)
}

/// Appends a stream, `none` where there is none.
pub(crate) fn put_stream(out: &mut Vec<u8>, id: Option<StreamId>) -> Result<(), RowFault> {
    match id {
        Some(id) => put_form(out, "stream #", &[id.0]),
        None => put_text(out, "none"),
    }
}

// Opens streams, at most so many, as long as the peer permits it.
fn open_many<E: StreamCalls>(
    alloc: Global,
    end: &mut E,
    words: &mut Words<'_>,
    out: &mut Vec<u8>,
) -> Result<(), RowFault> {
    let Ok(dir) = dir_of(words) else {
        return Err(RowFault::Form);
    };
    let Ok(count) = words.number() else {
        return Err(RowFault::Form);
    };
    let mut opened = 0u64;
    let mut last = None;
    for _ in 0..count {
        let Some(id) = end.open(alloc, dir)? else {
            break;
        };
        opened = opened.saturating_add(1);
        last = Some(id);
    }
    put_many(out, opened, last)
}

// Accepts streams, at most so many, as long as one is new.
fn accept_many<E: StreamCalls>(
    end: &mut E,
    words: &mut Words<'_>,
    out: &mut Vec<u8>,
) -> Result<(), RowFault> {
    let Ok(dir) = dir_of(words) else {
        return Err(RowFault::Form);
    };
    let Ok(count) = words.number() else {
        return Err(RowFault::Form);
    };
    let mut accepted = 0u64;
    let mut last = None;
    for _ in 0..count {
        let Some(id) = end.accept(dir) else {
            break;
        };
        accepted = accepted.saturating_add(1);
        last = Some(id);
    }
    put_many(out, accepted, last)
}

// Appends how many streams there were, and the last of them.
fn put_many(out: &mut Vec<u8>, count: u64, last: Option<StreamId>) -> Result<(), RowFault> {
    put_form(out, "# streams, the last ", &[count])?;
    put_maybe(out, last.map(|id| id.0))
}

// Takes all that happened, and appends how many events that are.
fn put_count<E: StreamCalls>(end: &mut E, out: &mut Vec<u8>) -> Result<(), RowFault> {
    let mut count = 0u64;
    for _ in 0..MANY {
        if end.poll().is_none() {
            break;
        }
        count = count.saturating_add(1);
    }
    put_form(out, "# events", &[count])
}

// Appends how many events there were, and each.
fn put_events<E: StreamCalls>(
    alloc: Global,
    end: &mut E,
    out: &mut Vec<u8>,
) -> Result<(), RowFault> {
    let mut list = Vec::new(alloc);
    let count = list_events(end, &mut list)?;
    put_listed(out, count, &list)
}

fn put_listed(out: &mut Vec<u8>, count: u64, list: &[u8]) -> Result<(), RowFault> {
    put_form(out, "#", &[count])?;
    out.extend_from_slice(list)?;
    Ok(())
}

// Appends each event behind a sign. Answers how many there were.
fn list_events<E: StreamCalls>(end: &mut E, list: &mut Vec<u8>) -> Result<u64, RowFault> {
    let mut count = 0u64;
    for _ in 0..MANY {
        if !list_event(list, count, &end.poll())? {
            break;
        }
        count = count.saturating_add(1);
    }
    Ok(count)
}

// Appends an event behind a sign, if there is one. Whether there is.
fn list_event(list: &mut Vec<u8>, place: u64, event: &Option<Event>) -> Result<bool, RowFault> {
    if event.is_none() {
        return Ok(false);
    }
    put_either(list, place == 0, ": ", ", ")?;
    put_event(list, event)?;
    Ok(true)
}

fn write<E: StreamCalls>(
    alloc: Global,
    end: &mut E,
    words: &mut Words<'_>,
    out: &mut Vec<u8>,
) -> Result<(), RowFault> {
    let Ok(id) = stream_of(words) else {
        return Err(RowFault::Form);
    };
    let payload = words.bytes(alloc)?;
    put_write(out, end.write(alloc, id, &payload))
}

fn finish<E: StreamCalls>(
    end: &mut E,
    words: &mut Words<'_>,
    out: &mut Vec<u8>,
) -> Result<(), RowFault> {
    let finished = end.finish(stream_of(words)?);
    put_finish(out, finished)
}

fn reset<E: StreamCalls>(
    end: &mut E,
    words: &mut Words<'_>,
    out: &mut Vec<u8>,
) -> Result<(), RowFault> {
    let Ok(id) = stream_of(words) else {
        return Err(RowFault::Form);
    };
    let Ok(code) = varint_of(words) else {
        return Err(RowFault::Form);
    };
    put_done(out, end.reset(id, code))
}

fn prefer<E: StreamCalls>(
    end: &mut E,
    words: &mut Words<'_>,
    out: &mut Vec<u8>,
) -> Result<(), RowFault> {
    let Ok(id) = stream_of(words) else {
        return Err(RowFault::Form);
    };
    let Ok(priority) = words.next().parse::<i32>() else {
        return Err(RowFault::Form);
    };
    put_done(out, end.set_priority(id, priority))
}

/// Appends how many bytes were taken, or why none was.
pub(crate) fn put_write(
    out: &mut Vec<u8>,
    written: Result<usize, WriteFault>,
) -> Result<(), RowFault> {
    match written {
        Ok(count) => put_form(out, "taken #", &[count as u64]),
        Err(fault) => put_write_fault(out, fault),
    }
}

fn put_write_fault(out: &mut Vec<u8>, fault: WriteFault) -> Result<(), RowFault> {
    match fault {
        WriteFault::Blocked => put_text(out, "blocked"),
        WriteFault::Stopped(code) => put_code(out, "stopped", code),
        WriteFault::ClosedStream => put_closed(out),
        WriteFault::Memory => Err(RowFault::Memory),
    }
}

// Writes the same bytes on so many streams, from one on, and tells how many bytes were taken in all.
fn write_many<E: StreamCalls>(
    alloc: Global,
    end: &mut E,
    words: &mut Words<'_>,
    out: &mut Vec<u8>,
) -> Result<(), RowFault> {
    let Ok(first) = words.number() else {
        return Err(RowFault::Form);
    };
    let Ok(count) = words.number() else {
        return Err(RowFault::Form);
    };
    let payload = words.bytes(alloc)?;
    let taken = write_on_each(alloc, end, first, count, &payload);
    put_write(out, taken)
}

fn write_on_each<E: StreamCalls>(
    alloc: Global,
    end: &mut E,
    first: u64,
    count: u64,
    payload: &[u8],
) -> Result<usize, WriteFault> {
    let mut taken = 0usize;
    for index in 0..count {
        let id = StreamId(first.saturating_add(index.saturating_mul(4)));
        taken = taken.saturating_add(end.write(alloc, id, payload)?);
    }
    Ok(taken)
}

// Writes the chunks of a row, and tells what is left in each.
fn write_chunks<E: StreamCalls>(
    alloc: Global,
    end: &mut E,
    words: &mut Words<'_>,
    out: &mut Vec<u8>,
) -> Result<(), RowFault> {
    let Ok(id) = stream_of(words) else {
        return Err(RowFault::Form);
    };
    let mut chunks = Vec::new(alloc);
    push_chunks(alloc, words, &mut chunks)?;
    let written = end.write_chunks(alloc, id, &mut chunks);
    put_written(out, written, &chunks)
}

// Appends each of the words that are left as a chunk.
fn push_chunks(
    alloc: Global,
    words: &mut Words<'_>,
    chunks: &mut Vec<Bytes>,
) -> Result<(), RowFault> {
    for _ in 0..MANY {
        if words.is_at_end() {
            break;
        }
        chunks.push(chunk_of(alloc, words)?)?;
    }
    Ok(())
}

fn chunk_of(alloc: Global, words: &mut Words<'_>) -> Result<Bytes, RowFault> {
    let payload = words.bytes(alloc)?;
    Ok(Bytes::copy_from_slice(alloc, &payload)?)
}

fn put_written(
    out: &mut Vec<u8>,
    written: Result<Written, WriteFault>,
    chunks: &[Bytes],
) -> Result<(), RowFault> {
    match written {
        Ok(written) => put_left(out, written, chunks),
        Err(fault) => put_write_fault(out, fault),
    }
}

fn put_left(out: &mut Vec<u8>, written: Written, chunks: &[Bytes]) -> Result<(), RowFault> {
    let numbers = [written.bytes as u64, written.chunks as u64];
    put_form(out, "taken # chunks # left", &numbers)?;
    for chunk in chunks {
        put_named(out, " ", chunk.as_slice())?;
    }
    Ok(())
}

/// Appends `ok`, or why a stream wasn't finished.
pub(crate) fn put_finish(
    out: &mut Vec<u8>,
    finished: Result<(), FinishFault>,
) -> Result<(), RowFault> {
    match finished {
        Ok(()) => put_ok(out),
        Err(fault) => put_finish_fault(out, fault),
    }
}

fn put_finish_fault(out: &mut Vec<u8>, fault: FinishFault) -> Result<(), RowFault> {
    match fault {
        FinishFault::Stopped(code) => put_code(out, "stopped", code),
        FinishFault::ClosedStream => put_closed(out),
    }
}

/// Appends `ok`, or that the stream is closed.
pub(crate) fn put_done(out: &mut Vec<u8>, done: Result<(), ClosedStream>) -> Result<(), RowFault> {
    match done {
        Ok(()) => put_ok(out),
        Err(ClosedStream) => put_closed(out),
    }
}

fn put_closed(out: &mut Vec<u8>) -> Result<(), RowFault> {
    put_text(out, "closed stream")
}

fn put_code(out: &mut Vec<u8>, word: &str, code: VarInt) -> Result<(), RowFault> {
    put_text(out, word)?;
    put_form(out, " #", &[code.into_inner()])
}

fn put_whether_stopped(
    out: &mut Vec<u8>,
    stopped: Result<Option<VarInt>, ClosedStream>,
) -> Result<(), RowFault> {
    match stopped {
        Ok(Some(code)) => put_code(out, "stopped", code),
        Ok(None) => put_text(out, "none"),
        Err(ClosedStream) => put_closed(out),
    }
}

fn put_priority(out: &mut Vec<u8>, priority: Result<i32, ClosedStream>) -> Result<(), RowFault> {
    match priority {
        Ok(priority) => put_priority_of(out, priority),
        Err(ClosedStream) => put_closed(out),
    }
}

fn put_priority_of(out: &mut Vec<u8>, priority: i32) -> Result<(), RowFault> {
    put_text(out, "priority ")?;
    put_signed(out, priority)
}

fn put_whether_reset(
    out: &mut Vec<u8>,
    reset: Result<Option<VarInt>, ClosedStream>,
) -> Result<(), RowFault> {
    match reset {
        Ok(Some(code)) => put_code(out, "reset", code),
        Ok(None) => put_text(out, "none"),
        Err(ClosedStream) => put_closed(out),
    }
}

fn stop<E: StreamCalls>(
    end: &mut E,
    words: &mut Words<'_>,
    out: &mut Vec<u8>,
) -> Result<(), RowFault> {
    let Ok(id) = stream_of(words) else {
        return Err(RowFault::Form);
    };
    let Ok(code) = varint_of(words) else {
        return Err(RowFault::Form);
    };
    put_done(out, end.stop(id, code))
}

fn read<E: StreamCalls>(
    end: &mut E,
    words: &mut Words<'_>,
    out: &mut Vec<u8>,
    ordered: bool,
) -> Result<(), RowFault> {
    let Ok(id) = stream_of(words) else {
        return Err(RowFault::Form);
    };
    let max_length = words.number()? as usize;
    put_read(out, &end.read(id, max_length, ordered))
}

/// Appends what a read gave.
pub(crate) fn put_read(
    out: &mut Vec<u8>,
    given: &Result<Option<Chunk>, TakeFault>,
) -> Result<(), RowFault> {
    match given {
        Ok(Some(chunk)) => put_bytes_read(out, chunk.offset, chunk.bytes.as_slice()),
        Ok(None) => put_text(out, "end"),
        Err(TakeFault::Read(fault)) => put_read_fault(out, *fault),
        Err(TakeFault::Readable(fault)) => put_readable_fault(out, *fault),
    }
}

fn put_bytes_read(out: &mut Vec<u8>, offset: u64, bytes: &[u8]) -> Result<(), RowFault> {
    put_form(out, "bytes # ", &[offset])?;
    put_named(out, "", bytes)
}

fn put_read_fault(out: &mut Vec<u8>, fault: ReadFault) -> Result<(), RowFault> {
    match fault {
        ReadFault::Blocked => put_text(out, "blocked"),
        ReadFault::Reset(code) => put_code(out, "reset", code),
        ReadFault::Memory => Err(RowFault::Memory),
    }
}

/// Appends why a stream isn't read.
pub(crate) fn put_readable_fault(out: &mut Vec<u8>, fault: ReadableFault) -> Result<(), RowFault> {
    match fault {
        ReadableFault::ClosedStream => put_closed(out),
        ReadableFault::IllegalOrderedRead => put_text(out, "ordered read after an unordered one"),
    }
}

// Reads a stream in order for as long as it gives bytes, and tells in how many reads it gave which, and the next answer.
fn read_all<E: StreamCalls>(
    alloc: Global,
    end: &mut E,
    words: &mut Words<'_>,
    out: &mut Vec<u8>,
) -> Result<(), RowFault> {
    let Ok(id) = stream_of(words) else {
        return Err(RowFault::Form);
    };
    let mut bytes = Vec::new(alloc);
    put_gathered(alloc, end, id, &mut bytes, out)
}

fn put_gathered<E: StreamCalls>(
    alloc: Global,
    end: &mut E,
    id: StreamId,
    bytes: &mut Vec<u8>,
    out: &mut Vec<u8>,
) -> Result<(), RowFault> {
    let mut last = Vec::new(alloc);
    let reads = gather(end, id, bytes, &mut last)?;
    put_all(out, reads, bytes, &last)
}

// Appends what a stream gives in order, and to another list the first answer that is no bytes. Answers in how many reads.
fn gather<E: StreamCalls>(
    end: &mut E,
    id: StreamId,
    bytes: &mut Vec<u8>,
    last: &mut Vec<u8>,
) -> Result<u64, RowFault> {
    let mut reads = 0u64;
    for _ in 0..MANY {
        if !gather_next(end, id, bytes, last)? {
            return Ok(reads);
        }
        reads = reads.saturating_add(1);
    }
    Err(RowFault::Form)
}

// Reads once. Whether that gives bytes.
fn gather_next<E: StreamCalls>(
    end: &mut E,
    id: StreamId,
    bytes: &mut Vec<u8>,
    last: &mut Vec<u8>,
) -> Result<bool, RowFault> {
    let given = end.read(id, usize::MAX, true);
    take_given(&given, bytes, last)
}

fn take_given(
    given: &Result<Option<Chunk>, TakeFault>,
    bytes: &mut Vec<u8>,
    last: &mut Vec<u8>,
) -> Result<bool, RowFault> {
    let Ok(Some(chunk)) = given else {
        put_read(last, given)?;
        return Ok(false);
    };
    bytes.extend_from_slice(chunk.bytes.as_slice())?;
    Ok(true)
}

fn put_all(out: &mut Vec<u8>, reads: u64, bytes: &[u8], last: &[u8]) -> Result<(), RowFault> {
    put_form(out, "# reads # bytes ", &[reads, bytes.len() as u64])?;
    put_named(out, "", bytes)?;
    put_text(out, " then ")?;
    out.extend_from_slice(last)?;
    Ok(())
}

fn set_streams<E: StreamCalls>(
    end: &mut E,
    words: &mut Words<'_>,
    out: &mut Vec<u8>,
) -> Result<(), RowFault> {
    let Ok(dir) = dir_of(words) else {
        return Err(RowFault::Form);
    };
    let Ok(count) = varint_of(words) else {
        return Err(RowFault::Form);
    };
    end.set_max_concurrent(dir, count);
    put_ok(out)
}

fn set_send<E: StreamCalls>(
    end: &mut E,
    words: &mut Words<'_>,
    out: &mut Vec<u8>,
) -> Result<(), RowFault> {
    end.set_send_window(words.number()?);
    put_ok(out)
}

fn set_receive<E: StreamCalls>(
    end: &mut E,
    words: &mut Words<'_>,
    out: &mut Vec<u8>,
) -> Result<(), RowFault> {
    end.set_receive_window(varint_of(words)?);
    put_ok(out)
}
