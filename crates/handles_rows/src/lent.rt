//! Calls that wait over buffers that a row lends them.
use crate::end::End;
use crate::row::Row;
use crate::state::Rows;
use crate::tasks::{Task, leave};
use crate::tell::{put_read_error, put_write_error};
use crate::waits::waits;
use futures::task::{Context, Poll};
use qh_handles::{
    Read, ReadChunks, ReadError, ReadExact, ReadExactError, Write, WriteAll, WriteAllChunks,
    WriteChunks, WriteError,
};

/// The word of such a call.
#[derive(Clone, Copy)]
pub(crate) enum LentWord {
    Write,
    WriteAll,
    WriteChunk,
    WriteChunks,
    WriteAllChunks,
    Read,
    ReadExact,
    ReadChunks,
}

pub(crate) const LENTS: [(&str, LentWord); 8] = [
    ("write", LentWord::Write),
    ("write-all", LentWord::WriteAll),
    ("write-chunk", LentWord::WriteChunk),
    ("write-chunks", LentWord::WriteChunks),
    ("write-all-chunks", LentWord::WriteAllChunks),
    ("read", LentWord::Read),
    ("read-exact", LentWord::ReadExact),
    ("read-chunks", LentWord::ReadChunks),
];

/// A call.
#[derive(Drop)]
pub(crate) enum Lent<'a> {
    Write(Write<'a>),
    WriteAll(WriteAll<'a>),
    WriteChunks(WriteChunks<'a>),
    WriteAllChunks(WriteAllChunks<'a>),
    Read(Read<'a>),
    ReadExact(ReadExact<'a>),
    ReadChunks(ReadChunks<'a>),
}

impl Lent<'_> {
    /// Polls it, and puts its answer. Whether it waits.
    pub(crate) fn poll<A: Rows>(
        &mut self,
        end: &mut End<A>,
        cx: &mut Context<'_>,
        row: &mut Row<'_>,
    ) -> bool {
        let at = &mut end.state;
        match self {
            Lent::Write(call) => put_taken(call.poll(at, row.alloc, cx), row),
            Lent::WriteAll(call) => put_written(call.poll(at, row.alloc, cx), row),
            Lent::WriteChunks(call) => poll_write_chunks(call, at, cx, row),
            Lent::WriteAllChunks(call) => put_written(call.poll(at, cx), row),
            Lent::Read(call) => put_got(call.poll(at, cx), row),
            Lent::ReadExact(call) => poll_read_exact(call, at, cx, row),
            Lent::ReadChunks(call) => poll_read_chunks(call, at, cx, row),
        }
    }
}

// Puts how many bytes were taken. Whether it waits.
fn put_taken(polled: Poll<Result<usize, WriteError>>, row: &mut Row<'_>) -> bool {
    match polled {
        Poll::Pending => return waits(row),
        Poll::Ready(Ok(count)) => row.put_count("taken ", count as u64),
        Poll::Ready(Err(error)) => put_write_error(&error, row),
    }
    false
}

// Puts `ok` once all is written. Whether it waits.
fn put_written(polled: Poll<Result<(), WriteError>>, row: &mut Row<'_>) -> bool {
    match polled {
        Poll::Pending => return waits(row),
        Poll::Ready(Ok(())) => row.put("ok"),
        Poll::Ready(Err(error)) => put_write_error(&error, row),
    }
    false
}

fn poll_write_chunks<A: Rows>(
    call: &mut WriteChunks<'_>,
    at: &mut A,
    cx: &mut Context<'_>,
    row: &mut Row<'_>,
) -> bool {
    match call.poll(at, cx) {
        Poll::Pending => return waits(row),
        Poll::Ready(Ok(written)) => {
            row.put_counts("taken ", written.bytes as u64, written.chunks as u64);
        }
        Poll::Ready(Err(error)) => put_write_error(&error, row),
    }
    false
}

// Puts how many were read. Whether it waits.
fn put_got(polled: Poll<Result<Option<usize>, ReadError>>, row: &mut Row<'_>) -> bool {
    match polled {
        Poll::Pending => return waits(row),
        Poll::Ready(Ok(Some(count))) => row.put_count("got ", count as u64),
        Poll::Ready(Ok(None)) => row.put("end"),
        Poll::Ready(Err(error)) => put_read_error(&error, row),
    }
    false
}

fn poll_read_exact<A: Rows>(
    call: &mut ReadExact<'_>,
    at: &mut A,
    cx: &mut Context<'_>,
    row: &mut Row<'_>,
) -> bool {
    match call.poll(at, cx) {
        Poll::Pending => return waits(row),
        Poll::Ready(Ok(())) => row.put("ok"),
        Poll::Ready(Err(ReadExactError::FinishedEarly(count))) => {
            row.put_count("early ", count as u64);
        }
        Poll::Ready(Err(ReadExactError::ReadError(error))) => put_read_error(&error, row),
    }
    false
}

fn poll_read_chunks<A: Rows>(
    call: &mut ReadChunks<'_>,
    at: &mut A,
    cx: &mut Context<'_>,
    row: &mut Row<'_>,
) -> bool {
    let waits = put_got(call.poll(at, cx), row);
    row.put_count(" count ", call.count() as u64);
    waits
}

/// STREAM BYTES: writes to a stream by its handle itself.
pub(crate) fn poll_write<A: Rows>(end: &mut End<A>, task: &mut Task, row: &mut Row<'_>) {
    let state = &mut end.state;
    let Some(stream) = end.hands.send(row) else {
        return;
    };
    let bytes = row.bytes();
    let mut cx = task.solo.begin();
    let polled = stream.poll_write(state, row.alloc, &bytes, &mut cx);
    leave(cx, &task.source, &mut task.slot);
    put_taken(polled, row);
}

/// STREAM SIZE: reads of a stream by its handle itself.
pub(crate) fn poll_read<A: Rows>(end: &mut End<A>, task: &mut Task, row: &mut Row<'_>) {
    let state = &mut end.state;
    let Some(stream) = end.hands.recv(row) else {
        return;
    };
    let mut buffer = row.buffer();
    let mut cx = task.solo.begin();
    let polled = stream.poll_read(state, &mut buffer, &mut cx);
    leave(cx, &task.source, &mut task.slot);
    match polled {
        Poll::Pending => row.put("pending"),
        Poll::Ready(Ok(count)) => {
            row.put_count("got ", count as u64);
            row.put_part(" ", buffer.get(..count).unwrap_or(&[]));
        }
        Poll::Ready(Err(error)) => put_read_error(&error, row),
    }
}
