//! Rows of one connection: how far it is, and how its application uses streams and datagrams. All others change it.
use crate::items::put_items;
use crate::link::Link;
use crate::link_changes::make_change;
use crate::row::{DIRS, MILLISECOND, Row, find};
use bytes::Bytes;
use qh_base::{Memory, Moment, StreamId};
use qh_conn::{Chunk, DatagramFault, FinishFault, TakeFault, WriteFault};
use qh_streams::ReadFault;
use row_text::RowFault;

// The word of a row that asks how far a connection is.
#[derive(Clone, Copy)]
enum Question {
    State,
    Stats,
    Rtt,
    Due,
    Max,
    Space,
}

const QUESTIONS: [(&str, Question); 6] = [
    ("state", Question::State),
    ("stats", Question::Stats),
    ("rtt", Question::Rtt),
    ("due", Question::Due),
    ("max", Question::Max),
    ("space", Question::Space),
];

// The word of a row by which streams, datagrams and tokens are used.
#[derive(Clone, Copy)]
enum Call {
    Open,
    Accept,
    Write,
    Finish,
    Read,
    Datagram,
    DatagramOld,
    Recv,
    TakeToken,
    Items,
}

const CALLS: [(&str, Call); 10] = [
    ("open", Call::Open),
    ("accept", Call::Accept),
    ("write", Call::Write),
    ("finish", Call::Finish),
    ("read", Call::Read),
    ("datagram", Call::Datagram),
    ("datagram-old", Call::DatagramOld),
    ("recv", Call::Recv),
    ("take-token", Call::TakeToken),
    ("items", Call::Items),
];

/// Answers a row of a connection.
pub(crate) fn answer(now: Moment, link: &mut Link, word: &str, row: &mut Row<'_>) {
    if let Some(question) = find(&QUESTIONS, word) {
        return tell(link, question, row);
    }
    match find(&CALLS, word) {
        Some(call) => make_call(link, call, row),
        None => make_change(now, link, word, row),
    }
}

// Tells how far a connection is.
fn tell(link: &Link, question: Question, row: &mut Row<'_>) {
    let connection = &link.connection;
    match question {
        Question::State => {
            row.put(handshake_name(connection.is_handshaking()));
            row.put(greeting_name(connection.is_greeted()));
            row.put(end_name(connection.is_closed(), connection.is_drained()));
        }
        Question::Stats => {
            let stats = connection.stats();
            row.put_counts("sent ", stats.datagrams_sent, stats.bytes_sent);
            row.put_counts(" received ", stats.datagrams_received, stats.bytes_received);
            row.put_count(" lost ", stats.packets_lost);
            row.put_count(" probes ", stats.probes);
        }
        Question::Rtt => {
            row.put_count("", connection.rtt().0 / MILLISECOND);
            row.put_count(" least ", connection.min_rtt().0 / MILLISECOND);
        }
        Question::Due => match connection.poll_timeout() {
            Some(moment) => row.put_count("", moment.0 / MILLISECOND),
            None => row.put("never"),
        },
        Question::Max => match connection.max_datagram_size() {
            Some(size) => row.put_count("", size as u64),
            None => row.put("none"),
        },
        Question::Space => {
            row.put_count("", connection.datagram_send_buffer_space() as u64);
        }
    }
}

fn handshake_name(is_handshaking: bool) -> &'static str {
    if is_handshaking {
        "handshaking"
    } else {
        "connected"
    }
}

fn greeting_name(is_greeted: bool) -> &'static str {
    if is_greeted { " greeted" } else { " ungreeted" }
}

fn end_name(is_closed: bool, is_drained: bool) -> &'static str {
    match (is_closed, is_drained) {
        (false, _) => " open",
        (true, false) => " closed",
        (true, true) => " drained",
    }
}

// Uses a stream, a datagram or a token.
fn make_call(link: &mut Link, call: Call, row: &mut Row<'_>) {
    match call {
        Call::Open => {
            if let Some(dir) = row.find(&DIRS) {
                put_stream(link.open(dir, row), row);
            }
        }
        Call::Accept => {
            if let Some(dir) = row.find(&DIRS) {
                put_stream(link.accept(dir), row);
            }
        }
        Call::Write => {
            let id = StreamId(row.number());
            put_written(link.write(id, &row.bytes()), row);
        }
        Call::Finish => put_finished(link.finish(StreamId(row.number())), row),
        Call::Read => put_read(link.read(StreamId(row.number())), row),
        Call::Datagram => put_queued(link.connection.send_datagram(row.payload(), false), row),
        Call::DatagramOld => put_queued(link.connection.send_datagram(row.payload(), true), row),
        Call::Recv => put_taken(link.connection.recv_datagram(), row),
        Call::TakeToken => put_taken(link.connection.take_token(), row),
        Call::Items => match link.connection.take_items() {
            Ok(items) => put_items(&items, row),
            Err(Memory) => row.fail(RowFault::Memory),
        },
    }
}

fn put_stream(id: Option<StreamId>, row: &mut Row<'_>) {
    match id {
        Some(id) => row.put_count("stream ", id.0),
        None => row.put("none"),
    }
}

fn put_written(written: Result<usize, WriteFault>, row: &mut Row<'_>) {
    match written {
        Ok(count) => row.put_count("taken ", count as u64),
        Err(WriteFault::Blocked) => row.put("blocked"),
        Err(WriteFault::Stopped(_)) => row.put("stopped"),
        Err(WriteFault::ClosedStream) => row.put("closed"),
        Err(WriteFault::Memory) => row.fail(RowFault::Memory),
    }
}

fn put_finished(finished: Result<(), FinishFault>, row: &mut Row<'_>) {
    match finished {
        Ok(()) => row.put("ok"),
        Err(FinishFault::Stopped(_)) => row.put("stopped"),
        Err(FinishFault::ClosedStream) => row.put("closed"),
    }
}

fn put_read(read: Result<Option<Chunk>, TakeFault>, row: &mut Row<'_>) {
    match read {
        Ok(Some(chunk)) => row.put_part("", &chunk.bytes),
        Ok(None) => row.put("end"),
        Err(TakeFault::Readable(_)) => row.put("closed"),
        Err(TakeFault::Read(ReadFault::Memory)) => row.fail(RowFault::Memory),
        Err(TakeFault::Read(ReadFault::Blocked)) => row.put("blocked"),
        Err(TakeFault::Read(ReadFault::Reset(_))) => row.put("reset"),
    }
}

fn put_queued(queued: Result<(), DatagramFault>, row: &mut Row<'_>) {
    match queued {
        Ok(()) => row.put("ok"),
        Err(DatagramFault::Disabled) => row.put("disabled"),
        Err(DatagramFault::UnsupportedByPeer) => row.put("unsupported"),
        Err(DatagramFault::TooLarge) => row.put("too-large"),
        Err(DatagramFault::Blocked(payload)) => row.put_part("blocked ", &payload),
        Err(DatagramFault::Memory) => row.fail(RowFault::Memory),
    }
}

// Puts a datagram or a token that was taken, if there was one.
fn put_taken(taken: Option<Bytes>, row: &mut Row<'_>) {
    match taken {
        Some(bytes) => row.put_part("", &bytes),
        None => row.put("none"),
    }
}
