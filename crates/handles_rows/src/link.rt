//! The drivers, and the link between both ends.
use crate::end::End;
use crate::row::{MILLISECOND, Row};
use crate::socket::Gate;
use crate::state::{Rows, id_of, session_of};
use crate::stories::{Stories, poll};
use crate::tasks::{Task, driver_of, leave};
use crate::waits::Wait;
use futures::task::Poll;
use qh_base::{Memory, Reason, Side, Space, Span};
use qh_conn::ConnectionEvent;
use qh_packet::{Session, put_header};
use row_text::RowFault;
use std::alloc::Global;

// A run ends behind so many rounds in which nothing was sent.
const QUIET: u32 = 5;

// The most rounds of a run, turns of a driver at once, and datagrams that come at once.
const MANY: u32 = 100_000;

// How long a round takes.
const STEP: Span = Span(20 * MILLISECOND);

/// The word of a row of a driver.
#[derive(Clone, Copy)]
pub(crate) enum DriveWord {
    Turn,
    Hold,
    Carry,
    Lose,
    Hand,
    Hear,
    Rebind,
    CloseEvent,
    Block,
    Fail,
    Poller,
    Made,
    Events,
    Due,
}

pub(crate) const DRIVES: [(&str, DriveWord); 14] = [
    ("turn", DriveWord::Turn),
    ("hold", DriveWord::Hold),
    ("carry", DriveWord::Carry),
    ("lose", DriveWord::Lose),
    ("hand", DriveWord::Hand),
    ("hear", DriveWord::Hear),
    ("rebind", DriveWord::Rebind),
    ("close-event", DriveWord::CloseEvent),
    ("block", DriveWord::Block),
    ("fail", DriveWord::Fail),
    ("poller", DriveWord::Poller),
    ("made", DriveWord::Made),
    ("events", DriveWord::Events),
    ("due", DriveWord::Due),
];

const GATES: [(&str, Gate); 3] = [
    ("open", Gate::Open),
    ("shut", Gate::Shut),
    ("fail", Gate::Failing),
];

/// Answers a row of a driver.
pub(crate) fn drive<A: Rows>(
    stories: &mut Stories<A>,
    side: Side,
    word: DriveWord,
    row: &mut Row<'_>,
) {
    match word {
        DriveWord::Turn => {
            stories.turn(side, row);
        }
        DriveWord::Carry => {
            let most = row.number_or(u64::from(MANY));
            let count = stories.carry(side, most, row);
            row.put_count("", count);
        }
        DriveWord::Lose => {
            let most = row.number_or(u64::from(MANY));
            row.put_count("", lose(stories.end(side), most));
        }
        DriveWord::Hand => {
            row.put("ok");
            let now = stories.now;
            let payload = row.payload();
            stories.end(side).hear(now, payload, row);
        }
        DriveWord::Hear => {
            row.put("ok");
            let now = stories.now;
            let bytes = packet_to(side, row);
            let payload = row.owned(bytes);
            stories.end(side).hear(now, payload, row);
        }
        DriveWord::CloseEvent => {
            row.put("ok");
            let event = ConnectionEvent::Close {
                now: stories.now,
                error_code: row.varint(),
                reason: Reason::of(&row.bytes()),
            };
            stories.end(side).push(event, row);
        }
        other => change(stories.end(side), other, row),
    }
}

// Changes how a driver works, or tells something of it.
fn change<A: Rows>(end: &mut End<A>, word: DriveWord, row: &mut Row<'_>) {
    match word {
        DriveWord::Hold => {
            row.put("ok");
            end.driver.hold(row.number() > 0);
        }
        DriveWord::Rebind => {
            row.put("ok");
            end.push(ConnectionEvent::Rebind, row);
        }
        DriveWord::Block => {
            row.put("ok");
            end.socket.blocks = row.number();
        }
        DriveWord::Fail => {
            row.put("ok");
            end.socket.fails_in = row.number();
        }
        DriveWord::Poller => {
            if let Some(gate) = row.find(&GATES) {
                end.set_poller(gate, row);
            }
        }
        DriveWord::Made => row.put_count("", end.driver.part.made),
        DriveWord::Events => end.put_events(row),
        _ => end.put_due(row),
    }
}

// Drops what an end sent.
fn lose<A: Rows>(end: &mut End<A>, most: u64) -> u64 {
    let mut count = 0u64;
    for _datagram in 0..most {
        if end.socket.take().is_none() {
            break;
        }
        count = count.saturating_add(1);
    }
    count
}

// NUMBER FRAMES: a packet of the other end's, with this number and these frames.
fn packet_to(side: Side, row: &mut Row<'_>) -> Vec<u8> {
    let number = row.number();
    let frames = row.bytes();
    let mut bytes = Vec::new(row.alloc);
    let done = put_packet(side, number, &frames, &mut bytes);
    row.note(done);
    bytes
}

fn put_packet(side: Side, number: u64, frames: &[u8], bytes: &mut Vec<u8>) -> Result<(), Memory> {
    let from = side.other();
    let tag = session_of(from)?.tag(from, Space::Data, number);
    put_header(bytes, &id_of(side), number)?;
    bytes.extend_from_slice(frames)?;
    bytes.extend_from_slice(&tag)?;
    Ok(())
}

impl<A: Rows> Stories<A> {
    // Makes a turn of an end's driver. Whether it waits.
    fn turn(&mut self, side: Side, row: &mut Row<'_>) -> bool {
        let now = self.now;
        match self.parts(side, driver_of(side), row) {
            Some((task, end)) => end.turn(task, now, row),
            None => false,
        }
    }

    // At most so many datagrams that an end sent come to the other one. How many did.
    fn carry(&mut self, from: Side, most: u64, row: &mut Row<'_>) -> u64 {
        let now = self.now;
        let mut count = 0u64;
        for _datagram in 0..most {
            let Some(payload) = self.end(from).socket.take() else {
                break;
            };
            self.end(from.other()).hear(now, payload, row);
            count = count.saturating_add(1);
        }
        count
    }

    // An end makes turns until it has no more to send, and all comes to the other one. How many datagrams did.
    fn send_all(&mut self, from: Side, row: &mut Row<'_>) -> u64 {
        let mut count = 0u64;
        for _turn in 0..MANY {
            self.turn(from, row);
            count = count.saturating_add(self.carry(from, u64::from(MANY), row));
            if !self.end(from).driver.keep_going() {
                break;
            }
        }
        count
    }

    /// A round of the link: each end sends all that it has. How many datagrams they sent.
    pub(crate) fn round(&mut self, alloc: Global) -> u64 {
        let mut told = Row::new(alloc, "");
        let by_client = self.send_all(Side::Client, &mut told);
        let by_server = self.send_all(Side::Server, &mut told);
        self.now = self.now.plus(STEP);
        by_client.saturating_add(by_server)
    }

    /// Rounds until nothing is sent any more.
    pub(crate) fn put_run(&mut self, row: &mut Row<'_>) {
        row.put("ok");
        self.run(row.alloc);
    }

    fn run(&mut self, alloc: Global) {
        let mut quiet = 0u32;
        for _round in 0..MANY {
            quiet = match self.round(alloc) {
                0 => quiet.saturating_add(1),
                _ => 0,
            };
            if quiet == QUIET {
                break;
            }
        }
    }

    /// COUNT BYTES: the client opens so many two-way streams and writes so many bytes to each; the server accepts them all before one is finished. Then all
    /// are finished, and read to their end: how many were opened and accepted, and how many bytes were read.
    pub(crate) fn put_many(&mut self, row: &mut Row<'_>) {
        let count = row.number();
        let size = row.buffer();
        let mut told = Row::new(row.alloc, "");
        self.repeat(Side::Client, count, true, &mut told);
        self.write_to_each(&size, &mut told);
        self.run(row.alloc);
        self.repeat(Side::Server, count, false, &mut told);
        row.put_count("opened ", self.ends.client.hands.sends.len() as u64);
        row.put_count(" accepted ", self.ends.server.hands.sends.len() as u64);
        finish_each(&mut self.ends.client);
        self.run(row.alloc);
        let read = self.read_each(row);
        row.put_count(" read ", read);
    }

    // An end opens so many two-way streams, or accepts them.
    fn repeat(&mut self, side: Side, count: u64, opens: bool, told: &mut Row<'_>) {
        for _stream in 0..count {
            let Some((task, end)) = self.parts(side, 0, told) else {
                return;
            };
            let connection = &end.hands.connection;
            let mut call = if opens {
                Wait::OpenBi(connection.open_bi())
            } else {
                Wait::AcceptBi(connection.accept_bi())
            };
            poll(&mut call, end, task, told);
            drop(call);
        }
    }

    // The client writes these bytes to each of its streams.
    fn write_to_each(&mut self, bytes: &[u8], told: &mut Row<'_>) {
        let Some((task, end)) = self.parts(Side::Client, 0, told) else {
            return;
        };
        for place in 0..end.hands.sends.len() {
            write_at(end, task, place, bytes, told.alloc);
        }
    }

    // The server reads each of its streams to its end. How many bytes it read.
    fn read_each(&mut self, row: &mut Row<'_>) -> u64 {
        let mut read = 0u64;
        let Some((task, end)) = self.parts(Side::Server, 0, row) else {
            return 0;
        };
        for place in 0..end.hands.recvs.len() {
            read = read.saturating_add(read_at(end, task, place, row));
        }
        read
    }
}

// Writes these bytes to the stream at a place.
fn write_at<A: Rows>(end: &mut End<A>, task: &mut Task, place: usize, bytes: &[u8], alloc: Global) {
    let Some(stream) = end.hands.sends.get_mut(place) else {
        return;
    };
    let mut call = stream.write_all(bytes);
    let mut cx = task.solo.begin();
    let _ = call.poll(&mut end.state, alloc, &mut cx);
    leave(cx, &task.source, &mut task.slot);
}

// Reads the stream at a place to its end. How many bytes it read.
fn read_at<A: Rows>(end: &mut End<A>, task: &mut Task, place: usize, row: &mut Row<'_>) -> u64 {
    let Some(stream) = end.hands.recvs.get_mut(place) else {
        return 0;
    };
    let mut call = stream.read_to_end(1 << 20);
    let mut cx = task.solo.begin();
    let polled = call.poll(&mut end.state, row.alloc, &mut cx);
    leave(cx, &task.source, &mut task.slot);
    match polled {
        Poll::Ready(Ok(bytes)) => bytes.len() as u64,
        _ => {
            row.fail(RowFault::Form);
            0
        }
    }
}

// Each stream of an end is finished.
fn finish_each<A: Rows>(end: &mut End<A>) {
    for place in 0..end.hands.sends.len() {
        if let Some(stream) = end.hands.sends.get_mut(place) {
            let _ = stream.finish(&mut end.state);
        }
    }
}
