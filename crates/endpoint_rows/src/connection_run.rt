//! Carries datagrams between both connections, as a link does that may lose, duplicate or delay one of them.
use crate::connection_request::Request;
use crate::pair::Pair;
use crate::row::{MILLISECOND, Row};
use bytes::Bytes;
use qh_base::{Side, Span};
use std::mem;

// A run ends after this many rounds in which nothing was sent.
const QUIET: u32 = 50;

// The most rounds of a run, and the most datagrams that an end sends in one.
const MANY: u32 = 10_000;

// A datagram that is delayed comes this many rounds later.
const LATE: u32 = 3;

// What happens to a datagram.
#[derive(Clone, Copy)]
enum Fate {
    Delivered,
    Lost,
    Duplicated,
    Delayed,
}

const FATES: [(&str, Fate); 4] = [
    ("", Fate::Delivered),
    ("lose", Fate::Lost),
    ("twice", Fate::Duplicated),
    ("late", Fate::Delayed),
];

// How long a round is, and what happens to the datagram with this number; all others are delivered.
#[derive(Clone, Copy)]
struct Course {
    step: Span,
    fate: Fate,
    number: u64,
}

// Reads STEP [lose|twice|late NUMBER].
fn read_course(row: &mut Row<'_>) -> Course {
    let step = Span(row.number().saturating_mul(MILLISECOND));
    let fate = row.find(&FATES).unwrap_or(Fate::Delivered);
    let number = match fate {
        Fate::Delivered => 0,
        _ => row.number(),
    };
    Course { step, fate, number }
}

// A datagram that is delayed until a round.
#[derive(Drop)]
struct Delayed {
    round: u32,
    to: Side,
    payload: Bytes,
}

// What a run has done so far.
#[derive(Drop)]
struct Run {
    course: Course,
    round: u32,
    by_client: u64,
    by_server: u64,
    delayed: Option<Delayed>,
    request: Option<Request>,
}

/// STEP [FATE NUMBER]: carries datagrams between both ends until nothing is sent, with a request and its answer on a stream, or without. Tells how
/// many each end sent, and how far both are.
pub(crate) fn put_run(pair: &mut Pair, is_exchange: bool, row: &mut Row<'_>) {
    let mut run = Run {
        course: read_course(row),
        round: 0,
        by_client: 0,
        by_server: 0,
        delayed: None,
        request: if is_exchange {
            Some(Request::new(row.alloc))
        } else {
            None
        },
    };
    run.make_rounds(pair, row);
    row.put_count("client sent ", run.by_client);
    put_progress(pair, Side::Client, row);
    row.put_count(", server sent ", run.by_server);
    put_progress(pair, Side::Server, row);
    if let Some(request) = &run.request {
        request.tell(row);
    }
    drop(run);
}

fn put_progress(pair: &mut Pair, side: Side, row: &mut Row<'_>) {
    if let Some(link) = pair.link(side) {
        link.put_progress(row);
    }
}

impl Run {
    // Makes rounds until nothing was sent in the last of them.
    fn make_rounds(&mut self, pair: &mut Pair, row: &mut Row<'_>) {
        let mut quiet = 0u32;
        for _round in 0..MANY {
            let before = self.sent();
            self.turn(pair, row);
            quiet = if self.sent() == before {
                quiet.saturating_add(1)
            } else {
                0
            };
            if quiet == QUIET {
                break;
            }
        }
    }

    // How many datagrams were sent.
    fn sent(&self) -> u64 {
        self.by_client.saturating_add(self.by_server)
    }

    // Makes one round.
    fn turn(&mut self, pair: &mut Pair, row: &mut Row<'_>) {
        if let Some(datagram) = self.take_due() {
            pair.deliver(datagram.to, datagram.payload, row);
        }
        if let Some(request) = &mut self.request
            && let Some(link) = pair.link(Side::Client)
        {
            request.ask(link, row);
        }
        self.send_all(pair, Side::Client, row);
        if let Some(request) = &mut self.request
            && let Some(link) = pair.link(Side::Server)
        {
            request.answer(link, row);
        }
        self.send_all(pair, Side::Server, row);
        self.round = self.round.saturating_add(1);
        let now = pair.now.plus(self.course.step);
        pair.advance(now, row);
    }

    // The datagram that is delayed, if it is due.
    fn take_due(&mut self) -> Option<Delayed> {
        let is_due = match &self.delayed {
            Some(datagram) => datagram.round <= self.round,
            None => false,
        };
        if is_due { self.delayed.take() } else { None }
    }

    // An end sends all that it may.
    fn send_all(&mut self, pair: &mut Pair, from: Side, row: &mut Row<'_>) {
        for _datagram in 0..MANY {
            match pair.transmit(from, 0, row) {
                Some(payload) => self.carry(pair, from, payload, row),
                None => break,
            }
        }
    }

    // Carries a datagram to the other end.
    fn carry(&mut self, pair: &mut Pair, from: Side, payload: Bytes, row: &mut Row<'_>) {
        let to = from.other();
        match self.count(from) {
            Fate::Delivered => pair.deliver(to, payload, row),
            Fate::Lost => {}
            Fate::Duplicated => {
                pair.deliver(to, row.copy(&payload), row);
                pair.deliver(to, payload, row);
            }
            Fate::Delayed => self.delay(to, payload),
        }
    }

    // Counts a datagram. Returns what happens to it.
    fn count(&mut self, from: Side) -> Fate {
        let number = self.sent();
        match from {
            Side::Client => self.by_client = self.by_client.saturating_add(1),
            Side::Server => self.by_server = self.by_server.saturating_add(1),
        }
        if number == self.course.number {
            self.course.fate
        } else {
            Fate::Delivered
        }
    }

    // Keeps a datagram that is delivered later.
    fn delay(&mut self, to: Side, payload: Bytes) {
        let delayed = Delayed {
            round: self.round.saturating_add(LATE),
            to,
            payload,
        };
        drop(mem::replace(&mut self.delayed, Some(delayed)));
    }
}
