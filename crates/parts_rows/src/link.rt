//! The link in memory that follows a schedule.
use crate::say::{Line, find, read, shared};
use bytes::Bytes;
use qh_base::Side;
use qh_link::{Event, Link, LinkFault, MAX_DATAGRAM, ScriptLink, Select, Upset, is_valid_upset};
use row_text::{RowFault, Words};
use std::alloc::Global;
use std::mem;

// What is done to a link.
#[derive(Clone, Copy)]
enum Call {
    New,
    Play,
    Round,
    Send,
    Take,
    Lose,
    Twice,
    Late,
    Fail,
    Forge,
}

const CALLS: [(&str, Call, u8); 10] = [
    ("new", Call::New, 1),
    ("play", Call::Play, 0),
    ("round", Call::Round, 0),
    ("send", Call::Send, 0),
    ("take", Call::Take, 0),
    ("lose", Call::Lose, 0),
    ("twice", Call::Twice, 0),
    ("late", Call::Late, 0),
    ("fail", Call::Fail, 1),
    ("forge", Call::Forge, 1),
];

// Which sends are meant.
#[derive(Clone, Copy)]
enum Which {
    All,
    Each,
    One,
}

const SELECTS: [(&str, Which); 3] = [
    ("all", Which::All),
    ("each", Which::Each),
    ("one", Which::One),
];

/// A link.
#[derive(Drop)]
pub(crate) struct Way {
    link: ScriptLink,
}

impl Way {
    /// A link whose rounds last so many milliseconds, at most 10,000.
    pub(crate) fn new(alloc: Global, step: u64) -> Way {
        Way {
            link: ScriptLink::new(alloc, step.min(10_000)),
        }
    }

    /// Answers a row of `link`.
    pub(crate) fn answer(&mut self, alloc: Global, words: &mut Words<'_>, out: &mut Line) {
        let Some(row) = read(&CALLS, words) else {
            return out.refuse();
        };
        match row.call {
            Call::New => self.renew(alloc, row.first, out),
            Call::Play => self.play(alloc, words.rest(), out),
            Call::Round => self.begin(alloc, out),
            Call::Send => self.send(alloc, words, out),
            Call::Take => self.take(alloc, out),
            kind => match upset_of(alloc, kind, row.first, words) {
                Ok(upset) => self.disturb(upset, out),
                Err(fault) => out.fail(fault),
            },
        }
    }

    fn renew(&mut self, alloc: Global, step: u64, out: &mut Line) {
        drop(mem::replace(self, Way::new(alloc, step)));
        out.put("new");
    }

    // An entry of the schedule, where it is in range.
    fn disturb(&mut self, upset: Upset, out: &mut Line) {
        if !is_valid_upset(&upset) {
            return out.put("out of range");
        }
        if !self.link.events().is_empty() {
            return out.refuse();
        }
        out.note(self.link.upset(upset));
        out.put("taken");
    }

    fn begin(&mut self, alloc: Global, out: &mut Line) {
        match self.link.next_round(alloc) {
            Ok(moment) => out.put_form("moment #", &[moment.0]),
            Err(fault) => put_fault(fault, out),
        }
    }

    // The client sends bytes.
    fn send(&mut self, alloc: Global, words: &mut Words<'_>, out: &mut Line) {
        match words.bytes(alloc) {
            Ok(bytes) => self.send_bytes(alloc, &bytes, out),
            Err(fault) => out.fail(fault),
        }
    }

    fn send_bytes(&mut self, alloc: Global, bytes: &[u8], out: &mut Line) {
        match self.link.send(alloc, Side::Client, bytes) {
            Ok(()) => out.put("sent"),
            Err(fault) => put_fault(fault, out),
        }
    }

    // The server takes what is ready for it.
    fn take(&mut self, alloc: Global, out: &mut Line) {
        let mut buf = [0; MAX_DATAGRAM];
        match self.link.take(alloc, Side::Server, &mut buf) {
            Ok(Some(len)) => out.put_number(len as u64),
            Ok(None) => out.put("none"),
            Err(fault) => put_fault(fault, out),
        }
    }

    // Does what each letter says, and appends the events.
    fn play(&mut self, alloc: Global, letters: &str, out: &mut Line) {
        let mut digit = b'0';
        for letter in letters.as_bytes() {
            if *letter == b'c' || *letter == b's' {
                digit = digit.saturating_add(1);
            }
            if let Err(LinkFault::Memory) = self.act(alloc, *letter, digit) {
                return out.lack();
            }
        }
        put_events(self.link.events(), out);
    }

    fn act(&mut self, alloc: Global, letter: u8, digit: u8) -> Result<(), LinkFault> {
        match letter {
            b'c' => self.link.send(alloc, Side::Client, &[digit]),
            b's' => self.link.send(alloc, Side::Server, &[digit]),
            b'+' => match self.link.next_round(alloc) {
                Ok(_) => Ok(()),
                Err(fault) => Err(fault),
            },
            b'C' => self.receive(alloc, Side::Client),
            _ => self.receive(alloc, Side::Server),
        }
    }

    fn receive(&mut self, alloc: Global, side: Side) -> Result<(), LinkFault> {
        let mut buf = [0; MAX_DATAGRAM];
        match self.link.take(alloc, side, &mut buf) {
            Ok(_) => Ok(()),
            Err(fault) => Err(fault),
        }
    }
}

fn put_fault(fault: LinkFault, out: &mut Line) {
    match fault {
        LinkFault::Failed => out.put("failed"),
        LinkFault::Memory => out.lack(),
    }
}

// Appends the events, each as a letter: the first byte of what was sent or given, `.` where nothing was ready, `+` for a round
// and `!` for a fault.
fn put_events(events: &[Event], out: &mut Line) {
    for event in events {
        let letter = match event {
            Event::Sent { datagram, .. } | Event::Given { datagram, .. } => first_of(datagram),
            Event::Dry { .. } => b'.',
            Event::Round { .. } => b'+',
            Event::Fault => b'!',
        };
        out.put_byte(letter);
    }
}

fn first_of(datagram: &Bytes) -> u8 {
    datagram.as_slice().first().copied().unwrap_or(b'?')
}

// An entry of a schedule.
fn upset_of(
    alloc: Global,
    kind: Call,
    number: u64,
    words: &mut Words<'_>,
) -> Result<Upset, RowFault> {
    match kind {
        Call::Fail => Ok(Upset::Fail(number)),
        Call::Forge => forge_of(alloc, number, words),
        _ => loss_of(kind, words),
    }
}

// An entry that meets sends.
fn loss_of(kind: Call, words: &mut Words<'_>) -> Result<Upset, RowFault> {
    let Ok(which) = select_of(words) else {
        return Err(RowFault::Form);
    };
    match kind {
        Call::Lose => Ok(Upset::Lose(which)),
        Call::Twice => Ok(Upset::Twice(which)),
        _ => match words.number() {
            Ok(rounds) => Ok(Upset::Late(which, rounds)),
            Err(fault) => Err(fault),
        },
    }
}

fn forge_of(alloc: Global, round: u64, words: &mut Words<'_>) -> Result<Upset, RowFault> {
    let Ok(side) = side_of(words.next()) else {
        return Err(RowFault::Form);
    };
    match shared(alloc, words) {
        Ok(bytes) => Ok(Upset::Forge { round, side, bytes }),
        Err(fault) => Err(fault),
    }
}

// Which sends are meant: `all`, `each N` or `one N`.
fn select_of(words: &mut Words<'_>) -> Result<Select, RowFault> {
    match find(&SELECTS, words.next()) {
        Some(Which::All) => Ok(Select::All),
        Some(Which::Each) => Ok(Select::Each(words.number()?)),
        Some(Which::One) => Ok(Select::One(words.number()?)),
        None => Err(RowFault::Form),
    }
}

fn side_of(word: &str) -> Result<Side, RowFault> {
    match word {
        "client" => Ok(Side::Client),
        "server" => Ok(Side::Server),
        _ => Err(RowFault::Form),
    }
}
