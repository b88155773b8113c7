//! The packets that are out.
use crate::say::{Line, Row, read};
use qh_base::{Memory, Moment, Span};
use qh_recovery::{SentPacket, SentPackets};
use row_text::Words;
use std::alloc::Global;
use std::mem;

// What is done to packets.
#[derive(Clone, Copy)]
enum Call {
    New,
    Add,
    Many,
    Acked,
    Lost,
    First,
    From,
    At,
    Last,
}

const CALLS: [(&str, Call, u8); 9] = [
    ("new", Call::New, 0),
    ("add", Call::Add, 3),
    ("many", Call::Many, 1),
    ("acked", Call::Acked, 2),
    ("lost", Call::Lost, 3),
    ("first", Call::First, 0),
    ("from", Call::From, 1),
    ("at", Call::At, 1),
    ("last", Call::Last, 0),
];

/// The packets that are out, each with its own number as its one frame.
#[derive(Drop)]
pub(crate) struct Packets {
    packets: SentPackets<u64>,
}

impl Packets {
    pub(crate) fn new(alloc: Global) -> Packets {
        Packets {
            packets: SentPackets::new(alloc),
        }
    }

    /// Answers a row of `sent`.
    pub(crate) fn answer(&mut self, alloc: Global, words: &mut Words<'_>, out: &mut Line) {
        let Some(row) = read(&CALLS, words) else {
            return out.refuse();
        };
        match row.call {
            Call::New => drop(mem::replace(self, Packets::new(alloc))),
            Call::Add => self.insert(alloc, row.first, row.second, row.third, out),
            Call::Many => self.add_many(alloc, row.first, out),
            Call::Acked => self.take_acked(row.first, row.second, out),
            Call::Lost => return self.take_lost(row, out),
            Call::First => self.take_first(out),
            Call::From => return self.put_next(row.first, out),
            Call::At => return self.put_sent_at(row.first, out),
            Call::Last => return self.put_last(out),
        }
        self.put_state(out);
    }

    fn put_state(&self, out: &mut Line) {
        let numbers = [self.packets.len() as u64, self.packets.in_flight()];
        out.put_form("out #, in flight #", &numbers);
    }

    // So many packets of a byte each, each sent at the moment that is its number.
    fn add_many(&mut self, alloc: Global, count: u64, out: &mut Line) {
        for number in 0..count {
            self.insert(alloc, number, number, 1, out);
        }
    }

    fn insert(&mut self, alloc: Global, number: u64, time: u64, size: u64, out: &mut Line) {
        if self.packets.next_from(number).is_some() {
            return out.refuse();
        }
        match frames_of(alloc, number) {
            Ok(frames) => {
                let packet = SentPacket {
                    time_sent: Moment(time),
                    size,
                    frames,
                };
                out.note(self.packets.insert(number, packet));
            }
            Err(_) => out.lack(),
        }
    }

    // Takes all that an ACK of these numbers acknowledges, and appends their frames.
    fn take_acked(&mut self, least: u64, greatest: u64, out: &mut Line) {
        for _packet in 0..self.packets.len() {
            match self.packets.take_acked(least, greatest) {
                Some((_, packet)) => put_frames(&packet, out),
                None => break,
            }
        }
    }

    // LARGEST NOW DELAY: takes all that are lost, and appends their frames and when the next is lost.
    fn take_lost(&mut self, row: Row<Call>, out: &mut Line) {
        let now = Moment(row.second);
        let delay = Span(row.third);
        self.put_lost(row.first, now, delay, out);
        self.put_state(out);
        out.put_some(", next lost at ", self.loss_time(row.first, now, delay));
    }

    fn put_lost(&mut self, largest: u64, now: Moment, delay: Span, out: &mut Line) {
        for _packet in 0..self.packets.len() {
            match self.packets.take_lost(largest, now, delay) {
                Some((_, packet)) => put_frames(&packet, out),
                None => break,
            }
        }
    }

    // When the next is lost, once all that are lost were taken.
    fn loss_time(&mut self, largest: u64, now: Moment, delay: Span) -> Option<u64> {
        if self.packets.take_lost(largest, now, delay).is_some() {
            return Some(0);
        }
        match self.packets.loss_time(largest, delay) {
            Some(at) => Some(at.0),
            None => None,
        }
    }

    fn take_first(&mut self, out: &mut Line) {
        match self.packets.take_first() {
            Some((_, packet)) => put_frames(&packet, out),
            None => out.put("none "),
        }
    }

    fn put_next(&self, number: u64, out: &mut Line) {
        match self.packets.next_from(number) {
            Some((found, _)) => out.put_number(found),
            None => out.put("none"),
        }
    }

    fn put_sent_at(&self, number: u64, out: &mut Line) {
        match self.packets.get(number) {
            Some(packet) => out.put_number(packet.time_sent.0),
            None => out.put("none"),
        }
    }

    fn put_last(&self, out: &mut Line) {
        match self.packets.last_sent() {
            Some(at) => out.put_number(at.0),
            None => out.put("none"),
        }
    }
}

// A packet's number as its one frame.
fn frames_of(alloc: Global, number: u64) -> Result<Vec<u64>, Memory> {
    let mut frames = Vec::new(alloc);
    frames.push(number)?;
    Ok(frames)
}

// Appends the frames of a packet, a blank behind each.
fn put_frames(packet: &SentPacket<u64>, out: &mut Line) {
    for frame in &packet.frames {
        out.put_form("# ", &[*frame]);
    }
}
