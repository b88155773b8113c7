//! The buffer of bytes that are sent, and sent again.
use crate::say::{Line, read, shared};
use bytes::Bytes;
use qh_buffers::SendBuffer;
use row_text::Words;
use std::alloc::Global;
use std::mem;

// What a buffer takes in these rows ends before this offset.
const END: u64 = 1 << 32;

// What is done to a buffer.
#[derive(Clone, Copy)]
enum Call {
    New,
    Write,
    Writes,
    Out,
    Acked,
    Lost,
    Give,
    Held,
}

const CALLS: [(&str, Call, u8); 8] = [
    ("new", Call::New, 0),
    ("write", Call::Write, 0),
    ("writes", Call::Writes, 1),
    ("out", Call::Out, 1),
    ("acked", Call::Acked, 1),
    ("lost", Call::Lost, 1),
    ("give", Call::Give, 2),
    ("held", Call::Held, 0),
];

/// A buffer of what is sent.
#[derive(Drop)]
pub(crate) struct Sender {
    buffer: SendBuffer,
}

/// What becomes of bytes that are handed out.
#[derive(Clone, Copy)]
enum Fate {
    /// They are on their way.
    Out,
    /// They are acknowledged at once.
    Acked,
    /// They are lost at once.
    Lost,
}

impl Sender {
    pub(crate) fn new(alloc: Global) -> Sender {
        Sender {
            buffer: SendBuffer::new(alloc),
        }
    }

    /// Answers a row of `send`.
    pub(crate) fn answer(&mut self, alloc: Global, words: &mut Words<'_>, out: &mut Line) {
        let Some(row) = read(&CALLS, words) else {
            return out.refuse();
        };
        match row.call {
            Call::New => drop(mem::replace(self, Sender::new(alloc))),
            Call::Write => self.write(alloc, 1, words, out),
            Call::Writes => self.write(alloc, row.first, words, out),
            Call::Out => return self.hand_out(row.first, Fate::Out, out),
            Call::Acked => return self.hand_out(row.first, Fate::Acked, out),
            Call::Lost => return self.hand_out(row.first, Fate::Lost, out),
            Call::Give => return self.put_between(alloc, row.first, row.second, out),
            Call::Held => return self.put_held(alloc, out),
        }
        let numbers = [self.buffer.offset(), self.buffer.unacked()];
        out.put_form("taken to #, held #", &numbers);
        out.put_either(
            self.buffer.has_unsent_data(),
            ", some to send",
            ", none to send",
        );
    }

    // Takes bytes so many times.
    fn write(&mut self, alloc: Global, count: u64, words: &mut Words<'_>, out: &mut Line) {
        match shared(alloc, words) {
            Ok(payload) => self.take_often(count, &payload, out),
            Err(fault) => out.fail(fault),
        }
    }

    fn take_often(&mut self, count: u64, payload: &Bytes, out: &mut Line) {
        for _ in 0..count {
            match payload.clone() {
                Ok(payload) => self.take(payload, out),
                Err(_) => out.lack(),
            }
        }
    }

    fn take(&mut self, payload: Bytes, out: &mut Line) {
        if self.buffer.offset() >= END || payload.len() as u64 >= END {
            return out.refuse();
        }
        out.note(self.buffer.write(payload));
    }

    // Hands out what comes next, at most so many bytes.
    fn hand_out(&mut self, room: u64, fate: Fate, out: &mut Line) {
        let room = room as usize;
        if room == 0 {
            return out.refuse();
        }
        match self.buffer.poll_transmit(room) {
            Ok(Some(range)) => {
                out.put_range("", range.start, range.end);
                match fate {
                    Fate::Out => {}
                    Fate::Acked => self.buffer.ack(range),
                    Fate::Lost => self.buffer.retransmit(range),
                }
            }
            Ok(None) => out.put("nothing"),
            Err(_) => out.lack(),
        }
    }

    fn put_held(&self, alloc: Global, out: &mut Line) {
        let end = self.buffer.offset();
        self.put_between(alloc, end.saturating_sub(self.buffer.unacked()), end, out);
    }

    // Gives the bytes between these offsets.
    fn put_between(&self, alloc: Global, start: u64, end: u64, out: &mut Line) {
        let least = self.buffer.offset().saturating_sub(self.buffer.unacked());
        if start < least || end < start || end > self.buffer.offset() {
            return out.refuse();
        }
        let mut bytes = Vec::new(alloc);
        out.note(self.buffer.put(start..end, &mut bytes));
        out.put_hex(&bytes);
    }
}
