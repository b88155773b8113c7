//! The packet numbers that came, and those that wait to be acknowledged.
use crate::say::{Line, read};
use qh_recovery::{Dedup, PendingAcks, insert_received};
use row_text::Words;
use std::alloc::Global;

// Packet numbers lie below this one (RFC 9000, section 12.3).
const END: u64 = 1 << 62;

// What is done to the numbers that came, or to those that wait.
#[derive(Clone, Copy)]
enum Call {
    New,
    Insert,
    Many,
    IsNew,
    List,
    Eliciting,
    Sent,
    Frame,
}

const DEDUP_CALLS: [(&str, Call, u8); 5] = [
    ("new", Call::New, 0),
    ("insert", Call::Insert, 0),
    ("many", Call::Many, 2),
    ("is-new", Call::IsNew, 1),
    ("list", Call::List, 2),
];

const ACKS_CALLS: [(&str, Call, u8); 6] = [
    ("new", Call::New, 0),
    ("add", Call::Insert, 0),
    ("many", Call::Many, 2),
    ("eliciting", Call::Eliciting, 1),
    ("sent", Call::Sent, 0),
    ("frame", Call::Frame, 0),
];

/// What is known of the packets that came.
#[derive(Drop)]
pub(crate) struct Numbers {
    dedup: Dedup,
    acks: PendingAcks,
}

impl Numbers {
    pub(crate) fn new(alloc: Global) -> Numbers {
        Numbers {
            dedup: Dedup::new(alloc),
            acks: PendingAcks::new(alloc),
        }
    }

    /// Answers a row of `dedup`.
    pub(crate) fn answer_dedup(&mut self, alloc: Global, words: &mut Words<'_>, out: &mut Line) {
        let Some(row) = read(&DEDUP_CALLS, words) else {
            return out.refuse();
        };
        match row.call {
            Call::New => self.dedup = Dedup::new(alloc),
            Call::Insert => self.insert_all(words, out),
            Call::Many => self.insert_many(row.first, row.second, out),
            Call::IsNew => return out.put_yes(self.dedup.is_new(row.first)),
            _ => return self.list_new(row.first, row.second, out),
        }
        out.put_some("greatest ", self.dedup.greatest());
        out.put_form(", next #", &[self.dedup.next_expected()]);
    }

    // NUMBER, so often: packets come that aren't ack-eliciting.
    fn insert_all(&mut self, words: &mut Words<'_>, out: &mut Line) {
        for _number in 0..u64::MAX {
            if words.is_at_end() || out.has_fault() {
                break;
            }
            match words.number() {
                Ok(number) => self.insert(number, false, out),
                Err(_) => out.refuse(),
            }
        }
    }

    // So many such packets come, whose numbers are that far apart.
    fn insert_many(&mut self, count: u64, step: u64, out: &mut Line) {
        for place in 0..count {
            self.insert(place.saturating_mul(step), false, out);
        }
    }

    fn insert(&mut self, number: u64, is_ack_eliciting: bool, out: &mut Line) {
        if number >= END {
            return out.refuse();
        }
        let received = insert_received(&mut self.dedup, &mut self.acks, number, is_ack_eliciting);
        if received.is_err() {
            out.lack();
        }
    }

    // Appends the numbers from one on and before another that are new.
    fn list_new(&self, from: u64, before: u64, out: &mut Line) {
        let mut is_first = true;
        for number in from..before {
            if self.dedup.is_new(number) {
                out.put_either(is_first, "", " ");
                out.put_number(number);
                is_first = false;
            }
        }
        out.put_either(is_first, "none", "");
    }

    /// Answers a row of `acks`.
    pub(crate) fn answer_acks(&mut self, alloc: Global, words: &mut Words<'_>, out: &mut Line) {
        let Some(row) = read(&ACKS_CALLS, words) else {
            return out.refuse();
        };
        match row.call {
            Call::New => self.acks = PendingAcks::new(alloc),
            Call::Insert => self.insert_all(words, out),
            Call::Many => self.insert_many(row.first, row.second, out),
            Call::Eliciting => self.insert(row.first, true, out),
            Call::Sent => self.acks.sent(),
            _ => return self.put_frame(alloc, out),
        }
        out.put_either(self.acks.is_due(), "due", "not due");
    }

    // Appends the bytes of the ACK frame, where some number waits.
    fn put_frame(&self, alloc: Global, out: &mut Line) {
        let mut bytes = Vec::new(alloc);
        if !self.acks.is_empty() && self.acks.put(&mut bytes).is_err() {
            out.lack();
        }
        out.put_hex(&bytes);
    }
}
