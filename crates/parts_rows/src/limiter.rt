//! The limiter of work.
ghost use Rattle.std.specs.Prelude.{◌≤◌, IsSome};

use crate::say::{Line, Row, read};
use qh_base::{Moment, Span};
use qh_parts::WorkLimiter;
use row_text::Words;

// The most batches that a cycle does.
const MAX_BATCHES: u64 = 1_000;

// What is done to a limiter.
#[derive(Clone, Copy)]
enum Call {
    New,
    Cycles,
    Work,
}

const CALLS: [(&str, Call, u8); 3] = [
    ("new", Call::New, 1),
    ("cycles", Call::Cycles, 3),
    ("work", Call::Work, 2),
];

/// A limiter, whose cycles begin when the ones before them end.
#[derive(Drop)]
pub(crate) struct Limiter {
    limiter: WorkLimiter,
    // How much of the cycle's work was done.
    done: usize,
    now: Moment,
    ghost started: { IsSome limiter.start_time },
    ghost done_is: { limiter.completed ≤ done },
}

impl Limiter {
    /// A limiter for cycles of so many nanoseconds. One without work is over.
    pub(crate) fn new(cycle: u64) -> Limiter {
        let now = Moment(7);
        let mut limiter = WorkLimiter::new(Span(cycle));
        limiter.start_cycle(now);
        limiter.finish_cycle(now);
        Limiter {
            limiter,
            done: 0,
            now,
        }
    }

    /// Answers a row of `limiter`.
    pub(crate) fn answer(&mut self, words: &mut Words<'_>, out: &mut Line) {
        let Some(row) = read(&CALLS, words) else {
            return out.refuse();
        };
        let mut batches = 0u64;
        match row.call {
            Call::New => *self = Limiter::new(row.first),
            Call::Cycles => batches = self.do_cycles(row, out),
            Call::Work => self.work(row, out),
        }
        let allowed = self.limiter.allowed() as u64;
        out.put_form("batches #, allowed #", &[batches, allowed]);
    }

    // ITEMS NANOS: a cycle in which so many items take so long.
    fn work(&mut self, row: Row<Call>, out: &mut Line) {
        self.start();
        self.record(row.first as usize, out);
        self.finish(row.second);
    }

    // COUNT ITEMS NANOS: does so many cycles, and answers how many batches.
    fn do_cycles(&mut self, row: Row<Call>, out: &mut Line) -> u64 {
        let mut batches = 0u64;
        for _cycle in 0..row.first {
            let done = self.do_cycle(row.second as usize, row.third, out);
            batches = batches.saturating_add(done);
        }
        batches
    }

    // Does batches of so many items while the cycle allows it, and answers how many.
    fn do_cycle(&mut self, items: usize, nanos: u64, out: &mut Line) -> u64 {
        self.start();
        for batches in 0..MAX_BATCHES {
            if !self.limiter.allow_work(self.now) {
                self.finish(0);
                return batches;
            }
            self.record(items, out);
            self.now = self.now.plus(Span(nanos));
        }
        MAX_BATCHES
    }

    fn start(&mut self) {
        self.limiter.start_cycle(self.now);
        self.done = 0;
    }

    fn record(&mut self, items: usize, out: &mut Line) {
        let Some(done) = self.done.checked_add(items) else {
            return out.refuse();
        };
        self.done = done;
        self.limiter.record_work(items);
    }

    // Ends the cycle so many nanoseconds later.
    fn finish(&mut self, nanos: u64) {
        self.now = self.now.plus(Span(nanos));
        self.limiter.finish_cycle(self.now);
    }
}
