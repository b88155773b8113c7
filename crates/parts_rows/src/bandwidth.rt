//! The greatest of measurements, and the bandwidth.
ghost use Rattle.std.specs.Prelude.{◌≤◌};

use crate::say::{Line, Row, read};
use qh_base::{Moment, Span};
use qh_parts::{BandwidthEstimation, MinMax};
use row_text::Words;

// What is done to a greatest measurement, or to a bandwidth.
#[derive(Clone, Copy)]
enum Call {
    New,
    Add,
    Reset,
    Sent,
    Acked,
    End,
    Rate,
}

const GREATEST_CALLS: [(&str, Call, u8); 3] = [
    ("new", Call::New, 0),
    ("add", Call::Add, 2),
    ("reset", Call::Reset, 0),
];

const BANDWIDTH_CALLS: [(&str, Call, u8); 5] = [
    ("new", Call::New, 0),
    ("sent", Call::Sent, 2),
    ("acked", Call::Acked, 3),
    ("end", Call::End, 0),
    ("rate", Call::Rate, 2),
];

/// The greatest measurement of the last rounds.
#[derive(Drop)]
pub(crate) struct Greatest {
    filter: MinMax,
    // The last round.
    round: u64,
    ghost past: { filter.third.round ≤ round },
}

impl Greatest {
    pub(crate) fn new() -> Greatest {
        Greatest {
            filter: MinMax::new(),
            round: 0,
        }
    }

    /// Answers a row of `max`.
    pub(crate) fn answer(&mut self, words: &mut Words<'_>, out: &mut Line) {
        let Some(row) = read(&GREATEST_CALLS, words) else {
            return out.refuse();
        };
        match row.call {
            Call::New => *self = Greatest::new(),
            Call::Add => self.add(row.first, row.second, out),
            _ => self.filter.reset(),
        }
        out.put_number(self.filter.get());
    }

    fn add(&mut self, round: u64, measurement: u64, out: &mut Line) {
        if round < self.round {
            return out.refuse();
        }
        let mut filter = self.filter;
        filter.update_max(round, measurement);
        *self = Greatest { filter, round };
    }
}

/// The bandwidth of a path.
#[derive(Drop)]
pub(crate) struct Bandwidth {
    estimation: BandwidthEstimation,
    // How many bytes were sent and acknowledged at most, and the last round.
    sent: u64,
    acked: u64,
    round: u64,
    ghost sent_is: { estimation.sent.last.bytes ≤ sent },
    ghost acked_is: { estimation.acked.last.bytes ≤ acked },
    ghost past: { estimation.max_filter.third.round ≤ round },
}

impl Bandwidth {
    pub(crate) fn new() -> Bandwidth {
        Bandwidth {
            estimation: BandwidthEstimation::new(),
            sent: 0,
            acked: 0,
            round: 0,
        }
    }

    /// Answers a row of `bandwidth`.
    pub(crate) fn answer(&mut self, words: &mut Words<'_>, out: &mut Line) {
        let Some(row) = read(&BANDWIDTH_CALLS, words) else {
            return out.refuse();
        };
        match row.call {
            Call::New => *self = Bandwidth::new(),
            Call::Sent => self.send(row, out),
            Call::Acked => self.ack(row, words.next() == "limited", out),
            Call::End => self.estimation.end_acks(),
            _ => {
                let rate = BandwidthEstimation::bw_from_delta(row.first, Span(row.second));
                return out.put_some("", rate);
            }
        }
        let window = self.estimation.bytes_acked_this_window();
        out.put_form("#, window #", &[self.estimation.get_estimate(), window]);
    }

    // NOW BYTES
    fn send(&mut self, row: Row<Call>, out: &mut Line) {
        let Some(sent) = self.sent.checked_add(row.second) else {
            return out.refuse();
        };
        let mut estimation = self.estimation;
        estimation.on_sent(Moment(row.first), row.second);
        *self = Bandwidth {
            estimation,
            sent,
            acked: self.acked,
            round: self.round,
        };
    }

    // NOW BYTES ROUND
    fn ack(&mut self, row: Row<Call>, is_limited: bool, out: &mut Line) {
        let Some(acked) = self.acked.checked_add(row.second) else {
            return out.refuse();
        };
        if row.third < self.round {
            return out.refuse();
        }
        let mut estimation = self.estimation;
        estimation.on_ack(Moment(row.first), row.second, row.third, is_limited);
        *self = Bandwidth {
            estimation,
            sent: self.sent,
            acked,
            round: row.third,
        };
    }
}
