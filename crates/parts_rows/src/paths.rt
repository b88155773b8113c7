//! The round-trip time of a path, and its congestion window.
use crate::say::{Line, read};
use qh_base::Span;
use qh_recovery::{RttEstimator, WindowController};
use row_text::Words;

// What is done to an estimator, or to a window.
#[derive(Clone, Copy)]
enum Call {
    New,
    Sample,
    Probe,
    Ack,
    Loss,
    Allows,
    Metrics,
}

const RTT_CALLS: [(&str, Call, u8); 3] = [
    ("new", Call::New, 1),
    ("sample", Call::Sample, 1),
    ("probe", Call::Probe, 1),
];

const WINDOW_CALLS: [(&str, Call, u8); 5] = [
    ("new", Call::New, 1),
    ("ack", Call::Ack, 1),
    ("loss", Call::Loss, 2),
    ("allows", Call::Allows, 1),
    ("metrics", Call::Metrics, 0),
];

/// What is known of a path.
#[derive(Drop)]
pub(crate) struct Paths {
    rtt: RttEstimator,
    window: WindowController,
}

impl Paths {
    pub(crate) fn new() -> Paths {
        Paths {
            rtt: RttEstimator::new(Span(0)),
            window: WindowController::new(0),
        }
    }

    /// Answers a row of `rtt`.
    pub(crate) fn answer_rtt(&mut self, words: &mut Words<'_>, out: &mut Line) {
        let Some(row) = read(&RTT_CALLS, words) else {
            return out.refuse();
        };
        match row.call {
            Call::New => self.rtt = RttEstimator::new(Span(row.first)),
            Call::Sample => self.rtt.update(Span(row.first)),
            _ => return put_probe(self.rtt, row.first, out),
        }
        put_rtt(self.rtt, out);
    }

    /// Answers a row of `window`.
    pub(crate) fn answer_window(&mut self, words: &mut Words<'_>, out: &mut Line) {
        let Some(row) = read(&WINDOW_CALLS, words) else {
            return out.refuse();
        };
        match row.call {
            Call::New => self.window = WindowController::new(row.first),
            Call::Ack => self.window.on_ack(row.first),
            Call::Loss => self.window.on_loss(row.first, row.second),
            Call::Allows => return out.put_yes(self.window.allows(row.first)),
            _ => return self.put_metrics(out),
        }
        put_window(self.window, out);
    }

    fn put_metrics(&self, out: &mut Line) {
        let metrics = self.window.metrics();
        out.put_form("window #", &[metrics.congestion_window]);
        out.put_some(", threshold ", metrics.ssthresh);
    }
}

// Appends the probe timeout, doubled so often.
fn put_probe(rtt: RttEstimator, count: u64, out: &mut Line) {
    match u32::try_from(count) {
        Ok(count) => out.put_number(rtt.probe_time(count).0),
        Err(_) => out.refuse(),
    }
}

// Appends what is seen of an estimator.
fn put_rtt(rtt: RttEstimator, out: &mut Line) {
    out.put_form(
        "smoothed #, variation #, least #, probe #, loss #",
        &[
            rtt.get().0,
            rtt.var.0,
            rtt.min.0,
            rtt.pto_base().0,
            rtt.loss_delay().0,
        ],
    );
    out.put_either(rtt.smoothed.is_some(), "", ", no sample");
}

// Appends what is seen of a window.
fn put_window(window: WindowController, out: &mut Line) {
    out.put_form("window #", &[window.window]);
    out.put_some(", threshold ", window.ssthresh);
    let numbers = [window.bytes_acked, window.recovery_from];
    out.put_form(", acked #, recovery from #", &numbers);
}
