ghost use Rattle.std.specs.Prelude.{◌≡◌, ◌+◌, ◌-◌, ◌*◌, ◌/◌, ◌^◌, ◌<◌, ◌≤◌, min, Some, None, unwrap_or};
ghost use Rattle.qh_parts.specs.BandwidthEstimation.{no_totals, no_estimation, with_bytes, rate, rate_of, bandwidth_of, filtered, after_sent, after_ack};

use crate::min_max::MinMax;
use qh_base::{Moment, Span};
use std::marker::Model;

const NANOS_PER_SECOND: u128 = 1_000_000_000;

/// How many bytes there were up to a moment.
#[derive(Clone, Copy)]
pub struct Total {
    pub bytes: u64,
    // None before the first bytes.
    pub at: Option<Moment>,
}

/// The total, and the one before it.
#[derive(Clone, Copy)]
pub struct Totals {
    pub last: Total,
    pub previous: Total,
}

/// The bandwidth of a path, in bytes a second, from what was sent and what was acknowledged: the greatest that was
/// measured.
#[derive(Clone, Copy)]
pub struct BandwidthEstimation {
    sent: Totals,
    acked: Totals,
    max_filter: MinMax,
    acked_at_last_window: u64,
}

impl Model for BandwidthEstimation {
    ghost use Rattle.qh_parts.specs.BandwidthEstimation.{PlainEstimation, IsCounted};

    ghost Value = { PlainEstimation };

    ghost view = { λ e. record {
      sent = e.sent;
      acked = e.acked;
      max_filter = e.max_filter;
      acked_at_last_window = e.acked_at_last_window;
    } };

    ghost invariant = { λ e. IsCounted e.sent e.acked e.acked_at_last_window };

    ghost inverse = { λ e. record {
      sent = e.sent;
      acked = e.acked;
      max_filter = e.max_filter;
      acked_at_last_window = e.acked_at_last_window;
    } };
}

impl BandwidthEstimation {
    /// Before any bytes.
    pub fn new() -> BandwidthEstimation
        ensures { result ≡ no_estimation }
    {
        BandwidthEstimation {
            sent: Totals::none(),
            acked: Totals::none(),
            max_filter: MinMax::new(),
            acked_at_last_window: 0,
        }
    }

    /// Counts bytes that were sent.
    pub fn on_sent(&mut self, now: Moment, bytes: u64)
        requires { self.old.sent.last.bytes + bytes < 2 ^ 64 }
        ensures { self.new ≡ after_sent self.old now bytes }
    {
        self.sent = self.sent.plus(now, bytes);
    }

    /// Counts bytes that were acknowledged in a round, and measures the bandwidth. The measurement doesn't count where
    /// the sender had nothing more to send, nor where it isn't above the estimate, which so never falls. Rounds never
    /// fall.
    pub fn on_ack(&mut self, now: Moment, bytes: u64, round: u64, app_limited: bool)
        requires sum { self.old.acked.last.bytes + bytes < 2 ^ 64 }
        requires round { self.old.max_filter.third.round ≤ round }
        ensures exact { self.new ≡ after_ack self.old now bytes round app_limited }
        ensures rounds { self.new.max_filter.third.round ≤ round }
    {
        self.acked = self.acked.plus(now, bytes);
        if self.sent.previous.at.is_some() {
            let bandwidth = lesser_rate(self.sent, self.acked);
            self.max_filter = with_measurement(self.max_filter, round, bandwidth, app_limited);
        }
    }

    /// How many bytes were acknowledged since `end_acks`.
    pub fn bytes_acked_this_window(&self) -> u64
        ensures { result ≡ self.now.acked.last.bytes - self.now.acked_at_last_window }
    {
        self.acked.last.bytes - self.acked_at_last_window
    }

    /// Ends a window of acknowledgments.
    pub fn end_acks(&mut self)
        ensures { self.new ≡ record self.old { acked_at_last_window = self.old.acked.last.bytes } }
    {
        self.acked_at_last_window = self.acked.last.bytes;
    }

    /// The bandwidth in bytes a second, 0 before the first measurement.
    pub fn get_estimate(&self) -> u64
        ensures { result ≡ self.now.max_filter.first.value }
    {
        self.max_filter.get()
    }

    /// The rate of bytes over a length of time, in bytes a second, at most the greatest number of 64 bits. None over no
    /// time.
    pub fn bw_from_delta(bytes: u64, delta: Span) -> Option<u64>
        ensures { result ≡ rate bytes delta.0 }
    {
        if delta.0 == 0 {
            return None;
        }
        let per_second = u128::from(bytes) * NANOS_PER_SECOND / u128::from(delta.0);
        Some(per_second.min(u128::from(u64::MAX)) as u64)
    }
}

impl Totals {
    fn none() -> Totals
        ensures { result ≡ no_totals }
    {
        let none = Total { bytes: 0, at: None };
        Totals {
            last: none,
            previous: none,
        }
    }

    // After so many more bytes.
    fn plus(self, now: Moment, bytes: u64) -> Totals
        requires { self.last.bytes + bytes < 2 ^ 64 }
        ensures { result ≡ with_bytes self now bytes }
    {
        Totals {
            last: Total {
                bytes: self.last.bytes + bytes,
                at: Some(now),
            },
            previous: self.last,
        }
    }

    // The bytes a second between the two totals. None where no time lies between them.
    fn rate(self) -> Option<u64>
        requires { self.previous.bytes ≤ self.last.bytes }
        ensures { result ≡ rate_of self }
    {
        let from = self.previous.at?;
        let to = self.last.at?;
        BandwidthEstimation::bw_from_delta(self.last.bytes - self.previous.bytes, to.since(from))
    }
}

// The lesser of the rates of sending and of acknowledging.
fn lesser_rate(sent: Totals, acked: Totals) -> u64
    requires sent { sent.previous.bytes ≤ sent.last.bytes }
    requires acked { acked.previous.bytes ≤ acked.last.bytes }
    ensures { result ≡ bandwidth_of sent acked }
{
    let send_rate = sent.rate().unwrap_or(u64::MAX);
    let ack_rate = acked.rate().unwrap_or(0);
    send_rate.min(ack_rate)
}

// The filter after a measurement, which counts where the sender had more to send and where it is the greatest.
#[tactic(auto, unfolding(crate::specs::BandwidthEstimation::filtered))]
fn with_measurement(mut filter: MinMax, round: u64, bandwidth: u64, app_limited: bool) -> MinMax
    requires { filter.third.round ≤ round }
    ensures exact { result ≡ filtered filter round bandwidth app_limited }
    ensures rounds { result.third.round ≤ round }
{
    if !app_limited && bandwidth > filter.get() {
        filter.update_max(round, bandwidth);
    }
    filter
}
