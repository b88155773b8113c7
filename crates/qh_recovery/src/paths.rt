ghost use Rattle.std.specs.Prelude.{◌≡◌};
ghost use Rattle.qh_recovery.specs.Rtt.{new_estimator, smoothed_by, varied, sampled, rtt_of, conservative, pto_base, probe_time, loss_delay};

use qh_base::Span;

/// The granularity of the clock, in nanoseconds (RFC 9002, section 6.1.2).
const GRANULARITY: u64 = 1_000_000;

/// The longest time that a peer waits before it acknowledges, in nanoseconds (RFC 9000, section 18.2).
const MAX_ACK_DELAY: u64 = 25_000_000;

/// What is known of a path's round-trip time (RFC 9002, section 5).
#[derive(Clone, Copy)]
pub struct RttEstimator {
    /// The last sample, or before a sample the initial time.
    pub latest: Span,
    /// The smoothed time, None before a sample.
    pub smoothed: Option<Span>,
    /// The variation.
    pub var: Span,
    /// The least sample, or before a sample the initial time.
    pub min: Span,
}

impl RttEstimator {
    /// No sample yet: the initial time stands for one.
    pub fn new(initial_rtt: Span) -> RttEstimator
        ensures { result ≡ new_estimator initial_rtt.0 }
    {
        RttEstimator {
            latest: initial_rtt,
            smoothed: None,
            var: Span(initial_rtt.0 / 2),
            min: initial_rtt,
        }
    }

    /// Takes a sample in (RFC 9002, section 5.3). The variation goes by the smoothed time of before.
    pub fn update(&mut self, rtt: Span)
        ensures { self.new ≡ sampled rtt.0 self.old }
    {
        *self = match self.smoothed {
            None => RttEstimator {
                latest: rtt,
                smoothed: Some(rtt),
                var: Span(rtt.0 / 2),
                min: rtt,
            },
            Some(smoothed) => RttEstimator {
                latest: rtt,
                smoothed: Some(Span(smoothed_by(smoothed.0, rtt.0))),
                var: Span(varied(self.var.0, smoothed.0, rtt.0)),
                min: Span(self.min.0.min(rtt.0)),
            },
        };
    }

    /// The smoothed time, or before a sample the initial one.
    pub fn get(self) -> Span
        ensures { result.0 ≡ rtt_of self }
    {
        self.smoothed.unwrap_or(self.latest)
    }

    /// The greater of the smoothed time and the last sample.
    pub fn conservative(self) -> Span
        ensures { result.0 ≡ conservative self }
    {
        Span(self.get().0.max(self.latest.0))
    }

    /// The probe timeout before it is doubled, or the greatest time that there is (RFC 9002, section 6.2.1).
    pub fn pto_base(self) -> Span
        ensures { result.0 ≡ pto_base self }
    {
        let deviation = self.var.0.saturating_mul(4).max(GRANULARITY);
        let time = self.get().0.saturating_add(deviation);
        Span(time.saturating_add(MAX_ACK_DELAY))
    }

    /// The probe timeout, doubled that many times, or the greatest time that there is (RFC 9002, section 6.2.1).
    pub fn probe_time(self, count: u32) -> Span
        ensures { result.0 ≡ probe_time self count }
    {
        let factor = 2u64.saturating_pow(count);
        Span(self.pto_base().0.saturating_mul(factor))
    }

    /// The time after which a packet counts as lost if a later one is acknowledged, or the greatest time that there is (RFC
    /// 9002, section 6.1.2).
    pub fn loss_delay(self) -> Span
        ensures { result.0 ≡ loss_delay self }
    {
        let time = self.conservative().0;
        Span(time.saturating_add(time / 8))
    }
}

/// 7/8 of the smoothed time and 1/8 of the sample, in nanoseconds.
fn smoothed_by(smoothed: u64, sample: u64) -> u64
    ensures { result ≡ smoothed_by smoothed sample }
{
    ((7 * u128::from(smoothed) + u128::from(sample)) / 8) as u64
}

/// 3/4 of the variation and 1/4 of how far the sample is from the smoothed time, in nanoseconds.
fn varied(var: u64, smoothed: u64, sample: u64) -> u64
    ensures { result ≡ varied var smoothed sample }
{
    ((3 * u128::from(var) + u128::from(smoothed.abs_diff(sample))) / 4) as u64
}
