ghost use Rattle.std.specs.Prelude.{◌≡◌, MatchOption, None, false};
ghost use Rattle.qh_core.specs.Timers.{restarted, sent_at, three_probes, IsIdleEnd};

use qh_base::{Moment, Span};
use qh_recovery::RttEstimator;

/// The idle time of a connection (RFC 9000, section 10.1): it runs from the last packet that was accepted, or the first
/// ack-eliciting packet that was sent after it.
#[derive(Clone, Copy)]
pub struct IdleTimer {
    /// The idle time in force, where there is one.
    pub timeout: Option<Span>,
    /// From when on it runs.
    pub since: Moment,
    /// Whether an ack-eliciting packet was sent since a packet was accepted.
    pub has_sent: bool,
}

impl IdleTimer {
    /// It runs from now on.
    pub fn new(timeout: Option<Span>, now: Moment) -> IdleTimer
        ensures { result ≡ record { timeout = timeout; since = now; has_sent = false } }
    {
        IdleTimer {
            timeout,
            since: now,
            has_sent: false,
        }
    }

    /// A packet was accepted.
    pub fn on_accepted(&mut self, now: Moment)
        ensures { self.new ≡ restarted now self.old }
    {
        self.since = now;
        self.has_sent = false;
    }

    /// An ack-eliciting packet was sent.
    pub fn on_sent(&mut self, now: Moment)
        ensures { self.new ≡ sent_at now self.old }
    {
        if !self.has_sent {
            self.since = now;
            self.has_sent = true;
        }
    }

    /// When it ends: it is at least three probe timeouts long. None exactly where there is no idle time.
    pub fn ends_at(&self, rtt: RttEstimator) -> Option<Moment>
        ensures { MatchOption result (self.now.timeout ≡ None) (λ t. IsIdleEnd self.now rtt t.0) }
    {
        let timeout = self.timeout?;
        let span = Span(timeout.0.max(three_probes(rtt).0));
        Some(self.since.plus(span))
    }
}

// Three probe timeouts, not doubled.
pub(crate) fn three_probes(rtt: RttEstimator) -> Span
    ensures { result.0 ≡ three_probes rtt }
{
    Span(rtt.pto_base().0.saturating_mul(3))
}
