ghost use Rattle.std.specs.Prelude.{◌≡◌, [], None, Some, ℕ, MatchOption, IfSome};
ghost use Rattle.qh_recovery.specs.Rtt.{loss_delay};
ghost use Rattle.qh_recovery.specs.SentPackets.{IsBelow, IsLossTime, NoneIs};
ghost use Rattle.qh_space.specs.Receiving.{IsLossTaken};
ghost use Rattle.qh_space.specs.Space.{IsSpace};
ghost use Rattle.qh_space.specs.Timers.{IsProbeDue, IsProbeTime};

use crate::DataSpace;
use qh_base::Moment;
use qh_loss::{Probe, queue_probe};

impl DataSpace {
    /// When a probe is due: the probe timeout after the last packet that is out was sent (RFC 9002, section 6.2.1). None exactly
    /// if none is out.
    pub fn probe_at(&self) -> Option<Moment>
        ensures { MatchOption result (self.now.sent ≡ []) (λ t. IsProbeTime self.now t.0) }
    {
        let last = self.sent.last_sent()?;
        Some(last.plus(self.rtt.probe_time(self.pto_count)))
    }

    /// When a packet that is out becomes lost by its age (RFC 9002, section 6.1.2). None exactly if none was sent before one
    /// that is acknowledged.
    pub fn loss_at(&self) -> Option<Moment>
        requires { IsSpace self.now }
        ensures none { result ≡ None → (n : ℕ) → self.now.largest_acked ≡ Some n → NoneIs (IsBelow n) self.now.sent }
        ensures some { IfSome result (λ t. (n : ℕ) × (self.now.largest_acked ≡ Some n) × IsLossTime self.now.sent n (loss_delay self.now.rtt) t.0) }
    {
        let largest = self.largest_acked?;
        self.sent.loss_time(largest, self.rtt.loss_delay())
    }

    /// What is lost by now is lost (RFC 9002, section 6.1).
    pub fn detect_lost(&mut self, now: Moment)
        requires { IsSpace self.old }
        ensures none { self.old.largest_acked ≡ None → self.new ≡ self.old }
        ensures some { (n : ℕ) → self.old.largest_acked ≡ Some n → IsLossTaken n now.0 self.old self.new }
        ensures space { IsSpace self.new }
    {
        if let Some(largest) = self.largest_acked {
            self.lose(largest, now);
        }
    }

    /// A probe is due: STREAM frames that were sent and are owed wait again, or other frames of the oldest packet, or else a PING
    /// (RFC 9002, section 6.2.4). The next ack-eliciting packet is the probe packet.
    pub fn queue_probe(&mut self)
        requires { IsSpace self.old }
        ensures due { IsProbeDue self.old self.new }
        ensures space { IsSpace self.new }
    {
        if queue_probe(&mut self.streams, &self.sent) == Probe::Ping {
            self.is_ping_due = true;
        }
        self.is_probe_due = true;
    }
}
