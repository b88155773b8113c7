ghost use Rattle.std.specs.Prelude.{◌≡◌, ℕ, None, Some, [], false, MatchOption, IfSome};
ghost use Rattle.qh_handshake.specs.InitialSpace.{IsInitialSpace};
ghost use Rattle.qh_handshake.specs.Receiving.{IsLossTaken};
ghost use Rattle.qh_handshake.specs.Timers.{IsProbeTime, IsUnprobed, with_probe};
ghost use Rattle.qh_handshake.specs.declared.initial_space.HelloState.TheVariants.{Held, Waits};
ghost use Rattle.qh_recovery.specs.Rtt.{loss_delay};
ghost use Rattle.qh_recovery.specs.SentPackets.{IsBelow, IsLossTime, NoneIs};

use crate::{HelloState, InitialSpace};
use qh_base::Moment;
use qh_recovery::SentPackets;
use std::alloc::Global;

impl InitialSpace {
    /// When a probe is due: the probe timeout after the last packet that is out was sent (RFC 9002, section 6.2.1). Where none is
    /// out, it is due all the same at an end that waits to be greeted, or both ends could wait for each other (RFC 9002, section
    /// 6.2.2.1). None exactly if none is out, and the end doesn't wait.
    pub fn probe_at(&self, is_awaited: bool) -> Option<Moment>
        ensures { MatchOption result (IsUnprobed self.now is_awaited) (λ t. IsProbeTime self.now is_awaited t.0) }
    {
        let from = match self.sent.last_sent() {
            Some(last) => last,
            None if is_awaited => self.last_active,
            None => return None,
        };
        Some(from.plus(self.rtt.probe_time(self.pto_count)))
    }

    /// When a packet that is out becomes lost by its age (RFC 9002, section 6.1.2). None exactly if none was sent before one
    /// that is acknowledged.
    pub fn loss_at(&self) -> Option<Moment>
        requires { IsInitialSpace self.now }
        ensures none { result ≡ None → (n : ℕ) → self.now.largest_acked ≡ Some n → NoneIs (IsBelow n) self.now.sent }
        ensures some { IfSome result (λ t. (n : ℕ) × (self.now.largest_acked ≡ Some n) × IsLossTime self.now.sent n (loss_delay self.now.rtt) t.0) }
    {
        let largest = self.largest_acked?;
        self.sent.loss_time(largest, self.rtt.loss_delay())
    }

    /// What is lost by now is lost (RFC 9002, section 6.1).
    pub fn detect_lost(&mut self, now: Moment)
        requires { IsInitialSpace self.old }
        ensures none { self.old.largest_acked ≡ None → self.new ≡ self.old }
        ensures some { (n : ℕ) → self.old.largest_acked ≡ Some n → IsLossTaken n now.0 self.old self.new }
        ensures space { IsInitialSpace self.new }
    {
        if let Some(largest) = self.largest_acked {
            self.lose(largest, now);
        }
    }

    /// A probe is due: a hello that isn't acknowledged is sent again, or where there is none a PING (RFC 9002, section 6.2.4). The
    /// next ack-eliciting packet is the probe packet.
    pub fn queue_probe(&mut self)
        requires { IsInitialSpace self.old }
        ensures due { self.new ≡ with_probe self.old.state self.old }
        ensures space { IsInitialSpace self.new }
    {
        self.is_probe_due = true;
        match self.state {
            HelloState::Out => self.state = HelloState::Waits,
            HelloState::Waits => {}
            HelloState::Held | HelloState::Acked => self.is_ping_due = true,
        }
    }

    /// What was sent goes to an end that asked for another try: nothing is out any more, and the hello is to be sent again, with the
    /// numbers that follow (RFC 9000, section 17.2.5.3); the probe timeout begins again (RFC 9002, section 6.3). It takes no memory.
    pub fn restart(&mut self, alloc: Global, now: Moment)
        requires { IsInitialSpace self.old }
        ensures restarted { self.new ≡ record self.old { sent = []; state = Waits; largest_acked = None; is_ping_due = false; pto_count = 0; is_probe_due = false; last_active = now } }
        ensures space { IsInitialSpace self.new }
    {
        self.sent = SentPackets::new(alloc);
        self.state = HelloState::Waits;
        self.largest_acked = None;
        self.is_ping_due = false;
        self.pto_count = 0;
        self.is_probe_due = false;
        self.last_active = now;
    }
}
