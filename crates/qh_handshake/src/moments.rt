ghost use Rattle.std.specs.Prelude.{◌≡◌, ℕ, MatchOption};
ghost use Rattle.qh_handshake.specs.Handshake.{IsHandshake};
ghost use Rattle.qh_handshake.specs.InitialSpace.{IsInitialSpace};
ghost use Rattle.qh_handshake.specs.Moments.{AreLostByAge, IsDueAt, IsFirstDue, IsProbeMoment, IsTimedOut, is_awaited};

use crate::{Handshake, InitialSpace};
use qh_base::{Moment, Side, earlier, is_due};

impl Handshake {
    /// Does what is due by now: what is lost by its age is lost, and a probe is queued (RFC 9002, section 6).
    pub fn handle_timeout(&mut self, now: Moment)
        requires { IsHandshake self.old }
        ensures done { IsTimedOut now.0 self.old self.new }
        ensures whole { IsHandshake self.new }
    {
        let is_limited = self.is_limited();
        let is_awaited = self.is_awaited();
        let Some(space) = &mut self.space else {
            return;
        };
        detect_lost(space, now);
        if !is_limited && is_due(space.probe_at(is_awaited), now) {
            space.queue_probe();
        }
    }

    /// When something is due first, if anything is. A probe of a server's isn't while it may send nothing (RFC 9002, section 6.2.2.1).
    pub fn poll_timeout(&self) -> Option<Moment>
        requires { IsHandshake self.now }
        ensures { MatchOption result ((moment : ℕ) → IsDueAt self.now moment → ⊥) (λ t. IsFirstDue self.now t.0) }
    {
        let Some(space) = &self.space else {
            return None;
        };
        earlier(space.loss_at(), self.probe_at(space))
    }

    // When a probe is due.
    fn probe_at(&self, space: &InitialSpace) -> Option<Moment>
        ensures { MatchOption result ((moment : ℕ) → IsProbeMoment self.now space.now moment → ⊥) (λ t. IsProbeMoment self.now space.now t.0 × ((moment : ℕ) → IsProbeMoment self.now space.now moment → moment ≡ t.0)) }
    {
        if self.is_limited() {
            return None;
        }
        space.probe_at(self.is_awaited())
    }

    // Whether it is a client that waits to be greeted.
    fn is_awaited(&self) -> bool
        ensures { result ≡ is_awaited self.now }
    {
        match self.side {
            Side::Client => self.peer.is_none(),
            Side::Server => false,
        }
    }
}

// What is lost by its age is lost.
fn detect_lost(space: &mut InitialSpace, now: Moment)
    requires { IsInitialSpace space.old }
    ensures lost { AreLostByAge now.0 space.old space.new }
    ensures space { IsInitialSpace space.new }
{
    if is_due(space.loss_at(), now) {
        space.detect_lost(now);
    }
}
