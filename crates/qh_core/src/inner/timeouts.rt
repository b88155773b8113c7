ghost use Rattle.std.specs.Prelude.{◌≡◌, ◌⊎◌, ◌≤◌, ◌<◌, ℕ, Some, None, true, false, MatchOption};
ghost use Rattle.qh_base.specs.declared.time.Moment.{Moment as AMoment};
ghost use Rattle.qh_core.specs.Inner.{IsConnection, is_open};
ghost use Rattle.qh_core.specs.Timers.{AreLostByAge, IsDueAt, IsFirstDue, IsIdleDue, IsProbed, IsTimedOut};
ghost use Rattle.qh_space.specs.Space.{IsSpace};

use crate::{Inner, State};
use qh_base::{ConnectionError, Moment, earlier, is_due};
use qh_space::DataSpace;

impl<S> Inner<S> {
    // Does what is due by now.
    pub(crate) fn handle_timeout(&mut self, now: Moment)
        requires { IsConnection self.old }
        ensures done { IsTimedOut now.0 self.old self.new }
        ensures connection { IsConnection self.new }
    {
        if !self.state.is_open() {
            self.end_closed(now);
            return;
        }
        if is_due(self.idle.ends_at(self.space.rtt), now) {
            self.state = State::Drained;
            self.error = Some(ConnectionError::TimedOut);
            return;
        }
        detect_lost(&mut self.space, now);
        probe(&mut self.space, now);
    }

    // A connection that was closed is drained once it is time.
    fn end_closed(&mut self, now: Moment)
        requires whole { IsConnection self.old }
        requires closed { is_open self.old.state ≡ false }
        ensures done { IsTimedOut now.0 self.old self.new }
        ensures connection { IsConnection self.new }
    {
        if is_due(self.state.ends_at(), now) {
            self.state = State::Drained;
        }
    }

    // When something is due first.
    pub(crate) fn poll_timeout(&self) -> Option<Moment>
        requires { IsConnection self.now }
        ensures { MatchOption result ((moment : ℕ) → IsDueAt self.now moment → ⊥) (λ t. IsFirstDue self.now t.0) }
    {
        if !self.state.is_open() {
            return self.state.ends_at();
        }
        let recovery = earlier(self.space.loss_at(), self.space.probe_at());
        earlier(self.idle.ends_at(self.space.rtt), recovery)
    }
}

// What is lost by its age is lost.
fn detect_lost(space: &mut DataSpace, now: Moment)
    requires { IsSpace space.old }
    ensures lost { AreLostByAge now.0 space.old space.new }
    ensures space { IsSpace space.new }
{
    if is_due(space.loss_at(), now) {
        space.detect_lost(now);
    }
}

// A probe is queued where it is due.
fn probe(space: &mut DataSpace, now: Moment)
    requires { IsSpace space.old }
    ensures probed { IsProbed now.0 space.old space.new }
    ensures space { IsSpace space.new }
{
    if is_due(space.probe_at(), now) {
        space.queue_probe();
    }
}
