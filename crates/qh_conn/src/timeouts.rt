ghost use Rattle.std.specs.Prelude.{◌≡◌, [], ℕ, List, Option, true, MatchOption, OnOk, OnErr};
ghost use Rattle.std.specs.Option.{option_map};
ghost use Rattle.qh_conn.specs.Incoming.{IsOver};
ghost use Rattle.qh_conn.specs.Items.{IsLogEnded, LogGoesOn};
ghost use Rattle.qh_conn.specs.Same.{IsSameConnection};
ghost use Rattle.qh_conn.specs.Telling.{IsDueAt, IsFirstDue, IsHandshakeTimed, IsTimedOut, IsTold, event_of};
ghost use Rattle.qh_conn.specs.Unread.{HasFailed, IsOverOf, IsTimeCut};
ghost use Rattle.qh_conn.specs.Whole.{IsWhole, StandsStill};
ghost use Rattle.qh_conn.specs.declared.connection.Connection.{Connection as AConnection};
ghost use Rattle.qh_core.specs.Event.{IsPolledEvent};
ghost use Rattle.qh_core.specs.Inner.{is_open};
ghost use Rattle.qh_core.specs.Timers.{IsIdleDue, IsTimedOut as IsCoreTimedOut};
ghost use Rattle.qh_core.specs.declared.event.Event.{Event as ACoreEvent};

use crate::{Connection, Event};
use qh_base::{Memory, Moment, earlier};
use qh_converse::sends;
use qh_packet::Session;

impl<S: Session> Connection<S> {
    /// Does what is due by now: the idle time ends the connection with TimedOut; else packets that are out for too long are lost, and if a
    /// probe is due something is queued for it; a connection that was closed is drained. Want of memory, only for frames that were lost by that,
    /// ends the connection. It is the same connection still, and what waited for the endpoint stays.
    pub fn handle_timeout(&mut self, now: Moment) -> Result<(), Memory>
        requires { IsWhole self.old }
        ensures ok { OnOk result (IsTimedOut now.0 self.old self.new) }
        ensures err { OnErr result (IsOver self.new) }
        ensures over { OnErr result (IsOverOf [] self.old self.new) }
        ensures unread { OnErr result ((mid : AConnection S) × IsTimeCut now.0 self.old mid × HasFailed mid self.new) }
        ensures log { OnErr result (IsLogEnded [] self.old self.new) }
        ensures wanting { OnErr result ((is_open self.old.core.state ≡ true) × (IsIdleDue now.0 self.old.core → ⊥)) }
        ensures stands { StandsStill self.old self.new }
        ensures whole { IsWhole self.new }
        ensures same { IsSameConnection S.key self.old self.new }
    {
        self.time_ends(now);
        if self.core.is_closed() {
            return Ok(());
        }
        let Ok(()) = self.control.queue.on_lost(&self.core) else {
            self.fail();
            return Err(Memory);
        };
        Ok(())
    }
}

impl<S> Connection<S> {
    /// When something is due first. None exactly if nothing is.
    pub fn poll_timeout(&self) -> Option<Moment>
        requires { IsWhole self.now }
        ensures { MatchOption result ((moment : ℕ) → IsDueAt self.now moment → ⊥) (λ t. IsFirstDue self.now t.0) }
    {
        let core = self.core.poll_timeout();
        if self.core.is_closed() {
            return core;
        }
        earlier(core, self.handshake.poll_timeout())
    }

    /// What happened next, for the application. None exactly if nothing is left to be told.
    pub fn poll(&mut self) -> Option<Event>
        requires { IsWhole self.old }
        ensures told { IsTold self.old self.new result }
        ensures stands { StandsStill self.old self.new }
        ensures whole { IsWhole self.new }
        ensures same { (key : S → List ℕ) → IsSameConnection key self.old self.new }
    {
        if self.is_data_due {
            self.is_data_due = false;
            return Some(Event::HandshakeDataReady);
        }
        if self.is_connected_due {
            self.is_connected_due = false;
            return Some(Event::Connected);
        }
        if self.control.take_datagram_news() {
            return Some(Event::DatagramReceived);
        }
        if self.control.take_unblocked_news() {
            return Some(Event::DatagramsUnblocked);
        }
        self.poll_core()
    }

    // What happened next to the end of the 1-RTT packets.
    fn poll_core(&mut self) -> Option<Event>
        requires { IsWhole self.old }
        ensures told { (told : Option ACoreEvent) × (result ≡ option_map event_of told) × IsPolledEvent self.old.core self.new.core told }
        ensures rest { self.new ≡ record self.old { core = self.new.core } }
        ensures stands { StandsStill self.old self.new }
        ensures whole { IsWhole self.new }
    {
        match self.core.poll() {
            Some(event) => Some(event_of(event)),
            None => None,
        }
    }

    // What is due of the handshake and of the end of the 1-RTT packets.
    fn time_ends(&mut self, now: Moment)
        requires { IsWhole self.old }
        ensures handshake { IsHandshakeTimed now.0 (is_open self.old.core.state) self.old.handshake self.new.handshake }
        ensures core { IsCoreTimedOut now.0 self.old.core self.new.core }
        ensures opens { is_open self.new.core.state ≡ true → (is_open self.old.core.state ≡ true) × (IsIdleDue now.0 self.old.core → ⊥) }
        ensures rest { self.new ≡ record self.old { handshake = self.new.handshake; core = self.new.core } }
        ensures log { LogGoesOn [] self.old self.new }
        ensures stands { StandsStill self.old self.new }
        ensures whole { IsWhole self.new }
    {
        self.time_handshake(now);
        self.core.handle_timeout(now);
    }

    // What is due of the handshake of an end that is open.
    fn time_handshake(&mut self, now: Moment)
        requires { IsWhole self.old }
        ensures handshake { IsHandshakeTimed now.0 (is_open self.old.core.state) self.old.handshake self.new.handshake }
        ensures rest { self.new ≡ record self.old { handshake = self.new.handshake } }
        ensures stands { StandsStill self.old self.new }
        ensures whole { IsWhole self.new }
    {
        sends::<S>();
        if self.core.is_closed() {
            return;
        }
        self.handshake.handle_timeout(now);
    }
}

fn event_of(event: qh_core::Event) -> Event
    ensures { result ≡ event_of event }
{
    match event {
        qh_core::Event::ConnectionLost { reason } => Event::ConnectionLost { reason },
        qh_core::Event::Stream(event) => Event::Stream(event),
    }
}
