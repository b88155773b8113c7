ghost use Rattle.std.specs.Prelude.{◌≡◌, ◌⊎◌, ◌≢◌, ◌≤◌, [], false, true, Err, List, None, Ok, Some, IfErr, OnOk, is_some, length};
ghost use Rattle.futures.specs.Poll.{IfReady, OnPending};
ghost use Rattle.futures.specs.Task.{IsArmed, Keeps};
ghost use Rattle.futures.specs.declared.task.Poll.TheVariants as polls;
ghost use Rattle.qh_base.specs.declared.transport_error.TransportError.{TransportError as ATransportError};
ghost use Rattle.qh_conn.specs.Whole.{IsWhole, StandsStill};
ghost use Rattle.qh_core.specs.Event.{is_drained};
ghost use Rattle.qh_core.specs.Inner.{is_open};
ghost use Rattle.qh_core.specs.Receiving.{IsFaulted};
ghost use Rattle.qh_handles.specs.Turns.{AreReady, AreSent, HasCause, IsFull, IsTurnFault};
ghost use Rattle.qh_handles.specs.declared.told.Told.{Told as AToldValue};
ghost use Rattle.qh_quinn.specs.States.{IsState};
ghost use Rattle.qh_quinn.specs.declared.inner.StateInner.{StateInner as AState};
ghost use Rattle.qh_quinn.specs.Turning.{HasMadeNone, HasSameCalls, HasSentAll, IsAdvanced, IsBroughtBy, IsCounted, IsEnded, IsErrorKept, IsHeeded, IsInOrder, IsShown, IsTakenUp, IsTurned};
ghost use Rattle.qh_quinn.specs.Telling.{AreTold};
ghost use Rattle.qh_quinn.specs.Waiting.{HearsDriver, nudged_if};
ghost use Rattle.qh_runtime.specs.Socket.{IsNeither, has_failed};
ghost use Rattle.qh_runtime.specs.declared.runtime.IoFault.TheVariants as faults;
ghost use Rattle.qh_runtime.specs.declared.runtime.OutMessage.{OutMessage as AnOutMessage};
ghost use Rattle.qh_shown.specs.Brings.{Brings, IsLogging};
ghost use Rattle.qh_shown.specs.Connections.{is_wanting};
ghost use Rattle.qh_spec.specs.Codes as codes;

use super::StateInner;
use futures::task::{Context, Poll};
use qh_base::{Moment, Reason, TransportError, TransportErrorCode};
use qh_handles::DriverPart;
use qh_packet::Session;
use qh_runtime::{AsyncUdpSocket, IoFault};

impl<S: Session> StateInner<S> {
    // One turn of the driver: the events that wait are handed over in their order, what is due is done, and datagrams are sent one by one until none is left,
    // 20 were sent (a send that would block counts as one), or the socket isn't ready. While the driver is held none is made.
    pub(crate) fn turn<X: AsyncUdpSocket>(
        &mut self,
        part: &mut DriverPart<X>,
        socket: &mut X,
        now: Moment,
        cx: &mut Context<'_>,
    ) -> Poll<Result<(), IoFault>>
        requires { IsState self.old }
        ensures turned { (out : List AnOutMessage) × IsTurned (AToldValue S.HandshakeData) (record { name = S.name; knows = S.knows; key = S.key; sealed = S.sealed; accepts = S.accepts }) self.old now part.old.is_held out result self.new × AreSent out (X.departed socket.old) (X.departed socket.new)
            × (AreReady X.never_blocks X.Poller.never_blocks socket.old part.old.poller → result ≡ polls.Pending → IsFull part.new.keeps_going out) }
        ensures arrived { X.arrived socket.new ≡ X.arrived socket.old }
        ensures cause { HasCause X.Poller.faults result (X.faults socket.old) (X.faults socket.new) part.old.made part.new.made part.old.poller part.new.poller }
        ensures sent { part.old.is_held ≡ false → AreReady X.never_blocks X.Poller.never_blocks socket.old part.old.poller → result ≡ polls.Pending → part.new.keeps_going ≡ false → HasSentAll self.new }
        ensures ready { AreReady X.never_blocks X.Poller.never_blocks socket.old part.old.poller → AreReady X.never_blocks X.Poller.never_blocks socket.new part.new.poller }
        ensures made { part.old.made ≤ part.new.made }
        ensures errors { IfReady result (λ r. IfErr r IsTurnFault) }
        ensures held { part.new.is_held ≡ part.old.is_held }
        ensures armed { OnPending result (IsArmed cx.new) }
        ensures heard { result ≡ polls.Pending → part.new.keeps_going ≡ false → HearsDriver self.new.driver cx.old cx.new }
        ensures kept { Keeps cx.old cx.new }
    {
        let was_emptied = self.is_emptied();
        self.last_turn = now;
        part.keeps_going = false;
        let sent = self.advance(part, socket, now, cx);
        let done = self.take_up(sent, was_emptied, now);
        self.wake_answered();
        match done {
            Err(fault) => Poll::Ready(Err(fault)),
            Ok(()) => self.rest(part.keeps_going, cx),
        }
    }

    // The turn is over: the driver is done once the connection is drained, and else its task waits, or goes on at once.
    fn rest(&mut self, keeps_going: bool, cx: &mut Context<'_>) -> Poll<Result<(), IoFault>>
        ensures drained { is_drained self.old.connection.core.state ≡ true → (result ≡ polls.Ready (Ok tt)) × (self.new ≡ self.old) }
        ensures waits { is_drained self.old.connection.core.state ≡ false → (result ≡ polls.Pending) × IsArmed cx.new }
        ensures heard { result ≡ polls.Pending → keeps_going ≡ false → HearsDriver self.new.driver cx.old cx.new }
        ensures same { self.new ≡ record self.old { driver = self.new.driver } }
        ensures kept { Keeps cx.old cx.new }
    {
        if self.connection.is_drained() {
            return Poll::Ready(Ok(()));
        }
        if keeps_going {
            return cx.yield_now();
        }
        cx.register(&self.source, &mut self.driver)
    }

    // Hands the events over that wait, does what is due, and sends, unless the driver is held.
    pub(crate) fn advance<X: AsyncUdpSocket>(
        &mut self,
        part: &mut DriverPart<X>,
        socket: &mut X,
        now: Moment,
        cx: &mut Context<'_>,
    ) -> Result<(), IoFault>
        requires whole { IsWhole self.old.connection }
        requires logging { IsLogging self.old.connection }
        requires shown { IsShown self.old.connection }
        ensures advanced { (out : List AnOutMessage) × (advanced : IsAdvanced S.accepts S.sealed result self.old self.new out) × AreSent out (X.departed socket.old) (X.departed socket.new) × (length out ≤ 20) × (part.old.is_held ≡ true → (advanced.made ≡ []) × (out ≡ []))
            × ((result ≡ Err faults.Memory → ⊥) → IsInOrder (record { name = S.name; knows = S.knows; key = S.key; sealed = S.sealed; accepts = S.accepts }) now advanced.handed advanced.made self.old.connection self.new.connection)
            × (AreReady X.never_blocks X.Poller.never_blocks socket.old part.old.poller → part.old.keeps_going ≡ false → OnOk result (IsFull part.new.keeps_going out)) }
        ensures logging { OnOk result (IsLogging self.new.connection) }
        ensures arrived { X.arrived socket.new ≡ X.arrived socket.old }
        ensures counted { IsCounted X.Poller.faults (has_failed result) (X.faults socket.old) (X.faults socket.new) part.old.made part.new.made part.old.poller part.new.poller }
        ensures sent { part.old.is_held ≡ false → AreReady X.never_blocks X.Poller.never_blocks socket.old part.old.poller → OnOk result (is_drained self.new.connection.core.state ≡ false → part.new.keeps_going ≡ false → HasMadeNone self.new) }
        ensures ready { AreReady X.never_blocks X.Poller.never_blocks socket.old part.old.poller → AreReady X.never_blocks X.Poller.never_blocks socket.new part.new.poller }
        ensures held { part.new.is_held ≡ part.old.is_held }
        ensures errors { IfErr result IsNeither }
        ensures kept { Keeps cx.old cx.new }
    {
        qh_shown::events_bring::<S>();
        self.take_events(part)?;
        self.time(now)?;
        if part.is_held || self.connection.is_drained() {
            return Ok(());
        }
        self.transmit(part, socket, now, cx)
    }

    // What the turn brought is known to the handles from now on. Want of memory takes the place of an error that was kept before.
    pub(crate) fn take_up(
        &mut self,
        sent: Result<(), IoFault>,
        was_emptied: bool,
        now: Moment,
    ) -> Result<(), IoFault>
        requires whole { IsWhole self.old.connection }
        ensures taken { (first : AState S) → IsState first → HasSameCalls first self.old → IsBroughtBy sent first.connection self.old.connection → IsEnded first.connection self.old.connection → was_emptied ≡ is_wanting first.connection → IsTakenUp result first self.new }
        ensures other { sent ≢ Err faults.Failed → (result ≡ sent) × AreTold self.old.is_connected self.old.connection self.new.is_connected self.new.connection × (self.new.outgoing ≡ self.old.outgoing) }
        ensures failed { sent ≡ Err faults.Failed → (self.new.outgoing ≡ None) × ((result ≡ sent) ⊎ ((result ≡ Ok tt) × (is_drained self.new.connection.core.state ≡ true))) }
        ensures heeded { IsHeeded now (has_failed result) self.old.is_connected self.old.connection self.new }
        ensures error { has_failed result ≡ false → (first : AState S) → first.error ≡ self.old.error → was_emptied ≡ is_wanting first.connection → IsErrorKept first self.new }
        ensures stands { StandsStill self.old.connection self.new.connection }
        ensures woken { self.new.waiting.items ≡ nudged_if self.old.connection.is_data_due self.old.waiting.items }
        ensures rest { self.new ≡ record self.old { connection = self.new.connection; is_connected = self.new.is_connected; error = self.new.error; waiting = self.new.waiting; outgoing = self.new.outgoing } }
    {
        qh_shown::times_bring::<S>();
        qh_shown::events_bring::<S>();
        let done = self.heed(sent, now);
        self.forward_app_events();
        self.connection.core.is_owed();
        self.keep_loss(has_failed(&done), was_emptied);
        done
    }

    // Why the connection is lost is kept, as the handles are told: the socket failed, or nothing was kept before, or want of memory ended it now.
    fn keep_loss(&mut self, has_failed: bool, was_emptied: bool)
        ensures failed { has_failed ≡ true → self.new.error ≡ self.old.connection.core.error }
        ensures other { has_failed ≡ false → ((self.new.error ≡ self.old.connection.core.error) × ((self.old.error ≡ None) ⊎ ((was_emptied ≡ false) × (is_wanting self.old.connection ≡ true)))) ⊎ ((self.new.error ≡ self.old.error) × (is_some self.old.error ≡ true) × ((was_emptied ≡ true) ⊎ (is_wanting self.old.connection ≡ false))) }
        ensures rest { self.new ≡ record self.old { error = self.new.error } }
    {
        if has_failed || self.error.is_none() || !was_emptied && self.is_emptied() {
            self.error = self.connection.close_reason();
        }
    }

    // If the socket failed, the connection is lost by that, and the datagram that waits is dropped. One that is drained has no use of a socket.
    fn heed(&mut self, sent: Result<(), IoFault>, now: Moment) -> Result<(), IoFault>
        requires whole { IsWhole self.old.connection }
        ensures other { sent ≢ Err faults.Failed → (result ≡ sent) × (self.new ≡ self.old) }
        ensures drained { sent ≡ Err faults.Failed → is_drained self.old.connection.core.state ≡ true → (result ≡ Ok tt) × (self.new ≡ record self.old { outgoing = None }) }
        ensures failed { sent ≡ Err faults.Failed → is_drained self.old.connection.core.state ≡ false → (result ≡ sent) × (is_open self.new.connection.core.state ≡ false) × (self.new ≡ record self.old { outgoing = None; connection = record self.old.connection { core = self.new.connection.core } }) }
        ensures faulted { sent ≡ Err faults.Failed → is_drained self.old.connection.core.state ≡ false → (e : ATransportError) × IsFaulted now e self.old.connection.core self.new.connection.core × (e.code.0 ≡ codes.internal_error) }
        ensures brings { sent ≡ Err faults.Failed → is_drained self.old.connection.core.state ≡ false → Brings [] self.old.connection self.new.connection }
        ensures stands { StandsStill self.old.connection self.new.connection }
        ensures same { (self.new.waiting ≡ self.old.waiting) × (self.new.connection.is_data_due ≡ self.old.connection.is_data_due) }
        ensures whole { IsWhole self.new.connection }
    {
        qh_shown::closes_shown::<S>();
        let Err(IoFault::Failed) = sent else {
            return sent;
        };
        self.outgoing = None;
        if self.connection.is_drained() {
            return Ok(());
        }
        self.connection.close_by_fault(now, socket_fault());
        sent
    }
}

// Whether the socket failed.
fn has_failed(done: &Result<(), IoFault>) -> bool
    ensures { result ≡ has_failed done.now }
{
    matches!(done, Err(IoFault::Failed))
}

fn socket_fault() -> TransportError
    ensures { result.code.0 ≡ codes.internal_error }
{
    TransportError {
        code: TransportErrorCode::INTERNAL_ERROR,
        frame: None,
        reason: Reason::of(b"socket failed"),
    }
}
