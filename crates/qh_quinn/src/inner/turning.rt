ghost use Rattle.std.specs.Prelude.{◌≡◌, ◌⊎◌, ◌≤◌, ◌++◌, [], false, true, Err, List, None, Ok, IfErr, OnOk, is_some, length};
ghost use Rattle.futures.specs.Task.{Keeps};
ghost use Rattle.qh_conn.specs.Whole.{IsWhole};
ghost use Rattle.qh_handles.specs.Turns.{AreReady, AreSent, IsFull};
ghost use Rattle.qh_quinn.specs.Turning.{AreHandled, AreMade, HasMadeNone, IsCounted, IsFilled, IsHandled, IsSending, IsShown, IsTimedAt, ended, ended_by, waits_in};
ghost use Rattle.qh_runtime.specs.Socket.{IsNeither, has_failed};
ghost use Rattle.qh_runtime.specs.declared.runtime.IoFault.TheVariants as faults;
ghost use Rattle.qh_runtime.specs.declared.runtime.OutMessage.{OutMessage as AnOutMessage};
ghost use Rattle.qh_shown.specs.Brings.{IsLogging};
ghost use Rattle.qh_shown.specs.Connections.{is_wanting};
ghost use Rattle.qh_spec.specs.Fault.{CountsFaults};

use super::StateInner;
use futures::task::{Context, Poll};
use qh_base::{Memory, Moment, is_due};
use qh_conn::ConnectionEvent;
use qh_handles::DriverPart;
use qh_packet::Session;
use qh_runtime::{AsyncUdpSocket, IoFault, UdpPoller};

/// How many datagrams one turn sends at most (quinn, `MAX_TRANSMIT_DATAGRAMS`).
const MAX_TRANSMIT_DATAGRAMS: usize = 20;

impl<S: Session> StateInner<S> {
    // Hands the events over that wait.
    pub(crate) fn take_events<X: AsyncUdpSocket>(
        &mut self,
        part: &mut DriverPart<X>,
    ) -> Result<(), IoFault>
        requires whole { IsWhole self.old.connection }
        requires logging { IsLogging self.old.connection }
        requires shown { IsShown self.old.connection }
        ensures handled { (h : IsHandled S.accepts S.sealed result self.old self.new) × OnOk result (AreHandled (record { name = S.name; knows = S.knows; key = S.key; sealed = S.sealed; accepts = S.accepts }) h.handed self.old.connection self.new.connection) }
        ensures all { OnOk result (self.new.events.items ≡ []) }
        ensures part { part.new ≡ record part.old { poller = part.new.poller } }
        ensures poller { (part.new.poller ≡ part.old.poller) ⊎ (part.new.poller ≡ None) }
        ensures errors { IfErr result (λ e. e ≡ faults.Memory) }
    {
        qh_shown::events_bring::<S>();
        qh_shown::wants_bring::<S>();
        while let Some(event) = self.events.pop_front() {
            follow_socket(part, &event);
            self.connection.handle_event(event)?;
        }
        Ok(())
    }

    // Does what is due.
    pub(crate) fn time(&mut self, now: Moment) -> Result<(), IoFault>
        requires whole { IsWhole self.old.connection }
        requires shown { IsShown self.old.connection }
        ensures handled { IsHandled S.accepts S.sealed result self.old self.new }
        ensures timed { OnOk result (IsTimedAt now self.old.connection self.new.connection) }
        ensures same { self.new.events ≡ self.old.events }
        ensures errors { IfErr result (λ e. e ≡ faults.Memory) }
    {
        qh_shown::events_bring::<S>();
        qh_shown::times_bring::<S>();
        qh_shown::wants_bring::<S>();
        if is_due(self.connection.poll_timeout(), now) {
            self.connection.handle_timeout(now)?;
        }
        Ok(())
    }

    // Sends until nothing is left, as many were sent as one turn may send, or the socket isn't ready.
    pub(crate) fn transmit<X: AsyncUdpSocket>(
        &mut self,
        part: &mut DriverPart<X>,
        socket: &mut X,
        now: Moment,
        cx: &mut Context<'_>,
    ) -> Result<(), IoFault>
        requires whole { IsWhole self.old.connection }
        requires shown { IsShown self.old.connection }
        requires calm { is_wanting self.old.connection ≡ false }
        ensures sending { (out : List AnOutMessage) × (sending : IsSending S.accepts S.sealed result self.old self.new out) × AreSent out (X.departed socket.old) (X.departed socket.new) × (length out ≤ 20)
            × (AreReady X.never_blocks X.Poller.never_blocks socket.old part.old.poller → part.old.keeps_going ≡ false → OnOk result (IsFull part.new.keeps_going out))
            × ((result ≡ Err faults.Memory → ⊥) → IsFilled S.sealed now sending.made self.old.connection self.new.connection) }
        ensures arrived { X.arrived socket.new ≡ X.arrived socket.old }
        ensures counted { IsCounted X.Poller.faults (has_failed result) (X.faults socket.old) (X.faults socket.new) part.old.made part.new.made part.old.poller part.new.poller }
        ensures sent { AreReady X.never_blocks X.Poller.never_blocks socket.old part.old.poller → OnOk result (part.new.keeps_going ≡ false → HasMadeNone self.new) }
        ensures ready { AreReady X.never_blocks X.Poller.never_blocks socket.old part.old.poller → AreReady X.never_blocks X.Poller.never_blocks socket.new part.new.poller }
        ensures held { part.new.is_held ≡ part.old.is_held }
        ensures errors { IfErr result IsNeither }
        ensures kept { Keeps cx.old cx.new }
    {
        qh_shown::events_bring::<S>();
        for _ in 0..MAX_TRANSMIT_DATAGRAMS {
            if !self.transmit_one(part, socket, now, cx)? {
                return Ok(());
            }
        }
        part.keeps_going = true;
        Ok(())
    }

    // Makes a datagram and hands it to the socket. Whether one was there and the socket could be written to; if it takes it not at once, it waits.
    pub(crate) fn transmit_one<X: AsyncUdpSocket>(
        &mut self,
        part: &mut DriverPart<X>,
        socket: &mut X,
        now: Moment,
        cx: &mut Context<'_>,
    ) -> Result<bool, IoFault>
        requires whole { IsWhole self.old.connection }
        requires shown { IsShown self.old.connection }
        requires calm { is_wanting self.old.connection ≡ false }
        ensures sending { (out : List AnOutMessage) × (sending : IsSending S.accepts S.sealed (ended_by result) self.old self.new out) × AreSent out (X.departed socket.old) (X.departed socket.new) × (length out ≤ 1)
            × (AreReady X.never_blocks X.Poller.never_blocks socket.old part.old.poller → result ≡ Ok true → length out ≡ 1)
            × (result ≡ Ok true → AreMade S.sealed now sending.made self.old.connection self.new.connection)
            × ((result ≡ Err faults.Memory → ⊥) → IsFilled S.sealed now sending.made self.old.connection self.new.connection) }
        ensures arrived { X.arrived socket.new ≡ X.arrived socket.old }
        ensures counted { IsCounted X.Poller.faults (has_failed result) (X.faults socket.old) (X.faults socket.new) part.old.made part.new.made part.old.poller part.new.poller }
        ensures sent { AreReady X.never_blocks X.Poller.never_blocks socket.old part.old.poller → result ≡ Ok false → HasMadeNone self.new }
        ensures ready { AreReady X.never_blocks X.Poller.never_blocks socket.old part.old.poller → AreReady X.never_blocks X.Poller.never_blocks socket.new part.new.poller }
        ensures part { part.new ≡ record part.old { poller = part.new.poller; made = part.new.made } }
        ensures errors { IfErr result IsNeither }
        ensures kept { Keeps cx.old cx.new }
    {
        qh_shown::events_bring::<S>();
        if !self.make_datagram(now)? || !is_writable(part, socket, cx)? {
            return Ok(false);
        }
        self.send(socket)?;
        Ok(true)
    }

    // Makes the next datagram, unless one waits for the socket. Whether there is one.
    pub(crate) fn make_datagram(&mut self, now: Moment) -> Result<bool, Memory>
        requires whole { IsWhole self.old.connection }
        requires shown { IsShown self.old.connection }
        requires calm { is_wanting self.old.connection ≡ false }
        ensures sending { (sending : IsSending S.accepts S.sealed (ended result) self.old self.new []) × (result ≡ Ok true → AreMade S.sealed now sending.made self.old.connection self.new.connection) × OnOk result (IsFilled S.sealed now sending.made self.old.connection self.new.connection) }
        ensures there { result ≡ Ok true → is_some self.new.outgoing ≡ true }
        ensures none { result ≡ Ok false → HasMadeNone self.new }
    {
        qh_shown::events_bring::<S>();
        qh_shown::sends_bring::<S>();
        qh_shown::wants_bring::<S>();
        if self.outgoing.is_some() {
            return Ok(true);
        }
        self.send_buffer.clear();
        self.outgoing = self.connection.poll_transmit(now, &mut self.send_buffer)?;
        Ok(self.outgoing.is_some())
    }

    // Hands the datagram to the socket. If the socket takes none now it waits.
    pub(crate) fn send<X: AsyncUdpSocket>(&mut self, socket: &mut X) -> Result<(), IoFault>
        ensures rest { self.new ≡ record self.old { outgoing = self.new.outgoing } }
        ensures sent { (out : List AnOutMessage) × AreSent out (X.departed socket.old) (X.departed socket.new) × (waits_in self.old ≡ out ++ waits_in self.new) × (length out ≤ 1) }
        ensures taken { X.never_blocks socket.old → OnOk result (self.new.outgoing ≡ None) }
        ensures arrived { X.arrived socket.new ≡ X.arrived socket.old }
        ensures cause { CountsFaults (X.faults socket.old) (X.faults socket.new) (has_failed result) }
        ensures ready { X.never_blocks socket.old → X.never_blocks socket.new }
        ensures errors { IfErr result IsNeither }
    {
        let Some(transmit) = self.outgoing else {
            return Ok(());
        };
        match socket.try_send(&transmit, self.send_buffer.as_slice()) {
            Ok(()) => {
                self.outgoing = None;
                Ok(())
            }
            Err(IoFault::WouldBlock) => Ok(()),
            Err(fault) => Err(fault),
        }
    }
}

// A new socket needs a new poller.
fn follow_socket<X: AsyncUdpSocket>(part: &mut DriverPart<X>, event: &ConnectionEvent)
    ensures part { part.new ≡ record part.old { poller = part.new.poller } }
    ensures poller { (part.new.poller ≡ part.old.poller) ⊎ (part.new.poller ≡ None) }
{
    if let ConnectionEvent::Rebind = event {
        part.poller = None;
    }
}

// Whether the socket can be written to; if not, the task waits. The driver's poller is made once it is needed.
fn is_writable<X: AsyncUdpSocket>(
    part: &mut DriverPart<X>,
    socket: &mut X,
    cx: &mut Context<'_>,
) -> Result<bool, IoFault>
    ensures counted { IsCounted X.Poller.faults (has_failed result) (X.faults socket.old) (X.faults socket.new) part.old.made part.new.made part.old.poller part.new.poller }
    ensures arrived { X.arrived socket.new ≡ X.arrived socket.old }
    ensures departed { X.departed socket.new ≡ X.departed socket.old }
    ensures ready { AreReady X.never_blocks X.Poller.never_blocks socket.old part.old.poller → AreReady X.never_blocks X.Poller.never_blocks socket.new part.new.poller × (result ≡ Ok false → ⊥) }
    ensures part { part.new ≡ record part.old { poller = part.new.poller; made = part.new.made } }
    ensures errors { IfErr result IsNeither }
    ensures kept { Keeps cx.old cx.new }
{
    make_poller(part, socket)?;
    let Some(poller) = &mut part.poller else {
        return Ok(false);
    };
    match poller.poll_writable(cx) {
        Poll::Ready(Ok(())) => Ok(true),
        Poll::Ready(Err(fault)) => Err(fault),
        Poll::Pending => Ok(false),
    }
}

// Makes a poller of the socket, if there is none.
fn make_poller<X: AsyncUdpSocket>(part: &mut DriverPart<X>, socket: &mut X) -> Result<(), Memory>
    ensures counted { IsCounted X.Poller.faults false (X.faults socket.old) (X.faults socket.new) part.old.made part.new.made part.old.poller part.new.poller }
    ensures there { OnOk result (is_some part.new.poller ≡ true) }
    ensures arrived { X.arrived socket.new ≡ X.arrived socket.old }
    ensures departed { X.departed socket.new ≡ X.departed socket.old }
    ensures ready { AreReady X.never_blocks X.Poller.never_blocks socket.old part.old.poller → AreReady X.never_blocks X.Poller.never_blocks socket.new part.new.poller }
    ensures part { part.new ≡ record part.old { poller = part.new.poller; made = part.new.made } }
{
    if part.poller.is_none() {
        part.poller = Some(socket.create_io_poller()?);
        part.made = part.made.saturating_add(1);
    }
    Ok(())
}
