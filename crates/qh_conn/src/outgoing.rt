ghost use Rattle.std.specs.Prelude.{◌≡◌, ◌⊎◌, ◌∷◌, [], None, Some, true, false, length, IfOk, IfSome, OnErr, OnOk};
ghost use Rattle.qh_base.specs.declared.time.Moment.{Moment as AMoment};
ghost use Rattle.qh_conn.specs.Incoming.{IsOver};
ghost use Rattle.qh_conn.specs.Items.{IsLogEnded, LogGoesOn};
ghost use Rattle.qh_conn.specs.Outgoing.{IsControlHeld, IsDataTransmitted, IsInitialClose, IsSilent, IsStill, IsTransmitted, TakesTurns, handed_on, made_acts};
ghost use Rattle.qh_conn.specs.Same.{IsSameConnection};
ghost use Rattle.qh_conn.specs.Unread.{EndsUnsent, HasFailed, IsDataUnsent, IsOverOf, IsUnsent};
ghost use Rattle.qh_conn.specs.Whole.{CarriesOnBy, IsSafe, IsWhole};
ghost use Rattle.qh_conn.specs.declared.connection.Connection.{Connection as AConnection};
ghost use Rattle.qh_core.specs.Inner.{IsFailedBy, is_open};
ghost use Rattle.qh_core.specs.Sending.{BearsNoControl, IsDatagramMade as IsCoreMade, IsSilent as IsCoreSilent, is_close_due};
ghost use Rattle.qh_handshake.specs.Outgoing.{IsCloseKept, IsCloseUnsent, IsSilent as IsSilentHandshake, IsUnsent as IsInitialUnsent};
ghost use Rattle.qh_packet.specs.Session.{MakesTags, NamesTags};

use crate::connection::count;
use crate::{Connection, ConnectionItem};
use qh_base::{ConnectionClose, Memory, Moment, Reason, Transmit, TransportErrorCode};
use qh_conduct::behaves_on;
use qh_converse::sends;
use qh_core::Close;
use qh_packet::Session;

impl<S: Session> Connection<S> {
    /// Appends the next datagram to the buffer, and says where it goes. None exactly if nothing is to be sent: nothing is queued, or the
    /// window, the peer's limits, the limit before the client's address is validated, or the end of the packet numbers forbids it, or the
    /// connection was closed and has said so. Want of memory leaves the buffer as it was and ends the connection: it is the same connection
    /// still, and what waited for the endpoint stays. One that was over before the handshake was complete stays as it was, with its error, and
    /// its close stays due: at most a packet number is used up.
    pub fn poll_transmit(
        &mut self,
        now: Moment,
        buf: &mut Vec<u8>,
    ) -> Result<Option<Transmit>, Memory>
        requires { IsWhole self.old }
        ensures some { IfOk result (λ o. IfSome o (λ t. IsTransmitted (S.sealed self.old.core.session) now self.old self.new buf.old.items buf.new.items t)) }
        ensures none { IfOk result (λ o. o ≡ None → (buf.new.items ≡ buf.old.items) × IsSilent self.old × IsStill self.old self.new) }
        ensures err { OnErr result ((buf.new.items ≡ buf.old.items) × (EndsUnsent self.old → IsOver self.new)) }
        ensures closing { OnErr result (is_open self.old.core.state ≡ false → self.old.is_connected ≡ false → IsCloseUnsent self.old.handshake self.new.handshake × (self.new ≡ record self.old { handshake = self.new.handshake })) }
        ensures over { OnErr result (IsOverOf [] self.old self.new) }
        ensures unsent { OnErr result ((mid : AConnection S) × IsUnsent now self.old mid × (EndsUnsent self.old → HasFailed mid self.new)) }
        ensures log { OnErr result (EndsUnsent self.old → IsLogEnded [] self.old self.new) }
        ensures carries { NamesTags (S.accepts self.old.core.session) → MakesTags (S.sealed self.old.core.session) → CarriesOnBy S.accepts S.sealed self.old self.new (made_acts buf.old.items buf.new.items result) }
        ensures whole { IsWhole self.new }
        ensures same { IsSameConnection S.key self.old self.new }
    {
        let is_closing = self.is_closing();
        let Ok(made) = self.transmit(now, buf) else {
            if is_closing {
                return Err(Memory);
            }
            self.fail();
            return Err(Memory);
        };
        if let Some(transmit) = &made {
            count(&mut self.udp_tx, transmit.size);
        }
        Ok(made)
    }

    // Appends the next datagram.
    fn transmit(&mut self, now: Moment, buf: &mut Vec<u8>) -> Result<Option<Transmit>, Memory>
        requires { IsWhole self.old }
        ensures some { IfOk result (λ o. IfSome o (λ t. IsTransmitted (S.sealed self.old.core.session) now self.old (handed_on t.size self.new) buf.old.items buf.new.items t)) }
        ensures none { IfOk result (λ o. o ≡ None → (buf.new.items ≡ buf.old.items) × IsSilent self.old × IsStill self.old self.new) }
        ensures err { OnErr result (buf.new.items ≡ buf.old.items) }
        ensures unsent { OnErr result (IsUnsent now self.old self.new) }
        ensures closing { OnErr result (is_open self.old.core.state ≡ false → self.old.is_connected ≡ false → IsWhole self.new) }
        ensures log { OnErr result (LogGoesOn [] self.old self.new) }
        ensures carries { NamesTags (S.accepts self.old.core.session) → MakesTags (S.sealed self.old.core.session) → CarriesOnBy S.accepts S.sealed self.old self.new (made_acts buf.old.items buf.new.items result) }
        ensures safe { IsSafe self.new }
        ensures whole { OnOk result (IsWhole self.new) }
        ensures same { IsSameConnection S.key self.old self.new }
    {
        if self.core.is_closed() {
            return if self.is_connected {
                self.transmit_core(now, buf)
            } else {
                self.transmit_close(buf)
            };
        }
        if self.is_connected {
            self.transmit_data(now, buf)
        } else {
            self.transmit_initial(now, buf)
        }
    }

    // Before the handshake is complete a close goes in an Initial packet (RFC 9000, section 10.2.3).
    fn transmit_close(&mut self, buf: &mut Vec<u8>) -> Result<Option<Transmit>, Memory>
        requires whole { IsWhole self.old }
        requires early { self.old.is_connected ≡ false }
        ensures some { IfOk result (λ o. IfSome o (λ t. (now : AMoment) → IsTransmitted (S.sealed self.old.core.session) now self.old (handed_on t.size self.new) buf.old.items buf.new.items t)) }
        ensures none { IfOk result (λ o. o ≡ None → (buf.new.items ≡ buf.old.items) × (self.new ≡ self.old) × ((is_close_due self.old.core.state ≡ false) ⊎ IsCloseKept self.old.handshake)) }
        ensures err { OnErr result (buf.new.items ≡ buf.old.items) }
        ensures unsent { OnErr result (IsCloseUnsent self.old.handshake self.new.handshake × (self.new ≡ record self.old { handshake = self.new.handshake })) }
        ensures log { OnErr result (LogGoesOn [] self.old self.new) }
        ensures carries { NamesTags (S.accepts self.old.core.session) → MakesTags (S.sealed self.old.core.session) → CarriesOnBy S.accepts S.sealed self.old self.new (made_acts buf.old.items buf.new.items result) }
        ensures whole { IsWhole self.new }
        ensures same { IsSameConnection S.key self.old self.new }
    {
        sends::<S>();
        let Some(close) = self.core.close_due() else {
            return Ok(None);
        };
        let close = initial_close(close);
        let sent = self
            .handshake
            .transmit_close(self.alloc, self.core.session(), &close, buf)?;
        let Some(size) = sent else {
            return Ok(None);
        };
        self.core.close_told();
        Ok(Some(self.transmit_of(size)))
    }

    // A datagram of the handshake.
    fn transmit_initial(
        &mut self,
        now: Moment,
        buf: &mut Vec<u8>,
    ) -> Result<Option<Transmit>, Memory>
        requires whole { IsWhole self.old }
        requires open { is_open self.old.core.state ≡ true }
        ensures some { IfOk result (λ o. IfSome o (λ t. IsTransmitted (S.sealed self.old.core.session) now self.old (handed_on t.size self.new) buf.old.items buf.new.items t)) }
        ensures none { IfOk result (λ o. o ≡ None → (buf.new.items ≡ buf.old.items) × (self.new ≡ self.old) × IsSilentHandshake self.old.handshake) }
        ensures err { OnErr result (buf.new.items ≡ buf.old.items) }
        ensures unsent { OnErr result (IsInitialUnsent now self.old.handshake self.new.handshake × (self.new ≡ record self.old { handshake = self.new.handshake })) }
        ensures log { OnErr result (LogGoesOn [] self.old self.new) }
        ensures carries { NamesTags (S.accepts self.old.core.session) → MakesTags (S.sealed self.old.core.session) → CarriesOnBy S.accepts S.sealed self.old self.new (made_acts buf.old.items buf.new.items result) }
        ensures whole { IsWhole self.new }
        ensures same { IsSameConnection S.key self.old self.new }
    {
        sends::<S>();
        let sent = self
            .handshake
            .poll_transmit(self.alloc, self.core.session(), now, buf)?;
        let Some(sent) = sent else {
            return Ok(None);
        };
        if sent.is_ack_eliciting {
            self.core.on_packet_sent(now);
        }
        Ok(Some(self.transmit_of(sent.size)))
    }

    // A 1-RTT packet of an end that is connected.
    fn transmit_data(&mut self, now: Moment, buf: &mut Vec<u8>) -> Result<Option<Transmit>, Memory>
        requires whole { IsWhole self.old }
        requires connected { self.old.is_connected ≡ true }
        requires open { is_open self.old.core.state ≡ true }
        ensures some { IfOk result (λ o. IfSome o (λ t. IsDataTransmitted (S.sealed self.old.core.session) now self.old (handed_on t.size self.new) buf.old.items buf.new.items t)) }
        ensures none { IfOk result (λ o. o ≡ None → (buf.new.items ≡ buf.old.items) × IsCoreSilent self.old.core × IsControlHeld self.old × IsStill self.old self.new) }
        ensures turns { IfOk result (λ o. IfSome o (λ t. TakesTurns self.old self.new)) }
        ensures err { OnErr result (buf.new.items ≡ buf.old.items) }
        ensures unsent { OnErr result (IsDataUnsent self.old self.new) }
        ensures log { OnErr result (LogGoesOn [] self.old self.new) }
        ensures carries { NamesTags (S.accepts self.old.core.session) → MakesTags (S.sealed self.old.core.session) → CarriesOnBy S.accepts S.sealed self.old self.new (made_acts buf.old.items buf.new.items result) }
        ensures safe { IsSafe self.new }
        ensures whole { OnOk result (IsWhole self.new) }
        ensures same { IsSameConnection S.key self.old self.new }
    {
        if !self.is_control_next {
            return self.transmit_in_turn(now, buf);
        }
        if let Some(transmit) = self.transmit_control(now, buf)? {
            return Ok(Some(transmit));
        }
        self.transmit_in_turn(now, buf)
    }

    // The same, with frames of its own after what the streams and acknowledgements have to send.
    fn transmit_in_turn(
        &mut self,
        now: Moment,
        buf: &mut Vec<u8>,
    ) -> Result<Option<Transmit>, Memory>
        requires whole { IsWhole self.old }
        requires connected { self.old.is_connected ≡ true }
        requires open { is_open self.old.core.state ≡ true }
        ensures some { IfOk result (λ o. IfSome o (λ t. IsDataTransmitted (S.sealed self.old.core.session) now self.old (handed_on t.size self.new) buf.old.items buf.new.items t)) }
        ensures none { IfOk result (λ o. o ≡ None → (buf.new.items ≡ buf.old.items) × IsCoreSilent self.old.core × IsControlHeld self.old × IsStill self.old self.new) }
        ensures others { IfOk result (λ o. IfSome o (λ t. (self.new.is_control_next ≡ true) ⊎ IsCoreSilent self.old.core)) }
        ensures err { OnErr result (buf.new.items ≡ buf.old.items) }
        ensures unsent { OnErr result (IsDataUnsent self.old self.new) }
        ensures log { OnErr result (LogGoesOn [] self.old self.new) }
        ensures carries { NamesTags (S.accepts self.old.core.session) → MakesTags (S.sealed self.old.core.session) → CarriesOnBy S.accepts S.sealed self.old self.new (made_acts buf.old.items buf.new.items result) }
        ensures safe { IsSafe self.new }
        ensures whole { OnOk result (IsWhole self.new) }
        ensures same { IsSameConnection S.key self.old self.new }
    {
        if let Some(transmit) = self.transmit_core(now, buf)? {
            self.is_control_next = true;
            return Ok(Some(transmit));
        }
        self.transmit_control(now, buf)
    }

    // What the streams and acknowledgements have to send, or the close.
    fn transmit_core(&mut self, now: Moment, buf: &mut Vec<u8>) -> Result<Option<Transmit>, Memory>
        requires whole { IsWhole self.old }
        requires connected { self.old.is_connected ≡ true }
        ensures some { IfOk result (λ o. IfSome o (λ t. IsCoreMade (S.sealed self.old.core.session) now self.old.core self.new.core buf.old.items buf.new.items t × BearsNoControl (S.sealed self.old.core.session) now self.old.core self.new.core buf.old.items buf.new.items)) }
        ensures none { IfOk result (λ o. o ≡ None → (buf.new.items ≡ buf.old.items) × (self.new ≡ self.old) × IsCoreSilent self.old.core) }
        ensures err { OnErr result (buf.new.items ≡ buf.old.items) }
        ensures unsent { OnErr result (IsDataUnsent self.old self.new) }
        ensures log { OnErr result (LogGoesOn [] self.old self.new) }
        ensures rest { self.new ≡ record self.old { core = self.new.core } }
        ensures carries { NamesTags (S.accepts self.old.core.session) → MakesTags (S.sealed self.old.core.session) → CarriesOnBy S.accepts S.sealed self.old self.new (made_acts buf.old.items buf.new.items result) }
        ensures safe { IsSafe self.new }
        ensures whole { OnOk result (IsWhole self.new) }
        ensures same { IsSameConnection S.key self.old self.new }
    {
        sends::<S>();
        behaves_on::<S>();
        self.core.poll_transmit(now, buf)
    }

    // A datagram of the connection's own frames: those that wait, or else datagrams of the application's.
    fn transmit_control(
        &mut self,
        now: Moment,
        buf: &mut Vec<u8>,
    ) -> Result<Option<Transmit>, Memory>
        requires whole { IsWhole self.old }
        requires connected { self.old.is_connected ≡ true }
        ensures some { IfOk result (λ o. IfSome o (λ t. IsDataTransmitted (S.sealed self.old.core.session) now self.old (handed_on t.size self.new) buf.old.items buf.new.items t)) }
        ensures none { IfOk result (λ o. o ≡ None → (buf.new.items ≡ buf.old.items) × IsControlHeld self.old × IsStill self.old self.new) }
        ensures next { IfOk result (λ o. IfSome o (λ t. self.new.is_control_next ≡ false)) }
        ensures err { OnErr result (buf.new.items ≡ buf.old.items) }
        ensures unsent { OnErr result (IsDataUnsent self.old self.new) }
        ensures log { OnErr result (LogGoesOn [] self.old self.new) }
        ensures carries { NamesTags (S.accepts self.old.core.session) → MakesTags (S.sealed self.old.core.session) → CarriesOnBy S.accepts S.sealed self.old self.new (made_acts buf.old.items buf.new.items result) }
        ensures safe { IsSafe self.new }
        ensures whole { OnOk result (IsWhole self.new) }
        ensures same { IsSameConnection S.key self.old self.new }
    {
        if self.control.queue.waiting().is_empty() {
            self.transmit_datagrams(now, buf)
        } else {
            self.transmit_waiting(now, buf)
        }
    }

    // A datagram of the application's datagrams.
    fn transmit_datagrams(
        &mut self,
        now: Moment,
        buf: &mut Vec<u8>,
    ) -> Result<Option<Transmit>, Memory>
        requires whole { IsWhole self.old }
        requires connected { self.old.is_connected ≡ true }
        requires none { self.old.control.queue.waiting ≡ [] }
        ensures some { IfOk result (λ o. IfSome o (λ t. IsDataTransmitted (S.sealed self.old.core.session) now self.old (handed_on t.size self.new) buf.old.items buf.new.items t)) }
        ensures none { IfOk result (λ o. o ≡ None → (buf.new.items ≡ buf.old.items) × IsControlHeld self.old × (self.new ≡ self.old)) }
        ensures next { IfOk result (λ o. IfSome o (λ t. self.new.is_control_next ≡ false)) }
        ensures err { OnErr result (buf.new.items ≡ buf.old.items) }
        ensures unsent { OnErr result (IsDataUnsent self.old self.new) }
        ensures log { OnErr result (LogGoesOn [] self.old self.new) }
        ensures carries { NamesTags (S.accepts self.old.core.session) → MakesTags (S.sealed self.old.core.session) → CarriesOnBy S.accepts S.sealed self.old self.new (made_acts buf.old.items buf.new.items result) }
        ensures safe { IsSafe self.new }
        ensures whole { OnOk result (IsWhole self.new) }
        ensures same { IsSameConnection S.key self.old self.new }
    {
        sends::<S>();
        behaves_on::<S>();
        let frames = self.control.outgoing_datagrams(self.alloc)?;
        if frames.is_empty() {
            return Ok(None);
        }
        let entries = self.control.log.lend()?;
        let Ok(sent) = self.core.transmit_control(now, &frames, buf) else {
            self.control.log.give_back(entries);
            return Err(Memory);
        };
        let Some(sent) = sent else {
            self.control.log.give_back(entries);
            return Ok(None);
        };
        self.control.datagrams_sent(sent.count);
        let item = ConnectionItem::DatagramsSent(sent.count);
        self.note_in(entries, Some(item));
        self.is_control_next = false;
        Ok(Some(sent.transmit))
    }

    // A datagram of the frames that wait.
    fn transmit_waiting(
        &mut self,
        now: Moment,
        buf: &mut Vec<u8>,
    ) -> Result<Option<Transmit>, Memory>
        requires whole { IsWhole self.old }
        requires connected { self.old.is_connected ≡ true }
        requires some { self.old.control.queue.waiting ≡ [] → ⊥ }
        ensures some { IfOk result (λ o. IfSome o (λ t. IsDataTransmitted (S.sealed self.old.core.session) now self.old (handed_on t.size self.new) buf.old.items buf.new.items t)) }
        ensures none { IfOk result (λ o. o ≡ None → (buf.new.items ≡ buf.old.items) × IsControlHeld self.old × IsStill self.old self.new) }
        ensures next { IfOk result (λ o. IfSome o (λ t. self.new.is_control_next ≡ false)) }
        ensures err { OnErr result (buf.new.items ≡ buf.old.items) }
        ensures unsent { OnErr result (IsDataUnsent self.old self.new) }
        ensures log { OnErr result (LogGoesOn [] self.old self.new) }
        ensures carries { NamesTags (S.accepts self.old.core.session) → MakesTags (S.sealed self.old.core.session) → CarriesOnBy S.accepts S.sealed self.old self.new (made_acts buf.old.items buf.new.items result) }
        ensures safe { IsSafe self.new }
        ensures whole { OnOk result (IsWhole self.new) }
        ensures same { IsSameConnection S.key self.old self.new }
    {
        sends::<S>();
        behaves_on::<S>();
        self.control.queue.reserve()?;
        let frames = self.control.queue.waiting();
        let Some(sent) = self.core.transmit_control(now, frames, buf)? else {
            return Ok(None);
        };
        self.control.queue.on_sent(sent.number, sent.count);
        self.is_control_next = false;
        Ok(Some(sent.transmit))
    }
}

impl<S> Connection<S> {
    // Whether it was over before the handshake was complete.
    fn is_closing(&self) -> bool
        ensures yes { result ≡ true → (is_open self.now.core.state ≡ false) × (self.now.is_connected ≡ false) }
        ensures no { result ≡ false → EndsUnsent self.now }
    {
        self.core.is_closed() && !self.is_connected
    }

    // A datagram of so many bytes goes to the peer.
    fn transmit_of(&self, size: usize) -> Transmit
        ensures { result ≡ record { destination = self.now.core.addresses.remote; size = size; src_ip = self.now.core.addresses.local_ip } }
    {
        Transmit {
            destination: self.core.remote_address(),
            size,
            src_ip: self.core.local_ip(),
        }
    }
}

// What an Initial packet says of a close: of the application's nothing but that it is one (RFC 9000, section 10.2.3).
fn initial_close(close: &Close) -> ConnectionClose
    ensures { IsInitialClose close.now result }
{
    match close {
        Close::Connection(close) => ConnectionClose {
            code: close.code,
            frame: close.frame,
            reason: close.reason.copied(),
        },
        Close::Application(_) => ConnectionClose {
            code: TransportErrorCode::APPLICATION_ERROR,
            frame: None,
            reason: Reason::of(b""),
        },
    }
}
