ghost use Rattle.std.specs.Prelude.{◌≡◌, ◌⊎◌, ◌∷◌, ◌++◌, [], ℕ, List, Option, true, false, None, Some, is_some, length, IsOk, OnOk, OnErr, IfOk, IfErr, IfSome};
ghost use Rattle.qh_base.specs.declared.connection_error.ConnectionError.TheVariants.{Memory as OutOfMemory, Reset};
ghost use Rattle.qh_conn.specs.Hearing.{FailsTo, HasRead, HearsIt, StandsOrFails};
ghost use Rattle.qh_conn.specs.Incoming.{AreControlsTaken, AreFramesDone, BeginsWithFrames, BringsData, EndsBy, HasHeard, IsClosingHeard, IsDatagramHandled, IsEventHandled, IsFed, IsKnownOf, IsMet, IsOpenHandled, IsOver, IsRestTaken, IsRestarted, IsShutConnected, acts_of, connected_if, counted_at, is_reset_by, takes_memory};
ghost use Rattle.qh_conn.specs.Items.{EndsLogBy, IsLogCurrent, IsLogEnded, LogGoesOn, given_back};
ghost use Rattle.qh_conn.specs.Same.{IsSameConnection, IsSameControl, dropped};
ghost use Rattle.qh_conn.specs.Unread.{HasFailed, IsEventUnread, IsGreetingCut, IsOverBy, IsOverOf, IsRestUnread, IsUnread};
ghost use Rattle.qh_conn.specs.Whole.{CarriesOnBy, IsSafe, IsSound, IsWhole, Stands, StandsStill};
ghost use Rattle.qh_conn.specs.declared.connection.Connection.{Connection as AConnection};
ghost use Rattle.qh_control.specs.Control.{IsControlTaken, IsSendable, asked_events, control_refusal, keeps};
ghost use Rattle.qh_control.specs.Items.{HasRoom, kept_in};
ghost use Rattle.qh_control.specs.declared.event.EndpointEvent.{EndpointEvent as AnEndpointEvent};
ghost use Rattle.qh_control.specs.declared.items.ConnectionItem.{ConnectionItem as AnItem};
ghost use Rattle.qh_core.specs.Inner.{IsFailedBy, IsSameEnd, is_open};
ghost use Rattle.qh_core.specs.Event.{is_drained};
ghost use Rattle.qh_core.specs.Made.{AcceptsTags, IsMadeLocally, MakesTagsOf};
ghost use Rattle.qh_core.specs.Receiving.{BringsPacket, IsDatagramTaken as IsCoreTaken, IsDrainingFrom, counted_in};
ghost use Rattle.qh_core.specs.declared.inner.Inner.{Inner as AnInner};
ghost use Rattle.qh_frame.specs.declared.frame.Frame.{Frame as AFrame};
ghost use Rattle.qh_handshake.specs.Handshake.{dropping};
ghost use Rattle.qh_handshake.specs.Incoming.{IsBehind, Learns};
ghost use Rattle.qh_handshake.specs.Lost.{IsLost};
ghost use Rattle.qh_handshake.specs.declared.handshake.Handshake.{Handshake as AHandshake};
ghost use Rattle.qh_hello.specs.declared.transport_parameters.TransportParameters.{TransportParameters as TheParameters};
ghost use Rattle.qh_packet.specs.Session.{NamesTags};
ghost use Rattle.qh_spec.specs.Parted.{EndsWith};
ghost use Rattle.qh_spec.specs.Transcript.{Act, HandedIn};
ghost use Rattle.qh_streams.specs.Streams.{IsRefusedBy};
ghost use Rattle.qh_streams.specs.declared.fault.StreamFault.TheVariants.{Memory as Wanting};

use crate::connection::count;
use crate::{Connection, ConnectionEvent};
use qh_base::{ConnectionError, Memory, Moment};
use qh_control::LogEntry;
use qh_core::Accepted;
use qh_frame::{Frame, get_frame};
use qh_handshake::goes_on;
use qh_packet::{InitialForm, Session, open_packet, validate_frames};
use qh_streams::StreamFault;

/// A stateless reset has at least as many bytes (RFC 9000, section 10.3).
const LEAST_RESET: usize = 21;

impl<S: Session> Connection<S> {
    /// Takes what is handed in from outside. Of a datagram the Initial packets with which it begins go to the handshake, and what is behind
    /// them, of an end that was greeted, to the end of the 1-RTT packets. Want of memory ends the connection: the error that it keeps is
    /// Memory then, and what waited to be read is dropped. The items of the log that weren't taken stay in it. What a datagram brought until then
    /// is behind them, but for what it brought to the streams. It is the same connection still, and what waited for the endpoint stays. Memory is
    /// answered only for a datagram of which what was read so far has no fault, or for one of the ids that the endpoint issued.
    pub fn handle_event(&mut self, event: ConnectionEvent) -> Result<(), Memory>
        requires { IsWhole self.old }
        ensures ok { OnOk result (IsEventHandled (record { name = S.name; knows = S.knows; key = S.key; sealed = S.sealed; accepts = S.accepts }) event self.old self.new) }
        ensures err { OnErr result (IsOver self.new) }
        ensures over { OnErr result (IsOverBy event self.old self.new) }
        ensures unread { OnErr result ((mid : AConnection S) × IsEventUnread (record { name = S.name; knows = S.knows; key = S.key; sealed = S.sealed; accepts = S.accepts }) event self.old mid × HasFailed mid self.new) }
        ensures log { OnErr result (EndsLogBy event self.old self.new) }
        ensures wanting { OnErr result (is_open self.old.core.state ≡ true) }
        ensures calm { takes_memory event ≡ false → IsOk result }
        ensures carries { NamesTags (S.accepts self.old.core.session) → CarriesOnBy S.accepts S.sealed self.old self.new (acts_of event) }
        ensures whole { IsWhole self.new }
        ensures same { IsSameConnection S.key self.old self.new }
    {
        match event {
            ConnectionEvent::Datagram { now, payload, .. } => {
                self.handle_datagram(now, payload.as_slice())
            }
            ConnectionEvent::NewIdentifiers(ids, _) => {
                if self.core.is_closed() {
                    return Ok(());
                }
                let issued = self.control.issue(ids.as_slice());
                self.settled(issued)
            }
            ConnectionEvent::Close {
                now,
                error_code,
                reason,
            } => {
                self.close(now, error_code, reason);
                Ok(())
            }
            ConnectionEvent::Rebind => Ok(()),
        }
    }

    /// Takes a datagram as `handle_event` does.
    pub fn handle_datagram(&mut self, now: Moment, datagram: &[u8]) -> Result<(), Memory>
        requires { IsWhole self.old }
        ensures ok { OnOk result (IsDatagramHandled (record { name = S.name; knows = S.knows; key = S.key; sealed = S.sealed; accepts = S.accepts }) now datagram.now self.old self.new) }
        ensures err { OnErr result (IsOver self.new) }
        ensures over { OnErr result ((told : List AnEndpointEvent) × IsOverOf told (counted_at (length datagram.now) self.old) self.new) }
        ensures unread { OnErr result ((mid : AConnection S) × IsUnread (record { name = S.name; knows = S.knows; key = S.key; sealed = S.sealed; accepts = S.accepts }) now datagram.now (counted_at (length datagram.now) self.old) mid × HasFailed mid self.new) }
        ensures log { OnErr result ((more : List AnItem) × IsLogEnded more self.old self.new) }
        ensures wanting { OnErr result (is_open self.old.core.state ≡ true) }
        ensures carries { NamesTags (S.accepts self.old.core.session) → CarriesOnBy S.accepts S.sealed self.old self.new (HandedIn datagram.now ∷ []) }
        ensures whole { IsWhole self.new }
        ensures same { IsSameConnection S.key self.old self.new }
    {
        count(&mut self.udp_rx, datagram.len());
        if self.core.is_closed() {
            self.hear_closed(now, datagram);
            return Ok(());
        }
        let taken = self.take(now, datagram);
        self.settled(taken)
    }

    // After want of memory the connection has failed.
    pub(crate) fn settled(&mut self, taken: Result<(), Memory>) -> Result<(), Memory>
        requires safe { IsSafe self.old }
        requires whole { OnOk taken (IsWhole self.old) }
        ensures value { result ≡ taken }
        ensures ok { OnOk taken (self.new ≡ self.old) }
        ensures err { OnErr taken (IsOver self.new) }
        ensures failed { OnErr taken (HasFailed self.old self.new) }
        ensures log { OnErr taken ((before : AConnection S) (more : List AnItem) → IsLogCurrent before → LogGoesOn more before self.old → IsLogEnded more before self.new) }
        ensures fails { OnErr taken ((accepts : AcceptsTags S) (sealed : MakesTagsOf S) (hello : List ℕ) (t : List Act) → FailsTo accepts sealed hello self.old t → Stands accepts sealed hello self.new t) }
        ensures stands { StandsStill self.old self.new }
        ensures whole { IsWhole self.new }
        ensures same { OnErr taken (IsSameConnection S.key (dropped self.old) self.new) }
    {
        if taken.is_err() {
            self.fail();
        }
        taken
    }

    // Takes a datagram that was counted, while the connection is open.
    fn take(&mut self, now: Moment, datagram: &[u8]) -> Result<(), Memory>
        requires whole { IsWhole self.old }
        requires open { is_open self.old.core.state ≡ true }
        ensures ok { OnOk result (IsOpenHandled (record { name = S.name; knows = S.knows; key = S.key; sealed = S.sealed; accepts = S.accepts }) now datagram.now self.old self.new) }
        ensures carries { NamesTags (S.accepts self.old.core.session) → (hello : List ℕ) (t : List Act) → Stands S.accepts S.sealed hello self.old t → StandsOrFails S.accepts S.sealed result hello self.new (t ++ HandedIn datagram.now ∷ []) }
        ensures safe { IsSafe self.new }
        ensures whole { OnOk result (IsWhole self.new) }
        ensures same { OnOk result (IsSameConnection S.key self.old self.new) }
        ensures lost { OnErr result (IsSameConnection S.key self.old (dropped self.new)) }
        ensures unread { OnErr result (IsUnread (record { name = S.name; knows = S.knows; key = S.key; sealed = S.sealed; accepts = S.accepts }) now datagram.now self.old self.new) }
        ensures log { OnErr result ((more : List AnItem) × LogGoesOn more self.old self.new) }
    {
        let known = self.known();
        let rest = match self.feed(now, datagram) {
            Ok(rest) => rest,
            Err(ConnectionError::Memory) => return Err(Memory),
            Err(error) => {
                self.end_by(now, error);
                return Ok(());
            }
        };
        self.restart(now, known);
        self.meet(now, known.is_greeted)?;
        if self.is_greeted() && !rest.is_empty() {
            self.take_data(now, datagram, rest)?;
        }
        Ok(())
    }

    // An end that wasn't greeted yet is, if the peer's hello was read.
    fn meet(&mut self, now: Moment, was_greeted: bool) -> Result<(), Memory>
        requires sound { IsSound self.old }
        requires open { is_open self.old.core.state ≡ true }
        requires first { was_greeted ≡ false → (self.old.is_connected ≡ false) × IsSendable self.old.core.side None self.old.control }
        requires current { IsLogCurrent self.old }
        requires whole { was_greeted ≡ true → IsWhole self.old }
        ensures ok { OnOk result (IsMet now was_greeted self.old self.new) }
        ensures cut { OnErr result ((was_greeted ≡ false) × ((peer : TheParameters) × (self.old.handshake.peer ≡ Some peer) × IsGreetingCut now peer self.old self.new)) }
        ensures hears { (accepts : AcceptsTags S) (sealed : MakesTagsOf S) (hello d : List ℕ) (before : AHandshake) (t : List Act) → HasRead accepts sealed hello before self.old t d → was_greeted ≡ is_some before.peer
            → OnOk result (HearsIt accepts sealed hello self.new t d) × OnErr result (FailsTo accepts sealed hello self.new (t ++ HandedIn d ∷ [])) }
        ensures sound { IsSound self.new }
        ensures whole { OnOk result (IsWhole self.new) }
        ensures open { OnOk result (is_open self.new.core.state ≡ true) }
        ensures log { (more : List AnItem) × LogGoesOn more self.old self.new }
        ensures same { (before : AConnection S) → was_greeted ≡ is_some before.handshake.peer → IsSameConnection S.key before self.old → IsSameConnection S.key before self.new }
    {
        if was_greeted {
            return Ok(());
        }
        self.greet(now)
    }

    // The handshake takes a datagram, and the session learns of it.
    fn feed<'a>(&mut self, now: Moment, datagram: &'a [u8]) -> Result<&'a [u8], ConnectionError>
        requires { IsSound self.old }
        ensures ok { IfOk result (λ rest. IsFed (record { name = S.name; knows = S.knows; key = S.key; sealed = S.sealed; accepts = S.accepts }) now datagram.now self.old self.new rest.now None) }
        ensures err { IfErr result (λ e. (e ≡ OutOfMemory) ⊎ ((rest : List ℕ) × IsFed (record { name = S.name; knows = S.knows; key = S.key; sealed = S.sealed; accepts = S.accepts }) now datagram.now self.old self.new rest (Some e))) }
        ensures lost { IfErr result (λ e. e ≡ OutOfMemory → (learned : Option (List ℕ)) × IsLost (S.accepts self.old.core.session) now datagram.now self.old.handshake self.new.handshake learned
            × Learns (record { name = S.name; knows = S.knows; key = S.key; sealed = S.sealed; accepts = S.accepts }) self.old.core.session self.new.core.session learned) }
        ensures rest { self.new ≡ record self.old { handshake = self.new.handshake; core = record self.old.core { session = self.new.core.session } } }
        ensures kept { is_some self.old.handshake.peer ≡ true → self.new.handshake.peer ≡ self.old.handshake.peer }
        ensures side { self.new.handshake.side ≡ self.old.handshake.side }
        ensures safe { IsSafe self.new }
        ensures sound { OnOk result (IsSound self.new) }
        ensures ended { IfErr result (λ e. (e ≡ OutOfMemory → ⊥) → IsSound self.new) }
    {
        goes_on();
        let session = self.core.session_mut();
        self.handshake
            .handle_datagram(self.alloc, session, now, datagram)
    }

    // Takes what is behind the Initial packets of a datagram, at an end that was greeted.
    fn take_data(&mut self, now: Moment, datagram: &[u8], rest: &[u8]) -> Result<(), Memory>
        requires whole { IsWhole self.old }
        requires open { is_open self.old.core.state ≡ true }
        requires greeted { is_some self.old.handshake.peer ≡ true }
        requires ends { EndsWith rest.now datagram.now }
        ensures carries { NamesTags (S.accepts self.old.core.session) → (hello : List ℕ) (t : List Act) → HearsIt S.accepts S.sealed hello self.old t datagram.now → StandsOrFails S.accepts S.sealed result hello self.new (t ++ HandedIn datagram.now ∷ []) }
        ensures ok { OnOk result (IsRestTaken (S.accepts self.old.core.session) now datagram.now rest.now self.old self.new) }
        ensures unread { OnErr result (IsRestUnread (S.accepts self.old.core.session) now rest.now self.old self.new) }
        ensures log { OnErr result ((more : List AnItem) × LogGoesOn more self.old self.new) }
        ensures safe { IsSafe self.new }
        ensures whole { OnOk result (IsWhole self.new) }
        ensures same { IsSameConnection S.key self.old self.new }
    {
        let Some(accepted) = self.accept_packet(now, rest)? else {
            self.hear_reset(now, datagram);
            return Ok(());
        };
        self.take_frames(now, &accepted)?;
        if self.core.is_closed() {
            return Ok(());
        }
        self.follow_ids();
        self.control.queue.on_lost(&self.core)
    }

    // Takes a packet, at an end that was greeted: a server is connected by the first one that it accepts, and what came to the streams is moved into
    // the log. Memory for the log is taken before the packet is read, so that none is wanting for it once a frame was found at fault.
    fn accept_packet<'a>(
        &mut self,
        now: Moment,
        rest: &'a [u8],
    ) -> Result<Option<Accepted<'a>>, Memory>
        requires whole { IsWhole self.old }
        requires open { is_open self.old.core.state ≡ true }
        requires greeted { is_some self.old.handshake.peer ≡ true }
        ensures none { IfOk result (λ o. o ≡ None → IsCoreTaken (S.accepts self.old.core.session) now rest.now (counted_in (length rest.now) self.old.core) self.new.core × (self.new.core.space ≡ self.old.core.space) × (self.new ≡ record self.old { core = self.new.core }) × IsWhole self.new) }
        ensures some { IfOk result (λ o. IfSome o (λ a. (core : AnInner S) × ((b : BringsPacket (S.accepts self.old.core.session) now rest.now a.frames.now (counted_in (length rest.now) self.old.core) core) × (a.taken ≡ length b.taken.taken)) × (self.new ≡ connected_if now (record self.old { core = core })))) }
        ensures settled { IfOk result (λ o. IfSome o (λ a. (self.new.is_connected ≡ true) × IsLogCurrent self.new × (is_drained self.new.core.state ≡ false))) }
        ensures unread { OnErr result (IsRestUnread (S.accepts self.old.core.session) now rest.now self.old self.new) }
        ensures carries { NamesTags (S.accepts self.old.core.session) → (hello d : List ℕ) (t : List Act) → EndsWith rest.now d → HearsIt S.accepts S.sealed hello self.old t d → Stands S.accepts S.sealed hello self.new (t ++ HandedIn d ∷ []) }
        ensures log { (more : List AnItem) × LogGoesOn more self.old self.new }
        ensures sound { IsSound self.new }
        ensures same { IsSameConnection S.key self.old self.new }
    {
        let entries = self.control.log.lend()?;
        let Ok(taken) = self.core.handle_datagram(now, rest) else {
            self.control.log.give_back(entries);
            return Err(Memory);
        };
        let Some(accepted) = taken else {
            self.control.log.give_back(entries);
            return Ok(None);
        };
        self.be_connected(now, entries)?;
        Ok(Some(accepted))
    }

    // A server is connected by the first 1-RTT packet that it accepts. What came to the streams is moved into the log, which was lent out and is given
    // back. Memory is wanting only to ask for ids.
    fn be_connected(&mut self, now: Moment, entries: Option<Vec<LogEntry>>) -> Result<(), Memory>
        requires sound { IsSound self.old }
        requires greeted { is_some self.old.handshake.peer ≡ true }
        requires room { HasRoom entries 2 }
        ensures ok { OnOk result (self.new ≡ connected_if now (given_back (kept_in entries) self.old)) }
        ensures err { OnErr result (self.new ≡ given_back (kept_in entries) self.old) }
        ensures wanting { OnErr result ((self.old.is_connected ≡ false) × (is_open self.old.core.state ≡ true) × (asked_events now self.old.control ≡ [] → ⊥)) }
        ensures connected { OnOk result (self.new.is_connected ≡ true) }
        ensures state { self.new.core.state ≡ self.old.core.state }
        ensures made { IsMadeLocally self.old.core self.new.core [] }
        ensures sound { IsSound self.new }
    {
        if self.is_connected {
            self.note_in(entries, None);
            return Ok(());
        }
        self.connect_in(now, entries)
    }

    // The frames of a packet that the end of the 1-RTT packets passes over, up to one that is refused. Memory is wanting only for an end
    // that found no fault behind it.
    fn take_frames(&mut self, now: Moment, accepted: &Accepted<'_>) -> Result<(), Memory>
        requires sound { IsSound self.old }
        requires lives { is_drained self.old.core.state ≡ false }
        ensures sound { IsSound self.new }
        ensures same_end { IsSameEnd self.old.core self.new.core }
        ensures stands { StandsStill self.old self.new }
        ensures open { is_open self.new.core.state ≡ true → self.new.core ≡ self.old.core }
        ensures rest { self.new ≡ record self.old { core = self.new.core; control = self.new.control } }
        ensures space { self.new.core.space ≡ self.old.core.space }
        ensures log { (more : List AnItem) × LogGoesOn more self.old self.new }
        ensures wanting { OnErr result (is_open self.new.core.state ≡ true) }
        ensures done { OnOk result ((taken : List AFrame) → BeginsWithFrames accepted.now.frames.now taken → accepted.now.taken ≡ length taken → (read : List AFrame) × BeginsWithFrames accepted.now.frames.now read × (length read ≡ length taken) × AreFramesDone now read self.old self.new) }
        ensures cut { OnErr result ((taken : List AFrame) → BeginsWithFrames accepted.now.frames.now taken → accepted.now.taken ≡ length taken → (read : List AFrame) × BeginsWithFrames accepted.now.frames.now read × (length read ≡ length taken) × AreControlsTaken now read self.old.control self.new.control (Some Wanting)) }
        ensures same { IsSameConnection S.key self.old self.new }
    {
        let mut rest = accepted.frames;
        let mut left = accepted.taken;
        while left > 0 {
            let Ok((frame, behind)) = get_frame(rest) else {
                return Ok(());
            };
            match self.take_control(now, &frame) {
                Ok(()) => {}
                Err(StreamFault::Memory) if self.core.is_closed() => return Ok(()),
                Err(StreamFault::Memory) => return Err(Memory),
                Err(StreamFault::Transport(error)) => {
                    self.core.close_by_fault(now, error);
                    return Ok(());
                }
            }
            rest = behind;
            left -= 1;
        }
        Ok(())
    }

    // Takes a frame of the connection's own. The id in use may be another one then, as long as it.
    fn take_control(&mut self, now: Moment, frame: &Frame<'_>) -> Result<(), StreamFault>
        requires { IsSound self.old }
        ensures taken { OnOk result (IsControlTaken now self.old.control self.new.control frame.now) }
        ensures unrefused { OnOk result (control_refusal self.old.control frame.now ≡ None) }
        ensures wanting { IfErr result (λ e. e ≡ Wanting → keeps frame.now ≡ true) }
        ensures left { IfErr result (λ e. self.new.control ≡ record self.old.control { ids = self.new.control.ids; own_ids = self.new.control.own_ids; queue = self.new.control.queue }) }
        ensures fault { IfErr result (λ e. IsRefusedBy e (control_refusal self.old.control frame.now)) }
        ensures refused { IfErr result (λ e. (e ≡ Wanting → ⊥) → self.new ≡ self.old) }
        ensures rest { self.new ≡ record self.old { control = self.new.control } }
        ensures sound { IsSound self.new }
        ensures log { (more : List AnItem) × LogGoesOn more self.old self.new }
        ensures stays { IsSameControl true self.old.control self.new.control }
    {
        self.control.take_frame(self.alloc, now, frame)
    }

    // A datagram came to an end that closed: it tells so again, unless the peer closed too.
    fn hear_closed(&mut self, now: Moment, datagram: &[u8])
        requires whole { IsWhole self.old }
        requires closed { is_open self.old.core.state ≡ false }
        ensures heard { IsClosingHeard (record { name = S.name; knows = S.knows; key = S.key; sealed = S.sealed; accepts = S.accepts }) now datagram.now self.old self.new }
        ensures carries { NamesTags (S.accepts self.old.core.session) → CarriesOnBy S.accepts S.sealed self.old self.new (HandedIn datagram.now ∷ []) }
        ensures whole { IsWhole self.new }
    {
        let brings_close = self.handshake.brings_close(self.core.session(), datagram);
        self.handshake.bytes_received = self
            .handshake
            .bytes_received
            .saturating_add(datagram.len() as u64);
        if brings_close {
            self.core.hear_closed(true);
        } else if !self.is_greeted() {
            self.core.hear_closed(false);
        } else {
            let rest = behind_initials(datagram);
            self.shut_connected(rest);
            let _ = self.core.handle_datagram(now, rest);
        }
    }

    // An end that closed before it was connected is connected by a 1-RTT packet of its peer's.
    fn shut_connected(&mut self, rest: &[u8])
        requires whole { IsWhole self.old }
        requires closed { is_open self.old.core.state ≡ false }
        requires greeted { is_some self.old.handshake.peer ≡ true }
        ensures connected { IsShutConnected (S.accepts self.old.core.session) rest.now self.old self.new }
        ensures core { self.new.core ≡ self.old.core }
        ensures whole { IsWhole self.new }
    {
        if !self.is_connected && self.is_data(rest) {
            self.handshake.discard_space();
            self.is_connected = true;
        }
    }

    // Whether the bytes are a 1-RTT packet of the peer's, of whose packets none was accepted: so the peer takes 1-RTT packets, and an end
    // that closed says it in one of these from now on (RFC 9000, section 10.2.3).
    fn is_data(&self, bytes: &[u8]) -> bool
        ensures yes { result ≡ true → self.now.is_connected ≡ false → BringsData (S.accepts self.now.core.session) self.now bytes.now }
        ensures no { result ≡ false → BringsData (S.accepts self.now.core.session) self.now bytes.now → ⊥ }
    {
        let id_length = self.handshake.local_id.len();
        let sender = self.handshake.side.other();
        match open_packet(self.core.session(), bytes, id_length, sender, 0) {
            Some(packet) => validate_frames(packet.frames).is_ok(),
            None => false,
        }
    }
}

// What of a handshake tells, before a datagram, whether that is heard.
#[derive(Clone, Copy)]
struct Known {
    is_greeted: bool,
    is_retried: bool,
    packets_accepted: u64,
}

impl<S> Connection<S> {
    // What is known before a datagram.
    fn known(&self) -> Known
        ensures { IsKnownOf self.now.handshake result }
    {
        let packets_accepted = match &self.handshake.space {
            Some(space) => space.packets_accepted,
            None => 0,
        };
        Known {
            is_greeted: self.is_greeted(),
            is_retried: self.handshake.retry_id.is_some(),
            packets_accepted,
        }
    }

    // The idle time runs from now on, if an Initial packet or a Retry packet was taken since that was known.
    fn restart(&mut self, now: Moment, known: Known)
        ensures restarted { (before : AHandshake) → IsKnownOf before known → IsRestarted now before self.old self.new }
        ensures rest { self.new ≡ record self.old { core = record self.old.core { idle = self.new.core.idle } } }
        ensures made { IsMadeLocally self.old.core self.new.core [] }
    {
        if self.has_heard(known) {
            self.core.on_packet_accepted(now);
        }
    }

    // Whether an Initial packet was accepted since that was known, one by which the end was greeted, or another; or a Retry packet was taken.
    fn has_heard(&self, known: Known) -> bool
        ensures yes { (before : AHandshake) → IsKnownOf before known → result ≡ true → HasHeard before self.now.handshake }
        ensures no { (before : AHandshake) → IsKnownOf before known → result ≡ false → HasHeard before self.now.handshake → ⊥ }
    {
        if self.handshake.retry_id.is_some() && !known.is_retried {
            return true;
        }
        match &self.handshake.space {
            Some(space) => space.packets_accepted != known.packets_accepted,
            None => self.is_greeted() && !known.is_greeted,
        }
    }

    // A datagram that isn't a packet may be the peer's stateless reset (RFC 9000, section 10.3.1).
    fn hear_reset(&mut self, now: Moment, datagram: &[u8])
        ensures heard { ((is_open self.old.core.state ≡ true → is_reset_by self.old.control.ids.active.reset_token datagram.now → ⊥) × (self.new ≡ self.old))
            ⊎ ((is_open self.old.core.state ≡ true) × is_reset_by self.old.control.ids.active.reset_token datagram.now
            × IsDrainingFrom now Reset self.old.core self.new.core × (self.new ≡ record self.old { core = self.new.core })) }
        ensures stands { StandsStill self.old self.new }
        ensures sound { IsSound self.old → IsSound self.new }
        ensures whole { IsWhole self.old → IsWhole self.new }
    {
        if !self.core.is_closed() && self.is_reset(datagram) {
            self.core.drain(now, ConnectionError::Reset);
        }
    }

    // Whether a datagram ends as a stateless reset of the peer's does.
    fn is_reset(&self, datagram: &[u8]) -> bool
        ensures yes { result ≡ true → is_reset_by self.now.control.ids.active.reset_token datagram.now }
        ensures no { result ≡ false → is_reset_by self.now.control.ids.active.reset_token datagram.now → ⊥ }
    {
        match &self.control.ids.active().reset_token {
            Some(token) if LEAST_RESET <= datagram.len() => datagram.ends_with(&token.0),
            _ => false,
        }
    }

    // Packets go to the id that is in use.
    fn follow_ids(&mut self)
        requires sound { IsSound self.old }
        requires open { is_open self.old.core.state ≡ true }
        ensures value { self.new ≡ record self.old { core = record self.old.core { remote_id = self.old.control.ids.active.id } } }
        ensures stands { StandsStill self.old self.new }
        ensures sound { IsSound self.new }
    {
        let id = self.control.ids.active().id;
        self.core.set_remote_id(id);
    }

    // The handshake ended the connection.
    fn end_by(&mut self, now: Moment, error: ConnectionError)
        requires open { is_open self.old.core.state ≡ true }
        requires named { error ≡ OutOfMemory → ⊥ }
        ensures ends { EndsBy now error self.old.core self.new.core }
        ensures closed { is_open self.new.core.state ≡ false }
        ensures rest { self.new ≡ record self.old { core = self.new.core } }
        ensures same_end { IsSameEnd self.old.core self.new.core }
        ensures made { IsMadeLocally self.old.core self.new.core [] }
    {
        match error {
            ConnectionError::TransportError(fault) => self.core.close_by_fault(now, fault),
            other => self.core.drain(now, other),
        }
    }

    /// Want of memory ended the connection. What came to the streams and wasn't moved into the log is gone with them.
    pub(crate) fn fail(&mut self)
        requires { IsSafe self.old }
        ensures over { IsOver self.new }
        ensures handshake { self.new.handshake ≡ dropping self.old.handshake }
        ensures core { IsFailedBy self.old.core self.new.core }
        ensures failed { HasFailed self.old self.new }
        ensures log { (before : AConnection S) (more : List AnItem) → IsLogCurrent before → LogGoesOn more before self.old → IsLogEnded more before self.new }
        ensures rest { self.new ≡ record self.old { handshake = self.new.handshake; core = self.new.core; control = self.new.control } }
        ensures fails { (accepts : AcceptsTags S) (sealed : MakesTagsOf S) (hello : List ℕ) (t : List Act) → FailsTo accepts sealed hello self.old t → Stands accepts sealed hello self.new t }
        ensures stands { StandsStill self.old self.new }
        ensures whole { IsWhole self.new }
        ensures same { (key : S → List ℕ) → IsSameConnection key (dropped self.old) self.new }
    {
        qh_converse::sends::<S>();
        self.core.fail();
        let _ = self.core.take_items();
        self.handshake.drop_space();
        self.control.clear_datagrams();
    }
}

// What stands behind the Initial packets with which a datagram begins.
fn behind_initials(datagram: &[u8]) -> &[u8]
    ensures ends { EndsWith result.now datagram.now }
    ensures behind { IsBehind result.now }
{
    let mut rest = datagram;
    while let Some(form) = InitialForm::read(rest) {
        rest = form.rest;
    }
    rest
}
