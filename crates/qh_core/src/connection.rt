ghost use Rattle.std.specs.Prelude.{◌≡◌, ◌↔◌, ◌++◌, [], ℕ, List, true, false, not, None, is_some, OnOk, OnErr, IfOk, IfSome, MatchOption, ◌∷◌, length};
ghost use Rattle.qh_base.specs.declared.connection_error.ConnectionError.TheVariants.{LocallyClosed};
ghost use Rattle.qh_core.specs.Event.{IsDrainedTold, IsPolledEvent, is_drained};
ghost use Rattle.std.specs.List.{AllByRecursion};
ghost use Rattle.qh_core.specs.Control.{MaySend};
ghost use Rattle.qh_core.specs.Follows.{Follows, control_acts, event_acts, transmit_acts};
ghost use Rattle.qh_core.specs.Inner.{HaveSameCounts, IsFailedBy, IsNewSpace, IsSameEnd, fresh_stats, is_client, is_open};
ghost use Rattle.qh_core.specs.Receiving.{BringsPacket, IsClosedWith, IsDatagramTaken, IsDatagramUnread, IsEventTaken, IsWantingFor, counted_in, handed_at, received};
ghost use Rattle.qh_core.specs.Sending.{BearsNoControl, ClosesReadBack, IsControlKept, IsControlSent, IsDatagramMade, MaySendControl, NothingIsSent};
ghost use Rattle.qh_core.specs.Timers.{IsDueAt, IsFirstDue, IsKeptByTimers, IsTimedOut, IsUndisturbed};
ghost use Rattle.qh_core.specs.declared.state.Close.TheVariants.{Application};
ghost use Rattle.qh_core.specs.declared.state.State.TheVariants.{Established};
ghost use Rattle.qh_loss.specs.Owed.{AreOwed};
ghost use Rattle.qh_recovery.specs.Rtt.{rtt_of};
ghost use Rattle.qh_recovery.specs.SentPackets.{IsNext, packet_at};
ghost use Rattle.qh_spec.specs.Transcript.{Act, HandedIn};

mod streams;
mod turning;

use crate::inner::Parts;
use crate::{
    Accepted, ConnConfig, ConnectionEvent, ConnectionStats, ControlFrame, ControlSent,
    EndpointEvent, Event, Inner, Session, State,
};
use qh_base::{
    ConnectionError, ConnectionId, FourTuple, Memory, Moment, Reason, Side, Span, Transmit, VarInt,
};
use qh_recovery::ControllerMetrics;
use qh_streams::PeerLimits;
use std::alloc::Global;
use std::marker::Model;
use std::net::{IpAddr, SocketAddr};

/// One end of a connection (RFC 9000; quinn-proto, `Connection`). Datagrams and moments are handed in, datagrams and events are
/// handed out. Whoever drives it hands in each datagram that comes for it, calls `handle_timeout` once `poll_timeout` is due, and
/// after either, and after calls of the application, `poll_transmit`, `poll` and `poll_endpoint_events` until each gives None.
#[derive(Drop)]
pub struct Connection<S> {
    alloc: Global,
    inner: Inner<S>,
}

impl<S> Model for Connection<S> {
    ghost use Rattle.qh_core.specs.declared.inner.Inner.{Inner};
    ghost use Rattle.qh_core.specs.Inner.{IsConnection};

    ghost Value = { Inner S };

    ghost view = { λ c. c.inner };

    ghost invariant = { λ c. IsConnection c.inner };
}

impl<S: Session> Connection<S> {
    /// An end before anything came or was written. Packets to this end bear the local id, and those to the peer the remote one;
    /// they go to `addresses.remote`. It takes no memory.
    pub fn new(
        alloc: Global,
        config: ConnConfig,
        side: Side,
        session: S,
        local_id: ConnectionId,
        remote_id: ConnectionId,
        addresses: FourTuple,
        now: Moment,
    ) -> Connection<S>
        ensures space { IsNewSpace config side result.space }
        ensures ping { result.space.is_ping_due ≡ false }
        ensures value { result ≡ record {
          side = side;
          session = session;
          local_id = local_id;
          remote_id = remote_id;
          addresses = addresses;
          config = config;
          space = result.space;
          idle = record { timeout = config.idle; since = now; has_sent = false };
          state = Established;
          error = None;
          is_lost_told = false;
          is_drained_told = false;
          udp_tx = fresh_stats;
          udp_rx = fresh_stats;
        } }
        ensures follows { Follows result [] }
    {
        let parts = Parts {
            side,
            session,
            local_id,
            remote_id,
            addresses,
        };
        Connection {
            alloc,
            inner: Inner::new(alloc, config, parts, now),
        }
    }

    /// Takes what is handed in from outside. A datagram that isn't a packet for this end, by its form and its tag, is dropped, and
    /// a packet whose number isn't new. A packet without a frame and a frame at fault close the connection with PROTOCOL_VIOLATION,
    /// FRAME_ENCODING_ERROR or the code of the frame's refusal (RFC 9000, section 20.1). Want of memory ends the connection: the
    /// error that it keeps is Memory then, and what waited to be read is dropped. It is answered only for a packet whose number is
    /// new and whose bytes are frames, the first of which isn't refused.
    pub fn handle_event(&mut self, event: ConnectionEvent) -> Result<(), Memory>
        ensures ok { OnOk result (IsEventTaken (S.accepts self.old.session) event self.old self.new) }
        ensures err { OnErr result (IsFailedBy (received event self.old) self.new) }
        ensures wanting { OnErr result (IsWantingFor (S.accepts self.old.session) event self.old) }
        ensures follows { (t : List Act) → Follows self.old t → Follows self.new (t ++ event_acts event) }
        ensures undisturbed { OnOk result (IsUndisturbed (handed_at event) self.old self.new) }
        ensures same_end { IsSameEnd self.old self.new }
    {
        match event {
            ConnectionEvent::Datagram { now, payload, .. } => {
                self.handle_datagram(now, payload.as_slice())?;
                Ok(())
            }
            ConnectionEvent::Close {
                now,
                error_code,
                reason,
            } => {
                self.inner.close(now, error_code, reason);
                Ok(())
            }
        }
    }

    /// Takes a datagram as `handle_event` does, and answers the frames of the packet that was accepted, if one was, and how many of them
    /// were taken: its number is new and was noted, and its frames were taken up to one that closes or is refused. None if no packet was accepted: the space is as it was.
    pub fn handle_datagram<'a>(
        &mut self,
        now: Moment,
        datagram: &'a [u8],
    ) -> Result<Option<Accepted<'a>>, Memory>
        ensures ok { OnOk result (IsDatagramTaken (S.accepts self.old.session) now datagram.now (counted_in (length datagram.now) self.old) self.new) }
        ensures brings { IfOk result (λ o. IfSome o (λ a. (b : BringsPacket (S.accepts self.old.session) now datagram.now a.frames.now (counted_in (length datagram.now) self.old) self.new) × (a.taken ≡ length b.taken.taken))) }
        ensures none { IfOk result (λ o. o ≡ None → self.new.space ≡ self.old.space) }
        ensures err { OnErr result (IsFailedBy (counted_in (length datagram.now) self.old) self.new) }
        ensures wanting { OnErr result (IsDatagramUnread (S.accepts self.old.session) now datagram.now (counted_in (length datagram.now) self.old)) }
        ensures follows { (t : List Act) → Follows self.old t → Follows self.new (t ++ HandedIn datagram.now ∷ []) }
        ensures undisturbed { OnOk result (IsUndisturbed now self.old self.new) }
        ensures same_end { IsSameEnd self.old self.new }
    {
        self.inner.udp_rx.count(datagram.len());
        self.inner.handle_datagram(self.alloc, now, datagram)
    }

    /// Appends the next datagram to the buffer, and says where it goes. None exactly where nothing is to be sent: no ACK is due,
    /// and nothing waits that the window and the peer's limits permit; or no packet number is left; or the connection was closed
    /// and has said so. Want of memory leaves the buffer as it was and ends the connection.
    pub fn poll_transmit(
        &mut self,
        now: Moment,
        buf: &mut Vec<u8>,
    ) -> Result<Option<Transmit>, Memory>
        ensures some { IfOk result (λ o. IfSome o (λ t. IsDatagramMade (S.sealed self.old.session) now self.old self.new buf.old.items buf.new.items t)) }
        ensures no_control { IfOk result (λ o. IfSome o (λ t. BearsNoControl (S.sealed self.old.session) now self.old self.new buf.old.items buf.new.items)) }
        ensures read_back { IfOk result (λ o. IfSome o (λ t. ClosesReadBack self.old.state)) }
        ensures none { IfOk result (λ o. o ≡ None → (buf.new.items ≡ buf.old.items) × NothingIsSent self.old self.new) }
        ensures err { OnErr result ((buf.new.items ≡ buf.old.items) × IsFailedBy self.old self.new) }
        ensures follows { (t : List Act) → Follows self.old t → Follows self.new (t ++ transmit_acts buf.old.items buf.new.items result) }
        ensures undisturbed { OnOk result (IsUndisturbed now self.old self.new) }
        ensures same_end { IsSameEnd self.old self.new }
    {
        self.inner.poll_transmit(self.alloc, now, buf)
    }

    /// Appends the next datagram, of as many of these frames as it has room for, from the first on, and nothing else. None exactly where
    /// the connection isn't open, no packet number is left, an ACK is due, which `poll_transmit` sends first, the window permits no
    /// datagram and no probe is due, no frame is handed in, or not even the first one has room. The frames aren't kept here: whoever
    /// hands them in sees by `is_out` when their packet is out no more, and by the ACK frames that came whether it was acknowledged.
    /// Want of memory, only where a datagram may be made, leaves the buffer as it was and ends the connection.
    pub fn transmit_control(
        &mut self,
        now: Moment,
        frames: &[ControlFrame],
        buf: &mut Vec<u8>,
    ) -> Result<Option<ControlSent>, Memory>
        requires { AllByRecursion (MaySend self.old.side self.old.config.peer_datagram) frames.now }
        ensures some { IfOk result (λ o. IfSome o (λ sent. IsControlSent (S.sealed self.old.session) now self.old self.new buf.old.items buf.new.items frames.now sent)) }
        ensures none { IfOk result (λ o. o ≡ None → (buf.new.items ≡ buf.old.items) × (self.new ≡ self.old) × IsControlKept self.old frames.now) }
        ensures err { OnErr result ((buf.new.items ≡ buf.old.items) × IsFailedBy self.old self.new) }
        ensures wanting { OnErr result (MaySendControl self.old) }
        ensures follows { (t : List Act) → Follows self.old t → Follows self.new (t ++ control_acts buf.old.items buf.new.items result) }
        ensures undisturbed { OnOk result (IsUndisturbed now self.old self.new) }
        ensures same_end { IsSameEnd self.old self.new }
    {
        self.inner.transmit_control(self.alloc, now, frames, buf)
    }
}

impl<S> Connection<S> {
    /// Does what is due by now: the idle time ends the connection with TimedOut; else packets that are out for too long are lost,
    /// and where a probe is due its frames are queued; a connection that was closed is drained.
    pub fn handle_timeout(&mut self, now: Moment)
        ensures done { IsTimedOut now.0 self.old self.new }
        ensures kept { IsKeptByTimers now.0 self.old self.new }
        ensures follows { (t : List Act) → Follows self.old t → Follows self.new t }
        ensures same_end { IsSameEnd self.old self.new }
    {
        self.inner.handle_timeout(now);
    }

    /// When something is due first: the idle time, a packet that becomes lost by its age, a probe, the end of a connection that
    /// was closed. None exactly where nothing is.
    pub fn poll_timeout(&self) -> Option<Moment>
        ensures { MatchOption result ((moment : ℕ) → IsDueAt self.now moment → ⊥) (λ t. IsFirstDue self.now t.0) }
    {
        self.inner.poll_timeout()
    }

    /// The peer's hello was read: it told the peer's first limits, the longest payload of a DATAGRAM frame that it takes, None if it takes
    /// none, and with this end's own the idle time in force; the packets that brought it told the id under which the peer hears (RFC 9000,
    /// sections 7.2, 10.1 and 18.2; RFC 9221, section 3). The end begins anew with these, as if nothing
    /// had been done with it: nothing that was done before may concern packets of application data. A client has a PING to send then, from
    /// whose packet the server learns that the client has its hello. It takes no memory.
    pub fn greet(
        &mut self,
        peer: PeerLimits,
        peer_datagram: Option<u64>,
        remote_id: ConnectionId,
        timeout: Option<Span>,
    )
        requires { is_open self.old.state ≡ true }
        ensures space { IsNewSpace self.new.config self.new.side self.new.space }
        ensures ping { self.new.space.is_ping_due ≡ is_client self.old.side }
        ensures rest { self.new ≡ record self.old {
          remote_id = remote_id;
          config = record self.old.config { peer = peer; peer_datagram = peer_datagram; idle = timeout };
          space = self.new.space;
          idle = record self.old.idle { timeout = timeout };
        } }
        ensures follows { Follows self.new [] }
    {
        self.inner
            .greet(self.alloc, peer, peer_datagram, remote_id, timeout);
    }

    /// What happened next, for the application. None exactly where nothing is left to be told.
    pub fn poll(&mut self) -> Option<Event>
        ensures told { IsPolledEvent self.old self.new result }
        ensures kept { HaveSameCounts self.old.space.streams self.new.space.streams × (self.new.idle ≡ self.old.idle) × (self.new.error ≡ self.old.error) × (self.new.state ≡ self.old.state) }
        ensures follows { (t : List Act) → Follows self.old t → Follows self.new t }
        ensures same_end { IsSameEnd self.old self.new }
    {
        self.inner.poll()
    }

    /// What the endpoint is to be told. None exactly where nothing is left to be told.
    pub fn poll_endpoint_events(&mut self) -> Option<EndpointEvent>
        ensures told { IsDrainedTold self.old self.new result }
        ensures follows { (t : List Act) → Follows self.old t → Follows self.new t }
        ensures same_end { IsSameEnd self.old self.new }
    {
        self.inner.poll_endpoint_events()
    }

    /// Closes, with a code and a reason of the application's (RFC 9000, section 10.2). What waits to be sent isn't sent any more;
    /// what waits to be read can be read. Nothing where the connection is closed already. It takes no memory.
    pub fn close(&mut self, now: Moment, error_code: VarInt, reason: Reason)
        ensures closed { is_open self.old.state ≡ true → IsClosedWith now (Application (record { error_code = error_code; reason = reason })) LocallyClosed self.old self.new }
        ensures kept { is_open self.old.state ≡ false → self.new ≡ self.old }
        ensures follows { (t : List Act) → Follows self.old t → Follows self.new t }
        ensures same_end { IsSameEnd self.old self.new }
    {
        self.inner.close(now, error_code, reason);
    }

    /// Each byte, end, reset, stop and limit that was sent and isn't acknowledged waits to be sent again, or stands in a packet that
    /// is out, neither acknowledged nor lost (RFC 9002, section 2). It does nothing: its contract says so, at every moment.
    pub fn is_owed(&self)
        ensures owed { AreOwed self.now.space.streams self.now.space.sent }
        ensures numbers { IsNext self.now.space.next_number self.now.space.sent }
        ensures open { is_open self.now.state ≡ true → self.now.error ≡ None }
        ensures closed { is_open self.now.state ≡ false → is_some self.now.error ≡ true }
    {
        let _ = &self.alloc;
    }

    /// Whether the packet with this number is out: it was sent, bore more than an ACK, and is neither acknowledged nor lost. Which of the
    /// two a packet is that is out no more isn't told here.
    pub fn is_out(&self, number: u64) -> bool
        ensures { result ≡ is_some (packet_at self.now.space.sent number) }
    {
        self.inner.space.sent.get(number).is_some()
    }

    /// The session that makes and opens its tags.
    pub fn session(&self) -> &S
        ensures { result.now ≡ self.now.session }
    {
        &self.inner.session
    }

    /// What was done since it was made.
    pub fn stats(&self) -> ConnectionStats
        ensures datagrams { (result.datagrams_sent ≡ self.now.udp_tx.datagrams) × (result.datagrams_received ≡ self.now.udp_rx.datagrams) }
        ensures bytes { (result.bytes_sent ≡ self.now.udp_tx.bytes) × (result.bytes_received ≡ self.now.udp_rx.bytes) }
        ensures recovery { (result.packets_lost ≡ self.now.space.packets_lost) × (result.probes ≡ self.now.space.probes_sent) }
    {
        self.inner.stats()
    }

    /// The smoothed round-trip time, the initial one before a sample (RFC 9002, section 5.3).
    pub fn rtt(&self) -> Span
        ensures { result.0 ≡ rtt_of self.now.space.rtt }
    {
        self.inner.space.rtt.get()
    }

    /// The least round-trip time that was measured, the initial one before a sample (RFC 9002, section 5.2).
    pub fn min_rtt(&self) -> Span
        ensures { result ≡ self.now.space.rtt.min }
    {
        self.inner.space.rtt.min
    }

    /// The window, and the threshold below which it grows fast, None before the first loss (RFC 9002, section 7.3).
    pub fn congestion_state(&self) -> ControllerMetrics
        ensures { result ≡ record { congestion_window = self.now.space.congestion.window; ssthresh = self.now.space.congestion.ssthresh } }
    {
        self.inner.space.congestion.metrics()
    }

    /// Why the connection is lost, where it is (quinn, `Connection::close_reason`). It takes no memory.
    pub fn close_reason(&self) -> Option<ConnectionError>
        ensures reason { result ≡ self.now.error }
        ensures open { (result ≡ None) ↔ (is_open self.now.state ≡ true) }
    {
        self.inner.error.as_ref().map(ConnectionError::copied)
    }

    /// Whether the connection is closed: by either end, by the idle time, or by want of memory.
    pub fn is_closed(&self) -> bool
        ensures { result ≡ not (is_open self.now.state) }
    {
        !self.inner.state.is_open()
    }

    /// Whether nothing is sent or taken any more: the connection can be forgotten.
    pub fn is_drained(&self) -> bool
        ensures { result ≡ is_drained self.now.state }
    {
        self.inner.state.is_drained()
    }

    /// Which end this is.
    pub fn side(&self) -> Side
        ensures value { result ≡ self.now.side }
        ensures streams { self.now.space.streams.side ≡ result }
    {
        self.inner.side
    }

    /// Where the peer is.
    pub fn remote_address(&self) -> SocketAddr
        ensures { result ≡ self.now.addresses.remote }
    {
        self.inner.addresses.remote
    }

    /// The address of this end, where it is known.
    pub fn local_ip(&self) -> Option<IpAddr>
        ensures { result ≡ self.now.addresses.local_ip }
    {
        self.inner.addresses.local_ip
    }
}
