ghost use Rattle.std.specs.Prelude.{◌≡◌, ◌≤◌, ◌+◌, ◌-◌, ◌^◌, ◌++◌, ◌∷◌, ℕ, [], List, min, length, not, true, false, is_some, None, IfOk, OnOk, OnErr};
ghost use Rattle.qh_base.specs.declared.connection_error.ConnectionError.TheVariants.{LocallyClosed};
ghost use Rattle.qh_conn.specs.Greeting.{no_early};
ghost use Rattle.qh_conn.specs.Parameters.{IsFirstCore, IsFirstHandshake, IsSaid, first_control};
ghost use Rattle.qh_conn.specs.Same.{IsSameConnection};
ghost use Rattle.qh_conn.specs.Telling.{IsEndpointTold};
ghost use Rattle.qh_conn.specs.Whole.{IsWhole, Stands, StandsStill};
ghost use Rattle.qh_control.specs.declared.control.ControlState.{ControlState as AControlState};
ghost use Rattle.qh_core.specs.Inner.{counted, fresh_stats, is_open};
ghost use Rattle.qh_core.specs.Event.{is_drained};
ghost use Rattle.qh_core.specs.Made.{AcceptsTags, MakesTagsOf};
ghost use Rattle.qh_core.specs.Receiving.{IsClosedWith, IsFaulted};
ghost use Rattle.qh_core.specs.declared.control.ControlFrame.TheVariants as sending;
ghost use Rattle.qh_core.specs.declared.state.Close.TheVariants.{Application};
ghost use Rattle.qh_handshake.specs.Follows.{IsFresh};
ghost use Rattle.qh_handshake.specs.Handshake.{IsHandshake, stats_in, with_origin};
ghost use Rattle.qh_recovery.specs.Rtt.{rtt_of};
ghost use Rattle.qh_spec.specs.declared.sides.Side.TheVariants.{Client, Server};

use crate::ConnConfig;
use crate::laws::still;
use bytes::Bytes;
use qh_base::{
    ConnectionError, ConnectionId, FourTuple, Memory, Moment, Reason, Side, Span, TransportError,
    VarInt,
};
use qh_control::{ControlState, EndpointEvent};
use qh_converse::hears;
use qh_core::{Connection as Core, ConnectionStats, ControllerMetrics, UdpStats, made};
use qh_handshake::Handshake;
use qh_packet::Session;
use std::alloc::Global;
use std::net::{IpAddr, SocketAddr};

/// Limits that were set before the peer's hello came, when the end of the 1-RTT packets begins anew.
#[derive(Clone, Copy)]
pub struct EarlyLimits {
    pub max_bidi: Option<VarInt>,
    pub max_uni: Option<VarInt>,
    pub send_window: Option<u64>,
    pub receive_window: Option<VarInt>,
}

/// One end of a connection (RFC 9000; quinn-proto, `Connection`). Whoever drives it hands in each event that comes for it, calls
/// `handle_timeout` once `poll_timeout` is due, and after either, and after calls of the application, `poll_transmit`, `poll` and
/// `poll_endpoint_events` until each gives None.
#[derive(Drop)]
pub struct Connection<S> {
    pub alloc: Global,
    /// What it began with.
    pub config: ConnConfig,
    /// Its Initial packets, and both hellos.
    pub handshake: Handshake,
    /// Its 1-RTT packets, with the streams.
    pub core: Core<S>,
    /// Its frames beside those of streams and acknowledgement.
    pub control: ControlState,
    /// Whether the handshake is complete: at a client once the server's whole hello was read, at a server once a 1-RTT packet was accepted.
    pub is_connected: bool,
    /// Whether the application wasn't told yet that the handshake data are there, and that the handshake is complete.
    pub is_data_due: bool,
    pub is_connected_due: bool,
    /// Whether a packet of frames of its own goes next, if there is one: each second packet may be one.
    pub is_control_next: bool,
    pub early: EarlyLimits,
    /// Whether it was put into the log that the connection is lost.
    pub is_lost_logged: bool,
    /// The datagrams that were handed out.
    pub udp_tx: UdpStats,
    /// The datagrams that were handed in.
    pub udp_rx: UdpStats,
}

impl<S: Session> Connection<S> {
    /// An end before its first datagram. At a client `key_id` is the id that it chose for the server, to which its first packet goes, as
    /// `remote_id` is; at a server the one to which the client's first packet went. `local_id` is the one from which its packets come, and
    /// `remote_id` the one to which they go.
    pub fn new(
        alloc: Global,
        config: ConnConfig,
        side: Side,
        session: S,
        key_id: ConnectionId,
        local_id: ConnectionId,
        remote_id: ConnectionId,
        addresses: FourTuple,
        now: Moment,
    ) -> Result<Connection<S>, Memory>
    where
        S: Drop,
        ensures whole { IfOk result (λ c. IsWhole c) }
        ensures stands { IfOk result (λ c. (hello : List ℕ) × IsFresh hello c.handshake × ((accepts : AcceptsTags S) (sealed : MakesTagsOf S) → Stands accepts sealed hello c [])) }
        ensures handshake { IfOk result (λ c. (c.handshake.side ≡ side) × (c.handshake.local_id ≡ local_id) × (c.handshake.original_id ≡ key_id) × (c.handshake.retry_id ≡ None) × (c.handshake.token ≡ []) × (c.handshake.peer ≡ None)) }
        ensures begins { IfOk result (λ c. IsFirstHandshake config (S.name session) key_id remote_id now c.handshake side) }
        ensures said { IfOk result (λ c. IsSaid config side local_id key_id c.handshake.parameters) }
        ensures core { IfOk result (λ c. IsFirstCore config side session local_id remote_id addresses now c.core) }
        ensures parts { IfOk result (λ c. (c.config ≡ config) × (c.is_connected ≡ false) × (c.is_data_due ≡ false) × (c.is_connected_due ≡ false) × (c.is_control_next ≡ false) × (c.early ≡ no_early) × (c.is_lost_logged ≡ false) × (c.udp_tx ≡ fresh_stats) × (c.udp_rx ≡ fresh_stats)) }
        ensures control { IfOk result (λ c. c.control ≡ first_control config local_id remote_id addresses.remote c.control.queue.room) }
    {
        hears::<S>();
        let handshake = first_handshake(
            alloc, &config, side, &session, key_id, local_id, remote_id, now,
        )?;
        let control = ControlState::new(
            alloc,
            addresses.remote,
            local_id.len(),
            remote_id,
            config.datagram_receive,
            config.datagram_send,
        )?;
        let core = Core::new(
            alloc,
            config.core(),
            side,
            session,
            local_id,
            remote_id,
            addresses,
            now,
        );
        Ok(Connection {
            alloc,
            config,
            handshake,
            core,
            control,
            is_connected: false,
            is_data_due: false,
            is_connected_due: false,
            is_control_next: false,
            early: no_early(),
            is_lost_logged: false,
            udp_tx: no_datagrams(),
            udp_rx: no_datagrams(),
        })
    }

    /// At a server before its first event: the client's first packet went to `original_id`, was answered by a Retry packet that came from
    /// `retry_id` if there is one, and the client's address was validated by a token, or wasn't.
    pub fn set_origin(
        &mut self,
        original_id: ConnectionId,
        retry_id: Option<ConnectionId>,
        validated: bool,
    )
        requires whole { IsWhole self.old }
        requires server { self.old.handshake.side ≡ Server }
        requires first { (self.old.handshake.peer ≡ None) × (self.old.handshake.bytes_received ≡ 0) × (self.old.handshake.bytes_sent ≡ 0) }
        ensures origin { self.new ≡ record self.old { handshake = with_origin self.old.handshake original_id retry_id validated } }
        ensures stands { (hello : List ℕ) → IsFresh hello self.old.handshake → (own : List ℕ) × IsFresh own self.new.handshake
            × ((accepts : AcceptsTags S) (sealed : MakesTagsOf S) → Stands accepts sealed hello self.old [] → Stands accepts sealed own self.new []) }
        ensures whole { IsWhole self.new }
    {
        self.handshake.set_origin(original_id, retry_id, validated);
    }

    /// At a client before its first `poll_transmit`: each Initial packet before a Retry packet bears this token, of at most 512 bytes.
    pub fn bear(&mut self, token: Bytes)
        requires whole { IsWhole self.old }
        requires client { self.old.handshake.side ≡ Client }
        requires first { (self.old.handshake.retry_id ≡ None) × (self.old.handshake.bytes_received ≡ 0) × (self.old.handshake.bytes_sent ≡ 0) }
        requires short { length token ≤ 512 }
        ensures token { self.new ≡ record self.old { handshake = record self.old.handshake { token = token } } }
        ensures stands { (hello : List ℕ) → IsFresh hello self.old.handshake → IsFresh hello self.new.handshake
            × ((accepts : AcceptsTags S) (sealed : MakesTagsOf S) → Stands accepts sealed hello self.old [] → Stands accepts sealed hello self.new []) }
        ensures whole { IsWhole self.new }
    {
        self.handshake.bear(token);
    }

    /// The session that makes and opens its tags.
    pub fn session(&self) -> &S
        ensures { result.now ≡ self.now.core.session }
    {
        self.core.session()
    }
}

impl<S> Connection<S> {
    /// Whether the peer's whole hello was read: 1-RTT packets are taken from then on.
    pub fn is_greeted(&self) -> bool
        ensures { result ≡ is_some self.now.handshake.peer }
    {
        self.handshake.peer.is_some()
    }

    /// Whether the handshake isn't complete.
    pub fn is_handshaking(&self) -> bool
        ensures { result ≡ not self.now.is_connected }
    {
        !self.is_connected
    }

    /// Closes, with a code and a reason of the application's (RFC 9000, section 10.2). Nothing if the connection is closed already.
    pub fn close(&mut self, now: Moment, error_code: VarInt, reason: Reason)
        requires { IsWhole self.old }
        ensures closed { is_open self.old.core.state ≡ true → IsClosedWith now (Application (record { error_code = error_code; reason = reason })) LocallyClosed self.old.core self.new.core }
        ensures kept { is_open self.old.core.state ≡ false → self.new ≡ self.old }
        ensures rest { self.new ≡ record self.old { core = self.new.core } }
        ensures stands { StandsStill self.old self.new }
        ensures whole { IsWhole self.new }
        ensures same { (key : S → List ℕ) → IsSameConnection key self.old self.new }
    {
        still::<S>();
        made::<S>();
        self.core.close(now, error_code, reason);
    }

    /// Something outside of the connection failed, as its socket: it closes with a fault of the transport (RFC 9000, section 11.1), in place of the
    /// error that it is lost by, if it is.
    pub fn close_by_fault(&mut self, now: Moment, error: TransportError)
        requires whole { IsWhole self.old }
        requires lives { is_drained self.old.core.state ≡ false }
        ensures faulted { IsFaulted now error self.old.core self.new.core }
        ensures rest { self.new ≡ record self.old { core = self.new.core } }
        ensures stands { StandsStill self.old self.new }
        ensures whole { IsWhole self.new }
        ensures same { (key : S → List ℕ) → IsSameConnection key self.old self.new }
    {
        still::<S>();
        made::<S>();
        self.core.close_by_fault(now, error);
    }

    /// What the endpoint is to be told. None exactly if nothing is left to be told.
    pub fn poll_endpoint_events(&mut self) -> Option<EndpointEvent>
        requires { IsWhole self.old }
        ensures told { IsEndpointTold self.old self.new result }
        ensures stands { StandsStill self.old self.new }
        ensures whole { IsWhole self.new }
        ensures same { (key : S → List ℕ) → IsSameConnection key self.old self.new }
    {
        if let Some(event) = self.control.poll_endpoint_event() {
            return Some(event);
        }
        still::<S>();
        made::<S>();
        match self.core.poll_endpoint_events() {
            Some(qh_core::EndpointEvent::Drained) => Some(EndpointEvent::Drained),
            None => None,
        }
    }

    /// Queues a token for the client, in a NEW_TOKEN frame that is sent again if it is lost (RFC 9000, section 8.1.3).
    pub fn queue_token(&mut self, token: Bytes) -> Result<(), Memory>
        requires whole { IsWhole self.old }
        requires server { self.old.handshake.side ≡ Server }
        requires some { 1 ≤ length token }
        requires short { length token ≤ 512 }
        ensures ok { OnOk result (self.new ≡ record self.old { control = record self.old.control { queue = record self.old.control.queue { waiting = self.old.control.queue.waiting ++ sending.NewToken token ∷ [] } } }) }
        ensures err { OnErr result (self.new ≡ self.old) }
        ensures stands { StandsStill self.old self.new }
        ensures whole { IsWhole self.new }
    {
        self.control.queue_token(token)
    }

    /// The last token that came and wasn't taken. None exactly if there is none.
    pub fn take_token(&mut self) -> Option<Bytes>
        requires { IsWhole self.old }
        ensures value { result ≡ self.old.control.token }
        ensures rest { self.new ≡ record self.old { control = record self.old.control { token = None } } }
        ensures stands { StandsStill self.old self.new }
        ensures whole { IsWhole self.new }
    {
        self.control.take_token()
    }

    /// What was done since it was made.
    pub fn stats(&self) -> ConnectionStats
        ensures datagrams { (result.datagrams_sent ≡ self.now.udp_tx.datagrams) × (result.datagrams_received ≡ self.now.udp_rx.datagrams) }
        ensures bytes { (result.bytes_sent ≡ self.now.udp_tx.bytes) × (result.bytes_received ≡ self.now.udp_rx.bytes) }
        ensures lost { result.packets_lost ≡ min (2 ^ 64 - 1) (self.now.core.space.packets_lost + (stats_in self.now.handshake.space self.now.handshake.stats).packets_lost) }
        ensures probes { result.probes ≡ min (2 ^ 64 - 1) (self.now.core.space.probes_sent + (stats_in self.now.handshake.space self.now.handshake.stats).probes) }
    {
        let core = self.core.stats();
        let initial = self.handshake.stats();
        ConnectionStats {
            datagrams_sent: self.udp_tx.datagrams,
            datagrams_received: self.udp_rx.datagrams,
            bytes_sent: self.udp_tx.bytes,
            bytes_received: self.udp_rx.bytes,
            packets_lost: core.packets_lost.saturating_add(initial.packets_lost),
            probes: core.probes.saturating_add(initial.probes),
        }
    }

    /// The smoothed round-trip time of its 1-RTT packets, the initial one before a sample (RFC 9002, section 5.3).
    pub fn rtt(&self) -> Span
        ensures { result.0 ≡ rtt_of self.now.core.space.rtt }
    {
        self.core.rtt()
    }

    /// The least round-trip time of its 1-RTT packets, the initial one before a sample (RFC 9002, section 5.2).
    pub fn min_rtt(&self) -> Span
        ensures { result ≡ self.now.core.space.rtt.min }
    {
        self.core.min_rtt()
    }

    /// The window, and the threshold below which it grows fast, None before the first loss (RFC 9002, section 7.3).
    pub fn congestion_state(&self) -> ControllerMetrics
        ensures { result ≡ record { congestion_window = self.now.core.space.congestion.window; ssthresh = self.now.core.space.congestion.ssthresh } }
    {
        self.core.congestion_state()
    }

    /// Why the connection is lost, if it is (quinn, `Connection::close_reason`).
    pub fn close_reason(&self) -> Option<ConnectionError>
        ensures { result ≡ self.now.core.error }
    {
        self.core.close_reason()
    }

    /// Whether the connection is closed: by either end, by the idle time, or by want of memory.
    pub fn is_closed(&self) -> bool
        ensures { result ≡ not (is_open self.now.core.state) }
    {
        self.core.is_closed()
    }

    /// Whether nothing is sent or taken any more: the connection can be forgotten.
    pub fn is_drained(&self) -> bool
        ensures { result ≡ is_drained self.now.core.state }
    {
        self.core.is_drained()
    }

    /// Which end this is.
    pub fn side(&self) -> Side
        ensures { result ≡ self.now.core.side }
    {
        self.core.side()
    }

    /// Where the peer is.
    pub fn remote_address(&self) -> SocketAddr
        ensures { result ≡ self.now.core.addresses.remote }
    {
        self.core.remote_address()
    }

    /// The address of this end, if it is known.
    pub fn local_ip(&self) -> Option<IpAddr>
        ensures { result ≡ self.now.core.addresses.local_ip }
    {
        self.core.local_ip()
    }
}

/// One datagram more, of so many bytes.
pub(crate) fn count(stats: &mut UdpStats, size: usize)
    ensures { stats.new ≡ counted size stats.old }
{
    stats.datagrams = stats.datagrams.saturating_add(1);
    stats.bytes = stats.bytes.saturating_add(size as u64);
}

// The handshake of an end before its first datagram.
fn first_handshake<S: Session>(
    alloc: Global,
    config: &ConnConfig,
    side: Side,
    session: &S,
    key_id: ConnectionId,
    local_id: ConnectionId,
    remote_id: ConnectionId,
    now: Moment,
) -> Result<Handshake, Memory>
    ensures whole { IfOk result (λ h. IsHandshake h) }
    ensures fresh { IfOk result (λ h. (hello : List ℕ) × IsFresh hello h) }
    ensures ids { IfOk result (λ h. (h.side ≡ side) × (h.local_id ≡ local_id) × (h.original_id ≡ key_id) × (h.retry_id ≡ None) × (h.token ≡ []) × (h.peer ≡ None)) }
    ensures said { IfOk result (λ h. IsSaid config.now side local_id key_id h.parameters) }
    ensures begins { IfOk result (λ h. IsFirstHandshake config.now (S.name session.now) key_id remote_id now h side) }
{
    // Its length is read for the bound alone.
    let _ = session.server_name().len();
    let parameters = config.parameters(side, local_id);
    let rtt = config.initial_rtt;
    match side {
        Side::Client => {
            let handshake = Handshake::client(alloc, session, parameters, key_id, rtt, now)?;
            Ok(handshake)
        }
        Side::Server => Ok(Handshake::server(alloc, parameters, remote_id, key_id, rtt, now)),
    }
}

fn no_early() -> EarlyLimits
    ensures { result ≡ no_early }
{
    EarlyLimits {
        max_bidi: None,
        max_uni: None,
        send_window: None,
        receive_window: None,
    }
}

fn no_datagrams() -> UdpStats
    ensures { result ≡ fresh_stats }
{
    UdpStats {
        datagrams: 0,
        bytes: 0,
    }
}
