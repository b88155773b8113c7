ghost use Rattle.std.specs.Prelude.{◌≡◌, [], None, Some, true, false};
ghost use Rattle.qh_base.specs.declared.connection_error.ConnectionError.TheVariants.{Memory as OutOfMemory};
ghost use Rattle.qh_core.specs.Config.{space_config};
ghost use Rattle.qh_core.specs.Inner.{IsConnection, IsFailedBy, IsNewSpace, fresh_stats, is_client, is_open};
ghost use Rattle.qh_core.specs.declared.state.State.TheVariants as state;
ghost use Rattle.qh_recovery.specs.Accepted.{Remembers};
ghost use Rattle.qh_space.specs.Space.{AreUnused};

mod closing;
mod controlling;
mod events;
mod receiving;
mod sending;
mod timeouts;
mod turning;

use crate::{ConnConfig, ConnectionStats, IdleTimer, State, UdpStats};
use qh_base::{ConnectionError, ConnectionId, FourTuple, Moment, Side, Span};
use qh_space::DataSpace;
use qh_streams::PeerLimits;
use std::alloc::Global;

/// All that a connection keeps. What holds of it together is `IsConnection`.
#[derive(Drop)]
pub struct Inner<S> {
    /// Which end this is.
    pub side: Side,
    /// What makes and opens the tags of packets.
    pub session: S,
    /// The id in the packets that come.
    pub local_id: ConnectionId,
    /// The id in the packets that are sent.
    pub remote_id: ConnectionId,
    /// Where packets go.
    pub addresses: FourTuple,
    /// What it began with.
    pub config: ConnConfig,
    /// The packet number space of application data, with the streams.
    pub space: DataSpace,
    /// The idle time.
    pub idle: IdleTimer,
    /// How far the connection is.
    pub state: State,
    /// Why the connection is lost, where it is.
    pub error: Option<ConnectionError>,
    /// Whether the application was told that it is lost.
    pub is_lost_told: bool,
    /// Whether the endpoint was told that it is drained.
    pub is_drained_told: bool,
    /// The datagrams that were handed out.
    pub udp_tx: UdpStats,
    /// The datagrams that were handed in.
    pub udp_rx: UdpStats,
}

/// What a connection is made of.
#[derive(Drop)]
pub struct Parts<S> {
    pub side: Side,
    pub session: S,
    pub local_id: ConnectionId,
    pub remote_id: ConnectionId,
    pub addresses: FourTuple,
}

impl<S> Inner<S> {
    // An end before anything came or was written.
    pub(crate) fn new(alloc: Global, config: ConnConfig, parts: Parts<S>, now: Moment) -> Inner<S>
        ensures connection { IsConnection result }
        ensures space { IsNewSpace config parts.side result.space }
        ensures ping { result.space.is_ping_due ≡ false }
        ensures unused { AreUnused result.space.streams config.peer }
        ensures received { Remembers [] result.space.dedup }
        ensures value { result ≡ record {
          side = parts.side;
          session = parts.session;
          local_id = parts.local_id;
          remote_id = parts.remote_id;
          addresses = parts.addresses;
          config = config;
          space = result.space;
          idle = record { timeout = config.idle; since = now; has_sent = false };
          state = state.Established;
          error = None;
          is_lost_told = false;
          is_drained_told = false;
          udp_tx = fresh_stats;
          udp_rx = fresh_stats;
        } }
    {
        let none = UdpStats {
            datagrams: 0,
            bytes: 0,
        };
        Inner {
            side: parts.side,
            session: parts.session,
            local_id: parts.local_id,
            remote_id: parts.remote_id,
            addresses: parts.addresses,
            config,
            space: DataSpace::new(alloc, parts.side, config.space()),
            idle: IdleTimer::new(config.idle, now),
            state: State::Established,
            error: None,
            is_lost_told: false,
            is_drained_told: false,
            udp_tx: none,
            udp_rx: none,
        }
    }

    // The peer's hello told its first limits, which datagrams it takes and the idle time in force, and the packets that brought it the peer's id: the end begins
    // anew with them.
    pub(crate) fn greet(
        &mut self,
        alloc: Global,
        peer: PeerLimits,
        peer_datagram: Option<u64>,
        remote_id: ConnectionId,
        timeout: Option<Span>,
    )
        requires whole { IsConnection self.old }
        requires open { is_open self.old.state ≡ true }
        ensures connection { IsConnection self.new }
        ensures space { IsNewSpace self.new.config self.old.side self.new.space }
        ensures unused { AreUnused self.new.space.streams peer }
        ensures received { Remembers [] self.new.space.dedup }
        ensures ping { self.new.space.is_ping_due ≡ is_client self.old.side }
        ensures rest { self.new ≡ record self.old {
          remote_id = remote_id;
          config = record self.old.config { peer = peer; peer_datagram = peer_datagram; idle = timeout };
          space = self.new.space;
          idle = record self.old.idle { timeout = timeout };
        } }
    {
        self.remote_id = remote_id;
        self.config = ConnConfig {
            peer,
            peer_datagram,
            idle: timeout,
            ..self.config
        };
        let mut space = DataSpace::new(alloc, self.side, self.config.space());
        space.is_ping_due = matches!(self.side, Side::Client);
        put_space(&mut self.space, space);
        self.idle = IdleTimer {
            timeout,
            ..self.idle
        };
    }

    // What was done since it was made.
    pub(crate) fn stats(&self) -> ConnectionStats
        ensures datagrams { (result.datagrams_sent ≡ self.now.udp_tx.datagrams) × (result.datagrams_received ≡ self.now.udp_rx.datagrams) }
        ensures bytes { (result.bytes_sent ≡ self.now.udp_tx.bytes) × (result.bytes_received ≡ self.now.udp_rx.bytes) }
        ensures recovery { (result.packets_lost ≡ self.now.space.packets_lost) × (result.probes ≡ self.now.space.probes_sent) }
    {
        ConnectionStats {
            datagrams_sent: self.udp_tx.datagrams,
            datagrams_received: self.udp_rx.datagrams,
            bytes_sent: self.udp_tx.bytes,
            bytes_received: self.udp_rx.bytes,
            packets_lost: self.space.packets_lost,
            probes: self.space.probes_sent,
        }
    }

    // Want of memory in the middle of a step: the connection is lost and drained, and all that it held of its streams is
    // dropped, with the log of what they were brought. The counts of lost packets and of probes stay.
    pub(crate) fn fail(&mut self, alloc: Global, stats: ConnectionStats)
        ensures failed { IsFailedBy self.old self.new }
        ensures counts { (self.new.space.packets_lost ≡ stats.packets_lost) × (self.new.space.probes_sent ≡ stats.probes) }
        ensures connection { IsConnection self.new }
    {
        let mut space = DataSpace::new(alloc, self.side, self.config.space());
        space.packets_lost = stats.packets_lost;
        space.probes_sent = stats.probes;
        put_space(&mut self.space, space);
        self.state = State::Drained;
        self.error = Some(ConnectionError::Memory);
    }
}

// Puts a space in place of another.
fn put_space(slot: &mut DataSpace, space: DataSpace)
    ensures { slot.new ≡ space }
{
    *slot = space;
}
