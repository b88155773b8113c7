ghost use Rattle.std.specs.Prelude.{◌≡◌, ◌≢◌, ◌↔◌, [], None, IfOk, IsTrue, OnErr, is_some, option_copied};
ghost use Rattle.qh_attempts.specs.Attempts.{AreAttempts, IsPending, total_bytes};
ghost use Rattle.qh_connections.specs.Connections.{AreConnections, connection_count, meta_at};
ghost use Rattle.qh_routes.specs.Routes.{HasNoEmptyId, NoKeyTwice};

use crate::Incoming;
use crate::incoming::Waiting;
use qh_attempts::IncomingBuffers;
use qh_base::{Memory, Moment};
use qh_connections::Connections;
use qh_kit::{EndpointConfig, Kit, ServerConfig};
use qh_routes::{ConnectionHandle, ConnectionMeta};
use std::alloc::Global;
use std::marker::Model;

/// An endpoint.
#[derive(Drop)]
pub struct Endpoint<K: Kit> {
    pub(crate) alloc: Global,
    pub(crate) config: EndpointConfig,
    // Their numbers.
    pub(crate) versions: Vec<u32>,
    pub(crate) server: Option<ServerConfig>,
    pub(crate) kit: K,
    pub(crate) words: K::R,
    pub(crate) token_log: K::T,
    pub(crate) connections: Connections<K::G>,
    pub(crate) incoming: IncomingBuffers<Waiting>,
    pub(crate) last_reset: Option<Moment>,
}

impl<K: Kit> Model for Endpoint<K> {
    ghost use Rattle.std.specs.Prelude.{◌≡◌};
    ghost use Rattle.qh_endpoint.specs.Endpoint.{PlainEndpoint, numbers};

    ghost Value = { PlainEndpoint K K.G K.R K.T };

    ghost view = { λ e. record { config = e.config; server = e.server; kit = e.kit; words = e.words; token_log = e.token_log; connections = e.connections; incoming = e.incoming; last_reset = e.last_reset } };

    ghost invariant = { λ e. e.versions.items ≡ numbers e.config };
}

impl<K: Kit> Endpoint<K> {
    /// An endpoint without connections. Memory is asked for as many numbers as there are versions.
    pub fn new(
        alloc: Global,
        config: EndpointConfig,
        server: Option<ServerConfig>,
        kit: K,
        ids: K::G,
        words: K::R,
        token_log: K::T,
    ) -> Result<Endpoint<K>, Memory>
        ensures made { IfOk result (λ e. e ≡ record { config = config; server = server; kit = kit; words = words; token_log = token_log; connections = record { routes = []; metas = []; ids = ids }; incoming = record { slots = []; numbered = 0 }; last_reset = None }) }
        ensures wanting { OnErr result (config.versions.items ≢ []) }
    {
        let mut versions = Vec::new(alloc);
        for version in &config.versions {
            versions.push(version.number())?;
        }
        Ok(Endpoint {
            alloc,
            config,
            versions,
            server,
            kit,
            words,
            token_log,
            connections: Connections::new(alloc, ids),
            incoming: IncomingBuffers::new(alloc),
            last_reset: None,
        })
    }
}

impl<K: Kit> Endpoint<K> {
    /// Attempts that come from now on are taken under this server config, or none are. Those that wait keep the one under which they came.
    pub fn set_server_config(&mut self, server: Option<ServerConfig>)
        ensures { self.new ≡ record self.old { server = server } }
    {
        self.server = server;
    }

    /// What holds of its connections and their routes at any time (`AreConnections`), and that each key has one route, and an empty id none. It does
    /// nothing: its contract says so.
    pub fn are_connections(&self)
        ensures sound { AreConnections self.now.connections }
        ensures distinct { NoKeyTwice self.now.connections.routes }
        ensures named { HasNoEmptyId self.now.connections.routes }
    {
        self.connections.are_connections();
    }

    /// What holds of its attempts that wait at any time (`AreAttempts`). It does nothing: its contract says so.
    pub fn are_attempts(&self)
        ensures { AreAttempts self.now.incoming }
    {
        self.incoming.are_attempts();
    }

    /// Whether a connection of this handle is live.
    pub fn known(&self, handle: ConnectionHandle) -> bool
        ensures { result ≡ is_some (meta_at self.now.connections handle) }
    {
        self.connections.is_live(handle)
    }

    /// What is kept of a connection. None if none of this handle is live.
    pub fn meta(&self, handle: ConnectionHandle) -> Option<&ConnectionMeta>
        ensures { option_copied result ≡ meta_at self.now.connections handle }
    {
        self.connections.meta(handle)
    }

    /// Whether the attempt waits.
    pub fn pending(&self, incoming: &Incoming) -> bool
        ensures { IsTrue result ↔ IsPending self.now.incoming incoming.now.key }
    {
        self.incoming.is_pending(&incoming.key)
    }

    /// Its settings.
    pub fn config(&self) -> &EndpointConfig
        ensures { result.now ≡ self.now.config }
    {
        &self.config
    }

    /// How many connections are live.
    pub fn open_connections(&self) -> usize
        ensures { result ≡ connection_count self.now.connections }
    {
        self.connections.len()
    }

    /// How many bytes are kept for attempts that wait, but for their first datagrams.
    pub fn incoming_buffer_bytes(&self) -> u64
        ensures { result ≡ total_bytes self.now.incoming }
    {
        self.incoming.bytes()
    }
}
