ghost use Rattle.std.specs.Prelude.{◌≡◌, ◌↔◌, ◌≤◌, ℕ, List, [], Contains, IfErr, IfOk, IsTrue, None, OnErr, length, not, ◌==◌};
ghost use Rattle.qh_conn.specs.Whole.{IsWhole, Stands};
ghost use Rattle.qh_conn.specs.declared.connection.Connection.{Connection as AConnection};
ghost use Rattle.qh_connections.specs.Connections.{IsConnectionAdded, IsKept};
ghost use Rattle.qh_connections.specs.Ids.{IsIssued, IsSameSource};
ghost use Rattle.qh_core.specs.Made.{AcceptsTags, MakesTagsOf};
ghost use Rattle.qh_endpoint.specs.Connecting.{IsConnectRefused, IsConnected, IsFirstConnection, IsNoName, IsNowhere, conn_of};
ghost use Rattle.qh_handshake.specs.Follows.{IsFresh};
ghost use Rattle.qh_spec.specs.declared.sides.Side.TheVariants.{Client as AClient};

use crate::Endpoint;
use bytes::Bytes;
use qh_base::{ConnectionId, FourTuple, Memory, Moment, Side};
use qh_conn::{ConnConfig, Connection};
use qh_kit::{ClientConfig, ConnectError, Kit};
use qh_routes::ConnectionHandle;
use std::net::SocketAddr;

impl<K: Kit> Endpoint<K> {
    /// Begins a connection to a server, whose name its hello bears (quinn-proto, `Endpoint::connect`). It is refused, in this order, if ids are
    /// exhausted; if the address has port 0 or is an unspecified one; if the endpoint hasn't the version; if 64 ids in a row that were drawn are
    /// issued; and if the name is empty or has more than 255 bytes. Nothing is kept of what is refused, but ids stay drawn. Want of memory comes only
    /// where none of that holds; then the kit may have changed too.
    pub fn connect(
        &mut self,
        now: Moment,
        config: ClientConfig,
        remote: SocketAddr,
        server_name: &[u8],
    ) -> Result<(ConnectionHandle, Connection<K::S>), ConnectError>
        ensures connected { IfOk result (λ made. IsConnected {S = K.S} (K.G.cid_len self.old.connections.ids) K.G.given K.G.validates K.S.key K.S.name K.S.knows now config remote server_name.now self.old self.new made.0 made.1) }
        ensures refused { IfErr result (IsConnectRefused {S = K.S} (K.G.cid_len self.old.connections.ids) K.G.given K.G.validates K.S.key K.S.name K.S.knows now config remote server_name.now self.old self.new) }
        ensures source { IsSameSource K.G.cid_len K.G.validates self.old.connections.ids self.new.connections.ids }
    {
        if self.connections.ids_exhausted() {
            return Err(ConnectError::CidsExhausted);
        }
        if is_nowhere(remote) {
            return Err(ConnectError::InvalidRemoteAddress(remote));
        }
        if !lists(&self.versions, config.version.number()) {
            return Err(ConnectError::UnsupportedVersion);
        }
        let Some(local_id) = self.connections.draw() else {
            return Err(ConnectError::CidsExhausted);
        };
        if is_no_name(server_name) {
            return Err(ConnectError::InvalidServerName);
        }
        match self.begin(now, &config, remote, server_name, local_id) {
            Ok(made) => Ok(made),
            Err(Memory) => Err(ConnectError::Memory),
        }
    }

    /// As `connect`, but that each Initial packet before a Retry packet bears this token, which an earlier connection to the server was given, of at
    /// most 512 bytes (RFC 9000, section 8.1.3).
    pub fn connect_bearing(
        &mut self,
        now: Moment,
        config: ClientConfig,
        remote: SocketAddr,
        server_name: &[u8],
        token: Bytes,
    ) -> Result<(ConnectionHandle, Connection<K::S>), ConnectError>
        requires { length token ≤ 512 }
        ensures connected { IfOk result (λ made. (first : AConnection K.S) × IsConnected {S = K.S} (K.G.cid_len self.old.connections.ids) K.G.given K.G.validates K.S.key K.S.name K.S.knows now config remote server_name.now self.old self.new made.0 first
            × (made.1 ≡ record first { handshake = record first.handshake { token = token } })) }
        ensures whole { IfOk result (λ made. IsWhole made.1) }
        ensures stands { IfOk result (λ made. (hello : List ℕ) × IsFresh hello made.1.handshake × ((accepts : AcceptsTags K.S) (sealed : MakesTagsOf K.S) → Stands accepts sealed hello made.1 [])) }
        ensures refused { IfErr result (IsConnectRefused {S = K.S} (K.G.cid_len self.old.connections.ids) K.G.given K.G.validates K.S.key K.S.name K.S.knows now config remote server_name.now self.old self.new) }
        ensures source { IsSameSource K.G.cid_len K.G.validates self.old.connections.ids self.new.connections.ids }
    {
        match self.connect(now, config, remote, server_name) {
            Ok((handle, mut connection)) => {
                connection.bear(token);
                Ok((handle, connection))
            }
            Err(error) => Err(error),
        }
    }

    // A connection to a server with this id, which isn't issued.
    fn begin(
        &mut self,
        now: Moment,
        config: &ClientConfig,
        remote: SocketAddr,
        server_name: &[u8],
        local_id: ConnectionId,
    ) -> Result<(ConnectionHandle, Connection<K::S>), Memory>
        requires free { IsIssued self.old.connections.routes local_id → ⊥ }
        requires short { length server_name.now ≤ 255 }
        ensures first { IfOk result (λ made. (session : K.S) × (K.S.key session ≡ config.now.initial_dst_cid) × (K.S.name session ≡ server_name.now) × (K.S.knows session ≡ not (length server_name.now == 0))
            × IsFirstConnection K.S.name (conn_of config.now) AClient session config.now.initial_dst_cid local_id config.now.initial_dst_cid (record { remote = remote; local_ip = None }) now made.1) }
        ensures added { IfOk result (λ made. IsConnectionAdded self.old.connections self.new.connections made.0 AClient config.now.initial_dst_cid local_id (record { remote = remote; local_ip = None })) }
        ensures ids { self.new.connections.ids ≡ self.old.connections.ids }
        ensures err { OnErr result (IsKept self.old.connections self.new.connections) }
        ensures rest { self.new ≡ record self.old { kit = self.new.kit; connections = self.new.connections } }
    {
        let remote_id = config.initial_dst_cid;
        let session = self.kit.session(remote_id, server_name)?;
        let addresses = FourTuple {
            remote,
            local_ip: None,
        };
        self.add_connection(
            Side::Client,
            session,
            conn_of(config),
            remote_id,
            local_id,
            remote_id,
            addresses,
            now,
        )
    }

    /// A connection of this side, with this id of its own, which isn't issued (quinn-proto, `Endpoint::add_connection`).
    pub(crate) fn add_connection(
        &mut self,
        side: Side,
        session: K::S,
        config: ConnConfig,
        key_id: ConnectionId,
        local_id: ConnectionId,
        remote_id: ConnectionId,
        addresses: FourTuple,
        now: Moment,
    ) -> Result<(ConnectionHandle, Connection<K::S>), Memory>
        requires { IsIssued self.old.connections.routes local_id → ⊥ }
        ensures first { IfOk result (λ made. IsFirstConnection K.S.name config side session key_id local_id remote_id addresses now made.1) }
        ensures added { IfOk result (λ made. IsConnectionAdded self.old.connections self.new.connections made.0 side key_id local_id addresses) }
        ensures ids { self.new.connections.ids ≡ self.old.connections.ids }
        ensures err { OnErr result (IsKept self.old.connections self.new.connections) }
        ensures rest { self.new ≡ record self.old { connections = self.new.connections } }
    {
        let connection = Connection::new(
            self.alloc, config, side, session, key_id, local_id, remote_id, addresses, now,
        )?;
        match self.connections.add(side, key_id, local_id, addresses) {
            Ok(handle) => Ok((handle, connection)),
            Err(Memory) => {
                // By a call, since a drop where a scope ends is proved field by field.
                drop(connection);
                Err(Memory)
            }
        }
    }
}

// Whether nothing can be sent there.
fn is_nowhere(remote: SocketAddr) -> bool
    ensures { IsTrue result ↔ IsNowhere remote }
{
    remote.port() == 0 || remote.ip().is_unspecified()
}

// Whether the version is among them.
fn lists(versions: &[u32], version: u32) -> bool
    ensures { IsTrue result ↔ Contains versions.now version }
{
    versions.contains(&version)
}

// Whether it names no server that a hello can bear.
fn is_no_name(server_name: &[u8]) -> bool
    ensures { IsTrue result ↔ IsNoName server_name.now }
{
    server_name.is_empty() || server_name.len() > 255
}

// The settings of the connection, with the client's version.
fn conn_of(config: &ClientConfig) -> ConnConfig
    ensures { result ≡ conn_of config.now }
{
    ConnConfig {
        limits: config.conn.limits,
        idle: config.conn.idle,
        initial_rtt: config.conn.initial_rtt,
        initial_window: config.conn.initial_window,
        datagram_receive: config.conn.datagram_receive,
        datagram_send: config.conn.datagram_send,
        version: config.version,
    }
}
