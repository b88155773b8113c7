ghost use Rattle.std.specs.Prelude.{◌≡◌, ◌≢◌, ◌↔◌, ◌-◌, ◌<◌, ◌≤◌, ℕ, List, Some, None, [], ◌∷◌, length, drop, OnOk, OnErr, IsOk, IsTrue, IfSome, IfNone};
ghost use Rattle.std.specs.Map.{lookup, values_of};
ghost use Rattle.std.specs.Ordering.{eq_by_cmp};
ghost use Rattle.std.specs.BTreeMap.{IsOrdered};
ghost use Rattle.std.specs.HashMap.{IsUnique};
ghost use Rattle.std.specs.Option.{option_copied, option_map};
ghost use Rattle.qh_spec.specs.Lists.{In};
ghost use Rattle.qh_routes.specs.Routes.{issued, initial, pair, remote, reset, NoKeyTwice, HasNoEmptyId, IsAdded, IsRemovedOf, AreRemovedOf, conn_key, address_keys, id_keys, connection_keys, reset_keys, keys_of, IsRouted, AreSameRoutes, IsFirstAdded, Routes, issued_count};
ghost use Rattle.qh_spec.specs.declared.sides.Side.TheVariants.{Client, Server};
ghost use Rattle.qh_routes.specs.Index.{Loses, id_cmp, id_eq};
ghost use Rattle.qh_routes.specs.ConnectionMeta.{initial_keys, issued_keys, token_keys, keys_of_meta};
ghost use Rattle.qh_routes.specs.declared.connection_index.RouteDatagramTo.{RouteDatagramTo as Target};
ghost use Rattle.qh_routes.specs.declared.connection_index.RouteDatagramTo.TheVariants.{Incoming, Connection};

use crate::route_keys::{PathKey, ResetKey};
use crate::{ConnectionHandle, ConnectionMeta};
use qh_base::{ConnectionId, FourTuple, Memory, ResetToken, Side};
use std::alloc::Global;
use std::collections::{BTreeMap, HashMap};
use std::marker::Model;
use std::net::SocketAddr;

// How many bytes a reset token has (RFC 9000, section 10.3).
const RESET_TOKEN_LEN: usize = 16;

/// What a datagram is for.
#[derive(Clone, Copy, PartialEq, Eq)]
pub enum RouteDatagramTo {
    /// An attempt that waits to be accepted, by its number.
    Incoming(usize),
    /// A connection.
    Connection(ConnectionHandle),
}

/// What a look-up reads of a datagram.
#[derive(Clone, Copy)]
pub struct Routed<'a> {
    /// The id that its first packet goes to.
    pub dst_cid: ConnectionId,
    /// Whether its first packet is an Initial or 0-RTT packet.
    pub is_first: bool,
    /// All of its bytes.
    pub data: &'a [u8],
}

/// Leads datagrams to the connections and attempts of an endpoint. A contract sees it as its routes.
///
/// A key has one route: what is inserted takes the place of an earlier route with the same key. An insertion without memory leaves
/// the routes as they were. One that takes the place of another needs no memory.
///
/// The ids that this end issued are in a hash table, whose hash is fixed, since no peer chooses them. A peer may choose the other
/// keys, so they are in trees, ordered by all of their bytes. Two addresses are the same key only if they are equal: of an IPv6
/// address the flow label and the scope count too.
#[derive(Drop)]
pub struct ConnectionIndex {
    ids: HashMap<ConnectionId, ConnectionHandle>,
    initials: BTreeMap<ConnectionId, RouteDatagramTo>,
    pairs: BTreeMap<PathKey, ConnectionHandle>,
    remotes: BTreeMap<SocketAddr, ConnectionHandle>,
    tokens: BTreeMap<ResetKey, ConnectionHandle>,
}

impl Model for ConnectionIndex {
    ghost use Rattle.qh_routes.specs.Routes.{Routes};
    ghost use Rattle.qh_routes.specs.Index.{AreMaps, routes_of};

    ghost Value = { Routes };

    ghost view = { λ x. routes_of (record { ids = x.ids.entries; initials = x.initials.entries; pairs = x.pairs.entries; remotes = x.remotes.entries; tokens = x.tokens.entries }) };

    ghost invariant = { λ x. AreMaps (record { ids = x.ids.entries; initials = x.initials.entries; pairs = x.pairs.entries; remotes = x.remotes.entries; tokens = x.tokens.entries }) };
}

impl ConnectionIndex {
    /// No routes.
    pub fn new(alloc: Global) -> ConnectionIndex
        ensures { result ≡ [] }
    {
        ConnectionIndex {
            ids: HashMap::new(alloc),
            initials: BTreeMap::new(alloc),
            pairs: BTreeMap::new(alloc),
            remotes: BTreeMap::new(alloc),
            tokens: BTreeMap::new(alloc),
        }
    }

    /// No key has two routes, and an empty id has none. It does nothing: its contract says so.
    pub fn keys_are_distinct(&self)
        ensures distinct { NoKeyTwice self.now }
        ensures named { HasNoEmptyId self.now }
    {
        let _ = self.ids.len();
    }

    /// A client's first packets, which go to the id that it chose, belong to this attempt. An empty id gets no route.
    pub fn insert_initial_incoming(
        &mut self,
        dst_cid: ConnectionId,
        incoming: usize,
    ) -> Result<(), Memory>
        ensures added { OnOk result (dst_cid ≢ [] → IsAdded (initial dst_cid) (Incoming incoming) self.old self.new) }
        ensures empty { dst_cid ≡ [] → IsOk result × (self.new ≡ self.old) }
        ensures unchanged { OnErr result (self.new ≡ self.old) }
        ensures fresh { OnErr result ((t : Target) → In (initial dst_cid, t) self.old → ⊥) }
    {
        self.put_initial(dst_cid, RouteDatagramTo::Incoming(incoming))
    }

    /// A client's first packets, which go to the id that it chose, belong to this connection. An empty id gets no route.
    pub fn insert_initial(
        &mut self,
        dst_cid: ConnectionId,
        handle: ConnectionHandle,
    ) -> Result<(), Memory>
        ensures added { OnOk result (dst_cid ≢ [] → IsAdded (initial dst_cid) (Connection handle) self.old self.new) }
        ensures empty { dst_cid ≡ [] → IsOk result × (self.new ≡ self.old) }
        ensures unchanged { OnErr result (self.new ≡ self.old) }
        ensures fresh { OnErr result ((t : Target) → In (initial dst_cid, t) self.old → ⊥) }
    {
        self.put_initial(dst_cid, RouteDatagramTo::Connection(handle))
    }

    /// The id that a client chose leads no more to this attempt or connection. If it leads to another one, nothing happens.
    pub fn remove_initial(&mut self, dst_cid: ConnectionId, target: RouteDatagramTo)
        ensures { IsRemovedOf (initial dst_cid) target self.old self.new }
    {
        remove_first_of(&mut self.initials, &dst_cid, target);
    }

    /// A connection with this first id of this end's is found by the id from now on, or, if it is empty, by its addresses: at a
    /// server by the pair, at a client by the peer's alone, since it doesn't know from which of its own it sends.
    pub fn insert_conn(
        &mut self,
        addresses: FourTuple,
        dst_cid: ConnectionId,
        handle: ConnectionHandle,
        side: Side,
    ) -> Result<(), Memory>
        ensures added { OnOk result (IsAdded (conn_key addresses dst_cid side) (Connection handle) self.old self.new) }
        ensures unchanged { OnErr result (self.new ≡ self.old) }
        ensures fresh { OnErr result ((t : Target) → In (conn_key addresses dst_cid side, t) self.old → ⊥) }
    {
        if !dst_cid.is_empty() {
            return self.insert_id(dst_cid, handle);
        }
        match side {
            Side::Server => self.put_pair(addresses, handle),
            Side::Client => self.put_remote(addresses.remote, handle),
        }
    }

    /// This end issued the id for the connection. An empty id gets no route.
    pub fn insert_id(&mut self, id: ConnectionId, handle: ConnectionHandle) -> Result<(), Memory>
        ensures added { OnOk result (id ≢ [] → IsAdded (issued id) (Connection handle) self.old self.new) }
        ensures empty { id ≡ [] → IsOk result × (self.new ≡ self.old) }
        ensures unchanged { OnErr result (self.new ≡ self.old) }
        ensures fresh { OnErr result ((t : Target) → In (issued id, t) self.old → ⊥) }
    {
        if id.is_empty() {
            return Ok(());
        }
        let _ = self.ids.insert(id, handle)?;
        Ok(())
    }

    /// An id that this end issued leads no more to the connection. If it leads to another one, nothing happens.
    pub fn retire(&mut self, id: ConnectionId, handle: ConnectionHandle)
        ensures { IsRemovedOf (issued id) (Connection handle) self.old self.new }
    {
        remove_issued_of(&mut self.ids, &id, handle);
    }

    /// The stateless resets of the connection's peer come from this address and end with this token.
    pub fn insert_reset_token(
        &mut self,
        remote: SocketAddr,
        token: ResetToken,
        handle: ConnectionHandle,
    ) -> Result<(), Memory>
        ensures added { OnOk result (IsAdded (reset remote token.0) (Connection handle) self.old self.new) }
        ensures unchanged { OnErr result (self.new ≡ self.old) }
        ensures fresh { OnErr result ((t : Target) → In (reset remote token.0, t) self.old → ⊥) }
    {
        let _ = self.tokens.insert(ResetKey { remote, token }, handle)?;
        Ok(())
    }

    /// Such resets don't belong to the connection any more. If they belong to another one, nothing happens.
    pub fn remove_reset_token(
        &mut self,
        remote: SocketAddr,
        token: ResetToken,
        handle: ConnectionHandle,
    )
        ensures { IsRemovedOf (reset remote token.0) (Connection handle) self.old self.new }
    {
        remove_of(&mut self.tokens, &ResetKey { remote, token }, handle);
    }

    /// A connection that begins is found by its first id, or by its addresses if that is empty (`insert_conn`), and a server's also by the id that
    /// the client's first packets went to, unless that is empty (`insert_initial`). Without memory the routes are as they were.
    pub fn insert_both(
        &mut self,
        handle: ConnectionHandle,
        side: Side,
        init_cid: ConnectionId,
        dst_cid: ConnectionId,
        addresses: FourTuple,
    ) -> Result<(), Memory>
        ensures added { OnOk result ((between : Routes) × IsFirstAdded side init_cid (Connection handle) self.old between × IsAdded (conn_key addresses dst_cid side) (Connection handle) between self.new) }
        ensures unchanged { OnErr result (AreSameRoutes self.old self.new) }
    {
        self.keys_are_distinct();
        let earlier = self.first_of(&init_cid);
        self.insert_first(handle, side, init_cid)?;
        if let Err(fault) = self.insert_conn(addresses, dst_cid, handle, side) {
            self.put_back(handle, side, init_cid, earlier);
            return Err(fault);
        }
        Ok(())
    }

    /// How many ids that this end issued have a route.
    pub fn issued_len(&self) -> usize
        ensures { result ≡ issued_count self.now }
    {
        self.ids.len()
    }

    /// Whether the id has a route as one that this end issued.
    pub fn is_issued(&self, id: &ConnectionId) -> bool
        ensures { IsTrue result ↔ ((t : Target) × In (issued id.now, t) self.now) }
    {
        self.ids.contains_key(id)
    }

    /// Whether a client's first packets that go to this id lead to something.
    pub fn is_initial(&self, id: &ConnectionId) -> bool
        ensures { IsTrue result ↔ ((t : Target) × In (initial id.now, t) self.now) }
    {
        self.initials.contains_key(id)
    }

    /// Takes away all routes to a connection that are by what the endpoint keeps of it. A key that leads to another connection or to
    /// an attempt by now keeps its route.
    pub fn remove(&mut self, handle: ConnectionHandle, meta: &ConnectionMeta)
        ensures { AreRemovedOf (keys_of_meta meta.now) (Connection handle) self.old self.new }
    {
        self.remove_first(meta.side(), meta.first_id(), handle);
        self.remove_ids(meta, handle);
        self.remove_addresses(&meta.addresses(), handle);
        self.remove_token(meta.reset_token(), handle);
    }

    /// What a datagram is for that came over these addresses: the first route of the id that it goes to among those that this end
    /// issued, of this id among those that clients chose, if its first packet is one of a connection's first, of the pair of
    /// addresses and of the peer's address, if the id is empty, and of the peer's address with the last 16 bytes as a reset token.
    pub fn get(&self, addresses: &FourTuple, packet: &Routed<'_>) -> Option<RouteDatagramTo>
        ensures { IsRouted self.now (keys_of addresses.now packet.now.dst_cid packet.now.is_first packet.now.data.now) result }
    {
        match self.connection_of(addresses, &packet.dst_cid, packet.is_first) {
            Some(found) => Some(found),
            None => self.reset_of(&addresses.remote, packet.data),
        }
    }

    // At a server, the id that the client's first packets went to leads to the connection.
    fn insert_first(
        &mut self,
        handle: ConnectionHandle,
        side: Side,
        init_cid: ConnectionId,
    ) -> Result<(), Memory>
        ensures added { OnOk result (IsFirstAdded side init_cid (Connection handle) self.old self.new) }
        ensures unchanged { OnErr result (self.new ≡ self.old) }
    {
        match side {
            Side::Server => self.put_initial(init_cid, RouteDatagramTo::Connection(handle)),
            Side::Client => Ok(()),
        }
    }

    // At a server, that id leads again to what it led to. It needs no memory, since a route has its key.
    fn put_back(
        &mut self,
        handle: ConnectionHandle,
        side: Side,
        init_cid: ConnectionId,
        earlier: Option<RouteDatagramTo>,
    )
        requires { (b : ℕ) (id : List ℕ) → side ≡ Server → init_cid ≡ b ∷ id → In (initial init_cid, Connection handle) self.old }
        ensures client { side ≡ Client → self.new ≡ self.old }
        ensures empty { init_cid ≡ [] → self.new ≡ self.old }
        ensures none { (b : ℕ) (id : List ℕ) → side ≡ Server → init_cid ≡ b ∷ id → earlier ≡ None → IsRemovedOf (initial init_cid) (Connection handle) self.old self.new }
        ensures some { (t : Target) (b : ℕ) (id : List ℕ) → side ≡ Server → init_cid ≡ b ∷ id → earlier ≡ Some t → IsAdded (initial init_cid) t self.old self.new }
    {
        if side == Side::Client || init_cid.is_empty() {
            return;
        }
        match earlier {
            Some(target) => {
                let _ = self.put_initial(init_cid, target);
            }
            None => self.remove_initial(init_cid, RouteDatagramTo::Connection(handle)),
        }
    }

    fn put_initial(&mut self, dst_cid: ConnectionId, target: RouteDatagramTo) -> Result<(), Memory>
        ensures added { OnOk result (dst_cid ≢ [] → IsAdded (initial dst_cid) target self.old self.new) }
        ensures empty { dst_cid ≡ [] → IsOk result × (self.new ≡ self.old) }
        ensures unchanged { OnErr result (self.new ≡ self.old) }
        ensures fresh { OnErr result ((t : Target) → In (initial dst_cid, t) self.old → ⊥) }
    {
        if dst_cid.is_empty() {
            return Ok(());
        }
        let _ = self.initials.insert(dst_cid, target)?;
        Ok(())
    }

    fn put_pair(&mut self, addresses: FourTuple, handle: ConnectionHandle) -> Result<(), Memory>
        ensures added { OnOk result (IsAdded (pair addresses) (Connection handle) self.old self.new) }
        ensures unchanged { OnErr result (self.new ≡ self.old) }
        ensures fresh { OnErr result ((t : Target) → In (pair addresses, t) self.old → ⊥) }
    {
        let _ = self.pairs.insert(PathKey::from(addresses), handle)?;
        Ok(())
    }

    fn put_remote(&mut self, address: SocketAddr, handle: ConnectionHandle) -> Result<(), Memory>
        ensures added { OnOk result (IsAdded (remote address) (Connection handle) self.old self.new) }
        ensures unchanged { OnErr result (self.new ≡ self.old) }
        ensures fresh { OnErr result ((t : Target) → In (remote address, t) self.old → ⊥) }
    {
        let _ = self.remotes.insert(address, handle)?;
        Ok(())
    }

    // At a server, takes away the route of the id that the client chose.
    fn remove_first(&mut self, side: Side, id: ConnectionId, handle: ConnectionHandle)
        ensures { AreRemovedOf (initial_keys side id) (Connection handle) self.old self.new }
    {
        match side {
            Side::Server => self.remove_initial(id, RouteDatagramTo::Connection(handle)),
            Side::Client => {}
        }
    }

    fn remove_ids(&mut self, meta: &ConnectionMeta, handle: ConnectionHandle)
        ensures { AreRemovedOf (issued_keys (values_of meta.now.loc_cids)) (Connection handle) self.old self.new }
    {
        for id in meta.ids() {
            self.retire(*id, handle);
        }
    }

    fn remove_addresses(&mut self, addresses: &FourTuple, handle: ConnectionHandle)
        ensures { AreRemovedOf (address_keys addresses.now) (Connection handle) self.old self.new }
    {
        self.remove_pair(addresses, handle);
        self.remove_remote(&addresses.remote, handle);
    }

    fn remove_pair(&mut self, addresses: &FourTuple, handle: ConnectionHandle)
        ensures { IsRemovedOf (pair addresses.now) (Connection handle) self.old self.new }
    {
        remove_of(&mut self.pairs, &PathKey::from(*addresses), handle);
    }

    fn remove_remote(&mut self, address: &SocketAddr, handle: ConnectionHandle)
        ensures { IsRemovedOf (remote address.now) (Connection handle) self.old self.new }
    {
        remove_of(&mut self.remotes, address, handle);
    }

    fn remove_token(&mut self, token: Option<(SocketAddr, ResetToken)>, handle: ConnectionHandle)
        ensures { AreRemovedOf (token_keys token) (Connection handle) self.old self.new }
    {
        if let Some((remote, token)) = token {
            self.remove_reset_token(remote, token, handle);
        }
    }

    // What its id leads to, or if that is empty its addresses.
    fn connection_of(
        &self,
        addresses: &FourTuple,
        dst_cid: &ConnectionId,
        is_first: bool,
    ) -> Option<RouteDatagramTo>
        ensures { IsRouted self.now (connection_keys addresses.now dst_cid.now is_first) result }
    {
        if dst_cid.is_empty() {
            return self.path_of(addresses);
        }
        self.id_of(dst_cid, is_first)
    }

    fn id_of(&self, id: &ConnectionId, is_first: bool) -> Option<RouteDatagramTo>
        ensures { IsRouted self.now (id_keys id.now is_first) result }
    {
        if !is_first {
            return self.issued_of(id);
        }
        match self.issued_of(id) {
            Some(found) => Some(found),
            None => self.first_of(id),
        }
    }

    fn issued_of(&self, id: &ConnectionId) -> Option<RouteDatagramTo>
        ensures { IsRouted self.now (issued id.now ∷ []) result }
    {
        connection(self.ids.get(id))
    }

    fn first_of(&self, id: &ConnectionId) -> Option<RouteDatagramTo>
        ensures { IsRouted self.now (initial id.now ∷ []) result }
    {
        self.initials.get(id).copied()
    }

    fn path_of(&self, addresses: &FourTuple) -> Option<RouteDatagramTo>
        ensures { IsRouted self.now (address_keys addresses.now) result }
    {
        match self.pair_of(addresses) {
            Some(found) => Some(found),
            None => self.remote_of(&addresses.remote),
        }
    }

    fn pair_of(&self, addresses: &FourTuple) -> Option<RouteDatagramTo>
        ensures { IsRouted self.now (pair addresses.now ∷ []) result }
    {
        connection(self.pairs.get(&PathKey::from(*addresses)))
    }

    fn remote_of(&self, address: &SocketAddr) -> Option<RouteDatagramTo>
        ensures { IsRouted self.now (remote address.now ∷ []) result }
    {
        connection(self.remotes.get(address))
    }

    // What its last bytes lead to as a reset token.
    fn reset_of(&self, address: &SocketAddr, bytes: &[u8]) -> Option<RouteDatagramTo>
        ensures { IsRouted self.now (reset_keys address.now bytes.now) result }
    {
        match last_token(bytes) {
            Some(token) => self.token_of(*address, token),
            None => None,
        }
    }

    fn token_of(&self, remote: SocketAddr, token: ResetToken) -> Option<RouteDatagramTo>
        ensures { IsRouted self.now (reset remote token.0 ∷ []) result }
    {
        connection(self.tokens.get(&ResetKey { remote, token }))
    }
}

// A connection as what a datagram is for.
fn connection(handle: Option<&ConnectionHandle>) -> Option<RouteDatagramTo>
    ensures { result ≡ option_map Connection (option_copied handle.entry) }
{
    match handle {
        Some(handle) => Some(RouteDatagramTo::Connection(*handle)),
        None => None,
    }
}

// Takes away what a key leads to, if that is this handle.
fn remove_of<K: Ord + Drop>(
    map: &mut BTreeMap<K, ConnectionHandle>,
    key: &K,
    handle: ConnectionHandle,
)
    ensures loses { Loses (eq_by_cmp K.cmp) key.now handle map.old.entries map.new.entries }
    ensures ordered { IsOrdered K.cmp map.old → IsOrdered K.cmp map.new }
{
    if leads(map, key, handle) {
        let _ = map.remove(key);
    }
}

// Whether the key leads to this handle.
fn leads<K: Ord>(map: &BTreeMap<K, ConnectionHandle>, key: &K, handle: ConnectionHandle) -> bool
    ensures { IsTrue result ↔ (lookup (eq_by_cmp K.cmp key.now) map.now.entries ≡ Some handle) }
{
    match map.get(key) {
        Some(found) => *found == handle,
        None => false,
    }
}

// The same of an id that a client chose, which may lead to an attempt too.
fn remove_first_of(
    map: &mut BTreeMap<ConnectionId, RouteDatagramTo>,
    id: &ConnectionId,
    target: RouteDatagramTo,
)
    ensures loses { Loses (eq_by_cmp id_cmp) id.now target map.old.entries map.new.entries }
    ensures ordered { IsOrdered id_cmp map.old → IsOrdered id_cmp map.new }
{
    if leads_first(map, id, target) {
        let _ = map.remove(id);
    }
}

fn leads_first(
    map: &BTreeMap<ConnectionId, RouteDatagramTo>,
    id: &ConnectionId,
    target: RouteDatagramTo,
) -> bool
    ensures { IsTrue result ↔ (lookup (eq_by_cmp id_cmp id.now) map.now.entries ≡ Some target) }
{
    match map.get(id) {
        Some(found) => *found == target,
        None => false,
    }
}

// The same of an id that this end issued.
fn remove_issued_of(
    map: &mut HashMap<ConnectionId, ConnectionHandle>,
    id: &ConnectionId,
    handle: ConnectionHandle,
)
    ensures loses { Loses id_eq id.now handle map.old.entries map.new.entries }
    ensures unique { IsUnique id_eq map.old → IsUnique id_eq map.new }
{
    if leads_issued(map, id, handle) {
        let _ = map.remove(id);
    }
}

fn leads_issued(
    map: &HashMap<ConnectionId, ConnectionHandle>,
    id: &ConnectionId,
    handle: ConnectionHandle,
) -> bool
    ensures { IsTrue result ↔ (lookup (id_eq id.now) map.now.entries ≡ Some handle) }
{
    match map.get(id) {
        Some(found) => *found == handle,
        None => false,
    }
}

// The last 16 bytes. None exactly if there are fewer.
fn last_token(bytes: &[u8]) -> Option<ResetToken>
    ensures found { IfSome result (λ t. (16 ≤ length bytes.now) × (t.0 ≡ drop (length bytes.now - 16) bytes.now)) }
    ensures none { IfNone result (length bytes.now < 16) }
{
    if bytes.len() < RESET_TOKEN_LEN {
        return None;
    }
    let mut token = [0; RESET_TOKEN_LEN];
    token.copy_from_slice(&bytes[bytes.len() - RESET_TOKEN_LEN..]);
    Some(ResetToken(token))
}
