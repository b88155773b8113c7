ghost use Rattle.std.specs.Prelude.{◌≡◌, ◌≢◌, ◌+◌, ◌-◌, ◌<◌, ◌^◌, ◌↔◌, ℕ, List, [], None, Some, IsOk, IsTrue, IfOk, IfErr, IfSome, OnErr, OnOk, length, option_copied, is_some, true};
ghost use Rattle.qh_connections.specs.Connections.{AreConnections, AreExhausted, IsConnectionAdded, IsConnectionRemoved, IsKept, IsTokenReplaced, IsTracked, HasInstead, connection_count, id_at, meta_at, with_id, without_id, without_last};
ghost use Rattle.qh_generator.specs.Given.{and_id};
ghost use Rattle.qh_connections.specs.Ids.{AreNoneFresh, AreNoneFreshBut, IsFreshBut, IsFreshId, IsIssued, IsTaken};
ghost use Rattle.qh_connections.specs.declared.connections.IssueFault.TheVariants as fault;
ghost use Rattle.qh_routes.specs.ConnectionMeta.{PlainMeta};
ghost use Rattle.qh_routes.specs.Routes.{HasNoEmptyId, IsAdded, IsRemovedOf, IsRouted, NoKeyTwice, initial, issued, issued_count, keys_of, reset};
ghost use Rattle.qh_routes.specs.declared.connection_index.RouteDatagramTo.{RouteDatagramTo as Target};
ghost use Rattle.qh_routes.specs.declared.connection_index.RouteDatagramTo.TheVariants.{Connection, Incoming};
ghost use Rattle.qh_spec.specs.Lists.{In};

use qh_base::{ConnectionId, FourTuple, Memory, ResetToken, Side};
use qh_generator::{ConnectionIdGenerator, fresh_id};
use qh_routes::{
    ConnectionHandle, ConnectionIndex, ConnectionMeta, RouteDatagramTo, Routed, ids_taken_back,
    keys_after, removal_is_complete,
};
use slab::Slab;
use std::alloc::Global;
use std::marker::Model;
use std::net::SocketAddr;

/// Why no id is issued.
#[derive(Clone, Copy, PartialEq, Eq)]
pub enum IssueFault {
    /// 64 ids in a row that the source gave are issued already.
    CidsExhausted,
    /// The allocator had no memory.
    Memory,
}

impl From<Memory> for IssueFault {
    ghost use Rattle.std.specs.Prelude.{◌≡◌};
    ghost use Rattle.qh_connections.specs.declared.connections.IssueFault.TheVariants.{Memory};

    ghost from_gives = { λ _ e. e ≡ Memory };

    fn from(_: Memory) -> IssueFault {
        IssueFault::Memory
    }
}

/// The connections that are live at an endpoint, and all of its routes, those to attempts too. A contract sees the routes, what is kept of each
/// connection by its handle, and the source of ids.
///
/// Each call takes the logarithm of how many routes there are, and `remove` that for each id of the connection.
#[derive(Drop)]
pub struct Connections<G> {
    index: ConnectionIndex,
    metas: Slab<ConnectionMeta>,
    ids: G,
    alloc: Global,
}

impl<G> Model for Connections<G> {
    ghost use Rattle.qh_connections.specs.Connections.{AreConnections, PlainConnections};

    ghost Value = { PlainConnections G };

    ghost view = { λ c. record { routes = c.index; metas = c.metas.slots; ids = c.ids } };

    ghost invariant = { λ c. AreConnections (record { routes = c.index; metas = c.metas.slots; ids = c.ids }) };
}

impl<G> Connections<G> {
    /// No connection, and no route. Ids are drawn from this source.
    pub fn new(alloc: Global, ids: G) -> Connections<G>
        ensures { result ≡ record { routes = []; metas = []; ids = ids } }
    {
        Connections {
            index: ConnectionIndex::new(alloc),
            metas: Slab::new(alloc),
            ids,
            alloc,
        }
    }

    /// What holds at any time (`AreConnections`), and that each key has one route, and an empty id none. It does nothing: its contract says so.
    pub fn are_connections(&self)
        ensures sound { AreConnections self.now }
        ensures distinct { NoKeyTwice self.now.routes }
        ensures named { HasNoEmptyId self.now.routes }
    {
        self.index.keys_are_distinct();
    }

    /// What a datagram is for that came over these addresses.
    pub fn route(&self, addresses: &FourTuple, packet: &Routed<'_>) -> Option<RouteDatagramTo>
        ensures { IsRouted self.now.routes (keys_of addresses.now packet.now.dst_cid packet.now.is_first packet.now.data.now) result }
    {
        self.index.get(addresses, packet)
    }

    /// Whether a connection of this handle is live.
    pub fn is_live(&self, handle: ConnectionHandle) -> bool
        ensures { result ≡ is_some (meta_at self.now handle) }
    {
        self.metas.get(handle.0).is_some()
    }

    /// What is kept of a connection. None if none of this handle is live.
    pub fn meta(&self, handle: ConnectionHandle) -> Option<&ConnectionMeta>
        ensures { option_copied result ≡ meta_at self.now handle }
    {
        self.metas.get(handle.0)
    }

    /// How many connections are live.
    pub fn len(&self) -> usize
        ensures { result ≡ connection_count self.now }
    {
        self.metas.len()
    }

    /// The source of ids.
    pub fn ids(&self) -> &G
        ensures { result.now ≡ self.now.ids }
    {
        &self.ids
    }

    /// A client's first packets, which go to the id that it chose, belong to this attempt. An empty id gets no route. Without memory nothing
    /// changes. No memory is needed for an empty id, nor for one that has a route.
    pub fn insert_initial_incoming(
        &mut self,
        dst_cid: ConnectionId,
        incoming: usize,
    ) -> Result<(), Memory>
        ensures added { OnOk result (dst_cid ≢ [] → IsAdded (initial dst_cid) (Incoming incoming) self.old.routes self.new.routes) }
        ensures empty { dst_cid ≡ [] → IsOk result × (self.new ≡ self.old) }
        ensures rest { self.new ≡ record self.old { routes = self.new.routes } }
        ensures err { OnErr result (self.new ≡ self.old) }
        ensures fresh { OnErr result ((t : Target) → In (initial dst_cid, t) self.old.routes → ⊥) }
    {
        self.index.insert_initial_incoming(dst_cid, incoming)
    }

    /// The id that a client chose leads no more to this attempt. If it leads to another one, or to a connection, nothing happens.
    pub fn remove_initial_incoming(&mut self, dst_cid: ConnectionId, incoming: usize)
        ensures removed { IsRemovedOf (initial dst_cid) (Incoming incoming) self.old.routes self.new.routes }
        ensures rest { self.new ≡ record self.old { routes = self.new.routes } }
    {
        self.index
            .remove_initial(dst_cid, RouteDatagramTo::Incoming(incoming));
    }

    /// A connection begins with this id of its own, by which it is found from now on, or, if it is empty, by its addresses; and a client's first
    /// packets, which went to `init_cid`, lead to a server's. Gives its handle. Without memory nothing changes.
    pub fn add(
        &mut self,
        side: Side,
        init_cid: ConnectionId,
        local_id: ConnectionId,
        addresses: FourTuple,
    ) -> Result<ConnectionHandle, Memory>
        requires { IsIssued self.old.routes local_id → ⊥ }
        ensures added { IfOk result (λ handle. IsConnectionAdded self.old self.new handle side init_cid local_id addresses) }
        ensures ids { self.new.ids ≡ self.old.ids }
        ensures err { OnErr result (IsKept self.old self.new) }
    {
        let mut meta = ConnectionMeta::new(self.alloc, side, init_cid, addresses);
        meta.put_id(0, local_id)?;
        self.metas.reserve(1)?;
        let handle = ConnectionHandle(self.metas.vacant_key());
        self.index
            .insert_both(handle, side, init_cid, local_id, addresses)?;
        let _ = self.metas.insert_reserved(meta);
        Ok(handle)
    }

    /// The connection is forgotten, with all routes to it. Nothing happens if none of this handle is live.
    pub fn remove(&mut self, handle: ConnectionHandle)
        ensures removed { (m : PlainMeta) → meta_at self.old handle ≡ Some m → IsConnectionRemoved self.old self.new handle m }
        ensures absent { meta_at self.old handle ≡ None → self.new ≡ self.old }
        ensures ids { self.new.ids ≡ self.old.ids }
    {
        removal_is_complete();
        if let Some(meta) = self.metas.try_remove(handle.0) {
            self.index.remove(handle, &meta);
        }
    }

    /// Stateless resets that come from this address and end with this token belong to the connection from now on. They take the place of its earlier
    /// ones. Without memory nothing changes. None is needed if such resets have a route.
    pub fn set_reset_token(
        &mut self,
        handle: ConnectionHandle,
        remote: SocketAddr,
        token: ResetToken,
    ) -> Result<(), Memory>
        requires { is_some (meta_at self.old handle) ≡ true }
        ensures routes { OnOk result ((m : PlainMeta) → meta_at self.old handle ≡ Some m → IsTokenReplaced remote token handle self.old.routes self.new.routes m.reset_token) }
        ensures meta { OnOk result ((m : PlainMeta) → meta_at self.old handle ≡ Some m → HasInstead self.old self.new handle (Some (record m { reset_token = Some (remote, token) }))) }
        ensures ids { self.new.ids ≡ self.old.ids }
        ensures err { OnErr result (self.new ≡ self.old) }
        ensures fresh { OnErr result ((t : Target) → In (reset remote token.0, t) self.old.routes → ⊥) }
    {
        keys_after();
        self.index.insert_reset_token(remote, token, handle)?;
        let meta = self.metas.get_mut(handle.0).unwrap();
        if let Some((from, before)) = meta.set_reset_token(remote, token) {
            if !is_same_reset(from, before, remote, token) {
                self.index.remove_reset_token(from, before, handle);
            }
        }
        Ok(())
    }
}

impl<G: ConnectionIdGenerator> Connections<G> {
    /// Whether the ids of this length are exhausted: they have 1 to 4 bytes, and fewer than a quarter of all that there are isn't issued.
    pub fn ids_exhausted(&self) -> bool
        ensures { IsTrue result ↔ AreExhausted (G.cid_len self.now.ids) (issued_count self.now.routes) }
    {
        let len = self.ids.cid_len();
        if len == 0 || len > 4 {
            return false;
        }
        let all = 1u64 << (8 * len);
        let issued = self.index.issued_len() as u64;
        all.saturating_sub(issued) < 1u64 << (8 * len - 2)
    }

    /// Draws the first id that isn't issued. None if 64 in a row are; then no further one is drawn.
    pub fn draw(&mut self) -> Option<ConnectionId>
        ensures fresh { IfSome result (λ id. IsFreshId self.old.routes (G.given self.old.ids) (G.given self.new.ids) id) }
        ensures none { result ≡ None → AreNoneFresh self.old.routes (G.given self.old.ids) (G.given self.new.ids) }
        ensures size { IfSome result (λ id. length id ≡ G.cid_len self.old.ids) }
        ensures own { IfSome result (λ id. G.validates self.new.ids id) }
        ensures same_len { G.cid_len self.new.ids ≡ G.cid_len self.old.ids }
        ensures kept { (id : List ℕ) → G.validates self.old.ids id → G.validates self.new.ids id }
        ensures rest { self.new ≡ record self.old { ids = self.new.ids } }
    {
        let index = &self.index;
        fresh_id(&mut self.ids, |id| index.is_issued(id))
    }

    /// Draws the first id that isn't issued, isn't one to which a client's first packets go that have a route, and isn't this one. None if 64 in
    /// a row are one of these; then no further one is drawn.
    pub fn draw_but(&mut self, other: &ConnectionId) -> Option<ConnectionId>
        ensures fresh { IfSome result (λ id. IsFreshBut self.old.routes other.now (G.given self.old.ids) (G.given self.new.ids) id) }
        ensures none { result ≡ None → AreNoneFreshBut self.old.routes other.now (G.given self.old.ids) (G.given self.new.ids) }
        ensures size { IfSome result (λ id. length id ≡ G.cid_len self.old.ids) }
        ensures own { IfSome result (λ id. G.validates self.new.ids id) }
        ensures same_len { G.cid_len self.new.ids ≡ G.cid_len self.old.ids }
        ensures kept { (id : List ℕ) → G.validates self.old.ids id → G.validates self.new.ids id }
        ensures rest { self.new ≡ record self.old { ids = self.new.ids } }
    {
        let index = &self.index;
        fresh_id(&mut self.ids, |id| is_taken(index, other, id))
    }

    /// Draws an id from the source, whatever it is.
    pub fn draw_any(&mut self) -> ConnectionId
        ensures given { G.given self.new.ids ≡ and_id (G.given self.old.ids) result }
        ensures size { length result ≡ G.cid_len self.old.ids }
        ensures own { G.validates self.new.ids result }
        ensures same_len { G.cid_len self.new.ids ≡ G.cid_len self.old.ids }
        ensures kept { (id : List ℕ) → G.validates self.old.ids id → G.validates self.new.ids id }
        ensures rest { self.new ≡ record self.old { ids = self.new.ids } }
    {
        self.ids.generate_cid()
    }

    /// A further id of the connection's, with its next sequence. An empty one gets no route. After either fault no id is kept; without memory one
    /// that isn't issued was drawn.
    pub fn issue(&mut self, handle: ConnectionHandle) -> Result<ConnectionId, IssueFault>
        requires live { is_some (meta_at self.old handle) ≡ true }
        requires room { (m : PlainMeta) → meta_at self.old handle ≡ Some m → m.cids_issued < 2 ^ 64 - 1 }
        ensures fresh { IfOk result (λ id. IsFreshId self.old.routes (G.given self.old.ids) (G.given self.new.ids) id) }
        ensures size { IfOk result (λ id. length id ≡ G.cid_len self.old.ids) }
        ensures own { IfOk result (λ id. G.validates self.new.ids id) }
        ensures same_len { G.cid_len self.new.ids ≡ G.cid_len self.old.ids }
        ensures kept { (id : List ℕ) → G.validates self.old.ids id → G.validates self.new.ids id }
        ensures routes { IfOk result (λ id. IsTracked id handle self.old.routes self.new.routes) }
        ensures meta { IfOk result (λ id. (m : PlainMeta) → meta_at self.old handle ≡ Some m → HasInstead self.old self.new handle (Some (with_id m id))) }
        ensures exhausted { IfErr result (λ e. e ≡ fault.CidsExhausted → AreNoneFresh self.old.routes (G.given self.old.ids) (G.given self.new.ids)) }
        ensures wanting { IfErr result (λ e. e ≡ fault.Memory → (id : List ℕ) × IsFreshId self.old.routes (G.given self.old.ids) (G.given self.new.ids) id) }
        ensures err { OnErr result (IsKept self.old self.new) }
    {
        keys_after();
        let Some(id) = self.draw() else {
            return Err(IssueFault::CidsExhausted);
        };
        self.index.insert_id(id, handle)?;
        let meta = self.metas.get_mut(handle.0).unwrap();
        let sequence = meta.issued();
        if meta.put_id(sequence, id).is_err() {
            self.index.retire(id, handle);
            return Err(IssueFault::Memory);
        }
        Ok(id)
    }
}

impl<G> Connections<G> {
    /// The id that was issued last for the connection is taken back, if it wasn't retired, and its sequence is the next one again.
    pub fn take_back(&mut self, handle: ConnectionHandle)
        requires live { is_some (meta_at self.old handle) ≡ true }
        requires some { (m : PlainMeta) → meta_at self.old handle ≡ Some m → 0 < m.cids_issued }
        ensures meta { (m : PlainMeta) → meta_at self.old handle ≡ Some m → HasInstead self.old self.new handle (Some (without_last m)) }
        ensures routes { (m : PlainMeta) (id : List ℕ) → meta_at self.old handle ≡ Some m → id_at m (m.cids_issued - 1) ≡ Some id → IsRemovedOf (issued id) (Connection handle) self.old.routes self.new.routes }
        ensures absent { (m : PlainMeta) → meta_at self.old handle ≡ Some m → id_at m (m.cids_issued - 1) ≡ None → self.new.routes ≡ self.old.routes }
        ensures back { (m : PlainMeta) (id : List ℕ) → meta_at self.old handle ≡ Some (with_id m id) → id_at m m.cids_issued ≡ None
            → HasInstead self.old self.new handle (Some m) × IsRemovedOf (issued id) (Connection handle) self.old.routes self.new.routes }
        ensures ids { self.new.ids ≡ self.old.ids }
    {
        ids_taken_back();
        keys_after();
        let meta = self.metas.get_mut(handle.0).unwrap();
        // No two ids have one sequence.
        let _ = meta.ids();
        if let Some(id) = meta.take_back() {
            self.index.retire(id, handle);
        }
    }

    /// The id with this sequence leads no more to the connection. Whether it was issued and not retired before.
    pub fn retire(&mut self, handle: ConnectionHandle, sequence: u64) -> bool
        requires { is_some (meta_at self.old handle) ≡ true }
        ensures was { (m : PlainMeta) → meta_at self.old handle ≡ Some m → result ≡ is_some (id_at m sequence) }
        ensures routes { (m : PlainMeta) (id : List ℕ) → meta_at self.old handle ≡ Some m → id_at m sequence ≡ Some id → IsRemovedOf (issued id) (Connection handle) self.old.routes self.new.routes }
        ensures meta { (m : PlainMeta) → meta_at self.old handle ≡ Some m → HasInstead self.old self.new handle (Some (without_id m sequence)) }
        ensures absent { (m : PlainMeta) → meta_at self.old handle ≡ Some m → id_at m sequence ≡ None → IsKept self.old self.new }
        ensures ids { self.new.ids ≡ self.old.ids }
    {
        keys_after();
        let meta = self.metas.get_mut(handle.0).unwrap();
        // No two ids have one sequence.
        let _ = meta.ids();
        let Some(id) = meta.take_id(sequence) else {
            return false;
        };
        self.index.retire(id, handle);
        true
    }
}

// Whether the id is issued, or has a route as that of a client's first packets, or it is the other one.
fn is_taken(index: &ConnectionIndex, other: &ConnectionId, id: &ConnectionId) -> bool
    ensures { IsTrue result ↔ IsTaken index.now other.now id.now }
{
    index.is_issued(id) || index.is_initial(id) || id.bytes() == other.bytes()
}

// Whether stateless resets from this address with this token are those from the other address with the other token.
fn is_same_reset(
    from: SocketAddr,
    before: ResetToken,
    remote: SocketAddr,
    token: ResetToken,
) -> bool
    ensures { IsTrue result ↔ (reset from before.0 ≡ reset remote token.0) }
{
    from == remote && before == token
}
