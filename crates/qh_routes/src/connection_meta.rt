ghost use Rattle.std.specs.Prelude.{◌≡◌, ◌+◌, ◌-◌, ◌<◌, ◌^◌, is_some, min, None, Some, OnOk, OnErr, []};
ghost use Rattle.std.specs.Ordering.{nat_cmp};
ghost use Rattle.std.specs.List.Sorted.{IsStrictlySortedBy};
ghost use Rattle.std.specs.Map.{keys_of, lookup, remove_entry, values_of};
ghost use Rattle.std.specs.BTreeMap.{insert_entry, is_at};

use qh_base::{ConnectionId, FourTuple, Memory, ResetToken, Side};
use std::alloc::Global;
use std::collections::BTreeMap;
use std::collections::btree_map::Values;
use std::marker::Model;
use std::net::SocketAddr;

/// What an endpoint keeps of a connection, so that it can take its routes away when it is drained.
#[derive(Drop)]
pub struct ConnectionMeta {
    init_cid: ConnectionId,
    cids_issued: u64,
    loc_cids: BTreeMap<u64, ConnectionId>,
    addresses: FourTuple,
    side: Side,
    reset_token: Option<(SocketAddr, ResetToken)>,
}

impl Model for ConnectionMeta {
    ghost use Rattle.qh_routes.specs.ConnectionMeta.{PlainMeta};

    ghost Value = { PlainMeta };

    ghost view = { λ m. record { init_cid = m.init_cid; cids_issued = m.cids_issued; loc_cids = m.loc_cids.entries; addresses = m.addresses; side = m.side; reset_token = m.reset_token } };
}

impl ConnectionMeta {
    /// A connection for which no id was issued yet. The id is that which the client's first packet went to.
    pub fn new(
        alloc: Global,
        side: Side,
        init_cid: ConnectionId,
        addresses: FourTuple,
    ) -> ConnectionMeta
        ensures { result ≡ record { init_cid = init_cid; cids_issued = 0; loc_cids = []; addresses = addresses; side = side; reset_token = None } }
    {
        ConnectionMeta {
            init_cid,
            cids_issued: 0,
            loc_cids: BTreeMap::new(alloc),
            addresses,
            side,
            reset_token: None,
        }
    }

    /// Which end this endpoint is.
    pub fn side(&self) -> Side
        ensures { result ≡ self.now.side }
    {
        self.side
    }

    /// The addresses that it began with.
    pub fn addresses(&self) -> FourTuple
        ensures { result ≡ self.now.addresses }
    {
        self.addresses
    }

    /// The id that the client's first packet went to.
    pub fn first_id(&self) -> ConnectionId
        ensures { result ≡ self.now.init_cid }
    {
        self.init_cid
    }

    /// How many ids were issued for it.
    pub fn issued(&self) -> u64
        ensures { result ≡ self.now.cids_issued }
    {
        self.cids_issued
    }

    /// The peer's reset token for the id that is sent to, with the address that is sent to.
    pub fn reset_token(&self) -> Option<(SocketAddr, ResetToken)>
        ensures { result ≡ self.now.reset_token }
    {
        self.reset_token
    }

    /// The ids that were issued for it and that weren't taken, in the order of their sequences.
    pub fn ids(&self) -> Values<'_, u64, ConnectionId>
        ensures value { result ≡ values_of self.now.loc_cids }
        ensures sorted { IsStrictlySortedBy nat_cmp (keys_of self.now.loc_cids) }
    {
        self.loc_cids.values()
    }

    /// Whether an id was issued with this sequence and not taken.
    pub fn has_id(&self, sequence: u64) -> bool
        ensures { result ≡ is_some (lookup (is_at (nat_cmp sequence)) self.now.loc_cids) }
    {
        self.loc_cids.contains_key(&sequence)
    }

    /// The id was issued with this sequence. It takes the place of one that was. The count of issued ids saturates.
    pub fn put_id(&mut self, sequence: u64, id: ConnectionId) -> Result<(), Memory>
        ensures after { OnOk result (self.new ≡ record self.old { cids_issued = min (self.old.cids_issued + 1) (2 ^ 64 - 1); loc_cids = insert_entry nat_cmp self.old.loc_cids sequence id }) }
        ensures unchanged { OnErr result (self.new ≡ self.old) }
    {
        if self.loc_cids.insert(sequence, id).is_err() {
            return Err(Memory);
        }
        self.cids_issued = self.cids_issued.saturating_add(1);
        Ok(())
    }

    /// The id with this sequence was retired. Gives it, or None if there is none.
    pub fn take_id(&mut self, sequence: u64) -> Option<ConnectionId>
        ensures taken { result ≡ lookup (is_at (nat_cmp sequence)) self.old.loc_cids }
        ensures after { self.new ≡ record self.old { loc_cids = remove_entry (is_at (nat_cmp sequence)) self.old.loc_cids } }
    {
        self.loc_cids.remove(&sequence)
    }

    /// The id that was issued last is taken back: its sequence is the next one again. Gives it, or None if it was taken already.
    pub fn take_back(&mut self) -> Option<ConnectionId>
        requires { 0 < self.old.cids_issued }
        ensures taken { result ≡ lookup (is_at (nat_cmp (self.old.cids_issued - 1))) self.old.loc_cids }
        ensures after { self.new ≡ record self.old { cids_issued = self.old.cids_issued - 1; loc_cids = remove_entry (is_at (nat_cmp (self.old.cids_issued - 1))) self.old.loc_cids } }
    {
        self.cids_issued -= 1;
        self.loc_cids.remove(&self.cids_issued)
    }

    /// From now on the peer's stateless resets come from this address with this token. Gives the earlier pair.
    pub fn set_reset_token(
        &mut self,
        remote: SocketAddr,
        token: ResetToken,
    ) -> Option<(SocketAddr, ResetToken)>
        ensures earlier { result ≡ self.old.reset_token }
        ensures after { self.new ≡ record self.old { reset_token = Some (remote, token) } }
    {
        let earlier = self.reset_token;
        self.reset_token = Some((remote, token));
        earlier
    }
}
