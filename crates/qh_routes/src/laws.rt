ghost use Rattle.std.specs.Prelude.{◌≡◌, ◌⊎◌, ◌↔◌, ℕ, List, Option, None, Some};
ghost use Rattle.std.specs.Map.{lookup, remove_entry};
ghost use Rattle.std.specs.Ordering.{nat_cmp};
ghost use Rattle.std.specs.BTreeMap.{insert_entry, is_at};
ghost use Rattle.std.specs.declared.net.socket_addr.SocketAddr.{SocketAddr as Address};
ghost use Rattle.qh_base.specs.declared.shared.ResetToken.{ResetToken as Token};
ghost use Rattle.qh_spec.specs.Lists.{In};
ghost use Rattle.qh_routes.specs.declared.connection_index.RouteDatagramTo.{RouteDatagramTo as Target};
ghost use Rattle.qh_routes.specs.ConnectionMeta.{PlainMeta, keys_of_meta, token_keys};
ghost use Rattle.qh_routes.specs.Routes.{RouteKey, Routes, issued, NoKeyTwice, AreRemovedOf, IsRouted};

/// A datagram has one answer, which is a route of one of the keys that it is looked up by. It has none only if no key has a route.
pub fn answers_are_one()
    ensures one { (routes : Routes) (keys : List RouteKey) (r s : Option Target) → NoKeyTwice routes → IsRouted routes keys r → IsRouted routes keys s → r ≡ s }
    ensures some { (routes : Routes) (keys : List RouteKey) (t : Target) → IsRouted routes keys (Some t) → (k : RouteKey) × In k keys × In (k, t) routes }
    ensures none { (routes : Routes) (keys : List RouteKey) → IsRouted routes keys None → (k : RouteKey) (t : Target) → In k keys → In (k, t) routes → ⊥ }
{}

/// If all routes to a target are by some keys, none is left once these lead no more to it.
pub fn removal_is_complete()
    ensures { (keys : List RouteKey) (target : Target) (old new : Routes) → AreRemovedOf keys target old new → ((k : RouteKey) → In (k, target) old → In k keys) → (k : RouteKey) → In (k, target) new → ⊥ }
{}

/// An id that was issued under a sequence that had none, and is taken back, leaves what was.
pub fn ids_taken_back()
    ensures { (entries : List (ℕ × List ℕ)) (sequence : ℕ) (id : List ℕ) → lookup (is_at (nat_cmp sequence)) entries ≡ None
        → remove_entry (is_at (nat_cmp sequence)) (insert_entry nat_cmp entries sequence id) ≡ entries }
{}

/// By what a connection may be found after `put_id` with a sequence that has no id, `take_id` and `set_reset_token`.
pub fn keys_after()
    ensures put { (m : PlainMeta) (n sequence : ℕ) (id : List ℕ) → lookup (is_at (nat_cmp sequence)) m.loc_cids ≡ None
        → (k : RouteKey) → In k (keys_of_meta (record m { cids_issued = n; loc_cids = insert_entry nat_cmp m.loc_cids sequence id })) ↔ ((k ≡ issued id) ⊎ In k (keys_of_meta m)) }
    ensures taken { (m : PlainMeta) (sequence : ℕ) (id : List ℕ) → lookup (is_at (nat_cmp sequence)) m.loc_cids ≡ Some id
        → (k : RouteKey) → In k (keys_of_meta m) ↔ ((k ≡ issued id) ⊎ In k (keys_of_meta (record m { loc_cids = remove_entry (is_at (nat_cmp sequence)) m.loc_cids }))) }
    ensures reset { (m : PlainMeta) (token : Option (Address × Token))
        → (k : RouteKey) → In k (keys_of_meta (record m { reset_token = token })) ↔ (In k (token_keys token) ⊎ In k (keys_of_meta (record m { reset_token = None }))) }
{}
