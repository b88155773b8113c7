ghost use Rattle.std.specs.Prelude.{◌≡◌, ℕ, List, length, IfSome};
ghost use Rattle.std.specs.Fn.{FnReturnsAt};
ghost use Rattle.qh_generator.specs.Fresh.{AreIssued, IsFresh};

use crate::ConnectionIdGenerator;
use qh_base::ConnectionId;

/// After so many ids that are issued a call looks for no further one.
pub const MAX_TRIES: usize = 64;

/// The first id from the generator that isn't issued. None exactly if 64 in a row are issued; then no further one is asked for.
pub fn fresh_id<G: ConnectionIdGenerator, F: Fn(&ConnectionId) -> bool>(
    ids: &mut G,
    is_issued: F,
) -> Option<ConnectionId>
    requires { F.IsAlwaysCallable is_issued }
    ensures fresh { IfSome result (λ id. IsFresh (FnReturnsAt F.Fn is_issued) (G.given ids.old) (G.given ids.new) id) }
    ensures none { result ≡ None → AreIssued (FnReturnsAt F.Fn is_issued) (G.given ids.old) (G.given ids.new) }
    ensures size { IfSome result (λ id. length id ≡ G.cid_len ids.old) }
    ensures own { IfSome result (λ id. G.validates ids.new id) }
    ensures same_len { G.cid_len ids.new ≡ G.cid_len ids.old }
    ensures kept { (id : List ℕ) → G.validates ids.old id → G.validates ids.new id }
{
    for _ in 0..MAX_TRIES {
        let id = ids.generate_cid();
        if !is_issued(&id) {
            return Some(id);
        }
    }
    None
}
