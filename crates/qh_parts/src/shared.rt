ghost use Rattle.std.specs.Prelude.{◌≡◌};
ghost use Rattle.qh_spec.specs.TokenLog.{TokenLog as PlainLog};
ghost use Rattle.qh_parts.specs.TokenLog.{IsLook, IsLooked, no_limits};

use crate::bloom_token_log::BloomTokenLog;
use crate::token_log::{TokenFault, TokenLog};
use qh_base::{Moment, Span};
use std::alloc::Global;
use std::sync::{Mutex, Wait};

/// A log of used tokens behind a lock, in which threads enter tokens by reference. What it holds isn't known until the
/// lock is taken, so it tells nothing.
#[derive(Drop)]
pub struct SharedTokenLog<W: Wait, L = BloomTokenLog> {
    rt: W,
    token_log: Mutex<L>,
}

impl<W: Wait, L: TokenLog> SharedTokenLog<W, L> {
    /// A log behind a lock, for which calls wait by `rt`.
    pub fn new(rt: W, token_log: L) -> SharedTokenLog<W, L> {
        SharedTokenLog {
            rt,
            token_log: Mutex::new(token_log),
        }
    }
}

impl<W: Wait, L: TokenLog> TokenLog for &SharedTokenLog<W, L> {
    ghost limits = { λ _. no_limits };

    ghost stands = { λ _ _. ⊥ };

    /// Makes this call on the log behind the lock, and answers as that did. The contract speaks of some log of the type.
    fn check_and_insert(
        &mut self,
        alloc: Global,
        nonce: u128,
        issued: Moment,
        lifetime: Span,
    ) -> Result<(), TokenFault>
        ensures limits { no_limits ≡ no_limits }
        ensures answers { (l : PlainLog) → ⊥
            → IsLooked no_limits l (record { nonce = nonce; issued = issued.0; lifetime = lifetime.0 }) result (λ _. ⊥) }
        ensures call { (before after : L) × IsLook L.limits L.stands before (record { nonce = nonce; issued = issued.0; lifetime = lifetime.0 }) result after }
    {
        self.token_log
            .lock(&self.rt)
            .check_and_insert(alloc, nonce, issued, lifetime)
    }
}
