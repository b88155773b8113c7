ghost use Rattle.std.specs.Prelude.{◌≡◌};
ghost use Rattle.qh_spec.specs.TokenFilter.{TokenLimits};
ghost use Rattle.qh_spec.specs.TokenLog.{TokenLog as PlainLog};
ghost use Rattle.qh_parts.specs.TokenLog.{IsLooked};

use qh_base::{Moment, Span};
use std::alloc::{AllocError, Global};
use thiserror::Error;

/// Why a token isn't taken.
#[derive(Clone, Copy, Debug, PartialEq, Eq, Error)]
pub enum TokenFault {
    /// The token was used before, or may have been, or it doesn't live, or expired before what the log keeps.
    #[error("the token was used before")]
    Reused,
    /// The allocator had no memory. The token wasn't used before, and isn't entered.
    #[error("out of memory")]
    Memory,
}

impl From<AllocError> for TokenFault {
    ghost use Rattle.std.specs.Prelude.{◌≡◌};
    ghost use Rattle.qh_parts.specs.declared.token_log.TokenFault.TheVariants.{Memory};

    ghost from_gives = { λ _ e. e ≡ Memory };

    fn from(_: AllocError) -> TokenFault {
        TokenFault::Memory
    }
}

/// A log of the validation tokens that were used, so that none counts twice while it lives (RFC 9000, section 8.1.4).
pub trait TokenLog {
    /// What bounds its filters. No call changes it.
    ghost limits: { Self → TokenLimits };

    /// The logs of the definition that this one stands for. A log that tells nothing stands for none.
    ghost stands: { Self → PlainLog → Type 0 };

    /// Enters the token of a nonce, which was issued at that moment and lives that long, unless it was used before. On
    /// `Memory` the periods have moved to it, and nothing else has changed.
    fn check_and_insert(
        &mut self,
        alloc: Global,
        nonce: u128,
        issued: Moment,
        lifetime: Span,
    ) -> Result<(), TokenFault>
        ensures limits { limits self.new ≡ limits self.old }
        ensures answers { (l : PlainLog) → stands self.old l
            → IsLooked (limits self.old) l (record { nonce = nonce; issued = issued.0; lifetime = lifetime.0 }) result (stands self.new) };
}
