ghost use Rattle.std.specs.Prelude.{◌≡◌, ◌≢◌, ◌↔◌, ℕ, Option, Some};
ghost use Rattle.qh_attempts.specs.Attempts.{HasInstead, IsLater, IsName, IsPending, PlainAttempt, PlainBuffers, Waits, attempt_at};
ghost use Rattle.qh_attempts.specs.declared.incoming_buffers.AttemptKey.{AttemptKey as Name};

/// A name that an attempt was given stays its name, and the attempt is pending exactly if one of its number waits.
pub fn names_stay<C>()
    ensures stay { (old new : PlainBuffers C) (k : Name) → IsLater old new → IsName old k → IsName new k }
    ensures pending { (b : PlainBuffers C) (k : Name) → IsName b k → IsPending b k ↔ Waits b k.number }
    ensures later { (old between new : PlainBuffers C) → IsLater old between → IsLater between new → IsLater old new }
{}

/// A change by one key leaves the attempts by other keys pending, and also the one by this key if it has its number afterwards.
pub fn others_stay_pending<C>()
    ensures others { (old new : PlainBuffers C) (key : ℕ) (slot : Option (PlainAttempt C)) (k : Name) → HasInstead old new key slot → k.key ≢ key → IsPending new k ↔ IsPending old k }
    ensures same { (old new : PlainBuffers C) (key : ℕ) (was now : PlainAttempt C) (k : Name) → attempt_at old key ≡ Some was → HasInstead old new key (Some now) → now.number ≡ was.number → IsPending new k ↔ IsPending old k }
{}
