//! Laws of what a service's record gains.

ghost use Rattle.std.specs.Prelude.{◌≡◌, ◌+◌, ◌*◌, ◌<◌, ◌≤◌, ℕ, List, [], ◌∷◌, length};
ghost use Rattle.qh_spec.specs.EventRows.{entry_on};
ghost use Rattle.qh_spec.specs.Growth.{Grew, streams_of};
ghost use Rattle.qh_spec.specs.Lists.{In};
ghost use Rattle.qh_spec.specs.Message.{PlainMessage};
ghost use Rattle.qh_spec.specs.MessageRows.{get_message};
ghost use Rattle.qh_spec.specs.Record.{PlainEntry};

/// A record that gained nothing grew, and two growths in a row are one where their streams differ.
pub fn growth()
    ensures nothing { (a : List PlainEntry) (requests : List PlainMessage) → Grew a a requests }
    ensures both { (a b c : List PlainEntry) (requests : List PlainMessage) (g : Grew a b requests) (h : Grew b c requests)
        → ((id : ℕ) → In id (streams_of g.fresh) → In id (streams_of h.fresh) → ⊥) → Grew a c requests }
{}

/// A record gains at most one entry for each request; where it gains as many as there are requests, each has one.
pub fn counts()
    ensures few { (a b : List PlainEntry) (requests : List PlainMessage) → Grew a b requests → length b ≤ length a + length requests }
    ensures all { (a b : List PlainEntry) (requests : List PlainMessage) (g : Grew a b requests) → length b ≡ length a + length requests
        → (i : ℕ) → i < length requests → In (4 * i) (streams_of g.fresh) }
{}

/// A request is served on its own stream, and once.
pub fn rows()
    ensures once { Grew [] (entry_on 0 ∷ []) (get_message ∷ []) }
    ensures elsewhere { Grew [] (entry_on 4 ∷ []) (get_message ∷ []) → ⊥ }
    ensures twice { (m : PlainMessage) (d e : PlainEntry) → Grew [] (d ∷ e ∷ []) (m ∷ []) → ⊥ }
{}
