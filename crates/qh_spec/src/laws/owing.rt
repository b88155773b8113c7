//! Laws of what is owed of a stream: its bytes and its end, until they are acknowledged.

ghost use Rattle.std.specs.Prelude.{◌≡◌, ◌++◌, ℕ, true, false, List, [], ◌∷◌};
ghost use Rattle.qh_spec.specs.Carried.{IsOwed, IsEndOwed};
ghost use Rattle.qh_spec.specs.Datagram.{Packet};
ghost use Rattle.qh_spec.specs.MessageRows.{get_bytes};
ghost use Rattle.qh_spec.specs.Transcript.{Act, Wrote, was_reset};
ghost use Rattle.qh_spec.specs.WholeRows.{carrying, carrying_get, carrying_open_get, get_acts, ack_of};
ghost use Rattle.qh_spec.specs.declared.sides.Side.TheVariants.{Client};
ghost use Rattle.qh_spec.specs.declared.sides.Side.{Side};
ghost use Rattle.qh_spec.specs.declared.sides.Space.TheVariants.{Initial};

/// What is owed after more was accepted or sent was owed before, and what is owed stays so whatever else is done but a reset.
/// Nothing is owed of a stream that was reset.
pub fn owed()
    ensures accepted { (k : ℕ) (sent : List (List ℕ)) (accepted more : List Packet) (s : Side) (t : List Act) (stream offset byte : ℕ)
        → IsOwed k sent (accepted ++ more) s t stream offset byte → IsOwed k sent accepted s t stream offset byte }
    ensures sent { (k : ℕ) (sent more : List (List ℕ)) (accepted : List Packet) (s : Side) (t : List Act) (stream offset byte : ℕ)
        → IsOwed k (sent ++ more) accepted s t stream offset byte → IsOwed k sent accepted s t stream offset byte }
    ensures later { (k : ℕ) (sent : List (List ℕ)) (accepted : List Packet) (s : Side) (t u : List Act) (stream offset byte : ℕ) → was_reset (t ++ u) stream ≡ false
        → IsOwed k sent accepted s t stream offset byte → IsOwed k sent accepted s (t ++ u) stream offset byte }
    ensures reset { (k : ℕ) (sent : List (List ℕ)) (accepted : List Packet) (s : Side) (t : List Act) (stream offset byte : ℕ) → was_reset t stream ≡ true
        → IsOwed k sent accepted s t stream offset byte → ⊥ }
    ensures end_accepted { (k : ℕ) (sent : List (List ℕ)) (accepted more : List Packet) (s : Side) (t : List Act) (stream : ℕ)
        → IsEndOwed k sent (accepted ++ more) s t stream → IsEndOwed k sent accepted s t stream }
    ensures end_sent { (k : ℕ) (sent more : List (List ℕ)) (accepted : List Packet) (s : Side) (t : List Act) (stream : ℕ)
        → IsEndOwed k (sent ++ more) accepted s t stream → IsEndOwed k sent accepted s t stream }
    ensures end_reset { (k : ℕ) (sent : List (List ℕ)) (accepted : List Packet) (s : Side) (t : List Act) (stream : ℕ) → was_reset t stream ≡ true
        → IsEndOwed k sent accepted s t stream → ⊥ }
{}

/// A byte that was written is owed while no datagram was sent, and after one that carries it until an accepted ACK covers the
/// packet's own number in its own space. A packet with other bytes alone doesn't count. So with the end.
pub fn rows()
    ensures unsent { IsOwed 8 [] [] Client (Wrote 0 get_bytes ∷ []) 0 0 1 }
    ensures unheard { IsOwed 8 (carrying_get ∷ []) [] Client get_acts 0 0 1 }
    ensures another_number { (n : ℕ) → (n ≡ 1000 → ⊥) → IsOwed 8 (carrying_get ∷ []) (ack_of n ∷ []) Client get_acts 0 0 1 }
    ensures another_space { IsOwed 8 (carrying_get ∷ []) (record (ack_of 1000) { space = Initial } ∷ []) Client get_acts 0 0 1 }
    ensures behind { IsOwed 8 (carrying Client false (1 ∷ 13 ∷ []) ∷ []) (ack_of 1000 ∷ []) Client get_acts 0 2 0 }
    ensures elsewhere { IsOwed 8 (carrying_get ∷ []) (ack_of 1000 ∷ []) Client (Wrote 4 get_bytes ∷ []) 4 0 1 }
    ensures acknowledged { (offset byte : ℕ) → IsOwed 8 (carrying_get ∷ []) (ack_of 1000 ∷ []) Client get_acts 0 offset byte → ⊥ }
    ensures unwritten { (byte : ℕ) → IsOwed 8 [] [] Client (Wrote 0 get_bytes ∷ []) 0 15 byte → ⊥ }
    ensures end { IsEndOwed 8 (carrying_get ∷ []) [] Client get_acts 0 }
    ensures endless { IsEndOwed 8 (carrying_open_get ∷ []) (ack_of 1000 ∷ []) Client get_acts 0 }
    ensures end_acknowledged { IsEndOwed 8 (carrying_get ∷ []) (ack_of 1000 ∷ []) Client get_acts 0 → ⊥ }
    ensures unfinished { IsEndOwed 8 [] [] Client (Wrote 0 get_bytes ∷ []) 0 → ⊥ }
{}
