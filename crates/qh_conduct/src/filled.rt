ghost use Rattle.std.specs.Prelude.{◌≡◌, ◌⊎◌, ◌++◌, ℕ, true, List, [], Some, Ok};
ghost use Rattle.qh_base.specs.declared.path.Transmit.{Transmit as ATransmit};
ghost use Rattle.qh_base.specs.declared.time.Moment.{Moment as AMoment};
ghost use Rattle.qh_conduct.specs.Announced.{MakesTags};
ghost use Rattle.qh_conduct.specs.Filled.{AreFilled};
ghost use Rattle.qh_core.specs.Follows.{transmit_acts};
ghost use Rattle.qh_core.specs.Inner.{IsSameEnd, is_open};
ghost use Rattle.qh_core.specs.Sending.{ClosesReadBack, IsDatagramMade};
ghost use Rattle.qh_core.specs.declared.inner.Inner.{Inner as AnInner};
ghost use Rattle.qh_spec.specs.Transcript.{Act, handed_out};
ghost use Rattle.qh_spec.specs.declared.sides.Side.{Side as ASide};
ghost use Rattle.qh_spec.specs.declared.sides.Space.{Space as ASpace};

/// Each STREAM frame that a connection handed out has a byte, or the end: so it is with each datagram that is made, and what hands
/// out nothing leaves it so.
pub fn fills<S>()
    ensures fresh { (c : AnInner S) → AreFilled c [] }
    ensures quiet { (old new : AnInner S) (t u : List Act) → IsSameEnd old new → handed_out u ≡ [] → AreFilled old t → AreFilled new (t ++ u) }
    ensures made { (sealed : ASide → ASpace → ℕ → List ℕ) → MakesTags sealed → (now : AMoment) (old new : AnInner S) (before after : List ℕ) (transmit : ATransmit) (t : List Act)
        → IsDatagramMade sealed now old new before after transmit → (is_open old.state ≡ true) ⊎ ClosesReadBack old.state
        → AreFilled old t → AreFilled new (t ++ transmit_acts before after (Ok (Some transmit))) }
{}
