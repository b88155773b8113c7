ghost use Rattle.std.specs.Prelude.{ℕ, List};
ghost use Rattle.qh_base.specs.declared.path.Transmit.{Transmit as ATransmit};
ghost use Rattle.qh_base.specs.declared.time.Moment.{Moment as AMoment};
ghost use Rattle.qh_conduct.specs.Calls.{ToldTheSame};
ghost use Rattle.qh_core.specs.Sending.{IsDatagramMade, NothingIsSent};
ghost use Rattle.qh_core.specs.declared.inner.Inner.{Inner as AnInner};
ghost use Rattle.qh_spec.specs.declared.sides.Side.{Side as ASide};
ghost use Rattle.qh_spec.specs.declared.sides.Space.{Space as ASpace};

/// How many streams the peer permits (RFC 9000, section 4.6), and how many of its own arrived, is told by what comes: what an end
/// sends changes nothing of it.
pub fn permits<S>()
    ensures made { (sealed : ASide → ASpace → ℕ → List ℕ) (now : AMoment) (old new : AnInner S) (before after : List ℕ) (transmit : ATransmit) → IsDatagramMade sealed now old new before after transmit
        → ToldTheSame old.space.streams new.space.streams }
    ensures none { (old new : AnInner S) → NothingIsSent old new → ToldTheSame old.space.streams new.space.streams }
{}
