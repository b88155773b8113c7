ghost use Rattle.std.specs.Prelude.{◌++◌, [], List};
ghost use Rattle.qh_arrival.specs.Asked.{HasAsked, WereAsked};
ghost use Rattle.qh_conduct.specs.Announced.{MakesTags};
ghost use Rattle.qh_core.specs.Inner.{IsNewSpace};
ghost use Rattle.qh_core.specs.Made.{AcceptsTags, AreMade, MakesTagsOf};
ghost use Rattle.qh_core.specs.declared.inner.Inner.{Inner as AnInner};
ghost use Rattle.qh_spec.specs.Transcript.{Act};

/// A RESET_STREAM that an end handed out is one that its application asked for before, by a `reset` of that stream with that code, and
/// a STOP_SENDING by a `stop` (RFC 9000, sections 3.1, 3.5, 19.4 and 19.5). An end that begins has this, and each list of calls carries it on.
pub fn asked<S>()
    ensures fresh { (c : AnInner S) → IsNewSpace c.config c.side c.space → HasAsked c [] }
    ensures made { (accepts : AcceptsTags S) (sealed : MakesTagsOf S) (old new : AnInner S) (acts t : List Act) → MakesTags (sealed old.session)
        → AreMade accepts sealed old new acts → HasAsked old t → HasAsked new (t ++ acts) }
    ensures were { (c : AnInner S) (t : List Act) → HasAsked c t → WereAsked c t }
{}
