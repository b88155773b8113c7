ghost use Rattle.std.specs.Prelude.{◌≡◌, ◌++◌, [], List, true};
ghost use Rattle.qh_arrival.specs.Said.{HasSaid, LimitsAreSaid};
ghost use Rattle.qh_conduct.specs.Announced.{MakesTags};
ghost use Rattle.qh_core.specs.Inner.{IsNewSpace, is_open};
ghost use Rattle.qh_core.specs.Made.{AcceptsTags, AreMade, MakesTagsOf};
ghost use Rattle.qh_core.specs.declared.inner.Inner.{Inner as AnInner};
ghost use Rattle.qh_spec.specs.Transcript.{Act};

/// Each limit that an open end takes for announced, of all streams, of one, or of their number, is the one that it began with, or a
/// datagram that it handed out has the MAX frame that says it (RFC 9000, sections 4.1, 4.6 and 19.9 to 19.11). An end that begins has
/// this, and each list of calls carries it on.
pub fn said<S>()
    ensures fresh { (c : AnInner S) → IsNewSpace c.config c.side c.space → HasSaid c [] }
    ensures made { (accepts : AcceptsTags S) (sealed : MakesTagsOf S) (old new : AnInner S) (acts t : List Act) → MakesTags (sealed old.session)
        → AreMade accepts sealed old new acts → HasSaid old t → HasSaid new (t ++ acts) }
    ensures limits { (c : AnInner S) (t : List Act) → is_open c.state ≡ true → HasSaid c t → LimitsAreSaid c t }
{}
