ghost use Rattle.std.specs.Prelude.{◌≡◌, ◌++◌, [], ℕ, List, true};
ghost use Rattle.qh_arrival.specs.Accord.{Accords, AreTags, IsInAccord};
ghost use Rattle.qh_core.specs.Follows.{Follows};
ghost use Rattle.qh_core.specs.Inner.{IsNewSpace, is_open};
ghost use Rattle.qh_core.specs.Made.{AcceptsTags, AreMade, MakesTagsOf};
ghost use Rattle.qh_core.specs.declared.inner.Inner.{Inner as AnInner};
ghost use Rattle.qh_packet.specs.Session.{AcceptsTag};
ghost use Rattle.qh_spec.specs.Transcript.{Act};
ghost use Rattle.qh_spec.specs.declared.sides.Side.{Side as ASide};
ghost use Rattle.qh_spec.specs.declared.sides.Space.{Space as ASpace};

/// The one relation of an end to all that was done with it: what it is to its peer, what it owes, its packets as the datagrams tell
/// them, what it was asked to reset and to stop, the limits that it said, those that it was given, and the tags of what it handed out.
/// An end that begins has it; whatever calls are made of it carry it on, where the tags of its session are tags; and of an open end it
/// says that nothing which is owed or which came is forgotten, and that the limits which it knows are the first ones or came.
pub fn accords<S>()
    ensures fresh { (accepts : AcceptsTag) (sealed : ASide → ASpace → ℕ → List ℕ) (c : AnInner S) → IsNewSpace c.config c.side c.space → Follows c [] → Accords accepts sealed c [] }
    ensures made { (accepts : AcceptsTags S) (sealed : MakesTagsOf S) (old new : AnInner S) (acts t : List Act) → AreTags (accepts old.session) (sealed old.session)
        → AreMade accepts sealed old new acts → Accords (accepts old.session) (sealed old.session) old t → Accords (accepts old.session) (sealed old.session) new (t ++ acts) }
    ensures open { (accepts : AcceptsTag) (sealed : ASide → ASpace → ℕ → List ℕ) (c : AnInner S) (t : List Act) → is_open c.state ≡ true → Accords accepts sealed c t → IsInAccord accepts sealed c t }
{}
