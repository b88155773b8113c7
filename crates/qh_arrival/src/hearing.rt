ghost use Rattle.std.specs.Prelude.{◌≡◌, ◌++◌, ℕ, [], List, true};
ghost use Rattle.qh_arrival.specs.Heard.{HasHeard, LimitsAreHeard};
ghost use Rattle.qh_core.specs.Inner.{IsNewSpace, is_open};
ghost use Rattle.qh_core.specs.Made.{AcceptsTags, AreMade, MakesTagsOf};
ghost use Rattle.qh_core.specs.declared.inner.Inner.{Inner as AnInner};
ghost use Rattle.qh_owing.specs.Owing.{AreAccepted};
ghost use Rattle.qh_packet.specs.Session.{AcceptsTag};
ghost use Rattle.qh_spec.specs.Datagram.{Packet as APacket};
ghost use Rattle.qh_spec.specs.Link.{other};
ghost use Rattle.qh_spec.specs.Transcript.{Act, handed_in};
ghost use Rattle.qh_spec.specs.declared.sides.Side.{Side as ASide};

/// Each limit that an open end knows of its peer, on the bytes of all streams, on those of one, or on the count of its own streams, is
/// the first one of the peer's (of a count at most 2^60), or a packet that the end accepted has the MAX frame that gives just it (RFC 9000, sections 4.1, 4.6 and
/// 19.9 to 19.11). The packets are told by the datagrams that were handed in: there is but one list of them. An end that begins has this,
/// and each list of calls carries it on.
pub fn heard<S>()
    ensures fresh { (accepts : AcceptsTag) (c : AnInner S) → IsNewSpace c.config c.side c.space → HasHeard accepts c [] }
    ensures made { (accepts : AcceptsTags S) (sealed : MakesTagsOf S) (old new : AnInner S) (acts t : List Act) → AreMade accepts sealed old new acts
        → HasHeard (accepts old.session) old t → HasHeard (accepts old.session) new (t ++ acts) }
    ensures limits { (accepts : AcceptsTag) (c : AnInner S) (t : List Act) → is_open c.state ≡ true → HasHeard accepts c t
        → (accepted : List APacket) × AreAccepted accepts c.local_id (other c.side) (handed_in t) accepted × LimitsAreHeard c accepted }
    ensures packets { (accepts : AcceptsTag) (c : AnInner S) (t : List Act) (accepted : List APacket) → is_open c.state ≡ true → HasHeard accepts c t
        → AreAccepted accepts c.local_id (other c.side) (handed_in t) accepted → LimitsAreHeard c accepted }
    ensures once { (accepts : AcceptsTag) (id : List ℕ) (sender : ASide) (datagrams : List (List ℕ)) (xs ys : List APacket) → AreAccepted accepts id sender datagrams xs
        → AreAccepted accepts id sender datagrams ys → xs ≡ ys }
{}
