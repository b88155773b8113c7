ghost use Rattle.std.specs.Prelude.{◌≡◌, ◌++◌, ◌∷◌, ℕ, Bool, true, false, List, [], length, Option, Some, None, is_some};
ghost use Rattle.qh_base.specs.declared.connection_error.ConnectionError.{ConnectionError as AnError};
ghost use Rattle.qh_base.specs.declared.time.Moment.{Moment as AMoment};
ghost use Rattle.qh_conduct.specs.Reached.{AreNamed};
ghost use Rattle.qh_converse.specs.Converses.{Converses, Hears};
ghost use Rattle.qh_converse.specs.Settled.{IsSettledBy, milliseconds};
ghost use Rattle.qh_core.specs.Follows.{Follows as CoreFollows};
ghost use Rattle.qh_core.specs.Inner.{IsNewSpace, is_open};
ghost use Rattle.qh_core.specs.Made.{AcceptsTags, MakesTagsOf, IsMade};
ghost use Rattle.qh_core.specs.declared.inner.Inner.{Inner as AnInner};
ghost use Rattle.qh_handshake.specs.Follows.{IsFresh};
ghost use Rattle.qh_handshake.specs.Handshake.{dropping};
ghost use Rattle.qh_handshake.specs.Incoming.{IsDatagramTaken};
ghost use Rattle.qh_handshake.specs.Lost.{IsLost};
ghost use Rattle.qh_handshake.specs.declared.handshake.Handshake.{Handshake as AHandshake};
ghost use Rattle.qh_hello.specs.declared.transport_parameters.TransportParameters.{TransportParameters as Parameters};
ghost use Rattle.qh_packet.specs.Session.{AcceptsTag, NamesTags};
ghost use Rattle.qh_spec.specs.Greeted.{HasPacketOf};
ghost use Rattle.qh_spec.specs.Link.{other};
ghost use Rattle.qh_spec.specs.Parted.{EndsWith, IsShort};
ghost use Rattle.qh_spec.specs.Transcript.{Act, HandedIn, handed_in};
ghost use Rattle.qh_spec.specs.declared.sides.Side.TheVariants.{Client};
ghost use Rattle.qh_spec.specs.declared.sides.Space.TheVariants.{Data};

/// A datagram comes. The handshake takes its Initial packets (`hears`). The end may be greeted by them (`greets`), also if the connection ends
/// by them (`ends`) or memory is wanting (`lost`, `ends_lost`). Of what is behind them the end of the 1-RTT packets hears nothing
/// (`unheard`), or takes it (`heard`), and a server is connected by that (`connects`).
pub fn hears<S>()
    ensures fresh { (accepts : AcceptsTags S) (sealed : MakesTagsOf S) (hello : List ℕ) (h : AHandshake) (c : AnInner S) → IsFresh hello h → c.side ≡ h.side → c.local_id ≡ h.local_id → IsNewSpace c.config c.side c.space → CoreFollows c []
        → milliseconds c.config.idle ≡ h.parameters.max_idle_timeout → (is_open c.state ≡ true → c.idle.timeout ≡ c.config.idle) → Converses accepts sealed hello h c false [] }
    ensures hears { (accepts : AcceptsTags S) (sealed : MakesTagsOf S) (takes : AcceptsTag) (now : AMoment) (d rest hello : List ℕ) (old new : AHandshake) (retried learned : Option (List ℕ)) (end : Option AnError) (c : AnInner S) (k : Bool) (t : List Act)
        → NamesTags takes → IsDatagramTaken takes now d old new rest retried learned end → new.peer ≡ old.peer → Converses accepts sealed hello old c k t → Hears accepts sealed hello new c k t d }
    ensures greets { (accepts : AcceptsTags S) (sealed : MakesTagsOf S) (takes : AcceptsTag) (now : AMoment) (d rest hello : List ℕ) (old new : AHandshake) (retried learned : Option (List ℕ)) (end : Option AnError) (c next : AnInner S) (k m : Bool) (t : List Act) (p : Parameters)
        → NamesTags takes → IsDatagramTaken takes now d old new rest retried learned end → old.peer ≡ None → new.peer ≡ Some p
        → IsNewSpace next.config next.side next.space → CoreFollows next [] → IsSettledBy new p next → next.idle.timeout ≡ next.config.idle → next.side ≡ c.side → next.local_id ≡ c.local_id
        → (m ≡ true → new.side ≡ Client) → Converses accepts sealed hello old c k t → Hears accepts sealed hello new next m t d }
    ensures lost { (accepts : AcceptsTags S) (sealed : MakesTagsOf S) (takes : AcceptsTag) (now : AMoment) (d hello : List ℕ) (old new : AHandshake) (learned : Option (List ℕ)) (c : AnInner S) (k : Bool) (t : List Act)
        → NamesTags takes → IsLost takes now d old new learned → new.peer ≡ old.peer → Converses accepts sealed hello old c k t → Hears accepts sealed hello (dropping new) c k t d }
    ensures ends { (accepts : AcceptsTags S) (sealed : MakesTagsOf S) (takes : AcceptsTag) (now : AMoment) (d rest hello : List ℕ) (old new : AHandshake) (retried learned : Option (List ℕ)) (end : Option AnError) (c : AnInner S) (t : List Act) (p : Parameters)
        → NamesTags takes → IsDatagramTaken takes now d old new rest retried learned end → old.peer ≡ None → new.peer ≡ Some p → is_open c.state ≡ false
        → Converses accepts sealed hello old c false t → Hears accepts sealed hello new c false t d }
    ensures ends_lost { (accepts : AcceptsTags S) (sealed : MakesTagsOf S) (takes : AcceptsTag) (now : AMoment) (d hello : List ℕ) (old new : AHandshake) (learned : Option (List ℕ)) (c : AnInner S) (t : List Act) (p : Parameters)
        → NamesTags takes → IsLost takes now d old new learned → old.peer ≡ None → new.peer ≡ Some p → is_open c.state ≡ false
        → Converses accepts sealed hello old c false t → Hears accepts sealed hello (dropping new) c false t d }
    ensures unheard { (accepts : AcceptsTags S) (sealed : MakesTagsOf S) (hello d : List ℕ) (h : AHandshake) (c : AnInner S) (k : Bool) (t : List Act) → Hears accepts sealed hello h c k t d → Converses accepts sealed hello h c k (t ++ HandedIn d ∷ []) }
    ensures heard { (accepts : AcceptsTags S) (sealed : MakesTagsOf S) (hello tail d : List ℕ) (h : AHandshake) (c new : AnInner S) (k : Bool) (t : List Act)
        → AreNamed (accepts c.session) → EndsWith tail d → IsShort tail → is_some h.peer ≡ true → IsMade accepts sealed c new (HandedIn tail ∷ [])
        → Hears accepts sealed hello h c k t d → Converses accepts sealed hello h new k (t ++ HandedIn d ∷ []) }
    ensures connects { (accepts : AcceptsTags S) (sealed : MakesTagsOf S) (hello : List ℕ) (h : AHandshake) (c : AnInner S) (k : Bool) (t : List Act) → HasPacketOf (length c.local_id) (handed_in t) (other h.side) Data
        → Converses accepts sealed hello h c k t → Converses accepts sealed hello (record (dropping h) { is_validated = true }) c true t }
{}
