ghost use Rattle.std.specs.Prelude.{◌≡◌, ◌≤◌, ◌^◌, ◌++◌, ◌∷◌, ℕ, [], List, Option, Some, None, Bool, true, bytes_eq, length, drop, is_some};
ghost use Rattle.qh_arrival.specs.Accord.{AreTags};
ghost use Rattle.qh_base.specs.declared.path.FourTuple.{FourTuple as APath};
ghost use Rattle.qh_base.specs.declared.path.Transmit.{Transmit as ATransmit};
ghost use Rattle.qh_base.specs.declared.time.Moment.{Moment as AMoment};
ghost use Rattle.qh_conduct.specs.Peers.{ArePeers};
ghost use Rattle.qh_conduct.specs.Restarting.{AcceptsWhatIsMade, IsCounting};
ghost use Rattle.qh_conn.specs.Incoming.{AreIdsIssued, IsDatagramHandled};
ghost use Rattle.qh_conn.specs.Outgoing.{IsStill, IsTransmitted};
ghost use Rattle.qh_conn.specs.Parameters.{IsFirstCore, IsSaid, first_control};
ghost use Rattle.qh_conn.specs.Same.{IsSameConnection};
ghost use Rattle.qh_conn.specs.Telling.{IsEndpointTold, IsTimedOut, IsTold};
ghost use Rattle.qh_conn.specs.Whole.{IsWhole, Stands};
ghost use Rattle.qh_converse.specs.Settled.{idle_of, milliseconds};
ghost use Rattle.qh_conn.specs.declared.config.ConnConfig.{ConnConfig as AConfig};
ghost use Rattle.qh_conn.specs.declared.connection.Connection.{Connection as AConnection};
ghost use Rattle.qh_conn.specs.declared.event.Event.{Event as AnEvent};
ghost use Rattle.qh_control.specs.declared.event.EndpointEvent.{EndpointEvent as AnEndpointEvent};
ghost use Rattle.qh_control.specs.declared.event.IssuedCid.{IssuedCid as ACid};
ghost use Rattle.qh_core.specs.Inner.{is_open, with_streams};
ghost use Rattle.qh_core.specs.Made.{AcceptsTags, MakesTagsOf};
ghost use Rattle.qh_core.specs.declared.control.ControlFrame.TheVariants as sending;
ghost use Rattle.qh_core.specs.declared.inner.Inner.{Inner as AnInner};
ghost use Rattle.qh_handshake.specs.Follows.{IsFresh};
ghost use Rattle.qh_handshake.specs.Handshake.{with_origin};
ghost use Rattle.qh_handshake.specs.Incoming.{IsRetryFor, MayRetry, SessionView};
ghost use Rattle.qh_handshake.specs.Peers.{KnowsIds};
ghost use Rattle.qh_handshake.specs.declared.handshake.Handshake.{Handshake as AHandshake};
ghost use Rattle.qh_handshake.specs.declared.initial_space.InitialSpace.{InitialSpace as AnInitialSpace};
ghost use Rattle.qh_hello.specs.declared.transport_parameters.TransportParameters.{TransportParameters as AParameters};
ghost use Rattle.qh_packet.specs.Session.{MakesTags, NamesTags, SealsTag};
ghost use Rattle.qh_peers.specs.Ends.{AreTwoEnds, ComesFromOrRetry, IsHonestEnd, IsRetry, SaysItsOwn};
ghost use Rattle.qh_peers.specs.Greets.{AcceptsInitials, AreInitialsSealed, CanBeGreeted, IsGreeting, IsInitialSealed};
ghost use Rattle.qh_peers.specs.Ids.{HasSameIds, HaveOwnTokens};
ghost use Rattle.qh_spec.specs.Link.{other};
ghost use Rattle.qh_spec.specs.Lists.{In};
ghost use Rattle.qh_spec.specs.Parted.{IsInitialAlone};
ghost use Rattle.qh_spec.specs.Tag.{tag_bytes};
ghost use Rattle.qh_spec.specs.Transcript.{Act, HandedIn, HandedOut, handed_in, handed_out};
ghost use Rattle.qh_spec.specs.declared.sides.Side.{Side as ASide};

use crate::ids::few_ids;
use qh_conduct::restarts;
use qh_converse::converses;

/// What an end says in its hello is what it goes by, if its config's counts of streams are such as a limit can be (`said`), also behind
/// `set_origin` (`origin`) and `bear` (`borne`).
pub fn says_its_own<S>()
    ensures said { (config : AConfig) (side : ASide) (key_id : List ℕ) (c : AConnection S) → IsSaid config side c.handshake.local_id key_id c.handshake.parameters → c.config ≡ config
        → c.core.config.limits ≡ config.limits → c.core.config.datagram_receive ≡ config.datagram_receive → (config.limits.max_bidi ≤ 2 ^ 60) × (config.limits.max_uni ≤ 2 ^ 60) → SaysItsOwn c }
    ensures borne { (token : List ℕ) (c : AConnection S) → SaysItsOwn c → SaysItsOwn (record c { handshake = record c.handshake { token = token } }) }
    ensures origin { (original : List ℕ) (retry : Option (List ℕ)) (validated : Bool) (c : AConnection S) → SaysItsOwn c → SaysItsOwn (record c { handshake = with_origin c.handshake original retry validated }) }
{}

/// An end is honest before its first datagram (`fresh`), and stays so after these calls: after one that hands out a datagram (`sent`), or has
/// none (`still`); after a Retry packet came, whether it is taken, and a client begins again towards the id that it came from, or not
/// (`retried`; RFC 9000, section 17.2.5); after a moment at which something is due, if it is open then (`timed`); after its endpoint issued ids
/// whose tokens belong to them (`issued`), and after an address token was queued (`queued`); after `poll` and `poll_endpoint_events` (`told`,
/// `endpoint_told`); after calls on its streams (`called`); and after those that leave its ids, its state and its error as they are (`kept`). Of
/// a datagram that its peer handed out `two_ends` speaks. No clause speaks of `close` or of want of memory; `set_origin` and `bear` come before
/// `fresh`.
pub fn honest_ends<S>()
    ensures fresh { (accepts : AcceptsTags S) (sealed : MakesTagsOf S) (config : AConfig) (side : ASide) (session : S) (hello local_id remote_id : List ℕ) (addresses : APath) (now : AMoment) (c : AConnection S)
        → IsWhole c → Stands accepts sealed hello c [] → IsFirstCore config side session local_id remote_id addresses now c.core → SaysItsOwn c
        → c.control ≡ first_control config local_id remote_id addresses.remote c.control.queue.room → IsHonestEnd accepts sealed hello c [] }
    ensures sent { (v : SessionView S) (now : AMoment) (before after hello : List ℕ) (transmit : ATransmit) (c new : AConnection S) (t : List Act) → MakesTags (v.sealed c.core.session)
        → IsTransmitted (v.sealed c.core.session) now c new before after transmit → IsSameConnection v.key c new → IsWhole new → Stands v.accepts v.sealed hello new (t ++ HandedOut (drop (length before) after) ∷ [])
        → IsHonestEnd v.accepts v.sealed hello c t → IsHonestEnd v.accepts v.sealed hello new (t ++ HandedOut (drop (length before) after) ∷ []) }
    ensures still { (accepts : AcceptsTags S) (sealed : MakesTagsOf S) (hello : List ℕ) (c new : AConnection S) (t : List Act) → IsStill c new → IsWhole new → Stands accepts sealed hello new t
        → IsHonestEnd accepts sealed hello c t → IsHonestEnd accepts sealed hello new t }
    ensures retried { (v : SessionView S) (now : AMoment) (d hello : List ℕ) (c new : AConnection S) (t : List Act) → IsRetry d → IsDatagramHandled v now d c new → IsSameConnection v.key c new → IsWhole new
        → Stands v.accepts v.sealed hello new (t ++ HandedIn d ∷ []) → IsHonestEnd v.accepts v.sealed hello c t → IsHonestEnd v.accepts v.sealed hello new (t ++ HandedIn d ∷ []) }
    ensures timed { (accepts : AcceptsTags S) (sealed : MakesTagsOf S) (key : S → List ℕ) (now : ℕ) (hello : List ℕ) (c new : AConnection S) (t : List Act) → IsTimedOut now c new → is_open new.core.state ≡ true
        → IsSameConnection key c new → IsWhole new → Stands accepts sealed hello new t → IsHonestEnd accepts sealed hello c t → IsHonestEnd accepts sealed hello new t }
    ensures told { (accepts : AcceptsTags S) (sealed : MakesTagsOf S) (key : S → List ℕ) (hello : List ℕ) (c new : AConnection S) (event : Option AnEvent) (t : List Act) → IsTold c new event → IsSameConnection key c new
        → IsWhole new → Stands accepts sealed hello new t → IsHonestEnd accepts sealed hello c t → IsHonestEnd accepts sealed hello new t }
    ensures endpoint_told { (accepts : AcceptsTags S) (sealed : MakesTagsOf S) (key : S → List ℕ) (hello : List ℕ) (c new : AConnection S) (event : Option AnEndpointEvent) (t : List Act) → IsEndpointTold c new event
        → IsSameConnection key c new → IsWhole new → Stands accepts sealed hello new t → IsHonestEnd accepts sealed hello c t → IsHonestEnd accepts sealed hello new t }
    ensures called { (accepts : AcceptsTags S) (sealed : MakesTagsOf S) (hello : List ℕ) (c : AConnection S) (core : AnInner S) (acts t : List Act) → core ≡ with_streams c.core core.space.streams → handed_out acts ≡ []
        → Stands accepts sealed hello (record c { core = core }) (t ++ acts) → IsHonestEnd accepts sealed hello c t
        → IsHonestEnd accepts sealed hello (record c { core = core }) (t ++ acts) }
    ensures issued { (accepts : AcceptsTags S) (sealed : MakesTagsOf S) (key : S → List ℕ) (hello : List ℕ) (c new : AConnection S) (ids : List ACid) (t : List Act) → HaveOwnTokens ids → AreIdsIssued ids c new
        → IsSameConnection key c new → IsWhole new → Stands accepts sealed hello new t → IsHonestEnd accepts sealed hello c t → IsHonestEnd accepts sealed hello new t }
    ensures queued { (accepts : AcceptsTags S) (sealed : MakesTagsOf S) (hello : List ℕ) (c new : AConnection S) (token : List ℕ) (t : List Act)
        → new ≡ record c { control = record c.control { queue = record c.control.queue { waiting = c.control.queue.waiting ++ sending.NewToken token ∷ [] } } } → IsWhole new → Stands accepts sealed hello new t
        → IsHonestEnd accepts sealed hello c t → IsHonestEnd accepts sealed hello new t }
    ensures kept { (accepts : AcceptsTags S) (sealed : MakesTagsOf S) (hello : List ℕ) (c new : AConnection S) (t : List Act) → HasSameIds c new → new.core.error ≡ c.core.error → new.config ≡ c.config
        → new.handshake ≡ c.handshake → new.core.config ≡ c.core.config → IsWhole new → Stands accepts sealed hello new t → IsHonestEnd accepts sealed hello c t → IsHonestEnd accepts sealed hello new t }
{
    few_ids::<S>();
}

/// From which id a Retry packet came stays as it is when a datagram comes that is no Retry packet which this client takes (`passed`), when one is
/// handed out (`sent`), when something is due (`timed`), when `poll` and `poll_endpoint_events` tell something (`told`, `endpoint_told`), and
/// when ids are issued (`issued`).
pub fn retry_kept<S>()
    ensures passed { (v : SessionView S) (now : AMoment) (d : List ℕ) (old new : AConnection S) → ((s : AnInitialSpace) (source token : List ℕ) → MayRetry old.handshake s → IsRetryFor old.handshake d source token → ⊥)
        → IsDatagramHandled v now d old new → new.handshake.retry_id ≡ old.handshake.retry_id }
    ensures sent { (sealed : SealsTag) (now : AMoment) (old new : AConnection S) (before after : List ℕ) (transmit : ATransmit) → IsTransmitted sealed now old new before after transmit → new.handshake.retry_id ≡ old.handshake.retry_id }
    ensures timed { (now : ℕ) (old new : AConnection S) → IsTimedOut now old new → new.handshake.retry_id ≡ old.handshake.retry_id }
    ensures told { (old new : AConnection S) (event : Option AnEvent) → IsTold old new event → new.handshake.retry_id ≡ old.handshake.retry_id }
    ensures endpoint_told { (old new : AConnection S) (event : Option AnEndpointEvent) → IsEndpointTold old new event → new.handshake.retry_id ≡ old.handshake.retry_id }
    ensures issued { (ids : List ACid) (old new : AConnection S) → AreIdsIssued ids old new → new.handshake.retry_id ≡ old.handshake.retry_id }
{}

/// Two honest ends of one connection, over a link that gives each only what the other handed out, and Retry packets, which an endpoint sends
/// (RFC 9000, section 17.2.5). So they are once both are there (`first`), if nothing but Retry packets came to the one that was there before: so
/// a client may have taken one before its peer's end began. They stay so after each call that leaves them honest (`carried`), and after a Retry
/// packet that comes later and isn't taken (`passed`). Of each other they know the hello and the id (`knows`), and once both were greeted the ends
/// of their 1-RTT packets are each other's peers (`peers`); the idle time in force is that of both hellos, and before that its own (`idle`,
/// `early_idle`). A datagram that the other handed out leaves the end to which it comes honest, and so open, and it is no Retry packet that is
/// taken (`given`). One with a 1-RTT packet whose number is below 2^31 and above those of all that came before restarts its idle timer (`restarts`;
/// RFC 9000, section 10.1).
pub fn two_ends<S>()
    ensures turned { (accepts : AcceptsTags S) (sealed : MakesTagsOf S) (key : S → List ℕ) (own_hello peer_hello : List ℕ) (c q : AConnection S) (tc tq : List Act)
        → AreTwoEnds accepts sealed key own_hello peer_hello c q tc tq → AreTwoEnds accepts sealed key peer_hello own_hello q c tq tc }
    ensures first { (accepts : AcceptsTags S) (sealed : MakesTagsOf S) (key : S → List ℕ) (own_hello peer_hello : List ℕ) (c q : AConnection S) (tc : List Act) → IsHonestEnd accepts sealed own_hello c tc
        → IsHonestEnd accepts sealed peer_hello q [] → q.core.side ≡ other c.core.side → KnowsIds c.handshake q.handshake c.core.side → KnowsIds q.handshake c.handshake q.core.side
        → key q.core.session ≡ key c.core.session → ((d : List ℕ) → In d (handed_in tc) → IsRetry d) → AreTwoEnds accepts sealed key own_hello peer_hello c q tc [] }
    ensures carried { (accepts : AcceptsTags S) (sealed : MakesTagsOf S) (key : S → List ℕ) (own_hello peer_hello : List ℕ) (c q new : AConnection S) (tc tq acts : List Act)
        → AreTwoEnds accepts sealed key own_hello peer_hello c q tc tq → IsSameConnection key c new → new.handshake.retry_id ≡ c.handshake.retry_id → ComesFromOrRetry acts tq
        → IsHonestEnd accepts sealed own_hello new (tc ++ acts) → AreTwoEnds accepts sealed key own_hello peer_hello new q (tc ++ acts) tq }
    ensures passed { (v : SessionView S) (now : AMoment) (d own_hello peer_hello : List ℕ) (c q new : AConnection S) (tc tq : List Act) → IsRetry d
        → ((s : AnInitialSpace) (source token : List ℕ) → MayRetry c.handshake s → IsRetryFor c.handshake d source token → ⊥) → AreTwoEnds v.accepts v.sealed v.key own_hello peer_hello c q tc tq
        → IsDatagramHandled v now d c new → IsSameConnection v.key c new → IsWhole new → Stands v.accepts v.sealed own_hello new (tc ++ HandedIn d ∷ [])
        → AreTwoEnds v.accepts v.sealed v.key own_hello peer_hello new q (tc ++ HandedIn d ∷ []) tq }
    ensures knows { (accepts : AcceptsTags S) (sealed : MakesTagsOf S) (key : S → List ℕ) (own_hello peer_hello : List ℕ) (c q : AConnection S) (tc tq : List Act) (p : AParameters)
        → AreTwoEnds accepts sealed key own_hello peer_hello c q tc tq → c.handshake.peer ≡ Some p → (p ≡ q.handshake.parameters) × (c.handshake.remote_id ≡ q.handshake.local_id) }
    ensures idle { (accepts : AcceptsTags S) (sealed : MakesTagsOf S) (key : S → List ℕ) (own_hello peer_hello : List ℕ) (c q : AConnection S) (tc tq : List Act)
        → AreTwoEnds accepts sealed key own_hello peer_hello c q tc tq → is_some c.handshake.peer ≡ true → c.core.idle.timeout ≡ idle_of (milliseconds c.config.idle) (milliseconds q.config.idle) }
    ensures early_idle { (accepts : AcceptsTags S) (sealed : MakesTagsOf S) (hello : List ℕ) (c : AConnection S) (t : List Act) → IsHonestEnd accepts sealed hello c t → c.handshake.peer ≡ None
        → milliseconds c.core.idle.timeout ≡ milliseconds c.config.idle }
    ensures peers { (accepts : AcceptsTags S) (sealed : MakesTagsOf S) (key : S → List ℕ) (own_hello peer_hello : List ℕ) (c q : AConnection S) (tc tq : List Act)
        → AreTwoEnds accepts sealed key own_hello peer_hello c q tc tq → is_some c.handshake.peer ≡ true → is_some q.handshake.peer ≡ true → ArePeers c.core q.core }
    ensures given { (v : SessionView S) (now : AMoment) (d own_hello peer_hello : List ℕ) (c q new : AConnection S) (tc tq : List Act) → NamesTags (v.accepts c.core.session)
        → AreTags (v.accepts q.core.session) (v.sealed q.core.session) → AreTwoEnds v.accepts v.sealed v.key own_hello peer_hello c q tc tq → In d (handed_out tq)
        → IsDatagramHandled v now d c new → IsSameConnection v.key c new → IsWhole new → Stands v.accepts v.sealed own_hello new (tc ++ HandedIn d ∷ [])
        → IsHonestEnd v.accepts v.sealed own_hello new (tc ++ HandedIn d ∷ []) × (new.handshake.retry_id ≡ c.handshake.retry_id) }
    ensures restarts { (v : SessionView S) (now : AMoment) (d own_hello peer_hello : List ℕ) (c q new : AConnection S) (tc tq : List Act) → NamesTags (v.accepts c.core.session)
        → AreTags (v.accepts q.core.session) (v.sealed q.core.session) → AcceptsWhatIsMade (v.accepts c.core.session) (v.sealed q.core.session)
        → AreTwoEnds v.accepts v.sealed v.key own_hello peer_hello c q tc tq → In d (handed_out tq) → IsCounting (length c.core.local_id) q.core.side (handed_in tc) d
        → IsDatagramHandled v now d c new → new.core.idle.since ≡ now }
{
    few_ids::<S>();
    converses::<S>();
    restarts::<S>();
    honest_ends::<S>();
    retry_kept::<S>();
}

/// An end is greeted by a datagram of its honest peer's that greets it (`IsGreeting`), if it can be greeted by this peer (`CanBeGreeted`), and the
/// datagram, where it is one Initial packet, has the tag that the peer's session makes for it, which this end's session accepts. An Initial packet
/// from before a Retry packet has another tag.
pub fn greets<S>()
    ensures greets { (v : SessionView S) (now : AMoment) (d own_hello peer_hello : List ℕ) (c q new : AConnection S) (tc tq : List Act) → NamesTags (v.accepts c.core.session)
        → AreTags (v.accepts q.core.session) (v.sealed q.core.session) → AcceptsInitials (v.accepts c.core.session) (v.sealed q.core.session)
        → AreTwoEnds v.accepts v.sealed v.key own_hello peer_hello c q tc tq → (IsInitialAlone d → IsInitialSealed (v.sealed q.core.session) q.core.side d) → CanBeGreeted c.handshake q.handshake
        → In d (handed_out tq) → IsGreeting (length c.core.local_id) q.core.side (handed_in tc) d → IsDatagramHandled v now d c new → is_some new.handshake.peer ≡ true }
{}

/// An end can be greeted by its peer before its first datagram (`fresh`), where a server knows the peer's id by the packet for which it was made,
/// and a client knows none; and stays so when a datagram of its honest peer's comes (`given`), or a Retry packet, whether it is taken or not
/// (`retried`), when it hands out a datagram (`sent`), when something is due (`timed`), when `poll` and `poll_endpoint_events` tell something
/// (`told`, `endpoint_told`), when ids are issued (`issued`), and whatever the peer does (`peer`).
pub fn can_greet<S>()
    ensures fresh { (hello : List ℕ) (own peer : AHandshake) → IsFresh hello own → (own.knows_peer ≡ true → own.remote_id ≡ peer.local_id) → CanBeGreeted own peer }
    ensures given { (v : SessionView S) (now : AMoment) (d own_hello peer_hello : List ℕ) (c q new : AConnection S) (tc tq : List Act) → NamesTags (v.accepts c.core.session)
        → AreTags (v.accepts q.core.session) (v.sealed q.core.session) → AreTwoEnds v.accepts v.sealed v.key own_hello peer_hello c q tc tq → In d (handed_out tq)
        → IsDatagramHandled v now d c new → CanBeGreeted c.handshake q.handshake → CanBeGreeted new.handshake q.handshake }
    ensures retried { (v : SessionView S) (now : AMoment) (d : List ℕ) (c new : AConnection S) (peer : AHandshake) → IsRetry d → IsDatagramHandled v now d c new → CanBeGreeted c.handshake peer
        → CanBeGreeted new.handshake peer }
    ensures sent { (sealed : SealsTag) (now : AMoment) (old new : AConnection S) (before after : List ℕ) (transmit : ATransmit) (peer : AHandshake) → IsTransmitted sealed now old new before after transmit
        → CanBeGreeted old.handshake peer → CanBeGreeted new.handshake peer }
    ensures timed { (now : ℕ) (old new : AConnection S) (peer : AHandshake) → IsTimedOut now old new → CanBeGreeted old.handshake peer → CanBeGreeted new.handshake peer }
    ensures told { (old new : AConnection S) (event : Option AnEvent) (peer : AHandshake) → IsTold old new event → CanBeGreeted old.handshake peer → CanBeGreeted new.handshake peer }
    ensures endpoint_told { (old new : AConnection S) (event : Option AnEndpointEvent) (peer : AHandshake) → IsEndpointTold old new event → CanBeGreeted old.handshake peer → CanBeGreeted new.handshake peer }
    ensures issued { (ids : List ACid) (old new : AConnection S) (peer : AHandshake) → AreIdsIssued ids old new → CanBeGreeted old.handshake peer → CanBeGreeted new.handshake peer }
    ensures peer { (own peer new : AHandshake) → new.local_id ≡ peer.local_id → CanBeGreeted own peer → CanBeGreeted own new }
{}

/// The Initial packets that an end handed out have the tags that its session makes for them: before its first datagram (`fresh`), after each
/// datagram that it hands out (`sent`), and after whatever hands out none (`quiet`). With another key, as after a Retry packet, that is said of
/// those that are handed out since, beginning again with none (`fresh`). A session without a cipher accepts each tag that is made of its key
/// (`plain`).
pub fn initials_sealed<S>()
    ensures fresh { (sealed : SealsTag) (side : ASide) → AreInitialsSealed sealed side [] }
    ensures sent { (sealed : SealsTag) (now : AMoment) (before after : List ℕ) (transmit : ATransmit) (c new : AConnection S) (t : List Act) → IsWhole c → IsTransmitted sealed now c new before after transmit
        → AreInitialsSealed sealed c.core.side t → AreInitialsSealed sealed c.core.side (t ++ HandedOut (drop (length before) after) ∷ []) }
    ensures quiet { (sealed : SealsTag) (side : ASide) (t more : List Act) → handed_out more ≡ [] → AreInitialsSealed sealed side t → AreInitialsSealed sealed side (t ++ more) }
    ensures plain { (key_id : List ℕ) → AcceptsInitials (λ from space number tag. bytes_eq tag (tag_bytes key_id from space number)) (tag_bytes key_id) }
{}
