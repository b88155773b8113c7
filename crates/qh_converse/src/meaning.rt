ghost use Rattle.std.specs.Prelude.{◌≡◌, ◌⊎◌, ◌++◌, ◌∷◌, ℕ, Bool, true, List, [], length, Option, Some, None, is_some};
ghost use Rattle.std.specs.declared.net.socket_addr.SocketAddr.{SocketAddr as AnAddress};
ghost use Rattle.qh_arrival.specs.Accord.{AreTags};
ghost use Rattle.qh_base.specs.declared.connection_error.ConnectionError.TheVariants.{TransportError as Fault, VersionMismatch};
ghost use Rattle.qh_base.specs.declared.time.Moment.{Moment as AMoment};
ghost use Rattle.qh_base.specs.declared.transport_error.TransportError.{TransportError as ATransportError};
ghost use Rattle.qh_conduct.specs.Peers.{ArePeers};
ghost use Rattle.qh_conduct.specs.Reached.{AreNamed};
ghost use Rattle.qh_converse.specs.Converses.{Converses, HasAccord, IsInAccordBehind, IsPeerLength};
ghost use Rattle.qh_converse.specs.Linked.{ComesFrom};
ghost use Rattle.qh_converse.specs.Settled.{peer_limits};
ghost use Rattle.qh_core.specs.Follows.{IsWithinLimits};
ghost use Rattle.qh_core.specs.Inner.{is_open};
ghost use Rattle.qh_core.specs.Made.{AcceptsTags, MakesTagsOf};
ghost use Rattle.qh_core.specs.Receiving.{IsEventTaken};
ghost use Rattle.qh_core.specs.declared.event.ConnectionEvent.TheVariants.{Datagram as ADatagram};
ghost use Rattle.qh_core.specs.declared.inner.Inner.{Inner as AnInner};
ghost use Rattle.qh_handshake.specs.Handshake.{IsHandshake};
ghost use Rattle.qh_handshake.specs.Incoming.{IsDatagramTaken};
ghost use Rattle.qh_handshake.specs.Peers.{KnowsIds};
ghost use Rattle.qh_handshake.specs.declared.handshake.Handshake.{Handshake as AHandshake};
ghost use Rattle.qh_hello.specs.Greetings.{limits_of};
ghost use Rattle.qh_hello.specs.declared.transport_parameters.TransportParameters.{TransportParameters as Parameters};
ghost use Rattle.qh_packet.specs.Session.{AcceptsTag, NamesTags};
ghost use Rattle.qh_spec.specs.Greeted.{AreAnnouncedFirst, HasGreetedInOrder};
ghost use Rattle.qh_spec.specs.Lawful.{Lawful};
ghost use Rattle.qh_spec.specs.Link.{other};
ghost use Rattle.qh_spec.specs.Lists.{In};
ghost use Rattle.qh_spec.specs.Parted.{EndsWith, IsInitialAlone, IsShort};
ghost use Rattle.qh_spec.specs.Transcript.{Act, HandedOut, handed_in, handed_out};
ghost use Rattle.qh_spec.specs.declared.sides.Side.{Side as ASide};
ghost use Rattle.qh_spec.specs.declared.sides.Space.{Space as ASpace};

use qh_arrival::accords;
use qh_conduct::behaves;
use qh_core::lawful;
use qh_handshake::peers;
use qh_spec::laws::greetings::parts;

/// What that means of all that was done with an end: it keeps the laws of an end (`lawful`, `lawful_open`); it greeted in order (`order`); each
/// datagram is one Initial packet, or keeps within the limits that the peer had given before (`within`); the hello that came says the limits
/// that the handshake knows (`announced`), and an open end goes by these (`within_open`). If the tags of its session are tags, it accords with
/// the part of all that concerns 1-RTT packets (`accords`): so what it owes of streams, while it is open, waits or is out, and the datagrams of
/// that part tell which packets it sent and which it accepted (`in_accord`). And between two ends over a link that gives each only what the
/// other handed out, and datagrams such as Retry packets (`ComesFrom`), neither refuses what the other handed out: not its handshake (`faults`,
/// `versions`), nor the end of its 1-RTT packets (`open`).
pub fn converses<S>()
    ensures lawful { (accepts : AcceptsTags S) (sealed : MakesTagsOf S) (hello : List ℕ) (h : AHandshake) (c : AnInner S) (k : Bool) (t : List Act) → Converses accepts sealed hello h c k t → Lawful c.side (length c.local_id) (length c.remote_id) t }
    ensures lawful_open { (accepts : AcceptsTags S) (sealed : MakesTagsOf S) (hello : List ℕ) (h : AHandshake) (c : AnInner S) (k : Bool) (t : List Act) → is_open c.state ≡ true → Converses accepts sealed hello h c k t
        → (n : ℕ) → IsPeerLength h n → Lawful c.side (length c.local_id) n t }
    ensures order { (accepts : AcceptsTags S) (sealed : MakesTagsOf S) (hello : List ℕ) (h : AHandshake) (c : AnInner S) (k : Bool) (t : List Act) → Converses accepts sealed hello h c k t
        → (n : ℕ) → IsPeerLength h n → HasGreetedInOrder (length c.local_id) n c.side t }
    ensures within { (accepts : AcceptsTags S) (sealed : MakesTagsOf S) (hello : List ℕ) (h : AHandshake) (c : AnInner S) (k : Bool) (t before after : List Act) (d : List ℕ) → Converses accepts sealed hello h c k t → t ≡ before ++ HandedOut d ∷ after
        → IsInitialAlone d ⊎ IsWithinLimits (length c.local_id) (length c.remote_id) c.side c.config before d }
    ensures within_open { (accepts : AcceptsTags S) (sealed : MakesTagsOf S) (hello : List ℕ) (h : AHandshake) (c : AnInner S) (k : Bool) (t before after : List Act) (d : List ℕ) → is_open c.state ≡ true → Converses accepts sealed hello h c k t
        → t ≡ before ++ HandedOut d ∷ after → IsInitialAlone d
        ⊎ ((p : Parameters) × (h.peer ≡ Some p) × (c.config.peer ≡ peer_limits p) × IsWithinLimits (length c.local_id) (length h.remote_id) c.side c.config before d) }
    ensures announced { (accepts : AcceptsTags S) (sealed : MakesTagsOf S) (hello : List ℕ) (h : AHandshake) (c : AnInner S) (k : Bool) (t : List Act) (p : Parameters) → Converses accepts sealed hello h c k t → h.peer ≡ Some p
        → AreAnnouncedFirst (length c.local_id) (handed_in t) (other c.side) (limits_of p) }
    ensures faults { (accepts : AcceptsTags S) (sealed : MakesTagsOf S) (takes : AcceptsTag) (now : AMoment) (datagram rest own_hello peer_hello : List ℕ) (own new peer : AHandshake) (c p : AnInner S) (k m : Bool) (retried learned : Option (List ℕ)) (e : ATransportError) (tc tp : List Act)
        → NamesTags takes → Converses accepts sealed own_hello own c k tc → Converses accepts sealed peer_hello peer p m tp → peer.side ≡ other own.side → IsHandshake peer → KnowsIds own peer own.side → ComesFrom tc tp → ComesFrom tp tc
        → In datagram (handed_out tp) → IsDatagramTaken takes now datagram own new rest retried learned (Some (Fault e)) → ⊥ }
    ensures versions { (accepts : AcceptsTags S) (sealed : MakesTagsOf S) (takes : AcceptsTag) (now : AMoment) (datagram rest own_hello peer_hello : List ℕ) (own new peer : AHandshake) (c p : AnInner S) (k m : Bool) (retried learned : Option (List ℕ)) (tc tp : List Act)
        → Converses accepts sealed own_hello own c k tc → Converses accepts sealed peer_hello peer p m tp → peer.side ≡ other own.side → IsHandshake peer → KnowsIds own peer own.side → ComesFrom tc tp → ComesFrom tp tc
        → In datagram (handed_out tp) → IsDatagramTaken takes now datagram own new rest retried learned (Some VersionMismatch) → ⊥ }
    ensures open { (accepts : AcceptsTags S) (sealed : MakesTagsOf S) (takes : ASide → ASpace → ℕ → List ℕ → Bool) → AreNamed takes
        → (own_hello peer_hello : List ℕ) (own peer : AHandshake) (c p new : AnInner S) (k m : Bool) (tc tp : List Act) (now : AMoment) (remote : AnAddress) (tail d : List ℕ)
        → ArePeers c p → ComesFrom tc tp → ComesFrom tp tc → Converses accepts sealed own_hello own c k tc → Converses accepts sealed peer_hello peer p m tp → is_open c.state ≡ true → is_open p.state ≡ true → p.error ≡ None
        → In d (handed_out tp) → EndsWith tail d → IsShort tail → IsEventTaken takes (ADatagram now remote tail) c new → is_open new.state ≡ true }
    ensures accords { (accepts : AcceptsTags S) (sealed : MakesTagsOf S) (hello : List ℕ) (h : AHandshake) (c : AnInner S) (k : Bool) (t : List Act) → AreTags (accepts c.session) (sealed c.session) → Converses accepts sealed hello h c k t
        → HasAccord accepts sealed c t }
    ensures in_accord { (accepts : AcceptsTags S) (sealed : MakesTagsOf S) (hello : List ℕ) (h : AHandshake) (c : AnInner S) (k : Bool) (t : List Act) → AreTags (accepts c.session) (sealed c.session) → is_open c.state ≡ true
        → Converses accepts sealed hello h c k t → IsInAccordBehind accepts sealed c t }
{
    accords::<S>();
    behaves::<S>();
    lawful::<S>();
    parts();
    peers();
}
