ghost use Rattle.std.specs.Prelude.{◌++◌, ℕ, List, [], ◌∷◌, length, drop, true, Option, None};
ghost use Rattle.qh_base.specs.declared.connection_error.ConnectionClose.{ConnectionClose as AClose};
ghost use Rattle.qh_base.specs.declared.connection_error.ConnectionError.{ConnectionError as AnError};
ghost use Rattle.qh_base.specs.declared.time.Moment.{Moment as AMoment};
ghost use Rattle.qh_handshake.specs.Follows.{Follows, IsFresh};
ghost use Rattle.qh_handshake.specs.Handshake.{IsHandshake, dropping};
ghost use Rattle.qh_handshake.specs.Incoming.{IsDatagramTaken};
ghost use Rattle.qh_handshake.specs.Lost.{IsLost};
ghost use Rattle.qh_handshake.specs.Moments.{IsTimedOut};
ghost use Rattle.qh_handshake.specs.Outgoing.{IsCloseMade, IsCloseUnsent, IsDatagramMade, IsUnsent};
ghost use Rattle.qh_handshake.specs.Sends.{Sends};
ghost use Rattle.qh_handshake.specs.declared.handshake.Handshake.{Handshake as AHandshake};
ghost use Rattle.qh_packet.specs.Session.{AcceptsTag, MakesTags, NamesTags};
ghost use Rattle.qh_spec.specs.Transcript.{Act, HandedIn, HandedOut};
ghost use Rattle.qh_spec.specs.declared.sides.Side.{Side as ASide};
ghost use Rattle.qh_spec.specs.declared.sides.Space.{Space as ASpaceOf};

/// What a handshake hands out is datagrams of one Initial packet, from its own id, with frames that such a packet may have, each in range:
/// ACKs of packets that came before, its whole hello, PING, PADDING, or a close (RFC 9000, sections 12.4, 13.1 and 17.2.2). One that
/// begins has handed out nothing, and each call carries it on, also one that returns for want of memory: for a datagram that came, with the
/// space dropped.
pub fn sends()
    ensures fresh { (hello : List ℕ) (h : AHandshake) → IsFresh hello h → Sends hello h [] }
    ensures taken { (accepts : AcceptsTag) (now : AMoment) (datagram rest hello : List ℕ) (old new : AHandshake) (retried learned : Option (List ℕ)) (end : Option AnError) (t : List Act)
        → NamesTags accepts → IsDatagramTaken accepts now datagram old new rest retried learned end → Sends hello old t
        → Sends hello new (t ++ HandedIn datagram ∷ []) }
    ensures made { (sealed : ASide → ASpaceOf → ℕ → List ℕ) (now : AMoment) (before after hello : List ℕ) (old new : AHandshake) (size : ℕ) (t : List Act)
        → MakesTags sealed → IsHandshake old → IsDatagramMade sealed now old new before after size → Follows hello old t → Sends hello old t
        → Sends hello new (t ++ HandedOut (drop (length before) after) ∷ []) }
    ensures closed { (sealed : ASide → ASpaceOf → ℕ → List ℕ) (close : AClose) (before after hello : List ℕ) (old new : AHandshake) (size : ℕ) (t : List Act)
        → MakesTags sealed → IsHandshake old → IsCloseMade sealed close old new before after size → Sends hello old t
        → Sends hello new (t ++ HandedOut (drop (length before) after) ∷ []) }
    ensures lost { (accepts : AcceptsTag) (now : AMoment) (datagram hello : List ℕ) (old new : AHandshake) (learned : Option (List ℕ)) (t : List Act)
        → NamesTags accepts → IsLost accepts now datagram old new learned → Sends hello old t → Sends hello (dropping new) (t ++ HandedIn datagram ∷ []) }
    ensures unsent { (now : AMoment) (hello : List ℕ) (old new : AHandshake) (t : List Act) → IsUnsent now old new → Sends hello old t → Sends hello new t }
    ensures close_unsent { (hello : List ℕ) (old new : AHandshake) (t : List Act) → IsCloseUnsent old new → Sends hello old t → Sends hello new t }
    ensures timed_out { (now : ℕ) (hello : List ℕ) (old new : AHandshake) (t : List Act) → IsTimedOut now old new → Sends hello old t → Sends hello new t }
    ensures dropped { (hello : List ℕ) (h : AHandshake) (t : List Act) → Sends hello h t → Sends hello (dropping h) t }
    ensures discarded { (hello : List ℕ) (h : AHandshake) (t : List Act) → Sends hello h t → Sends hello (record (dropping h) { is_validated = true }) t }
{}
