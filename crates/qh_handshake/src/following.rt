ghost use Rattle.std.specs.Prelude.{◌≡◌, ◌++◌, ℕ, List, [], ◌∷◌, length, drop, true, Bool, Option, None};
ghost use Rattle.qh_base.specs.declared.connection_error.ConnectionClose.{ConnectionClose as AClose};
ghost use Rattle.qh_base.specs.declared.connection_error.ConnectionError.{ConnectionError as AnError};
ghost use Rattle.qh_base.specs.declared.time.Moment.{Moment as AMoment};
ghost use Rattle.qh_handshake.specs.Follows.{Follows, IsFresh};
ghost use Rattle.qh_packet.specs.Session.{MakesTags, NamesTags};
ghost use Rattle.qh_handshake.specs.Handshake.{IsHandshake, dropping, with_origin};
ghost use Rattle.qh_handshake.specs.Incoming.{IsDatagramTaken};
ghost use Rattle.qh_packet.specs.Session.{AcceptsTag};
ghost use Rattle.qh_handshake.specs.Lost.{IsLost};
ghost use Rattle.qh_handshake.specs.Moments.{IsTimedOut};
ghost use Rattle.qh_handshake.specs.Outgoing.{IsCloseMade, IsCloseUnsent, IsDatagramMade, IsUnsent};
ghost use Rattle.qh_handshake.specs.declared.handshake.Handshake.{Handshake as AHandshake};
ghost use Rattle.qh_hello.specs.Greetings.{greeting};
ghost use Rattle.qh_spec.specs.Hello.{hello_bytes, hello_of};
ghost use Rattle.qh_spec.specs.declared.sides.Side.TheVariants.{Server};
ghost use Rattle.qh_spec.specs.Transcript.{Act, HandedIn, HandedOut};
ghost use Rattle.qh_spec.specs.declared.sides.Side.{Side as ASide};
ghost use Rattle.qh_spec.specs.declared.sides.Space.{Space as ASpaceOf};

/// A handshake follows all that was done with it: what it knows of the peer came, with the id that it knows the peer's packets by, what it
/// hands out of its hello is its hello, a server's only after the client's whole hello came, and before the client's address is validated
/// at most three times as many bytes go as came (RFC 9000, sections 7, 7.3 and 8.1). One that begins does so, also behind `set_origin` and `bear`, and each call carries it on, also one that
/// returns for want of memory: for a datagram that came, with the space dropped.
pub fn follows()
    ensures fresh { (hello : List ℕ) (h : AHandshake) → IsFresh hello h → Follows hello h [] }
    ensures origin { (hello original : List ℕ) (retry : Option (List ℕ)) (is_validated : Bool) (h : AHandshake) → h.side ≡ Server → IsFresh hello h
        → IsHandshake (with_origin h original retry is_validated)
        → IsFresh (hello_bytes (hello_of (greeting Server [] (with_origin h original retry is_validated).parameters))) (with_origin h original retry is_validated) }
    ensures borne { (hello token : List ℕ) (h : AHandshake) → IsFresh hello h → IsFresh hello (record h { token = token }) }
    ensures taken { (accepts : AcceptsTag) (now : AMoment) (datagram rest hello : List ℕ) (old new : AHandshake) (retried learned : Option (List ℕ)) (end : Option AnError) (t : List Act)
        → NamesTags accepts → IsDatagramTaken accepts now datagram old new rest retried learned end → Follows hello old t → Follows hello new (t ++ HandedIn datagram ∷ []) }
    ensures made { (sealed : ASide → ASpaceOf → ℕ → List ℕ) (now : AMoment) (before after hello : List ℕ) (old new : AHandshake) (size : ℕ) (t : List Act)
        → MakesTags sealed → IsHandshake old → IsDatagramMade sealed now old new before after size → Follows hello old t
        → Follows hello new (t ++ HandedOut (drop (length before) after) ∷ []) }
    ensures closed { (sealed : ASide → ASpaceOf → ℕ → List ℕ) (close : AClose) (before after hello : List ℕ) (old new : AHandshake) (size : ℕ) (t : List Act)
        → MakesTags sealed → IsHandshake old → IsCloseMade sealed close old new before after size → Follows hello old t
        → Follows hello new (t ++ HandedOut (drop (length before) after) ∷ []) }
    ensures lost { (accepts : AcceptsTag) (now : AMoment) (datagram hello : List ℕ) (old new : AHandshake) (learned : Option (List ℕ)) (t : List Act)
        → NamesTags accepts → IsLost accepts now datagram old new learned → Follows hello old t → Follows hello (dropping new) (t ++ HandedIn datagram ∷ []) }
    ensures unsent { (now : AMoment) (hello : List ℕ) (old new : AHandshake) (t : List Act) → IsUnsent now old new → Follows hello old t → Follows hello new t }
    ensures close_unsent { (hello : List ℕ) (old new : AHandshake) (t : List Act) → IsCloseUnsent old new → Follows hello old t → Follows hello new t }
    ensures timed_out { (now : ℕ) (hello : List ℕ) (old new : AHandshake) (t : List Act) → IsTimedOut now old new → Follows hello old t → Follows hello new t }
    ensures dropped { (hello : List ℕ) (h : AHandshake) (t : List Act) → Follows hello h t → Follows hello (dropping h) t }
    ensures discarded { (hello : List ℕ) (h : AHandshake) (t : List Act) → Follows hello h t → Follows hello (record (dropping h) { is_validated = true }) t }
{}
