ghost use Rattle.std.specs.Prelude.{◌≡◌, ℕ, List, None, true, Option, Some, is_some};
ghost use Rattle.qh_base.specs.declared.connection_error.ConnectionClose.{ConnectionClose as AClose};
ghost use Rattle.qh_base.specs.declared.connection_error.ConnectionError.{ConnectionError as AnError};
ghost use Rattle.qh_base.specs.declared.time.Moment.{Moment as AMoment};
ghost use Rattle.qh_handshake.specs.GoesOn.{GoesOn};
ghost use Rattle.qh_handshake.specs.Handshake.{dropping};
ghost use Rattle.qh_handshake.specs.Incoming.{IsDatagramTaken};
ghost use Rattle.qh_handshake.specs.Lost.{IsLost};
ghost use Rattle.qh_handshake.specs.Moments.{IsTimedOut};
ghost use Rattle.qh_handshake.specs.Outgoing.{IsCloseMade, IsCloseUnsent, IsDatagramMade, IsUnsent};
ghost use Rattle.qh_handshake.specs.declared.handshake.Handshake.{Handshake as AHandshake};
ghost use Rattle.qh_packet.specs.Session.{AcceptsTag, SealsTag};

/// A handshake stays the same end of the same connection: each call but `set_origin` and `bear`, which come before the first datagram,
/// leaves its side, version, id and parameters as they are, and what it once knew of its peer; a peer's address that is validated stays so,
/// and a space that is gone isn't there again. A Retry packet is taken once, and none after a packet was accepted; a token is borne until
/// then (RFC 9000, sections 7.2, 8.1 and 17.2.5.2).
pub fn goes_on()
    ensures same { (h : AHandshake) → GoesOn h h }
    ensures both { (old mid new : AHandshake) → GoesOn old mid → GoesOn mid new → GoesOn old new }
    ensures taken { (accepts : AcceptsTag) (now : AMoment) (datagram rest : List ℕ) (old new : AHandshake) (retried learned : Option (List ℕ)) (end : Option AnError)
        → IsDatagramTaken accepts now datagram old new rest retried learned end → GoesOn old new }
    ensures lost { (accepts : AcceptsTag) (now : AMoment) (datagram : List ℕ) (old new : AHandshake) (learned : Option (List ℕ))
        → IsLost accepts now datagram old new learned → GoesOn old (dropping new) }
    ensures made { (sealed : SealsTag) (now : AMoment) (before after : List ℕ) (old new : AHandshake) (size : ℕ) → IsDatagramMade sealed now old new before after size → GoesOn old new }
    ensures closed { (sealed : SealsTag) (close : AClose) (before after : List ℕ) (old new : AHandshake) (size : ℕ) → IsCloseMade sealed close old new before after size → GoesOn old new }
    ensures unsent { (now : AMoment) (old new : AHandshake) → IsUnsent now old new → GoesOn old new }
    ensures close_unsent { (old new : AHandshake) → IsCloseUnsent old new → GoesOn old new }
    ensures timed_out { (now : ℕ) (old new : AHandshake) → IsTimedOut now old new → GoesOn old new }
    ensures dropped { (h : AHandshake) → GoesOn h (dropping h) }
    ensures discarded { (h : AHandshake) → GoesOn h (record (dropping h) { is_validated = true }) }
{}
