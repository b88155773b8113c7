ghost use Rattle.std.specs.Prelude.{◌≡◌, ◌++◌, ◌≤◌, [], ℕ, Bool, true, List, Some, Ok, bytes_eq, length};
ghost use Rattle.std.specs.declared.net.socket_addr.SocketAddr.{SocketAddr as AnAddress};
ghost use Rattle.qh_base.specs.declared.connection_error.ConnectionError.TheVariants.{Memory};
ghost use Rattle.qh_base.specs.declared.path.Transmit.{Transmit as ATransmit};
ghost use Rattle.qh_base.specs.declared.time.Moment.{Moment as AMoment};
ghost use Rattle.qh_conduct.specs.Announced.{MakesTags};
ghost use Rattle.qh_conduct.specs.Peers.{ArePeers};
ghost use Rattle.qh_conduct.specs.Reached.{AreNamed};
ghost use Rattle.qh_conduct.specs.Restarting.{AcceptsWhatIsMade, AreSealed, IsCounting};
ghost use Rattle.qh_core.specs.Follows.{Follows, transmit_acts};
ghost use Rattle.qh_core.specs.Inner.{IsSameEnd, is_open};
ghost use Rattle.qh_core.specs.Receiving.{IsEventTaken};
ghost use Rattle.qh_core.specs.Sending.{IsDatagramMade};
ghost use Rattle.qh_core.specs.declared.event.ConnectionEvent.TheVariants.{Datagram as ADatagram};
ghost use Rattle.qh_core.specs.declared.inner.Inner.{Inner as AnInner};
ghost use Rattle.qh_spec.specs.Lists.{In};
ghost use Rattle.qh_spec.specs.Tag.{tag_bytes};
ghost use Rattle.qh_spec.specs.Transcript.{Act, handed_in, handed_out};
ghost use Rattle.qh_spec.specs.declared.sides.Side.{Side as ASide};
ghost use Rattle.qh_spec.specs.declared.sides.Space.{Space as ASpace};

/// The tags of a session without a cipher, whose key id isn't too long: each that is accepted or made names its sender, its space
/// and its number, and each that is made is accepted.
pub fn plain_tags()
    ensures names { (key_id : List ℕ) → length key_id ≤ 20 → AreNamed (λ from space number tag. bytes_eq tag (tag_bytes key_id from space number)) }
    ensures makes { (key_id : List ℕ) → length key_id ≤ 20 → MakesTags (tag_bytes key_id) }
    ensures takes { (key_id : List ℕ) → AcceptsWhatIsMade (λ from space number tag. bytes_eq tag (tag_bytes key_id from space number)) (tag_bytes key_id) }
{}

/// Which datagrams restart the idle time (RFC 9000, section 10.1): one that the peer handed out and that counts, as its number is
/// above all that came and its low four bytes tell it, restarts it where the end is open then. Each datagram that an end hands out
/// has the tag of its session; so it is with each that is made, and what hands out nothing leaves it so.
pub fn restarts<S>()
    ensures fresh { (sealed : ASide → ASpace → ℕ → List ℕ) (c : AnInner S) → AreSealed sealed c [] }
    ensures quiet { (sealed : ASide → ASpace → ℕ → List ℕ) (old new : AnInner S) (t u : List Act) → IsSameEnd old new → handed_out u ≡ [] → AreSealed sealed old t → AreSealed sealed new (t ++ u) }
    ensures made { (sealed : ASide → ASpace → ℕ → List ℕ) (now : AMoment) (old new : AnInner S) (before after : List ℕ) (transmit : ATransmit) (t : List Act)
        → IsDatagramMade sealed now old new before after transmit → IsSameEnd old new → AreSealed sealed old t → AreSealed sealed new (t ++ transmit_acts before after (Ok (Some transmit))) }
    ensures restarted { (accepts : ASide → ASpace → ℕ → List ℕ → Bool) (sealed : ASide → ASpace → ℕ → List ℕ) → AcceptsWhatIsMade accepts sealed → MakesTags sealed
        → (c p new : AnInner S) (tc tp : List Act) (now : AMoment) (remote : AnAddress) (datagram : List ℕ) → ArePeers c p → (c.error ≡ Some Memory → ⊥) → Follows c tc → AreSealed sealed p tp
        → is_open c.state ≡ true → In datagram (handed_out tp) → IsCounting (length c.local_id) p.side (handed_in tc) datagram
        → IsEventTaken accepts (ADatagram now remote datagram) c new → is_open new.state ≡ true → new.idle.since ≡ now }
{}
