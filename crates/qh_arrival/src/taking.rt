ghost use Rattle.std.specs.Prelude.{◌≡◌, ℕ, Bool, true, List, Some, length, slice_get};
ghost use Rattle.std.specs.declared.net.socket_addr.SocketAddr.{SocketAddr as AnAddress};
ghost use Rattle.qh_arrival.specs.Taking.{IsReadable, IsTakenFrom};
ghost use Rattle.qh_base.specs.declared.connection_error.ConnectionError.TheVariants.{Memory};
ghost use Rattle.qh_base.specs.declared.time.Moment.{Moment as AMoment};
ghost use Rattle.qh_conduct.specs.Announced.{MakesTags};
ghost use Rattle.qh_conduct.specs.Peers.{AreLinked, ArePeers};
ghost use Rattle.qh_conduct.specs.Restarting.{AcceptsWhatIsMade};
ghost use Rattle.qh_core.specs.Follows.{Follows};
ghost use Rattle.qh_core.specs.Inner.{is_open};
ghost use Rattle.qh_core.specs.Progress.{NumberedPacket as APacket};
ghost use Rattle.qh_core.specs.Receiving.{IsEventTaken, IsNewTo, IsOldTo, received};
ghost use Rattle.qh_core.specs.declared.event.ConnectionEvent.TheVariants.{Datagram as ADatagram};
ghost use Rattle.qh_core.specs.declared.inner.Inner.{Inner as AnInner};
ghost use Rattle.qh_owing.specs.Ledger.{AreSent};
ghost use Rattle.qh_spec.specs.Lists.{In};
ghost use Rattle.qh_spec.specs.Transcript.{Act, handed_in, handed_out};
ghost use Rattle.qh_spec.specs.declared.sides.Side.{Side as ASide};
ghost use Rattle.qh_spec.specs.declared.sides.Space.{Space as ASpace};

/// Of two ends of one connection whose sessions make and take the same tags: a datagram that the peer handed out, whose number is the
/// expected one, or is below 2^31 and at most 128 below the greatest that was accepted, is taken by an end that is open, and stays so,
/// where its number is new; where it isn't new, this very datagram came before (RFC 9000, sections 12.3 and 17.1).
pub fn taken<S>()
    ensures new { (accepts : ASide → ASpace → ℕ → List ℕ → Bool) (sealed : ASide → ASpace → ℕ → List ℕ) → AcceptsWhatIsMade accepts sealed → MakesTags sealed
        → (c p new : AnInner S) (tc tp : List Act) (sent : List APacket) (packet : APacket) (k : ℕ) (now : AMoment) (remote : AnAddress) (datagram : List ℕ) → ArePeers c p
        → (c.error ≡ Some Memory → ⊥) → Follows c tc → AreSent sealed p.side (length p.remote_id) (handed_out tp) sent → slice_get (handed_out tp) k ≡ Some datagram → slice_get sent k ≡ Some packet → IsReadable c packet.number
        → is_open c.state ≡ true → IsEventTaken accepts (ADatagram now remote datagram) c new → is_open new.state ≡ true → IsNewTo c.space packet.number
        → IsTakenFrom now packet (received (ADatagram now remote datagram) c) new }
    ensures repeated { (sealed : ASide → ASpace → ℕ → List ℕ) → MakesTags sealed → (c p : AnInner S) (tc tp : List Act) (sent : List APacket) (packet : APacket) (k : ℕ) (datagram : List ℕ)
        → ArePeers c p → AreLinked tc tp → (c.error ≡ Some Memory → ⊥) → Follows c tc → AreSent sealed p.side (length p.remote_id) (handed_out tp) sent
        → slice_get (handed_out tp) k ≡ Some datagram → slice_get sent k ≡ Some packet → IsReadable c packet.number → IsOldTo c.space packet.number → In datagram (handed_in tc) }
{}
