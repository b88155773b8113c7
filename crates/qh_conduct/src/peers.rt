ghost use Rattle.std.specs.Prelude.{◌≡◌, ◌++◌, ◌∷◌, [], ℕ, Bool, List, None, true};
ghost use Rattle.std.specs.declared.net.socket_addr.SocketAddr.{SocketAddr as AnAddress};
ghost use Rattle.qh_base.specs.declared.time.Moment.{Moment as AMoment};
ghost use Rattle.qh_conduct.specs.Announced.{HasAnnounced};
ghost use Rattle.qh_conduct.specs.Granted.{HasGranted};
ghost use Rattle.qh_conduct.specs.Filled.{AreFilled};
ghost use Rattle.qh_conduct.specs.Peers.{AreLinked, ArePeers};
ghost use Rattle.qh_conduct.specs.Reached.{AreNamed, HasReached};
ghost use Rattle.qh_conduct.specs.Sized.{HasSized};
ghost use Rattle.qh_core.specs.Follows.{Follows};
ghost use Rattle.qh_core.specs.Inner.{IsSameEnd, is_open};
ghost use Rattle.qh_core.specs.Receiving.{IsEventTaken};
ghost use Rattle.qh_core.specs.declared.event.ConnectionEvent.TheVariants.{Datagram as ADatagram};
ghost use Rattle.qh_core.specs.declared.inner.Inner.{Inner as AnInner};
ghost use Rattle.qh_spec.specs.Lists.{In};
ghost use Rattle.qh_spec.specs.Transcript.{Act, HandedIn, handed_in, handed_out};
ghost use Rattle.qh_spec.specs.declared.sides.Side.{Side as ASide};
ghost use Rattle.qh_spec.specs.declared.sides.Space.{Space as ASpace};

/// Over a link that gives each end only what the other handed out, no end refuses what comes: an end that is open, and whose peer is,
/// is open behind each datagram of that peer's (`open`). `tc` and `tp` are what was done with the two; either is the other's peer and
/// linked to it, and they stay so.
pub fn peers<S>()
    ensures open { (accepts : ASide → ASpace → ℕ → List ℕ → Bool) → AreNamed accepts → (c p new : AnInner S) (tc tp : List Act) (now : AMoment) (remote : AnAddress) (datagram : List ℕ)
        → ArePeers c p → AreLinked tc tp → Follows p tp → HasReached c tc → HasReached p tp → HasAnnounced c tc → HasAnnounced p tp → HasGranted c → HasSized p tp → AreFilled p tp
        → is_open c.state ≡ true → is_open p.state ≡ true → p.error ≡ None → In datagram (handed_out tp)
        → IsEventTaken accepts (ADatagram now remote datagram) c new → is_open new.state ≡ true }
    ensures turned { (c p : AnInner S) → ArePeers c p → ArePeers p c }
    ensures same { (c p d q : AnInner S) → IsSameEnd c d → IsSameEnd p q → ArePeers c p → ArePeers d q }
    ensures back { (tc tp : List Act) → AreLinked tc tp → AreLinked tp tc }
    ensures given { (tc tp : List Act) (datagram : List ℕ) → AreLinked tc tp → In datagram (handed_out tp) → AreLinked (tc ++ HandedIn datagram ∷ []) tp }
    ensures more { (tc tp u : List Act) → handed_in u ≡ [] → AreLinked tc tp → AreLinked (tc ++ u) tp }
{}
