ghost use Rattle.std.specs.Prelude.{◌≡◌, ◌≤◌, ℕ, Bool, List, Option, Some};
ghost use Rattle.qh_base.specs.declared.connection_error.ConnectionError.TheVariants.{Memory};
ghost use Rattle.qh_base.specs.declared.path.Transmit.{Transmit as ATransmit};
ghost use Rattle.qh_base.specs.declared.time.Moment.{Moment as AMoment};
ghost use Rattle.qh_conduct.specs.Calls.{IsCall};
ghost use Rattle.qh_conduct.specs.Granted.{AreGranted, HasGranted, TakesDatagrams};
ghost use Rattle.qh_core.specs.Config.{bounded, peer_of};
ghost use Rattle.qh_core.specs.Event.{IsDrainedTold, IsPolledEvent};
ghost use Rattle.qh_core.specs.Inner.{IsFailedBy, IsNewSpace, with_streams};
ghost use Rattle.qh_core.specs.Receiving.{IsEventTaken};
ghost use Rattle.qh_core.specs.Sending.{IsDatagramMade, NothingIsSent};
ghost use Rattle.qh_core.specs.Timers.{IsTimedOut};
ghost use Rattle.qh_core.specs.declared.event.ConnectionEvent.{ConnectionEvent as AnEvent};
ghost use Rattle.qh_core.specs.declared.event.EndpointEvent.{EndpointEvent as AnEndpointEvent};
ghost use Rattle.qh_core.specs.declared.event.Event.{Event as ATold};
ghost use Rattle.qh_core.specs.declared.inner.Inner.{Inner as AnInner};
ghost use Rattle.qh_half.specs.Recv.{PlainRecv};
ghost use Rattle.qh_spec.specs.declared.sides.Side.{Side as ASide};
ghost use Rattle.qh_spec.specs.declared.sides.Space.{Space as ASpace};
ghost use Rattle.qh_streams.specs.Streams.{PlainStreams, first_limit, recv_or_new};
ghost use Rattle.qh_streams.specs.declared.frames.StreamLimits.{StreamLimits as Limits};

/// What a connection announced is no less than the first limits of its config, on which its peer counts from the start, and it takes the
/// DATAGRAM frames of its config, unless want of memory ended it. Each call carries it on, as its contract says what it does.
pub fn grants<S>()
    ensures fresh { (c : AnInner S) → IsNewSpace c.config c.side c.space → HasGranted c }
    ensures event { (accepts : ASide → ASpace → ℕ → List ℕ → Bool) (event : AnEvent) (old new : AnInner S) → IsEventTaken accepts event old new → HasGranted old → HasGranted new }
    ensures failed { (old new : AnInner S) → IsFailedBy old new → HasGranted new }
    ensures transmit { (sealed : ASide → ASpace → ℕ → List ℕ) (now : AMoment) (old new : AnInner S) (before after : List ℕ) (transmit : ATransmit) → IsDatagramMade sealed now old new before after transmit
        → HasGranted old → HasGranted new }
    ensures none { (old new : AnInner S) → NothingIsSent old new → HasGranted old → HasGranted new }
    ensures timeout { (now : ℕ) (old new : AnInner S) → IsTimedOut now old new → HasGranted old → HasGranted new }
    ensures called { (old new : AnInner S) → IsCall old.space.streams new.space.streams → new ≡ with_streams old new.space.streams → HasGranted old → HasGranted new }
    ensures polled { (old new : AnInner S) (told : Option ATold) → IsPolledEvent old new told → HasGranted old → HasGranted new }
    ensures drained { (old new : AnInner S) (told : Option AnEndpointEvent) → IsDrainedTold old new told → HasGranted old → HasGranted new }
    ensures means { (c : AnInner S) → HasGranted c → (c.error ≡ Some Memory → ⊥) → AreGranted c }
    ensures takes { (c : AnInner S) → HasGranted c → (c.error ≡ Some Memory → ⊥) → TakesDatagrams c }
    ensures half { (c : AnInner S) (id : ℕ) (half : PlainRecv) → AreGranted c → recv_or_new c.space.streams id ≡ Some half → bounded c.config.limits.stream_window ≤ half.sent_max_stream_data }
    ensures first { (limits : Limits) (peers : PlainStreams) (id : ℕ) → peers.peer ≡ peer_of limits → first_limit peers id ≡ bounded limits.stream_window }
{}
