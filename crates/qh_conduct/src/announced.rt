ghost use Rattle.std.specs.Prelude.{◌≡◌, ◌⊎◌, ◌≤◌, ◌++◌, ◌^◌, ℕ, Bool, true, List, [], Option, Some, Ok};
ghost use Rattle.qh_base.specs.declared.connection_error.ConnectionError.TheVariants.{Memory};
ghost use Rattle.qh_base.specs.declared.path.Transmit.{Transmit as ATransmit};
ghost use Rattle.qh_base.specs.declared.time.Moment.{Moment as AMoment};
ghost use Rattle.qh_conduct.specs.Announced.{HasAnnounced, IsReadable, MakesTags, SendsAsAnnounced, TakesTags};
ghost use Rattle.qh_conduct.specs.Calls.{IsCall};
ghost use Rattle.qh_core.specs.Event.{IsDrainedTold, IsPolledEvent};
ghost use Rattle.qh_core.specs.Follows.{Follows, event_acts, transmit_acts};
ghost use Rattle.qh_core.specs.Inner.{IsFailedBy, IsNewSpace, is_open, with_streams};
ghost use Rattle.qh_core.specs.Receiving.{IsEventTaken};
ghost use Rattle.qh_core.specs.Sending.{ClosesReadBack, IsDatagramMade, NothingIsSent};
ghost use Rattle.qh_core.specs.Timers.{IsTimedOut};
ghost use Rattle.qh_core.specs.declared.event.ConnectionEvent.{ConnectionEvent as AnEvent};
ghost use Rattle.qh_core.specs.declared.event.EndpointEvent.{EndpointEvent as AnEndpointEvent};
ghost use Rattle.qh_core.specs.declared.event.Event.{Event as ATold};
ghost use Rattle.qh_core.specs.declared.inner.Inner.{Inner as AnInner};
ghost use Rattle.qh_spec.specs.Lists.{In};
ghost use Rattle.qh_spec.specs.Transcript.{Act, handed_in, handed_out};
ghost use Rattle.qh_spec.specs.declared.sides.Side.{Side as ASide};
ghost use Rattle.qh_spec.specs.declared.sides.Space.{Space as ASpace};
ghost use Rattle.qh_streams.specs.Streams.{counts_of};

/// What a connection sends keeps what it announced, and acknowledges what came. Of all that was done with it this is carried on
/// by what each call does.
pub fn announced<S>()
    ensures fresh { (c : AnInner S) → IsNewSpace c.config c.side c.space → ((two_way : Bool) → (counts_of c.space.streams two_way).announced.value ≤ 2 ^ 60) → HasAnnounced c [] }
    ensures event { (accepts : ASide → ASpace → ℕ → List ℕ → Bool) → TakesTags accepts → (event : AnEvent) (old new : AnInner S) (t : List Act) → IsEventTaken accepts event old new
        → HasAnnounced old t → HasAnnounced new (t ++ event_acts event) }
    ensures failed { (old new : AnInner S) (t : List Act) → IsFailedBy old new → HasAnnounced new t }
    ensures made { (sealed : ASide → ASpace → ℕ → List ℕ) → MakesTags sealed → (now : AMoment) (old new : AnInner S) (before after : List ℕ) (transmit : ATransmit) (t : List Act)
        → IsDatagramMade sealed now old new before after transmit → (is_open old.state ≡ true) ⊎ ClosesReadBack old.state
        → HasAnnounced old t → HasAnnounced new (t ++ transmit_acts before after (Ok (Some transmit))) }
    ensures none { (old new : AnInner S) (t : List Act) → NothingIsSent old new → HasAnnounced old t → HasAnnounced new t }
    ensures timeout { (now : ℕ) (old new : AnInner S) (t : List Act) → IsTimedOut now old new → HasAnnounced old t → HasAnnounced new t }
    ensures called { (old new : AnInner S) (t u : List Act) → IsCall old.space.streams new.space.streams → new ≡ with_streams old new.space.streams → handed_in u ≡ [] → handed_out u ≡ []
        → HasAnnounced old t → HasAnnounced new (t ++ u) }
    ensures polled { (old new : AnInner S) (told : Option ATold) (t : List Act) → IsPolledEvent old new told → HasAnnounced old t → HasAnnounced new t }
    ensures drained { (old new : AnInner S) (told : Option AnEndpointEvent) (t : List Act) → IsDrainedTold old new told → HasAnnounced old t → HasAnnounced new t }
    ensures means { (c : AnInner S) (t : List Act) → (c.error ≡ Some Memory → ⊥) → HasAnnounced c t → SendsAsAnnounced c t }
    ensures readable { (c : AnInner S) (t : List Act) (datagram : List ℕ) → (c.error ≡ Some Memory → ⊥) → Follows c t → HasAnnounced c t → In datagram (handed_out t) → IsReadable c datagram }
{}
