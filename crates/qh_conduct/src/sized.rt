ghost use Rattle.std.specs.Prelude.{◌≡◌, ◌⊎◌, ◌++◌, ◌∷◌, ℕ, true, List, [], length, Bool, Option, Some, Ok};
ghost use Rattle.qh_base.specs.declared.path.Transmit.{Transmit as ATransmit};
ghost use Rattle.qh_base.specs.declared.time.Moment.{Moment as AMoment};
ghost use Rattle.qh_conduct.specs.Announced.{MakesTags};
ghost use Rattle.qh_conduct.specs.Calls.{IsCall};
ghost use Rattle.qh_conduct.specs.Sized.{AreRight, HasSized, MayWrite, reset_frame, written_by};
ghost use Rattle.qh_core.specs.Event.{IsDrainedTold, IsPolledEvent};
ghost use Rattle.qh_core.specs.Follows.{HasFrame, event_acts, transmit_acts};
ghost use Rattle.qh_core.specs.Inner.{IsFailedBy, IsNewSpace, is_open, with_streams};
ghost use Rattle.qh_core.specs.Receiving.{IsEventTaken, received};
ghost use Rattle.qh_core.specs.Sending.{ClosesReadBack, IsDatagramMade, NothingIsSent};
ghost use Rattle.qh_core.specs.Timers.{IsTimedOut};
ghost use Rattle.qh_core.specs.declared.event.ConnectionEvent.{ConnectionEvent as AnEvent};
ghost use Rattle.qh_core.specs.declared.event.EndpointEvent.{EndpointEvent as AnEndpointEvent};
ghost use Rattle.qh_core.specs.declared.event.Event.{Event as ATold};
ghost use Rattle.qh_core.specs.declared.inner.Inner.{Inner as AnInner};
ghost use Rattle.qh_spec.specs.Transcript.{Act, HandedOut, handed_out, written};
ghost use Rattle.qh_spec.specs.declared.sides.Side.{Side as ASide};
ghost use Rattle.qh_spec.specs.declared.sides.Space.{Space as ASpace};

/// Each RESET_STREAM that a connection handed out says as final size how many bytes were written on its stream, by then and at every
/// later moment: nothing was written there since. Of all that was done with it this is carried on by what each call does. `came` is
/// the part of `event` that holds where the event then fails for want of memory.
pub fn sizes<S>()
    ensures fresh { (c : AnInner S) → IsNewSpace c.config c.side c.space → HasSized c [] }
    ensures came { (event : AnEvent) (old : AnInner S) (t : List Act) → HasSized old t → HasSized (received event old) (t ++ event_acts event) }
    ensures event { (accepts : ASide → ASpace → ℕ → List ℕ → Bool) (event : AnEvent) (old new : AnInner S) (t : List Act) → IsEventTaken accepts event old new
        → HasSized old t → HasSized new (t ++ event_acts event) }
    ensures failed { (old new : AnInner S) (t : List Act) → IsFailedBy old new → HasSized old t → HasSized new t }
    ensures transmit { (sealed : ASide → ASpace → ℕ → List ℕ) → MakesTags sealed → (now : AMoment) (old new : AnInner S) (before after : List ℕ) (transmit : ATransmit) (t : List Act)
        → IsDatagramMade sealed now old new before after transmit → (is_open old.state ≡ true) ⊎ ClosesReadBack old.state
        → HasSized old t → HasSized new (t ++ transmit_acts before after (Ok (Some transmit))) }
    ensures none { (old new : AnInner S) (t : List Act) → NothingIsSent old new → HasSized old t → HasSized new t }
    ensures timeout { (now : ℕ) (old new : AnInner S) (t : List Act) → IsTimedOut now old new → HasSized old t → HasSized new t }
    ensures called { (old new : AnInner S) (t u : List Act) → (call : IsCall old.space.streams new.space.streams) → MayWrite (is_open old.state) call → new ≡ with_streams old new.space.streams
        → ((stream : ℕ) → written u stream ≡ written_by call stream) → handed_out u ≡ [] → HasSized old t → HasSized new (t ++ u) }
    ensures polled { (old new : AnInner S) (told : Option ATold) (t : List Act) → IsPolledEvent old new told → HasSized old t → HasSized new t }
    ensures drained { (old new : AnInner S) (told : Option AnEndpointEvent) (t : List Act) → IsDrainedTold old new told → HasSized old t → HasSized new t }
    ensures means { (c : AnInner S) (t : List Act) → HasSized c t → AreRight c t }
    ensures since { (c : AnInner S) (t before after : List Act) (datagram : List ℕ) (stream code size : ℕ) → HasSized c t → t ≡ before ++ HandedOut datagram ∷ after
        → HasFrame (length c.remote_id) (datagram ∷ []) c.side (reset_frame stream code size) → (size ≡ length (written before stream)) × (written after stream ≡ []) }
{}
