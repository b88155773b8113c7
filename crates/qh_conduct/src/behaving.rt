ghost use Rattle.std.specs.Prelude.{◌≡◌, ◌⊎◌, ◌++◌, ◌∷◌, ◌≤◌, ◌^◌, ℕ, Bool, true, false, List, [], Option, Some, None, Result, Ok, MatchResult};
ghost use Rattle.std.specs.declared.net.socket_addr.SocketAddr.{SocketAddr as AnAddress};
ghost use Rattle.qh_base.specs.declared.connection_error.ConnectionError.TheVariants.{LocallyClosed};
ghost use Rattle.qh_base.specs.declared.path.Transmit.{Transmit as ATransmit};
ghost use Rattle.qh_base.specs.declared.time.Moment.{Moment as AMoment};
ghost use Rattle.qh_buffers.specs.declared.assembler.Chunk.{Chunk};
ghost use Rattle.qh_conduct.specs.Announced.{MakesTags};
ghost use Rattle.qh_conduct.specs.Behaves.{Behaves};
ghost use Rattle.qh_conduct.specs.Calls.{IsCall};
ghost use Rattle.qh_conduct.specs.Peers.{AreLinked, ArePeers};
ghost use Rattle.qh_conduct.specs.Reached.{AreNamed};
ghost use Rattle.qh_conduct.specs.Sized.{MayWrite, written_by};
ghost use Rattle.qh_core.specs.Event.{IsDrainedTold, IsPolledEvent};
ghost use Rattle.qh_core.specs.Follows.{Follows, event_acts, take_acts, transmit_acts};
ghost use Rattle.qh_core.specs.Inner.{IsFailedBy, IsNewSpace, IsSameEnd, is_open, with_streams};
ghost use Rattle.qh_core.specs.Made.{AcceptsTags, MakesTagsOf, AreMade, IsTurned};
ghost use Rattle.qh_core.specs.Receiving.{IsClosedWith, IsEventTaken, received};
ghost use Rattle.qh_core.specs.Sending.{ClosesReadBack, IsDatagramMade, NothingIsSent};
ghost use Rattle.qh_core.specs.Streams.{IsReadFault, IsWriteRefused, IsRead};
ghost use Rattle.qh_core.specs.Timers.{IsTimedOut};
ghost use Rattle.qh_core.specs.declared.event.ConnectionEvent.{ConnectionEvent as AnEvent};
ghost use Rattle.qh_core.specs.declared.event.ConnectionEvent.TheVariants.{Datagram as ADatagram};
ghost use Rattle.qh_core.specs.declared.event.EndpointEvent.{EndpointEvent as AnEndpointEvent};
ghost use Rattle.qh_core.specs.declared.event.Event.{Event as ATold};
ghost use Rattle.qh_core.specs.declared.fault.TakeFault.{TakeFault as ATakeFault};
ghost use Rattle.qh_core.specs.declared.inner.Inner.{Inner as AnInner};
ghost use Rattle.qh_core.specs.declared.state.Close.TheVariants.{Application};
ghost use Rattle.qh_half.specs.declared.fault.WriteFault.{WriteFault};
ghost use Rattle.qh_halves.specs.SendHalves.{Finishes, IsResetWith, IsStep, Takes, write_fault_at};
ghost use Rattle.qh_spec.specs.Lists.{In};
ghost use Rattle.qh_spec.specs.StreamId.{stream_id};
ghost use Rattle.qh_spec.specs.Transcript.{Act, Finished, Reset, Wrote, handed_in, handed_out, written};
ghost use Rattle.qh_spec.specs.declared.sides.Dir.{Dir as ADir};
ghost use Rattle.qh_spec.specs.declared.sides.Side.{Side as ASide};
ghost use Rattle.qh_spec.specs.declared.sides.Space.{Space as ASpace};
ghost use Rattle.qh_streams.specs.Streams.{IsOpened, counts_of, is_two_way, with_accepted, with_counts};

use crate::filled::fills;
use crate::peers::peers;

/// How an end behaves to its peer, all at once: each call carries it on, as its contract says what it does. So two ends may be
/// followed by one relation. Of each call the premises are the clauses of its contract, and that the connection follows its
/// transcript; `called` is for every call on streams, and those behind it are the calls with what they say.
pub fn behaves<S>()
    ensures fresh { (c : AnInner S) → IsNewSpace c.config c.side c.space → Follows c [] → Behaves c [] }
    ensures event { (accepts : ASide → ASpace → ℕ → List ℕ → Bool) (event : AnEvent) (old new : AnInner S) (t : List Act) → AreNamed accepts → IsEventTaken accepts event old new
        → IsSameEnd old new → Follows new (t ++ event_acts event) → Behaves old t → Behaves new (t ++ event_acts event) }
    ensures failed_event { (event : AnEvent) (old new : AnInner S) (t : List Act) → IsFailedBy (received event old) new → Follows new (t ++ event_acts event)
        → Behaves old t → Behaves new (t ++ event_acts event) }
    ensures transmit { (sealed : ASide → ASpace → ℕ → List ℕ) → MakesTags sealed → (now : AMoment) (old new : AnInner S) (before after : List ℕ) (transmit : ATransmit) (t : List Act)
        → IsDatagramMade sealed now old new before after transmit → (is_open old.state ≡ true) ⊎ ClosesReadBack old.state → IsSameEnd old new
        → Follows new (t ++ transmit_acts before after (Ok (Some transmit))) → Behaves old t → Behaves new (t ++ transmit_acts before after (Ok (Some transmit))) }
    ensures none { (old new : AnInner S) (t : List Act) → NothingIsSent old new → Follows new t → Behaves old t → Behaves new t }
    ensures failed { (old new : AnInner S) (t : List Act) → IsFailedBy old new → Follows new t → Behaves old t → Behaves new t }
    ensures closed { (now : AMoment) (code : ℕ) (reason : List ℕ) (old new : AnInner S) (t : List Act)
        → (is_open old.state ≡ true → IsClosedWith now (Application (record { error_code = code; reason = reason })) LocallyClosed old new) → (is_open old.state ≡ false → new ≡ old)
        → IsSameEnd old new → Follows new t → Behaves old t → Behaves new t }
    ensures timeout { (now : ℕ) (old new : AnInner S) (t : List Act) → IsTimedOut now old new → IsSameEnd old new → Follows new t → Behaves old t → Behaves new t }
    ensures polled { (old new : AnInner S) (told : Option ATold) (t : List Act) → IsPolledEvent old new told → IsSameEnd old new → Follows new t → Behaves old t → Behaves new t }
    ensures drained { (old new : AnInner S) (told : Option AnEndpointEvent) (t : List Act) → IsDrainedTold old new told → IsSameEnd old new → Follows new t → Behaves old t → Behaves new t }
    ensures turned { (old new : AnInner S) (t : List Act) → IsTurned old new → Follows new t → Behaves old t → Behaves new t }
    ensures called { (old new : AnInner S) (t u : List Act) → (call : IsCall old.space.streams new.space.streams) → MayWrite (is_open old.state) call → new ≡ with_streams old new.space.streams
        → ((stream : ℕ) → written u stream ≡ written_by call stream) → handed_in u ≡ [] → handed_out u ≡ [] → Follows new (t ++ u) → Behaves old t → Behaves new (t ++ u) }
    ensures opened { (dir : ADir) (id : ℕ) (old new : AnInner S) (t : List Act) → id ≡ stream_id old.space.streams.side dir (counts_of old.space.streams (is_two_way dir)).opened
        → IsOpened old.space.streams new.space.streams id → new ≡ with_streams old new.space.streams → Follows new t → Behaves old t → Behaves new t }
    ensures accepted { (dir : ADir) (old new : AnInner S) (t : List Act)
        → new ≡ with_streams old (with_counts old.space.streams (is_two_way dir) (with_accepted (counts_of old.space.streams (is_two_way dir)))) → Follows new t → Behaves old t → Behaves new t }
    ensures wrote { (id count : ℕ) (bytes : List ℕ) (old new : AnInner S) (t : List Act) → is_open old.state ≡ true → write_fault_at old.space.streams.send id ≡ None
        → IsStep (Takes bytes) old.space.streams.send new.space.streams.send id count → new ≡ with_streams old (record old.space.streams { send = new.space.streams.send })
        → Follows new (t ++ Wrote id bytes ∷ []) → Behaves old t → Behaves new (t ++ Wrote id bytes ∷ []) }
    ensures unwritten { (id : ℕ) (fault : WriteFault) (old new : AnInner S) (t : List Act) → IsWriteRefused id fault old new → Follows new t → Behaves old t → Behaves new t }
    ensures finished { (id : ℕ) (old new : AnInner S) (t : List Act) → IsStep Finishes old.space.streams.send new.space.streams.send id 0
        → new ≡ with_streams old (record old.space.streams { send = new.space.streams.send }) → Follows new (t ++ Finished id ∷ []) → Behaves old t → Behaves new (t ++ Finished id ∷ []) }
    ensures reset { (id code : ℕ) (old new : AnInner S) (t : List Act) → IsStep (IsResetWith code) old.space.streams.send new.space.streams.send id 0
        → new ≡ with_streams old (record old.space.streams { send = new.space.streams.send }) → Follows new (t ++ Reset id code ∷ []) → Behaves old t → Behaves new (t ++ Reset id code ∷ []) }
    ensures read { (max_length : ℕ) (ordered : Bool) (id : ℕ) (result : Result (Option Chunk) ATakeFault) (old new : AnInner S) (t : List Act)
        → MatchResult result (λ o. IsRead max_length ordered id (Ok o) old.space.streams new.space.streams) (λ e. IsReadFault max_length ordered id e old.space.streams new.space.streams)
        → new ≡ with_streams old new.space.streams → Follows new (t ++ take_acts id result) → Behaves old t → Behaves new (t ++ take_acts id result) }
    // An end that is open, and whose peer is, is open behind each datagram of that peer's.
    ensures open { (accepts : ASide → ASpace → ℕ → List ℕ → Bool) → AreNamed accepts → (c p new : AnInner S) (tc tp : List Act) (now : AMoment) (remote : AnAddress) (datagram : List ℕ)
        → ArePeers c p → AreLinked tc tp → Behaves c tc → Behaves p tp → is_open c.state ≡ true → is_open p.state ≡ true → p.error ≡ None → In datagram (handed_out tp)
        → IsEventTaken accepts (ADatagram now remote datagram) c new → is_open new.state ≡ true }
{
    fills::<S>();
    peers::<S>();
}

/// So it goes on over whatever calls are made of an end whose session's tags are tags.
pub fn behaves_on<S>()
    ensures { (accepts : AcceptsTags S) (sealed : MakesTagsOf S) (old new : AnInner S) (acts t : List Act) → AreNamed (accepts old.session) → MakesTags (sealed old.session)
        → AreMade accepts sealed old new acts → Behaves old t → Behaves new (t ++ acts) }
{}
