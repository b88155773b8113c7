ghost use Rattle.std.specs.Prelude.{◌≡◌, ◌⊎◌, ◌<◌, ◌++◌, [], ℕ, ℤ, length, take, Bool, List, Option, None, Some, Result, Ok, true, false, OnOk, OnErr, IfOk, IfErr, IfSome};
ghost use Rattle.std.specs.List.{concat};
ghost use Rattle.qh_base.specs.declared.connection_error.ConnectionError.TheVariants.{LocallyClosed};
ghost use Rattle.qh_base.specs.declared.memory.Memory.{Memory as OutOfMemory};
ghost use Rattle.qh_base.specs.declared.path.Transmit.{Transmit as ATransmit};
ghost use Rattle.qh_base.specs.declared.stream_id.StreamId.{StreamId as AStreamId};
ghost use Rattle.qh_base.specs.declared.time.Moment.{Moment as AMoment};
ghost use Rattle.qh_buffers.specs.declared.assembler.Chunk.{Chunk as AChunk};
ghost use Rattle.qh_core.specs.Event.{IsDrainedTold, IsPolledEvent};
ghost use Rattle.qh_core.specs.Follows.{Follows, control_acts, event_acts, transmit_acts, write_acts, write_chunks_acts, finish_acts, reset_by_acts, stop_acts, take_acts, received_reset_acts};
ghost use Rattle.qh_core.specs.Inner.{IsFailedBy, IsSameEnd, is_open, with_streams};
ghost use Rattle.qh_core.specs.Made.{AcceptsTags, MakesTagsOf, IsMade, IsMadeLocally, IsMadeOnStreams, IsTurned, AreMade, AreMadeLocally, AreMadeOnStreams};
ghost use Rattle.qh_core.specs.Receiving.{IsClosedWith, IsEventTaken, IsWantingFor, handed_at, received};
ghost use Rattle.qh_core.specs.Sending.{ClosesReadBack, IsControlKept, IsControlSent, IsDatagramMade, NothingIsSent};
ghost use Rattle.qh_core.specs.Streams.{IsRead, IsReadFault, IsWriteRefused};
ghost use Rattle.qh_core.specs.Timers.{IsKeptByTimers, IsTimedOut, IsUndisturbed};
ghost use Rattle.qh_core.specs.declared.control.ControlFrame.{ControlFrame as AControlFrame};
ghost use Rattle.qh_core.specs.declared.control.ControlSent.{ControlSent as AControlSent};
ghost use Rattle.qh_core.specs.declared.event.ConnectionEvent.{ConnectionEvent as AnEvent};
ghost use Rattle.qh_core.specs.declared.event.EndpointEvent.{EndpointEvent as AnEndpointEvent};
ghost use Rattle.qh_core.specs.declared.event.Event.{Event as ATold};
ghost use Rattle.qh_core.specs.declared.fault.TakeFault.{TakeFault as ATakeFault};
ghost use Rattle.qh_core.specs.declared.inner.Inner.{Inner as AnInner};
ghost use Rattle.qh_core.specs.declared.state.Close.TheVariants.{Application};
ghost use Rattle.qh_half.specs.declared.fault.ClosedStream.{ClosedStream as AClosedStream};
ghost use Rattle.qh_half.specs.declared.fault.FinishFault.{FinishFault as AFinishFault};
ghost use Rattle.qh_half.specs.declared.fault.WriteFault.{WriteFault as AWriteFault};
ghost use Rattle.qh_half.specs.declared.send.Written.{Written as AWritten};
ghost use Rattle.qh_halves.specs.RecvHalves.{IsRecvStep, Stops, TakesReset};
ghost use Rattle.qh_halves.specs.SendHalves.{IsStep, Takes, Finishes, IsResetWith, HasPriority, write_fault_at};
ghost use Rattle.qh_spec.specs.StreamId.{stream_id};
ghost use Rattle.qh_spec.specs.Transcript.{Act};
ghost use Rattle.qh_spec.specs.declared.sides.Dir.{Dir as ADir};
ghost use Rattle.qh_streams.specs.Streams.{IsOpened, counted_closed, counts_of, is_live, is_two_way, with_accepted, with_counts};

/// Each public call of a connection that changes it is a call of `IsMade`, by what its contract says, with what it adds to all that was
/// done with the connection. Of each the premises are clauses of its contract.
pub fn made<S>()
    ensures event { (accepts : AcceptsTags S) (sealed : MakesTagsOf S) (event : AnEvent) (result : Result Unit OutOfMemory) (old new : AnInner S)
        → OnOk result (IsEventTaken (accepts old.session) event old new) → OnOk result (IsUndisturbed (handed_at event) old new)
        → OnErr result (IsFailedBy (received event old) new) → OnErr result (IsWantingFor (accepts old.session) event old)
        → ((t : List Act) → Follows old t → Follows new (t ++ event_acts event)) → IsSameEnd old new → IsMade accepts sealed old new (event_acts event) }
    ensures transmit { (accepts : AcceptsTags S) (sealed : MakesTagsOf S) (now : AMoment) (before after : List ℕ) (result : Result (Option ATransmit) OutOfMemory) (old new : AnInner S)
        → IfOk result (λ o. IfSome o (λ transmit. IsDatagramMade (sealed old.session) now old new before after transmit))
        → IfOk result (λ o. IfSome o (λ transmit. ClosesReadBack old.state)) → OnOk result (IsUndisturbed now old new)
        → IfOk result (λ o. o ≡ None → (after ≡ before) × NothingIsSent old new) → OnErr result ((after ≡ before) × IsFailedBy old new)
        → ((t : List Act) → Follows old t → Follows new (t ++ transmit_acts before after result)) → IsSameEnd old new → IsMade accepts sealed old new (transmit_acts before after result) }
    ensures control { (accepts : AcceptsTags S) (sealed : MakesTagsOf S) (now : AMoment) (before after : List ℕ) (frames : List AControlFrame) (result : Result (Option AControlSent) OutOfMemory) (old new : AnInner S)
        → IfOk result (λ o. IfSome o (λ sent. IsControlSent (sealed old.session) now old new before after frames sent)) → OnOk result (IsUndisturbed now old new)
        → IfOk result (λ o. o ≡ None → (after ≡ before) × (new ≡ old) × IsControlKept old frames) → OnErr result ((after ≡ before) × IsFailedBy old new)
        → ((t : List Act) → Follows old t → Follows new (t ++ control_acts before after result)) → IsSameEnd old new → IsMade accepts sealed old new (control_acts before after result) }
    ensures timeout { (now : ℕ) (old new : AnInner S) → IsTimedOut now old new → IsKeptByTimers now old new
        → ((t : List Act) → Follows old t → Follows new t) → IsSameEnd old new → IsMadeLocally old new [] }
    ensures close { (now : AMoment) (code : ℕ) (reason : List ℕ) (old new : AnInner S)
        → (is_open old.state ≡ true → IsClosedWith now (Application (record { error_code = code; reason = reason })) LocallyClosed old new) → (is_open old.state ≡ false → new ≡ old)
        → ((t : List Act) → Follows old t → Follows new t) → IsSameEnd old new → IsMadeLocally old new [] }
    ensures poll { (told : Option ATold) (old new : AnInner S) → IsPolledEvent old new told
        → ((t : List Act) → Follows old t → Follows new t) → IsSameEnd old new → IsMadeLocally old new [] }
    ensures endpoint { (told : Option AnEndpointEvent) (old new : AnInner S) → IsDrainedTold old new told
        → ((t : List Act) → Follows old t → Follows new t) → IsSameEnd old new → IsMadeLocally old new [] }
    ensures turned { (old new : AnInner S) → IsTurned old new
        → ((t : List Act) → Follows old t → Follows new t) → IsSameEnd old new → IsMadeLocally old new [] }
    ensures open { (dir : ADir) (result : Result (Option AStreamId) OutOfMemory) (old new : AnInner S)
        → IfOk result (λ o. IfSome o (λ id. (is_open old.state ≡ true) × (id.0 ≡ stream_id old.space.streams.side dir (counts_of old.space.streams (is_two_way dir)).opened)
        × ((counts_of old.space.streams (is_two_way dir)).opened < (counts_of old.space.streams (is_two_way dir)).max_opened)
        × IsOpened old.space.streams new.space.streams id.0 × (new ≡ with_streams old new.space.streams)))
        → IfOk result (λ o. o ≡ None → (new ≡ old)
        × ((is_open old.state ≡ false) ⊎ ((counts_of old.space.streams (is_two_way dir)).opened ≡ (counts_of old.space.streams (is_two_way dir)).max_opened)))
        → OnErr result (new ≡ old) → ((t : List Act) → Follows old t → Follows new t) → IsMadeOnStreams old new [] }
    ensures accept { (dir : ADir) (result : Option AStreamId) (old new : AnInner S)
        → IfSome result (λ id. (counts_of old.space.streams (is_two_way dir)).accepted < (counts_of old.space.streams (is_two_way dir)).arrived)
        → IfSome result (λ id. new ≡ with_streams old (with_counts old.space.streams (is_two_way dir) (with_accepted (counts_of old.space.streams (is_two_way dir)))))
        → (result ≡ None → new ≡ old) → ((t : List Act) → Follows old t → Follows new t) → IsMadeOnStreams old new [] }
    ensures write { (id : ℕ) (payload : List ℕ) (result : Result ℕ AWriteFault) (old new : AnInner S)
        → IfOk result (λ n. (is_open old.state ≡ true) × IsStep (Takes (take n payload)) old.space.streams.send new.space.streams.send id n
        × (new ≡ with_streams old (record old.space.streams { send = new.space.streams.send })))
        → OnOk result (write_fault_at old.space.streams.send id ≡ None) → IfErr result (λ e. IsWriteRefused id e old new)
        → ((t : List Act) → Follows old t → Follows new (t ++ write_acts id payload result)) → IsMadeOnStreams old new (write_acts id payload result) }
    ensures write_chunks { (id : ℕ) (chunks : List (List ℕ)) (result : Result AWritten AWriteFault) (old new : AnInner S)
        → IfOk result (λ w. (is_open old.state ≡ true) × IsStep (Takes (take w.bytes (concat chunks))) old.space.streams.send new.space.streams.send id w.bytes
        × (new ≡ with_streams old (record old.space.streams { send = new.space.streams.send })))
        → OnOk result (write_fault_at old.space.streams.send id ≡ None) → IfErr result (λ e. IsWriteRefused id e old new)
        → ((t : List Act) → Follows old t → Follows new (t ++ write_chunks_acts id chunks result)) → IsMadeOnStreams old new (write_chunks_acts id chunks result) }
    ensures finish { (id : ℕ) (result : Result Unit AFinishFault) (old new : AnInner S)
        → OnOk result (IsStep Finishes old.space.streams.send new.space.streams.send id 0 × (new ≡ with_streams old (record old.space.streams { send = new.space.streams.send })))
        → OnErr result (new ≡ old) → ((t : List Act) → Follows old t → Follows new (t ++ finish_acts id result)) → IsMadeOnStreams old new (finish_acts id result) }
    ensures reset { (id code : ℕ) (result : Result Unit AClosedStream) (old new : AnInner S)
        → OnOk result (IsStep (IsResetWith code) old.space.streams.send new.space.streams.send id 0 × (new ≡ with_streams old (record old.space.streams { send = new.space.streams.send })))
        → OnErr result (new ≡ old) → ((t : List Act) → Follows old t → Follows new (t ++ reset_by_acts id code result)) → IsMadeOnStreams old new (reset_by_acts id code result) }
    ensures set_priority { (id : ℕ) (priority : ℤ) (result : Result Unit AClosedStream) (old new : AnInner S)
        → OnOk result (IsStep (HasPriority priority) old.space.streams.send new.space.streams.send id 0 × (new ≡ with_streams old (record old.space.streams { send = new.space.streams.send })))
        → OnErr result (new ≡ old) → ((t : List Act) → Follows old t → Follows new t) → IsMadeOnStreams old new [] }
    ensures read { (id max_length : ℕ) (ordered : Bool) (result : Result (Option AChunk) ATakeFault) (old new : AnInner S)
        → IfOk result (λ o. IsRead max_length ordered id (Ok o) old.space.streams new.space.streams)
        → IfErr result (λ e. IsReadFault max_length ordered id e old.space.streams new.space.streams)
        → new ≡ with_streams old new.space.streams → ((t : List Act) → Follows old t → Follows new (t ++ take_acts id result)) → IsMadeOnStreams old new (take_acts id result) }
    ensures stop { (id code : ℕ) (result : Result Unit AClosedStream) (old new : AnInner S)
        → OnOk result (IsRecvStep (Stops code) old.space.streams.recv new.space.streams.recv id 0
        × (new ≡ with_streams old (counted_closed (record old.space.streams { recv = new.space.streams.recv }) id (is_live old.space.streams id))))
        → OnErr result (new ≡ old) → ((t : List Act) → Follows old t → Follows new (t ++ stop_acts id code result)) → IsMadeOnStreams old new (stop_acts id code result) }
    ensures received_reset { (id : ℕ) (result : Result (Option ℕ) AClosedStream) (old new : AnInner S)
        → IfOk result (λ code. IsRecvStep (TakesReset code) old.space.streams.recv new.space.streams.recv id 0
        × (new ≡ with_streams old (counted_closed (record old.space.streams { recv = new.space.streams.recv }) id (is_live old.space.streams id))))
        → OnErr result (new ≡ old) → ((t : List Act) → Follows old t → Follows new (t ++ received_reset_acts id result)) → IsMadeOnStreams old new (received_reset_acts id result) }
    ensures set_max_concurrent_streams { (dir : ADir) (count : ℕ) (old new : AnInner S)
        → new ≡ with_streams old (with_counts old.space.streams (is_two_way dir) (record (counts_of old.space.streams (is_two_way dir)) { max_concurrent = count }))
        → ((t : List Act) → Follows old t → Follows new t) → IsMadeOnStreams old new [] }
    ensures set_send_window { (bytes : ℕ) (old new : AnInner S)
        → new ≡ with_streams old (record old.space.streams { send = record old.space.streams.send { send_window = bytes } })
        → ((t : List Act) → Follows old t → Follows new t) → IsMadeOnStreams old new [] }
    ensures set_receive_window { (bytes : ℕ) (old new : AnInner S)
        → new ≡ with_streams old (record old.space.streams { recv = record old.space.streams.recv { receive_window = bytes } })
        → ((t : List Act) → Follows old t → Follows new t) → IsMadeOnStreams old new [] }
{}

/// Calls one after another. What is made on streams is made without a datagram, and that is made.
pub fn made_together<S>()
    ensures none { (c : AnInner S) → AreMadeOnStreams c c [] }
    ensures one { (old new : AnInner S) (acts : List Act) → IsMadeOnStreams old new acts → AreMadeOnStreams old new acts }
    ensures both { (old mid new : AnInner S) (acts more : List Act) → AreMadeOnStreams old mid acts → AreMadeOnStreams mid new more → AreMadeOnStreams old new (acts ++ more) }
    ensures streams { (old new : AnInner S) (acts : List Act) → AreMadeOnStreams old new acts → AreMadeLocally old new acts }
    ensures one_local { (old new : AnInner S) (acts : List Act) → IsMadeLocally old new acts → AreMadeLocally old new acts }
    ensures both_local { (old mid new : AnInner S) (acts more : List Act) → AreMadeLocally old mid acts → AreMadeLocally mid new more → AreMadeLocally old new (acts ++ more) }
    ensures local { (accepts : AcceptsTags S) (sealed : MakesTagsOf S) (old new : AnInner S) (acts : List Act) → AreMadeLocally old new acts → AreMade accepts sealed old new acts }
    ensures one_of_all { (accepts : AcceptsTags S) (sealed : MakesTagsOf S) (old new : AnInner S) (acts : List Act) → IsMade accepts sealed old new acts → AreMade accepts sealed old new acts }
    ensures both_of_all { (accepts : AcceptsTags S) (sealed : MakesTagsOf S) (old mid new : AnInner S) (acts more : List Act) → AreMade accepts sealed old mid acts
        → AreMade accepts sealed mid new more → AreMade accepts sealed old new (acts ++ more) }
    ensures follows { (accepts : AcceptsTags S) (sealed : MakesTagsOf S) (old new : AnInner S) (acts t : List Act) → AreMade accepts sealed old new acts → Follows old t → Follows new (t ++ acts) }
    ensures same { (accepts : AcceptsTags S) (sealed : MakesTagsOf S) (old new : AnInner S) (acts : List Act) → AreMade accepts sealed old new acts → IsSameEnd old new × (new.session ≡ old.session) }
{}
