ghost use Rattle.std.specs.Prelude.{◌≡◌, ◌⊎◌, ◌<◌, ◌≤◌, ◌++◌, [], ℕ, length, ℤ, Bool, List, Option, None, Some, Result, Ok, take, true, false, OnOk, OnErr, IfOk, IfErr, IfSome};
ghost use Rattle.std.specs.List.{concat};
ghost use Rattle.qh_base.specs.declared.connection_error.ConnectionError.{ConnectionError as AnError};
ghost use Rattle.qh_base.specs.declared.memory.Memory.{Memory as OutOfMemory};
ghost use Rattle.qh_base.specs.declared.path.Transmit.{Transmit as ATransmit};
ghost use Rattle.qh_base.specs.declared.stream_id.StreamId.{StreamId as AStreamId};
ghost use Rattle.qh_base.specs.declared.time.Moment.{Moment as AMoment};
ghost use Rattle.qh_buffers.specs.declared.assembler.Chunk.{Chunk as AChunk};
ghost use Rattle.qh_core.specs.Event.{IsDrainedTold, IsPolledEvent};
ghost use Rattle.qh_core.specs.Follows.{event_acts, transmit_acts, write_acts, write_chunks_acts, finish_acts, reset_by_acts, stop_acts, take_acts, received_reset_acts};
ghost use Rattle.qh_core.specs.Inner.{IsFailedBy, IsNewSpace, is_open, with_streams};
ghost use Rattle.qh_core.specs.Made.{AcceptsTags, MakesTagsOf, AreMade, IsTurned};
ghost use Rattle.qh_core.specs.Receiving.{IsClosedWith, IsEventTaken, received};
ghost use Rattle.qh_core.specs.Sending.{IsDatagramMade, NothingIsSent};
ghost use Rattle.qh_core.specs.Streams.{IsRead, IsReadFault, IsWriteRefused};
ghost use Rattle.qh_core.specs.Timers.{IsTimedOut};
ghost use Rattle.qh_core.specs.declared.event.ConnectionEvent.{ConnectionEvent as AConnectionEvent};
ghost use Rattle.qh_core.specs.declared.event.EndpointEvent.{EndpointEvent as AnEndpointEvent};
ghost use Rattle.qh_core.specs.declared.event.Event.{Event as AnEvent};
ghost use Rattle.qh_core.specs.declared.fault.TakeFault.{TakeFault as ATakeFault};
ghost use Rattle.qh_core.specs.declared.inner.Inner.{Inner as AnInner};
ghost use Rattle.qh_core.specs.declared.state.Close.{Close as AClose};
ghost use Rattle.qh_half.specs.declared.fault.ClosedStream.{ClosedStream as AClosedStream};
ghost use Rattle.qh_half.specs.declared.fault.FinishFault.{FinishFault as AFinishFault};
ghost use Rattle.qh_half.specs.declared.fault.WriteFault.{WriteFault as AWriteFault};
ghost use Rattle.qh_half.specs.declared.send.Written.{Written as AWritten};
ghost use Rattle.qh_halves.specs.Counts.{other_side};
ghost use Rattle.qh_halves.specs.RecvHalves.{IsRecvStep, Stops, TakesReset, is_closed_at};
ghost use Rattle.qh_halves.specs.SendHalves.{send_at, finish_fault_at, is_reset_refused_at, IsStep, Takes, Finishes, IsResetWith, HasPriority};
ghost use Rattle.qh_owing.specs.Owing.{IsConfirmed, KeepsWhatIsOwed, Owes};
ghost use Rattle.qh_packet.specs.Session.{AcceptsTag, MakesTags, NamesTags};
ghost use Rattle.qh_spec.specs.StreamId.{stream_id};
ghost use Rattle.qh_spec.specs.Transcript.{Act, finished, was_reset};
ghost use Rattle.qh_spec.specs.declared.sides.Dir.{Dir as ADir};
ghost use Rattle.qh_spec.specs.declared.sides.Side.{Side as ASide};
ghost use Rattle.qh_spec.specs.declared.sides.Space.{Space as ASpace};
ghost use Rattle.qh_streams.specs.Streams.{IsOpened, counted_closed, counts_of, is_live, is_two_way, with_accepted, with_counts};

/// What is owed isn't forgotten (RFC 9000, sections 2.2 and 13.3). While a connection is open, each byte that was written on a stream
/// that wasn't reset, and each end of one that was finished, waits to be sent or is out in a packet, unless an accepted ACK covers a
/// packet that carried it: all that is told by the datagrams that were handed in and out. The accepted packets are those of the datagrams
/// that were handed in: of each datagram the packet that it is, if the session accepts its tag for the peer and the packet's number, and
/// the number was new then (section 12.3). Each call carries that on, as its contract says what it does; the tags of the session have to
/// be tags.
pub fn owing<S>()
    ensures owed { (accepts : AcceptsTag) (c : AnInner S) (t : List Act) → is_open c.state ≡ true → Owes accepts c t → KeepsWhatIsOwed accepts c t }
    ensures confirmed { (accepts : AcceptsTag) (c : AnInner S) (t : List Act) (stream : ℕ) → is_open c.state ≡ true → Owes accepts c t → finished t stream ≡ true → was_reset t stream ≡ false
        → send_at c.space.streams.send stream ≡ None → IsConfirmed accepts c t stream }
    ensures fresh { (accepts : AcceptsTag) (c : AnInner S) → IsNewSpace c.config c.side c.space → Owes accepts c [] }
    ensures event { (accepts : AcceptsTag) (event : AConnectionEvent) (result : Result Unit OutOfMemory) (old new : AnInner S) (t : List Act)
        → NamesTags accepts → OnOk result (IsEventTaken accepts event old new) → OnErr result (IsFailedBy (received event old) new)
        → Owes accepts old t → Owes accepts new (t ++ event_acts event) }
    ensures transmit { (accepts : AcceptsTag) (sealed : ASide → ASpace → ℕ → List ℕ) (now : AMoment) (before after : List ℕ) (result : Result (Option ATransmit) OutOfMemory) (old new : AnInner S) (t : List Act)
        → MakesTags sealed → IfOk result (λ o. IfSome o (λ transmit. IsDatagramMade sealed now old new before after transmit))
        → IfOk result (λ o. o ≡ None → (after ≡ before) × NothingIsSent old new) → OnErr result ((after ≡ before) × IsFailedBy old new)
        → Owes accepts old t → Owes accepts new (t ++ transmit_acts before after result) }
    ensures timeout { (accepts : AcceptsTag) (now : ℕ) (old new : AnInner S) (t : List Act) → IsTimedOut now old new → Owes accepts old t → Owes accepts new t }
    ensures close { (accepts : AcceptsTag) (now : AMoment) (reason : AClose) (error : AnError) (old new : AnInner S) (t : List Act)
        → (is_open old.state ≡ true → IsClosedWith now reason error old new) → (is_open old.state ≡ false → new ≡ old) → Owes accepts old t → Owes accepts new t }
    ensures poll { (accepts : AcceptsTag) (result : Option AnEvent) (old new : AnInner S) (t : List Act) → IsPolledEvent old new result → Owes accepts old t → Owes accepts new t }
    ensures endpoint { (accepts : AcceptsTag) (result : Option AnEndpointEvent) (old new : AnInner S) (t : List Act) → IsDrainedTold old new result → Owes accepts old t → Owes accepts new t }
    ensures turned { (accepts : AcceptsTag) (old new : AnInner S) (t : List Act) → IsTurned old new → Owes accepts old t → Owes accepts new t }
    ensures opens { (accepts : AcceptsTag) (dir : ADir) (result : Result (Option AStreamId) OutOfMemory) (old new : AnInner S) (t : List Act)
        → IfOk result (λ o. IfSome o (λ id. (is_open old.state ≡ true) × (id.0 ≡ stream_id old.space.streams.side dir (counts_of old.space.streams (is_two_way dir)).opened)
        × ((counts_of old.space.streams (is_two_way dir)).opened < (counts_of old.space.streams (is_two_way dir)).max_opened)
        × IsOpened old.space.streams new.space.streams id.0 × (new ≡ with_streams old new.space.streams)))
        → IfOk result (λ o. o ≡ None → (new ≡ old)
        × ((is_open old.state ≡ false) ⊎ ((counts_of old.space.streams (is_two_way dir)).opened ≡ (counts_of old.space.streams (is_two_way dir)).max_opened)))
        → OnErr result (new ≡ old) → Owes accepts old t → Owes accepts new t }
    ensures accepts { (accepts : AcceptsTag) (dir : ADir) (result : Option AStreamId) (old new : AnInner S) (t : List Act)
        → IfSome result (λ id. (id.0 ≡ stream_id (other_side old.space.streams.side) dir (counts_of old.space.streams (is_two_way dir)).accepted)
        × ((counts_of old.space.streams (is_two_way dir)).accepted < (counts_of old.space.streams (is_two_way dir)).arrived)
        × (new ≡ with_streams old (with_counts old.space.streams (is_two_way dir) (with_accepted (counts_of old.space.streams (is_two_way dir))))))
        → (result ≡ None → ((counts_of old.space.streams (is_two_way dir)).accepted ≡ (counts_of old.space.streams (is_two_way dir)).arrived) × (new ≡ old))
        → Owes accepts old t → Owes accepts new t }
    ensures write { (accepts : AcceptsTag) (id : ℕ) (payload : List ℕ) (result : Result ℕ AWriteFault) (old new : AnInner S) (t : List Act)
        → IfOk result (λ n. (is_open old.state ≡ true) × IsStep (Takes (take n payload)) old.space.streams.send new.space.streams.send id n
        × (new ≡ with_streams old (record old.space.streams { send = new.space.streams.send })))
        → IfErr result (λ e. IsWriteRefused id e old new) → Owes accepts old t → Owes accepts new (t ++ write_acts id payload result) }
    ensures write_chunks { (accepts : AcceptsTag) (id : ℕ) (chunks : List (List ℕ)) (result : Result AWritten AWriteFault) (old new : AnInner S) (t : List Act)
        → IfOk result (λ w. (is_open old.state ≡ true) × IsStep (Takes (take w.bytes (concat chunks))) old.space.streams.send new.space.streams.send id w.bytes
        × (new ≡ with_streams old (record old.space.streams { send = new.space.streams.send })))
        → IfErr result (λ e. IsWriteRefused id e old new) → Owes accepts old t → Owes accepts new (t ++ write_chunks_acts id chunks result) }
    ensures finish { (accepts : AcceptsTag) (id : ℕ) (result : Result Unit AFinishFault) (old new : AnInner S) (t : List Act)
        → OnOk result (IsStep Finishes old.space.streams.send new.space.streams.send id 0 × (new ≡ with_streams old (record old.space.streams { send = new.space.streams.send })))
        → IfErr result (λ e. (finish_fault_at old.space.streams.send id ≡ Some e) × (new ≡ old)) → Owes accepts old t → Owes accepts new (t ++ finish_acts id result) }
    ensures reset { (accepts : AcceptsTag) (id code : ℕ) (result : Result Unit AClosedStream) (old new : AnInner S) (t : List Act)
        → OnOk result (IsStep (IsResetWith code) old.space.streams.send new.space.streams.send id 0 × (new ≡ with_streams old (record old.space.streams { send = new.space.streams.send })))
        → OnErr result ((is_reset_refused_at old.space.streams.send id ≡ true) × (new ≡ old)) → Owes accepts old t → Owes accepts new (t ++ reset_by_acts id code result) }
    ensures set_priority { (accepts : AcceptsTag) (id : ℕ) (priority : ℤ) (result : Result Unit AClosedStream) (old new : AnInner S) (t : List Act)
        → OnOk result (IsStep (HasPriority priority) old.space.streams.send new.space.streams.send id 0 × (new ≡ with_streams old (record old.space.streams { send = new.space.streams.send })))
        → OnErr result ((send_at old.space.streams.send id ≡ None) × (new ≡ old)) → Owes accepts old t → Owes accepts new t }
    ensures read { (accepts : AcceptsTag) (id max_length : ℕ) (ordered : Bool) (result : Result (Option AChunk) ATakeFault) (old new : AnInner S) (t : List Act)
        → IfOk result (λ o. IsRead max_length ordered id (Ok o) old.space.streams new.space.streams)
        → IfErr result (λ e. IsReadFault max_length ordered id e old.space.streams new.space.streams)
        → new ≡ with_streams old new.space.streams → Owes accepts old t → Owes accepts new (t ++ take_acts id result) }
    ensures stop { (accepts : AcceptsTag) (id code : ℕ) (result : Result Unit AClosedStream) (old new : AnInner S) (t : List Act)
        → OnOk result (IsRecvStep (Stops code) old.space.streams.recv new.space.streams.recv id 0
        × (new ≡ with_streams old (counted_closed (record old.space.streams { recv = new.space.streams.recv }) id (is_live old.space.streams id))))
        → OnErr result ((is_closed_at old.space.streams.recv id ≡ true) × (new ≡ old)) → Owes accepts old t → Owes accepts new (t ++ stop_acts id code result) }
    ensures received_reset { (accepts : AcceptsTag) (id : ℕ) (result : Result (Option ℕ) AClosedStream) (old new : AnInner S) (t : List Act)
        → IfOk result (λ code. IsRecvStep (TakesReset code) old.space.streams.recv new.space.streams.recv id 0
        × (new ≡ with_streams old (counted_closed (record old.space.streams { recv = new.space.streams.recv }) id (is_live old.space.streams id))))
        → OnErr result ((is_closed_at old.space.streams.recv id ≡ true) × (new ≡ old)) → Owes accepts old t → Owes accepts new (t ++ received_reset_acts id result) }
    ensures set_max_concurrent_streams { (accepts : AcceptsTag) (dir : ADir) (count : ℕ) (old new : AnInner S) (t : List Act)
        → new ≡ with_streams old (with_counts old.space.streams (is_two_way dir) (record (counts_of old.space.streams (is_two_way dir)) { max_concurrent = count }))
        → Owes accepts old t → Owes accepts new t }
    ensures set_send_window { (accepts : AcceptsTag) (bytes : ℕ) (old new : AnInner S) (t : List Act)
        → new ≡ with_streams old (record old.space.streams { send = record old.space.streams.send { send_window = bytes } }) → Owes accepts old t → Owes accepts new t }
    ensures set_receive_window { (accepts : AcceptsTag) (bytes : ℕ) (old new : AnInner S) (t : List Act)
        → new ≡ with_streams old (record old.space.streams { recv = record old.space.streams.recv { receive_window = bytes } }) → Owes accepts old t → Owes accepts new t }
{}

/// So it is over whatever calls are made of a connection whose session's tags are tags.
pub fn owing_on<S>()
    ensures { (accepts : AcceptsTags S) (sealed : MakesTagsOf S) (old new : AnInner S) (acts t : List Act) → NamesTags (accepts old.session) → MakesTags (sealed old.session)
        → AreMade accepts sealed old new acts → Owes (accepts old.session) old t → Owes (accepts old.session) new (t ++ acts) }
{}
