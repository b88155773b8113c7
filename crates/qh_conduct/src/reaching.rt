ghost use Rattle.std.specs.Prelude.{◌≡◌, ◌++◌, ◌<◌, ◌≤◌, [], ℕ, Bool, List, Option, Result, Some, bytes_eq, length, true};
ghost use Rattle.qh_base.specs.declared.connection_error.ConnectionError.TheVariants.{LocallyClosed, Memory};
ghost use Rattle.qh_base.specs.declared.path.Transmit.{Transmit as ATransmit};
ghost use Rattle.qh_base.specs.declared.time.Moment.{Moment as AMoment};
ghost use Rattle.qh_buffers.specs.declared.assembler.Chunk.{Chunk};
ghost use Rattle.qh_conduct.specs.Reached.{AreNamed, HasNothingYet, HasReached, IsUntouched, Reached};
ghost use Rattle.qh_core.specs.Event.{IsDrainedTold, IsPolledEvent};
ghost use Rattle.qh_core.specs.Follows.{event_acts};
ghost use Rattle.qh_core.specs.Inner.{IsFailedBy, is_open, with_streams};
ghost use Rattle.qh_core.specs.Receiving.{IsClosedWith, IsEventTaken};
ghost use Rattle.qh_core.specs.Sending.{IsDatagramMade, NothingIsSent};
ghost use Rattle.qh_core.specs.Streams.{IsRead, IsReadFault, IsWriteRefused};
ghost use Rattle.qh_core.specs.Timers.{IsTimedOut};
ghost use Rattle.qh_core.specs.declared.event.ConnectionEvent.{ConnectionEvent as AnEvent};
ghost use Rattle.qh_core.specs.declared.event.EndpointEvent.{EndpointEvent as AToldEndpoint};
ghost use Rattle.qh_core.specs.declared.event.Event.{Event as ATold};
ghost use Rattle.qh_core.specs.declared.fault.TakeFault.{TakeFault as ATakeFault};
ghost use Rattle.qh_core.specs.declared.inner.Inner.{Inner as AnInner};
ghost use Rattle.qh_core.specs.declared.state.Close.{Close as AClose};
ghost use Rattle.qh_half.specs.declared.fault.ReadFault.{ReadFault};
ghost use Rattle.qh_half.specs.declared.fault.WriteFault.{WriteFault};
ghost use Rattle.qh_halves.specs.RecvHalves.{IsRecvStep, Stops, TakesReset};
ghost use Rattle.qh_spec.specs.StreamId.{stream_id};
ghost use Rattle.qh_spec.specs.Tag.{tag_bytes};
ghost use Rattle.qh_spec.specs.Transcript.{Act};
ghost use Rattle.qh_spec.specs.declared.sides.Dir.{Dir as ADir};
ghost use Rattle.qh_spec.specs.declared.sides.Side.{Side as ASide};
ghost use Rattle.qh_spec.specs.declared.sides.Space.{Space as ASpace};
ghost use Rattle.qh_streams.specs.Streams.{PlainStreams, IsOpened, counted_closed, counts_of, is_live, is_two_way, with_accepted, with_counts};

/// What a connection knows of its streams came in datagrams, unless want of memory ended it: how far each stream reaches, and all
/// that was received is the sum of that; each final size; and that there are so many streams of the peer's. Each call carries it on,
/// as its contract says what it does. An event is taken by a session that accepts a tag only where it names the sender, the space and
/// the number (`plain`: so does a session without a cipher). More acts take nothing of it.
pub fn reached<S>()
    ensures fresh { (c : AnInner S) → HasNothingYet c.side c.space.streams → HasReached c [] }
    ensures acts { (c : AnInner S) (t more : List Act) → HasReached c t → HasReached c (t ++ more) }
    ensures event { (accepts : ASide → ASpace → ℕ → List ℕ → Bool) (event : AnEvent) (old new : AnInner S) (t : List Act) → AreNamed accepts → IsEventTaken accepts event old new
        → HasReached old t → HasReached new (t ++ event_acts event) }
    ensures failed { (old new : AnInner S) (t : List Act) → IsFailedBy old new → HasReached new t }
    ensures made { (sealed : ASide → ASpace → ℕ → List ℕ) (now : AMoment) (old new : AnInner S) (before after : List ℕ) (transmit : ATransmit) (t : List Act)
        → IsDatagramMade sealed now old new before after transmit → HasReached old t → HasReached new t }
    ensures none { (old new : AnInner S) (t : List Act) → NothingIsSent old new → HasReached old t → HasReached new t }
    ensures timeout { (now : ℕ) (old new : AnInner S) (t : List Act) → IsTimedOut now old new → HasReached old t → HasReached new t }
    ensures polled { (old new : AnInner S) (o : Option ATold) (t : List Act) → IsPolledEvent old new o → HasReached old t → HasReached new t }
    ensures told { (old new : AnInner S) (o : Option AToldEndpoint) (t : List Act) → IsDrainedTold old new o → HasReached old t → HasReached new t }
    ensures closed { (now : AMoment) (reason : AClose) (old new : AnInner S) (t : List Act) → is_open old.state ≡ true → IsClosedWith now reason LocallyClosed old new
        → HasReached old t → HasReached new t }
    ensures opened { (old new : AnInner S) (id : ℕ) (dir : ADir) (t : List Act) → id ≡ stream_id old.space.streams.side dir (counts_of old.space.streams (is_two_way dir)).opened
        → IsOpened old.space.streams new.space.streams id → new ≡ with_streams old new.space.streams → HasReached old t → HasReached new t }
    ensures accepted { (old new : AnInner S) (dir : ADir) (t : List Act)
        → new ≡ with_streams old (with_counts old.space.streams (is_two_way dir) (with_accepted (counts_of old.space.streams (is_two_way dir)))) → HasReached old t → HasReached new t }
    ensures read { (old new : AnInner S) (max_length : ℕ) (ordered : Bool) (id : ℕ) (answer : Result (Option Chunk) ReadFault) (t : List Act)
        → IsRead max_length ordered id answer old.space.streams new.space.streams → new ≡ with_streams old new.space.streams → HasReached old t → HasReached new t }
    ensures unread { (old new : AnInner S) (max_length : ℕ) (ordered : Bool) (id : ℕ) (fault : ATakeFault) (t : List Act)
        → IsReadFault max_length ordered id fault old.space.streams new.space.streams → new ≡ with_streams old new.space.streams → HasReached old t → HasReached new t }
    ensures stopped { (old new : AnInner S) (id code : ℕ) (t : List Act) → IsRecvStep (Stops code) old.space.streams.recv new.space.streams.recv id 0
        → new ≡ with_streams old (counted_closed (record old.space.streams { recv = new.space.streams.recv }) id (is_live old.space.streams id)) → HasReached old t → HasReached new t }
    ensures told_reset { (old new : AnInner S) (id : ℕ) (code : Option ℕ) (t : List Act) → IsRecvStep (TakesReset code) old.space.streams.recv new.space.streams.recv id 0
        → new ≡ with_streams old (counted_closed (record old.space.streams { recv = new.space.streams.recv }) id (is_live old.space.streams id)) → HasReached old t → HasReached new t }
    ensures written { (old new : AnInner S) (t : List Act) → new ≡ with_streams old (record old.space.streams { send = new.space.streams.send }) → HasReached old t → HasReached new t }
    ensures unwritten { (old new : AnInner S) (id : ℕ) (fault : WriteFault) (t : List Act) → IsWriteRefused id fault old new → HasReached old t → HasReached new t }
    ensures concurrent { (old new : AnInner S) (dir : ADir) (count : ℕ) (t : List Act)
        → new ≡ with_streams old (with_counts old.space.streams (is_two_way dir) (record (counts_of old.space.streams (is_two_way dir)) { max_concurrent = count })) → HasReached old t → HasReached new t }
    ensures window { (old new : AnInner S) (bytes : ℕ) (t : List Act) → new ≡ with_streams old (record old.space.streams { recv = record old.space.streams.recv { receive_window = bytes } })
        → HasReached old t → HasReached new t }
    ensures untouched { (old new : AnInner S) (s : PlainStreams) (t : List Act) → new ≡ with_streams old s → IsUntouched old.space.streams s → HasReached old t → HasReached new t }
    ensures means { (c : AnInner S) (t : List Act) → HasReached c t → (c.error ≡ Some Memory → ⊥) → Reached c t }
    ensures plain { (key_id : List ℕ) → length key_id ≤ 20 → AreNamed (λ from space number tag. bytes_eq tag (tag_bytes key_id from space number)) }
{}
