ghost use Rattle.std.specs.Prelude.{◌≡◌, ◌⊎◌, ◌<◌, ◌++◌, ℕ, Bool, true, false, List, [], ◌∷◌, Option, None, Some, Result, IfSome};
ghost use Rattle.qh_base.specs.declared.stream_id.StreamId.{StreamId};
ghost use Rattle.qh_buffers.specs.Ranges.{PlainRange, AreApart, has, is_in};
ghost use Rattle.qh_buffers.specs.SendBuffer.{taken_to, mark_at, is_queued};
ghost use Rattle.qh_buffers.specs.declared.assembler.Chunk.{Chunk};
ghost use Rattle.qh_buffers.specs.declared.send_buffer.Mark.TheVariants.{Acked};
ghost use Rattle.qh_half.specs.Send.{PlainSend, is_finished, is_end_acked, is_end_queued, is_reset, is_reset_queued, owes_reset};
ghost use Rattle.qh_half.specs.declared.fault.ReadFault.{ReadFault};
ghost use Rattle.qh_half.specs.declared.fault.WriteFault.{WriteFault};
ghost use Rattle.qh_halves.specs.Counts.{new_counts, other_side};
ghost use Rattle.qh_halves.specs.RecvHalves.{IsBegunRead, IsRecvStep, Begins};
ghost use Rattle.qh_halves.specs.SendHalves.{send_at};
ghost use Rattle.qh_spec.specs.StreamId.{stream_id};
ghost use Rattle.qh_spec.specs.declared.sides.Dir.{Dir};
ghost use Rattle.qh_streams.specs.Halves.{IsChunk};
ghost use Rattle.qh_streams.specs.Streams.{PlainStreams, AreAcked, AreHanded, AreLost, AreTakenBack, AreWritten, IsAckedFrame, IsHandedOver, IsLostFrame, IsOpened, IsPolled, IsReceived, IsWrittenBy, counted_closed, counts_of, is_live, is_two_way, refusal_of, with_accepted, with_blocked, with_counts, with_peer};
ghost use Rattle.qh_streams.specs.Tracked.{AreAmong, AreTracked, HasByte, HasEnd, HasReset, IsFresh, IsReceivingStep, IsSendingStep, OneIs};
ghost use Rattle.qh_streams.specs.declared.frames.PeerLimits.{PeerLimits};
ghost use Rattle.qh_streams.specs.declared.frames.SentFrame.{SentFrame};
ghost use Rattle.qh_streams.specs.declared.frames.StreamEvent.{StreamEvent};
ghost use Rattle.qh_streams.specs.declared.frames.StreamFrame.{StreamFrame};
ghost use Rattle.qh_streams.specs.declared.halves.ChunksState.{ChunksState};
ghost use Rattle.qh_accounts.specs.Accounts.{AreAccounted, is_live_at};
ghost use Rattle.qh_accounts.specs.Carried.{AreCarried, carried_to};

/// Numbers without a gap are one range: ranges that stand apart and have exactly the numbers from a start on to before an end are that
/// range alone, and no range if they have no number.
pub fn one_range()
    ensures none { (rs : List PlainRange) → AreApart 0 rs → ((k : ℕ) → has rs k ≡ false) → rs ≡ [] }
    ensures one { (rs : List PlainRange) (start end : ℕ) → AreApart 0 rs → start < end
        → ((k : ℕ) → has rs k ≡ is_in (record { start = start; end = end }) k) → rs ≡ record { start = start; end = end } ∷ [] }
{}

/// The peer's streams that arrived are the closed ones and the live ones, of each direction (RFC 9000, sections 2.1 and 4.6). It holds
/// at first, and each relation carries it on by which a contract of `Streams`, of a half or of a reader tells the streams after a
/// call. So all of them are closed exactly if none is live.
pub fn accounted()
    ensures all_closed { (s : PlainStreams) (dir : Dir) → AreAccounted s → ((index : ℕ) → is_live_at s dir index ≡ false)
        → (counts_of s (is_two_way dir)).closed ≡ (counts_of s (is_two_way dir)).arrived }
    ensures not_all_closed { (s : PlainStreams) (dir : Dir) (index : ℕ) → AreAccounted s → is_live_at s dir index ≡ true
        → (counts_of s (is_two_way dir)).closed < (counts_of s (is_two_way dir)).arrived }
    ensures fresh { (s : PlainStreams) (max_bidi max_uni : ℕ) → IsFresh s → s.bi ≡ new_counts max_bidi → s.uni ≡ new_counts max_uni
        → AreAccounted s }
    ensures peer { (old new : PlainStreams) (peer : PeerLimits) → new ≡ with_peer old peer → AreAccounted old → AreAccounted new }
    ensures max_concurrent { (old new : PlainStreams) (dir : Dir) (count : ℕ)
        → new ≡ with_counts old (is_two_way dir) (record (counts_of old (is_two_way dir)) { max_concurrent = count })
        → AreAccounted old → AreAccounted new }
    ensures send_window { (old new : PlainStreams) (bytes : ℕ) → new ≡ record old { send = record old.send { send_window = bytes } }
        → AreAccounted old → AreAccounted new }
    ensures receive_window { (old new : PlainStreams) (bytes : ℕ)
        → new ≡ record old { recv = record old.recv { receive_window = bytes } } → AreAccounted old → AreAccounted new }
    ensures accepted { (old new : PlainStreams) (dir : Dir) (result : Option StreamId)
        → IfSome result (λ id. (id.0 ≡ stream_id (other_side old.side) dir (counts_of old (is_two_way dir)).accepted)
        × ((counts_of old (is_two_way dir)).accepted < (counts_of old (is_two_way dir)).arrived)
        × (new ≡ with_counts old (is_two_way dir) (with_accepted (counts_of old (is_two_way dir)))))
        → (result ≡ None → ((counts_of old (is_two_way dir)).accepted ≡ (counts_of old (is_two_way dir)).arrived) × (new ≡ old))
        → AreAccounted old → AreAccounted new }
    ensures opened { (old new : PlainStreams) (dir : Dir) (id : ℕ) → id ≡ stream_id old.side dir (counts_of old (is_two_way dir)).opened
        → IsOpened old new id → AreAccounted old → AreAccounted new }
    ensures received { (old new : PlainStreams) (frame : StreamFrame) → IsReceived old new frame → refusal_of old frame ≡ None
        → AreAccounted old → AreAccounted new }
    ensures sending { (old new : PlainStreams) (id : ℕ) → IsSendingStep old.send new.send id → new ≡ record old { send = new.send }
        → AreAccounted old → AreAccounted new }
    ensures blocked { (old new : PlainStreams) (id : ℕ) (fault : WriteFault) → new ≡ with_blocked old id fault
        → AreAccounted old → AreAccounted new }
    ensures begun { (old new : PlainStreams) (id : ℕ) (ordered : Bool) → IsRecvStep (Begins ordered) old.recv new.recv id 0
        → new ≡ record old { recv = new.recv } → AreAccounted old → AreAccounted new }
    ensures receiving { (old new : PlainStreams) (id : ℕ) → IsReceivingStep old.recv new.recv id
        → new ≡ counted_closed (record old { recv = new.recv }) id (is_live old id) → AreAccounted old → AreAccounted new }
    ensures read { (old new : PlainStreams) (id max_length : ℕ) (ordered : Bool) (answer : Result (Option Chunk) ReadFault)
        → IsBegunRead max_length ordered answer old.recv new.recv id
        → new ≡ counted_closed (record old { recv = new.recv }) id (is_live old id) → AreAccounted old → AreAccounted new }
    ensures chunk { (old new : PlainStreams) (id max_length : ℕ) (before after : ChunksState) (result : Result (Option Chunk) ReadFault)
        → IsChunk old new id max_length before after result → AreAccounted old → AreAccounted new }
    ensures polled { (old new : PlainStreams) (event : Option StreamEvent) → IsPolled old new event → AreAccounted old → AreAccounted new }
    ensures handed { (old new : PlainStreams) (room : ℕ) (frame : SentFrame) → IsHandedOver old new room frame
        → AreAccounted old → AreAccounted new }
    ensures handed_all { (old new : PlainStreams) (frames : List SentFrame) → AreHanded old new frames → AreAccounted old → AreAccounted new }
    ensures written { (room : ℕ) (old new : PlainStreams) (frames : List SentFrame) (bytes : List ℕ) → AreWritten room old new frames bytes
        → AreAccounted old → AreAccounted new }
    ensures written_by { (room : ℕ) (old new : PlainStreams) (bytes_old bytes_new : List ℕ) (sent_old sent_new : List SentFrame)
        → IsWrittenBy room old new bytes_old bytes_new sent_old sent_new → AreAccounted old → AreAccounted new }
    ensures taken_back { (old new : PlainStreams) → AreTakenBack old new → AreAccounted old → AreAccounted new }
    ensures lost { (old new : PlainStreams) (frame : SentFrame) → IsLostFrame old new frame → AreAccounted old → AreAccounted new }
    ensures lost_all { (old new : PlainStreams) (frames : List SentFrame) → AreLost old new frames → AreAccounted old → AreAccounted new }
    ensures acked { (old new : PlainStreams) (frame : SentFrame) → IsAckedFrame old new frame → AreAccounted old → AreAccounted new }
    ensures acked_all { (old new : PlainStreams) (frames : List SentFrame) → AreAcked old new frames → AreAccounted old → AreAccounted new }
{}

/// Each byte that was written on a stream that wasn't reset is acknowledged, waits to be sent, or stands in one of the frames that
/// are out; so does the end of a stream that was finished, and the reset of one that was reset. `frames` are those of `tracked`: they
/// were written, and nothing was told of them.
pub fn settled_or_out()
    ensures bytes { (s : PlainStreams) (frames : List SentFrame) (id n : ℕ) (h : PlainSend) → AreTracked s frames
        → send_at s.send id ≡ Some h → is_reset h.state ≡ false → n < taken_to h.buffer
        → (mark_at h.buffer n ≡ Some Acked) ⊎ ((is_queued h.buffer n ≡ true) ⊎ OneIs (HasByte id n) frames) }
    ensures ends { (s : PlainStreams) (frames : List SentFrame) (id : ℕ) (h : PlainSend) → AreTracked s frames
        → send_at s.send id ≡ Some h → is_finished h.state ≡ true
        → (is_end_acked h.state ≡ true) ⊎ ((is_end_queued h.state ≡ true) ⊎ OneIs (HasEnd id) frames) }
    ensures resets { (s : PlainStreams) (frames : List SentFrame) (id : ℕ) (h : PlainSend) → AreTracked s frames
        → send_at s.send id ≡ Some h → is_reset h.state ≡ true
        → (owes_reset h.state ≡ false) ⊎ ((is_reset_queued h.state ≡ true) ⊎ OneIs (HasReset id) frames) }
{}

/// What STREAM frames carried of a stream is a prefix of it (RFC 9000, section 2.2): the bytes in them are all bytes before some
/// offset, and each byte that was written on a stream that wasn't reset, and doesn't wait to be sent, is among them. `frames` are all
/// frames that were written since `Streams` was new, in a list that only grows; what a call handed over and took back is none of
/// them. Frames that are acknowledged are among them.
pub fn carried()
    ensures before { (s : PlainStreams) (frames : List SentFrame) (id n : ℕ) → AreCarried s frames
        → (n < carried_to id frames → OneIs (HasByte id n) frames) × (OneIs (HasByte id n) frames → n < carried_to id frames) }
    ensures sent { (s : PlainStreams) (frames : List SentFrame) (id n : ℕ) (h : PlainSend) → AreCarried s frames
        → send_at s.send id ≡ Some h → is_reset h.state ≡ false → n < taken_to h.buffer → is_queued h.buffer n ≡ false
        → OneIs (HasByte id n) frames }
    ensures any_order { (s : PlainStreams) (frames others : List SentFrame) → AreAmong frames others → AreAmong others frames
        → AreCarried s frames → AreCarried s others }
    ensures fresh { (s : PlainStreams) → IsFresh s → AreCarried s [] }
    ensures handed { (old new : PlainStreams) (room : ℕ) (frame : SentFrame) (frames : List SentFrame) → IsHandedOver old new room frame
        → AreCarried old frames → AreCarried new (frame ∷ frames) }
    ensures handed_all { (old new : PlainStreams) (more frames : List SentFrame) → AreHanded old new more
        → AreCarried old frames → AreCarried new (frames ++ more) }
    ensures written { (room : ℕ) (old new : PlainStreams) (more frames : List SentFrame) (bytes : List ℕ)
        → AreWritten room old new more bytes → AreCarried old frames → AreCarried new (frames ++ more) }
    ensures written_by { (room : ℕ) (old new : PlainStreams) (bytes_old bytes_new : List ℕ) (sent_old sent_new frames : List SentFrame)
        → IsWrittenBy room old new bytes_old bytes_new sent_old sent_new → AreCarried old (frames ++ sent_old)
        → AreCarried new (frames ++ sent_new) }
    ensures taken_back { (old new : PlainStreams) (frames : List SentFrame) → AreTakenBack old new
        → AreCarried old frames → AreCarried new frames }
    ensures lost { (old new : PlainStreams) (frame : SentFrame) (frames : List SentFrame) → IsLostFrame old new frame
        → AreCarried old frames → AreCarried new frames }
    ensures lost_all { (old new : PlainStreams) (lost frames : List SentFrame) → AreLost old new lost
        → AreCarried old frames → AreCarried new frames }
    ensures acked { (old new : PlainStreams) (acked frames : List SentFrame) → AreAmong acked frames → AreAcked old new acked
        → AreCarried old frames → AreCarried new frames }
    ensures peer { (old new : PlainStreams) (peer : PeerLimits) (frames : List SentFrame) → new ≡ with_peer old peer
        → AreCarried old frames → AreCarried new frames }
    ensures max_concurrent { (old new : PlainStreams) (dir : Dir) (count : ℕ) (frames : List SentFrame)
        → new ≡ with_counts old (is_two_way dir) (record (counts_of old (is_two_way dir)) { max_concurrent = count })
        → AreCarried old frames → AreCarried new frames }
    ensures send_window { (old new : PlainStreams) (bytes : ℕ) (frames : List SentFrame)
        → new ≡ record old { send = record old.send { send_window = bytes } } → AreCarried old frames → AreCarried new frames }
    ensures receive_window { (old new : PlainStreams) (bytes : ℕ) (frames : List SentFrame)
        → new ≡ record old { recv = record old.recv { receive_window = bytes } } → AreCarried old frames → AreCarried new frames }
    ensures accepted { (old new : PlainStreams) (dir : Dir) (result : Option StreamId) (frames : List SentFrame)
        → IfSome result (λ id. (id.0 ≡ stream_id (other_side old.side) dir (counts_of old (is_two_way dir)).accepted)
        × ((counts_of old (is_two_way dir)).accepted < (counts_of old (is_two_way dir)).arrived)
        × (new ≡ with_counts old (is_two_way dir) (with_accepted (counts_of old (is_two_way dir)))))
        → (result ≡ None → ((counts_of old (is_two_way dir)).accepted ≡ (counts_of old (is_two_way dir)).arrived) × (new ≡ old))
        → AreCarried old frames → AreCarried new frames }
    ensures opened { (old new : PlainStreams) (id : ℕ) (frames : List SentFrame) → IsOpened old new id
        → AreCarried old frames → AreCarried new frames }
    ensures received { (old new : PlainStreams) (frame : StreamFrame) (frames : List SentFrame) → IsReceived old new frame
        → AreCarried old frames → AreCarried new frames }
    ensures sending { (old new : PlainStreams) (id : ℕ) (frames : List SentFrame) → IsSendingStep old.send new.send id
        → AreCarried old frames → AreCarried new frames }
    ensures blocked { (old new : PlainStreams) (id : ℕ) (fault : WriteFault) (frames : List SentFrame) → new ≡ with_blocked old id fault
        → AreCarried old frames → AreCarried new frames }
    ensures begun { (old new : PlainStreams) (frames : List SentFrame) → new ≡ record old { recv = new.recv }
        → AreCarried old frames → AreCarried new frames }
    ensures receiving { (old new : PlainStreams) (id : ℕ) (frames : List SentFrame)
        → new ≡ counted_closed (record old { recv = new.recv }) id (is_live old id) → AreCarried old frames → AreCarried new frames }
    ensures chunk { (old new : PlainStreams) (id max_length : ℕ) (before after : ChunksState) (result : Result (Option Chunk) ReadFault)
        (frames : List SentFrame) → IsChunk old new id max_length before after result → AreCarried old frames → AreCarried new frames }
    ensures polled { (old new : PlainStreams) (event : Option StreamEvent) (frames : List SentFrame) → IsPolled old new event
        → AreCarried old frames → AreCarried new frames }
{}
