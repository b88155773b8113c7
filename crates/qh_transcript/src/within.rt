ghost use Rattle.std.specs.Prelude.{◌≡◌, ◌<◌, ◌≤◌, ◌++◌, ℕ, ℤ, Bool, List, [], ◌∷◌, None, false, length};
ghost use Rattle.qh_half.specs.Send.{PlainSend, credit};
ghost use Rattle.qh_halves.specs.SendHalves.{IsStep, Takes, Finishes, IsResetWith, HasPriority, send_at, write_limit};
ghost use Rattle.qh_spec.specs.StreamId.{stream_id};
ghost use Rattle.qh_spec.specs.Transcript.{Act, Wrote, Finished, Reset, written};
ghost use Rattle.qh_spec.specs.declared.sides.Dir.{Dir};
ghost use Rattle.qh_streams.specs.Streams.{PlainStreams, AreWritten, AreLost, AreAcked, IsLostFrame, AreTakenBack, IsOpened, IsReceived, counts_of, is_two_way, refusal_of, was_opened, with_peer};
ghost use Rattle.qh_streams.specs.declared.frames.PeerLimits.{PeerLimits};
ghost use Rattle.qh_streams.specs.declared.frames.SentFrame.{SentFrame};
ghost use Rattle.qh_streams.specs.declared.frames.StreamFrame.{StreamFrame};
ghost use Rattle.qh_transcript.specs.Sending.{WriteNothing};
ghost use Rattle.qh_transcript.specs.Within.{KeepsWithin};

/// An end keeps within the limits that the peer gave before: what was written, and so what was sent, of a stream and of all
/// streams, and the count of streams that it opened (RFC 9000, sections 4.1 and 4.6). `frames` are the frames of the peer's that
/// were taken, `t` is all that was done. Each call and each frame carries it on.
pub fn keeps_within_limits()
    ensures fresh { (s : PlainStreams) (frames : List StreamFrame) (t : List Act) → s.send.halves ≡ [] → s.send.max_data ≡ 0 → s.send.data_sent ≡ 0
        → ((two_way : Bool) → ((counts_of s two_way).opened ≡ 0) × ((counts_of s two_way).max_opened ≡ 0)) → WriteNothing t → KeepsWithin s frames t }
    ensures peer { (s : PlainStreams) (peer : PeerLimits) (frames : List StreamFrame) (t : List Act) → s.send.halves ≡ [] → s.send.max_data ≡ 0 → s.send.data_sent ≡ 0
        → ((two_way : Bool) → ((counts_of s two_way).opened ≡ 0) × ((counts_of s two_way).max_opened ≡ 0)) → WriteNothing t → KeepsWithin (with_peer s peer) frames t }
    ensures wrote { (old new : PlainStreams) (frames : List StreamFrame) (t : List Act) (id taken : ℕ) (bytes : List ℕ) (h : PlainSend) → send_at old.send id ≡ Some h
        → taken ≡ length bytes → taken ≤ credit h (write_limit old.send)
        → IsStep (Takes bytes) old.send new.send id taken → new ≡ record old { send = new.send } → KeepsWithin old frames t → KeepsWithin new frames (t ++ Wrote id bytes ∷ []) }
    ensures others { (s : PlainStreams) (frames : List StreamFrame) (t u : List Act) → WriteNothing u → KeepsWithin s frames t → KeepsWithin s frames (t ++ u) }
    ensures finished { (old new : PlainStreams) (frames : List StreamFrame) (t : List Act) (id : ℕ)
        → IsStep Finishes old.send new.send id 0 → new ≡ record old { send = new.send } → KeepsWithin old frames t → KeepsWithin new frames (t ++ Finished id ∷ []) }
    ensures reset { (old new : PlainStreams) (frames : List StreamFrame) (t : List Act) (id code : ℕ)
        → IsStep (IsResetWith code) old.send new.send id 0 → new ≡ record old { send = new.send } → KeepsWithin old frames t → KeepsWithin new frames (t ++ Reset id code ∷ []) }
    ensures priority { (old new : PlainStreams) (frames : List StreamFrame) (t : List Act) (id : ℕ) (priority : ℤ)
        → IsStep (HasPriority priority) old.send new.send id 0 → new ≡ record old { send = new.send } → KeepsWithin old frames t → KeepsWithin new frames t }
    ensures opened { (old new : PlainStreams) (frames : List StreamFrame) (t : List Act) (id : ℕ) (dir : Dir) → id ≡ stream_id old.side dir (counts_of old (is_two_way dir)).opened
        → (counts_of old (is_two_way dir)).opened < (counts_of old (is_two_way dir)).max_opened → written t id ≡ []
        → IsOpened old new id → KeepsWithin old frames t → KeepsWithin new frames t }
    ensures received { (old new : PlainStreams) (frames : List StreamFrame) (t : List Act) (frame : StreamFrame) → refusal_of old frame ≡ None → ((id : ℕ) → was_opened old id ≡ false → written t id ≡ [])
        → IsReceived old new frame → KeepsWithin old frames t → KeepsWithin new (frame ∷ frames) t }
    ensures written { (room : ℕ) (old new : PlainStreams) (frames : List StreamFrame) (t : List Act) (sent : List SentFrame) (bytes : List ℕ)
        → AreWritten room old new sent bytes → KeepsWithin old frames t → KeepsWithin new frames t }
    ensures taken_back { (old new : PlainStreams) (frames : List StreamFrame) (t : List Act) → AreTakenBack old new → KeepsWithin old frames t → KeepsWithin new frames t }
    ensures again { (old new : PlainStreams) (frames : List StreamFrame) (t : List Act) (frame : SentFrame) → IsLostFrame old new frame → KeepsWithin old frames t → KeepsWithin new frames t }
    ensures lost { (old new : PlainStreams) (frames : List StreamFrame) (t : List Act) (sent : List SentFrame) → AreLost old new sent → KeepsWithin old frames t → KeepsWithin new frames t }
    ensures acked { (old new : PlainStreams) (frames : List StreamFrame) (t : List Act) (sent : List SentFrame) → AreAcked old new sent → KeepsWithin old frames t → KeepsWithin new frames t }
    ensures kept { (old new : PlainStreams) (frames : List StreamFrame) (t : List Act) → new.send ≡ old.send → new.side ≡ old.side → new.peer ≡ old.peer
        → ((two_way : Bool) → ((counts_of new two_way).opened ≡ (counts_of old two_way).opened) × ((counts_of new two_way).max_opened ≡ (counts_of old two_way).max_opened))
        → KeepsWithin old frames t → KeepsWithin new frames t }
{}
