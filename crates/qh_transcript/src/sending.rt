ghost use Rattle.std.specs.Prelude.{◌≡◌, ℕ, ℤ, ◌++◌, List, [], ◌∷◌, None, false};
ghost use Rattle.qh_halves.specs.SendHalves.{IsStep, Takes, Finishes, IsResetWith, HasPriority, write_fault_at};
ghost use Rattle.qh_spec.specs.Lists.{In};
ghost use Rattle.qh_spec.specs.QuicFrame.{StreamFrame as Run};
ghost use Rattle.qh_spec.specs.StreamId.{stream_id};
ghost use Rattle.qh_spec.specs.Transcript.{Act, Wrote, Finished, Reset};
ghost use Rattle.qh_spec.specs.declared.sides.Dir.{Dir};
ghost use Rattle.qh_streams.specs.Streams.{PlainStreams, AreWritten, AreLost, AreAcked, IsLostFrame, AreTakenBack, IsOpened, IsReceived, counts_of, is_two_way, refusal_of, was_opened};
ghost use Rattle.qh_streams.specs.Tracked.{IsFresh};
ghost use Rattle.qh_streams.specs.declared.frames.SentFrame.{SentFrame};
ghost use Rattle.qh_streams.specs.declared.frames.StreamFrame.{StreamFrame};
ghost use Rattle.qh_transcript.specs.Sending.{StandsOut, StandsBehind, WriteNothing};

/// What is sent of a stream is what was written there: each byte at its offset, and an end only behind all of them. `sent`
/// are the runs of the STREAM frames that were sent, `t` is all that was done. Each call and each frame carries it on.
pub fn sends_what_was_written()
    ensures fresh { (s : PlainStreams) → IsFresh s → StandsOut s [] [] }
    ensures fewer { (s : PlainStreams) (sent fewer : List Run) (t : List Act) → ((run : Run) → In run fewer → In run sent) → StandsOut s sent t → StandsOut s fewer t }
    ensures others { (s : PlainStreams) (sent : List Run) (t u : List Act) → WriteNothing u → StandsOut s sent t → StandsOut s sent (t ++ u) }
    ensures wrote { (old new : PlainStreams) (sent : List Run) (t : List Act) (id taken : ℕ) (bytes : List ℕ) → write_fault_at old.send id ≡ None
        → IsStep (Takes bytes) old.send new.send id taken → new ≡ record old { send = new.send } → StandsOut old sent t → StandsOut new sent (t ++ Wrote id bytes ∷ []) }
    ensures finished { (old new : PlainStreams) (sent : List Run) (t : List Act) (id : ℕ)
        → IsStep Finishes old.send new.send id 0 → new ≡ record old { send = new.send } → StandsOut old sent t → StandsOut new sent (t ++ Finished id ∷ []) }
    ensures reset { (old new : PlainStreams) (sent : List Run) (t : List Act) (id code : ℕ)
        → IsStep (IsResetWith code) old.send new.send id 0 → new ≡ record old { send = new.send } → StandsOut old sent t → StandsOut new sent (t ++ Reset id code ∷ []) }
    ensures priority { (old new : PlainStreams) (sent : List Run) (t : List Act) (id : ℕ) (priority : ℤ)
        → IsStep (HasPriority priority) old.send new.send id 0 → new ≡ record old { send = new.send } → StandsOut old sent t → StandsOut new sent t }
    ensures opened { (old new : PlainStreams) (sent : List Run) (t : List Act) (id : ℕ) (dir : Dir) → id ≡ stream_id old.side dir (counts_of old (is_two_way dir)).opened
        → IsOpened old new id → StandsOut old sent t → StandsOut new sent t }
    ensures received { (old new : PlainStreams) (sent : List Run) (t : List Act) (frame : StreamFrame) → refusal_of old frame ≡ None
        → IsReceived old new frame → StandsOut old sent t → StandsOut new sent t }
    ensures written { (room : ℕ) (old new : PlainStreams) (sent : List Run) (t : List Act) (frames : List SentFrame) (bytes : List ℕ)
        → AreWritten room old new frames bytes → StandsOut old sent t → StandsBehind new sent t bytes }
    ensures taken_back { (old new : PlainStreams) (sent : List Run) (t : List Act) → AreTakenBack old new → StandsOut old sent t → StandsOut new sent t }
    ensures again { (old new : PlainStreams) (sent : List Run) (t : List Act) (frame : SentFrame) → IsLostFrame old new frame → StandsOut old sent t → StandsOut new sent t }
    ensures lost { (old new : PlainStreams) (sent : List Run) (t : List Act) (frames : List SentFrame) → AreLost old new frames → StandsOut old sent t → StandsOut new sent t }
    ensures acked { (old new : PlainStreams) (sent : List Run) (t : List Act) (frames : List SentFrame) → AreAcked old new frames → StandsOut old sent t → StandsOut new sent t }
    ensures kept { (old new : PlainStreams) (sent : List Run) (t : List Act) → new.send.halves ≡ old.send.halves
        → ((id : ℕ) → was_opened new id ≡ was_opened old id) → StandsOut old sent t → StandsOut new sent t }
{}
