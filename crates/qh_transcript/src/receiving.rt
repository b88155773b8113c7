ghost use Rattle.std.specs.Prelude.{◌≡◌, ℕ, ◌++◌, ◌<◌, Bool, List, [], ◌∷◌, length, Option, Result, Ok, Some, None, false};
ghost use Rattle.qh_buffers.specs.declared.assembler.Chunk.{Chunk};
ghost use Rattle.qh_half.specs.Recv.{PlainRecv};
ghost use Rattle.qh_half.specs.declared.fault.ReadFault.{ReadFault};
ghost use Rattle.qh_halves.specs.RecvHalves.{IsRecvStep, Reads, Begins, Stops, TakesReset, is_closed_at, recv_at};
ghost use Rattle.qh_spec.specs.Lists.{In};
ghost use Rattle.qh_spec.specs.QuicFrame.{StreamFrame as Run};
ghost use Rattle.qh_spec.specs.StreamId.{stream_id};
ghost use Rattle.qh_spec.specs.Transcript.{Act, Stopped, read};
ghost use Rattle.qh_spec.specs.declared.sides.Dir.{Dir};
ghost use Rattle.qh_streams.specs.Streams.{PlainStreams, AreWritten, AreLost, AreAcked, IsLostFrame, AreTakenBack, IsOpened, IsReceived, counts_of, is_two_way, refusal_of, was_opened, counted_closed, is_live};
ghost use Rattle.qh_streams.specs.Tracked.{IsFresh};
ghost use Rattle.qh_streams.specs.declared.frames.SentFrame.{SentFrame};
ghost use Rattle.qh_streams.specs.declared.frames.StreamFrame.{StreamFrame};
ghost use Rattle.qh_transcript.specs.Receiving.{StandsIn, ReadNothing, IsCarried, read_acts, reset_acts};

/// What readers of a stream got is what came of it: each byte at its offset, and an end behind as many bytes as they got.
/// `came` are the runs of the STREAM frames that came, `t` is all that was done. Each call and each frame carries it on.
pub fn gives_what_came()
    ensures fresh { (s : PlainStreams) → IsFresh s → StandsIn s [] [] }
    ensures more { (s : PlainStreams) (came more : List Run) (t : List Act) → ((run : Run) → In run came → In run more) → StandsIn s came t → StandsIn s more t }
    ensures others { (s : PlainStreams) (came : List Run) (t u : List Act) → ReadNothing u → StandsIn s came t → StandsIn s came (t ++ u) }
    ensures received { (old new : PlainStreams) (came : List Run) (t : List Act) (frame : StreamFrame) → refusal_of old frame ≡ None → IsCarried came frame
        → IsReceived old new frame → StandsIn old came t → StandsIn new came t }
    ensures begun { (old new : PlainStreams) (came : List Run) (t : List Act) (id : ℕ) (ordered : Bool)
        → IsRecvStep (Begins ordered) old.recv new.recv id 0 → new ≡ record old { recv = new.recv } → StandsIn old came t → StandsIn new came t }
    ensures read { (old new : PlainStreams) (came : List Run) (t : List Act) (id max_length : ℕ) (answer : Result (Option Chunk) ReadFault) → is_closed_at old.recv id ≡ false
        → IsRecvStep (Reads max_length answer) old.recv new.recv id 0 → new ≡ counted_closed (record old { recv = new.recv }) id (is_live old id)
        → StandsIn old came t → StandsIn new came (t ++ read_acts id answer) }
    ensures in_order { (old new : PlainStreams) (came : List Run) (t : List Act) (id max_length : ℕ) (c : Chunk) (r : PlainRecv)
        → IsRecvStep (Reads max_length (Ok (Some c))) old.recv new.recv id 0 → recv_at old.recv id ≡ Some r → r.is_unordered ≡ false → 0 < length c.bytes
        → StandsIn old came t → c.offset ≡ length (read t id) }
    ensures stopped { (old new : PlainStreams) (came : List Run) (t : List Act) (id code : ℕ)
        → IsRecvStep (Stops code) old.recv new.recv id 0 → new ≡ counted_closed (record old { recv = new.recv }) id (is_live old id)
        → StandsIn old came t → StandsIn new came (t ++ Stopped id code ∷ []) }
    ensures told_reset { (old new : PlainStreams) (came : List Run) (t : List Act) (id : ℕ) (code : Option ℕ)
        → IsRecvStep (TakesReset code) old.recv new.recv id 0 → new ≡ counted_closed (record old { recv = new.recv }) id (is_live old id)
        → StandsIn old came t → StandsIn new came (t ++ reset_acts id code) }
    ensures opened { (old new : PlainStreams) (came : List Run) (t : List Act) (id : ℕ) (dir : Dir) → id ≡ stream_id old.side dir (counts_of old (is_two_way dir)).opened
        → IsOpened old new id → StandsIn old came t → StandsIn new came t }
    ensures written { (room : ℕ) (old new : PlainStreams) (came : List Run) (t : List Act) (frames : List SentFrame) (bytes : List ℕ)
        → AreWritten room old new frames bytes → StandsIn old came t → StandsIn new came t }
    ensures taken_back { (old new : PlainStreams) (came : List Run) (t : List Act) → AreTakenBack old new → StandsIn old came t → StandsIn new came t }
    ensures again { (old new : PlainStreams) (came : List Run) (t : List Act) (frame : SentFrame) → IsLostFrame old new frame → StandsIn old came t → StandsIn new came t }
    ensures lost { (old new : PlainStreams) (came : List Run) (t : List Act) (frames : List SentFrame) → AreLost old new frames → StandsIn old came t → StandsIn new came t }
    ensures acked { (old new : PlainStreams) (came : List Run) (t : List Act) (frames : List SentFrame) → AreAcked old new frames → StandsIn old came t → StandsIn new came t }
    ensures kept { (old new : PlainStreams) (came : List Run) (t : List Act) → new.recv.halves ≡ old.recv.halves
        → ((id : ℕ) → was_opened new id ≡ was_opened old id) → StandsIn old came t → StandsIn new came t }
{}
