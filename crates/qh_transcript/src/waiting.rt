ghost use Rattle.std.specs.Prelude.{◌≡◌, ℕ, ◌++◌, Bool, List, [], Option, Result, None};
ghost use Rattle.qh_buffers.specs.declared.assembler.Chunk.{Chunk};
ghost use Rattle.qh_half.specs.declared.fault.ReadFault.{ReadFault};
ghost use Rattle.qh_halves.specs.RecvHalves.{IsRecvStep, Reads, Begins, Stops, TakesReset};
ghost use Rattle.qh_spec.specs.QuicFrame.{StreamFrame as Run};
ghost use Rattle.qh_spec.specs.StreamId.{stream_id};
ghost use Rattle.qh_spec.specs.declared.sides.Dir.{Dir};
ghost use Rattle.qh_streams.specs.Streams.{PlainStreams, AreWritten, AreLost, AreAcked, IsLostFrame, AreTakenBack, IsOpened, IsReceived, counts_of, is_two_way, refusal_of, was_opened, counted_closed, is_live};
ghost use Rattle.qh_streams.specs.Tracked.{IsFresh};
ghost use Rattle.qh_streams.specs.declared.frames.SentFrame.{SentFrame};
ghost use Rattle.qh_streams.specs.declared.frames.StreamFrame.{StreamFrame};
ghost use Rattle.qh_transcript.specs.Waiting.{KeepsWhatCame, runs_in};

/// What came of a stream isn't lost: each byte was given to its reader or waits to be, and its end is known, until the stream is
/// stopped or reset. `came` are the runs of the STREAM frames that came. Each call and each frame carries it on.
pub fn keeps_what_came()
    ensures fresh { (s : PlainStreams) → IsFresh s → KeepsWhatCame s [] }
    ensures received { (old new : PlainStreams) (came : List Run) (frame : StreamFrame) → refusal_of old frame ≡ None
        → IsReceived old new frame → KeepsWhatCame old came → KeepsWhatCame new (came ++ runs_in frame) }
    ensures begun { (old new : PlainStreams) (came : List Run) (id : ℕ) (ordered : Bool)
        → IsRecvStep (Begins ordered) old.recv new.recv id 0 → new ≡ record old { recv = new.recv } → KeepsWhatCame old came → KeepsWhatCame new came }
    ensures read { (old new : PlainStreams) (came : List Run) (id max_length : ℕ) (answer : Result (Option Chunk) ReadFault)
        → IsRecvStep (Reads max_length answer) old.recv new.recv id 0 → new ≡ counted_closed (record old { recv = new.recv }) id (is_live old id)
        → KeepsWhatCame old came → KeepsWhatCame new came }
    ensures stopped { (old new : PlainStreams) (came : List Run) (id code : ℕ)
        → IsRecvStep (Stops code) old.recv new.recv id 0 → new ≡ counted_closed (record old { recv = new.recv }) id (is_live old id)
        → KeepsWhatCame old came → KeepsWhatCame new came }
    ensures told_reset { (old new : PlainStreams) (came : List Run) (id : ℕ) (code : Option ℕ)
        → IsRecvStep (TakesReset code) old.recv new.recv id 0 → new ≡ counted_closed (record old { recv = new.recv }) id (is_live old id)
        → KeepsWhatCame old came → KeepsWhatCame new came }
    ensures opened { (old new : PlainStreams) (came : List Run) (id : ℕ) (dir : Dir) → id ≡ stream_id old.side dir (counts_of old (is_two_way dir)).opened
        → IsOpened old new id → KeepsWhatCame old came → KeepsWhatCame new came }
    ensures written { (room : ℕ) (old new : PlainStreams) (came : List Run) (frames : List SentFrame) (bytes : List ℕ)
        → AreWritten room old new frames bytes → KeepsWhatCame old came → KeepsWhatCame new came }
    ensures taken_back { (old new : PlainStreams) (came : List Run) → AreTakenBack old new → KeepsWhatCame old came → KeepsWhatCame new came }
    ensures again { (old new : PlainStreams) (came : List Run) (frame : SentFrame) → IsLostFrame old new frame → KeepsWhatCame old came → KeepsWhatCame new came }
    ensures lost { (old new : PlainStreams) (came : List Run) (frames : List SentFrame) → AreLost old new frames → KeepsWhatCame old came → KeepsWhatCame new came }
    ensures acked { (old new : PlainStreams) (came : List Run) (frames : List SentFrame) → AreAcked old new frames → KeepsWhatCame old came → KeepsWhatCame new came }
    ensures kept { (old new : PlainStreams) (came : List Run) → new.recv.halves ≡ old.recv.halves
        → ((id : ℕ) → was_opened new id ≡ was_opened old id) → KeepsWhatCame old came → KeepsWhatCame new came }
{}
