ghost use Rattle.std.specs.Prelude.{◌≡◌, ℕ, Bool, List, [], ◌∷◌, ◌++◌};
ghost use Rattle.qh_streams.specs.declared.frames.SentFrame.{SentFrame};
ghost use Rattle.qh_streams.specs.declared.frames.StreamFrame.{StreamFrame};
ghost use Rattle.qh_streams.specs.Streams.{PlainStreams, AreWritten, IsWrittenBy, IsHandedOver, AreLost, AreAcked, AreTakenBack, IsLostFrame, IsAckedFrame, IsOpened, HasArrived, IsReceived, counted_closed};
ghost use Rattle.qh_streams.specs.Tracked.{AreTracked, AreAmong, IsFresh, SameCounts, IsSendingStep, IsReceivingStep};
ghost use Rattle.qh_streams.specs.Turns.{AreInTurn, NoneIsPassed};

/// The STREAM and RESET_STREAM frames that one call writes stand in the order in which their streams are served: the greater
/// priority first, then the lesser id. No stream in which something still waits comes before one that was served.
pub fn streams_in_turn()
    ensures order { (room : ℕ) (old new : PlainStreams) (frames : List SentFrame) (bytes : List ℕ)
        → AreWritten room old new frames bytes → AreInTurn old.send frames }
    ensures passed { (room : ℕ) (old new : PlainStreams) (frames : List SentFrame) (bytes : List ℕ)
        → AreWritten room old new frames bytes → NoneIsPassed old.send new.send frames }
{}

/// What is owed is queued or out. Each byte, end, reset, stop and limit that was sent and isn't acknowledged stands in a frame
/// of which nothing was told yet, or waits to be sent again: so one who tells of each frame once, by `acked` or `lost`, sees
/// everything arrive. `frames` here are those that were written and of which nothing was told, in any order: none at first; a
/// frame that is written is added, and one that is acknowledged or lost is taken out.
pub fn tracked()
    ensures fresh { (s : PlainStreams) → IsFresh s → AreTracked s [] }
    ensures written { (old new : PlainStreams) (room : ℕ) (frame : SentFrame) (frames : List SentFrame)
        → IsHandedOver old new room frame → AreTracked old frames → AreTracked new (frame ∷ frames) }
    ensures lost { (old new : PlainStreams) (frame : SentFrame) (frames : List SentFrame)
        → IsLostFrame old new frame → AreTracked old (frame ∷ frames) → AreTracked new frames }
    ensures again { (old new : PlainStreams) (frame : SentFrame) (frames : List SentFrame)
        → IsLostFrame old new frame → AreTracked old frames → AreTracked new frames }
    ensures acked { (old new : PlainStreams) (frame : SentFrame) (frames : List SentFrame)
        → IsAckedFrame old new frame → AreTracked old (frame ∷ frames) → AreTracked new frames }
    ensures written_by { (room : ℕ) (old new : PlainStreams) (bytes_old bytes_new : List ℕ) (sent_old sent_new : List SentFrame)
        → IsWrittenBy room old new bytes_old bytes_new sent_old sent_new → AreTracked old sent_old → AreTracked new sent_new }
    ensures taken_back { (old new : PlainStreams) (frames : List SentFrame) → AreTakenBack old new → AreTracked old frames → AreTracked new frames }
    ensures lost_all { (old new : PlainStreams) (frames others : List SentFrame)
        → AreLost old new frames → AreTracked old (frames ++ others) → AreTracked new others }
    ensures acked_all { (old new : PlainStreams) (frames others : List SentFrame)
        → AreAcked old new frames → AreTracked old (frames ++ others) → AreTracked new others }
    ensures any_order { (s : PlainStreams) (frames others : List SentFrame) → AreAmong frames others → AreTracked s frames → AreTracked s others }
    ensures sending { (old new : PlainStreams) (id : ℕ) (frames : List SentFrame) → IsSendingStep old.send new.send id
        → new.recv ≡ old.recv → SameCounts old new → AreTracked old frames → AreTracked new frames }
    ensures receiving { (old new : PlainStreams) (id : ℕ) (frames : List SentFrame) → IsReceivingStep old.recv new.recv id
        → new.send ≡ old.send → SameCounts old new → AreTracked old frames → AreTracked new frames }
    ensures closed { (s : PlainStreams) (id : ℕ) (was_live : Bool) → SameCounts s (counted_closed s id was_live) }
    ensures others { (old new : PlainStreams) (frames : List SentFrame) → new.send.halves ≡ old.send.halves → new.recv.halves ≡ old.recv.halves
        → new.recv.announced ≡ old.recv.announced → SameCounts old new
        → AreTracked old frames → AreTracked new frames }
    ensures opened { (old new : PlainStreams) (id : ℕ) (frames : List SentFrame) → IsOpened old new id → AreTracked old frames → AreTracked new frames }
    ensures arrived { (old new : PlainStreams) (id : ℕ) (frames : List SentFrame) → HasArrived old new id → AreTracked old frames → AreTracked new frames }
    ensures received { (old new : PlainStreams) (frame : StreamFrame) (frames : List SentFrame)
        → IsReceived old new frame → AreTracked old frames → AreTracked new frames }
{}
