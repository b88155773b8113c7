ghost use Rattle.std.specs.Prelude.{◌≡◌, ℕ, ◌++◌, List, [], ◌∷◌, Option, None};
ghost use Rattle.qh_base.specs.declared.connection_error.ConnectionError.{ConnectionError};
ghost use Rattle.qh_frame.specs.Plain.{plain_of};
ghost use Rattle.qh_frame.specs.declared.frame.Frame.{Frame};
ghost use Rattle.qh_space.specs.Receiving.{IsFrameTaken, IsLossTaken, frame_refusal};
ghost use Rattle.qh_space.specs.Sending.{IsPacketMade};
ghost use Rattle.qh_space.specs.Timers.{IsProbeDue};
ghost use Rattle.qh_space.specs.declared.data_space.DataSpace.{DataSpace};
ghost use Rattle.qh_spec.specs.QuicFrame.{StreamFrame as Run};
ghost use Rattle.qh_streams.specs.Tracked.{IsFresh};
ghost use Rattle.qh_transcript.specs.Sending.{runs_of};
ghost use Rattle.qh_transcript.specs.Waiting.{KeepsWhatCame};

/// Nothing that came of a stream is lost, whatever frames come and whatever packets are made, until the stream is stopped or
/// reset. `came` are the runs of the STREAM frames that came.
pub fn space_keeps_what_came()
    ensures fresh { (s : DataSpace) → IsFresh s.streams → KeepsWhatCame s.streams [] }
    ensures frame { (now : ℕ) (old new : DataSpace) (frame : Frame) (closed : Option ConnectionError) (came : List Run) → frame_refusal old frame ≡ None
        → IsFrameTaken now old new frame closed → KeepsWhatCame old.streams came → KeepsWhatCame new.streams (came ++ runs_of (plain_of frame ∷ [])) }
    ensures lost { (largest_acked now : ℕ) (old new : DataSpace) (came : List Run)
        → IsLossTaken largest_acked now old new → KeepsWhatCame old.streams came → KeepsWhatCame new.streams came }
    ensures probe { (old new : DataSpace) (came : List Run) → IsProbeDue old new → KeepsWhatCame old.streams came → KeepsWhatCame new.streams came }
    ensures made { (now overhead room : ℕ) (old new : DataSpace) (before after : List ℕ) (came : List Run)
        → IsPacketMade now overhead room old new before after → KeepsWhatCame old.streams came → KeepsWhatCame new.streams came }
{}
