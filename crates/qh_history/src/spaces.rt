ghost use Rattle.std.specs.Prelude.{◌≡◌, ℕ, ◌++◌, List, [], ◌∷◌, Option, None};
ghost use Rattle.qh_base.specs.declared.connection_error.ConnectionError.{ConnectionError};
ghost use Rattle.qh_frame.specs.Plain.{plain_of};
ghost use Rattle.qh_frame.specs.declared.frame.Frame.{Frame};
ghost use Rattle.qh_history.specs.Standing.{Stands, StandsMade};
ghost use Rattle.qh_space.specs.Receiving.{IsFrameTaken, IsLossTaken, frame_refusal};
ghost use Rattle.qh_space.specs.Sending.{IsPacketMade};
ghost use Rattle.qh_space.specs.Timers.{IsProbeDue};
ghost use Rattle.qh_space.specs.declared.data_space.DataSpace.{DataSpace};
ghost use Rattle.qh_spec.specs.QuicFrame.{StreamFrame as Run};
ghost use Rattle.qh_spec.specs.Transcript.{Act};
ghost use Rattle.qh_streams.specs.Tracked.{IsFresh};
ghost use Rattle.qh_transcript.specs.Sending.{runs_of};

/// Whatever frames come and whatever packets are made, what is sent of a stream is what was written there, and what readers get
/// is what came. `sent` are the runs of the STREAM frames that were sent, `came` those that came, `t` is all that was done.
pub fn space_stands()
    ensures fresh { (s : DataSpace) → IsFresh s.streams → Stands s [] [] [] }
    ensures frame { (now : ℕ) (old new : DataSpace) (frame : Frame) (closed : Option ConnectionError) (sent came : List Run) (t : List Act) → frame_refusal old frame ≡ None
        → IsFrameTaken now old new frame closed → Stands old sent came t → Stands new sent (came ++ runs_of (plain_of frame ∷ [])) t }
    ensures lost { (largest_acked now : ℕ) (old new : DataSpace) (sent came : List Run) (t : List Act)
        → IsLossTaken largest_acked now old new → Stands old sent came t → Stands new sent came t }
    ensures probe { (old new : DataSpace) (sent came : List Run) (t : List Act) → IsProbeDue old new → Stands old sent came t → Stands new sent came t }
    ensures made { (now overhead room : ℕ) (old new : DataSpace) (before after : List ℕ) (sent came : List Run) (t : List Act)
        → IsPacketMade now overhead room old new before after → Stands old sent came t → StandsMade new sent came t before after }
{}
