ghost use Rattle.std.specs.Prelude.{◌≡◌, ℕ, ◌++◌, List, [], Option, None, false};
ghost use Rattle.qh_base.specs.declared.connection_error.ConnectionError.{ConnectionError};
ghost use Rattle.qh_frame.specs.declared.frame.Frame.{Frame};
ghost use Rattle.qh_history.specs.Standing.{SameEnd, comings};
ghost use Rattle.qh_space.specs.Receiving.{IsFrameTaken, IsLossTaken, frame_refusal};
ghost use Rattle.qh_space.specs.Sending.{IsPacketMade};
ghost use Rattle.qh_space.specs.Space.{AreUnused};
ghost use Rattle.qh_space.specs.Timers.{IsProbeDue};
ghost use Rattle.qh_space.specs.declared.data_space.DataSpace.{DataSpace};
ghost use Rattle.qh_spec.specs.Transcript.{Act, written};
ghost use Rattle.qh_streams.specs.Streams.{was_opened};
ghost use Rattle.qh_streams.specs.declared.frames.PeerLimits.{PeerLimits};
ghost use Rattle.qh_streams.specs.declared.frames.StreamFrame.{StreamFrame};
ghost use Rattle.qh_transcript.specs.Within.{KeepsWithin};

/// The space keeps within the limits that the peer gave before, and stays that of the same end and of the same peer, whatever
/// frames come and whatever packets are made. `given` are the frames of the peer's that speak of streams, those that came last
/// in front, `t` is all that was done.
pub fn space_keeps_within()
    ensures fresh { (s : DataSpace) (peer : PeerLimits) → AreUnused s.streams peer → KeepsWithin s.streams [] [] }
    ensures frame { (now : ℕ) (old new : DataSpace) (frame : Frame) (closed : Option ConnectionError) (given : List StreamFrame) (t : List Act) → frame_refusal old frame ≡ None
        → IsFrameTaken now old new frame closed → ((id : ℕ) → was_opened old.streams id ≡ false → written t id ≡ [])
        → KeepsWithin old.streams given t → KeepsWithin new.streams (comings frame ++ given) t }
    ensures lost { (largest_acked now : ℕ) (old new : DataSpace) (given : List StreamFrame) (t : List Act)
        → IsLossTaken largest_acked now old new → KeepsWithin old.streams given t → KeepsWithin new.streams given t }
    ensures probe { (old new : DataSpace) (given : List StreamFrame) (t : List Act) → IsProbeDue old new → KeepsWithin old.streams given t → KeepsWithin new.streams given t }
    ensures made { (now overhead room : ℕ) (old new : DataSpace) (before after : List ℕ) (given : List StreamFrame) (t : List Act)
        → IsPacketMade now overhead room old new before after → KeepsWithin old.streams given t → KeepsWithin new.streams given t }
    ensures frame_end { (now : ℕ) (old new : DataSpace) (frame : Frame) (closed : Option ConnectionError) → IsFrameTaken now old new frame closed → SameEnd old new }
    ensures lost_end { (largest_acked now : ℕ) (old new : DataSpace) → IsLossTaken largest_acked now old new → SameEnd old new }
    ensures probe_end { (old new : DataSpace) → IsProbeDue old new → SameEnd old new }
    ensures made_end { (now overhead room : ℕ) (old new : DataSpace) (before after : List ℕ) → IsPacketMade now overhead room old new before after → SameEnd old new }
{}
