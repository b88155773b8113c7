ghost use Rattle.std.specs.Prelude.{ℕ, ◌++◌, List, [], ◌∷◌};
ghost use Rattle.qh_loss.specs.Owed.{AreOwed};
ghost use Rattle.qh_recovery.specs.declared.sent_packets.SentPacket.{SentPacket};
ghost use Rattle.qh_streams.specs.Streams.{PlainStreams, AreAllOut, IsWrittenBy, KeepsOut};
ghost use Rattle.qh_streams.specs.Tracked.{IsFresh};
ghost use Rattle.qh_streams.specs.declared.frames.SentFrame.{SentFrame};

/// What is owed is queued or out, with no packet at first, and when a packet goes out with all frames that were written for it.
pub fn owed()
    ensures fresh { (s : PlainStreams) → IsFresh s → AreOwed s [] }
    ensures sent { (room : ℕ) (old new : PlainStreams) (bytes_old bytes_new : List ℕ) (number : ℕ) (packet : SentPacket SentFrame) (packets : List (ℕ × SentPacket SentFrame))
        → IsWrittenBy room old new bytes_old bytes_new [] packet.frames.items → AreAllOut new packet.frames.items → KeepsOut old new
        → AreOwed old packets → AreOwed new (packets ++ (number, packet) ∷ []) }
{}
