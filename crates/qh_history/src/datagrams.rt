ghost use Rattle.std.specs.Prelude.{◌≡◌, ℕ, ◌++◌, List, [], ◌∷◌, length};
ghost use Rattle.qh_packet.specs.Packet.{header_bytes};
ghost use Rattle.qh_spec.specs.Carried.{HasRun};
ghost use Rattle.qh_spec.specs.Datagram.{Packet, HasPacket};
ghost use Rattle.qh_spec.specs.Link.{other};
ghost use Rattle.qh_spec.specs.Lists.{In};
ghost use Rattle.qh_spec.specs.QuicFrame.{StreamFrame as Run};
ghost use Rattle.qh_spec.specs.QuicFrames.{QuicFrame, AreQuicFrames};
ghost use Rattle.qh_spec.specs.Transcript.{Act, HandedIn, HandedOut, handed_in, handed_out};
ghost use Rattle.qh_spec.specs.declared.sides.Side.{Side};
ghost use Rattle.qh_spec.specs.declared.sides.Space.TheVariants.{Data};
ghost use Rattle.qh_transcript.specs.Sending.{runs_of};

/// The runs that datagrams carry, as datagrams are handed in and out: a packet that is taken adds those of its frames to what
/// came, and a packet that is written adds none but those of its frames to what was sent.
pub fn datagrams_carry()
    ensures fresh { (length_of_ids : ℕ) (side : Side) (run : Run) → HasRun length_of_ids (handed_out []) side run → In run [] }
    ensures came { (own_length : ℕ) (side : Side) (came : List Run) (t : List Act) (datagram : List ℕ) (packet : Packet)
        → HasPacket own_length packet datagram → packet.space ≡ Data → packet.sender ≡ other side
        → ((run : Run) → In run came → HasRun own_length (handed_in t) (other side) run)
        → (run : Run) → In run (came ++ runs_of packet.frames) → HasRun own_length (handed_in (t ++ HandedIn datagram ∷ [])) (other side) run }
    ensures dropped { (own_length : ℕ) (side : Side) (came : List Run) (t : List Act) (datagram : List ℕ)
        → ((run : Run) → In run came → HasRun own_length (handed_in t) (other side) run)
        → (run : Run) → In run came → HasRun own_length (handed_in (t ++ HandedIn datagram ∷ [])) (other side) run }
    ensures sent { (peer_length number : ℕ) (side : Side) (sent : List Run) (t : List Act) (destination frames tag : List ℕ) (fs : List QuicFrame)
        → length destination ≡ peer_length → length tag ≡ 32 → AreQuicFrames frames fs
        → ((run : Run) → HasRun peer_length (handed_out t) side run → In run sent)
        → (run : Run) → HasRun peer_length (handed_out (t ++ HandedOut (header_bytes destination number ++ (frames ++ tag)) ∷ [])) side run → In run (sent ++ runs_of fs) }
{}
