ghost use Rattle.std.specs.Prelude.{◌≡◌, ◌++◌, ℕ, Bool, List, [], replicate};
ghost use Rattle.qh_base.specs.declared.time.Moment.{Moment as AMoment};
ghost use Rattle.qh_handshake.specs.Sending.{IsPacketMade};
ghost use Rattle.qh_handshake.specs.Written.{CanBeWritten, HaveOnlyHello};
ghost use Rattle.qh_handshake.specs.declared.initial_space.InitialSpace.{InitialSpace as ASpace};
ghost use Rattle.qh_packet.specs.Initial.{filled, initial_filled};
ghost use Rattle.qh_spec.specs.Datagram.{Packet, HasPacket};
ghost use Rattle.qh_spec.specs.Parted.{IsInitialAlone};
ghost use Rattle.qh_spec.specs.QuicFrames.{QuicFrame, AreQuicFrames};
ghost use Rattle.qh_spec.specs.Tag.{IsTag};
ghost use Rattle.qh_spec.specs.declared.sides.Side.{Side as ASide};
ghost use Rattle.qh_spec.specs.declared.sides.Space.TheVariants.{Initial};

/// A datagram of one Initial packet has that packet, with its sender and number by its tag, and no other one, whatever the length of
/// connection ids is with which it is read.
pub fn written_datagram()
    ensures alone { (destination source token frames tag : List ℕ) (number size : ℕ) → CanBeWritten destination source token frames size tag
        → IsInitialAlone (initial_filled destination source token number frames size tag) }
    ensures has { (destination source token frames tag : List ℕ) (number size id_length : ℕ) (sender : ASide) (fs : List QuicFrame) → CanBeWritten destination source token frames size tag
        → IsTag tag sender Initial number → AreQuicFrames (filled destination source token frames size) fs
        → HasPacket id_length (record { space = Initial; sender = sender; number = number; frames = fs }) (initial_filled destination source token number frames size tag) }
    ensures only { (destination source token frames tag : List ℕ) (number size id_length : ℕ) (sender : ASide) (p : Packet) → CanBeWritten destination source token frames size tag
        → IsTag tag sender Initial number → HasPacket id_length p (initial_filled destination source token number frames size tag)
        → (p.space ≡ Initial) × (p.sender ≡ sender) × (p.number ≡ number) × AreQuicFrames (filled destination source token frames size) p.frames }
{}

/// What a space makes for a packet is frames, also with PADDING behind them, and a CRYPTO frame among them is that of the whole hello.
pub fn made_frames()
    ensures { (now : AMoment) (room : ℕ) (old new : ASpace) (frames : List ℕ) (is_eliciting : Bool) (padding : ℕ) → IsPacketMade now room old new [] frames is_eliciting
        → (fs : List QuicFrame) × AreQuicFrames (frames ++ replicate padding 0) fs × HaveOnlyHello old fs }
{}
