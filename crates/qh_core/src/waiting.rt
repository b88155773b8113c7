ghost use Rattle.std.specs.Prelude.{◌≡◌, ◌⊎◌, ◌++◌, [], ℕ, Bool, List, map, true};
ghost use Rattle.qh_base.specs.declared.path.Transmit.{Transmit as ATransmit};
ghost use Rattle.qh_base.specs.declared.time.Moment.{Moment as AMoment};
ghost use Rattle.qh_core.specs.Inner.{IsNewSpace, is_open};
ghost use Rattle.qh_core.specs.Receiving.{IsDatagramTaken, IsPacketTaken};
ghost use Rattle.qh_core.specs.Sending.{IsDatagramMade, NothingIsSent};
ghost use Rattle.qh_core.specs.Timers.{IsTimedOut};
ghost use Rattle.qh_core.specs.declared.inner.Inner.{Inner as AnInner};
ghost use Rattle.qh_frame.specs.Plain.{plain_of};
ghost use Rattle.qh_spec.specs.QuicFrame.{StreamFrame as Run};
ghost use Rattle.qh_spec.specs.QuicFrames.{QuicFrame, AreQuicFrames};
ghost use Rattle.qh_spec.specs.declared.sides.Side.{Side as ASide};
ghost use Rattle.qh_spec.specs.declared.sides.Space.{Space as ASpace};
ghost use Rattle.qh_transcript.specs.Sending.{runs_of};
ghost use Rattle.qh_transcript.specs.Waiting.{KeepsWhatCame};

/// Nothing that came is lost: each byte of the STREAM frames of packets that were taken was given to a reader, or waits for one,
/// until the reader stops the stream, or the peer resets it, or want of memory ends the connection. `came` are the runs of those
/// frames. What readers and writers do carries it on by `keeps_what_came` of `qh_transcript`, since their contracts say what they
/// do to the streams.
pub fn keeps_what_came<S>()
    ensures fresh { (c : AnInner S) → IsNewSpace c.config c.side c.space → KeepsWhatCame c.space.streams [] }
    ensures datagram { (accepts : ASide → ASpace → ℕ → List ℕ → Bool) (now : AMoment) (datagram : List ℕ) (old new : AnInner S) → IsDatagramTaken accepts now datagram old new
        → (new.space ≡ old.space) ⊎ ((number : ℕ) × (frames : List ℕ) × IsPacketTaken now number frames old new) }
    ensures taken { (now : AMoment) (number : ℕ) (frames : List ℕ) (old new : AnInner S) (came : List Run) → (p : IsPacketTaken now number frames old new)
        → KeepsWhatCame old.space.streams came → KeepsWhatCame new.space.streams (came ++ runs_of (map plain_of p.taken)) }
    ensures whole { (now : AMoment) (number : ℕ) (frames : List ℕ) (old new : AnInner S) (fs : List QuicFrame) → (p : IsPacketTaken now number frames old new)
        → is_open new.state ≡ true → AreQuicFrames frames fs → runs_of (map plain_of p.taken) ≡ runs_of fs }
    ensures made { (sealed : ASide → ASpace → ℕ → List ℕ) (now : AMoment) (old new : AnInner S) (before after : List ℕ) (transmit : ATransmit) (came : List Run)
        → IsDatagramMade sealed now old new before after transmit → KeepsWhatCame old.space.streams came → KeepsWhatCame new.space.streams came }
    ensures none { (old new : AnInner S) (came : List Run) → NothingIsSent old new → KeepsWhatCame old.space.streams came → KeepsWhatCame new.space.streams came }
    ensures timeout { (now : ℕ) (old new : AnInner S) (came : List Run) → IsTimedOut now old new → KeepsWhatCame old.space.streams came → KeepsWhatCame new.space.streams came }
{}
