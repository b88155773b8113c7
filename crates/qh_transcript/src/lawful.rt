ghost use Rattle.std.specs.Prelude.{◌≡◌, ℕ, List};
ghost use Rattle.qh_spec.specs.Carried.{HasRun};
ghost use Rattle.qh_spec.specs.Lawful.{Lawful};
ghost use Rattle.qh_spec.specs.Lists.{In};
ghost use Rattle.qh_spec.specs.QuicFrame.{StreamFrame as Run};
ghost use Rattle.qh_spec.specs.Link.{other};
ghost use Rattle.qh_spec.specs.Transcript.{Act, handed_in, handed_out};
ghost use Rattle.qh_spec.specs.declared.sides.Side.{Side};
ghost use Rattle.qh_streams.specs.Streams.{PlainStreams};
ghost use Rattle.qh_transcript.specs.Receiving.{StandsIn};
ghost use Rattle.qh_transcript.specs.Sending.{StandsOut};

/// An end keeps the laws of an end of a connection where its streams stand so to all that it handed out and to what was handed
/// to it: `sent` has every run that the datagrams handed out carry, and `came` none but those that they carried to it.
pub fn faithful()
    ensures { (s : PlainStreams) (side : Side) (own_length peer_length : ℕ) (sent came : List Run) (t : List Act)
        → ((run : Run) → HasRun peer_length (handed_out t) side run → In run sent) → ((run : Run) → In run came → HasRun own_length (handed_in t) (other side) run)
        → StandsOut s sent t → StandsIn s came t
        → Lawful side own_length peer_length t }
{}
