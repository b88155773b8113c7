ghost use Rattle.std.specs.Prelude.{◌≡◌, ◌↔◌, ℕ, List};
ghost use Rattle.qh_frame.specs.FrameAt.{Begins};
ghost use Rattle.qh_frame.specs.WrittenForm.{written_form};
ghost use Rattle.qh_spec.specs.Acknowledged.{Covers};
ghost use Rattle.qh_spec.specs.FrameViews.{stream_of};
ghost use Rattle.qh_spec.specs.QuicFrames.{QuicFrame};

/// A frame in the form in which it is written says the same: it carries the same bytes of a stream and acknowledges the
/// same packets. Bytes begin with one frame at most.
pub fn written_forms()
    ensures stream { (f : QuicFrame) → stream_of (written_form f) ≡ stream_of f }
    ensures covers { (f : QuicFrame) (n : ℕ) → Covers (written_form f) n ↔ Covers f n }
    ensures one { (bytes x y : List ℕ) (f g : QuicFrame) → Begins bytes f x → Begins bytes g y → (f ≡ g) × (x ≡ y) }
{}
