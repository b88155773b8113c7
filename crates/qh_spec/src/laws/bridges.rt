//! The law of two ends: what one read of a stream is what the other wrote there.

ghost use Rattle.std.specs.Prelude.{◌≡◌, ◌<◌, ◌++◌, ℕ, true, List, [], ◌∷◌, length};
ghost use Rattle.qh_spec.specs.Honest.{IsHonest};
ghost use Rattle.qh_spec.specs.Lawful.{Lawful, AreInOrder, WritesMessage, ReadsMessage};
ghost use Rattle.qh_spec.specs.Link.{other, sent_by, given_to};
ghost use Rattle.qh_spec.specs.Lists.{In};
ghost use Rattle.qh_spec.specs.Message.{PlainMessage};
ghost use Rattle.qh_spec.specs.MessageRows.{get_message, other_message, get_bytes, get_section};
ghost use Rattle.qh_spec.specs.Same.{SameMessage, SameKind};
ghost use Rattle.qh_spec.specs.Transcript.{Act, HandedIn, HandedOut, Wrote, Finished, ReadBytes, ReadEnd, handed_in, handed_out, written, finished, pieces_read, read, ended};
ghost use Rattle.qh_spec.specs.Whole.{IsWholeStream, IsWhole};
ghost use Rattle.qh_spec.specs.WholeRows.{carrying_get, get_acts, got_acts, get_events};
ghost use Rattle.qh_spec.specs.declared.link.Event.{Event};
ghost use Rattle.qh_spec.specs.declared.sides.Side.TheVariants.{Client, Server};
ghost use Rattle.qh_spec.specs.declared.sides.Side.{Side};

/// Two ends keep their laws, the link between them is honest, one handed out all that it sent, and the other was handed in only
/// what the link gave it. What a reader took of a stream in order and to its end is then all that was written there, the
/// stream was finished, and it is whole in what the reader's end was given. Where a front of a message alone was written there,
/// finished behind the whole alone, a message of that kind that was read is the same.
pub fn bridge()
    ensures bytes { (events : List Event) (writer : Side) (writer_length reader_length : ℕ) (w r : List Act) → IsHonest events
        → Lawful writer writer_length reader_length w → Lawful (other writer) reader_length writer_length r
        → ((d : List ℕ) → In d (sent_by writer events) → In d (handed_out w)) → ((d : List ℕ) → In d (handed_in r) → In d (given_to (other writer) events))
        → (stream : ℕ) → AreInOrder 0 (pieces_read r stream) → ended r stream ≡ true
        → (read r stream ≡ written w stream) × (finished w stream ≡ true)
        × IsWholeStream reader_length (given_to (other writer) events) writer stream (read r stream) }
    ensures message { (events : List Event) (writer : Side) (writer_length reader_length : ℕ) (w r : List Act) → IsHonest events
        → Lawful writer writer_length reader_length w → Lawful (other writer) reader_length writer_length r
        → ((d : List ℕ) → In d (sent_by writer events) → In d (handed_out w)) → ((d : List ℕ) → In d (handed_in r) → In d (given_to (other writer) events))
        → (stream : ℕ) (m n : PlainMessage) → WritesMessage w stream m → ReadsMessage r stream n → SameKind m.head n.head
        → SameMessage n m × IsWhole reader_length (given_to (other writer) events) writer stream n }
{}

/// Ends that keep their laws, and ends that don't: what one hands out wasn't written, or its end not finished or told too
/// early; what it gave to a reader wasn't carried to it, or at another place, or the end came early.
pub fn lawful_rows()
    ensures nothing { (s : Side) (m n : ℕ) → Lawful s m n [] }
    ensures writer { (n : ℕ) → Lawful Client n 8 get_acts }
    ensures reader { (n : ℕ) → Lawful Server 8 n got_acts }
    ensures unwritten { (n : ℕ) → Lawful Client n 8 (HandedOut carrying_get ∷ []) → ⊥ }
    ensures unfinished { (n : ℕ) → Lawful Client n 8 (Wrote 0 get_bytes ∷ HandedOut carrying_get ∷ []) → ⊥ }
    ensures short_end { (n : ℕ) → Lawful Client n 8 (Wrote 0 get_bytes ∷ Wrote 0 (0 ∷ []) ∷ Finished 0 ∷ HandedOut carrying_get ∷ []) → ⊥ }
    ensures uncarried { (n : ℕ) → Lawful Server 8 n (ReadBytes 0 0 get_bytes ∷ []) → ⊥ }
    ensures shifted { (n : ℕ) → Lawful Server 8 n (HandedIn carrying_get ∷ ReadBytes 0 1 get_bytes ∷ []) → ⊥ }
    ensures early_end { (n : ℕ) → Lawful Server 8 n (HandedIn carrying_get ∷ ReadEnd 0 ∷ []) → ⊥ }
{}

/// A message may be written so far, and a stream that was finished behind a part of its bytes has none. One that is read
/// comes in order and up to the end.
pub fn message_rows()
    ensures written { WritesMessage get_acts 0 get_message }
    ensures begun { WritesMessage (Wrote 0 (1 ∷ 13 ∷ []) ∷ []) 0 get_message }
    ensures cut { (front rest : List ℕ) (m : PlainMessage) → get_bytes ≡ front ++ rest → 0 < length rest → WritesMessage (Wrote 0 front ∷ Finished 0 ∷ []) 0 m → ⊥ }
    ensures another_written { WritesMessage get_acts 0 other_message → ⊥ }
    ensures read { ReadsMessage got_acts 0 get_message }
    ensures endless { (m : PlainMessage) → ReadsMessage (HandedIn carrying_get ∷ ReadBytes 0 0 get_bytes ∷ []) 0 m → ⊥ }
    ensures gap { (m : PlainMessage) → ReadsMessage (ReadBytes 0 0 (1 ∷ 13 ∷ []) ∷ ReadBytes 0 3 get_section ∷ ReadEnd 0 ∷ []) 0 m → ⊥ }
    ensures another_read { ReadsMessage got_acts 0 other_message → ⊥ }
{}

/// A link between the two that is honest and tells of these ends, so that all that the bridge asks for is there at once.
pub fn link_rows()
    ensures honest { IsHonest get_events }
    ensures sent { (d : List ℕ) → In d (sent_by Client get_events) → In d (handed_out get_acts) }
    ensures given { (d : List ℕ) → In d (handed_in got_acts) → In d (given_to Server get_events) }
{}
