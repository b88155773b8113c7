//! Laws of heads.
ghost use Rattle.std.specs.Prelude.{◌≡◌, ◌≤◌, ℕ, List, [], Some};
ghost use Rattle.http_header.specs.FieldValue.{FieldValue};
ghost use Rattle.http_header.specs.HeaderMap.{Entries};
ghost use Rattle.qh_qpack.specs.SectionFault.{bounded_size, IsSectionFault};
ghost use Rattle.qh_qpack.specs.declared.decoder.DecoderError.{DecoderError};
ghost use Rattle.qh_spec.specs.Fields.{Field};
ghost use Rattle.qh_spec.specs.Message.{PlainTarget};
ghost use Rattle.qh_spec.specs.Refusal.{HeaderFault, AreTaken, IsRefused, IsRequestFault};
ghost use Rattle.qh_spec.specs.Same.{SameFields, SameTarget};
ghost use Rattle.qh_spec.specs.Section.{section_bytes};
ghost use Rattle.qh_h3wire.specs.Header.{request_header, response_header, trailer_header, written_fields, IsHeaderOf, IsReadAgain, IsSendable, IsTargetOf};
ghost use Rattle.qh_h3wire.specs.PlainHeader.{PlainHeader};
ghost use Rattle.qh_h3wire.specs.ReadBack.{slash_target, AreLinesOf, IsReadBack};

/// The field lines that are written of a head are all kept where they are read, and give this head again.
pub fn read_again()
    ensures taken { (h : PlainHeader) → IsSendable h → AreTaken [] (written_fields h) }
    ensures same { (h k : PlainHeader) → IsSendable h → IsHeaderOf (written_fields h) k → IsReadAgain h k }
{}

/// A head that is listed, encoded as a section, decoded and read is the same head, and no step refuses it. So a request
/// that makes a target is taken apart as the same method, the same target (an empty path as `/`) and the same fields, a
/// response as the same status and the same fields, and trailers are the same fields.
pub fn heads_are_read_back()
    ensures decoded { (h : PlainHeader) (max_size : ℕ) (e : DecoderError) → IsSendable h → bounded_size (written_fields h) ≤ max_size
        → IsSectionFault max_size (section_bytes (written_fields h)) e → ⊥ }
    ensures taken { (h : PlainHeader) (lines : List Field) → AreLinesOf h lines → AreTaken [] lines }
    ensures not_refused { (h : PlainHeader) (lines : List Field) (fault : HeaderFault) → AreLinesOf h lines → IsRefused [] lines fault → ⊥ }
    ensures request { (m : List ℕ) (t : PlainTarget) (f : Entries FieldValue) (lines : List Field) (k : PlainHeader)
        → IsReadBack (request_header m t f) lines k → (k.method ≡ Some m) × SameFields f k.fields }
    ensures makes_target { (m : List ℕ) (t : PlainTarget) (f : Entries FieldValue) (lines : List Field) (k : PlainHeader)
        → IsReadBack (request_header m t f) lines k → IsTargetOf (request_header m t f) t → IsTargetOf k (slash_target t) }
    ensures same_target { (m : List ℕ) (t : PlainTarget) (f : Entries FieldValue) (lines : List Field) (k : PlainHeader) (u : PlainTarget)
        → IsReadBack (request_header m t f) lines k → IsTargetOf (request_header m t f) t → IsTargetOf k u → SameTarget t u }
    ensures no_fault { (m : List ℕ) (t : PlainTarget) (f : Entries FieldValue) (lines : List Field) (k : PlainHeader) (fault : HeaderFault)
        → IsReadBack (request_header m t f) lines k → IsTargetOf (request_header m t f) t → IsRequestFault lines fault → ⊥ }
    ensures response { (s : ℕ) (f : Entries FieldValue) (lines : List Field) (k : PlainHeader)
        → IsReadBack (response_header s f) lines k → (k.status ≡ Some s) × SameFields f k.fields }
    ensures trailers { (f : Entries FieldValue) (lines : List Field) (k : PlainHeader) → IsReadBack (trailer_header f) lines k → SameFields f k.fields }
{}
