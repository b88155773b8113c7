//! Laws of field sections.

ghost use Rattle.std.specs.Prelude.{◌≡◌, ◌+◌, ◌≤◌, ℕ, List, length};
ghost use Rattle.std.specs.List.{AllByRecursion};
ghost use Rattle.qh_spec.specs.Fields.{Field};
ghost use Rattle.qh_spec.specs.Section.{IsSection, section_bytes};
ghost use Rattle.qh_spec.specs.Size.{section_size};
ghost use Rattle.qh_qpack.specs.declared.decoder.DecoderError.{DecoderError};
ghost use Rattle.qh_qpack.specs.SectionFault.{bounded_size, IsSectionFault, IsWritable};

/// Bytes have one fault at most, and none where they are a section within the limit.
pub fn faults()
    ensures one { (max_size : ℕ) (bytes : List ℕ) (a b : DecoderError) → IsSectionFault max_size bytes a → IsSectionFault max_size bytes b → a ≡ b }
    ensures none { (max_size : ℕ) (bytes : List ℕ) (fields : List Field) (e : DecoderError) → IsSection bytes fields → bounded_size fields ≤ max_size
        → IsSectionFault max_size bytes e → ⊥ }
{}

/// What is written of fields is a section of these fields, which isn't refused within their size. It is at most as long as
/// their size and its first two bytes.
pub fn written()
    ensures section { (fields : List Field) → AllByRecursion IsWritable fields → IsSection (section_bytes fields) fields }
    ensures read { (max_size : ℕ) (fields : List Field) (e : DecoderError) → AllByRecursion IsWritable fields → bounded_size fields ≤ max_size
        → IsSectionFault max_size (section_bytes fields) e → ⊥ }
    ensures short { (fields : List Field) → AllByRecursion IsWritable fields → length (section_bytes fields) ≤ section_size fields + 2 }
{}
