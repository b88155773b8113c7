ghost use Rattle.std.specs.Prelude.{◌≡◌, ℕ, true, List, ◌↔◌};
ghost use Rattle.qh_spec.specs.Fields.{Field};
ghost use Rattle.qh_qpack.specs.declared.decoder.Decoded.{Decoded as ADecoded};
ghost use Rattle.qh_qpack.specs.declared.decoder.DecoderError.{DecoderError as AnError};

use crate::{Decoded, DecoderError, HeaderField, Octets};

/// `==` on these types is equality of their bytes and numbers, field by field in their order.
pub fn equal_means_same()
    ensures octets { (a b : List ℕ) → (⟦<Octets as PartialEq>⟧.eq a b ≡ true) ↔ (a ≡ b) }
    ensures header_field { (a b : Field) → (⟦<HeaderField as PartialEq>⟧.eq a b ≡ true) ↔ (a ≡ b) }
    ensures decoded { (a b : ADecoded) → (⟦<Decoded as PartialEq>⟧.eq a b ≡ true) ↔ ((a.fields.items ≡ b.fields.items) × (a.mem_size ≡ b.mem_size)) }
    ensures decoder_error { (a b : AnError) → (⟦<DecoderError as PartialEq>⟧.eq a b ≡ true) ↔ (a ≡ b) }
{}
