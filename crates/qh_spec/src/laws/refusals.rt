//! Laws of refusals: a list of fields is kept or has one fault, and its parts mean a request or have one fault.

ghost use Rattle.std.specs.Prelude.{◌≡◌, ℕ, List, [], ◌∷◌};
ghost use Rattle.qh_spec.specs.Fields.{Field};
ghost use Rattle.qh_spec.specs.Meaning.{AreReadable, MeansRequest};
ghost use Rattle.qh_spec.specs.Message.{PlainTarget};
ghost use Rattle.qh_spec.specs.MessageRows.{hosts_fields, no_method_fields, no_authority_fields, upper_fields};
ghost use Rattle.qh_spec.specs.Refusal.{HeaderFault, InvalidHeaderName, MissingMethod, MissingAuthority, ContradictedAuthority, AreTaken, IsRefused, IsRequestFault};

/// The first field that isn't kept tells the fault.
pub fn fields()
    ensures one { (front fields : List Field) (a b : HeaderFault) → IsRefused front fields a → IsRefused front fields b → a ≡ b }
    ensures not_both { (front fields : List Field) (a : HeaderFault) → AreTaken front fields → IsRefused front fields a → ⊥ }
    ensures readable { (front fields : List Field) → AreTaken front fields → AreReadable fields }
    ensures judged { (front fields : List Field) → (AreTaken front fields → ⊥) → ((a : HeaderFault) → IsRefused front fields a → ⊥) → ⊥ }
    ensures upper { IsRefused [] upper_fields InvalidHeaderName }
{}

/// The parts of a request have one fault, or mean a request.
pub fn requests()
    ensures one { (fields : List Field) (a b : HeaderFault) → IsRequestFault fields a → IsRequestFault fields b → a ≡ b }
    ensures not_both { (fields : List Field) (m : List ℕ) (t : PlainTarget) (a : HeaderFault) → MeansRequest fields m t → IsRequestFault fields a → ⊥ }
    ensures judged { (fields : List Field) → ((m : List ℕ) (t : PlainTarget) → MeansRequest fields m t → ⊥)
        → ((a : HeaderFault) → IsRequestFault fields a → ⊥) → ⊥ }
    ensures hosts { IsRequestFault hosts_fields ContradictedAuthority }
    ensures no_method { IsRequestFault no_method_fields MissingMethod }
    ensures no_authority { IsRequestFault no_authority_fields MissingAuthority }
{}
