//! Laws of which requests may be asked.

ghost use Rattle.std.specs.Prelude.{◌≡◌, ◌≤◌, ℕ, List, [], ◌∷◌, length, slice_get, Some};
ghost use Rattle.qh_spec.specs.Message.{PlainMessage};
ghost use Rattle.qh_spec.specs.MessageRows.{get_message, connect_message};
ghost use Rattle.qh_spec.specs.Validity.{IsValidRequest, IsAtFault, IsFaultIndex, IsValidList};

/// A list has one fault index at most, and a valid one has none.
pub fn faults()
    ensures one { (k s b : ℕ) (requests : List PlainMessage) (i j : ℕ) → IsFaultIndex k s b requests i → IsFaultIndex k s b requests j → i ≡ j }
    ensures none { (k s b : ℕ) (requests : List PlainMessage) (i : ℕ) → IsValidList k s b requests → IsAtFault k s b requests i → ⊥ }
    ensures few { (k s b : ℕ) (requests : List PlainMessage) → ((i : ℕ) → IsAtFault k s b requests i → ⊥) → length requests ≤ k }
    ensures each { (k s b : ℕ) (requests : List PlainMessage) → ((i : ℕ) → IsAtFault k s b requests i → ⊥) → (i : ℕ) (m : PlainMessage)
        → slice_get requests i ≡ Some m → (IsValidRequest s b m → ⊥) → ⊥ }
{}

/// GET https://a.test/ may be asked where 172 bytes of a section may, CONNECT may not, and no request beyond the greatest number.
pub fn validity()
    ensures get { (s b : ℕ) → 172 ≤ s → IsValidRequest s b get_message }
    ensures too_long { (b : ℕ) → IsValidRequest 171 b get_message → ⊥ }
    ensures connect { (s b : ℕ) → IsValidRequest s b connect_message → ⊥ }
    ensures second { (s b : ℕ) → 172 ≤ s → IsFaultIndex 8 s b (get_message ∷ connect_message ∷ []) 1 }
    ensures list { (s b : ℕ) → 172 ≤ s → IsValidList 1 s b (get_message ∷ []) }
    ensures not_list { (s b : ℕ) → IsValidList 1 s b (get_message ∷ get_message ∷ []) → ⊥ }
    ensures many { (s b : ℕ) → 172 ≤ s → IsFaultIndex 1 s b (get_message ∷ get_message ∷ []) 1 }
{}
