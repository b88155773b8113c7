//! Laws of services: what they may be asked and may answer, and what an echo is.

ghost use Rattle.std.specs.Prelude.{◌≡◌, ◌<◌, ◌≤◌, ◌^◌, ◌++◌, ℕ, List, [], ◌∷◌, length, codes, Some};
ghost use Rattle.http_header.specs.FieldValue.{plain_value};
ghost use Rattle.qh_spec.specs.Message.{Response};
ghost use Rattle.qh_spec.specs.MessageRows.{get_message, ok_message, long_message};
ghost use Rattle.qh_spec.specs.Service.{IsServable, IsLawful, echo};

/// A service may be asked GET https://a.test/ if 172 bytes of a section may come, and the same with a trailer `age` if that
/// has at most 137 bytes, so that it too is within 172. No service may be asked a response.
pub fn servable()
    ensures get { IsServable 172 get_message }
    ensures too_long { IsServable 171 get_message → ⊥ }
    ensures trailers { (v : List ℕ) → length v ≤ 137 → IsServable 172 (record get_message { trailers = Some ((codes "age", plain_value v ∷ []) ∷ []) }) }
    ensures long_trailers { (v : List ℕ) → 137 < length v → IsServable 172 (record get_message { trailers = Some ((codes "age", plain_value v ∷ []) ∷ []) }) → ⊥ }
    ensures response { (section : ℕ) → IsServable section ok_message → ⊥ }
{}

/// A service may answer the statuses 200 to 999, and no other, and no request. An answer with a section of 42 bytes and a body
/// of 7 is lawful within just these bounds, and not if a byte less may come, nor if its trailers are longer than a section may
/// be.
pub fn lawful()
    ensures statuses { (status section body : ℕ) → 200 ≤ status → status ≤ 999 → 42 ≤ section → IsLawful section body (record ok_message { head = Response status }) }
    ensures below { (status section body : ℕ) → status < 200 → IsLawful section body (record ok_message { head = Response status }) → ⊥ }
    ensures above { (status section body : ℕ) → 999 < status → IsLawful section body (record ok_message { head = Response status }) → ⊥ }
    ensures request { (section body : ℕ) → IsLawful section body get_message → ⊥ }
    ensures long_section { (body : ℕ) → IsLawful 41 body ok_message → ⊥ }
    ensures body { IsLawful 42 7 long_message }
    ensures long_body { (section : ℕ) → IsLawful section 6 long_message → ⊥ }
    ensures long_trailers { (v : List ℕ) (body : ℕ) → 7 < length v → IsLawful 42 body (record ok_message { trailers = Some ((codes "age", plain_value v ∷ []) ∷ []) }) → ⊥ }
{}

/// The echo of GET https://a.test/, cut to no byte, to five, and whole, and that of the same with a body and a trailer.
pub fn echoing()
    ensures nothing { echo 0 get_message ≡ ok_message }
    ensures cut { echo 5 get_message ≡ record ok_message { body = codes "GET h" } }
    ensures whole { echo (2 ^ 20) get_message ≡ record ok_message { body = codes "GET https://a.test/" ++ 10 ∷ [] } }
    ensures more { echo (2 ^ 20) (record get_message { body = codes "1234567"; trailers = Some ((codes "age", plain_value (codes "0") ∷ []) ∷ []) })
        ≡ record ok_message { body = codes "GET https://a.test/" ++ 10 ∷ codes "1234567"; trailers = Some ((codes "age", plain_value (codes "0") ∷ []) ∷ []) } }
{}
