//! Laws of messages: which are the same, and which bytes spell them.

ghost use Rattle.std.specs.Prelude.{◌≡◌, ◌<◌, ◌^◌, ◌++◌, ℕ, List, [], ◌∷◌, length, codes};
ghost use Rattle.http.specs.StatusCode.{IsStatusCode};
ghost use Rattle.http_header.specs.FieldValue.{FieldValue};
ghost use Rattle.http_header.specs.HeaderMap.{Entries};
ghost use Rattle.qh_spec.specs.Fields.{Field, message_fields, map_fields, head_fields};
ghost use Rattle.qh_spec.specs.HttpFrame.{HttpFrame, IsHttpFrame, AreHttpFrames, http_frame};
ghost use Rattle.qh_spec.specs.Meaning.{MeansRequest, MeansResponse, MeansHead, MeansFields, AreReadable};
ghost use Rattle.qh_spec.specs.Message.{PlainHead, PlainTarget, PlainMessage, Response};
ghost use Rattle.qh_spec.specs.MessageRows.{get_message, other_message, ok_message, long_message, a_target, get_bytes, ok_bytes, long_bytes, twice_fields, hosts_fields, age_link, link_age, two_ages, two_ages_turned};
ghost use Rattle.qh_spec.specs.Refusal.{fields_map};
ghost use Rattle.qh_spec.specs.Same.{SameHead, SameFields, SameMessage, SameKind};
ghost use Rattle.qh_spec.specs.Section.{IsSection, section_bytes};
ghost use Rattle.qh_spec.specs.Size.{section_size};
ghost use Rattle.qh_spec.specs.Spelling.{Spells};
ghost use Rattle.qh_spec.specs.Validity.{IsValidRequest};
ghost use Rattle.qh_spec.specs.Written.{HasPlainNames, IsWritable, message_bytes};

/// Being the same is an equivalence.
pub fn sameness()
    ensures same_itself { (a : PlainMessage) → SameMessage a a }
    ensures either_way { (a b : PlainMessage) → SameMessage a b → SameMessage b a }
    ensures further { (a b c : PlainMessage) → SameMessage a b → SameMessage b c → SameMessage a c }
{}

/// Bytes spell one message of each kind, and whatever is the same as it.
pub fn spelling()
    ensures one { (bytes : List ℕ) (m n : PlainMessage) → SameKind m.head n.head → Spells bytes m → Spells bytes n → SameMessage m n }
    ensures closed { (bytes : List ℕ) (m n : PlainMessage) → SameMessage m n → Spells bytes m → Spells bytes n }
    ensures asked { Spells get_bytes get_message }
    ensures long { Spells long_bytes long_message }
    ensures answered { Spells ok_bytes ok_message }
    ensures headless { (m : PlainMessage) → Spells (0 ∷ 0 ∷ []) m → ⊥ }
    ensures not_another { Spells get_bytes other_message → ⊥ }
{}

/// Fields mean one head of each kind, and one map, which is the map that they make. A pseudo field that comes twice
/// counts by its last value. An authority beside another host means nothing.
pub fn meaning()
    ensures heads { (fields : List Field) (a b : PlainHead) → SameKind a b → MeansHead fields a → MeansHead fields b → SameHead a b }
    ensures maps { (fields : List Field) (a b : Entries FieldValue) → MeansFields fields a → MeansFields fields b → SameFields a b }
    ensures made { (fields : List Field) → AreReadable fields → MeansFields fields (fields_map fields) }
    ensures twice { MeansRequest twice_fields (codes "GET") a_target }
    ensures hosts { (m : List ℕ) (t : PlainTarget) → MeansRequest hosts_fields m t → ⊥ }
{}

/// The order of names doesn't count, and that of the values of a name does.
pub fn order()
    ensures names { SameFields age_link link_age }
    ensures values { SameFields two_ages two_ages_turned → ⊥ }
{}

/// The fields that are written of a valid request, of a response and of trailers mean them.
pub fn writing()
    ensures request { (section body : ℕ) (m : PlainMessage) → IsValidRequest section body m → HasPlainNames m.fields → AreReadable (message_fields m)
        → MeansHead (message_fields m) m.head × MeansFields (message_fields m) m.fields }
    ensures response { (status : ℕ) (m : Entries FieldValue) → IsStatusCode status → HasPlainNames m → AreReadable (head_fields (Response status) ++ map_fields m)
        → MeansResponse (head_fields (Response status) ++ map_fields m) status × MeansFields (head_fields (Response status) ++ map_fields m) m }
    ensures trailers { (m : Entries FieldValue) → HasPlainNames m → AreReadable (map_fields m) → MeansFields (map_fields m) m }
{}

/// The bytes that are written of a message spell it.
pub fn written()
    ensures whole { (m : PlainMessage) → IsWritable m → MeansHead (message_fields m) m.head → Spells (message_bytes m) m }
    ensures request { (section body : ℕ) (m : PlainMessage) → IsValidRequest section body m → IsWritable m → Spells (message_bytes m) m }
    ensures get { message_bytes get_message ≡ get_bytes }
    ensures writable { IsWritable get_message }
{}
