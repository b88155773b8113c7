//! Laws of reports: the order of names, and reports that are computed.

ghost use Rattle.std.specs.Prelude.{◌≡◌, ◌↔◌, ◌^◌, ◌++◌, ℕ, List, [], ◌∷◌, codes, flat_map, false, IfSome};
ghost use Rattle.std.specs.List.Sorted.{IsPermutation, IsSortedBy};
ghost use Rattle.http_header.specs.FieldValue.{FieldValue};
ghost use Rattle.http_header.specs.HeaderMap.{Entries, IsHeaderMap};
ghost use Rattle.qh_spec.specs.Echoed.{AreEchoed};
ghost use Rattle.qh_spec.specs.Lists.{In};
ghost use Rattle.qh_spec.specs.Message.{PlainMessage};
ghost use Rattle.qh_spec.specs.MessageRows.{get_message, link_age, two_ages_turned};
ghost use Rattle.qh_spec.specs.Record.{PlainEntry};
ghost use Rattle.qh_spec.specs.Report.{block, comes_before, in_byte_order, map_lines, newline, report, report_of};
ghost use Rattle.qh_spec.specs.Same.{SameFields, SameMessage};

/// Byte order keeps the names and orders them, and there is one such order.
pub fn order()
    ensures same_names { (name : List ℕ) (names : List (List ℕ)) → In name (in_byte_order names) ↔ In name names }
    ensures keeps { (names : List (List ℕ)) → IsPermutation names (in_byte_order names) }
    ensures orders { (names : List (List ℕ)) → IsSortedBy comes_before (in_byte_order names) }
    ensures one { (names sorted : List (List ℕ)) → IsPermutation names sorted → IsSortedBy comes_before sorted → sorted ≡ in_byte_order names }
    ensures apart { (a b : List ℕ) → comes_before a b ≡ false → comes_before b a ≡ false → a ≡ b }
{}

/// The report of no requests, and that of GET https://a.test/ when it is echoed. Without its last line that is another text.
pub fn rows()
    ensures none { (limit : ℕ) → report_of limit [] ≡ codes "ok 0" ++ newline }
    ensures get { report_of (2 ^ 20) (get_message ∷ [])
        ≡ flat_map (λ line. line ++ newline) (codes "entry 0 GET https://a.test/" ∷ codes "body 0" ∷ [] ∷ codes "answer 0 200" ∷ codes "body 20" ∷ codes "GET https://a.test/" ∷ [] ∷ codes "ok 1" ∷ []) }
    ensures cut { report_of (2 ^ 20) (get_message ∷ [])
        ≡ flat_map (λ line. line ++ newline) (codes "entry 0 GET https://a.test/" ∷ codes "body 0" ∷ [] ∷ codes "answer 0 200" ∷ codes "body 20" ∷ codes "GET https://a.test/" ∷ [] ∷ []) → ⊥ }
{}

/// The lines of a map: its names in byte order, and the values of a name in their own.
pub fn lines()
    ensures names { map_lines (codes "field") link_age ≡ flat_map (λ line. line ++ newline) (codes "field age 1" ∷ codes "field link 2" ∷ []) }
    ensures values { map_lines (codes "trailer") two_ages_turned ≡ flat_map (λ line. line ++ newline) (codes "trailer age 2" ∷ codes "trailer age 1" ∷ []) }
{}

/// Maps with the same fields have the same lines, and messages that are the same have the same block, in whatever order their names stand.
pub fn sameness()
    ensures maps { (word : List ℕ) (a b : Entries FieldValue) → IsHeaderMap a → IsHeaderMap b → SameFields a b → map_lines word a ≡ map_lines word b }
    ensures blocks { (word : List ℕ) (stream : ℕ) (m n : PlainMessage) → IsHeaderMap m.fields → IsHeaderMap n.fields → IfSome m.trailers IsHeaderMap
        → IfSome n.trailers IsHeaderMap → SameMessage m n → block word stream m ≡ block word stream n }
{}

/// What is written of requests that were echoed, each answered by its response, is the report of the requests.
pub fn echoes()
    ensures { (limit : ℕ) (requests : List PlainMessage) (entries : List PlainEntry) (answers : List PlainMessage)
        → AreEchoed 0 limit requests entries answers → report entries answers ≡ report_of limit requests }
{}
