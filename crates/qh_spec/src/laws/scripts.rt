//! Laws of scripts: a text says one thing, or is refused at one line.

ghost use Rattle.std.specs.Prelude.{◌≡◌, ◌≤◌, ◌<◌, ◌-◌, ◌^◌, ℕ, List, [], ◌∷◌, ◌++◌, codes, All, Some, None};
ghost use Rattle.http_header.specs.FieldValue.{plain_value};
ghost use Rattle.http_header.specs.HeaderMap.{append};
ghost use Rattle.qh_spec.specs.Config.{default_config};
ghost use Rattle.qh_spec.specs.Echoed.{HasMaps};
ghost use Rattle.qh_spec.specs.Message.{PlainMessage, IsRequest};
ghost use Rattle.qh_spec.specs.MessageRows.{get_message};
ghost use Rattle.qh_spec.specs.Schedule.{IsUpset};
ghost use Rattle.qh_spec.specs.Script.{Script, empty_script, trailers_so_far, field_count, applied, rounds_of, IsScript, IsRefusedAt};
ghost use Rattle.qh_spec.specs.ScriptLine.{Line, Field, Trailer, IsLine};
ghost use Rattle.qh_spec.specs.ScriptRows.{small_script};
ghost use Rattle.qh_spec.specs.Words.{Command, Exchange, Make, IsCommand, AreUnknown};

/// A text says one thing as a line.
pub fn lines()
    ensures one_line { (text : List ℕ) (l m : Line) → IsLine text l → IsLine text m → l ≡ m }
{}

/// A text is one script, or is refused at one line.
pub fn texts()
    ensures one { (text : List ℕ) (s t : Script) → IsScript text s → IsScript text t → s ≡ t }
    ensures one_refusal { (text : List ℕ) (i j : ℕ) → IsRefusedAt text i → IsRefusedAt text j → i ≡ j }
    ensures either { (text : List ℕ) (s : Script) (i : ℕ) → IsScript text s → IsRefusedAt text i → ⊥ }
    ensures judged { (text : List ℕ) → ((s : Script) → IsScript text s → ⊥) → ((i : ℕ) → IsRefusedAt text i → ⊥) → ⊥ }
{}

/// What a script asks for lies within the bounds of its lines.
pub fn bounds()
    ensures rounds { (text : List ℕ) (s : Script) → IsScript text s → rounds_of s < 2 ^ 48 }
    ensures step { (text : List ℕ) (s : Script) → IsScript text s → s.step ≤ 10000 }
    ensures schedule { (text : List ℕ) (s : Script) → IsScript text s → All IsUpset s.schedule }
    ensures requests { (text : List ℕ) (s : Script) → IsScript text s → All (λ (m : PlainMessage). IsRequest m.head × HasMaps m) s.requests }
{}

/// Words ask for one thing at most.
pub fn words()
    ensures one { (words : List (List ℕ)) (c d : Command) → IsCommand words c → IsCommand words d → c ≡ d }
    ensures exchange { IsCommand (codes "exchange" ∷ []) Exchange }
    ensures make { IsCommand (codes "make" ∷ codes "10000" ∷ codes "0" ∷ []) (Make 10000 0) }
    ensures none { AreUnknown [] }
    ensures misspelled { AreUnknown (codes "exchang" ∷ []) }
    ensures many { AreUnknown (codes "workers" ∷ codes "65" ∷ []) }
    ensures zero { AreUnknown (codes "make" ∷ codes "01" ∷ codes "0" ∷ []) }
{}

/// Rows: an empty text asks for nothing, and a line `request` for one request. A word alone is refused in its line, a field
/// before the first request in its, and settings that don't fit behind the last line.
pub fn rows()
    ensures empty { IsScript [] empty_script }
    ensures get { IsScript (codes "request GET https://a.test/") (record empty_script { requests = get_message ∷ [] }) }
    ensures third { IsRefusedAt (codes "retry on" ++ 10 ∷ codes "step 20" ++ 10 ∷ codes "field") 3 }
    ensures first { IsRefusedAt (codes "field a b" ++ 10 ∷ codes "request GET https://a.test/") 1 }
    ensures cap { IsRefusedAt (codes "cap 2097152") 2 }
{}

/// A word takes its greatest number, and a line with the next number is refused: 2^63 milliseconds of `idle` or `rtt`, 10,001
/// of `step`, and 2^48 `rounds`. A time below 2^63 milliseconds saturates at the greatest number of nanoseconds of 64 bits, so
/// it is no fault of its line. A round-trip time above 10 seconds doesn't fit, and is refused behind the last line. An idle
/// time of 0 is for ever.
pub fn numbers()
    ensures idle { IsScript (codes "idle 9223372036854775807") (record empty_script { config = record default_config { idle = Some (2 ^ 64 - 1) } }) }
    ensures no_idle { IsRefusedAt (codes "idle 9223372036854775808") 1 }
    ensures endless { IsScript (codes "idle 0") (record empty_script { config = record default_config { idle = None } }) }
    ensures rtt { IsScript (codes "rtt 10000") (record empty_script { config = record default_config { initial_rtt = 10000000000 } }) }
    ensures long_rtt { IsRefusedAt (codes "rtt 10001") 2 }
    ensures longest_rtt { IsRefusedAt (codes "rtt 9223372036854775807") 2 }
    ensures no_rtt { IsRefusedAt (codes "rtt 9223372036854775808") 1 }
    ensures step { IsScript (codes "step 10000") (record empty_script { step = 10000 }) }
    ensures no_step { IsRefusedAt (codes "step 10001") 1 }
    ensures rounds { IsScript (codes "rounds 281474976710655") (record empty_script { rounds = Some (2 ^ 48 - 1) }) }
    ensures no_rounds { IsRefusedAt (codes "rounds 281474976710656") 1 }
{}

/// An exchange of a script has as many rounds as a line says, and else as many as are enough, but at most 2^48 - 1.
pub fn rounds()
    ensures small { IsScript (codes "section 4096" ++ 10 ∷ codes "response 1000" ++ 10 ∷ codes "request GET https://a.test/") small_script }
    ensures enough { rounds_of small_script ≡ 38544 }
    ensures said { (n : ℕ) → rounds_of (record small_script { rounds = Some n }) ≡ n }
    ensures most { rounds_of (record small_script { config = record default_config { max_response_body = 2 ^ 62 } }) ≡ 2 ^ 48 - 1 }
{}

/// A second body of a request takes the place of the first, and a body before the first request is refused. If the last
/// request has 2,000 fields and trailers, neither a field nor a trailer is taken, and if it has fewer, each is.
pub fn parts()
    ensures second_body { IsScript (codes "request GET https://a.test/" ++ 10 ∷ codes "body a" ++ 10 ∷ codes "body b") (record empty_script { requests = record get_message { body = codes "b" } ∷ [] }) }
    ensures early_body { IsRefusedAt (codes "body a" ++ 10 ∷ codes "request GET https://a.test/") 1 }
    ensures no_field { (front : List PlainMessage) (m : PlainMessage) (s : Script) (name value : List ℕ) → s.requests ≡ front ++ m ∷ [] → 2000 ≤ field_count m → applied (Field name value) s ≡ None }
    ensures no_trailer { (front : List PlainMessage) (m : PlainMessage) (s : Script) (name value : List ℕ) → s.requests ≡ front ++ m ∷ [] → 2000 ≤ field_count m → applied (Trailer name value) s ≡ None }
    ensures field { (front : List PlainMessage) (m : PlainMessage) (s : Script) (name value : List ℕ) → s.requests ≡ front ++ m ∷ [] → field_count m < 2000
        → applied (Field name value) s ≡ Some (record s { requests = front ++ record m { fields = append m.fields name (plain_value value) } ∷ [] }) }
    ensures trailer { (front : List PlainMessage) (m : PlainMessage) (s : Script) (name value : List ℕ) → s.requests ≡ front ++ m ∷ [] → field_count m < 2000
        → applied (Trailer name value) s ≡ Some (record s { requests = front ++ record m { trailers = Some (append (trailers_so_far m) name (plain_value value)) } ∷ [] }) }
{}
