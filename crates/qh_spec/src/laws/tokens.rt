//! Laws of the log of used tokens, and of commands on it.

ghost use Rattle.std.specs.Prelude.{◌≡◌, ℕ, List, [], ◌∷◌, ◌++◌, codes, true, false};
ghost use Rattle.qh_spec.specs.Lists.{In};
ghost use Rattle.qh_spec.specs.TokenFilter.{TokenLimits, TokenFilter, hash_word, refuses};
ghost use Rattle.qh_spec.specs.TokenLog.{Token, TokenLog, fingerprint, accepts, checked, IsLater};
ghost use Rattle.qh_spec.specs.TokenScript.{TokenLine, IsTokenLine, IsTokenScript, IsTokenRefusedAt, token_report};

/// A filter refuses what it took, and a set nothing else.
pub fn filters()
    ensures taken { (limits : TokenLimits) (filter : TokenFilter) (x : ℕ) → In x filter.accepted → refuses limits filter x ≡ true }
    ensures set { (limits : TokenLimits) (filter : TokenFilter) (x : ℕ) → filter.is_bits ≡ false → refuses limits filter x ≡ true → In x filter.accepted }
{}

/// While all tokens live as long, none counts twice, whatever else the log looked at in between.
pub fn once()
    ensures once { (limits : TokenLimits) (l m : TokenLog) (t u : Token) → accepts limits l t ≡ true → IsLater limits t.lifetime (checked limits l t) m
        → fingerprint u ≡ fingerprint t → u.issued ≡ t.issued → u.lifetime ≡ t.lifetime → accepts limits m u ≡ false }
{}

/// A text has one list of commands, or is refused at one line.
pub fn commands()
    ensures one_line { (text : List ℕ) (l m : TokenLine) → IsTokenLine text l → IsTokenLine text m → l ≡ m }
    ensures one_log { (text : List ℕ) (limits other : TokenLimits) (ts us : List Token) → IsTokenScript text limits ts → IsTokenScript text other us → limits ≡ other }
    ensures one_list { (text : List ℕ) (limits other : TokenLimits) (ts us : List Token) → IsTokenScript text limits ts → IsTokenScript text other us → ts ≡ us }
    ensures one_refusal { (text : List ℕ) (i j : ℕ) → IsTokenRefusedAt text i → IsTokenRefusedAt text j → i ≡ j }
    ensures either { (text : List ℕ) (limits : TokenLimits) (ts : List Token) (i : ℕ) → IsTokenScript text limits ts → IsTokenRefusedAt text i → ⊥ }
    ensures judged { (text : List ℕ) → ((limits : TokenLimits) (ts : List Token) → IsTokenScript text limits ts → ⊥) → ((i : ℕ) → IsTokenRefusedAt text i → ⊥) → ⊥ }
{}

/// Rows: the first words of splitmix64 from 0 on; a repeated token, and one that doesn't live; a log without bytes, in
/// which a period takes one token; the periods moved by one and past both; and refused texts.
pub fn rows()
    ensures first { hash_word 0 1 ≡ 16294208416658607535 }
    ensures second { hash_word 0 2 ≡ 7960286522194355700 }
    ensures repeated { token_report (record { max_bytes = 800; k_num = 22 })
        (record { nonce = 7; issued = 0; lifetime = 10 } ∷ record { nonce = 7; issued = 0; lifetime = 10 } ∷ record { nonce = 8; issued = 0; lifetime = 0 } ∷ [])
        ≡ codes "ok" ++ 10 ∷ codes "reused" ++ 10 ∷ codes "reused" ++ 10 ∷ codes "ok 3" ++ 10 ∷ [] }
    ensures tiny { token_report (record { max_bytes = 0; k_num = 1 })
        (record { nonce = 7; issued = 0; lifetime = 10 } ∷ record { nonce = 8; issued = 0; lifetime = 10 } ∷ [])
        ≡ codes "ok" ++ 10 ∷ codes "reused" ++ 10 ∷ codes "ok 2" ++ 10 ∷ [] }
    ensures moving { token_report (record { max_bytes = 800; k_num = 22 })
        (record { nonce = 7; issued = 0; lifetime = 10 } ∷ record { nonce = 8; issued = 10; lifetime = 10 } ∷ record { nonce = 7; issued = 0; lifetime = 10 }
        ∷ record { nonce = 7; issued = 30; lifetime = 10 } ∷ record { nonce = 8; issued = 10; lifetime = 10 } ∷ [])
        ≡ codes "ok" ++ 10 ∷ codes "ok" ++ 10 ∷ codes "reused" ++ 10 ∷ codes "ok" ++ 10 ∷ codes "reused" ++ 10 ∷ codes "ok 5" ++ 10 ∷ [] }
    ensures nothing { IsTokenRefusedAt [] 1 }
    ensures unlimited { IsTokenRefusedAt (codes "token 1 2 3") 1 }
    ensures limited_twice { IsTokenRefusedAt (codes "tokenlog 1 1" ++ 10 ∷ 10 ∷ codes "tokenlog 1 1") 3 }
{}
