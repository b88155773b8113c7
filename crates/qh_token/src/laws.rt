ghost use Rattle.std.specs.Prelude.{◌≡◌, ℕ, ◌≤◌, List, length, drop};
ghost use Rattle.qh_spec.specs.Tag.{IsTag};
ghost use Rattle.qh_spec.specs.declared.sides.Side.{Side};
ghost use Rattle.qh_spec.specs.declared.sides.Space.{Space};
ghost use Rattle.qh_token.specs.Reset.{reset_token_of};
ghost use Rattle.qh_token.specs.Token.{IsToken, IsTokenValue, TokenValue, token_bytes};

/// Bytes are a token in one way at most, and the bytes that are written of a value are a token that says it.
pub fn token_forms()
    ensures one { (bytes : List ℕ) (v w : TokenValue) → IsToken bytes v → IsToken bytes w → v ≡ w }
    ensures written { (v : TokenValue) → IsTokenValue v → IsToken (token_bytes v) v }
{}

/// Ids of at most 14 bytes with one reset token are the same, a reset token has 16 bytes, and no tag of a packet ends with one.
pub fn reset_tokens()
    ensures one { (id other : List ℕ) → length id ≤ 14 → reset_token_of id ≡ reset_token_of other → id ≡ other }
    ensures size { (id : List ℕ) → length (reset_token_of id) ≡ 16 }
    ensures apart { (id tag : List ℕ) (sender : Side) (space : Space) (number : ℕ) → IsTag tag sender space number → drop 16 tag ≡ reset_token_of id → ⊥ }
{}
