ghost use Rattle.std.specs.Prelude.{ℕ, ◌<◌, ◌^◌, List, IfSome, IfNone};
ghost use Rattle.qh_spec.specs.QuicFrames.{Text, Counted, IsNumber, IsValue};

use crate::get_varint;

/// Reads the number that begins the bytes, in any of its forms, and says what follows it. None exactly if it is cut, as the
/// empty slice is (RFC 9000, section 16).
pub fn get_number(bytes: &[u8]) -> Option<(u64, &[u8])>
    ensures found { IfSome result (λ f. IsNumber bytes.now f.0 f.1.now) }
    ensures bound { IfSome result (λ f. f.0 < 2 ^ 62) }
    ensures none { IfNone result ((n : ℕ) (rest : List ℕ) → IsNumber bytes.now n rest → ⊥) }
{
    let (value, size) = get_varint(bytes)?;
    Some((value.into_inner(), &bytes[size..]))
}

/// Reads the bytes behind their length, which is a number in any of its forms, and says what follows them. None exactly if
/// they are cut.
pub fn get_counted(bytes: &[u8]) -> Option<(&[u8], &[u8])>
    ensures found { IfSome result (λ f. IsValue Counted bytes.now (Text f.0.now) f.1.now) }
    ensures none { IfNone result ((text rest : List ℕ) → IsValue Counted bytes.now (Text text) rest → ⊥) }
{
    let (length, rest) = get_number(bytes)?;
    if (rest.len() as u64) < length {
        return None;
    }
    Some(rest.split_at(length as usize))
}
