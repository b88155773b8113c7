//! Numbers of a line.

ghost use Rattle.std.specs.Prelude.{◌≡◌, ℕ, ◌<◌, ◌↔◌, length, slice_index, MatchOption, IsTrue};
ghost use Rattle.qh_script.specs.Line.{IsNumber, IsNoNumber};

/// What most numbers lie below.
pub(crate) const NUMBER_END: u64 = 1 << 63;

/// A decimal number below 2^64 without a sign and without leading zeros.
pub(crate) fn read_number(text: &[u8]) -> Option<u64>
    ensures { MatchOption result (IsNoNumber text.now) (IsNumber text.now) }
{
    if text.is_empty() {
        return None;
    }
    if has_leading_zero(text) {
        return None;
    }
    let mut number = 0u64;
    for digit in text {
        if !digit.is_ascii_digit() {
            return None;
        }
        number = number
            .checked_mul(10)?
            .checked_add(u64::from(*digit - b'0'))?;
    }
    Some(number)
}

/// A number below this one.
pub(crate) fn read_below(text: &[u8], end: u64) -> Option<u64>
    ensures { MatchOption result ((n : ℕ) → IsNumber text.now n → n < end → ⊥) (λ n. IsNumber text.now n × (n < end)) }
{
    let number = read_number(text)?;
    if number < end { Some(number) } else { None }
}

fn has_leading_zero(text: &[u8]) -> bool
    ensures { IsTrue result ↔ ((1 < length text.now) × (slice_index text.now 0 ≡ 48)) }
{
    text.len() > 1 && text[0] == b'0'
}
