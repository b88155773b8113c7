//! Integers in the low bits of a byte, or past them (RFC 9204, section 4.1.1), below 2^63.

ghost use Rattle.std.specs.Prelude.{◌≡◌, ◌<◌, ◌≤◌, ◌^◌, IfSome};
ghost use Rattle.std.specs.Option.{option_map};
ghost use Rattle.qh_plain.specs.Sections.{septet_added, next_weight, continued_from, prefixed_at};

/// No integer reaches it. A weight that would pass it stands still there.
const LIMIT: u64 = 1 << 63;

/// The integer in the low bits of the first byte, or past them, and what follows it. The other bits of the byte are
/// `lead`, and `size` is two to the number of the low bits.
pub(crate) fn prefixed(lead: u8, size: u64, bytes: &[u8]) -> Option<(u64, &[u8])>
    requires some { 0 < size }
    requires small { size ≤ 256 }
    ensures { option_map (λ f. (f.0, f.1.now)) result ≡ prefixed_at lead size bytes.now }
{
    let [first, rest @ ..] = bytes else {
        return None;
    };
    let low = u64::from(first.saturating_sub(lead));
    if low + 1 < size {
        return Some((low, rest));
    }
    let (over, rest) = continued(rest)?;
    let value = size - 1 + over;
    if value < LIMIT {
        Some((value, rest))
    } else {
        None
    }
}

/// The integer that goes on past a first byte, and what follows it. It may be padded by zeros.
fn continued(bytes: &[u8]) -> Option<(u64, &[u8])>
    ensures value { option_map (λ f. (f.0, f.1.now)) result ≡ continued_from 0 1 bytes.now }
    ensures bound { IfSome result (λ f. f.0 < 2 ^ 63) }
{
    let mut value = 0;
    let mut weight = 1;
    let mut rest = bytes;
    while let [first, tail @ ..] = rest {
        value = septet_added(value, weight, *first)?;
        if *first < 128 {
            return Some((value, tail));
        }
        weight = next_weight(weight);
        rest = tail;
    }
    None
}

/// None where the sum reaches the limit.
fn septet_added(value: u64, weight: u64, byte: u8) -> Option<u64>
    ensures value { result ≡ septet_added value weight byte }
    ensures bound { IfSome result (λ n. n < 2 ^ 63) }
{
    let septet = u64::from(byte % 128);
    let sum = value.checked_add(septet.checked_mul(weight)?)?;
    if sum < LIMIT { Some(sum) } else { None }
}

/// The weight of the next seven bits.
fn next_weight(weight: u64) -> u64
    ensures { result ≡ next_weight weight }
{
    if weight > LIMIT / 128 {
        LIMIT
    } else {
        weight * 128
    }
}
