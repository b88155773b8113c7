//! Integers in the low bits of a byte, or past them (RFC 9204, section 4.1.1), below 2^63.

ghost use Rattle.std.specs.Prelude.{◌≡◌, ◌+◌, ◌<◌, ◌≤◌, ◌^◌, ◌++◌, OnOk, OnErr, IfSome};
ghost use Rattle.std.specs.Option.{option_map};
ghost use Rattle.qh_spec.specs.PrefixInteger.{prefixed, continued_within};
ghost use Rattle.qh_qpack.specs.Grown.{HasGrown};
ghost use Rattle.qh_qpack.specs.SectionAt.{septet_added, next_weight, continued_from, prefixed_at};

use qh_base::Memory;

/// No integer reaches it. A weight that would pass it stands still there.
const LIMIT: u64 = 1 << 63;

/// The integer in the low bits of the first byte, or past them, and what follows it. The other bits of the byte are
/// `lead`, and `size` is two to the number of the low bits.
pub(crate) fn decode(lead: u8, size: u64, bytes: &[u8]) -> Option<(u64, &[u8])>
    requires some { 0 < size }
    requires small { size ≤ 256 }
    ensures { option_map (λ f. (f.0, f.1.now)) result ≡ prefixed_at lead size bytes.now }
{
    let [first, rest @ ..] = bytes else {
        return None;
    };
    let low = u64::from(first.saturating_sub(lead));
    if low + 1 < size {
        return Some((low, rest));
    }
    let (over, rest) = continued(rest)?;
    let value = size - 1 + over;
    if value < LIMIT {
        Some((value, rest))
    } else {
        None
    }
}

/// The integer that goes on past a first byte, and what follows it. It may be padded by zeros.
fn continued(bytes: &[u8]) -> Option<(u64, &[u8])>
    ensures value { option_map (λ f. (f.0, f.1.now)) result ≡ continued_from 0 1 bytes.now }
    ensures bound { IfSome result (λ f. f.0 < 2 ^ 63) }
{
    let mut value = 0;
    let mut weight = 1;
    let mut rest = bytes;
    while let [first, tail @ ..] = rest {
        value = septet_added(value, weight, *first)?;
        if *first < 128 {
            return Some((value, tail));
        }
        weight = next_weight(weight);
        rest = tail;
    }
    None
}

/// None where the sum reaches the limit.
fn septet_added(value: u64, weight: u64, byte: u8) -> Option<u64>
    ensures value { result ≡ septet_added value weight byte }
    ensures bound { IfSome result (λ n. n < 2 ^ 63) }
{
    let septet = u64::from(byte % 128);
    let sum = value.checked_add(septet.checked_mul(weight)?)?;
    if sum < LIMIT { Some(sum) } else { None }
}

/// The weight of the next seven bits.
fn next_weight(weight: u64) -> u64
    ensures { result ≡ next_weight weight }
{
    if weight > LIMIT / 128 {
        LIMIT
    } else {
        weight * 128
    }
}

/// Appends the shortest form. Want of memory may leave a part of it.
pub(crate) fn encode(out: &mut Vec<u8>, lead: u8, bits: u8, value: u64) -> Result<(), Memory>
    requires bits { bits ≤ 8 }
    requires lead { lead + 2 ^ bits ≤ 256 }
    requires value { value < 2 ^ 63 }
    ensures ok { OnOk result (out.new.items ≡ out.old.items ++ prefixed lead bits value) }
    ensures err { OnErr result (HasGrown out.old.items out.new.items) }
{
    let most = (1u64 << bits) - 1;
    if value < most {
        out.push(lead + value as u8)?;
        return Ok(());
    }
    out.push(lead + most as u8)?;
    encode_continued(out, value - most)
}

/// Appends the part of an integer that goes on past a first byte.
fn encode_continued(out: &mut Vec<u8>, value: u64) -> Result<(), Memory>
    requires { value < 2 ^ 63 }
    ensures ok { OnOk result (out.new.items ≡ out.old.items ++ continued_within 9 value) }
    ensures err { OnErr result (HasGrown out.old.items out.new.items) }
{
    let mut left = value;
    while left >= 128 {
        out.push((128 + left % 128) as u8)?;
        left /= 128;
    }
    out.push(left as u8)?;
    Ok(())
}
