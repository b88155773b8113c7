//! Bytes that are placed at offsets, as one list.
ghost use Rattle.std.specs.Prelude.{◌≡◌, ◌<◌, ◌↔◌, ℕ, List, length, IfOk, IfSome, IfNone, IsTrue, MatchOption};
ghost use Rattle.std.specs.List.{AllByRecursion};
ghost use Rattle.qh_spec.specs.Lists.{In};
ghost use Rattle.qh_plain.specs.Placed.{AreFrom, IsAt, IsOnlyEnd, IsEmptyAt, AreWhole};

use qh_base::Memory;
use std::alloc::Global;

/// The list of all bytes that are placed, where they are one, and its length is the one end.
pub(super) fn whole_of(
    alloc: Global,
    placed: &[(u64, u8)],
    ends: &[u64],
) -> Result<Option<Vec<u8>>, Memory>
    ensures found { IfOk result (λ r. IfSome r (λ bytes. AreWhole placed.now ends.now bytes.items)) }
    ensures none { IfOk result (λ r. IfNone r ((bytes : List ℕ) → AreWhole placed.now ends.now bytes → ⊥)) }
{
    let Some(end) = only_end(ends) else {
        return Ok(None);
    };
    let Some(bytes) = gathered(alloc, placed, end)? else {
        return Ok(None);
    };
    if !are_all_at(placed, bytes.as_slice()) {
        return Ok(None);
    }
    Ok(Some(bytes))
}

// The end, where one is said and no other.
fn only_end(ends: &[u64]) -> Option<u64>
    ensures found { IfSome result (IsOnlyEnd ends.now) }
    ensures none { IfNone result ((end : ℕ) → IsOnlyEnd ends.now end → ⊥) }
{
    let end = *ends.first()?;
    if are_all(ends, end) { Some(end) } else { None }
}

fn are_all(ends: &[u64], end: u64) -> bool
    ensures { IsTrue result ↔ AllByRecursion (λ other. other ≡ end) ends.now }
{
    for other in ends {
        if *other != end {
            return false;
        }
    }
    true
}

// The bytes below an end, where there is one at each offset.
fn gathered(alloc: Global, placed: &[(u64, u8)], end: u64) -> Result<Option<Vec<u8>>, Memory>
    ensures found { IfOk result (λ r. IfSome r (λ bytes. (length bytes.items ≡ end) × AreFrom placed.now bytes.items)) }
    ensures none { IfOk result (λ r. IfNone r ((offset : ℕ) × (offset < end) × IsEmptyAt placed.now offset)) }
{
    let mut bytes = Vec::new(alloc);
    for offset in 0..end {
        let Some(byte) = byte_at(placed, offset) else {
            return Ok(None);
        };
        bytes.push(byte)?;
    }
    Ok(Some(bytes))
}

// A byte that is placed at an offset.
fn byte_at(placed: &[(u64, u8)], offset: u64) -> Option<u8>
    ensures { MatchOption result (IsEmptyAt placed.now offset) (λ byte. In (offset, byte) placed.now) }
{
    for (at, byte) in placed {
        if *at == offset {
            return Some(*byte);
        }
    }
    None
}

// Whether each byte that is placed stands there.
fn are_all_at(placed: &[(u64, u8)], bytes: &[u8]) -> bool
    ensures { IsTrue result ↔ AllByRecursion (IsAt bytes.now) placed.now }
{
    for (offset, byte) in placed {
        if bytes.get(*offset as usize) != Some(byte) {
            return false;
        }
    }
    true
}
