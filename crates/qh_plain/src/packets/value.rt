ghost use Rattle.std.specs.Prelude.{◌≡◌, ◌≤◌, ℕ, ◌+◌, ◌*◌, ◌<◌, ◌^◌, List, length, IfOk, IfSome, IfNone};
ghost use Rattle.std.specs.Option.{option_map};
ghost use Rattle.qh_spec.specs.QuicFrames.{Value, Num, Text, Nums, Fixed as AFixed, Counted as ACounted, ShortCounted as AShortCounted, Ranges as ARanges, IsNumber, AreNumbers, IsValue};
ghost use Rattle.qh_plain.specs.Packets.{part_of, number_in, text_in, numbers_in};

use bytes::Bytes;
use qh_base::{Memory, get_varint};
use std::alloc::Global;
use std::marker::Model;

/// Numbers in a row. A contract sees them as the list.
#[derive(Drop)]
pub struct Numbers {
    items: Vec<u64>,
}

impl Model for Numbers {
    ghost use Rattle.std.specs.Prelude.{ℕ, List};

    ghost Value = { List ℕ };

    ghost view = { λ n. n.items.items };
}

impl Numbers {
    /// The numbers in order.
    pub fn items(&self) -> &[u64]
        ensures { result.now ≡ self.now }
    {
        &self.items
    }
}

#[derive(Drop)]
enum Content {
    Number(u64),
    Text(Bytes),
    Numbers(Numbers),
}

/// What stands in a field of a frame: a number below 2^62, bytes, or numbers.
#[derive(Drop)]
pub struct FieldValue {
    content: Content,
}

impl Model for FieldValue {
    ghost use Rattle.qh_spec.specs.QuicFrames.{Value as AValue};
    ghost use Rattle.qh_plain.specs.Packets.{value_of, IsSmall};

    ghost Value = { AValue };

    ghost view = { λ v. value_of v.content };

    ghost invariant = { λ v. IsSmall v.content };
}

impl FieldValue {
    /// The number, where it is one.
    pub fn number(&self) -> Option<u64>
        ensures value { result ≡ number_in self.now }
        ensures bound { IfSome result (λ n. n < 2 ^ 62) }
    {
        match &self.content {
            Content::Number(n) => Some(*n),
            _ => None,
        }
    }

    /// The bytes, where it is bytes.
    pub fn text(&self) -> Option<&[u8]>
        ensures { option_map (λ t. t.now) result ≡ text_in self.now }
    {
        match &self.content {
            Content::Text(bytes) => Some(bytes.as_slice()),
            _ => None,
        }
    }

    /// The numbers, where it is several.
    pub fn numbers(&self) -> Option<&[u64]>
        ensures { option_map (λ t. t.now) result ≡ numbers_in self.now }
    {
        match &self.content {
            Content::Numbers(numbers) => Some(numbers.items()),
            _ => None,
        }
    }
}

/// What a field is made of (the notation of RFC 9000, section 1.3).
#[derive(Clone, Copy)]
pub(super) enum Part {
    /// A number in any form.
    Number,
    /// So many bytes.
    Fixed(u64),
    /// Their count as a number, and the bytes.
    Counted,
    /// Their count as one byte, and the bytes.
    ShortCounted,
    /// All bytes that are left.
    Left,
    /// The ranges of an ACK frame.
    Ranges,
}

/// The number that begins the bytes, and what follows it.
pub(super) fn read_number(bytes: &[u8]) -> Option<(u64, &[u8])>
    ensures found { IfSome result (λ f. IsNumber bytes.now f.0 f.1.now) }
    ensures bound { IfSome result (λ f. f.0 < 2 ^ 62) }
    ensures none { IfNone result ((n : ℕ) (rest : List ℕ) → IsNumber bytes.now n rest → ⊥) }
{
    let Some((value, size)) = get_varint(bytes) else {
        return None;
    };
    Some((value.into_inner(), &bytes[size..]))
}

/// So many bytes, and what follows them.
pub(super) fn fixed(size: u64, bytes: &[u8]) -> Option<(&[u8], &[u8])>
    ensures found { IfSome result (λ f. IsValue (AFixed size) bytes.now (Text f.0.now) f.1.now) }
    ensures none { IfNone result ((text rest : List ℕ) → IsValue (AFixed size) bytes.now (Text text) rest → ⊥) }
{
    if (bytes.len() as u64) < size {
        return None;
    }
    Some(bytes.split_at(size as usize))
}

/// Bytes behind their count as a number, and what follows them.
pub(super) fn counted(bytes: &[u8]) -> Option<(&[u8], &[u8])>
    ensures found { IfSome result (λ f. IsValue ACounted bytes.now (Text f.0.now) f.1.now) }
    ensures none { IfNone result ((text rest : List ℕ) → IsValue ACounted bytes.now (Text text) rest → ⊥) }
{
    let Some((count, rest)) = read_number(bytes) else {
        return None;
    };
    fixed(count, rest)
}

/// Bytes behind their count as one byte, and what follows them.
pub(super) fn short_counted(bytes: &[u8]) -> Option<(&[u8], &[u8])>
    ensures found { IfSome result (λ f. IsValue AShortCounted bytes.now (Text f.0.now) f.1.now) }
    ensures none { IfNone result ((text rest : List ℕ) → IsValue AShortCounted bytes.now (Text text) rest → ⊥) }
{
    let [count, rest @ ..] = bytes else {
        return None;
    };
    fixed(u64::from(*count), rest)
}

/// So many numbers, and what follows them.
pub(super) fn read_numbers(
    alloc: Global,
    count: u64,
    bytes: &[u8],
) -> Result<Option<(Numbers, &[u8])>, Memory>
    ensures found { IfOk result (λ r. IfSome r (λ f. AreNumbers bytes.now f.0 f.1.now)) }
    ensures count { IfOk result (λ r. IfSome r (λ f. length f.0 ≡ count)) }
    ensures none { IfOk result (λ r. IfNone r ((ns rest : List ℕ) → length ns ≡ count → AreNumbers bytes.now ns rest → ⊥)) }
{
    let mut items = Vec::new(alloc);
    let mut rest = bytes;
    for _index in 0..count {
        let Some((n, after)) = read_number(rest) else {
            return Ok(None);
        };
        items.push(n)?;
        rest = after;
    }
    Ok(Some((Numbers { items }, rest)))
}

/// The ranges of an ACK frame: a count n, 1 + 2 * n numbers, and what follows them.
fn ranges(alloc: Global, bytes: &[u8]) -> Result<Option<(Numbers, &[u8])>, Memory>
    ensures found { IfOk result (λ r. IfSome r (λ f. IsValue ARanges bytes.now (Nums f.0) f.1.now)) }
    ensures none { IfOk result (λ r. IfNone r ((ns rest : List ℕ) → IsValue ARanges bytes.now (Nums ns) rest → ⊥)) }
{
    let Some((n, rest)) = read_number(bytes) else {
        return Ok(None);
    };
    read_numbers(alloc, 1 + 2 * n, rest)
}

impl Part {
    /// The value of such a field that begins the bytes, and what follows it.
    pub(super) fn read(
        self,
        alloc: Global,
        bytes: &[u8],
    ) -> Result<Option<(FieldValue, &[u8])>, Memory>
        ensures found { IfOk result (λ r. IfSome r (λ f. IsValue (part_of self) bytes.now f.0 f.1.now)) }
        ensures none { IfOk result (λ r. IfNone r ((v : Value) (rest : List ℕ) → IsValue (part_of self) bytes.now v rest → ⊥)) }
    {
        match self {
            Part::Number => {
                let Some((n, rest)) = read_number(bytes) else {
                    return Ok(None);
                };
                let content = Content::Number(n);
                Ok(Some((FieldValue { content }, rest)))
            }
            Part::Ranges => {
                let Some((numbers, rest)) = ranges(alloc, bytes)? else {
                    return Ok(None);
                };
                let content = Content::Numbers(numbers);
                Ok(Some((FieldValue { content }, rest)))
            }
            _ => {
                let Some((text, rest)) = self.text(bytes) else {
                    return Ok(None);
                };
                let content = Content::Text(Bytes::copy_from_slice(alloc, text)?);
                Ok(Some((FieldValue { content }, rest)))
            }
        }
    }

    /// The bytes in such a field, where it has bytes, and what follows it.
    fn text(self, bytes: &[u8]) -> Option<(&[u8], &[u8])>
        ensures found { IfSome result (λ f. IsValue (part_of self) bytes.now (Text f.0.now) f.1.now) }
        ensures none { IfNone result ((text rest : List ℕ) → IsValue (part_of self) bytes.now (Text text) rest → ⊥) }
    {
        match self {
            Part::Fixed(size) => fixed(size, bytes),
            Part::Counted => counted(bytes),
            Part::ShortCounted => short_counted(bytes),
            Part::Left => Some((bytes, &bytes[bytes.len()..])),
            Part::Number | Part::Ranges => None,
        }
    }
}
