ghost use Rattle.std.specs.Prelude.{◌≡◌, ◌<◌, ◌^◌, IfSome};
ghost use Rattle.std.specs.Option.{option_map};
ghost use Rattle.qh_frame.specs.FieldsAt.{number_at, taken_at, counted_at, short_at};

use qh_base::{VarInt, get_varint};

// Reads a number, and says what follows it.
#[tactic(auto, unfolding(crate::specs::FieldsAt::number_at))]
pub(crate) fn number_of(bytes: &[u8]) -> Option<(VarInt, &[u8])>
    ensures { option_map (λ f. (f.0, f.1.now)) result ≡ number_at bytes.now }
{
    let (value, size) = get_varint(bytes)?;
    Some((value, &bytes[size..]))
}

// The same, as what the number is.
#[tactic(auto, unfolding(crate::specs::FieldsAt::number_at))]
pub(crate) fn value_of(bytes: &[u8]) -> Option<(u64, &[u8])>
    ensures exact { option_map (λ f. (f.0, f.1.now)) result ≡ number_at bytes.now }
    ensures bound { IfSome result (λ f. f.0 < 2 ^ 62) }
{
    let Some((value, size)) = get_varint(bytes) else {
        return None;
    };
    Some((value.into_inner(), &bytes[size..]))
}

// Reads so many bytes, and says what follows them.
#[tactic(auto, unfolding(crate::specs::FieldsAt::taken_at))]
pub(crate) fn taken_of(n: u64, bytes: &[u8]) -> Option<(&[u8], &[u8])>
    ensures { option_map (λ f. (f.0.now, f.1.now)) result ≡ taken_at n bytes.now }
{
    if (bytes.len() as u64) < n {
        return None;
    }
    Some(bytes.split_at(n as usize))
}

// Reads the bytes behind their length, and says what follows them.
#[tactic(auto, unfolding(crate::specs::FieldsAt::counted_at))]
pub(crate) fn counted_of(bytes: &[u8]) -> Option<(&[u8], &[u8])>
    ensures { option_map (λ f. (f.0.now, f.1.now)) result ≡ counted_at bytes.now }
{
    let Some((length, rest)) = number_of(bytes) else {
        return None;
    };
    taken_of(length.into_inner(), rest)
}

// The same where the length stands in one byte.
#[tactic(auto, unfolding(crate::specs::FieldsAt::short_at))]
pub(crate) fn short_of(bytes: &[u8]) -> Option<(&[u8], &[u8])>
    ensures { option_map (λ f. (f.0.now, f.1.now)) result ≡ short_at bytes.now }
{
    let Some((length, rest)) = bytes.split_first() else {
        return None;
    };
    taken_of(u64::from(*length), rest)
}

// Reads an array, and says what follows it.
#[tactic(auto, unfolding(crate::specs::FieldsAt::taken_at))]
pub(crate) fn array_of<const N: usize>(bytes: &[u8]) -> Option<(&[u8; N], &[u8])>
    ensures { option_map (λ f. (f.0.now, f.1.now)) result ≡ taken_at N bytes.now }
{
    bytes.split_first_chunk()
}
