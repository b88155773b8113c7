//! One field line (RFC 9204, section 4.5) without references to a dynamic table and without compressed strings.

ghost use Rattle.std.specs.Prelude.{◌≡◌};
ghost use Rattle.std.specs.Option.{option_map};
ghost use Rattle.qh_plain.specs.Lines.{line_field};
ghost use Rattle.qh_plain.specs.Sections.{counted, string_at, named_at, literal_at, line_at};

use super::integer::prefixed;
use super::table;

/// A field line whose bytes lie in the section or in the static table.
#[derive(Clone, Copy)]
pub(crate) struct Line<'a> {
    pub(crate) name: &'a [u8],
    pub(crate) value: &'a [u8],
}

/// The line that begins the bytes, and what follows it. The highest bits of the first byte tell the form; the forms
/// that are missing refer to a dynamic table or have a compressed name.
pub(crate) fn first_line(bytes: &[u8]) -> Option<(Line<'_>, &[u8])>
    ensures { option_map (λ f. (line_field f.0, f.1.now)) result ≡ line_at bytes.now }
{
    match *bytes.first()? {
        // 001N0: the name is written out
        32..40 => {
            let (count, rest) = prefixed(32, 8, bytes)?;
            literal(count, rest)
        }
        48..56 => {
            let (count, rest) = prefixed(48, 8, bytes)?;
            literal(count, rest)
        }
        // 01N1: the name is that of a row of the static table
        80..96 => {
            let (index, rest) = prefixed(80, 16, bytes)?;
            named(index, rest)
        }
        112..128 => {
            let (index, rest) = prefixed(112, 16, bytes)?;
            named(index, rest)
        }
        // 11: name and value are those of a row
        192..=255 => {
            let (index, rest) = prefixed(192, 64, bytes)?;
            Some((table::row(index)?, rest))
        }
        _ => None,
    }
}

/// A field with its name from the static table.
fn named(index: u64, bytes: &[u8]) -> Option<(Line<'_>, &[u8])>
    ensures { option_map (λ f. (line_field f.0, f.1.now)) result ≡ named_at index bytes.now }
{
    let row = table::row(index)?;
    let (value, rest) = string(bytes)?;
    let name = row.name;
    Some((Line { name, value }, rest))
}

/// A field with its name written out, which has this length.
fn literal(count: u64, bytes: &[u8]) -> Option<(Line<'_>, &[u8])>
    ensures { option_map (λ f. (line_field f.0, f.1.now)) result ≡ literal_at count bytes.now }
{
    let (name, rest) = counted(count, bytes)?;
    let (value, rest) = string(rest)?;
    Some((Line { name, value }, rest))
}

/// A string that isn't compressed, and what follows it (section 4.1.2): a bit 0, a length in seven bits, and the bytes.
fn string(bytes: &[u8]) -> Option<(&[u8], &[u8])>
    ensures { option_map (λ f. (f.0.now, f.1.now)) result ≡ string_at bytes.now }
{
    let first = *bytes.first()?;
    if first >= 128 {
        return None;
    }
    let (count, rest) = prefixed(0, 128, bytes)?;
    counted(count, rest)
}

/// So many bytes, and what follows them.
pub(crate) fn counted(count: u64, bytes: &[u8]) -> Option<(&[u8], &[u8])>
    ensures { option_map (λ f. (f.0.now, f.1.now)) result ≡ counted count bytes.now }
{
    if (bytes.len() as u64) < count {
        return None;
    }
    Some(bytes.split_at(count as usize))
}
