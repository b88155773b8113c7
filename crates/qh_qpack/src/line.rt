//! One field line (RFC 9204, section 4.5).

ghost use Rattle.std.specs.Prelude.{◌≡◌, IfOk};
ghost use Rattle.std.specs.Option.{option_map};
ghost use Rattle.std.specs.Result.{result_map_both};
ghost use Rattle.qh_qpack.specs.Lines.{line_field};
ghost use Rattle.qh_qpack.specs.SectionAt.{indexed_line_at, named_line_at, literal_line_at, line_at};

use crate::{DecoderError, HeaderField, Octets, prefix_int, prefix_string, static_};
use qh_base::Memory;
use std::alloc::Global;

/// A field line whose bytes lie in the section or in the static table.
#[derive(Clone, Copy)]
pub(crate) struct Line<'a> {
    pub(crate) name: &'a [u8],
    pub(crate) value: &'a [u8],
}

impl Line<'_> {
    /// The field, with its bytes in memory of its own.
    pub(crate) fn to_field(self, alloc: Global) -> Result<HeaderField, Memory>
        ensures { IfOk result (λ f. f ≡ line_field self.entry) }
    {
        let name = Octets::copied_from(alloc, self.name)?;
        let value = Octets::copied_from(alloc, self.value)?;
        Ok(HeaderField::new(name, value))
    }
}

/// The line that begins the bytes, and what follows it. The highest bits of the first byte tell the form: what is
/// compressed or refers to a dynamic table has a form of its own, a compressed value aside.
pub(crate) fn first_line(bytes: &[u8]) -> Result<(Line<'_>, &[u8]), DecoderError>
    ensures { result_map_both (λ f. (line_field f.0, f.1.now)) (λ e. e) result ≡ line_at bytes.now }
{
    let first = *bytes.first().ok_or(DecoderError::Malformed)?;
    match first {
        // 001N0: a name that is written out
        32..40 => literal(32, bytes),
        48..56 => literal(48, bytes),
        // 001N1: one that is compressed
        40..48 | 56..64 => Err(DecoderError::Huffman),
        // 01N1: the name of a row of the static table
        80..96 => named(80, bytes),
        112..128 => named(112, bytes),
        // 11: a row of it
        192..=255 => indexed(bytes),
        // 10, 01N0, 0001, 0000: a row of a dynamic table, or the name of one
        _ => Err(DecoderError::Dynamic),
    }
}

/// A row of the static table (section 4.5.2).
fn indexed(bytes: &[u8]) -> Result<(Line<'_>, &[u8]), DecoderError>
    ensures { result_map_both (λ f. (line_field f.0, f.1.now)) (λ e. e) result ≡ indexed_line_at bytes.now }
{
    let (index, rest) = prefix_int::decode(192, 64, bytes).ok_or(DecoderError::Malformed)?;
    let row = static_::get(index).ok_or(DecoderError::Malformed)?;
    Ok((row, rest))
}

/// A field with its name from the static table (section 4.5.4).
fn named(lead: u8, bytes: &[u8]) -> Result<(Line<'_>, &[u8]), DecoderError>
    ensures { result_map_both (λ f. (line_field f.0, f.1.now)) (λ e. e) result ≡ named_line_at lead bytes.now }
{
    let (index, rest) = prefix_int::decode(lead, 16, bytes).ok_or(DecoderError::Malformed)?;
    let row = static_::get(index).ok_or(DecoderError::Malformed)?;
    let (value, rest) = prefix_string::decode(rest)?;
    let name = row.name;
    Ok((Line { name, value }, rest))
}

/// A field with its name written out (section 4.5.6).
fn literal(lead: u8, bytes: &[u8]) -> Result<(Line<'_>, &[u8]), DecoderError>
    ensures { result_map_both (λ f. (line_field f.0, f.1.now)) (λ e. e) result ≡ literal_line_at lead bytes.now }
{
    let (count, rest) = prefix_int::decode(lead, 8, bytes).ok_or(DecoderError::Malformed)?;
    let (name, rest) = prefix_string::counted(count, rest).ok_or(DecoderError::Malformed)?;
    let (value, rest) = prefix_string::decode(rest)?;
    Ok((Line { name, value }, rest))
}
