ghost use Rattle.std.specs.Prelude.{◌≡◌, ℕ, ◌<◌, ◌≤◌, List, [], ◌∷◌, ◌++◌, length, OnOk, IfOk, IfErr};
ghost use Rattle.std.specs.Result.{result_map_both};
ghost use Rattle.qh_spec.specs.Fields.{Field};
ghost use Rattle.qh_spec.specs.Section.{IsSection};
ghost use Rattle.qh_qpack.specs.Lines.{line_field, size_added};
ghost use Rattle.qh_qpack.specs.SectionAt.{zero_at, prefix_at};
ghost use Rattle.qh_qpack.specs.SectionFault.{bounded_size, RefusesSection};
ghost use Rattle.qh_qpack.specs.SectionReading.{LinesRead, TakesLine};

use crate::HeaderField;
use crate::field::added_size;
use crate::line::{Line, first_line};
use qh_base::Memory;
use std::alloc::Global;
use thiserror::Error;

/// The fields of a section, in order.
#[derive(Drop, PartialEq)]
pub struct Decoded {
    pub fields: Vec<HeaderField>,
    /// The section's size (RFC 9114, section 4.2.2): of each field the lengths of its name and value and 32, at most
    /// the greatest number of 64 bits.
    pub mem_size: u64,
}

/// Why bytes were not read as a section. The first line at fault decides.
#[derive(Clone, Copy, Debug, PartialEq, Eq, Error)]
pub enum DecoderError {
    /// The size up to and with the first field that passes the limit.
    #[error("a field section of at least {0} is too large")]
    HeaderTooLong(u64),
    /// A line is cut, an index is past the static table, or an integer isn't below 2^63.
    #[error("a malformed field section")]
    Malformed,
    /// A name or a value is compressed.
    #[error("a compressed string")]
    Huffman,
    /// The section refers to a dynamic table, or has a required insert count or a base other than 0.
    #[error("a reference to a dynamic table")]
    Dynamic,
    /// The allocator had no memory, and the section has no fault.
    #[error("out of memory")]
    Memory,
}

/// Reads a section of a size of at most `max_size` (RFC 9204, section 4.5). Integers may be written in any length. If there is
/// no memory for a field, the lines behind it are still checked, so that a fault is answered and not `Memory`.
pub fn decode_stateless(alloc: Global, bytes: &[u8], max_size: u64) -> Result<Decoded, DecoderError>
    ensures found { IfOk result (λ d. IsSection bytes.now d.fields.items) }
    ensures size { IfOk result (λ d. d.mem_size ≡ bounded_size d.fields.items) }
    ensures within { IfOk result (λ d. d.mem_size ≤ max_size) }
    ensures refused { IfErr result (RefusesSection max_size bytes.now) }
{
    let mut rest = after_prefix(bytes)?;
    let mut fields = Vec::new(alloc);
    let mut mem_size = 0;
    while !rest.is_empty() {
        let (line, after, size) = next_line(rest, mem_size, max_size)?;
        let Ok(()) = push_line(alloc, &mut fields, line) else {
            return Err(fault_of_rest(after, size, max_size));
        };
        mem_size = size;
        rest = after;
    }
    Ok(Decoded { fields, mem_size })
}

/// The fault of the lines that are left, or `Memory` if they have none.
fn fault_of_rest(bytes: &[u8], read: u64, max_size: u64) -> DecoderError
    ensures { (section : List ℕ) (fields : List Field) → LinesRead max_size section bytes.now fields read → RefusesSection max_size section result }
{
    let mut rest = bytes;
    let mut size = read;
    while !rest.is_empty() {
        match next_line(rest, size, max_size) {
            Ok((_, after, sum)) => {
                rest = after;
                size = sum;
            }
            Err(fault) => return fault,
        }
    }
    DecoderError::Memory
}

/// The line that begins the rest, what follows it, and the size of the section with it.
fn next_line(rest: &[u8], size: u64, max_size: u64) -> Result<(Line<'_>, &[u8], u64), DecoderError>
    requires { 0 < length rest.now }
    ensures shorter { IfOk result (λ r. length r.1.now < length rest.now) }
    ensures takes { (section : List ℕ) (fields : List Field) → LinesRead max_size section rest.now fields size → TakesLine result max_size section fields }
{
    let (line, after) = first_line(rest)?;
    let size = size_within(size, line, max_size)?;
    Ok((line, after, size))
}

/// Appends a line's field.
fn push_line(alloc: Global, fields: &mut Vec<HeaderField>, line: Line<'_>) -> Result<(), Memory>
    ensures { OnOk result (fields.new.items ≡ fields.old.items ++ line_field line.entry ∷ []) }
{
    fields.push(line.to_field(alloc)?)?;
    Ok(())
}

/// The lines behind a required insert count and a base of 0 (section 4.5.1).
fn after_prefix(bytes: &[u8]) -> Result<&[u8], DecoderError>
    ensures { result_map_both (λ lines. lines.now) (λ e. e) result ≡ prefix_at bytes.now }
{
    after_zero(after_zero(bytes)?)
}

/// What follows a number 0, in its one byte.
fn after_zero(bytes: &[u8]) -> Result<&[u8], DecoderError>
    ensures { result_map_both (λ rest. rest.now) (λ e. e) result ≡ zero_at bytes.now }
{
    match bytes {
        [0, rest @ ..] => Ok(rest),
        [] => Err(DecoderError::Malformed),
        _ => Err(DecoderError::Dynamic),
    }
}

/// The size of a section with one more field, where the limit holds it.
fn size_within(size: u64, line: Line<'_>, max_size: u64) -> Result<u64, DecoderError>
    ensures value { IfOk result (λ n. n ≡ size_added size (line_field line.entry)) }
    ensures within { IfOk result (λ n. n ≤ max_size) }
    ensures refused { IfErr result (λ e. e ≡ DecoderError.HeaderTooLong (size_added size (line_field line.entry))) }
    ensures over { IfErr result (λ e. max_size < size_added size (line_field line.entry)) }
{
    let size = added_size(size, line.name, line.value);
    if size > max_size {
        return Err(DecoderError::HeaderTooLong(size));
    }
    Ok(size)
}
