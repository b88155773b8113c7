ghost use Rattle.std.specs.Prelude.{◌≡◌, ◌++◌, length, OnOk, OnErr, IfOk};
ghost use Rattle.qh_spec.specs.PrefixInteger.{prefixed};
ghost use Rattle.qh_spec.specs.Section.{line_bytes, section_bytes};
ghost use Rattle.qh_qpack.specs.Grown.{HasGrown};
ghost use Rattle.qh_qpack.specs.SectionFault.{bounded_size};

use crate::field::added_size;
use crate::{HeaderField, prefix_int, prefix_string, static_};
use qh_base::Memory;

/// Appends the section of the fields, and answers its size (RFC 9114, section 4.2.2), at most the greatest number of 64
/// bits. A field that stands in the static table is written by its least index there, else its name by its least index,
/// and else the name itself; integers are written in their shortest form.
pub fn encode_stateless(out: &mut Vec<u8>, fields: &[HeaderField]) -> Result<u64, Memory>
    ensures ok { OnOk result (out.new.items ≡ out.old.items ++ section_bytes fields.now) }
    ensures size { IfOk result (λ n. n ≡ bounded_size fields.now) }
    ensures err { OnErr result (out.new.items ≡ out.old.items) }
{
    let start = out.len();
    match encode_section(out, fields) {
        Ok(size) => Ok(size),
        Err(memory) => {
            out.truncate(start);
            Err(memory)
        }
    }
}

/// The same, but want of memory may leave a part of the section.
fn encode_section(out: &mut Vec<u8>, fields: &[HeaderField]) -> Result<u64, Memory>
    ensures ok { OnOk result (out.new.items ≡ out.old.items ++ section_bytes fields.now) }
    ensures size { IfOk result (λ n. n ≡ bounded_size fields.now) }
    ensures err { OnErr result (HasGrown out.old.items out.new.items) }
{
    // A required insert count and a base of 0 (section 4.5.1).
    out.extend_from_slice(&[0, 0])?;
    let mut size = 0;
    for field in fields {
        encode_field(out, field)?;
        size = added_size(size, field.name.as_slice(), field.value.as_slice());
    }
    Ok(size)
}

/// Appends a line (sections 4.5.2, 4.5.4 and 4.5.6). Want of memory may leave a part of it.
fn encode_field(out: &mut Vec<u8>, field: &HeaderField) -> Result<(), Memory>
    ensures ok { OnOk result (out.new.items ≡ out.old.items ++ line_bytes field.now) }
    ensures err { OnErr result (HasGrown out.old.items out.new.items) }
{
    if let Some(index) = static_::find(field) {
        return prefix_int::encode(out, 0b1100_0000, 6, index);
    }
    if let Some(index) = static_::find_name(field) {
        prefix_int::encode(out, 0b0101_0000, 4, index)?;
        return prefix_string::encode(out, field.value.as_slice());
    }
    encode_name(out, field.name.as_slice())?;
    prefix_string::encode(out, field.value.as_slice())
}

/// Appends the part of a line up to its value, where the name is written out.
fn encode_name(out: &mut Vec<u8>, name: &[u8]) -> Result<(), Memory>
    ensures ok { OnOk result (out.new.items ≡ out.old.items ++ (prefixed 32 3 (length name.now) ++ name.now)) }
    ensures err { OnErr result (HasGrown out.old.items out.new.items) }
{
    prefix_int::encode(out, 0b0010_0000, 3, name.len() as u64)?;
    out.extend_from_slice(name)?;
    Ok(())
}
