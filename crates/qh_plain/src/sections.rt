//! Field sections.

ghost use Rattle.std.specs.Prelude.{◌≡◌, ◌∷◌, ℕ, List, IfOk, IfSome, IfNone};
ghost use Rattle.qh_spec.specs.Fields.{Field};
ghost use Rattle.qh_spec.specs.Section.{IsSection, AreLines};

mod integer;
mod line;
mod table;

pub(crate) use line::counted;
use line::{Line, first_line};
use qh_base::Memory;
use std::alloc::Global;
use std::marker::Model;

/// A field line: a name and a value, as bytes.
#[derive(Drop)]
pub struct FieldLine {
    name: Vec<u8>,
    value: Vec<u8>,
}

impl Model for FieldLine {
    ghost use Rattle.qh_spec.specs.Fields.{Field};

    ghost Value = { Field };

    ghost view = { λ f. record { name = f.name.items; value = f.value.items } };
}

impl FieldLine {
    /// The field line with this name and this value.
    pub fn new(name: Vec<u8>, value: Vec<u8>) -> FieldLine
        ensures { result ≡ record { name = name.items; value = value.items } }
    {
        FieldLine { name, value }
    }

    /// The name.
    pub fn name(&self) -> &[u8]
        ensures { result.now ≡ self.now.name }
    {
        self.name.as_slice()
    }

    /// The value.
    pub fn value(&self) -> &[u8]
        ensures { result.now ≡ self.now.value }
    {
        self.value.as_slice()
    }

    /// A line with its bytes in memory of its own.
    fn copied(alloc: Global, line: Line<'_>) -> Result<FieldLine, Memory>
        ensures { IfOk result (λ f. f ≡ record { name = line.entry.name.now; value = line.entry.value.now }) }
    {
        let name = line.name.to_vec(alloc)?;
        let value = line.value.to_vec(alloc)?;
        Ok(FieldLine { name, value })
    }
}

/// The fields of a section (RFC 9204, section 4.5), or None where the bytes are no section.
pub fn section(alloc: Global, bytes: &[u8]) -> Result<Option<Vec<FieldLine>>, Memory>
    ensures found { IfOk result (λ r. IfSome r (λ fs. IsSection bytes.now fs.items)) }
    ensures none { IfOk result (λ r. IfNone r ((fields : List Field) → IsSection bytes.now fields → ⊥)) }
{
    let Some(lines) = after_prefix(bytes) else {
        return Ok(None);
    };
    all_lines(alloc, lines)
}

/// What follows a required insert count and a base of 0 (section 4.5.1).
fn after_prefix(bytes: &[u8]) -> Option<&[u8]>
    ensures found { IfSome result (λ lines. bytes.now ≡ 0 ∷ 0 ∷ lines.now) }
    ensures none { IfNone result ((lines : List ℕ) → bytes.now ≡ 0 ∷ 0 ∷ lines → ⊥) }
{
    match bytes {
        [0, 0, lines @ ..] => Some(lines),
        _ => None,
    }
}

/// The fields of all lines, one after another.
fn all_lines(alloc: Global, bytes: &[u8]) -> Result<Option<Vec<FieldLine>>, Memory>
    ensures found { IfOk result (λ r. IfSome r (λ fs. AreLines bytes.now fs.items)) }
    ensures none { IfOk result (λ r. IfNone r ((fields : List Field) → AreLines bytes.now fields → ⊥)) }
{
    let mut fields = Vec::new(alloc);
    let mut rest = bytes;
    while !rest.is_empty() {
        let Some((line, after)) = first_line(rest) else {
            return Ok(None);
        };
        let field = FieldLine::copied(alloc, line)?;
        fields.push(field)?;
        rest = after;
    }
    Ok(Some(fields))
}
