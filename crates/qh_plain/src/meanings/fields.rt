//! The map that fields mean.
ghost use Rattle.std.specs.Prelude.{◌≡◌, ◌↔◌, IfOk, IsTrue};
ghost use Rattle.std.specs.List.{AllByRecursion};
ghost use Rattle.http_header.specs.HeaderMap.{keys};
ghost use Rattle.qh_spec.specs.Meaning.{MeansFields, is_pseudo_name};
ghost use Rattle.qh_plain.specs.Agreement.{HasValues, IsCovered};

use super::readable::is_readable;
use super::values::has_values;
use crate::sections::FieldLine;
use http_header::HeaderMap;
use qh_base::Memory;
use std::alloc::Global;

/// Whether each field can be read, and those that aren't pseudo fields are those of the map, name by name, in order.
pub fn means_fields(alloc: Global, fields: &[FieldLine], map: &HeaderMap) -> Result<bool, Memory>
    ensures { IfOk result (λ means. IsTrue means ↔ MeansFields fields.now map.now) }
{
    Ok(has_their_values(map, fields) && are_covered(alloc, map, fields)?)
}

// Whether the map has the fields' values under each of its names.
fn has_their_values(map: &HeaderMap, fields: &[FieldLine]) -> bool
    ensures { IsTrue result ↔ AllByRecursion (HasValues map.now fields.now) (keys map.now) }
{
    map.keys().all(|name| has_values(map, name, fields))
}

// Whether each field can be read, and the map has its name if it isn't a pseudo field.
fn are_covered(alloc: Global, map: &HeaderMap, fields: &[FieldLine]) -> Result<bool, Memory>
    ensures { IfOk result (λ covered. IsTrue covered ↔ AllByRecursion (IsCovered map.now) fields.now) }
{
    for field in fields {
        if !is_covered(alloc, map, field)? {
            return Ok(false);
        }
    }
    Ok(true)
}

fn is_covered(alloc: Global, map: &HeaderMap, field: &FieldLine) -> Result<bool, Memory>
    ensures { IfOk result (λ covered. IsTrue covered ↔ IsCovered map.now field.now) }
{
    if !is_pseudo_name(field.name()) && !map.contains_key(field.name()) {
        return Ok(false);
    }
    is_readable(alloc, field)
}

fn is_pseudo_name(name: &[u8]) -> bool
    ensures { result ≡ is_pseudo_name name.now }
{
    name.first() == Some(&b':')
}
