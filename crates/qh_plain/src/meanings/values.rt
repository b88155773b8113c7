//! The values of a name among fields, and of a name in a map.
ghost use Rattle.std.specs.Prelude.{◌≡◌, ◌↔◌, option_copied, slice_get, IsTrue};
ghost use Rattle.qh_spec.specs.Meaning.{pseudo, values_of};
ghost use Rattle.qh_plain.specs.Agreement.{HasValues};
ghost use Rattle.qh_plain.specs.Values.{bytes_of};

use crate::sections::FieldLine;
use http_header::{HeaderMap, HeaderName, HeaderValue, ValueIter};

/// The last value of a name.
pub(super) fn last_value<'a>(fields: &'a [FieldLine], name: &[u8]) -> Option<&'a [u8]>
    ensures { option_copied result ≡ pseudo name.now fields.now }
{
    let mut last = None;
    for field in fields {
        if field.name() == name {
            last = Some(field.value());
        }
    }
    last
}

/// The first value of a name.
pub(super) fn first_value<'a>(fields: &'a [FieldLine], name: &[u8]) -> Option<&'a [u8]>
    ensures { option_copied result ≡ slice_get (values_of name.now fields.now) 0 }
{
    for field in fields {
        if field.name() == name {
            return Some(field.value());
        }
    }
    None
}

/// Whether a map has, under one of its names, the values that the fields have.
pub(super) fn has_values(map: &HeaderMap, name: &HeaderName, fields: &[FieldLine]) -> bool
    ensures { IsTrue result ↔ HasValues map.now fields.now name.now }
{
    are_values(map.get_all(name).iter(), name.as_bytes(), fields)
}

// Whether these are the values that the fields have under this name.
fn are_values(mut values: ValueIter<'_, HeaderValue>, name: &[u8], fields: &[FieldLine]) -> bool
    ensures { IsTrue result ↔ (bytes_of values.entry ≡ values_of name.now fields.now) }
{
    for field in fields {
        if field.name() != name {
            continue;
        }
        let Some(value) = values.next() else {
            return false;
        };
        if value.as_bytes() != field.value() {
            return false;
        }
    }
    values.next().is_none()
}
