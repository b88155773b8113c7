//! Sizes of field sections (RFC 9114, section 4.2.2), at most 2^64 - 1.
ghost use Rattle.std.specs.Prelude.{◌≡◌, ◌+◌, ◌-◌, ◌^◌, min, length, option_copied};
ghost use Rattle.qh_spec.specs.Fields.{optional_field, request_fields, head_fields, map_fields};
ghost use Rattle.qh_spec.specs.Message.{target_of, target_path_and_query};
ghost use Rattle.qh_spec.specs.Size.{section_size};
ghost use Rattle.qh_service.specs.Message.{head_of};

use crate::Head;
use http::Method;
use http_header::HeaderMap;
use http_uri::Uri;

// What a field takes beside its name and its value.
const OVERHEAD: u64 = 32;

// The size of one field.
fn field_size(name: &[u8], value: &[u8]) -> u64
    ensures { result ≡ min (2 ^ 64 - 1) (length name.now + length value.now + 32) }
{
    (name.len() as u64)
        .saturating_add(value.len() as u64)
        .saturating_add(OVERHEAD)
}

// The size of a field that may be missing.
fn optional_size(name: &[u8], value: Option<&str>) -> u64
    ensures { result ≡ min (2 ^ 64 - 1) (section_size (optional_field name.now (option_copied value.entry))) }
{
    match value {
        Some(value) => field_size(name, value.as_bytes()),
        None => 0,
    }
}

/// The size of the section of these fields.
pub(crate) fn fields_size(fields: &HeaderMap) -> u64
    ensures { result ≡ min (2 ^ 64 - 1) (section_size (map_fields fields.now)) }
{
    fields.iter().fold(0, |size: u64, (name, value)| {
        size.saturating_add(field_size(name.as_str().as_bytes(), value.as_bytes()))
    })
}

/// The size of the section of the pseudo-header fields of this head.
pub(crate) fn head_size(head: &Head) -> u64
    ensures { result ≡ min (2 ^ 64 - 1) (section_size (head_fields (head_of head.now))) }
{
    match head {
        Head::Request { method, uri } => request_size(method, uri),
        Head::Response { status } => field_size(b":status", status.as_str().as_bytes()),
    }
}

fn request_size(method: &Method, uri: &Uri) -> u64
    ensures { result ≡ min (2 ^ 64 - 1) (section_size (request_fields method.now (target_of uri.now))) }
{
    field_size(b":method", method.as_str().as_bytes())
        .saturating_add(optional_size(b":scheme", uri.scheme_str()))
        .saturating_add(optional_size(b":authority", authority_of(uri)))
        .saturating_add(optional_size(b":path", path_of(uri)))
}

fn authority_of(uri: &Uri) -> Option<&str>
    ensures { option_copied result ≡ (target_of uri.now).authority }
{
    match uri.authority() {
        Some(authority) => Some(authority.as_str()),
        None => None,
    }
}

// The path and the query, where the target has them. An empty path is `/`.
fn path_of(uri: &Uri) -> Option<&str>
    ensures { option_copied result ≡ target_path_and_query (target_of uri.now) }
{
    match uri.path_and_query() {
        Some(path) => Some(path.as_str()),
        None => None,
    }
}
