//! Which fields can be read (RFC 9114, sections 4.2 and 4.3).
ghost use Rattle.std.specs.Prelude.{◌↔◌, codes, IfOk, IsTrue};
ghost use Rattle.http.specs.StatusCode.{IsCodeText};
ghost use Rattle.http_header.specs.Token.{IsToken};
ghost use Rattle.http_header.specs.FieldName.{IsHeaderName};
ghost use Rattle.http_header.specs.FieldValue.{IsFieldValue};
ghost use Rattle.http_uri.specs.Grammar.{IsAuthority, IsPathInput, IsScheme};
ghost use Rattle.qh_spec.specs.Meaning.{IsReadable};
ghost use Rattle.qh_plain.specs.Kinds.{IsKind, HasKind};

use crate::sections::FieldLine;
use http::method::MethodError;
use http::{Method, StatusCode};
use http_header::{HeaderName, HeaderNameError};
use http_uri::{Authority, PathAndQuery, Scheme, UriError};
use qh_base::Memory;
use std::alloc::Global;

/// What a field's name says that it is.
enum Kind {
    Method,
    Scheme,
    Authority,
    Path,
    Status,
    Plain,
}

/// Whether a field is a pseudo field with a value that it may have, or a field of a message with its name in lower
/// case.
pub fn is_readable(alloc: Global, field: &FieldLine) -> Result<bool, Memory>
    ensures { IfOk result (λ readable. IsTrue readable ↔ IsReadable field.now) }
{
    has_kind(alloc, field, kind_of(field.name()))
}

fn kind_of(name: &[u8]) -> Kind
    ensures { IsKind name.now result }
{
    if name == b":method".as_slice() {
        Kind::Method
    } else if name == b":scheme".as_slice() {
        Kind::Scheme
    } else if name == b":authority".as_slice() {
        Kind::Authority
    } else if name == b":path".as_slice() {
        Kind::Path
    } else if name == b":status".as_slice() {
        Kind::Status
    } else {
        Kind::Plain
    }
}

// Whether the field's value is of this kind.
fn has_kind(alloc: Global, field: &FieldLine, kind: Kind) -> Result<bool, Memory>
    ensures { IfOk result (λ has. IsTrue has ↔ HasKind field.now kind) }
{
    match kind {
        Kind::Method => is_method(alloc, field.value()),
        Kind::Scheme => is_scheme(alloc, field.value()),
        Kind::Authority => is_authority(alloc, field.value()),
        Kind::Path => is_path(alloc, field.value()),
        Kind::Status => Ok(is_status(field.value())),
        Kind::Plain => Ok(is_field_value(field.value()) && is_header_name(alloc, field.name())?),
    }
}

fn is_method(alloc: Global, value: &[u8]) -> Result<bool, Memory>
    ensures { IfOk result (λ is. IsTrue is ↔ IsToken value.now) }
{
    match Method::from_bytes(alloc, value) {
        Ok(_) => Ok(true),
        Err(MethodError::Invalid) => Ok(false),
        Err(MethodError::OutOfMemory) => Err(Memory),
    }
}

fn is_scheme(alloc: Global, value: &[u8]) -> Result<bool, Memory>
    ensures { IfOk result (λ is. IsTrue is ↔ IsScheme value.now) }
{
    match Scheme::from_bytes(alloc, value) {
        Ok(_) => Ok(true),
        Err(UriError::Invalid(_)) => Ok(false),
        Err(UriError::OutOfMemory) => Err(Memory),
    }
}

/// Whether the bytes are an authority.
pub(crate) fn is_authority(alloc: Global, value: &[u8]) -> Result<bool, Memory>
    ensures { IfOk result (λ is. IsTrue is ↔ IsAuthority value.now) }
{
    match Authority::from_bytes(alloc, value) {
        Ok(_) => Ok(true),
        Err(UriError::Invalid(_)) => Ok(false),
        Err(UriError::OutOfMemory) => Err(Memory),
    }
}

fn is_path(alloc: Global, value: &[u8]) -> Result<bool, Memory>
    ensures { IfOk result (λ is. IsTrue is ↔ IsPathInput value.now) }
{
    match PathAndQuery::from_bytes(alloc, value) {
        Ok(_) => Ok(true),
        Err(UriError::Invalid(_)) => Ok(false),
        Err(UriError::OutOfMemory) => Err(Memory),
    }
}

fn is_status(value: &[u8]) -> bool
    ensures { IsTrue result ↔ IsCodeText value.now }
{
    StatusCode::from_bytes(value).is_ok()
}

fn is_header_name(alloc: Global, name: &[u8]) -> Result<bool, Memory>
    ensures { IfOk result (λ is. IsTrue is ↔ IsHeaderName name.now) }
{
    match HeaderName::from_lowercase(alloc, name) {
        Ok(read) => Ok(read.as_bytes() == name),
        Err(HeaderNameError::Invalid) => Ok(false),
        Err(HeaderNameError::OutOfMemory) => Err(Memory),
    }
}

fn is_field_value(value: &[u8]) -> bool
    ensures { IsTrue result ↔ IsFieldValue value.now }
{
    value
        .iter()
        .all(|b| *b == b'\t' || (*b >= b' ' && *b != 0x7F))
}
