//! Field lines, read.
ghost use Rattle.std.specs.Prelude.{◌≢◌, codes, IfOk, IfErr, MatchOption};
ghost use Rattle.http.specs.StatusCode.{IsCodeText};
ghost use Rattle.http_header.specs.FieldValue.{IsFieldValue};
ghost use Rattle.http_header.specs.Token.{IsToken};
ghost use Rattle.http_uri.specs.Grammar.{IsAuthority, IsPathInput, IsScheme};
ghost use Rattle.qh_spec.specs.Meaning.{IsReadable};
ghost use Rattle.qh_h3wire.specs.HeaderFault.{IsParsed, RefusesField, RefusesPlain, RefusesSeen};
ghost use Rattle.qh_h3wire.specs.HeadReading.{RefusesLines};
ghost use Rattle.qh_h3wire.specs.Kinds.{IsKind};

use super::HeaderError;
use http::method::MethodError;
use http::{Method, StatusCode};
use http_header::{HeaderName, HeaderNameError, HeaderValue, HeaderValueError, MAX_KEYS};
use http_uri::{Authority, PathAndQuery, Scheme, UriError};
use qh_grammar::{is_authority, is_path_input, is_scheme};
use qh_qpack::HeaderField;
use std::alloc::Global;

/// What a field's name says that it is.
enum Kind {
    Method,
    Scheme,
    Authority,
    Path,
    Status,
    Plain,
}

fn kind_of(name: &[u8]) -> Kind
    ensures { IsKind name.now result }
{
    if name == b":method".as_slice() {
        Kind::Method
    } else if name == b":scheme".as_slice() {
        Kind::Scheme
    } else if name == b":authority".as_slice() {
        Kind::Authority
    } else if name == b":path".as_slice() {
        Kind::Path
    } else if name == b":status".as_slice() {
        Kind::Status
    } else {
        Kind::Plain
    }
}

/// A pseudo-header field, or a field of a message.
#[derive(Drop)]
pub(super) enum ParsedField {
    Method(Method),
    Scheme(Scheme),
    Authority(Authority),
    Path(PathAndQuery),
    Status(StatusCode),
    Plain(HeaderName, HeaderValue),
}

impl ParsedField {
    /// The field as its name tells it. `Memory` is answered only for a field that can be read.
    pub(super) fn parse(alloc: Global, field: &HeaderField) -> Result<ParsedField, HeaderError>
        ensures ok { IfOk result (IsParsed field.now) }
        ensures err { IfErr result (λ e. RefusesField e field.now) }
    {
        let value = field.value.as_slice();
        match kind_of(field.name.as_slice()) {
            Kind::Method => ParsedField::parse_method(alloc, value),
            Kind::Scheme => ParsedField::parse_scheme(alloc, value),
            Kind::Authority => ParsedField::parse_authority(alloc, value),
            Kind::Path => ParsedField::parse_path(alloc, value),
            Kind::Status => ParsedField::parse_status(value),
            Kind::Plain => ParsedField::parse_plain(alloc, field.name.as_slice(), value),
        }
    }

    fn parse_method(alloc: Global, value: &[u8]) -> Result<ParsedField, HeaderError>
        ensures ok { IfOk result (IsParsed (record { name = codes ":method"; value = value.now })) }
        ensures err { IfErr result (λ e. RefusesSeen e (IsToken value.now)) }
    {
        match Method::from_bytes(alloc, value) {
            Ok(method) => Ok(ParsedField::Method(method)),
            Err(MethodError::Invalid) => Err(HeaderError::InvalidHeaderValue),
            Err(MethodError::OutOfMemory) => Err(HeaderError::Memory),
        }
    }

    fn parse_scheme(alloc: Global, value: &[u8]) -> Result<ParsedField, HeaderError>
        ensures ok { IfOk result (IsParsed (record { name = codes ":scheme"; value = value.now })) }
        ensures err { IfErr result (λ e. RefusesSeen e (IsScheme value.now)) }
    {
        match Scheme::from_bytes(alloc, value) {
            Ok(scheme) => Ok(ParsedField::Scheme(scheme)),
            Err(UriError::OutOfMemory) if is_scheme(value) => Err(HeaderError::Memory),
            Err(_) => Err(HeaderError::InvalidHeaderValue),
        }
    }

    fn parse_authority(alloc: Global, value: &[u8]) -> Result<ParsedField, HeaderError>
        ensures ok { IfOk result (IsParsed (record { name = codes ":authority"; value = value.now })) }
        ensures err { IfErr result (λ e. RefusesSeen e (IsAuthority value.now)) }
    {
        match Authority::from_bytes(alloc, value) {
            Ok(authority) => Ok(ParsedField::Authority(authority)),
            Err(UriError::OutOfMemory) if is_authority(value) => Err(HeaderError::Memory),
            Err(_) => Err(HeaderError::InvalidHeaderValue),
        }
    }

    fn parse_path(alloc: Global, value: &[u8]) -> Result<ParsedField, HeaderError>
        ensures ok { IfOk result (IsParsed (record { name = codes ":path"; value = value.now })) }
        ensures err { IfErr result (λ e. RefusesSeen e (IsPathInput value.now)) }
    {
        match PathAndQuery::from_bytes(alloc, value) {
            Ok(path) => Ok(ParsedField::Path(path)),
            Err(UriError::OutOfMemory) if is_path_input(value) => Err(HeaderError::Memory),
            Err(_) => Err(HeaderError::InvalidHeaderValue),
        }
    }

    fn parse_status(value: &[u8]) -> Result<ParsedField, HeaderError>
        ensures ok { IfOk result (IsParsed (record { name = codes ":status"; value = value.now })) }
        ensures err { IfErr result (λ e. RefusesSeen e (IsCodeText value.now)) }
    {
        match StatusCode::from_bytes(value) {
            Ok(status) => Ok(ParsedField::Status(status)),
            Err(_) => Err(HeaderError::InvalidHeaderValue),
        }
    }

    /// A field of a message, whose name is in lower case (RFC 9114, section 4.2).
    fn parse_plain(alloc: Global, name: &[u8], value: &[u8]) -> Result<ParsedField, HeaderError>
        ensures ok { IfOk result (IsParsed (record { name = name.now; value = value.now })) }
        ensures err { IfErr result (λ e. RefusesPlain e (record { name = name.now; value = value.now })) }
    {
        let name = match HeaderName::from_lowercase(alloc, name) {
            Ok(name) => name,
            Err(HeaderNameError::Invalid) => return Err(HeaderError::InvalidHeaderName),
            Err(HeaderNameError::OutOfMemory) => return Err(value_fault(alloc, value)),
        };
        match HeaderValue::from_bytes(alloc, value) {
            Ok(value) => Ok(ParsedField::Plain(name, value)),
            Err(HeaderValueError::Invalid) => Err(HeaderError::InvalidHeaderValue),
            Err(HeaderValueError::OutOfMemory) => Err(HeaderError::Memory),
        }
    }
}

/// What is wrong with the value of a field whose name can't be kept.
fn value_fault(alloc: Global, value: &[u8]) -> HeaderError
    ensures { RefusesSeen result (IsFieldValue value.now) }
{
    match HeaderValue::from_bytes(alloc, value) {
        Err(HeaderValueError::Invalid) => HeaderError::InvalidHeaderValue,
        _ => HeaderError::Memory,
    }
}

/// The fault of the first line that can't be read, or `Memory` if none of the first `MAX_KEYS` lines has one. It is called
/// if there was no memory to keep the lines; what it reads of them isn't kept.
pub(super) fn fault_of_lines(alloc: Global, lines: &[HeaderField]) -> HeaderError
    ensures { RefusesLines result lines.now }
{
    for line in &lines[..lines.len().min(MAX_KEYS)] {
        if let Some(fault) = fault_of_line(alloc, line) {
            return fault;
        }
    }
    HeaderError::Memory
}

/// Why a line can't be read.
fn fault_of_line(alloc: Global, line: &HeaderField) -> Option<HeaderError>
    ensures { MatchOption result (IsReadable line.now) (λ e. RefusesField e line.now × (e ≢ HeaderError.Memory)) }
{
    match ParsedField::parse(alloc, line) {
        Ok(field) => {
            drop(field);
            None
        }
        Err(HeaderError::Memory) => None,
        Err(fault) => Some(fault),
    }
}
