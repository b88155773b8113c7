//! Heads of messages, made, listed, read and taken apart.
use crate::say::{Answer, put, put_field, put_named};
use crate::sections::{decoded, encoded, fields, put_fields};
use http::method::MethodError;
use http::{Method, StatusCode};
use http_header::{
    HeaderMap, HeaderMapError, HeaderName, HeaderNameError, HeaderValue, HeaderValueError,
};
use http_uri::{Uri, UriError};
use qh_h3wire::{Header, HeaderError};
use qh_qpack::HeaderField;
use row_text::{RowFault, Words, put_text};
use std::alloc::Global;

/// Answers a row. Whether its word is known.
pub(crate) fn answer(
    alloc: Global,
    word: &str,
    words: &mut Words<'_>,
    out: &mut Vec<u8>,
) -> Result<bool, RowFault> {
    match word {
        "head" => tell_head(alloc, out, words)?,
        "head-error" => tell_error(alloc, out, words)?,
        _ => return Ok(false),
    }
    Ok(true)
}

/// The method of this name.
pub(crate) fn method(alloc: Global, name: &str) -> Result<Method, RowFault> {
    match Method::from_bytes(alloc, name.as_bytes()) {
        Ok(method) => Ok(method),
        Err(MethodError::Invalid) => Err(RowFault::Form),
        Err(MethodError::OutOfMemory) => Err(RowFault::Memory),
    }
}

/// The target that a text spells.
pub(crate) fn target(alloc: Global, text: &str) -> Result<Uri, RowFault> {
    match Uri::from_str(alloc, text) {
        Ok(target) => Ok(target),
        Err(UriError::Invalid(_)) => Err(RowFault::Form),
        Err(UriError::OutOfMemory) => Err(RowFault::Memory),
    }
}

/// The next word as a status.
pub(crate) fn status(words: &mut Words<'_>) -> Result<StatusCode, RowFault> {
    match StatusCode::from_bytes(words.next().as_bytes()) {
        Ok(status) => Ok(status),
        Err(_) => Err(RowFault::Form),
    }
}

/// A map of these fields.
pub(crate) fn map_of(alloc: Global, fields: &[HeaderField]) -> Result<HeaderMap, RowFault> {
    let mut map = HeaderMap::new(alloc);
    for field in fields {
        let name = name_of(alloc, field.name.as_slice())?;
        append(&mut map, name, value_of(alloc, field.value.as_slice())?)?;
    }
    Ok(map)
}

fn name_of(alloc: Global, bytes: &[u8]) -> Result<HeaderName, RowFault> {
    match HeaderName::from_bytes(alloc, bytes) {
        Ok(name) => Ok(name),
        Err(HeaderNameError::Invalid) => Err(RowFault::Form),
        Err(HeaderNameError::OutOfMemory) => Err(RowFault::Memory),
    }
}

fn value_of(alloc: Global, bytes: &[u8]) -> Result<HeaderValue, RowFault> {
    match HeaderValue::from_bytes(alloc, bytes) {
        Ok(value) => Ok(value),
        Err(HeaderValueError::Invalid) => Err(RowFault::Form),
        Err(HeaderValueError::OutOfMemory) => Err(RowFault::Memory),
    }
}

fn append(map: &mut HeaderMap, name: HeaderName, value: HeaderValue) -> Answer {
    match map.append(name, value) {
        Ok(_) => Ok(()),
        Err(HeaderMapError::MaxSizeReached) => Err(RowFault::Form),
        Err(HeaderMapError::OutOfMemory) => Err(RowFault::Memory),
    }
}

/// Appends the fields of a map.
pub(crate) fn put_map(out: &mut Vec<u8>, map: &HeaderMap) -> Answer {
    for (name, value) in map.iter() {
        put_field(out, name.as_str().as_bytes(), value.as_bytes())?;
    }
    Ok(())
}

/// Appends a method and a target.
pub(crate) fn put_request(alloc: Global, out: &mut Vec<u8>, method: &Method, uri: &Uri) -> Answer {
    put_text(out, format!(in alloc; "{method} {uri}")?.as_str())?;
    Ok(())
}

// Tells what the next word says of the head that the others tell.
fn tell_head(alloc: Global, out: &mut Vec<u8>, words: &mut Words<'_>) -> Answer {
    let wanted = words.next();
    match head(alloc, words)? {
        Ok(head) => tell(alloc, out, wanted, head),
        Err(error) => put_error(out, error),
    }
}

fn tell(alloc: Global, out: &mut Vec<u8>, wanted: &str, head: Header) -> Answer {
    match wanted {
        "list" => tell_list(alloc, out, head),
        "request" => tell_request(alloc, out, head),
        "response" => tell_response(out, head),
        "fields" => {
            put(out, "fields")?;
            put_map(out, &head.into_fields())
        }
        _ => Err(RowFault::Form),
    }
}

fn tell_list(alloc: Global, out: &mut Vec<u8>, head: Header) -> Answer {
    match head.into_list(alloc) {
        Ok(list) => {
            put(out, "list")?;
            put_fields(out, &list)
        }
        Err(error) => put_error(out, error),
    }
}

fn tell_request(alloc: Global, out: &mut Vec<u8>, head: Header) -> Answer {
    match head.into_request_parts() {
        Ok((method, uri, fields)) => {
            put_request(alloc, out, &method, &uri)?;
            put_map(out, &fields)
        }
        Err(error) => put_error(out, error),
    }
}

fn tell_response(out: &mut Vec<u8>, head: Header) -> Answer {
    match head.into_response_parts() {
        Ok((status, fields)) => {
            put_named(out, "status", u64::from(status.as_u16()))?;
            put_map(out, &fields)
        }
        Err(error) => put_error(out, error),
    }
}

// A head, or why there is none.
type Made = Result<Header, HeaderError>;

// The head that the words tell. Behind `again` it is the one that is read of the section that is written of it.
fn head(alloc: Global, words: &mut Words<'_>) -> Result<Made, RowFault> {
    match words.next() {
        "again" => match plain_head(alloc, words.next(), words)? {
            Ok(head) => Ok(read_again(alloc, head)),
            Err(error) => Ok(Err(error)),
        },
        kind => plain_head(alloc, kind, words),
    }
}

fn plain_head(alloc: Global, kind: &str, words: &mut Words<'_>) -> Result<Made, RowFault> {
    match kind {
        "asked" => asked(alloc, words),
        "answered" => answered(alloc, words),
        "trailers" => Ok(Ok(Header::trailer(map(alloc, words)?))),
        "lines" => Ok(from_fields(alloc, fields(alloc, words)?)),
        _ => Err(RowFault::Form),
    }
}

fn map(alloc: Global, words: &mut Words<'_>) -> Result<HeaderMap, RowFault> {
    map_of(alloc, &fields(alloc, words)?)
}

fn asked(alloc: Global, words: &mut Words<'_>) -> Result<Made, RowFault> {
    let method = method(alloc, words.next())?;
    let uri = target(alloc, words.next())?;
    Ok(request(method, uri, map(alloc, words)?))
}

fn request(method: Method, uri: Uri, fields: HeaderMap) -> Made {
    Header::request(method, uri, fields)
}

fn answered(alloc: Global, words: &mut Words<'_>) -> Result<Made, RowFault> {
    let status = status(words)?;
    Ok(Ok(Header::response(status, map(alloc, words)?)))
}

fn from_fields(alloc: Global, fields: Vec<HeaderField>) -> Made {
    Header::from_fields(alloc, fields)
}

fn read_again(alloc: Global, head: Header) -> Made {
    let list = head.into_list(alloc)?;
    let mut section = Vec::new(alloc);
    let size = encoded(&mut section, &list)?;
    match decoded(alloc, &section, size) {
        Ok(section) => from_fields(alloc, section.fields),
        Err(_) => Err(HeaderError::Memory),
    }
}

// Appends an error's name, or says that there was no memory.
fn put_error(out: &mut Vec<u8>, error: HeaderError) -> Answer {
    match error {
        HeaderError::InvalidHeaderName => put(out, "InvalidHeaderName"),
        HeaderError::InvalidHeaderValue => put(out, "InvalidHeaderValue"),
        HeaderError::InvalidRequest => put(out, "InvalidRequest"),
        HeaderError::MissingMethod => put(out, "MissingMethod"),
        HeaderError::MissingStatus => put(out, "MissingStatus"),
        HeaderError::MissingAuthority => put(out, "MissingAuthority"),
        HeaderError::ContradictedAuthority => put(out, "ContradictedAuthority"),
        HeaderError::Memory => Err(RowFault::Memory),
    }
}

// Tells the text that shows an error.
fn tell_error(alloc: Global, out: &mut Vec<u8>, words: &mut Words<'_>) -> Answer {
    let error = match words.next() {
        "InvalidHeaderName" => HeaderError::InvalidHeaderName,
        "InvalidHeaderValue" => HeaderError::InvalidHeaderValue,
        "InvalidRequest" => HeaderError::InvalidRequest,
        "MissingMethod" => HeaderError::MissingMethod,
        "MissingStatus" => HeaderError::MissingStatus,
        "MissingAuthority" => HeaderError::MissingAuthority,
        "ContradictedAuthority" => HeaderError::ContradictedAuthority,
        "Memory" => HeaderError::Memory,
        _ => return Err(RowFault::Form),
    };
    put_text(out, format!(in alloc; "{error}")?.as_str())?;
    Ok(())
}
