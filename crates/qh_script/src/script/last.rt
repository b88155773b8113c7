//! What a line does to the last request.

ghost use Rattle.std.specs.Prelude.{◌≡◌, ℕ, List, Some, None, nat_lt, IfOk, OnOk, IfErr, unwrap_or};
ghost use Rattle.http_header.specs.FieldValue.{plain_value};
ghost use Rattle.http_header.specs.HeaderMap.{Entries, append, value_count};
ghost use Rattle.qh_spec.specs.Script.{field_count, filling as the_filling, with_field, with_trailer, with_body, change_last, trailers_so_far};
ghost use Rattle.qh_script.specs.Script.{WhenRefused};

use super::untaken::Untaken;
use http_header::{HeaderMap, HeaderName, HeaderValue};
use qh_base::Memory;
use qh_service::Message;
use std::alloc::Global;

/// How many fields and trailers a request takes.
pub(super) const MAX_FIELDS: usize = 2_000;

/// A field more in the last request.
pub(super) fn add_field(
    requests: &mut Vec<Message>,
    name: HeaderName,
    value: HeaderValue,
) -> Result<(), Untaken>
    ensures taken { OnOk result (change_last (with_field name value.bytes) requests.old.items ≡ Some requests.new.items) }
    ensures refused { IfErr result (λ e. WhenRefused e (change_last (with_field name value.bytes) requests.old.items ≡ None)) }
{
    let Some(last) = requests.last_mut() else {
        return Err(Untaken::Refused);
    };
    with_one_field(last, name, value)
}

fn with_one_field(
    message: &mut Message,
    name: HeaderName,
    value: HeaderValue,
) -> Result<(), Untaken>
    ensures taken { OnOk result (with_field name value.bytes message.old ≡ Some message.new) }
    ensures refused { IfErr result (λ e. WhenRefused e (with_field name value.bytes message.old ≡ None)) }
{
    if !has_room(message) {
        return Err(Untaken::Refused);
    }
    append_plain(message.fields_mut(), name, value)?;
    Ok(())
}

// Whether the request takes one more field or trailer.
fn has_room(message: &Message) -> bool
    ensures { result ≡ nat_lt (field_count message.now) 2000 }
{
    message
        .fields()
        .len()
        .saturating_add(trailer_count(message))
        < MAX_FIELDS
}

fn trailer_count(message: &Message) -> usize
    ensures { result ≡ value_count (trailers_so_far message.now) }
{
    match message.trailers() {
        Some(trailers) => trailers.len(),
        None => 0,
    }
}

// The value after those under its name, and none that is kept out of logs. A map that has room for it fails for want of
// memory alone.
fn append_plain(
    fields: &mut HeaderMap,
    name: HeaderName,
    mut value: HeaderValue,
) -> Result<(), Memory>
    ensures { OnOk result (fields.new ≡ append fields.old name (plain_value value.bytes)) }
{
    value.set_sensitive(false);
    match fields.append(name, value) {
        Ok(_) => Ok(()),
        Err(_) => Err(Memory),
    }
}

/// A trailer more in the last request.
pub(super) fn add_trailer(
    alloc: Global,
    requests: &mut Vec<Message>,
    name: HeaderName,
    value: HeaderValue,
) -> Result<(), Untaken>
    ensures taken { OnOk result (change_last (with_trailer name value.bytes) requests.old.items ≡ Some requests.new.items) }
    ensures refused { IfErr result (λ e. WhenRefused e (change_last (with_trailer name value.bytes) requests.old.items ≡ None)) }
{
    let Some(last) = requests.last_mut() else {
        return Err(Untaken::Refused);
    };
    with_one_trailer(alloc, last, name, value)
}

fn with_one_trailer(
    alloc: Global,
    message: &mut Message,
    name: HeaderName,
    value: HeaderValue,
) -> Result<(), Untaken>
    ensures taken { OnOk result (with_trailer name value.bytes message.old ≡ Some message.new) }
    ensures refused { IfErr result (λ e. WhenRefused e (with_trailer name value.bytes message.old ≡ None)) }
{
    if !has_room(message) {
        return Err(Untaken::Refused);
    }
    let mut trailers = trailers_copy(alloc, message)?;
    append_plain(&mut trailers, name, value)?;
    message.set_trailers(Some(trailers));
    Ok(())
}

// The trailers so far, again.
fn trailers_copy(alloc: Global, message: &Message) -> Result<HeaderMap, Memory>
    ensures { IfOk result (λ copy. copy ≡ trailers_so_far message.now) }
{
    match message.trailers() {
        Some(trailers) => match trailers.clone() {
            Ok(copy) => Ok(copy),
            Err(_) => Err(Memory),
        },
        None => Ok(HeaderMap::new(alloc)),
    }
}

/// These bytes as the last request's body.
pub(super) fn set_body(requests: &mut Vec<Message>, body: &[u8]) -> Result<(), Untaken>
    ensures taken { OnOk result (change_last (with_body body.now) requests.old.items ≡ Some requests.new.items) }
    ensures refused { IfErr result (λ e. WhenRefused e (change_last (with_body body.now) requests.old.items ≡ None)) }
{
    let Some(last) = requests.last_mut() else {
        return Err(Untaken::Refused);
    };
    last.set_body(body)?;
    Ok(())
}

/// As many bytes as the last request's body, a to z again and again.
pub(super) fn fill_body(alloc: Global, requests: &mut Vec<Message>, n: u64) -> Result<(), Untaken>
    ensures taken { OnOk result (change_last (with_body (the_filling 0 n)) requests.old.items ≡ Some requests.new.items) }
    ensures refused { IfErr result (λ e. WhenRefused e (change_last (with_body (the_filling 0 n)) requests.old.items ≡ None)) }
{
    if requests.is_empty() {
        return Err(Untaken::Refused);
    }
    let body = filling(alloc, n)?;
    set_body(requests, &body)
}

fn filling(alloc: Global, n: u64) -> Result<Vec<u8>, Memory>
    ensures { IfOk result (λ bytes. bytes.items ≡ the_filling 0 n) }
{
    let mut bytes = Vec::new(alloc);
    for i in 0..n {
        bytes.push(b'a' + (i % 26) as u8)?;
    }
    Ok(bytes)
}
