//! Whole messages: written, read, measured, and answered by the echo.
use crate::heads::{map_of, method, put_map, put_request, status, target};
use crate::say::{Answer, put, put_content, put_hex, put_named};
use crate::sections::push;
use http_header::HeaderMap;
use qh_message::{read_request, read_response, writable, write_message};
use qh_plain::requests::{is_valid_request, message_size};
use qh_qpack::HeaderField;
use qh_service::{Echo, Entry, Head, Limits, Message, Service};
use row_text::{RowFault, Words};
use std::alloc::Global;

// The greatest section and the greatest body of a request that is written.
const MAX_SECTION: u64 = 1 << 20;

const MAX_BODY: u64 = 1 << 30;

// The greatest size of a response that is written.
const MAX_RESPONSE: u64 = 1 << 40;

/// Answers a row. Whether its word is known.
pub(crate) fn answer(
    alloc: Global,
    word: &str,
    words: &mut Words<'_>,
    out: &mut Vec<u8>,
) -> Result<bool, RowFault> {
    match word {
        "write" | "lengths" | "copy" | "sizes" => tell_message(alloc, out, word, words)?,
        "read-request" => tell_request(alloc, out, words)?,
        "read-response" => tell_response(alloc, out, words)?,
        "echo" => tell_echo(alloc, out, words)?,
        _ => return Ok(false),
    }
    Ok(true)
}

// Tells what this word says of the message that the words tell.
fn tell_message(alloc: Global, out: &mut Vec<u8>, word: &str, words: &mut Words<'_>) -> Answer {
    let message = message(alloc, words)?;
    tell(alloc, out, word, &message)
}

fn tell(alloc: Global, out: &mut Vec<u8>, word: &str, message: &Message) -> Answer {
    match word {
        "write" => tell_written(alloc, out, message),
        "lengths" => tell_lengths(alloc, out, message),
        "copy" => put_copy(alloc, out, message),
        _ => tell_sizes(out, message),
    }
}

fn tell_request(alloc: Global, out: &mut Vec<u8>, words: &mut Words<'_>) -> Answer {
    let bytes = words.bytes(alloc)?;
    let found = request_in(alloc, &bytes)?;
    tell_found(alloc, out, found.as_ref())
}

fn tell_response(alloc: Global, out: &mut Vec<u8>, words: &mut Words<'_>) -> Answer {
    let bytes = words.bytes(alloc)?;
    let found = response_in(alloc, &bytes)?;
    tell_found(alloc, out, found.as_ref())
}

// What stands in a message beside its head.
#[derive(Drop)]
struct Draft {
    fields: Vec<HeaderField>,
    body: Vec<u8>,
    trailers: Option<Vec<HeaderField>>,
}

/// The message that the words tell, up to the last word or to `then`.
pub(crate) fn message(alloc: Global, words: &mut Words<'_>) -> Result<Message, RowFault> {
    let mut message = bare(alloc, words)?;
    let draft = read_draft(alloc, words)?;
    fill(alloc, &mut message, &draft)?;
    Ok(message)
}

// The message of a head alone.
fn bare(alloc: Global, words: &mut Words<'_>) -> Result<Message, RowFault> {
    match words.next() {
        "request" => {
            let method = method(alloc, words.next())?;
            Ok(Message::request(alloc, method, target(alloc, words.next())?)?)
        }
        "response" => Ok(Message::response(alloc, status(words)?)?),
        _ => Err(RowFault::Form),
    }
}

fn read_draft(alloc: Global, words: &mut Words<'_>) -> Result<Draft, RowFault> {
    let mut draft = Draft {
        fields: Vec::new(alloc),
        body: Vec::new(alloc),
        trailers: None,
    };
    for _part in 0..u64::MAX {
        match words.next() {
            "" | "then" => break,
            "fields" => {}
            "body" => draft.body = words.bytes(alloc)?,
            "trailers" => draft.trailers = Some(Vec::new(alloc)),
            name => push_drafted(alloc, &mut draft, name, words)?,
        }
    }
    Ok(draft)
}

// Appends a field to the trailers, where they have begun, else to the fields.
fn push_drafted(alloc: Global, draft: &mut Draft, name: &str, words: &mut Words<'_>) -> Answer {
    match &mut draft.trailers {
        Some(trailers) => push(alloc, trailers, name, words),
        None => push(alloc, &mut draft.fields, name, words),
    }
}

fn fill(alloc: Global, message: &mut Message, draft: &Draft) -> Answer {
    *message.fields_mut() = map_of(alloc, &draft.fields)?;
    message.set_body(&draft.body)?;
    if let Some(trailers) = &draft.trailers {
        message.set_trailers(Some(map_of(alloc, trailers)?));
    }
    Ok(())
}

/// Appends a message.
pub(crate) fn put_message(alloc: Global, out: &mut Vec<u8>, message: &Message) -> Answer {
    match message.head() {
        Head::Request { method, uri } => {
            put(out, "request ")?;
            put_request(alloc, out, method, uri)?;
        }
        Head::Response { status } => put_named(out, "response", u64::from(status.as_u16()))?,
    }
    put_parts(out, message)
}

// Appends the parts of a message that are there.
fn put_parts(out: &mut Vec<u8>, message: &Message) -> Answer {
    put_fields_part(out, message.fields())?;
    put_body_part(out, message.body())?;
    put_trailers_part(out, message.trailers())
}

fn put_fields_part(out: &mut Vec<u8>, fields: &HeaderMap) -> Answer {
    if fields.len() == 0 {
        return Ok(());
    }
    put(out, " fields")?;
    put_map(out, fields)
}

fn put_body_part(out: &mut Vec<u8>, body: &[u8]) -> Answer {
    if body.is_empty() {
        return Ok(());
    }
    put(out, " body ")?;
    put_content(out, body)
}

fn put_trailers_part(out: &mut Vec<u8>, trailers: Option<&HeaderMap>) -> Answer {
    let Some(trailers) = trailers else {
        return Ok(());
    };
    put(out, " trailers")?;
    put_map(out, trailers)
}

// The bytes of a message, where it can be written.
fn written(alloc: Global, message: &Message) -> Result<Option<Vec<u8>>, RowFault> {
    match message.head() {
        Head::Request { .. } => written_request(alloc, message),
        Head::Response { .. } => written_response(alloc, message),
    }
}

fn written_request(alloc: Global, message: &Message) -> Result<Option<Vec<u8>>, RowFault> {
    writable();
    if !is_valid_request(MAX_SECTION, MAX_BODY, message)? {
        return Ok(None);
    }
    Ok(Some(write_message(alloc, message)?))
}

fn written_response(alloc: Global, message: &Message) -> Result<Option<Vec<u8>>, RowFault> {
    if message.size() > MAX_RESPONSE {
        return Ok(None);
    }
    match message.head() {
        Head::Response { .. } => Ok(Some(write_message(alloc, message)?)),
        Head::Request { .. } => Ok(None),
    }
}

fn request_in(alloc: Global, bytes: &[u8]) -> Result<Option<Message>, RowFault> {
    Ok(read_request(alloc, bytes)?)
}

fn response_in(alloc: Global, bytes: &[u8]) -> Result<Option<Message>, RowFault> {
    Ok(read_response(alloc, bytes)?)
}

fn tell_written(alloc: Global, out: &mut Vec<u8>, message: &Message) -> Answer {
    match written(alloc, message)? {
        Some(bytes) => put_hex(out, &bytes),
        None => put(out, "invalid"),
    }
}

fn tell_found(alloc: Global, out: &mut Vec<u8>, found: Option<&Message>) -> Answer {
    match found {
        Some(message) => put_message(alloc, out, message),
        None => put(out, "none"),
    }
}

// Writes a message and reads it again, and tells lengths alone.
fn tell_lengths(alloc: Global, out: &mut Vec<u8>, message: &Message) -> Answer {
    let Some(bytes) = written(alloc, message)? else {
        return put(out, "invalid");
    };
    put_named(out, "bytes", bytes.len() as u64)?;
    let found = read_again(alloc, message, &bytes)?;
    put_lengths(out, found.as_ref())
}

// The message of the same kind that the bytes spell.
fn read_again(alloc: Global, message: &Message, bytes: &[u8]) -> Result<Option<Message>, RowFault> {
    match message.head() {
        Head::Request { .. } => request_in(alloc, bytes),
        Head::Response { .. } => response_in(alloc, bytes),
    }
}

fn put_lengths(out: &mut Vec<u8>, found: Option<&Message>) -> Answer {
    let Some(message) = found else {
        return put(out, " none");
    };
    let trailers = match message.trailers() {
        Some(trailers) => trailers.len(),
        None => 0,
    };
    put_named(out, " fields", message.fields().len() as u64)?;
    put_named(out, " body", message.body().len() as u64)?;
    put_named(out, " trailers", trailers as u64)
}

fn put_copy(alloc: Global, out: &mut Vec<u8>, message: &Message) -> Answer {
    let copy = message.try_clone(alloc)?;
    put_message(alloc, out, &copy)
}

fn tell_sizes(out: &mut Vec<u8>, message: &Message) -> Answer {
    put_named(out, "section", message.section_size())?;
    put_named(out, " trailers", message.trailers_size())?;
    put_named(out, " size", message.size())?;
    put(
        out,
        if message_size(message) == message.size() {
            ""
        } else {
            " unlike"
        },
    )
}

// Tells the answer of an echo with bodies of at most this length, and what it served.
fn tell_echo(alloc: Global, out: &mut Vec<u8>, words: &mut Words<'_>) -> Answer {
    let limit = words.number()?;
    let message = message(alloc, words)?;
    ask_echo(alloc, out, limit, &message)
}

fn ask_echo(alloc: Global, out: &mut Vec<u8>, limit: u64, message: &Message) -> Answer {
    let mut echo = Echo::new(alloc);
    let response = answered(alloc, &mut echo, limit, message)?;
    tell_found(alloc, out, response.as_ref())?;
    put_served(alloc, out, echo.served())
}

fn put_served(alloc: Global, out: &mut Vec<u8>, served: &[Entry]) -> Answer {
    for entry in served {
        put_named(out, ", on stream", entry.stream)?;
        put(out, " to ")?;
        put_message(alloc, out, &entry.request)?;
        put(out, " as ")?;
        put_message(alloc, out, &entry.response)?;
    }
    Ok(())
}

// What the echo answers to a request, on the stream 4.
fn answered(
    alloc: Global,
    echo: &mut Echo,
    limit: u64,
    request: &Message,
) -> Result<Option<Message>, RowFault> {
    let Head::Request { .. } = request.head() else {
        return Ok(None);
    };
    let limits = Limits {
        max_field_section_size: MAX_SECTION,
        max_response_body: limit,
    };
    if request.section_size() > MAX_SECTION || request.trailers_size() > MAX_SECTION {
        return Ok(None);
    }
    Ok(Some(echo.serve(alloc, 4, request, &limits)?))
}
