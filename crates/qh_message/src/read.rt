//! The message that bytes spell.
ghost use Rattle.std.specs.Prelude.{◌≡◌, ◌⊎◌, List, None, IfOk, IfSome, IfNone};
ghost use Rattle.std.specs.Option.{option_map};
ghost use Rattle.qh_spec.specs.Fields.{Field};
ghost use Rattle.qh_spec.specs.Meaning.{MeansTrailers};
ghost use Rattle.qh_spec.specs.Message.{PlainMessage, IsRequest, IsResponse};
ghost use Rattle.qh_spec.specs.Section.{IsSection};
ghost use Rattle.qh_spec.specs.Spelling.{Spells};
ghost use Rattle.qh_message.specs.Reading.{HasHeader, IsUnreadable, IsUnreadableLast, IsReceived};
ghost use Rattle.qh_message.specs.Room.{HasRoomFor};

use http_header::HeaderMap;
use qh_base::Memory;
use qh_h3wire::{Header, HeaderError};
use qh_plain::frames::{MessageParts, message_parts};
use qh_qpack::{DecoderError, HeaderField, decode_stateless};
use qh_service::Message;
use std::alloc::Global;

/// Reads the request that the bytes spell. None where they spell none, and where it has more fields or trailers than a map
/// holds.
pub fn read_request(alloc: Global, bytes: &[u8]) -> Result<Option<Message>, Memory>
    ensures spells { IfOk result (λ found. IfSome found (λ m. Spells bytes.now m × IsRequest m.head)) }
    ensures none { IfOk result (λ found. found ≡ None → (m : PlainMessage) → IsRequest m.head → Spells bytes.now m → HasRoomFor m → ⊥) }
{
    let Some(
        Received {
            header,
            body,
            trailers,
        },
    ) = receive(alloc, bytes)?
    else {
        return Ok(None);
    };
    match header.into_request_parts() {
        Ok((method, uri, fields)) => {
            let message = Message::request(alloc, method, uri)?;
            Ok(Some(filled(message, fields, body.as_slice(), trailers)?))
        }
        Err(error) => match error {
            HeaderError::Memory => Err(Memory),
            _ => Ok(None),
        },
    }
}

/// Reads the response that the bytes spell, likewise.
pub fn read_response(alloc: Global, bytes: &[u8]) -> Result<Option<Message>, Memory>
    ensures spells { IfOk result (λ found. IfSome found (λ m. Spells bytes.now m × IsResponse m.head)) }
    ensures none { IfOk result (λ found. found ≡ None → (m : PlainMessage) → IsResponse m.head → Spells bytes.now m → HasRoomFor m → ⊥) }
{
    let Some(
        Received {
            header,
            body,
            trailers,
        },
    ) = receive(alloc, bytes)?
    else {
        return Ok(None);
    };
    match header.into_response_parts() {
        Ok((status, fields)) => {
            let message = Message::response(alloc, status)?;
            Ok(Some(filled(message, fields, body.as_slice(), trailers)?))
        }
        Err(_) => Ok(None),
    }
}

// The message with these fields, this body and these trailers.
fn filled(
    mut message: Message,
    fields: HeaderMap,
    body: &[u8],
    trailers: Option<HeaderMap>,
) -> Result<Message, Memory>
    ensures { IfOk result (λ m. m ≡ record { head = message.head; fields = fields; body = body.now; trailers = trailers }) }
{
    message.set_body(body)?;
    message.set_trailers(trailers);
    set_fields(&mut message, fields);
    Ok(message)
}

fn set_fields(message: &mut Message, fields: HeaderMap)
    ensures { message.new ≡ record message.old { fields = fields } }
{
    *message.fields_mut() = fields;
}

// What the frames of a stream hold.
#[derive(Drop)]
struct Received {
    header: Header,
    body: Vec<u8>,
    trailers: Option<HeaderMap>,
}

// What the bytes hold. None where they spell no message that maps have room for.
fn receive(alloc: Global, bytes: &[u8]) -> Result<Option<Received>, Memory>
    ensures found { IfOk result (λ r. IfSome r (λ p. IsReceived bytes.now p.header p.body.items p.trailers)) }
    ensures none { IfOk result (λ r. IfNone r ((m : PlainMessage) → Spells bytes.now m → HasRoomFor m → ⊥)) }
{
    match message_parts(alloc, bytes)? {
        Some(parts) => received_parts(alloc, parts),
        None => Ok(None),
    }
}

// What the sections of a message hold, with its body.
fn received_parts(alloc: Global, parts: MessageParts) -> Result<Option<Received>, Memory>
    ensures found { IfOk result (λ r. IfSome r (λ p. HasHeader parts.section p.header × MeansTrailers parts.last p.trailers × (p.body.items ≡ parts.body))) }
    ensures none { IfOk result (λ r. IfNone r (IsUnreadable parts.section ⊎ IsUnreadableLast parts.last)) }
{
    let MessageParts {
        section,
        body,
        last,
    } = parts;
    match heads_in(alloc, section, last)? {
        Some((header, trailers)) => Ok(Some(Received {
            header,
            body,
            trailers,
        })),
        None => Ok(None),
    }
}

// The head that a section gives, and the trailers that a further one gives, where there is one.
fn heads_in(
    alloc: Global,
    section: Vec<u8>,
    last: Option<Vec<u8>>,
) -> Result<Option<(Header, Option<HeaderMap>)>, Memory>
    ensures found { IfOk result (λ r. IfSome r (λ h. HasHeader section.items h.0 × MeansTrailers (option_map (λ v. v.items) last) h.1)) }
    ensures none { IfOk result (λ r. IfNone r (IsUnreadable section.items ⊎ IsUnreadableLast (option_map (λ v. v.items) last))) }
{
    let Some(trailers) = trailers_in(alloc, last)? else {
        return Ok(None);
    };
    match header_in(alloc, section.as_slice())? {
        Some(header) => Ok(Some((header, trailers))),
        None => Ok(None),
    }
}

// The trailers that a further section gives, where there is one.
fn trailers_in(alloc: Global, last: Option<Vec<u8>>) -> Result<Option<Option<HeaderMap>>, Memory>
    ensures found { IfOk result (λ r. IfSome r (λ trailers. MeansTrailers (option_map (λ v. v.items) last) trailers)) }
    ensures none { IfOk result (λ r. IfNone r (IsUnreadableLast (option_map (λ v. v.items) last))) }
{
    let Some(section) = last else {
        return Ok(Some(None));
    };
    match header_in(alloc, section.as_slice())? {
        Some(header) => Ok(Some(Some(header.into_fields()))),
        None => Ok(None),
    }
}

// The head and the map that a section gives.
fn header_in(alloc: Global, section: &[u8]) -> Result<Option<Header>, Memory>
    ensures found { IfOk result (λ r. IfSome r (λ h. HasHeader section.now h)) }
    ensures none { IfOk result (λ r. IfNone r (IsUnreadable section.now)) }
{
    let Some(lines) = lines_in(alloc, section)? else {
        return Ok(None);
    };
    match Header::from_fields(alloc, lines) {
        Ok(header) => Ok(Some(header)),
        Err(error) => match error {
            HeaderError::Memory => Err(Memory),
            _ => Ok(None),
        },
    }
}

// The field lines of a section, of whatever size.
fn lines_in(alloc: Global, section: &[u8]) -> Result<Option<Vec<HeaderField>>, Memory>
    ensures found { IfOk result (λ r. IfSome r (λ lines. IsSection section.now lines.items)) }
    ensures none { IfOk result (λ r. IfNone r ((fields : List Field) → IsSection section.now fields → ⊥)) }
{
    match decode_stateless(alloc, section, u64::MAX) {
        Ok(decoded) => Ok(Some(decoded.fields)),
        Err(error) => match error {
            DecoderError::Memory => Err(Memory),
            _ => Ok(None),
        },
    }
}
