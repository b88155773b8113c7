//! The message that bytes spell (RFC 9114, section 4.1).
ghost use Rattle.std.specs.Prelude.{◌≡◌, ◌↔◌, IfOk, IsTrue, option_copied};
ghost use Rattle.std.specs.Option.{option_map};
ghost use Rattle.qh_spec.specs.Meaning.{MeansTrailers};
ghost use Rattle.qh_spec.specs.Spelling.{Spells};
ghost use Rattle.qh_plain.specs.Pieces.{MeansStart, MeansMap, MakesMessage};

use crate::frames::{MessageParts, message_parts};
use crate::meanings::{means_fields, means_head};
use crate::sections::section;
use http_header::HeaderMap;
use qh_base::Memory;
use qh_service::Message;
use std::alloc::Global;

/// Whether the bytes of a request stream spell a message.
pub fn spells(alloc: Global, bytes: &[u8], message: &Message) -> Result<bool, Memory>
    ensures { IfOk result (λ spells. IsTrue spells ↔ Spells bytes.now message.now) }
{
    match message_parts(alloc, bytes)? {
        Some(parts) => makes_message(alloc, &parts, message),
        None => Ok(false),
    }
}

// Whether the parts make the message.
fn makes_message(alloc: Global, parts: &MessageParts, message: &Message) -> Result<bool, Memory>
    ensures { IfOk result (λ makes. IsTrue makes ↔ MakesMessage parts.now message.now) }
{
    if parts.body.as_slice() != message.body() {
        return Ok(false);
    }
    if !means_start(alloc, parts.section.as_slice(), message)? {
        return Ok(false);
    }
    means_trailers(alloc, parts.last.as_ref(), message.trailers())
}

// Whether a section means the head and the fields of a message.
fn means_start(alloc: Global, bytes: &[u8], message: &Message) -> Result<bool, Memory>
    ensures { IfOk result (λ means. IsTrue means ↔ MeansStart bytes.now message.now) }
{
    let Some(fields) = section(alloc, bytes)? else {
        return Ok(false);
    };
    let fields = fields.as_slice();
    if !means_head(alloc, fields, message.head())? {
        return Ok(false);
    }
    means_fields(alloc, fields, message.fields())
}

// Whether there is a section exactly where there are trailers, and means them.
fn means_trailers(
    alloc: Global,
    section: Option<&Vec<u8>>,
    trailers: Option<&HeaderMap>,
) -> Result<bool, Memory>
    ensures { IfOk result (λ means. IsTrue means ↔ MeansTrailers (option_map (λ v. v.now.items) section.entry) (option_copied trailers.entry)) }
{
    match (section, trailers) {
        (None, None) => Ok(true),
        (Some(section), Some(map)) => means_map(alloc, section.as_slice(), map),
        _ => Ok(false),
    }
}

// Whether a section means a map.
fn means_map(alloc: Global, bytes: &[u8], map: &HeaderMap) -> Result<bool, Memory>
    ensures { IfOk result (λ means. IsTrue means ↔ MeansMap bytes.now map.now) }
{
    let Some(fields) = section(alloc, bytes)? else {
        return Ok(false);
    };
    means_fields(alloc, fields.as_slice(), map)
}
