//! The bytes of a message.
ghost use Rattle.std.specs.Prelude.{◌≡◌, ◌<◌, ◌^◌, ◌∷◌, ◌++◌, codes, length, map, flat_map, OnOk, IfOk, IfSome, option_copied};
ghost use Rattle.qh_h3wire.specs.Header.{request_header, written_fields, IsSendable};
ghost use Rattle.qh_service.specs.Message.{head_of};
ghost use Rattle.qh_spec.specs.HttpFrame.{data_frame, headers_frame, http_frame};
ghost use Rattle.qh_spec.specs.Message.{Request, target_of};
ghost use Rattle.qh_spec.specs.Same.{bytes_under};
ghost use Rattle.qh_spec.specs.Section.{section_bytes};
ghost use Rattle.qh_spec.specs.Spelling.{Spells, trailer_frames};
ghost use Rattle.qh_spec.specs.Validity.{IsValidHead};
ghost use Rattle.qh_spec.specs.Written.{body_payloads, message_bytes};
ghost use Rattle.qh_message.specs.Sections.{plain_header, IsHeadSection, IsTrailerSection};
ghost use Rattle.qh_message.specs.Written.{HasWritableHead, CanBeWritten};

use bytes::Bytes;
use http::Method;
use http_header::HeaderMap;
use http_uri::Uri;
use qh_base::Memory;
use qh_h3wire::{Frame, Header};
use qh_qpack::encode_stateless;
use qh_service::{Head, Message};
use std::alloc::Global;

/// The bytes of a message: a HEADERS frame with its head and its fields, a DATA frame with its body where that isn't empty,
/// and a HEADERS frame with its trailers where it has them (RFC 9114, section 4.1).
pub fn write_message(alloc: Global, message: &Message) -> Result<Vec<u8>, Memory>
    requires { CanBeWritten message.now }
    ensures bytes { IfOk result (λ v. v.items ≡ message_bytes message.now) }
    ensures spells { IfOk result (λ v. Spells v.items message.now) }
{
    let section = head_section(alloc, message.head(), message.fields())?;
    let last = trailer_section(alloc, message.trailers())?;
    frames_of(alloc, section, message.body(), last)
}

// The frames of a section, of a body and of the section of trailers.
fn frames_of(
    alloc: Global,
    section: Bytes,
    body: &[u8],
    last: Option<Bytes>,
) -> Result<Vec<u8>, Memory>
    requires section { length section < 2 ^ 62 }
    requires body { length body.now < 2 ^ 62 }
    requires last { IfSome last (λ section. length section < 2 ^ 62) }
    ensures { IfOk result (λ v. v.items
        ≡ flat_map http_frame (headers_frame section ∷ (map data_frame (body_payloads body.now) ++ trailer_frames last))) }
{
    let mut out = Vec::new(alloc);
    Frame::Headers(section).encode(&mut out)?;
    put_body(&mut out, body)?;
    put_trailers(&mut out, last)?;
    Ok(out)
}

// Appends a DATA frame, where the body isn't empty.
fn put_body(out: &mut Vec<u8>, body: &[u8]) -> Result<(), Memory>
    requires { length body.now < 2 ^ 62 }
    ensures { OnOk result (out.new.items ≡ out.old.items ++ flat_map http_frame (map data_frame (body_payloads body.now))) }
{
    if body.is_empty() {
        return Ok(());
    }
    Frame::DataLen(body.len() as u64).encode(out)?;
    out.extend_from_slice(body)?;
    Ok(())
}

// Appends a HEADERS frame, where there are trailers.
fn put_trailers(out: &mut Vec<u8>, last: Option<Bytes>) -> Result<(), Memory>
    requires { IfSome last (λ section. length section < 2 ^ 62) }
    ensures { OnOk result (out.new.items ≡ out.old.items ++ flat_map http_frame (trailer_frames last)) }
{
    match last {
        Some(section) => Frame::Headers(section).encode(out),
        None => Ok(()),
    }
}

// The section of the head and the fields.
fn head_section(alloc: Global, head: &Head, fields: &HeaderMap) -> Result<Bytes, Memory>
    requires { HasWritableHead (head_of head.now) (bytes_under fields.now (codes "host")) }
    ensures { IfOk result (λ section. IsHeadSection section (head_of head.now) fields.now) }
{
    section_of(alloc, header_of(head, fields)?)
}

// The section of the trailers, where there are any.
fn trailer_section(alloc: Global, trailers: Option<&HeaderMap>) -> Result<Option<Bytes>, Memory>
    ensures { IfOk result (λ last. IsTrailerSection last (option_copied trailers.entry)) }
{
    match trailers {
        Some(fields) => {
            let section = section_of(alloc, Header::trailer(copy_of(fields)?))?;
            Ok(Some(section))
        }
        None => Ok(None),
    }
}

fn section_of(alloc: Global, header: Header) -> Result<Bytes, Memory>
    ensures section { IfOk result (λ section. section ≡ section_bytes (written_fields header)) }
    ensures sendable { IfOk result (λ section. IsSendable header) }
{
    let list = header.into_list(alloc).map_err(|_| Memory)?;
    let mut section = Vec::new(alloc);
    encode_stateless(&mut section, list.as_slice())?;
    Ok(Bytes::from_vec(section).map_err(|_| Memory)?)
}

fn header_of(head: &Head, fields: &HeaderMap) -> Result<Header, Memory>
    requires { HasWritableHead (head_of head.now) (bytes_under fields.now (codes "host")) }
    ensures { IfOk result (λ h. h ≡ plain_header (head_of head.now) fields.now) }
{
    let fields = copy_of(fields)?;
    match head {
        Head::Request { method, uri } => Ok(request_header(method.clone()?, uri.clone()?, fields)),
        Head::Response { status } => Ok(Header::response(*status, fields)),
    }
}

// The same fields again, in the same order.
fn copy_of(fields: &HeaderMap) -> Result<HeaderMap, Memory>
    ensures { IfOk result (λ copy. copy ≡ fields.now) }
{
    Ok(fields.clone()?)
}

// A valid target has an authority, and a host field beside it is the same: so this is a head.
fn request_header(method: Method, uri: Uri, fields: HeaderMap) -> Header
    requires { IsValidHead (Request method (target_of uri)) (bytes_under fields (codes "host")) }
    ensures { result ≡ request_header method (target_of uri) fields }
{
    Header::request(method, uri, fields).unwrap()
}
