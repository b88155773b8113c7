//! The room that fields leave in a section.
ghost use Rattle.std.specs.Prelude.{◌≡◌, option_copied, Some, Option};
ghost use Rattle.qh_spec.specs.Fields.{optional_field, request_fields, head_fields, map_fields};
ghost use Rattle.qh_spec.specs.Message.{target_of};
ghost use Rattle.qh_service.specs.Message.{head_of};
ghost use Rattle.qh_plain.specs.Room.{after_field, after_fields};

use http::Method;
use http_header::HeaderMap;
use http_uri::Uri;
use qh_service::Head;

// What a field takes beside its name and its value.
const OVERHEAD: u64 = 32;

/// How many fields there is room for, and how many bytes, counted as in RFC 9114, section 4.2.2.
#[derive(Clone, Copy)]
pub(crate) struct Room {
    pub(crate) fields: u64,
    pub(crate) bytes: u64,
}

/// The room that a field leaves.
pub(crate) fn after_field(room: Option<Room>, name: &[u8], value: &[u8]) -> Option<Room>
    ensures { result ≡ after_field room (record { name = name.now; value = value.now }) }
{
    let room = room?;
    let named = name.len() as u64 + OVERHEAD;
    if room.fields == 0 || room.bytes < named {
        return None;
    }
    let bytes = room.bytes - named;
    if bytes < value.len() as u64 {
        return None;
    }
    Some(Room {
        fields: room.fields - 1,
        bytes: bytes - value.len() as u64,
    })
}

// The room that a field leaves which may be missing.
fn after_optional(room: Option<Room>, name: &[u8], value: Option<&str>) -> Option<Room>
    ensures { result ≡ after_fields room (optional_field name.now (option_copied value.entry)) }
{
    match value {
        Some(value) => after_field(room, name, value.as_bytes()),
        None => room,
    }
}

/// The room that the fields of a map leave.
pub(crate) fn after_map(room: Option<Room>, fields: &HeaderMap) -> Option<Room>
    ensures { result ≡ after_fields room (map_fields fields.now) }
{
    fields
        .iter()
        .fold(room, |room: Option<Room>, (name, value)| {
            after_field(room, name.as_str().as_bytes(), value.as_bytes())
        })
}

/// The room that the pseudo-header fields of a head leave.
pub(crate) fn after_head(room: Option<Room>, head: &Head) -> Option<Room>
    ensures { result ≡ after_fields room (head_fields (head_of head.now)) }
{
    match head {
        Head::Request { method, uri } => after_request(room, method, uri),
        Head::Response { status } => after_field(room, b":status", status.as_str().as_bytes()),
    }
}

fn after_request(room: Option<Room>, method: &Method, uri: &Uri) -> Option<Room>
    ensures { result ≡ after_fields room (request_fields method.now (target_of uri.now)) }
{
    let room = after_field(room, b":method", method.as_str().as_bytes());
    let room = after_optional(room, b":scheme", uri.scheme_str());
    let authority = uri.authority().map(|authority| authority.as_str());
    let room = after_optional(room, b":authority", authority);
    let path = uri.path_and_query().map(|path| path.as_str());
    after_optional(room, b":path", path)
}
