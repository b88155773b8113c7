//! Messages of HTTP/3 as the bytes of a request stream, and back (RFC 9114, section 4.1).
#![tactic(auto)]

mod laws;
mod read;
mod write;

pub use laws::{has_room, writable};
pub use read::{read_request, read_response};
pub use write::write_message;
