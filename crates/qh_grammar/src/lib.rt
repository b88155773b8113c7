//! Tests of texts that take no memory: fields of HTTP (RFC 9110, section 5), and URIs and their parts, as `http_header`
//! and `http_uri` take them. Those read each into memory of its own.
#![tactic(auto)]

mod authority;
mod field;
mod path;
mod scheme;
mod uri;

pub use authority::is_authority;
pub use field::{is_field_name, is_field_value};
pub use path::is_path_input;
pub use scheme::is_scheme;
pub use uri::is_uri;
