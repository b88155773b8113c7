//! Field sections of HTTP/3 (RFC 9204) without a dynamic table and without compressed strings. The names are those of
//! `h3`'s `qpack`.
#![tactic(auto)]

mod decoder;
mod encoder;
mod equality;
mod field;
mod laws;
mod line;
mod prefix_int;
mod prefix_string;
mod static_;

pub use decoder::{Decoded, DecoderError, decode_stateless};
pub use encoder::encode_stateless;
pub use equality::equal_means_same;
pub use field::{HeaderField, Octets};
pub use laws::{faults, written};
