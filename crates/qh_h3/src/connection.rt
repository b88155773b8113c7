//! The connection of HTTP/3 over any QUIC (h3, `connection.rs`).
mod closable;
mod control;
mod goaway;
mod one_way;
mod qpack;
mod raw;
mod sending;

pub use goaway::goaway_id;
pub use raw::{close_raw_connection_with_h3_error, handle_quic_error_raw};
