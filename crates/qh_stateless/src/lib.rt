//! What an endpoint reads of a datagram before it routes it, and the bytes that it answers by itself, without a connection: stateless
//! resets, version negotiation, and the Initial packet that closes or refuses an attempt. In the place of `PartialDecode::new` in
//! `quinn-proto`'s `packet`, and of `stateless_reset` and `initial_close` in its `endpoint`.
#![tactic(auto)]

mod close;
mod header;
mod long;
mod negotiation;
mod reset;
mod words;

pub use close::{put_initial_close, written_close};
pub use header::{DatagramHeader, HeaderFault, datagram_headers, read_header};
pub use negotiation::{put_versions, written_versions};
pub use reset::{put_stateless_reset, stateless_resets};
pub use words::Words;
