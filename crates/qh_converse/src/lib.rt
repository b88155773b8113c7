//! How an end of a connection stands to all that was done with it, from its first datagram on: the handshake and the end of the 1-RTT
//! packets, each by its part. Laws alone, over the contracts of `qh_handshake` and `qh_core`.
#![tactic(auto)]

mod hearing;
mod meaning;
mod sending;

pub use hearing::hears;
pub use meaning::converses;
pub use sending::sends;
