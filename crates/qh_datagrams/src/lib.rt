//! The payloads of DATAGRAM frames that wait to be read, and to be sent (RFC 9221), as `quinn-proto` has them in
//! `connection::datagrams`.
#![tactic(auto)]

mod datagrams;

pub use datagrams::{DatagramState, SendRefusal};
