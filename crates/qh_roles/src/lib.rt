//! The two ends of an exchange over the streams of a connection: a client that asks requests, each on a stream of its own, and
//! a server that has them served (RFC 9114, section 4.1).
#![tactic(auto)]

mod client;
mod incoming;
mod outgoing;
mod server;

pub use client::{Client, RequestState, RequestStream};
pub use incoming::{Incoming, ReadState};
pub use outgoing::{Outgoing, WriteState};
pub use server::{Handler, HandlerState, Server};
