//! One end of a connection from its first datagram on, without sockets or clocks, as `quinn-proto`'s `connection` has it: the handshake, the
//! end of its 1-RTT packets, its connection ids, tokens and datagrams. Datagrams, events and moments are handed in; datagrams, events and
//! what the endpoint is to be told are handed out.
//!
//! The session is plain and INSECURE: it has no cipher, and whoever can write datagrams can forge them.
#![tactic(auto)]

mod config;
mod connection;
mod datagrams;
mod event;
mod greeting;
mod incoming;
mod items;
mod laws;
mod outgoing;
mod streams;
mod timeouts;

pub use config::ConnConfig;
pub use connection::{Connection, EarlyLimits};
pub use event::{ConnectionEvent, Event};
pub use laws::same_connection;
pub use qh_buffers::Chunk;
pub use qh_control::{ConnectionItem, DatagramFault, EndpointEvent, IssuedCid, LogEntry};
pub use qh_core::{ConnectionStats, ControllerMetrics, TakeFault};
pub use qh_streams::{ClosedStream, FinishFault, Item, ReadableFault, WriteFault, Written};
