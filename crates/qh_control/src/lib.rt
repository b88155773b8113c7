//! What an end of a connection keeps of the frames beside those of streams and of acknowledgement: the connection ids of both ends, tokens
//! for later attempts, datagrams, and which of its own such frames wait or are out, as `quinn-proto` has them in `connection` and
//! `connection::spaces` (RFC 9000, sections 5.1, 8.1.3, 13.3; RFC 9221); and a log of what an application can see of the connection.
#![tactic(auto)]

mod control;
mod datagrams;
mod event;
mod items;
mod queue;

pub use control::ControlState;
pub use datagrams::DatagramFault;
pub use event::{EndpointEvent, EndpointEvents, IssuedCid};
pub use items::{ConnectionItem, ConnectionLog, LogEntry};
pub use queue::{ControlQueue, SentControl};
