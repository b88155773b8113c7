//! Sockets that carry datagrams, as drivers poll them (quinn, `runtime.rs`), and one in memory.
#![tactic(auto)]

mod queue;
mod runtime;

pub use queue::{QueuePoller, QueueSocket};
pub use runtime::{AsyncUdpSocket, IoFault, Message, OutMessage, RecvMeta, UdpPoller};
