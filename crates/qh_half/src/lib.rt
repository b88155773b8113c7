//! One half of a stream, as `quinn-proto`'s `connection::streams` has them in `send` and `recv`: what it takes, sends, keeps and
//! gives.
#![tactic(auto)]

mod fault;
mod recv;
mod send;

pub use fault::{ClosedStream, FinishFault, ReadFault, ReadableFault, WriteFault};
pub use recv::{IngestFault, Recv, RecvState, StopFrame};
pub use send::{Outgoing, ResetFrame, Send, SendState, Written};
