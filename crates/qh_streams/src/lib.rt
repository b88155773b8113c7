//! The streams of a connection, as `quinn-proto`'s `connection::streams` has them: opening, frames that come and go, events,
//! and the halves lent out.
#![tactic(auto)]

mod fault;
mod frames;
mod halves;
mod items;
mod laws;
mod streams;

pub use fault::StreamFault;
pub use frames::{PeerLimits, SentFrame, StreamEvent, StreamFrame, StreamLimits};
pub use halves::{Chunks, ChunksState, RecvHalf, SendHalf};
pub use items::{Item, ItemLog};
pub use laws::{streams_in_turn, tracked};
pub use qh_buffers::Chunk;
pub use qh_half::{
    ClosedStream, FinishFault, Outgoing, ReadFault, ReadableFault, ResetFrame, WriteFault, Written,
};
pub use streams::Streams;
