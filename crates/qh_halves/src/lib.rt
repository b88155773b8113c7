//! The halves of all streams of a connection, as `quinn-proto` keeps them in `connection::streams::state`, and what counts for
//! all of them: credits, counts, and who is next to send.
#![tactic(auto)]

mod counts;
mod limit;
mod pending;
mod recv_halves;
mod send_halves;

pub use counts::{MAX_STREAMS, StreamCounts};
pub use limit::AnnouncedLimit;
pub use pending::{PendingStream, PendingStreamsQueue};
pub use recv_halves::{RecvHalves, StreamControl};
pub use send_halves::{SendHalves, Transmission};
