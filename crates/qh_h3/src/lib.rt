//! The core of HTTP/3 over any QUIC (h3): the traits that it asks of QUIC, the frames of a stream, and the state that the handles of a connection share.
#![tactic(auto)]

mod close_stream;
mod connection;
mod error;
mod frame;
pub mod quic;
mod shared_state;

pub use close_stream::CloseStream;
pub use connection::{close_raw_connection_with_h3_error, goaway_id, handle_quic_error_raw};
pub use error::{ConnectionError, ErrorOrigin, InternalConnectionError, LocalError, StreamError};
pub use frame::{FrameStream, FrameStreamError};
pub use shared_state::{ConnectionState, SharedState, StateSeat};
