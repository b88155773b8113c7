//! Ids, variable-length integers, times, errors, and the traits of what is read and written: what every crate above
//! shares. The names are those of `quinn-proto` and `h3`.
#![tactic(auto)]

mod code;
mod connection_error;
mod counted;
mod equality;
mod frame_type;
mod io;
mod memory;
mod numbers;
mod path;
mod shared;
mod stream_id;
mod text;
mod time;
mod transport_error;
mod varint;

pub use code::Code;
pub use connection_error::{ApplicationClose, ConnectionClose, ConnectionError};
pub use counted::{get_counted, get_number};
pub use equality::equal_means_same;
pub use frame_type::FrameType;
pub use io::{Failed, MemSink, MemSource, Sink, Source, StdSink, StdSource};
pub use memory::Memory;
pub use numbers::numbers_are_assigned;
pub use path::{FourTuple, Transmit};
pub use qh_spec::{Dir, Side, Space};
pub use shared::{ConnectionId, ResetToken};
pub use stream_id::StreamId;
pub use text::{Name, Reason};
pub use time::{Moment, Span, earlier, is_due};
pub use transport_error::{TransportError, TransportErrorCode};
pub use varint::{VarInt, get_varint, put_varint};
