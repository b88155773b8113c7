//! Frames of HTTP/3, settings, what is written on a stream, and the heads of messages, as `h3`'s `proto` has them.
#![tactic(auto)]

mod frame;
mod headers;
mod laws;
mod pair;
mod settings;
mod stream_type;
mod write_buf;

pub use frame::{Frame, FrameError, payloads_mean_one_frame, written_frames_are_read};
pub use headers::{Header, HeaderError};
pub use laws::{heads_are_read_back, read_again};
pub use settings::{Settings, SettingsError, settings_faults};
pub use stream_type::{StreamType, stream_types_are_assigned};
pub use write_buf::WriteBuf;
