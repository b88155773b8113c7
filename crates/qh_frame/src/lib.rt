//! Frames of QUIC (RFC 9000, section 19; RFC 9221), read and written, as `quinn-proto`'s `frame` has them.
#![tactic(auto)]

mod ack;
mod fields;
mod frame;
mod laws;
mod put;
mod read;
mod stream;
mod types;
mod write;
mod written_ack;

pub use ack::{Ack, AckRange, EcnCounts};
pub use frame::{Frame, FrameFault, Stream};
pub use laws::written_forms;
pub use put::{
    put_application_close, put_connection_close, put_crypto, put_datagram, put_max_data,
    put_max_stream_data, put_max_streams, put_new_connection_id, put_new_token, put_padding,
    put_path_response, put_ping, put_reset_stream, put_retire_connection_id, put_stop_sending,
    put_stream, put_stream_head,
};
pub use read::get_frame;
pub use written_ack::put_ack;
