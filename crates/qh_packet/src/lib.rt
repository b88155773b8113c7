//! The packets of version 1, read and written, as `quinn-proto` has them in `packet` and `connection::packet_builder`: 1-RTT,
//! Initial, Retry and version negotiation. And the session that makes and opens their tags.
//!
//! The session is plain and INSECURE: it has no cipher, and whoever can write datagrams can forge them.
#![tactic(auto)]

mod fields;
mod frames;
mod initial;
mod long_header;
mod packet;
mod retry;
mod session;
mod version;
mod version_negotiation;

pub use frames::{PacketFault, ValidFrames, validate_frames};
pub use initial::{InitialForm, InitialPacket, open_initial, put_initial, written_initial};
pub use long_header::LongHeader;
pub use packet::{OneRttPacket, TAG_LEN, open_packet, put_header, written_packet};
pub use qh_base::{Side, Space};
pub use retry::{RetryPacket, put_retry, retry_tag, written_retry};
pub use session::{PlainData, PlainSession, Session, plain_tags};
pub use version::{PacketType, Version};
pub use version_negotiation::{
    VersionNegotiation, put_version_negotiation, written_version_negotiation,
};
