//! What a connection knows of its packets and its path, as `quinn-proto` has it in `connection::spaces`, `connection::paths` and
//! `congestion`: which numbers came and are to be acknowledged, which packets are out, how long a round trip takes, and how
//! much may be in flight.
#![tactic(auto)]

mod congestion;
mod packet_number;
mod paths;
mod sent_packets;
mod spaces;

pub use congestion::{ControllerMetrics, WindowController};
pub use packet_number::{expand, one_number};
pub use paths::RttEstimator;
pub use sent_packets::{SentPacket, SentPackets, packet_is_among};
pub use spaces::{Dedup, PendingAcks, insert_received};
