//! What becomes of the packets that are out: they are acknowledged or lost, and what a probe sends again (RFC 9002, section 6), as
//! `quinn-proto`'s `connection` has it in `on_ack_received`, `detect_lost_packets` and `on_loss_detection_timeout`.
#![tactic(auto)]

mod acked;
mod laws;
mod lost;
mod probe;

pub use acked::on_ack_received;
pub use laws::owed;
pub use lost::detect_lost_packets;
pub use probe::{Probe, queue_probe};
