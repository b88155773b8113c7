//! The connection attempts that wait at an endpoint until they are accepted, refused, retried or ignored, with the datagrams that are kept for each
//! meanwhile, as `quinn-proto` has them in `endpoint` (`IncomingBuffer`).
#![tactic(auto)]

mod attempt;
mod incoming_buffers;
mod laws;

pub use attempt::{Attempt, BufferLimits, KeptDatagram};
pub use incoming_buffers::{AttemptKey, IncomingBuffers};
pub use laws::{names_stay, others_stay_pending};
