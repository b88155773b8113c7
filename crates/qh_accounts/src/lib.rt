//! Laws of a connection's streams: each of the peer's streams that arrived is closed or live, each byte that was written is
//! acknowledged, waits or is out, what was sent of a stream is a prefix of it, and numbers without a gap are one range. No code.
#![tactic(auto)]

mod laws;

pub use laws::{accounted, carried, one_range, settled_or_out};
