//! What the streams of a connection keep of all that was ever done with them: what is sent of a stream is what was written
//! there, what readers are given is what came, and nothing that came is lost. Laws alone, over the words of `qh_streams`.
#![tactic(auto)]

mod lawful;
mod receiving;
mod sending;
mod waiting;
mod within;

pub use lawful::faithful;
pub use receiving::gives_what_came;
pub use sending::sends_what_was_written;
pub use waiting::keeps_what_came;
pub use within::keeps_within_limits;
