//! How an end stands to all that was done with it, as one relation, and what comes to an end of what the other handed out. Laws
//! alone, over those of `qh_conduct` and `qh_owing`.
#![tactic(auto)]

mod according;
mod asking;
mod hearing;
mod saying;
mod taking;

pub use according::accords;
pub use asking::asked;
pub use hearing::heard;
pub use saying::said;
pub use taking::taken;
