//! How a connection behaves to its peer, by the datagrams that went both ways: what it knows came, what it sends keeps what it
//! announced, which is never below its first limits, and each final size that it says is right; and over a link that gives each end
//! only what the other handed out no end refuses what comes. Laws alone, over the contracts of `qh_core`.
#![tactic(auto)]

pub mod announced;
mod behaving;
mod filled;
mod fitting;
mod granted;
pub mod peers;
mod permitting;
mod reaching;
mod restarting;
mod sized;

pub use behaving::{behaves, behaves_on};
pub use filled::fills;
pub use fitting::{faults, frames_fit};
pub use granted::grants;
pub use permitting::permits;
pub use reaching::reached;
pub use restarting::{plain_tags, restarts};
pub use sized::sizes;
