//! The link between the two ends of a connection: what it tells, and one in memory that follows a schedule.
#![tactic(auto)]

mod link;
mod schedule;
mod script;
mod ways;

pub use link::{Link, LinkFault, MAX_DATAGRAM};
pub use qh_spec::{Event, Select, Upset};
pub use schedule::is_valid_upset;
pub use script::ScriptLink;
