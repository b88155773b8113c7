//! The source of an endpoint's connection ids, as `quinn-proto` has it in `cid_generator`, and the ids that count (RFC 9000, section 5.1).
#![tactic(auto)]

mod counting;
mod fresh;
mod generator;

pub use counting::{CountingIds, counted_ids};
pub use fresh::{MAX_TRIES, fresh_id};
pub use generator::{ConnectionIdGenerator, told_ids};
