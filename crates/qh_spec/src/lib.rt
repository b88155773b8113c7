//! What the promises of this repository are made of: `specs/` has the definitions, in the words of RFC 9000, RFC 9114
//! and RFC 9204, `laws` shows what they mean, and this file has the few types of which they speak. The crates above hand
//! these types on.
#![tactic(auto)]

pub mod laws;
mod link;
mod script;
mod sides;

pub use link::{Event, Select, Upset};
pub use script::Setting;
pub use sides::{Dir, Side, Space};
