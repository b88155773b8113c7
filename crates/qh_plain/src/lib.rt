//! Plain programs that compute the definitions of `qh_spec`. They are slow, and share nothing with the stack: tests
//! compare with them.
#![tactic(auto)]

pub mod carried;
pub mod frames;
pub mod meanings;
pub mod messages;
pub mod packets;
pub mod requests;
pub mod sections;
mod types;
