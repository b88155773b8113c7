//! What a connection owes to its peer is kept until it is acknowledged, by the datagrams that went both ways. A law alone.
#![tactic(auto)]

mod keeping;
mod laws;

pub use keeping::{ledger, sent_once};
pub use laws::{owing, owing_on};
