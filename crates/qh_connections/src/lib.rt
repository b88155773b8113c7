//! The connections of an endpoint: the routes by which datagrams reach them, and what the endpoint keeps of each, as `quinn-proto` has them in
//! `endpoint` (`index`, `connections`, `local_cid_generator`).
#![tactic(auto)]

mod connections;

pub use connections::{Connections, IssueFault};
