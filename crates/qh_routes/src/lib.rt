//! By what an endpoint finds the connection that a datagram belongs to: `ConnectionIndex` and `ConnectionMeta` of `quinn-proto`
//! (RFC 9000, section 5.2).
#![tactic(auto)]

mod connection_handle;
mod connection_index;
mod connection_meta;
mod laws;
mod route_keys;

pub use connection_handle::ConnectionHandle;
pub use connection_index::{ConnectionIndex, RouteDatagramTo, Routed};
pub use connection_meta::ConnectionMeta;
pub use laws::{answers_are_one, ids_taken_back, keys_after, removal_is_complete};
