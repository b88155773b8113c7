//! The connection ids of both ends: those that the peer issued, of which one is in use, and those that this end issued, as
//! `quinn-proto` has them in `cid_queue` and `connection::cid_state` (RFC 9000, section 5.1).
#![tactic(auto)]

mod cid_queue;
mod cid_state;

pub use cid_queue::{CidQueue, InsertError, Inserted, LIMIT, RemoteCid};
pub use cid_state::{CidState, RetireError};
