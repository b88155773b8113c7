//! The book of a connection: what the calls of an application on it may reply, and what they and the turns of its driver change, without packets,
//! acknowledgements, timers or wakers. `specs/` has the book and its steps; here are the types of calls, replies and items, and laws.
#![tactic(auto)]

mod call;
mod entry;
mod interest;
mod item;
mod laws;
mod reply;
mod shown;

pub use call::{Call, Getter, Setting};
pub use entry::Entry;
pub use interest::Interest;
pub use item::Item;
pub use laws::{
    a_legal_history, at_most_one_book, closes_wake, each_call_has_a_reply, interests_are_a_set,
    pending_registers, replies_fit, turns_settle,
};
pub use reply::Reply;
pub use shown::{
    closed_recvs_shown, datagram_refusals_shown, datagrams_shown, emptied_shown, ends_shown,
    first_shown, frames_shown, kept_shown, opens_shown, reads_shown, refusals_shown,
    sends_told_shown, stops_shown, untold_shown, writes_shown,
};
