//! Laws of a book that shows a whole connection: what events, datagrams and want of memory bring to it, and what brings nothing.
#![tactic(auto)]

mod driving;
mod known;

pub use driving::{
    begun_shown, closes_shown, datagrams_bring, events_bring, log_shown, sends_bring, times_bring,
    wants_bring,
};
