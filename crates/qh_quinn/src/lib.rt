//! The state of a connection that its handles and its driver share, as `quinn` has it: each call of a handle and each turn of the driver is one step of a
//! book that can be read (`qh_book`).
#![tactic(auto)]

mod history;
mod inner;
mod readers;
mod state;
mod waiting;

pub use history::HistoryEntry;
pub use inner::StateInner;
pub use qh_book::{Call, Entry, Getter, Interest, Item, Reply, Setting};
pub use qh_handles::{At, Told};
pub use state::State;
