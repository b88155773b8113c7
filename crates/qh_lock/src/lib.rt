//! A lock whose holders take turns, around a value that stores its history.
//!
//! `Mutex::lock` draws a ticket and waits until it is served; `Guard::unlock` puts the value back and serves the next one. Each
//! caller has a `Seat`, in which contracts see the history that it has seen, the places in it of its own entries, and
//! whether it has the turn. A seat is split for another caller, and joined again: who has every part may close the mutex.
//! Every step on the words of the lock is sequentially consistent.
#![tactic(auto)]

mod guard;
mod kept;
mod laws;
mod lock;
mod plays;
mod seat;
mod turn;
mod view;

pub use guard::{Guard, Held};
pub use kept::Kept;
pub use laws::own_places_ascend;
pub use lock::Mutex;
pub use seat::Seat;
