//! The two ends of an exchange over a link: they greet, the client asks, the server serves, turn by turn.
#![tactic(auto)]

mod ends;
mod error;
mod pair;

pub use error::ExchangeError;
pub use pair::{Pair, pairs};
