//! Messages, the service that answers them, and one that echoes.
#![tactic(auto)]

mod echo;
mod message;
mod service;
mod size;

pub use echo::Echo;
pub use message::{Head, Message};
pub use service::{Entry, Limits, Service};
