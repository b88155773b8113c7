//! An endpoint: it finds the connection of each datagram, lets attempts wait until they are accepted, refused, retried or ignored, and makes
//! connections, as `quinn-proto` has it in `endpoint`.
#![tactic(auto)]

mod accepting;
mod asking;
mod closing;
mod connecting;
mod endpoint;
mod event;
mod handling;
mod incoming;
mod judging;
mod laws;
mod leaving;
mod retrying;
mod stranger;

pub use accepting::AcceptError;
pub use endpoint::Endpoint;
pub use event::DatagramEvent;
pub use incoming::Incoming;
pub use laws::{
    attempts_are_led, attempts_leave_once, attempts_stay, routed_datagrams, tokens_come_back,
};
pub use retrying::{RetryError, RetryFault};
