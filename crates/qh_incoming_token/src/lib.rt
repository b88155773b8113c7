//! What an Initial's token says of its sender, as `quinn-proto` has it in `token` (`IncomingToken`; RFC 9000, section 8.1).
#![tactic(auto)]

mod incoming_token;

pub use incoming_token::{IncomingToken, IncomingTokenFault, TokenLifetimes};
