//! What an endpoint does that one of its connections asks: it issues and retires ids, notes reset tokens, and forgets a connection that is drained.
//! As `quinn-proto` has it in `endpoint` (`Endpoint::handle_event`, `send_new_identifiers`).
#![tactic(auto)]

mod events;

pub use events::handle_event;
