//! Tokens: those that show that a client receives at an address, and those that end a stateless reset, in the place of what
//! `quinn-proto` has in `token` (RFC 9000, sections 8.1 and 10.3).
//!
//! They are plain and INSECURE: they bear no key, and whoever can write datagrams can forge them.
#![tactic(auto)]

mod laws;
mod parts;
mod reset;
mod token;

pub use laws::{reset_tokens, token_forms};
pub use reset::{RESET_TOKEN_LEN, reset_token};
pub use token::{Token, TokenPayload};
