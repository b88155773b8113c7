//! What an endpoint is made with, and its settings, in the place of the crypto configs, `EndpointConfig`, `ServerConfig`, `ClientConfig` and
//! the errors of `quinn-proto`'s `config` and `endpoint`.
#![tactic(auto)]

mod config;
mod error;
mod kit;

pub use config::{ClientConfig, EndpointConfig, ServerConfig};
pub use error::{ConnectError, EventFault};
pub use kit::Kit;
