//! The handshake in the place of TLS: each end says its transport parameters in a hello, and nothing more.
//!
//! It is plain and INSECURE. No key is agreed, nothing is encrypted, and no one shows who it is: whoever sees the bytes can read
//! them, change them and make up others. It serves to run the transport without TLS, in tests and in closed networks, and no more.
//!
//! This crate writes and reads a hello, and keeps the bytes of the peer's as they come, in any order. `qh_spec`'s
//! `specs/Hello.antt` says what its bytes are, and `specs/HelloFaults.antt` when they are refused. The names of the parameters are
//! those of RFC 9000, section 18.2, and of `quinn-proto`.
#![tactic(auto)]

mod crypto_stream;
mod front;
mod hello;
mod ids;
mod laws;
mod reading;
mod rules;
mod split;
mod transport_parameters;
mod walk;
mod write;

pub use crypto_stream::{CryptoStream, MAX_CRYPTO};
pub use front::front_hello;
pub use hello::{ConnectionIds, HelloError, HelloFault, ReadHello, get_hello, put_hello};
pub use laws::{crypto_is_limited, hello_forms, hello_size};
pub use transport_parameters::TransportParameters;
