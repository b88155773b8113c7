//! The handshake in the place of TLS: the Initial packet number space, in which each end says its hello in CRYPTO frames
//! (RFC 9000, sections 7 and 12.3), with Retry and version negotiation, as `quinn-proto` has it in `connection::spaces` and
//! `connection`.
//!
//! It is plain and INSECURE, as `qh_hello` says.
#![tactic(auto)]

mod agreeing;
mod closing;
mod following;
mod going;
mod greeting;
mod handshake;
mod honest;
mod incoming;
mod initial_space;
mod laws;
mod moments;
mod outgoing;
mod packets;
mod receiving;
mod retry;
mod sending;
mod settled;
mod silence;
mod timers;

pub use agreeing::peers;
pub use following::follows;
pub use going::goes_on;
pub use handshake::Handshake;
pub use honest::sends;
pub use initial_space::{HelloFrame, HelloState, InitialSpace, InitialStats};
pub use laws::{made_frames, written_datagram};
pub use outgoing::InitialSent;
pub use receiving::SpaceFault;
pub use sending::MadePacket;
pub use silence::silent;
