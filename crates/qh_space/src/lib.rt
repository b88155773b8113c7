//! The packet number space of application data with all that happens in it: which packets came, are out and are owed, and the
//! streams whose frames they bear. It takes the frames of packets and makes the frames of packets; as `quinn-proto` has it in
//! `connection::spaces` and the parts of `connection` that receive, acknowledge, detect loss and fill packets.
#![tactic(auto)]

mod data_space;
mod receiving;
mod sending;
mod timers;

pub use data_space::{DataSpace, SpaceConfig};
