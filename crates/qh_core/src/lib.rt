//! One end of a connection without sockets or clocks, as `quinn-proto`'s `connection` has it: datagrams, calls and moments are
//! handed in, datagrams and events are handed out.
//!
//! The session is plain and INSECURE: it has no cipher, and whoever can write datagrams can forge them.
#![tactic(auto)]

mod accepted;
mod config;
mod connection;
mod control;
mod event;
mod fault;
mod idle;
mod inner;
mod laws;
mod making;
mod state;
mod stats;
mod waiting;

pub use accepted::Accepted;
pub use config::{ConnConfig, first_limits};
pub use connection::Connection;
pub use control::{ControlFrame, ControlSent};
pub use event::{ConnectionEvent, EndpointEvent, Event};
pub use fault::TakeFault;
pub use idle::IdleTimer;
pub use inner::Inner;
pub use laws::{in_time, lawful, other_session, progress};
pub use making::{made, made_together};
pub use qh_base::{Side, Space};
pub use qh_packet::{PlainData, PlainSession, Session};
pub use qh_recovery::ControllerMetrics;
pub use state::{Close, State};
pub use stats::{ConnectionStats, UdpStats};
pub use waiting::keeps_what_came;
