//! What the drivers of an endpoint stand on (quinn, `runtime.rs`): timers, sockets and the time, and a runtime whose time is set by hand. Below them stands what
//! becomes of the messages that an endpoint brings (quinn, `endpoint.rs`), on which no public call stands yet.
#![tactic(auto)]

mod connection_set;
mod manual;
mod recv;
mod runtime;

pub use manual::{ManualRuntime, ManualTimer};
pub use qh_runtime::{AsyncUdpSocket, IoFault, QueueSocket, RecvMeta, UdpPoller};
pub use runtime::{AsyncTimer, Runtime};
