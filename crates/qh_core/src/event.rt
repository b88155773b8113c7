use bytes::Bytes;
use qh_base::{ConnectionError, Moment, Reason, VarInt};
use qh_streams::StreamEvent;
use std::net::SocketAddr;

/// What happened, for the application (quinn-proto, `Event`).
#[derive(Drop)]
pub enum Event {
    /// The connection was lost, or this end closed it. It comes once, after all that happened to streams before.
    ConnectionLost {
        /// Why.
        reason: ConnectionError,
    },
    /// Something happened to streams.
    Stream(StreamEvent),
}

/// What is handed to a connection from outside (quinn-proto, `ConnectionEvent`).
#[derive(Drop)]
pub enum ConnectionEvent {
    /// A datagram that came for it.
    Datagram {
        now: Moment,
        /// Where it came from. A datagram is known by its tag alone: it is taken from wherever it comes, and to whichever id.
        remote: SocketAddr,
        payload: Bytes,
    },
    /// The application closes.
    Close {
        now: Moment,
        error_code: VarInt,
        reason: Reason,
    },
}

/// What a connection tells the endpoint that it belongs to (quinn-proto, `EndpointEvent`).
#[derive(Clone, Copy, PartialEq, Eq)]
pub enum EndpointEvent {
    /// Nothing more is sent or taken: the connection can be forgotten.
    Drained,
}
