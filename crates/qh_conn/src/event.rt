use bytes::Bytes;
use qh_base::{ConnectionError, Moment, Reason, VarInt};
use qh_control::IssuedCid;
use qh_streams::StreamEvent;
use std::net::SocketAddr;

/// What happened, for the application (quinn-proto, `Event`).
#[derive(Drop)]
pub enum Event {
    /// The session's `handshake_data` can be asked for.
    HandshakeDataReady,
    /// The handshake is complete.
    Connected,
    /// The connection was lost, or this end closed it. It comes once.
    ConnectionLost {
        /// Why.
        reason: ConnectionError,
    },
    /// Something happened to streams.
    Stream(StreamEvent),
    /// A datagram can be read, if none could before.
    DatagramReceived,
    /// There is room for datagrams again, of which one was refused for want of it.
    DatagramsUnblocked,
}

/// What is handed to a connection from outside (quinn-proto, `ConnectionEvent`).
#[derive(Drop)]
pub enum ConnectionEvent {
    /// A datagram that came for it.
    Datagram {
        now: Moment,
        /// Where it came from: it is taken from wherever it comes.
        remote: SocketAddr,
        payload: Bytes,
    },
    /// The endpoint issued further ids. Their sequences are below 2^62.
    NewIdentifiers(Vec<IssuedCid>, Moment),
    /// The application closes.
    Close {
        now: Moment,
        error_code: VarInt,
        reason: Reason,
    },
    /// The socket was replaced: nothing changes here.
    Rebind,
}
