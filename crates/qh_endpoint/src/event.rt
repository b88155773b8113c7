use crate::Incoming;
use qh_base::Transmit;
use qh_conn::ConnectionEvent;
use qh_routes::ConnectionHandle;

/// What becomes of a datagram (quinn-proto, `DatagramEvent`).
#[derive(Drop)]
pub enum DatagramEvent {
    /// It is for this connection.
    ConnectionEvent(ConnectionHandle, ConnectionEvent),
    /// It begins an attempt, which waits.
    NewConnection(Incoming),
    /// What was written into the buffer is to be sent.
    Response(Transmit),
}
