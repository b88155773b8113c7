use crate::incoming::FirstPacket;
use qh_base::{ConnectionId, TransportErrorCode};
use qh_kit::ServerConfig;

/// What a datagram is that has no route.
#[derive(Clone, Copy)]
pub(crate) enum Stranger {
    /// Nothing is done with it.
    Ignored,
    /// It goes to an id of a connection that isn't known any more: a stateless reset answers it, as often as these are sent.
    Unknown(ConnectionId),
    /// It is an Initial packet of an attempt that is closed at once, with this error.
    Refused {
        destination: ConnectionId,
        source: ConnectionId,
        code: TransportErrorCode,
    },
    /// It begins an attempt.
    Attempt {
        first: FirstPacket,
        server: ServerConfig,
    },
}
