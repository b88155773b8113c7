ghost use Rattle.std.specs.Prelude.{◌≡◌};

use crate::Reason;
use thiserror::Error;

/// An error code of QUIC's transport (RFC 9000, section 20.1). The names are those of the RFC.
#[derive(Clone, Copy, Debug, PartialEq, Eq)]
pub struct TransportErrorCode(pub u64);

impl TransportErrorCode {
    /// The connection is closed without an error.
    pub const NO_ERROR: TransportErrorCode = TransportErrorCode(0x00);

    /// A fault inside the endpoint.
    pub const INTERNAL_ERROR: TransportErrorCode = TransportErrorCode(0x01);

    /// The server refused the connection.
    pub const CONNECTION_REFUSED: TransportErrorCode = TransportErrorCode(0x02);

    /// More bytes than the announced limit permits.
    pub const FLOW_CONTROL_ERROR: TransportErrorCode = TransportErrorCode(0x03);

    /// More streams than the announced count permits.
    pub const STREAM_LIMIT_ERROR: TransportErrorCode = TransportErrorCode(0x04);

    /// A frame for a stream in a state that doesn't permit it.
    pub const STREAM_STATE_ERROR: TransportErrorCode = TransportErrorCode(0x05);

    /// A stream's end that contradicts what came before.
    pub const FINAL_SIZE_ERROR: TransportErrorCode = TransportErrorCode(0x06);

    /// A frame that is cut, of an unknown type or with a value out of its range.
    pub const FRAME_ENCODING_ERROR: TransportErrorCode = TransportErrorCode(0x07);

    /// Transport parameters that are badly formed or contradict the handshake.
    pub const TRANSPORT_PARAMETER_ERROR: TransportErrorCode = TransportErrorCode(0x08);

    /// More connection ids than were asked for.
    pub const CONNECTION_ID_LIMIT_ERROR: TransportErrorCode = TransportErrorCode(0x09);

    /// A fault against the protocol for which there is no other code.
    pub const PROTOCOL_VIOLATION: TransportErrorCode = TransportErrorCode(0x0a);

    /// An Initial packet of a client with a token that isn't valid.
    pub const INVALID_TOKEN: TransportErrorCode = TransportErrorCode(0x0b);

    /// The application closed the connection, or made it fail.
    pub const APPLICATION_ERROR: TransportErrorCode = TransportErrorCode(0x0c);

    /// More handshake bytes out of order than are kept.
    pub const CRYPTO_BUFFER_EXCEEDED: TransportErrorCode = TransportErrorCode(0x0d);

    /// A fault in an update of keys.
    pub const KEY_UPDATE_ERROR: TransportErrorCode = TransportErrorCode(0x0e);

    /// The keys have reached the limit of what they may protect.
    pub const AEAD_LIMIT_REACHED: TransportErrorCode = TransportErrorCode(0x0f);

    /// No path is left that can carry QUIC.
    pub const NO_VIABLE_PATH: TransportErrorCode = TransportErrorCode(0x10);
}

/// A fault against the transport protocol that this end found.
#[derive(Debug, PartialEq, Eq, Drop, Error)]
#[error("transport error {code:?} at frame {frame:?}")]
pub struct TransportError {
    pub code: TransportErrorCode,
    /// The type of the frame at fault, where one with a whole type is.
    pub frame: Option<u64>,
    pub reason: Reason,
}

impl TransportError {
    /// The same error again. It takes no memory.
    pub fn copied(&self) -> TransportError
        ensures { result ≡ self.now }
    {
        TransportError {
            code: self.code,
            frame: self.frame,
            reason: self.reason.copied(),
        }
    }
}
