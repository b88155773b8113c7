ghost use Rattle.std.specs.Prelude.{◌≡◌};

use crate::{Reason, TransportError, TransportErrorCode, VarInt};
use thiserror::Error;

/// A CONNECTION_CLOSE frame of the peer's transport (RFC 9000, section 19.19, type 1c).
#[derive(Debug, PartialEq, Eq, Drop, Error)]
#[error("closed by the peer's transport with {code:?}")]
pub struct ConnectionClose {
    pub code: TransportErrorCode,
    /// The type of the frame that the peer found at fault, where it names one.
    pub frame: Option<u64>,
    pub reason: Reason,
}

impl ConnectionClose {
    /// The same close again. It takes no memory.
    pub fn copied(&self) -> ConnectionClose
        ensures { result ≡ self.now }
    {
        ConnectionClose {
            code: self.code,
            frame: self.frame,
            reason: self.reason.copied(),
        }
    }
}

/// A CONNECTION_CLOSE frame of the peer's application (RFC 9000, section 19.19, type 1d).
#[derive(Debug, PartialEq, Eq, Drop, Error)]
#[error("closed by the peer's application with {error_code:?}")]
pub struct ApplicationClose {
    pub error_code: VarInt,
    pub reason: Reason,
}

impl ApplicationClose {
    /// The same close again. It takes no memory.
    pub fn copied(&self) -> ApplicationClose
        ensures { result ≡ self.now }
    {
        ApplicationClose {
            error_code: self.error_code,
            reason: self.reason.copied(),
        }
    }
}

/// Why a connection was lost.
#[derive(Debug, PartialEq, Eq, Drop, Error)]
pub enum ConnectionError {
    /// The peer doesn't speak the version that was asked for.
    #[error("the peer doesn't speak this version")]
    VersionMismatch,
    /// The peer broke a rule of the transport, and this end found it.
    #[error(transparent)]
    TransportError(TransportError),
    /// The peer's transport closed the connection.
    #[error(transparent)]
    ConnectionClosed(ConnectionClose),
    /// The peer's application closed the connection.
    #[error(transparent)]
    ApplicationClosed(ApplicationClose),
    /// The peer no longer knows the connection: it sent a stateless reset.
    #[error("reset by the peer")]
    Reset,
    /// Nothing came for the idle time.
    #[error("timed out")]
    TimedOut,
    /// This end closed the connection.
    #[error("closed by this end")]
    LocallyClosed,
    /// No connection id could be made that isn't in use.
    #[error("connection ids exhausted")]
    CidsExhausted,
    /// The allocator had no memory in the middle of a step.
    #[error("out of memory")]
    Memory,
}

impl ConnectionError {
    /// The same error again. It takes no memory.
    pub fn copied(&self) -> ConnectionError
        ensures { result ≡ self.now }
    {
        match self {
            ConnectionError::VersionMismatch => ConnectionError::VersionMismatch,
            ConnectionError::TransportError(error) => ConnectionError::TransportError(
                error.copied(),
            ),
            ConnectionError::ConnectionClosed(close) => {
                ConnectionError::ConnectionClosed(close.copied())
            }
            ConnectionError::ApplicationClosed(close) => {
                ConnectionError::ApplicationClosed(close.copied())
            }
            ConnectionError::Reset => ConnectionError::Reset,
            ConnectionError::TimedOut => ConnectionError::TimedOut,
            ConnectionError::LocallyClosed => ConnectionError::LocallyClosed,
            ConnectionError::CidsExhausted => ConnectionError::CidsExhausted,
            ConnectionError::Memory => ConnectionError::Memory,
        }
    }
}
