ghost use Rattle.std.specs.Prelude.{◌≡◌};

use qh_base::Reason;
use thiserror::Error;

/// A fault that only the QUIC implementation knows. Its documentation says what the numbers mean.
#[derive(Clone, Copy, Debug, PartialEq, Eq, Error)]
#[error("a fault of the transport, of kind {kind} with code {code}")]
pub struct OuterFault {
    pub kind: u8,
    pub code: u64,
}

/// Why a connection is lost, as the QUIC implementation tells it.
#[derive(Debug, Drop, Error)]
pub enum ConnectionErrorIncoming {
    /// The peer's application closed the connection, with this code (RFC 9000, section 10.2).
    #[error("closed by the peer with code {error_code}")]
    ApplicationClose { error_code: u64 },
    /// Nothing came for too long (section 10.1).
    #[error("timed out")]
    Timeout,
    /// The layers above or below broke a rule between them.
    #[error("internal error")]
    InternalError(Reason),
    /// Any other fault.
    #[error("lost")]
    Undefined(OuterFault),
    /// The allocator had no memory. The connection isn't lost by it.
    #[error("out of memory")]
    Memory,
}

impl ConnectionErrorIncoming {
    /// The same error again. It takes no memory.
    pub fn copied(&self) -> ConnectionErrorIncoming
        ensures { result ≡ self.now }
    {
        match self {
            ConnectionErrorIncoming::ApplicationClose { error_code } => {
                ConnectionErrorIncoming::ApplicationClose {
                    error_code: *error_code,
                }
            }
            ConnectionErrorIncoming::Timeout => ConnectionErrorIncoming::Timeout,
            ConnectionErrorIncoming::InternalError(reason) => {
                ConnectionErrorIncoming::InternalError(reason.copied())
            }
            ConnectionErrorIncoming::Undefined(fault) => ConnectionErrorIncoming::Undefined(*fault),
            ConnectionErrorIncoming::Memory => ConnectionErrorIncoming::Memory,
        }
    }
}

/// Why a call on a stream failed, as the QUIC implementation tells it.
#[derive(Debug, Drop, Error)]
pub enum StreamErrorIncoming {
    /// The connection is lost.
    #[error("connection lost")]
    ConnectionErrorIncoming {
        connection_error: ConnectionErrorIncoming,
    },
    /// The peer reset the stream, or asked that no more is sent on it, with this code (sections 19.4 and 19.5).
    #[error("terminated by the peer with code {error_code}")]
    StreamTerminated {
        error_code: u64,
    },
    /// Any other fault of the stream.
    #[error("failed")]
    Unknown(OuterFault),
    /// The allocator had no memory. The stream goes on.
    #[error("out of memory")]
    Memory,
}
