ghost use Rattle.std.specs.Prelude.{◌≡◌};
ghost use Rattle.qh_h3.specs.Faults.{quic_fault};
ghost use Rattle.qh_h3.specs.Finding.{fault_of};

use crate::quic::StreamErrorIncoming;
use qh_h3wire::FrameError;
use thiserror::Error;

/// Why no frame, and nothing of a payload, came.
#[derive(Debug, Drop, Error)]
pub enum FrameStreamError {
    /// The stream failed. It isn't want of memory, which is `Memory`.
    #[error("the stream failed")]
    Quic(StreamErrorIncoming),
    /// A frame is at fault. It isn't want of memory, and no frame that is to be skipped.
    #[error("a frame is at fault")]
    Proto(FrameError),
    /// The stream ended inside a frame (RFC 9114, section 7.1).
    #[error("the stream ended inside a frame")]
    UnexpectedEnd,
    /// The allocator had no memory. What was taken of the stream is still held.
    #[error("out of memory")]
    Memory,
}

impl FrameStreamError {
    // Of a frame that is refused.
    pub(crate) fn of_frame(error: FrameError) -> FrameStreamError
        ensures { result ≡ fault_of error }
    {
        match error {
            FrameError::Memory => FrameStreamError::Memory,
            error => FrameStreamError::Proto(error),
        }
    }

    // Of a stream that failed.
    pub(crate) fn of_stream(error: StreamErrorIncoming) -> FrameStreamError
        ensures { result ≡ quic_fault error }
    {
        match error {
            StreamErrorIncoming::Memory => FrameStreamError::Memory,
            error => FrameStreamError::Quic(error),
        }
    }
}
