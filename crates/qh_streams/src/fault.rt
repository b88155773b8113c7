use qh_base::TransportError;
use std::alloc::AllocError;
use thiserror::Error;

/// Why a frame of the peer's is refused.
#[derive(Debug, Drop, Error)]
pub enum StreamFault {
    /// The frame is at fault: the connection ends with this error.
    #[error("the peer is at fault")]
    Transport(TransportError),
    /// The allocator had no memory. Nothing changed.
    #[error("out of memory")]
    Memory,
}
