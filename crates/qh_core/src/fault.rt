use qh_streams::{ReadFault, ReadableFault};
use thiserror::Error;

/// Why nothing is read of a stream.
#[derive(Clone, Copy, Debug, PartialEq, Eq, Error)]
pub enum TakeFault {
    /// It can't be read.
    #[error(transparent)]
    Readable(ReadableFault),
    /// Nothing waits, or the peer reset it, or memory lacks.
    #[error(transparent)]
    Read(ReadFault),
}
