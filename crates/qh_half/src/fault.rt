use qh_base::VarInt;
use thiserror::Error;

/// Why bytes aren't taken.
#[derive(Clone, Copy, Debug, PartialEq, Eq, Error)]
pub enum WriteFault {
    /// No credit of the stream or of the connection is left, or no room in the send window.
    #[error("blocked")]
    Blocked,
    /// The peer asked to stop, with this code.
    #[error("stopped by the peer")]
    Stopped(VarInt),
    /// The stream was finished or reset.
    #[error("closed stream")]
    ClosedStream,
    /// The allocator had no memory. Nothing was taken.
    #[error("out of memory")]
    Memory,
}

/// Why a stream isn't finished.
#[derive(Clone, Copy, Debug, PartialEq, Eq, Error)]
pub enum FinishFault {
    /// The peer asked to stop, with this code.
    #[error("stopped by the peer")]
    Stopped(VarInt),
    /// The stream was finished or reset before.
    #[error("closed stream")]
    ClosedStream,
}

/// The half of the stream is done, or was never there.
#[derive(Clone, Copy, Debug, PartialEq, Eq, Error)]
#[error("closed stream")]
pub struct ClosedStream;

/// Why a stream isn't read.
#[derive(Clone, Copy, Debug, PartialEq, Eq, Error)]
pub enum ReadableFault {
    /// It was stopped, or its end or its reset was given.
    #[error("closed stream")]
    ClosedStream,
    /// An ordered read after an unordered one.
    #[error("ordered read after an unordered one")]
    IllegalOrderedRead,
}

/// Why a read gives no bytes.
#[derive(Clone, Copy, Debug, PartialEq, Eq, Error)]
pub enum ReadFault {
    /// No byte waits and no end is known.
    #[error("blocked")]
    Blocked,
    /// The peer reset the stream, with this code. The bytes that weren't given are dropped.
    #[error("reset by the peer")]
    Reset(VarInt),
    /// The allocator had no memory. Nothing was given.
    #[error("out of memory")]
    Memory,
}
