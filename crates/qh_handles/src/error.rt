ghost use Rattle.std.specs.Prelude.{◌≡◌};
ghost use Rattle.qh_handles.specs.Kinds.{read_kind, reset_kind, stopped_kind, write_kind};

use qh_base::{ConnectionError, VarInt};
use std::io::ErrorKind;
use thiserror::Error;

/// Why nothing is read of a stream (quinn, `ReadError`).
#[derive(Debug, PartialEq, Eq, Drop, Error)]
pub enum ReadError {
    /// The peer reset the stream, with this code of its application (RFC 9000, section 19.4). It is told once; reads after it give the end.
    #[error("stream reset by the peer")]
    Reset(VarInt),
    /// The connection is lost, by this error.
    #[error("connection lost")]
    ConnectionLost(ConnectionError),
    /// No handle holds the receiving half of the stream, or there never was one.
    #[error("closed stream")]
    ClosedStream,
    /// An ordered read after an unordered one.
    #[error("ordered read after an unordered one")]
    IllegalOrderedRead,
    /// The peer refused data that was sent before the handshake. No call answers it: there is no such data here.
    #[error("0-RTT rejected")]
    ZeroRttRejected,
    /// The allocator had no memory.
    #[error("out of memory")]
    Memory,
}

impl ReadError {
    /// The kind of I/O error that it is.
    pub fn kind(self) -> ErrorKind
        ensures { result ≡ read_kind self }
    {
        match self {
            ReadError::Reset(_) | ReadError::ZeroRttRejected => ErrorKind::ConnectionReset,
            ReadError::ConnectionLost(_) | ReadError::ClosedStream => ErrorKind::NotConnected,
            ReadError::IllegalOrderedRead => ErrorKind::InvalidInput,
            ReadError::Memory => ErrorKind::OutOfMemory,
        }
    }

    /// The same error again. It takes no memory.
    pub fn copied(&self) -> ReadError
        ensures { result ≡ self.now }
    {
        match self {
            ReadError::Reset(code) => ReadError::Reset(*code),
            ReadError::ConnectionLost(error) => ReadError::ConnectionLost(error.copied()),
            ReadError::ClosedStream => ReadError::ClosedStream,
            ReadError::IllegalOrderedRead => ReadError::IllegalOrderedRead,
            ReadError::ZeroRttRejected => ReadError::ZeroRttRejected,
            ReadError::Memory => ReadError::Memory,
        }
    }
}

/// Why a stream isn't read to its end (quinn, `ReadToEndError`).
#[derive(Debug, PartialEq, Eq, Drop, Error)]
pub enum ReadToEndError {
    /// A read failed.
    #[error("read error: {0}")]
    Read(ReadError),
    /// What came is longer than the limit.
    #[error("stream too long")]
    TooLong,
}

impl ReadToEndError {
    /// The same error again. It takes no memory.
    pub fn copied(&self) -> ReadToEndError
        ensures { result ≡ self.now }
    {
        match self {
            ReadToEndError::Read(error) => ReadToEndError::Read(error.copied()),
            ReadToEndError::TooLong => ReadToEndError::TooLong,
        }
    }
}

/// Why a buffer isn't filled (quinn, `ReadExactError`).
#[derive(Debug, PartialEq, Eq, Drop, Error)]
pub enum ReadExactError {
    /// The stream ended after this many bytes of the buffer.
    #[error("stream finished early ({0} bytes read)")]
    FinishedEarly(usize),
    /// A read failed.
    #[error(transparent)]
    ReadError(ReadError),
}

impl ReadExactError {
    /// The same error again. It takes no memory.
    pub fn copied(&self) -> ReadExactError
        ensures { result ≡ self.now }
    {
        match self {
            ReadExactError::FinishedEarly(count) => ReadExactError::FinishedEarly(*count),
            ReadExactError::ReadError(error) => ReadExactError::ReadError(error.copied()),
        }
    }
}

/// Why no reset is told (quinn, `ResetError`).
#[derive(Debug, PartialEq, Eq, Drop, Error)]
pub enum ResetError {
    /// The connection is lost, by this error.
    #[error("connection lost")]
    ConnectionLost(ConnectionError),
    /// The peer refused data that was sent before the handshake. No call answers it: there is no such data here.
    #[error("0-RTT rejected")]
    ZeroRttRejected,
    /// The allocator had no memory.
    #[error("out of memory")]
    Memory,
}

impl ResetError {
    /// The kind of I/O error that it is.
    pub fn kind(self) -> ErrorKind
        ensures { result ≡ reset_kind self }
    {
        match self {
            ResetError::ConnectionLost(_) => ErrorKind::NotConnected,
            ResetError::ZeroRttRejected => ErrorKind::ConnectionReset,
            ResetError::Memory => ErrorKind::OutOfMemory,
        }
    }

    /// The same error again. It takes no memory.
    pub fn copied(&self) -> ResetError
        ensures { result ≡ self.now }
    {
        match self {
            ResetError::ConnectionLost(error) => ResetError::ConnectionLost(error.copied()),
            ResetError::ZeroRttRejected => ResetError::ZeroRttRejected,
            ResetError::Memory => ResetError::Memory,
        }
    }
}

/// Why it isn't told whether the peer stopped a stream (quinn, `StoppedError`).
#[derive(Debug, PartialEq, Eq, Drop, Error)]
pub enum StoppedError {
    /// The connection is lost, by this error.
    #[error("connection lost")]
    ConnectionLost(ConnectionError),
    /// The peer refused data that was sent before the handshake. No call answers it: there is no such data here.
    #[error("0-RTT rejected")]
    ZeroRttRejected,
    /// The allocator had no memory.
    #[error("out of memory")]
    Memory,
}

impl StoppedError {
    /// The kind of I/O error that it is.
    pub fn kind(self) -> ErrorKind
        ensures { result ≡ stopped_kind self }
    {
        match self {
            StoppedError::ConnectionLost(_) => ErrorKind::NotConnected,
            StoppedError::ZeroRttRejected => ErrorKind::ConnectionReset,
            StoppedError::Memory => ErrorKind::OutOfMemory,
        }
    }

    /// The same error again. It takes no memory.
    pub fn copied(&self) -> StoppedError
        ensures { result ≡ self.now }
    {
        match self {
            StoppedError::ConnectionLost(error) => StoppedError::ConnectionLost(error.copied()),
            StoppedError::ZeroRttRejected => StoppedError::ZeroRttRejected,
            StoppedError::Memory => StoppedError::Memory,
        }
    }
}

/// Why nothing is written to a stream (quinn, `WriteError`).
#[derive(Debug, PartialEq, Eq, Drop, Error)]
pub enum WriteError {
    /// The peer asked to stop the stream, with this code of its application (RFC 9000, section 19.5).
    #[error("sending stopped by the peer")]
    Stopped(VarInt),
    /// The connection is lost, by this error.
    #[error("connection lost")]
    ConnectionLost(ConnectionError),
    /// The stream was finished or reset, or no handle holds its sending half, or there never was one.
    #[error("closed stream")]
    ClosedStream,
    /// The peer refused data that was sent before the handshake. No call answers it: there is no such data here.
    #[error("0-RTT rejected")]
    ZeroRttRejected,
    /// The allocator had no memory.
    #[error("out of memory")]
    Memory,
}

impl WriteError {
    /// The kind of I/O error that it is.
    pub fn kind(self) -> ErrorKind
        ensures { result ≡ write_kind self }
    {
        match self {
            WriteError::Stopped(_) | WriteError::ZeroRttRejected => ErrorKind::ConnectionReset,
            WriteError::ConnectionLost(_) | WriteError::ClosedStream => ErrorKind::NotConnected,
            WriteError::Memory => ErrorKind::OutOfMemory,
        }
    }

    /// The same error again. It takes no memory.
    pub fn copied(&self) -> WriteError
        ensures { result ≡ self.now }
    {
        match self {
            WriteError::Stopped(code) => WriteError::Stopped(*code),
            WriteError::ConnectionLost(error) => WriteError::ConnectionLost(error.copied()),
            WriteError::ClosedStream => WriteError::ClosedStream,
            WriteError::ZeroRttRejected => WriteError::ZeroRttRejected,
            WriteError::Memory => WriteError::Memory,
        }
    }
}

/// Why a datagram isn't queued (quinn, `SendDatagramError`).
#[derive(Debug, PartialEq, Eq, Drop, Error)]
pub enum SendDatagramError {
    /// The peer takes no datagrams (RFC 9221, section 3).
    #[error("datagrams not supported by the peer")]
    UnsupportedByPeer,
    /// Datagrams are turned off at this end.
    #[error("datagrams are turned off")]
    Disabled,
    /// It is longer than may be sent.
    #[error("datagram too large")]
    TooLarge,
    /// The connection is lost, by this error.
    #[error("connection lost")]
    ConnectionLost(ConnectionError),
    /// The allocator had no memory.
    #[error("out of memory")]
    Memory,
}

impl SendDatagramError {
    /// The same error again. It takes no memory.
    pub fn copied(&self) -> SendDatagramError
        ensures { result ≡ self.now }
    {
        match self {
            SendDatagramError::UnsupportedByPeer => SendDatagramError::UnsupportedByPeer,
            SendDatagramError::Disabled => SendDatagramError::Disabled,
            SendDatagramError::TooLarge => SendDatagramError::TooLarge,
            SendDatagramError::ConnectionLost(error) => {
                SendDatagramError::ConnectionLost(error.copied())
            }
            SendDatagramError::Memory => SendDatagramError::Memory,
        }
    }
}
