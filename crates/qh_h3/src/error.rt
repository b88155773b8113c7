//! Errors of connections and of streams (h3, `error`).
ghost use Rattle.std.specs.Prelude.{◌≡◌, ◌≢◌, ◌<◌, ◌^◌, None, Some};
ghost use Rattle.qh_h3wire.specs.FrameFault.{code_of};
ghost use Rattle.qh_h3.specs.Errors.{connection_error, ended_well, stream_ended_well};

use crate::quic::{ConnectionErrorIncoming, OuterFault};
use qh_base::{Code, Reason};
use qh_h3wire::{FrameError, SettingsError};
use std::marker::Model;

/// A connection error that this end found, with the code of RFC 9114, section 8.1, or of RFC 9204, section 6. The code is below 2^62.
#[derive(Drop)]
pub struct InternalConnectionError {
    pub code: Code,
    pub message: Reason,
}

impl Model for InternalConnectionError {
    ghost use Rattle.std.specs.Prelude.{◌<◌, ◌^◌};
    ghost use Rattle.qh_h3.specs.OwnErrors.{OwnError};

    ghost Value = { OwnError };

    ghost view = { λ e. record { code = e.code; message = e.message } };

    ghost invariant = { λ e. e.code.0 < 2 ^ 62 };
}

impl InternalConnectionError {
    /// A connection error with this code and message.
    pub fn new(code: Code, message: Reason) -> InternalConnectionError
        requires { code.0 < 2 ^ 62 }
        ensures { result ≡ record { code = code; message = message } }
    {
        InternalConnectionError { code, message }
    }

    /// The connection error for a frame that is refused. The message says why.
    pub fn got_frame_error(error: FrameError) -> InternalConnectionError
        requires { code_of error ≢ None }
        ensures { Some result.code ≡ code_of error }
    {
        match error.code() {
            Some(code) => InternalConnectionError::new(code, Reason::of(fault_text(&error))),
            None => unreachable!(),
        }
    }

    /// The same error again. It takes no memory.
    pub fn copied(&self) -> InternalConnectionError
        ensures { result ≡ self.now }
    {
        InternalConnectionError {
            code: self.code,
            message: self.message.copied(),
        }
    }
}

// What is said of a frame that is refused.
fn fault_text(error: &FrameError) -> &'static [u8] {
    match error {
        FrameError::Malformed | FrameError::InvalidFrameValue => {
            b"a frame's payload ends too early, or goes on behind its fields"
        }
        FrameError::ForbiddenFrame(_) => b"a frame of a reserved type",
        FrameError::UnknownFrame(_) => b"a frame of an unknown type",
        FrameError::Incomplete(_) => b"a frame that is cut",
        FrameError::Settings(error) => settings_text(error),
        FrameError::InvalidStreamId(_) => b"a frame with an invalid stream id",
        FrameError::InvalidPushId(_) => b"a frame with an invalid push id",
        FrameError::Memory => b"out of memory",
    }
}

// What is said of settings that are refused.
fn settings_text(error: &SettingsError) -> &'static [u8] {
    match error {
        SettingsError::Malformed => b"a setting that is cut",
        SettingsError::Repeated(_) => b"a setting that stands twice",
        SettingsError::Forbidden(_) => b"a reserved setting",
        SettingsError::Value(_, _) => b"a setting with an invalid value",
        SettingsError::Memory => b"out of memory",
    }
}

/// Where a connection's error comes from.
#[derive(Drop)]
pub enum ErrorOrigin {
    /// This end found it.
    Internal(InternalConnectionError),
    /// The QUIC implementation told it.
    Quic(ConnectionErrorIncoming),
}

impl ErrorOrigin {
    /// The same error again. It takes no memory.
    pub fn copied(&self) -> ErrorOrigin
        ensures { result ≡ self.now }
    {
        match self {
            ErrorOrigin::Internal(error) => ErrorOrigin::Internal(error.copied()),
            ErrorOrigin::Quic(error) => ErrorOrigin::Quic(error.copied()),
        }
    }
}

/// Why this end closed a connection.
#[derive(Drop)]
pub enum LocalError {
    /// It closed it with this code and reason.
    Application { code: Code, reason: Reason },
    /// It is closing. No call answers it.
    Closing,
}

/// Why a connection ended.
#[derive(Drop)]
pub enum ConnectionError {
    /// This end closed it.
    Local { error: LocalError },
    /// The QUIC implementation lost it, or the peer closed it.
    Remote(ConnectionErrorIncoming),
    /// Nothing came for too long.
    Timeout,
    /// The allocator had no memory. The connection isn't ended by it.
    Memory,
}

impl ConnectionError {
    /// The error that counts, as a connection answers it.
    pub(crate) fn of_origin(origin: ErrorOrigin) -> ConnectionError
        ensures { result ≡ connection_error origin }
    {
        match origin {
            ErrorOrigin::Internal(error) => {
                let InternalConnectionError { code, message } = error;
                ConnectionError::Local {
                    error: LocalError::Application {
                        code,
                        reason: message,
                    },
                }
            }
            ErrorOrigin::Quic(ConnectionErrorIncoming::Timeout) => ConnectionError::Timeout,
            ErrorOrigin::Quic(ConnectionErrorIncoming::Memory) => ConnectionError::Memory,
            ErrorOrigin::Quic(error) => ConnectionError::Remote(error),
        }
    }

    /// Whether either end closed the connection with H3_NO_ERROR.
    pub fn is_h3_no_error(&self) -> bool
        ensures { result ≡ ended_well self.now }
    {
        match self {
            ConnectionError::Local {
                error: LocalError::Application { code, reason: _ },
            } => *code == Code::H3_NO_ERROR,
            ConnectionError::Remote(ConnectionErrorIncoming::ApplicationClose { error_code }) => {
                *error_code == Code::H3_NO_ERROR.0
            }
            _ => false,
        }
    }
}

/// Why a call on a request's stream failed.
#[derive(Drop)]
pub enum StreamError {
    /// This end ended the stream, with this code.
    StreamError { code: Code, reason: Reason },
    /// The peer reset the stream, or asked that no more is sent on it, with this code.
    RemoteTerminate { code: Code },
    /// The connection ended.
    ConnectionError(ConnectionError),
    /// A field section is greater than its reader takes. Sizes are in bytes (RFC 9114, section 4.2.2).
    HeaderTooBig { actual_size: u64, max_size: u64 },
    /// No more requests are taken: the peer closes the connection, or this end does (section 5.2).
    RemoteClosing,
    /// Another fault of the stream.
    Undefined(OuterFault),
    /// The allocator had no memory. The stream goes on.
    Memory,
}

impl StreamError {
    /// Whether the stream was ended by this end, or the connection by either, with H3_NO_ERROR.
    pub fn is_h3_no_error(&self) -> bool
        ensures { result ≡ stream_ended_well self.now }
    {
        match self {
            StreamError::StreamError { code, reason: _ } => *code == Code::H3_NO_ERROR,
            StreamError::ConnectionError(error) => error.is_h3_no_error(),
            _ => false,
        }
    }
}
