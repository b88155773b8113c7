//! How errors are written, and what a connection asks of its endpoint.
use crate::row::Row;
use qh_base::{ConnectionError, Memory, TransportErrorCode};
use qh_conn::{ClosedStream, EndpointEvent};
use qh_handles::{ReadError, SendDatagramError, WriteError};
use row_text::RowFault;

/// Puts why a connection is lost.
pub(crate) fn put_lost(cause: &ConnectionError, row: &mut Row<'_>) {
    match cause {
        ConnectionError::VersionMismatch => row.put("lost mismatch"),
        ConnectionError::TransportError(error) => {
            put_code("lost error ", error.code, error.frame, row);
        }
        ConnectionError::ConnectionClosed(close) => {
            put_code("lost closed ", close.code, close.frame, row);
            row.put_part(" ", close.reason.bytes());
        }
        ConnectionError::ApplicationClosed(close) => {
            row.put_count("lost application ", close.error_code.into_inner());
            row.put_part(" ", close.reason.bytes());
        }
        ConnectionError::Reset => row.put("lost reset"),
        ConnectionError::TimedOut => row.put("lost timed-out"),
        ConnectionError::LocallyClosed => row.put("lost by-this-end"),
        ConnectionError::CidsExhausted => row.put("lost exhausted"),
        ConnectionError::Memory => row.put("lost memory"),
    }
}

// Puts a code, and the type of a frame.
fn put_code(name: &str, code: TransportErrorCode, frame: Option<u64>, row: &mut Row<'_>) {
    row.put_code(name, code.0);
    if let Some(kind) = frame {
        row.put_code(" frame ", kind);
    }
}

/// Puts why nothing is read.
pub(crate) fn put_read_error(error: &ReadError, row: &mut Row<'_>) {
    match error {
        ReadError::Reset(code) => row.put_count("reset ", code.into_inner()),
        ReadError::ConnectionLost(cause) => put_lost(cause, row),
        ReadError::ClosedStream => row.put("closed"),
        ReadError::IllegalOrderedRead => row.put("illegal"),
        ReadError::ZeroRttRejected => row.put("rejected"),
        ReadError::Memory => row.put("memory"),
    }
}

/// Puts why nothing is written.
pub(crate) fn put_write_error(error: &WriteError, row: &mut Row<'_>) {
    match error {
        WriteError::Stopped(code) => row.put_count("stopped ", code.into_inner()),
        WriteError::ConnectionLost(cause) => put_lost(cause, row),
        WriteError::ClosedStream => row.put("closed"),
        WriteError::ZeroRttRejected => row.put("rejected"),
        WriteError::Memory => row.put("memory"),
    }
}

/// Puts `ok`, or why a datagram wasn't queued.
pub(crate) fn put_queued(queued: &Result<(), SendDatagramError>, row: &mut Row<'_>) {
    match queued {
        Ok(()) => row.put("ok"),
        Err(SendDatagramError::UnsupportedByPeer) => row.put("unsupported"),
        Err(SendDatagramError::Disabled) => row.put("disabled"),
        Err(SendDatagramError::TooLarge) => row.put("too-large"),
        Err(SendDatagramError::ConnectionLost(cause)) => put_lost(cause, row),
        Err(SendDatagramError::Memory) => row.put("memory"),
    }
}

/// Puts `ok`, or `closed`.
pub(crate) fn put_done(done: Result<Result<(), ClosedStream>, Memory>, row: &mut Row<'_>) {
    match done {
        Ok(Ok(())) => row.put("ok"),
        Ok(Err(ClosedStream)) => row.put("closed"),
        Err(Memory) => row.fail(RowFault::Memory),
    }
}

/// Puts what a connection asks of its endpoint.
pub(crate) fn put_endpoint_event(event: &EndpointEvent, row: &mut Row<'_>) {
    row.put_comma();
    match event {
        EndpointEvent::NeedIdentifiers(_, count) => row.put_count("need ", *count),
        EndpointEvent::ResetToken(_, token) => row.put_part("token ", &token.0),
        EndpointEvent::RetireConnectionId(_, sequence, _) => row.put_count("retire ", *sequence),
        EndpointEvent::Drained => row.put("drained"),
    }
}
