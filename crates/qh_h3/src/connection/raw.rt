//! Errors of a connection on which HTTP/3 hasn't begun (h3, `CloseRawQuicConnection`).
ghost use Rattle.std.specs.Prelude.{◌≡◌};
ghost use Rattle.qh_h3.specs.Closing.{IsRaw, own_origin};
ghost use Rattle.qh_h3.specs.declared.error.ErrorOrigin.TheVariants as origins;

use crate::connection::closable::close_for;
use crate::error::{ConnectionError, ErrorOrigin, InternalConnectionError};
use crate::quic::{Connection, ConnectionErrorIncoming};
use qh_base::Code;
use std::alloc::Global;

/// Closes the connection with H3_INTERNAL_ERROR if the error is `InternalError`, and answers the error. Without memory for the close it answers `Memory`.
pub fn handle_quic_error_raw<C: Connection>(
    conn: &mut C,
    at: &mut C::At,
    alloc: Global,
    error: ConnectionErrorIncoming,
) -> ConnectionError
    ensures raw { IsRaw (own_origin error) result (C.closes conn.old at.old) (C.closes conn.new at.new) }
    ensures counts { C.counts conn.new at.new ≡ C.counts conn.old at.old }
{
    close_raw(conn, at, alloc, internal_of(error))
}

/// Closes the connection with the error's code, and answers the error. Without memory for the close it answers `Memory`.
pub fn close_raw_connection_with_h3_error<C: Connection>(
    conn: &mut C,
    at: &mut C::At,
    alloc: Global,
    error: InternalConnectionError,
) -> ConnectionError
    ensures raw { IsRaw (origins.Internal error) result (C.closes conn.old at.old) (C.closes conn.new at.new) }
    ensures counts { C.counts conn.new at.new ≡ C.counts conn.old at.old }
{
    close_raw(conn, at, alloc, ErrorOrigin::Internal(error))
}

// An internal error of the layer below as one of this end.
fn internal_of(error: ConnectionErrorIncoming) -> ErrorOrigin
    ensures { result ≡ own_origin error }
{
    match error {
        ConnectionErrorIncoming::InternalError(reason) => ErrorOrigin::Internal(
            InternalConnectionError::new(Code::H3_INTERNAL_ERROR, reason),
        ),
        error => ErrorOrigin::Quic(error),
    }
}

// Closes the connection for an error, and answers it.
fn close_raw<C: Connection>(
    conn: &mut C,
    at: &mut C::At,
    alloc: Global,
    error: ErrorOrigin,
) -> ConnectionError
    ensures raw { IsRaw error result (C.closes conn.old at.old) (C.closes conn.new at.new) }
    ensures counts { C.counts conn.new at.new ≡ C.counts conn.old at.old }
{
    if close_for(conn, at, alloc, &error).is_err() {
        return ConnectionError::Memory;
    }
    ConnectionError::of_origin(error)
}
