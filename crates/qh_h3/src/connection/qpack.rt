//! The encoder and the decoder stream of the peer (RFC 9204, section 4.2). What is read of them means nothing, since no dynamic table is offered or used.
ghost use Rattle.std.specs.Prelude.{◌≡◌};
ghost use Rattle.qh_h3.specs.Drained.{IsQpackFault};

use crate::connection::control::{critical, ended};
use crate::error::ErrorOrigin;
use crate::frame::FrameStreamError;
use crate::quic::ConnectionErrorIncoming;
use qh_base::Code;

// Why the connection ends once an encoder or a decoder stream does.
pub(crate) fn qpack_fault(found: Result<(), FrameStreamError>) -> ErrorOrigin
    ensures { IsQpackFault found result }
{
    match found {
        Err(FrameStreamError::Quic(error)) => critical(error),
        Err(FrameStreamError::Memory) => ErrorOrigin::Quic(ConnectionErrorIncoming::Memory),
        _ => ended(
            Code::H3_CLOSED_CRITICAL_STREAM,
            b"an encoder or a decoder stream ended",
        ),
    }
}
