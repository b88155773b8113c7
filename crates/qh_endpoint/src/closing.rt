ghost use Rattle.std.specs.Prelude.{◌≡◌, [], length, IfOk, OnErr, OnOk};
ghost use Rattle.qh_connections.specs.Ids.{IsSameSource};
ghost use Rattle.qh_endpoint.specs.Closed.{IsClosed, IsClosedFrom, IsUnclosed, bare, reply_to};

use crate::Endpoint;
use qh_base::{
    ConnectionId, FourTuple, Memory, Reason, Transmit, TransportError, TransportErrorCode,
};
use qh_kit::Kit;
use qh_stateless::put_initial_close;

impl<K: Kit> Endpoint<K> {
    /// Writes an Initial packet that closes an attempt, from an id that is drawn for it.
    pub(crate) fn initial_close(
        &mut self,
        addresses: &FourTuple,
        destination: &ConnectionId,
        source: &ConnectionId,
        error: &TransportError,
        buf: &mut Vec<u8>,
    ) -> Result<Transmit, Memory>
        requires { buf.old.items ≡ [] }
        ensures closed { OnOk result (IsClosed K.G.cid_len K.G.validates K.G.given K.S.key K.S.sealed destination.now source.now error.now self.old self.new buf.new.items) }
        ensures transmit { IfOk result (λ transmit. transmit ≡ reply_to addresses.now (length buf.new.items)) }
        ensures err { OnErr result (IsUnclosed K.G.given self.old self.new buf.new.items) }
        ensures source { IsSameSource K.G.cid_len K.G.validates self.old.connections.ids self.new.connections.ids }
    {
        let own = self.connections.draw_any();
        self.close_from(&own, addresses, destination, source, error, buf)
    }

    /// The same from this id.
    pub(crate) fn close_from(
        &mut self,
        own: &ConnectionId,
        addresses: &FourTuple,
        destination: &ConnectionId,
        source: &ConnectionId,
        error: &TransportError,
        buf: &mut Vec<u8>,
    ) -> Result<Transmit, Memory>
        requires { buf.old.items ≡ [] }
        ensures closed { OnOk result (IsClosedFrom K.G.cid_len K.G.validates K.G.given K.S.key K.S.sealed own.now destination.now source.now error.now self.old self.new buf.new.items) }
        ensures transmit { IfOk result (λ transmit. transmit ≡ reply_to addresses.now (length buf.new.items)) }
        ensures err { OnErr result (buf.new.items ≡ []) }
        ensures rest { self.new ≡ record self.old { kit = self.new.kit } }
    {
        let session = self.kit.session(*destination, b"")?;
        put_initial_close(&session, source, own, error, buf)?;
        Ok(reply(addresses, buf.len()))
    }
}

/// An error of this code, at no frame, and without a reason.
pub(crate) fn error_of(code: TransportErrorCode) -> TransportError
    ensures { result ≡ bare code }
{
    TransportError {
        code,
        frame: None,
        reason: Reason::of(b""),
    }
}

/// What was written goes to where the datagram came from.
pub(crate) fn reply(addresses: &FourTuple, size: usize) -> Transmit
    ensures { result ≡ reply_to addresses.now size }
{
    Transmit {
        destination: addresses.remote,
        size,
        src_ip: addresses.local_ip,
    }
}
