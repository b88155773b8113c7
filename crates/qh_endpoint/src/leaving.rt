ghost use Rattle.std.specs.Prelude.{◌≡◌, [], length, IfOk, OnErr, OnOk};
ghost use Rattle.qh_attempts.specs.Attempts.{IsPending, PlainAttempt};
ghost use Rattle.qh_connections.specs.Ids.{IsSameSource};
ghost use Rattle.qh_endpoint.specs.Closed.{IsClosed, IsUnclosed, refused, reply_to};
ghost use Rattle.qh_endpoint.specs.Endpoint.{PlainEndpoint};
ghost use Rattle.qh_endpoint.specs.Leaving.{HasLeft};
ghost use Rattle.qh_endpoint.specs.declared.incoming.Waiting.{Waiting as AWaiting};

use crate::closing::error_of;
use crate::incoming::Waiting;
use crate::{Endpoint, Incoming};
use qh_attempts::KeptDatagram;
use qh_base::{Memory, Transmit, TransportErrorCode};
use qh_kit::Kit;

impl<K: Kit> Endpoint<K> {
    /// The attempt is forgotten, and nothing is sent. It takes no memory.
    pub fn ignore(&mut self, incoming: Incoming)
        requires { IsPending self.old.incoming incoming.key }
        ensures { (attempt : PlainAttempt AWaiting) × HasLeft incoming.key attempt self.old self.new }
    {
        let _ = self.take(&incoming);
    }

    /// The attempt is closed with CONNECTION_REFUSED, by what is written into the buffer, which is empty. It is spent whatever is answered.
    pub fn refuse(&mut self, incoming: Incoming, buf: &mut Vec<u8>) -> Result<Transmit, Memory>
        requires pending { IsPending self.old.incoming incoming.key }
        requires written { buf.old.items ≡ [] }
        ensures left { (attempt : PlainAttempt AWaiting) × (mid : PlainEndpoint K K.G K.R K.T) × HasLeft incoming.key attempt self.old mid
            × OnOk result (IsClosed K.G.cid_len K.G.validates K.G.given K.S.key K.S.sealed attempt.config.first.destination attempt.config.first.source refused mid self.new buf.new.items)
            × IfOk result (λ transmit. transmit ≡ reply_to attempt.config.addresses (length buf.new.items))
            × OnErr result (IsUnclosed K.G.given mid self.new buf.new.items) }
        ensures source { IsSameSource K.G.cid_len K.G.validates self.old.connections.ids self.new.connections.ids }
    {
        let (waiting, _) = self.take(&incoming);
        let first = waiting.first;
        let error = error_of(TransportErrorCode::CONNECTION_REFUSED);
        self.initial_close(
            &waiting.addresses,
            &first.destination,
            &first.source,
            &error,
            buf,
        )
    }

    /// Takes the attempt, with what was kept for it.
    pub(crate) fn take(&mut self, incoming: &Incoming) -> (Waiting, Vec<KeptDatagram>)
        requires { IsPending self.old.incoming incoming.now.key }
        ensures { (attempt : PlainAttempt AWaiting) × HasLeft incoming.now.key attempt self.old self.new × (result.0 ≡ attempt.config) × (result.1.items ≡ attempt.datagrams) }
    {
        let (_, first) = self.waiting_at(incoming.key.key);
        let attempt = self.incoming.take(incoming.key);
        self.connections
            .remove_initial_incoming(first.destination, incoming.key.key);
        attempt.into_parts()
    }
}
