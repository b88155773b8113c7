ghost use Rattle.std.specs.Prelude.{◌≡◌, ◌⊎◌, IfErr, IfOk, is_some, true};
ghost use Rattle.qh_connections.specs.Connections.{meta_at};
ghost use Rattle.qh_connections.specs.Ids.{IsSameSource};
ghost use Rattle.qh_control.specs.declared.event.EndpointEvent.TheVariants as asked;
ghost use Rattle.qh_endpoint_events.specs.Events.{IsDone, IsExhausted, IsWanting};
ghost use Rattle.qh_kit.specs.declared.error.EventFault.TheVariants as fault;

use crate::Endpoint;
use qh_conn::ConnectionEvent;
use qh_control::EndpointEvent;
use qh_kit::{EventFault, Kit};
use qh_routes::ConnectionHandle;

impl<K: Kit> Endpoint<K> {
    /// Does what a connection asks of its endpoint, and gives what is to be handed to the connection (quinn-proto, `Endpoint::handle_event`). A
    /// `Drained` of a connection that isn't live is ignored; at each other event it is live. Ids that are needed are all issued, or none; none comes
    /// if one would need a sequence of 2^62 or more. `CidsExhausted` if 64 ids in a row that were drawn are issued: then an id that was to be replaced
    /// is retired yet. After `Memory` nothing was done but that ids may have been drawn.
    pub fn handle_event(
        &mut self,
        handle: ConnectionHandle,
        event: EndpointEvent,
    ) -> Result<Option<ConnectionEvent>, EventFault>
        requires { (is_some (meta_at self.old.connections handle) ≡ true) ⊎ (event ≡ asked.Drained) }
        ensures done { IfOk result (IsDone K.G.given K.G.cid_len K.G.validates handle self.old.connections self.new.connections event) }
        ensures exhausted { IfErr result (λ e. e ≡ fault.CidsExhausted → IsExhausted K.G.given K.G.cid_len K.G.validates handle self.old.connections self.new.connections event) }
        ensures wanting { IfErr result (λ e. e ≡ fault.Memory → IsWanting K.G.given K.G.cid_len K.G.validates handle self.old.connections self.new.connections event) }
        ensures source { IsSameSource K.G.cid_len K.G.validates self.old.connections.ids self.new.connections.ids }
        ensures rest { self.new ≡ record self.old { connections = self.new.connections } }
    {
        qh_endpoint_events::handle_event(self.alloc, &mut self.connections, handle, event)
    }
}
