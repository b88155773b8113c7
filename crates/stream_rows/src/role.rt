//! The server's part of an exchange at an end, with a service that echoes.
use crate::calls::ConnectionEnd;
use qh_base::{Memory, Side};
use qh_core::{Connection, PlainSession};
use qh_roles::Server;
use qh_service::{Echo, Limits};
use row_text::RowFault;
use std::alloc::Global;

// What the server takes and gives at most.
const LIMITS: Limits = Limits {
    max_field_section_size: 300,
    max_response_body: 100,
};

/// A server and its service.
#[derive(Drop)]
pub(crate) struct Role {
    server: Server,
    service: Echo,
}

impl Role {
    pub(crate) fn new(alloc: Global) -> Role {
        Role {
            server: Server::new(alloc, LIMITS),
            service: Echo::new(alloc),
        }
    }

    /// Lets the server go on at an end, if that is open and a server's. How many requests were served in all.
    pub(crate) fn serve(
        &mut self,
        alloc: Global,
        end: &mut ConnectionEnd,
    ) -> Result<u64, RowFault> {
        poll(alloc, &mut self.server, end.connection(), &mut self.service)?;
        Ok(self.service.served().len() as u64)
    }
}

// The server goes on, at an open end of its side.
fn poll(
    alloc: Global,
    server: &mut Server,
    connection: &mut Connection<PlainSession>,
    service: &mut Echo,
) -> Result<(), Memory> {
    if connection.is_closed() {
        return Ok(());
    }
    match connection.side() {
        Side::Server => server.poll(alloc, connection, service),
        Side::Client => Ok(()),
    }
}
