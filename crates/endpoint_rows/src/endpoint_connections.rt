//! The connections of an endpoint: how they begin, what comes to them, and what they ask of it.
ghost use Rattle.std.specs.Prelude.{◌≡◌, [], IfOk};
ghost use Rattle.qh_conn.specs.Whole.{IsWhole};

use crate::end::End;
use crate::endpoint_attempts::put_response;
use crate::link::Link;
use crate::row::{Row, address_of};
use bytes::Bytes;
use qh_base::{ConnectionId, Memory, Moment};
use qh_conn::{Connection, ConnectionEvent, EndpointEvent};
use qh_endpoint::DatagramEvent;
use qh_kit::{ClientConfig, ConnectError, EventFault};
use qh_packet::{PlainSession, Version};
use qh_routes::ConnectionHandle;
use row_text::RowFault;
use std::net::SocketAddr;

// The longest token that is borne.
const TOKEN: usize = 512;

// The ids to which the first packets of a client's connections go: these bytes, and the number of the connection in the last one.
const FIRST: [u8; 8] = [0xd0, 0xd1, 0xd2, 0xd3, 0xd4, 0xd5, 0xd6, 0];

// Connections begin.
impl End {
    /// A connection begins.
    pub(crate) fn connect(
        &mut self,
        now: Moment,
        remote: SocketAddr,
        name: &[u8],
        row: &mut Row<'_>,
    ) {
        let config = self.client_config();
        let made = self.endpoint.connect(now, config, remote, name);
        self.put_made(made, row);
    }

    /// The same, with a token.
    pub(crate) fn connect_bearing(
        &mut self,
        now: Moment,
        remote: SocketAddr,
        name: &[u8],
        token: Bytes,
        row: &mut Row<'_>,
    ) {
        if token.len() > TOKEN {
            return row.fail(RowFault::Form);
        }
        let config = self.client_config();
        let made = self
            .endpoint
            .connect_bearing(now, config, remote, name, token);
        self.put_made(made, row);
    }

    // A connection began, or it didn't.
    fn put_made(
        &mut self,
        made: Result<(ConnectionHandle, Connection<PlainSession>), ConnectError>,
        row: &mut Row<'_>,
    )
        requires { IfOk made (λ m. IsWhole m.1) }
    {
        match made {
            Ok((handle, connection)) => self.add(handle, Link::of(connection), row),
            Err(error) => row.put(connect_error_name(error)),
        }
    }

    // The settings of the next connection.
    fn client_config(&mut self) -> ClientConfig {
        let mut first = FIRST;
        first[7] = self.tries;
        self.tries = self.tries.wrapping_add(1);
        ClientConfig {
            conn: self.settings.conn(),
            version: Version::One,
            initial_dst_cid: ConnectionId::new(&first).unwrap(),
        }
    }

    /// A connection was made.
    pub(crate) fn add(&mut self, handle: ConnectionHandle, link: Link, row: &mut Row<'_>) {
        row.put_count("connection ", self.links.len() as u64);
        row.put_count(" handle ", handle.0 as u64);
        self.keep(link, row);
        if self.handles.push(handle).is_err() {
            row.fail(RowFault::Memory);
        }
    }

    /// The handle of a connection, if the endpoint made it.
    pub(crate) fn handle_of(&self, place: usize) -> Option<ConnectionHandle> {
        match self.handles.get(place) {
            Some(handle) => Some(*handle),
            None => None,
        }
    }

    /// How many connections are complete and not over.
    pub(crate) fn live(&self) -> u64 {
        let mut count = 0u64;
        for link in &self.links {
            count = count.saturating_add(u64::from(link.is_live()));
        }
        count
    }
}

// Datagrams come, and connections ask.
impl End {
    /// What the endpoint does with a datagram that comes from this address. Nothing of its contract is used here.
    pub(crate) fn handle(
        &mut self,
        now: Moment,
        from: SocketAddr,
        datagram: Bytes,
        buf: &mut Vec<u8>,
    ) -> Result<Option<DatagramEvent>, Memory>
        requires { buf.old.items ≡ [] }
    {
        let local_ip = Some(address_of(self.side).ip());
        self.endpoint.handle(now, from, local_ip, datagram, buf)
    }

    /// A datagram comes from this address: what becomes of it. Its connection, if it has one, takes it.
    pub(crate) fn hand(
        &mut self,
        now: Moment,
        from: SocketAddr,
        datagram: Bytes,
        buf: &mut Vec<u8>,
        row: &mut Row<'_>,
    )
        requires { buf.old.items ≡ [] }
    {
        match self.handle(now, from, datagram, buf) {
            Ok(None) => row.put("none"),
            Ok(Some(DatagramEvent::Response(transmit))) => put_response(&transmit, row),
            Ok(Some(DatagramEvent::NewConnection(incoming))) => self.add_attempt(incoming, row),
            Ok(Some(DatagramEvent::ConnectionEvent(handle, event))) => {
                let place = self.place_of(handle);
                row.put_count("connection ", place as u64);
                self.hand_in(place, event, row);
            }
            Err(Memory) => row.fail(RowFault::Memory),
        }
    }

    // The place of the last connection that has this handle.
    fn place_of(&self, handle: ConnectionHandle) -> usize {
        let mut place = usize::MAX;
        for (at, known) in self.handles.iter().enumerate() {
            if *known == handle {
                place = at;
            }
        }
        place
    }

    /// The endpoint does what a connection asks. One that no endpoint made has no handle, and asks nobody.
    pub(crate) fn serve(&mut self, place: usize, event: EndpointEvent, row: &mut Row<'_>) {
        let Some(handle) = self.handle_of(place) else {
            return;
        };
        if let EndpointEvent::ResetToken(remote, _) = &event {
            row.put_address(" from ", *remote);
        }
        match self.ask(handle, event) {
            Ok(None) => {}
            Ok(Some(event)) => {
                put_ids(&event, row);
                self.hand_in(place, event, row);
            }
            Err(EventFault::CidsExhausted) => row.put(" exhausted"),
            Err(EventFault::Memory) => row.put(" memory"),
        }
    }

    // The endpoint does what the connection of a handle asks. Of one that isn't live it knows no more than that it is drained.
    fn ask(
        &mut self,
        handle: ConnectionHandle,
        event: EndpointEvent,
    ) -> Result<Option<ConnectionEvent>, EventFault> {
        if self.endpoint.known(handle) {
            self.endpoint.handle_event(handle, event)
        } else {
            self.endpoint.handle_event(handle, EndpointEvent::Drained)
        }
    }
}

fn connect_error_name(error: ConnectError) -> &'static str {
    match error {
        ConnectError::EndpointStopping => "stopping",
        ConnectError::CidsExhausted => "exhausted",
        ConnectError::InvalidServerName => "name",
        ConnectError::InvalidRemoteAddress(_) => "address",
        ConnectError::NoDefaultClientConfig => "config",
        ConnectError::UnsupportedVersion => "version",
        ConnectError::Memory => "memory",
    }
}

// Puts the ids that a connection is told of, with their sequences.
fn put_ids(event: &ConnectionEvent, row: &mut Row<'_>) {
    let ConnectionEvent::NewIdentifiers(ids, _) = event else {
        return row.fail(RowFault::Form);
    };
    row.put(" ids");
    for issued in ids {
        row.put_count(" ", issued.sequence);
        row.put_part(":", issued.id.bytes());
    }
}
