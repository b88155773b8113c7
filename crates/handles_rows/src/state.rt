//! What rows ask of a state beside the calls of its handles. The rows are generic over it, so that only this file lays a state out.
ghost use Rattle.std.specs.Prelude.{◌≡◌, IfOk, false};
ghost use Rattle.qh_conn.specs.Whole.{IsWhole};
ghost use Rattle.qh_shown.specs.Brings.{IsLogging};
ghost use Rattle.qh_shown.specs.Connections.{IsBegunLogged, is_wanting};

use crate::history::put_entry;
use crate::row::Row;
use crate::settings::{COUNT, RECORD, config_of};
use crate::socket::RowSocket;
use qh_base::{ConnectionId, FourTuple, Memory, Moment, Side};
use qh_conn::{Connection, ConnectionEvent, EndpointEvent};
use qh_handles::{At, Connecting, ConnectionDriver};
use qh_packet::{PlainData, PlainSession};
use qh_quinn::State;
use std::alloc::Global;
use std::net::{IpAddr, Ipv4Addr, SocketAddr};

/// The id that the client chose for its server.
pub(crate) const ORIGINAL: [u8; 8] = [0xd0, 0xd1, 0xd2, 0xd3, 0xd4, 0xd5, 0xd6, 0xd7];

// The server name that the client asks for.
const NAME: &[u8] = b"example";

// The port of each end.
const PORT: u16 = 443;

/// A state that is new, with its handle and its driver.
pub(crate) type Begun<A> = (A, Connecting, ConnectionDriver<RowSocket>);

/// A state.
pub(crate) trait Rows: At + Drop {
    /// A fresh one of an end's.
    fn fresh(
        alloc: Global,
        side: Side,
        settings: &[u64; COUNT],
        now: Moment,
    ) -> Result<Begun<Self>, Memory>
    where
        Self: Sized;

    /// Hands an event to the driver.
    fn hand_event(&mut self, event: ConnectionEvent) -> Result<(), Memory>;

    /// What the endpoint is to be told next.
    fn next_event(&mut self) -> Option<EndpointEvent>;

    /// When something is due.
    fn next_due(&self) -> Option<Moment>;

    /// Puts the entries of its history from this place on, or `none` if it keeps none.
    fn put_history(&self, from: usize, row: &mut Row<'_>);

    /// Puts what the handshake tells.
    fn put_data(data: &Self::HandshakeData, row: &mut Row<'_>);
}

impl Rows for State<PlainSession> {
    fn fresh(
        alloc: Global,
        side: Side,
        settings: &[u64; COUNT],
        now: Moment,
    ) -> Result<Begun<State<PlainSession>>, Memory> {
        let connection = first_connection(alloc, side, settings, now)?;
        let (mut state, connecting, driver) = State::new(alloc, connection, stable_id(side), now)?;
        if settings[RECORD] > 0
            && let Err(Memory) = state.record()
        {
            drop(state);
            return Err(Memory);
        }
        Ok((state, connecting, driver))
    }

    fn hand_event(&mut self, event: ConnectionEvent) -> Result<(), Memory> {
        self.push_event(event)
    }

    fn next_event(&mut self) -> Option<EndpointEvent> {
        self.pop_endpoint_event()
    }

    fn next_due(&self) -> Option<Moment> {
        self.poll_timeout()
    }

    fn put_history(&self, from: usize, row: &mut Row<'_>) {
        let Some(entries) = self.history() else {
            return row.put("none");
        };
        for place in from..entries.len() {
            let entry = &entries[place];
            put_entry(entry.call(), entry.reply(), entry.items(), row);
        }
        if row.is_empty() {
            row.put("-");
        }
    }

    fn put_data(data: &PlainData, row: &mut Row<'_>) {
        row.put_part("name ", data.server_name.bytes());
    }
}

// A number that says which connection it is.
fn stable_id(side: Side) -> u64 {
    match side {
        Side::Client => 71,
        Side::Server => 72,
    }
}

/// The id of an end.
pub(crate) fn id_of(side: Side) -> ConnectionId {
    match side {
        Side::Client => {
            ConnectionId::new(&[0xc0, 0xc1, 0xc2, 0xc3, 0xc4, 0xc5, 0xc6, 0xc7]).unwrap()
        }
        Side::Server => {
            ConnectionId::new(&[0x50, 0x51, 0x52, 0x53, 0x54, 0x55, 0x56, 0x57]).unwrap()
        }
    }
}

/// The id of which tags are made.
pub(crate) fn key_id() -> ConnectionId {
    ConnectionId::new(&ORIGINAL).unwrap()
}

/// The address of an end.
pub(crate) fn address_of(side: Side) -> SocketAddr {
    let last = match side {
        Side::Client => 1,
        Side::Server => 2,
    };
    SocketAddr::new(IpAddr::V4(Ipv4Addr::new(10, 0, 0, last)), PORT)
}

/// The session of an end.
pub(crate) fn session_of(side: Side) -> Result<PlainSession, Memory> {
    let name = match side {
        Side::Client => NAME,
        Side::Server => &[],
    };
    PlainSession::new(key_id(), name)
}

// The connection of an end before its first datagram. Its log is on.
fn first_connection(
    alloc: Global,
    side: Side,
    settings: &[u64; COUNT],
    now: Moment,
) -> Result<Connection<PlainSession>, Memory>
    ensures whole { IfOk result IsWhole }
    ensures begun { IfOk result IsBegunLogged }
    ensures logging { IfOk result IsLogging }
    ensures calm { IfOk result (λ c. is_wanting c ≡ false) }
{
    qh_shown::begun_shown::<PlainSession>();
    qh_shown::log_shown::<PlainSession>();
    let session = session_of(side)?;
    let remote_id = match side {
        Side::Client => key_id(),
        Side::Server => id_of(Side::Client),
    };
    let addresses = FourTuple {
        remote: address_of(side.other()),
        local_ip: None,
    };
    let mut connection = Connection::new(
        alloc,
        config_of(settings),
        side,
        session,
        key_id(),
        id_of(side),
        remote_id,
        addresses,
        now,
    )?;
    match connection.start_log() {
        Ok(()) => Ok(connection),
        Err(Memory) => {
            drop(connection);
            Err(Memory)
        }
    }
}
