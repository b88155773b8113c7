//! A connection: its calls without their contracts, of which nothing is used here but that the connection stays whole.
ghost use Rattle.std.specs.Prelude.{◌≡◌, true, None};
ghost use Rattle.qh_conn.specs.Whole.{IsWhole};

use crate::row::{NAME, Row, address_of};
use crate::settings::EndSettings;
use bytes::Bytes;
use qh_base::{ConnectionId, Dir, FourTuple, Memory, Moment, Side, Space, StreamId};
use qh_conn::{
    Chunk, Connection, ConnectionEvent, EndpointEvent, Event, FinishFault, TakeFault, WriteFault,
};
use qh_packet::{PlainSession, Session};
use row_text::RowFault;
use std::alloc::Global;
use std::marker::Model;

// The longest token.
const TOKEN: usize = 512;

// How many bytes are read at once.
const PIECE: usize = 100_000;

/// A connection.
#[derive(Drop)]
pub(crate) struct Link {
    pub(crate) connection: Connection<PlainSession>,
}

impl Model for Link {
    ghost use Rattle.qh_conn.specs.Whole.{IsWhole};
    ghost use Rattle.qh_conn.specs.declared.connection.Connection.{Connection};
    ghost use Rattle.qh_packet.specs.Session.{PlainKeys};

    ghost Value = { Connection PlainKeys };

    ghost view = { λ l. l.connection };

    ghost invariant = { λ l. IsWhole l.connection };
}

impl Link {
    pub(crate) fn of(connection: Connection<PlainSession>) -> Link
        requires { IsWhole connection }
    {
        Link { connection }
    }

    /// A connection without an endpoint, whose tags are made of an id: at a client the one that it chose for its server, at a server the one to which
    /// the client's first packet went, or its packets after a Retry packet.
    pub(crate) fn begin(
        alloc: Global,
        side: Side,
        settings: &EndSettings,
        key: ConnectionId,
        local: ConnectionId,
        remote: ConnectionId,
        now: Moment,
    ) -> Result<Link, Memory> {
        let name = match side {
            Side::Client => NAME,
            Side::Server => &[],
        };
        let session = PlainSession::new(key, name)?;
        let addresses = FourTuple {
            remote: address_of(side.other()),
            local_ip: None,
        };
        let config = settings.conn();
        Ok(Link::of(Connection::new(
            alloc, config, side, session, key, local, remote, addresses, now,
        )?))
    }

    /// Its next datagram, if there is one.
    pub(crate) fn transmit(&mut self, now: Moment, row: &mut Row<'_>) -> Option<Bytes> {
        let mut buf = Vec::new(row.alloc);
        match self.connection.poll_transmit(now, &mut buf) {
            Ok(Some(_)) => Some(row.owned(buf)),
            Ok(None) => None,
            Err(Memory) => {
                row.fail(RowFault::Memory);
                None
            }
        }
    }

    /// Hands in an event.
    pub(crate) fn hand_in(&mut self, event: ConnectionEvent, row: &mut Row<'_>) {
        row.note(self.connection.handle_event(event));
    }

    /// Does what is due by now.
    pub(crate) fn pass(&mut self, now: Moment, row: &mut Row<'_>) {
        row.note(self.connection.handle_timeout(now));
    }

    pub(crate) fn poll(&mut self) -> Option<Event> {
        self.connection.poll()
    }

    pub(crate) fn poll_endpoint(&mut self) -> Option<EndpointEvent> {
        self.connection.poll_endpoint_events()
    }

    /// Opens a stream, if it may.
    pub(crate) fn open(&mut self, dir: Dir, row: &mut Row<'_>) -> Option<StreamId> {
        match self.connection.open(dir) {
            Ok(id) => id,
            Err(Memory) => {
                row.fail(RowFault::Memory);
                None
            }
        }
    }

    pub(crate) fn accept(&mut self, dir: Dir) -> Option<StreamId> {
        self.connection.accept(dir)
    }

    pub(crate) fn write(&mut self, id: StreamId, payload: &[u8]) -> Result<usize, WriteFault> {
        self.connection.write(id, payload)
    }

    pub(crate) fn finish(&mut self, id: StreamId) -> Result<(), FinishFault> {
        self.connection.finish(id)
    }

    pub(crate) fn read(&mut self, id: StreamId) -> Result<Option<Chunk>, TakeFault> {
        self.connection.read(id, PIECE, true)
    }
}

// What may be done at a fresh connection, or at one of the two sides.
impl Link {
    // No datagram came or went.
    fn is_fresh(&self) -> bool
        ensures peer { result ≡ true → self.now.handshake.peer ≡ None }
        ensures retry { result ≡ true → self.now.handshake.retry_id ≡ None }
        ensures bytes { result ≡ true → (self.now.handshake.bytes_received ≡ 0) × (self.now.handshake.bytes_sent ≡ 0) }
    {
        let handshake = &self.connection.handshake;
        handshake.peer.is_none()
            && handshake.retry_id.is_none()
            && handshake.bytes_received == 0
            && handshake.bytes_sent == 0
    }

    /// At a server before its first datagram: the client's first packet went to `original`, it was answered by a Retry packet from `retry` if
    /// there is one, and the client's address is validated or not.
    pub(crate) fn set_origin(
        &mut self,
        original: ConnectionId,
        retry: Option<ConnectionId>,
        is_validated: bool,
        row: &mut Row<'_>,
    ) {
        match self.connection.handshake.side {
            Side::Server if self.is_fresh() => {
                self.connection.set_origin(original, retry, is_validated);
            }
            _ => row.fail(RowFault::Form),
        }
    }

    /// At a client before its first datagram: its Initial packets bear this token, of at most 512 bytes.
    pub(crate) fn bear(&mut self, token: Bytes, row: &mut Row<'_>) {
        match self.connection.handshake.side {
            Side::Client if token.len() <= TOKEN && self.is_fresh() => self.connection.bear(token),
            _ => row.fail(RowFault::Form),
        }
    }

    /// At a server: queues a token of 1 to 512 bytes for the client.
    pub(crate) fn queue_token(&mut self, token: Bytes, row: &mut Row<'_>) {
        match self.connection.handshake.side {
            Side::Server if !token.is_empty() && token.len() <= TOKEN => {
                row.note(self.connection.queue_token(token));
            }
            _ => row.fail(RowFault::Form),
        }
    }

    // It has no log, and its peer's hello wasn't read.
    fn may_log(&self) -> bool
        ensures off { result ≡ true → self.now.control.log ≡ None }
        ensures ungreeted { result ≡ true → self.now.handshake.peer ≡ None }
    {
        !self.connection.control.log.is_on() && self.connection.handshake.peer.is_none()
    }

    /// Begins a log, if there is none, at an end that wasn't greeted.
    pub(crate) fn start_log(&mut self, row: &mut Row<'_>) {
        if self.may_log() {
            row.note(self.connection.start_log());
        } else {
            row.fail(RowFault::Form);
        }
    }
}

// What is told of it.
impl Link {
    /// Its tag of the packet with this number.
    pub(crate) fn tag(&self, space: Space, number: u64) -> [u8; 32] {
        let side = self.connection.side();
        self.connection.session().tag(side, space, number)
    }

    /// Whether its handshake is complete, and it isn't over.
    pub(crate) fn is_live(&self) -> bool {
        !self.connection.is_handshaking() && !self.connection.is_closed()
    }

    /// How far it is, of which a run tells.
    pub(crate) fn put_progress(&self, row: &mut Row<'_>) {
        row.put(
            match (
                self.connection.is_handshaking(),
                self.connection.is_closed(),
            ) {
                (_, true) => " closed",
                (true, false) => " handshaking",
                (false, false) => " connected",
            },
        );
    }
}
