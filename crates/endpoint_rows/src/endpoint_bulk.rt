//! Many connections of a server's endpoint, to which datagrams are routed.
use crate::made::{Parts, client_tag, write_initial};
use crate::pair::Pair;
use crate::row::{Row, address_of};
use bytes::Bytes;
use qh_base::{ConnectionId, Memory, Side};
use qh_endpoint::DatagramEvent;
use row_text::RowFault;

// What a client sends first.
const PING: [u8; 1] = [1];

// The least length of a datagram that begins an attempt, and a token that fills most of it. It is none of the endpoint's, so it says nothing.
const FIRST_SIZE: u64 = 1_200;

const FILLING: [u8; 1_120] = [0xff; 1_120];

// The first byte of a datagram with a short header, and how many bytes it has behind its id.
const SHORT: u8 = 0x43;

const BEHIND: usize = 31;

impl Pair {
    /// So many attempts come to a fresh server, which accepts them, and then so many datagrams with short headers go to its connections in turn.
    pub(crate) fn put_routed(&mut self, connections: u64, datagrams: u64, row: &mut Row<'_>) {
        for number in 0..connections {
            self.deliver(Side::Server, first_datagram(number, row), row);
            self.accept_last(row);
            // The connection itself isn't kept: the endpoint knows it all the same.
            drop(self.server.links.pop());
            self.keep_short(number as usize, row);
        }
        let mut reached = 0u64;
        let mut place = 0usize;
        for _datagram in 0..datagrams {
            reached = reached.saturating_add(self.route(place, row));
            place = place.saturating_add(1);
            if place >= self.datagrams.len() {
                place = 0;
            }
        }
        row.put_count("", reached);
        row.put_count(" of ", datagrams);
    }

    // Keeps a datagram to the first id of a connection.
    fn keep_short(&mut self, place: usize, row: &mut Row<'_>) {
        let Some(handle) = self.server.handle_of(place) else {
            return row.fail(RowFault::Form);
        };
        let id = match self.server.endpoint.meta(handle) {
            Some(meta) => meta.ids().next(),
            None => None,
        };
        match id {
            Some(id) => {
                let datagram = short_datagram(id.bytes(), row);
                self.datagrams.keep(datagram, row);
            }
            None => row.fail(RowFault::Form),
        }
    }

    // Routes the datagram of a connection. Returns 1 if it reached that one.
    fn route(&mut self, place: usize, row: &mut Row<'_>) -> u64 {
        let now = self.now;
        let from = address_of(Side::Client);
        let handle = self.server.handle_of(place);
        let Some(datagram) = self.datagrams.copy(place, row) else {
            return 0;
        };
        let mut buf = Vec::new(row.alloc);
        match self.server.handle(now, from, datagram, &mut buf) {
            Ok(Some(DatagramEvent::ConnectionEvent(reached, _))) => {
                u64::from(handle == Some(reached))
            }
            Ok(_) => 0,
            Err(Memory) => {
                row.fail(RowFault::Memory);
                0
            }
        }
    }
}

// The first datagram of a client, to an id of this number. The id begins with d0, and none that the endpoint draws does.
fn first_datagram(number: u64, row: &mut Row<'_>) -> Bytes {
    let id = number.wrapping_mul(256).wrapping_add(0xd0).to_le_bytes();
    let id = ConnectionId::new(&id).unwrap();
    let parts = Parts {
        destination: id,
        source: id,
        number: 0,
        size: FIRST_SIZE,
        tag: client_tag(id, row),
    };
    let mut bytes = Vec::new(row.alloc);
    write_initial(&mut bytes, &parts, &FILLING, &PING, row);
    row.owned(bytes)
}

// A datagram with a short header to this id.
fn short_datagram(id: &[u8], row: &mut Row<'_>) -> Bytes {
    let mut bytes = Vec::new(row.alloc);
    row.note(write_short(&mut bytes, id));
    row.owned(bytes)
}

fn write_short(bytes: &mut Vec<u8>, id: &[u8]) -> Result<(), Memory> {
    bytes.push(SHORT)?;
    bytes.extend_from_slice(id)?;
    bytes.extend_from_slice(&[0; BEHIND])?;
    Ok(())
}
