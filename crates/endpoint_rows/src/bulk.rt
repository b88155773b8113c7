//! Much in one row, to be timed: many handshakes, many bytes on one of many streams, and many datagrams to many connections of an endpoint.
use crate::pair::{Pair, Story};
use crate::row::{MILLISECOND, Row};
use crate::settings::Settings;
use qh_base::{Dir, Memory, Side, Span, StreamId};
use row_text::RowFault;

// How long a round is.
const ROUND: Span = Span(MILLISECOND);

// The most rounds until both ends are connected.
const ROUNDS: u32 = 100;

// The most pieces that are written or read in a round, and the most events.
const MANY: u32 = 10_000;

// How many two-way streams the ends of a handshake permit.
const STREAMS: u64 = 10;

// What a writer gives in one call.
const PIECE: [u8; 4_096] = [0x51; 4_096];

#[derive(Clone, Copy)]
enum Bulk {
    Handshake,
    Connection,
    Route,
}

const BULKS: [(&str, Bulk); 3] = [
    ("handshake", Bulk::Handshake),
    ("connection", Bulk::Connection),
    ("route", Bulk::Route),
];

// What fresh ends do.
#[derive(Clone, Copy)]
enum Work {
    Handshake,
    Connection { streams: u64, total: u64 },
    Route { connections: u64, datagrams: u64 },
}

// What came of handshakes so far.
#[derive(Clone, Copy)]
struct Sums {
    connected: u64,
    by_clients: u64,
    by_servers: u64,
}

/// handshake COUNT: connects that many pairs of fresh ends in turn. Or connection STREAMS BYTES: connects fresh ends, and sends that many bytes
/// on the first of that many streams. Or route CONNECTIONS DATAGRAMS: so many datagrams go to so many connections in turn.
pub(crate) fn put_bulk(row: &mut Row<'_>) {
    let Some(bulk) = row.find(&BULKS) else {
        return;
    };
    let mut sums = Sums {
        connected: 0,
        by_clients: 0,
        by_servers: 0,
    };
    match bulk {
        Bulk::Handshake => put_handshakes(&mut sums, row),
        Bulk::Connection => {
            let streams = row.number();
            let total = row.number();
            do_work(Work::Connection { streams, total }, &mut sums, row);
        }
        Bulk::Route => {
            let connections = row.number();
            let datagrams = row.number();
            let routed = Work::Route {
                connections,
                datagrams,
            };
            do_work(routed, &mut sums, row);
        }
    }
}

fn put_handshakes(sums: &mut Sums, row: &mut Row<'_>) {
    for _handshake in 0..row.number() {
        do_work(Work::Handshake, sums, row);
    }
    row.put_count("", sums.connected);
    row.put_count(" connected, datagrams: ", sums.by_clients);
    row.put_count(" from clients, ", sums.by_servers);
    row.put(" from servers");
}

// Begins with fresh ends, and drops them afterwards.
fn do_work(task: Work, sums: &mut Sums, row: &mut Row<'_>) {
    let (story, settings) = match task {
        Work::Handshake => (Story::Connections, Settings::wide(STREAMS)),
        Work::Connection { streams, .. } => (Story::Connections, Settings::wide(streams)),
        Work::Route { .. } => (Story::Endpoints, Settings::usual()),
    };
    match Pair::new(row.alloc, story, &settings) {
        Ok(mut pair) => {
            match task {
                Work::Handshake => sums.add(&mut pair, row),
                Work::Connection { streams, total } => {
                    put_sent_over(&mut pair, streams, total, row);
                }
                Work::Route {
                    connections,
                    datagrams,
                } => pair.put_routed(connections, datagrams, row),
            }
            drop(pair);
        }
        Err(Memory) => row.fail(RowFault::Memory),
    }
}

impl Sums {
    fn add(&mut self, pair: &mut Pair, row: &mut Row<'_>) {
        let is_connected = connect(pair, row);
        self.connected = self.connected.saturating_add(u64::from(is_connected));
        self.by_clients = self.by_clients.saturating_add(sent(pair, Side::Client));
        self.by_servers = self.by_servers.saturating_add(sent(pair, Side::Server));
    }
}

// How many datagrams an end sent.
fn sent(pair: &mut Pair, side: Side) -> u64 {
    match pair.link(side) {
        Some(link) => link.connection.stats().datagrams_sent,
        None => 0,
    }
}

// Begins with fresh connections, and makes rounds until both ends are connected. Returns whether they are.
fn connect(pair: &mut Pair, row: &mut Row<'_>) -> bool {
    pair.begin_both(row);
    for _round in 0..ROUNDS {
        if pair.client.live() > 0 && pair.server.live() > 0 {
            return true;
        }
        pair.send_all(Side::Client, 0, row);
        pair.send_all(Side::Server, 0, row);
        end_round(pair, row);
    }
    false
}

// Takes what both ends tell, and lets a round pass.
fn end_round(pair: &mut Pair, row: &mut Row<'_>) {
    poll_all(pair, Side::Client);
    poll_all(pair, Side::Server);
    let now = pair.now.plus(ROUND);
    pair.advance(now, row);
}

fn poll_all(pair: &mut Pair, side: Side) {
    let Some(link) = pair.link(side) else {
        return;
    };
    for _event in 0..MANY {
        if link.poll().is_none() && link.poll_endpoint().is_none() {
            break;
        }
    }
}

fn put_sent_over(pair: &mut Pair, streams: u64, total: u64, row: &mut Row<'_>) {
    connect(pair, row);
    let Some(id) = open_all(pair, streams, row) else {
        return row.fail(RowFault::Form);
    };
    let read = carry(pair, id, total, row);
    row.put_count("", read);
    row.put_count(" bytes read, datagrams: ", sent(pair, Side::Client));
    row.put_count(" from the client, ", sent(pair, Side::Server));
    row.put(" from the server");
}

// The client opens that many streams. Returns the first.
fn open_all(pair: &mut Pair, streams: u64, row: &mut Row<'_>) -> Option<StreamId> {
    let Some(link) = pair.link(Side::Client) else {
        return None;
    };
    let first = link.open(Dir::Bi, row);
    for _stream in 1..streams {
        let _ = link.open(Dir::Bi, row);
    }
    first
}

// Sends that many bytes, in as many rounds as that takes if each brings a datagram. Returns how many were read.
fn carry(pair: &mut Pair, id: StreamId, total: u64, row: &mut Row<'_>) -> u64 {
    let mut left = total;
    let mut read = 0u64;
    for _round in 0..(total / 1_000).saturating_add(1_000) {
        if read >= total {
            break;
        }
        left = left.saturating_sub(write_some(pair, id, left));
        pair.send_all(Side::Client, 0, row);
        read = read.saturating_add(read_some(pair, id));
        pair.send_all(Side::Server, 0, row);
        end_round(pair, row);
    }
    read
}

// The client writes as far as the limits permit, at most that many bytes. Returns how many.
fn write_some(pair: &mut Pair, id: StreamId, left: u64) -> u64 {
    let mut taken = 0u64;
    let Some(link) = pair.link(Side::Client) else {
        return taken;
    };
    for _piece in 0..MANY {
        let len = left.saturating_sub(taken).min(PIECE.len() as u64) as usize;
        match link.write(id, &PIECE[..len]) {
            Ok(count) if count > 0 => taken = taken.saturating_add(count as u64),
            _ => break,
        }
    }
    taken
}

// The server reads what waits. Returns how many bytes.
fn read_some(pair: &mut Pair, id: StreamId) -> u64 {
    let mut read = 0u64;
    let Some(link) = pair.link(Side::Server) else {
        return read;
    };
    for _piece in 0..MANY {
        match link.read(id) {
            Ok(Some(chunk)) if chunk.bytes.len() > 0 => {
                read = read.saturating_add(chunk.bytes.len() as u64);
            }
            _ => break,
        }
    }
    read
}
