//! Much that goes over: there and back, and on one of many streams.
use crate::answers::{put_form, put_text};
use crate::calls::{ConnectionEnd, StreamCalls};
use crate::pair::Pair;
use crate::settings::{Settings, USUAL};
use crate::streams::{StreamsEnd, StreamsPair, hand_over, write_acked};
use qh_base::{Dir, Memory, StreamId};
use qh_core::TakeFault;
use qh_streams::{ReadFault, WriteFault};
use row_text::{RowFault, Words};
use std::alloc::Global;

// What is echoed goes by this many bytes before it repeats.
const PERIOD: usize = 251;

// Of each stream, of the connection, of what is held to send, and of what may be in flight at first.
const WINDOW: u64 = 1_048_576;

// How much room frames have that go over with no connection: a frame's head and 1,150 bytes.
const ROOM: usize = 1_175;

// What a writer gives in one call.
const PIECE: [u8; 4_096] = [0x51; 4_096];

// What an application sends and reads of one stream.
#[derive(Drop)]
struct Talk {
    id: Option<StreamId>,
    outgoing: Vec<u8>,
    written: usize,
    is_finished: bool,
    incoming: Vec<u8>,
    has_ended: bool,
}

impl Talk {
    fn new(alloc: Global) -> Talk {
        Talk {
            id: None,
            outgoing: Vec::new(alloc),
            written: 0,
            is_finished: false,
            incoming: Vec::new(alloc),
            has_ended: false,
        }
    }

    // Writes what is left, as far as the limits permit it, and then the end.
    fn write(&mut self, alloc: Global, end: &mut ConnectionEnd) -> Result<(), RowFault> {
        let Some(id) = self.id else {
            return Ok(());
        };
        let left = self.outgoing.get(self.written..).unwrap_or(&[]);
        if !left.is_empty() {
            match end.write(alloc, id, left) {
                Ok(count) => self.written = self.written.saturating_add(count),
                Err(WriteFault::Blocked) => {}
                Err(_) => return Err(RowFault::Form),
            }
        }
        if self.written >= self.outgoing.len() && !self.is_finished {
            self.is_finished = end.finish(id).is_ok();
        }
        Ok(())
    }

    // Reads what waits.
    fn read(&mut self, end: &mut ConnectionEnd) -> Result<(), RowFault> {
        let Some(id) = self.id else {
            return Ok(());
        };
        for _ in 0..u32::MAX {
            if self.has_ended {
                return Ok(());
            }
            match end.read(id, 65_536, true) {
                Ok(Some(chunk)) => self.incoming.extend_from_slice(chunk.bytes.as_slice())?,
                Ok(None) => self.has_ended = true,
                Err(TakeFault::Read(ReadFault::Blocked)) => return Ok(()),
                Err(_) => return Err(RowFault::Form),
            }
        }
        Ok(())
    }
}

/// The client sends so many bytes on a new stream, and the server sends them back once it has all, within so many turns.
pub(crate) fn echo(
    alloc: Global,
    pair: &mut Pair,
    words: &mut Words<'_>,
    out: &mut Vec<u8>,
) -> Result<(), RowFault> {
    let size = words.number()? as usize;
    let Ok(turns) = words.number() else {
        return Err(RowFault::Form);
    };
    let mut asks = Talk::new(alloc);
    let mut answers = Talk::new(alloc);
    let outcome = exchange(alloc, pair, &mut asks, &mut answers, size, turns)?;
    put_text(out, outcome)
}

// Echoes so many bytes. Answers what became of them.
fn exchange(
    alloc: Global,
    pair: &mut Pair,
    asks: &mut Talk,
    answers: &mut Talk,
    size: usize,
    turns: u64,
) -> Result<&'static str, RowFault> {
    for i in 0..size {
        asks.outgoing.push((i % PERIOD) as u8)?;
    }
    asks.id = pair.client.open(alloc, Dir::Bi)?;
    go_on(alloc, pair, asks, answers, turns)?;
    Ok(match asks.has_ended {
        true if asks.incoming.as_slice() == asks.outgoing.as_slice() => "echoed",
        true => "other bytes",
        false => "not in time",
    })
}

// Goes on until the client has read the end, at most so many turns.
fn go_on(
    alloc: Global,
    pair: &mut Pair,
    asks: &mut Talk,
    answers: &mut Talk,
    turns: u64,
) -> Result<(), RowFault> {
    for _ in 0..turns {
        asks.write(alloc, &mut pair.client)?;
        asks.read(&mut pair.client)?;
        serve(alloc, &mut pair.server, answers)?;
        if asks.has_ended {
            return Ok(());
        }
        pair.turn(alloc)?;
    }
    Ok(())
}

// The server accepts, reads, and sends back what it has once it has all.
fn serve(alloc: Global, server: &mut ConnectionEnd, answers: &mut Talk) -> Result<(), RowFault> {
    if answers.id.is_none() {
        answers.id = server.accept(Dir::Bi);
    }
    answers.read(server)?;
    if !answers.has_ended {
        return Ok(());
    }
    if answers.outgoing.is_empty() {
        answers
            .outgoing
            .extend_from_slice(answers.incoming.as_slice())?;
    }
    answers.write(alloc, server)
}

/// Opens so many streams, and sends so many bytes on the first of them, over a connection or with streams alone.
pub(crate) fn answer(
    alloc: Global,
    words: &mut Words<'_>,
    out: &mut Vec<u8>,
) -> Result<(), RowFault> {
    let kind = words.next();
    let Ok(streams) = words.number() else {
        return Err(RowFault::Form);
    };
    let Ok(total) = words.number() else {
        return Err(RowFault::Form);
    };
    let settings = settings(streams);
    match kind {
        "connection" => over_connection(alloc, &settings, total, out),
        "streams" => over_streams(alloc, &settings, total, out),
        "waiting" => serve_waiting(alloc, &settings, total, out),
        _ => Err(RowFault::Form),
    }
}

// Wide windows, and so many streams.
fn settings(streams: u64) -> Settings {
    let mut settings = USUAL;
    settings.set_receive(WINDOW);
    settings.set_stream(WINDOW);
    settings.set_bidi(streams);
    settings.limits.send_window = WINDOW;
    settings.idle = 0;
    settings.window = WINDOW;
    settings
}

fn over_connection(
    alloc: Global,
    settings: &Settings,
    total: u64,
    out: &mut Vec<u8>,
) -> Result<(), RowFault> {
    let mut pair = Pair::new(alloc, settings)?;
    let told = send_over(alloc, &mut pair, settings.limits.max_bidi, total, out);
    drop(pair);
    told
}

fn send_over(
    alloc: Global,
    pair: &mut Pair,
    streams: u64,
    total: u64,
    out: &mut Vec<u8>,
) -> Result<(), RowFault> {
    let mut read = 0u64;
    if let Some(id) = open_all(alloc, &mut pair.client, streams)? {
        read = run(alloc, pair, id, total)?;
    }
    let client = pair.client.stats().datagrams_sent;
    let server = pair.server.stats().datagrams_sent;
    put_sums(out, read, client, server)
}

fn put_sums(out: &mut Vec<u8>, read: u64, client: u64, server: u64) -> Result<(), RowFault> {
    put_form(
        out,
        "# bytes read, packets: # from the client, # from the server",
        &[read, client, server],
    )
}

// Opens so many streams. Answers the first.
fn open_all<E: StreamCalls>(
    alloc: Global,
    client: &mut E,
    streams: u64,
) -> Result<Option<StreamId>, Memory> {
    let first = client.open(alloc, Dir::Bi)?;
    for _ in 1..streams {
        let _ = client.open(alloc, Dir::Bi)?;
    }
    Ok(first)
}

// Sends so many bytes, in as many turns as that takes where a turn brings a datagram. Answers how many were read.
fn run(alloc: Global, pair: &mut Pair, id: StreamId, total: u64) -> Result<u64, RowFault> {
    let mut left = total;
    let mut read = 0u64;
    for _ in 0..(total / 1_000).saturating_add(1_000) {
        if read >= total {
            break;
        }
        left = left.saturating_sub(write_some(alloc, &mut pair.client, id, left));
        pair.turn(alloc)?;
        read = read.saturating_add(read_some(&mut pair.server, id));
        poll_all(&mut pair.client);
        poll_all(&mut pair.server);
    }
    Ok(read)
}

// Writes as far as the limits permit, at most so many bytes. Answers how many.
fn write_some<E: StreamCalls>(alloc: Global, client: &mut E, id: StreamId, left: u64) -> u64 {
    let mut taken = 0u64;
    for _ in 0..u32::MAX {
        let len = left.saturating_sub(taken).min(PIECE.len() as u64) as usize;
        match client.write(alloc, id, &PIECE[..len]) {
            Ok(count) if count > 0 => taken = taken.saturating_add(count as u64),
            _ => return taken,
        }
    }
    taken
}

// Reads what waits. Answers how many bytes.
fn read_some<E: StreamCalls>(server: &mut E, id: StreamId) -> u64 {
    let mut read = 0u64;
    for _ in 0..u32::MAX {
        match server.read(id, usize::MAX, true) {
            Ok(Some(chunk)) if chunk.bytes.len() > 0 => {
                read = read.saturating_add(chunk.bytes.len() as u64);
            }
            _ => return read,
        }
    }
    read
}

// Takes what is told.
fn poll_all<E: StreamCalls>(end: &mut E) {
    for _ in 0..u32::MAX {
        if end.poll().is_none() {
            return;
        }
    }
}

fn over_streams(
    alloc: Global,
    settings: &Settings,
    total: u64,
    out: &mut Vec<u8>,
) -> Result<(), RowFault> {
    let mut pair = StreamsPair::new(alloc, settings);
    let told = send_between(
        alloc,
        &mut pair.client,
        &mut pair.server,
        settings.limits.max_bidi,
        total,
        out,
    );
    drop(pair);
    told
}

fn send_between(
    alloc: Global,
    client: &mut StreamsEnd,
    server: &mut StreamsEnd,
    streams: u64,
    total: u64,
    out: &mut Vec<u8>,
) -> Result<(), RowFault> {
    let mut sums = Sums {
        read: 0,
        client: 0,
        server: 0,
    };
    if let Some(id) = open_all(alloc, client, streams)? {
        carry(alloc, client, server, id, total, &mut sums)?;
    }
    put_sums(out, sums.read, sums.client, sums.server)
}

// How many bytes were read, and how many packets each end sent.
#[derive(Drop)]
struct Sums {
    read: u64,
    client: u64,
    server: u64,
}

// Sends so many bytes, until no end has anything to send.
fn carry(
    alloc: Global,
    client: &mut StreamsEnd,
    server: &mut StreamsEnd,
    id: StreamId,
    total: u64,
    sums: &mut Sums,
) -> Result<(), RowFault> {
    let mut left = total;
    for _ in 0..u32::MAX {
        left = left.saturating_sub(write_some(alloc, client, id, left));
        let bytes = send_packet(alloc, client, server)?;
        sums.client = sums.client.saturating_add(u64::from(bytes));
        sums.read = sums.read.saturating_add(read_some(server, id));
        let credits = send_packet(alloc, server, client)?;
        sums.server = sums.server.saturating_add(u64::from(credits));
        if !bytes && !credits {
            break;
        }
    }
    Ok(())
}

// A packet with what is due goes over, and is acknowledged. Whether something was due.
fn send_packet(
    alloc: Global,
    from: &mut StreamsEnd,
    to: &mut StreamsEnd,
) -> Result<bool, RowFault> {
    let mut packet = Vec::new(alloc);
    write_acked(alloc, from, ROOM, &mut packet)?;
    match hand_over(alloc, &packet, to) {
        Ok(()) => Ok(!packet.is_empty()),
        Err(_) => Err(RowFault::Form),
    }
}

// Streams that wait are served, a byte at a time, until so many bytes were sent, as far as the windows permit.
fn serve_waiting(
    alloc: Global,
    settings: &Settings,
    total: u64,
    out: &mut Vec<u8>,
) -> Result<(), RowFault> {
    let mut pair = StreamsPair::new(alloc, settings);
    let told = tell_waiting(
        alloc,
        &mut pair.client,
        settings.limits.max_bidi,
        total,
        out,
    );
    drop(pair);
    told
}

fn tell_waiting(
    alloc: Global,
    end: &mut StreamsEnd,
    streams: u64,
    total: u64,
    out: &mut Vec<u8>,
) -> Result<(), RowFault> {
    let ids = open_waiting(alloc, end, streams)?;
    put_waiting(alloc, end, &ids, total, out)
}

// Opens so many streams, as far as that is permitted.
fn open_waiting(
    alloc: Global,
    end: &mut StreamsEnd,
    streams: u64,
) -> Result<Vec<StreamId>, RowFault> {
    let mut ids = Vec::new(alloc);
    for _ in 0..streams {
        if let Some(id) = end.open(alloc, Dir::Bi)? {
            ids.push(id)?;
        }
    }
    Ok(ids)
}

fn put_waiting(
    alloc: Global,
    end: &mut StreamsEnd,
    ids: &[StreamId],
    total: u64,
    out: &mut Vec<u8>,
) -> Result<(), RowFault> {
    let mut sent = 0u64;
    let mut packets = 0u64;
    for _ in 0..total {
        let taken = write_each(alloc, end, ids);
        sent = sent.saturating_add(taken);
        packets = packets.saturating_add(send_all(alloc, end)?);
        if taken == 0 || sent >= total {
            break;
        }
    }
    put_form(out, "# bytes sent, packets: #", &[sent, packets])
}

// Writes a byte on each stream. Answers how many were taken.
fn write_each(alloc: Global, end: &mut StreamsEnd, ids: &[StreamId]) -> u64 {
    let mut taken = 0u64;
    for id in ids {
        if let Ok(count) = end.write(alloc, *id, &PIECE[..1]) {
            taken = taken.saturating_add(count as u64);
        }
    }
    taken
}

// Sends what waits, acknowledged at once. Answers in how many packets.
fn send_all(alloc: Global, end: &mut StreamsEnd) -> Result<u64, RowFault> {
    let mut packets = 0u64;
    for _ in 0..u32::MAX {
        if !send_one(alloc, end)? {
            break;
        }
        packets = packets.saturating_add(1);
    }
    Ok(packets)
}

// Sends what is due, acknowledged at once. Whether something is.
fn send_one(alloc: Global, end: &mut StreamsEnd) -> Result<bool, RowFault> {
    let mut packet = Vec::new(alloc);
    write_acked(alloc, end, ROOM, &mut packet)?;
    Ok(!packet.is_empty())
}
