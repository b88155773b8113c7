//! Two ends with streams and no connection: frames are handed over directly.
ghost use Rattle.qh_streams.specs.Streams.{AreAllOut};

use crate::answers::{find, put_either, put_form, put_named, put_ok, put_taken, put_text};
use crate::application::{put_read, put_readable_fault};
use crate::calls::StreamCalls;
use crate::frames::{coming, frame_of, piece_of, sent_frame_of};
use crate::items::put_items;
use crate::orders::settle;
use crate::settings::{Settings, dir_of, stream_of};
use bytes::Bytes;
use qh_base::{Dir, Memory, Side, StreamId, VarInt};
use qh_buffers::Chunk;
use qh_core::{Event, TakeFault};
use qh_frame::get_frame;
use qh_streams::{
    Chunks, ChunksState, ClosedStream, FinishFault, ItemLog, ReadFault, SentFrame, StreamFault,
    StreamFrame, Streams, WriteFault, Written,
};
use row_text::{RowFault, Words};
use std::alloc::Global;

// The word of a row of an end that has no connection.
#[derive(Clone, Copy)]
enum Call {
    Take,
    TakePieces,
    Lost,
    Acked,
    Again,
    Log,
    Items,
    Begin,
    BeginAny,
    Closed,
    Credit,
    MaxData,
    MaxStreams,
}

const CALLS: [(&str, Call); 13] = [
    ("take", Call::Take),
    ("take-pieces", Call::TakePieces),
    ("lost", Call::Lost),
    ("acked", Call::Acked),
    ("again", Call::Again),
    ("log", Call::Log),
    ("items", Call::Items),
    ("begin", Call::Begin),
    ("begin-any", Call::BeginAny),
    ("closed", Call::Closed),
    ("credit", Call::Credit),
    ("max-data", Call::MaxData),
    ("max-streams", Call::MaxStreams),
];

/// The streams of an end.
#[derive(Drop)]
pub(crate) struct StreamsEnd {
    pub(crate) streams: Streams,
    log: ItemLog,
}

impl StreamsEnd {
    fn new(alloc: Global, side: Side, settings: &Settings) -> StreamsEnd {
        let mut streams = Streams::new(alloc, side, settings.limits);
        if streams.has_no_sender() {
            streams.set_peer(settings.peer());
        }
        StreamsEnd {
            streams,
            log: ItemLog::off(),
        }
    }

    // The rows of an end that has no connection.
    fn answer(
        &mut self,
        alloc: Global,
        word: &str,
        words: &mut Words<'_>,
        out: &mut Vec<u8>,
    ) -> Result<bool, RowFault> {
        match find(&CALLS, word) {
            Some(call) => self.answer_call(alloc, call, words, out)?,
            None => return Ok(false),
        }
        Ok(true)
    }

    fn answer_call(
        &mut self,
        alloc: Global,
        call: Call,
        words: &mut Words<'_>,
        out: &mut Vec<u8>,
    ) -> Result<(), RowFault> {
        match call {
            Call::Take => self.take(alloc, words, out),
            Call::TakePieces => self.take_pieces(alloc, words, out),
            Call::Lost => self.lose(words, out),
            Call::Acked => self.acknowledge(words, out),
            Call::Again => self.send_again(words, out),
            Call::Log => self.start_log(alloc, out),
            Call::Items => self.put_items(alloc, out),
            Call::Begin => self.put_begun(words, true, out),
            Call::BeginAny => self.put_begun(words, false, out),
            _ => self.ask(call, words, out),
        }
    }

    // A frame comes.
    fn take(
        &mut self,
        alloc: Global,
        words: &mut Words<'_>,
        out: &mut Vec<u8>,
    ) -> Result<(), RowFault> {
        let frame = frame_of(alloc, words)?;
        let taken = self.receive(alloc, frame);
        put_taken(out, &taken)
    }

    // A frame comes, and the log keeps what it brings, where it is on.
    fn receive(&mut self, alloc: Global, frame: StreamFrame) -> Result<(), StreamFault> {
        if self.log.is_on() {
            return self.receive_noted(alloc, frame);
        }
        self.streams.received(alloc, frame)
    }

    // The same with the log on.
    fn receive_noted(&mut self, alloc: Global, frame: StreamFrame) -> Result<(), StreamFault> {
        let before = self.log.len();
        self.streams.note(&frame, &mut self.log)?;
        let received = self.streams.received(alloc, frame);
        if received.is_err() {
            self.log.truncate(before);
        }
        received
    }

    // Frames that were sent are acknowledged, and the log keeps what that confirms, where it is on.
    fn confirm(&mut self, frames: Vec<SentFrame>) -> Result<(), Memory>
        requires { AreAllOut self.old.streams frames.items }
    {
        let mut items = self.log.lend(frames.len())?;
        self.streams.acked_all(frames, &mut items);
        self.log.give_back(items);
        Ok(())
    }

    // Keeps a log from now on.
    fn start_log(&mut self, alloc: Global, out: &mut Vec<u8>) -> Result<(), RowFault> {
        self.log.start(alloc);
        Streams::note_peer(self.streams.peer(), &mut self.log)?;
        put_ok(out)
    }

    // Tells the items that were kept, which are taken.
    fn put_items(&mut self, alloc: Global, out: &mut Vec<u8>) -> Result<(), RowFault> {
        match self.log.take(alloc) {
            Some(items) => put_items(out, &items),
            None => put_text(out, "off"),
        }
    }

    // A frame that was sent is lost.
    fn lose(&mut self, words: &mut Words<'_>, out: &mut Vec<u8>) -> Result<(), RowFault> {
        let frame = sent_frame_of(words)?;
        self.streams.lost(frame);
        put_ok(out)
    }

    // A frame that was sent is acknowledged.
    fn acknowledge(&mut self, words: &mut Words<'_>, out: &mut Vec<u8>) -> Result<(), RowFault> {
        let frame = sent_frame_of(words)?;
        self.streams.acked(frame);
        put_ok(out)
    }

    // A frame that was sent is to be sent again.
    fn send_again(&mut self, words: &mut Words<'_>, out: &mut Vec<u8>) -> Result<(), RowFault> {
        let frame = sent_frame_of(words)?;
        put_owed(out, self.streams.again(&frame))
    }

    // So many pieces of a stream come, each of one byte, and each so many bytes behind the one before, round and round.
    fn take_pieces(
        &mut self,
        alloc: Global,
        words: &mut Words<'_>,
        out: &mut Vec<u8>,
    ) -> Result<(), RowFault> {
        let Ok(id) = stream_of(words) else {
            return Err(RowFault::Form);
        };
        let Ok(count) = words.number() else {
            return Err(RowFault::Form);
        };
        let Ok(step) = words.number() else {
            return Err(RowFault::Form);
        };
        for index in 0..count {
            let offset = index.saturating_mul(step) % count;
            let taken = self.streams.received(alloc, piece_of(alloc, id, offset)?);
            if taken.is_err() {
                return put_taken(out, &taken);
            }
        }
        put_ok(out)
    }

    // The rows that ask for something.
    fn ask(&self, call: Call, words: &mut Words<'_>, out: &mut Vec<u8>) -> Result<(), RowFault> {
        match call {
            Call::Closed => put_answer(out, self.streams.is_closed(stream_of(words)?)),
            Call::Credit => put_answer(out, self.streams.is_credit_due(stream_of(words)?)),
            Call::MaxData => put_form(out, "#", &[self.streams.max_data()]),
            _ => put_form(out, "#", &[self.streams.max_streams(dir_of(words)?)]),
        }
    }

    fn put_begun(
        &mut self,
        words: &mut Words<'_>,
        ordered: bool,
        out: &mut Vec<u8>,
    ) -> Result<(), RowFault> {
        match self.streams.begin_read(stream_of(words)?, ordered) {
            Ok(()) => put_ok(out),
            Err(fault) => put_readable_fault(out, fault),
        }
    }
}

fn put_answer(out: &mut Vec<u8>, answer: bool) -> Result<(), RowFault> {
    put_either(out, answer, "yes", "no")
}

/// Appends whether something is still to be acknowledged.
pub(crate) fn put_owed(out: &mut Vec<u8>, is_owed: bool) -> Result<(), RowFault> {
    put_either(out, is_owed, "owed", "settled")
}

/// Both ends.
#[derive(Drop)]
pub(crate) struct StreamsPair {
    pub(crate) client: StreamsEnd,
    pub(crate) server: StreamsEnd,
}

impl StreamsPair {
    pub(crate) fn new(alloc: Global, settings: &Settings) -> StreamsPair {
        StreamsPair {
            client: StreamsEnd::new(alloc, Side::Client, settings),
            server: StreamsEnd::new(alloc, Side::Server, settings),
        }
    }

    pub(crate) fn end(&mut self, side: Side) -> &mut StreamsEnd {
        match side {
            Side::Client => &mut self.client,
            Side::Server => &mut self.server,
        }
    }

    // An end and its peer.
    fn ends(&mut self, side: Side) -> (&mut StreamsEnd, &mut StreamsEnd) {
        match side {
            Side::Client => (&mut self.client, &mut self.server),
            Side::Server => (&mut self.server, &mut self.client),
        }
    }

    /// Answers a row of an end without a connection that isn't an application's, if it is one. Whether it is.
    pub(crate) fn answer_end(
        &mut self,
        alloc: Global,
        side: Side,
        word: &str,
        words: &mut Words<'_>,
        out: &mut Vec<u8>,
    ) -> Result<bool, RowFault> {
        let (from, to) = self.ends(side);
        let answered = match word {
            "send" => send(alloc, from, to, words, out),
            "settle" => settle(alloc, from, to, words, out),
            "write-each" => write_each(alloc, from, to, words, out),
            "reader" => read_by_reader(from, words, out),
            _ => return from.answer(alloc, word, words, out),
        };
        answered?;
        Ok(true)
    }
}

// An end writes frames into so much room, which meet what the row says.
fn send(
    alloc: Global,
    from: &mut StreamsEnd,
    to: &mut StreamsEnd,
    words: &mut Words<'_>,
    out: &mut Vec<u8>,
) -> Result<(), RowFault> {
    let fate = words.next();
    let room = words.number()? as usize;
    match fate {
        "acked" => send_acked(alloc, from, to, room, out),
        "unheard" => send_lost(alloc, from, Some(to), room, out),
        "lost" => send_lost(alloc, from, None, room, out),
        "out" => send_out(alloc, from, room, out),
        _ => Err(RowFault::Form),
    }
}

// Writes one byte so many times on a stream, and each time sends what is due in so much room. Tells how many packets there were.
fn write_each(
    alloc: Global,
    from: &mut StreamsEnd,
    to: &mut StreamsEnd,
    words: &mut Words<'_>,
    out: &mut Vec<u8>,
) -> Result<(), RowFault> {
    let Ok(id) = stream_of(words) else {
        return Err(RowFault::Form);
    };
    let Ok(count) = words.number() else {
        return Err(RowFault::Form);
    };
    let room = words.number()? as usize;
    let mut packets = 0u64;
    for _ in 0..count {
        let Ok(1) = from.write(alloc, id, b"x") else {
            break;
        };
        packets = packets.saturating_add(send_counted(alloc, from, to, room)?);
    }
    put_form(out, "# packets", &[packets])
}

// Sends what is due. Tells in how many packets, one or none.
fn send_counted(
    alloc: Global,
    from: &mut StreamsEnd,
    to: &mut StreamsEnd,
    room: usize,
) -> Result<u64, RowFault> {
    let mut told = Vec::new(alloc);
    send_acked(alloc, from, to, room, &mut told)?;
    Ok(u64::from(told.as_slice() != b"-".as_slice()))
}

// Makes a reader of a stream's half, reads by it so many times, and tells each answer, and whether a limit is due then.
fn read_by_reader(
    end: &mut StreamsEnd,
    words: &mut Words<'_>,
    out: &mut Vec<u8>,
) -> Result<(), RowFault> {
    let Ok(id) = stream_of(words) else {
        return Err(RowFault::Form);
    };
    let max_length = words.number()? as usize;
    let Ok(count) = words.number() else {
        return Err(RowFault::Form);
    };
    match end.streams.recv(id).read(true) {
        Ok(reader) => put_reads(reader, max_length, count, out),
        Err(fault) => put_readable_fault(out, fault),
    }
}

fn put_reads(
    mut reader: Chunks<'_>,
    max_length: usize,
    count: u64,
    out: &mut Vec<u8>,
) -> Result<(), RowFault> {
    for _ in 0..count {
        put_next(&mut reader, max_length, out)?;
    }
    put_either(out, reader.finalize(), "credit", "no credit")
}

fn put_next(reader: &mut Chunks<'_>, max_length: usize, out: &mut Vec<u8>) -> Result<(), RowFault> {
    let given = next_of(reader, max_length).map_err(TakeFault::Read);
    put_given(&given, out)
}

fn put_given(given: &Result<Option<Chunk>, TakeFault>, out: &mut Vec<u8>) -> Result<(), RowFault> {
    put_read(out, given)?;
    put_text(out, "; ")
}

// What a reader gives next. Nothing waits where reads of its stream are refused.
fn next_of(reader: &mut Chunks<'_>, max_length: usize) -> Result<Option<Chunk>, ReadFault> {
    match reader.state {
        ChunksState::Readable => {
            if reader.streams.is_closed(reader.id) {
                return Err(ReadFault::Blocked);
            }
            reader.next(max_length)
        }
        ChunksState::Finished | ChunksState::Reset(_) => reader.next(max_length),
    }
}

// An end writes frames, which come and are acknowledged.
fn send_acked(
    alloc: Global,
    from: &mut StreamsEnd,
    to: &mut StreamsEnd,
    room: usize,
    out: &mut Vec<u8>,
) -> Result<(), RowFault> {
    let mut packet = Vec::new(alloc);
    write_acked(alloc, from, room, &mut packet)?;
    put_named(out, "", &packet)?;
    put_handed(alloc, &packet, to, out)
}

// Writes frames, which are acknowledged.
pub(crate) fn write_acked(
    alloc: Global,
    from: &mut StreamsEnd,
    room: usize,
    packet: &mut Vec<u8>,
) -> Result<(), RowFault> {
    let mut sent = Vec::new(alloc);
    from.streams.write_frames(room, packet, &mut sent)?;
    from.confirm(sent)?;
    Ok(())
}

// An end writes frames, which count as lost, and come or don't.
fn send_lost(
    alloc: Global,
    from: &mut StreamsEnd,
    to: Option<&mut StreamsEnd>,
    room: usize,
    out: &mut Vec<u8>,
) -> Result<(), RowFault> {
    let mut packet = Vec::new(alloc);
    write_lost(alloc, &mut from.streams, room, &mut packet)?;
    put_named(out, "", &packet)?;
    match to {
        Some(to) => put_handed(alloc, &packet, to, out),
        None => Ok(()),
    }
}

// Writes frames, which count as lost.
fn write_lost(
    alloc: Global,
    from: &mut Streams,
    room: usize,
    packet: &mut Vec<u8>,
) -> Result<(), RowFault> {
    let mut sent = Vec::new(alloc);
    from.write_frames(room, packet, &mut sent)?;
    from.lost_all(sent);
    Ok(())
}

// An end writes frames of which nothing is told any more.
fn send_out(
    alloc: Global,
    from: &mut StreamsEnd,
    room: usize,
    out: &mut Vec<u8>,
) -> Result<(), RowFault> {
    let mut packet = Vec::new(alloc);
    let mut sent = Vec::new(alloc);
    from.streams.write_frames(room, &mut packet, &mut sent)?;
    put_named(out, "", &packet)
}

// The frames of a packet come, and where one is refused that is told.
fn put_handed(
    alloc: Global,
    packet: &[u8],
    to: &mut StreamsEnd,
    out: &mut Vec<u8>,
) -> Result<(), RowFault> {
    let taken = hand_over(alloc, packet, to);
    if taken.is_ok() {
        return Ok(());
    }
    put_text(out, " ")?;
    put_taken(out, &taken)
}

/// The frames of a packet come to an end, one after another.
pub(crate) fn hand_over(
    alloc: Global,
    packet: &[u8],
    to: &mut StreamsEnd,
) -> Result<(), StreamFault> {
    let mut rest = packet;
    for _ in 0..packet.len() {
        let Ok((frame, behind)) = get_frame(rest) else {
            return Ok(());
        };
        match coming(alloc, &frame)? {
            Some(frame) if to.log.is_on() => to.receive_noted(alloc, frame)?,
            Some(frame) => to.streams.received(alloc, frame)?,
            None => {}
        }
        rest = behind;
    }
    Ok(())
}

impl StreamCalls for StreamsEnd {
    fn open(&mut self, alloc: Global, dir: Dir) -> Result<Option<StreamId>, Memory> {
        self.streams.open(alloc, dir)
    }

    fn accept(&mut self, dir: Dir) -> Option<StreamId> {
        self.streams.accept(dir)
    }

    fn write(&mut self, alloc: Global, id: StreamId, payload: &[u8]) -> Result<usize, WriteFault> {
        self.streams.write(alloc, id, payload)
    }

    fn write_chunks(
        &mut self,
        alloc: Global,
        id: StreamId,
        chunks: &mut [Bytes],
    ) -> Result<Written, WriteFault> {
        self.streams.write_chunks(alloc, id, chunks)
    }

    fn finish(&mut self, id: StreamId) -> Result<(), FinishFault> {
        self.streams.finish(id)
    }

    fn reset(&mut self, id: StreamId, code: VarInt) -> Result<(), ClosedStream> {
        self.streams.reset(id, code)
    }

    fn stopped(&self, id: StreamId) -> Result<Option<VarInt>, ClosedStream> {
        self.streams.stopped(id)
    }

    fn priority(&self, id: StreamId) -> Result<i32, ClosedStream> {
        self.streams.priority(id)
    }

    fn set_priority(&mut self, id: StreamId, priority: i32) -> Result<(), ClosedStream> {
        self.streams.set_priority(id, priority)
    }

    fn read(
        &mut self,
        id: StreamId,
        max_length: usize,
        ordered: bool,
    ) -> Result<Option<Chunk>, TakeFault> {
        if let Some(fault) = self.streams.readable_fault(id, ordered) {
            return Err(TakeFault::Readable(fault));
        }
        match self.streams.read(id, max_length, ordered) {
            Ok(chunk) => Ok(chunk),
            Err(fault) => Err(TakeFault::Read(fault)),
        }
    }

    fn stop(&mut self, id: StreamId, code: VarInt) -> Result<(), ClosedStream> {
        self.streams.stop(id, code)
    }

    fn received_reset(&mut self, id: StreamId) -> Result<Option<VarInt>, ClosedStream> {
        self.streams.received_reset(id)
    }

    fn set_max_concurrent(&mut self, dir: Dir, count: VarInt) {
        self.streams.set_max_concurrent(dir, count.into_inner());
    }

    fn set_send_window(&mut self, bytes: u64) {
        self.streams.set_send_window(bytes);
    }

    fn set_receive_window(&mut self, bytes: VarInt) {
        self.streams.set_receive_window(bytes.into_inner());
    }

    fn poll(&mut self) -> Option<Event> {
        self.streams.poll_event().map(Event::Stream)
    }
}
