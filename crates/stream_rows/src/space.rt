//! Two packet number spaces of application data with no connection: frames of the peer's come one by one, and packets are written.
ghost use Rattle.std.specs.Prelude.{IfOk};
ghost use Rattle.qh_space.specs.Space.{IsSpace};

use crate::answers::{find, put_ok, put_reason, put_taken, put_text};
use crate::application::{put_done, put_finish, put_stream, put_write};
use crate::items::put_items;
use crate::packets::put_told;
use crate::settings::{Settings, dir_of, stream_of, varint_of};
use qh_base::{Dir, Memory, Moment, Side, StreamId, VarInt};
use qh_frame::get_frame;
use qh_space::{DataSpace, SpaceConfig};
use qh_streams::{ClosedStream, FinishFault, WriteFault};
use row_text::{RowFault, Words};
use std::alloc::Global;
use std::marker::Model;
use std::mem;

// The moment of all that is done.
const NOW: Moment = Moment(0);

// How much room there is for the frames of a packet, and how many bytes its datagram has around them.
const ROOM: usize = 1_200;

const OVERHEAD: u64 = 41;

// The word of a row of an end.
#[derive(Clone, Copy)]
enum Call {
    Open,
    Write,
    Finish,
    Reset,
    Send,
    Take,
    Log,
    Items,
}

const CALLS: [(&str, Call); 8] = [
    ("open", Call::Open),
    ("write", Call::Write),
    ("finish", Call::Finish),
    ("reset", Call::Reset),
    ("send", Call::Send),
    ("take", Call::Take),
    ("log", Call::Log),
    ("items", Call::Items),
];

/// The space of an end.
#[derive(Drop)]
pub(crate) struct SpaceEnd {
    side: Side,
    settings: Settings,
    space: DataSpace,
}

impl Model for SpaceEnd {
    ghost use Rattle.qh_space.specs.Space.{IsSpace};
    ghost use Rattle.qh_space.specs.declared.data_space.DataSpace.{DataSpace};

    ghost Value = { DataSpace };

    ghost view = { λ e. e.space };

    ghost invariant = { λ e. IsSpace e.space };
}

impl SpaceEnd {
    fn new(alloc: Global, side: Side, settings: &Settings) -> SpaceEnd {
        SpaceEnd {
            side,
            settings: *settings,
            space: DataSpace::new(alloc, side, settings.space()),
        }
    }

    // The rows of an end that has a space and no connection.
    fn answer(
        &mut self,
        alloc: Global,
        word: &str,
        words: &mut Words<'_>,
        out: &mut Vec<u8>,
    ) -> Result<bool, RowFault> {
        let answered = match find(&CALLS, word) {
            Some(Call::Open) => self.open(alloc, words, out),
            Some(Call::Write) => self.write(alloc, words, out),
            Some(Call::Finish) => self.finish(words, out),
            Some(Call::Reset) => self.reset(words, out),
            Some(Call::Send) => self.put_packet(alloc, out),
            Some(Call::Take) => self.take(alloc, words, out),
            Some(Call::Log) => self.begin_logged(alloc, out),
            Some(Call::Items) => self.put_items(alloc, out),
            None => return Ok(false),
        };
        answered?;
        Ok(true)
    }

    fn open(
        &mut self,
        alloc: Global,
        words: &mut Words<'_>,
        out: &mut Vec<u8>,
    ) -> Result<(), RowFault> {
        let Ok(dir) = dir_of(words) else {
            return Err(RowFault::Form);
        };
        let id = open(&mut self.space, alloc, dir)?;
        put_stream(out, id)
    }

    fn write(
        &mut self,
        alloc: Global,
        words: &mut Words<'_>,
        out: &mut Vec<u8>,
    ) -> Result<(), RowFault> {
        let Ok(id) = stream_of(words) else {
            return Err(RowFault::Form);
        };
        let payload = words.bytes(alloc)?;
        put_write(out, write(&mut self.space, alloc, id, &payload))
    }

    fn finish(&mut self, words: &mut Words<'_>, out: &mut Vec<u8>) -> Result<(), RowFault> {
        let Ok(id) = stream_of(words) else {
            return Err(RowFault::Form);
        };
        put_finish(out, finish(&mut self.space, id))
    }

    fn reset(&mut self, words: &mut Words<'_>, out: &mut Vec<u8>) -> Result<(), RowFault> {
        let Ok(id) = stream_of(words) else {
            return Err(RowFault::Form);
        };
        let Ok(code) = varint_of(words) else {
            return Err(RowFault::Form);
        };
        put_done(out, reset(&mut self.space, id, code))
    }

    // The next packet is written, which is told.
    fn put_packet(&mut self, alloc: Global, out: &mut Vec<u8>) -> Result<(), RowFault> {
        let mut frames = Vec::new(alloc);
        match self.write_packet(alloc, &mut frames)? {
            Some(number) => put_told(out, number, &frames),
            None => put_text(out, "nothing"),
        }
    }

    // Appends the frames of the next packet. After want of memory the space begins anew.
    fn write_packet(
        &mut self,
        alloc: Global,
        frames: &mut Vec<u8>,
    ) -> Result<Option<u64>, RowFault> {
        let fresh = DataSpace::new(alloc, self.side, self.settings.space());
        let mut space = mem::replace(&mut self.space, fresh);
        match space.write_packet(alloc, NOW, OVERHEAD, ROOM, frames) {
            Ok(number) => {
                drop(mem::replace(&mut self.space, space));
                Ok(number)
            }
            Err(fault) => {
                drop(space);
                Err(RowFault::from(fault))
            }
        }
    }

    // A frame comes, of the row's bytes.
    fn take(
        &mut self,
        alloc: Global,
        words: &mut Words<'_>,
        out: &mut Vec<u8>,
    ) -> Result<(), RowFault> {
        let bytes = words.bytes(alloc)?;
        let Ok((frame, [])) = get_frame(&bytes) else {
            return Err(RowFault::Form);
        };
        match self.space.take_frame(alloc, &frame, NOW) {
            Ok(None) => put_ok(out),
            Ok(Some(reason)) => put_reason(out, &reason),
            Err(fault) => put_taken(out, &Err(fault)),
        }
    }

    // Begins anew, and keeps a log from then on.
    fn begin_logged(&mut self, alloc: Global, out: &mut Vec<u8>) -> Result<(), RowFault> {
        let space = logged_space(alloc, self.side, self.settings.space())?;
        drop(mem::replace(&mut self.space, space));
        put_ok(out)
    }

    // Tells the items that were kept, which are taken.
    fn put_items(&mut self, alloc: Global, out: &mut Vec<u8>) -> Result<(), RowFault> {
        match self.space.take_items(alloc) {
            Some(items) => put_items(out, &items),
            None => put_text(out, "off"),
        }
    }
}

// A space before its first packet, with a log.
fn logged_space(alloc: Global, side: Side, config: SpaceConfig) -> Result<DataSpace, Memory>
    ensures { IfOk result IsSpace }
{
    let mut space = DataSpace::new(alloc, side, config);
    space.start_log(alloc)?;
    Ok(space)
}

// Opens a stream.
fn open(space: &mut DataSpace, alloc: Global, dir: Dir) -> Result<Option<StreamId>, Memory>
    requires { IsSpace space.old }
    ensures { IsSpace space.new }
{
    space.streams.open(alloc, dir)
}

// Takes bytes to be sent on a stream.
fn write(
    space: &mut DataSpace,
    alloc: Global,
    id: StreamId,
    payload: &[u8],
) -> Result<usize, WriteFault>
    requires { IsSpace space.old }
    ensures { IsSpace space.new }
{
    space.streams.write(alloc, id, payload)
}

// Ends a stream behind the bytes that were taken.
fn finish(space: &mut DataSpace, id: StreamId) -> Result<(), FinishFault>
    requires { IsSpace space.old }
    ensures { IsSpace space.new }
{
    space.streams.finish(id)
}

// Resets a stream.
fn reset(space: &mut DataSpace, id: StreamId, code: VarInt) -> Result<(), ClosedStream>
    requires { IsSpace space.old }
    ensures { IsSpace space.new }
{
    space.streams.reset(id, code)
}

/// Both ends.
#[derive(Drop)]
pub(crate) struct SpacePair {
    client: SpaceEnd,
    server: SpaceEnd,
}

impl SpacePair {
    pub(crate) fn new(alloc: Global, settings: &Settings) -> SpacePair {
        SpacePair {
            client: SpaceEnd::new(alloc, Side::Client, settings),
            server: SpaceEnd::new(alloc, Side::Server, settings),
        }
    }

    /// Answers a row of an end that has a space and no connection, if it is one. Whether it is.
    pub(crate) fn answer_end(
        &mut self,
        alloc: Global,
        side: Side,
        word: &str,
        words: &mut Words<'_>,
        out: &mut Vec<u8>,
    ) -> Result<bool, RowFault> {
        match side {
            Side::Client => self.client.answer(alloc, word, words, out),
            Side::Server => self.server.answer(alloc, word, words, out),
        }
    }
}
