//! Both ends, and the rows of all stories.
use crate::acts::{ACTS, make_call};
use crate::end::End;
use crate::lent::{LENTS, Lent, LentWord, poll_read, poll_write};
use crate::link::{DRIVES, drive};
use crate::row::{MILLISECOND, Row, find};
use crate::settings::Settings;
use crate::state::Rows;
use crate::tasks::{Task, Tasks, leave};
use crate::waits::{WAIT_WORDS, Wait, WaitWord, made};
use qh_base::{Memory, Moment, Side};
use row_text::RowFault;
use std::alloc::Global;
use std::mem;

/// Both ends.
#[derive(Drop)]
pub(crate) struct Ends<A: Drop> {
    pub(crate) client: End<A>,
    pub(crate) server: End<A>,
}

/// Both ends, the moment, and the tasks.
#[derive(Drop)]
pub(crate) struct Stories<A: Drop> {
    pub(crate) tasks: Tasks,
    // The number of the one that makes calls.
    task: usize,
    pub(crate) now: Moment,
    pub(crate) ends: Ends<A>,
}

impl<A: Drop> Ends<A> {
    fn of(&mut self, side: Side) -> &mut End<A> {
        match side {
            Side::Client => &mut self.client,
            Side::Server => &mut self.server,
        }
    }
}

// The word of a row.
#[derive(Clone, Copy)]
enum Call {
    Of(Side),
    Begin,
    Time,
    Task,
    Woken,
    Run,
    Many,
}

const CALLS: [(&str, Call); 8] = [
    ("client", Call::Of(Side::Client)),
    ("server", Call::Of(Side::Server)),
    ("begin", Call::Begin),
    ("time", Call::Time),
    ("task", Call::Task),
    ("woken", Call::Woken),
    ("run", Call::Run),
    ("many", Call::Many),
];

// The other words of a row of one end.
#[derive(Clone, Copy)]
enum EndCall {
    Keep,
    Poll,
    PollWrite,
    PollRead,
    History,
}

const END_CALLS: [(&str, EndCall); 5] = [
    ("keep", EndCall::Keep),
    ("poll", EndCall::Poll),
    ("poll-write", EndCall::PollWrite),
    ("poll-read", EndCall::PollRead),
    ("history", EndCall::History),
];

impl<A: Rows> Stories<A> {
    /// Fresh ends, at the moment 0.
    pub(crate) fn new(alloc: Global, tasks: Tasks, settings: &Settings) -> Result<Self, Memory> {
        let client = End::new(alloc, Side::Client, settings.of(Side::Client))?;
        match End::new(alloc, Side::Server, settings.of(Side::Server)) {
            Ok(server) => Ok(Stories {
                tasks,
                task: 0,
                now: Moment(0),
                ends: Ends { client, server },
            }),
            Err(Memory) => {
                drop(client);
                Err(Memory)
            }
        }
    }

    /// An end.
    pub(crate) fn end(&mut self, side: Side) -> &mut End<A> {
        self.ends.of(side)
    }

    /// A task and an end. Without the task there is no answer.
    pub(crate) fn parts(
        &mut self,
        side: Side,
        number: usize,
        row: &mut Row<'_>,
    ) -> Option<(&mut Task, &mut End<A>)> {
        let task = self.tasks.get(number, row)?;
        Some((task, self.ends.of(side)))
    }

    /// Answers a row.
    pub(crate) fn answer_row(&mut self, row: &mut Row<'_>) {
        let Some(call) = row.find(&CALLS) else {
            return;
        };
        match call {
            Call::Of(side) => self.answer_end(side, row),
            Call::Begin => self.begin(row),
            Call::Time => {
                row.put("ok");
                self.now = Moment(row.number().saturating_mul(MILLISECOND));
            }
            Call::Task => {
                row.put("ok");
                self.task = row.number() as usize;
            }
            Call::Woken => self.tasks.put_woken(row),
            Call::Run => self.put_run(row),
            Call::Many => self.put_many(row),
        }
    }

    // SETTINGS: begins with fresh ends, at the moment 0.
    fn begin(&mut self, row: &mut Row<'_>) {
        row.put("ok");
        let settings = Settings::read(row);
        self.task = 0;
        self.now = Moment(0);
        renew(&mut self.ends.client, Side::Client, &settings, row);
        renew(&mut self.ends.server, Side::Server, &settings, row);
        let mut told = Row::new(row.alloc, "");
        self.tasks.put_woken(&mut told);
    }

    // Answers a row of one end.
    fn answer_end(&mut self, side: Side, row: &mut Row<'_>) {
        let word = row.word();
        let now = self.now;
        if let Some(word) = find(&WAIT_WORDS, word) {
            self.wait(side, word, row);
        } else if let Some(word) = find(&LENTS, word) {
            self.lend(side, word, row);
        } else if let Some(word) = find(&ACTS, word) {
            make_call(self.end(side), word, now, row);
        } else if let Some(word) = find(&DRIVES, word) {
            drive(self, side, word, row);
        } else {
            self.answer_other(side, word, row);
        }
    }

    fn answer_other(&mut self, side: Side, word: &str, row: &mut Row<'_>) {
        let number = self.task;
        let Some(call) = find(&END_CALLS, word) else {
            return row.fail(RowFault::Form);
        };
        let Some((task, end)) = self.parts(side, number, row) else {
            return;
        };
        match call {
            EndCall::Keep => keep(end, row),
            EndCall::Poll => poll_kept(end, task, row),
            EndCall::PollWrite => poll_write(end, task, row),
            EndCall::PollRead => poll_read(end, task, row),
            EndCall::History => end.state.put_history(row.number_or(0) as usize, row),
        }
    }

    // Makes a call, and polls it once.
    fn wait(&mut self, side: Side, word: WaitWord, row: &mut Row<'_>) {
        let number = self.task;
        let Some((task, end)) = self.parts(side, number, row) else {
            return;
        };
        match made(end, word, row) {
            Some(mut call) => {
                poll(&mut call, end, task, row);
                drop(call);
            }
            None => row.fail(RowFault::Form),
        }
    }
}

// An end is a fresh one.
fn renew<A: Rows>(end: &mut End<A>, side: Side, settings: &Settings, row: &mut Row<'_>) {
    match End::new(row.alloc, side, settings.of(side)) {
        Ok(fresh) => drop(mem::replace(end, fresh)),
        Err(Memory) => row.fail(RowFault::Memory),
    }
}

/// Polls a call by a task.
pub(crate) fn poll<A: Rows>(
    call: &mut Wait,
    end: &mut End<A>,
    task: &mut Task,
    row: &mut Row<'_>,
) -> bool {
    let mut cx = task.solo.begin();
    let waits = call.poll(end, &mut cx, row);
    leave(cx, &task.source, &mut task.slot);
    waits
}

// WORD ..: makes a call and keeps it, without a poll.
fn keep<A: Rows>(end: &mut End<A>, row: &mut Row<'_>) {
    let Some(word) = row.find(&WAIT_WORDS) else {
        return;
    };
    let Some(call) = made(end, word, row) else {
        return row.fail(RowFault::Form);
    };
    row.put_count("kept ", end.hands.kept.len() as u64);
    if let Err(failed) = end.hands.kept.push(call) {
        drop(failed);
        row.fail(RowFault::Memory);
    }
}

// NUMBER: polls one that is kept.
fn poll_kept<A: Rows>(end: &mut End<A>, task: &mut Task, row: &mut Row<'_>) {
    let place = row.number() as usize;
    let Some(kept) = end.hands.kept.get_mut(place) else {
        return row.fail(RowFault::Form);
    };
    let mut call = mem::replace(kept, Wait::Connecting);
    poll(&mut call, end, task, row);
    match end.hands.kept.get_mut(place) {
        Some(kept) => drop(mem::replace(kept, call)),
        None => drop(call),
    }
}

// Calls over buffers that are lent. While one waits, both ends may exchange what they have, so many times, before it is polled again.
impl<A: Rows> Stories<A> {
    fn lend(&mut self, side: Side, word: LentWord, row: &mut Row<'_>) {
        match word {
            LentWord::Write => self.write_bytes(side, false, row),
            LentWord::WriteAll => self.write_bytes(side, true, row),
            LentWord::WriteChunk => self.write_chunk(side, row),
            LentWord::WriteChunks => self.write_chunks(side, false, row),
            LentWord::WriteAllChunks => self.write_chunks(side, true, row),
            LentWord::Read => self.read_bytes(side, false, row),
            LentWord::ReadExact => self.read_bytes(side, true, row),
            LentWord::ReadChunks => self.read_chunks(side, row),
        }
    }

    // STREAM BYTES [ROUNDS]
    fn write_bytes(&mut self, side: Side, is_all: bool, row: &mut Row<'_>) {
        let Some(stream) = self.end(side).hands.send(row) else {
            return;
        };
        let bytes = row.bytes();
        let mut call = if is_all {
            Lent::WriteAll(stream.write_all(&bytes))
        } else {
            Lent::Write(stream.write(&bytes))
        };
        let rounds = row.number_or(0);
        self.poll_lent(side, &mut call, rounds, row);
    }

    // STREAM BYTES [ROUNDS]
    fn write_chunk(&mut self, side: Side, row: &mut Row<'_>) {
        let Some(stream) = self.end(side).hands.send(row) else {
            return;
        };
        let mut call = Lent::WriteAllChunks(stream.write_chunk(row.payload()));
        let rounds = row.number_or(0);
        self.poll_lent(side, &mut call, rounds, row);
        drop(call);
    }

    // STREAM ROUNDS CHUNK ..: and what is left of the chunks.
    fn write_chunks(&mut self, side: Side, is_all: bool, row: &mut Row<'_>) {
        let Some(stream) = self.end(side).hands.send(row) else {
            return;
        };
        let rounds = row.number();
        let mut chunks = row.payloads();
        let mut call = if is_all {
            Lent::WriteAllChunks(stream.write_all_chunks(&mut chunks))
        } else {
            Lent::WriteChunks(stream.write_chunks(&mut chunks))
        };
        self.poll_lent(side, &mut call, rounds, row);
        drop(call);
        row.put(" left");
        for chunk in &chunks {
            row.put_part(" ", chunk);
        }
    }

    // STREAM SIZE [ROUNDS]: and the buffer.
    fn read_bytes(&mut self, side: Side, is_exact: bool, row: &mut Row<'_>) {
        let Some(stream) = self.end(side).hands.recv(row) else {
            return;
        };
        let mut buffer = row.buffer();
        let mut call = if is_exact {
            Lent::ReadExact(stream.read_exact(&mut buffer))
        } else {
            Lent::Read(stream.read(&mut buffer))
        };
        let rounds = row.number_or(0);
        self.poll_lent(side, &mut call, rounds, row);
        drop(call);
        row.put_part(" ", &buffer);
    }

    // STREAM COUNT [ROUNDS]: and the pieces.
    fn read_chunks(&mut self, side: Side, row: &mut Row<'_>) {
        let Some(stream) = self.end(side).hands.recv(row) else {
            return;
        };
        let mut pieces = empty_pieces(row);
        let mut call = Lent::ReadChunks(stream.read_chunks(&mut pieces));
        let rounds = row.number_or(0);
        self.poll_lent(side, &mut call, rounds, row);
        drop(call);
        for piece in &pieces {
            row.put_part(" ", piece);
        }
    }

    // Polls it, and again behind each round while it waits.
    fn poll_lent(&mut self, side: Side, call: &mut Lent<'_>, rounds: u64, row: &mut Row<'_>) {
        let number = self.task;
        for round in 0..=rounds {
            if round > 0 {
                self.round(row.alloc);
            }
            let Some((task, end)) = self.parts(side, number, row) else {
                return;
            };
            row.put_comma();
            let mut cx = task.solo.begin();
            let waits = call.poll(end, &mut cx, row);
            leave(cx, &task.source, &mut task.slot);
            if !waits {
                return;
            }
        }
    }
}

// So many pieces without bytes as the next word says.
fn empty_pieces(row: &mut Row<'_>) -> Vec<bytes::Bytes> {
    let mut pieces = Vec::new(row.alloc);
    for _piece in 0..row.number().min(1000) {
        if pieces.push(bytes::Bytes::new()).is_err() {
            row.fail(RowFault::Memory);
        }
    }
    pieces
}
