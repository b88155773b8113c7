//! Answers rows about the two ends of a connection, or about two ends with streams or with packet number spaces alone: a heading
//! and the rows below it are a story of what is called at either end, what happens to datagrams, and what the ends answer.
#![tactic(auto)]

mod answers;
mod application;
mod bulk;
mod calls;
mod frames;
mod items;
mod link;
mod orders;
mod packets;
mod pair;
mod role;
mod settings;
mod space;
mod streams;

use answers::{find, put_form, put_ok};
use pair::Pair;
use qh_base::{Side, StdSink, StdSource};
use role::Role;
use row_text::{RowFault, Table, Words, run};
use settings::{Settings, USUAL};
use space::SpacePair;
use std::alloc::Global;
use std::mem;
use std::process::ExitCode;
use streams::StreamsPair;

// What the rows of a story speak of.
#[derive(Clone, Copy)]
enum Kind {
    Connection,
    Streams,
    Spaces,
}

// The word of a row of both ends.
#[derive(Clone, Copy)]
enum Call {
    New,
    Streams,
    Spaces,
    Echo,
    Bulk,
    Serve,
}

const CALLS: [(&str, Call); 6] = [
    ("new", Call::New),
    ("streams", Call::Streams),
    ("spaces", Call::Spaces),
    ("echo", Call::Echo),
    ("bulk", Call::Bulk),
    ("serve", Call::Serve),
];

#[derive(Drop)]
struct Stories {
    kind: Kind,
    pair: Pair,
    role: Role,
    streams: StreamsPair,
    spaces: SpacePair,
}

impl Table for Stories {
    fn answer(&mut self, alloc: Global, row: &str, out: &mut Vec<u8>) -> Result<(), RowFault> {
        let mut words = Words::new(row);
        let is_known = match words.next() {
            "client" => self.answer_end(alloc, Side::Client, &mut words, out)?,
            "server" => self.answer_end(alloc, Side::Server, &mut words, out)?,
            word => self.answer_both(alloc, word, &mut words, out)?,
        };
        if is_known && words.is_at_end() {
            Ok(())
        } else {
            Err(RowFault::Form)
        }
    }
}

impl Stories {
    // Answers a row of one end, if it is one. Whether it is.
    fn answer_end(
        &mut self,
        alloc: Global,
        side: Side,
        words: &mut Words<'_>,
        out: &mut Vec<u8>,
    ) -> Result<bool, RowFault> {
        let word = words.next();
        match self.kind {
            Kind::Connection => self.answer_connection(alloc, side, word, words, out),
            Kind::Streams => self.answer_streams(alloc, side, word, words, out),
            Kind::Spaces => self.spaces.answer_end(alloc, side, word, words, out),
        }
    }

    fn answer_connection(
        &mut self,
        alloc: Global,
        side: Side,
        word: &str,
        words: &mut Words<'_>,
        out: &mut Vec<u8>,
    ) -> Result<bool, RowFault> {
        if application::answer(alloc, self.pair.end(side), word, words, out)? {
            return Ok(true);
        }
        self.pair.answer_end(alloc, side, word, words, out)
    }

    fn answer_streams(
        &mut self,
        alloc: Global,
        side: Side,
        word: &str,
        words: &mut Words<'_>,
        out: &mut Vec<u8>,
    ) -> Result<bool, RowFault> {
        if application::answer(alloc, self.streams.end(side), word, words, out)? {
            return Ok(true);
        }
        self.streams.answer_end(alloc, side, word, words, out)
    }

    // Answers a row of both ends, if it is one. Whether it is.
    fn answer_both(
        &mut self,
        alloc: Global,
        word: &str,
        words: &mut Words<'_>,
        out: &mut Vec<u8>,
    ) -> Result<bool, RowFault> {
        let answered = match find(&CALLS, word) {
            Some(Call::New) => self.begin(alloc, Kind::Connection, words, out),
            Some(Call::Streams) => self.begin(alloc, Kind::Streams, words, out),
            Some(Call::Spaces) => self.begin(alloc, Kind::Spaces, words, out),
            Some(Call::Echo) => bulk::echo(alloc, &mut self.pair, words, out),
            Some(Call::Bulk) => bulk::answer(alloc, words, out),
            Some(Call::Serve) => self.serve(alloc, out),
            None => return self.pair.answer(alloc, word, words, out),
        };
        answered?;
        Ok(true)
    }

    // Makes fresh ends.
    fn begin(
        &mut self,
        alloc: Global,
        kind: Kind,
        words: &mut Words<'_>,
        out: &mut Vec<u8>,
    ) -> Result<(), RowFault> {
        let settings = Settings::of(words)?;
        self.kind = kind;
        match kind {
            Kind::Connection => self.connect(alloc, &settings)?,
            Kind::Streams => self.join(alloc, &settings),
            Kind::Spaces => self.part(alloc, &settings),
        }
        put_ok(out)
    }

    // Makes fresh ends with streams alone.
    fn join(&mut self, alloc: Global, settings: &Settings) {
        let streams = StreamsPair::new(alloc, settings);
        drop(mem::replace(&mut self.streams, streams));
    }

    // Makes fresh ends with spaces alone.
    fn part(&mut self, alloc: Global, settings: &Settings) {
        let spaces = SpacePair::new(alloc, settings);
        drop(mem::replace(&mut self.spaces, spaces));
    }

    // Makes fresh ends of a connection.
    fn connect(&mut self, alloc: Global, settings: &Settings) -> Result<(), RowFault> {
        let pair = Pair::new(alloc, settings)?;
        drop(mem::replace(&mut self.pair, pair));
        drop(mem::replace(&mut self.role, Role::new(alloc)));
        Ok(())
    }

    // Lets the server's role go on.
    fn serve(&mut self, alloc: Global, out: &mut Vec<u8>) -> Result<(), RowFault> {
        let served = self.role.serve(alloc, &mut self.pair.server)?;
        put_form(out, "served #", &[served])
    }
}

fn main(rt: HostRuntime) -> ExitCode {
    let alloc = rt.alloc();
    let mut source = StdSource::new(rt.stdin());
    let mut sink = StdSink::new(rt.stdout());
    match usual_stories(alloc) {
        Ok(mut stories) => {
            let status = run(alloc, &mut source, &mut sink, &mut stories);
            drop(stories);
            ExitCode::from(status)
        }
        Err(_) => ExitCode::from(9),
    }
}

// Usual ends of both kinds.
fn usual_stories(alloc: Global) -> Result<Stories, RowFault> {
    Ok(Stories {
        kind: Kind::Connection,
        pair: Pair::new(alloc, &USUAL)?,
        role: Role::new(alloc),
        streams: StreamsPair::new(alloc, &USUAL),
        spaces: SpacePair::new(alloc, &USUAL),
    })
}
