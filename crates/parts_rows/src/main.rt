//! Answers rows on the parts that stand by themselves: logs of used tokens, estimators, buffers, what is known of packets, links,
//! sources and sinks, settings and reports. The head of `stdin` explains the rows.
#![tactic(auto)]

mod assembler;
mod bandwidth;
mod io;
mod limiter;
mod link;
mod log;
mod numbers;
mod packets;
mod paths;
mod ranges;
mod say;
mod script;
mod sender;
mod settings;
mod whole;

use assembler::Pieces;
use bandwidth::{Bandwidth, Greatest};
use limiter::Limiter;
use link::Way;
use log::Log;
use numbers::Numbers;
use packets::Packets;
use paths::Paths;
use qh_base::{StdSink, StdSource};
use ranges::Ranges;
use row_text::{RowFault, Table, Words, run};
use say::{Line, find, read_at};
use sender::Sender;
use std::alloc::Global;
use std::process::ExitCode;
use whole::Whole;

fn main(rt: HostRuntime) -> ExitCode {
    let alloc = rt.alloc();
    let mut source = StdSource::new(rt.stdin());
    let mut sink = StdSink::new(rt.stdout());
    let mut parts = Parts {
        estimators: Estimators::new(),
        buffers: Buffers::new(alloc),
        wires: Wires::new(alloc),
    };
    let status = run(alloc, &mut source, &mut sink, &mut parts);
    drop(parts);
    ExitCode::from(status)
}

// The word of a part.
#[derive(Clone, Copy)]
enum Part {
    Log,
    Greatest,
    Bandwidth,
    Limiter,
    Rtt,
    Window,
    Whole,
    Ranges,
    Send,
    Assembler,
    Dedup,
    Acks,
    Sent,
    Link,
}

const PART_WORDS: [(&str, Part); 14] = [
    ("log", Part::Log),
    ("max", Part::Greatest),
    ("bandwidth", Part::Bandwidth),
    ("limiter", Part::Limiter),
    ("rtt", Part::Rtt),
    ("window", Part::Window),
    ("whole", Part::Whole),
    ("ranges", Part::Ranges),
    ("send", Part::Send),
    ("assembler", Part::Assembler),
    ("dedup", Part::Dedup),
    ("acks", Part::Acks),
    ("sent", Part::Sent),
    ("link", Part::Link),
];

/// One of each part. A row says to which it speaks.
#[derive(Drop)]
struct Parts {
    estimators: Estimators,
    buffers: Buffers,
    wires: Wires,
}

impl Table for Parts {
    fn answer(&mut self, alloc: Global, row: &str, out: &mut Vec<u8>) -> Result<(), RowFault> {
        let mut words = Words::new(row);
        let mut line = Line::new(alloc);
        self.answer_row(alloc, &mut words, &mut line);
        line.end(out)
    }
}

impl Parts {
    fn answer_row(&mut self, alloc: Global, words: &mut Words<'_>, out: &mut Line) {
        let word = words.next();
        match find(&PART_WORDS, word) {
            Some(Part::Log) => self.estimators.log.answer(alloc, words, out),
            Some(Part::Greatest) => self.estimators.greatest.answer(words, out),
            Some(Part::Bandwidth) => self.estimators.bandwidth.answer(words, out),
            Some(Part::Limiter) => self.estimators.limiter.answer(words, out),
            Some(Part::Rtt) => self.estimators.paths.answer_rtt(words, out),
            Some(Part::Window) => self.estimators.paths.answer_window(words, out),
            Some(Part::Whole) => self.buffers.whole.answer(alloc, words, out),
            Some(Part::Ranges) => self.buffers.ranges.answer(alloc, words, out),
            Some(Part::Send) => self.buffers.sender.answer(alloc, words, out),
            Some(Part::Assembler) => self.buffers.pieces.answer(alloc, words, out),
            Some(Part::Dedup) => self.wires.numbers.answer_dedup(alloc, words, out),
            Some(Part::Acks) => self.wires.numbers.answer_acks(alloc, words, out),
            Some(Part::Sent) => self.wires.packets.answer(alloc, words, out),
            Some(Part::Link) => self.wires.way.answer(alloc, words, out),
            None => answer_alone(alloc, word, words, out),
        }
    }
}

// The word of a row of a part of which nothing is kept.
#[derive(Clone, Copy)]
enum Alone {
    Best,
    Bulk,
    Source,
    Sink,
    Fits,
    Command,
}

const ALONE_WORDS: [(&str, Alone, u8); 6] = [
    ("k", Alone::Best, 2),
    ("bulk", Alone::Bulk, 0),
    ("source", Alone::Source, 1),
    ("sink", Alone::Sink, 2),
    ("fits", Alone::Fits, 0),
    ("command", Alone::Command, 0),
];

// Answers a row of a part of which nothing is kept.
fn answer_alone(alloc: Global, word: &str, words: &mut Words<'_>, out: &mut Line) {
    let Some(row) = read_at(&ALONE_WORDS, word, words) else {
        return script::answer(alloc, word, words, out);
    };
    match row.call {
        Alone::Best => log::answer_best(row.first, row.second, out),
        Alone::Bulk => log::answer_bulk(alloc, words, out),
        Alone::Source => io::answer_source(alloc, row.first, words, out),
        Alone::Sink => io::answer_sink(alloc, row.first, row.second, words, out),
        Alone::Fits => settings::answer_fits(alloc, words, out),
        Alone::Command => settings::answer_command(alloc, words, out),
    }
}

/// What is measured and limited.
#[derive(Drop)]
struct Estimators {
    log: Log,
    greatest: Greatest,
    bandwidth: Bandwidth,
    limiter: Limiter,
    paths: Paths,
}

impl Estimators {
    fn new() -> Estimators {
        Estimators {
            log: Log::new(),
            greatest: Greatest::new(),
            bandwidth: Bandwidth::new(),
            limiter: Limiter::new(0),
            paths: Paths::new(),
        }
    }
}

/// What holds bytes and numbers.
#[derive(Drop)]
struct Buffers {
    whole: Whole,
    ranges: Ranges,
    sender: Sender,
    pieces: Pieces,
}

impl Buffers {
    fn new(alloc: Global) -> Buffers {
        Buffers {
            whole: Whole::new(alloc, 0),
            ranges: Ranges::new(alloc),
            sender: Sender::new(alloc),
            pieces: Pieces::new(alloc),
        }
    }
}

/// What goes between two ends.
#[derive(Drop)]
struct Wires {
    numbers: Numbers,
    packets: Packets,
    way: Way,
}

impl Wires {
    fn new(alloc: Global) -> Wires {
        Wires {
            numbers: Numbers::new(alloc),
            packets: Packets::new(alloc),
            way: Way::new(alloc, 10),
        }
    }
}
