//! Answers rows about the handshake: hellos, the CRYPTO bytes that bring them, packets with a long header, and two ends that greet
//! each other. The head of `stdin` beside `src/` explains the rows.
#![tactic(auto)]

mod crypto;
mod cuts;
mod end;
mod ends;
mod hello;
mod packets;
mod say;
mod written;

use ends::Ends;
use qh_base::{StdSink, StdSource};
use row_text::{RowFault, Table, Words, run};
use std::alloc::Global;
use std::process::ExitCode;

fn main(rt: HostRuntime) -> ExitCode {
    let alloc = rt.alloc();
    let Ok(ends) = Ends::new(alloc, b"") else {
        return ExitCode::from(9);
    };
    let mut source = StdSource::new(rt.stdin());
    let mut sink = StdSink::new(rt.stdout());
    ExitCode::from(run(alloc, &mut source, &mut sink, &mut Rows { ends }))
}

// What answers the rows. It keeps the ends that the last rows spoke of.
#[derive(Drop)]
struct Rows {
    ends: Ends,
}

impl Table for Rows {
    fn answer(&mut self, alloc: Global, row: &str, out: &mut Vec<u8>) -> Result<(), RowFault> {
        let mut words = Words::new(row);
        let word = words.next();
        if !self.ends.answer(alloc, word, &mut words, out)? {
            answer_word(alloc, word, &mut words, out)?;
        }
        if words.is_at_end() {
            Ok(())
        } else {
            Err(RowFault::Form)
        }
    }
}

fn answer_word(
    alloc: Global,
    word: &str,
    words: &mut Words<'_>,
    out: &mut Vec<u8>,
) -> Result<(), RowFault> {
    match word {
        "hello" => hello::answer(alloc, words, out),
        "front" | "cuts" => cuts::answer(alloc, word, words, out),
        "crypto" => crypto::answer(alloc, words, out),
        "initial" | "retry" | "versions" => written::answer(alloc, word, words, out),
        _ => packets::answer(alloc, word, words, out),
    }
}
