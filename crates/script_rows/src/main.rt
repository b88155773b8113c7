//! Runs each script of its input as the program `h3run` would, and writes its status and its text. The head of `stdin` says how a
//! script is written.
#![tactic(auto)]

mod outcome;
mod row;

use qh_base::{Sink, Source, StdSink, StdSource};
use qh_script::cut_line;
use row::Row;
use row_text::{RowFault, read_all, write_all};
use std::alloc::Global;
use std::process::ExitCode;

fn main(rt: HostRuntime) -> ExitCode {
    let mut source = StdSource::new(rt.stdin());
    let mut sink = StdSink::new(rt.stdout());
    ExitCode::from(run(rt.alloc(), &mut source, &mut sink))
}

// Answers all scripts. Gives the exit status: 0 if each was run, 1 if a line of the table is of no form, 9 without memory, 10 if the
// source fails, 11 if the sink does.
fn run<S: Source, K: Sink>(alloc: Global, source: &mut S, sink: &mut K) -> u8 {
    let mut out = Vec::new(alloc);
    let status = match read_all(alloc, source) {
        Ok(Some(text)) => answered(alloc, &text, &mut out),
        Ok(None) => 10,
        Err(_) => 9,
    };
    if write_all(sink, &out) { status } else { 11 }
}

// The exit status of the scripts of a text, whose answers are appended.
fn answered(alloc: Global, text: &[u8], out: &mut Vec<u8>) -> u8 {
    match answer_all(alloc, text, out) {
        Ok(()) => 0,
        Err(RowFault::Form) => 1,
        Err(RowFault::Memory) => 9,
    }
}

// Appends the answer to each script. What stands before the first one says nothing.
fn answer_all(alloc: Global, text: &[u8], out: &mut Vec<u8>) -> Result<(), RowFault> {
    let mut row = Row::new(alloc);
    let mut left = text;
    for _line in 0..text.len() {
        if left.is_empty() {
            break;
        }
        let (line, behind) = cut_line(left);
        left = behind;
        if let [b'=', b' ', name @ ..] = line {
            row.answer(alloc, out)?;
            row = Row::named(alloc, name)?;
        } else {
            row.take_line(alloc, line)?;
        }
    }
    row.answer(alloc, out)
}
