//! Answers rows on the turn lock of `qh_lock`, around a tally: two threads that add to it in turn, and what seats see of its
//! history. The head of `stdin` explains the rows.
#![tactic(auto)]

mod added;
mod history;
mod seats;
mod tally;
mod threads;

use history::put_history;
use qh_base::{StdSink, StdSource};
use row_text::{RowFault, Words, read_all, write_all};
use seats::play;
use std::alloc::Global;
use std::process::ExitCode;
use std::str;
use std::sync::Wait;
use std::thread::Threads;
use threads::add_in_two_rounds;

// The most numbers that a thread adds.
const MOST: u64 = 1_000_000;

// Gives the exit status: 0 if each row was answered, 1 if one is of no form, 9 without memory, 10 if the source fails, 11 if the
// sink does.
fn main(rt: HostRuntime) -> ExitCode {
    let alloc = rt.alloc();
    let mut out = Vec::new(alloc);
    let status = match read_all(alloc, &mut StdSource::new(rt.stdin())) {
        Ok(Some(text)) => answer_all(&rt, alloc, &text, &mut out),
        Ok(None) => 10,
        Err(_) => 9,
    };
    let is_written = write_all(&mut StdSink::new(rt.stdout()), &out);
    ExitCode::from(if is_written { status } else { 11 })
}

// The exit status of the rows of a text, whose answers are appended. An empty line says nothing, nor does one that begins
// with `#`.
fn answer_all<R: Threads + Wait + Sync>(
    rt: &R,
    alloc: Global,
    text: &[u8],
    out: &mut Vec<u8>,
) -> u8 {
    let Ok(text) = str::from_utf8(text) else {
        return 1;
    };
    for row in text.lines() {
        if !row.is_empty() && !row.starts_with("#") {
            match answer(rt, alloc, &mut Words::new(row), out) {
                Ok(()) => {}
                Err(RowFault::Form) => return 1,
                Err(RowFault::Memory) => return 9,
            }
        }
    }
    0
}

// Appends the answer to a row, and the end of its line.
fn answer<R: Threads + Wait + Sync>(
    rt: &R,
    alloc: Global,
    words: &mut Words<'_>,
    out: &mut Vec<u8>,
) -> Result<(), RowFault> {
    let tally = match words.next() {
        "threads" => {
            let middle = words.number()?;
            let end = words.number()?;
            if middle > end || end > MOST || !words.is_at_end() {
                return Err(RowFault::Form);
            }
            add_in_two_rounds(rt, alloc, middle as u32, end as u32).ok_or(RowFault::Memory)?
        }
        "seats" => play(rt, alloc, words, out)?,
        _ => return Err(RowFault::Form),
    };
    put_history(out, tally.calls())?;
    Ok(())
}
