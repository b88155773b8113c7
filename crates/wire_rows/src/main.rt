//! Answers rows about what stands on the wire: numbers, frames, packets, field sections and messages. The file `stdin` beside
//! `src/` says which words there are.
#![tactic(auto)]

mod codes;
mod frames;
mod frames_written;
mod heads;
mod http_frames;
mod http_written;
mod judged;
mod messages;
mod numbers;
mod packets;
mod plain;
mod say;
mod sections;

use qh_base::{ConnectionId, StdSink, StdSource};
use qh_packet::PlainSession;
use row_text::{RowFault, Table, Words, run};
use std::alloc::Global;
use std::process::ExitCode;

// What answers the rows. The session is that of the last row `session`.
#[derive(Drop)]
struct Wire {
    session: PlainSession,
}

impl Table for Wire {
    fn answer(&mut self, alloc: Global, row: &str, out: &mut Vec<u8>) -> Result<(), RowFault> {
        let mut words = Words::new(row);
        let word = words.next();
        let is_known = packets::answer(alloc, &mut self.session, word, &mut words, out)?
            || answer_value(alloc, word, &mut words, out)?
            || answer_message(alloc, word, &mut words, out)?;
        if is_known && words.is_at_end() {
            Ok(())
        } else {
            Err(RowFault::Form)
        }
    }
}

// Answers a row of numbers, frames or sections. Whether its word is known.
fn answer_value(
    alloc: Global,
    word: &str,
    words: &mut Words<'_>,
    out: &mut Vec<u8>,
) -> Result<bool, RowFault> {
    Ok(
        numbers::answer(alloc, word, words, out)?
            || codes::answer(word, words, out)?
            || frames::answer(alloc, word, words, out)?
            || sections::answer(alloc, word, words, out)?
            || http_written::answer(alloc, word, words, out)?,
    )
}

// Answers a row of messages, or of the plain programs. Whether its word is known.
fn answer_message(
    alloc: Global,
    word: &str,
    words: &mut Words<'_>,
    out: &mut Vec<u8>,
) -> Result<bool, RowFault> {
    Ok(
        heads::answer(alloc, word, words, out)?
            || messages::answer(alloc, word, words, out)?
            || plain::answer(alloc, word, words, out)?
            || judged::answer(alloc, word, words, out)?,
    )
}

fn main(rt: HostRuntime) -> ExitCode {
    let Some(key) = ConnectionId::new(b"") else {
        return ExitCode::from(1);
    };
    let Ok(session) = packets::new_session(key, b"") else {
        return ExitCode::from(1);
    };
    let mut source = StdSource::new(rt.stdin());
    let mut sink = StdSink::new(rt.stdout());
    let mut wire = Wire { session };
    ExitCode::from(run(rt.alloc(), &mut source, &mut sink, &mut wire))
}
