//! What a run writes.

ghost use Rattle.std.specs.Prelude.{◌≡◌, ◌<◌, ◌≤◌, ◌++◌, [], length, take, decimal, option_map, IfSome, IfNone};
ghost use Rattle.qh_spec.specs.Fault.{Rose};
ghost use Rattle.qh_spec.specs.Report.{newline};
ghost use Rattle.qh_exchange.specs.Ending.{error_line, line_of, status_of, text_of};
ghost use Rattle.qh_exchange.specs.Reading.{IsWritten, WritesText};

use crate::ExchangeError;
use crate::ending::{Ending, Outcome};
use itoa::Buffer;
use qh_base::Sink;

const USAGE: &str = "usage: h3run exchange, make N SEED, workers N, tokens\n";

/// Writes what an ending has and its last line, and answers its status, or 11 where the sink failed.
pub(crate) fn write_ending<K: Sink>(sink: &mut K, ending: &Ending) -> u8
    ensures { IsWritten (status_of ending.now.last) (text_of ending.now) (K.written sink.old) (K.written sink.new) (K.faults sink.old) (K.faults sink.new) result }
{
    if !write_text(sink, &ending.text) {
        return 11;
    }
    if !write_line(sink, &ending.last) {
        return 11;
    }
    ending.last.status()
}

// Writes the last line. False where the sink failed.
fn write_line<K: Sink>(sink: &mut K, last: &Outcome) -> bool
    ensures { WritesText (line_of last.now) (K.written sink.old) (K.written sink.new) (K.faults sink.old) (K.faults sink.new) result }
{
    match last {
        Outcome::Done => true,
        Outcome::Unknown => write_text(sink, USAGE.as_bytes()),
        Outcome::Refused(number) => write_number(sink, "line ", *number),
        Outcome::Failed(error) => write_error(sink, error),
        Outcome::Unlisted(error) => {
            if !write_text(sink, "unlisted\n".as_bytes()) {
                return false;
            }
            write_error(sink, error)
        }
        Outcome::ReadFault => write_text(sink, "read fault\n".as_bytes()),
        Outcome::Unbuilt => write_text(sink, "unbuilt\n".as_bytes()),
    }
}

// Writes the line of an error. False where the sink failed.
fn write_error<K: Sink>(sink: &mut K, error: &ExchangeError) -> bool
    ensures { WritesText (error_line error.now) (K.written sink.old) (K.written sink.new) (K.faults sink.old) (K.faults sink.new) result }
{
    match error {
        ExchangeError::Invalid { index } => write_number(sink, "invalid ", *index),
        ExchangeError::TimedOut => write_text(sink, "timed out\n".as_bytes()),
        ExchangeError::OutOfRounds => write_text(sink, "out of rounds\n".as_bytes()),
        ExchangeError::Link => write_text(sink, "link\n".as_bytes()),
        ExchangeError::Protocol(_) => write_text(sink, "protocol\n".as_bytes()),
        ExchangeError::Memory => write_text(sink, "memory\n".as_bytes()),
    }
}

// Writes a word, a number and the end of the line. False where the sink failed.
fn write_number<K: Sink>(sink: &mut K, word: &str, number: usize) -> bool
    ensures { WritesText (word.now ++ (decimal number ++ newline)) (K.written sink.old) (K.written sink.new) (K.faults sink.old) (K.faults sink.new) result }
{
    if !write_text(sink, word.as_bytes()) {
        return false;
    }
    let mut buffer = Buffer::new();
    if !write_text(sink, buffer.format(number).as_bytes()) {
        return false;
    }
    write_text(sink, "\n".as_bytes())
}

/// Writes the text. False where the sink failed.
fn write_text<K: Sink>(sink: &mut K, text: &[u8]) -> bool
    ensures { WritesText text.now (K.written sink.old) (K.written sink.new) (K.faults sink.old) (K.faults sink.new) result }
{
    let mut rest = text;
    for _piece in 0..text.len() {
        if rest.is_empty() {
            return true;
        }
        let Some(len) = write_piece(sink, rest) else {
            return false;
        };
        rest = rest.split_at(len).1;
    }
    true
}

// Writes a front of a piece that isn't empty, and says how many bytes it has. None where the sink failed.
fn write_piece<K: Sink>(sink: &mut K, piece: &[u8]) -> Option<usize>
    requires { 0 < length piece.now }
    ensures some { IfSome result (λ n. 0 < n) }
    ensures fits { IfSome result (λ n. n ≤ length piece.now) }
    ensures bytes { IfSome result (λ n. K.written sink.new ≡ option_map (λ xs. xs ++ take n piece.now) (K.written sink.old)) }
    ensures none { IfNone result (K.written sink.new ≡ option_map (λ xs. xs ++ []) (K.written sink.old)) }
    ensures fault { IfNone result (Rose (K.faults sink.old) (K.faults sink.new)) }
    ensures stays { K.faults sink.old ≤ K.faults sink.new }
{
    match sink.write(piece) {
        Ok(0) => None,
        Ok(len) => Some(len),
        Err(_) => None,
    }
}
