//! Reading all rows of an input, and answering them.
use qh_base::{Memory, Sink, Source};
use std::alloc::{AllocError, AllocFailed, Global};

// How many bytes are read at once.
const PIECE: usize = 4_096;

/// Why a row has no answer.
#[derive(Clone, Copy, Debug, PartialEq, Eq)]
pub enum RowFault {
    /// There was no memory.
    Memory,
    /// The row isn't of a form that its word has.
    Form,
}

impl From<Memory> for RowFault {
    fn from(_: Memory) -> RowFault {
        RowFault::Memory
    }
}

impl From<AllocError> for RowFault {
    fn from(_: AllocError) -> RowFault {
        RowFault::Memory
    }
}

impl<T: Drop> From<AllocFailed<T>> for RowFault {
    fn from(_: AllocFailed<T>) -> RowFault {
        RowFault::Memory
    }
}

/// What answers rows, one after another.
pub trait Table {
    /// Appends the answer to a row, without the end of its line.
    fn answer(&mut self, alloc: Global, row: &str, out: &mut Vec<u8>) -> Result<(), RowFault>;
}

/// Answers each row that a source has, and writes the answers. Gives the exit status: 0 if each row has its answer, 1 if one was
/// faulty, 9 without memory, 10 if the source fails, 11 if the sink does.
pub fn run<S: Source, K: Sink, T: Table>(
    alloc: Global,
    source: &mut S,
    sink: &mut K,
    table: &mut T,
) -> u8 {
    let text = match read_all(alloc, source) {
        Ok(Some(text)) => text,
        Ok(None) => return 10,
        Err(Memory) => return 9,
    };
    let mut out = Vec::new(alloc);
    match answer_rows(alloc, table, &text, &mut out) {
        Ok(are_sound) => match write_all(sink, &out) {
            true => u8::from(!are_sound),
            false => 11,
        },
        Err(Memory) => 9,
    }
}

/// What a source gives up to its end. None if it fails.
pub fn read_all<S: Source>(alloc: Global, source: &mut S) -> Result<Option<Vec<u8>>, Memory> {
    let mut text = Vec::new(alloc);
    let mut buf = [0; PIECE];
    for _piece in 0..u64::MAX {
        match source.read(&mut buf) {
            Ok(0) => return Ok(Some(text)),
            Ok(len) => text.extend_from_slice(&buf[..len])?,
            Err(_) => return Ok(None),
        }
    }
    Ok(Some(text))
}

/// Writes all of a text. Whether the sink took it.
pub fn write_all<K: Sink>(sink: &mut K, text: &[u8]) -> bool {
    let mut left = text;
    for _piece in 0..u64::MAX {
        if left.is_empty() {
            return true;
        }
        match sink.write(left) {
            Ok(len) => left = left.get(len..).unwrap_or(&[]),
            Err(_) => return false,
        }
    }
    false
}

/// Answers each row of a text. Whether no row was faulty.
///
/// A line that begins with `#` is a comment, one that begins with `: ` a heading, which is written as it is; an empty line is nothing. A
/// faulty row is answered by `bad row`, and one for which there is no memory by `memory`.
pub fn answer_rows<T: Table>(
    alloc: Global,
    table: &mut T,
    text: &[u8],
    out: &mut Vec<u8>,
) -> Result<bool, Memory> {
    let mut are_sound = true;
    let mut left = text;
    for _line in 0..=text.len() {
        if left.is_empty() {
            return Ok(are_sound);
        }
        let len = line_length(left);
        let line = left.get(..len).unwrap_or(left);
        left = left.get(len.saturating_add(1)..).unwrap_or(&[]);
        are_sound = answer_line(alloc, table, line, out)? && are_sound;
    }
    Ok(are_sound)
}

// How many bytes come before the end of the first line.
fn line_length(text: &[u8]) -> usize {
    let mut len = 0usize;
    for byte in text {
        if *byte == b'\n' {
            break;
        }
        len = len.saturating_add(1);
    }
    len
}

// Answers one line. Whether it wasn't faulty.
fn answer_line<T: Table>(
    alloc: Global,
    table: &mut T,
    line: &[u8],
    out: &mut Vec<u8>,
) -> Result<bool, Memory> {
    match line {
        [] | [b'#', ..] => Ok(true),
        [b':', b' ', ..] => {
            out.extend_from_slice(line)?;
            out.push(b'\n')?;
            Ok(true)
        }
        _ => answer_row(alloc, table, line, out),
    }
}

// Answers one row, behind which the line ends. Whether it wasn't faulty.
fn answer_row<T: Table>(
    alloc: Global,
    table: &mut T,
    line: &[u8],
    out: &mut Vec<u8>,
) -> Result<bool, Memory> {
    let start = out.len();
    let said = match String::from_utf8(line.to_vec(alloc)?) {
        Ok(row) => table.answer(alloc, row.as_str(), out),
        Err(_) => Err(RowFault::Form),
    };
    if said.is_err() {
        out.truncate(start);
    }
    match said {
        Ok(()) => {}
        Err(RowFault::Form) => out.extend_from_slice(b"bad row")?,
        Err(RowFault::Memory) => out.extend_from_slice(b"memory")?,
    }
    out.push(b'\n')?;
    Ok(said.is_ok())
}
