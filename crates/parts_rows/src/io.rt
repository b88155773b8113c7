//! Sources and sinks in memory.
use crate::say::Line;
use qh_base::{MemSink, MemSource, Memory, Sink, Source};
use row_text::Words;
use std::alloc::Global;

// How many bytes are read and written at once.
const PIECE: usize = 4;

// How often a source is read and a sink written at most.
const CALLS: u8 = 100;

/// A source of these bytes that fails at this call (0: never) is read four bytes at a time, up to its end: `source FAILS BYTES`.
pub(crate) fn answer_source(alloc: Global, fails: u64, words: &mut Words<'_>, out: &mut Line) {
    match words.bytes(alloc) {
        Ok(bytes) => tell_source(alloc, fails, bytes, out),
        Err(fault) => out.fail(fault),
    }
}

fn tell_source(alloc: Global, fails: u64, bytes: Vec<u8>, out: &mut Line) {
    let mut source = MemSource::new(bytes, Some(fails));
    let mut bytes = Vec::new(alloc);
    match read_all(&mut source, &mut bytes) {
        Ok(failed) => put_found(&bytes, failed, out),
        Err(_) => out.lack(),
    }
}

fn put_found(bytes: &[u8], failed: u64, out: &mut Line) {
    out.put_hex(bytes);
    out.put_form(", failed #", &[failed]);
}

// Reads to the end, and counts the calls that failed.
fn read_all<S: Source>(source: &mut S, bytes: &mut Vec<u8>) -> Result<u64, Memory> {
    let mut failed = 0u64;
    let mut buf = [0; PIECE];
    for _call in 0..CALLS {
        match source.read(&mut buf) {
            Ok(0) => break,
            Ok(len) => bytes.extend_from_slice(&buf[..len])?,
            Err(_) => failed = failed.saturating_add(1),
        }
    }
    Ok(failed)
}

/// A sink with room for so many bytes that fails at this call (0: never) is given these bytes, four at a time:
/// `sink ROOM FAILS BYTES`.
pub(crate) fn answer_sink(
    alloc: Global,
    room: u64,
    fails: u64,
    words: &mut Words<'_>,
    out: &mut Line,
) {
    match words.bytes(alloc) {
        Ok(bytes) => tell_sink(alloc, room, fails, &bytes, out),
        Err(fault) => out.fail(fault),
    }
}

fn tell_sink(alloc: Global, room: u64, fails: u64, bytes: &[u8], out: &mut Line) {
    match MemSink::new(alloc, room as usize, Some(fails)) {
        Ok(mut sink) => {
            let failed = write_all(&mut sink, bytes);
            put_found(sink.bytes(), failed, out);
        }
        Err(_) => out.lack(),
    }
}

// Writes all that the sink takes, and counts the calls that failed.
fn write_all<K: Sink>(sink: &mut K, bytes: &[u8]) -> u64 {
    let mut failed = 0u64;
    let mut left = bytes;
    for _call in 0..CALLS {
        match sink.write(&left[..left.len().min(PIECE)]) {
            Ok(0) => break,
            Ok(len) => left = left.get(len..).unwrap_or(&[]),
            Err(_) => failed = failed.saturating_add(1),
        }
    }
    failed
}
