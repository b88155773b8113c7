//! The bytes that came and wait to be read.
use crate::say::{Line, Row, read, shared};
use bytes::Bytes;
use qh_buffers::{Assembler, Chunk};
use row_text::Words;
use std::alloc::Global;
use std::mem;

// Bytes in these rows end before this offset.
const END: u64 = 1 << 32;

// What is done to pieces.
#[derive(Clone, Copy)]
enum Call {
    New,
    Insert,
    Many,
    Clear,
    Ordered,
    Pieces,
}

const CALLS: [(&str, Call, u8); 6] = [
    ("new", Call::New, 0),
    ("insert", Call::Insert, 0),
    ("many", Call::Many, 2),
    ("clear", Call::Clear, 0),
    ("ordered", Call::Ordered, 1),
    ("pieces", Call::Pieces, 1),
];

/// The pieces of a stream that came.
#[derive(Drop)]
pub(crate) struct Pieces {
    assembler: Assembler,
}

impl Pieces {
    pub(crate) fn new(alloc: Global) -> Pieces {
        Pieces {
            assembler: Assembler::new(alloc),
        }
    }

    /// Answers a row of `assembler`.
    pub(crate) fn answer(&mut self, alloc: Global, words: &mut Words<'_>, out: &mut Line) {
        let Some(row) = read(&CALLS, words) else {
            return out.refuse();
        };
        match row.call {
            Call::New => drop(mem::replace(self, Pieces::new(alloc))),
            Call::Insert => self.insert_all(alloc, words, out),
            Call::Many => self.insert_many(alloc, row, words, out),
            Call::Clear => self.assembler.clear(),
            Call::Ordered => return self.read_all(row.first, true, out),
            Call::Pieces => return self.read_all(row.first, false, out),
        }
        let numbers = [self.assembler.read_to(), self.assembler.bytes_read()];
        out.put_form("read to #, bytes read #", &numbers);
    }

    // OFFSET BYTES, so often: pieces come.
    fn insert_all(&mut self, alloc: Global, words: &mut Words<'_>, out: &mut Line) {
        for _piece in 0..u64::MAX {
            if words.is_at_end() || out.has_fault() {
                break;
            }
            self.insert_next(alloc, words, out);
        }
    }

    fn insert_next(&mut self, alloc: Global, words: &mut Words<'_>, out: &mut Line) {
        let Ok(offset) = words.number() else {
            return out.refuse();
        };
        match shared(alloc, words) {
            Ok(bytes) => self.insert(offset, bytes, out),
            Err(fault) => out.fail(fault),
        }
    }

    // COUNT STEP BYTES: so many pieces of these bytes come, each that much behind the one before it.
    fn insert_many(
        &mut self,
        alloc: Global,
        row: Row<Call>,
        words: &mut Words<'_>,
        out: &mut Line,
    ) {
        match shared(alloc, words) {
            Ok(bytes) => self.repeat(row.first, row.second, &bytes, out),
            Err(fault) => out.fail(fault),
        }
    }

    fn repeat(&mut self, count: u64, step: u64, bytes: &Bytes, out: &mut Line) {
        for place in 0..count {
            match bytes.clone() {
                Ok(bytes) => self.insert(place.saturating_mul(step), bytes, out),
                Err(_) => out.lack(),
            }
        }
    }

    fn insert(&mut self, offset: u64, bytes: Bytes, out: &mut Line) {
        if offset >= END || bytes.len() as u64 >= END {
            return out.refuse();
        }
        out.note(self.assembler.insert(offset, bytes));
    }

    // Reads at most so many bytes at a time until nothing is given.
    fn read_all(&mut self, most: u64, ordered: bool, out: &mut Line) {
        for piece in 0..u64::MAX {
            if !self.tell_next(most as usize, ordered, piece, out) {
                break;
            }
        }
    }

    // Reads once, and appends what is given. Whether something is.
    fn tell_next(&mut self, most: usize, ordered: bool, piece: u64, out: &mut Line) -> bool {
        if most == 0 {
            out.refuse();
            return false;
        }
        match self.assembler.read(most, ordered) {
            Ok(given) => put_given(given, piece, out),
            Err(_) => {
                out.lack();
                false
            }
        }
    }
}

// Appends what a read gave, the first of them if its place is 0. Whether it gave something.
fn put_given(given: Option<Chunk>, place: u64, out: &mut Line) -> bool {
    match given {
        Some(chunk) => {
            put_chunk(place, &chunk, out);
            true
        }
        None => {
            out.put_either(place == 0, "nothing", "");
            false
        }
    }
}

fn put_chunk(place: u64, chunk: &Chunk, out: &mut Line) {
    out.put_either(place == 0, "", ", ");
    out.put_form("# ", &[chunk.offset]);
    out.put_hex(&chunk.bytes);
}
