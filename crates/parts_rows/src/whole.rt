//! The buffer of a stream that is read to its end.
use crate::say::{Line, read, shared};
use bytes::Bytes;
use qh_buffers::Chunk;
use qh_parts::{PushFault, ReadToEndBuffer};
use row_text::Words;
use std::alloc::Global;
use std::mem;

// What is done to a buffer.
#[derive(Clone, Copy)]
enum Call {
    New,
    Push,
    Finish,
}

const CALLS: [(&str, Call, u8); 3] = [
    ("new", Call::New, 1),
    ("push", Call::Push, 1),
    ("finish", Call::Finish, 0),
];

/// A buffer of all that came.
#[derive(Drop)]
pub(crate) struct Whole {
    buffer: ReadToEndBuffer,
}

impl Whole {
    /// A buffer of at most so many bytes.
    pub(crate) fn new(alloc: Global, limit: u64) -> Whole {
        Whole {
            buffer: ReadToEndBuffer::new(alloc, limit as usize),
        }
    }

    /// Answers a row of `whole`.
    pub(crate) fn answer(&mut self, alloc: Global, words: &mut Words<'_>, out: &mut Line) {
        let Some(row) = read(&CALLS, words) else {
            return out.refuse();
        };
        match row.call {
            Call::New => *self = Whole::new(alloc, row.first),
            Call::Push => return self.push_next(alloc, row.first, words, out),
            Call::Finish => return self.finish(alloc, out),
        }
        self.put_chunks(out);
    }

    fn put_chunks(&self, out: &mut Line) {
        out.put_form("chunks #", &[self.buffer.chunks() as u64]);
    }

    fn push_next(&mut self, alloc: Global, offset: u64, words: &mut Words<'_>, out: &mut Line) {
        match shared(alloc, words) {
            Ok(bytes) => self.push(offset, bytes, out),
            Err(fault) => out.fail(fault),
        }
    }

    // A chunk comes.
    fn push(&mut self, offset: u64, bytes: Bytes, out: &mut Line) {
        if offset.checked_add(bytes.len() as u64).is_none() {
            return out.refuse();
        }
        match self.buffer.push(Chunk { offset, bytes }) {
            Ok(()) => self.put_chunks(out),
            Err(PushFault::TooLong) => out.put("too long"),
            Err(PushFault::Memory) => out.lack(),
        }
    }

    fn finish(&mut self, alloc: Global, out: &mut Line) {
        let empty = ReadToEndBuffer::new(alloc, 0);
        match mem::replace(&mut self.buffer, empty).finish() {
            Ok(bytes) => out.put_hex(&bytes),
            Err(_) => out.lack(),
        }
    }
}
