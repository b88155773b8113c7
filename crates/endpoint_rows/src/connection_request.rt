//! A request of the client on a stream, and the server's answer.
use crate::link::Link;
use crate::row::Row;
use qh_base::{Dir, StreamId};
use qh_conn::TakeFault;
use qh_streams::ReadFault;
use row_text::RowFault;
use std::alloc::Global;

const REQUEST: &[u8] = b"request";

const ANSWER: [u8; 6_000] = [b'r'; 6_000];

// The most reads of an end at once.
const MANY: u32 = 10_000;

/// A request and its answer, as far as they were read.
#[derive(Drop)]
pub(crate) struct Request {
    // The stream of each end, once there is one.
    at_client: Option<StreamId>,
    at_server: Option<StreamId>,
    asked: Message,
    answered: Message,
}

// What was read of a message.
#[derive(Drop)]
struct Message {
    bytes: Vec<u8>,
    is_whole: bool,
}

impl Request {
    pub(crate) fn new(alloc: Global) -> Request {
        Request {
            at_client: None,
            at_server: None,
            asked: Message::new(alloc),
            answered: Message::new(alloc),
        }
    }

    /// The client sends its request once it may open a stream, and reads the answer.
    pub(crate) fn ask(&mut self, link: &mut Link, row: &mut Row<'_>) {
        if let Some(id) = self.at_client {
            return self.answered.read(link, id, row);
        }
        self.at_client = link.open(Dir::Bi, row);
        if let Some(id) = self.at_client {
            say(link, id, REQUEST, row);
        }
    }

    /// The server reads the request, and answers once it was read whole.
    pub(crate) fn answer(&mut self, link: &mut Link, row: &mut Row<'_>) {
        let Some(id) = self.at_server else {
            self.at_server = link.accept(Dir::Bi);
            return;
        };
        if self.asked.is_whole {
            return;
        }
        self.asked.read(link, id, row);
        if self.asked.is_whole {
            say(link, id, &ANSWER, row);
        }
    }

    /// Puts what was read of both.
    pub(crate) fn tell(&self, row: &mut Row<'_>) {
        row.put_part(", asked ", &self.asked.bytes);
        row.put_part(", answered ", &self.answered.bytes);
        if !self.asked.is_whole || !self.answered.is_whole {
            row.put(", unfinished");
        }
    }
}

impl Message {
    fn new(alloc: Global) -> Message {
        Message {
            bytes: Vec::new(alloc),
            is_whole: false,
        }
    }

    // Reads what came, unless all was read before.
    fn read(&mut self, link: &mut Link, id: StreamId, row: &mut Row<'_>) {
        for _piece in 0..MANY {
            if self.is_whole {
                break;
            }
            match link.read(id) {
                Ok(Some(chunk)) => self.add(&chunk.bytes, row),
                Ok(None) => self.is_whole = true,
                Err(fault) => {
                    note(&fault, row);
                    break;
                }
            }
        }
    }

    fn add(&mut self, bytes: &[u8], row: &mut Row<'_>) {
        if self.bytes.extend_from_slice(bytes).is_err() {
            row.fail(RowFault::Memory);
        }
    }
}

// Nothing waits, or memory was wanting.
fn note(fault: &TakeFault, row: &mut Row<'_>) {
    if let TakeFault::Read(ReadFault::Memory) = fault {
        row.fail(RowFault::Memory);
    }
}

// Writes a message, and finishes its stream.
fn say(link: &mut Link, id: StreamId, message: &[u8], row: &mut Row<'_>) {
    if link.write(id, message).is_err() || link.finish(id).is_err() {
        row.fail(RowFault::Form);
    }
}
