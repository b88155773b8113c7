//! The datagrams so far, numbered from 0 as they were made.
use crate::row::Row;
use bytes::Bytes;
use row_text::RowFault;
use std::alloc::Global;

/// All of them.
#[derive(Drop)]
pub(crate) struct Datagrams {
    kept: Vec<Bytes>,
}

impl Datagrams {
    pub(crate) fn new(alloc: Global) -> Datagrams {
        Datagrams {
            kept: Vec::new(alloc),
        }
    }

    pub(crate) fn len(&self) -> usize {
        self.kept.len()
    }

    /// A datagram is the next one.
    pub(crate) fn keep(&mut self, datagram: Bytes, row: &mut Row<'_>) {
        if self.kept.push(datagram).is_err() {
            row.fail(RowFault::Memory);
        }
    }

    /// The same of one that a row made, of which it puts the number and the size.
    pub(crate) fn put_made(&mut self, bytes: Vec<u8>, row: &mut Row<'_>) {
        row.put_count("", self.kept.len() as u64);
        row.put_count(": ", bytes.len() as u64);
        let datagram = row.owned(bytes);
        self.keep(datagram, row);
    }

    /// The same of one that an endpoint answered, if it did, of which it puts the number and the bytes.
    pub(crate) fn put_response(&mut self, bytes: Vec<u8>, row: &mut Row<'_>) {
        if !bytes.is_empty() {
            row.put_count(", ", self.kept.len() as u64);
            row.put_part(": ", &bytes);
            let datagram = row.owned(bytes);
            self.keep(datagram, row);
        }
    }

    /// A copy of one of them.
    pub(crate) fn copy(&self, number: usize, row: &mut Row<'_>) -> Option<Bytes> {
        match self.kept.get(number) {
            Some(datagram) => Some(row.copy(datagram)),
            None => {
                row.fail(RowFault::Form);
                None
            }
        }
    }
}
