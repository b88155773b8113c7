//! A row and its answer.
use bytes::Bytes;
use qh_base::{Dir, Memory, StreamId, VarInt};
use row_text::{RowFault, Words, put_bytes, put_hex_number, put_number, put_text};
use std::alloc::Global;
use std::net::{IpAddr, SocketAddr};

/// A millisecond, in nanoseconds.
pub(crate) const MILLISECOND: u64 = 1_000_000;

/// The word of each direction.
pub(crate) const DIRS: [(&str, Dir); 2] = [("bi", Dir::Bi), ("uni", Dir::Uni)];

/// What stands beside a word in a table.
pub(crate) fn find<T: Copy>(table: &[(&str, T)], word: &str) -> Option<T> {
    for (known, value) in table {
        if *known == word {
            return Some(*value);
        }
    }
    None
}

/// A row with its answer, and the fault for which there is none. Behind a fault a word is read as any will do, and what is put is lost, so that
/// neither needs an exit.
#[derive(Drop)]
pub(crate) struct Row<'a> {
    pub(crate) alloc: Global,
    words: Words<'a>,
    text: Vec<u8>,
    fault: Option<RowFault>,
}

impl<'a> Row<'a> {
    /// A row without an answer so far.
    pub(crate) fn new(alloc: Global, row: &'a str) -> Row<'a> {
        Row {
            alloc,
            words: Words::new(row),
            text: Vec::new(alloc),
            fault: None,
        }
    }

    /// Appends the answer, if there is one.
    pub(crate) fn end(&self, out: &mut Vec<u8>) -> Result<(), RowFault> {
        match self.fault {
            Some(fault) => Err(fault),
            None if self.words.is_at_end() => Ok(out.extend_from_slice(&self.text)?),
            None => Err(RowFault::Form),
        }
    }

    /// There is no answer, for this fault or an earlier one.
    pub(crate) fn fail(&mut self, fault: RowFault) {
        if self.fault.is_none() {
            self.fault = Some(fault);
        }
    }

    /// There is no answer if memory was wanting.
    pub(crate) fn note(&mut self, done: Result<(), Memory>) {
        if done.is_err() {
            self.fail(RowFault::Memory);
        }
    }

    /// A value; without one there is no answer, for want of memory.
    pub(crate) fn took<T: Drop>(&mut self, value: Result<T, Memory>) -> Option<T> {
        match value {
            Ok(value) => Some(value),
            Err(Memory) => {
                self.fail(RowFault::Memory);
                None
            }
        }
    }
}

// Its words.
impl<'a> Row<'a> {
    /// Whether no word is left.
    pub(crate) fn is_at_end(&self) -> bool {
        self.words.is_at_end()
    }

    /// The next word; an empty one if none is left.
    pub(crate) fn word(&mut self) -> &'a str {
        self.words.next()
    }

    /// What stands in a table beside the next word.
    pub(crate) fn find<T: Copy>(&mut self, table: &[(&str, T)]) -> Option<T> {
        let found = find(table, self.words.next());
        if found.is_none() {
            self.fail(RowFault::Form);
        }
        found
    }

    /// The next word as a number.
    pub(crate) fn number(&mut self) -> u64 {
        match self.words.number() {
            Ok(number) => number,
            Err(fault) => {
                self.fail(fault);
                0
            }
        }
    }

    /// The next word as a number, or this one where nothing is said.
    pub(crate) fn number_or(&mut self, usual: u64) -> u64 {
        if self.is_at_end() {
            usual
        } else {
            self.number()
        }
    }

    /// The next word as a number below 2^62.
    pub(crate) fn varint(&mut self) -> VarInt {
        match VarInt::from_u64(self.number()) {
            Some(number) => number,
            None => {
                self.fail(RowFault::Form);
                VarInt::from_u32(0)
            }
        }
    }

    /// The next word as a number that may be below 0.
    pub(crate) fn signed(&mut self) -> i32 {
        match self.words.next().parse::<i32>() {
            Ok(number) => number,
            Err(_) => {
                self.fail(RowFault::Form);
                0
            }
        }
    }

    /// The next word as the id of a stream.
    pub(crate) fn stream(&mut self) -> StreamId {
        StreamId(self.number())
    }

    /// The next word as bytes.
    pub(crate) fn bytes(&mut self) -> Vec<u8> {
        match self.words.bytes(self.alloc) {
            Ok(bytes) => bytes,
            Err(fault) => {
                self.fail(fault);
                Vec::new(self.alloc)
            }
        }
    }

    /// These bytes, to be handed on.
    pub(crate) fn owned(&mut self, bytes: Vec<u8>) -> Bytes {
        match Bytes::from_vec(bytes) {
            Ok(bytes) => bytes,
            Err(_) => {
                self.fail(RowFault::Memory);
                Bytes::new()
            }
        }
    }

    /// The next word as bytes, to be handed on.
    pub(crate) fn payload(&mut self) -> Bytes {
        let bytes = self.bytes();
        self.owned(bytes)
    }

    /// All that is left as bytes, each word to be handed on.
    pub(crate) fn payloads(&mut self) -> Vec<Bytes> {
        let mut payloads = Vec::new(self.alloc);
        for _word in 0..u64::MAX {
            if self.is_at_end() {
                break;
            }
            let payload = self.payload();
            if payloads.push(payload).is_err() {
                self.fail(RowFault::Memory);
            }
        }
        payloads
    }

    /// A buffer of as many bytes as the next word says, each 0.
    pub(crate) fn buffer(&mut self) -> Vec<u8> {
        let mut buffer = Vec::new(self.alloc);
        let length = self.number();
        for _byte in 0..length.min(1 << 20) {
            if buffer.push(0).is_err() {
                self.fail(RowFault::Memory);
                break;
            }
        }
        buffer
    }
}

// Its answer.
impl Row<'_> {
    /// Whether nothing was put.
    pub(crate) fn is_empty(&self) -> bool {
        self.text.is_empty()
    }

    /// Appends a text.
    pub(crate) fn put(&mut self, text: &str) {
        let done = put_text(&mut self.text, text);
        self.note(done);
    }

    /// Appends a comma, if anything was put before.
    pub(crate) fn put_comma(&mut self) {
        if !self.is_empty() {
            self.put(", ");
        }
    }

    /// Appends a text, and bytes in hexadecimal behind it.
    pub(crate) fn put_part(&mut self, text: &str, bytes: &[u8]) {
        self.put(text);
        let done = put_bytes(&mut self.text, bytes);
        self.note(done);
    }

    /// Appends a text, and a number in decimal behind it.
    pub(crate) fn put_count(&mut self, text: &str, number: u64) {
        self.put(text);
        let done = put_number(&mut self.text, number);
        self.note(done);
    }

    /// Appends a number that may be below 0.
    pub(crate) fn put_signed(&mut self, number: i32) {
        let sign = if number < 0 { "-" } else { "" };
        self.put_count(sign, u64::from(number.unsigned_abs()));
    }

    /// Appends a text, and two numbers in decimal behind it.
    pub(crate) fn put_counts(&mut self, text: &str, first: u64, second: u64) {
        self.put_count(text, first);
        self.put_count(" ", second);
    }

    /// Appends a text, and a number in hexadecimal behind it.
    pub(crate) fn put_code(&mut self, text: &str, number: u64) {
        self.put(text);
        let done = put_hex_number(&mut self.text, number);
        self.note(done);
    }

    /// Appends a text, and a code behind it, or `none`.
    pub(crate) fn put_code_or_none(&mut self, text: &str, code: Option<VarInt>) {
        self.put(text);
        match code {
            Some(code) => self.put_count("", code.into_inner()),
            None => self.put("none"),
        }
    }

    /// Appends the word of a direction behind a text.
    pub(crate) fn put_dir(&mut self, text: &str, dir: Dir) {
        self.put(text);
        self.put(match dir {
            Dir::Bi => "bi",
            Dir::Uni => "uni",
        });
    }

    /// Appends an IP address: four numbers, or the bytes of a longer one.
    pub(crate) fn put_ip(&mut self, ip: IpAddr) {
        match ip {
            IpAddr::V4(ip) => {
                let [a, b, c, d] = ip.octets();
                self.put_count("", u64::from(a));
                self.put_count(".", u64::from(b));
                self.put_count(".", u64::from(c));
                self.put_count(".", u64::from(d));
            }
            IpAddr::V6(ip) => self.put_part("", &ip.octets()),
        }
    }

    /// Appends an address.
    pub(crate) fn put_address(&mut self, address: SocketAddr) {
        self.put_ip(address.ip());
        self.put_count(":", u64::from(address.port()));
    }
}
