//! A row and its answer, and what rows have in common.
use bytes::Bytes;
use qh_base::{ConnectionId, Dir, Memory, Side, VarInt};
use row_text::{RowFault, Words, put_bytes, put_hex_number, put_number, put_text};
use std::alloc::Global;
use std::net::{IpAddr, Ipv4Addr, SocketAddr};

/// A millisecond, in nanoseconds.
pub(crate) const MILLISECOND: u64 = 1_000_000;

/// The server name that clients ask for.
pub(crate) const NAME: &[u8] = b"example";

// The port of each end.
const PORT: u16 = 443;

/// The word of each side.
pub(crate) const SIDES: [(&str, Side); 2] = [("client", Side::Client), ("server", Side::Server)];

/// The word of each direction.
pub(crate) const DIRS: [(&str, Dir); 2] = [("bi", Dir::Bi), ("uni", Dir::Uni)];

/// What stands beside a word in a table.
pub(crate) fn find<T: Copy>(table: &[(&str, T)], word: &str) -> Option<T> {
    for (known, value) in table {
        if *known == word {
            return Some(*value);
        }
    }
    None
}

/// The address of an end.
pub(crate) fn address_of(side: Side) -> SocketAddr {
    let last = match side {
        Side::Client => 1,
        Side::Server => 2,
    };
    SocketAddr::new(IpAddr::V4(Ipv4Addr::new(10, 0, 0, last)), PORT)
}

/// A row with its answer, and the fault for which there is none. Behind a fault a word is read as any will do, and what is put is lost, so that
/// neither needs an exit.
#[derive(Drop)]
pub(crate) struct Row<'a> {
    pub(crate) alloc: Global,
    words: Words<'a>,
    text: Vec<u8>,
    fault: Option<RowFault>,
}

impl<'a> Row<'a> {
    /// A row without an answer so far.
    pub(crate) fn new(alloc: Global, row: &'a str) -> Row<'a> {
        Row {
            alloc,
            words: Words::new(row),
            text: Vec::new(alloc),
            fault: None,
        }
    }

    /// Appends the answer, if there is one.
    pub(crate) fn end(&self, out: &mut Vec<u8>) -> Result<(), RowFault> {
        match self.fault {
            Some(fault) => Err(fault),
            None if self.words.is_at_end() => Ok(out.extend_from_slice(&self.text)?),
            None => Err(RowFault::Form),
        }
    }

    /// There is no answer, for this fault or an earlier one.
    pub(crate) fn fail(&mut self, fault: RowFault) {
        if self.fault.is_none() {
            self.fault = Some(fault);
        }
    }

    /// There is no answer if another row has none.
    pub(crate) fn fail_as(&mut self, other: &Row<'_>) {
        if let Some(fault) = other.fault {
            self.fail(fault);
        }
    }

    /// There is no answer if memory was wanting.
    pub(crate) fn note(&mut self, done: Result<(), Memory>) {
        if done.is_err() {
            self.fail(RowFault::Memory);
        }
    }
}

// Its words.
impl<'a> Row<'a> {
    /// Whether no word is left.
    pub(crate) fn is_at_end(&self) -> bool {
        self.words.is_at_end()
    }

    /// The next word; an empty one if none is left.
    pub(crate) fn word(&mut self) -> &'a str {
        self.words.next()
    }

    /// What stands in a table beside the next word.
    pub(crate) fn find<T: Copy>(&mut self, table: &[(&str, T)]) -> Option<T> {
        let found = find(table, self.words.next());
        if found.is_none() {
            self.fail(RowFault::Form);
        }
        found
    }

    /// The next word as a number.
    pub(crate) fn number(&mut self) -> u64 {
        match self.words.number() {
            Ok(number) => number,
            Err(fault) => {
                self.fail(fault);
                0
            }
        }
    }

    /// The next word as a number below 2^62.
    pub(crate) fn varint(&mut self) -> VarInt {
        match VarInt::from_u64(self.number()) {
            Some(number) => number,
            None => {
                self.fail(RowFault::Form);
                VarInt::from_u32(0)
            }
        }
    }

    /// The next word as bytes.
    pub(crate) fn bytes(&mut self) -> Vec<u8> {
        match self.words.bytes(self.alloc) {
            Ok(bytes) => bytes,
            Err(fault) => {
                self.fail(fault);
                Vec::new(self.alloc)
            }
        }
    }

    /// These bytes, to be handed on.
    pub(crate) fn owned(&mut self, bytes: Vec<u8>) -> Bytes {
        match Bytes::from_vec(bytes) {
            Ok(bytes) => bytes,
            Err(_) => {
                self.fail(RowFault::Memory);
                Bytes::new()
            }
        }
    }

    /// A copy of a datagram.
    pub(crate) fn copy(&mut self, datagram: &Bytes) -> Bytes {
        match datagram.clone() {
            Ok(copy) => copy,
            Err(_) => {
                self.fail(RowFault::Memory);
                Bytes::new()
            }
        }
    }

    /// The next word as bytes, to be handed on.
    pub(crate) fn payload(&mut self) -> Bytes {
        let bytes = self.bytes();
        self.owned(bytes)
    }

    /// The next word as a connection id.
    pub(crate) fn id(&mut self) -> ConnectionId {
        match ConnectionId::new(&self.bytes()) {
            Some(id) => id,
            None => {
                self.fail(RowFault::Form);
                ConnectionId::new(&[]).unwrap()
            }
        }
    }

    /// The next word as an address: that of an end, by its side, or one that is written out.
    pub(crate) fn address(&mut self) -> SocketAddr {
        let word = self.words.next();
        if let Some(side) = find(&SIDES, word) {
            return address_of(side);
        }
        match word.parse::<SocketAddr>() {
            Ok(address) => address,
            Err(_) => {
                self.fail(RowFault::Form);
                address_of(Side::Client)
            }
        }
    }

    /// The same, or the address of an end where nothing is said.
    pub(crate) fn address_or(&mut self, side: Side) -> SocketAddr {
        if self.is_at_end() {
            address_of(side)
        } else {
            self.address()
        }
    }

    /// The next word as an address of which the IP address counts.
    pub(crate) fn ip(&mut self) -> IpAddr {
        let word = self.words.next();
        if let Some(side) = find(&SIDES, word) {
            return address_of(side).ip();
        }
        match word.parse::<IpAddr>() {
            Ok(ip) => ip,
            Err(_) => {
                self.fail(RowFault::Form);
                address_of(Side::Client).ip()
            }
        }
    }
}

// Its answer.
impl Row<'_> {
    /// Whether this was put, and nothing else.
    pub(crate) fn is(&self, text: &str) -> bool {
        self.text.as_slice() == text.as_bytes()
    }

    /// Appends a text.
    pub(crate) fn put(&mut self, text: &str) {
        let done = put_text(&mut self.text, text);
        self.note(done);
    }

    /// Appends a comma, if anything was put before.
    pub(crate) fn put_comma(&mut self) {
        if !self.is("") {
            self.put(", ");
        }
    }

    /// Appends a text, and bytes in hexadecimal behind it.
    pub(crate) fn put_part(&mut self, text: &str, bytes: &[u8]) {
        self.put(text);
        let done = put_bytes(&mut self.text, bytes);
        self.note(done);
    }

    /// Appends a text, and a number in decimal behind it.
    pub(crate) fn put_count(&mut self, text: &str, number: u64) {
        self.put(text);
        let done = put_number(&mut self.text, number);
        self.note(done);
    }

    /// Appends a text, and two numbers in decimal behind it.
    pub(crate) fn put_counts(&mut self, text: &str, first: u64, second: u64) {
        self.put_count(text, first);
        self.put_count(" ", second);
    }

    /// Appends a text, and a number in hexadecimal behind it.
    pub(crate) fn put_code(&mut self, text: &str, number: u64) {
        self.put(text);
        let done = put_hex_number(&mut self.text, number);
        self.note(done);
    }

    /// Appends a text, and the word of a direction behind it.
    pub(crate) fn put_dir(&mut self, text: &str, dir: Dir) {
        self.put(text);
        self.put(match dir {
            Dir::Bi => "bi",
            Dir::Uni => "uni",
        });
    }

    /// Appends a text, and an IP address behind it: four numbers, or the bytes of a longer one.
    pub(crate) fn put_ip(&mut self, text: &str, ip: IpAddr) {
        match ip {
            IpAddr::V4(ip) => {
                let [a, b, c, d] = ip.octets();
                self.put_count(text, u64::from(a));
                self.put_count(".", u64::from(b));
                self.put_count(".", u64::from(c));
                self.put_count(".", u64::from(d));
            }
            IpAddr::V6(ip) => self.put_part(text, &ip.octets()),
        }
    }

    /// Appends a text, and an address behind it.
    pub(crate) fn put_address(&mut self, text: &str, address: SocketAddr) {
        self.put_ip(text, address.ip());
        self.put_count(":", u64::from(address.port()));
    }
}
