ghost use Rattle.std.specs.Prelude.{◌≡◌, ◌==◌, ◌&&◌, ◌||◌, not, ℕ, true, false, None, Some, OnOk, if◌then◌else◌};
ghost use Rattle.qh_quinn.specs.Readers.{HasRoom, code_of, new_reader, reader_in, with_reader};

use qh_base::{Memory, VarInt};
use std::alloc::Global;
use std::collections::HashMap;
use std::marker::Model;

/// What is kept of the receiving half of a stream that a handle holds, beside what the connection has of it.
#[derive(Clone, Copy)]
pub struct Reader {
    /// Whether it is read: its end or its reset wasn't given, and it wasn't stopped.
    pub is_open: bool,
    /// Whether a read out of order was made.
    pub is_unordered: bool,
    /// The code of the peer's reset, once it was told, or the half was stopped behind it.
    pub code: Option<VarInt>,
    /// Whether that code was told.
    pub is_told: bool,
    /// Whether a read gave an error.
    pub gave_error: bool,
}

impl Reader {
    /// Behind a read in order, or out of it, which may be its first.
    pub fn begun(&self, is_ordered: bool) -> Reader
        ensures { result ≡ record self.now { is_unordered = self.now.is_unordered || not is_ordered } }
    {
        Reader {
            is_unordered: self.is_unordered || !is_ordered,
            ..*self
        }
    }

    /// Whether a read is in order after one that wasn't.
    pub fn is_out_of_order(&self, is_ordered: bool) -> bool
        ensures { result ≡ (is_ordered && self.now.is_unordered) }
    {
        is_ordered && self.is_unordered
    }

    /// Behind a read that gave the end.
    pub fn ended(&self) -> Reader
        ensures { result ≡ record self.now { is_open = false } }
    {
        Reader {
            is_open: false,
            ..*self
        }
    }

    /// Behind a read that gave an error, and that may be made again.
    pub fn failed(&self) -> Reader
        ensures { result ≡ record self.now { gave_error = true } }
    {
        Reader {
            gave_error: true,
            ..*self
        }
    }

    /// Behind a read that gave the peer's reset, with this code.
    pub fn reset_by(&self, code: VarInt) -> Reader
        ensures { result ≡ record self.now { is_open = false; code = Some code; is_told = true; gave_error = true } }
    {
        Reader {
            is_open: false,
            code: Some(code),
            is_told: true,
            gave_error: true,
            ..*self
        }
    }

    /// The code, of a connection that want of memory ended or didn't: after such an end only one that was told is known.
    pub fn code(&self, is_emptied: bool) -> Option<VarInt>
        ensures { result ≡ code_of is_emptied self.now }
    {
        if is_emptied && !self.is_told {
            return None;
        }
        self.code
    }
}

/// What is kept of the receiving halves that handles hold, by the ids of their streams.
#[derive(Drop)]
pub struct Readers {
    map: HashMap<u64, Reader>,
}

impl Model for Readers {
    ghost use Rattle.qh_quinn.specs.Readers.{PlainReaders};
    ghost use Rattle.std.specs.HashMap.{spare};

    ghost Value = { PlainReaders };

    ghost view = { λ r. record { entries = r.map.entries; spare = spare r.map } };
}

impl Readers {
    /// No handle holds any.
    pub fn new(alloc: Global) -> Readers
        ensures { (k : ℕ) → reader_in result k ≡ None }
    {
        Readers {
            map: HashMap::new(alloc),
        }
    }

    /// Makes room for one more. For want of memory nothing is changed.
    pub fn reserve(&mut self) -> Result<(), Memory>
        ensures same { (k : ℕ) → reader_in self.new k ≡ reader_in self.old k }
        ensures room { OnOk result (HasRoom self.new) }
    {
        self.map.reserve(1)?;
        Ok(())
    }

    /// What is kept of a stream, if a handle holds it.
    pub fn get(&self, id: u64) -> Option<Reader>
        ensures { result ≡ reader_in self.now id }
    {
        self.map.get(&id).copied()
    }

    /// What is kept of a stream is this from now on, if a handle holds it.
    pub fn put(&mut self, id: u64, reader: Reader)
        ensures { (k : ℕ) → reader_in self.new k ≡ (if k == id then with_reader reader (reader_in self.old k) else reader_in self.old k) }
    {
        if let Some(kept) = self.map.get_mut(&id) {
            *kept = reader;
        }
    }

    /// The handle of a stream is gone.
    pub fn release(&mut self, id: u64)
        ensures { (k : ℕ) → reader_in self.new k ≡ (if k == id then None else reader_in self.old k) }
    {
        let _ = self.map.remove(&id);
    }

    /// A handle holds a stream from its first read on. There is room for it.
    pub fn hold(&mut self, id: u64)
        requires { HasRoom self.old }
        ensures { (k : ℕ) → reader_in self.new k ≡ (if k == id then Some new_reader else reader_in self.old k) }
    {
        let reader = Reader {
            is_open: true,
            is_unordered: false,
            code: None,
            is_told: false,
            gave_error: false,
        };
        let _ = self.map.insert(id, reader);
    }
}
