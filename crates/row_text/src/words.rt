//! The words of a row.
use crate::RowFault;
use crate::bytes::bytes_of;
use std::alloc::Global;

/// The words of a row, each behind one blank.
#[derive(Drop)]
pub struct Words<'a> {
    rest: &'a str,
}

impl<'a> Words<'a> {
    /// The words of this row.
    pub fn new(row: &'a str) -> Words<'a> {
        Words { rest: row }
    }

    /// Whether no word is left.
    pub fn is_at_end(&self) -> bool {
        self.rest.is_empty()
    }

    /// The next word; an empty one if none is left.
    pub fn next(&mut self) -> &'a str {
        match self.rest.split_once(' ') {
            Some((word, rest)) => {
                self.rest = rest;
                word
            }
            None => self.rest(),
        }
    }

    /// All that is left, blanks and all.
    pub fn rest(&mut self) -> &'a str {
        let rest = self.rest;
        self.rest = "";
        rest
    }

    /// The next word as a number: decimal, or hexadecimal behind `0x`.
    pub fn number(&mut self) -> Result<u64, RowFault> {
        number_of(self.next()).ok_or(RowFault::Form)
    }

    /// The next word as bytes: parts joined by `.`, each hexadecimal, a byte repeated as in `61*1000`, or a text behind `'`; `-`
    /// is no bytes.
    pub fn bytes(&mut self, alloc: Global) -> Result<Vec<u8>, RowFault> {
        bytes_of(alloc, self.next())
    }
}

/// The number that a word spells.
pub(crate) fn number_of(word: &str) -> Option<u64> {
    match word.strip_prefix("0x") {
        Some(digits) => hex_of(digits),
        None => word.parse::<u64>().ok(),
    }
}

// The number of these hexadecimal digits, of which there are 1 to 16.
fn hex_of(digits: &str) -> Option<u64> {
    if digits.is_empty() || digits.len() > 16 {
        return None;
    }
    let mut n = 0u64;
    for byte in digits.as_bytes() {
        n = n.wrapping_mul(16).wrapping_add(u64::from(digit_of(*byte)?));
    }
    Some(n)
}

/// The value of a hexadecimal digit.
pub(crate) fn digit_of(byte: u8) -> Option<u8> {
    match byte {
        b'0'..=b'9' => Some(byte - b'0'),
        b'a'..=b'f' => Some(byte - b'a' + 10),
        _ => None,
    }
}
