//! What rows ask, and answers.
use bytes::Bytes;
use qh_base::Memory;
use row_text::{RowFault, Words, put_bytes, put_number, put_text};
use std::alloc::Global;

/// What stands beside a word in a table.
pub(crate) fn find<T: Copy>(table: &[(&str, T)], word: &str) -> Option<T> {
    for (known, value) in table {
        if *known == word {
            return Some(*value);
        }
    }
    None
}

/// What a row asks, and the numbers behind its word.
#[derive(Clone, Copy)]
pub(crate) struct Row<T> {
    pub(crate) call: T,
    pub(crate) first: u64,
    pub(crate) second: u64,
    pub(crate) third: u64,
}

/// What the next word asks, and as many numbers behind it as the table says, at most three. None if the words have another form.
pub(crate) fn read<T: Copy>(table: &[(&str, T, u8)], words: &mut Words<'_>) -> Option<Row<T>> {
    read_at(table, words.next(), words)
}

/// The same where the word was read.
pub(crate) fn read_at<T: Copy>(
    table: &[(&str, T, u8)],
    word: &str,
    words: &mut Words<'_>,
) -> Option<Row<T>> {
    for (known, call, count) in table {
        if *known == word {
            return read_numbers(*call, *count, words);
        }
    }
    None
}

fn read_numbers<T: Copy>(call: T, count: u8, words: &mut Words<'_>) -> Option<Row<T>> {
    let Ok(first) = number_if(count > 0, words) else {
        return None;
    };
    let Ok(second) = number_if(count > 1, words) else {
        return None;
    };
    let Ok(third) = number_if(count > 2, words) else {
        return None;
    };
    Some(Row {
        call,
        first,
        second,
        third,
    })
}

// The next word as a number, where one is wanted.
fn number_if(is_wanted: bool, words: &mut Words<'_>) -> Result<u64, RowFault> {
    if is_wanted { words.number() } else { Ok(0) }
}

/// The next word as bytes that are shared.
pub(crate) fn shared(alloc: Global, words: &mut Words<'_>) -> Result<Bytes, RowFault> {
    Ok(Bytes::from_vec(words.bytes(alloc)?)?)
}

/// The answer to a row, and the fault for which there is none. What is put behind a fault is lost, so that a put needs no exit.
#[derive(Drop)]
pub(crate) struct Line {
    text: Vec<u8>,
    fault: Option<RowFault>,
}

impl Line {
    pub(crate) fn new(alloc: Global) -> Line {
        Line {
            text: Vec::new(alloc),
            fault: None,
        }
    }

    /// Appends the answer, if there is one.
    pub(crate) fn end(&self, out: &mut Vec<u8>) -> Result<(), RowFault> {
        match self.fault {
            Some(fault) => Err(fault),
            None => Ok(out.extend_from_slice(&self.text)?),
        }
    }

    /// Whether there is no answer.
    pub(crate) fn has_fault(&self) -> bool {
        self.fault.is_some()
    }

    /// There is no answer, for this fault or an earlier one.
    pub(crate) fn fail(&mut self, fault: RowFault) {
        if self.fault.is_none() {
            self.fault = Some(fault);
        }
    }

    /// There is no answer, since the row isn't of a form that its word has.
    pub(crate) fn refuse(&mut self) {
        self.fail(RowFault::Form);
    }

    /// There is no answer, for want of memory.
    pub(crate) fn lack(&mut self) {
        self.fail(RowFault::Memory);
    }

    /// There is no answer if memory was wanting.
    pub(crate) fn note(&mut self, done: Result<(), Memory>) {
        if done.is_err() {
            self.lack();
        }
    }

    /// Appends a text.
    pub(crate) fn put(&mut self, text: &str) {
        let done = put_text(&mut self.text, text);
        self.note(done);
    }

    /// Appends bytes in hexadecimal.
    pub(crate) fn put_hex(&mut self, bytes: &[u8]) {
        let done = put_bytes(&mut self.text, bytes);
        self.note(done);
    }

    /// Appends a byte as it is.
    pub(crate) fn put_byte(&mut self, byte: u8) {
        if self.text.push(byte).is_err() {
            self.lack();
        }
    }

    /// Appends a number.
    pub(crate) fn put_number(&mut self, number: u64) {
        let done = put_number(&mut self.text, number);
        self.note(done);
    }

    /// Appends a text in which each `#` stands for the next of these numbers.
    pub(crate) fn put_form(&mut self, form: &str, numbers: &[u64]) {
        let mut left = numbers;
        for byte in form.as_bytes() {
            match left {
                [number, rest @ ..] if *byte == b'#' => {
                    self.put_number(*number);
                    left = rest;
                }
                _ => self.put_byte(*byte),
            }
        }
    }

    /// Appends a number, or `none`, behind a text.
    pub(crate) fn put_some(&mut self, text: &str, number: Option<u64>) {
        self.put(text);
        match number {
            Some(number) => self.put_number(number),
            None => self.put("none"),
        }
    }

    /// Appends the ends of a range, as in `2..4`, behind a text.
    pub(crate) fn put_range(&mut self, text: &str, start: u64, end: u64) {
        self.put(text);
        self.put_form("#..#", &[start, end]);
    }

    /// Appends one text or another.
    pub(crate) fn put_either(&mut self, is_so: bool, yes: &str, no: &str) {
        self.put(if is_so { yes } else { no });
    }

    /// Appends `yes` or `no`.
    pub(crate) fn put_yes(&mut self, is_so: bool) {
        self.put_either(is_so, "yes", "no");
    }
}
