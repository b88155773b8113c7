//! A script of the table, and how it is run.
use crate::outcome::{put_datagrams, put_outcome, put_written};
use qh_base::{MemSink, MemSource};
use qh_exchange::{Bench, Echo, ScriptLink};
use row_text::{RowFault, Words};
use std::alloc::Global;

// How many bytes a run may write where nothing is said.
const ROOM: usize = 1_000_000;

/// What is run: the program's words, what it reads, and what fails.
#[derive(Drop)]
pub(crate) struct Row {
    // The words and the name, as they stand in the table. None before the first script.
    name: Option<String>,
    script: Vec<u8>,
    read_fails: Option<u64>,
    write_fails: Option<u64>,
    room: usize,
    // How many of the datagrams that were sent are told.
    datagrams: u64,
}

impl Row {
    /// Nothing that is run.
    pub(crate) fn new(alloc: Global) -> Row {
        Row {
            name: None,
            script: Vec::new(alloc),
            read_fails: None,
            write_fails: None,
            room: ROOM,
            datagrams: 0,
        }
    }

    /// An empty script of this name.
    pub(crate) fn named(alloc: Global, name: &[u8]) -> Result<Row, RowFault> {
        let name = text_of(alloc, name)?;
        let mut row = Row::new(alloc);
        row.name = Some(name);
        Ok(row)
    }

    /// Takes a line of the table: a line of the script, or behind a backslash one that says more.
    pub(crate) fn take_line(&mut self, alloc: Global, line: &[u8]) -> Result<(), RowFault> {
        if self.name.is_none() {
            return Ok(());
        }
        if let [b'\\', more @ ..] = line {
            let more = text_of(alloc, more)?;
            return self.obey(alloc, &mut Words::new(more.as_str()));
        }
        self.script.extend_from_slice(line)?;
        self.script.push(b'\n')?;
        Ok(())
    }

    // Does what the words behind a backslash say.
    fn obey(&mut self, alloc: Global, words: &mut Words<'_>) -> Result<(), RowFault> {
        match words.next() {
            "lines" => self.repeat(words, "\n")?,
            "text" => self.repeat(words, "")?,
            "bytes" => self.script.extend_from_slice(&words.bytes(alloc)?)?,
            "cut" => {
                let _newline = self.script.pop();
            }
            "fail-read" => self.read_fails = Some(words.number()?),
            "fail-write" => self.write_fails = Some(words.number()?),
            "room" => self.room = words.number()? as usize,
            "datagrams" => self.datagrams = words.number()?,
            _ => return Err(RowFault::Form),
        }
        Ok(())
    }

    // Appends a text so many times, each time with this behind it.
    fn repeat(&mut self, words: &mut Words<'_>, end: &str) -> Result<(), RowFault> {
        let count = words.number()?;
        let text = words.rest();
        for _ in 0..count {
            self.script.extend_from_slice(text.as_bytes())?;
            self.script.extend_from_slice(end.as_bytes())?;
        }
        Ok(())
    }

    /// Runs the script and appends how it ends, where there is one.
    pub(crate) fn answer(&self, alloc: Global, out: &mut Vec<u8>) -> Result<(), RowFault> {
        let Some(name) = &self.name else {
            return Ok(());
        };
        let Some((words, _name)) = name.as_str().split_once(':') else {
            return Err(RowFault::Form);
        };
        out.extend_from_slice(b"= ")?;
        out.extend_from_slice(name.as_bytes())?;
        let words = list_of(alloc, words)?;
        self.run(alloc, &words, out)
    }

    fn run(&self, alloc: Global, words: &[String], out: &mut Vec<u8>) -> Result<(), RowFault> {
        let mut source = MemSource::new(self.script.to_vec(alloc)?, self.read_fails);
        let mut sink = MemSink::new(alloc, self.room, self.write_fails)?;
        let (status, bench) = started(alloc, words, &mut source, &mut sink);
        put_outcome(out, status, &bench)?;
        put_datagrams(out, bench.link.events(), self.datagrams)?;
        put_written(out, sink.bytes())?;
        Ok(())
    }
}

// The status of a run, and the bench that it leaves.
fn started(
    alloc: Global,
    words: &[String],
    source: &mut MemSource,
    sink: &mut MemSink,
) -> (u8, Bench<Echo, ScriptLink>) {
    let mut bench = Bench {
        service: Echo::new(alloc),
        link: ScriptLink::new(alloc, 10),
    };
    let status = qh_exchange::run(alloc, words, source, sink, &mut bench);
    (status, bench)
}

// The text that these bytes are.
fn text_of(alloc: Global, bytes: &[u8]) -> Result<String, RowFault> {
    String::from_utf8(bytes.to_vec(alloc)?).map_err(|_| RowFault::Form)
}

// The words of a text, each a string of its own.
fn list_of(alloc: Global, text: &str) -> Result<Vec<String>, RowFault> {
    let mut words = Words::new(text);
    let mut list = Vec::new(alloc);
    for _word in 0..text.len() {
        if words.is_at_end() {
            break;
        }
        list.push(String::from_str(alloc, words.next())?)?;
    }
    Ok(list)
}
