//! The plain programs that judge messages: which may be asked, and what spells, means or carries them.
use crate::messages::message;
use crate::plain::{Asked, datagrams, read_asked, section_in};
use crate::say::{Answer, put, put_bool, put_named};
use bytes::Bytes;
use qh_plain::meanings::{is_readable, means_fields, means_head};
use qh_plain::messages::{is_whole, spells};
use qh_plain::requests::{fault_index, is_valid_request};
use qh_plain::sections::FieldLine;
use qh_service::Message;
use row_text::{RowFault, Words};
use std::alloc::Global;

/// Answers a row. Whether its word is known.
pub(crate) fn answer(
    alloc: Global,
    word: &str,
    words: &mut Words<'_>,
    out: &mut Vec<u8>,
) -> Result<bool, RowFault> {
    match word {
        "valid" => tell_valid(alloc, out, words)?,
        "fault" => tell_fault(alloc, out, words)?,
        "readable" => tell_readable(alloc, out, words)?,
        "spells" => tell_spelling(alloc, out, words)?,
        "means-head" | "means-fields" => tell_meaning(alloc, out, word, words)?,
        "is-whole" => tell_whole(alloc, out, words)?,
        _ => return Ok(false),
    }
    Ok(true)
}

fn tell_valid(alloc: Global, out: &mut Vec<u8>, words: &mut Words<'_>) -> Answer {
    let section = words.number()?;
    let body = words.number()?;
    let message = message(alloc, words)?;
    let valid = is_valid(section, body, &message);
    drop(message);
    put_bool(out, valid?)
}

fn is_valid(section: u64, body: u64, message: &Message) -> Result<bool, RowFault> {
    Ok(is_valid_request(section, body, message)?)
}

// Tells which of the requests, with `then` between them, is the first at fault.
fn tell_fault(alloc: Global, out: &mut Vec<u8>, words: &mut Words<'_>) -> Answer {
    let most = words.number()?;
    let section = words.number()?;
    let requests = requests(alloc, words)?;
    let fault = first_fault(most, section, &requests);
    drop(requests);
    match fault? {
        Some(index) => put_named(out, "request", index as u64),
        None => put(out, "none"),
    }
}

fn requests(alloc: Global, words: &mut Words<'_>) -> Result<Vec<Message>, RowFault> {
    let mut requests = Vec::new(alloc);
    for _request in 0..u64::MAX {
        if words.is_at_end() {
            break;
        }
        requests.push(message(alloc, words)?)?;
    }
    Ok(requests)
}

fn first_fault(most: u64, section: u64, requests: &[Message]) -> Result<Option<usize>, RowFault> {
    Ok(fault_index(most, section, 0, requests)?)
}

// Tells of each field of a section whether it can be read.
fn tell_readable(alloc: Global, out: &mut Vec<u8>, words: &mut Words<'_>) -> Answer {
    let fields = known_section(alloc, words)?;
    let told = put_readable(alloc, out, &fields);
    drop(fields);
    told
}

fn put_readable(alloc: Global, out: &mut Vec<u8>, fields: &[FieldLine]) -> Answer {
    put(out, "readable:")?;
    for field in fields {
        put(
            out,
            if can_be_read(alloc, field)? {
                " yes"
            } else {
                " no"
            },
        )?;
    }
    Ok(())
}

// The field lines of the section that the next word tells.
fn known_section(alloc: Global, words: &mut Words<'_>) -> Result<Vec<FieldLine>, RowFault> {
    let bytes = words.bytes(alloc)?;
    section_in(alloc, &bytes)?.ok_or(RowFault::Form)
}

fn can_be_read(alloc: Global, field: &FieldLine) -> Result<bool, RowFault> {
    Ok(is_readable(alloc, field)?)
}

// Tells whether bytes spell a message.
fn tell_spelling(alloc: Global, out: &mut Vec<u8>, words: &mut Words<'_>) -> Answer {
    let bytes = words.bytes(alloc)?;
    let message = message(alloc, words)?;
    let spelled = is_spelled(alloc, &bytes, &message);
    drop(message);
    put_bool(out, spelled?)
}

// Tells whether a section means the head of a message, or its fields.
fn tell_meaning(alloc: Global, out: &mut Vec<u8>, word: &str, words: &mut Words<'_>) -> Answer {
    let fields = known_section(alloc, words)?;
    let means = means_message(alloc, word, words, &fields);
    drop(fields);
    put_bool(out, means?)
}

// Whether the fields mean the head of the message that the words tell, or its fields.
fn means_message(
    alloc: Global,
    word: &str,
    words: &mut Words<'_>,
    fields: &[FieldLine],
) -> Result<bool, RowFault> {
    let message = message(alloc, words)?;
    let means = if word == "means-head" {
        has_head(alloc, fields, &message)
    } else {
        has_fields(alloc, fields, &message)
    };
    drop(message);
    means
}

fn is_spelled(alloc: Global, bytes: &[u8], message: &Message) -> Result<bool, RowFault> {
    Ok(spells(alloc, bytes, message)?)
}

fn has_head(alloc: Global, fields: &[FieldLine], message: &Message) -> Result<bool, RowFault> {
    Ok(means_head(alloc, fields, message.head())?)
}

fn has_fields(alloc: Global, fields: &[FieldLine], message: &Message) -> Result<bool, RowFault> {
    Ok(means_fields(alloc, fields, message.fields())?)
}

// Tells whether a message is whole in datagrams, which stand behind `then`.
fn tell_whole(alloc: Global, out: &mut Vec<u8>, words: &mut Words<'_>) -> Answer {
    let asked = read_asked(words)?;
    let message = message(alloc, words)?;
    let whole = is_whole_behind(alloc, asked, &message, words);
    drop(message);
    put_bool(out, whole?)
}

// Whether the message is whole in the datagrams that the words tell.
fn is_whole_behind(
    alloc: Global,
    asked: Asked,
    message: &Message,
    words: &mut Words<'_>,
) -> Result<bool, RowFault> {
    let datagrams = datagrams(alloc, words)?;
    let whole = is_whole_in(alloc, asked, message, &datagrams);
    drop(datagrams);
    whole
}

fn is_whole_in(
    alloc: Global,
    asked: Asked,
    message: &Message,
    list: &[Bytes],
) -> Result<bool, RowFault> {
    Ok(is_whole(
        alloc,
        asked.id_length,
        list,
        asked.sender,
        asked.stream,
        message,
    )?)
}
