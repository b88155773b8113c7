//! Field sections, encoded and decoded.
use crate::say::{Answer, put, put_content, put_field, put_hex, put_named};
use qh_base::Memory;
use qh_qpack::{Decoded, DecoderError, HeaderField, Octets, decode_stateless, encode_stateless};
use row_text::{RowFault, Words, put_number, put_text};
use std::alloc::Global;

/// Answers a row. Whether its word is known.
pub(crate) fn answer(
    alloc: Global,
    word: &str,
    words: &mut Words<'_>,
    out: &mut Vec<u8>,
) -> Result<bool, RowFault> {
    match word {
        "encode" => encode(alloc, out, Vec::new(alloc), words)?,
        "append" => encode(alloc, out, words.bytes(alloc)?, words)?,
        "decode" => decode(alloc, out, words)?,
        "decode-sizes" => decode_sizes(alloc, out, words)?,
        "octets" => octets(alloc, out, words)?,
        "section-error" => tell_error(alloc, out, words)?,
        "bulk" => bulk(alloc, out, words)?,
        _ => return Ok(false),
    }
    Ok(true)
}

/// The fields that the words tell, up to the last word.
pub(crate) fn fields(alloc: Global, words: &mut Words<'_>) -> Result<Vec<HeaderField>, RowFault> {
    let mut fields = Vec::new(alloc);
    for _field in 0..u64::MAX {
        if words.is_at_end() {
            break;
        }
        push(alloc, &mut fields, words.next(), words)?;
    }
    Ok(fields)
}

/// Appends the field whose name is this word, or so many fields where it is `numbered`.
pub(crate) fn push(
    alloc: Global,
    fields: &mut Vec<HeaderField>,
    name: &str,
    words: &mut Words<'_>,
) -> Answer {
    if name == "numbered" {
        let count = words.number()?;
        let name = words.bytes(alloc)?;
        return push_numbered(alloc, fields, count, &name, &words.bytes(alloc)?);
    }
    let name = Words::new(name).bytes(alloc)?;
    fields.push(HeaderField::new(Octets::new(name), Octets::new(words.bytes(alloc)?)))?;
    Ok(())
}

// Appends so many fields of this value, whose names are this one with numbers from 0 on behind it.
fn push_numbered(
    alloc: Global,
    fields: &mut Vec<HeaderField>,
    count: u64,
    name: &[u8],
    value: &[u8],
) -> Answer {
    for number in 0..count {
        let mut numbered = name.to_vec(alloc)?;
        put_number(&mut numbered, number)?;
        let value = Octets::copied_from(alloc, value)?;
        fields.push(HeaderField::new(Octets::new(numbered), value))?;
    }
    Ok(())
}

/// Appends the section of the fields to the bytes. Its size.
pub(crate) fn encoded(bytes: &mut Vec<u8>, fields: &[HeaderField]) -> Result<u64, Memory> {
    encode_stateless(bytes, fields)
}

/// The section that the bytes are.
pub(crate) fn decoded(alloc: Global, bytes: &[u8], limit: u64) -> Result<Decoded, DecoderError> {
    decode_stateless(alloc, bytes, limit)
}

fn encode(alloc: Global, out: &mut Vec<u8>, before: Vec<u8>, words: &mut Words<'_>) -> Answer {
    let mut bytes = before;
    let fields = fields(alloc, words)?;
    put_named(out, "size", encoded(&mut bytes, &fields)?)?;
    put(out, " ")?;
    put_hex(out, &bytes)
}

fn decode(alloc: Global, out: &mut Vec<u8>, words: &mut Words<'_>) -> Answer {
    let bytes = words.bytes(alloc)?;
    let limit = if words.is_at_end() {
        u64::MAX
    } else {
        words.number()?
    };
    match decoded(alloc, &bytes, limit) {
        Ok(section) => {
            put_named(out, "size", section.mem_size)?;
            put_fields(out, &section.fields)
        }
        Err(error) => put_error(out, error),
    }
}

/// Appends fields.
pub(crate) fn put_fields(out: &mut Vec<u8>, fields: &[HeaderField]) -> Answer {
    for field in fields {
        put_field(out, field.name.as_slice(), field.value.as_slice())?;
    }
    Ok(())
}

/// Appends an error's name, or says that there was no memory.
fn put_error(out: &mut Vec<u8>, error: DecoderError) -> Answer {
    match error {
        DecoderError::HeaderTooLong(size) => put_named(out, "HeaderTooLong", size),
        DecoderError::Malformed => put(out, "Malformed"),
        DecoderError::Huffman => put(out, "Huffman"),
        DecoderError::Dynamic => put(out, "Dynamic"),
        DecoderError::Memory => Err(RowFault::Memory),
    }
}

// Tells the text that shows an error.
fn tell_error(alloc: Global, out: &mut Vec<u8>, words: &mut Words<'_>) -> Answer {
    let error = match words.next() {
        "HeaderTooLong" => DecoderError::HeaderTooLong(words.number()?),
        "Malformed" => DecoderError::Malformed,
        "Huffman" => DecoderError::Huffman,
        "Dynamic" => DecoderError::Dynamic,
        "Memory" => DecoderError::Memory,
        _ => return Err(RowFault::Form),
    };
    put_text(out, format!(in alloc; "{error}")?.as_str())?;
    Ok(())
}

// Encodes the fields and decodes the section, and tells sizes alone.
fn decode_sizes(alloc: Global, out: &mut Vec<u8>, words: &mut Words<'_>) -> Answer {
    let mut bytes = Vec::new(alloc);
    let fields = fields(alloc, words)?;
    put_named(out, "size", encoded(&mut bytes, &fields)?)?;
    put_named(out, " bytes", bytes.len() as u64)?;
    match decoded(alloc, &bytes, u64::MAX) {
        Ok(section) => put_named(out, " fields", section.fields.len() as u64),
        Err(error) => put_error(out, error),
    }
}

// Tells of two lists of bytes what their methods say.
fn octets(alloc: Global, out: &mut Vec<u8>, words: &mut Words<'_>) -> Answer {
    let left = Octets::new(words.bytes(alloc)?);
    let right = Octets::new(words.bytes(alloc)?);
    compare(out, &left, &right)?;
    copy(out, &left)
}

fn compare(out: &mut Vec<u8>, left: &Octets, right: &Octets) -> Answer {
    put(out, if left == right { "equal" } else { "unlike" })?;
    put_named(out, " lengths", left.len() as u64)?;
    put_named(out, "", right.len() as u64)?;
    put(out, if right.is_empty() { " empty, " } else { ", " })
}

fn copy(out: &mut Vec<u8>, octets: &Octets) -> Answer {
    let copy = octets.try_clone()?;
    put(
        out,
        if *octets == copy {
            "copied "
        } else {
            "changed "
        },
    )?;
    put_content(out, &copy.into_vec())
}

const BULK: [(&str, &str); 8] = [
    (":method", "POST"),
    (":scheme", "https"),
    (":authority", "shop.test"),
    (":path", "/cart?id=7"),
    ("user-agent", "Mozilla/5.0"),
    ("accept", "*/*"),
    ("content-type", "application/json"),
    ("cookie", "a=1; b=2"),
];

// Encodes and decodes one section many times, and tells how many bytes and fields there were in all.
fn bulk(alloc: Global, out: &mut Vec<u8>, words: &mut Words<'_>) -> Answer {
    if words.next() != "sections" {
        return Err(RowFault::Form);
    }
    let times = words.number()?;
    let mut fields = Vec::new(alloc);
    for (name, value) in &BULK {
        let value = Octets::copied_from(alloc, value.as_bytes())?;
        fields.push(HeaderField::new(Octets::copied_from(alloc, name.as_bytes())?, value))?;
    }
    let mut section = Vec::new(alloc);
    encoded(&mut section, &fields)?;
    put_named(out, "length", section.len() as u64)?;
    put_named(out, " bytes", encode_often(alloc, &fields, times)?)?;
    put_named(out, " fields", decode_often(alloc, &section, times))
}

fn encode_often(alloc: Global, fields: &[HeaderField], times: u64) -> Result<u64, Memory> {
    let mut section = Vec::new(alloc);
    let mut total = 0u64;
    for _time in 0..times {
        section.clear();
        encoded(&mut section, fields)?;
        total = total.saturating_add(section.len() as u64);
    }
    Ok(total)
}

fn decode_often(alloc: Global, section: &[u8], times: u64) -> u64 {
    let mut total = 0u64;
    for _time in 0..times {
        if let Ok(section) = decoded(alloc, section, u64::MAX) {
            total = total.saturating_add(section.fields.len() as u64);
        }
    }
    total
}
