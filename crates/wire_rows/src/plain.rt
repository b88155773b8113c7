//! The plain programs: frames, parts, sections and packets of bytes, and what datagrams carry.
use crate::packets::flip;
use crate::say::{
    Answer, mask, put, put_bool, put_content, put_field, put_named, shared, side, side_name,
};
use bytes::Bytes;
use qh_base::{Side, Space};
use qh_plain::carried::{CarriedStream, carried};
use qh_plain::frames::{HttpFrame, MessageParts, frames, message_parts};
use qh_plain::messages::whole_stream;
use qh_plain::packets::{FieldValue, Frame, Packet, packets};
use qh_plain::sections::{FieldLine, section};
use row_text::{RowFault, Words, put_hex_number, put_number};
use std::alloc::Global;

/// Answers a row. Whether its word is known.
pub(crate) fn answer(
    alloc: Global,
    word: &str,
    words: &mut Words<'_>,
    out: &mut Vec<u8>,
) -> Result<bool, RowFault> {
    match word {
        "plain-frames" | "plain-parts" | "plain-section" => tell_bytes(alloc, out, word, words)?,
        "plain-packets" => tell_packets(alloc, out, words)?,
        "plain-changed" => tell_changed(alloc, out, words)?,
        "carried" => tell_carried(alloc, out, words)?,
        "whole-stream" => tell_whole(alloc, out, words)?,
        _ => return Ok(false),
    }
    Ok(true)
}

// Tells what this word says of bytes.
fn tell_bytes(alloc: Global, out: &mut Vec<u8>, word: &str, words: &mut Words<'_>) -> Answer {
    let bytes = words.bytes(alloc)?;
    match word {
        "plain-frames" => tell_frames(out, frames_in(alloc, &bytes)?),
        "plain-parts" => tell_parts(out, parts_in(alloc, &bytes)?),
        _ => tell_section(out, section_in(alloc, &bytes)?),
    }
}

fn frames_in(alloc: Global, bytes: &[u8]) -> Result<Option<Vec<HttpFrame>>, RowFault> {
    Ok(frames(alloc, bytes)?)
}

fn tell_frames(out: &mut Vec<u8>, found: Option<Vec<HttpFrame>>) -> Answer {
    let Some(frames) = found else {
        return put(out, "no frames");
    };
    let told = put_all_frames(out, &frames);
    drop(frames);
    told
}

fn put_all_frames(out: &mut Vec<u8>, frames: &[HttpFrame]) -> Answer {
    put(out, "frames")?;
    for frame in frames {
        put(out, " ")?;
        put_hex_number(out, frame.kind())?;
        put(out, " ")?;
        put_content(out, frame.payload())?;
    }
    Ok(())
}

fn parts_in(alloc: Global, bytes: &[u8]) -> Result<Option<MessageParts>, RowFault> {
    Ok(message_parts(alloc, bytes)?)
}

fn tell_parts(out: &mut Vec<u8>, found: Option<MessageParts>) -> Answer {
    let Some(parts) = found else {
        return put(out, "no message");
    };
    let told = put_parts(out, &parts);
    drop(parts);
    told
}

fn put_parts(out: &mut Vec<u8>, parts: &MessageParts) -> Answer {
    put(out, "section ")?;
    put_content(out, &parts.section)?;
    put(out, " body ")?;
    put_content(out, &parts.body)?;
    if let Some(last) = &parts.last {
        put(out, " last ")?;
        put_content(out, last)?;
    }
    Ok(())
}

/// The field lines of a section.
pub(crate) fn section_in(alloc: Global, bytes: &[u8]) -> Result<Option<Vec<FieldLine>>, RowFault> {
    Ok(section(alloc, bytes)?)
}

fn tell_section(out: &mut Vec<u8>, found: Option<Vec<FieldLine>>) -> Answer {
    let Some(fields) = found else {
        return put(out, "no section");
    };
    let told = put_fields(out, &fields);
    drop(fields);
    told
}

fn put_fields(out: &mut Vec<u8>, fields: &[FieldLine]) -> Answer {
    put(out, "fields")?;
    for field in fields {
        put_field(out, field.name(), field.value())?;
    }
    Ok(())
}

// The packets of a datagram at an end whose ids have this length.
fn packets_in(alloc: Global, id_length: u64, bytes: &[u8]) -> Result<Vec<Packet>, RowFault> {
    Ok(packets(alloc, id_length as usize, bytes)?)
}

fn tell_packets(alloc: Global, out: &mut Vec<u8>, words: &mut Words<'_>) -> Answer {
    let id_length = words.number()?;
    let bytes = words.bytes(alloc)?;
    let packets = packets_in(alloc, id_length, &bytes)?;
    let told = put_packets(out, &packets);
    drop(packets);
    told
}

fn put_packets(out: &mut Vec<u8>, packets: &[Packet]) -> Answer {
    put(out, "packets")?;
    for packet in packets {
        put_packet(out, packet)?;
        put_frames(out, packet.frames())?;
    }
    Ok(())
}

fn put_frames(out: &mut Vec<u8>, frames: &[Frame]) -> Answer {
    for frame in frames {
        put_frame(out, frame)?;
    }
    Ok(())
}

fn put_packet(out: &mut Vec<u8>, packet: &Packet) -> Answer {
    put(
        out,
        match packet.space() {
            Space::Initial => " initial ",
            Space::Data => " data ",
        },
    )?;
    put(out, side_name(packet.sender()))?;
    put(out, " ")?;
    put_hex_number(out, packet.number())?;
    Ok(())
}

fn put_frame(out: &mut Vec<u8>, frame: &Frame) -> Answer {
    put(out, " [")?;
    put_hex_number(out, frame.kind())?;
    for value in frame.values() {
        put(out, " ")?;
        put_value(out, value)?;
    }
    put(out, "]")
}

fn put_value(out: &mut Vec<u8>, value: &FieldValue) -> Answer {
    if let Some(number) = value.number() {
        put_number(out, number)?;
    }
    if let Some(text) = value.text() {
        put_content(out, text)?;
    }
    for number in value.numbers().unwrap_or(&[]) {
        put_named(out, "+", *number)?;
    }
    Ok(())
}

// Tells the packets of each datagram that has these bits of one byte changed, where there are any.
fn tell_changed(alloc: Global, out: &mut Vec<u8>, words: &mut Words<'_>) -> Answer {
    let mask = mask(words)?;
    let id_length = words.number()?;
    let mut bytes = words.bytes(alloc)?;
    put(out, "read at")?;
    for place in 0..bytes.len() {
        flip(&mut bytes, place, mask);
        let packets = packets_in(alloc, id_length, &bytes)?;
        let told = put_found(out, place as u64, &packets);
        drop(packets);
        told?;
        flip(&mut bytes, place, mask);
    }
    Ok(())
}

fn put_found(out: &mut Vec<u8>, place: u64, packets: &[Packet]) -> Answer {
    for packet in packets {
        put_named(out, "", place)?;
        put_packet(out, packet)?;
    }
    Ok(())
}

/// What is asked of datagrams: the length of ids, the sender and the stream.
#[derive(Clone, Copy)]
pub(crate) struct Asked {
    pub(crate) id_length: usize,
    pub(crate) sender: Side,
    pub(crate) stream: u64,
}

/// What the next words ask.
pub(crate) fn read_asked(words: &mut Words<'_>) -> Result<Asked, RowFault> {
    let id_length = words.number()? as usize;
    let sender = side(words)?;
    let stream = words.number()?;
    Ok(Asked {
        id_length,
        sender,
        stream,
    })
}

/// The datagrams that the words tell, up to the last word.
pub(crate) fn datagrams(alloc: Global, words: &mut Words<'_>) -> Result<Vec<Bytes>, RowFault> {
    let mut datagrams = Vec::new(alloc);
    for _datagram in 0..u64::MAX {
        if words.is_at_end() {
            break;
        }
        datagrams.push(shared(alloc, words)?)?;
    }
    Ok(datagrams)
}

fn tell_carried(alloc: Global, out: &mut Vec<u8>, words: &mut Words<'_>) -> Answer {
    let asked = read_asked(words)?;
    let datagrams = datagrams(alloc, words)?;
    let found = carried_in(alloc, asked, &datagrams)?;
    put_placed(out, &found.bytes)?;
    put_ends(out, &found.ends)
}

fn put_placed(out: &mut Vec<u8>, placed: &[(u64, u8)]) -> Answer {
    put(out, "bytes")?;
    for (offset, byte) in placed {
        put_named(out, "", *offset)?;
        put(out, ":")?;
        put_content(out, &[*byte])?;
    }
    Ok(())
}

fn put_ends(out: &mut Vec<u8>, ends: &[u64]) -> Answer {
    put(out, " ends")?;
    for end in ends {
        put_named(out, "", *end)?;
    }
    Ok(())
}

fn carried_in(alloc: Global, asked: Asked, list: &[Bytes]) -> Result<CarriedStream, RowFault> {
    Ok(carried(alloc, asked.id_length, list, asked.sender, asked.stream)?)
}

fn tell_whole(alloc: Global, out: &mut Vec<u8>, words: &mut Words<'_>) -> Answer {
    let asked = read_asked(words)?;
    let datagrams = datagrams(alloc, words)?;
    match whole_in(alloc, asked, &datagrams)? {
        Some(bytes) => {
            put(out, "whole ")?;
            put_content(out, &bytes)
        }
        None => put_bool(out, false),
    }
}

fn whole_in(alloc: Global, asked: Asked, list: &[Bytes]) -> Result<Option<Vec<u8>>, RowFault> {
    Ok(whole_stream(alloc, asked.id_length, list, asked.sender, asked.stream)?)
}
