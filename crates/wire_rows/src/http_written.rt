//! Frames of HTTP/3 that are written, and buffers of them.
ghost use Rattle.std.specs.Prelude.{IsTrue, IfOk};
ghost use Rattle.qh_h3wire.specs.FrameBytes.{IsWritable};
ghost use Rattle.qh_h3wire.specs.Settings.{AreWritable, IsOtherId};
ghost use Rattle.qh_h3wire.specs.SettingsValue.{plain_of};

use crate::http_frames::{put_settings, read, tell_error};
use crate::say::{Answer, put, put_hex, put_named, shared, varint};
use arrayvec::ArrayVec;
use bytes::Bytes;
use qh_base::{Memory, VarInt};
use qh_h3wire::{Frame, Settings, StreamType, WriteBuf};
use row_text::{RowFault, Words};
use std::alloc::Global;

/// Answers a row. Whether its word is known.
pub(crate) fn answer(
    alloc: Global,
    word: &str,
    words: &mut Words<'_>,
    out: &mut Vec<u8>,
) -> Result<bool, RowFault> {
    match word {
        "http-frame" => read(alloc, out, words)?,
        "http-put" => write(alloc, out, words)?,
        "http-error" => tell_error(alloc, out, words)?,
        "default-settings" => tell_default(out)?,
        "room-for-others" => room(out, words.number()?)?,
        "buffer" => tell_buffer(alloc, out, words)?,
        _ => return Ok(false),
    }
    Ok(true)
}

fn tell_default(out: &mut Vec<u8>) -> Answer {
    let settings = Settings::default();
    put_settings(out, &settings)
}

fn write(alloc: Global, out: &mut Vec<u8>, words: &mut Words<'_>) -> Answer {
    let frame = frame(alloc, words)?;
    let mut bytes = Vec::new(alloc);
    frame.encode(&mut bytes)?;
    put_hex(out, &bytes)
}

// The frame that the words tell.
fn frame(alloc: Global, words: &mut Words<'_>) -> Result<Frame, RowFault>
    ensures { IfOk result (λ f. IsWritable f) }
{
    match words.next() {
        "DATA" => data(shared(alloc, words)?),
        "HEADERS" => headers(shared(alloc, words)?),
        "CANCEL_PUSH" => Ok(Frame::CancelPush(varint(words)?.into_inner())),
        "SETTINGS" => Ok(Frame::Settings(settings(words)?)),
        "PUSH_PROMISE" => promise(varint(words)?, shared(alloc, words)?),
        "GOAWAY" => goaway(varint(words)?),
        "MAX_PUSH_ID" => Ok(Frame::MaxPushId(varint(words)?.into_inner())),
        "GREASE" => Ok(Frame::Grease),
        "DATA-of" => Ok(Frame::DataLen(varint(words)?.into_inner())),
        _ => Err(RowFault::Form),
    }
}

fn data(payload: Bytes) -> Result<Frame, RowFault>
    ensures { IfOk result (λ f. IsWritable f) }
{
    if payload.len() >= 1 << 62 {
        return Err(RowFault::Form);
    }
    Ok(Frame::Data(payload))
}

fn headers(section: Bytes) -> Result<Frame, RowFault>
    ensures { IfOk result (λ f. IsWritable f) }
{
    if section.len() >= 1 << 62 {
        return Err(RowFault::Form);
    }
    Ok(Frame::Headers(section))
}

fn promise(id: VarInt, encoded: Bytes) -> Result<Frame, RowFault>
    ensures { IfOk result (λ f. IsWritable f) }
{
    if encoded.len() >= 1 << 61 || id.size() > 8 {
        return Err(RowFault::Form);
    }
    Ok(Frame::PushPromise {
        id: id.into_inner(),
        encoded,
    })
}

fn goaway(id: VarInt) -> Result<Frame, RowFault>
    ensures { IfOk result (λ f. IsWritable f) }
{
    let _bound = id.into_inner();
    Ok(Frame::Goaway(id))
}

// The settings that the words tell: a limit, two switches, and at most two other ids with their values, or eight others.
fn settings(words: &mut Words<'_>) -> Result<Settings, RowFault>
    ensures { IfOk result (λ s. AreWritable (plain_of s)) }
{
    let limit = words.number()?;
    let connect = switch(words)?;
    let datagram = switch(words)?;
    let mut settings = match words.next() {
        "" => Settings::default(),
        "eight" => eight(),
        id => pairs(id, words)?,
    };
    settings.max_field_section_size = limit;
    settings.enable_extended_connect = connect;
    settings.enable_datagram = datagram;
    Ok(settings)
}

// The next word as a switch.
fn switch(words: &mut Words<'_>) -> Result<bool, RowFault> {
    match words.next() {
        "on" => Ok(true),
        "off" => Ok(false),
        _ => Err(RowFault::Form),
    }
}

// Eight others, the greatest numbers among them.
fn eight() -> Settings
    ensures { AreWritable (plain_of result) }
{
    Settings {
        max_field_section_size: 0,
        enable_extended_connect: false,
        enable_datagram: false,
        other: ArrayVec::from([
            (0x21, 0),
            (1, 100),
            (7, 16),
            (0, 1),
            (0x40, 63),
            (0x4000, 64),
            (9, 16383),
            ((1 << 62) - 1, (1 << 62) - 1),
        ]),
    }
}

// One other with its value, or two.
fn pairs(first: &str, words: &mut Words<'_>) -> Result<Settings, RowFault>
    ensures { IfOk result (λ s. AreWritable (plain_of s)) }
{
    let one = varint(&mut Words::new(first))?.into_inner();
    let one_value = varint(words)?.into_inner();
    if words.is_at_end() {
        return one_other(one, one_value);
    }
    let two = varint(words)?.into_inner();
    two_others(one, one_value, two, varint(words)?.into_inner())
}

fn one_other(id: u64, value: u64) -> Result<Settings, RowFault>
    ensures { IfOk result (λ s. AreWritable (plain_of s)) }
{
    if !is_other_id(id) || value >= 1 << 62 {
        return Err(RowFault::Form);
    }
    let mut other = ArrayVec::new();
    other.push((id, value));
    Ok(Settings {
        max_field_section_size: 0,
        enable_extended_connect: false,
        enable_datagram: false,
        other,
    })
}

fn two_others(one: u64, one_value: u64, two: u64, two_value: u64) -> Result<Settings, RowFault>
    ensures { IfOk result (λ s. AreWritable (plain_of s)) }
{
    if !is_other_id(one) || one_value >= 1 << 62 {
        return Err(RowFault::Form);
    }
    if !is_other_id(two) || two_value >= 1 << 62 || one == two {
        return Err(RowFault::Form);
    }
    let mut other = ArrayVec::new();
    other.push((one, one_value));
    other.push((two, two_value));
    Ok(Settings {
        max_field_section_size: 0,
        enable_extended_connect: false,
        enable_datagram: false,
        other,
    })
}

// Whether an id may stand among the others: it is none of HTTP/2's, the limit's or the switches'.
fn is_other_id(id: u64) -> bool
    ensures { IsTrue result → IsOtherId id }
{
    id < 1 << 62 && !matches!(id, 2..=6 | 8 | 0x33)
}

// How many of so many others have room.
fn room(out: &mut Vec<u8>, count: u64) -> Answer {
    let mut settings = Settings::default();
    let mut kept = 0u64;
    for id in 0..count {
        if settings.other.try_push((id, 0)).is_ok() {
            kept = kept.saturating_add(1);
        }
    }
    put_named(out, "room for", kept)
}

// Tells what a buffer gives.
fn tell_buffer(alloc: Global, out: &mut Vec<u8>, words: &mut Words<'_>) -> Answer {
    let step = words.number()?;
    let mut buffer = buffer(alloc, words)?;
    walk(out, step, &mut buffer)
}

// The buffer that the words tell.
fn buffer(alloc: Global, words: &mut Words<'_>) -> Result<WriteBuf, RowFault> {
    match words.next() {
        "type" => Ok(of_type(alloc, varint(words)?)?),
        "frame" => Ok(WriteBuf::of_frame(alloc, frame(alloc, words)?)?),
        "both" => of_both(alloc, varint(words)?, words),
        "control" => Ok(WriteBuf::of_control(alloc, settings(words)?)?),
        _ => Err(RowFault::Form),
    }
}

fn of_type(alloc: Global, kind: VarInt) -> Result<WriteBuf, Memory> {
    WriteBuf::of_type(alloc, StreamType(kind.into_inner()))
}

fn of_both(alloc: Global, kind: VarInt, words: &mut Words<'_>) -> Result<WriteBuf, RowFault> {
    let frame = frame(alloc, words)?;
    Ok(WriteBuf::of_both(alloc, StreamType(kind.into_inner()), frame)?)
}

// Takes the bytes of a buffer in steps of at most this size.
fn walk(out: &mut Vec<u8>, step: u64, buffer: &mut WriteBuf) -> Answer {
    let all = buffer.remaining();
    put_named(out, "remaining", all as u64)?;
    for _step in 0..all {
        let taken = buffer.chunk().len().min(step as usize);
        if taken == 0 {
            break;
        }
        put(out, " ")?;
        put_hex(out, buffer.chunk().get(..taken).unwrap_or(&[]))?;
        advance(buffer, taken);
    }
    put_named(out, " remaining", buffer.remaining() as u64)
}

// Leaves out the next bytes.
fn advance(buffer: &mut WriteBuf, count: usize) {
    let most = buffer.remaining();
    buffer.advance(count.min(most));
}
