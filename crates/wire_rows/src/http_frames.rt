//! Frames of HTTP/3 that are read, settings, and errors.
use crate::say::{Answer, put, put_content, put_named};
use qh_h3wire::{Frame, FrameError, Settings, SettingsError};
use row_text::{RowFault, Words, put_hex_number, put_text};
use std::alloc::Global;

/// Reads the frame that begins the bytes, and tells how many were used.
pub(crate) fn read(alloc: Global, out: &mut Vec<u8>, words: &mut Words<'_>) -> Answer {
    let bytes = words.bytes(alloc)?;
    let (answer, used) = first(alloc, &bytes);
    match answer {
        Ok(frame) => put_frame(out, &frame)?,
        Err(error) => put_error(out, error)?,
    }
    put_named(out, ", used", used as u64)
}

fn first(alloc: Global, bytes: &[u8]) -> (Result<Frame, FrameError>, usize) {
    Frame::decode(alloc, bytes)
}

fn put_frame(out: &mut Vec<u8>, frame: &Frame) -> Answer {
    match frame {
        Frame::Data(payload) => put_payload(out, "DATA ", payload.as_slice()),
        Frame::Headers(section) => put_payload(out, "HEADERS ", section.as_slice()),
        Frame::CancelPush(id) => put_named(out, "CANCEL_PUSH", *id),
        Frame::Settings(settings) => put_settings(out, settings),
        Frame::PushPromise { id, encoded } => {
            put_named(out, "PUSH_PROMISE", *id)?;
            put_payload(out, " ", encoded.as_slice())
        }
        Frame::Goaway(id) => put_named(out, "GOAWAY", id.into_inner()),
        Frame::MaxPushId(id) => put_named(out, "MAX_PUSH_ID", *id),
        Frame::Grease => put(out, "GREASE"),
        Frame::DataLen(length) => put_named(out, "DATA of", *length),
    }
}

fn put_payload(out: &mut Vec<u8>, name: &str, payload: &[u8]) -> Answer {
    put(out, name)?;
    put_content(out, payload)
}

/// Appends settings.
pub(crate) fn put_settings(out: &mut Vec<u8>, settings: &Settings) -> Answer {
    put_named(out, "SETTINGS", settings.max_field_section_size)?;
    put(
        out,
        if settings.enable_extended_connect {
            " on"
        } else {
            " off"
        },
    )?;
    put(
        out,
        if settings.enable_datagram {
            " on"
        } else {
            " off"
        },
    )?;
    for (id, value) in settings.other.as_slice() {
        put_named(out, "", *id)?;
        put_named(out, "", *value)?;
    }
    Ok(())
}

// Appends an error's name, or says that there was no memory.
fn put_error(out: &mut Vec<u8>, error: FrameError) -> Answer {
    match error {
        FrameError::Malformed => put(out, "Malformed"),
        FrameError::ForbiddenFrame(kind) => put_kind(out, "ForbiddenFrame ", kind),
        FrameError::UnknownFrame(kind) => put_kind(out, "UnknownFrame ", kind),
        FrameError::Incomplete(length) => put_named(out, "Incomplete", length as u64),
        FrameError::Settings(error) => put_settings_error(out, error),
        FrameError::Memory => Err(RowFault::Memory),
        _ => put(out, "another error"),
    }
}

fn put_kind(out: &mut Vec<u8>, name: &str, kind: u64) -> Answer {
    put(out, name)?;
    put_hex_number(out, kind)?;
    Ok(())
}

fn put_settings_error(out: &mut Vec<u8>, error: SettingsError) -> Answer {
    match error {
        SettingsError::Malformed => put(out, "Settings Malformed"),
        SettingsError::Repeated(id) => put_kind(out, "Settings Repeated ", id),
        SettingsError::Forbidden(id) => put_kind(out, "Settings Forbidden ", id),
        SettingsError::Value(id, value) => {
            put_kind(out, "Settings Value ", id)?;
            put_named(out, "", value)
        }
        SettingsError::Memory => Err(RowFault::Memory),
    }
}

/// Tells the code of an error, and the text that shows it.
pub(crate) fn tell_error(alloc: Global, out: &mut Vec<u8>, words: &mut Words<'_>) -> Answer {
    let error = match words.next() {
        "Malformed" => FrameError::Malformed,
        "ForbiddenFrame" => FrameError::ForbiddenFrame(words.number()?),
        "UnknownFrame" => FrameError::UnknownFrame(words.number()?),
        "InvalidFrameValue" => FrameError::InvalidFrameValue,
        "Incomplete" => FrameError::Incomplete(words.number()? as usize),
        "Settings" => FrameError::Settings(settings_error(words)?),
        "InvalidStreamId" => FrameError::InvalidStreamId(words.number()?),
        "InvalidPushId" => FrameError::InvalidPushId(words.number()?),
        "Memory" => FrameError::Memory,
        _ => return Err(RowFault::Form),
    };
    put_code(alloc, out, error)
}

fn put_code(alloc: Global, out: &mut Vec<u8>, error: FrameError) -> Answer {
    match error.code() {
        Some(code) => put_hex_number(out, code.value())?,
        None => put(out, "no code")?,
    }
    put(out, ": ")?;
    put_text(out, format!(in alloc; "{error}")?.as_str())?;
    Ok(())
}

fn settings_error(words: &mut Words<'_>) -> Result<SettingsError, RowFault> {
    match words.next() {
        "Malformed" => Ok(SettingsError::Malformed),
        "Repeated" => Ok(SettingsError::Repeated(words.number()?)),
        "Forbidden" => Ok(SettingsError::Forbidden(words.number()?)),
        "Value" => Ok(SettingsError::Value(words.number()?, words.number()?)),
        "Memory" => Ok(SettingsError::Memory),
        _ => Err(RowFault::Form),
    }
}
