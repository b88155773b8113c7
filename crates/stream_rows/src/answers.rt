//! How each answer is told: words, numbers and bytes with a blank between them.
use crate::settings::name_of_dir;
use qh_base::{ConnectionClose, ConnectionError, Dir, TransportErrorCode};
use qh_core::Event;
use qh_streams::{StreamEvent, StreamFault};
use row_text::{RowFault, put_bytes, put_hex_number, put_number};

/// What stands beside a word in a table.
pub(crate) fn find<T: Copy>(table: &[(&str, T)], word: &str) -> Option<T> {
    for (known, value) in table {
        if *known == word {
            return Some(*value);
        }
    }
    None
}

/// Appends a text in which each `#` stands for the next of these numbers.
pub(crate) fn put_form(out: &mut Vec<u8>, form: &str, numbers: &[u64]) -> Result<(), RowFault> {
    let mut left = numbers;
    for byte in form.as_bytes() {
        match left {
            [number, rest @ ..] if *byte == b'#' => {
                put_number(out, *number)?;
                left = rest;
            }
            _ => out.push(*byte)?,
        }
    }
    Ok(())
}

/// Appends a text, and bytes behind it.
pub(crate) fn put_named(out: &mut Vec<u8>, name: &str, bytes: &[u8]) -> Result<(), RowFault> {
    row_text::put_text(out, name)?;
    put_bytes(out, bytes)?;
    Ok(())
}

/// Appends a word, and the word for a direction behind it.
pub(crate) fn put_dir(out: &mut Vec<u8>, word: &str, dir: Dir) -> Result<(), RowFault> {
    put_text(out, word)?;
    put_text(out, name_of_dir(dir))
}

/// Appends a number where there is one; `none` where there isn't.
pub(crate) fn put_maybe(out: &mut Vec<u8>, number: Option<u64>) -> Result<(), RowFault> {
    match number {
        Some(number) => put_form(out, "#", &[number]),
        None => put_text(out, "none"),
    }
}

/// Appends a text.
pub(crate) fn put_text(out: &mut Vec<u8>, text: &str) -> Result<(), RowFault> {
    row_text::put_text(out, text)?;
    Ok(())
}

/// Appends one text or another.
pub(crate) fn put_either(
    out: &mut Vec<u8>,
    is_so: bool,
    yes: &str,
    no: &str,
) -> Result<(), RowFault> {
    put_text(out, if is_so { yes } else { no })
}

/// Appends a number with its sign.
pub(crate) fn put_signed(out: &mut Vec<u8>, n: i32) -> Result<(), RowFault> {
    put_either(out, n < 0, "-", "")?;
    put_form(out, "#", &[u64::from(n.unsigned_abs())])
}

/// Appends that nothing is to be told but that it was done.
pub(crate) fn put_ok(out: &mut Vec<u8>) -> Result<(), RowFault> {
    put_text(out, "ok")
}

/// Appends what happened, `none` where nothing did.
pub(crate) fn put_event(out: &mut Vec<u8>, event: &Option<Event>) -> Result<(), RowFault> {
    match event {
        None => put_text(out, "none"),
        Some(Event::ConnectionLost { reason }) => put_lost(out, reason),
        Some(Event::Stream(event)) => put_stream_event(out, *event),
    }
}

fn put_lost(out: &mut Vec<u8>, reason: &ConnectionError) -> Result<(), RowFault> {
    put_text(out, "lost ")?;
    put_reason(out, reason)
}

fn put_stream_event(out: &mut Vec<u8>, event: StreamEvent) -> Result<(), RowFault> {
    match event {
        StreamEvent::Opened { dir } => put_dir(out, "opened ", dir),
        StreamEvent::Available { dir } => put_dir(out, "available ", dir),
        StreamEvent::Readable { id } => put_form(out, "readable #", &[id.0]),
        StreamEvent::Writable { id } => put_form(out, "writable #", &[id.0]),
        StreamEvent::Finished { id } => put_form(out, "finished #", &[id.0]),
        StreamEvent::Stopped { id, code } => {
            put_form(out, "stopped # #", &[id.0, code.into_inner()])
        }
    }
}

/// Appends why a connection was lost.
pub(crate) fn put_reason(out: &mut Vec<u8>, reason: &ConnectionError) -> Result<(), RowFault> {
    match reason {
        ConnectionError::TransportError(error) => put_fault(out, error.code, error.frame),
        ConnectionError::ConnectionClosed(close) => put_closed(out, close),
        ConnectionError::ApplicationClosed(close) => {
            put_form(
                out,
                "closed by the application # ",
                &[close.error_code.into_inner()],
            )?;
            put_named(out, "", close.reason.bytes())
        }
        ConnectionError::TimedOut => put_text(out, "timed out"),
        ConnectionError::LocallyClosed => put_text(out, "closed by this end"),
        ConnectionError::Memory => put_text(out, "memory"),
        _ => put_text(out, "another reason"),
    }
}

fn put_closed(out: &mut Vec<u8>, close: &ConnectionClose) -> Result<(), RowFault> {
    put_text(out, "closed by the peer ")?;
    put_fault(out, close.code, close.frame)?;
    put_named(out, " ", close.reason.bytes())
}

/// Appends what became of a frame that came: `ok`, or the fault for which it is refused.
pub(crate) fn put_taken(
    out: &mut Vec<u8>,
    taken: &Result<(), StreamFault>,
) -> Result<(), RowFault> {
    match taken {
        Ok(()) => put_ok(out),
        Err(StreamFault::Transport(error)) => put_fault(out, error.code, error.frame),
        Err(StreamFault::Memory) => Err(RowFault::Memory),
    }
}

// Appends the name of a code, and the type of the frame at fault where one is known.
fn put_fault(
    out: &mut Vec<u8>,
    code: TransportErrorCode,
    frame: Option<u64>,
) -> Result<(), RowFault> {
    put_text(out, name_of(code))?;
    match frame {
        Some(kind) => put_frame_type(out, kind),
        None => Ok(()),
    }
}

fn put_frame_type(out: &mut Vec<u8>, kind: u64) -> Result<(), RowFault> {
    put_text(out, " frame ")?;
    put_hex_number(out, kind)?;
    Ok(())
}

// The name of a code in RFC 9000, section 20.1.
fn name_of(code: TransportErrorCode) -> &'static str {
    match code.0 {
        0x00 => "NO_ERROR",
        0x01 => "INTERNAL_ERROR",
        0x02 => "CONNECTION_REFUSED",
        0x03 => "FLOW_CONTROL_ERROR",
        0x04 => "STREAM_LIMIT_ERROR",
        0x05 => "STREAM_STATE_ERROR",
        0x06 => "FINAL_SIZE_ERROR",
        0x07 => "FRAME_ENCODING_ERROR",
        0x08 => "TRANSPORT_PARAMETER_ERROR",
        0x09 => "CONNECTION_ID_LIMIT_ERROR",
        0x0a => "PROTOCOL_VIOLATION",
        0x0b => "INVALID_TOKEN",
        _ => "another code",
    }
}
