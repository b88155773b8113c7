//! How a run ended, as the table tells it.
use qh_base::{Memory, Side};
use qh_exchange::{Bench, Echo, Event, ScriptLink};
use row_text::{put_bytes, put_number, put_text};

// A longer text is told by its length and its sum.
const MAX_TEXT: usize = 2_000;

/// Appends the status, how many requests were served, and how many rounds were made where not all was well.
pub(crate) fn put_outcome(
    out: &mut Vec<u8>,
    status: u8,
    bench: &Bench<Echo, ScriptLink>,
) -> Result<(), Memory> {
    put_text(out, "\nstatus ")?;
    put_number(out, u64::from(status))?;
    put_text(out, ", served ")?;
    put_number(out, bench.service.served().len() as u64)?;
    if status != 0 {
        put_text(out, ", rounds ")?;
        put_number(out, rounds(bench.link.events()))?;
    }
    put_text(out, "\n")
}

/// Appends the first datagrams that were sent, at most so many, each in a line with its sender.
pub(crate) fn put_datagrams(out: &mut Vec<u8>, events: &[Event], most: u64) -> Result<(), Memory> {
    let mut count = 0u64;
    for event in events {
        if let Event::Sent { side, datagram } = event {
            if count == most {
                return Ok(());
            }
            count = count.saturating_add(1);
            put_text(
                out,
                match side {
                    Side::Client => "client ",
                    Side::Server => "server ",
                },
            )?;
            put_bytes(out, datagram)?;
            put_text(out, "\n")?;
        }
    }
    Ok(())
}

/// Appends a text as it is, or its length and its sum where it is long.
pub(crate) fn put_written(out: &mut Vec<u8>, text: &[u8]) -> Result<(), Memory> {
    if text.len() > MAX_TEXT {
        return put_sum(out, text);
    }
    out.extend_from_slice(text)?;
    Ok(())
}

// How many rounds began.
fn rounds(events: &[Event]) -> u64 {
    let mut count = 0u64;
    for event in events {
        if matches!(event, Event::Round { .. }) {
            count = count.saturating_add(1);
        }
    }
    count
}

// Appends the length of a text and its sum.
fn put_sum(out: &mut Vec<u8>, text: &[u8]) -> Result<(), Memory> {
    put_text(out, "text of ")?;
    put_number(out, text.len() as u64)?;
    put_text(out, " bytes, sum ")?;
    put_number(out, sum_of(text))?;
    put_text(out, "\n")
}

// The sum of a text: from 0, times 31 plus each byte, modulo 2^64.
fn sum_of(text: &[u8]) -> u64 {
    let mut sum = 0u64;
    for byte in text {
        sum = sum.wrapping_mul(31).wrapping_add(u64::from(*byte));
    }
    sum
}
