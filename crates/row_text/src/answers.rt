//! How answers are written.
use qh_base::Memory;

// So many equal bytes are written as one that is repeated.
const RUN: usize = 16;

const DIGITS: &[u8; 16] = b"0123456789abcdef";

/// Appends a text.
pub fn put_text(out: &mut Vec<u8>, text: &str) -> Result<(), Memory> {
    out.extend_from_slice(text.as_bytes())?;
    Ok(())
}

/// Appends a number in decimal.
pub fn put_number(out: &mut Vec<u8>, n: u64) -> Result<(), Memory> {
    let mut digits = [0u8; 20];
    let mut left = n;
    let mut first = digits.len();
    for place in (0..digits.len()).rev() {
        digits[place] = b'0' + (left % 10) as u8;
        first = place;
        left /= 10;
        if left == 0 {
            break;
        }
    }
    if first < digits.len() {
        out.extend_from_slice(&digits[first..])?;
    }
    Ok(())
}

/// Appends a number in hexadecimal behind `0x`, of at least two digits.
pub fn put_hex_number(out: &mut Vec<u8>, n: u64) -> Result<(), Memory> {
    put_text(out, "0x")?;
    let bytes = n.to_be_bytes();
    let mut is_begun = false;
    for (place, byte) in bytes.iter().enumerate() {
        is_begun = is_begun || *byte != 0 || place == 7;
        if is_begun {
            put_hex(out, *byte)?;
        }
    }
    Ok(())
}

/// Appends bytes in hexadecimal: a run of 16 or more equal ones as one that is repeated, as in `61*16`, with dots between such
/// parts; no bytes as `-`.
pub fn put_bytes(out: &mut Vec<u8>, bytes: &[u8]) -> Result<(), Memory> {
    if bytes.is_empty() {
        return put_text(out, "-");
    }
    let mut left = bytes;
    let mut is_behind_run = false;
    for place in 0..bytes.len() {
        let [first, ..] = left else {
            return Ok(());
        };
        let count = run_length(left, *first);
        let is_run = count >= RUN;
        if place > 0 && (is_run || is_behind_run) {
            put_text(out, ".")?;
        }
        put_run(out, *first, count, is_run)?;
        left = left.get(if is_run { count } else { 1 }..).unwrap_or(&[]);
        is_behind_run = is_run;
    }
    Ok(())
}

// Appends one byte, or one that is repeated so often.
fn put_run(out: &mut Vec<u8>, byte: u8, count: usize, is_run: bool) -> Result<(), Memory> {
    put_hex(out, byte)?;
    if is_run {
        put_text(out, "*")?;
        put_number(out, count as u64)?;
    }
    Ok(())
}

// How many bytes in front are this one.
fn run_length(bytes: &[u8], byte: u8) -> usize {
    let mut count = 0usize;
    for other in bytes {
        if *other != byte {
            break;
        }
        count = count.saturating_add(1);
    }
    count
}

fn put_hex(out: &mut Vec<u8>, byte: u8) -> Result<(), Memory> {
    out.push(DIGITS[usize::from(byte / 16)])?;
    out.push(DIGITS[usize::from(byte % 16)])?;
    Ok(())
}
