//! Bytes that are written in hexadecimal.

ghost use Rattle.std.specs.Prelude.{◌≡◌, ◌↔◌, ℕ, IsTrue, IfOk, MatchOption};
ghost use Rattle.qh_spec.specs.Lines.{IsHex, IsHexDigit};
ghost use Rattle.qh_script.specs.Line.{HasBytes, IsHexPair, IsNoHexPair};

use bytes::Bytes;
use qh_base::Memory;
use std::alloc::Global;

/// Whether the text has two digits for each of some bytes.
pub(crate) fn is_hex(text: &[u8]) -> bool
    ensures { IsTrue result ↔ HasBytes text.now }
{
    let mut rest = text;
    while !rest.is_empty() {
        let Some(_) = read_byte(rest) else {
            return false;
        };
        rest = &rest[2..];
    }
    true
}

/// The bytes of such a text.
pub(crate) fn read_hex(alloc: Global, text: &[u8]) -> Result<Bytes, Memory>
    requires { HasBytes text.now }
    ensures { IfOk result (IsHex text.now) }
{
    let mut bytes = Vec::new(alloc);
    let mut rest = text;
    while !rest.is_empty() {
        let Some(byte) = read_byte(rest) else {
            unreachable!()
        };
        bytes.push(byte)?;
        rest = &rest[2..];
    }
    Ok(Bytes::from_vec(bytes)?)
}

// The byte of the first two digits.
fn read_byte(text: &[u8]) -> Option<u8>
    ensures { MatchOption result (IsNoHexPair text.now) (IsHexPair text.now) }
{
    if text.len() < 2 {
        return None;
    }
    let high = hex_digit(text[0])?;
    let low = hex_digit(text[1])?;
    Some(16 * high + low)
}

// What a digit counts, in either case.
fn hex_digit(digit: u8) -> Option<u8>
    ensures { MatchOption result ((v : ℕ) → IsHexDigit digit v → ⊥) (IsHexDigit digit) }
{
    match digit {
        b'0'..=b'9' => Some(digit - b'0'),
        b'A'..=b'F' => Some(digit - b'A' + 10),
        b'a'..=b'f' => Some(digit - b'a' + 10),
        _ => None,
    }
}
