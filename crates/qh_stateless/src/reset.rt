ghost use Rattle.std.specs.Prelude.{◌≡◌, ℕ, ◌+◌, ◌-◌, ◌<◌, ◌≤◌, ◌/◌, ◌++◌, ◌↔◌, List, length, drop, get_or, true, false, IsTrue, IfOk, OnOk, OnErr};
ghost use Rattle.qh_stateless.specs.Reset.{IsPaddingSize, IsReset, low_bytes_of, padding_of};
ghost use Rattle.qh_stateless.specs.Words.{HasDrawn, and_words};
ghost use Rattle.qh_token.specs.Reset.{reset_token_of};

use crate::Words;
use qh_base::{ConnectionId, Memory};
use qh_token::{RESET_TOKEN_LEN, reset_token};

// A datagram of as many bytes isn't answered: a reset is shorter than its cause, and a packet has 21 bytes at least.
const MAX_UNANSWERED: usize = 21;

// With as many bytes of padding a reset can't be told from a packet by its length.
const IDEAL_MIN_PADDING_LEN: usize = 25;

/// Appends a stateless reset for this connection id, which answers a datagram of `cause_len` bytes, and answers true (RFC 9000, section
/// 10.3). False, and nothing is appended and no word drawn, if that has at most 21 bytes.
///
/// Where h is `cause_len` less 16, there are h - 1 bytes of padding if that is at most 25, else a number from 25 up to but without h - 1 that
/// a word chooses. Each byte of padding is the low byte of a further word, but that the top two bits of the first are 01. After want of
/// memory nothing is appended; words may have been drawn, at most h.
pub fn put_stateless_reset<W: Words>(
    words: &mut W,
    cause_len: usize,
    id: &ConnectionId,
    out: &mut Vec<u8>,
) -> Result<bool, Memory>
    ensures answered { IfOk result (λ put. IsTrue put ↔ (21 < cause_len)) }
    ensures reset { IfOk result (λ put. put ≡ true → (drawn bytes : List ℕ) × (W.given words.new ≡ and_words (W.given words.old) drawn) × (out.new.items ≡ out.old.items ++ bytes)
        × IsReset cause_len id.now drawn bytes) }
    ensures none { IfOk result (λ put. put ≡ false → (W.given words.new ≡ W.given words.old) × (out.new.items ≡ out.old.items)) }
    ensures wanted { OnErr result (21 < cause_len) }
    ensures drawn { HasDrawn (cause_len - 16) (W.given words.old) (W.given words.new) }
    ensures err { OnErr result (out.new.items ≡ out.old.items) }
{
    if cause_len <= MAX_UNANSWERED {
        return Ok(false);
    }
    let size = padding_size(words, cause_len);
    put_reset(words, size, id, out)?;
    Ok(true)
}

/// A reset is shorter than its cause, and has 21 bytes at least, so that two ends don't answer one another's for ever and none is told from a
/// packet by its length. Its first byte is that of a short header, and its last 16 bytes are the id's token.
pub fn stateless_resets()
    ensures shorter { (cause_len : ℕ) (id drawn bytes : List ℕ) → IsReset cause_len id drawn bytes → (21 ≤ length bytes) × (length bytes < cause_len) }
    ensures short { (cause_len : ℕ) (id drawn bytes : List ℕ) → IsReset cause_len id drawn bytes → cause_len ≤ 42 → length bytes ≡ cause_len - 1 }
    ensures long { (cause_len : ℕ) (id drawn bytes : List ℕ) → IsReset cause_len id drawn bytes → 42 < cause_len → (41 ≤ length bytes) × (length bytes < cause_len - 1) }
    ensures first { (cause_len : ℕ) (id drawn bytes : List ℕ) → IsReset cause_len id drawn bytes → get_or bytes 0 0 / 64 ≡ 1 }
    ensures token { (cause_len : ℕ) (id drawn bytes : List ℕ) → IsReset cause_len id drawn bytes → drop (length bytes - 16) bytes ≡ reset_token_of id }
{}

// How many bytes of padding a reset has that answers a datagram of so many bytes.
fn padding_size<W: Words>(words: &mut W, cause_len: usize) -> usize
    requires { 21 < cause_len }
    ensures size { (chooser : List ℕ) × (W.given words.new ≡ and_words (W.given words.old) chooser) × IsPaddingSize (cause_len - 16) chooser result }
    ensures some { 0 < result }
{
    let most = cause_len - RESET_TOKEN_LEN - 1;
    if most <= IDEAL_MIN_PADDING_LEN {
        return most;
    }
    let choices = most - IDEAL_MIN_PADDING_LEN;
    IDEAL_MIN_PADDING_LEN + (words.next() % choices as u64) as usize
}

// Appends so many bytes of padding and the id's token, or nothing.
fn put_reset<W: Words>(
    words: &mut W,
    size: usize,
    id: &ConnectionId,
    out: &mut Vec<u8>,
) -> Result<(), Memory>
    requires { 0 < size }
    ensures ok { OnOk result ((drawn : List ℕ) × (W.given words.new ≡ and_words (W.given words.old) drawn) × (length drawn ≡ size) × (out.new.items ≡ out.old.items ++ (padding_of drawn ++ reset_token_of id.now))) }
    ensures drawn { HasDrawn size (W.given words.old) (W.given words.new) }
    ensures err { OnErr result (out.new.items ≡ out.old.items) }
{
    let start = out.len();
    put_padding(words, size, out)?;
    if out.extend_from_slice(&reset_token(id).0).is_err() {
        out.truncate(start);
        return Err(Memory);
    }
    Ok(())
}

// Appends so many bytes of padding, or nothing.
fn put_padding<W: Words>(words: &mut W, size: usize, out: &mut Vec<u8>) -> Result<(), Memory>
    requires { 0 < size }
    ensures ok { OnOk result ((drawn : List ℕ) × (W.given words.new ≡ and_words (W.given words.old) drawn) × (length drawn ≡ size) × (out.new.items ≡ out.old.items ++ padding_of drawn)) }
    ensures drawn { HasDrawn size (W.given words.old) (W.given words.new) }
    ensures err { OnErr result (out.new.items ≡ out.old.items) }
{
    let start = out.len();
    let first = words.next();
    out.push(0x40 + (first % 64) as u8)?;
    if put_low_bytes(words, size - 1, out).is_err() {
        out.truncate(start);
        return Err(Memory);
    }
    Ok(())
}

// Appends the low bytes of so many words, or nothing.
fn put_low_bytes<W: Words>(words: &mut W, count: usize, out: &mut Vec<u8>) -> Result<(), Memory>
    ensures ok { OnOk result ((drawn : List ℕ) × (W.given words.new ≡ and_words (W.given words.old) drawn) × (length drawn ≡ count) × (out.new.items ≡ out.old.items ++ low_bytes_of drawn)) }
    ensures drawn { HasDrawn count (W.given words.old) (W.given words.new) }
    ensures err { OnErr result (out.new.items ≡ out.old.items) }
{
    let start = out.len();
    for _ in 0..count {
        let word = words.next();
        if out.push((word % 256) as u8).is_err() {
            out.truncate(start);
            return Err(Memory);
        }
    }
    Ok(())
}
