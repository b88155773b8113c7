//! Bits in words of 64, and the positions of a fingerprint among them.
ghost use Rattle.std.specs.Prelude.{◌≡◌, ◌<◌, ◌≤◌, ◌*◌, ◌%◌, ◌==◌, ◌||◌, ℕ, length};
ghost use Rattle.std.specs.List.{list_all};
ghost use Rattle.qh_spec.specs.TokenFilter.{hash_word, positions_to, is_among};
ghost use Rattle.qh_parts.specs.BitFilter.{has_bit};

use super::hash::hash_word;

/// The bits of a word.
pub const WORD_BITS: u64 = 64;

// Whether a bit is set.
fn has_bit(words: &[u64], position: u64) -> bool
    requires { position < 64 * length words.now }
    ensures { result ≡ has_bit words.now position }
{
    (words[(position / WORD_BITS) as usize] >> (position % WORD_BITS)) & 1 == 1
}

// Sets a bit.
fn set_bit(words: &mut [u64], position: u64)
    requires { position < 64 * length words.old }
    ensures { (p : ℕ) → has_bit words.new p ≡ (position == p || has_bit words.old p) }
{
    words[(position / WORD_BITS) as usize] |= 1 << (position % WORD_BITS);
}

// The index-th position of a fingerprint among so many bits.
fn position(bits: u64, fingerprint: u64, index: u64) -> u64
    requires { 0 < bits }
    ensures value { result ≡ hash_word fingerprint index % bits }
    ensures within { result < bits }
{
    hash_word(fingerprint, index) % bits
}

/// Whether the first so many positions of a fingerprint are all set.
pub fn has_all(words: &[u64], bits: u64, count: u64, fingerprint: u64) -> bool
    requires some { 0 < bits }
    requires room { bits ≤ 64 * length words.now }
    ensures { result ≡ list_all (has_bit words.now) (positions_to bits fingerprint count) }
{
    for index in 0..count {
        if !has_bit(words, position(bits, fingerprint, index + 1)) {
            return false;
        }
    }
    true
}

/// Sets the first so many positions of a fingerprint.
pub fn set_all(words: &mut [u64], bits: u64, count: u64, fingerprint: u64)
    requires some { 0 < bits }
    requires room { bits ≤ 64 * length words.old }
    ensures { (p : ℕ) → has_bit words.new p ≡ (is_among (positions_to bits fingerprint count) p || has_bit words.old p) }
{
    for index in 0..count {
        set_bit(words, position(bits, fingerprint, index + 1));
    }
}
