//! A filter of bits.
ghost use Rattle.std.specs.Prelude.{◌≡◌, ◌<◌, ◌≤◌, ◌*◌, ◌||◌, ℕ, false, vec_len, IfOk};
ghost use Rattle.std.specs.List.{list_all};
ghost use Rattle.qh_spec.specs.TokenFilter.{positions_to, is_among};
ghost use Rattle.qh_parts.specs.BitFilter.{has_bit};

use super::words::{WORD_BITS, has_all, set_all};
use std::alloc::{AllocError, Global};

/// So many bits, in words.
#[derive(Drop)]
pub struct BitFilter {
    pub bits: u64,
    pub words: Vec<u64>,
    ghost some: { 0 < bits },
    ghost room: { bits ≤ 64 * vec_len words },
}

impl BitFilter {
    /// So many bits, of which none is set.
    pub fn new(alloc: Global, bits: u64) -> Result<BitFilter, AllocError>
        requires { 0 < bits }
        ensures bits { IfOk result (λ f. f.bits ≡ bits) }
        ensures unset { IfOk result (λ f. (p : ℕ) → has_bit f.words.items p ≡ false) }
    {
        let words = vec![in alloc; 0u64; ((bits - 1) / WORD_BITS + 1) as usize]?;
        Ok(BitFilter { bits, words })
    }

    /// Whether the first so many positions of a fingerprint are all set.
    pub fn has(&self, count: u64, fingerprint: u64) -> bool
        ensures { result ≡ list_all (has_bit self.now.words.items) (positions_to self.now.bits fingerprint count) }
    {
        has_all(&self.words, self.bits, count, fingerprint)
    }

    /// Sets the first so many positions of a fingerprint.
    pub fn insert(&mut self, count: u64, fingerprint: u64)
        ensures bits { self.new.bits ≡ self.old.bits }
        ensures set { (p : ℕ) → has_bit self.new.words.items p
            ≡ (is_among (positions_to self.old.bits fingerprint count) p || has_bit self.old.words.items p) }
    {
        set_all(&mut self.words, self.bits, count, fingerprint);
    }
}
