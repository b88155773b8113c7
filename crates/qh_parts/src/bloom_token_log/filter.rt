//! The filter of one period.
ghost use Rattle.std.specs.Prelude.{◌≡◌, ◌≤◌, ◌^◌, ℕ, MatchOption, IfOk, flat_map};
ghost use Rattle.qh_spec.specs.TokenFilter.{TokenFilter, bit_count, position_count, positions, is_among, is_too_long};
ghost use Rattle.qh_parts.specs.BitFilter.{has_bit};
ghost use Rattle.qh_parts.specs.Filter.{limits_of, IsSetOf, IsBitsOf, IsKept, IsSeen, IsSeenBySet};

use super::bit_filter::BitFilter;
use crate::token_log::TokenFault;
use std::alloc::{AllocError, Global};
use std::collections::BTreeSet;

/// The most positions that a fingerprint has.
const MAX_POSITIONS: u32 = 128;

/// What bounds the filters of a log.
#[derive(Clone, Copy)]
pub struct FilterConfig {
    pub max_bytes: usize,
    pub k_num: u32,
}

/// The fingerprints of one period: none yet, a set of them, or a bit filter once a set would be too long.
#[derive(Drop)]
pub enum Filter {
    Empty,
    Set(BTreeSet<u64>),
    Bits(BitFilter),
}

impl FilterConfig {
    // Whether so many fingerprints are too long for a set.
    fn is_too_long(self, count: usize) -> bool
        ensures { result ≡ is_too_long (limits_of self) count }
    {
        self.max_bytes / 2 / size_of::<u64>() < count
    }

    // The bits of a bit filter, where 64 bits count them.
    fn bit_count(self) -> Option<u64>
        ensures { MatchOption result (2 ^ 64 ≤ bit_count (limits_of self)) (λ bits. bits ≡ bit_count (limits_of self)) }
    {
        let bits = (self.max_bytes as u64 / 2).checked_mul(8)?;
        Some(bits.max(1))
    }

    // How many positions a fingerprint has.
    fn position_count(self) -> u64
        ensures { result ≡ position_count (limits_of self) }
    {
        u64::from(self.k_num.clamp(1, MAX_POSITIONS))
    }
}

// The bit filter of a set's fingerprints.
fn bits_of(
    alloc: Global,
    set: &BTreeSet<u64>,
    config: FilterConfig,
) -> Result<BitFilter, AllocError>
    ensures bits { IfOk result (λ f. f.bits ≡ bit_count (limits_of config)) }
    ensures set { IfOk result (λ f. (p : ℕ) → has_bit f.words.items p
        ≡ is_among (flat_map (positions (limits_of config)) set.now.keys) p) }
{
    let Some(bits) = config.bit_count() else {
        return Err(AllocError);
    };
    let mut filter = BitFilter::new(alloc, bits)?;
    let count = config.position_count();
    for fingerprint in set {
        filter.insert(count, *fingerprint);
    }
    Ok(filter)
}

// Enters a fingerprint in a set, and answers the bit filter that stands in its place where it would be too long.
fn insert_in_set(
    set: &mut BTreeSet<u64>,
    alloc: Global,
    fingerprint: u64,
    config: FilterConfig,
) -> Result<Option<BitFilter>, TokenFault>
    ensures { (f : TokenFilter) → IsSetOf set.old f → IsSeenBySet (limits_of config) f fingerprint set.new result }
{
    if set.contains(&fingerprint) {
        return Err(TokenFault::Reused);
    }
    if config.is_too_long(set.len() + 1) {
        let mut filter = bits_of(alloc, set, config)?;
        filter.insert(config.position_count(), fingerprint);
        return Ok(Some(filter));
    }
    if set.insert(fingerprint).is_err() {
        return Err(TokenFault::Memory);
    }
    Ok(None)
}

// Enters a fingerprint in a bit filter.
fn insert_in_bits(
    filter: &mut BitFilter,
    fingerprint: u64,
    config: FilterConfig,
) -> Result<(), TokenFault>
    ensures { (f : TokenFilter) → IsBitsOf (limits_of config) filter.old f
        → IsSeen (limits_of config) f fingerprint result (IsBitsOf (limits_of config) filter.new) }
{
    let count = config.position_count();
    if filter.has(count, fingerprint) {
        return Err(TokenFault::Reused);
    }
    filter.insert(count, fingerprint);
    Ok(())
}

impl Filter {
    /// Enters a fingerprint, unless the filter refuses it.
    pub fn check_and_insert(
        &mut self,
        alloc: Global,
        fingerprint: u64,
        config: FilterConfig,
    ) -> Result<(), TokenFault>
        ensures { (f : TokenFilter) → IsKept (limits_of config) self.old f
            → IsSeen (limits_of config) f fingerprint result (IsKept (limits_of config) self.new) }
    {
        if let Filter::Empty = self {
            *self = Filter::Set(BTreeSet::new(alloc));
        }
        match self {
            Filter::Empty => unreachable!(),
            Filter::Set(set) => {
                if let Some(bits) = insert_in_set(set, alloc, fingerprint, config)? {
                    *self = Filter::Bits(bits);
                }
                Ok(())
            }
            Filter::Bits(bits) => insert_in_bits(bits, fingerprint, config),
        }
    }
}
