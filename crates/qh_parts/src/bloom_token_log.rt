ghost use Rattle.std.specs.Prelude.{◌≡◌, ◌<◌, ◌≤◌, ◌%◌, ◌^◌};
ghost use Rattle.qh_spec.specs.TokenLog.{Token, TokenLog as PlainLog, empty_log, expiry, moved, is_in_second};
ghost use Rattle.qh_parts.specs.OptimalKNum.{optimal_k_num};

mod bit_filter;
mod filter;
mod hash;
mod words;

use crate::token_log::{TokenFault, TokenLog};
use filter::{Filter, FilterConfig};
use qh_base::{Moment, Span};
use std::alloc::Global;
use std::mem;

/// A log of used tokens in bounded memory. It keeps two periods, each as long as a token lives, and for each the low 64
/// bits of the nonces of the tokens that expire in it: a set of them, and a bit filter from where the set would be too
/// long. A bit filter may refuse a token that wasn't used.
#[derive(Drop)]
pub struct BloomTokenLog {
    config: FilterConfig,
    // When the first period begins, in nanoseconds.
    period_1_start: u128,
    filter_1: Filter,
    filter_2: Filter,
}

const DEFAULT_MAX_BYTES: usize = 10 << 20;

const DEFAULT_EXPECTED_HITS: u64 = 1_000_000;

// ln 2, in units of 10^-18.
const LN_2: u128 = 693_147_180_559_945_309;

const UNIT: u128 = 1_000_000_000_000_000_000;

impl BloomTokenLog {
    ghost use Rattle.qh_parts.specs.BloomTokenLog.{log_limits, StandsFor};

    /// An empty log, which takes about so many bytes, half of them for each period, and so many positions for an entry
    /// of a bit filter, from 1 to 128.
    pub fn new(max_bytes: usize, k_num: u32) -> BloomTokenLog
        ensures limits { log_limits result ≡ record { max_bytes = max_bytes; k_num = k_num } }
        ensures empty { StandsFor result empty_log }
    {
        BloomTokenLog {
            config: FilterConfig { max_bytes, k_num },
            period_1_start: 0,
            filter_1: Filter::Empty,
            filter_2: Filter::Empty,
        }
    }

    /// An empty log, which takes about so many bytes, and the number of positions that is best for so many tokens a
    /// lifetime.
    pub fn new_expected_items(max_bytes: usize, expected_hits: u64) -> BloomTokenLog
        ensures limits { log_limits result ≡ record { max_bytes = max_bytes; k_num = optimal_k_num max_bytes expected_hits } }
        ensures empty { StandsFor result empty_log }
    {
        BloomTokenLog::new(max_bytes, optimal_k_num(max_bytes, expected_hits))
    }

    /// An empty log of 10 MiB, for a million tokens a lifetime.
    pub fn default_log() -> BloomTokenLog
        ensures limits { log_limits result ≡ record { max_bytes = 10485760; k_num = 58 } }
        ensures empty { StandsFor result empty_log }
    {
        BloomTokenLog::new_expected_items(DEFAULT_MAX_BYTES, DEFAULT_EXPECTED_HITS)
    }

    // Moves the periods so far that a token expires in one of them, and answers whether in the second.
    fn turn_over(&mut self, expires_at: u128, lifetime: u64) -> bool
        requires lives { 0 < lifetime }
        requires later { self.old.period_1_start ≤ expires_at }
        ensures limits { log_limits self.new ≡ log_limits self.old }
        ensures moves { (l : PlainLog) (t : Token) → StandsFor self.old l → expiry t ≡ expires_at → t.lifetime ≡ lifetime
            → StandsFor self.new (moved l t) × (result ≡ is_in_second l t) }
    {
        match (expires_at - self.period_1_start) / u128::from(lifetime) {
            0 => false,
            1 => true,
            2 => {
                self.filter_1 = mem::replace(&mut self.filter_2, Filter::Empty);
                self.period_1_start += u128::from(lifetime);
                true
            }
            _ => {
                self.filter_1 = Filter::Empty;
                self.filter_2 = Filter::Empty;
                self.period_1_start = expires_at;
                false
            }
        }
    }
}

impl TokenLog for BloomTokenLog {
    ghost use Rattle.qh_parts.specs.BloomTokenLog.{log_limits, StandsFor};

    ghost limits = { log_limits };

    ghost stands = { StandsFor };

    fn check_and_insert(
        &mut self,
        alloc: Global,
        nonce: u128,
        issued: Moment,
        lifetime: Span,
    ) -> Result<(), TokenFault> {
        let expires_at = u128::from(issued.0) + u128::from(lifetime.0);
        if lifetime.0 == 0 {
            return Err(TokenFault::Reused);
        }
        if expires_at < self.period_1_start {
            return Err(TokenFault::Reused);
        }
        let fingerprint = fingerprint_of(nonce);
        if self.turn_over(expires_at, lifetime.0) {
            self.filter_2
                .check_and_insert(alloc, fingerprint, self.config)
        } else {
            self.filter_1
                .check_and_insert(alloc, fingerprint, self.config)
        }
    }
}

// The nonce's low 64 bits. Nonces are chosen at random, so that these seldom agree.
fn fingerprint_of(nonce: u128) -> u64
    ensures { result ≡ nonce % 2 ^ 64 }
{
    (nonce % (1 << 64)) as u64
}

/// With how many positions an entry a bit filter of so many bytes refuses the fewest of what it doesn't hold, when it
/// holds so many entries: the whole number nearest to (bits / entries) ln 2, and at least 1.
pub fn optimal_k_num(num_bytes: usize, expected_hits: u64) -> u32
    ensures { result ≡ optimal_k_num num_bytes expected_hits }
{
    let bits = u128::from((num_bytes as u64).saturating_mul(8));
    let entries = u128::from(expected_hits.max(1));
    let k_num = (2 * bits * LN_2 + entries * UNIT) / (2 * entries * UNIT);
    k_num.clamp(1, u128::from(u32::MAX)) as u32
}
