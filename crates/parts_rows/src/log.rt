//! The log of used tokens.
use crate::say::{Line, Row, read};
use qh_base::{Moment, Span};
use qh_parts::{BloomTokenLog, TokenFault, TokenLog, optimal_k_num};
use row_text::{RowFault, Words};
use std::alloc::Global;

// An odd number, so that the nonces of `bulk` differ, and lie scattered as nonces do that are chosen at random.
const STEP: u64 = 6_364_136_223_846_793_005;

const BULK_ISSUED: Moment = Moment(1_000_000_000);

const BULK_LIFETIME: Span = Span(1_000_000_000);

// What is done to a log.
#[derive(Clone, Copy)]
enum Call {
    New,
    For,
    Default,
    Token,
    Many,
}

const CALLS: [(&str, Call, u8); 5] = [
    ("new", Call::New, 2),
    ("for", Call::For, 2),
    ("default", Call::Default, 0),
    ("token", Call::Token, 3),
    ("many", Call::Many, 1),
];

/// A token, with the halves of its nonce.
#[derive(Clone, Copy)]
struct Token {
    high: u64,
    low: u64,
    issued: Moment,
    lifetime: Span,
}

/// A log of used tokens.
#[derive(Drop)]
pub(crate) struct Log {
    log: BloomTokenLog,
}

impl Log {
    pub(crate) fn new() -> Log {
        Log {
            log: BloomTokenLog::default_log(),
        }
    }

    /// Answers a row of `log`.
    pub(crate) fn answer(&mut self, alloc: Global, words: &mut Words<'_>, out: &mut Line) {
        let Some(row) = read(&CALLS, words) else {
            return out.refuse();
        };
        match row.call {
            Call::New => self.limit(row.first, row.second, out),
            Call::For => {
                self.log = BloomTokenLog::new_expected_items(row.first as usize, row.second);
            }
            Call::Default => self.log = BloomTokenLog::default_log(),
            Call::Token => return self.answer_token(alloc, row, words, out),
            Call::Many => return self.answer_many(alloc, row.first, out),
        }
        out.put("new");
    }

    // A log of so many bytes and positions.
    fn limit(&mut self, max_bytes: u64, k_num: u64, out: &mut Line) {
        match u32::try_from(k_num) {
            Ok(k_num) => self.log = BloomTokenLog::new(max_bytes as usize, k_num),
            Err(_) => out.refuse(),
        }
    }

    // NONCE ISSUED LIFETIME, and behind it the high half of the nonce where it isn't 0.
    fn answer_token(
        &mut self,
        alloc: Global,
        row: Row<Call>,
        words: &mut Words<'_>,
        out: &mut Line,
    ) {
        let Ok(high) = high_of(words) else {
            return out.refuse();
        };
        let token = Token {
            high,
            low: row.first,
            issued: Moment(row.second),
            lifetime: Span(row.third),
        };
        match counts(alloc, &mut self.log, token) {
            Ok(counts) => out.put_either(counts, "counts", "reused"),
            Err(fault) => out.fail(fault),
        }
    }

    // Looks at the nonces from 0 on twice each.
    fn answer_many(&mut self, alloc: Global, count: u64, out: &mut Line) {
        let mut once = 0u64;
        let mut again = 0u64;
        for low in 0..count {
            let first = counted(alloc, &mut self.log, low, out);
            once = once.saturating_add(first);
            let second = counted(alloc, &mut self.log, low, out);
            again = again.saturating_add(second);
        }
        out.put_form("# count, again #", &[once, again]);
    }
}

// Looks at a token of this nonce: 1 where it counts, else 0.
fn counted(alloc: Global, log: &mut BloomTokenLog, low: u64, out: &mut Line) -> u64 {
    let token = Token {
        high: 0,
        low,
        issued: Moment(1_000),
        lifetime: Span(100),
    };
    count_of(alloc, log, token, out)
}

// 1 where a token counts, else 0.
fn count_of(alloc: Global, log: &mut BloomTokenLog, token: Token, out: &mut Line) -> u64 {
    match counts(alloc, log, token) {
        Ok(counts) => u64::from(counts),
        Err(fault) => {
            out.fail(fault);
            0
        }
    }
}

// The next word as a number; 0 if there is none.
fn high_of(words: &mut Words<'_>) -> Result<u64, RowFault> {
    if words.is_at_end() {
        return Ok(0);
    }
    words.number()
}

// Whether a token counts.
fn counts(alloc: Global, log: &mut BloomTokenLog, token: Token) -> Result<bool, RowFault> {
    let nonce = (u128::from(token.high) << 64) | u128::from(token.low);
    match log.check_and_insert(alloc, nonce, token.issued, token.lifetime) {
        Ok(()) => Ok(true),
        Err(TokenFault::Reused) => Ok(false),
        Err(TokenFault::Memory) => Err(RowFault::Memory),
    }
}

/// The best number of positions for so many bytes and tokens.
pub(crate) fn answer_best(bytes: u64, tokens: u64, out: &mut Line) {
    out.put_number(u64::from(optimal_k_num(bytes as usize, tokens)));
}

/// How many of so many scattered tokens count in a log as it is where nothing is said: `bulk parts N`.
pub(crate) fn answer_bulk(alloc: Global, words: &mut Words<'_>, out: &mut Line) {
    if words.next() != "parts" {
        return out.refuse();
    }
    let Ok(count) = words.number() else {
        return out.refuse();
    };
    let counted = enter(alloc, count, out);
    out.put_form("# of #", &[counted, count]);
}

// How many of so many scattered tokens count in a new log.
fn enter(alloc: Global, count: u64, out: &mut Line) -> u64 {
    let mut log = BloomTokenLog::default_log();
    let mut counted = 0u64;
    for index in 0..count {
        let token = Token {
            high: 0,
            low: index.wrapping_mul(STEP),
            issued: BULK_ISSUED,
            lifetime: BULK_LIFETIME,
        };
        counted = counted.saturating_add(count_of(alloc, &mut log, token, out));
    }
    counted
}
