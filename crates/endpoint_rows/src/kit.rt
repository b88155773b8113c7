//! What both endpoints are made with: plain sessions, ids and words that count, and a log of used tokens.
ghost use Rattle.std.specs.Prelude.{◌≡◌, ◌≤◌, true};
ghost use Rattle.endpoint_rows.specs.Counted.{counted_id, first_ids, first_words, is_taken};

use qh_base::{ConnectionId, Memory};
use qh_generator::ConnectionIdGenerator;
use qh_kit::Kit;
use qh_packet::PlainSession;
use qh_parts::BloomTokenLog;
use qh_stateless::Words;

// With so many ids the counter begins again.
const COUNTERS: u64 = 1 << 56;

// How many bytes an id has at most.
const MAX_LEN: usize = 8;

/// The parts of a plain endpoint.
#[derive(Drop)]
pub(crate) struct PlainKit;

impl Kit for PlainKit {
    type S = PlainSession;

    type G = RowIds;

    type R = CountingWords;

    type T = BloomTokenLog;

    fn session(
        &mut self,
        key_id: ConnectionId,
        server_name: &[u8],
    ) -> Result<PlainSession, Memory> {
        PlainSession::new(key_id, server_name)
    }
}

/// Words that count from 0.
#[derive(Drop)]
pub(crate) struct CountingWords {
    pub(crate) given: u64,
}

impl Words for CountingWords {
    ghost given = { λ c. first_words c.given };

    fn next(&mut self) -> u64 {
        let word = self.given;
        self.given = self.given.saturating_add(1);
        word
    }
}

/// Connection ids that count: the last bytes, so many, of a mark and a counter of 7 bytes in network order, which begins at 0. So one of 8 bytes
/// begins with the mark, and one of 1 byte is the low byte of the counter.
#[derive(Drop)]
pub(crate) struct RowIds {
    len: usize,
    mark: u8,
    // Whether only ids that begin with the mark are taken.
    is_strict: bool,
    given: u64,
    ghost short: { len ≤ 8 },
    ghost whole: { is_strict ≡ true → len ≡ 8 },
}

impl RowIds {
    /// Ids of so many bytes, 8 at most. Those of 8 bytes may be the only ones that are taken.
    pub(crate) fn new(len: usize, mark: u8, is_strict: bool) -> RowIds {
        let len = len.min(MAX_LEN);
        RowIds {
            len,
            mark,
            is_strict: is_strict && len == MAX_LEN,
            given: 0,
        }
    }
}

impl ConnectionIdGenerator for RowIds {
    ghost given = { λ c. first_ids c.len c.mark c.given };

    ghost cid_len = { λ c. c.len };

    ghost validates = { λ c id. is_taken c.is_strict c.mark id ≡ true };

    fn generate_cid(&mut self) -> ConnectionId {
        let id = counted(self.len, self.mark, self.given);
        self.given = self.given.saturating_add(1);
        id
    }

    fn cid_len(&self) -> usize {
        self.len
    }

    fn validate(&self, id: &ConnectionId) -> bool {
        let first = id.bytes().first().copied().unwrap_or(0);
        !self.is_strict || first == self.mark
    }
}

// The id of this number.
fn counted(len: usize, mark: u8, number: u64) -> ConnectionId
    requires { len ≤ 8 }
    ensures { result ≡ counted_id len mark number }
{
    let word = COUNTERS * u64::from(mark) + number % COUNTERS;
    ConnectionId::new(&word.to_be_bytes()[MAX_LEN - len..]).unwrap()
}
