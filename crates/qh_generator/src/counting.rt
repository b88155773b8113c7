ghost use Rattle.std.specs.Prelude.{◌≡◌, ◌≤◌, ◌<◌, ◌+◌, ◌%◌, ◌^◌, ◌-◌, ℕ, List, [], length, get_or, min, true};
ghost use Rattle.qh_generator.specs.Counted.{counted_id, first_ids};
ghost use Rattle.qh_generator.specs.Given.{and_id};

use crate::ConnectionIdGenerator;
use qh_base::ConnectionId;
use std::marker::Model;

// How many bytes of an id the counter takes.
const COUNTER_LEN: usize = 7;

// With so many ids the counter begins again.
const COUNTERS: u64 = 1 << 56;

/// Connection ids that count: a mark, zero bytes, and a counter of 7 bytes in network order, which begins at 0, and again after 2^56 ids
/// (own, where `quinn-proto` draws random ids). A contract sees the length of the ids, the mark, how many ids were given (which saturates at
/// 2^64 - 1), and the counter of the next one.
#[derive(Drop)]
pub struct CountingIds {
    len: usize,
    mark: u8,
    given: u64,
    counter: u64,
}

impl Model for CountingIds {
    ghost use Rattle.qh_generator.specs.Counted.{Counting};

    ghost Value = { Counting };

    ghost use Rattle.qh_generator.specs.CountingIds.{counting_of, IsCounting};

    ghost view = { counting_of };

    ghost invariant = { IsCounting };
}

impl CountingIds {
    /// A source of ids of `len` bytes, which begin with this mark.
    pub fn new(len: usize, mark: u8) -> CountingIds
        requires room { 8 ≤ len }
        requires short { len ≤ 20 }
        ensures { result ≡ record { len = len; mark = mark; given = 0; counter = 0 } }
    {
        CountingIds {
            len,
            mark,
            given: 0,
            counter: 0,
        }
    }
}

impl ConnectionIdGenerator for CountingIds {
    ghost use Rattle.qh_generator.specs.Counted.{first_ids};

    ghost given = { λ c. first_ids c.len c.mark c.given };

    ghost cid_len = { λ c. c.len };

    ghost validates = { λ c id. Unit {0} };

    fn generate_cid(&mut self) -> ConnectionId
        ensures id { result ≡ counted_id self.old.len self.old.mark self.old.counter }
        ensures next { self.new ≡ record self.old { given = min (self.old.given + 1) (2 ^ 64 - 1); counter = (self.old.counter + 1) % 2 ^ 56 } }
        ensures size { length result ≡ self.old.len }
        ensures given { first_ids self.new.len self.new.mark self.new.given ≡ and_id (first_ids self.old.len self.old.mark self.old.given) result }
    {
        let id = counted(self.len, self.mark, self.counter);
        self.given = self.given.saturating_add(1);
        self.counter = (self.counter + 1) % COUNTERS;
        id
    }

    fn cid_len(&self) -> usize
        ensures value { result ≡ self.now.len }
        ensures room { 8 ≤ result }
        ensures short { result ≤ 20 }
    {
        self.len
    }

    /// True for every id.
    fn validate(&self, _: &ConnectionId) -> bool
        ensures { result ≡ true }
    {
        true
    }
}

// The id of this counter.
fn counted(len: usize, mark: u8, counter: u64) -> ConnectionId
    requires room { 8 ≤ len }
    requires short { len ≤ 20 }
    requires counter { counter < 2 ^ 56 }
    ensures { result ≡ counted_id len mark counter }
{
    let mut bytes = [0; ConnectionId::MAX_LEN];
    bytes[0] = mark;
    bytes[len - COUNTER_LEN..len].copy_from_slice(&counter.to_be_bytes()[1..]);
    ConnectionId::new(&bytes[..len]).unwrap()
}

/// An id has the length and begins with the mark, ids of one source with different counters are different, and so are ids of sources with
/// different marks. After 2^56 ids they come again. The ids that were given first are those of the counters from 0.
pub fn counted_ids()
    ensures form { (len mark n : ℕ) → 8 ≤ len → (length (counted_id len mark n) ≡ len) × (get_or (counted_id len mark n) 0 0 ≡ mark) }
    ensures apart { (len mark m n : ℕ) → m < 2 ^ 56 → n < 2 ^ 56 → counted_id len mark m ≡ counted_id len mark n → m ≡ n }
    ensures marks { (len mark m other_len other_mark n : ℕ) → counted_id len mark m ≡ counted_id other_len other_mark n → mark ≡ other_mark }
    ensures again { (len mark n : ℕ) → counted_id len mark (n + 2 ^ 56) ≡ counted_id len mark n }
    ensures count { (len mark count : ℕ) → length (first_ids len mark count) ≡ count }
    ensures order { (len mark count n : ℕ) → n < count → get_or (first_ids len mark count) n [] ≡ counted_id len mark n }
{}
