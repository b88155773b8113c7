ghost use Rattle.std.specs.Prelude.{◌≡◌, ℕ, true};
ghost use Rattle.lock_rows.specs.Replays.{is_legal, sum_of};

use crate::added::Added;
use qh_base::Memory;
use qh_lock::Kept;
use std::alloc::Global;

/// A sum, with the calls that made it.
#[derive(Drop)]
pub(crate) struct Tally {
    sum: u64,
    calls: Vec<Added>,
    ghost replays: { sum ≡ sum_of 0 calls.items },
    ghost legal: { is_legal 0 calls.items ≡ true },
}

impl Kept for Tally {
    type Entry = Added;

    ghost history = { λ t. t.calls.items };

    ghost is_legal = { λ h. is_legal 0 h ≡ true };

    fn entries(&self) -> u64 {
        self.calls.len() as u64
    }

    ghost keeps = { λ t. t.legal };
}

impl Tally {
    ghost use Rattle.std.specs.Prelude.{◌≡◌, [], ◌∷◌, ◌++◌, MatchResult};
    ghost use Rattle.lock_rows.specs.Replays.{added};
    ghost use Rattle.lock_rows.specs.Tallies.{calls_of};

    /// Nothing was added yet.
    pub(crate) fn new(alloc: Global) -> Tally
        ensures { calls_of result ≡ [] }
    {
        Tally {
            sum: 0,
            calls: Vec::new(alloc),
        }
    }

    /// Adds a number, and replies the sum before it. A sum past 64 bits is want of memory too.
    pub(crate) fn add(&mut self, thread: u32, number: u32) -> Result<u64, Memory>
        ensures { MatchResult result (λ r. calls_of self.new ≡ calls_of self.old ++ added thread number r ∷ []) (λ _. calls_of self.new ≡ calls_of self.old) }
    {
        let reply = self.sum;
        let Some(sum) = reply.checked_add(u64::from(number)) else {
            return Err(Memory);
        };
        self.calls.push(Added {
            thread,
            number,
            reply,
        })?;
        self.sum = sum;
        Ok(reply)
    }

    /// The calls, in the order in which they were made.
    pub(crate) fn calls(&self) -> &[Added]
        ensures { result.now ≡ calls_of self.now }
    {
        self.calls.as_slice()
    }
}
