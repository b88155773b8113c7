ghost use Rattle.std.specs.Prelude.{◌≡◌, ◌↔◌, ℕ, ◌∷◌, [], ◌<◌, ◌≤◌, ◌^◌, ◌-◌, List, length, true, OnOk, OnErr, IfSome, MatchOption};
ghost use Rattle.qh_buffers.specs.Ranges.{has};
ghost use Rattle.qh_recovery.specs.Accepted.{IsNew, IsGreatestOf, IsNextOf, IsNextIn, Remembers, without_below};

use qh_base::Memory;
use qh_buffers::ArrayRangeSet;
use std::alloc::Global;
use std::marker::Model;

/// How many numbers are looked at: the greatest that was accepted, and 128 below it.
const WINDOW_SIZE: u64 = 129;

/// Which packet numbers came, so that each is taken at most once (RFC 9000, section 12.3). It keeps the ranges that reach to at
/// most 128 below the greatest number.
#[derive(Drop)]
pub struct Dedup {
    pub(super) received: ArrayRangeSet,
}

impl Model for Dedup {
    ghost use Rattle.std.specs.Prelude.{List};
    ghost use Rattle.qh_buffers.specs.Ranges.{PlainRange};
    ghost use Rattle.qh_recovery.specs.Accepted.{IsWindow};

    ghost Value = { List PlainRange };

    ghost view = { λ s. s.received };

    ghost invariant = { λ s. IsWindow s.received };
}

impl Dedup {
    /// No number came yet.
    pub fn new(alloc: Global) -> Dedup
        ensures { Remembers [] result }
    {
        Dedup {
            received: ArrayRangeSet::new(alloc),
        }
    }

    /// Whether a packet with the number is to be taken: it never came, and isn't more than 128 below the greatest that came.
    pub fn is_new(&self, number: u64) -> bool
        ensures { (accepted : List ℕ) → Remembers accepted self.now → (result ≡ true) ↔ IsNew accepted number }
    {
        window_start(next_of(&self.received)) <= number && !self.received.contains(number)
    }

    /// The greatest number that came.
    pub fn greatest(&self) -> Option<u64>
        ensures greatest { (accepted : List ℕ) → Remembers accepted self.now → MatchOption result (accepted ≡ []) (IsGreatestOf accepted) }
        ensures bound { IfSome result (λ number. number < 2 ^ 62) }
    {
        self.received.max()
    }

    /// The greatest number that came plus 1, 0 if none came.
    pub fn next_expected(&self) -> u64
        ensures next { (accepted : List ℕ) → Remembers accepted self.now → IsNextOf accepted result }
        ensures bound { result ≤ 2 ^ 62 }
    {
        next_of(&self.received)
    }
}

/// The greatest number plus 1, 0 if there is none.
pub(super) fn next_of(received: &ArrayRangeSet) -> u64
    requires { (k : ℕ) → has received.now k ≡ true → k < 2 ^ 62 }
    ensures next { IsNextIn received.now result }
    ensures bound { result ≤ 2 ^ 62 }
{
    match received.max() {
        Some(greatest) => greatest + 1,
        None => 0,
    }
}

/// The least number that may be new, if the next is expected to be `next`.
pub(super) fn window_start(next: u64) -> u64
    ensures { result ≡ next - 129 }
{
    next.saturating_sub(WINDOW_SIZE)
}

/// Drops the ranges that lie wholly below a number.
pub(super) fn forget_below(ranges: &mut ArrayRangeSet, floor: u64)
    ensures { ranges.new ≡ without_below floor ranges.old }
{
    while let Some(range) = ranges.get(0) {
        if floor < range.end {
            break;
        }
        ranges.pop_min();
    }
}
