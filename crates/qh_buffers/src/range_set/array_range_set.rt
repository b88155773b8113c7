ghost use Rattle.std.specs.Prelude.{◌≡◌, ℕ, ◌+◌, ◌<◌, ◌≤◌, ◌++◌, ◌&&◌, ◌||◌, ◌==◌, not, true, false, [], ◌∷◌, length, take, drop, slice_get, Some, OnOk, OnErr, IsOk, MatchOption, vec_len};
ghost use Rattle.std.specs.Vec.{vec_capacity};
ghost use Rattle.qh_buffers.specs.Ranges.{has, is_in, front_of, plain, kept, AreApart, AreNear, IsAdded, IsTakenOut, IsLeast, IsGreatest};

use qh_base::Memory;
use std::alloc::Global;
use std::marker::Model;
use std::ops::Range;

/// A set of numbers, kept as ranges in order, none empty and no two touching, in a vector. A range that is put in or taken out
/// moves all behind it, so this is for sets that their owner keeps to a few ranges; `RangeSet` is for any number of them.
#[derive(Drop)]
pub struct ArrayRangeSet {
    ranges: Vec<Range<u64>>,
}

impl Model for ArrayRangeSet {
    ghost use Rattle.std.specs.Prelude.{List};
    ghost use Rattle.qh_buffers.specs.Ranges.{PlainRange, plain, AreApart};

    ghost Value = { List PlainRange };

    ghost view = { λ s. plain s.ranges.items };

    ghost invariant = { λ s. AreApart 0 (plain s.ranges.items) };
}

impl ArrayRangeSet {
    /// The empty set.
    pub fn new(alloc: Global) -> ArrayRangeSet
        ensures { result ≡ [] }
    {
        ArrayRangeSet {
            ranges: Vec::new(alloc),
        }
    }

    /// How many ranges there are.
    pub fn len(&self) -> usize
        ensures { result ≡ length self.now }
    {
        self.ranges.len()
    }

    /// Whether the set has no number.
    pub fn is_empty(&self) -> bool
        ensures { result ≡ (length self.now == 0) }
    {
        self.ranges.is_empty()
    }

    /// The ranges stand in order, none is empty, and no two touch. It does nothing: its contract says so.
    pub fn is_apart(&self)
        ensures { AreApart 0 self.now }
    {
        let _ = &self.ranges;
    }

    /// Whether the set has the number.
    pub fn contains(&self, number: u64) -> bool
        ensures { result ≡ has self.now number }
    {
        number < lacking_from(&self.ranges, number)
    }

    /// The least number.
    pub fn min(&self) -> Option<u64>
        ensures { MatchOption result (self.now ≡ []) (IsLeast self.now) }
    {
        let first = self.ranges.first()?;
        Some(first.start)
    }

    /// The greatest number.
    pub fn max(&self) -> Option<u64>
        ensures { MatchOption result (self.now ≡ []) (IsGreatest self.now) }
    {
        let last = self.ranges.last()?;
        Some(last.end - 1)
    }

    /// The range at an index, in their order.
    pub fn get(&self, index: usize) -> Option<Range<u64>>
        ensures { MatchOption result (length self.now ≤ index) (λ r. slice_get self.now index ≡ Some (record { start = r.start; end = r.end })) }
    {
        let range = self.ranges.get(index)?;
        Some(range.start..range.end)
    }

    /// How many numbers from 0 on are there without a gap.
    pub fn front(&self) -> u64
        ensures value { result ≡ front_of self.now }
        ensures full { (k : ℕ) → k < result → has self.now k ≡ true }
        ensures lacks { has self.now result ≡ false }
    {
        let Some(first) = self.ranges.first() else {
            return 0;
        };
        if first.start == 0 {
            return first.end;
        }
        0
    }

    /// Takes the least range out.
    pub fn pop_min(&mut self) -> Option<Range<u64>>
        ensures { MatchOption result ((self.old ≡ []) × (self.new ≡ [])) (λ r. self.old ≡ record { start = r.start; end = r.end } ∷ self.new) }
    {
        if self.ranges.is_empty() {
            return None;
        }
        Some(self.ranges.remove(0))
    }

    /// Adds the numbers of a range.
    pub fn insert(&mut self, range: Range<u64>) -> Result<(), Memory>
        ensures ok { OnOk result ((k : ℕ) → has self.new k ≡ (is_in (record { start = range.start; end = range.end }) k || has self.old k)) }
        ensures err { OnErr result (self.new ≡ self.old) }
    {
        if range.end <= range.start {
            return Ok(());
        }
        insert_into(&mut self.ranges, range)
    }

    /// Adds the numbers of a range to this set and to another one, or, after want of memory, to neither.
    pub fn insert_both(
        &mut self,
        other: &mut ArrayRangeSet,
        range: Range<u64>,
    ) -> Result<(), Memory>
        ensures ok { OnOk result ((k : ℕ) → has self.new k ≡ (is_in (record { start = range.start; end = range.end }) k || has self.old k)) }
        ensures other_ok { OnOk result ((k : ℕ) → has other.new k ≡ (is_in (record { start = range.start; end = range.end }) k || has other.old k)) }
        ensures err { OnErr result ((self.new ≡ self.old) × (other.new ≡ other.old)) }
    {
        if range.end <= range.start {
            return Ok(());
        }
        self.ranges.reserve(1)?;
        insert_into(&mut other.ranges, range.start..range.end)?;
        let _ = insert_into(&mut self.ranges, range);
        Ok(())
    }

    /// Takes the numbers of a range out.
    pub fn remove(&mut self, range: Range<u64>) -> Result<(), Memory>
        ensures ok { OnOk result ((k : ℕ) → has self.new k ≡ (not (is_in (record { start = range.start; end = range.end }) k) && has self.old k)) }
        ensures err { OnErr result (self.new ≡ self.old) }
    {
        if range.end <= range.start {
            return Ok(());
        }
        remove_from(&mut self.ranges, range)
    }
}

/// The indexes of the ranges that end at a number or later and start at another or earlier.
fn near(ranges: &[Range<u64>], first: u64, last: u64) -> Range<usize>
    requires apart { AreApart 0 (plain ranges.now) }
    requires order { first ≤ last + 1 }
    ensures { AreNear (plain ranges.now) first last result.start result.end }
{
    let from = ranges.partition_point(|range: &Range<u64>| range.end < first);
    let to = ranges.partition_point(|range: &Range<u64>| range.start <= last);
    from..to
}

/// The first number from this one on that the ranges lack.
fn lacking_from(ranges: &[Range<u64>], number: u64) -> u64
    requires { AreApart 0 (plain ranges.now) }
    ensures above { number ≤ result }
    ensures full { (k : ℕ) → number ≤ k → k < result → has (plain ranges.now) k ≡ true }
    ensures lacks { has (plain ranges.now) result ≡ false }
{
    let near = near(ranges, number, number);
    if near.start == near.end {
        return number;
    }
    number.max(ranges[near.end - 1].end)
}

/// Writes one range in the place of those at some indexes.
fn put_over(ranges: &mut Vec<Range<u64>>, from: usize, to: usize, range: Range<u64>)
    requires order { from < to }
    requires bound { to ≤ vec_len ranges.old }
    ensures { ranges.new.items ≡ take from ranges.old.items ++ range ∷ drop to ranges.old.items }
{
    ranges[from] = range;
    drop(ranges.drain(from + 1..to));
}

/// Adds a range that isn't empty.
fn insert_into(ranges: &mut Vec<Range<u64>>, range: Range<u64>) -> Result<(), Memory>
    requires apart { AreApart 0 (plain ranges.old.items) }
    requires some { range.start < range.end }
    ensures ok { OnOk result (IsAdded (plain ranges.old.items) (plain ranges.new.items) (record { start = range.start; end = range.end })) }
    ensures room { length ranges.old.items < vec_capacity ranges.old → IsOk result }
    ensures err { OnErr result (ranges.new.items ≡ ranges.old.items) }
{
    let near = near(ranges, range.start, range.end);
    if near.start == near.end {
        ranges.insert(near.start, range)?;
        return Ok(());
    }
    let start = range.start.min(ranges[near.start].start);
    let end = range.end.max(ranges[near.end - 1].end);
    put_over(ranges, near.start, near.end, start..end);
    Ok(())
}

/// Takes out a range that isn't empty.
fn remove_from(ranges: &mut Vec<Range<u64>>, range: Range<u64>) -> Result<(), Memory>
    requires apart { AreApart 0 (plain ranges.old.items) }
    requires some { range.start < range.end }
    ensures ok { OnOk result (IsTakenOut (plain ranges.old.items) (plain ranges.new.items) (record { start = range.start; end = range.end })) }
    ensures err { OnErr result (ranges.new.items ≡ ranges.old.items) }
{
    let near = near(ranges, range.start + 1, range.end - 1);
    if near.start == near.end {
        return Ok(());
    }
    let start = ranges[near.start].start;
    let end = ranges[near.end - 1].end;
    put_rest(ranges, near, start..range.start, range.end..end)
}

/// Writes in the place of the ranges at some indexes those of two that aren't empty.
fn put_rest(
    ranges: &mut Vec<Range<u64>>,
    place: Range<usize>,
    front: Range<u64>,
    back: Range<u64>,
) -> Result<(), Memory>
    requires order { place.start < place.end }
    requires bound { place.end ≤ vec_len ranges.old }
    ensures ok { OnOk result (ranges.new.items ≡ take place.start ranges.old.items ++ (kept front ++ (kept back ++ drop place.end ranges.old.items))) }
    ensures err { OnErr result (ranges.new.items ≡ ranges.old.items) }
{
    if front.end <= front.start {
        if back.end <= back.start {
            cut(ranges, place.start, place.end);
            return Ok(());
        }
        put_over(ranges, place.start, place.end, back);
        return Ok(());
    }
    if back.end <= back.start {
        put_over(ranges, place.start, place.end, front);
        return Ok(());
    }
    ranges.insert(place.start, front)?;
    put_over(ranges, place.start + 1, place.end + 1, back);
    Ok(())
}

/// Drops the ranges at some indexes.
fn cut(ranges: &mut Vec<Range<u64>>, from: usize, to: usize)
    requires order { from ≤ to }
    requires bound { to ≤ vec_len ranges.old }
    ensures { ranges.new.items ≡ take from ranges.old.items ++ drop to ranges.old.items }
{
    drop(ranges.drain(from..to));
}
