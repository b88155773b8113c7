ghost use Rattle.std.specs.Prelude.{◌≡◌, ℕ, ◌+◌, ◌<◌, ◌≤◌, ◌++◌, ◌&&◌, ◌||◌, ◌==◌, not, true, false, List, [], ◌∷◌, length, None, OnOk, OnErr, IsSome, IfSome, MatchOption};
ghost use Rattle.std.specs.Ordering.{nat_cmp};
ghost use Rattle.std.specs.BTreeMap.{get, IsOrdered};
ghost use Rattle.qh_buffers.specs.Ranges.{has, is_in, front_of, start_behind, paired, joined, up_to, above, before, from_on, between, clipped, AreApart, IsAdded, IsTakenOut, IsSplit, IsLeast, IsGreatest, IsNextGap};

use qh_base::Memory;
use std::alloc::Global;
use std::collections::BTreeMap;
use std::marker::Model;
use std::ops::{Bound, Range};

/// A set of numbers, kept as ranges in order, none empty and no two touching, in a map from where a range starts to where it
/// ends. Each range that a call looks at, puts in or takes out costs the logarithm of how many there are. A range takes up to
/// about 55 bytes.
#[derive(Drop)]
pub struct RangeSet {
    ranges: BTreeMap<u64, u64>,
}

impl Model for RangeSet {
    ghost use Rattle.std.specs.Prelude.{List};
    ghost use Rattle.qh_buffers.specs.Ranges.{PlainRange, paired, AreApart};

    ghost Value = { List PlainRange };

    ghost view = { λ s. paired s.ranges.entries };

    ghost invariant = { λ s. AreApart 0 (paired s.ranges.entries) };
}

impl RangeSet {
    /// The empty set.
    pub fn new(alloc: Global) -> RangeSet
        ensures { result ≡ [] }
    {
        RangeSet {
            ranges: BTreeMap::new(alloc),
        }
    }

    /// How many ranges there are.
    pub fn len(&self) -> usize
        ensures { result ≡ length self.now }
    {
        self.ranges.len()
    }

    /// Whether the set has no number.
    pub fn is_empty(&self) -> bool
        ensures { result ≡ (length self.now == 0) }
    {
        self.ranges.is_empty()
    }

    /// The ranges stand in order, none is empty, and no two touch. It does nothing: its contract says so.
    pub fn is_apart(&self)
        ensures { AreApart 0 self.now }
    {
        let _ = &self.ranges;
    }

    /// Whether the set has the number.
    pub fn contains(&self, number: u64) -> bool
        ensures { result ≡ has self.now number }
    {
        number < lacking_from(&self.ranges, number)
    }

    /// The least number.
    pub fn min(&self) -> Option<u64>
        ensures { MatchOption result (self.now ≡ []) (IsLeast self.now) }
    {
        let (start, _) = self.ranges.first_key_value()?;
        Some(*start)
    }

    /// The greatest number.
    pub fn max(&self) -> Option<u64>
        ensures { MatchOption result (self.now ≡ []) (IsGreatest self.now) }
    {
        let (_, end) = self.ranges.last_key_value()?;
        Some(*end - 1)
    }

    /// How many numbers from 0 on are there without a gap.
    pub fn front(&self) -> u64
        ensures value { result ≡ front_of self.now }
        ensures full { (k : ℕ) → k < result → has self.now k ≡ true }
        ensures lacks { has self.now result ≡ false }
    {
        let Some((start, end)) = self.ranges.first_key_value() else {
            return 0;
        };
        if *start == 0 {
            return *end;
        }
        0
    }

    /// The first numbers within a range that the set lacks.
    pub(crate) fn next_gap(&self, within: Range<u64>) -> Range<u64>
        requires { within.start ≤ within.end }
        ensures { IsNextGap (has self.now) within.start within.end result.start result.end }
    {
        gap_in(&self.ranges, within)
    }

    /// Takes the least range out.
    pub fn pop_min(&mut self) -> Option<Range<u64>>
        ensures { MatchOption result ((self.old ≡ []) × (self.new ≡ [])) (λ r. self.old ≡ record { start = r.start; end = r.end } ∷ self.new) }
    {
        let (start, end) = self.ranges.pop_first()?;
        Some(start..end)
    }

    /// Adds the numbers of a range.
    pub fn insert(&mut self, range: Range<u64>) -> Result<(), Memory>
        ensures ok { OnOk result ((k : ℕ) → has self.new k ≡ (is_in (record { start = range.start; end = range.end }) k || has self.old k)) }
        ensures err { OnErr result (self.new ≡ self.old) }
    {
        if range.end <= range.start {
            return Ok(());
        }
        insert_into(&mut self.ranges, range)
    }

    /// Takes the numbers of a range out.
    pub fn remove(&mut self, range: Range<u64>) -> Result<(), Memory>
        ensures ok { OnOk result ((k : ℕ) → has self.new k ≡ (not (is_in (record { start = range.start; end = range.end }) k) && has self.old k)) }
        ensures err { OnErr result (self.new ≡ self.old) }
    {
        if range.end <= range.start {
            return Ok(());
        }
        remove_from(&mut self.ranges, range)
    }
}

/// The last range that starts at a number or before it.
fn last_up_to(ranges: &BTreeMap<u64, u64>, number: u64) -> Option<Range<u64>>
    ensures last { MatchOption result (up_to number ranges.now.entries ≡ []) (λ r. (front : List (ℕ × ℕ)) × (up_to number ranges.now.entries ≡ front ++ (r.start, r.end) ∷ [])) }
    ensures ordered { IsOrdered nat_cmp ranges.now }
{
    let (start, end) = ranges.range(..=number).next_back()?;
    Some(*start..*end)
}

/// The first range that starts behind a number.
fn first_above(ranges: &BTreeMap<u64, u64>, number: u64) -> Option<Range<u64>>
    ensures first { MatchOption result (above number ranges.now.entries ≡ []) (λ r. (rest : List (ℕ × ℕ)) × (above number ranges.now.entries ≡ (r.start, r.end) ∷ rest)) }
    ensures ordered { IsOrdered nat_cmp ranges.now }
{
    let behind = (Bound::Excluded(number), Bound::Unbounded);
    let (start, end) = ranges.range(behind).next()?;
    Some(*start..*end)
}

/// The first number from this one on that the ranges lack.
fn lacking_from(ranges: &BTreeMap<u64, u64>, number: u64) -> u64
    requires { AreApart 0 (paired ranges.now.entries) }
    ensures above { number ≤ result }
    ensures full { (k : ℕ) → number ≤ k → k < result → has (paired ranges.now.entries) k ≡ true }
    ensures lacks { has (paired ranges.now.entries) result ≡ false }
{
    match last_up_to(ranges, number) {
        Some(range) => number.max(range.end),
        None => number,
    }
}

/// The first number from this one on that the ranges have, at most a limit.
fn had_from(ranges: &BTreeMap<u64, u64>, number: u64, limit: u64) -> u64
    requires apart { AreApart 0 (paired ranges.now.entries) }
    requires lacks { has (paired ranges.now.entries) number ≡ false }
    requires order { number < limit }
    ensures above { number < result }
    ensures below { result ≤ limit }
    ensures free { (k : ℕ) → number ≤ k → k < result → has (paired ranges.now.entries) k ≡ false }
{
    match first_above(ranges, number) {
        Some(range) => limit.min(range.start),
        None => limit,
    }
}

/// The first numbers within a range that the ranges lack.
fn gap_in(ranges: &BTreeMap<u64, u64>, within: Range<u64>) -> Range<u64>
    requires apart { AreApart 0 (paired ranges.now.entries) }
    requires order { within.start ≤ within.end }
    ensures { IsNextGap (has (paired ranges.now.entries)) within.start within.end result.start result.end }
{
    let start = lacking_from(ranges, within.start);
    if within.end <= start {
        return within.end..within.end;
    }
    let end = had_from(ranges, start, within.end);
    start..end
}

/// Adds a range that isn't empty: it grows the one before it that it touches, or is put in, and takes in those behind it that it
/// touches.
fn insert_into(ranges: &mut BTreeMap<u64, u64>, range: Range<u64>) -> Result<(), Memory>
    requires apart { AreApart 0 (paired ranges.old.entries) }
    requires some { range.start < range.end }
    ensures ok { OnOk result (IsAdded (paired ranges.old.entries) (paired ranges.new.entries) (record { start = range.start; end = range.end })) }
    ensures err { OnErr result (ranges.new.entries ≡ ranges.old.entries) }
{
    if let Some(last) = last_reaching(ranges, range.start) {
        set_last_end(ranges, last.end.max(range.end));
        return Ok(());
    }
    let Some(earlier) = reaching(ranges, range.start) else {
        ranges.insert(range.start, range.end)?;
        absorb(ranges, range.start, range.end);
        return Ok(());
    };
    absorb(ranges, earlier.start, earlier.end.max(range.end));
    Ok(())
}

/// The last range of all, where it starts at a number or before it and reaches to that number.
fn last_reaching(ranges: &BTreeMap<u64, u64>, number: u64) -> Option<Range<u64>>
    ensures { IfSome result (λ r. (front : List (ℕ × ℕ)) × (ranges.now.entries ≡ front ++ (r.start, r.end) ∷ []) × (r.start ≤ number) × (number ≤ r.end)) }
{
    let (start, end) = ranges.last_key_value()?;
    if number < *start || *end < number {
        return None;
    }
    Some(*start..*end)
}

/// Lets the last range of all end at an end. The others stay as they are.
fn set_last_end(ranges: &mut BTreeMap<u64, u64>, end: u64)
    requires { AreApart 0 (paired ranges.old.entries) }
    ensures { (front : List (ℕ × ℕ)) → (last : ℕ × ℕ) → ranges.old.entries ≡ front ++ last ∷ [] → ranges.new.entries ≡ front ++ (last.0, end) ∷ [] }
{
    if let Some(entry) = ranges.last_entry() {
        *entry.into_mut() = end;
    }
}

/// The last range that starts at a number or before it, where it reaches to that number.
fn reaching(ranges: &BTreeMap<u64, u64>, number: u64) -> Option<Range<u64>>
    ensures none { result ≡ None → start_behind 0 (paired (up_to number ranges.now.entries)) ≤ number }
    ensures some { IfSome result (λ r. (front : List (ℕ × ℕ)) × (up_to number ranges.now.entries ≡ front ++ (r.start, r.end) ∷ []) × (number ≤ r.end)) }
    ensures ordered { IsOrdered nat_cmp ranges.now }
{
    let earlier = last_up_to(ranges, number)?;
    if earlier.end < number {
        return None;
    }
    Some(earlier)
}

/// Lets the range at a start end at an end, or where the last of those behind it ends that it then touches. They go.
fn absorb(ranges: &mut BTreeMap<u64, u64>, start: u64, mut end: u64)
    requires { IsSome (get nat_cmp ranges.old start) }
    ensures { ranges.new.entries ≡ before start ranges.old.entries ++ joined start end (above start ranges.old.entries) }
{
    while let Some(next) = touched(ranges, start, end) {
        let _ = ranges.remove(&next.start);
        end = end.max(next.end);
    }
    if let Some(kept) = ranges.get_mut(&start) {
        *kept = end;
    }
}

/// The first range behind a start, where it begins at an end or before it.
fn touched(ranges: &BTreeMap<u64, u64>, start: u64, end: u64) -> Option<Range<u64>>
    ensures none { result ≡ None → joined start end (above start ranges.now.entries) ≡ (start, end) ∷ above start ranges.now.entries }
    ensures some { IfSome result (λ r. (rest : List (ℕ × ℕ)) × (above start ranges.now.entries ≡ (r.start, r.end) ∷ rest) × (r.start ≤ end)) }
    ensures ordered { IsOrdered nat_cmp ranges.now }
{
    let next = first_above(ranges, start)?;
    if end < next.start {
        return None;
    }
    Some(next)
}

/// Takes out a range that isn't empty.
fn remove_from(ranges: &mut BTreeMap<u64, u64>, range: Range<u64>) -> Result<(), Memory>
    requires apart { AreApart 0 (paired ranges.old.entries) }
    requires some { range.start < range.end }
    ensures ok { OnOk result (IsTakenOut (paired ranges.old.entries) (paired ranges.new.entries) (record { start = range.start; end = range.end })) }
    ensures err { OnErr result (ranges.new.entries ≡ ranges.old.entries) }
{
    split_at(ranges, range.end)?;
    remove_between(ranges, range.start, range.end);
    cut_before(ranges, range.start);
    Ok(())
}

/// Puts what the last range that starts before a number has from that number on in as a range of its own.
fn split_at(ranges: &mut BTreeMap<u64, u64>, number: u64) -> Result<(), Memory>
    requires { AreApart 0 (paired ranges.old.entries) }
    ensures ok { OnOk result (IsSplit number ranges.old.entries ranges.new.entries) }
    ensures err { OnErr result (ranges.new.entries ≡ ranges.old.entries) }
{
    let Some(last) = last_before(ranges, number) else {
        return Ok(());
    };
    if last.end <= number {
        return Ok(());
    }
    ranges.insert(number, last.end)?;
    Ok(())
}

/// Takes out the ranges that start from one number on to before another.
fn remove_between(ranges: &mut BTreeMap<u64, u64>, from: u64, to: u64)
    requires { from ≤ to }
    ensures { ranges.new.entries ≡ before from ranges.old.entries ++ from_on to ranges.old.entries }
{
    while let Some(start) = start_between(ranges, from, to) {
        let _ = ranges.remove(&start);
    }
}

/// The first start of a range from one number on to before another.
fn start_between(ranges: &BTreeMap<u64, u64>, from: u64, to: u64) -> Option<u64>
    requires { from ≤ to }
    ensures none { result ≡ None → between from to ranges.now.entries ≡ [] }
    ensures some { IfSome result (λ k. (from ≤ k) × (k < to) × IsSome (get nat_cmp ranges.now k)) }
    ensures ordered { IsOrdered nat_cmp ranges.now }
{
    let (start, _) = ranges.range(from..to).next()?;
    Some(*start)
}

/// Lets the last range that starts before a number end there, where it reaches beyond.
fn cut_before(ranges: &mut BTreeMap<u64, u64>, number: u64)
    requires { AreApart 0 (paired (before number ranges.old.entries)) }
    ensures { ranges.new.entries ≡ clipped number (before number ranges.old.entries) ++ from_on number ranges.old.entries }
{
    let Some(last) = last_before(ranges, number) else {
        return;
    };
    if last.end <= number {
        return;
    }
    if let Some(end) = ranges.get_mut(&last.start) {
        *end = number;
    }
}

/// The last range that starts before a number.
fn last_before(ranges: &BTreeMap<u64, u64>, number: u64) -> Option<Range<u64>>
    ensures last { MatchOption result (before number ranges.now.entries ≡ []) (λ r. (front : List (ℕ × ℕ)) × (before number ranges.now.entries ≡ front ++ (r.start, r.end) ∷ [])) }
    ensures ordered { IsOrdered nat_cmp ranges.now }
{
    let (start, end) = ranges.range(..number).next_back()?;
    Some(*start..*end)
}
