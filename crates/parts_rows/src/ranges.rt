//! Sets of ranges.
use crate::say::{Line, read};
use qh_buffers::ArrayRangeSet;
use row_text::Words;
use std::alloc::Global;

// A set with more ranges is told by their number.
const MAX_RANGES: usize = 20;

// What is done to a set.
#[derive(Clone, Copy)]
enum Call {
    New,
    Insert,
    Remove,
    Apart,
    Has,
    Ends,
    Pop,
}

const CALLS: [(&str, Call, u8); 7] = [
    ("new", Call::New, 0),
    ("insert", Call::Insert, 2),
    ("remove", Call::Remove, 2),
    ("apart", Call::Apart, 1),
    ("has", Call::Has, 1),
    ("ends", Call::Ends, 0),
    ("pop", Call::Pop, 0),
];

/// A set of numbers.
#[derive(Drop)]
pub(crate) struct Ranges {
    set: ArrayRangeSet,
}

impl Ranges {
    pub(crate) fn new(alloc: Global) -> Ranges {
        Ranges {
            set: ArrayRangeSet::new(alloc),
        }
    }

    /// Answers a row of `ranges`.
    pub(crate) fn answer(&mut self, alloc: Global, words: &mut Words<'_>, out: &mut Line) {
        let Some(row) = read(&CALLS, words) else {
            return out.refuse();
        };
        match row.call {
            Call::New => self.set = ArrayRangeSet::new(alloc),
            Call::Insert => out.note(self.set.insert(row.first..row.second)),
            Call::Remove => out.note(self.set.remove(row.first..row.second)),
            Call::Apart => self.insert_apart(row.first, out),
            Call::Has => return out.put_yes(self.set.contains(row.first)),
            Call::Ends => return self.put_ends(out),
            Call::Pop => return self.pop(out),
        }
        put_ranges(&self.set, out);
    }

    // Inserts so many ranges of one number each, a number apart.
    fn insert_apart(&mut self, count: u64, out: &mut Line) {
        for place in 0..count {
            let start = place.saturating_mul(2);
            out.note(self.set.insert(start..start.saturating_add(1)));
        }
    }

    fn put_ends(&self, out: &mut Line) {
        out.put_form("front #", &[self.set.front()]);
        out.put_some(", least ", self.set.min());
        out.put_some(", greatest ", self.set.max());
    }

    fn pop(&mut self, out: &mut Line) {
        match self.set.pop_min() {
            Some(range) => out.put_range("", range.start, range.end),
            None => out.put("none"),
        }
    }
}

// Appends the ranges of a set, or how many there are.
fn put_ranges(set: &ArrayRangeSet, out: &mut Line) {
    if set.is_empty() {
        return out.put("none");
    }
    if set.len() > MAX_RANGES {
        return out.put_form("ranges #", &[set.len() as u64]);
    }
    for index in 0..set.len() {
        if let Some(range) = set.get(index) {
            out.put_range(if index == 0 { "" } else { " " }, range.start, range.end);
        }
    }
}
