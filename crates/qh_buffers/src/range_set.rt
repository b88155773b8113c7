//! Sets of numbers as ranges: one for any number of ranges, and one for a few.

mod array_range_set;
mod btree_range_set;

pub use array_range_set::ArrayRangeSet;
pub use btree_range_set::RangeSet;
