//! What the halves of a stream hold, as `quinn-proto` has it in `range_set`, `connection::send_buffer` and
//! `connection::assembler`: sets of numbers as ranges, the bytes that are sent and sent again until they are acknowledged,
//! and the bytes that came and wait to be read.
#![tactic(auto)]

mod assembler;
mod range_set;
mod send_buffer;

pub use assembler::{Assembler, Chunk};
pub use range_set::{ArrayRangeSet, RangeSet};
pub use send_buffer::{Mark, Piece, SendBuffer};
