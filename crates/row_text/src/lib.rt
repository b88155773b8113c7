//! Tables of rows: a program reads rows, each a word and its arguments, and answers each with a line.
#![tactic(auto)]

mod answers;
mod bytes;
mod table;
mod words;

pub use answers::{put_bytes, put_hex_number, put_number, put_text};
pub use table::{RowFault, Table, answer_rows, read_all, run, write_all};
pub use words::Words;
