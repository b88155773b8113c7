//! How the packet number space of application data stands to all that was done with a connection, and the datagrams that were
//! handed in and out. Laws alone.
#![tactic(auto)]

mod datagrams;
mod limits;
mod spaces;
mod waiting;

pub use datagrams::datagrams_carry;
pub use limits::space_keeps_within;
pub use spaces::space_stands;
pub use waiting::space_keeps_what_came;
