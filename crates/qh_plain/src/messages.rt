//! Messages that bytes spell and datagrams carry.

mod placed;
mod spelling;
mod whole;

pub use spelling::spells;
pub use whole::{is_whole, whole_stream};
