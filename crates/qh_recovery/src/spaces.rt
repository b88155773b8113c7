//! What an end knows of the packets that came in a packet number space (RFC 9000, section 12.3).

mod dedup;
mod pending_acks;
mod received;

pub use dedup::Dedup;
pub use pending_acks::PendingAcks;
pub use received::insert_received;
