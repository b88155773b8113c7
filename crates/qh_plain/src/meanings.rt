//! What a list of fields means.

mod fields;
mod head;
mod readable;
mod text;
mod values;

pub use fields::means_fields;
pub use head::means_head;
pub use readable::is_readable;
