//! Two honest ends of whole connections. Laws alone, over the contracts of `qh_conn`.
#![tactic(auto)]

mod ends;
mod ids;

pub use ends::{
    can_greet, greets, honest_ends, initials_sealed, retry_kept, says_its_own, two_ends,
};
pub use ids::few_ids;
