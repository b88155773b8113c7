//! Parts of an endpoint that stand by themselves: the log of used tokens, the estimators, the limiter of work, and the buffer of
//! a stream that is read to its end. The names are those of `quinn-proto` and `quinn`.
#![tactic(auto)]

mod bloom_token_log;
mod bw_estimation;
mod min_max;
mod read_to_end;
mod shared;
mod token_log;
mod work_limiter;

pub use bloom_token_log::{BloomTokenLog, optimal_k_num};
pub use bw_estimation::BandwidthEstimation;
pub use min_max::MinMax;
pub use read_to_end::{PushFault, ReadToEndBuffer};
pub use shared::SharedTokenLog;
pub use token_log::{TokenFault, TokenLog};
pub use work_limiter::WorkLimiter;
