//! An exchange of requests for answers between two ends over a link, and the program round it.
#![tactic(auto)]

mod ending;
mod exchanges;
mod input;
mod output;
mod program;
mod script;
mod tokens;
mod validity;

pub use exchanges::exchange;
pub use program::{Bench, run};
pub use qh_link::{Event, Link, LinkFault, MAX_DATAGRAM, ScriptLink, Select, Upset};
pub use qh_pair::{ExchangeError, Pair, pairs};
pub use qh_script::{Config, default_config, enough, fits};
pub use qh_service::{Echo, Entry, Head, Limits, Message, Service};
pub use validity::valid;
