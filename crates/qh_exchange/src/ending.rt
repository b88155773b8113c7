//! How a run ends.

ghost use Rattle.std.specs.Prelude.{◌≡◌, []};
ghost use Rattle.qh_exchange.specs.Ending.{error_status, status_of};

use crate::ExchangeError;
use std::alloc::Global;

/// What a run writes, and how it ended.
#[derive(Drop)]
pub(crate) struct Ending {
    /// What stands before the last line.
    pub(crate) text: Vec<u8>,
    pub(crate) last: Outcome,
}

/// How a run ended: its status, and its last line, which takes no memory to write.
#[derive(Drop)]
pub(crate) enum Outcome {
    /// Each request has its answer, or each token was looked at. There is no other line.
    Done,
    /// The program's words ask for nothing.
    Unknown,
    /// This line of the input is refused.
    Refused(usize),
    /// The exchange ended by this error; or `Memory`: what was asked for wasn't begun.
    Failed(ExchangeError),
    /// The exchange ended by this error, and there was no memory to list what was served.
    Unlisted(ExchangeError),
    /// The input's source failed.
    ReadFault,
    /// What was asked for isn't built.
    Unbuilt,
}

impl Ending {
    /// An ending whose last line is all that is written.
    pub(crate) fn bare(alloc: Global, last: Outcome) -> Self
        ensures text { result.text.items ≡ [] }
        ensures last { result.last ≡ last }
    {
        Ending {
            text: Vec::new(alloc),
            last,
        }
    }
}

impl Outcome {
    /// The program's status.
    pub(crate) fn status(&self) -> u8
        ensures { result ≡ status_of self.now }
    {
        match self {
            Outcome::Done => 0,
            Outcome::Unknown => 2,
            Outcome::Refused(_) => 3,
            Outcome::Failed(error) | Outcome::Unlisted(error) => status_of_error(error),
            Outcome::ReadFault => 10,
            Outcome::Unbuilt => 12,
        }
    }
}

fn status_of_error(error: &ExchangeError) -> u8
    ensures { result ≡ error_status error.now }
{
    match error {
        ExchangeError::Invalid { .. } => 4,
        ExchangeError::TimedOut => 5,
        ExchangeError::OutOfRounds => 6,
        ExchangeError::Link => 7,
        ExchangeError::Protocol(_) => 8,
        ExchangeError::Memory => 9,
    }
}
