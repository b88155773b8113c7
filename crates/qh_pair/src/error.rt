use qh_base::{ConnectionError, Memory};
use qh_link::LinkFault;
use thiserror::Error;

/// Why an exchange ended without all its answers.
#[derive(Debug, Drop, Error)]
pub enum ExchangeError {
    /// The request at this index breaks a rule, or is one too many. Nothing was sent.
    #[error("request {index} isn't valid")]
    Invalid { index: usize },
    /// The link failed.
    #[error("the link failed")]
    Link,
    /// An end's idle time ran out.
    #[error("timed out")]
    TimedOut,
    /// The rounds were used up before all answers came.
    #[error("out of rounds")]
    OutOfRounds,
    /// An end lost its connection, for this reason: the client's where both did.
    #[error(transparent)]
    Protocol(ConnectionError),
    /// The allocator had no memory.
    #[error("out of memory")]
    Memory,
}

impl From<LinkFault> for ExchangeError {
    ghost use Rattle.std.specs.Prelude.{◌≡◌};
    ghost use Rattle.qh_pair.specs.Error.{error_of};

    ghost from_gives = { λ fault error. error ≡ error_of fault };

    fn from(fault: LinkFault) -> ExchangeError {
        match fault {
            LinkFault::Failed => ExchangeError::Link,
            LinkFault::Memory => ExchangeError::Memory,
        }
    }
}

impl From<Memory> for ExchangeError {
    ghost use Rattle.std.specs.Prelude.{◌≡◌};
    ghost use Rattle.qh_pair.specs.declared.error.ExchangeError.TheVariants.{Memory as OutOfMemory};

    ghost from_gives = { λ _ error. error ≡ OutOfMemory };

    fn from(_: Memory) -> ExchangeError {
        ExchangeError::Memory
    }
}

impl From<ConnectionError> for ExchangeError {
    ghost use Rattle.std.specs.Prelude.{◌≡◌};
    ghost use Rattle.qh_pair.specs.Error.{error_of_loss};

    ghost from_gives = { λ loss error. error ≡ error_of_loss loss };

    fn from(loss: ConnectionError) -> ExchangeError {
        match loss {
            ConnectionError::TimedOut => ExchangeError::TimedOut,
            ConnectionError::Memory => ExchangeError::Memory,
            loss => ExchangeError::Protocol(loss),
        }
    }
}
