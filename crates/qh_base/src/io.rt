mod memory;
mod standard;

ghost use Rattle.std.specs.Prelude.{◌≡◌, ℕ, ◌+◌, ◌<◌, ◌≤◌, ◌++◌, [], List, Option, length, take, drop, is_err, option_map, IfOk, IfSome};
ghost use Rattle.qh_spec.specs.Fault.{CountsFaults};
ghost use Rattle.qh_base.specs.Io.{moved, moves_none};

pub use memory::{MemSink, MemSource};
pub use standard::{StdSink, StdSource};
use thiserror::Error;

/// A read, a write, a link or a socket failed. What failed counts its faults.
#[derive(Clone, Copy, Debug, PartialEq, Eq, Error)]
#[error("failed")]
pub struct Failed;

/// What bytes are read from.
pub trait Source {
    /// The bytes that are left to be read, where the source tells them.
    ghost left: { Self → Option (List ℕ) };

    /// How often it failed.
    ghost faults: { Self → ℕ };

    /// Reads at most as many bytes as the slice is long, and says how many. None in a slice that isn't empty is the end
    /// of the input. Past that number the slice's bytes have no meaning.
    fn read(&mut self, buf: &mut [u8]) -> Result<usize, Failed>
        ensures fits { IfOk result (λ n. n ≤ length buf.new) }
        ensures bytes { IfOk result (λ n. IfSome (left self.old) (λ xs. take n buf.new ≡ take n xs)) }
        ensures rest { left self.new ≡ option_map (drop (moved result)) (left self.old) }
        ensures end { IfOk result (λ n. n ≡ 0 → 0 < length buf.new → IfSome (left self.old) (λ xs. xs ≡ [])) }
        ensures cause { CountsFaults (faults self.old) (faults self.new) (is_err result) };
}

/// What bytes are written to.
pub trait Sink {
    /// The bytes that were written, where the sink tells them.
    ghost written: { Self → Option (List ℕ) };

    /// How often it failed.
    ghost faults: { Self → ℕ };

    /// Writes a front of the piece, and says how many bytes it has. None of a piece that isn't empty counts as a fault.
    fn write(&mut self, piece: &[u8]) -> Result<usize, Failed>
        ensures fits { IfOk result (λ n. n ≤ length piece.now) }
        ensures bytes { written self.new ≡ option_map (λ xs. xs ++ take (moved result) piece.now) (written self.old) }
        ensures cause { CountsFaults (faults self.old) (faults self.new) (moves_none (length piece.now) result) };
}
