//! The rule of the closing flag, and the kinds of step that a seat makes on it.
ghost use Rattle.qh_h3.specs.Flag.{both, given, kept, looked, spent, was_set};

use atomic_table::{Join, Play, Split, TableRule};

// The word that has the flag: 0, or 1 once it is set.
pub(crate) const FLAG: usize = 0;

/// What the flag's table knows of a seat. No value of it is made.
pub struct Sight {
    /// It saw the flag set.
    pub saw: bool,
    /// It set the flag, or a seat that it took in did.
    pub own: bool,
    /// There never was another seat.
    pub alone: bool,
}

/// The rule of the flag's table: the flag is set only if some seat set it.
pub struct Flag;

impl TableRule<u8, Sight, u8> for Flag {
    ghost use Rattle.qh_h3.specs.Flag.{IsFlag, opened};

    ghost holds = { λ k. IsFlag };

    ghost first = { λ k. opened };
}

// The flag is set.
pub(crate) struct Raise;

impl Play<u8, Sight> for Raise {
    ghost then = { was_set };
}

// The flag is read.
pub(crate) struct Look;

impl Play<u8, Sight> for Look {
    ghost then = { looked };
}

// A view is cut in two, and two views are made one.
pub(crate) struct Halves;

impl Split<Sight> for Halves {
    ghost left = { kept };

    ghost right = { given };
}

impl Join<Sight> for Halves {
    ghost both = { both };

    ghost spent = { spent };
}
