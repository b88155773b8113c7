use crate::kept::Kept;
use atomic_table::TableRule;
use std::collections::LinkedList;
use std::marker::PhantomData;
use std::snapshot::Snapshot;

/// What the table knows of a seat. No value of it is made.
pub struct View<E> {
    /// The history that it has seen.
    pub seen: LinkedList<E>,
    /// The history that a seat which it took in had seen, until the step after the join compares the two.
    pub told: LinkedList<E>,
    /// The places in the history of its own entries.
    pub own: LinkedList<u64>,
    /// Its ticket, from the draw until it gives up its turn.
    pub ticket: Option<u64>,
    /// Whether it has the turn.
    pub turn: bool,
    /// Its parts, of the 2^64 that all seats share.
    pub parts: u64,
}

/// The rule of the lock's table.
pub struct Turns<T> {
    of: PhantomData<T>,
}

impl<T: Kept> TableRule<Option<T>, View<T::Entry>, Snapshot<T>> for Turns<T> {
    ghost use Rattle.qh_lock.specs.Turns.{InTurn, opened};

    ghost holds = { λ k. InTurn T.history T.is_ready };

    ghost first = { λ k. opened (T.history k.value) };
}
