ghost use Rattle.std.specs.Prelude.{◌≡◌, ℕ, ◌^◌, length, None, IfOk};
ghost use Rattle.qh_lock.specs.Places.{times, once_below};
ghost use Rattle.qh_lock.specs.Seats.{first_seat};

use crate::kept::Kept;
use crate::seat::Seat;
use crate::view::{Turns, View};
use atomic_table::{Refused, Table};
use qh_base::Memory;
use std::alloc::Global;
use std::marker::Model;
use std::snapshot::Snapshot;

/// A value behind a lock that is taken in turns. Contracts see it as its name, by which a seat or a guard says that it
/// is of this mutex.
#[derive(Drop)]
pub struct Mutex<T: Kept> {
    pub(crate) table: Table<Option<T>, View<T::Entry>, Snapshot<T>, Turns<T>, Global>,
}

impl<T: Kept> Model for Mutex<T> {
    ghost use Rattle.std.specs.Prelude.{◌≡◌};
    ghost use Rattle.atomic_table.specs.Seated.{TableId, table_id_coded};

    ghost Value = { TableId };

    ghost coded = { table_id_coded };

    ghost view = { λ m. m.table.shared.table_id };

    ghost invariant = { λ m. (m.table.shared.table_id.words ≡ 2) × (m.table.shared.table_id.slots ≡ 1) };
}

impl<T: Kept> Mutex<T> {
    /// A value behind a lock, and the first seat. It has seen the value's history and owns each entry of it. For want
    /// of memory the value is dropped.
    pub fn new(alloc: Global, value: T) -> Result<(Mutex<T>, Seat<T>), Memory>
        requires { T.is_ready value }
        ensures { IfOk result (λ m. m.1 ≡ first_seat m.0 (T.history value)) }
    {
        let front = value.entries();
        let start = Snapshot::of(&value);
        let mut slots = Vec::new(alloc);
        if let Err(failed) = slots.push(Some(value)) {
            drop(failed.value);
            return Err(Memory);
        }
        match Table::new(alloc, &[0, 0], slots, &start) {
            Ok((table, inner)) => Ok((Mutex { table }, Seat { inner, front })),
            Err(Refused { slots: _ }) => Err(Memory),
        }
    }

    /// Ends the lock, and gives the value back. The one seat that is left has taken in all others, as its parts show.
    /// It waits for nothing.
    pub fn close(self, seat: Seat<T>) -> T
        requires of { seat.lock ≡ self }
        requires idle { seat.turn ≡ None }
        requires all { seat.parts ≡ 2 ^ 64 }
        ensures history { T.history result ≡ seat.seen }
        ensures own { (n : ℕ) → times n seat.own ≡ once_below n (length seat.seen) }
        ensures ready { T.is_ready result }
        ensures legal { T.is_legal seat.seen }
    {
        let Mutex { table } = self;
        let Seat { inner, front: _ } = seat;
        let mut closed = table.close_with(inner);
        let slot = closed.take(0);
        closed.free();
        match slot {
            Some(value) => value,
            None => unreachable!(),
        }
    }
}
