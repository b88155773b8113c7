ghost use Rattle.std.specs.Prelude.{◌≡◌, ◌<◌, length, None};
ghost use Rattle.qh_lock.specs.Places.{StartsWith, AreBelow};
ghost use Rattle.qh_lock.specs.Seats.{without_half, other_half, joined};

use crate::kept::Kept;
use crate::lock::Mutex;
use crate::plays::{Halves, Settle};
use crate::turn::TICKET;
use crate::view::View;
use std::marker::Model;

/// What one caller knows of a mutex: a history that it has seen, the places in it of its own entries, and whether it
/// has the turn. A seat that is dropped keeps its parts, so that the mutex can't be closed any more; one that is dropped with the
/// turn keeps that too, and nobody else gets it.
#[derive(Drop)]
pub struct Seat<T: Kept> {
    pub(crate) inner: atomic_table::Seat<Option<T>, View<T::Entry>>,
    pub(crate) front: u64,
}

impl<T: Kept> Model for Seat<T> {
    ghost use Rattle.std.specs.Prelude.{◌≡◌, ◌<◌, length};
    ghost use Rattle.qh_lock.specs.Places.{AreBelow};
    ghost use Rattle.qh_lock.specs.Seats.{Seated, seated, IsSettled};

    ghost Value = { Seated T.Entry };

    ghost view = { λ s. seated s.inner.table_id s.inner.me.0 };

    ghost invariant = { λ s. (s.front ≡ length s.inner.me.0.seen) × (0 < s.inner.me.0.parts) × IsSettled s.inner.me × AreBelow (length s.inner.me.0.seen) s.inner.me.0.own };
}

impl<T: Kept> Seat<T> {
    /// A second seat, for another caller, that has seen the same history and has no entries of its own. Each has half
    /// of the parts, of which the first seat had 2^64. It waits for nothing.
    pub fn split(&mut self, mutex: &Mutex<T>) -> Seat<T>
        requires of { self.old.lock ≡ mutex.now }
        requires parts { 1 < self.old.parts }
        ensures this { self.new ≡ without_half self.old }
        ensures new { result ≡ other_half self.old }
    {
        let front = self.front;
        let inner = mutex.table.shared.split_seat::<Halves>(&mut self.inner);
        Seat { inner, front }
    }

    /// Takes another seat in: what it had seen, its own entries and its parts. It waits for nothing.
    ///
    /// Of the two histories the shorter is a prefix of the longer, which is kept.
    pub fn join(&mut self, mutex: &Mutex<T>, other: Seat<T>)
        requires of { (self.old.lock ≡ mutex.now) × (other.lock ≡ mutex.now) }
        requires idle { (self.old.turn ≡ None) × (other.turn ≡ None) }
        ensures both { self.new ≡ joined self.old other }
        ensures seen { StartsWith self.new.seen self.old.seen × StartsWith self.new.seen other.seen }
    {
        let shared = &mutex.table.shared;
        let front = if other.front > self.front {
            other.front
        } else {
            self.front
        };
        let Seat { inner, front: _ } = other;
        shared.join_seat::<Halves>(&mut self.inner, inner);
        shared.load::<Settle>(&mut self.inner, TICKET);
        self.front = front;
    }

    /// The length of the history that the seat has seen. The places of its own entries lie below it.
    pub fn front(&self) -> u64
        ensures len { result ≡ length self.now.seen }
        ensures own { AreBelow result self.now.own }
    {
        self.front
    }
}
