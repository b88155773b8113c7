//! Taking a turn, and giving it up.
ghost use Rattle.std.specs.Prelude.{◌≡◌, ◌+◌, ◌-◌, ◌^◌, ◌<◌, ◌≤◌, [], length, None, Some};
ghost use Rattle.qh_lock.specs.Places.{StartsWith};
ghost use Rattle.qh_lock.specs.Turns.{waiting, IsIdle};
ghost use Rattle.qh_lock.specs.Seats.{in_turn, after_turn};
ghost use Rattle.qh_lock.specs.Guards.{value_of, turn_of, lock_of};

use crate::guard::{Guard, Held};
use crate::kept::Kept;
use crate::lock::Mutex;
use crate::plays::{Draw, Look, Publish};
use crate::seat::Seat;
use crate::view::View;
use std::sync::Wait;
use std::thread;

// The word that has the next ticket.
pub(crate) const TICKET: usize = 0;

// The word that has the ticket which is served.
pub(crate) const SERVING: usize = 1;

impl<T: Kept> Mutex<T> {
    // Draws a ticket. While the next one is the greatest number of 64 bits, it waits.
    fn draw<R: Wait>(&self, rt: &R, seat: &mut atomic_table::Seat<Option<T>, View<T::Entry>>) -> u64
        requires of { seat.old.table_id ≡ self.now }
        requires idle { IsIdle seat.old.me × (0 < seat.old.me.0.parts) }
        ensures of { seat.new.table_id ≡ seat.old.table_id }
        ensures seat { seat.new.me ≡ (waiting seat.old.me.0 result, []) }
        ensures small { result < 2 ^ 64 - 1 }
    {
        let shared = &self.table.shared;
        for _ in rt.forever() {
            let next = shared.peek(TICKET);
            if next < u64::MAX {
                let found = shared.compare_exchange::<Draw>(seat, TICKET, next, next + 1);
                if found == next {
                    return next;
                }
            }
            thread::yield_now();
        }
        unreachable!()
    }

    /// Draws a ticket, waits until it is served, and takes the value.
    ///
    /// It yields its thread and looks again while it waits, and it may wait without end. No clause says that a turn comes,
    /// that turns come in a fair order, that a waiting thread is woken, or that callers who hold several locks don't
    /// wait for one another. A mutex has 2^64 - 1 turns; whoever asks for one more waits without end.
    pub fn lock<R: Wait>(&self, rt: &R, seat: &mut Seat<T>) -> Guard<'_, T>
        requires of { seat.old.lock ≡ self.now }
        requires idle { seat.old.turn ≡ None }
        ensures of { lock_of result ≡ self.now }
        ensures seat { seat.new ≡ in_turn seat.old (turn_of result) (T.history (value_of result)) }
        ensures front { StartsWith (T.history (value_of result)) seat.old.seen }
        ensures ready { T.is_ready (value_of result) }
        ensures legal { T.is_legal (T.history (value_of result)) }
    {
        let ticket = self.draw(rt, &mut seat.inner);
        let shared = &self.table.shared;
        for _ in rt.forever() {
            if shared.load::<Look<T>>(&mut seat.inner, SERVING) == ticket {
                match shared.exchange(&mut seat.inner, 0, None) {
                    Some(value) => {
                        seat.front = value.entries();
                        return Held {
                            mutex: self,
                            value,
                            ticket,
                        };
                    }
                    None => unreachable!(),
                }
            }
            thread::yield_now();
        }
        unreachable!()
    }
}

impl<T: Kept> Held<&Mutex<T>, T> {
    /// Puts the value back and gives up the turn, so that the next ticket is served. It waits for nothing.
    ///
    /// The history may have one entry more than the one that was taken out, which is then the seat's own. No clause says that
    /// a caller who waits for the turn gets it.
    pub fn unlock(self, seat: &mut Seat<T>)
        requires of { seat.old.lock ≡ lock_of self }
        requires turn { seat.old.turn ≡ Some (turn_of self) }
        requires ready { T.is_ready (value_of self) }
        requires longer { StartsWith (T.history (value_of self)) seat.old.seen × (length (T.history (value_of self)) ≤ length seat.old.seen + 1) }
        ensures seat { seat.new ≡ after_turn seat.old (T.history (value_of self.entry)) }
        ensures legal { T.is_legal seat.new.seen }
    {
        let Held {
            mutex,
            value,
            ticket,
        } = self;
        let shared = &mutex.table.shared;
        let front = value.entries();
        match shared.exchange(&mut seat.inner, 0, Some(value)) {
            Some(old) => drop(old),
            None => (),
        }
        shared.store::<Publish<T>>(&mut seat.inner, SERVING, ticket + 1);
        seat.front = front;
    }
}
