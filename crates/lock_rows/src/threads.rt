//! Adding in any thread.
ghost use Rattle.std.specs.Prelude.{◌≡◌, ℕ, ◌+◌, ◌-◌, ◌^◌, ◌<◌, ◌≤◌, List, length, true, None, IfOk, IfSome};
ghost use Rattle.qh_lock.specs.Places.{StartsWith};
ghost use Rattle.lock_rows.specs.Replays.{is_legal, added};
ghost use Rattle.lock_rows.specs.Tallies.{calls_of};
ghost use Rattle.lock_rows.specs.Calls.{IsFree, EndsWith, Ran, BothRan, HasBoth};

use crate::tally::Tally;
use qh_base::Memory;
use qh_lock::{Mutex, Seat};
use std::alloc::Global;
use std::sync::Wait;
use std::thread;
use std::thread::Threads;

/// Adds a number in turn, and replies the sum before it.
pub(crate) fn add<R: Wait>(
    rt: &R,
    mutex: &Mutex<Tally>,
    seat: &mut Seat<Tally>,
    thread: u32,
    number: u32,
) -> Result<u64, Memory>
    requires { IsFree mutex.now seat.old }
    ensures free { IsFree mutex.now seat.new × (seat.new.parts ≡ seat.old.parts) }
    ensures legal { is_legal 0 seat.new.seen ≡ true }
    ensures front { StartsWith seat.new.seen seat.old.seen }
    ensures call { IfOk result (λ r. EndsWith seat.old seat.new (added thread number r)) }
{
    let mut guard = mutex.lock(rt, seat);
    let reply = guard.value().add(thread, number);
    guard.unlock(seat);
    reply
}

// Adds these numbers, in order.
fn add_all<R: Wait>(
    rt: &R,
    mutex: &Mutex<Tally>,
    mut seat: Seat<Tally>,
    thread: u32,
    from: u32,
    to: u32,
) -> Option<Seat<Tally>>
    requires free { IsFree mutex.now seat }
    requires order { from ≤ to }
    ensures free { IfSome result (λ s. IsFree mutex.now s × (s.parts ≡ seat.parts)) }
    ensures calls { IfSome result (λ s. Ran seat s thread from to) }
{
    for number in from..to {
        match add(rt, mutex, &mut seat, thread, number) {
            Ok(_) => (),
            Err(_) => return None,
        }
    }
    Some(seat)
}

// Two threads add these numbers beside each other, each through a seat of its own.
fn add_beside<R: Threads + Wait + Sync>(
    rt: &R,
    mutex: &Mutex<Tally>,
    mut seat: Seat<Tally>,
    from: u32,
    to: u32,
) -> Option<Seat<Tally>>
    requires free { IsFree mutex.now seat }
    requires parts { 1 < seat.parts }
    requires order { from ≤ to }
    ensures free { IfSome result (λ s. IsFree mutex.now s × (s.parts ≡ seat.parts)) }
    ensures calls { IfSome result (λ s. BothRan seat s from to) }
{
    let other = seat.split(mutex);
    let (one, two) = thread::join(
        rt,
        move || -> Option<Seat<Tally>>
            requires { IsFree mutex.now seat × (from ≤ to) }
            ensures { IfSome result (λ s. IsFree mutex.entry.now s × (s.parts ≡ seat.parts) × Ran seat s 1 from to) }
        { add_all(rt, mutex, seat, 1, from, to) },
        move || -> Option<Seat<Tally>>
            requires { IsFree mutex.now other × (from ≤ to) }
            ensures { IfSome result (λ s. IsFree mutex.entry.now s × (s.parts ≡ other.parts) × Ran other s 2 from to) }
        { add_all(rt, mutex, other, 2, from, to) },
    );
    let mut seat = one?;
    let other = two?;
    seat.join(mutex, other);
    Some(seat)
}

/// Two threads add the numbers below `middle` beside each other, and then those below `end`. Between the rounds their
/// seats are joined and split again.
pub(crate) fn add_in_two_rounds<R: Threads + Wait + Sync>(
    rt: &R,
    alloc: Global,
    middle: u32,
    end: u32,
) -> Option<Tally>
    requires { middle ≤ end }
    ensures legal { IfSome result (λ t. is_legal 0 (calls_of t) ≡ true) }
    ensures calls { IfSome result (λ t. HasBoth (calls_of t) end) }
{
    let (mutex, seat) = Mutex::new(alloc, Tally::new(alloc)).ok()?;
    let seat = add_beside(rt, &mutex, seat, 0, middle)?;
    let seat = add_beside(rt, &mutex, seat, middle, end)?;
    Some(mutex.close(seat))
}
