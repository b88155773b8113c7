//! Two seats in one thread.
ghost use Rattle.std.specs.Prelude.{◌≡◌, ◌+◌, ◌^◌, IfOk};
ghost use Rattle.lock_rows.specs.Calls.{IsFree};

use crate::history::put_numbers;
use crate::tally::Tally;
use crate::threads::add;
use qh_base::Memory;
use qh_lock::{Mutex, Seat};
use row_text::{RowFault, Words};
use std::alloc::Global;
use std::sync::Wait;

/// Does the steps of a row on two seats of a new tally, and appends what each step says. Gives the tally that is left.
pub(crate) fn play<R: Wait>(
    rt: &R,
    alloc: Global,
    words: &mut Words<'_>,
    out: &mut Vec<u8>,
) -> Result<Tally, RowFault> {
    let (mutex, seat) = Mutex::new(alloc, Tally::new(alloc))?;
    let seat = play_all(rt, &mutex, seat, words, out)?;
    Ok(mutex.close(seat))
}

// Does the steps that are left. Gives the first seat, which took the other one in.
fn play_all<R: Wait>(
    rt: &R,
    mutex: &Mutex<Tally>,
    mut seat: Seat<Tally>,
    words: &mut Words<'_>,
    out: &mut Vec<u8>,
) -> Result<Seat<Tally>, RowFault>
    requires free { IsFree mutex.now seat }
    requires parts { seat.parts ≡ 2 ^ 64 }
    ensures free { IfOk result (λ s. IsFree mutex.now s × (s.parts ≡ 2 ^ 64)) }
{
    let mut other = seat.split(mutex);
    for number in 1..u32::MAX {
        let said = match words.next() {
            "1" => add(rt, mutex, &mut seat, 1, number),
            "2" => add(rt, mutex, &mut other, 2, number),
            "look" => {
                let guard = mutex.lock(rt, &mut seat);
                let third = seat.split(mutex);
                guard.unlock(&mut seat);
                let seen = third.front();
                seat.join(mutex, third);
                Ok(seen)
            }
            "join" => {
                seat.join(mutex, other);
                let seen = seat.front();
                other = seat.split(mutex);
                Ok(seen)
            }
            "" if words.is_at_end() => break,
            _ => return Err(RowFault::Form),
        };
        put_step(out, said, seat.front(), other.front())?;
    }
    seat.join(mutex, other);
    Ok(seat)
}

// Appends what a step said, and how much of the history each seat has seen behind it.
fn put_step(
    out: &mut Vec<u8>,
    said: Result<u64, Memory>,
    one: u64,
    two: u64,
) -> Result<(), Memory> {
    put_numbers(out, &[(said?, " ("), (one, " "), (two, "), ")])
}
