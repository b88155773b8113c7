//! What a schedule says of a send and of a round.
ghost use Rattle.std.specs.Prelude.{◌≡◌, ◌↔◌, ◌+◌, ◌≤◌, ◌++◌, [], true, All, length, fold, option_to_list, IfOk};
ghost use Rattle.std.specs.Option.{option_copied};
ghost use Rattle.std.specs.List.{list_any};
ghost use Rattle.qh_spec.specs.Schedule.{IsSelect, IsUpset, selects, loses as loses_send, doubles as doubles_send, fails as fails_send, delay_by, forges, is_failing as failing_of, copies_of as copies_by, delay_of as delays_of, forged as forged_by};

use crate::link::MAX_DATAGRAM;
use bytes::Bytes;
use qh_base::Side;
use qh_spec::{Select, Upset};
use std::alloc::{AllocError, Global};

fn is_valid_select(which: Select) -> bool
    ensures { result ≡ true ↔ IsSelect which }
{
    match which {
        Select::One(number) | Select::Each(number) => number >= 1 && number < 1 << 63,
        Select::All => true,
    }
}

/// Whether an entry of a schedule is in range: numbers of sends and rounds are at least 1 and below 2^63, a datagram is
/// at most 1,000 rounds late, and forged bytes are 1 to 2,048.
pub fn is_valid_upset(upset: &Upset) -> bool
    ensures { result ≡ true ↔ IsUpset upset.now }
{
    match upset {
        Upset::Lose(which) | Upset::Twice(which) => is_valid_select(*which),
        Upset::Late(which, rounds) => is_valid_select(*which) && *rounds >= 1 && *rounds <= 1_000,
        Upset::Fail(number) => *number >= 1 && *number < 1 << 63,
        Upset::Forge { round, bytes, .. } => {
            *round >= 1 && *round < 1 << 63 && !bytes.is_empty() && bytes.len() <= MAX_DATAGRAM
        }
    }
}

fn is_selected(which: Select, number: u64) -> bool
    requires { IsSelect which }
    ensures { result ≡ selects which number }
{
    match which {
        Select::One(only) => number == only,
        Select::All => true,
        Select::Each(divisor) => number % divisor == 0,
    }
}

fn is_lost_by(upset: &Upset, number: u64) -> bool
    requires { IsUpset upset.now }
    ensures { result ≡ loses_send number upset.now }
{
    match upset {
        Upset::Lose(which) => is_selected(*which, number),
        _ => false,
    }
}

fn is_doubled_by(upset: &Upset, number: u64) -> bool
    requires { IsUpset upset.now }
    ensures { result ≡ doubles_send number upset.now }
{
    match upset {
        Upset::Twice(which) => is_selected(*which, number),
        _ => false,
    }
}

fn is_failed_by(upset: &Upset, number: u64) -> bool
    ensures { result ≡ fails_send number upset.now }
{
    match upset {
        Upset::Fail(only) => number == *only,
        _ => false,
    }
}

// The delay that this entry gives to the send, and else the one before.
fn delayed_by(upset: &Upset, number: u64, before: u64) -> u64
    requires valid { IsUpset upset.now }
    requires short { before ≤ 1000 }
    ensures value { result ≡ delay_by number before upset.now }
    ensures short { result ≤ 1000 }
{
    match upset {
        Upset::Late(which, rounds) if is_selected(*which, number) => *rounds,
        _ => before,
    }
}

fn is_lost(schedule: &[Upset], number: u64) -> bool
    requires { All IsUpset schedule.now }
    ensures { result ≡ list_any (loses_send number) schedule.now }
{
    for upset in schedule {
        if is_lost_by(upset, number) {
            return true;
        }
    }
    false
}

fn is_doubled(schedule: &[Upset], number: u64) -> bool
    requires { All IsUpset schedule.now }
    ensures { result ≡ list_any (doubles_send number) schedule.now }
{
    for upset in schedule {
        if is_doubled_by(upset, number) {
            return true;
        }
    }
    false
}

/// Whether the send with this number fails.
pub fn is_failing(schedule: &[Upset], number: u64) -> bool
    ensures { result ≡ failing_of schedule.now number }
{
    for upset in schedule {
        if is_failed_by(upset, number) {
            return true;
        }
    }
    false
}

/// In how many copies the datagram of the send with this number comes, at most 2.
pub fn copies_of(schedule: &[Upset], number: u64) -> usize
    requires { All IsUpset schedule.now }
    ensures { result ≡ copies_by schedule.now number }
{
    if is_lost(schedule, number) {
        return 0;
    }
    if is_doubled(schedule, number) { 2 } else { 1 }
}

/// How many rounds later than the next one the datagram of the send with this number comes.
pub fn delay_of(schedule: &[Upset], number: u64) -> u64
    requires { All IsUpset schedule.now }
    ensures value { result ≡ delays_of schedule.now number }
    ensures short { result ≤ 1000 }
{
    let mut delay = 0;
    for upset in schedule {
        delay = delayed_by(upset, number, delay);
    }
    delay
}

// What this entry gives the side in the round.
fn forged_in(upset: &Upset, round: u64, side: Side) -> Option<&Bytes>
    ensures { forges round side upset.now ≡ option_to_list (option_copied result) }
{
    match upset {
        Upset::Forge {
            round: when,
            side: whom,
            bytes,
        } if *when == round && *whom == side => Some(bytes),
        _ => None,
    }
}

/// The bytes that the side is given in the round although nobody sent them, in the schedule's order.
pub fn forged(
    alloc: Global,
    schedule: &[Upset],
    round: u64,
    side: Side,
) -> Result<Vec<Bytes>, AllocError>
    ensures { IfOk result (λ datagrams. datagrams.items ≡ forged_by schedule.now round side) }
{
    let mut datagrams = Vec::new(alloc);
    for upset in schedule {
        if let Some(bytes) = forged_in(upset, round, side) {
            datagrams.push(bytes.clone()?)?;
        }
    }
    Ok(datagrams)
}
