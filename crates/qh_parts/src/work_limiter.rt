ghost use Rattle.std.specs.Prelude.{◌≡◌, ◌+◌, ◌*◌, ◌/◌, ◌%◌, ◌^◌, ◌<◌, ◌==◌, max, Some, IsSome, if◌then◌else◌};
ghost use Rattle.qh_parts.specs.WorkLimiter.{new_limiter, is_measured, elapsed_since, allows_work, smoothed as smoothed_time_of, after_cycle};

use qh_base::{Moment, Span};
use std::marker::Model;

/// One cycle of so many is measured.
const SAMPLING_INTERVAL: u16 = 256;

/// Limits the work of a cycle to what can be done in a length of time. It measures some cycles, and limits the others by
/// how long an item took in those. What an item is doesn't matter, as long as one takes about as long as another.
#[derive(Drop)]
pub struct WorkLimiter {
    desired_cycle_time: Span,
    // How many cycles with work are over, modulo 2^16.
    cycle: u16,
    start_time: Option<Moment>,
    completed: usize,
    // In nanoseconds an item, 0 before the first measured cycle.
    smoothed_time: u64,
    allowed: usize,
}

impl Model for WorkLimiter {
    ghost use Rattle.qh_parts.specs.WorkLimiter.{PlainLimiter};

    ghost Value = { PlainLimiter };

    ghost view = { λ l. record {
      desired_cycle_time = l.desired_cycle_time.0;
      cycle = l.cycle;
      start_time = l.start_time;
      completed = l.completed;
      smoothed_time = l.smoothed_time;
      allowed = l.allowed;
    } };
}

impl WorkLimiter {
    /// A limiter for cycles of this length. It allows no work yet but in the first cycle, which is measured.
    pub fn new(cycle: Span) -> WorkLimiter
        ensures { result ≡ new_limiter cycle.0 }
    {
        WorkLimiter {
            desired_cycle_time: cycle,
            cycle: 0,
            start_time: None,
            completed: 0,
            smoothed_time: 0,
            allowed: 0,
        }
    }

    /// Starts a cycle.
    pub fn start_cycle(&mut self, now: Moment)
        ensures { self.new ≡ record self.old { start_time = Some now; completed = 0 } }
    {
        self.start_time = Some(now);
        self.completed = 0;
    }

    /// Whether the cycle may do more work: in a cycle that is measured, while it isn't over.
    pub fn allow_work(&self, now: Moment) -> bool
        requires { IsSome self.now.start_time }
        ensures { result ≡ allows_work self.now now }
    {
        if self.is_measured() {
            self.elapsed(now) < self.desired_cycle_time
        } else {
            self.completed < self.allowed
        }
    }

    /// Counts items that the cycle has done.
    pub fn record_work(&mut self, work: usize)
        requires { self.old.completed + work < 2 ^ 64 }
        ensures { self.new ≡ record self.old { completed = self.old.completed + work } }
    {
        self.completed += work;
    }

    /// Ends the cycle. One without work isn't counted.
    pub fn finish_cycle(&mut self, now: Moment)
        requires { IsSome self.old.start_time }
        ensures { self.new ≡ after_cycle self.old now }
    {
        if self.completed == 0 {
            return;
        }
        if self.is_measured() {
            let time = self.elapsed(now).0 / self.completed as u64;
            self.smoothed_time = smooth(self.smoothed_time, time);
            self.allowed = (self.desired_cycle_time.0 / self.smoothed_time).max(1) as usize;
        }
        self.cycle = self.cycle.wrapping_add(1);
    }

    /// How many items a cycle may do that isn't measured.
    pub fn allowed(&self) -> usize
        ensures { result ≡ self.now.allowed }
    {
        self.allowed
    }

    fn is_measured(&self) -> bool
        ensures { result ≡ is_measured self.now }
    {
        self.cycle % SAMPLING_INTERVAL == 0
    }

    // The time since the cycle started.
    fn elapsed(&self, now: Moment) -> Span
        requires { IsSome self.now.start_time }
        ensures { result.0 ≡ elapsed_since self.now.start_time now }
    {
        now.since(self.start_time.unwrap())
    }
}

// The smoothed time of an item after one more measurement.
fn smooth(before: u64, time: u64) -> u64
    ensures { result ≡ smoothed_time_of before time }
{
    if before == 0 {
        return time.max(1);
    }
    let eighths = 7 * u128::from(before) + u128::from(time);
    ((eighths / 8) as u64).max(1)
}
