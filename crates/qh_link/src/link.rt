ghost use Rattle.std.specs.Prelude.{◌≡◌, ℕ, ◌<◌, ◌≤◌, ◌^◌, ◌++◌, List, Option, Some, length, All, IfOk, IfSome};
ghost use Rattle.qh_spec.specs.declared.link.Event.{Event as LinkEvent};
ghost use Rattle.qh_spec.specs.Fault.{CountsFaults};
ghost use Rattle.qh_spec.specs.Link.{told, moments_of};
ghost use Rattle.qh_spec.specs.Schedule.{Plan};
ghost use Rattle.qh_link.specs.Link.{send_events, round_events, round_moments, take_events, has_failed};

use qh_base::{Moment, Side};
use std::alloc::{AllocError, Global};
use thiserror::Error;

/// The longest datagram that a link gives. It drops longer ones.
pub const MAX_DATAGRAM: usize = 2_048;

/// Why a link didn't do what it was asked.
#[derive(Clone, Copy, Debug, PartialEq, Eq, Error)]
pub enum LinkFault {
    /// The link failed, and counted it.
    #[error("the link failed")]
    Failed,
    /// The allocator had no memory. Nothing happened on the link.
    #[error("out of memory")]
    Memory,
}

impl From<AllocError> for LinkFault {
    ghost use Rattle.std.specs.Prelude.{◌≡◌};
    ghost use Rattle.qh_link.specs.declared.link.LinkFault.TheVariants.{Memory};

    ghost from_gives = { λ _ e. e ≡ Memory };

    fn from(_: AllocError) -> LinkFault {
        LinkFault::Memory
    }
}

/// What carries datagrams between the two ends of a connection, in rounds. It may lose, repeat, delay and reorder them.
pub trait Link {
    /// What happened on the link, in order, where it tells.
    ghost events: { Self → Option (List LinkEvent) };

    /// The moments of its rounds, in nanoseconds. Every link tells these.
    ghost moments: { Self → List ℕ };

    /// How often it failed.
    ghost faults: { Self → ℕ };

    /// The step and the schedule by which it gives, where it has them. No call changes them.
    ghost plan: { Self → Option Plan };

    /// Sends a datagram from an end.
    fn send(&mut self, alloc: Global, from: Side, datagram: &[u8]) -> Result<(), LinkFault>
        ensures events { events self.new ≡ told (events self.old) (send_events from datagram.now result) }
        ensures moments { moments self.new ≡ moments self.old }
        ensures cause { CountsFaults (faults self.old) (faults self.new) (has_failed result) }
        ensures plan { plan self.new ≡ plan self.old };

    /// Begins the next round, and answers its moment. Moments never fall.
    fn next_round(&mut self, alloc: Global) -> Result<Moment, LinkFault>
        ensures events { events self.new ≡ told (events self.old) (round_events result) }
        ensures moments { moments self.new ≡ moments self.old ++ round_moments result }
        ensures order { IfOk result (λ moment. All (λ before. before ≤ moment.0) (moments self.old)) }
        ensures bound { IfOk result (λ moment. moment.0 < 2 ^ 62) }
        ensures cause { CountsFaults (faults self.old) (faults self.new) (has_failed result) }
        ensures plan { plan self.new ≡ plan self.old };

    /// Writes the next datagram that is ready for an end into the front of the slice, and answers its length; None
    /// where none is ready.
    fn take(&mut self, alloc: Global, to: Side, buf: &mut [u8]) -> Result<Option<usize>, LinkFault>
        requires { MAX_DATAGRAM ≤ length buf.old }
        ensures events { events self.new ≡ told (events self.old) (take_events to buf.new result) }
        ensures moments { moments self.new ≡ moments self.old }
        ensures fits { IfOk result (λ found. IfSome found (λ n. n ≤ length buf.new)) }
        ensures cause { CountsFaults (faults self.old) (faults self.new) (has_failed result) }
        ensures plan { plan self.new ≡ plan self.old };

    /// Where the events are told, their rounds are the moments.
    ghost same_rounds: { (link : Self) (es : List LinkEvent) → events link ≡ Some es → moments_of es ≡ moments link };
}
