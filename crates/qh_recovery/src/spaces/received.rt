ghost use Rattle.std.specs.Prelude.{◌≡◌, ℕ, ◌∷◌, ◌<◌, ◌≤◌, ◌^◌, ◌||◌, List, length, OnOk, OnErr};
ghost use Rattle.qh_recovery.specs.Accepted.{Remembers};
ghost use Rattle.qh_recovery.specs.PendingAcks.{IsJoined};

use super::dedup::{Dedup, forget_below, next_of, window_start};
use super::pending_acks::{PendingAcks, forget_least};
use qh_base::Memory;

/// Takes the number of a packet that came, below 2^62. It isn't new any more, and it waits to be acknowledged; an ack-eliciting
/// packet makes an ACK due. If there are more than 32 ranges to acknowledge, the least are forgotten (RFC 9000, sections 12.3
/// and 13.2.3). After want of memory neither has the number.
pub fn insert_received(
    dedup: &mut Dedup,
    acks: &mut PendingAcks,
    number: u64,
    is_ack_eliciting: bool,
) -> Result<(), Memory>
    requires { number < 2 ^ 62 }
    ensures remembers { OnOk result ((accepted : List ℕ) → Remembers accepted dedup.old → Remembers (number ∷ accepted) dedup.new) }
    ensures few { OnOk result (length dedup.new ≤ 65) }
    ensures numbers { OnOk result ((bound : ℕ) × IsJoined acks.old.ranges acks.new.ranges number bound) }
    ensures due { OnOk result (acks.new.is_due ≡ (acks.old.is_due || is_ack_eliciting)) }
    ensures err { OnErr result ((dedup.new ≡ dedup.old) × (acks.new ≡ acks.old)) }
{
    let next = next_of(&dedup.received).max(number + 1);
    acks.ranges
        .insert_both(&mut dedup.received, number..number + 1)?;
    dedup.received.is_apart();
    forget_below(&mut dedup.received, window_start(next));
    acks.ranges.is_apart();
    forget_least(&mut acks.ranges);
    acks.is_due = acks.is_due || is_ack_eliciting;
    Ok(())
}
