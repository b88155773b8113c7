ghost use Rattle.std.specs.Prelude.{◌≡◌, ℕ, ◌<◌, ◌≤◌, ◌^◌, ◌-◌, ◌||◌, ◌==◌, [], false, length, take, OnOk, OnErr};
ghost use Rattle.qh_buffers.specs.Ranges.{range_at};
ghost use Rattle.qh_recovery.specs.PendingAcks.{IsJoined, IsAckPut, last_ranges, ack_range, ack_ranges};

use qh_base::{Memory, VarInt};
use qh_buffers::ArrayRangeSet;
use qh_frame::{AckRange, put_ack};
use std::alloc::Global;
use std::marker::Model;

/// How many ranges are kept, and stand in an ACK frame, at most.
const MAX_ACK_BLOCKS: usize = 32;

/// The packet numbers that wait to be acknowledged, at most 32 ranges, and whether an ACK is due (RFC 9000, section 13.2).
#[derive(Drop)]
pub struct PendingAcks {
    pub(super) ranges: ArrayRangeSet,
    pub(super) is_due: bool,
}

impl Model for PendingAcks {
    ghost use Rattle.qh_recovery.specs.PendingAcks.{PlainPendingAcks, AreFew};

    ghost Value = { PlainPendingAcks };

    ghost view = { λ s. record { ranges = s.ranges; is_due = s.is_due } };

    ghost invariant = { λ s. AreFew s.ranges };
}

impl PendingAcks {
    /// No number waits.
    pub fn new(alloc: Global) -> PendingAcks
        ensures { result ≡ record { ranges = []; is_due = false } }
    {
        PendingAcks {
            ranges: ArrayRangeSet::new(alloc),
            is_due: false,
        }
    }

    /// Whether an ack-eliciting packet came and no ACK was sent since.
    pub fn is_due(&self) -> bool
        ensures { result ≡ self.now.is_due }
    {
        self.is_due
    }

    /// Whether no number waits.
    pub fn is_empty(&self) -> bool
        ensures { result ≡ (length self.now.ranges == 0) }
    {
        self.ranges.is_empty()
    }

    /// An ACK was sent: none is due, and the numbers stay, to be acknowledged again.
    pub fn sent(&mut self)
        ensures ranges { self.new.ranges ≡ self.old.ranges }
        ensures due { self.new.is_due ≡ false }
    {
        self.is_due = false;
    }

    /// Appends an ACK frame of all numbers with the delay 0 (RFC 9000, section 19.3), or nothing. It has at most 515 bytes.
    pub fn put(&self, out: &mut Vec<u8>) -> Result<(), Memory>
        requires { 0 < length self.now.ranges }
        ensures ok { OnOk result (IsAckPut self.now.ranges out.old.items out.new.items) }
        ensures err { OnErr result (out.new.items ≡ out.old.items) }
    {
        let mut ranges = [AckRange {
            least: 0,
            greatest: 0,
        }; MAX_ACK_BLOCKS];
        self.ranges.is_apart();
        let count = fill(&mut ranges, &self.ranges);
        put_ack(out, VarInt::from_u32(0), &ranges[..count])
    }
}

/// Drops the least ranges if there are more than 32.
pub(super) fn forget_least(ranges: &mut ArrayRangeSet)
    ensures { ranges.new ≡ last_ranges ranges.old }
{
    while MAX_ACK_BLOCKS < ranges.len() {
        ranges.pop_min();
    }
}

/// Writes the ranges for an ACK frame, the greatest first, and says how many there are.
fn fill(blocks: &mut [AckRange; MAX_ACK_BLOCKS], ranges: &ArrayRangeSet) -> usize
    requires { length ranges.now ≤ 32 }
    ensures count { result ≡ length ranges.now }
    ensures blocks { take result blocks.new ≡ ack_ranges ranges.now }
{
    let count = ranges.len();
    for index in 0..count {
        blocks[index] = block_at(ranges, count - 1 - index);
    }
    count
}

/// The range at an index, as an ACK frame has it.
fn block_at(ranges: &ArrayRangeSet, index: usize) -> AckRange
    requires { index < length ranges.now }
    ensures { result ≡ ack_range (range_at ranges.now index) }
{
    ranges.is_apart();
    let range = ranges.get(index).unwrap();
    AckRange {
        least: range.start,
        greatest: range.end - 1,
    }
}
