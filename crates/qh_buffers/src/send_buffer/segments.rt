ghost use Rattle.std.specs.Prelude.{◌≡◌, ℕ, ◌+◌, ◌-◌, ◌≤◌, ◌++◌, length, take, drop, OnOk, OnErr};
ghost use Rattle.std.specs.List.Sorted.{IsNonDecreasingBy};
ghost use Rattle.qh_buffers.specs.SendState.{segment_end, Joined, held, bytes_from, segments_behind};

use bytes::Bytes;
use qh_base::Memory;
use std::collections::VecDeque;

/// Bytes that were taken together, up to an offset.
#[derive(Drop)]
pub(super) struct Segment {
    pub(super) end: u64,
    pub(super) bytes: Bytes,
}

impl Segment {
    // The bytes from one offset on to before another, or the end.
    fn between(&self, from: u64, to: u64) -> &[u8]
        requires from { (from ≤ self.now.end) × (self.now.end ≤ from + length self.now.bytes) }
        requires to { from ≤ to }
        ensures { result.now ≡ take (to - from) (bytes_from from self.now) }
    {
        let len = (self.end - from) as usize;
        let rest = &self.bytes.as_slice()[self.bytes.len() - len..];
        &rest[..len.min((to - from) as usize)]
    }
}

/// Lets go of the segments that end before an offset or at it.
pub(super) fn let_go(segments: &mut VecDeque<Segment>, offset: u64)
    ensures { segments.new.items ≡ segments_behind offset segments.old.items }
{
    while let Some(segment) = segments.front() {
        if offset < segment.end {
            return;
        }
        segments.pop_front();
    }
}

/// The place of the first segment that ends behind an offset.
fn place_of(segments: &VecDeque<Segment>, offset: u64) -> usize
    requires { IsNonDecreasingBy segment_end segments.now.items }
    ensures { drop result segments.now.items ≡ segments_behind offset segments.now.items }
{
    segments.partition_point(|segment| segment.end <= offset)
}

/// Appends the bytes between two offsets that the segments have.
pub(super) fn put(
    segments: &VecDeque<Segment>,
    start: u64,
    end: u64,
    out: &mut Vec<u8>,
) -> Result<(), Memory>
    requires sorted { IsNonDecreasingBy segment_end segments.now.items }
    requires joined { (to : ℕ) × Joined start (segments_behind start segments.now.items) to × (end ≤ to) }
    requires order { start ≤ end }
    ensures ok { OnOk result (out.new.items ≡ out.old.items ++ take (end - start) (held start (segments_behind start segments.now.items))) }
    ensures err { OnErr result (out.new.items ≡ out.old.items) }
{
    out.try_reserve((end - start) as usize)?;
    let mut at = start;
    let mut place = place_of(segments, start);
    while at < end {
        let segment = &segments[place];
        out.extend_from_slice(segment.between(at, end)).unwrap();
        at = segment.end;
        place += 1;
    }
    Ok(())
}
