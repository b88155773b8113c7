ghost use Rattle.std.specs.Prelude.{◌≡◌, ◌⊎◌, ◌↔◌, ◌≤◌, ◌+◌, ◌∷◌, [], ℕ, IfSome, None, MatchOption};
ghost use Rattle.std.specs.Option.{option_map};
ghost use Rattle.qh_frame.specs.AckAt.{end_of};
ghost use Rattle.qh_frame.specs.FieldsAt.{pairs_at};
ghost use Rattle.qh_frame.specs.FrameAt.{fields_at};
ghost use Rattle.qh_frame.specs.Plain.{ack_of, ranges_of, GoesOn, IsCovered};
ghost use Rattle.qh_spec.specs.Acknowledged.{Covers};
ghost use Rattle.qh_spec.specs.FrameTypes as frame_types;

use crate::fields::{number_of, value_of};
use crate::write::number;
use crate::{Ack, AckRange};
use qh_base::VarInt;

impl<'a> Ack<'a> {
    /// Its greatest range, and the ranges below it.
    pub fn split(&self) -> (AckRange, Option<Ack<'a>>)
        ensures greatest { result.0.greatest ≡ self.now.greatest }
        ensures order { result.0.least ≤ result.0.greatest }
        ensures covers { (n : ℕ) → Covers (ack_of self.now) n ↔ (((result.0.least ≤ n) × (n ≤ result.0.greatest)) ⊎ IsCovered result.1 n) }
        ensures below { IfSome result.1 (λ a. a.greatest + 2 ≤ result.0.least) }
    {
        let range = self.first_range();
        (range, self.below())
    }

    // The greatest range.
    fn first_range(&self) -> AckRange
        ensures greatest { result.greatest ≡ self.now.greatest }
        ensures least { self.now.greatest ≡ result.least + self.now.first }
    {
        let greatest = self.greatest.into_inner();
        let least = greatest - self.first.into_inner();
        AckRange { least, greatest }
    }

    // The ranges below the greatest one.
    fn below(&self) -> Option<Ack<'a>>
        ensures { MatchOption result (ranges_of self.now ≡ self.now.first ∷ []) (λ a. GoesOn self.now.greatest self.now.first (ranges_of self.now) a.greatest (ranges_of a)) }
    {
        if self.pairs == 0 {
            return None;
        }
        let Some((gap, rest)) = value_of(self.bytes) else {
            return None;
        };
        let Some((first, rest)) = value_of(rest) else {
            return None;
        };
        let greatest = number(self.greatest.into_inner() - (2 + gap + self.first.into_inner()));
        Some(Ack {
            greatest,
            delay: self.delay,
            ecn: self.ecn,
            first: number(first),
            pairs: self.pairs - 1,
            bytes: rest,
        })
    }

    // Reads the fields of the type 02, and says what follows them.
    #[tactic(auto, unfolding(crate::specs::FrameAt::fields_at, crate::specs::FieldsAt::ranges_at, crate::specs::AckAt::end_of, qh_spec::specs::QuicFrames::shape_of))]
    pub(crate) fn read(bytes: &'a [u8]) -> Option<(Ack<'a>, &'a [u8])>
        ensures fields { option_map (λ f. (ack_of f.0, f.1.now)) result ≡ fields_at frame_types.ack bytes.now }
        ensures ecn { IfSome result (λ f. f.0.ecn ≡ None) }
    {
        let Some((greatest, rest)) = number_of(bytes) else {
            return None;
        };
        let Some((delay, rest)) = number_of(rest) else {
            return None;
        };
        let Some((pairs, rest)) = number_of(rest) else {
            return None;
        };
        let Some((first, rest)) = number_of(rest) else {
            return None;
        };
        let pairs = pairs.into_inner();
        let Some(end) = ranges_end(greatest, first, pairs, rest) else {
            return None;
        };
        Some((
            Ack {
                greatest,
                delay,
                ecn: None,
                first,
                pairs,
                bytes: rest,
            },
            end,
        ))
    }
}

// What follows so many gaps with a range. None where they are cut, or where a range goes below 0.
fn ranges_end(greatest: VarInt, first: VarInt, pairs: u64, bytes: &[u8]) -> Option<&[u8]>
    ensures { option_map (λ r. r.now) result ≡ end_of greatest first (pairs_at pairs bytes.now) }
{
    let mut greatest = greatest.into_inner();
    let mut range = first.into_inner();
    let mut rest = bytes;
    for _ in 0..pairs {
        let Some((gap, more)) = value_of(rest) else {
            return None;
        };
        let Some((next, more)) = value_of(more) else {
            return None;
        };
        let below = 2 + gap + range;
        if greatest < below {
            return None;
        }
        greatest -= below;
        range = next;
        rest = more;
    }
    if greatest < range {
        return None;
    }
    Some(rest)
}
