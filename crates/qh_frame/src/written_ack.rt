ghost use Rattle.std.specs.Prelude.{◌≡◌, ◌+◌, ◌*◌, ◌^◌, ◌<◌, ◌++◌, ◌↔◌, ℕ, length, OnOk, OnErr};
ghost use Rattle.qh_frame.specs.AckWritten.{AreApart, AreBelow, IsInOne, ack_frame, gaps};
ghost use Rattle.qh_frame.specs.FrameBytes.{IsPut, HasGrown, numbers_bytes};
ghost use Rattle.qh_spec.specs.Acknowledged.{Covers};

use crate::AckRange;
use crate::write::put_numbers;
use qh_base::{FrameType, Memory, VarInt};

/// Appends an ACK frame (RFC 9000, section 19.3) of ranges, the greatest first, or nothing.
pub fn put_ack(out: &mut Vec<u8>, delay: VarInt, ranges: &[AckRange]) -> Result<(), Memory>
    requires { AreApart ranges.now }
    ensures ok { OnOk result (IsPut out.old.items out.new.items (ack_frame delay ranges.now) (17 + 16 * length ranges.now)) }
    ensures covers { (n : ℕ) → Covers (ack_frame delay ranges.now) n ↔ IsInOne ranges.now n }
    ensures err { OnErr result (out.new.items ≡ out.old.items) }
{
    append_ack(out, delay.into_inner(), ranges)
}

// The same of a delay's number.
fn append_ack(out: &mut Vec<u8>, delay: u64, ranges: &[AckRange]) -> Result<(), Memory>
    requires apart { AreApart ranges.now }
    requires delay { delay < 2 ^ 62 }
    ensures ok { OnOk result (IsPut out.old.items out.new.items (ack_frame delay ranges.now) (17 + 16 * length ranges.now)) }
    ensures err { OnErr result (out.new.items ≡ out.old.items) }
{
    let start = out.len();
    let Some((first, below)) = ranges.split_first() else {
        return Ok(());
    };
    put_numbers(
        out,
        &[
            FrameType::ACK.0,
            first.greatest,
            delay,
            below.len() as u64,
            first.greatest - first.least,
        ],
    )?;
    if put_gaps(out, first.least, below).is_err() {
        out.truncate(start);
        return Err(Memory);
    }
    Ok(())
}

// Appends each gap with the range below it. After want of memory some may stand there.
fn put_gaps(out: &mut Vec<u8>, above: u64, ranges: &[AckRange]) -> Result<(), Memory>
    requires bound { above < 2 ^ 62 }
    requires below { AreBelow above ranges.now }
    ensures ok { OnOk result (out.new.items ≡ out.old.items ++ numbers_bytes (gaps above ranges.now)) }
    ensures err { OnErr result (HasGrown out.old.items out.new.items) }
{
    let mut above = above;
    for range in ranges {
        put_numbers(
            out,
            &[above - (range.greatest + 2), range.greatest - range.least],
        )?;
        above = range.least;
    }
    Ok(())
}
