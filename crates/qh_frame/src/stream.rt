ghost use Rattle.std.specs.Prelude.{◌≡◌, List};
ghost use Rattle.std.specs.Option.{option_map};
ghost use Rattle.qh_frame.specs.Plain.{stream_of};
ghost use Rattle.qh_frame.specs.StreamAt.{optional_at, payload_at, stream_at};
ghost use Rattle.qh_spec.specs.QuicFrame.{has_bit};

use crate::Stream;
use crate::fields::{counted_of, number_of};
use qh_base::{StreamId, VarInt};

// The fields of a STREAM frame of this type.
#[tactic(auto, unfolding(crate::specs::StreamAt::stream_at))]
pub(crate) fn stream_of(kind: u64, bytes: &[u8]) -> Option<(Stream<'_>, &[u8])>
    ensures { option_map (λ f. (stream_of f.0, f.1.now)) result
        ≡ stream_at (has_bit 4 kind) (has_bit 2 kind) (has_bit 1 kind) bytes.now }
{
    let Some((id, rest)) = number_of(bytes) else {
        return None;
    };
    let Some((offset, rest)) = optional_of(kind / 4 % 2 == 1, rest) else {
        return None;
    };
    let Some((payload, rest)) = payload_of(kind / 2 % 2 == 1, rest) else {
        return None;
    };
    Some((
        Stream {
            id: StreamId(id.into_inner()),
            offset,
            payload,
            fin: kind % 2 == 1,
        },
        rest,
    ))
}

// Reads a number where it is there, and else takes 0.
fn optional_of(there: bool, bytes: &[u8]) -> Option<(VarInt, &[u8])>
    ensures { option_map (λ f. (f.0, f.1.now)) result ≡ optional_at there bytes.now }
{
    if there {
        number_of(bytes)
    } else {
        Some((VarInt::from_u32(0), bytes))
    }
}

// Reads the bytes behind their length, or all that are left.
fn payload_of(with_length: bool, bytes: &[u8]) -> Option<(&[u8], &[u8])>
    ensures { option_map (λ f. (f.0.now, f.1.now)) result ≡ payload_at with_length bytes.now }
{
    if with_length {
        counted_of(bytes)
    } else {
        Some((bytes, &bytes[bytes.len()..]))
    }
}
