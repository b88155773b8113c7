ghost use Rattle.std.specs.Prelude.{◌≡◌, ◌<◌, ◌^◌, Bool, List, ℕ, IfOk, IfSome, length};
ghost use Rattle.std.specs.Option.{option_map};
ghost use Rattle.qh_spec.specs.FrameViews.{stream_of, stream_values};
ghost use Rattle.qh_plain.specs.Carried.{run_from};

use crate::packets::{FieldValue, Frame};
use crate::types::{FIN_BIT, has_bit, is_stream_type};
use bytes::Bytes;
use qh_base::Memory;
use std::alloc::Global;
use std::marker::Model;

/// A STREAM frame (RFC 9000, section 19.8). A contract sees it as `StreamFrame`.
#[derive(Drop)]
pub(super) struct Run {
    id: u64,
    offset: u64,
    payload: Bytes,
    fin: bool,
}

impl Model for Run {
    ghost use Rattle.std.specs.Prelude.{◌<◌, ◌^◌};
    ghost use Rattle.qh_spec.specs.QuicFrame.{StreamFrame};

    ghost Value = { StreamFrame };

    ghost view = { λ r. record { id = r.id; offset = r.offset; payload = r.payload; fin = r.fin } };

    ghost invariant = { λ r. r.offset < 2 ^ 62 };
}

impl Run {
    /// The STREAM frame that a frame is, if it is one.
    pub(super) fn of(alloc: Global, frame: &Frame) -> Result<Option<Run>, Memory>
        ensures { IfOk result (λ r. r ≡ stream_of frame.now) }
    {
        let kind = frame.kind();
        if !is_stream_type(kind) {
            return Ok(None);
        }
        let Some((id, offset, payload)) = fields(frame.values()) else {
            return Ok(None);
        };
        let payload = Bytes::copy_from_slice(alloc, payload)?;
        let fin = has_bit(kind, FIN_BIT);
        Ok(Some(Run {
            id,
            offset,
            payload,
            fin,
        }))
    }

    pub(super) fn id(&self) -> u64
        ensures { result ≡ self.now.id }
    {
        self.id
    }

    pub(super) fn offset(&self) -> u64
        ensures value { result ≡ self.now.offset }
        ensures bound { result < 2 ^ 62 }
    {
        self.offset
    }

    pub(super) fn payload(&self) -> &[u8]
        ensures value { result.now ≡ self.now.payload }
        ensures bound { length result.now < 2 ^ 63 }
    {
        self.payload.as_slice()
    }

    pub(super) fn fin(&self) -> bool
        ensures { result ≡ self.now.fin }
    {
        self.fin
    }
}

/// The id, the offset and the bytes in the fields of a STREAM frame.
fn fields(values: &[FieldValue]) -> Option<(u64, u64, &[u8])>
    ensures exact { (fin : Bool) → option_map (λ f. run_from fin f.0 f.1 f.2.now) result ≡ stream_values fin values.now }
    ensures bound { IfSome result (λ f. f.1 < 2 ^ 62) }
{
    match values {
        [id, offset, payload] => Some((id.number()?, offset.number()?, payload.text()?)),
        [id, payload] => Some((id.number()?, 0, payload.text()?)),
        _ => None,
    }
}
