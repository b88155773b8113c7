ghost use Rattle.std.specs.Prelude.{◌≡◌, ◌≤◌, ◌++◌, ℕ, Option, OnOk, IfOk, length, take};
ghost use Rattle.std.specs.List.{AllByRecursion};
ghost use Rattle.qh_core.specs.Control.{AreControl, MaySend, control_bytes, control_frame, fitting};
ghost use Rattle.qh_frame.specs.FrameBytes.{frame_bytes};
ghost use Rattle.qh_streams.specs.Streams.{IsReadBack};
ghost use Rattle.qh_spec.specs.declared.sides.Side.{Side as ASide};

use bytes::Bytes;
use qh_base::{ConnectionId, Memory, ResetToken, Transmit, VarInt};
use qh_frame::{put_datagram, put_new_connection_id, put_new_token, put_retire_connection_id};

/// A frame of a connection's own, beside those of its streams: whoever hands it in keeps it until its packet is acknowledged, and
/// hands it in again if it was lost, unless it is a datagram.
#[derive(Drop)]
pub enum ControlFrame {
    /// A token for a later attempt, from a server (RFC 9000, section 19.7). It isn't empty.
    NewToken {
        token: Bytes,
    },
    /// One more connection id of this end's, of 1 to 20 bytes, with the end of the stateless reset that belongs to it (section 19.15).
    NewConnectionId {
        sequence: VarInt,
        /// The ids below this sequence, which isn't above the frame's own, are to be retired.
        retire_prior_to: VarInt,
        id: ConnectionId,
        reset_token: ResetToken,
    },
    /// An id of the peer's is used no more (section 19.16).
    RetireConnectionId {
        sequence: VarInt,
    },
    /// A datagram of the application's, never sent again (RFC 9221, section 4). It has at most 1,140 bytes.
    Datagram {
        payload: Bytes,
    },
}

/// A datagram of frames of a connection's own.
#[derive(Clone, Copy)]
pub struct ControlSent {
    /// Where it goes, and its size.
    pub transmit: Transmit,
    /// The number of its packet.
    pub number: u64,
    /// How many of the frames it bears, from the first on.
    pub count: usize,
}

impl ControlFrame {
    // Appends the frame.
    fn put(&self, out: &mut Vec<u8>) -> Result<(), Memory>
        requires { (side : ASide) × (most : Option ℕ) × MaySend side most self.now }
        ensures put { OnOk result (out.new.items ≡ out.old.items ++ frame_bytes (control_frame self.now)) }
        ensures read_back { OnOk result (IsReadBack (control_frame self.now)) }
    {
        match self {
            ControlFrame::NewToken { token } => put_new_token(out, token.as_slice()),
            ControlFrame::NewConnectionId {
                sequence,
                retire_prior_to,
                id,
                reset_token,
            } => put_new_connection_id(out, *sequence, *retire_prior_to, *id, *reset_token),
            ControlFrame::RetireConnectionId { sequence } => {
                put_retire_connection_id(out, *sequence)
            }
            ControlFrame::Datagram { payload } => put_datagram(out, payload.as_slice()),
        }
    }
}

// Appends as many of the frames as have room, from the first on, and answers how many.
pub(crate) fn put_control(
    out: &mut Vec<u8>,
    frames: &[ControlFrame],
    room: usize,
) -> Result<usize, Memory>
    requires { (side : ASide) × (most : Option ℕ) × AllByRecursion (MaySend side most) frames.now }
    ensures count { IfOk result (λ count. count ≡ fitting room frames.now) }
    ensures put { OnOk result (out.new.items ≡ out.old.items ++ control_bytes (take (fitting room frames.now) frames.now)) }
    ensures fits { OnOk result (length (control_bytes (take (fitting room frames.now) frames.now)) ≤ room) }
    ensures read_back { OnOk result (AllByRecursion (λ f. IsReadBack (control_frame f)) (take (fitting room frames.now) frames.now)) }
{
    let mut left = room;
    let mut count = 0;
    for frame in frames {
        let start = out.len();
        frame.put(out)?;
        let size = out.len() - start;
        if left < size {
            out.truncate(start);
            return Ok(count);
        }
        left -= size;
        count += 1;
    }
    Ok(count)
}
