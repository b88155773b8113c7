ghost use Rattle.std.specs.Prelude.{◌≡◌};

use crate::{Outgoing, ResetFrame};
use bytes::Bytes;
use qh_base::{Dir, StreamId, VarInt};

/// The limits that this end announces, and how much it holds to send. An announced limit is at most 2^62 - 1, a count of
/// streams at most 2^60: a greater value counts as that one.
#[derive(Clone, Copy)]
pub struct StreamLimits {
    /// How many bytes more than were read may come, on all streams.
    pub receive_window: u64,
    /// How many bytes more than were read may come, on one stream.
    pub stream_window: u64,
    /// How many bytes may be held that aren't acknowledged, of all streams.
    pub send_window: u64,
    /// How many two-way streams of the peer's may be open at once.
    pub max_bidi: u64,
    /// How many one-way streams of the peer's may be open at once.
    pub max_uni: u64,
}

/// The first limits of the peer (RFC 9000, section 18.2).
#[derive(Clone, Copy)]
pub struct PeerLimits {
    /// Of the bytes of all streams.
    pub max_data: VarInt,
    /// Of the bytes of a two-way stream that the peer opens.
    pub bidi_local: VarInt,
    /// Of the bytes of a two-way stream that this end opens.
    pub bidi_remote: VarInt,
    /// Of the bytes of a one-way stream.
    pub uni: VarInt,
    /// Of the count of two-way streams. A greater value than 2^60 counts as that.
    pub max_bidi: u64,
    /// Of the count of one-way streams. A greater value than 2^60 counts as that.
    pub max_uni: u64,
}

impl PeerLimits {
    /// Nothing may be sent yet.
    pub fn none() -> PeerLimits
        ensures { result ≡ record { max_data = 0; bidi_local = 0; bidi_remote = 0; uni = 0; max_bidi = 0; max_uni = 0 } }
    {
        let zero = VarInt::from_u32(0);
        PeerLimits {
            max_data: zero,
            bidi_local: zero,
            bidi_remote: zero,
            uni: zero,
            max_bidi: 0,
            max_uni: 0,
        }
    }
}

/// A frame of the peer's that speaks of streams (RFC 9000, sections 19.4, 19.5 and 19.8 to 19.11).
#[derive(Drop)]
pub enum StreamFrame {
    Stream {
        id: StreamId,
        offset: VarInt,
        payload: Bytes,
        fin: bool,
    },
    Reset {
        id: StreamId,
        code: VarInt,
        size: VarInt,
    },
    Stop {
        id: StreamId,
        code: VarInt,
    },
    MaxData(VarInt),
    MaxStreamData {
        id: StreamId,
        max: VarInt,
    },
    MaxStreams {
        dir: Dir,
        count: VarInt,
    },
}

/// What was written in one frame: it is spent when the frame is acknowledged or lost.
#[derive(Clone, Drop)]
pub enum SentFrame {
    Stream { id: StreamId, piece: Outgoing },
    ResetStream { id: StreamId, reset: ResetFrame },
    StopSending { id: StreamId, code: VarInt },
    MaxData(VarInt),
    MaxStreamData { id: StreamId, limit: VarInt },
    MaxStreams { dir: Dir, count: VarInt },
}

/// What happened to streams.
#[derive(Clone, Copy)]
pub enum StreamEvent {
    /// The peer opened streams: `accept` gives them.
    Opened { dir: Dir },
    /// Bytes, the end or a reset came of a stream that was there.
    Readable { id: StreamId },
    /// Bytes may be written again, which limits forbade.
    Writable { id: StreamId },
    /// The end of a stream and all its bytes are acknowledged.
    Finished { id: StreamId },
    /// The peer asked to stop, with this code.
    Stopped { id: StreamId, code: VarInt },
    /// The peer permits more streams.
    Available { dir: Dir },
}
