use bytes::Bytes;
use qh_base::{ConnectionError, Dir, StreamId, VarInt};

/// What a driver's turn brings, in a form that can be read without packets: each item is one small change of the book.
///
/// They are the items of a connection's log: those of `qh_streams::Item` that have the same name, and of `qh_control::ConnectionItem` the ones
/// named here.
#[derive(Drop)]
pub enum Item {
    /// The handshake is complete (`ConnectionItem::Connected`).
    Connected,
    /// The peer opened a stream, and with it those of its kind before it that didn't come yet. If this end sends on them, this is the first
    /// limit on the bytes of each.
    Arrived {
        id: StreamId,
        credit: VarInt,
    },
    /// Bytes of a stream from this offset on.
    Run {
        id: StreamId,
        offset: VarInt,
        bytes: Bytes,
    },
    /// The end of a stream, and its final size.
    End {
        id: StreamId,
        size: u64,
    },
    /// The peer reset its half of a stream, with this code and this final size.
    Reset {
        id: StreamId,
        code: VarInt,
        size: VarInt,
    },
    /// The peer asks to stop a stream, with this code.
    Stop {
        id: StreamId,
        code: VarInt,
    },
    /// The peer's limit on the bytes of a stream.
    StreamCredit {
        id: StreamId,
        limit: VarInt,
    },
    /// The peer's limit on the bytes of all streams.
    Credit(VarInt),
    /// The peer's limit on the count of streams of a direction.
    Count {
        dir: Dir,
        count: u64,
    },
    /// The peer's first limits on the bytes of a two-way and of a one-way stream that this end opens.
    FirstCredits {
        bidi: VarInt,
        uni: VarInt,
    },
    /// The peer acknowledged all bytes of a stream before this offset, and its end if `has_end`.
    Confirmed {
        id: StreamId,
        to: u64,
        has_end: bool,
    },
    /// The peer acknowledged the reset of a stream.
    ResetConfirmed {
        id: StreamId,
    },
    /// A datagram came, with this payload (`ConnectionItem::Datagram`).
    Datagram(Bytes),
    /// This many of the oldest queued datagrams were sent (`ConnectionItem::DatagramsSent`).
    DatagramsSent(usize),
    /// The longest payload of a datagram that may be sent (`ConnectionItem::MaxDatagramSize`).
    MaxDatagramSize(Option<u64>),
    /// The connection is lost (`ConnectionItem::Lost`). If it is by want of memory, what waited to be read, accepted, told or sent is gone with it, and so
    /// is each sending half.
    Lost(ConnectionError),
}
