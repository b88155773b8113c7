use qh_base::{Dir, StreamId};

/// A call that waits: what of it decides for how long.
#[derive(Clone, Copy)]
pub enum Interest {
    Connecting,
    HandshakeData,
    Open(Dir),
    Accept(Dir),
    /// A reader waits, in order or not.
    Read { id: StreamId, is_ordered: bool },
    Write(StreamId),
    Stopped(StreamId),
    ReceivedReset(StreamId),
    ReadDatagram,
    /// A datagram of this many bytes waits for room.
    SendDatagram(usize),
    Closed,
}
