use bytes::Bytes;
use qh_base::{ConnectionError, Side, StreamId, VarInt};
use std::net::{IpAddr, SocketAddr};

/// What a call replies. `T` is what a connection tells that its book doesn't have: round-trip times, counts, the congestion window, and what
/// the handshake tells of the peer.
#[derive(Drop)]
pub enum Reply<T> {
    /// Nothing yet: the call waits.
    Pending,
    /// A stream that was opened or accepted.
    Opened(StreamId),
    /// Bytes of a stream from this offset on.
    Bytes { offset: u64, payload: Bytes },
    /// The end of a stream.
    Ended,
    /// How many bytes were written.
    Count(usize),
    /// The code of a reset or of a stop, if there is one.
    Code(Option<VarInt>),
    /// A number.
    Number(u64),
    /// The priority of a stream.
    Priority(i32),
    /// It is done.
    Done,
    /// A datagram.
    Datagram(Bytes),
    /// The longest payload of a datagram that may be sent.
    MaxDatagramSize(Option<u64>),
    /// Which end this is.
    Side(Side),
    /// The peer's address.
    RemoteAddress(SocketAddr),
    /// This end's address, if it is known.
    LocalIp(Option<IpAddr>),
    /// A value that the book doesn't have.
    Told(T),
    /// The connection is lost.
    ConnectionLost(ConnectionError),
    /// The peer reset the stream, with this code.
    Reset(VarInt),
    /// The peer asked to stop the stream, with this code.
    Stopped(VarInt),
    /// The half of the stream is closed.
    ClosedStream,
    /// An ordered read after an unordered one.
    IllegalOrderedRead,
    /// The peer takes no datagrams.
    UnsupportedByPeer,
    /// Datagrams are turned off at this end.
    Disabled,
    /// The datagram is longer than may be sent.
    TooLarge,
    /// The socket failed. Of a driver's turn alone.
    Failed,
    /// The allocator had no memory. Of a driver's turn alone: any other call that wants memory isn't made.
    Memory,
}
