use bytes::Bytes;
use qh_base::{Dir, Moment, Reason, StreamId, VarInt};

/// What is asked of a connection by one call of a handle, or by one turn of its driver. The names are those of `quinn`.
#[derive(Drop)]
pub enum Call {
    /// Waits until the handshake is complete.
    Connecting,
    /// Waits for what the handshake tells of the peer.
    HandshakeData,
    /// Opens a stream.
    Open(Dir),
    /// Accepts the next stream that the peer opened.
    Accept(Dir),
    /// Reads of a stream, at most `max_length` bytes, in order or not.
    Read {
        id: StreamId,
        max_length: usize,
        is_ordered: bool,
    },
    /// Writes to a stream, as many of the bytes as the limits permit.
    Write {
        id: StreamId,
        payload: Bytes,
    },
    /// Ends a stream behind the bytes that were written.
    Finish(StreamId),
    /// Abandons what was written to a stream.
    Reset {
        id: StreamId,
        code: VarInt,
    },
    /// Wants no more of a stream.
    Stop {
        id: StreamId,
        code: VarInt,
    },
    /// Waits until the peer stops a stream, or all of it is acknowledged.
    Stopped(StreamId),
    /// Waits until the peer resets a stream.
    ReceivedReset(StreamId),
    /// Sets the priority of a stream.
    SetPriority {
        id: StreamId,
        priority: i32,
    },
    /// The priority of a stream.
    Priority(StreamId),
    /// Reads the oldest datagram that waits.
    ReadDatagram,
    /// Queues a datagram. If there is no room it waits, or drops the oldest queued ones.
    SendDatagram {
        payload: Bytes,
        wait: bool,
    },
    /// Why the connection is lost, if it is.
    CloseReason,
    /// Waits until the connection is lost.
    Closed,
    /// Closes the connection.
    Close {
        now: Moment,
        error_code: VarInt,
        reason: Reason,
    },
    /// A `SendStream` ends.
    EndSend(StreamId),
    /// A `RecvStream` ends.
    EndRecv(StreamId),
    /// A `Connection` is cloned.
    CloneHandle,
    /// A `Connecting` or a `Connection` ends.
    EndHandle,
    /// Asks for a value of the connection.
    Get(Getter),
    /// Changes a setting of the connection.
    Set(Setting),
    /// A turn of the driver.
    Drive {
        now: Moment,
    },
}

/// The getters of a `Connection`.
#[derive(Clone, Copy)]
pub enum Getter {
    MaxDatagramSize,
    DatagramSendBufferSpace,
    Side,
    RemoteAddress,
    LocalIp,
    Rtt,
    MinRtt,
    Stats,
    CongestionState,
    StableId,
    HandshakeData,
}

/// The setters of a `Connection`, with the value that is set.
#[derive(Clone, Copy)]
pub enum Setting {
    MaxConcurrentUniStreams(VarInt),
    MaxConcurrentBiStreams(VarInt),
    SendWindow(u64),
    ReceiveWindow(VarInt),
}
