/// The type of a QUIC frame (RFC 9000, sections 12.4 and 19; RFC 9221, section 4). The names follow those of `quinn-proto`,
/// where STREAM and DATAGRAM are ranges of types.
#[derive(Clone, Copy, PartialEq, Eq)]
pub struct FrameType(pub u64);

impl FrameType {
    /// No content.
    pub const PADDING: FrameType = FrameType(0x00);

    /// Asks for an acknowledgement.
    pub const PING: FrameType = FrameType(0x01);

    /// An acknowledgement.
    pub const ACK: FrameType = FrameType(0x02);

    /// An acknowledgement with the counts of ECN marks.
    pub const ACK_ECN: FrameType = FrameType(0x03);

    /// A sending half of a stream ends without the rest of its bytes.
    pub const RESET_STREAM: FrameType = FrameType(0x04);

    /// The bytes of a stream aren't wanted any more.
    pub const STOP_SENDING: FrameType = FrameType(0x05);

    /// Bytes of the handshake.
    pub const CRYPTO: FrameType = FrameType(0x06);

    /// A token for a later connection.
    pub const NEW_TOKEN: FrameType = FrameType(0x07);

    /// The first of the eight types of STREAM. A fault in any of them names this one.
    pub const STREAM: FrameType = FrameType(0x08);

    /// The limit of bytes on all streams.
    pub const MAX_DATA: FrameType = FrameType(0x10);

    /// The limit of bytes on a stream.
    pub const MAX_STREAM_DATA: FrameType = FrameType(0x11);

    /// The limit of two-way streams.
    pub const MAX_STREAMS_BIDI: FrameType = FrameType(0x12);

    /// The limit of one-way streams.
    pub const MAX_STREAMS_UNI: FrameType = FrameType(0x13);

    /// The limit of bytes on all streams is reached.
    pub const DATA_BLOCKED: FrameType = FrameType(0x14);

    /// The limit of bytes on a stream is reached.
    pub const STREAM_DATA_BLOCKED: FrameType = FrameType(0x15);

    /// The limit of two-way streams is reached.
    pub const STREAMS_BLOCKED_BIDI: FrameType = FrameType(0x16);

    /// The limit of one-way streams is reached.
    pub const STREAMS_BLOCKED_UNI: FrameType = FrameType(0x17);

    /// A connection id more.
    pub const NEW_CONNECTION_ID: FrameType = FrameType(0x18);

    /// A connection id isn't used any more.
    pub const RETIRE_CONNECTION_ID: FrameType = FrameType(0x19);

    /// Asks whether a path carries packets.
    pub const PATH_CHALLENGE: FrameType = FrameType(0x1a);

    /// The answer to that.
    pub const PATH_RESPONSE: FrameType = FrameType(0x1b);

    /// The transport closes the connection.
    pub const CONNECTION_CLOSE: FrameType = FrameType(0x1c);

    /// The application closes the connection.
    pub const APPLICATION_CLOSE: FrameType = FrameType(0x1d);

    /// The handshake is confirmed.
    pub const HANDSHAKE_DONE: FrameType = FrameType(0x1e);

    /// A datagram of the application, to the end of its packet.
    pub const DATAGRAM: FrameType = FrameType(0x30);

    /// A datagram of the application, with its length.
    pub const DATAGRAM_WITH_LENGTH: FrameType = FrameType(0x31);
}
