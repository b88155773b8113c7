ghost use Rattle.std.specs.Prelude.{◌≡◌};
ghost use Rattle.std.specs.Option.{option_map};
ghost use Rattle.qh_frame.specs.TypeOf.{named, type_of};

use crate::Ack;
use qh_base::{ConnectionId, Dir, FrameType, ResetToken, StreamId, VarInt};

/// A STREAM frame over the bytes of its packet (RFC 9000, section 19.8).
#[derive(Clone, Copy)]
pub struct Stream<'a> {
    pub id: StreamId,
    /// Where in the stream its bytes begin.
    pub offset: VarInt,
    /// Whether the stream ends with them.
    pub fin: bool,
    pub payload: &'a [u8],
}

/// A frame over the bytes of its packet (RFC 9000, section 19; RFC 9221, section 4).
#[derive(Clone, Copy)]
pub enum Frame<'a> {
    /// Nothing (section 19.1).
    Padding,
    /// Asks for an acknowledgement (section 19.2).
    Ping,
    /// Packets that came (section 19.3).
    Ack(Ack<'a>),
    /// The end of what its sender sends on a stream, with the size that the stream has (section 19.4).
    ResetStream {
        id: StreamId,
        error_code: VarInt,
        final_size: VarInt,
    },
    /// Asks for the end of a stream (section 19.5).
    StopSending {
        id: StreamId,
        error_code: VarInt,
    },
    /// Bytes of the handshake at their offset (section 19.6).
    Crypto {
        offset: VarInt,
        payload: &'a [u8],
    },
    /// A token for a later connection (section 19.7).
    NewToken {
        token: &'a [u8],
    },
    /// Bytes of a stream (section 19.8).
    Stream(Stream<'a>),
    /// The greatest sum of the streams' offsets, in bytes (section 19.9).
    MaxData(VarInt),
    /// The greatest offset in a stream, in bytes (section 19.10).
    MaxStreamData {
        id: StreamId,
        offset: VarInt,
    },
    /// How many streams of a direction may be opened in all (section 19.11).
    MaxStreams {
        dir: Dir,
        count: VarInt,
    },
    /// The limit of all streams keeps bytes back (section 19.12).
    DataBlocked {
        offset: VarInt,
    },
    /// The limit of a stream keeps bytes back (section 19.13).
    StreamDataBlocked {
        id: StreamId,
        offset: VarInt,
    },
    /// The count of streams keeps a stream back (section 19.14).
    StreamsBlocked {
        dir: Dir,
        limit: VarInt,
    },
    /// A further connection id of its sender (section 19.15).
    NewConnectionId {
        sequence: VarInt,
        retire_prior_to: VarInt,
        id: ConnectionId,
        reset_token: ResetToken,
    },
    /// A connection id is used no more (section 19.16).
    RetireConnectionId {
        sequence: VarInt,
    },
    /// Asks for these bytes (section 19.17).
    PathChallenge([u8; 8]),
    /// The bytes that were asked for (section 19.18).
    PathResponse([u8; 8]),
    /// The end of the connection by the transport (section 19.19).
    ConnectionClose {
        code: VarInt,
        /// The type of the frame at fault, 0 where none is known.
        frame_type: VarInt,
        reason: &'a [u8],
    },
    /// The end of the connection by the application (section 19.19).
    ApplicationClose {
        code: VarInt,
        reason: &'a [u8],
    },
    /// The handshake is confirmed (section 19.20).
    HandshakeDone,
    /// A datagram of the application (RFC 9221, section 4).
    Datagram {
        payload: &'a [u8],
        /// Whether its length stands in front of the payload: the type 31, else 30, which goes on to the packet's end.
        has_length: bool,
    },
}

impl Frame<'_> {
    /// The type that names the frame in an error. All types of STREAM are named by the first of them.
    pub fn frame_type(&self) -> FrameType
        ensures { result.0 ≡ type_of self.now }
    {
        match self {
            Frame::Padding => FrameType::PADDING,
            Frame::Ping => FrameType::PING,
            Frame::Ack(Ack { ecn: None, .. }) => FrameType::ACK,
            Frame::Ack(_) => FrameType::ACK_ECN,
            Frame::ResetStream { .. } => FrameType::RESET_STREAM,
            Frame::StopSending { .. } => FrameType::STOP_SENDING,
            Frame::Crypto { .. } => FrameType::CRYPTO,
            Frame::NewToken { .. } => FrameType::NEW_TOKEN,
            Frame::Stream(_) => FrameType::STREAM,
            Frame::MaxData(_) => FrameType::MAX_DATA,
            Frame::MaxStreamData { .. } => FrameType::MAX_STREAM_DATA,
            Frame::MaxStreams { dir: Dir::Bi, .. } => FrameType::MAX_STREAMS_BIDI,
            Frame::MaxStreams { dir: Dir::Uni, .. } => FrameType::MAX_STREAMS_UNI,
            Frame::DataBlocked { .. } => FrameType::DATA_BLOCKED,
            Frame::StreamDataBlocked { .. } => FrameType::STREAM_DATA_BLOCKED,
            Frame::StreamsBlocked { dir: Dir::Bi, .. } => FrameType::STREAMS_BLOCKED_BIDI,
            Frame::StreamsBlocked { dir: Dir::Uni, .. } => FrameType::STREAMS_BLOCKED_UNI,
            Frame::NewConnectionId { .. } => FrameType::NEW_CONNECTION_ID,
            Frame::RetireConnectionId { .. } => FrameType::RETIRE_CONNECTION_ID,
            Frame::PathChallenge(_) => FrameType::PATH_CHALLENGE,
            Frame::PathResponse(_) => FrameType::PATH_RESPONSE,
            Frame::ConnectionClose { .. } => FrameType::CONNECTION_CLOSE,
            Frame::ApplicationClose { .. } => FrameType::APPLICATION_CLOSE,
            Frame::HandshakeDone => FrameType::HANDSHAKE_DONE,
            Frame::Datagram {
                has_length: true,
                ..
            } => FrameType::DATAGRAM_WITH_LENGTH,
            Frame::Datagram { .. } => FrameType::DATAGRAM,
        }
    }
}

/// Bytes that no frame begins, or one whose values may not stand in it.
#[derive(Clone, Copy)]
pub struct FrameFault {
    /// The type that the bytes begin with. None where it is cut.
    pub frame: Option<u64>,
}

impl FrameFault {
    /// The type that names the frame in an error, as `Frame::frame_type` does.
    pub fn frame_type(&self) -> Option<u64>
        ensures { result ≡ option_map named self.now.frame }
    {
        match self.frame {
            Some(8..16) => Some(FrameType::STREAM.0),
            other => other,
        }
    }
}
