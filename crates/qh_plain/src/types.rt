//! The numbers of QUIC's frame types, for the patterns of a `match`, and the bits of the types of STREAM.
ghost use Rattle.std.specs.Prelude.{◌≡◌, ◌<◌};
ghost use Rattle.qh_spec.specs.FrameTypes.{is_stream_type as is_stream_type_by_number};
ghost use Rattle.qh_spec.specs.QuicFrame.{has_bit as has_bit_of_type};

use qh_base::FrameType;

pub(crate) const PADDING: u64 = FrameType::PADDING.0;

pub(crate) const PING: u64 = FrameType::PING.0;

pub(crate) const ACK: u64 = FrameType::ACK.0;

pub(crate) const ACK_ECN: u64 = FrameType::ACK_ECN.0;

pub(crate) const RESET_STREAM: u64 = FrameType::RESET_STREAM.0;

pub(crate) const STOP_SENDING: u64 = FrameType::STOP_SENDING.0;

pub(crate) const CRYPTO: u64 = FrameType::CRYPTO.0;

pub(crate) const NEW_TOKEN: u64 = FrameType::NEW_TOKEN.0;

/// The first of the eight types of STREAM.
pub(crate) const STREAM: u64 = FrameType::STREAM.0;

pub(crate) const MAX_DATA: u64 = FrameType::MAX_DATA.0;

pub(crate) const MAX_STREAM_DATA: u64 = FrameType::MAX_STREAM_DATA.0;

pub(crate) const MAX_STREAMS_BIDI: u64 = FrameType::MAX_STREAMS_BIDI.0;

pub(crate) const MAX_STREAMS_UNI: u64 = FrameType::MAX_STREAMS_UNI.0;

pub(crate) const DATA_BLOCKED: u64 = FrameType::DATA_BLOCKED.0;

pub(crate) const STREAM_DATA_BLOCKED: u64 = FrameType::STREAM_DATA_BLOCKED.0;

pub(crate) const STREAMS_BLOCKED_BIDI: u64 = FrameType::STREAMS_BLOCKED_BIDI.0;

pub(crate) const STREAMS_BLOCKED_UNI: u64 = FrameType::STREAMS_BLOCKED_UNI.0;

pub(crate) const NEW_CONNECTION_ID: u64 = FrameType::NEW_CONNECTION_ID.0;

pub(crate) const RETIRE_CONNECTION_ID: u64 = FrameType::RETIRE_CONNECTION_ID.0;

pub(crate) const PATH_CHALLENGE: u64 = FrameType::PATH_CHALLENGE.0;

pub(crate) const PATH_RESPONSE: u64 = FrameType::PATH_RESPONSE.0;

pub(crate) const CONNECTION_CLOSE: u64 = FrameType::CONNECTION_CLOSE.0;

pub(crate) const APPLICATION_CLOSE: u64 = FrameType::APPLICATION_CLOSE.0;

pub(crate) const HANDSHAKE_DONE: u64 = FrameType::HANDSHAKE_DONE.0;

pub(crate) const DATAGRAM: u64 = FrameType::DATAGRAM.0;

pub(crate) const DATAGRAM_WITH_LENGTH: u64 = FrameType::DATAGRAM_WITH_LENGTH.0;

/// The bit of a type of STREAM whose frames have an offset (RFC 9000, section 19.8).
pub(crate) const OFFSET_BIT: u64 = 0x04;

/// The bit of one whose frames have a length.
pub(crate) const LENGTH_BIT: u64 = 0x02;

/// The bit of one whose frames end their stream.
pub(crate) const FIN_BIT: u64 = 0x01;

/// Whether a type has a bit.
pub(crate) fn has_bit(kind: u64, bit: u64) -> bool
    requires { 0 < bit }
    ensures { result ≡ has_bit_of_type bit kind }
{
    kind / bit % 2 == 1
}

/// Whether a type is one of the eight of STREAM (section 19.8).
pub(crate) fn is_stream_type(kind: u64) -> bool
    ensures { result ≡ is_stream_type_by_number kind }
{
    matches!(kind, STREAM..MAX_DATA)
}
