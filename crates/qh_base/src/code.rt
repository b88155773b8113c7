ghost use Rattle.std.specs.Prelude.{◌≡◌};

/// An error code of HTTP/3 (RFC 9114, section 8.1, RFC 9204, section 6, and RFC 9297, section 5.2). The names are those
/// of the RFCs.
#[derive(Clone, Copy, PartialEq, Eq, PartialOrd, Ord, Hash)]
pub struct Code(pub u64);

impl Code {
    /// A datagram, or a capsule, that isn't one.
    pub const H3_DATAGRAM_ERROR: Code = Code(0x33);

    /// No error.
    pub const H3_NO_ERROR: Code = Code(0x100);

    /// A fault against the protocol for which there is no other code.
    pub const H3_GENERAL_PROTOCOL_ERROR: Code = Code(0x101);

    /// A fault inside the endpoint.
    pub const H3_INTERNAL_ERROR: Code = Code(0x102);

    /// A stream that the endpoint won't take.
    pub const H3_STREAM_CREATION_ERROR: Code = Code(0x103);

    /// A stream that the connection needs was closed or reset.
    pub const H3_CLOSED_CRITICAL_STREAM: Code = Code(0x104);

    /// A frame that isn't permitted where it stands.
    pub const H3_FRAME_UNEXPECTED: Code = Code(0x105);

    /// A frame that breaks its layout or size.
    pub const H3_FRAME_ERROR: Code = Code(0x106);

    /// The peer makes too much work.
    pub const H3_EXCESSIVE_LOAD: Code = Code(0x107);

    /// A stream id or a push id that is out of its bounds or was used before.
    pub const H3_ID_ERROR: Code = Code(0x108);

    /// A fault in a SETTINGS frame.
    pub const H3_SETTINGS_ERROR: Code = Code(0x109);

    /// The control stream doesn't begin with SETTINGS.
    pub const H3_MISSING_SETTINGS: Code = Code(0x10a);

    /// A server refused a request before it was handed on.
    pub const H3_REQUEST_REJECTED: Code = Code(0x10b);

    /// The request, or its response, isn't wanted any more.
    pub const H3_REQUEST_CANCELLED: Code = Code(0x10c);

    /// The client's stream ended within its request.
    pub const H3_REQUEST_INCOMPLETE: Code = Code(0x10d);

    /// A message that is malformed.
    pub const H3_MESSAGE_ERROR: Code = Code(0x10e);

    /// The connection that a CONNECT request asked for was reset or closed.
    pub const H3_CONNECT_ERROR: Code = Code(0x10f);

    /// The request has to be made again over HTTP/1.1.
    pub const H3_VERSION_FALLBACK: Code = Code(0x110);

    /// A field section that can't be decoded.
    pub const QPACK_DECOMPRESSION_FAILED: Code = Code(0x200);

    /// A fault on the peer's encoder stream.
    pub const QPACK_ENCODER_STREAM_ERROR: Code = Code(0x201);

    /// A fault on the peer's decoder stream.
    pub const QPACK_DECODER_STREAM_ERROR: Code = Code(0x202);

    /// The number.
    pub fn value(self) -> u64
        ensures { result ≡ self.0 }
    {
        self.0
    }
}
