ghost use Rattle.std.specs.Prelude.{◌≡◌};
ghost use Rattle.qh_h3wire.specs.StreamTypes as stream_types;

/// The type of a one-way stream, with which it begins (RFC 9114, section 6.2, and RFC 9204, section 4.2).
#[derive(Clone, Copy)]
pub struct StreamType(pub u64);

impl StreamType {
    /// A control stream.
    pub const CONTROL: StreamType = StreamType(0);

    /// A push stream.
    pub const PUSH: StreamType = StreamType(1);

    /// A QPACK encoder stream.
    pub const ENCODER: StreamType = StreamType(2);

    /// A QPACK decoder stream.
    pub const DECODER: StreamType = StreamType(3);

    /// A type that has no meaning, with which an end shows that it skips such streams.
    pub const GREASE: StreamType = StreamType(0x21);
}

/// The types have the numbers of the RFCs.
pub fn stream_types_are_assigned()
    ensures { (StreamType.CONTROL.0 ≡ stream_types.control)
        × (StreamType.PUSH.0 ≡ stream_types.push)
        × (StreamType.ENCODER.0 ≡ stream_types.qpack_encoder)
        × (StreamType.DECODER.0 ≡ stream_types.qpack_decoder)
        × (StreamType.GREASE.0 ≡ stream_types.grease) }
{}
