ghost use Rattle.std.specs.Prelude.{IsSome};
ghost use Rattle.qh_frame.specs.AckAt.{end_of};
ghost use Rattle.qh_frame.specs.FieldsAt.{pairs_at};

mod ranges;

use qh_base::VarInt;

/// How many packets came with each ECN mark (RFC 9000, section 19.3.2).
#[derive(Clone, Copy)]
pub struct EcnCounts {
    pub ect0: VarInt,
    pub ect1: VarInt,
    pub ce: VarInt,
}

/// An ACK frame over the bytes of its packet (RFC 9000, section 19.3).
#[derive(Clone, Copy)]
pub struct Ack<'a> {
    /// The greatest packet number that it acknowledges.
    pub greatest: VarInt,
    /// How long its receipt was kept back, in units that the transport parameters tell.
    pub delay: VarInt,
    /// The counts that the type 03 has. None for the type 02.
    pub ecn: Option<EcnCounts>,
    // How many numbers below the greatest its range has.
    first: VarInt,
    // How many gaps with a range follow, and where they begin.
    pairs: u64,
    bytes: &'a [u8],
    ghost whole: { IsSome (end_of greatest first (pairs_at pairs bytes.now)) },
}

/// Packet numbers, from the least to the greatest.
#[derive(Clone, Copy)]
pub struct AckRange {
    pub least: u64,
    pub greatest: u64,
}
