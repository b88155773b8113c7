ghost use Rattle.std.specs.Prelude.{◌≡◌, ◌+◌, length};
ghost use Rattle.qh_frame.specs.Plain.{ack_of};
ghost use Rattle.qh_handshake.specs.Settled.{AreTaken, Packets as APackets, any_bears};
ghost use Rattle.qh_recovery.specs.SentPackets.{IsLost, IsWithin};
ghost use Rattle.qh_spec.specs.Acknowledged.{Covers};

use crate::HelloFrame;
use qh_base::{Moment, Span};
use qh_frame::{Ack, AckRange};
use qh_recovery::SentPackets;

/// What is known of packets that were taken out.
#[derive(Clone, Copy)]
pub(crate) struct Settled {
    /// How many they are.
    pub(crate) count: u64,
    /// Whether one of them bore the hello.
    pub(crate) has_hello: bool,
}

/// The packets that an ACK covers are out no more.
pub(crate) fn take_acked(sent: &mut SentPackets<HelloFrame>, ack: &Ack<'_>) -> Settled
    ensures { (taken : APackets) × AreTaken (λ k q. Covers (ack_of ack.now) k) sent.old sent.new taken × (result.count ≡ length taken) × (result.has_hello ≡ any_bears taken) }
{
    let before = sent.len();
    let (range, mut rest) = ack.split();
    let mut has_hello = take_range(sent, range);
    while let Some(ranges) = rest {
        let (range, below) = ranges.split();
        has_hello |= take_range(sent, range);
        rest = below;
    }
    Settled {
        count: (before - sent.len()) as u64,
        has_hello,
    }
}

// The packets in a range of an ACK are out no more. Answers whether one of them bore the hello.
fn take_range(sent: &mut SentPackets<HelloFrame>, range: AckRange) -> bool
    ensures { (taken : APackets) × AreTaken (IsWithin range.least range.greatest) sent.old sent.new taken × (length sent.old ≡ length sent.new + length taken) × (result ≡ any_bears taken) }
{
    let mut has_hello = false;
    while let Some((_, packet)) = sent.take_acked(range.least, range.greatest) {
        has_hello |= !packet.frames.is_empty();
    }
    has_hello
}

/// The packets that are lost by now are out no more (RFC 9002, section 6.1).
pub(crate) fn take_lost(
    sent: &mut SentPackets<HelloFrame>,
    largest_acked: u64,
    now: Moment,
    delay: Span,
) -> Settled
    ensures { (taken : APackets) × AreTaken (IsLost largest_acked now.0 delay.0) sent.old sent.new taken × (result.count ≡ length taken) × (result.has_hello ≡ any_bears taken) }
{
    let before = sent.len();
    let mut has_hello = false;
    while let Some((_, packet)) = sent.take_lost(largest_acked, now, delay) {
        has_hello |= !packet.frames.is_empty();
    }
    Settled {
        count: (before - sent.len()) as u64,
        has_hello,
    }
}
