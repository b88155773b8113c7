ghost use Rattle.std.specs.Prelude.{◌≡◌, ◌<◌, ◌≤◌, length, true, false};
ghost use Rattle.qh_frame.specs.Plain.{ack_of};
ghost use Rattle.qh_loss.specs.Owed.{AreOwed};
ghost use Rattle.qh_loss.specs.Settled.{AreAckConfirmed, IsAckConfirmed};
ghost use Rattle.qh_recovery.specs.SentPackets.{IsWithin, frame_count};
ghost use Rattle.qh_streams.specs.Items.{kept_in, HasRoom};

use qh_frame::{Ack, AckRange};
use qh_recovery::{SentPackets, WindowController};
use qh_streams::{Item, SentFrame, Streams};

/// An ACK came (RFC 9002, appendix A.7): the packets that it covers are acknowledged, with all their frames, and the window grows
/// by their sizes. What that confirms is appended to the items that a log lent out, with room for one of each frame that is out.
/// Answers whether any packet that was out is acknowledged.
pub fn on_ack_received(
    streams: &mut Streams,
    sent: &mut SentPackets<SentFrame>,
    congestion: &mut WindowController,
    ack: &Ack<'_>,
    log: &mut Option<Vec<Item>>,
) -> bool
    requires owed { AreOwed streams.old sent.old }
    requires room { HasRoom log.old (frame_count sent.old) }
    ensures taken { IsAckConfirmed (ack_of ack.now) sent.old sent.new streams.old streams.new congestion.old congestion.new (kept_in log.old) (kept_in log.new) }
    ensures none { result ≡ false → (sent.new ≡ sent.old) × (streams.new ≡ streams.old) × (congestion.new ≡ congestion.old) }
    ensures some { result ≡ true → sent.new ≡ sent.old → ⊥ }
    ensures owed { AreOwed streams.new sent.new }
{
    let (range, mut rest) = ack.split();
    let mut is_any = acknowledge(streams, sent, congestion, range, log);
    while let Some(ranges) = rest {
        let (range, below) = ranges.split();
        is_any |= acknowledge(streams, sent, congestion, range, log);
        rest = below;
    }
    is_any
}

// The packets in a range of an ACK are acknowledged. Answers whether any is.
fn acknowledge(
    streams: &mut Streams,
    sent: &mut SentPackets<SentFrame>,
    congestion: &mut WindowController,
    range: AckRange,
    log: &mut Option<Vec<Item>>,
) -> bool
    requires owed { AreOwed streams.old sent.old }
    requires room { HasRoom log.old (frame_count sent.old) }
    ensures taken { AreAckConfirmed (IsWithin range.least range.greatest) sent.old sent.new streams.old streams.new congestion.old congestion.new (kept_in log.old) (kept_in log.new) }
    ensures room { HasRoom log.new (frame_count sent.new) }
    ensures none { result ≡ false → (sent.new ≡ sent.old) × (streams.new ≡ streams.old) × (congestion.new ≡ congestion.old) }
    ensures some { result ≡ true → length sent.new < length sent.old }
    ensures fewer { length sent.new ≤ length sent.old }
    ensures owed { AreOwed streams.new sent.new }
{
    let mut is_any = false;
    while let Some((_, packet)) = sent.take_acked(range.least, range.greatest) {
        is_any = true;
        congestion.on_ack(packet.size);
        streams.acked_all(packet.frames, log);
    }
    is_any
}
