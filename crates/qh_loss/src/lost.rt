ghost use Rattle.qh_loss.specs.Owed.{AreOwed};
ghost use Rattle.qh_loss.specs.Settled.{AreLostTaken};

use qh_base::{Moment, Span};
use qh_recovery::{SentPackets, WindowController};
use qh_streams::{SentFrame, Streams};

/// The packets that are lost by now are out no more (RFC 9002, section 6.1 and appendix A.10): what of their frames isn't
/// acknowledged waits to be sent again, and the window is cut once for those that were sent before the next number. Answers how
/// many they are. `largest_acked` is the greatest number that was acknowledged, `delay` how much older a packet than an
/// acknowledged one is lost.
pub fn detect_lost_packets(
    streams: &mut Streams,
    sent: &mut SentPackets<SentFrame>,
    congestion: &mut WindowController,
    largest_acked: u64,
    now: Moment,
    delay: Span,
    next_number: u64,
) -> u64
    requires { AreOwed streams.old sent.old }
    ensures taken { AreLostTaken largest_acked now.0 delay.0 next_number sent.old sent.new streams.old streams.new congestion.old congestion.new result }
    ensures owed { AreOwed streams.new sent.new }
{
    let before = sent.len();
    while let Some((number, packet)) = sent.take_lost(largest_acked, now, delay) {
        congestion.on_loss(number, next_number);
        streams.lost_all(packet.frames);
    }
    (before - sent.len()) as u64
}
