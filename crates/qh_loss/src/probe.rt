ghost use Rattle.std.specs.Prelude.{◌≡◌, ◌^◌};
ghost use Rattle.qh_loss.specs.Owed.{AreOwed};
ghost use Rattle.qh_loss.specs.Settled.{IsProbeQueued, AreQueuedAgain, chosen, is_kind};
ghost use Rattle.qh_recovery.specs.SentPackets.{IsNext};
ghost use Rattle.qh_streams.specs.Streams.{AreAllOut, KeepsOut};

use qh_recovery::SentPackets;
use qh_streams::{SentFrame, Streams};

/// What a probe sends.
#[derive(Clone, Copy, PartialEq, Eq)]
pub enum Probe {
    /// STREAM frames that were sent before and aren't acknowledged: they wait again.
    Stream,
    /// Other frames of the oldest packet that is out: they wait again.
    Others,
    /// Nothing that was sent before is owed: a PING is to be sent.
    Ping,
}

/// A probe is due (RFC 9002, section 6.2.4): the STREAM frames of the oldest packet in which one is owed wait again. If there
/// is none, the other frames of the oldest packet do. No packet is lost by it. Packet numbers are below 2^62 (RFC 9000, section
/// 12.3).
pub fn queue_probe(streams: &mut Streams, sent: &SentPackets<SentFrame>) -> Probe
    requires owed { AreOwed streams.old sent.now }
    requires numbers { IsNext (2 ^ 62) sent.now }
    ensures queued { IsProbeQueued streams.old streams.new sent.now result }
    ensures owed { AreOwed streams.new sent.now }
{
    sent.is_rising();
    let mut at = 0;
    while let Some((number, packet)) = sent.next_from(at) {
        if queue_again(streams, &packet.frames, true) {
            return Probe::Stream;
        }
        at = number + 1;
    }
    let Some((_, packet)) = sent.first() else {
        return Probe::Ping;
    };
    if queue_again(streams, &packet.frames, false) {
        return Probe::Others;
    }
    Probe::Ping
}

// Queues the STREAM frames again, or the others. Answers whether something of one is still to be acknowledged.
fn queue_again(streams: &mut Streams, frames: &[SentFrame], stream: bool) -> bool
    requires { AreAllOut streams.old frames.now }
    ensures queued { AreQueuedAgain streams.old streams.new (chosen (is_kind stream) frames.now) result }
    ensures keeps_out { KeepsOut streams.old streams.new }
{
    let mut is_owed = false;
    for frame in frames {
        if is_kind(frame, stream) {
            is_owed |= streams.again(frame);
        }
    }
    is_owed
}

// Whether it is a STREAM frame, or is none.
fn is_kind(frame: &SentFrame, stream: bool) -> bool
    ensures { result ≡ is_kind stream frame.now }
{
    matches!(frame, SentFrame::Stream { .. }) == stream
}
