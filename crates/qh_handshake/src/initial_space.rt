ghost use Rattle.std.specs.Prelude.{◌≡◌, ◌≤◌, [], None, false, length};
ghost use Rattle.qh_buffers.specs.Assembler.{empty_assembler};
ghost use Rattle.qh_handshake.specs.InitialSpace.{IsInitialSpace, first_stats, stats_of};
ghost use Rattle.qh_handshake.specs.declared.initial_space.HelloState.TheVariants.{Out};
ghost use Rattle.qh_recovery.specs.Accepted.{Remembers};
ghost use Rattle.qh_recovery.specs.Rtt.{new_estimator};

use bytes::Bytes;
use qh_base::{Moment, Span};
use qh_hello::CryptoStream;
use qh_recovery::{Dedup, PendingAcks, RttEstimator, SentPackets};
use std::alloc::Global;

/// What became of this end's hello.
#[derive(Clone, Copy)]
pub enum HelloState {
    /// It isn't to be sent yet.
    Held,
    /// It is to be sent.
    Waits,
    /// It is in a packet that is out.
    Out,
    /// It was acknowledged.
    Acked,
}

/// The CRYPTO frame that a packet bears: that of the whole hello.
#[derive(Clone, Copy)]
pub struct HelloFrame;

/// What was counted and measured in the Initial space.
#[derive(Clone, Copy)]
pub struct InitialStats {
    /// How many packets were lost.
    pub packets_lost: u64,
    /// How many probe packets were sent.
    pub probes: u64,
    /// The round-trip time.
    pub rtt: RttEstimator,
}

impl InitialStats {
    /// What a space begins with.
    pub(crate) fn new(initial_rtt: Span) -> InitialStats
        ensures { result ≡ first_stats initial_rtt.0 }
    {
        InitialStats {
            packets_lost: 0,
            probes: 0,
            rtt: RttEstimator::new(initial_rtt),
        }
    }
}

/// The Initial packet number space (RFC 9000, section 12.3; RFC 9002). Its parts are whole by themselves; what holds of them
/// together is `IsInitialSpace`.
///
/// A hello is short, and goes whole in one CRYPTO frame. So no window bounds what is in flight: that is one hello, which is sent again
/// only when it is lost, and a probe packet each probe timeout.
#[derive(Drop)]
pub struct InitialSpace {
    /// The bytes of this end's hello, at most 512.
    pub hello: Bytes,
    /// What became of it.
    pub state: HelloState,
    /// The bytes of the peer's CRYPTO frames.
    pub crypto: CryptoStream,
    /// The ack-eliciting packets that are out, with the hello where they bear it.
    pub sent: SentPackets<HelloFrame>,
    /// Which numbers of the peer's were accepted.
    pub dedup: Dedup,
    /// Which of them are to be acknowledged.
    pub acks: PendingAcks,
    /// The number of the next packet, 2^62 if none is left.
    pub next_number: u64,
    /// The greatest number that the peer acknowledged.
    pub largest_acked: Option<u64>,
    /// Whether a PING is to be sent.
    pub is_ping_due: bool,
    /// The round-trip time of this space.
    pub rtt: RttEstimator,
    /// How many probe packets were sent since an ACK last acknowledged a packet that was out.
    pub pto_count: u32,
    /// Whether the next ack-eliciting packet is a probe packet.
    pub is_probe_due: bool,
    /// When a packet was last sent or accepted; before the first, when the space began.
    pub last_active: Moment,
    /// How many packets were accepted so far.
    pub packets_accepted: u64,
    /// How many packets were lost so far.
    pub packets_lost: u64,
    /// How many probe packets were sent so far.
    pub probes_sent: u64,
}

impl InitialSpace {
    /// A space before its first packet, with this hello, which waits, or is held. It takes no memory.
    pub fn new(
        alloc: Global,
        hello: Bytes,
        state: HelloState,
        initial_rtt: Span,
        now: Moment,
    ) -> InitialSpace
        requires short { length hello ≤ 512 }
        requires unsent { state ≡ Out → ⊥ }
        ensures space { IsInitialSpace result }
        ensures hello { (result.hello ≡ hello) × (result.state ≡ state) }
        ensures received { Remembers [] result.dedup }
        ensures crypto { result.crypto ≡ record { waiting = empty_assembler; bytes = []; end = 0 } }
        ensures parts { (result.sent ≡ []) × (result.next_number ≡ 0) × (result.largest_acked ≡ None) × (result.acks ≡ record { ranges = []; is_due = false }) }
        ensures recovery { (result.rtt ≡ new_estimator initial_rtt.0) × (result.pto_count ≡ 0) × (result.is_probe_due ≡ false) × (result.is_ping_due ≡ false) × (result.last_active ≡ now) × (result.packets_accepted ≡ 0) }
        ensures counts { (result.packets_lost ≡ 0) × (result.probes_sent ≡ 0) }
    {
        InitialSpace {
            hello,
            state,
            crypto: CryptoStream::new(alloc),
            sent: SentPackets::new(alloc),
            dedup: Dedup::new(alloc),
            acks: PendingAcks::new(alloc),
            next_number: 0,
            largest_acked: None,
            is_ping_due: false,
            rtt: RttEstimator::new(initial_rtt),
            pto_count: 0,
            is_probe_due: false,
            last_active: now,
            packets_accepted: 0,
            packets_lost: 0,
            probes_sent: 0,
        }
    }

    /// What was counted and measured in it so far.
    pub(crate) fn stats(&self) -> InitialStats
        ensures { result ≡ stats_of self.now }
    {
        InitialStats {
            packets_lost: self.packets_lost,
            probes: self.probes_sent,
            rtt: self.rtt,
        }
    }
}
