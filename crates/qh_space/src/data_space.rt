ghost use Rattle.std.specs.Prelude.{◌≡◌, Bool, [], None, Some, false, OnOk, OnErr};
ghost use Rattle.std.specs.Option.{option_map};
ghost use Rattle.qh_recovery.specs.Accepted.{Remembers};
ghost use Rattle.qh_recovery.specs.Rtt.{new_estimator};
ghost use Rattle.qh_recovery.specs.Window.{new_controller};
ghost use Rattle.qh_space.specs.Space.{AreUnused, IsSpace, first_streams};
ghost use Rattle.qh_streams.specs.Items.{first_items, kept_in};
ghost use Rattle.qh_streams.specs.Streams.{counts_of, with_peer};
ghost use Rattle.qh_streams.specs.Tracked.{IsFresh};

use qh_base::{Memory, Side, Span};
use qh_recovery::{Dedup, PendingAcks, RttEstimator, SentPackets, WindowController};
use qh_streams::{Item, ItemLog, PeerLimits, SentFrame, StreamLimits, Streams};
use std::alloc::Global;

/// What a space begins with.
#[derive(Clone, Copy)]
pub struct SpaceConfig {
    /// What this end announces, and how much it holds to send.
    pub limits: StreamLimits,
    /// The first limits of the peer.
    pub peer: PeerLimits,
    /// The round-trip time before a sample.
    pub initial_rtt: Span,
    /// How many bytes may be in flight at first.
    pub initial_window: u64,
    /// The longest payload of a DATAGRAM frame that is taken, None if none is (RFC 9221, section 3).
    pub datagram_receive: Option<u64>,
}

/// The packet number space of application data (RFC 9000, section 12.3; RFC 9002). Its parts are whole by themselves; what holds
/// of them together is `IsSpace`.
#[derive(Drop)]
pub struct DataSpace {
    /// The streams. What of them is owed is queued, or out in a packet.
    pub streams: Streams,
    /// What the peer's frames brought the streams, if a log is kept.
    pub log: ItemLog,
    /// The ack-eliciting packets that are out, with their frames.
    pub sent: SentPackets<SentFrame>,
    /// Which numbers of the peer's were accepted.
    pub dedup: Dedup,
    /// Which of them are to be acknowledged.
    pub acks: PendingAcks,
    /// The number of the next packet, 2^62 if none is left.
    pub next_number: u64,
    /// The greatest number that the peer acknowledged.
    pub largest_acked: Option<u64>,
    /// Whether a PING is to be sent.
    pub is_ping_due: bool,
    /// What a PATH_RESPONSE is to give back, if one is to be sent: the bytes of the last PATH_CHALLENGE.
    pub path_response: Option<[u8; 8]>,
    /// The round-trip time.
    pub rtt: RttEstimator,
    /// The window.
    pub congestion: WindowController,
    /// How many probe packets were sent since an ACK last acknowledged a packet that was out.
    pub pto_count: u32,
    /// Whether the next ack-eliciting packet is a probe packet: it passes the window.
    pub is_probe_due: bool,
    /// How many packets were lost so far.
    pub packets_lost: u64,
    /// How many probes were due so far.
    pub probes_sent: u64,
    /// The longest payload of a DATAGRAM frame that is taken, None if none is (RFC 9221, section 3).
    pub datagram_receive: Option<u64>,
}

impl DataSpace {
    /// A space before its first packet. It takes no memory.
    pub fn new(alloc: Global, side: Side, config: SpaceConfig) -> DataSpace
        ensures space { IsSpace result }
        ensures fresh { IsFresh result.streams }
        ensures side { result.streams.side ≡ side }
        ensures unused { AreUnused result.streams config.peer }
        ensures streams { result.streams ≡ first_streams side config.limits config.peer }
        ensures received { Remembers [] result.dedup }
        ensures parts { (result.sent ≡ []) × (result.next_number ≡ 0) × (result.largest_acked ≡ None) × (result.acks ≡ record { ranges = []; is_due = false }) }
        ensures recovery { (result.rtt ≡ new_estimator config.initial_rtt.0) × (result.congestion ≡ new_controller config.initial_window) × (result.pto_count ≡ 0) × (result.is_probe_due ≡ false) }
        ensures nothing_due { (result.is_ping_due ≡ false) × (result.path_response ≡ None) }
        ensures log { result.log ≡ None }
        ensures datagrams { result.datagram_receive ≡ config.datagram_receive }
    {
        let mut streams = Streams::new(alloc, side, config.limits);
        streams.set_peer(config.peer);
        DataSpace {
            streams,
            log: ItemLog::off(),
            sent: SentPackets::new(alloc),
            dedup: Dedup::new(alloc),
            acks: PendingAcks::new(alloc),
            next_number: 0,
            largest_acked: None,
            is_ping_due: false,
            path_response: None,
            rtt: RttEstimator::new(config.initial_rtt),
            congestion: WindowController::new(config.initial_window),
            pto_count: 0,
            is_probe_due: false,
            packets_lost: 0,
            probes_sent: 0,
            datagram_receive: config.datagram_receive,
        }
    }

    /// Keeps a log from now on of what the peer's frames bring the streams, which aren't used yet; it begins with the peer's first
    /// limits. For want of memory nothing changes. A connection that ends for want of memory drops its log.
    pub fn start_log(&mut self, alloc: Global) -> Result<(), Memory>
        requires unused { AreUnused self.old.streams self.old.streams.peer }
        requires arrived { (two_way : Bool) → (counts_of self.old.streams two_way).arrived ≡ 0 }
        requires off { self.old.log ≡ None }
        ensures ok { OnOk result (self.new ≡ record self.old { log = Some (first_items self.old.streams.peer) }) }
        ensures err { OnErr result (self.new ≡ self.old) }
    {
        let mut log = ItemLog::off();
        log.start(alloc);
        Streams::note_peer(self.streams.peer(), &mut log)?;
        self.log = log;
        Ok(())
    }

    /// Hands over the items that came since the log was started, or since this was called last. None if no log is kept.
    pub fn take_items(&mut self, alloc: Global) -> Option<Vec<Item>>
        ensures taken { kept_in result ≡ self.old.log }
        ensures rest { self.new ≡ record self.old { log = option_map (λ _. []) self.old.log } }
    {
        self.log.take(alloc)
    }
}
