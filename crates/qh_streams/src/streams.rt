ghost use Rattle.std.specs.Prelude.{nat_lt, ◌≡◌, ◌-◌, ◌<◌, ◌^◌, ◌==◌, ◌&&◌, not, min, [], length, None, IfSome, if◌then◌else◌};
ghost use Rattle.qh_spec.specs.StreamId.{stream_id};
ghost use Rattle.qh_buffers.specs.declared.send_buffer.Mark.TheVariants.{Acked};
ghost use Rattle.qh_halves.specs.Counts.{AreCounts, AreNoFewer, is_own, new_counts, other_side, count_limit};
ghost use Rattle.qh_halves.specs.RecvHalves.{data_limit};
ghost use Rattle.qh_streams.specs.Tracked.{IsFresh};
ghost use Rattle.qh_streams.specs.Streams.{counts_of, with_counts, is_two_way, is_live, was_opened, counted_closed, with_accepted, with_peer, KeepsOut};

mod calls;
mod coming;
mod events;
mod noting;
mod opening;
mod settling;
mod writing;

use crate::{PeerLimits, StreamEvent, StreamLimits};
use qh_base::{Dir, Memory, Side, StreamId, VarInt};
use qh_halves::{RecvHalves, SendHalves, StreamCounts};
use std::alloc::Global;
use std::collections::{BTreeSet, VecDeque};
use std::marker::Model;

/// The streams of a connection: which bytes go where, and within which limits (RFC 9000, sections 2 to 4; quinn-proto,
/// `StreamsState`). Frames and calls come in, frames and events go out.
#[derive(Drop)]
pub struct Streams {
    side: Side,
    send: SendHalves,
    recv: RecvHalves,
    bi: StreamCounts,
    uni: StreamCounts,
    peer: PeerLimits,
    connection_blocked: BTreeSet<u64>,
    events: VecDeque<StreamEvent>,
}

impl Model for Streams {
    ghost use Rattle.std.specs.VecDeque.{deque_capacity};
    ghost use Rattle.qh_streams.specs.Streams.{PlainStreams, AreStreams};

    ghost Value = { PlainStreams };

    ghost view = { λ s. record { side = s.side; send = s.send; recv = s.recv; bi = s.bi; uni = s.uni; peer = s.peer; blocked = s.connection_blocked.keys; events = s.events.items } };

    ghost invariant = { λ s. AreStreams (record { side = s.side; send = s.send; recv = s.recv; bi = s.bi; uni = s.uni; peer = s.peer; blocked = s.connection_blocked.keys; events = s.events.items }) (deque_capacity s.events) };
}

impl Streams {
    /// No streams. The peer knows the first limits. It permits nothing until `set_peer`.
    pub fn new(alloc: Global, side: Side, limits: StreamLimits) -> Streams
        ensures side { result.side ≡ side }
        ensures send { result.send ≡ record { halves = []; max_data = 0; data_sent = 0; send_window = limits.send_window } }
        ensures recv { result.recv ≡ record { halves = []; received = 0; credited = 0; receive_window = limits.receive_window; stream_window = limits.stream_window; announced = record { value = min limits.receive_window (2 ^ 62 - 1); mark = Acked } } }
        ensures bi { result.bi ≡ new_counts limits.max_bidi }
        ensures uni { result.uni ≡ new_counts limits.max_uni }
        ensures none { (result.blocked ≡ []) × (result.events ≡ []) }
        ensures fresh { IsFresh result }
    {
        Streams {
            side,
            send: SendHalves::new(alloc, limits.send_window),
            recv: RecvHalves::new(alloc, limits.receive_window, limits.stream_window),
            bi: StreamCounts::new(limits.max_bidi),
            uni: StreamCounts::new(limits.max_uni),
            peer: PeerLimits::none(),
            connection_blocked: BTreeSet::new(alloc),
            events: VecDeque::new(alloc),
        }
    }

    /// The peer's first limits are known: streams may be opened, and bytes sent.
    pub fn set_peer(&mut self, peer: PeerLimits)
        requires { self.old.send.halves ≡ [] }
        ensures value { self.new ≡ with_peer self.old peer }
        ensures keeps_out { KeepsOut self.old self.new }
    {
        let _ = self.send.received_max_data(peer.max_data);
        self.bi = self.bi.with_max_opened(peer.max_bidi);
        self.uni = self.uni.with_max_opened(peer.max_uni);
        self.peer = peer;
    }

    /// Which end this is.
    pub fn side(&self) -> Side
        ensures { result ≡ self.now.side }
    {
        self.side
    }

    /// The peer's first limits, as `set_peer` took them.
    pub fn peer(&self) -> PeerLimits
        ensures { result ≡ self.now.peer }
    {
        self.peer
    }

    /// Whether no sending half is there, as `set_peer` asks.
    pub fn has_no_sender(&self) -> bool
        ensures { result ≡ (length self.now.send.halves == 0) }
    {
        self.send.len() == 0
    }

    /// Sets how many streams of the peer's in this direction may be open at once. The count that was announced doesn't fall.
    pub fn set_max_concurrent(&mut self, dir: Dir, count: u64)
        ensures value { self.new ≡ with_counts self.old (is_two_way dir) (record (counts_of self.old (is_two_way dir)) { max_concurrent = count }) }
        ensures keeps_out { KeepsOut self.old self.new }
    {
        let counts = StreamCounts {
            max_concurrent: count,
            ..self.counts(dir)
        };
        self.set_counts(dir, counts);
    }

    /// Sets how many bytes may be held that aren't acknowledged, of all streams.
    pub fn set_send_window(&mut self, bytes: u64)
        ensures value { self.new ≡ record self.old { send = record self.old.send { send_window = bytes } } }
        ensures keeps_out { KeepsOut self.old self.new }
    {
        self.send.set_send_window(bytes);
    }

    /// Sets how many bytes more than were read may come, on all streams. The limit that was announced doesn't fall.
    pub fn set_receive_window(&mut self, bytes: u64)
        ensures value { self.new ≡ record self.old { recv = record self.old.recv { receive_window = bytes } } }
        ensures keeps_out { KeepsOut self.old self.new }
    {
        self.recv.set_receive_window(bytes);
    }

    /// The limit of the bytes that the peer may send on all streams: it is announced, or due to be.
    pub fn max_data(&self) -> u64
        ensures { result ≡ data_limit self.now.recv }
    {
        self.recv.max_data()
    }

    /// The count of streams that the peer may open in this direction: it is announced, or due to be.
    pub fn max_streams(&self, dir: Dir) -> u64
        ensures { result ≡ count_limit (counts_of self.now (is_two_way dir)) }
    {
        self.counts(dir).limit()
    }

    /// Whether the peer permits one more stream of a direction (RFC 9000, section 4.6).
    pub fn can_open(&self, dir: Dir) -> bool
        ensures { result ≡ nat_lt (counts_of self.now (is_two_way dir)).opened (counts_of self.now (is_two_way dir)).max_opened }
    {
        let counts = self.counts(dir);
        counts.opened < counts.max_opened
    }

    /// Whether a stream that the peer opened waits to be accepted.
    pub fn can_accept(&self, dir: Dir) -> bool
        ensures { result ≡ nat_lt (counts_of self.now (is_two_way dir)).accepted (counts_of self.now (is_two_way dir)).arrived }
    {
        let counts = self.counts(dir);
        counts.accepted < counts.arrived
    }

    /// Gives a stream that the peer opened, the next in order; None exactly if none is new.
    pub fn accept(&mut self, dir: Dir) -> Option<StreamId>
        ensures some { IfSome result (λ id. (id.0 ≡ stream_id (other_side self.old.side) dir (counts_of self.old (is_two_way dir)).accepted)
            × ((counts_of self.old (is_two_way dir)).accepted < (counts_of self.old (is_two_way dir)).arrived)
            × (self.new ≡ with_counts self.old (is_two_way dir) (with_accepted (counts_of self.old (is_two_way dir))))) }
        ensures none { result ≡ None → ((counts_of self.old (is_two_way dir)).accepted ≡ (counts_of self.old (is_two_way dir)).arrived) × (self.new ≡ self.old) }
        ensures keeps_out { KeepsOut self.old self.new }
    {
        let counts = self.counts(dir);
        if counts.accepted == counts.arrived {
            return None;
        }
        let id = StreamId::new(other(self.side), dir, counts.accepted);
        let counts = StreamCounts {
            accepted: counts.accepted + 1,
            ..counts
        };
        self.set_counts(dir, counts);
        Some(id)
    }

    // The counts of a direction.
    fn counts(&self, dir: Dir) -> StreamCounts
        ensures value { result ≡ counts_of self.now (is_two_way dir) }
        ensures are { AreCounts result }
    {
        match dir {
            Dir::Bi => self.bi,
            Dir::Uni => self.uni,
        }
    }

    // Sets the counts of a direction. None of the streams that there were is gone by it.
    fn set_counts(&mut self, dir: Dir, counts: StreamCounts)
        requires are { AreCounts counts }
        requires no_fewer { AreNoFewer (counts_of self.old (is_two_way dir)) counts }
        ensures value { self.new ≡ with_counts self.old (is_two_way dir) counts }
        ensures keeps_out { KeepsOut self.old self.new }
    {
        let (bi, uni) = self.counts_with(dir, counts);
        self.bi = bi;
        self.uni = uni;
    }

    // The counts of both directions, with these in one.
    fn counts_with(&self, dir: Dir, counts: StreamCounts) -> (StreamCounts, StreamCounts)
        ensures bi { result.0 ≡ (if is_two_way dir then counts else self.now.bi) }
        ensures uni { result.1 ≡ (if is_two_way dir then self.now.uni else counts) }
    {
        match dir {
            Dir::Bi => (counts, self.uni),
            Dir::Uni => (self.bi, counts),
        }
    }

    // If the last half of a stream of the peer's went, one more is closed.
    fn count_closed(&mut self, id: StreamId, was_live: bool)
        ensures value { self.new ≡ counted_closed self.old id.0 was_live }
        ensures halves { (self.new.send ≡ self.old.send) × (self.new.recv ≡ self.old.recv) }
        ensures keeps_out { KeepsOut self.old self.new }
    {
        if self.is_own(id) || !was_live || self.is_live(id) {
            return;
        }
        let counts = self.counts(id.dir());
        let closed = counts.closed.saturating_add(1);
        self.set_counts(id.dir(), StreamCounts { closed, ..counts });
    }

    // Whether a stream is one of the peer's, and live. None of this end's own streams is counted as closed.
    fn is_live_of_peer(&self, id: StreamId) -> bool
        ensures { result ≡ (not (is_own self.now.side id.0) && is_live self.now id.0) }
    {
        !self.is_own(id) && self.is_live(id)
    }

    // This end opens the stream.
    fn is_own(&self, id: StreamId) -> bool
        ensures { result ≡ is_own self.now.side id.0 }
    {
        id.initiator() == self.side
    }

    // The stream was opened, by this end or by the peer.
    fn was_opened(&self, id: StreamId) -> bool
        ensures { result ≡ was_opened self.now id.0 }
    {
        let counts = self.counts(id.dir());
        let count = if self.is_own(id) {
            counts.opened
        } else {
            counts.arrived
        };
        id.index() < count
    }

    // A half of the stream isn't done.
    fn is_live(&self, id: StreamId) -> bool
        ensures { result ≡ is_live self.now id.0 }
    {
        self.send.contains(id.0) || self.recv.contains(id.0)
    }
}

// The other side.
fn other(side: Side) -> Side
    ensures { result ≡ other_side side }
{
    match side {
        Side::Client => Side::Server,
        Side::Server => Side::Client,
    }
}
