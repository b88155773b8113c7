ghost use Rattle.std.specs.Prelude.{◌≡◌, [], ℕ, Bool, List, None, Some, true, false, length, MatchOption, OnOk, OnErr};
ghost use Rattle.std.specs.Option.{option_map};
ghost use Rattle.qh_base.specs.declared.connection_error.ConnectionError.TheVariants.{Memory as OutOfMemory};
ghost use Rattle.qh_base.specs.declared.time.Moment.{Moment as AMoment};
ghost use Rattle.qh_core.specs.Event.{is_drained};
ghost use Rattle.qh_core.specs.Follows.{Follows};
ghost use Rattle.qh_core.specs.Inner.{IsFailedBy, IsSameEnd, is_open, with_space};
ghost use Rattle.qh_core.specs.Receiving.{IsClosedHeard, IsDrainingFrom, IsFaulted};
ghost use Rattle.qh_core.specs.Sending.{is_close_due, without_close_due};
ghost use Rattle.qh_core.specs.Timers.{restarted, sent_at};
ghost use Rattle.qh_core.specs.declared.state.State.TheVariants.{Closed};
ghost use Rattle.qh_space.specs.Space.{AreUnused};
ghost use Rattle.qh_spec.specs.Transcript.{Act};
ghost use Rattle.qh_streams.specs.Items.{first_items, kept_in};
ghost use Rattle.qh_streams.specs.Streams.{counts_of};

use crate::{Close, Connection};
use qh_base::{ConnectionError, ConnectionId, Memory, Moment, TransportError};
use qh_streams::Item;

// What a handshake beside an end makes of it: packets of the other packet number spaces come and go there.
impl<S> Connection<S> {
    ghost use Rattle.std.specs.Borrow.{Lends, sem};
    ghost use Rattle.qh_core.specs.contracts.connection.Connection.{the_row};

    /// The session that makes and opens its tags, to be told what a handshake learns.
    pub fn session_mut(&mut self) -> &mut S
        ensures* writes_back { sem 𝓛 (Lends (the_row S.row) S.row self.entry result (λ s. record self.old { session = s })) }
        ensures value { result.now ≡ self.old.session }
    {
        &mut self.inner.session
    }

    /// A fault of the peer's was found, outside of the packets of application data, or by whoever takes the frames that this end passes
    /// over: the end closes, and says so to the peer (RFC 9000, sections 10.2 and 11.1). Of two faults in one packet the earlier one counts,
    /// so an end may close by it that closed just now, or that drains because the peer closed. Memory isn't taken.
    pub fn close_by_fault(&mut self, now: Moment, error: TransportError)
        requires lives { is_drained self.old.state ≡ false }
        ensures faulted { IsFaulted now error self.old self.new }
        ensures follows { (t : List Act) → Follows self.old t → Follows self.new t }
        ensures same_end { IsSameEnd self.old self.new }
    {
        self.inner.close_by_fault(now, error);
    }

    /// The peer closed in a packet that isn't one of application data, or it can't go on: its stateless reset or its packet of version
    /// negotiation came (RFC 9000, sections 6.2, 10.2.2 and 10.3.1). Nothing is sent any more, and the connection is lost with this error.
    pub fn drain(&mut self, now: Moment, error: ConnectionError)
        requires lives { is_drained self.old.state ≡ false }
        requires named { error ≡ OutOfMemory → ⊥ }
        ensures draining { IsDrainingFrom now error self.old self.new }
        ensures follows { (t : List Act) → Follows self.old t → Follows self.new t }
        ensures same_end { IsSameEnd self.old self.new }
    {
        self.inner.drain(now, error);
    }

    /// Memory is wanting outside of this end, and ends the connection, as it does within: the error that it keeps is Memory then, and what
    /// waited to be read is dropped. It takes no memory.
    pub fn fail(&mut self)
        ensures failed { IsFailedBy self.old self.new }
        ensures counts { (self.new.space.packets_lost ≡ self.old.space.packets_lost) × (self.new.space.probes_sent ≡ self.old.space.probes_sent) }
        ensures follows { (t : List Act) → Follows self.old t → Follows self.new t }
        ensures same_end { IsSameEnd self.old self.new }
    {
        let stats = self.inner.stats();
        self.inner.fail(self.alloc, stats);
    }

    /// What the CONNECTION_CLOSE says that is to be sent. None exactly where none is: the end isn't closing, or it said so and no datagram
    /// came since (RFC 9000, section 10.2.1).
    pub fn close_due(&self) -> Option<&Close>
        ensures { MatchOption result (is_close_due self.now.state ≡ false) (λ close. (until : AMoment) × (self.now.state ≡ Closed close.now true until)) }
    {
        self.inner.state.close_due()
    }

    /// A CONNECTION_CLOSE was sent in packets of other packet number spaces: none is to be sent any more.
    pub fn close_told(&mut self)
        ensures value { self.new ≡ record self.old { state = without_close_due self.old.state } }
        ensures follows { (t : List Act) → Follows self.old t → Follows self.new t }
        ensures same_end { IsSameEnd self.old self.new }
    {
        self.inner.close_told();
    }

    /// A datagram came without a packet of application data, to an end that isn't open, and the peer's close was in it or not. An end that
    /// closed says so again, unless the peer closed too (RFC 9000, section 10.2.1).
    pub fn hear_closed(&mut self, brings_close: bool)
        requires closed { is_open self.old.state ≡ false }
        ensures heard { IsClosedHeard brings_close self.old self.new }
        ensures follows { (t : List Act) → Follows self.old t → Follows self.new t }
        ensures same_end { IsSameEnd self.old self.new }
    {
        self.inner.hear_closed(brings_close);
    }

    /// A packet of another packet number space was accepted: the idle time runs from now on (RFC 9000, section 10.1).
    pub fn on_packet_accepted(&mut self, now: Moment)
        ensures value { self.new ≡ record self.old { idle = restarted now self.old.idle } }
        ensures follows { (t : List Act) → Follows self.old t → Follows self.new t }
        ensures same_end { IsSameEnd self.old self.new }
    {
        self.inner.on_packet_accepted(now);
    }

    /// An ack-eliciting packet of another packet number space was sent: the idle time runs from now on, if it is the first one since a
    /// packet was accepted (RFC 9000, section 10.1).
    pub fn on_packet_sent(&mut self, now: Moment)
        ensures value { self.new ≡ record self.old { idle = sent_at now self.old.idle } }
        ensures follows { (t : List Act) → Follows self.old t → Follows self.new t }
        ensures same_end { IsSameEnd self.old self.new }
    {
        self.inner.on_packet_sent(now);
    }

    /// Packets to the peer bear this id from now on, another one that it issued (RFC 9000, section 5.1.2). All its ids have one length.
    pub fn set_remote_id(&mut self, id: ConnectionId)
        requires same_length { length id ≡ length self.old.remote_id }
        ensures value { self.new ≡ record self.old { remote_id = id } }
        ensures follows { (t : List Act) → Follows self.old t → Follows self.new t }
        ensures same_end { IsSameEnd self.old self.new }
    {
        self.inner.set_remote_id(id);
    }

    /// Keeps a log from now on of what the peer's frames bring the streams; it begins with the peer's first limits. It is for an end that
    /// was greeted and did nothing since: its streams aren't used yet. For want of memory nothing changes. A connection that ends for want
    /// of memory drops its log.
    pub fn start_log(&mut self) -> Result<(), Memory>
        requires unused { AreUnused self.old.space.streams self.old.space.streams.peer }
        requires arrived { (two_way : Bool) → (counts_of self.old.space.streams two_way).arrived ≡ 0 }
        requires off { self.old.space.log ≡ None }
        ensures ok { OnOk result (self.new ≡ with_space self.old (record self.old.space { log = Some (first_items self.old.space.streams.peer) })) }
        ensures err { OnErr result (self.new ≡ self.old) }
        ensures follows { (t : List Act) → Follows self.old t → Follows self.new t }
        ensures same_end { IsSameEnd self.old self.new }
    {
        self.inner.start_log(self.alloc)
    }

    /// Hands over the items that came since the log was started, or since this was called last. None if no log is kept.
    pub fn take_items(&mut self) -> Option<Vec<Item>>
        ensures taken { kept_in result ≡ self.old.space.log }
        ensures rest { self.new ≡ with_space self.old (record self.old.space { log = option_map (λ _. []) self.old.space.log }) }
        ensures follows { (t : List Act) → Follows self.old t → Follows self.new t }
        ensures same_end { IsSameEnd self.old self.new }
    {
        self.inner.take_items(self.alloc)
    }
}
