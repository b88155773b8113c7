ghost use Rattle.std.specs.Prelude.{◌≡◌, ◌⊎◌, ◌++◌, ◌∷◌, ℕ, Bool, true, false, List, [], None, Some, is_some, OnOk, OnErr, if◌then◌else◌};
ghost use Rattle.qh_base.specs.declared.time.Moment.{Moment as AMoment};
ghost use Rattle.qh_conn.specs.Greeting.{IsBegunBy, IsGreetedNow, connected, ids_asked, with_core, early_concurrent, or_set, with_concurrent, with_count, with_early};
ghost use Rattle.qh_conn.specs.Hearing.{FailsTo, HasRead, HearsIt, HearsStill};
ghost use Rattle.qh_conn.specs.Items.{IsLogCurrent, LogGoesOn, given_back};
ghost use Rattle.qh_conn.specs.Same.{IsSameConnection};
ghost use Rattle.qh_conn.specs.Unread.{IsCompletionCut, IsGreetingCut};
ghost use Rattle.qh_conn.specs.Whole.{IsSound, IsWhole, StandsStill};
ghost use Rattle.qh_conn.specs.declared.connection.Connection.{Connection as AConnection};
ghost use Rattle.qh_control.specs.Control.{IsSendable, asked_events};
ghost use Rattle.qh_control.specs.Items.{HasRoom, kept_in};
ghost use Rattle.qh_control.specs.declared.items.ConnectionItem.{ConnectionItem as AnItem};
ghost use Rattle.qh_converse.specs.Converses.{Hears};
ghost use Rattle.qh_core.specs.Inner.{is_open, with_streams};
ghost use Rattle.qh_core.specs.Made.{AcceptsTags, IsMadeLocally, MakesTagsOf};
ghost use Rattle.qh_handshake.specs.declared.handshake.Handshake.{Handshake as AHandshake};
ghost use Rattle.qh_hello.specs.declared.transport_parameters.TransportParameters.{TransportParameters as TheParameters};
ghost use Rattle.qh_spec.specs.Transcript.{Act, HandedIn};
ghost use Rattle.qh_spec.specs.declared.sides.Side.TheVariants.{Client};

use crate::config::{datagram_payload, idle_in_force, peer_limits};
use crate::connection::EarlyLimits;
use crate::laws::still;
use crate::{Connection, ConnectionItem};
use qh_base::{Dir, Memory, Moment, Side, VarInt};
use qh_control::LogEntry;
use qh_core::made;
use qh_hello::TransportParameters;
use qh_packet::Session;

impl<S: Session> Connection<S> {
    /// The peer's hello was read: the end of the 1-RTT packets begins with what it says, and a client is connected (RFC 9001, section 4.1.1).
    pub(crate) fn greet(&mut self, now: Moment) -> Result<(), Memory>
        requires sound { IsSound self.old }
        requires open { is_open self.old.core.state ≡ true }
        requires first { (self.old.is_connected ≡ false) × IsSendable self.old.core.side None self.old.control }
        requires current { IsLogCurrent self.old }
        ensures none { self.old.handshake.peer ≡ None → OnOk result (self.new ≡ self.old) }
        ensures some { is_some self.old.handshake.peer ≡ true → OnOk result (IsGreetedNow now self.old self.new) }
        ensures sound { IsSound self.new }
        ensures client { OnOk result (self.old.handshake.side ≡ Client → self.new.is_connected ≡ is_some self.old.handshake.peer) }
        ensures hears { (accepts : AcceptsTags S) (sealed : MakesTagsOf S) (hello d : List ℕ) (before : AHandshake) (t : List Act) → HasRead accepts sealed hello before self.old t d → before.peer ≡ None
            → OnOk result (HearsIt accepts sealed hello self.new t d) × OnErr result (FailsTo accepts sealed hello self.new (t ++ HandedIn d ∷ [])) }
        ensures err { OnErr result (self.new ≡ record self.old { core = self.new.core; control = self.new.control; is_data_due = self.new.is_data_due }) }
        ensures cut { OnErr result ((peer : TheParameters) × (self.old.handshake.peer ≡ Some peer) × IsGreetingCut now peer self.old self.new) }
        ensures current { OnOk result (IsLogCurrent self.new) }
        ensures log { (more : List AnItem) × LogGoesOn more self.old self.new }
        ensures same { (before : AConnection S) → before.handshake.peer ≡ None → IsSameConnection S.key before self.old → IsSameConnection S.key before self.new }
    {
        let Some(peer) = self.handshake.peer else {
            return Ok(());
        };
        self.begin(peer)?;
        match self.handshake.side {
            Side::Client => self.connect(now)?,
            Side::Server => {}
        }
        Ok(())
    }

    // The end of the 1-RTT packets begins with what the peer's hello says.
    fn begin(&mut self, peer: TransportParameters) -> Result<(), Memory>
        requires sound { IsSound self.old }
        requires open { is_open self.old.core.state ≡ true }
        requires first { (self.old.is_connected ≡ false) × IsSendable self.old.core.side None self.old.control }
        requires greeted { self.old.handshake.peer ≡ Some peer }
        ensures core { OnOk result (IsBegunBy peer self.old.handshake self.old.early self.old.control.log self.old.core self.new.core) }
        ensures rest { OnOk result (self.new ≡ with_core self.old self.new.core peer) }
        ensures hears { OnOk result ((accepts : AcceptsTags S) (sealed : MakesTagsOf S) (m : Bool) → (m ≡ true → self.old.handshake.side ≡ Client) → (hello d : List ℕ) (before : AHandshake) (t : List Act)
            → HasRead accepts sealed hello before self.old t d → before.peer ≡ None
            → Hears accepts sealed hello self.old.handshake self.new.core m t d) }
        ensures fails { OnErr result ((accepts : AcceptsTags S) (sealed : MakesTagsOf S) (hello d : List ℕ) (before : AHandshake) (t : List Act) → HasRead accepts sealed hello before self.old t d → before.peer ≡ None
            → FailsTo accepts sealed hello self.new (t ++ HandedIn d ∷ [])) }
        ensures sound { IsSound self.new }
        ensures err { OnErr result (self.new ≡ record self.old { core = self.new.core; control = self.new.control }) }
        ensures cut { OnErr result ((now : AMoment) → IsGreetingCut now peer self.old self.new) }
        ensures current { OnOk result (IsLogCurrent self.new) }
        ensures log { (more : List AnItem) × LogGoesOn more self.old self.new }
        ensures same { (before : AConnection S) → before.handshake.peer ≡ None → IsSameConnection S.key before self.old → IsSameConnection S.key before self.new }
    {
        let remote_id = self.handshake.remote_id;
        let datagram = peer.max_datagram_frame_size.and_then(datagram_payload);
        let id_limit = peer.active_connection_id_limit.into_inner();
        self.control
            .greet(remote_id, peer.stateless_reset_token, id_limit, datagram)?;
        let own = self.handshake.parameters.max_idle_timeout;
        let idle = idle_in_force(own, peer.max_idle_timeout);
        self.core
            .greet(peer_limits(&peer), datagram, remote_id, idle);
        self.log_streams()?;
        self.set_early();
        self.is_data_due = true;
        Ok(())
    }

    /// The handshake is complete, which is logged: further ids are asked for, if the connection isn't over already. For want of memory nothing
    /// changes: it isn't complete then, nor told so, by the log or by an event.
    pub(crate) fn connect(&mut self, now: Moment) -> Result<(), Memory>
        requires sound { IsSound self.old }
        requires greeted { is_some self.old.handshake.peer ≡ true }
        requires first { self.old.is_connected ≡ false }
        ensures ok { OnOk result (self.new ≡ connected now self.old) }
        ensures err { OnErr result (self.new ≡ self.old) }
        ensures wanting { OnErr result ((is_open self.old.core.state ≡ true) ⊎ (is_some self.old.control.log ≡ true)) }
        ensures cut { OnErr result (IsCompletionCut now self.old self.new) }
        ensures state { self.new.core.state ≡ self.old.core.state }
        ensures made { IsMadeLocally self.old.core self.new.core [] }
        ensures sound { IsSound self.new }
        ensures log { (more : List AnItem) × LogGoesOn more self.old self.new }
        ensures same { IsSameConnection S.key self.old self.new }
    {
        let entries = self.control.log.lend()?;
        self.connect_in(now, entries)
    }

    /// The same, of a log that was lent out and is given back. Memory is wanting only to ask for ids.
    pub(crate) fn connect_in(
        &mut self,
        now: Moment,
        entries: Option<Vec<LogEntry>>,
    ) -> Result<(), Memory>
        requires sound { IsSound self.old }
        requires greeted { is_some self.old.handshake.peer ≡ true }
        requires first { self.old.is_connected ≡ false }
        requires room { HasRoom entries 2 }
        ensures ok { OnOk result (self.new ≡ connected now (given_back (kept_in entries) self.old)) }
        ensures err { OnErr result (self.new ≡ given_back (kept_in entries) self.old) }
        ensures wanting { OnErr result ((is_open self.old.core.state ≡ true) × (asked_events now self.old.control ≡ [] → ⊥)) }
        ensures state { self.new.core.state ≡ self.old.core.state }
        ensures made { IsMadeLocally self.old.core self.new.core [] }
        ensures sound { IsSound self.new }
    {
        let Ok(()) = self.ask_ids(now) else {
            self.control.log.give_back(entries);
            return Err(Memory);
        };
        self.note_in(entries, Some(ConnectionItem::Connected));
        self.handshake.discard_space();
        self.is_connected = true;
        self.is_connected_due = true;
        Ok(())
    }
}

impl<S> Connection<S> {
    // Further ids are asked for, if the connection isn't over already. For want of memory nothing changes.
    fn ask_ids(&mut self, now: Moment) -> Result<(), Memory>
        ensures ok { OnOk result (self.new ≡ record self.old { control = (if is_open self.old.core.state then ids_asked now self.old.control else self.old.control) }) }
        ensures err { OnErr result (self.new ≡ self.old) }
        ensures wanting { OnErr result (is_open self.old.core.state ≡ true) }
        ensures wanted { OnErr result (asked_events now self.old.control ≡ [] → ⊥) }
    {
        if self.core.is_closed() {
            return Ok(());
        }
        self.control.ask_ids(now)
    }

    // What was set before holds on.
    fn set_early(&mut self)
        ensures value { self.new ≡ record self.old { core = with_streams self.old.core (with_early self.old.early self.old.core.space.streams) } }
        ensures hears { HearsStill self.old.core self.new.core }
    {
        self.set_early_count(Dir::Bi, self.early.max_bidi);
        self.set_early_count(Dir::Uni, self.early.max_uni);
        self.set_early_send_window();
        self.set_early_receive_window();
    }

    fn set_early_count(&mut self, dir: Dir, count: Option<VarInt>)
        ensures value { self.new ≡ record self.old { core = with_streams self.old.core (with_count dir count self.old.core.space.streams) } }
        ensures hears { HearsStill self.old.core self.new.core }
    {
        if let Some(count) = count {
            self.core.set_max_concurrent_streams(dir, count);
        }
    }

    fn set_early_send_window(&mut self)
        ensures value { self.new ≡ record self.old { core = with_streams self.old.core (record self.old.core.space.streams { send = record self.old.core.space.streams.send { send_window = or_set self.old.early.send_window self.old.core.space.streams.send.send_window } }) } }
        ensures hears { HearsStill self.old.core self.new.core }
    {
        if let Some(bytes) = self.early.send_window {
            self.core.set_send_window(bytes);
        }
    }

    fn set_early_receive_window(&mut self)
        ensures value { self.new ≡ record self.old { core = with_streams self.old.core (record self.old.core.space.streams { recv = record self.old.core.space.streams.recv { receive_window = or_set self.old.early.receive_window self.old.core.space.streams.recv.receive_window } }) } }
        ensures hears { HearsStill self.old.core self.new.core }
    {
        if let Some(bytes) = self.early.receive_window {
            self.core.set_receive_window(bytes);
        }
    }

    // Until the end is greeted, what is set is kept for then.
    fn keep_early(&mut self, early: EarlyLimits)
        ensures { self.new ≡ record self.old { early = (if is_some self.old.handshake.peer then self.old.early else early) } }
    {
        if !self.is_greeted() {
            self.early = early;
        }
    }

    /// How many streams of a direction the peer may have open at a time.
    pub fn set_max_concurrent_streams(&mut self, dir: Dir, count: VarInt)
        requires { IsWhole self.old }
        ensures core { self.new.core ≡ with_streams self.old.core (with_concurrent dir count self.old.core.space.streams) }
        ensures early { self.new ≡ record self.old { core = self.new.core; early = (if is_some self.old.handshake.peer then self.old.early else early_concurrent dir count self.old.early) } }
        ensures stands { StandsStill self.old self.new }
        ensures whole { IsWhole self.new }
    {
        still::<S>();
        made::<S>();
        self.core.set_max_concurrent_streams(dir, count);
        let mut early = self.early;
        match dir {
            Dir::Bi => early.max_bidi = Some(count),
            Dir::Uni => early.max_uni = Some(count),
        }
        self.keep_early(early);
    }

    /// How many bytes this end holds that wait to be sent or aren't acknowledged.
    pub fn set_send_window(&mut self, bytes: u64)
        requires { IsWhole self.old }
        ensures core { self.new.core ≡ with_streams self.old.core (record self.old.core.space.streams { send = record self.old.core.space.streams.send { send_window = bytes } }) }
        ensures early { self.new ≡ record self.old { core = self.new.core; early = (if is_some self.old.handshake.peer then self.old.early else record self.old.early { send_window = Some bytes }) } }
        ensures stands { StandsStill self.old self.new }
        ensures whole { IsWhole self.new }
    {
        still::<S>();
        made::<S>();
        self.core.set_send_window(bytes);
        self.keep_early(EarlyLimits {
            send_window: Some(bytes),
            ..self.early
        });
    }

    /// How many bytes of all streams may come that weren't read.
    pub fn set_receive_window(&mut self, bytes: VarInt)
        requires { IsWhole self.old }
        ensures core { self.new.core ≡ with_streams self.old.core (record self.old.core.space.streams { recv = record self.old.core.space.streams.recv { receive_window = bytes } }) }
        ensures early { self.new ≡ record self.old { core = self.new.core; early = (if is_some self.old.handshake.peer then self.old.early else record self.old.early { receive_window = Some bytes }) } }
        ensures stands { StandsStill self.old self.new }
        ensures whole { IsWhole self.new }
    {
        still::<S>();
        made::<S>();
        self.core.set_receive_window(bytes);
        self.keep_early(EarlyLimits {
            receive_window: Some(bytes),
            ..self.early
        });
    }
}
