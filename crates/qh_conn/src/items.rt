ghost use Rattle.std.specs.Prelude.{◌≡◌, ◌⊎◌, ◌++◌, [], List, Bool, true, None, is_some, IsOk, OnOk, OnErr, IfOk};
ghost use Rattle.qh_conn.specs.Items.{came, is_loss_logged, items_taken, log_started, loss, loss_noted, noted, noted_in, streams_started, streams_taken, untaken};
ghost use Rattle.std.specs.Option.{option_map};
ghost use Rattle.qh_conn.specs.Hearing.{HearsStill};
ghost use Rattle.qh_conn.specs.Whole.{IsSound, IsWhole, StandsStill};
ghost use Rattle.qh_control.specs.Items.{HasRoom, held_in, kept_in, logged, only, streamed};
ghost use Rattle.qh_control.specs.declared.items.ConnectionItem.{ConnectionItem as AnItem};
ghost use Rattle.qh_core.specs.Made.{IsMadeLocally};
ghost use Rattle.qh_space.specs.Space.{AreUnused};
ghost use Rattle.qh_streams.specs.Items.{kept_in as brought_in};
ghost use Rattle.qh_streams.specs.Streams.{counts_of};

use crate::{Connection, ConnectionItem};
use qh_base::Memory;
use qh_control::{ConnectionLog, LogEntry};
use qh_streams::Item;

// The log of a connection: its own items and those of its streams, in the order in which they came.
impl<S> Connection<S> {
    /// Keeps a log from now on of what an application can see of the connection, for `take_items`. It is for an end that has none. Before the
    /// end is greeted the log stays empty; it then begins with the longest payload of a datagram that may be sent and the peer's first limits.
    /// An end that was greeted did nothing since, its streams aren't used yet, and the log begins with the peer's first limits: that it is
    /// connected and what it may send aren't told again. For want of memory, only of such an end, nothing changes.
    pub fn start_log(&mut self) -> Result<(), Memory>
        requires whole { IsWhole self.old }
        requires off { self.old.control.log ≡ None }
        requires unused { is_some self.old.handshake.peer ≡ true → AreUnused self.old.core.space.streams self.old.core.space.streams.peer }
        requires arrived { is_some self.old.handshake.peer ≡ true → (two_way : Bool) → (counts_of self.old.core.space.streams two_way).arrived ≡ 0 }
        requires streams_off { is_some self.old.handshake.peer ≡ true → self.old.core.space.log ≡ None }
        ensures ok { OnOk result (self.new ≡ log_started self.old) }
        ensures err { OnErr result (self.new ≡ self.old) }
        ensures wanting { OnErr result (is_some self.old.handshake.peer ≡ true) }
        ensures stands { StandsStill self.old self.new }
        ensures whole { IsWhole self.new }
    {
        self.control.log.start(self.alloc);
        if !self.is_greeted() {
            return Ok(());
        }
        let Ok(()) = self.log_streams() else {
            self.control.log = ConnectionLog::off();
            return Err(Memory);
        };
        Ok(())
    }

    /// Hands over the items that came since the log was started, or since this was called last, in the order in which they came, and keeps
    /// none. Once the connection is lost, that comes last, once. Of one packet what it brought to streams comes before its datagrams, and at a
    /// server before that it is connected. None exactly if the log is off. For want of memory nothing is lost: the same items come with the
    /// next call.
    pub fn take_items(&mut self) -> Result<Option<Vec<ConnectionItem>>, Memory>
        requires { IsWhole self.old }
        ensures taken { IfOk result (λ items. held_in items ≡ untaken self.old) }
        ensures ok { OnOk result (self.new ≡ items_taken self.old) }
        ensures err { OnErr result ((self.new ≡ self.old) ⊎ (self.new ≡ loss_noted self.old)) }
        ensures still { OnErr result (untaken self.new ≡ untaken self.old) }
        ensures free { self.old.control.log ≡ None → IsOk result }
        ensures stands { StandsStill self.old self.new }
        ensures whole { IsWhole self.new }
    {
        self.note_loss()?;
        self.control.log.take(self.alloc)
    }

    /// Hands over what `take_items` does, as the log keeps it, and keeps none; that the connection is lost isn't among it, unless it was logged
    /// before. None exactly if the log is off. It takes no memory.
    pub fn take_log(&mut self) -> Option<Vec<LogEntry>>
        requires { IsWhole self.old }
        ensures taken { kept_in result ≡ came self.old }
        ensures rest { self.new ≡ record self.old { control = record self.old.control { log = option_map (λ _. []) self.old.control.log } } }
        ensures stands { StandsStill self.old self.new }
        ensures whole { IsWhole self.new }
    {
        self.control.log.take_entries(self.alloc)
    }

    // That the connection is lost is logged, once. For want of memory nothing changes.
    fn note_loss(&mut self) -> Result<(), Memory>
        ensures ok { OnOk result (self.new ≡ loss_noted self.old) }
        ensures err { OnErr result (self.new ≡ self.old) }
        ensures free { self.old.control.log ≡ None → IsOk result }
        ensures stands { StandsStill self.old self.new }
        ensures whole { IsWhole self.old → IsWhole self.new }
    {
        let is_logged = self.is_loss_logged();
        let item = self.lost_item();
        self.note(item)?;
        self.is_lost_logged = is_logged;
        Ok(())
    }

    // That the connection is lost, if it is and that wasn't logged.
    fn lost_item(&self) -> Option<ConnectionItem>
        ensures { only result ≡ loss self.now.is_lost_logged self.now.core.error }
    {
        if self.is_lost_logged {
            return None;
        }
        match self.core.close_reason() {
            Some(error) => Some(ConnectionItem::Lost(error)),
            None => None,
        }
    }

    // Whether the loss is logged once `lost_item` is.
    fn is_loss_logged(&self) -> bool
        ensures { result ≡ is_loss_logged self.now }
    {
        self.is_lost_logged || self.control.log.is_on() && self.core.close_reason().is_some()
    }

    /// What came to the streams is moved into the log, and an item behind it, if the log is on. For want of memory nothing changes.
    pub(crate) fn note(&mut self, item: Option<ConnectionItem>) -> Result<(), Memory>
        ensures ok { OnOk result (self.new ≡ noted (only item) self.old) }
        ensures err { OnErr result (self.new ≡ self.old) }
        ensures free { self.old.control.log ≡ None → IsOk result }
        ensures wanting { OnErr result (is_some self.old.control.log ≡ true) }
        ensures state { self.new.core.state ≡ self.old.core.state }
        ensures made { IsMadeLocally self.old.core self.new.core [] }
        ensures stands { StandsStill self.old self.new }
        ensures sound { IsSound self.old → IsSound self.new }
        ensures whole { IsWhole self.old → IsWhole self.new }
    {
        let entries = self.control.log.lend()?;
        self.note_in(entries, item);
        Ok(())
    }

    /// The same, of a log that was lent out. It takes no memory.
    pub(crate) fn note_in(&mut self, entries: Option<Vec<LogEntry>>, item: Option<ConnectionItem>)
        requires { HasRoom entries 2 }
        ensures value { self.new ≡ noted_in (kept_in entries) (only item) self.old }
        ensures state { self.new.core.state ≡ self.old.core.state }
        ensures made { IsMadeLocally self.old.core self.new.core [] }
        ensures stands { StandsStill self.old self.new }
        ensures sound { IsSound self.old → IsSound self.new }
        ensures whole { IsWhole self.old → IsWhole self.new }
    {
        let brought = self.bring(&entries);
        self.control.log.give_back_with(entries, brought, item);
    }

    // What came to the streams, if a log that was lent out is on.
    fn bring(&mut self, entries: &Option<Vec<LogEntry>>) -> Option<Vec<Item>>
        ensures value { (more : List AnItem) → logged (kept_in entries.now) (streamed (brought_in result) ++ more) ≡ logged (kept_in entries.now) (streamed self.old.core.space.log ++ more) }
        ensures rest { self.new ≡ record self.old { core = streams_taken (kept_in entries.now) self.old.core } }
        ensures made { IsMadeLocally self.old.core self.new.core [] }
        ensures sound { IsSound self.old → IsSound self.new }
        ensures whole { IsWhole self.old → IsWhole self.new }
    {
        if entries.is_none() {
            return None;
        }
        self.core.take_items()
    }

    /// The log of the streams starts, of an end whose streams aren't used yet, if that of the connection is on, into which the peer's first
    /// limits are moved. For want of memory nothing changes.
    pub(crate) fn log_streams(&mut self) -> Result<(), Memory>
        requires unused { AreUnused self.old.core.space.streams self.old.core.space.streams.peer }
        requires arrived { (two_way : Bool) → (counts_of self.old.core.space.streams two_way).arrived ≡ 0 }
        requires off { self.old.core.space.log ≡ None }
        ensures ok { OnOk result (self.new ≡ streams_started self.old) }
        ensures err { OnErr result (self.new ≡ self.old) }
        ensures free { self.old.control.log ≡ None → IsOk result }
        ensures wanting { OnErr result (is_some self.old.control.log ≡ true) }
        ensures hears { HearsStill self.old.core self.new.core }
        ensures stands { StandsStill self.old self.new }
        ensures sound { IsSound self.old → IsSound self.new }
        ensures whole { IsWhole self.old → IsWhole self.new }
    {
        if !self.control.log.is_on() {
            return Ok(());
        }
        let entries = self.control.log.lend()?;
        let Ok(()) = self.core.start_log() else {
            self.control.log.give_back(entries);
            return Err(Memory);
        };
        self.note_in(entries, None);
        Ok(())
    }
}
