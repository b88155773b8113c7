ghost use Rattle.std.specs.Prelude.{◌≡◌, ℕ, ◌+◌, ◌≤◌, ◌++◌, ◌∷◌, [], length, map, None, Some, is_some, vec_len, vec_capacity, IsOk, OnOk, OnErr, IfOk};
ghost use Rattle.std.specs.Option.{option_map};
ghost use Rattle.qh_control.specs.Items.{HasRoom, held_in, items_in, items_of, kept_in, logged, only, streamed};
ghost use Rattle.qh_control.specs.declared.items.ConnectionItem.TheVariants as item;
ghost use Rattle.qh_streams.specs.Items.{kept_in as brought_in};
ghost use Rattle.qh_streams.specs.declared.items.Item.{Item as StreamItem};

use bytes::Bytes;
use qh_base::{ConnectionError, Memory};
use qh_streams::Item;
use std::alloc::Global;
use std::marker::Model;

/// What an application can see of a connection, in a form that can be read without packets: each item is one small change.
#[derive(Drop)]
pub enum ConnectionItem {
    /// The handshake is complete.
    Connected,
    /// What the peer's frames brought the streams.
    Stream(Item),
    /// A datagram came, with this payload. The oldest that wait to be read are dropped beyond what the end keeps.
    Datagram(Bytes),
    /// This many of the oldest queued datagrams were sent.
    DatagramsSent(usize),
    /// The longest payload of a datagram that may be sent, in bytes. None if the peer takes none.
    MaxDatagramSize(Option<u64>),
    /// The connection is lost. If it is by want of memory, all that waited to be read is gone with it, and so are the datagrams that waited to be
    /// sent.
    Lost(ConnectionError),
}

/// What a log keeps together.
#[derive(Drop)]
pub enum LogEntry {
    /// One item of the connection's own.
    Own(ConnectionItem),
    /// What the peer's frames brought the streams, in that order.
    Streams(Vec<Item>),
}

/// Items that weren't taken yet, in the order in which they came. A log that is off keeps none, and takes no memory.
#[derive(Drop)]
pub struct ConnectionLog {
    entries: Option<Vec<LogEntry>>,
}

impl Model for ConnectionLog {
    ghost use Rattle.std.specs.Prelude.{List, Option};
    ghost use Rattle.qh_control.specs.Items.{kept_in};
    ghost use Rattle.qh_control.specs.declared.items.ConnectionItem.{ConnectionItem};

    ghost Value = { Option (List ConnectionItem) };

    ghost view = { λ l. kept_in l.entries };
}

impl ConnectionLog {
    /// A log that is off.
    pub fn off() -> ConnectionLog
        ensures { result ≡ None }
    {
        ConnectionLog { entries: None }
    }

    /// Turns the log on. It has no items then.
    pub fn start(&mut self, alloc: Global)
        ensures { self.new ≡ Some [] }
    {
        self.entries = Some(Vec::new(alloc));
    }

    /// Whether it is on.
    pub fn is_on(&self) -> bool
        ensures { result ≡ is_some self.now }
    {
        self.entries.is_some()
    }

    /// Lends out the entries with room for two more; until they are given back the log is off. For want of memory nothing changes.
    pub fn lend(&mut self) -> Result<Option<Vec<LogEntry>>, Memory>
        ensures ok { IfOk result (λ entries. kept_in entries ≡ self.old) }
        ensures room { IfOk result (λ entries. HasRoom entries 2) }
        ensures off { OnOk result (self.new ≡ None) }
        ensures free { self.old ≡ None → IsOk result }
        ensures err { OnErr result (self.new ≡ self.old) }
    {
        if let Some(entries) = &mut self.entries {
            entries.reserve(2)?;
        }
        Ok(self.entries.take())
    }

    /// Takes back the entries that were lent out.
    pub fn give_back(&mut self, entries: Option<Vec<LogEntry>>)
        ensures { self.new ≡ kept_in entries }
    {
        self.entries = entries;
    }

    /// Takes back the entries that were lent out, and appends what the peer's frames brought the streams, in that order, and an item of the
    /// connection's own behind that. It takes no memory.
    pub fn give_back_with(
        &mut self,
        entries: Option<Vec<LogEntry>>,
        brought: Option<Vec<Item>>,
        item: Option<ConnectionItem>,
    )
        requires { HasRoom entries 2 }
        ensures { self.new ≡ logged (kept_in entries) (streamed (brought_in brought) ++ only item) }
    {
        let mut entries = entries;
        put_brought(&mut entries, brought);
        put_own(&mut entries, item);
        self.entries = entries;
    }

    /// Hands over the items, in their order, and keeps none. None if it is off. For want of memory nothing changes.
    pub fn take(&mut self, alloc: Global) -> Result<Option<Vec<ConnectionItem>>, Memory>
        ensures taken { IfOk result (λ items. held_in items ≡ self.old) }
        ensures rest { OnOk result (self.new ≡ option_map (λ _. []) self.old) }
        ensures free { self.old ≡ None → IsOk result }
        ensures err { OnErr result (self.new ≡ self.old) }
    {
        let Some(entries) = &self.entries else {
            return Ok(None);
        };
        let count = count_items(entries.as_slice())?;
        let mut items = Vec::new(alloc);
        items.reserve(count)?;
        let Some(entries) = self.entries.take() else {
            return Ok(None);
        };
        self.entries = Some(Vec::new(alloc));
        put_all(&mut items, entries);
        Ok(Some(items))
    }

    /// Hands over the entries as they are kept, in their order, and keeps none. None exactly if the log is off. It takes no memory.
    pub fn take_entries(&mut self, alloc: Global) -> Option<Vec<LogEntry>>
        ensures taken { kept_in result ≡ self.old }
        ensures rest { self.new ≡ option_map (λ _. []) self.old }
    {
        let Some(entries) = self.entries.take() else {
            return None;
        };
        self.entries = Some(Vec::new(alloc));
        Some(entries)
    }

    // The item of a datagram that came with this payload, if the log is on: its bytes are copied only then.
    pub(crate) fn datagram_item(&self, payload: &Bytes) -> Result<Option<ConnectionItem>, Memory>
        ensures { IfOk result (λ one. logged self.now (only one) ≡ logged self.now (item.Datagram payload.now ∷ [])) }
    {
        if self.entries.is_none() {
            return Ok(None);
        }
        let payload = payload.clone()?;
        Ok(Some(ConnectionItem::Datagram(payload)))
    }
}

// Appends an entry to those that a log lent out, if it was on.
#[tactic(auto, using(crate::proofs::Logs::kept_more))]
fn put(entries: &mut Option<Vec<LogEntry>>, entry: LogEntry)
    requires { HasRoom entries.old 1 }
    ensures kept { kept_in entries.new ≡ logged (kept_in entries.old) (items_in entry) }
    ensures room { (n : ℕ) → HasRoom entries.old (n + 1) → HasRoom entries.new n }
{
    if let Some(entries) = entries {
        entries.push_reserved(entry);
    }
}

// Appends what the streams were brought, if that is anything.
fn put_brought(entries: &mut Option<Vec<LogEntry>>, brought: Option<Vec<Item>>)
    requires { HasRoom entries.old 2 }
    ensures kept { kept_in entries.new ≡ logged (kept_in entries.old) (streamed (brought_in brought)) }
    ensures room { HasRoom entries.new 1 }
{
    let Some(items) = brought else {
        return;
    };
    if !items.is_empty() {
        put(entries, LogEntry::Streams(items));
    }
}

// Appends an item, if there is one.
fn put_own(entries: &mut Option<Vec<LogEntry>>, item: Option<ConnectionItem>)
    requires { HasRoom entries.old 1 }
    ensures { kept_in entries.new ≡ logged (kept_in entries.old) (only item) }
{
    if let Some(item) = item {
        put(entries, LogEntry::Own(item));
    }
}

// How many items the entries hold. Memory if no `usize` can say it.
fn count_items(entries: &[LogEntry]) -> Result<usize, Memory>
    ensures { IfOk result (λ count. count ≡ length (items_of entries.now)) }
{
    let mut count: usize = 0;
    for entry in entries {
        let more = match entry {
            LogEntry::Own(_) => 1,
            LogEntry::Streams(items) => items.len(),
        };
        let Some(sum) = count.checked_add(more) else {
            return Err(Memory);
        };
        count = sum;
    }
    Ok(count)
}

// Appends the items of each entry. There is room.
fn put_all(items: &mut Vec<ConnectionItem>, entries: Vec<LogEntry>)
    requires { vec_len items.old + length (items_of entries.items) ≤ vec_capacity items.old }
    ensures { items.new.items ≡ items.old.items ++ items_of entries.items }
{
    for entry in entries {
        put_entry(items, entry);
    }
}

// Appends the items of an entry. There is room.
fn put_entry(items: &mut Vec<ConnectionItem>, entry: LogEntry)
    requires { vec_len items.old + length (items_in entry) ≤ vec_capacity items.old }
    ensures items { items.new.items ≡ items.old.items ++ items_in entry }
    ensures len { vec_len items.new ≡ vec_len items.old + length (items_in entry) }
    ensures capacity { vec_capacity items.new ≡ vec_capacity items.old }
{
    match entry {
        LogEntry::Own(item) => items.push_reserved(item),
        LogEntry::Streams(more) => put_streams(items, more),
    }
}

// Appends each item. There is room.
fn put_streams(items: &mut Vec<ConnectionItem>, more: Vec<Item>)
    requires { vec_len items.old + vec_len more ≤ vec_capacity items.old }
    ensures items { items.new.items ≡ items.old.items ++ map (λ (i : StreamItem). item.Stream i) more.items }
    ensures len { vec_len items.new ≡ vec_len items.old + vec_len more }
    ensures capacity { vec_capacity items.new ≡ vec_capacity items.old }
{
    for item in more {
        items.push_reserved(ConnectionItem::Stream(item));
    }
}
