ghost use Rattle.std.specs.Prelude.{◌≡◌, ℕ, ◌+◌, [], ◌∷◌, take, None, Some, is_some, IsOk, OnOk, OnErr, IfOk};
ghost use Rattle.std.specs.Option.{option_map};
ghost use Rattle.qh_streams.specs.Items.{kept_in, logged, length_of, HasRoom, Logs};

use bytes::Bytes;
use qh_base::{Dir, Memory, StreamId, VarInt};
use std::alloc::Global;
use std::marker::Model;

/// What the peer's frames bring, in a form that can be read without packets: each item is one small change of what an application
/// may read, write or open.
#[derive(Drop)]
pub enum Item {
    /// The peer's first limits on the bytes of a two-way and of a one-way stream that this end opens.
    FirstCredits {
        bidi: VarInt,
        uni: VarInt,
    },
    /// The peer opened a stream, and with it those of its kind before it that didn't come yet. If this end sends on them, this is
    /// the first limit on the bytes of each.
    Arrived {
        id: StreamId,
        credit: VarInt,
    },
    /// Bytes of a stream from this offset on.
    Run {
        id: StreamId,
        offset: VarInt,
        bytes: Bytes,
    },
    /// The end of a stream, and its final size.
    End {
        id: StreamId,
        size: u64,
    },
    /// The peer reset its half of a stream, with this code and this final size.
    Reset {
        id: StreamId,
        code: VarInt,
        size: VarInt,
    },
    /// The peer asks to stop a stream, with this code.
    Stop {
        id: StreamId,
        code: VarInt,
    },
    /// The peer's limit on the bytes of a stream.
    StreamCredit {
        id: StreamId,
        limit: VarInt,
    },
    /// The peer's limit on the bytes of all streams.
    Credit(VarInt),
    /// The peer's limit on the count of streams of a direction.
    Count {
        dir: Dir,
        count: u64,
    },
    /// A STREAM frame is acknowledged: all bytes of the stream before this offset are by now, and the end if `has_end`.
    Confirmed {
        id: StreamId,
        to: u64,
        has_end: bool,
    },
    /// The reset of a stream is acknowledged.
    ResetConfirmed {
        id: StreamId,
    },
}

/// Items that weren't taken yet, in the order in which they came. A log that is off keeps none, and takes no memory.
#[derive(Drop)]
pub struct ItemLog {
    items: Option<Vec<Item>>,
}

impl Model for ItemLog {
    ghost use Rattle.std.specs.Prelude.{List, Option};
    ghost use Rattle.qh_streams.specs.Items.{kept_in};
    ghost use Rattle.qh_streams.specs.declared.items.Item.{Item};

    ghost Value = { Option (List Item) };

    ghost view = { λ l. kept_in l.items };
}

impl ItemLog {
    /// A log that is off.
    pub fn off() -> ItemLog
        ensures { result ≡ None }
    {
        ItemLog { items: None }
    }

    /// Turns the log on. It has no items then.
    pub fn start(&mut self, alloc: Global)
        ensures { self.new ≡ Some [] }
    {
        self.items = Some(Vec::new(alloc));
    }

    /// Whether it is on.
    pub fn is_on(&self) -> bool
        ensures { result ≡ is_some self.now }
    {
        self.items.is_some()
    }

    /// How many items are kept.
    pub fn len(&self) -> usize
        ensures { result ≡ length_of self.now }
    {
        match &self.items {
            Some(items) => items.len(),
            None => 0,
        }
    }

    /// Appends an item if the log is on. For want of memory nothing changes.
    pub fn push(&mut self, item: Item) -> Result<(), Memory>
        ensures free { self.old ≡ None → IsOk result }
        ensures ok { OnOk result (self.new ≡ logged self.old (item ∷ [])) }
        ensures err { OnErr result (self.new ≡ self.old) }
    {
        let Some(items) = &mut self.items else {
            return Ok(());
        };
        match items.push(item) {
            Ok(()) => Ok(()),
            Err(_) => Err(Memory),
        }
    }

    /// Keeps the first `len` items, and forgets the others.
    pub fn truncate(&mut self, len: usize)
        ensures { self.new ≡ option_map (λ is. take len is) self.old }
    {
        if let Some(items) = &mut self.items {
            items.truncate(len);
        }
    }

    /// Hands over the items, in their order. None if it is off.
    pub fn take(&mut self, alloc: Global) -> Option<Vec<Item>>
        ensures taken { kept_in result ≡ self.old }
        ensures none { self.new ≡ option_map (λ _. []) self.old }
    {
        let items = self.items.take()?;
        self.items = Some(Vec::new(alloc));
        Some(items)
    }

    /// Lends out the items with room for `more`; until they are given back the log is off. For want of memory nothing changes.
    pub fn lend(&mut self, more: usize) -> Result<Option<Vec<Item>>, Memory>
        ensures ok { IfOk result (λ items. kept_in items ≡ self.old) }
        ensures room { IfOk result (λ items. HasRoom items more) }
        ensures off { OnOk result (self.new ≡ None) }
        ensures free { self.old ≡ None → IsOk result }
        ensures err { OnErr result (self.new ≡ self.old) }
    {
        if let Some(items) = &mut self.items {
            items.reserve(more)?;
        }
        Ok(self.items.take())
    }

    /// Takes back the items that were lent out.
    pub fn give_back(&mut self, items: Option<Vec<Item>>)
        ensures { self.new ≡ kept_in items }
    {
        self.items = items;
    }
}

/// Appends an item to those that a log lent out, if it was on.
pub(crate) fn put_reserved(items: &mut Option<Vec<Item>>, item: Item)
    requires { HasRoom items.old 1 }
    ensures kept { Logs items.old items.new (item ∷ []) }
    ensures room { (n : ℕ) → HasRoom items.old (n + 1) → HasRoom items.new n }
{
    if let Some(items) = items {
        items.push_reserved(item);
    }
}
