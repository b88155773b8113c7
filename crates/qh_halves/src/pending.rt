ghost use Rattle.std.specs.Prelude.{◌≡◌, ◌<◌, ◌==◌, ◌&&◌, ◌||◌, ℕ, ℤ, not, true, false, Some, None, MatchOption, IsOk, OnOk, OnErr, if◌then◌else◌};
ghost use Rattle.qh_halves.specs.Pending.{goes_before, has_room, waits, waiting, IsFirst};

mod winner_tree;

use qh_base::Memory;
use slab::Slab;
use std::alloc::Global;
use std::collections::BTreeMap;
use std::marker::Model;
use winner_tree::WinnerTree;

/// A stream that waits for something to be sent.
#[derive(Clone, Copy, PartialEq)]
pub struct PendingStream {
    /// The greater goes first.
    pub priority: i32,
    /// If the priority is the same, the lesser goes first.
    pub id: u64,
}

impl PendingStream {
    /// Whether it is served before another.
    pub fn goes_before(&self, other: &PendingStream) -> bool
        ensures { result ≡ goes_before self.now other.now }
    {
        other.priority < self.priority || (self.priority == other.priority && self.id < other.id)
    }
}

/// Streams that wait for something to be sent, in the order in which they are served. A stream waits once, with one priority,
/// and gets room before that: so no memory is taken when it waits. A call costs O(log n), `first` O(1), and `admit` O(log n)
/// amortized, with the n streams that had room at once at most so far. Each of them takes about 100 to 200 bytes: what a stream leaves
/// is given to the next one, and is never given back to the allocator.
#[derive(Drop)]
pub struct PendingStreamsQueue {
    // the place of each stream that has room
    seats: BTreeMap<u64, usize>,
    // which stream has a place, and which place is free
    ids: Slab<u64>,
    // the streams that wait, each at its place
    tree: WinnerTree,
}

impl Model for PendingStreamsQueue {
    ghost use Rattle.qh_halves.specs.Pending.{PlainPending};
    ghost use Rattle.qh_halves.specs.Seats.{with_priorities, AreSeated};

    ghost Value = { PlainPending };

    ghost view = { λ q. record { streams = with_priorities q.tree q.seats.entries } };

    ghost invariant = { λ q. AreSeated q.seats.entries q.ids q.tree };
}

impl PendingStreamsQueue {
    /// A queue in which no stream has room.
    pub fn new(alloc: Global) -> PendingStreamsQueue
        ensures room { (k : ℕ) → has_room result k ≡ false }
        ensures waits { (k : ℕ) → waits result k ≡ None }
    {
        PendingStreamsQueue {
            seats: BTreeMap::new(alloc),
            ids: Slab::new(alloc),
            tree: WinnerTree::new(alloc),
        }
    }

    /// Takes room for a stream, unless it has it. For want of memory nothing changes.
    pub fn admit(&mut self, id: u64) -> Result<(), Memory>
        ensures room { OnOk result ((k : ℕ) → has_room self.new k ≡ (k == id || has_room self.old k)) }
        ensures waits { OnOk result ((k : ℕ) → waits self.new k ≡ waits self.old k) }
        ensures again { has_room self.old id ≡ true → IsOk result × (self.new ≡ self.old) }
        ensures err { OnErr result (self.new ≡ self.old) }
    {
        if self.seats.contains_key(&id) {
            return Ok(());
        }
        self.ids.reserve(1)?;
        let place = self.ids.vacant_key();
        self.tree.reserve(place)?;
        match self.seats.insert(id, place) {
            Ok(_) => {
                let _ = self.ids.insert_reserved(id);
                Ok(())
            }
            Err(_) => Err(Memory),
        }
    }

    /// Frees the room of a stream, which then waits no more.
    pub fn leave(&mut self, id: u64)
        ensures room { (k : ℕ) → has_room self.new k ≡ (not (k == id) && has_room self.old k) }
        ensures waits { (k : ℕ) → waits self.new k ≡ (if k == id then None else waits self.old k) }
    {
        let Some(place) = self.seats.remove(&id) else {
            return;
        };
        self.tree.set(place, None);
        self.ids.remove(place);
    }

    /// The stream that is served first, None if none waits.
    pub fn first(&self) -> Option<PendingStream>
        ensures { MatchOption result ((k : ℕ) → waits self.now k ≡ None) (IsFirst self.now) }
    {
        self.tree.first()
    }

    /// Lets a stream wait that has room. If it waits with another priority it waits with this one from now on.
    pub fn insert(&mut self, stream: PendingStream)
        requires { has_room self.old stream.id ≡ true }
        ensures waits { (k : ℕ) → waits self.new k ≡ (if k == stream.id then Some stream.priority else waits self.old k) }
        ensures room { (k : ℕ) → has_room self.new k ≡ has_room self.old k }
    {
        if let Some(place) = self.seats.get(&stream.id).copied() {
            self.tree.set(place, Some(stream));
        }
    }

    /// Lets a stream wait no more. It keeps its room.
    pub fn remove(&mut self, id: u64)
        ensures waits { (k : ℕ) → waits self.new k ≡ (if k == id then None else waits self.old k) }
        ensures room { (k : ℕ) → has_room self.new k ≡ has_room self.old k }
        ensures fewer { (priority : ℤ) → waits self.old id ≡ Some priority → waiting self.new < waiting self.old }
    {
        if let Some(place) = self.seats.get(&id).copied() {
            self.tree.set(place, None);
        }
    }
}
