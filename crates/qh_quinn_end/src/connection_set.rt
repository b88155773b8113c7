ghost use Rattle.std.specs.Prelude.{◌≡◌, ◌≤◌, ◌++◌, ◌∷◌, [], MatchOption, OnErr, OnOk, true, vec_len};
ghost use Rattle.qh_quinn_end.specs.Sets.{AreSame, IsInserted, number_of};

use qh_base::Memory;
use qh_conn::ConnectionEvent;
use qh_routes::ConnectionHandle;
use std::alloc::Global;
use std::collections::VecDeque;
use std::marker::Model;

/// What connections are to be told, until it is taken (quinn, `ConnectionSet`). A handle that is given to a later connection has nothing for it of what an earlier
/// one was to be told.
#[derive(Drop)]
pub(crate) struct ConnectionSet {
    // The number of the connection that has a handle, by handle. 0: none had it yet.
    numbers: Vec<u64>,
    // How many connections there were.
    count: u64,
    events: VecDeque<Told>,
}

// An event for the connection of this number.
#[derive(Drop)]
pub(crate) struct Told {
    handle: ConnectionHandle,
    number: u64,
    event: ConnectionEvent,
}

impl Model for ConnectionSet {
    ghost use Rattle.std.specs.Prelude.{nat_lt};
    ghost use Rattle.std.specs.VecDeque.{deque_capacity, deque_len};
    ghost use Rattle.qh_quinn_end.specs.Sets.{AreNumbered, PlainSet, events_of};

    ghost Value = { PlainSet };

    ghost view = { λ s. record { events = events_of s.numbers.items s.events.items; has_room = nat_lt (deque_len s.events) (deque_capacity s.events) } };

    ghost invariant = { λ s. AreNumbered s.count s.numbers.items s.events.items };
}

impl ConnectionSet {
    pub(crate) fn new(alloc: Global) -> ConnectionSet
        ensures { result.events ≡ [] }
    {
        ConnectionSet {
            numbers: Vec::new(alloc),
            count: 0,
            events: VecDeque::new(alloc),
        }
    }

    // Room for one event more.
    pub(crate) fn reserve(&mut self) -> Result<(), Memory>
        ensures ok { OnOk result (self.new.has_room ≡ true) }
        ensures same { self.new.events ≡ self.old.events }
    {
        self.events.try_reserve(1)?;
        Ok(())
    }

    // The connection of this handle is to be told this, behind what others are to be told. There is room for it.
    pub(crate) fn send_reserved(&mut self, handle: ConnectionHandle, event: ConnectionEvent)
        requires { self.old.has_room ≡ true }
        ensures { self.new.events ≡ self.old.events ++ (handle, event) ∷ [] }
    {
        let number = number_of(&self.numbers, handle);
        self.events.push_back_reserved(Told {
            handle,
            number,
            event,
        });
    }

    // A new connection has this handle: nothing is left of what an earlier one was to be told.
    pub(crate) fn insert(&mut self, handle: ConnectionHandle) -> Result<(), Memory>
        ensures ok { OnOk result (IsInserted handle self.old.events self.new.events) }
        ensures err { OnErr result (self.new.events ≡ self.old.events) }
        ensures room { self.new.has_room ≡ self.old.has_room }
    {
        let Some(number) = self.count.checked_add(1) else {
            return Err(Memory);
        };
        let Some(len) = handle.0.checked_add(1) else {
            return Err(Memory);
        };
        grow(&mut self.numbers, len)?;
        self.numbers[handle.0] = number;
        self.count = number;
        Ok(())
    }

    // What was to be told first, and to whom.
    pub(crate) fn take(&mut self) -> Option<(ConnectionHandle, ConnectionEvent)>
        ensures { MatchOption result ((self.old.events ≡ []) × (self.new.events ≡ [])) (λ told. self.old.events ≡ told ∷ self.new.events) }
    {
        while let Some(told) = self.events.pop_front() {
            if number_of(&self.numbers, told.handle) == told.number {
                return Some((told.handle, told.event));
            }
        }
        None
    }
}

// The number of the connection that has this handle.
fn number_of(numbers: &[u64], handle: ConnectionHandle) -> u64
    ensures { result ≡ number_of numbers.now handle }
{
    match numbers.get(handle.0) {
        Some(number) => *number,
        None => 0,
    }
}

// Makes the numbers so many at least.
fn grow(numbers: &mut Vec<u64>, len: usize) -> Result<(), Memory>
    ensures long { OnOk result (len ≤ vec_len numbers.new) }
    ensures same { AreSame numbers.old.items numbers.new.items }
{
    while numbers.len() < len {
        numbers.push(0)?;
    }
    Ok(())
}
