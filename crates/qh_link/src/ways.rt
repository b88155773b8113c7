//! The two ways of a link in memory: what is on its way to either end.
ghost use Rattle.std.specs.Prelude.{◌≡◌, ◌+◌, ◌<◌, ◌≤◌, ◌==◌, ◌++◌, ◌∷◌, [], if◌then◌else◌, All, length, IfOk, OnErr, OnOk, IfNone, option_to_list};
ghost use Rattle.std.specs.VecDeque.{deque_len, deque_capacity};
ghost use Rattle.qh_spec.specs.declared.sides.Side.{Side};
ghost use Rattle.qh_spec.specs.Link.{if_same_side};
ghost use Rattle.qh_spec.specs.Schedule.{forged as forged_by, repeated};
ghost use Rattle.qh_link.specs.Ways.{ready_to, later_to, arriving, remaining, HasRoom};

use crate::schedule::forged;
use bytes::Bytes;
use qh_base::Side;
use qh_spec::Upset;
use std::alloc::{AllocError, Global};
use std::collections::VecDeque;

/// A datagram that comes in a later round.
#[derive(Drop)]
pub struct Postponed {
    pub round: u64,
    pub datagram: Bytes,
}

/// What is on its way to one end.
#[derive(Drop)]
pub struct Way {
    /// What is due up to the round that is on, without what was given.
    pub ready: VecDeque<Bytes>,
    /// What comes in later rounds, in the order of sending.
    pub later: VecDeque<Postponed>,
}

/// What is on its way to either end.
#[derive(Drop)]
pub struct Ways {
    pub to_client: Way,
    pub to_server: Way,
}

impl Way {
    fn new(alloc: Global) -> Way
        ensures ready { result.ready.items ≡ [] }
        ensures later { result.later.items ≡ [] }
    {
        Way {
            ready: VecDeque::new(alloc),
            later: VecDeque::new(alloc),
        }
    }

    // Puts copies of the datagram on their way, for this round.
    fn put(
        &mut self,
        alloc: Global,
        copies: usize,
        round: u64,
        datagram: &Bytes,
    ) -> Result<(), AllocError>
        ensures ready { self.new.ready.items ≡ self.old.ready.items }
        ensures ok { OnOk result (self.new.later.items
            ≡ self.old.later.items ++ repeated copies (record { round = round; datagram = datagram.now })) }
        ensures err { OnErr result (self.new.later.items ≡ self.old.later.items) }
    {
        let more = repeat_flight(alloc, copies, round, datagram)?;
        self.later.append(&mut VecDeque::from_vec(more))
    }

    // Makes room for what comes in a round: at most all that is late, and this many forged datagrams.
    fn reserve(&mut self, forged: usize) -> Result<(), AllocError>
        ensures ready { self.new.ready.items ≡ self.old.ready.items }
        ensures later { self.new.later.items ≡ self.old.later.items }
        ensures ok { OnOk result (HasRoom self.new forged) }
    {
        self.ready.reserve(self.later.len().saturating_add(forged))
    }

    // Gives what comes in this round, and then what is forged.
    fn begin(&mut self, round: u64, forged: Vec<Bytes>)
        requires { HasRoom self.old (length forged.items) }
        ensures ready { self.new.ready.items
            ≡ self.old.ready.items ++ (arriving round self.old.later.items ++ forged.items) }
        ensures later { self.new.later.items ≡ remaining round self.old.later.items }
    {
        sort_out(&mut self.ready, &mut self.later, round);
        self.ready.append(&mut VecDeque::from_vec(forged)).unwrap();
    }
}

// The flights of these copies of the datagram. A clone shares the bytes.
#[tactic(auto, using(crate::proofs::Late::repeated_more))]
fn repeat_flight(
    alloc: Global,
    copies: usize,
    round: u64,
    datagram: &Bytes,
) -> Result<Vec<Postponed>, AllocError>
    ensures { IfOk result (λ more. more.items
        ≡ repeated copies (record { round = round; datagram = datagram.now })) }
{
    let mut more = Vec::new(alloc);
    for _copy in 0..copies {
        let flight = Postponed {
            round,
            datagram: datagram.clone()?,
        };
        more.push(flight)?;
    }
    Ok(more)
}

// Moves what comes in this round from the later ones to the ready ones, each in order.
fn sort_out(ready: &mut VecDeque<Bytes>, later: &mut VecDeque<Postponed>, round: u64)
    requires { deque_len later.old + deque_len ready.old ≤ deque_capacity ready.old }
    ensures ready { ready.new.items ≡ ready.old.items ++ arriving round later.old.items }
    ensures later { later.new.items ≡ remaining round later.old.items }
    ensures capacity { deque_capacity ready.new ≡ deque_capacity ready.old }
    ensures len { deque_len ready.new ≤ deque_len ready.old + deque_len later.old }
{
    for _flight in 0..later.len() {
        let Some(flight) = later.pop_front() else {
            return;
        };
        place(ready, later, round, flight);
    }
}

// Puts a flight behind the ready ones where it comes in this round, and else behind the later ones.
fn place(
    ready: &mut VecDeque<Bytes>,
    later: &mut VecDeque<Postponed>,
    round: u64,
    flight: Postponed,
)
    requires ready_room { deque_len ready.old < deque_capacity ready.old }
    requires later_room { deque_len later.old < deque_capacity later.old }
    ensures ready { ready.new.items
        ≡ ready.old.items ++ (if flight.round == round then flight.datagram ∷ [] else []) }
    ensures later { later.new.items ≡ later.old.items ++ (if flight.round == round then [] else flight ∷ []) }
    ensures ready_capacity { deque_capacity ready.new ≡ deque_capacity ready.old }
    ensures later_capacity { deque_capacity later.new ≡ deque_capacity later.old }
    ensures ready_len { deque_len ready.new ≤ deque_len ready.old + 1 }
{
    if flight.round == round {
        let Postponed {
            round: _when,
            datagram,
        } = flight;
        ready.push_back_reserved(datagram);
    } else {
        later.push_back_reserved(flight);
    }
}

impl Ways {
    /// Nothing is on its way.
    pub fn new(alloc: Global) -> Ways
        ensures ready { (s : Side) → ready_to result s ≡ [] }
        ensures later { (s : Side) → later_to result s ≡ [] }
    {
        Ways {
            to_client: Way::new(alloc),
            to_server: Way::new(alloc),
        }
    }

    /// Puts copies of the datagram on their way to a side, for this round.
    pub fn put(
        &mut self,
        alloc: Global,
        to: Side,
        copies: usize,
        round: u64,
        datagram: &Bytes,
    ) -> Result<(), AllocError>
        ensures ready { (s : Side) → ready_to self.new s ≡ ready_to self.old s }
        ensures ok { OnOk result ((s : Side) → later_to self.new s
            ≡ later_to self.old s ++ if_same_side s to (repeated copies (record { round = round; datagram = datagram.now })) []) }
        ensures err { OnErr result ((s : Side) → later_to self.new s ≡ later_to self.old s) }
    {
        match to {
            Side::Client => self.to_client.put(alloc, copies, round, datagram),
            Side::Server => self.to_server.put(alloc, copies, round, datagram),
        }
    }

    /// Gives each side what comes in this round, and then what the schedule forges for it.
    pub fn begin(&mut self, alloc: Global, schedule: &[Upset], round: u64) -> Result<(), AllocError>
        ensures ready { OnOk result ((s : Side) → ready_to self.new s
            ≡ ready_to self.old s ++ (arriving round (later_to self.old s) ++ forged_by schedule.now round s)) }
        ensures later { OnOk result ((s : Side) → later_to self.new s ≡ remaining round (later_to self.old s)) }
        ensures ready_err { OnErr result ((s : Side) → ready_to self.new s ≡ ready_to self.old s) }
        ensures later_err { OnErr result ((s : Side) → later_to self.new s ≡ later_to self.old s) }
    {
        let to_client = forged(alloc, schedule, round, Side::Client)?;
        let to_server = forged(alloc, schedule, round, Side::Server)?;
        self.to_client.reserve(to_client.len())?;
        self.to_server.reserve(to_server.len())?;
        self.to_client.begin(round, to_client);
        self.to_server.begin(round, to_server);
        Ok(())
    }

    /// Takes the next datagram that is ready for a side.
    pub fn pop(&mut self, to: Side) -> Option<Bytes>
        ensures ready { (s : Side) → ready_to self.old s
            ≡ if_same_side s to (option_to_list result) [] ++ ready_to self.new s }
        ensures later { (s : Side) → later_to self.new s ≡ later_to self.old s }
        ensures none { IfNone result (ready_to self.old to ≡ []) }
    {
        match to {
            Side::Client => self.to_client.ready.pop_front(),
            Side::Server => self.to_server.ready.pop_front(),
        }
    }
}
