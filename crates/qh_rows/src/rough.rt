//! A link that loses, repeats and reorders what is sent on it, by a list.

ghost use Rattle.std.specs.Prelude.{◌≡◌, ◌≤◌, ◌∷◌, [], Some, None, All, IfSome, length, take};
ghost use Rattle.qh_spec.specs.Link.{moments_of};

use bytes::Bytes;
use qh_base::{Moment, Side};
use qh_link::{Event, Link, LinkFault};
use std::alloc::{AllocError, Global};

/// What becomes of a datagram.
#[derive(Clone, Copy)]
pub enum Fate {
    Lost,
    Once,
    Twice,
    /// It overtakes what waits for the same end.
    First,
}

/// A link whose n-th datagram has the n-th fate of a list, and those behind the list come once. What is sent waits until
/// the other end takes it, in the same round too. Rounds are a millisecond apart.
#[derive(Drop)]
pub struct Rough {
    fates: Vec<Fate>,
    sent: usize,
    waiting: Waiting,
    events: Vec<Event>,
}

impl Rough {
    pub fn new(alloc: Global, fates: Vec<Fate>) -> Rough
        ensures { result.events.items ≡ [] }
    {
        Rough {
            fates,
            sent: 0,
            waiting: Waiting {
                to_client: Vec::new(alloc),
                to_server: Vec::new(alloc),
            },
            events: Vec::new(alloc),
        }
    }

    pub fn events(&self) -> &[Event] {
        &self.events
    }
}

// What waits for each end, in the order in which it is given.
#[derive(Drop)]
struct Waiting {
    to_client: Vec<Bytes>,
    to_server: Vec<Bytes>,
}

impl Waiting {
    fn put(&mut self, from: Side, fate: Fate, datagram: &Bytes) -> Result<(), AllocError> {
        match from {
            Side::Client => put(&mut self.to_server, fate, datagram),
            Side::Server => put(&mut self.to_client, fate, datagram),
        }
    }

    fn pop(&mut self, to: Side) -> Option<Bytes> {
        match to {
            Side::Client => pop(&mut self.to_client),
            Side::Server => pop(&mut self.to_server),
        }
    }
}

// Puts a datagram behind what waits, in front of it, twice, or nowhere.
fn put(waiting: &mut Vec<Bytes>, fate: Fate, datagram: &Bytes) -> Result<(), AllocError> {
    match fate {
        Fate::Lost => {}
        Fate::Once => waiting.push(datagram.clone()?)?,
        Fate::Twice => {
            waiting.push(datagram.clone()?)?;
            waiting.push(datagram.clone()?)?;
        }
        Fate::First => waiting.insert(0, datagram.clone()?)?,
    }
    Ok(())
}

fn pop(waiting: &mut Vec<Bytes>) -> Option<Bytes> {
    if waiting.is_empty() {
        None
    } else {
        Some(waiting.remove(0))
    }
}

// A moment that isn't before any of these.
fn latest(events: &[Event]) -> u64
    ensures { All (λ moment. moment ≤ result) (moments_of events.now) }
{
    let mut latest = 0;
    for event in events {
        latest = later(latest, event);
    }
    latest
}

fn later(moment: u64, event: &Event) -> u64
    ensures old { moment ≤ result }
    ensures new { All (λ n. n ≤ result) (moments_of (event.now ∷ [])) }
{
    match event {
        Event::Round { moment: next } => moment.max(*next),
        _ => moment,
    }
}

// Writes the datagram into the front of the slice, and says how long it is. None where it is longer than the slice.
fn write_front(datagram: &[u8], buf: &mut [u8]) -> Option<usize>
    ensures fits { IfSome result (λ n. n ≤ length buf.new) }
    ensures front { IfSome result (λ n. take n buf.new ≡ datagram.now) }
{
    if datagram.len() > buf.len() {
        return None;
    }
    buf[..datagram.len()].copy_from_slice(datagram);
    Some(datagram.len())
}

impl Link for Rough {
    ghost events = { λ l. Some l.events.items };

    ghost moments = { λ l. moments_of l.events.items };

    ghost faults = { λ _. 0 };

    ghost plan = { λ _. None };

    ghost same_rounds = { λ l es e. cc };

    #[tactic(auto, using(crate::proofs::Moments::sent_keeps))]
    fn send(&mut self, alloc: Global, from: Side, datagram: &[u8]) -> Result<(), LinkFault> {
        let sent = Bytes::copy_from_slice(alloc, datagram)?;
        self.events.try_reserve(1)?;
        let fate = self.fates.get(self.sent).copied().unwrap_or(Fate::Once);
        self.waiting.put(from, fate, &sent)?;
        self.sent = self.sent.saturating_add(1);
        let event = Event::Sent {
            side: from,
            datagram: sent,
        };
        self.events.push(event).unwrap();
        Ok(())
    }

    #[tactic(auto, using(crate::proofs::Moments::round_adds))]
    fn next_round(&mut self, _alloc: Global) -> Result<Moment, LinkFault> {
        let latest = latest(&self.events);
        if latest >= 1 << 61 {
            return Err(LinkFault::Memory);
        }
        let moment = latest + 1_000_000;
        self.events.try_reserve(1)?;
        self.events.push(Event::Round { moment }).unwrap();
        Ok(Moment(moment))
    }

    #[tactic(auto, using(crate::proofs::Moments::given_keeps, crate::proofs::Moments::dry_keeps))]
    fn take(
        &mut self,
        _alloc: Global,
        to: Side,
        buf: &mut [u8],
    ) -> Result<Option<usize>, LinkFault> {
        self.events.try_reserve(1)?;
        let Some(datagram) = self.waiting.pop(to) else {
            self.events.push(Event::Dry { side: to }).unwrap();
            return Ok(None);
        };
        let Some(len) = write_front(&datagram, buf) else {
            self.events.push(Event::Dry { side: to }).unwrap();
            return Ok(None);
        };
        let event = Event::Given { side: to, datagram };
        self.events.push(event).unwrap();
        Ok(Some(len))
    }
}
