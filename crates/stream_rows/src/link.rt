//! The link between two ends: datagrams on their way, and what happens to which.
use bytes::Bytes;
use qh_base::{Memory, Moment, Side};
use row_text::RowFault;
use std::alloc::Global;

/// How long a turn takes, in nanoseconds.
pub(crate) const TURN: u64 = 10_000_000;

/// So many passes later than others comes a datagram that is late.
const LATE: u64 = 3;

/// What happens to a datagram.
#[derive(Clone, Copy)]
pub(crate) enum Fate {
    Lost,
    Twice,
    Late,
}

/// A datagram on its way to an end.
#[derive(Drop)]
pub(crate) struct Flight {
    pub(crate) to: Side,
    // So many passes go by before it comes.
    wait: u64,
    pub(crate) payload: Bytes,
}

/// The clock, and the datagrams on their way.
#[derive(Drop)]
pub(crate) struct Link {
    /// The moment.
    pub(crate) now: u64,
    /// How many turns were made.
    pub(crate) turns: u64,
    /// How many datagrams both ends sent.
    pub(crate) sent: u64,
    flights: Vec<Flight>,
    // Of the datagrams, counted from 0 in the order in which they are sent, some meet something.
    fates: Vec<(u64, Fate)>,
}

impl Link {
    pub(crate) fn new(alloc: Global) -> Link {
        Link {
            now: 0,
            turns: 0,
            sent: 0,
            flights: Vec::new(alloc),
            fates: Vec::new(alloc),
        }
    }

    pub(crate) fn moment(&self) -> Moment {
        Moment(self.now)
    }

    /// The datagram that is sent next but so many meets this.
    pub(crate) fn set_fate(&mut self, behind: u64, fate: Fate) -> Result<(), RowFault> {
        self.fates.push((self.sent.saturating_add(behind), fate))?;
        Ok(())
    }

    fn fate(&self) -> Option<Fate> {
        let mut found = None;
        for (number, fate) in self.fates.iter() {
            if *number == self.sent {
                found = Some(*fate);
            }
        }
        found
    }

    /// An end sends a datagram to the other.
    pub(crate) fn carry(&mut self, alloc: Global, to: Side, datagram: &[u8]) -> Result<(), Memory> {
        let fate = self.fate();
        self.sent = self.sent.saturating_add(1);
        match fate {
            None => self.push(alloc, to, 0, datagram),
            Some(Fate::Lost) => Ok(()),
            Some(Fate::Twice) => {
                self.push(alloc, to, 0, datagram)?;
                self.push(alloc, to, 0, datagram)
            }
            Some(Fate::Late) => self.push(alloc, to, LATE, datagram),
        }
    }

    fn push(&mut self, alloc: Global, to: Side, wait: u64, datagram: &[u8]) -> Result<(), Memory> {
        let payload = Bytes::copy_from_slice(alloc, datagram)?;
        self.flights.push(Flight { to, wait, payload })?;
        Ok(())
    }

    /// The datagrams that come now. The others come a pass later.
    pub(crate) fn arrivals(&mut self, alloc: Global) -> Result<Vec<Flight>, Memory> {
        let mut arrivals = Vec::new(alloc);
        let flights = std::mem::replace(&mut self.flights, Vec::new(alloc));
        for flight in flights {
            if flight.wait == 0 {
                arrivals.push(flight)?;
            } else {
                self.flights.push(sooner(flight))?;
            }
        }
        Ok(arrivals)
    }

    /// All that is on its way is lost. Answers how many datagrams that are.
    pub(crate) fn drop_all(&mut self) -> u64 {
        let count = self.flights.len();
        self.flights.clear();
        count as u64
    }
}

fn sooner(flight: Flight) -> Flight {
    Flight {
        to: flight.to,
        wait: flight.wait.saturating_sub(1),
        payload: flight.payload,
    }
}
