//! Carries datagrams between the connections of both endpoints.
use crate::pair::Pair;
use crate::row::{MILLISECOND, Row};
use qh_base::{Side, Span};

// How long a round of a run is.
const ROUND: Span = Span(20 * MILLISECOND);

// The rounds of a run.
const ROUNDS: u32 = 20;

impl Pair {
    /// Carries datagrams between both ends for some rounds, in which attempts are accepted.
    pub(crate) fn run(&mut self, row: &mut Row<'_>) {
        for _round in 0..ROUNDS {
            self.turn(Side::Client, row);
            self.accept_last(row);
            self.turn(Side::Server, row);
            let now = self.now.plus(ROUND);
            self.advance(now, row);
        }
        row.put_count("client ", self.client.live());
        row.put_count(", server ", self.server.live());
    }

    // Each connection of an end sends all that it may, after its endpoint did what it asks.
    fn turn(&mut self, side: Side, row: &mut Row<'_>) {
        for place in 0..self.end(side).links.len() {
            let mut told = Row::new(row.alloc, "");
            self.end(side).put_told(place, &mut told);
            self.send_all(side, place, row);
        }
    }

    /// The server accepts the last attempt, if it waits.
    pub(crate) fn accept_last(&mut self, row: &mut Row<'_>) {
        let now = self.now;
        let place = self.server.attempts.len().saturating_sub(1);
        let mut told = Row::new(row.alloc, "");
        let mut buf = Vec::new(row.alloc);
        self.server.accept(now, place, None, &mut buf, &mut told);
    }
}
