//! Both ends, and the rows of all stories.
use crate::bulk::put_bulk;
use crate::connection_calls::made_retry;
use crate::connection_run::put_run;
use crate::datagrams::Datagrams;
use crate::end::End;
use crate::endpoint_calls::{ENDPOINT_CALLS, made_initial};
use crate::link::Link;
use crate::link_calls;
use crate::row::{MILLISECOND, Row, address_of, find};
use crate::settings::Settings;
use crate::tell::put_datagram;
use bytes::Bytes;
use qh_base::{Memory, Moment, Side};
use qh_conn::ConnectionEvent;
use row_text::RowFault;
use std::alloc::Global;
use std::mem;
use std::net::SocketAddr;

// The most datagrams that a connection sends at once.
const MANY: u32 = 10_000;

/// What the next rows are about.
#[derive(Clone, Copy)]
pub(crate) enum Story {
    /// One connection of each end, with no endpoint between them.
    Connections,
    /// Two endpoints, with the connections that they make.
    Endpoints,
}

/// Both ends, the moment, and the datagrams so far.
#[derive(Drop)]
pub(crate) struct Pair {
    story: Story,
    pub(crate) client: End,
    pub(crate) server: End,
    pub(crate) now: Moment,
    pub(crate) datagrams: Datagrams,
}

// The word of a row.
#[derive(Clone, Copy)]
enum Call {
    Of(Side),
    Tell(Story),
    Begin,
    Time,
    Run,
    Exchange,
    Origin,
    Retry,
    Try,
    Make,
    Bulk,
}

const CALLS: [(&str, Call); 13] = [
    ("client", Call::Of(Side::Client)),
    ("server", Call::Of(Side::Server)),
    ("connections", Call::Tell(Story::Connections)),
    ("endpoints", Call::Tell(Story::Endpoints)),
    ("begin", Call::Begin),
    ("time", Call::Time),
    ("run", Call::Run),
    ("exchange", Call::Exchange),
    ("origin", Call::Origin),
    ("retry", Call::Retry),
    ("try", Call::Try),
    ("make", Call::Make),
    ("bulk", Call::Bulk),
];

// The word of a row of one end, in each story.
#[derive(Clone, Copy)]
enum EndCall {
    Send,
    Give,
    Hand,
    Hear,
    HearMany,
    Events,
}

const END_CALLS: [(&str, EndCall); 6] = [
    ("send", EndCall::Send),
    ("give", EndCall::Give),
    ("hand", EndCall::Hand),
    ("hear", EndCall::Hear),
    ("hear-many", EndCall::HearMany),
    ("events", EndCall::Events),
];

impl Story {
    // The next word as the number of a connection. In a story of connections there is but one, which has no number.
    fn place(self, row: &mut Row<'_>) -> usize {
        match self {
            Story::Connections => 0,
            Story::Endpoints => row.number() as usize,
        }
    }

    // The next word as the address from which a datagram comes. In a story of connections it comes from the other end, and nothing is said.
    fn address(self, to: Side, row: &mut Row<'_>) -> SocketAddr {
        match self {
            Story::Connections => address_of(to.other()),
            Story::Endpoints => row.address(),
        }
    }
}

impl Pair {
    /// Fresh ends without connections, at the moment 0.
    pub(crate) fn new(alloc: Global, story: Story, settings: &Settings) -> Result<Pair, Memory> {
        let client = End::new(alloc, Side::Client, settings.of(Side::Client))?;
        match End::new(alloc, Side::Server, settings.of(Side::Server)) {
            Ok(server) => Ok(Pair {
                story,
                client,
                server,
                now: Moment(0),
                datagrams: Datagrams::new(alloc),
            }),
            Err(Memory) => {
                drop(client);
                Err(Memory)
            }
        }
    }

    pub(crate) fn end(&mut self, side: Side) -> &mut End {
        match side {
            Side::Client => &mut self.client,
            Side::Server => &mut self.server,
        }
    }

    /// In a story of connections that of an end.
    pub(crate) fn link(&mut self, side: Side) -> Option<&mut Link> {
        match self.story {
            Story::Connections => self.end(side).links.get_mut(0),
            Story::Endpoints => None,
        }
    }

    /// Answers a row.
    pub(crate) fn answer_row(&mut self, row: &mut Row<'_>) {
        let Some(call) = row.find(&CALLS) else {
            return;
        };
        match (call, self.story) {
            (Call::Of(side), _) => self.answer_end(side, row),
            (Call::Tell(story), _) | (Call::Begin, story) => {
                row.put("ok");
                self.restart(story, row);
            }
            (Call::Time, _) => {
                row.put("ok");
                let now = Moment(row.number().saturating_mul(MILLISECOND));
                self.advance(now, row);
            }
            (Call::Bulk, _) => put_bulk(row),
            (Call::Run, Story::Connections) => put_run(self, false, row),
            (Call::Exchange, Story::Connections) => put_run(self, true, row),
            (Call::Origin, Story::Connections) => self.set_origin(row),
            (Call::Retry, Story::Connections) => {
                let id = self.client.settings.own_id(Side::Client, row);
                self.datagrams.put_made(made_retry(&id, row), row);
            }
            (Call::Try, Story::Connections) => self.try_frames(row),
            (Call::Run, Story::Endpoints) => self.run(row),
            (Call::Make, Story::Endpoints) => self.datagrams.put_made(made_initial(row), row),
            _ => row.fail(RowFault::Form),
        }
    }

    /// SETTINGS: begins with fresh ends, and this story.
    pub(crate) fn restart(&mut self, story: Story, row: &mut Row<'_>) {
        match Pair::new(row.alloc, story, &Settings::read(row)) {
            Ok(pair) => drop(mem::replace(self, pair)),
            Err(Memory) => row.fail(RowFault::Memory),
        }
        if let Story::Connections = story {
            self.begin_both(row);
        }
    }

    /// Time advances to this moment: connections do what is due by now.
    pub(crate) fn advance(&mut self, now: Moment, row: &mut Row<'_>) {
        self.now = now;
        self.client.pass(now, row);
        self.server.pass(now, row);
    }

    // Answers a row of one end.
    fn answer_end(&mut self, side: Side, row: &mut Row<'_>) {
        let word = row.word();
        let story = self.story;
        if let Story::Endpoints = story
            && let Some(call) = find(&ENDPOINT_CALLS, word)
        {
            let now = self.now;
            let mut buf = Vec::new(row.alloc);
            self.end(side).answer(now, call, &mut buf, row);
            return self.datagrams.put_response(buf, row);
        }
        match find(&END_CALLS, word) {
            Some(EndCall::Send) => self.send(side, row),
            Some(EndCall::Give) => {
                let number = row.number() as usize;
                let from = row.address_or(side.other());
                if let Some(payload) = self.datagrams.copy(number, row) {
                    self.take(side, from, payload, row);
                }
            }
            Some(EndCall::Hand) => {
                let from = story.address(side, row);
                self.take(side, from, row.payload(), row);
            }
            Some(EndCall::Hear) => self.hear(side, row),
            Some(EndCall::HearMany) => self.hear_many(side, row),
            Some(EndCall::Events) => self.end(side).put_told(story.place(row), row),
            None => self.answer_link(side, word, row),
        }
    }

    // Answers a row of a connection.
    fn answer_link(&mut self, side: Side, word: &str, row: &mut Row<'_>) {
        let now = self.now;
        let place = self.story.place(row);
        match self.end(side).links.get_mut(place) {
            Some(link) => link_calls::answer(now, link, word, row),
            None => row.fail(RowFault::Form),
        }
    }
}

// Datagrams that go between both ends.
impl Pair {
    /// The next datagram that a connection sends, if there is one.
    pub(crate) fn transmit(
        &mut self,
        from: Side,
        place: usize,
        row: &mut Row<'_>,
    ) -> Option<Bytes> {
        let now = self.now;
        match self.end(from).links.get_mut(place) {
            Some(link) => link.transmit(now, row),
            None => {
                row.fail(RowFault::Form);
                None
            }
        }
    }

    /// A connection sends all that it may, which comes to the other end.
    pub(crate) fn send_all(&mut self, from: Side, place: usize, row: &mut Row<'_>) {
        for _datagram in 0..MANY {
            match self.transmit(from, place, row) {
                Some(payload) => self.deliver(from.other(), payload, row),
                None => break,
            }
        }
    }

    /// A datagram comes to an end from the other one, and nothing is told of it.
    pub(crate) fn deliver(&mut self, to: Side, payload: Bytes, row: &mut Row<'_>) {
        match self.story {
            Story::Connections => self.hand_in(to, payload, row),
            Story::Endpoints => {
                let mut told = Row::new(row.alloc, "");
                self.take(to, address_of(to.other()), payload, &mut told);
            }
        }
    }

    // A datagram comes to a connection itself.
    fn hand_in(&mut self, to: Side, payload: Bytes, row: &mut Row<'_>) {
        let event = ConnectionEvent::Datagram {
            now: self.now,
            remote: address_of(to.other()),
            payload,
        };
        self.end(to).hand_in(0, event, row);
    }

    /// A datagram comes to an end from this address: what its connection tells, or what becomes of it at its endpoint.
    pub(crate) fn take(&mut self, to: Side, from: SocketAddr, payload: Bytes, row: &mut Row<'_>) {
        match self.story {
            Story::Connections => {
                self.hand_in(to, payload, row);
                self.end(to).put_told(0, row);
            }
            Story::Endpoints => {
                let now = self.now;
                let mut buf = Vec::new(row.alloc);
                self.end(to).hand(now, from, payload, &mut buf, row);
                self.datagrams.put_response(buf, row);
            }
        }
    }

    // [CONNECTION]: the next datagram of a connection is kept: its number, its size, in a story of endpoints where it goes, and its packets.
    fn send(&mut self, from: Side, row: &mut Row<'_>) {
        let story = self.story;
        let place = story.place(row);
        let number = self.datagrams.len() as u64;
        let id_len = self.end(from.other()).settings.id as usize;
        let Some(payload) = self.transmit(from, place, row) else {
            return row.put("nothing");
        };
        if let Some(link) = self.end(from).links.get(place) {
            row.put_count("", number);
            row.put_count(": ", payload.len() as u64);
            if let Story::Endpoints = story {
                row.put_address(" to ", link.connection.remote_address());
            }
            put_datagram(link.connection.session(), from, id_len, &payload, row);
        }
        self.datagrams.keep(payload, row);
    }
}
