//! Two ends of a connection with a link between them.
use crate::answers::{find, put_either, put_form, put_maybe, put_ok, put_reason, put_text};
use crate::calls::{ConnectionEnd, StreamCalls};
use crate::link::{Fate, Link, TURN};
use crate::packets::{
    Packet, TAG_LEN, head_len, id_of, is_of_id, local_id, peer_of, put_packet, session,
};
use crate::settings::{Settings, varint_of};
use bytes::Bytes;
use qh_base::{ConnectionError, ConnectionId, FourTuple, Memory, Moment, Reason, Side};
use qh_core::{ConnectionEvent, EndpointEvent, PlainSession};
use row_text::{RowFault, Words};
use std::alloc::Global;
use std::net::{IpAddr, Ipv4Addr, SocketAddr};

// So many datagrams are sent at most at once, and so many timers run one after another.
const MANY: u32 = 10_000;

// The word of a row of the link.
#[derive(Clone, Copy)]
enum LinkCall {
    At,
    Pass,
    Turn,
    Turns,
    Drop,
    Link,
    Lose,
    Twice,
    Late,
}

const LINK_CALLS: [(&str, LinkCall); 9] = [
    ("at", LinkCall::At),
    ("pass", LinkCall::Pass),
    ("turn", LinkCall::Turn),
    ("turns", LinkCall::Turns),
    ("drop", LinkCall::Drop),
    ("link", LinkCall::Link),
    ("lose", LinkCall::Lose),
    ("twice", LinkCall::Twice),
    ("late", LinkCall::Late),
];

// The word of a row of an end that isn't an application's.
#[derive(Clone, Copy)]
enum EndCall {
    Hear,
    HearForeign,
    Datagram,
    HearOthers,
    Send,
    SendAll,
    Due,
    Timer,
    RunOut,
    Close,
    CloseEvent,
    State,
    Stats,
    Recovery,
    Window,
    Threshold,
    Rtt,
    Endpoint,
}

const END_CALLS: [(&str, EndCall); 18] = [
    ("hear", EndCall::Hear),
    ("hear-foreign", EndCall::HearForeign),
    ("datagram", EndCall::Datagram),
    ("hear-others", EndCall::HearOthers),
    ("send", EndCall::Send),
    ("send-all", EndCall::SendAll),
    ("due", EndCall::Due),
    ("timer", EndCall::Timer),
    ("run-out", EndCall::RunOut),
    ("close", EndCall::Close),
    ("close-event", EndCall::CloseEvent),
    ("state", EndCall::State),
    ("stats", EndCall::Stats),
    ("recovery", EndCall::Recovery),
    ("window", EndCall::Window),
    ("threshold", EndCall::Threshold),
    ("rtt", EndCall::Rtt),
    ("endpoint", EndCall::Endpoint),
];

/// Both ends of a connection, and the link.
#[derive(Drop)]
pub(crate) struct Pair {
    pub(crate) client: ConnectionEnd,
    pub(crate) server: ConnectionEnd,
    pub(crate) link: Link,
}

// What an end is made of, but for its limits.
#[derive(Drop)]
struct Identity {
    side: Side,
    session: PlainSession,
    local: ConnectionId,
    remote: ConnectionId,
}

fn identity_of(side: Side) -> Result<Identity, RowFault> {
    Ok(Identity {
        side,
        session: session()?,
        local: id_of(local_id(side))?,
        remote: id_of(local_id(peer_of(side)))?,
    })
}

// One end, at the moment 0.
fn end(alloc: Global, settings: &Settings, identity: Identity) -> ConnectionEnd {
    let addresses = FourTuple {
        remote: address(peer_of(identity.side)),
        local_ip: None,
    };
    ConnectionEnd::new(
        alloc,
        settings.config(),
        identity.side,
        identity.session,
        identity.local,
        identity.remote,
        addresses,
    )
}

// Where an end is.
fn address(side: Side) -> SocketAddr {
    let last = match side {
        Side::Client => 1,
        Side::Server => 2,
    };
    SocketAddr::new(IpAddr::V4(Ipv4Addr::new(10, 0, 0, last)), 443)
}

impl Pair {
    pub(crate) fn new(alloc: Global, settings: &Settings) -> Result<Pair, RowFault> {
        let client = identity_of(Side::Client)?;
        let server = identity_of(Side::Server)?;
        Ok(Pair {
            client: end(alloc, settings, client),
            server: end(alloc, settings, server),
            link: Link::new(alloc),
        })
    }

    pub(crate) fn end(&mut self, side: Side) -> &mut ConnectionEnd {
        match side {
            Side::Client => &mut self.client,
            Side::Server => &mut self.server,
        }
    }

    /// Answers a row of the link, if it is one. Whether it is.
    pub(crate) fn answer(
        &mut self,
        alloc: Global,
        word: &str,
        words: &mut Words<'_>,
        out: &mut Vec<u8>,
    ) -> Result<bool, RowFault> {
        let answered = match find(&LINK_CALLS, word) {
            Some(LinkCall::At) => self.set_clock(words, out),
            Some(LinkCall::Pass) => self.put_pass(alloc, out),
            Some(LinkCall::Turn) => self.put_turns(alloc, 1, out),
            Some(LinkCall::Turns) => self.put_turns(alloc, words.number()?, out),
            Some(LinkCall::Drop) => put_datagrams(out, self.link.drop_all()),
            Some(LinkCall::Link) => self.put_link(out),
            Some(LinkCall::Lose) => self.set_fate(Fate::Lost, words, out),
            Some(LinkCall::Twice) => self.set_fate(Fate::Twice, words, out),
            Some(LinkCall::Late) => self.set_fate(Fate::Late, words, out),
            None => return Ok(false),
        };
        answered?;
        Ok(true)
    }

    fn set_clock(&mut self, words: &mut Words<'_>, out: &mut Vec<u8>) -> Result<(), RowFault> {
        self.link.now = words.number()?;
        put_ok(out)
    }

    fn put_pass(&mut self, alloc: Global, out: &mut Vec<u8>) -> Result<(), RowFault> {
        let count = self.pass(alloc)?;
        put_datagrams(out, count)
    }

    // Says what happens to a datagram.
    fn set_fate(
        &mut self,
        fate: Fate,
        words: &mut Words<'_>,
        out: &mut Vec<u8>,
    ) -> Result<(), RowFault> {
        self.link.set_fate(words.number()?, fate)?;
        put_ok(out)
    }

    fn put_link(&self, out: &mut Vec<u8>) -> Result<(), RowFault> {
        put_form(
            out,
            "turns # datagrams #",
            &[self.link.turns, self.link.sent],
        )
    }

    // Makes turns, and tells how many datagrams are sent in them.
    fn put_turns(&mut self, alloc: Global, count: u64, out: &mut Vec<u8>) -> Result<(), RowFault> {
        let before = self.link.sent;
        for _ in 0..count {
            self.turn(alloc)?;
        }
        put_datagrams(out, self.link.sent.saturating_sub(before))
    }

    /// Time goes on: what is on its way comes, what is due is done, and what waits is sent.
    pub(crate) fn turn(&mut self, alloc: Global) -> Result<(), RowFault> {
        self.link.now = self.link.now.saturating_add(TURN);
        self.link.turns = self.link.turns.saturating_add(1);
        self.pass(alloc)?;
        let now = self.link.moment();
        run_timer(&mut self.client, now);
        run_timer(&mut self.server, now);
        self.send_from_both(alloc)
    }

    fn send_from_both(&mut self, alloc: Global) -> Result<(), RowFault> {
        self.send_all(alloc, Side::Client)?;
        self.send_all(alloc, Side::Server)?;
        Ok(())
    }

    // What is on its way comes. Answers how many datagrams.
    fn pass(&mut self, alloc: Global) -> Result<u64, RowFault> {
        let mut count = 0u64;
        for flight in self.link.arrivals(alloc)? {
            self.hand_in(flight.to, flight.payload)?;
            count = count.saturating_add(1);
        }
        Ok(count)
    }

    // A datagram comes to an end.
    fn hand_in(&mut self, to: Side, payload: Bytes) -> Result<(), Memory> {
        let event = ConnectionEvent::Datagram {
            now: self.link.moment(),
            remote: address(peer_of(to)),
            payload,
        };
        self.end(to).handle_event(event)
    }

    // An end sends all that it may now. Answers how many datagrams.
    fn send_all(&mut self, alloc: Global, from: Side) -> Result<u64, RowFault> {
        let mut datagram = Vec::new(alloc);
        let mut count = 0u64;
        for _ in 0..MANY {
            datagram.clear();
            if !self.send(alloc, from, &mut datagram)? {
                break;
            }
            count = count.saturating_add(1);
        }
        Ok(count)
    }

    // An end sends one datagram, which is appended, where it has something to send. Whether it has.
    fn send(
        &mut self,
        alloc: Global,
        from: Side,
        datagram: &mut Vec<u8>,
    ) -> Result<bool, RowFault> {
        let now = self.link.moment();
        if self.end(from).poll_transmit(now, datagram)?.is_none() {
            return Ok(false);
        }
        self.link.carry(alloc, peer_of(from), datagram)?;
        Ok(true)
    }

    /// Answers a row of an end of a connection that isn't an application's, if it is one. Whether it is.
    pub(crate) fn answer_end(
        &mut self,
        alloc: Global,
        side: Side,
        word: &str,
        words: &mut Words<'_>,
        out: &mut Vec<u8>,
    ) -> Result<bool, RowFault> {
        match find(&END_CALLS, word) {
            Some(call) => self.answer_call(alloc, side, call, words, out)?,
            None => return Ok(false),
        }
        Ok(true)
    }

    fn answer_call(
        &mut self,
        alloc: Global,
        side: Side,
        call: EndCall,
        words: &mut Words<'_>,
        out: &mut Vec<u8>,
    ) -> Result<(), RowFault> {
        match call {
            EndCall::Hear => self.hear(alloc, side, peer_of(side), words, out),
            EndCall::HearForeign => self.hear(alloc, side, side, words, out),
            EndCall::Datagram => self.take(alloc, side, words, out),
            EndCall::HearOthers => self.hear_others(alloc, side, words, out),
            EndCall::Send => self.put_sent(alloc, side, out),
            EndCall::SendAll => self.put_all_sent(alloc, side, out),
            EndCall::Due => self.put_due(side, out),
            EndCall::RunOut => self.run_out(alloc, side, out),
            EndCall::Close => self.close(side, words, out),
            EndCall::CloseEvent => self.close_event(side, words, out),
            _ => ask(self.end(side), call, out),
        }
    }

    // A datagram comes, of the row's bytes.
    fn take(
        &mut self,
        alloc: Global,
        side: Side,
        words: &mut Words<'_>,
        out: &mut Vec<u8>,
    ) -> Result<(), RowFault> {
        let bytes = words.bytes(alloc)?;
        self.hand_in_copy(alloc, side, &bytes)?;
        put_state(self.end(side), out)
    }

    // A datagram comes to an end, of these bytes.
    fn hand_in_copy(&mut self, alloc: Global, to: Side, bytes: &[u8]) -> Result<(), RowFault> {
        let payload = Bytes::copy_from_slice(alloc, bytes)?;
        self.hand_in(to, payload)?;
        Ok(())
    }

    // A packet comes, of a number, a width of it, and frames.
    fn hear(
        &mut self,
        alloc: Global,
        to: Side,
        sender: Side,
        words: &mut Words<'_>,
        out: &mut Vec<u8>,
    ) -> Result<(), RowFault> {
        let Ok(number) = words.number() else {
            return Err(RowFault::Form);
        };
        let width = words.number()? as usize;
        let frames = words.bytes(alloc)?;
        self.hear_packet(
            alloc,
            Packet {
                to,
                number,
                width,
                frames: &frames,
                sender,
            },
        )?;
        put_state(self.end(to), out)
    }

    fn hear_packet(&mut self, alloc: Global, packet: Packet<'_>) -> Result<(), RowFault> {
        let datagram = packet.datagram(alloc)?;
        self.hand_in_copy(alloc, packet.to, &datagram)
    }

    // A packet comes with each byte changed in turn, and cut before each, but for the bytes of its frames, which no tag covers. The bytes of
    // the id aren't changed: the end may have another one of its length.
    fn hear_others(
        &mut self,
        alloc: Global,
        to: Side,
        words: &mut Words<'_>,
        out: &mut Vec<u8>,
    ) -> Result<(), RowFault> {
        let Ok(number) = words.number() else {
            return Err(RowFault::Form);
        };
        let frames = words.bytes(alloc)?;
        let count = self.hear_packet_others(
            alloc,
            Packet {
                to,
                number,
                width: 4,
                frames: &frames,
                sender: peer_of(to),
            },
        )?;
        put_datagrams(out, count)
    }

    fn hear_packet_others(&mut self, alloc: Global, packet: Packet<'_>) -> Result<u64, RowFault> {
        let datagram = packet.datagram(alloc)?;
        self.hear_each_other(alloc, packet.to, &datagram)
    }

    // Answers how many datagrams come that differ from this one.
    fn hear_each_other(
        &mut self,
        alloc: Global,
        to: Side,
        datagram: &[u8],
    ) -> Result<u64, RowFault> {
        let mut count = 0u64;
        for place in 0..datagram.len() {
            if is_of_id(to, place) {
                self.hand_in_copy(alloc, to, &datagram[..place])?;
                count = count.saturating_add(1);
            } else if place < head_len(to) || place.saturating_add(TAG_LEN) >= datagram.len() {
                self.hear_other(alloc, to, datagram, place)?;
                count = count.saturating_add(2);
            }
        }
        Ok(count)
    }

    // A datagram comes with one byte changed, and then the same one cut before that byte.
    fn hear_other(
        &mut self,
        alloc: Global,
        to: Side,
        datagram: &[u8],
        place: usize,
    ) -> Result<(), RowFault> {
        let mut other = changed(alloc, datagram, place)?;
        self.hand_in_copy(alloc, to, &other)?;
        other.truncate(place);
        self.hand_in_copy(alloc, to, &other)
    }

    fn put_due(&mut self, side: Side, out: &mut Vec<u8>) -> Result<(), RowFault> {
        let now = self.link.moment();
        put_either(out, run_timer(self.end(side), now), "done", "nothing")
    }

    fn put_all_sent(
        &mut self,
        alloc: Global,
        side: Side,
        out: &mut Vec<u8>,
    ) -> Result<(), RowFault> {
        let count = self.send_all(alloc, side)?;
        put_datagrams(out, count)
    }

    // An end sends one datagram, which is told.
    fn put_sent(&mut self, alloc: Global, from: Side, out: &mut Vec<u8>) -> Result<(), RowFault> {
        let mut datagram = Vec::new(alloc);
        self.put_next(alloc, from, &mut datagram, out)
    }

    fn put_next(
        &mut self,
        alloc: Global,
        from: Side,
        datagram: &mut Vec<u8>,
        out: &mut Vec<u8>,
    ) -> Result<(), RowFault> {
        if self.send(alloc, from, datagram)? {
            put_packet(alloc, peer_of(from), datagram, out)
        } else {
            put_text(out, "nothing")
        }
    }

    // Time goes by to whatever is due at an end, until nothing is. What it sends is lost.
    fn run_out(&mut self, alloc: Global, side: Side, out: &mut Vec<u8>) -> Result<(), RowFault> {
        let mut last = None;
        for _ in 0..MANY {
            match run_due(alloc, self.end(side))? {
                Some(due) => last = Some(due),
                None => break,
            }
        }
        put_moment(out, last)
    }

    // The application closes.
    fn close(
        &mut self,
        side: Side,
        words: &mut Words<'_>,
        out: &mut Vec<u8>,
    ) -> Result<(), RowFault> {
        let Ok(error_code) = varint_of(words) else {
            return Err(RowFault::Form);
        };
        let reason = Reason::of(words.rest().as_bytes());
        let now = self.link.moment();
        self.end(side).close(now, error_code, reason);
        put_state(self.end(side), out)
    }

    // The application closes by an event.
    fn close_event(
        &mut self,
        side: Side,
        words: &mut Words<'_>,
        out: &mut Vec<u8>,
    ) -> Result<(), RowFault> {
        let Ok(error_code) = varint_of(words) else {
            return Err(RowFault::Form);
        };
        let event = ConnectionEvent::Close {
            now: self.link.moment(),
            error_code,
            reason: Reason::of(words.rest().as_bytes()),
        };
        self.end(side).handle_event(event)?;
        put_state(self.end(side), out)
    }
}

// A datagram with one byte changed.
fn changed(alloc: Global, datagram: &[u8], place: usize) -> Result<Vec<u8>, RowFault> {
    let mut other = datagram.to_vec(alloc)?;
    if let Some(byte) = other.get_mut(place) {
        *byte ^= 0x10;
    }
    Ok(other)
}

// Time goes by to what is due next at an end, and what it then sends is lost. Answers that moment.
fn run_due(alloc: Global, end: &mut ConnectionEnd) -> Result<Option<Moment>, RowFault> {
    let Some(due) = end.poll_timeout() else {
        return Ok(None);
    };
    end.handle_timeout(due);
    let mut datagram = Vec::new(alloc);
    end.poll_transmit(due, &mut datagram)?;
    Ok(Some(due))
}

fn put_datagrams(out: &mut Vec<u8>, count: u64) -> Result<(), RowFault> {
    put_form(out, "# datagrams", &[count])
}

fn put_moment(out: &mut Vec<u8>, moment: Option<Moment>) -> Result<(), RowFault> {
    put_maybe(out, moment.map(|moment| moment.0))
}

// Does what is due at an end. Whether something is.
fn run_timer(end: &mut ConnectionEnd, now: Moment) -> bool {
    match end.poll_timeout() {
        Some(due) if due <= now => {
            end.handle_timeout(now);
            true
        }
        _ => false,
    }
}

// The rows that ask for something of an end.
fn ask(end: &mut ConnectionEnd, call: EndCall, out: &mut Vec<u8>) -> Result<(), RowFault> {
    match call {
        EndCall::Timer => put_moment(out, end.poll_timeout()),
        EndCall::State => put_state(end, out),
        EndCall::Stats => put_stats(end, out),
        EndCall::Recovery => put_recovery(end, out),
        EndCall::Window => put_form(out, "#", &[end.congestion_state().congestion_window]),
        EndCall::Threshold => put_maybe(out, end.congestion_state().ssthresh),
        EndCall::Rtt => put_form(out, "smoothed # least #", &[end.rtt().0, end.min_rtt().0]),
        _ => put_endpoint_event(end, out),
    }
}

fn put_endpoint_event(end: &mut ConnectionEnd, out: &mut Vec<u8>) -> Result<(), RowFault> {
    match end.poll_endpoint_events() {
        Some(EndpointEvent::Drained) => put_text(out, "drained"),
        None => put_text(out, "none"),
    }
}

// Appends how far an end is, and why it is lost.
fn put_state(end: &ConnectionEnd, out: &mut Vec<u8>) -> Result<(), RowFault> {
    let state = match (end.is_closed(), end.is_drained()) {
        (false, false) => "open",
        (true, false) => "closed",
        (_, true) => "drained",
    };
    put_text(out, state)?;
    match &end.close_reason() {
        Some(reason) => put_close_reason(out, reason),
        None => Ok(()),
    }
}

fn put_close_reason(out: &mut Vec<u8>, reason: &ConnectionError) -> Result<(), RowFault> {
    put_text(out, ": ")?;
    put_reason(out, reason)
}

fn put_stats(end: &ConnectionEnd, out: &mut Vec<u8>) -> Result<(), RowFault> {
    let stats = end.stats();
    put_form(
        out,
        "sent # # received # #",
        &[
            stats.datagrams_sent,
            stats.bytes_sent,
            stats.datagrams_received,
            stats.bytes_received,
        ],
    )
}

fn put_recovery(end: &ConnectionEnd, out: &mut Vec<u8>) -> Result<(), RowFault> {
    let stats = end.stats();
    put_form(out, "lost # probes #", &[stats.packets_lost, stats.probes])
}
