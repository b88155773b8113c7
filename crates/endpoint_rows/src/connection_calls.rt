//! Rows of stories of connections: fresh connections, and packets that are made by hand.
use crate::connection_run::put_run;
use crate::link::Link;
use crate::made::{Parts, write_data, write_initial};
use crate::pair::{Pair, Story};
use crate::row::{Row, SIDES, address_of};
use qh_base::{ConnectionId, Memory, Side, Space};
use qh_packet::put_retry;
use row_text::RowFault;

// The id that a client chooses for its server.
const ORIGINAL: [u8; 8] = [0xd0, 0xd1, 0xd2, 0xd3, 0xd4, 0xd5, 0xd6, 0xd7];

// The `run` by which ends are connected.
const CONNECTING: &str = "20";

// The number of the packet that `try` makes.
const TRIED: u64 = 100;

const SPACES: [(&str, Space); 2] = [("initial", Space::Initial), ("data", Space::Data)];

// Whether a client's address is validated.
const VALIDATED: [(&str, bool); 2] = [("validated", true), ("unknown", false)];

fn original_id() -> ConnectionId {
    ConnectionId::new(&ORIGINAL).unwrap()
}

impl Pair {
    /// A fresh connection of each end.
    pub(crate) fn begin_both(&mut self, row: &mut Row<'_>) {
        self.begin(Side::Client, original_id(), row);
        self.begin(Side::Server, original_id(), row);
    }

    // A fresh connection of an end, whose tags are made of this id.
    fn begin(&mut self, side: Side, key: ConnectionId, row: &mut Row<'_>) {
        let client = self.client.settings.own_id(Side::Client, row);
        let server = self.server.settings.own_id(Side::Server, row);
        let (local, remote) = match side {
            Side::Client => (client, key),
            Side::Server => (server, client),
        };
        let now = self.now;
        let end = self.end(side);
        drop(end.links.pop());
        match Link::begin(row.alloc, side, &end.settings, key, local, remote, now) {
            Ok(link) => end.keep(link, row),
            Err(Memory) => row.fail(RowFault::Memory),
        }
    }

    /// RETRY|none validated|unknown: begins with a fresh server, whose client got a Retry packet from this id, or none.
    pub(crate) fn set_origin(&mut self, row: &mut Row<'_>) {
        row.put("ok");
        let original = original_id();
        let retry = id_or_none(row);
        let is_validated = row.find(&VALIDATED).unwrap_or(false);
        let key = match &retry {
            Some(id) => *id,
            None => original,
        };
        self.begin(Side::Server, key, row);
        if let Some(link) = self.link(Side::Server) {
            link.set_origin(original, retry, is_validated, row);
        }
    }

    /// initial|data NUMBER FRAMES ..: a datagram of packets with the peer's tags comes.
    pub(crate) fn hear(&mut self, to: Side, row: &mut Row<'_>) {
        let mut bytes = Vec::new(row.alloc);
        for _packet in 0..u64::MAX {
            if row.is_at_end() {
                break;
            }
            let space = row.find(&SPACES).unwrap_or(Space::Data);
            let number = row.number();
            let frames = row.bytes();
            self.write_packet(to.other(), space, number, &frames, &mut bytes, row);
        }
        let payload = row.owned(bytes);
        self.take(to, address_of(to.other()), payload, row);
    }

    /// COUNT initial|data NUMBER FRAMES: that many packets with these frames come, numbered from this number on.
    pub(crate) fn hear_many(&mut self, to: Side, row: &mut Row<'_>) {
        let count = row.number();
        let space = row.find(&SPACES).unwrap_or(Space::Data);
        let first = row.number();
        let frames = row.bytes();
        for place in 0..count {
            self.hear_one(to, space, first.saturating_add(place), &frames, row);
        }
        self.end(to).put_told(0, row);
    }

    // A packet with the peer's tag comes.
    fn hear_one(&mut self, to: Side, space: Space, number: u64, frames: &[u8], row: &mut Row<'_>) {
        let mut bytes = Vec::new(row.alloc);
        self.write_packet(to.other(), space, number, frames, &mut bytes, row);
        let payload = row.owned(bytes);
        self.deliver(to, payload, row);
    }

    // Appends a packet with these frames and the tag of an end.
    fn write_packet(
        &mut self,
        from: Side,
        space: Space,
        number: u64,
        frames: &[u8],
        bytes: &mut Vec<u8>,
        row: &mut Row<'_>,
    ) {
        let to = from.other();
        let destination = self.end(to).settings.own_id(to, row);
        let source = self.end(from).settings.own_id(from, row);
        let Some(link) = self.link(from) else {
            return row.fail(RowFault::Form);
        };
        let parts = Parts {
            destination,
            source,
            number,
            size: 0,
            tag: link.tag(space, number),
        };
        match space {
            Space::Initial => write_initial(bytes, &parts, &[], frames, row),
            Space::Data => write_data(bytes, &parts, frames, row),
        }
    }

    /// SIDE SPACE FRAMES [SETTINGS]: a packet with these frames comes to a fresh end, which is connected if the space is `data`.
    pub(crate) fn try_frames(&mut self, row: &mut Row<'_>) {
        let to = row.find(&SIDES).unwrap_or(Side::Client);
        let space = row.find(&SPACES).unwrap_or(Space::Data);
        let frames = row.bytes();
        self.restart(Story::Connections, row);
        if let Space::Data = space {
            let mut told = Row::new(row.alloc, CONNECTING);
            put_run(self, false, &mut told);
            self.end(to).put_told(0, &mut told);
        }
        self.hear_one(to, space, TRIED, &frames, row);
        self.end(to).put_told(0, row);
    }
}

// The next word as a connection id, if it isn't `none`.
fn id_or_none(row: &mut Row<'_>) -> Option<ConnectionId> {
    let word = row.word();
    if word == "none" {
        return None;
    }
    let mut named = Row::new(row.alloc, word);
    let id = named.id();
    row.fail_as(&named);
    Some(id)
}

/// RETRY TOKEN: a Retry packet to a client with this id. Its token may not be empty, and its source may not be the id that the client chose.
pub(crate) fn made_retry(destination: &ConnectionId, row: &mut Row<'_>) -> Vec<u8> {
    let original = original_id();
    let source = row.id();
    let token = row.bytes();
    let mut bytes = Vec::new(row.alloc);
    if token.is_empty() || source.bytes() == original.bytes() {
        row.fail(RowFault::Form);
    } else {
        row.note(put_retry(&mut bytes, destination, &source, &token, &original));
    }
    bytes
}
