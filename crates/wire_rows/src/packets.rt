//! Packets with a short header, their tags and their numbers.
use crate::say::{Answer, mask, put, put_bool, put_content, put_hex, put_named, side};
use qh_base::ConnectionId;
use qh_packet::{OneRttPacket, PlainSession, Session, Side, Space, open_packet, put_header};
use qh_recovery::expand;
use row_text::{RowFault, Words, put_hex_number, put_number};
use std::alloc::Global;

/// Answers a row of a session. Whether its word is known.
pub(crate) fn answer(
    alloc: Global,
    session: &mut PlainSession,
    word: &str,
    words: &mut Words<'_>,
    out: &mut Vec<u8>,
) -> Result<bool, RowFault> {
    match word {
        "session" => begin(alloc, session, words)?,
        "learn" => learn(alloc, session, words)?,
        "rekey" => session.rekey(id(alloc, words)?),
        "tag" => return tag(session, words, out),
        "takes" => return takes(alloc, session, words, out),
        "open" => return open(alloc, session, words, out),
        "open-changed" => return open_changed(alloc, session, words, out),
        "open-cut" => return open_cut(alloc, session, words, out),
        _ => return answer_numbers(alloc, word, words, out),
    }
    tell_session(session, out)
}

// Answers a row of no session.
fn answer_numbers(
    alloc: Global,
    word: &str,
    words: &mut Words<'_>,
    out: &mut Vec<u8>,
) -> Result<bool, RowFault> {
    match word {
        "header" => header(alloc, out, words)?,
        "expand" => expanded(out, words)?,
        _ => return Ok(false),
    }
    Ok(true)
}

// The next word as a connection id.
fn id(alloc: Global, words: &mut Words<'_>) -> Result<ConnectionId, RowFault> {
    ConnectionId::new(&words.bytes(alloc)?).ok_or(RowFault::Form)
}

// The next word as a space.
fn space(words: &mut Words<'_>) -> Result<Space, RowFault> {
    match words.next() {
        "initial" => Ok(Space::Initial),
        "data" => Ok(Space::Data),
        _ => Err(RowFault::Form),
    }
}

fn begin(alloc: Global, session: &mut PlainSession, words: &mut Words<'_>) -> Answer {
    let key = id(alloc, words)?;
    let name = words.bytes(alloc)?;
    *session = new_session(key, &name)?;
    Ok(())
}

/// A session with this key id and this server name.
pub(crate) fn new_session(key: ConnectionId, name: &[u8]) -> Result<PlainSession, RowFault> {
    if name.len() > 255 {
        return Err(RowFault::Form);
    }
    Ok(PlainSession::new(key, name)?)
}

fn learn(alloc: Global, session: &mut PlainSession, words: &mut Words<'_>) -> Answer {
    let name = words.bytes(alloc)?;
    if name.len() > 255 {
        return Err(RowFault::Form);
    }
    session.learn(&name);
    Ok(())
}

fn tell_session(session: &PlainSession, out: &mut Vec<u8>) -> Result<bool, RowFault> {
    put(out, "key ")?;
    put_hex(out, session.key_id().bytes())?;
    put(out, " name ")?;
    put_content(out, session.server_name())?;
    match session.handshake_data() {
        Some(told) => {
            put(out, " tells ")?;
            put_content(out, told.server_name.bytes())?;
        }
        None => put(out, " tells nothing")?,
    }
    Ok(true)
}

fn tag(session: &PlainSession, words: &mut Words<'_>, out: &mut Vec<u8>) -> Result<bool, RowFault> {
    let tag = session.tag(side(words)?, space(words)?, words.number()?);
    put_hex(out, &tag)?;
    Ok(true)
}

fn takes(
    alloc: Global,
    session: &PlainSession,
    words: &mut Words<'_>,
    out: &mut Vec<u8>,
) -> Result<bool, RowFault> {
    let from = side(words)?;
    let space = space(words)?;
    let number = words.number()?;
    put_bool(out, session.open(from, space, number, &words.bytes(alloc)?))?;
    Ok(true)
}

// To an id of which length a packet goes, from whom it comes, and the number that is expected.
#[derive(Clone, Copy)]
struct Way {
    destination: ConnectionId,
    sender: Side,
    expected: u64,
}

fn read_way(alloc: Global, words: &mut Words<'_>) -> Result<Way, RowFault> {
    let destination = id(alloc, words)?;
    let sender = side(words)?;
    let expected = words.number()?;
    Ok(Way {
        destination,
        sender,
        expected,
    })
}

fn opened<'a>(session: &PlainSession, bytes: &'a [u8], way: &Way) -> Option<OneRttPacket<'a>> {
    let expected = way.expected.min(1 << 62);
    open_packet(session, bytes, way.destination.len(), way.sender, expected)
}

fn open(
    alloc: Global,
    session: &PlainSession,
    words: &mut Words<'_>,
    out: &mut Vec<u8>,
) -> Result<bool, RowFault> {
    let way = read_way(alloc, words)?;
    let bytes = words.bytes(alloc)?;
    match opened(session, &bytes, &way) {
        Some(packet) => {
            put(out, "packet ")?;
            put_hex_number(out, packet.number)?;
            put(out, " frames ")?;
            put_hex(out, packet.frames)?;
        }
        None => put(out, "none")?,
    }
    Ok(true)
}

// The places at which the packet may have these bits changed.
fn open_changed(
    alloc: Global,
    session: &PlainSession,
    words: &mut Words<'_>,
    out: &mut Vec<u8>,
) -> Result<bool, RowFault> {
    let mask = mask(words)?;
    let way = read_way(alloc, words)?;
    let mut bytes = words.bytes(alloc)?;
    put(out, "taken at")?;
    for place in 0..bytes.len() {
        flip(&mut bytes, place, mask);
        if opened(session, &bytes, &way).is_some() {
            put_named(out, "", place as u64)?;
        }
        flip(&mut bytes, place, mask);
    }
    Ok(true)
}

/// Changes these bits of a byte.
pub(crate) fn flip(bytes: &mut Vec<u8>, place: usize, mask: u8) {
    if let Some(byte) = bytes.get_mut(place) {
        *byte ^= mask;
    }
}

// The lengths to which the packet may be cut.
fn open_cut(
    alloc: Global,
    session: &PlainSession,
    words: &mut Words<'_>,
    out: &mut Vec<u8>,
) -> Result<bool, RowFault> {
    let way = read_way(alloc, words)?;
    let bytes = words.bytes(alloc)?;
    put(out, "taken at")?;
    for length in 0..bytes.len() {
        let front = bytes.get(..length).unwrap_or(&[]);
        if opened(session, front, &way).is_some() {
            put_named(out, "", length as u64)?;
        }
    }
    Ok(true)
}

// Writes the header of a packet.
fn header(alloc: Global, out: &mut Vec<u8>, words: &mut Words<'_>) -> Answer {
    let destination = id(alloc, words)?;
    let mut bytes = Vec::new(alloc);
    put_header(&mut bytes, &destination, words.number()?)?;
    put_hex(out, &bytes)
}

// The number that low bytes mean.
fn expanded(out: &mut Vec<u8>, words: &mut Words<'_>) -> Answer {
    let expected = words.number()?;
    let low = words.number()?;
    let number = match words.number()? {
        1 if low < 1 << 8 => expand(expected.min(1 << 62), low, 1),
        2 if low < 1 << 16 => expand(expected.min(1 << 62), low, 2),
        3 if low < 1 << 24 => expand(expected.min(1 << 62), low, 3),
        4 if low < 1 << 32 => expand(expected.min(1 << 62), low, 4),
        _ => return Err(RowFault::Form),
    };
    put_hex_number(out, number)?;
    Ok(())
}
