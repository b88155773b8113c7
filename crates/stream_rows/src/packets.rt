//! Packets that are made by hand, and packets as they are told.
use crate::answers::{put_form, put_named};
use qh_base::{ConnectionId, Side, Space};
use qh_core::{PlainSession, Session};
use row_text::RowFault;
use std::alloc::Global;

const KEY_ID: [u8; 8] = [0xd0, 0, 0, 0, 0, 0, 0, 0];

const CLIENT_ID: [u8; 4] = [0xc0, 0, 0, 1];

const SERVER_ID: [u8; 8] = [0x50, 0, 0, 0, 0, 0, 0, 2];

/// How many bytes a tag has.
pub(crate) const TAG_LEN: usize = 32;

/// The session of both ends.
pub(crate) fn session() -> Result<PlainSession, RowFault> {
    Ok(PlainSession::new(id_of(&KEY_ID)?, b"a.test")?)
}

/// The id in the packets that come to an end.
pub(crate) fn local_id(side: Side) -> &'static [u8] {
    match side {
        Side::Client => &CLIENT_ID,
        Side::Server => &SERVER_ID,
    }
}

/// These bytes as an id.
pub(crate) fn id_of(bytes: &[u8]) -> Result<ConnectionId, RowFault> {
    ConnectionId::new(bytes).ok_or(RowFault::Form)
}

/// The other end.
pub(crate) fn peer_of(side: Side) -> Side {
    match side {
        Side::Client => Side::Server,
        Side::Server => Side::Client,
    }
}

/// What a packet made by hand is made of.
#[derive(Clone, Copy)]
pub(crate) struct Packet<'a> {
    /// The end that it comes to.
    pub(crate) to: Side,
    pub(crate) number: u64,
    /// How many bytes of the number it bears.
    pub(crate) width: usize,
    pub(crate) frames: &'a [u8],
    /// The end that its tag names as its sender.
    pub(crate) sender: Side,
}

impl Packet<'_> {
    /// The datagram.
    pub(crate) fn datagram(&self, alloc: Global) -> Result<Vec<u8>, RowFault> {
        let mut datagram = Vec::new(alloc);
        self.put(&mut datagram)?;
        Ok(datagram)
    }

    // Appends the datagram.
    fn put(&self, out: &mut Vec<u8>) -> Result<(), RowFault> {
        let width = self.width.clamp(1, 4);
        out.push(0x3f + width as u8)?;
        out.extend_from_slice(local_id(self.to))?;
        out.extend_from_slice(&self.number.to_be_bytes()[8 - width..])?;
        out.extend_from_slice(self.frames)?;
        out.extend_from_slice(&tag(self.sender, self.number)?)?;
        Ok(())
    }
}

fn tag(sender: Side, number: u64) -> Result<[u8; TAG_LEN], RowFault> {
    let session = session()?;
    Ok(session.tag(sender, Space::Data, number))
}

/// How many bytes come before the frames of a packet to an end, where its number has four.
pub(crate) fn head_len(to: Side) -> usize {
    local_id(to).len().saturating_add(5)
}

/// Whether a packet to an end has a byte of its id at this place.
pub(crate) fn is_of_id(to: Side, place: usize) -> bool {
    0 < place && place <= local_id(to).len()
}

/// Appends the number and the frames of a datagram to an end; all its bytes where it isn't a packet as it has to be.
pub(crate) fn put_packet(
    alloc: Global,
    to: Side,
    datagram: &[u8],
    out: &mut Vec<u8>,
) -> Result<(), RowFault> {
    let frames = frames_of(to, datagram);
    let number = number_of(to, datagram);
    let packet = Packet {
        to,
        number,
        width: 4,
        frames,
        sender: peer_of(to),
    };
    if is_written(alloc, &packet, datagram)? {
        put_told(out, number, frames)
    } else {
        put_named(out, "another datagram ", datagram)
    }
}

// Whether a datagram is this packet.
fn is_written(alloc: Global, packet: &Packet<'_>, datagram: &[u8]) -> Result<bool, RowFault> {
    let expected = packet.datagram(alloc)?;
    Ok(expected.as_slice() == datagram)
}

/// Appends the number and the frames of a packet.
pub(crate) fn put_told(out: &mut Vec<u8>, number: u64, frames: &[u8]) -> Result<(), RowFault> {
    put_form(out, "packet # ", &[number])?;
    put_named(out, "", frames)
}

/// What stands between the head and the tag of a datagram.
pub(crate) fn frames_of(to: Side, datagram: &[u8]) -> &[u8] {
    let end = datagram.len().saturating_sub(TAG_LEN);
    datagram.get(head_len(to)..end).unwrap_or(&[])
}

// The four bytes before the frames, as a number.
fn number_of(to: Side, datagram: &[u8]) -> u64 {
    let end = head_len(to);
    let mut number = 0u64;
    for byte in datagram.get(end.saturating_sub(4)..end).unwrap_or(&[]) {
        number = number.wrapping_mul(256).wrapping_add(u64::from(*byte));
    }
    number
}
