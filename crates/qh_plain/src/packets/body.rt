ghost use Rattle.std.specs.Prelude.{◌≡◌, ◌≤◌, ◌<◌, ◌^◌, ◌%◌, ℕ, List, length, IfOk, IfSome, IfNone};
ghost use Rattle.qh_spec.specs.Datagram.{Packet as APacket, IsPacketContent};
ghost use Rattle.qh_spec.specs.Packet.{be_value};
ghost use Rattle.qh_plain.specs.Packets.{first_byte, AreParts, HasBody};

use super::frame::{Frame, read_frames};
use super::tag::Tag;
use qh_base::{Memory, Side, Space};
use std::alloc::Global;
use std::marker::Model;

/// What a packet says: its space, its sender and its whole number by its tag, and its frames.
#[derive(Drop)]
pub struct Packet {
    space: Space,
    sender: Side,
    number: u64,
    frames: Vec<Frame>,
}

impl Model for Packet {
    ghost use Rattle.qh_spec.specs.Datagram.{Packet as ThePacket};

    ghost Value = { ThePacket };

    ghost view = { λ p. record { space = p.space; sender = p.sender; number = p.number; frames = p.frames.items } };
}

impl Packet {
    /// Its packet number space.
    pub fn space(&self) -> Space
        ensures { result ≡ self.now.space }
    {
        self.space
    }

    /// The end that sent it.
    pub fn sender(&self) -> Side
        ensures { result ≡ self.now.sender }
    {
        self.sender
    }

    /// Its packet number.
    pub fn number(&self) -> u64
        ensures { result ≡ self.now.number }
    {
        self.number
    }

    /// Its frames in order.
    pub fn frames(&self) -> &[Frame]
        ensures { result.now ≡ self.now.frames }
    {
        &self.frames
    }

    /// The packet whose header has this first byte, and this body behind it.
    pub(super) fn read(
        alloc: Global,
        space: Space,
        first: u8,
        body: &[u8],
    ) -> Result<Option<Packet>, Memory>
        ensures found { IfOk result (λ r. IfSome r (λ p. HasBody space first body.now p)) }
        ensures none { IfOk result (λ r. IfNone r ((p : APacket) → HasBody space first body.now p → ⊥)) }
    {
        let Some(width) = number_width(space, first) else {
            return Ok(None);
        };
        let Some(parts) = Parts::read(width, body) else {
            return Ok(None);
        };
        let Some(packet) = Packet::read_parts(alloc, space, parts)? else {
            return Ok(None);
        };
        Ok(Some(packet))
    }

    fn read_parts(alloc: Global, space: Space, parts: Parts<'_>) -> Result<Option<Packet>, Memory>
        requires { length parts.number.now ≤ 4 }
        ensures found { IfOk result (λ r. IfSome r (λ p. IsPacketContent space parts.entry.number.now parts.entry.frames.now parts.entry.tag.now p)) }
        ensures none { IfOk result (λ r. IfNone r ((p : APacket) → IsPacketContent space parts.entry.number.now parts.entry.frames.now parts.entry.tag.now p → ⊥)) }
    {
        let Some(tag) = Tag::read(parts.tag) else {
            return Ok(None);
        };
        if tag.space != space {
            return Ok(None);
        }
        if value_of(parts.number) != low_bytes(tag.number, parts.number.len()) {
            return Ok(None);
        }
        let Some(frames) = read_frames(alloc, parts.frames)? else {
            return Ok(None);
        };
        Ok(Some(Packet {
            space,
            sender: tag.sender,
            number: tag.number,
            frames,
        }))
    }
}

/// What stands behind a header.
#[derive(Clone, Copy)]
struct Parts<'a> {
    number: &'a [u8],
    frames: &'a [u8],
    tag: &'a [u8],
}

impl<'a> Parts<'a> {
    /// The parts, where the number has so many bytes and the tag has 32.
    fn read(width: usize, body: &'a [u8]) -> Option<Parts<'a>>
        requires { width ≤ 4 }
        ensures found { IfSome result (λ p. AreParts width body.now p.number.now p.frames.now p.tag.now) }
        ensures none { IfNone result ((number frames tag : List ℕ) → AreParts width body.now number frames tag → ⊥) }
    {
        if body.len() < width + 32 {
            return None;
        }
        let (number, rest) = body.split_at(width);
        let (frames, tag) = rest.split_at(rest.len() - 32);
        Some(Parts {
            number,
            frames,
            tag,
        })
    }
}

/// How many bytes of the number follow a header with this first byte and reserved bits of 0, where it is one of the space.
fn number_width(space: Space, first: u8) -> Option<usize>
    ensures some { IfSome result (λ width. 0 < width) }
    ensures short { IfSome result (λ width. width ≤ 4) }
    ensures found { IfSome result (λ width. first ≡ first_byte space width) }
    ensures none { IfNone result ((width : ℕ) → 0 < width → width ≤ 4 → first ≡ first_byte space width → ⊥) }
{
    match (space, first) {
        (Space::Initial, 192..=195) => Some(first as usize - 191),
        (Space::Data, 64..=67) => Some(first as usize - 63),
        _ => None,
    }
}

/// The number that at most four bytes are in network order.
fn value_of(bytes: &[u8]) -> u64
    requires { length bytes.now ≤ 4 }
    ensures { result ≡ be_value bytes.now }
{
    let mut number = 0;
    for byte in bytes {
        number = number * 256 + u64::from(*byte);
    }
    number
}

/// What at most four bytes have of a number.
fn low_bytes(number: u64, count: usize) -> u64
    requires { count ≤ 4 }
    ensures { result ≡ number % (256 ^ count) }
{
    match count {
        0 => 0,
        1 => number % 256,
        2 => number % 65_536,
        3 => number % 16_777_216,
        _ => number % 4_294_967_296,
    }
}
