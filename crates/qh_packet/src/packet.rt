ghost use Rattle.std.specs.Prelude.{◌≡◌, ◌+◌, ◌<◌, ◌≤◌, ◌^◌, ◌*◌, ◌++◌, ℕ, List, None, length, OnOk, OnErr, IfSome, IfNone};
ghost use Rattle.qh_spec.specs.Datagram.{Packet, HasPacket};
ghost use Rattle.qh_spec.specs.Packet.{ShortPacket as PlainPacket, IsShortPacket, short_packet, be_value};
ghost use Rattle.qh_spec.specs.QuicFrames.{QuicFrame, AreQuicFrames};
ghost use Rattle.qh_spec.specs.declared.sides.Space.TheVariants.{Data};
ghost use Rattle.qh_packet.specs.Packet.{IsOpened, IsPacketOf, header_bytes, short_of};
ghost use Rattle.qh_packet.specs.View.{packet_of};

use crate::session::Session;
use qh_base::{ConnectionId, Memory, Side, Space};
use qh_recovery::expand;

/// How many bytes a tag has.
pub const TAG_LEN: usize = 32;

/// A 1-RTT packet whose tag was accepted.
#[derive(Clone, Copy)]
pub struct OneRttPacket<'a> {
    /// Its whole number.
    pub number: u64,
    /// The bytes of its frames.
    pub frames: &'a [u8],
}

/// Appends the header of a 1-RTT packet to an end with this connection id, with four bytes of its number (RFC 9000, section
/// 17.3.1), or nothing. Its frames and its tag have to follow.
pub fn put_header(out: &mut Vec<u8>, destination: &ConnectionId, number: u64) -> Result<(), Memory>
    ensures ok { OnOk result (out.new.items ≡ out.old.items ++ header_bytes destination.now number) }
    ensures err { OnErr result (out.new.items ≡ out.old.items) }
{
    let id = destination.bytes();
    out.try_reserve(5 + id.len())?;
    out.push(0x43)?;
    out.extend_from_slice(id)?;
    out.extend_from_slice(&((number % (1 << 32)) as u32).to_be_bytes())?;
    Ok(())
}

/// A header, frames and a tag are a 1-RTT packet, and a datagram of them has no other packet and no other frames.
pub fn written_packet()
    ensures whole { (destination frames tag : List ℕ) (number : ℕ) → length tag ≡ 32
        → IsPacketOf (length destination) (header_bytes destination number ++ (frames ++ tag)) (short_of destination number frames tag) }
    ensures read { (id_length number : ℕ) (destination frames tag : List ℕ) (packet : Packet) → length destination ≡ id_length → length tag ≡ 32
        → HasPacket id_length packet (header_bytes destination number ++ (frames ++ tag)) → (packet.space ≡ Data) × AreQuicFrames frames packet.frames }
{}

/// The 1-RTT packet that the bytes are, at an end whose ids have this length, if its tag is accepted for its sender and its number.
/// The id isn't looked at: whoever hands the bytes in has found the connection by it. The whole number is read with `expected` as
/// one more than the greatest that was accepted. None exactly if the bytes aren't one in form, a reserved bit is 1, the number is
/// 2^62 or more, or the tag isn't accepted (RFC 9000, sections 12.2, 17.1 and 17.3.1; the tag is own).
pub fn open_packet<'a, S: Session>(
    session: &S,
    bytes: &'a [u8],
    id_length: usize,
    sender: Side,
    expected: u64,
) -> Option<OneRttPacket<'a>>
    requires expected { expected ≤ 2 ^ 62 }
    requires short { id_length ≤ 20 }
    ensures some { IfSome result (λ p. IsOpened (S.accepts session.now) id_length sender expected bytes.now p.number p.frames.now) }
    ensures none { result ≡ None → (number : ℕ) (frames : List ℕ) → IsOpened (S.accepts session.now) id_length sender expected bytes.now number frames → ⊥ }
    ensures has { IfSome result (λ p. (fs : List QuicFrame) → AreQuicFrames p.frames.now fs
        → HasPacket id_length (record { space = Data; sender = sender; number = p.number; frames = fs }) bytes.now) }
{
    let packet = get_packet(bytes, id_length)?;
    let number = expand(expected, number_of(packet.number), packet.number.len());
    if number >= 1 << 62 {
        return None;
    }
    if !session.open(sender, Space::Data, number, packet.tag) {
        return None;
    }
    Some(OneRttPacket {
        number,
        frames: packet.frames,
    })
}

/// The parts of a 1-RTT packet (the short header of RFC 9000, section 17.3.1, without header protection).
#[derive(Clone, Copy)]
struct ShortPacket<'a> {
    /// The connection id of the end that it goes to.
    destination: &'a [u8],
    /// The low bytes of the packet number, at most four.
    number: &'a [u8],
    frames: &'a [u8],
    tag: &'a [u8],
}

// The parts of a packet that goes to an end whose connection ids have this length.
fn get_packet(bytes: &[u8], id_length: usize) -> Option<ShortPacket<'_>>
    requires { id_length ≤ 20 }
    ensures found { IfSome result (λ p. IsShortPacket id_length (packet_of p) × (bytes.now ≡ short_packet (packet_of p))) }
    ensures none { IfNone result ((p : PlainPacket) → IsShortPacket id_length p → bytes.now ≡ short_packet p → ⊥) }
{
    let (first, rest) = bytes.split_first()?;
    let first = *first;
    if first < 0x40 || first > 0x43 {
        return None;
    }
    let width = (first - 0x3f) as usize;
    if rest.len() < id_length + width + TAG_LEN {
        return None;
    }
    let (destination, rest) = rest.split_at(id_length);
    let (number, rest) = rest.split_at(width);
    let (frames, tag) = rest.split_at(rest.len() - TAG_LEN);
    Some(ShortPacket {
        destination,
        number,
        frames,
        tag,
    })
}

// The number that at most four bytes are in network order.
pub(crate) fn number_of(bytes: &[u8]) -> u64
    requires { length bytes.now ≤ 4 }
    ensures value { result ≡ be_value bytes.now }
    ensures bound { result < 256 ^ length bytes.now }
{
    let mut number = 0;
    for byte in bytes {
        number = number * 256 + u64::from(*byte);
    }
    number
}
