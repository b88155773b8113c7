ghost use Rattle.std.specs.Prelude.{◌≡◌, ◌≤◌, ℕ, ◌-◌, ◌<◌, ◌^◌, ◌↔◌, List, length, drop, replicate, IsTrue, IfSome, IfNone};
ghost use Rattle.std.specs.Int.{w64, from_be_bytes};
ghost use Rattle.qh_spec.specs.declared.sides.Side.{Side as End};
ghost use Rattle.qh_spec.specs.declared.sides.Space.{Space as NumberSpace};
ghost use Rattle.qh_spec.specs.StreamId.{side_bit};
ghost use Rattle.qh_spec.specs.Tag.{IsTag, space_byte};
ghost use Rattle.qh_plain.specs.Packets.{IsLaidOut, HasKey};

use qh_base::{Side, Space};

/// What a packet's tag tells.
#[derive(Clone, Copy)]
pub(super) struct Tag {
    pub(super) sender: Side,
    pub(super) space: Space,
    pub(super) number: u64,
}

/// The places of a tag.
#[derive(Clone, Copy)]
struct Layout<'a> {
    front: &'a [u8],
    sender: u8,
    number: u64,
    key_length: u8,
    back: &'a [u8],
    space: u8,
}

impl Tag {
    /// None exactly where the bytes are no tag of any connection.
    pub(super) fn read(bytes: &[u8]) -> Option<Tag>
        ensures found { IfSome result (λ t. IsTag bytes.now t.sender t.space t.number) }
        ensures none { IfNone result ((sender : End) (space : NumberSpace) (number : ℕ) → IsTag bytes.now sender space number → ⊥) }
    {
        let Some(layout) = Layout::read(bytes) else {
            return None;
        };
        let Some(sender) = side_of(layout.sender) else {
            return None;
        };
        let Some(space) = space_of(layout.space) else {
            return None;
        };
        let number = layout.number;
        if number >= 1 << 62 {
            return None;
        }
        if !has_key(layout.front, layout.key_length, layout.back) {
            return None;
        }
        Some(Tag {
            sender,
            space,
            number,
        })
    }
}

impl<'a> Layout<'a> {
    fn read(bytes: &'a [u8]) -> Option<Layout<'a>>
        ensures found { IfSome result (λ l. IsLaidOut bytes.now l.front.now l.sender l.number l.key_length l.back.now l.space) }
        ensures none { IfNone result ((front back : List ℕ) (sender number key_length space : ℕ) → IsLaidOut bytes.now front sender number key_length back space → ⊥) }
    {
        if bytes.len() != 32 {
            return None;
        }
        if bytes[16] != 0xa5 {
            return None;
        }
        Some(Layout {
            front: &bytes[..16],
            sender: bytes[17],
            number: number_of(&bytes[18..26]),
            key_length: bytes[26],
            back: &bytes[27..31],
            space: bytes[31],
        })
    }
}

/// The number that eight bytes are in network order.
fn number_of(bytes: &[u8]) -> u64
    requires { length bytes.now ≡ 8 }
    ensures value { result ≡ from_be_bytes w64 bytes.now }
    ensures bound { result < 2 ^ 64 }
{
    u64::from_be_bytes(*bytes.first_chunk().unwrap())
}

fn side_of(byte: u8) -> Option<Side>
    ensures found { IfSome result (λ s. side_bit s ≡ byte) }
    ensures none { IfNone result ((s : End) → side_bit s ≡ byte → ⊥) }
{
    match byte {
        0 => Some(Side::Client),
        1 => Some(Side::Server),
        _ => None,
    }
}

fn space_of(byte: u8) -> Option<Space>
    ensures found { IfSome result (λ s. space_byte s ≡ byte) }
    ensures none { IfNone result ((s : NumberSpace) → space_byte s ≡ byte → ⊥) }
{
    match byte {
        0 => Some(Space::Initial),
        1 => Some(Space::Data),
        _ => None,
    }
}

/// Whether a key id of this length stands in the two places, with zeros behind it in each.
fn has_key(front: &[u8], key_length: u8, back: &[u8]) -> bool
    requires front { length front.now ≡ 16 }
    requires back { length back.now ≡ 4 }
    ensures { IsTrue result ↔ HasKey front.now key_length back.now }
{
    if key_length > 20 {
        return false;
    }
    let whole = key_length as usize;
    let in_front = whole.min(16);
    zero_from(in_front, front) && zero_from(whole - in_front, back)
}

/// Whether the bytes are zeros from there on.
fn zero_from(start: usize, bytes: &[u8]) -> bool
    requires { start ≤ length bytes.now }
    ensures { IsTrue result ↔ (drop start bytes.now ≡ replicate (length bytes.now - start) 0) }
{
    bytes[start..].iter().all(|byte| *byte == 0)
}
