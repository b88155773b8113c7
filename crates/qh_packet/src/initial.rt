ghost use Rattle.std.specs.Prelude.{◌≡◌, ℕ, ◌+◌, ◌<◌, ◌≤◌, ◌^◌, ◌++◌, Bool, List, None, length, max, replicate, IfSome, IfNone, OnOk, OnErr};
ghost use Rattle.qh_spec.specs.Datagram.{IsInitialForm, IsInitialPacket};
ghost use Rattle.qh_spec.specs.QuicFrames.{QuicFrame, AreQuicFrames};
ghost use Rattle.qh_spec.specs.Varint.{varint};
ghost use Rattle.qh_spec.specs.declared.sides.Space.TheVariants.{Initial};
ghost use Rattle.qh_packet.specs.Initial.{BeginsWithInitial, IsBody, body_length, initial_bytes, initial_filled, initial_size, filled, bare_size as bare_size_of};
ghost use Rattle.qh_packet.specs.LongHeader.{long_head};
ghost use Rattle.qh_packet.specs.Packet.{IsInitialOpened, low_bytes};

use crate::fields::put_counted;
use crate::long_header::{LongHeader, put_long_header};
use crate::packet::{TAG_LEN, number_of};
use crate::session::Session;
use crate::version::{PacketType, Version};
use qh_base::{ConnectionId, Memory, Side, Space, VarInt, get_counted, put_varint};
use qh_frame::put_padding;
use qh_recovery::expand;

/// An Initial packet by its lengths, and what follows it in its datagram (RFC 9000, sections 12.2 and 17.2.2).
#[derive(Clone, Copy)]
pub struct InitialForm<'a> {
    /// The first byte, of which the low four bits are the body's.
    pub first: u8,
    /// The connection id of the end that it goes to.
    pub destination: &'a [u8],
    /// The connection id of the end that it comes from.
    pub source: &'a [u8],
    /// The token of a Retry or of an earlier connection.
    pub token: &'a [u8],
    /// Number, frames and tag.
    pub body: &'a [u8],
    /// What stands behind it in the datagram.
    pub rest: &'a [u8],
}

impl<'a> InitialForm<'a> {
    /// The Initial packet of version 1 that begins the bytes, whatever its reserved bits and its body are. None exactly if none
    /// does (RFC 9000, section 17.2.2).
    pub fn read(bytes: &'a [u8]) -> Option<InitialForm<'a>>
        ensures found { IfSome result (λ f. BeginsWithInitial bytes.now f.first f.destination.now f.source.now f.token.now f.body.now f.rest.now) }
        ensures none { IfNone result ((front rest body : List ℕ) (first : ℕ) → bytes.now ≡ front ++ rest → IsInitialForm front first body → ⊥) }
    {
        let header = LongHeader::read(bytes)?;
        if !header.is_of(Version::One, PacketType::Initial) {
            return None;
        }
        let (token, rest) = get_counted(header.rest)?;
        let (body, rest) = get_counted(rest)?;
        Some(InitialForm {
            first: header.first,
            destination: header.destination,
            source: header.source,
            token,
            body,
            rest,
        })
    }
}

/// An Initial packet whose tag was accepted.
#[derive(Clone, Copy)]
pub struct InitialPacket<'a> {
    /// Its whole number.
    pub number: u64,
    /// The bytes of its frames.
    pub frames: &'a [u8],
}

/// The Initial packet of this form, if its tag is accepted for its sender and its number. The whole number is read with
/// `expected` as one more than the greatest that was accepted. None exactly if a reserved bit is 1, the body is too short, the
/// number is 2^62 or more, or the tag isn't accepted (RFC 9000, sections 17.1 and 17.2.2; the tag is own).
pub fn open_initial<'a, S: Session>(
    session: &S,
    form: &InitialForm<'a>,
    sender: Side,
    expected: u64,
) -> Option<InitialPacket<'a>>
    requires { expected ≤ 2 ^ 62 }
    ensures some { IfSome result (λ p. IsInitialOpened (S.accepts session.now) sender expected form.now.first form.now.body.now p.number p.frames.now) }
    ensures none { result ≡ None → (number : ℕ) (frames : List ℕ) → IsInitialOpened (S.accepts session.now) sender expected form.now.first form.now.body.now number frames → ⊥ }
    ensures is { IfSome result (λ p. (bytes : List ℕ) (fs : List QuicFrame) → IsInitialForm bytes form.now.first form.now.body.now → AreQuicFrames p.frames.now fs
        → IsInitialPacket bytes (record { space = Initial; sender = sender; number = p.number; frames = fs })) }
{
    let body = get_body(form.first, form.body)?;
    let number = expand(expected, number_of(body.number), body.number.len());
    if number >= 1 << 62 {
        return None;
    }
    if !session.open(sender, Space::Initial, number, body.tag) {
        return None;
    }
    Some(InitialPacket {
        number,
        frames: body.frames,
    })
}

/// The parts of an Initial packet behind its header.
#[derive(Clone, Copy)]
struct Body<'a> {
    /// The low bytes of the packet number, at most four.
    number: &'a [u8],
    frames: &'a [u8],
    tag: &'a [u8],
}

// The parts of a body, behind a first byte whose reserved bits are 0.
fn get_body(first: u8, bytes: &[u8]) -> Option<Body<'_>>
    ensures found { IfSome result (λ b. IsBody first bytes.now b.number.now b.frames.now b.tag.now) }
    ensures none { IfNone result ((number frames tag : List ℕ) → IsBody first bytes.now number frames tag → ⊥) }
{
    if first < 0xc0 || first > 0xc3 {
        return None;
    }
    let width = (first - 0xbf) as usize;
    if bytes.len() < width + TAG_LEN {
        return None;
    }
    let (number, rest) = bytes.split_at(width);
    let (frames, tag) = rest.split_at(rest.len() - TAG_LEN);
    Some(Body {
        number,
        frames,
        tag,
    })
}

/// Appends an Initial packet of version 1, with four bytes of its number, or nothing (RFC 9000, section 17.2.2). If it would have
/// fewer than `size` bytes, PADDING behind its frames makes it exactly that long, and the length of its body has two bytes, even
/// if one would do: with the shortest form one size couldn't be reached. Otherwise that length has its shortest form.
pub fn put_initial(
    out: &mut Vec<u8>,
    destination: &ConnectionId,
    source: &ConnectionId,
    token: &[u8],
    number: u64,
    frames: &[u8],
    size: usize,
    tag: &[u8; 32],
) -> Result<(), Memory>
    requires token { length token.now < 2 ^ 14 }
    requires frames { 36 + length frames.now < 2 ^ 14 }
    requires size { size < 2 ^ 14 }
    ensures ok { OnOk result (out.new.items ≡ out.old.items ++ initial_filled destination.now source.now token.now number frames.now size tag.now) }
    ensures err { OnErr result (out.new.items ≡ out.old.items) }
{
    let bare = bare_size(destination, source, token, frames);
    let is_wide = bare + length_size(36 + frames.len()) < size;
    let padding = size.saturating_sub(bare + 2);
    let start = out.len();
    put_initial_header(out, destination, source, token)?;
    if put_body(out, number, is_wide, frames, padding, tag).is_err() {
        out.truncate(start);
        return Err(Memory);
    }
    Ok(())
}

/// What `put_initial` appends is an Initial packet with these parts, whatever follows it. It has as many bytes as are wanted, or
/// more if its parts need them.
pub fn written_initial()
    ensures form { (destination source token frames tag rest : List ℕ) (number : ℕ) (is_wide : Bool) → length destination ≤ 20 → length source ≤ 20
        → length token < 2 ^ 14 → 36 + length frames < 2 ^ 14 → length tag ≡ 32
        → BeginsWithInitial (initial_bytes destination source token number is_wide frames tag ++ rest) 195 destination source token (low_bytes number ++ (frames ++ tag)) rest }
    ensures size { (destination source token frames tag : List ℕ) (number size : ℕ) → 36 + length frames < 2 ^ 14 → length tag ≡ 32
        → length (initial_filled destination source token number frames size tag) ≡ max size (initial_size destination source token frames) }
    ensures short { (destination source token frames : List ℕ) (size : ℕ) → 36 + length frames < 2 ^ 14 → size < 2 ^ 14
        → 36 + length (filled destination source token frames size) < 2 ^ 14 }
{}

// How many bytes an Initial packet has beside the length of its body.
fn bare_size(
    destination: &ConnectionId,
    source: &ConnectionId,
    token: &[u8],
    frames: &[u8],
) -> usize
    requires token { length token.now < 2 ^ 14 }
    requires frames { length frames.now < 2 ^ 14 }
    ensures value { result ≡ bare_size_of destination.now source.now token.now frames.now }
    ensures bound { result < 2 ^ 16 }
{
    let token_size = length_size(token.len()) + token.len();
    43 + destination.len() + source.len() + token_size + frames.len()
}

// How many bytes the shortest form of a length has.
fn length_size(count: usize) -> usize
    requires { count < 2 ^ 14 }
    ensures value { result ≡ length (varint count) }
    ensures bound { result ≤ 8 }
{
    VarInt::from_u32(count as u32).size()
}

// Appends the header up to the token, or nothing.
fn put_initial_header(
    out: &mut Vec<u8>,
    destination: &ConnectionId,
    source: &ConnectionId,
    token: &[u8],
) -> Result<(), Memory>
    requires { length token.now < 2 ^ 14 }
    ensures ok { OnOk result (out.new.items ≡ out.old.items ++ (long_head 195 1 destination.now source.now ++ (varint (length token.now) ++ token.now))) }
    ensures err { OnErr result (out.new.items ≡ out.old.items) }
{
    let start = out.len();
    let version = Version::One.number();
    put_long_header(out, 0xc3, version, destination.bytes(), source.bytes())?;
    if put_counted(out, token).is_err() {
        out.truncate(start);
        return Err(Memory);
    }
    Ok(())
}

// Appends the body behind its length, or nothing.
fn put_body(
    out: &mut Vec<u8>,
    number: u64,
    is_wide: bool,
    frames: &[u8],
    padding: usize,
    tag: &[u8; 32],
) -> Result<(), Memory>
    requires { 36 + length frames.now + padding < 2 ^ 14 }
    ensures ok { OnOk result (out.new.items ≡ out.old.items ++ (body_length is_wide (36 + length frames.now + padding) ++ (low_bytes number ++ ((frames.now ++ replicate padding 0) ++ tag.now)))) }
    ensures err { OnErr result (out.new.items ≡ out.old.items) }
{
    let start = out.len();
    put_body_length(out, is_wide, 36 + frames.len() + padding)?;
    if put_content(out, number, frames, padding, tag).is_err() {
        out.truncate(start);
        return Err(Memory);
    }
    Ok(())
}

// Appends the length of a body, or nothing.
fn put_body_length(out: &mut Vec<u8>, is_wide: bool, count: usize) -> Result<(), Memory>
    requires { count < 2 ^ 14 }
    ensures ok { OnOk result (out.new.items ≡ out.old.items ++ body_length is_wide count) }
    ensures err { OnErr result (out.new.items ≡ out.old.items) }
{
    if is_wide {
        out.extend_from_slice(&(0x4000 + count as u16).to_be_bytes())?;
        Ok(())
    } else {
        put_varint(out, VarInt::from_u32(count as u32))
    }
}

// Appends the number, the frames, so many PADDING frames and the tag, or nothing.
fn put_content(
    out: &mut Vec<u8>,
    number: u64,
    frames: &[u8],
    padding: usize,
    tag: &[u8; 32],
) -> Result<(), Memory>
    requires { length frames.now < 2 ^ 14 }
    ensures ok { OnOk result (out.new.items ≡ out.old.items ++ (low_bytes number ++ ((frames.now ++ replicate padding 0) ++ tag.now))) }
    ensures err { OnErr result (out.new.items ≡ out.old.items) }
{
    let start = out.len();
    put_number_and_frames(out, number, frames)?;
    if put_padding_and_tag(out, padding, tag).is_err() {
        out.truncate(start);
        return Err(Memory);
    }
    Ok(())
}

// Appends the number and the frames, or nothing.
fn put_number_and_frames(out: &mut Vec<u8>, number: u64, frames: &[u8]) -> Result<(), Memory>
    requires { length frames.now < 2 ^ 14 }
    ensures ok { OnOk result (out.new.items ≡ out.old.items ++ (low_bytes number ++ frames.now)) }
    ensures err { OnErr result (out.new.items ≡ out.old.items) }
{
    out.try_reserve(4 + frames.len())?;
    out.extend_from_slice(&((number % (1 << 32)) as u32).to_be_bytes())?;
    out.extend_from_slice(frames)?;
    Ok(())
}

// Appends so many PADDING frames and the tag, or nothing.
fn put_padding_and_tag(out: &mut Vec<u8>, padding: usize, tag: &[u8; 32]) -> Result<(), Memory>
    ensures ok { OnOk result (out.new.items ≡ out.old.items ++ (replicate padding 0 ++ tag.now)) }
    ensures err { OnErr result (out.new.items ≡ out.old.items) }
{
    let start = out.len();
    put_padding(out, padding)?;
    if out.extend_from_slice(tag).is_err() {
        out.truncate(start);
        return Err(Memory);
    }
    Ok(())
}
