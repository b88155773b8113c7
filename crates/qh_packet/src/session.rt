ghost use Rattle.std.proofs.Common.{ap};
ghost use Rattle.std.specs.Prelude.{◌≡◌, ◌==◌, ℕ, ◌+◌, ◌<◌, ◌≤◌, ◌^◌, ◌++◌, List, Bool, true, Ok, not, length, drop, bytes_eq, is_some, IsTrue, IfSome};
ghost use Rattle.qh_spec.specs.declared.sides.Side.{Side as End};
ghost use Rattle.qh_spec.specs.declared.sides.Space.{Space as NumberSpace};
ghost use Rattle.qh_spec.specs.StreamId.{side_bit};
ghost use Rattle.qh_spec.specs.Tag.{IsTag, tag_bytes, space_byte as space_byte_of, padded};
ghost use Rattle.arrayvec.specs.ArrayVec.{array_vec_len};
ghost use Rattle.qh_packet.specs.Session.{MakesTags, NamesTags, PlainKeys, plain_accepts, plain_sealed};

use arrayvec::ArrayVec;
use qh_base::{ConnectionId, Memory, Name, Side, Space};
use std::marker::Model;

/// What makes and opens the tags of a connection's packets, in the place of a cipher's keys, and holds the server name.
pub trait Session {
    /// What the handshake tells the application.
    type HandshakeData;

    /// The tag of a packet by this sender, in this space, with this number.
    ghost sealed: { Self → End → NumberSpace → ℕ → List ℕ };

    /// Whether a tag is taken for that of a packet by this sender, in this space, with this number.
    ghost accepts: { Self → End → NumberSpace → ℕ → List ℕ → Bool };

    /// The server name that it holds.
    ghost name: { Self → List ℕ };

    /// Whether the handshake told it that name, or whoever made it did.
    ghost knows: { Self → Bool };

    /// The id from which its tags are made.
    ghost key: { Self → List ℕ };

    /// The server name that its data tell.
    ghost told: { Self.HandshakeData → List ℕ };

    /// Makes the tag of a packet.
    fn tag(&self, from: Side, space: Space, number: u64) -> [u8; 32]
        ensures value { result ≡ sealed self.now from space number }
        ensures own { number < 2 ^ 62 → accepts self.now from space number result ≡ true };

    /// Whether the tag is that of a packet by this sender, in this space, with this number, all of which it names.
    fn open(&self, from: Side, space: Space, number: u64, tag: &[u8]) -> bool
        ensures value { result ≡ accepts self.now from space number tag.now }
        ensures named { IsTrue result → number < 2 ^ 62 → IsTag tag.now from space number };

    /// Takes the id from which the tags are made after a Retry.
    fn rekey(&mut self, id: ConnectionId)
        ensures value { key self.new ≡ id }
        ensures name_kept { name self.new ≡ name self.old }
        ensures knows_kept { knows self.new ≡ knows self.old };

    /// Takes the server name that a client's hello bears. A server calls it once.
    fn learn(&mut self, server_name: &[u8])
        requires { length server_name.now ≤ 255 }
        ensures value { name self.new ≡ server_name.now }
        ensures known { knows self.new ≡ true }
        ensures key_kept { key self.new ≡ key self.old }
        ensures sealed_kept { sealed self.new ≡ sealed self.old }
        ensures accepts_kept { accepts self.new ≡ accepts self.old };

    /// The server name that a client's hello bears.
    fn server_name(&self) -> &[u8]
        ensures value { result.now ≡ name self.now }
        ensures short { length result.now ≤ 255 };

    /// What the handshake tells the application: the server name that it holds. None exactly where that isn't known.
    fn handshake_data(&self) -> Option<Self::HandshakeData>
        ensures known { is_some result ≡ knows self.now }
        ensures name { IfSome result (λ d. told d ≡ name self.now) };

    /// The key alone tells which tags it makes.
    ghost sealed_by_key: { (s t : Self) → key s ≡ key t → sealed s ≡ sealed t };

    /// And which it takes.
    ghost accepts_by_key: { (s t : Self) → key s ≡ key t → accepts s ≡ accepts t };
}

/// A session without a cipher. Its tags are made of the key id, which is the client's first destination id, or after a
/// Retry the Retry's source id.
#[derive(Drop)]
pub struct PlainSession {
    key_id: ConnectionId,
    server_name: Name,
    knows_name: bool,
}

impl Model for PlainSession {
    ghost use Rattle.qh_packet.specs.Session.{PlainKeys};

    ghost Value = { PlainKeys };

    ghost view = { λ s. record { key_id = s.key_id; server_name = s.server_name; knows_name = s.knows_name } };
}

/// What a plain session's handshake tells.
#[derive(Drop)]
pub struct PlainData {
    /// The server name that was asked for.
    pub server_name: Name,
}

impl PlainSession {
    /// A session with this key id. A client knows the server name; a server learns it, and hands in an empty one.
    pub fn new(key_id: ConnectionId, server_name: &[u8]) -> Result<PlainSession, Memory>
        requires { length server_name.now ≤ 255 }
        ensures { result ≡ Ok (record { key_id = key_id; server_name = server_name.now; knows_name = not (length server_name.now == 0) }) }
    {
        Ok(PlainSession {
            key_id,
            server_name: Name::of(server_name),
            knows_name: !server_name.is_empty(),
        })
    }

    /// The id that the tags are made of, of at most 20 bytes.
    pub fn key_id(&self) -> &ConnectionId
        ensures value { result.now ≡ self.now.key_id }
        ensures short { length result.now ≤ 20 }
    {
        // Its length is read for the bound alone.
        let _length = self.key_id.len();
        &self.key_id
    }
}

impl Session for PlainSession {
    type HandshakeData = PlainData;

    ghost sealed = { plain_sealed };

    ghost accepts = { plain_accepts };

    ghost name = { λ s. s.server_name };

    ghost knows = { λ s. s.knows_name };

    ghost key = { λ s. s.key_id };

    ghost told = { λ d. d.server_name };

    ghost sealed_by_key = { λ s t same. ap tag_bytes same };

    ghost accepts_by_key = { λ s t same. ap (λ id from space number tag. bytes_eq tag (tag_bytes id from space number)) same };

    fn tag(&self, from: Side, space: Space, number: u64) -> [u8; 32] {
        tag_of(&self.key_id, from, space, number)
    }

    fn open(&self, from: Side, space: Space, number: u64, tag: &[u8]) -> bool {
        tag == tag_of(&self.key_id, from, space, number).as_slice()
    }

    fn rekey(&mut self, id: ConnectionId)
        ensures after { self.new ≡ record self.old { key_id = id } }
    {
        self.key_id = id;
    }

    fn learn(&mut self, server_name: &[u8])
        requires { length server_name.now ≤ 255 }
        ensures after { self.new ≡ record self.old { server_name = server_name.now; knows_name = true } }
    {
        self.server_name = Name::of(server_name);
        self.knows_name = true;
    }

    fn server_name(&self) -> &[u8]
        ensures value { result.now ≡ self.now.server_name }
        ensures short { length result.now ≤ 255 }
    {
        self.server_name.bytes()
    }

    /// The name last given to `new` or `learn`; None exactly where `new` was given an empty one and `learn` wasn't called.
    fn handshake_data(&self) -> Option<PlainData> {
        if !self.knows_name {
            return None;
        }
        Some(PlainData {
            server_name: self.server_name.copied(),
        })
    }
}

// The 32 bytes of a tag.
fn tag_of(key_id: &ConnectionId, from: Side, space: Space, number: u64) -> [u8; 32]
    ensures value { result ≡ tag_bytes key_id.now from space number }
    ensures short { length key_id.now ≤ 20 }
{
    let id = key_id.bytes();
    let mut tag = ArrayVec::new();
    put_padded(&mut tag, id, 16);
    tag.push(0xa5);
    tag.push(side_byte(from));
    tag.try_extend_from_slice(&number.to_be_bytes()).unwrap();
    tag.push(id.len() as u8);
    put_padded(&mut tag, after_16(id), 4);
    tag.push(space_byte(space));
    tag.into_inner().unwrap()
}

// What follows the first 16 bytes.
fn after_16(bytes: &[u8]) -> &[u8]
    ensures { result.now ≡ drop 16 bytes.now }
{
    let start = bytes.len().min(16);
    &bytes[start..]
}

const ZEROS: [u8; 16] = [0; 16];

/// Appends so many of the bytes, with zeros behind them where there are fewer.
pub(crate) fn put_padded<const N: usize>(tag: &mut ArrayVec<u8, N>, bytes: &[u8], size: usize)
    requires short { size ≤ 16 }
    requires room { array_vec_len tag.old + size ≤ N }
    ensures items { tag.new.items ≡ tag.old.items ++ padded size bytes.now }
    ensures len { array_vec_len tag.new ≡ array_vec_len tag.old + size }
{
    let kept = size.min(bytes.len());
    tag.try_extend_from_slice(&bytes[..kept]).unwrap();
    tag.try_extend_from_slice(&ZEROS[..size - kept]).unwrap();
}

fn side_byte(side: Side) -> u8
    ensures { result ≡ side_bit side }
{
    match side {
        Side::Client => 0,
        Side::Server => 1,
    }
}

fn space_byte(space: Space) -> u8
    ensures { result ≡ space_byte_of space }
{
    match space {
        Space::Initial => 0,
        Space::Data => 1,
    }
}

/// What a plain session makes and takes for tags are tags, if its key id has at most 20 bytes, which that of a `PlainSession` has.
pub fn plain_tags()
    ensures names { (keys : PlainKeys) → length keys.key_id ≤ 20 → NamesTags (plain_accepts keys) }
    ensures makes { (keys : PlainKeys) → length keys.key_id ≤ 20 → MakesTags (plain_sealed keys) }
{}
