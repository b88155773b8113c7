//! Streams and messages that are whole in datagrams.
ghost use Rattle.std.specs.Prelude.{◌↔◌, ℕ, List, IfOk, IfSome, IfNone, IsTrue};
ghost use Rattle.qh_spec.specs.Whole.{IsWholeStream, IsWhole};

use super::placed::whole_of;
use super::spelling::spells;
use crate::carried::carried;
use bytes::Bytes;
use qh_base::{Memory, Side};
use qh_service::Message;
use std::alloc::Global;

/// The bytes of the sender's part of a stream, where the datagrams carry all of them and the end, and nothing that
/// contradicts them.
pub fn whole_stream(
    alloc: Global,
    id_length: usize,
    datagrams: &[Bytes],
    sender: Side,
    stream: u64,
) -> Result<Option<Vec<u8>>, Memory>
    ensures found { IfOk result (λ r. IfSome r (λ bytes. IsWholeStream id_length datagrams.now sender stream bytes.items)) }
    ensures none { IfOk result (λ r. IfNone r ((bytes : List ℕ) → IsWholeStream id_length datagrams.now sender stream bytes → ⊥)) }
{
    let carried = carried(alloc, id_length, datagrams, sender, stream)?;
    whole_of(alloc, carried.bytes.as_slice(), carried.ends.as_slice())
}

/// Whether the sender's part of a stream is whole in the datagrams, and its bytes spell a message.
pub fn is_whole(
    alloc: Global,
    id_length: usize,
    datagrams: &[Bytes],
    sender: Side,
    stream: u64,
    message: &Message,
) -> Result<bool, Memory>
    ensures { IfOk result (λ whole. IsTrue whole ↔ IsWhole id_length datagrams.now sender stream message.now) }
{
    match whole_stream(alloc, id_length, datagrams, sender, stream)? {
        Some(bytes) => spells(alloc, bytes.as_slice(), message),
        None => Ok(false),
    }
}
