ghost use Rattle.std.specs.Prelude.{◌≡◌, ℕ, ◌+◌, ◌-◌, ◌^◌, ◌<◌, ◌≤◌, ◌↔◌, [], ◌++◌, ◌∷◌, Err, None, Some, length, All, EachIndex, IsOk, IfOk, OnOk, IsErrOf, slice_index, unwrap_or, vec_len};
ghost use Rattle.qh_parts.specs.ReadToEndBuffer.{end_of, widened, len_of, start_or_zero, len_or_zero, byte_of, byte_at, IsWithin};

use qh_base::Memory;
use qh_buffers::Chunk;
use std::alloc::{AllocError, AllocFailed, Global};
use std::marker::Model;
use thiserror::Error;

/// Why a chunk wasn't kept.
#[derive(Clone, Copy, Debug, PartialEq, Eq, Error)]
pub enum PushFault {
    /// What came is longer than the limit.
    #[error("stream too long")]
    TooLong,
    /// The allocator had no memory. The buffer is as it was.
    #[error("out of memory")]
    Memory,
}

impl<T: Drop> From<AllocFailed<T>> for PushFault {
    ghost use Rattle.std.specs.Prelude.{◌≡◌};
    ghost use Rattle.qh_parts.specs.declared.read_to_end.PushFault.TheVariants.{Memory};

    ghost from_gives = { λ _ e. e ≡ Memory };

    fn from(_: AllocFailed<T>) -> PushFault {
        PushFault::Memory
    }
}

/// From the least offset to the greatest end.
#[derive(Clone, Copy)]
pub struct Extent {
    pub start: u64,
    pub end: u64,
}

/// The chunks of a stream that is read to its end, in any order, up to a limit.
#[derive(Drop)]
pub struct ReadToEndBuffer {
    read: Vec<Chunk>,
    // Of all that came, None where nothing came.
    extent: Option<Extent>,
    size_limit: usize,
}

impl Model for ReadToEndBuffer {
    ghost use Rattle.qh_parts.specs.ReadToEndBuffer.{PlainBuffer, Holds};

    ghost Value = { PlainBuffer };

    ghost view = { λ b. record { kept = b.read.items; extent = b.extent; size_limit = b.size_limit } };

    ghost invariant = { λ b. Holds b.extent b.read.items };
}

impl ReadToEndBuffer {
    /// A buffer to which nothing came yet. What comes may be so many bytes long, from the least offset to the greatest
    /// end.
    pub fn new(alloc: Global, size_limit: usize) -> ReadToEndBuffer
        ensures { result ≡ record { kept = []; extent = None; size_limit = size_limit } }
    {
        ReadToEndBuffer {
            read: Vec::new(alloc),
            extent: None,
            size_limit,
        }
    }

    /// Keeps a chunk. One that makes what came longer than the limit isn't kept, but counts as having come.
    pub fn push(&mut self, chunk: Chunk) -> Result<(), PushFault>
        requires { end_of chunk < 2 ^ 64 }
        ensures ok { OnOk result (self.new ≡ record self.old {
          kept = self.old.kept ++ chunk ∷ [];
          extent = Some (widened self.old.extent chunk);
        }) }
        ensures too_long { IsErrOf result PushFault.TooLong
            ↔ (self.old.size_limit < len_of (widened self.old.extent chunk)) }
        ensures not_kept { result ≡ Err PushFault.TooLong
            → self.new ≡ record self.old { extent = Some (widened self.old.extent chunk) } }
        ensures memory { result ≡ Err PushFault.Memory → self.new ≡ self.old }
    {
        let extent = widen(self.extent, &chunk);
        if extent.len() > self.size_limit as u64 {
            self.extent = Some(extent);
            return Err(PushFault::TooLong);
        }
        self.read.push(chunk)?;
        self.extent = Some(extent);
        Ok(())
    }

    /// The bytes from the least offset to the greatest end, a later chunk's over an earlier one's, and 0 where there is
    /// none. Nothing where nothing came.
    pub fn finish(self) -> Result<Vec<u8>, Memory>
        ensures nothing { self.extent ≡ None → IsOk result }
        ensures len { IfOk result (λ bytes. vec_len bytes ≡ len_or_zero self.extent) }
        ensures bytes { IfOk result (λ bytes. EachIndex bytes.items
            (λ i. slice_index bytes.items i ≡ byte_at self.kept (start_or_zero self.extent + i))) }
    {
        let alloc = *self.read.allocator();
        let Some(extent) = self.extent else {
            return Ok(Vec::new(alloc));
        };
        Ok(assemble(alloc, &self.read, extent)?)
    }

    /// How many chunks are kept.
    pub fn chunks(&self) -> usize
        ensures { result ≡ length self.now.kept }
    {
        self.read.len()
    }
}

impl Extent {
    fn len(self) -> u64
        requires { self.start ≤ self.end }
        ensures { result ≡ len_of self }
    {
        self.end - self.start
    }
}

// The extent with one more chunk.
fn widen(extent: Option<Extent>, chunk: &Chunk) -> Extent
    requires { end_of chunk.now < 2 ^ 64 }
    ensures { result ≡ widened extent chunk.now }
{
    let end = chunk.offset + chunk.bytes.len() as u64;
    match extent {
        None => Extent {
            start: chunk.offset,
            end,
        },
        Some(before) => Extent {
            start: before.start.min(chunk.offset),
            end: before.end.max(end),
        },
    }
}

// The bytes of the extent.
fn assemble(alloc: Global, chunks: &[Chunk], extent: Extent) -> Result<Vec<u8>, AllocError>
    requires ordered { extent.start ≤ extent.end }
    requires within { All (IsWithin extent) chunks.now }
    ensures len { IfOk result (λ bytes. vec_len bytes ≡ len_of extent) }
    ensures bytes { IfOk result (λ bytes. EachIndex bytes.items
        (λ i. slice_index bytes.items i ≡ byte_at chunks.now (extent.start + i))) }
{
    let mut bytes = vec![in alloc; 0; extent.len() as usize]?;
    place_all(&mut bytes, extent.start, chunks);
    Ok(bytes)
}

// Writes the chunks, one after another, over zeros: the bytes of the stream from `start` on.
fn place_all(bytes: &mut [u8], start: u64, chunks: &[Chunk])
    requires zero { EachIndex bytes.old (λ i. slice_index bytes.old i ≡ 0) }
    requires within { All (IsWithin (record { start = start; end = start + length bytes.old })) chunks.now }
    ensures { EachIndex bytes.new (λ i. slice_index bytes.new i ≡ byte_at chunks.now (start + i)) }
{
    for chunk in chunks {
        place(bytes, start, chunk);
    }
}

// Writes a chunk over the bytes of the stream from `start` on.
fn place(bytes: &mut [u8], start: u64, chunk: &Chunk)
    requires from { start ≤ chunk.now.offset }
    requires to { end_of chunk.now ≤ start + length bytes.old }
    ensures { EachIndex bytes.new (λ i. slice_index bytes.new i
        ≡ unwrap_or (byte_of chunk.now (start + i)) (slice_index bytes.old i)) }
{
    let at = (chunk.offset - start) as usize;
    bytes[at..at + chunk.bytes.len()].copy_from_slice(&chunk.bytes);
}
