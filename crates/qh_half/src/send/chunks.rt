ghost use Rattle.std.specs.Prelude.{◌≡◌, take, IfOk};
ghost use Rattle.std.specs.List.{concat};
ghost use Rattle.qh_half.specs.Send.{chunks_after, whole_chunks};

use bytes::Bytes;
use qh_base::Memory;
use std::alloc::Global;

/// A copy of the first `count` bytes of chunks, or of all if they have fewer.
pub(super) fn front(alloc: Global, chunks: &[Bytes], count: usize) -> Result<Bytes, Memory>
    ensures { IfOk result (λ b. b ≡ take count (concat chunks.now)) }
{
    let bytes = copied(alloc, chunks, count)?;
    Ok(Bytes::from_vec(bytes)?)
}

fn copied(alloc: Global, chunks: &[Bytes], count: usize) -> Result<Vec<u8>, Memory>
    ensures { IfOk result (λ v. v.items ≡ take count (concat chunks.now)) }
{
    let mut bytes = Vec::new(alloc);
    for chunk in chunks {
        let next = chunk.as_slice();
        let len = next.len().min(count - bytes.len());
        bytes.extend_from_slice(&next[..len])?;
    }
    Ok(bytes)
}

/// Drops the first `count` bytes of chunks, and answers how many chunks it dropped whole.
pub(super) fn drop_front(chunks: &mut [Bytes], count: usize) -> usize
    ensures rest { chunks.new ≡ chunks_after count chunks.old }
    ensures whole { result ≡ whole_chunks count chunks.old }
{
    let mut left = count;
    for place in 0..chunks.len() {
        let len = chunks[place].len();
        if left < len {
            chunks[place].advance(left);
            return place;
        }
        chunks[place].clear();
        left -= len;
    }
    chunks.len()
}
