ghost use Rattle.std.specs.Prelude.{◌≡◌, ◌⊎◌, ◌+◌, ◌++◌, ◌≤◌, ℕ, List, [], length, OnOk, OnErr};
ghost use Rattle.qh_buffers.specs.Assembler.{empty_assembler};
ghost use Rattle.qh_hello.specs.Crypto.{HasTaken, IsInFront, came_at};

use bytes::Bytes;
use qh_base::Memory;
use qh_buffers::Assembler;
use std::alloc::Global;
use std::marker::Model;

/// How many bytes of the peer's CRYPTO frames are kept at most, counted from the first: a frame that ends behind them is a fault, with
/// CRYPTO_BUFFER_EXCEEDED (RFC 9000, section 7.5). `quinn-proto` has as many, behind what was read.
pub const MAX_CRYPTO: u64 = 16_384;

/// The bytes of the peer's CRYPTO frames that came, in any order (RFC 9000, section 19.6; quinn-proto, `CryptoSpace`). It keeps the
/// bytes, and for what waits behind a gap what an `Assembler` keeps of each piece.
#[derive(Drop)]
pub struct CryptoStream {
    waiting: Assembler,
    bytes: Vec<u8>,
    end: u64,
}

impl Model for CryptoStream {
    ghost use Rattle.qh_hello.specs.Crypto.{PlainCrypto, IsCrypto};

    ghost Value = { PlainCrypto };

    ghost view = { λ s. record { waiting = s.waiting; bytes = s.bytes.items; end = s.end } };

    ghost invariant = { λ s. IsCrypto (record { waiting = s.waiting; bytes = s.bytes.items; end = s.end }) };
}

impl CryptoStream {
    /// Nothing came yet. It takes no memory.
    pub fn new(alloc: Global) -> CryptoStream
        ensures { result ≡ record { waiting = empty_assembler; bytes = []; end = 0 } }
    {
        CryptoStream {
            waiting: Assembler::new(alloc),
            bytes: Vec::new(alloc),
            end: 0,
        }
    }

    /// The bytes that came, from the first on and without a gap. After an `Ok` of `insert` these are all that came up to the first gap;
    /// after want of memory some of those may wait still.
    pub fn bytes(&self) -> &[u8]
        ensures { result.now ≡ self.now.bytes }
    {
        &self.bytes
    }

    /// Keeps the bytes of a frame; those that came before stay. After want of memory nothing that came before is lost, but some bytes
    /// in front may wait still.
    pub fn insert(&mut self, offset: u64, payload: Bytes) -> Result<(), Memory>
        requires { offset + length payload ≤ MAX_CRYPTO }
        ensures ok { OnOk result (HasTaken self.old self.new (record { offset = offset; bytes = payload })) }
        ensures front { OnOk result (IsInFront self.new) }
        ensures grows { (rest : List ℕ) × (self.new.bytes ≡ self.old.bytes ++ rest) }
        ensures err { OnErr result ((self.new ≡ self.old) ⊎ HasTaken self.old self.new (record { offset = offset; bytes = payload })) }
    {
        let end = offset + payload.len() as u64;
        self.waiting.insert(offset, payload)?;
        self.end = self.end.max(end);
        self.take_front()
    }

    // Takes what waits in front.
    fn take_front(&mut self) -> Result<(), Memory>
        ensures kept { (k : _) → came_at self.new k ≡ came_at self.old k }
        ensures front { OnOk result (IsInFront self.new) }
        ensures grows { (rest : List ℕ) × (self.new.bytes ≡ self.old.bytes ++ rest) }
    {
        let left = (self.end - self.bytes.len() as u64) as usize;
        if left == 0 {
            return Ok(());
        }
        self.bytes.try_reserve(left)?;
        let Some(chunk) = self.waiting.read(left, true)? else {
            return Ok(());
        };
        self.bytes.extend_from_slice(&chunk.bytes)?;
        Ok(())
    }
}
