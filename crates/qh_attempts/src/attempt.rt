ghost use Rattle.std.specs.Prelude.{◌≡◌, ◌+◌, ◌<◌, ◌≤◌, ◌↔◌, ◌^◌, ◌++◌, ◌∷◌, [], length, IsTrue, OnErr, OnOk};
ghost use Rattle.qh_attempts.specs.Attempts.{bytes_kept, HasRoomFor};

use bytes::Bytes;
use qh_base::{Memory, Moment};
use std::alloc::Global;
use std::marker::Model;
use std::net::SocketAddr;

/// What the server config under which an attempt came says of the datagrams that may be kept.
#[derive(Clone, Copy)]
pub struct BufferLimits {
    /// How many bytes may be kept for the attempt.
    pub incoming_buffer_size: u64,
    /// How many bytes may be kept for all attempts once the attempt's datagram is among them.
    pub incoming_buffer_size_total: u64,
}

/// A datagram that came for an attempt that waits.
#[derive(Drop)]
pub struct KeptDatagram {
    /// When it came.
    pub now: Moment,
    /// Where it came from.
    pub remote: SocketAddr,
    /// Its bytes.
    pub payload: Bytes,
}

/// A connection attempt, with what the endpoint keeps with it, `C`, and the datagrams that were kept for it while it waited. Its first datagram isn't
/// among these.
#[derive(Drop)]
pub struct Attempt<C> {
    config: C,
    datagrams: Vec<KeptDatagram>,
    // The sum of the lengths of the payloads.
    total_bytes: u64,
    limits: BufferLimits,
    number: u64,
}

impl<C> Model for Attempt<C> {
    ghost use Rattle.std.specs.Prelude.{◌≡◌};
    ghost use Rattle.qh_attempts.specs.Attempts.{PlainAttempt, bytes_of};

    ghost Value = { PlainAttempt C };

    ghost view = { λ a. record { config = a.config; datagrams = a.datagrams.items; limits = a.limits; number = a.number } };

    ghost invariant = { λ a. a.total_bytes ≡ bytes_of a.datagrams.items };
}

impl<C> Attempt<C> {
    /// An attempt for which nothing is kept.
    pub(crate) fn new(alloc: Global, limits: BufferLimits, number: u64, config: C) -> Attempt<C>
        ensures { result ≡ record { config = config; datagrams = []; limits = limits; number = number } }
    {
        Attempt {
            config,
            datagrams: Vec::new(alloc),
            total_bytes: 0,
            limits,
            number,
        }
    }

    /// What the endpoint keeps with it, and the datagrams that were kept for it, in the order in which they came.
    pub fn into_parts(self) -> (C, Vec<KeptDatagram>)
        ensures config { result.0 ≡ self.config }
        ensures datagrams { result.1.items ≡ self.datagrams }
    {
        let Attempt {
            config,
            datagrams,
            total_bytes: _,
            limits: _,
            number: _,
        } = self;
        (config, datagrams)
    }

    /// What the endpoint keeps with it.
    pub(crate) fn config(&self) -> &C
        ensures { result.now ≡ self.now.config }
    {
        &self.config
    }

    /// Its number.
    pub(crate) fn number(&self) -> u64
        ensures { result ≡ self.now.number }
    {
        self.number
    }

    /// How many bytes are kept for it.
    pub(crate) fn bytes(&self) -> u64
        ensures { result ≡ bytes_kept self.now }
    {
        self.total_bytes
    }

    /// Whether `len` bytes more may be kept for it, where `total` are kept for all attempts.
    pub(crate) fn has_room_for(&self, len: u64, total: u64) -> bool
        ensures room { IsTrue result ↔ HasRoomFor self.now len total }
        ensures own { IsTrue result → bytes_kept self.now + len < 2 ^ 64 }
        ensures all { IsTrue result → total + len < 2 ^ 64 }
    {
        fits(self.total_bytes, len, self.limits.incoming_buffer_size)
            && fits(total, len, self.limits.incoming_buffer_size_total)
    }

    /// Keeps a datagram behind the earlier ones. Without memory nothing changes.
    pub(crate) fn push(&mut self, datagram: KeptDatagram) -> Result<(), Memory>
        requires { bytes_kept self.old + length datagram.payload < 2 ^ 64 }
        ensures ok { OnOk result (self.new ≡ record self.old { datagrams = self.old.datagrams ++ datagram ∷ [] }) }
        ensures err { OnErr result (self.new ≡ self.old) }
    {
        let len = datagram.payload.len() as u64;
        self.datagrams.push(datagram)?;
        self.total_bytes += len;
        Ok(())
    }
}

// Whether so many bytes more than `held` are at most `limit`.
fn fits(held: u64, len: u64, limit: u64) -> bool
    ensures { IsTrue result ↔ (held + len ≤ limit) }
{
    len <= limit && held <= limit - len
}
