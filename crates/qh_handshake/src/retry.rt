ghost use Rattle.std.specs.Prelude.{◌≡◌, ◌≤◌, ℕ, List, length, Some, None, OnErr, IfOk, IfSome, true, false};
ghost use Rattle.qh_handshake.specs.Handshake.{IsHandshake};
ghost use Rattle.qh_handshake.specs.Incoming.{IsMismatch, IsRetryFor, MayRetry, restarted};
ghost use Rattle.qh_handshake.specs.declared.initial_space.InitialSpace.{InitialSpace as ASpace};

use crate::Handshake;
use bytes::Bytes;
use qh_base::{ConnectionId, Memory, Moment, Side};
use qh_packet::{RetryPacket, VersionNegotiation};
use std::alloc::Global;

/// The longest token of a Retry packet that a client takes, in bytes (own).
const MAX_TOKEN: usize = 512;

/// What a client goes on with after a Retry packet.
#[derive(Drop)]
pub(crate) struct NewTry {
    /// Where the Retry packet came from.
    pub(crate) source: ConnectionId,
    /// Its token.
    pub(crate) token: Bytes,
}

impl Handshake {
    // The Retry packet that a datagram is, if this is a client that takes it (RFC 9000, section 17.2.5).
    pub(crate) fn new_try(&self, alloc: Global, datagram: &[u8]) -> Result<Option<NewTry>, Memory>
        ensures some { IfOk result (λ o. IfSome o (λ new. (s : ASpace) × MayRetry self.now s × IsRetryFor self.now datagram.now new.source new.token)) }
        ensures none { IfOk result (λ o. o ≡ None → (s : ASpace) (source token : List ℕ) → MayRetry self.now s → IsRetryFor self.now datagram.now source token → ⊥) }
        ensures wanting { OnErr result ((s : ASpace) × (source token : List ℕ) × MayRetry self.now s × IsRetryFor self.now datagram.now source token) }
        ensures short { IfOk result (λ o. IfSome o (λ new. (length new.source ≤ 20) × (length new.token ≤ 512))) }
    {
        if !self.may_retry() {
            return Ok(None);
        }
        let Some(packet) = RetryPacket::read(datagram) else {
            return Ok(None);
        };
        if !packet.is_for(&self.original_id)
            || packet.token.is_empty()
            || packet.token.len() > MAX_TOKEN
        {
            return Ok(None);
        }
        let Some(source) = ConnectionId::new(packet.source) else {
            return Ok(None);
        };
        let token = Bytes::copy_from_slice(alloc, packet.token)?;
        Ok(Some(NewTry { source, token }))
    }

    // Whether a Retry packet is taken now: by a client that accepted no packet, and no Retry packet.
    fn may_retry(&self) -> bool
        ensures yes { result ≡ true → (s : ASpace) × MayRetry self.now s }
        ensures no { result ≡ false → (s : ASpace) → MayRetry self.now s → ⊥ }
    {
        match self.side {
            Side::Client => !self.knows_peer && self.retry_id.is_none() && self.space.is_some(),
            Side::Server => false,
        }
    }

    // Begins again, with the token.
    pub(crate) fn try_again(&mut self, alloc: Global, now: Moment, new: NewTry)
        requires whole { IsHandshake self.old }
        requires short { length new.token ≤ 512 }
        requires may { (s : ASpace) × MayRetry self.old s }
        ensures restarted { (s : ASpace) → self.old.space ≡ Some s → self.new ≡ restarted now self.old s new.source new.token }
        ensures whole { IsHandshake self.new }
    {
        let NewTry { source, token } = new;
        self.remote_id = source;
        self.retry_id = Some(source);
        self.token = token;
        if let Some(space) = &mut self.space {
            space.restart(alloc, now);
        }
    }

    // Whether a datagram says that the peer doesn't speak this client's version (RFC 9000, section 6.2).
    pub(crate) fn is_mismatch(&self, datagram: &[u8]) -> bool
        ensures yes { result ≡ true → IsMismatch self.now datagram.now }
        ensures no { result ≡ false → IsMismatch self.now datagram.now → ⊥ }
    {
        if let Side::Server = self.side {
            return false;
        }
        if self.knows_peer {
            return false;
        }
        match VersionNegotiation::read(datagram) {
            Some(packet) => !packet.lists(self.version.number()),
            None => false,
        }
    }
}
