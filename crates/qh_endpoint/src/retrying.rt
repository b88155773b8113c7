ghost use Rattle.std.specs.Prelude.{◌≡◌, ◌↔◌, ◌<◌, ◌≤◌, ◌^◌, ℕ, [], ◌∷◌, length, IfErr, IfOk, IfSome, IsTrue, None, OnErr, Some, is_some, true};
ghost use Rattle.qh_attempts.specs.Attempts.{IsPending, PlainAttempt, attempt_at, config_at};
ghost use Rattle.qh_connections.specs.Ids.{IsSameSource};
ghost use Rattle.qh_endpoint.specs.Closed.{reply_to};
ghost use Rattle.qh_endpoint.specs.Endpoint.{PlainEndpoint};
ghost use Rattle.qh_endpoint.specs.Leaving.{HasLeft};
ghost use Rattle.qh_endpoint.specs.Retrying.{IsNotRetried, IsRetryWritten, later_token, nonce_of};
ghost use Rattle.qh_endpoint.specs.declared.incoming.Waiting.{Waiting as AWaiting};
ghost use Rattle.qh_endpoint.specs.declared.retrying.RetryFault.TheVariants as fault;
ghost use Rattle.qh_stateless.specs.Words.{and_words};
ghost use Rattle.qh_token.specs.Token.{IsToken, said};

use crate::closing::reply;
use crate::incoming::FirstPacket;
use crate::{Endpoint, Incoming};
use bytes::Bytes;
use qh_base::{FourTuple, Memory, Moment, Transmit};
use qh_kit::Kit;
use qh_packet::put_retry;
use qh_stateless::Words;
use qh_token::{Token, TokenPayload};
use std::net::IpAddr;

/// Why an attempt isn't answered by a Retry packet.
#[derive(Clone, Copy, PartialEq, Eq)]
pub enum RetryFault {
    /// It answers a Retry packet itself (RFC 9000, section 17.2.5.2).
    Answered,
    /// No id could be drawn for the packet: 64 in a row are issued, or ones to which first packets of clients go, the attempt's own among them, from
    /// which a Retry packet may not come (section 17.2.5.1).
    CidsExhausted,
    /// The allocator had no memory.
    Memory,
}

/// An attempt that isn't answered by a Retry packet, and waits still (quinn-proto, `RetryError`).
#[derive(Drop)]
pub struct RetryError {
    incoming: Incoming,
    cause: RetryFault,
}

impl RetryError {
    /// The attempt.
    pub fn into_incoming(self) -> Incoming
        ensures { result ≡ self.incoming }
    {
        self.incoming
    }

    /// Why it isn't answered.
    pub fn cause(&self) -> RetryFault
        ensures { result ≡ self.now.cause }
    {
        self.cause
    }

    /// Whether memory was wanting.
    pub fn memory(&self) -> bool
        ensures { IsTrue result ↔ (self.now.cause ≡ fault.Memory) }
    {
        self.cause == RetryFault::Memory
    }
}

impl<K: Kit> Endpoint<K> {
    /// The attempt is answered by a Retry packet, which is written into the buffer, which is empty, and waits no more: its client comes again with the
    /// token (RFC 9000, section 8.1.2; quinn-proto, `Endpoint::retry`). Else it is handed back, and waits still.
    pub fn retry(
        &mut self,
        incoming: Incoming,
        now: Moment,
        buf: &mut Vec<u8>,
    ) -> Result<Transmit, RetryError>
        requires pending { IsPending self.old.incoming incoming.key }
        requires written { buf.old.items ≡ [] }
        ensures retried { IfOk result (λ transmit. (attempt : PlainAttempt AWaiting) × (mid : PlainEndpoint K K.G K.R K.T) × IsRetryWritten K.G.cid_len K.G.validates K.G.given K.R.given now attempt.config self.old mid buf.new.items
            × HasLeft incoming.key attempt mid self.new × (transmit ≡ reply_to attempt.config.addresses (length buf.new.items))) }
        ensures kept { IfErr result (λ e. (attempt : PlainAttempt AWaiting) × (attempt_at self.old.incoming incoming.key.key ≡ Some attempt) × IsNotRetried K.G.cid_len K.G.validates K.G.given K.R.given attempt.config self.old self.new e.cause) }
        ensures back { IfErr result (λ e. e.incoming ≡ incoming) }
        ensures unwritten { IfErr result (λ e. buf.new.items ≡ []) }
        ensures source { IsSameSource K.G.cid_len K.G.validates self.old.connections.ids self.new.connections.ids }
    {
        match self.write_retry(incoming.key.key, now, buf) {
            Ok(transmit) => {
                let _ = self.take(&incoming);
                Ok(transmit)
            }
            Err(cause) => Err(RetryError { incoming, cause }),
        }
    }

    /// A token by which a client shows at a later connection that it receives at this address (RFC 9000, section 8.1.3). `Connection::queue_token`
    /// sends it. Two words are drawn for its nonce, after want of memory too.
    pub fn validation_token(&mut self, remote: IpAddr, now: Moment) -> Result<Bytes, Memory>
        ensures token { IfOk result (λ token. (high low : ℕ) × (high < 2 ^ 64) × (low < 2 ^ 64) × (K.R.given self.new.words ≡ and_words (K.R.given self.old.words) (high ∷ low ∷ [])) × IsToken token (later_token (nonce_of high low) remote now)) }
        ensures short { IfOk result (λ token. length token ≤ 66) }
        ensures drawn { OnErr result ((high low : ℕ) × (K.R.given self.new.words ≡ and_words (K.R.given self.old.words) (high ∷ low ∷ []))) }
        ensures rest { self.new ≡ record self.old { words = self.new.words } }
    {
        let payload = TokenPayload::Validation {
            ip: remote,
            issued: now,
        };
        let token = self.token(payload)?;
        Ok(Bytes::from_vec(token)?)
    }

    // Writes a Retry packet to the client of the attempt that waits by this key.
    fn write_retry(
        &mut self,
        key: usize,
        now: Moment,
        buf: &mut Vec<u8>,
    ) -> Result<Transmit, RetryFault>
        requires pending { is_some (attempt_at self.old.incoming key) ≡ true }
        requires written { buf.old.items ≡ [] }
        ensures put { IfOk result (λ transmit. (w : AWaiting) → config_at self.old.incoming key ≡ Some w → IsRetryWritten K.G.cid_len K.G.validates K.G.given K.R.given now w self.old self.new buf.new.items × (transmit ≡ reply_to w.addresses (length buf.new.items))) }
        ensures none { IfErr result (λ e. (w : AWaiting) → config_at self.old.incoming key ≡ Some w → IsNotRetried K.G.cid_len K.G.validates K.G.given K.R.given w self.old self.new e) }
        ensures unwritten { IfErr result (λ e. buf.new.items ≡ []) }
        ensures waits { self.new.incoming ≡ self.old.incoming }
        ensures source { IsSameSource K.G.cid_len K.G.validates self.old.connections.ids self.new.connections.ids }
    {
        let (addresses, first) = self.waiting_at(key);
        let FirstPacket {
            version: _,
            destination,
            source,
            token: known,
        } = first;
        if known.retry_src_cid.is_some() {
            return Err(RetryFault::Answered);
        }
        let Some(id) = self.connections.draw_but(&destination) else {
            return Err(RetryFault::CidsExhausted);
        };
        let payload = TokenPayload::Retry {
            address: addresses.remote,
            orig_dst_cid: destination,
            issued: now,
        };
        let Ok(token) = self.token(payload) else {
            return Err(RetryFault::Memory);
        };
        match put_retry(buf, &source, &id, &token, &destination) {
            Ok(()) => Ok(reply(&addresses, buf.len())),
            Err(Memory) => Err(RetryFault::Memory),
        }
    }

    /// Where the client is whose attempt waits by this key, and what its first packet says.
    pub(crate) fn waiting_at(&self, key: usize) -> (FourTuple, FirstPacket)
        requires { is_some (attempt_at self.now.incoming key) ≡ true }
        ensures { (w : AWaiting) → config_at self.now.incoming key ≡ Some w → (result.0 ≡ w.addresses) × (result.1 ≡ w.first) }
    {
        let waiting = self.incoming.config(key).unwrap();
        (waiting.addresses, waiting.first)
    }

    // The bytes of a token with a new nonce.
    fn token(&mut self, payload: TokenPayload) -> Result<Vec<u8>, Memory>
        ensures token { (high low : ℕ) × (high < 2 ^ 64) × (low < 2 ^ 64) × (K.R.given self.new.words ≡ and_words (K.R.given self.old.words) (high ∷ low ∷ [])) × IfOk result (λ token. IsToken token.items (said (nonce_of high low) payload)) }
        ensures short { IfOk result (λ token. length token.items ≤ 66) }
        ensures some { IfOk result (λ token. 0 < length token.items) }
        ensures rest { self.new ≡ record self.old { words = self.new.words } }
    {
        let high = self.words.next();
        let low = self.words.next();
        let nonce = (1 << 64) * u128::from(high) + u128::from(low);
        let mut token = Vec::new(self.alloc);
        Token { payload, nonce }.encode(&mut token)?;
        Ok(token)
    }
}
