ghost use Rattle.qh_incoming_token.specs.IncomingToken.{IsOfSender, IsTakenFor, unvalidated};
ghost use Rattle.std.specs.Prelude.{◌≡◌, ◌↔◌, ◌+◌, ◌≤◌, IsTrue, None, Some, true};
ghost use Rattle.std.specs.Net.Socket.{socket_ip, socket_port};
ghost use Rattle.qh_token.specs.Token.{octets};

use qh_base::{ConnectionId, Moment, Span};
use qh_parts::{TokenFault, TokenLog};
use qh_token::{Token, TokenPayload};
use std::alloc::Global;
use std::net::{IpAddr, SocketAddr};

/// How long tokens count from when they were issued.
#[derive(Clone, Copy)]
pub struct TokenLifetimes {
    /// Those of Retry packets.
    pub retry: Span,
    /// Those for later connections.
    pub validation: Span,
}

/// What is known of the sender of a client's first Initial (quinn-proto, `IncomingToken`).
#[derive(Clone, Copy)]
pub struct IncomingToken {
    /// If it answers a Retry packet, the id that this one came from.
    pub retry_src_cid: Option<ConnectionId>,
    /// The id that the client's very first Initial went to.
    pub orig_dst_cid: ConnectionId,
    /// Whether the client is known to receive at its address.
    pub validated: bool,
}

/// Why an attempt isn't taken (quinn-proto, `InvalidRetryTokenError`).
#[derive(Clone, Copy, PartialEq, Eq)]
pub enum IncomingTokenFault {
    /// The token of a Retry packet came from another address or port than that to which it was sent, or too late. The attempt is closed with
    /// INVALID_TOKEN (RFC 9000, section 8.1.3).
    InvalidRetryToken,
    /// The allocator had no memory to note that a token was used. It counts as not used; the periods of the log may have moved.
    Memory,
}

impl IncomingToken {
    /// What the token of an Initial to `dst_cid` from `remote` says. Bytes that are no token say nothing, nor does a token for later connections
    /// that comes from another address or too late, or that was used before: the attempt goes on as if there were none. Of an IPv6 address flow
    /// label and scope don't count.
    pub fn from_header<L: TokenLog>(
        alloc: Global,
        token: &[u8],
        dst_cid: ConnectionId,
        remote: SocketAddr,
        now: Moment,
        lifetimes: &TokenLifetimes,
        log: &mut L,
    ) -> Result<IncomingToken, IncomingTokenFault>
        ensures { IsTakenFor L.limits L.stands lifetimes.now remote now dst_cid token.now log.old log.new result }
    {
        let Some(token) = Token::decode(token) else {
            return Ok(IncomingToken::unvalidated(dst_cid));
        };
        match &token.payload {
            TokenPayload::Retry {
                address,
                orig_dst_cid,
                issued,
            } => {
                if counts_as_retry(address, *issued, lifetimes.retry, &remote, now) {
                    return Ok(IncomingToken::retried(dst_cid, *orig_dst_cid));
                }
                Err(IncomingTokenFault::InvalidRetryToken)
            }
            TokenPayload::Validation { ip, issued } => {
                if !is_of(*ip, *issued, lifetimes.validation, &remote, now) {
                    return Ok(IncomingToken::unvalidated(dst_cid));
                }
                let looked = log.check_and_insert(
                    alloc,
                    token.nonce,
                    *issued,
                    lifetimes.validation,
                );
                match looked {
                    Ok(()) => Ok(IncomingToken::validated(dst_cid)),
                    Err(fault) => match fault {
                        TokenFault::Reused => Ok(IncomingToken::unvalidated(dst_cid)),
                        TokenFault::Memory => Err(IncomingTokenFault::Memory),
                    },
                }
            }
        }
    }

    fn retried(dst_cid: ConnectionId, orig_dst_cid: ConnectionId) -> IncomingToken
        ensures { result ≡ record { retry_src_cid = Some dst_cid; orig_dst_cid = orig_dst_cid; validated = true } }
    {
        IncomingToken {
            retry_src_cid: Some(dst_cid),
            orig_dst_cid,
            validated: true,
        }
    }

    fn unvalidated(dst_cid: ConnectionId) -> IncomingToken
        ensures { result ≡ unvalidated dst_cid }
    {
        IncomingToken {
            retry_src_cid: None,
            orig_dst_cid: dst_cid,
            validated: false,
        }
    }

    fn validated(dst_cid: ConnectionId) -> IncomingToken
        ensures { result ≡ record { retry_src_cid = None; orig_dst_cid = dst_cid; validated = true } }
    {
        IncomingToken {
            retry_src_cid: None,
            orig_dst_cid: dst_cid,
            validated: true,
        }
    }
}

// Whether what was issued to this address is used by a sender of this address within its life.
fn is_of(ip: IpAddr, issued: Moment, lifetime: Span, remote: &SocketAddr, now: Moment) -> bool
    ensures { IsTrue result ↔ ((octets ip ≡ octets (socket_ip remote.now)) × (now.0 ≤ issued.0 + lifetime.0)) }
{
    is_same_ip(&ip, &remote.ip()) && now.0 <= issued.0.saturating_add(lifetime.0)
}

// The same of a token that was sent to this address and port.
fn counts_as_retry(
    address: &SocketAddr,
    issued: Moment,
    lifetime: Span,
    remote: &SocketAddr,
    now: Moment,
) -> bool
    ensures { IsTrue result ↔ ((octets (socket_ip address.now) ≡ octets (socket_ip remote.now)) × (now.0 ≤ issued.0 + lifetime.0) × (socket_port address.now ≡ socket_port remote.now)) }
{
    is_of(address.ip(), issued, lifetime, remote, now) && address.port() == remote.port()
}

// Whether both addresses have the same bytes.
fn is_same_ip(ip: &IpAddr, other: &IpAddr) -> bool
    ensures { IsTrue result ↔ (octets ip.now ≡ octets other.now) }
{
    match ip {
        IpAddr::V4(ip) => has_octets(other, &ip.octets()),
        IpAddr::V6(ip) => has_octets(other, &ip.octets()),
    }
}

fn has_octets(ip: &IpAddr, bytes: &[u8]) -> bool
    ensures { IsTrue result ↔ (bytes.now ≡ octets ip.now) }
{
    match ip {
        IpAddr::V4(ip) => bytes == ip.octets().as_slice(),
        IpAddr::V6(ip) => bytes == ip.octets().as_slice(),
    }
}
