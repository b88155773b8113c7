ghost use Rattle.std.specs.Prelude.{◌≡◌, ◌++◌, ◌+◌, ◌≤◌, length, OnOk, OnErr, IfSome, IfNone};
ghost use Rattle.qh_token.specs.Parts.{IsAllowed, value_of_parts};
ghost use Rattle.qh_token.specs.Token.{IsPlain, IsToken, TokenValue, said, token_bytes, value_of};

use crate::parts::{Kind, Parts};
use qh_base::{ConnectionId, Memory, Moment};
use std::net::{IpAddr, SocketAddr};

/// What a token says: that whoever bears it received at an address (own; RFC 9000, section 8.1).
#[derive(Clone, Copy)]
pub struct Token {
    /// Content of the token.
    pub payload: TokenPayload,
    /// A number that no other token of the endpoint has, by which a token is seen to be used again.
    pub nonce: u128,
}

/// For what it was given, and when.
#[derive(Clone, Copy)]
pub enum TokenPayload {
    /// In a Retry packet (RFC 9000, section 8.1.2).
    Retry {
        /// The client's address.
        address: SocketAddr,
        /// The id to which the client's first Initial went.
        orig_dst_cid: ConnectionId,
        issued: Moment,
    },
    /// In a NEW_TOKEN frame, for a later connection (RFC 9000, section 8.1.3).
    Validation {
        /// The client's address, at whatever port.
        ip: IpAddr,
        issued: Moment,
    },
}

impl Token {
    /// Appends the token's bytes, at most 66, or nothing: the nonce in 16 bytes, 0 for a Retry or 1 for a validation, 4 or 6, the address,
    /// the port (0 for a validation), the original id behind its length (none for a validation), the moment in 8 bytes, and 7E (own).
    /// Numbers are in network order. The flow label and the scope of an IPv6 address aren't written.
    pub fn encode(&self, out: &mut Vec<u8>) -> Result<(), Memory>
        ensures ok { OnOk result (out.new.items ≡ out.old.items ++ token_bytes (value_of self.now)) }
        ensures is { OnOk result (IsToken (token_bytes (value_of self.now)) (value_of self.now)) }
        ensures short { OnOk result (length out.new.items ≤ length out.old.items + 66) }
        ensures err { OnErr result (out.new.items ≡ out.old.items) }
    {
        let start = out.len();
        if self.parts().put(out).is_err() {
            out.truncate(start);
            return Err(Memory);
        }
        Ok(())
    }

    /// The token that the bytes are. None exactly if they aren't one. Flow label and scope of its address are 0.
    pub fn decode(bytes: &[u8]) -> Option<Token>
        ensures found { IfSome result (λ t. IsToken bytes.now (value_of t)) }
        ensures none { IfNone result ((v : TokenValue) → IsToken bytes.now v → ⊥) }
        ensures plain { IfSome result (λ t. IsPlain t.payload) }
    {
        let parts = Parts::read(bytes)?;
        Some(Token {
            payload: payload_of(&parts)?,
            nonce: parts.nonce,
        })
    }

    // What is written of it.
    fn parts(&self) -> Parts<'_>
        ensures value { value_of_parts result ≡ value_of self.now }
        ensures allowed { IsAllowed (value_of self.now) }
    {
        let nonce = self.nonce;
        match &self.payload {
            TokenPayload::Retry {
                address,
                orig_dst_cid,
                issued,
            } => Parts {
                nonce,
                kind: Kind::Retry,
                ip: address.ip(),
                port: address.port(),
                original: orig_dst_cid.bytes(),
                issued: *issued,
            },
            TokenPayload::Validation { ip, issued } => Parts {
                nonce,
                kind: Kind::Validation,
                ip: *ip,
                port: 0,
                original: &[],
                issued: *issued,
            },
        }
    }
}

// What the parts say beside the nonce. None exactly if a validation has a port or an id, or an id has more than 20 bytes.
fn payload_of(parts: &Parts) -> Option<TokenPayload>
    ensures found { IfSome result (λ p. said parts.now.nonce p ≡ value_of_parts parts.now) }
    ensures allowed { IfSome result (λ p. IsAllowed (value_of_parts parts.now)) }
    ensures plain { IfSome result IsPlain }
    ensures none { IfNone result (IsAllowed (value_of_parts parts.now) → ⊥) }
{
    let original = ConnectionId::new(parts.original)?;
    let issued = parts.issued;
    match parts.kind {
        Kind::Retry => Some(TokenPayload::Retry {
            address: SocketAddr::new(parts.ip, parts.port),
            orig_dst_cid: original,
            issued,
        }),
        Kind::Validation if parts.port == 0 && original.is_empty() => {
            Some(TokenPayload::Validation {
                ip: parts.ip,
                issued,
            })
        }
        Kind::Validation => None,
    }
}
