ghost use Rattle.std.specs.Prelude.{◌≡◌, is_some, not};

use bytes::Bytes;
use qh_attempts::AttemptKey;
use qh_base::{ConnectionId, FourTuple, Moment};
use qh_incoming_token::IncomingToken;
use qh_kit::ServerConfig;
use qh_packet::Version;
use std::net::{IpAddr, SocketAddr};

/// What the first packet of an attempt says (quinn-proto, `InitialHeader`).
#[derive(Clone, Copy)]
pub struct FirstPacket {
    /// The version of the client's packets.
    pub version: Version,
    /// The id to which they go.
    pub destination: ConnectionId,
    /// The id from which they come.
    pub source: ConnectionId,
    /// What its token says of the client.
    pub token: IncomingToken,
}

/// What an endpoint keeps with an attempt that waits.
#[derive(Drop)]
pub struct Waiting {
    /// The server config under which it came.
    pub server: ServerConfig,
    /// When its first datagram came.
    pub received_at: Moment,
    /// Over which addresses.
    pub addresses: FourTuple,
    /// What its first packet says.
    pub first: FirstPacket,
    /// Its first datagram.
    pub datagram: Bytes,
}

/// A connection attempt that waits to be accepted, refused, retried or ignored (quinn-proto, `Incoming`). It is a token: the endpoint keeps the
/// attempt, and what is told here of it are copies.
#[derive(Drop)]
pub struct Incoming {
    pub(crate) key: AttemptKey,
    pub(crate) addresses: FourTuple,
    pub(crate) token: IncomingToken,
}

impl Incoming {
    /// The address of this end to which its first datagram came, if it is known.
    pub fn local_ip(&self) -> Option<IpAddr>
        ensures { result ≡ self.now.addresses.local_ip }
    {
        self.addresses.local_ip
    }

    /// Where its first datagram came from.
    pub fn remote_address(&self) -> SocketAddr
        ensures { result ≡ self.now.addresses.remote }
    {
        self.addresses.remote
    }

    /// Whether its client is known to receive at that address, by a token (RFC 9000, section 8.1).
    pub fn remote_address_validated(&self) -> bool
        ensures { result ≡ self.now.token.validated }
    {
        self.token.validated
    }

    /// Whether a Retry packet may answer it: it answers none itself (RFC 9000, section 17.2.5.2).
    pub fn may_retry(&self) -> bool
        ensures { result ≡ not (is_some self.now.token.retry_src_cid) }
    {
        self.token.retry_src_cid.is_none()
    }

    /// The id to which the client's very first Initial went.
    pub fn orig_dst_cid(&self) -> ConnectionId
        ensures { result ≡ self.now.token.orig_dst_cid }
    {
        self.token.orig_dst_cid
    }
}
