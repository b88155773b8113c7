use qh_base::{ConnectionId, Span};
use qh_conn::ConnConfig;
use qh_packet::Version;

/// The settings of an endpoint (quinn-proto, `EndpointConfig`).
#[derive(Drop)]
pub struct EndpointConfig {
    /// The versions that it speaks, in the order in which it lists them to a peer (RFC 9000, section 6.1).
    pub versions: Vec<Version>,
    /// Whether the fixed bit of a first byte isn't looked at before a datagram is routed (RFC 9287, section 3.1).
    pub grease_quic_bit: bool,
    /// The least time between two stateless resets.
    pub min_reset_interval: Span,
    /// It can be read, and changes nothing: a datagram has 1,200 bytes at most.
    pub max_udp_payload: u16,
}

/// How a server takes attempts (quinn-proto, `ServerConfig`).
#[derive(Clone, Copy)]
pub struct ServerConfig {
    /// With what its connections begin.
    pub conn: ConnConfig,
    /// How many attempts may wait.
    pub max_incoming: usize,
    /// How many bytes of datagrams behind the first one are kept for an attempt that waits.
    pub incoming_buffer_size: u64,
    /// How many are kept for all attempts.
    pub incoming_buffer_size_total: u64,
    /// How long the token of a Retry packet counts.
    pub retry_token_lifetime: Span,
    /// How long a token for a later connection counts.
    pub validation_lifetime: Span,
}

/// How a client connects (quinn-proto, `ClientConfig`).
#[derive(Clone, Copy)]
pub struct ClientConfig {
    /// With what the connection begins, but for its version.
    pub conn: ConnConfig,
    /// The version of its packets.
    pub version: Version,
    /// The id to which its first packet goes.
    pub initial_dst_cid: ConnectionId,
}
