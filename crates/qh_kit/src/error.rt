use std::net::SocketAddr;
use thiserror::Error;

/// Why an endpoint doesn't connect (quinn-proto, `ConnectError`).
#[derive(Clone, Copy, Debug, PartialEq, Eq, Error)]
pub enum ConnectError {
    /// The endpoint stops.
    #[error("the endpoint stops")]
    EndpointStopping,
    /// There is no further connection id: fewer than a quarter of the ids of their length is left, or 64 in a row are issued.
    #[error("connection ids are exhausted")]
    CidsExhausted,
    /// The server name is empty, or has more than 255 bytes.
    #[error("invalid server name")]
    InvalidServerName,
    /// The address has port 0, or is an unspecified one.
    #[error("invalid remote address: {0}")]
    InvalidRemoteAddress(SocketAddr),
    /// No settings were given.
    #[error("there are no default settings for clients")]
    NoDefaultClientConfig,
    /// The endpoint doesn't speak the version.
    #[error("unsupported version of QUIC")]
    UnsupportedVersion,
    /// The allocator had no memory.
    #[error("out of memory")]
    Memory,
}

/// Why an event of a connection's isn't answered.
#[derive(Clone, Copy, Debug, PartialEq, Eq, Error)]
pub enum EventFault {
    /// 64 connection ids in a row are issued.
    #[error("connection ids are exhausted")]
    CidsExhausted,
    /// The allocator had no memory.
    #[error("out of memory")]
    Memory,
}
