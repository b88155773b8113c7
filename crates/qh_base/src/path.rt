use std::net::{IpAddr, SocketAddr};

/// The addresses of a path: the peer's, and this end's where it is known. The port of this end is that of its socket.
#[derive(Clone, Copy)]
pub struct FourTuple {
    pub remote: SocketAddr,
    pub local_ip: Option<IpAddr>,
}

/// Where a datagram is to be sent that was written into a buffer beside it.
#[derive(Clone, Copy)]
pub struct Transmit {
    /// The address that it goes to.
    pub destination: SocketAddr,
    /// How many bytes it has.
    pub size: usize,
    /// The address that it comes from, where that isn't left to the socket.
    pub src_ip: Option<IpAddr>,
}
