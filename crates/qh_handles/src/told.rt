use qh_base::Span;
use qh_conn::{ConnectionStats, ControllerMetrics};

/// What a connection tells that its book doesn't have. `D` is what the handshake tells of the peer.
#[derive(Drop)]
pub enum Told<D> {
    /// The smoothed round-trip time (RFC 9002, section 5.3).
    Rtt(Span),
    /// The least round-trip time (RFC 9002, section 5.2).
    MinRtt(Span),
    /// What was done since the connection was made.
    Stats(ConnectionStats),
    /// The congestion window, and the threshold below which it grows fast (RFC 9002, section 7.3).
    CongestionState(ControllerMetrics),
    /// What the handshake tells of the peer, if it is there.
    HandshakeData(Option<D>),
}
