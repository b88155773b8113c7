ghost use Rattle.std.specs.Prelude.{◌≡◌};
ghost use Rattle.qh_core.specs.Config.{bounded, peer_of, space_config};

use qh_base::{Span, VarInt};
use qh_space::SpaceConfig;
use qh_streams::{PeerLimits, StreamLimits};

/// What a connection begins with (RFC 9000, section 18.2).
#[derive(Clone, Copy)]
pub struct ConnConfig {
    /// What this end announces, and how much it holds to send.
    pub limits: StreamLimits,
    /// The first limits of the peer: what its hello says.
    pub peer: PeerLimits,
    /// The longest payload of a DATAGRAM frame that this end takes, None if it takes none (RFC 9221, section 3).
    pub datagram_receive: Option<u64>,
    /// The longest payload of a DATAGRAM frame that the peer takes, None if it takes none: what its hello says, less the bytes of the
    /// frame's type and length.
    pub peer_datagram: Option<u64>,
    /// After so long without a packet the connection ends (RFC 9000, section 10.1); None: it never does so.
    pub idle: Option<Span>,
    /// The round-trip time before a sample (RFC 9002, section 6.2.2).
    pub initial_rtt: Span,
    /// How many bytes may be in flight at first (RFC 9002, section 7.2).
    pub initial_window: u64,
}

impl ConnConfig {
    // What the space of application data begins with.
    pub(crate) fn space(&self) -> SpaceConfig
        ensures { result ≡ space_config self.now }
    {
        SpaceConfig {
            limits: self.limits,
            peer: self.peer,
            datagram_receive: self.datagram_receive,
            initial_rtt: self.initial_rtt,
            initial_window: self.initial_window,
        }
    }
}

/// The first limits that an end with these limits announces.
pub fn first_limits(limits: StreamLimits) -> PeerLimits
    ensures { result ≡ peer_of limits }
{
    let stream = bounded(limits.stream_window);
    PeerLimits {
        max_data: bounded(limits.receive_window),
        bidi_local: stream,
        bidi_remote: stream,
        uni: stream,
        max_bidi: limits.max_bidi,
        max_uni: limits.max_uni,
    }
}

// The value, or the greatest that a frame can bear.
pub(crate) fn bounded(value: u64) -> VarInt
    ensures { result ≡ bounded value }
{
    VarInt::from_u64(value.min(VarInt::MAX_VALUE)).unwrap()
}
