ghost use Rattle.std.specs.Prelude.{◌≡◌, ◌≤◌, ◌^◌, ℕ, [], List, Some, min, length, IfSome};
ghost use Rattle.qh_base.specs.declared.shared.ResetToken.{ResetToken as AToken};
ghost use Rattle.qh_conn.specs.Parameters.{core_config, parameters_of, token_if_server};
ghost use Rattle.qh_converse.specs.Settled.{datagram_of, idle_of, milliseconds, peer_limits};
ghost use Rattle.qh_hello.specs.Greetings.{greeting};
ghost use Rattle.qh_spec.specs.Hello.{IsSayable};
ghost use Rattle.qh_spec.specs.declared.sides.Side.TheVariants.{Client, Server};
ghost use Rattle.qh_token.specs.Reset.{reset_token_of};

use qh_base::{ConnectionId, ResetToken, Side, Span, VarInt};
use qh_cids::LIMIT;
use qh_core::first_limits;
use qh_hello::TransportParameters;
use qh_packet::Version;
use qh_streams::{PeerLimits, StreamLimits};
use qh_token::reset_token;

/// What a connection begins with: what it says of itself, and how it sends (RFC 9000, section 18.2; quinn-proto, `TransportConfig`).
#[derive(Clone, Copy)]
pub struct ConnConfig {
    /// What this end announces, and how much it holds to send.
    pub limits: StreamLimits,
    /// After so long without a packet the connection ends (RFC 9000, section 10.1), as far as whole milliseconds can say it; None: it says
    /// none.
    pub idle: Option<Span>,
    /// The round-trip time before a sample (RFC 9002, section 6.2.2).
    pub initial_rtt: Span,
    /// How many bytes may be in flight at first (RFC 9002, section 7.2).
    pub initial_window: u64,
    /// The longest payload of a DATAGRAM frame that this end takes, and how many bytes of them may wait to be read; None: it takes none
    /// (RFC 9221).
    pub datagram_receive: Option<u64>,
    /// How many bytes of payloads of DATAGRAM frames may wait to be sent.
    pub datagram_send: u64,
    /// The version of its packets; there is one (RFC 9000, section 15).
    pub version: Version,
}

/// The greatest DATAGRAM frame that is announced: no datagram has more bytes (own).
const DATAGRAM_SIZE: u64 = 1_200;

/// No count of streams is greater (RFC 9000, section 4.6).
const STREAMS: u64 = 1 << 60;

impl ConnConfig {
    /// What an end with this id says of itself.
    pub(crate) fn parameters(&self, side: Side, local_id: ConnectionId) -> TransportParameters
        ensures said { (token : AToken) × (token.0 ≡ reset_token_of local_id) × (result ≡ parameters_of self.now side local_id token) }
        ensures client { side ≡ Client → (name : List ℕ) → length name ≤ 255 → IsSayable (greeting Client name result) }
        ensures server { side ≡ Server → IsSayable (greeting Server [] result) }
    {
        let limits = first_limits(self.limits);
        let token = reset_token(&local_id);
        TransportParameters {
            original_destination_connection_id: None,
            max_idle_timeout: milliseconds(self.idle),
            stateless_reset_token: token_if_server(side, token),
            initial_max_data: limits.max_data,
            initial_max_stream_data_bidi_local: limits.bidi_local,
            initial_max_stream_data_bidi_remote: limits.bidi_remote,
            initial_max_stream_data_uni: limits.uni,
            initial_max_streams_bidi: stream_count(limits.max_bidi),
            initial_max_streams_uni: stream_count(limits.max_uni),
            active_connection_id_limit: VarInt::from_u32(LIMIT as u32),
            initial_source_connection_id: local_id,
            retry_source_connection_id: None,
            max_datagram_frame_size: self.datagram_receive.map(datagram_size),
        }
    }

    /// What the end of the 1-RTT packets begins with, before the peer's hello came.
    pub(crate) fn core(&self) -> qh_core::ConnConfig
        ensures { result ≡ core_config self.now }
    {
        let none = VarInt::from_u32(0);
        qh_core::ConnConfig {
            limits: self.limits,
            peer: PeerLimits {
                max_data: none,
                bidi_local: none,
                bidi_remote: none,
                uni: none,
                max_bidi: 0,
                max_uni: 0,
            },
            idle: self.idle,
            initial_rtt: self.initial_rtt,
            initial_window: self.initial_window,
            datagram_receive: self.datagram_receive,
            peer_datagram: None,
        }
    }
}

/// The first limits that a hello with these parameters says.
pub(crate) fn peer_limits(parameters: &TransportParameters) -> PeerLimits
    ensures { result ≡ peer_limits parameters.now }
{
    PeerLimits {
        max_data: parameters.initial_max_data,
        bidi_local: parameters.initial_max_stream_data_bidi_local,
        bidi_remote: parameters.initial_max_stream_data_bidi_remote,
        uni: parameters.initial_max_stream_data_uni,
        max_bidi: parameters.initial_max_streams_bidi.into_inner(),
        max_uni: parameters.initial_max_streams_uni.into_inner(),
    }
}

/// The idle time in force of the one that this end says and the one that its peer does, in milliseconds, 0 for none (RFC 9000, section
/// 10.1).
pub(crate) fn idle_in_force(own: VarInt, peer: VarInt) -> Option<Span>
    ensures { result ≡ idle_of own peer }
{
    let millis = match (own.into_inner(), peer.into_inner()) {
        (0, 0) => return None,
        (0, only) | (only, 0) => only,
        (own, peer) => own.min(peer),
    };
    Some(Span::from_millis(millis))
}

/// The longest payload of a DATAGRAM frame that a peer takes whose hello gives this max_datagram_frame_size, which counts the three bytes of
/// type and length, and that has room in each packet (own). None if it takes not even an empty one, with two bytes of type and length, as none with
/// 0 does (RFC 9221, section 3).
pub(crate) fn datagram_payload(size: VarInt) -> Option<u64>
    ensures value { result ≡ datagram_of (Some size) }
    ensures short { IfSome result (λ most. most ≤ 1140) }
{
    let size = size.into_inner();
    if size < 2 {
        return None;
    }
    Some(size.saturating_sub(3).min(1_140))
}

// A server alone says the token of its stateless resets.
fn token_if_server(side: Side, token: ResetToken) -> Option<ResetToken>
    ensures { result ≡ token_if_server side token }
{
    match side {
        Side::Client => None,
        Side::Server => Some(token),
    }
}

// Whole milliseconds, 0 for none.
fn milliseconds(idle: Option<Span>) -> VarInt
    ensures { result ≡ milliseconds idle }
{
    match idle {
        None => VarInt::from_u32(0),
        Some(span) => VarInt::from_u64(span.0 / 1_000_000).unwrap_or(VarInt::from_u32(0)),
    }
}

// The greatest DATAGRAM frame that an end says it takes.
fn datagram_size(most: u64) -> VarInt
    ensures { result ≡ min most 1200 }
{
    VarInt::from_u64(most.min(DATAGRAM_SIZE)).unwrap()
}

fn stream_count(count: u64) -> VarInt
    ensures { result ≡ min count (2 ^ 60) }
{
    VarInt::from_u64(count.min(STREAMS)).unwrap()
}
