ghost use Rattle.std.specs.Prelude.{◌≡◌, IfOk};
ghost use Rattle.qh_spec.specs.Config.{Fits, default_config as the_default};

use qh_base::{Memory, Span};
use std::alloc::Global;
use std::marker::Model;

/// The settings of an exchange. Both ends know them.
#[derive(Drop)]
pub struct Config {
    /// How many requests there may be.
    pub max_requests: u64,
    /// The greatest size of a field section (RFC 9114, section 4.2.2).
    pub max_field_section_size: u64,
    /// The greatest length of a request's body, in bytes.
    pub max_request_body: u64,
    /// The greatest length of a response's body, in bytes.
    pub max_response_body: u64,
    /// The length of the connection ids that an end gives itself.
    pub local_id_len: u64,
    /// The length of a client's first destination id.
    pub first_id_len: u64,
    /// The versions of QUIC that the ends speak.
    pub versions: Vec<u32>,
    /// The version that the client asks for.
    pub version: u32,
    /// How long an end waits for a packet before it gives up; None is for ever.
    pub idle: Option<Span>,
    /// The round-trip time that counts before one was measured.
    pub initial_rtt: Span,
    /// How many two-way streams the peer may have open.
    pub max_bidi: u64,
    /// How many one-way streams the peer may have open.
    pub max_uni: u64,
    /// How many bytes may come on all streams before they are read.
    pub receive_window: u64,
    /// How many bytes may come on one stream before they are read.
    pub stream_window: u64,
    /// How many bytes may be written before they are acknowledged.
    pub send_window: u64,
    /// The congestion window at the start, in bytes.
    pub initial_window: u64,
    /// How many attempts a server lets wait.
    pub max_incoming: u64,
    /// How many bytes a server keeps for one waiting attempt.
    pub incoming_buffer_size: u64,
    /// How many bytes a server keeps for all waiting attempts.
    pub incoming_buffer_size_total: u64,
    /// Whether the server asks for a Retry.
    pub retry: bool,
    /// How long a Retry's token counts.
    pub retry_token_lifetime: Span,
    /// The least time between two stateless resets.
    pub min_reset_interval: Span,
    /// Whether reserved frames, stream types and settings are sent, to keep peers open to them (RFC 9114, section 7.2.8).
    pub send_grease: bool,
}

impl Model for Config {
    ghost use Rattle.qh_spec.specs.Config.{PlainConfig};

    ghost Value = { PlainConfig };

    ghost use Rattle.qh_script.specs.Config.{plain_config};

    ghost view = { plain_config };
}

/// The settings that count where nothing is said.
pub fn default_config(alloc: Global) -> Result<Config, Memory>
    ensures default { IfOk result (λ c. c ≡ the_default) }
    ensures fits { IfOk result Fits }
{
    let versions = vec![in alloc; 1]?;
    Ok(default_with(versions))
}

/// The same but for the versions, which are these.
pub(crate) fn default_with(versions: Vec<u32>) -> Config
    ensures { result ≡ record the_default { versions = versions.items } }
{
    Config {
        max_requests: 4_096,
        max_field_section_size: 16_384,
        max_request_body: 1_048_576,
        max_response_body: 1_048_576,
        local_id_len: 8,
        first_id_len: 8,
        versions,
        version: 1,
        idle: Some(Span(30_000_000_000)),
        initial_rtt: Span(333_000_000),
        max_bidi: 100,
        max_uni: 100,
        receive_window: 1_048_576,
        stream_window: 1_048_576,
        send_window: 8_388_608,
        initial_window: 14_720,
        max_incoming: 65_536,
        incoming_buffer_size: 10_485_760,
        incoming_buffer_size_total: 104_857_600,
        retry: false,
        retry_token_lifetime: Span(1 << 62),
        min_reset_interval: Span(20_000_000),
        send_grease: true,
    }
}
