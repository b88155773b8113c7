use qh_base::{ConnectionId, ResetToken, VarInt};

/// What an end says of itself in its hello (RFC 9000, section 18.2).
#[derive(Clone, Copy)]
pub struct TransportParameters {
    /// The destination id of the client's first Initial packet. A server alone says it (section 7.3).
    pub original_destination_connection_id: Option<ConnectionId>,
    /// The idle timeout in milliseconds, 0 for none (section 10.1).
    pub max_idle_timeout: VarInt,
    /// The token of its stateless resets. A server alone says it (section 10.3).
    pub stateless_reset_token: Option<ResetToken>,
    /// The limit of the data of all streams together (section 4.1).
    pub initial_max_data: VarInt,
    /// The limit of the data of a two-way stream that it opens itself.
    pub initial_max_stream_data_bidi_local: VarInt,
    /// The limit of the data of a two-way stream that its peer opens.
    pub initial_max_stream_data_bidi_remote: VarInt,
    /// The limit of the data of a one-way stream that its peer opens.
    pub initial_max_stream_data_uni: VarInt,
    /// How many two-way streams its peer may open (section 4.6).
    pub initial_max_streams_bidi: VarInt,
    /// How many one-way streams its peer may open (section 4.6).
    pub initial_max_streams_uni: VarInt,
    /// How many connection ids of its peer's it keeps (section 5.1.1).
    pub active_connection_id_limit: VarInt,
    /// The source id of its first Initial packet (section 7.3).
    pub initial_source_connection_id: ConnectionId,
    /// The source id of the Retry packet that it sent. A server alone says it (section 7.3).
    pub retry_source_connection_id: Option<ConnectionId>,
    /// The greatest DATAGRAM frame that it takes, if it takes them (RFC 9221, section 3).
    pub max_datagram_frame_size: Option<VarInt>,
}
