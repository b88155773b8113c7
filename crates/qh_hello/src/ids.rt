//! The ids of the transport parameters (RFC 9000, section 18.2; RFC 9221, section 3).

pub(crate) const ORIGINAL_DESTINATION_CONNECTION_ID: u64 = 0x00;

pub(crate) const MAX_IDLE_TIMEOUT: u64 = 0x01;

pub(crate) const STATELESS_RESET_TOKEN: u64 = 0x02;

pub(crate) const INITIAL_MAX_DATA: u64 = 0x04;

pub(crate) const INITIAL_MAX_STREAM_DATA_BIDI_LOCAL: u64 = 0x05;

pub(crate) const INITIAL_MAX_STREAM_DATA_BIDI_REMOTE: u64 = 0x06;

pub(crate) const INITIAL_MAX_STREAM_DATA_UNI: u64 = 0x07;

pub(crate) const INITIAL_MAX_STREAMS_BIDI: u64 = 0x08;

pub(crate) const INITIAL_MAX_STREAMS_UNI: u64 = 0x09;

pub(crate) const ACTIVE_CONNECTION_ID_LIMIT: u64 = 0x0e;

pub(crate) const INITIAL_SOURCE_CONNECTION_ID: u64 = 0x0f;

pub(crate) const RETRY_SOURCE_CONNECTION_ID: u64 = 0x10;

pub(crate) const MAX_DATAGRAM_FRAME_SIZE: u64 = 0x20;
