//! Codes and types by their names.
use crate::say::Answer;
use qh_base::{Code, TransportErrorCode};
use qh_h3wire::StreamType;
use row_text::{RowFault, Words, put_hex_number};

const TRANSPORT: [(&str, u64); 12] = [
    ("NO_ERROR", TransportErrorCode::NO_ERROR.0),
    ("INTERNAL_ERROR", TransportErrorCode::INTERNAL_ERROR.0),
    (
        "CONNECTION_REFUSED",
        TransportErrorCode::CONNECTION_REFUSED.0,
    ),
    (
        "FLOW_CONTROL_ERROR",
        TransportErrorCode::FLOW_CONTROL_ERROR.0,
    ),
    (
        "STREAM_LIMIT_ERROR",
        TransportErrorCode::STREAM_LIMIT_ERROR.0,
    ),
    (
        "STREAM_STATE_ERROR",
        TransportErrorCode::STREAM_STATE_ERROR.0,
    ),
    ("FINAL_SIZE_ERROR", TransportErrorCode::FINAL_SIZE_ERROR.0),
    (
        "FRAME_ENCODING_ERROR",
        TransportErrorCode::FRAME_ENCODING_ERROR.0,
    ),
    (
        "TRANSPORT_PARAMETER_ERROR",
        TransportErrorCode::TRANSPORT_PARAMETER_ERROR.0,
    ),
    (
        "CONNECTION_ID_LIMIT_ERROR",
        TransportErrorCode::CONNECTION_ID_LIMIT_ERROR.0,
    ),
    (
        "PROTOCOL_VIOLATION",
        TransportErrorCode::PROTOCOL_VIOLATION.0,
    ),
    ("INVALID_TOKEN", TransportErrorCode::INVALID_TOKEN.0),
];

const HTTP: [(&str, u64); 21] = [
    ("H3_DATAGRAM_ERROR", Code::H3_DATAGRAM_ERROR.0),
    ("H3_NO_ERROR", Code::H3_NO_ERROR.0),
    (
        "H3_GENERAL_PROTOCOL_ERROR",
        Code::H3_GENERAL_PROTOCOL_ERROR.0,
    ),
    ("H3_INTERNAL_ERROR", Code::H3_INTERNAL_ERROR.0),
    ("H3_STREAM_CREATION_ERROR", Code::H3_STREAM_CREATION_ERROR.0),
    (
        "H3_CLOSED_CRITICAL_STREAM",
        Code::H3_CLOSED_CRITICAL_STREAM.0,
    ),
    ("H3_FRAME_UNEXPECTED", Code::H3_FRAME_UNEXPECTED.0),
    ("H3_FRAME_ERROR", Code::H3_FRAME_ERROR.0),
    ("H3_EXCESSIVE_LOAD", Code::H3_EXCESSIVE_LOAD.0),
    ("H3_ID_ERROR", Code::H3_ID_ERROR.0),
    ("H3_SETTINGS_ERROR", Code::H3_SETTINGS_ERROR.0),
    ("H3_MISSING_SETTINGS", Code::H3_MISSING_SETTINGS.0),
    ("H3_REQUEST_REJECTED", Code::H3_REQUEST_REJECTED.0),
    ("H3_REQUEST_CANCELLED", Code::H3_REQUEST_CANCELLED.0),
    ("H3_REQUEST_INCOMPLETE", Code::H3_REQUEST_INCOMPLETE.0),
    ("H3_MESSAGE_ERROR", Code::H3_MESSAGE_ERROR.0),
    ("H3_CONNECT_ERROR", Code::H3_CONNECT_ERROR.0),
    ("H3_VERSION_FALLBACK", Code::H3_VERSION_FALLBACK.0),
    (
        "QPACK_DECOMPRESSION_FAILED",
        Code::QPACK_DECOMPRESSION_FAILED.0,
    ),
    (
        "QPACK_ENCODER_STREAM_ERROR",
        Code::QPACK_ENCODER_STREAM_ERROR.0,
    ),
    (
        "QPACK_DECODER_STREAM_ERROR",
        Code::QPACK_DECODER_STREAM_ERROR.0,
    ),
];

const STREAM: [(&str, u64); 5] = [
    ("CONTROL", StreamType::CONTROL.0),
    ("PUSH", StreamType::PUSH.0),
    ("ENCODER", StreamType::ENCODER.0),
    ("DECODER", StreamType::DECODER.0),
    ("GREASE", StreamType::GREASE.0),
];

/// Answers a row. Whether its word is known.
pub(crate) fn answer(
    word: &str,
    words: &mut Words<'_>,
    out: &mut Vec<u8>,
) -> Result<bool, RowFault> {
    let number = match word {
        "transport-error" => number_of(&TRANSPORT, words.next()),
        "error-code" => number_of(&HTTP, words.next()),
        "stream-type" => number_of(&STREAM, words.next()),
        _ => return Ok(false),
    };
    put_hex_number(out, number.ok_or(RowFault::Form)?)?;
    Ok(true)
}

// The number of a name.
fn number_of(table: &[(&str, u64)], name: &str) -> Option<u64> {
    for (known, number) in table {
        if *known == name {
            return Some(*number);
        }
    }
    None
}
