ghost use Rattle.std.specs.Prelude.{◌≡◌, ◌<◌, ◌≤◌, ◌^◌, ◌++◌, [], ◌∷◌, length, OnOk};
ghost use Rattle.qh_hello.specs.Greetings.{first_parameters, last_parameters, limits_of, parameters_of, token_of};
ghost use Rattle.qh_hello.specs.Put.{IsPut};
ghost use Rattle.qh_spec.specs.Hello.{hello_byte, number_parameter, bytes_if_some, number_if_some, limit_parameters};
ghost use Rattle.qh_spec.specs.ParameterIds as parameter_ids;
ghost use Rattle.qh_spec.specs.Varint.{varint};

use crate::TransportParameters;
use crate::ids::{
    ACTIVE_CONNECTION_ID_LIMIT, INITIAL_MAX_DATA, INITIAL_MAX_STREAM_DATA_BIDI_LOCAL,
    INITIAL_MAX_STREAM_DATA_BIDI_REMOTE, INITIAL_MAX_STREAM_DATA_UNI, INITIAL_MAX_STREAMS_BIDI,
    INITIAL_MAX_STREAMS_UNI, INITIAL_SOURCE_CONNECTION_ID, MAX_DATAGRAM_FRAME_SIZE,
    MAX_IDLE_TIMEOUT, ORIGINAL_DESTINATION_CONNECTION_ID, RETRY_SOURCE_CONNECTION_ID,
    STATELESS_RESET_TOKEN,
};
use crate::split::hello_byte;
use qh_base::{ConnectionId, Memory, ResetToken, Side, VarInt, put_varint};

/// Appends a hello, of its name and the bytes of its parameters.
pub(crate) fn put_hello_parts(
    out: &mut Vec<u8>,
    sender: Side,
    server_name: &[u8],
    parameters: &[u8],
) -> Result<(), Memory>
    requires name { length server_name.now < 2 ^ 62 }
    requires parameters { length parameters.now < 2 ^ 62 }
    ensures ok { OnOk result (out.new.items
        ≡ out.old.items ++ (hello_byte sender ∷ (varint (length server_name.now) ++ (server_name.now ++ (varint (length parameters.now) ++ parameters.now))))) }
{
    out.push(hello_byte(sender))?;
    put_varint(out, number(server_name.len() as u64))?;
    out.extend_from_slice(server_name)?;
    put_varint(out, number(parameters.len() as u64))?;
    out.extend_from_slice(parameters)?;
    Ok(())
}

/// Appends the parameters of an end, in the order of their ids.
pub(crate) fn put_parameters(
    out: &mut Vec<u8>,
    parameters: &TransportParameters,
) -> Result<(), Memory>
    ensures { OnOk result (IsPut out.old.items out.new.items (parameters_of parameters.now)) }
{
    put_first(out, parameters)?;
    put_limits(out, parameters)?;
    put_last(out, parameters)
}

// Appends the parameters before the limits.
fn put_first(out: &mut Vec<u8>, parameters: &TransportParameters) -> Result<(), Memory>
    ensures { OnOk result (IsPut out.old.items out.new.items (first_parameters parameters.now)) }
{
    put_id_if_some(
        out,
        ORIGINAL_DESTINATION_CONNECTION_ID,
        parameters.original_destination_connection_id,
    )?;
    put_number(out, MAX_IDLE_TIMEOUT, parameters.max_idle_timeout)?;
    put_token_if_some(out, parameters.stateless_reset_token)
}

// Appends the limits.
fn put_limits(out: &mut Vec<u8>, parameters: &TransportParameters) -> Result<(), Memory>
    ensures { OnOk result (IsPut out.old.items out.new.items (limit_parameters (limits_of parameters.now))) }
{
    put_number(out, INITIAL_MAX_DATA, parameters.initial_max_data)?;
    put_number(
        out,
        INITIAL_MAX_STREAM_DATA_BIDI_LOCAL,
        parameters.initial_max_stream_data_bidi_local,
    )?;
    put_number(
        out,
        INITIAL_MAX_STREAM_DATA_BIDI_REMOTE,
        parameters.initial_max_stream_data_bidi_remote,
    )?;
    put_number(
        out,
        INITIAL_MAX_STREAM_DATA_UNI,
        parameters.initial_max_stream_data_uni,
    )?;
    put_number(
        out,
        INITIAL_MAX_STREAMS_BIDI,
        parameters.initial_max_streams_bidi,
    )?;
    put_number(
        out,
        INITIAL_MAX_STREAMS_UNI,
        parameters.initial_max_streams_uni,
    )
}

// Appends the parameters behind the limits.
fn put_last(out: &mut Vec<u8>, parameters: &TransportParameters) -> Result<(), Memory>
    ensures { OnOk result (IsPut out.old.items out.new.items (last_parameters parameters.now)) }
{
    put_number(
        out,
        ACTIVE_CONNECTION_ID_LIMIT,
        parameters.active_connection_id_limit,
    )?;
    put_bytes(
        out,
        INITIAL_SOURCE_CONNECTION_ID,
        parameters.initial_source_connection_id.bytes(),
    )?;
    put_id_if_some(
        out,
        RETRY_SOURCE_CONNECTION_ID,
        parameters.retry_source_connection_id,
    )?;
    put_number_if_some(
        out,
        MAX_DATAGRAM_FRAME_SIZE,
        parameters.max_datagram_frame_size,
    )
}

// Appends a parameter.
fn put_bytes(out: &mut Vec<u8>, id: u64, value: &[u8]) -> Result<(), Memory>
    requires id { id < 64 }
    requires short { length value.now ≤ 20 }
    ensures { OnOk result (IsPut out.old.items out.new.items (record { id = id; value = value.now } ∷ [])) }
{
    put_varint(out, number(id))?;
    put_varint(out, number(value.len() as u64))?;
    out.extend_from_slice(value)?;
    Ok(())
}

// Appends a parameter that is a number.
fn put_number(out: &mut Vec<u8>, id: u64, n: VarInt) -> Result<(), Memory>
    requires { id < 64 }
    ensures { OnOk result (IsPut out.old.items out.new.items (number_parameter id n ∷ [])) }
{
    put_varint(out, number(id))?;
    put_varint(out, number(n.size() as u64))?;
    put_varint(out, n)
}

// Appends a connection id, if there is one.
fn put_id_if_some(out: &mut Vec<u8>, id: u64, value: Option<ConnectionId>) -> Result<(), Memory>
    requires { id < 64 }
    ensures { OnOk result (IsPut out.old.items out.new.items (bytes_if_some id value)) }
{
    match value {
        None => Ok(()),
        Some(value) => put_bytes(out, id, value.bytes()),
    }
}

// Appends the stateless reset token, if there is one.
fn put_token_if_some(out: &mut Vec<u8>, token: Option<ResetToken>) -> Result<(), Memory>
    ensures { OnOk result (IsPut out.old.items out.new.items (bytes_if_some parameter_ids.stateless_reset_token (token_of token))) }
{
    match token {
        None => Ok(()),
        Some(token) => put_bytes(out, STATELESS_RESET_TOKEN, &token.0),
    }
}

// Appends a number, if there is one.
fn put_number_if_some(out: &mut Vec<u8>, id: u64, n: Option<VarInt>) -> Result<(), Memory>
    requires { id < 64 }
    ensures { OnOk result (IsPut out.old.items out.new.items (number_if_some id n)) }
{
    match n {
        None => Ok(()),
        Some(n) => put_number(out, id, n),
    }
}

// A number that is below 2^62.
fn number(n: u64) -> VarInt
    requires { n < 2 ^ 62 }
    ensures { result ≡ n }
{
    VarInt::from_u64(n).unwrap()
}
