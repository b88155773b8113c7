ghost use Rattle.std.specs.Prelude.{◌≡◌, ◌<◌, ◌≤◌, ◌^◌, ◌↔◌, ℕ, List, length, true, false, IfSome, IfNone, OnOk, IfOk, IfErr, IsTrue};
ghost use Rattle.std.specs.List.{AllByRecursion};
ghost use Rattle.std.specs.Option.{option_map};
ghost use Rattle.qh_hello.specs.Greetings.{token_of, SaysParameters};
ghost use Rattle.qh_hello.specs.Numbers.{SaysNumbers};
ghost use Rattle.qh_hello.specs.Refusals.{ids_of, fault_of, AreShort, KeepsLater, BreaksLater};
ghost use Rattle.qh_spec.specs.Hello.{Hello, AreParameters, IfThere, SaysNumber, SaysDatagramSize, SaysResetToken};
ghost use Rattle.qh_spec.specs.HelloFaults.{server_only, numbers, IsAbsent, IsNumberOrAbsent, HasIdsUsed, HasWholeToken};
ghost use Rattle.qh_spec.specs.ParameterIds as parameter_ids;
ghost use Rattle.qh_spec.specs.Varint.{IsVarint};
ghost use Rattle.qh_spec.specs.declared.sides.Side.TheVariants.{Client};

use crate::ids::{
    ACTIVE_CONNECTION_ID_LIMIT, INITIAL_MAX_DATA, INITIAL_MAX_STREAM_DATA_BIDI_LOCAL,
    INITIAL_MAX_STREAM_DATA_BIDI_REMOTE, INITIAL_MAX_STREAM_DATA_UNI, INITIAL_MAX_STREAMS_BIDI,
    INITIAL_MAX_STREAMS_UNI, INITIAL_SOURCE_CONNECTION_ID, MAX_DATAGRAM_FRAME_SIZE,
    MAX_IDLE_TIMEOUT, ORIGINAL_DESTINATION_CONNECTION_ID, RETRY_SOURCE_CONNECTION_ID,
    STATELESS_RESET_TOKEN,
};
use crate::walk::value_of;
use crate::{ConnectionIds, HelloFault, TransportParameters};
use qh_base::{ConnectionId, ResetToken, Side, VarInt, get_varint};

// The most streams that can be opened (RFC 9000, section 4.6).
const MAX_STREAMS: u64 = 1 << 60;

// The least limit of connection ids, which is also the default (RFC 9000, section 18.2).
const LEAST_ID_LIMIT: u32 = 2;

// The parameters that are numbers, with their defaults (RFC 9000, section 18.2).
#[derive(Clone, Copy)]
pub(crate) struct Numbers {
    pub(crate) max_idle_timeout: VarInt,
    pub(crate) initial_max_data: VarInt,
    pub(crate) initial_max_stream_data_bidi_local: VarInt,
    pub(crate) initial_max_stream_data_bidi_remote: VarInt,
    pub(crate) initial_max_stream_data_uni: VarInt,
    pub(crate) initial_max_streams_bidi: VarInt,
    pub(crate) initial_max_streams_uni: VarInt,
    pub(crate) active_connection_id_limit: VarInt,
    pub(crate) max_datagram_frame_size: Option<VarInt>,
}

/// What the parameters say, if they keep the rules from that of `ServerOnly` on. Otherwise the first of these that they break.
pub(crate) fn read_parameters(
    bytes: &[u8],
    sender: Side,
    used: &ConnectionIds,
) -> Result<TransportParameters, HelloFault>
    ensures ok { IfOk result (λ t. (h : Hello) → AreParameters bytes.now h.parameters → h.sender ≡ sender → KeepsLater (ids_of used.now) h × SaysParameters h t) }
    ensures err { IfErr result (λ f. (h : Hello) → AreParameters bytes.now h.parameters → h.sender ≡ sender → BreaksLater (ids_of used.now) h (fault_of f)) }
    ensures short { OnOk result (AreShort (ids_of used.now)) }
{
    if breaks_server_only(bytes, sender) {
        return Err(HelloFault::ServerOnly);
    }
    let Some(numbers) = numbers_of(bytes) else {
        return Err(HelloFault::NotANumber);
    };
    if !has_ids(bytes, used) {
        return Err(HelloFault::OtherId);
    }
    let Some(token) = token_of(bytes) else {
        return Err(HelloFault::TokenLength);
    };
    if !are_in_range(&numbers) {
        return Err(HelloFault::OutOfRange);
    }
    Ok(parameters_of(&numbers, used, token))
}

// The parameters, of their parts.
fn parameters_of(
    numbers: &Numbers,
    used: &ConnectionIds,
    token: Option<ResetToken>,
) -> TransportParameters
    ensures { (h : Hello) → SaysNumbers h numbers.now → HasIdsUsed (ids_of used.now) h → SaysResetToken h (token_of token) → SaysParameters h result }
{
    TransportParameters {
        original_destination_connection_id: used.original,
        max_idle_timeout: numbers.max_idle_timeout,
        stateless_reset_token: token,
        initial_max_data: numbers.initial_max_data,
        initial_max_stream_data_bidi_local: numbers.initial_max_stream_data_bidi_local,
        initial_max_stream_data_bidi_remote: numbers.initial_max_stream_data_bidi_remote,
        initial_max_stream_data_uni: numbers.initial_max_stream_data_uni,
        initial_max_streams_bidi: numbers.initial_max_streams_bidi,
        initial_max_streams_uni: numbers.initial_max_streams_uni,
        active_connection_id_limit: numbers.active_connection_id_limit,
        initial_source_connection_id: used.source,
        retry_source_connection_id: used.retry,
        max_datagram_frame_size: numbers.max_datagram_frame_size,
    }
}

// Whether a client gives a parameter that only a server may give (RFC 9000, section 18.2).
fn breaks_server_only(bytes: &[u8], sender: Side) -> bool
    ensures kept { result ≡ false → (h : Hello) → AreParameters bytes.now h.parameters → h.sender ≡ sender → h.sender ≡ Client → AllByRecursion (IsAbsent h) server_only }
    ensures broken { result ≡ true → (h : Hello) → AreParameters bytes.now h.parameters → h.sender ≡ sender → (h.sender ≡ Client → AllByRecursion (IsAbsent h) server_only) → ⊥ }
{
    sender == Side::Client && has_server_only(bytes)
}

// Whether there is a parameter that only a server may give.
fn has_server_only(bytes: &[u8]) -> bool
    ensures none { result ≡ false → (h : Hello) → AreParameters bytes.now h.parameters → AllByRecursion (IsAbsent h) server_only }
    ensures some { result ≡ true → (h : Hello) → AreParameters bytes.now h.parameters → AllByRecursion (IsAbsent h) server_only → ⊥ }
{
    value_of(bytes, ORIGINAL_DESTINATION_CONNECTION_ID).is_some()
        || value_of(bytes, STATELESS_RESET_TOKEN).is_some()
        || value_of(bytes, RETRY_SOURCE_CONNECTION_ID).is_some()
}

// The numbers. None if a value isn't exactly one.
fn numbers_of(bytes: &[u8]) -> Option<Numbers>
    ensures found { IfSome result (λ n. (h : Hello) → AreParameters bytes.now h.parameters → SaysNumbers h n) }
    ensures none { IfNone result ((h : Hello) → AreParameters bytes.now h.parameters → AllByRecursion (IsNumberOrAbsent h) numbers → ⊥) }
{
    let zero = VarInt::from_u32(0);
    let least = VarInt::from_u32(LEAST_ID_LIMIT);
    Some(Numbers {
        max_idle_timeout: number_or(bytes, MAX_IDLE_TIMEOUT, zero)?,
        initial_max_data: number_or(bytes, INITIAL_MAX_DATA, zero)?,
        initial_max_stream_data_bidi_local: number_or(
            bytes,
            INITIAL_MAX_STREAM_DATA_BIDI_LOCAL,
            zero,
        )?,
        initial_max_stream_data_bidi_remote: number_or(
            bytes,
            INITIAL_MAX_STREAM_DATA_BIDI_REMOTE,
            zero,
        )?,
        initial_max_stream_data_uni: number_or(bytes, INITIAL_MAX_STREAM_DATA_UNI, zero)?,
        initial_max_streams_bidi: number_or(bytes, INITIAL_MAX_STREAMS_BIDI, zero)?,
        initial_max_streams_uni: number_or(bytes, INITIAL_MAX_STREAMS_UNI, zero)?,
        active_connection_id_limit: number_or(bytes, ACTIVE_CONNECTION_ID_LIMIT, least)?,
        max_datagram_frame_size: datagram_size(bytes)?,
    })
}

// The number that the parameter is, or the default if it is absent. None if its value isn't exactly one.
fn number_or(bytes: &[u8], id: u64, default: VarInt) -> Option<VarInt>
    ensures found { IfSome result (λ n. (h : Hello) → AreParameters bytes.now h.parameters → SaysNumber id default h n) }
    ensures none { IfNone result ((h : Hello) → AreParameters bytes.now h.parameters → IsNumberOrAbsent h id → ⊥) }
{
    match value_of(bytes, id) {
        None => Some(default),
        Some(value) => whole_number(value),
    }
}

// The size of the greatest DATAGRAM frame, if it is said. None if its value isn't exactly one number.
fn datagram_size(bytes: &[u8]) -> Option<Option<VarInt>>
    ensures found { IfSome result (λ n. (h : Hello) → AreParameters bytes.now h.parameters → SaysDatagramSize h n) }
    ensures none { IfNone result ((h : Hello) → AreParameters bytes.now h.parameters → IsNumberOrAbsent h parameter_ids.max_datagram_frame_size → ⊥) }
{
    match value_of(bytes, MAX_DATAGRAM_FRAME_SIZE) {
        None => Some(None),
        Some(value) => Some(Some(whole_number(value)?)),
    }
}

// The number that the bytes are, in any form. None if they aren't exactly one.
fn whole_number(bytes: &[u8]) -> Option<VarInt>
    ensures found { IfSome result (λ n. IsVarint bytes.now n) }
    ensures none { IfNone result ((n : ℕ) → IsVarint bytes.now n → ⊥) }
{
    let (value, size) = get_varint(bytes)?;
    if size < bytes.len() {
        return None;
    }
    Some(value)
}

// Whether the connection ids are the ones that were used (RFC 9000, section 7.3).
fn has_ids(bytes: &[u8], used: &ConnectionIds) -> bool
    ensures yes { result ≡ true → (h : Hello) → AreParameters bytes.now h.parameters → HasIdsUsed (ids_of used.now) h }
    ensures other { result ≡ false → (h : Hello) → AreParameters bytes.now h.parameters → HasIdsUsed (ids_of used.now) h → ⊥ }
    ensures short { result ≡ true → AreShort (ids_of used.now) }
{
    is_id(
        value_of(bytes, ORIGINAL_DESTINATION_CONNECTION_ID),
        used.original,
    ) && is_id(
        value_of(bytes, INITIAL_SOURCE_CONNECTION_ID),
        Some(used.source),
    ) && is_id(value_of(bytes, RETRY_SOURCE_CONNECTION_ID), used.retry)
}

// Whether the value is this id, or both are absent.
fn is_id(value: Option<&[u8]>, id: Option<ConnectionId>) -> bool
    ensures same { IsTrue result ↔ (option_map (λ v. v.now) value.entry ≡ id) }
    ensures short { result ≡ true → IfThere (λ (id : List ℕ). length id ≤ 20) id }
{
    match (value, id) {
        (None, None) => true,
        (Some(value), Some(id)) => value == id.bytes(),
        _ => false,
    }
}

// The stateless reset token, if it is said. None if it isn't 16 bytes long (RFC 9000, section 18.2).
fn token_of(bytes: &[u8]) -> Option<Option<ResetToken>>
    ensures found { IfSome result (λ t. (h : Hello) → AreParameters bytes.now h.parameters → SaysResetToken h (token_of t) × HasWholeToken h) }
    ensures none { IfNone result ((h : Hello) → AreParameters bytes.now h.parameters → HasWholeToken h → ⊥) }
{
    let Some(value) = value_of(bytes, STATELESS_RESET_TOKEN) else {
        return Some(None);
    };
    if value.len() != 16 {
        return None;
    }
    let token = value.first_chunk()?;
    Some(Some(ResetToken(*token)))
}

// Whether each number is in its range (RFC 9000, sections 4.6 and 18.2).
fn are_in_range(numbers: &Numbers) -> bool
    ensures { IsTrue result ↔ ((2 ≤ numbers.now.active_connection_id_limit) × (numbers.now.initial_max_streams_bidi ≤ 2 ^ 60) × (numbers.now.initial_max_streams_uni ≤ 2 ^ 60)) }
{
    numbers.active_connection_id_limit.into_inner() >= u64::from(LEAST_ID_LIMIT)
        && numbers.initial_max_streams_bidi.into_inner() <= MAX_STREAMS
        && numbers.initial_max_streams_uni.into_inner() <= MAX_STREAMS
}
