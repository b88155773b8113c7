//! Hellos.
ghost use Rattle.std.specs.Prelude.{IfOk};
ghost use Rattle.qh_hello.specs.Greetings.{greeting};
ghost use Rattle.qh_spec.specs.Hello.{IsSayable};

use crate::say::{id, put_named, put_part, side};
use qh_base::{ConnectionId, Memory, Side};
use qh_hello::{
    ConnectionIds, HelloError, HelloFault, ReadHello, TransportParameters, get_hello, put_hello,
};
use row_text::{RowFault, Words, put_bytes, put_text};
use std::alloc::Global;

/// SENDER ORIGINAL SOURCE RETRY BYTES: what a hello says, and its bytes as they are written.
pub(crate) fn answer(
    alloc: Global,
    words: &mut Words<'_>,
    out: &mut Vec<u8>,
) -> Result<(), RowFault> {
    let sender = side(words)?;
    let used = used_ids(alloc, words)?;
    let bytes = words.bytes(alloc)?;
    match read(alloc, &bytes, sender, &used) {
        Ok(hello) => Ok(tell(alloc, sender, &hello, out)?),
        Err(HelloError::Fault(fault)) => Ok(put_text(out, fault_name(fault))?),
        Err(HelloError::Memory) => Err(RowFault::Memory),
    }
}

fn used_ids(alloc: Global, words: &mut Words<'_>) -> Result<ConnectionIds, RowFault> {
    let original = id_or_none(alloc, words)?;
    let source = id(alloc, words)?;
    let retry = id_or_none(alloc, words)?;
    Ok(ConnectionIds {
        original,
        source,
        retry,
    })
}

// The next word as a connection id, if it isn't `none`.
fn id_or_none(alloc: Global, words: &mut Words<'_>) -> Result<Option<ConnectionId>, RowFault> {
    match words.next() {
        "none" => Ok(None),
        word => Ok(Some(id(alloc, &mut Words::new(word))?)),
    }
}

// What a hello says. Of the contract of `get_hello` only this clause is used here.
fn read<'a>(
    alloc: Global,
    bytes: &'a [u8],
    sender: Side,
    used: &ConnectionIds,
) -> Result<ReadHello<'a>, HelloError>
    ensures sayable { IfOk result (λ r. IsSayable (greeting sender r.server_name.now r.parameters)) }
{
    get_hello(alloc, bytes, sender, used)
}

fn fault_name(fault: HelloFault) -> &'static str {
    match fault {
        HelloFault::NotAHello => "not-a-hello",
        HelloFault::LongName => "long-name",
        HelloFault::RepeatedId => "repeated-id",
        HelloFault::ServerOnly => "server-only",
        HelloFault::NotANumber => "not-a-number",
        HelloFault::OtherId => "other-id",
        HelloFault::TokenLength => "token-length",
        HelloFault::OutOfRange => "out-of-range",
    }
}

fn tell(alloc: Global, sender: Side, hello: &ReadHello<'_>, out: &mut Vec<u8>) -> Result<(), Memory>
    requires sayable { IsSayable (greeting sender hello.now.server_name.now hello.now.parameters) }
{
    put_part(out, "ok ", hello.server_name)?;
    put_ids(out, &hello.parameters)?;
    put_limits(out, &hello.parameters)?;
    put_text(out, " written ")?;
    let mut bytes = Vec::new(alloc);
    write(&mut bytes, sender, hello)?;
    put_bytes(out, &bytes)
}

fn put_ids(out: &mut Vec<u8>, parameters: &TransportParameters) -> Result<(), Memory> {
    put_id(
        out,
        " original ",
        parameters.original_destination_connection_id,
    )?;
    put_id(
        out,
        " source ",
        Some(parameters.initial_source_connection_id),
    )?;
    put_id(out, " retry ", parameters.retry_source_connection_id)?;
    match parameters.stateless_reset_token {
        Some(token) => put_part(out, " token ", &token.0),
        None => put_text(out, " token none"),
    }
}

fn put_id(out: &mut Vec<u8>, name: &str, id: Option<ConnectionId>) -> Result<(), Memory> {
    put_text(out, name)?;
    match id {
        Some(id) => put_bytes(out, id.bytes()),
        None => put_text(out, "none"),
    }
}

fn put_limits(out: &mut Vec<u8>, parameters: &TransportParameters) -> Result<(), Memory> {
    let numbers = [
        parameters.max_idle_timeout,
        parameters.initial_max_data,
        parameters.initial_max_stream_data_bidi_local,
        parameters.initial_max_stream_data_bidi_remote,
        parameters.initial_max_stream_data_uni,
        parameters.initial_max_streams_bidi,
        parameters.initial_max_streams_uni,
        parameters.active_connection_id_limit,
    ];
    put_text(out, " numbers")?;
    for number in numbers {
        put_named(out, " ", number.into_inner())?;
    }
    match parameters.max_datagram_frame_size {
        Some(size) => put_named(out, " datagram ", size.into_inner()),
        None => put_text(out, " datagram none"),
    }
}

// Appends the bytes of a hello.
fn write(bytes: &mut Vec<u8>, sender: Side, hello: &ReadHello<'_>) -> Result<(), Memory>
    requires sayable { IsSayable (greeting sender hello.now.server_name.now hello.now.parameters) }
{
    put_hello(bytes, sender, hello.server_name, &hello.parameters)
}
