ghost use Rattle.std.specs.Prelude.{◌≡◌, ◌+◌, ◌++◌, ◌≤◌, length, OnOk, OnErr, IfOk, IfErr};
ghost use Rattle.qh_hello.specs.Greetings.{greeting, SaysGreeting};
ghost use Rattle.qh_hello.specs.Refusals.{ids_of, IsRefused};
ghost use Rattle.qh_spec.specs.Hello.{Hello, IsSayable, hello_bytes, hello_of};
ghost use Rattle.qh_spec.specs.HelloFaults.{IsAcceptable};

use crate::TransportParameters;
use crate::rules::read_parameters;
use crate::split::split_hello;
use crate::walk::has_distinct_ids;
use crate::write::{put_hello_parts, put_parameters};
use qh_base::{ConnectionId, Memory, Side};
use std::alloc::Global;
use thiserror::Error;

/// The longest server name, in bytes (own).
const MAX_NAME_LEN: usize = 255;

/// Why the bytes of a hello are refused, in the order of the checks: of several faults the first counts.
#[derive(Clone, Copy, Debug, PartialEq, Eq, Error)]
pub enum HelloFault {
    /// The bytes are no hello of the peer's.
    #[error("not a hello of the peer's")]
    NotAHello,
    /// The server name has more than 255 bytes.
    #[error("the server name is too long")]
    LongName,
    /// A parameter is repeated (RFC 9000, section 7.4).
    #[error("a transport parameter is repeated")]
    RepeatedId,
    /// A client gives a parameter that only a server may give: original_destination_connection_id, stateless_reset_token or
    /// retry_source_connection_id (RFC 9000, section 18.2).
    #[error("a client gave a parameter of servers")]
    ServerOnly,
    /// The value of a number isn't exactly one variable-length integer (RFC 9000, section 18.2).
    #[error("a transport parameter isn't a number")]
    NotANumber,
    /// A connection id is absent, present though it isn't due, or differs from the one that was used (RFC 9000, section 7.3).
    #[error("a connection id isn't the one that was used")]
    OtherId,
    /// A stateless reset token isn't 16 bytes long (RFC 9000, section 18.2).
    #[error("a stateless reset token isn't 16 bytes long")]
    TokenLength,
    /// A number is out of its range (RFC 9000, sections 4.6 and 18.2).
    #[error("a transport parameter is out of its range")]
    OutOfRange,
}

/// Why no hello is handed out.
#[derive(Clone, Copy, Debug, PartialEq, Eq, Error)]
pub enum HelloError {
    /// The bytes are refused, with TRANSPORT_PARAMETER_ERROR.
    #[error("the hello is refused")]
    Fault(HelloFault),
    /// The allocator had no memory. The bytes are a hello whose name isn't too long, and it isn't known whether it has a later fault.
    #[error("out of memory")]
    Memory,
}

/// The connection ids that were used, as the reader of a hello knows them (RFC 9000, section 7.3).
#[derive(Clone, Copy)]
pub struct ConnectionIds {
    /// At a client, the destination id of its first Initial packet. None at a server.
    pub original: Option<ConnectionId>,
    /// The source id of the peer's Initial packets.
    pub source: ConnectionId,
    /// At a client, the source id of the Retry packet that it took, if it took one. None at a server.
    pub retry: Option<ConnectionId>,
}

/// What a hello says.
#[derive(Clone, Copy)]
pub struct ReadHello<'a> {
    /// The server name that a client asks for, empty if it asks for none.
    pub server_name: &'a [u8],
    /// The parameters. What the hello doesn't say has its default (RFC 9000, section 18.2).
    pub parameters: TransportParameters,
}

/// Appends the hello of an end, or nothing. Each number has its shortest form, and the parameters are in the order of their ids.
pub fn put_hello(
    out: &mut Vec<u8>,
    sender: Side,
    server_name: &[u8],
    parameters: &TransportParameters,
) -> Result<(), Memory>
    requires sayable { IsSayable (greeting sender server_name.now parameters.now) }
    ensures ok { OnOk result (out.new.items ≡ out.old.items ++ hello_bytes (hello_of (greeting sender server_name.now parameters.now))) }
    ensures short { OnOk result (length out.new.items ≤ length out.old.items + 512) }
    ensures err { OnErr result (out.new.items ≡ out.old.items) }
{
    let mut values = Vec::new(*out.allocator());
    put_parameters(&mut values, parameters)?;
    let mut hello = Vec::new(*out.allocator());
    put_hello_parts(&mut hello, sender, server_name, values.as_slice())?;
    out.extend_from_slice(hello.as_slice())?;
    Ok(())
}

/// Reads the hello of `sender`, whose connection ids must be the ones that were used (RFC 9000, sections 7.3 and 7.4). A number may
/// have any form, the parameters any order, and those with unknown ids are skipped. Memory is needed only to check that no parameter
/// is repeated.
pub fn get_hello<'a>(
    alloc: Global,
    bytes: &'a [u8],
    sender: Side,
    used: &ConnectionIds,
) -> Result<ReadHello<'a>, HelloError>
    ensures ok { IfOk result (λ r. (h : Hello) × IsAcceptable sender (ids_of used.now) bytes.now h × SaysGreeting h (greeting sender r.server_name.now r.parameters)) }
    ensures err { IfErr result (λ e. IsRefused sender (ids_of used.now) bytes.now e) }
    ensures sayable { IfOk result (λ r. IsSayable (greeting sender r.server_name.now r.parameters)) }
{
    let Some((server_name, values)) = split_hello(bytes, sender) else {
        return Err(HelloError::Fault(HelloFault::NotAHello));
    };
    if server_name.len() > MAX_NAME_LEN {
        return Err(HelloError::Fault(HelloFault::LongName));
    }
    match has_distinct_ids(alloc, values) {
        Ok(true) => {}
        Ok(false) => return Err(HelloError::Fault(HelloFault::RepeatedId)),
        Err(_) => return Err(HelloError::Memory),
    }
    match read_parameters(values, sender, used) {
        Ok(parameters) => Ok(ReadHello {
            server_name,
            parameters,
        }),
        Err(fault) => Err(HelloError::Fault(fault)),
    }
}
