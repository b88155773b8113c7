ghost use Rattle.std.specs.Prelude.{◌≡◌, ◌⊎◌, ◌≤◌, ℕ, List, [], length, Option, Some, None, OnOk, OnErr, IfErr, IfOk, IfSome};
ghost use Rattle.qh_base.specs.TransportFault.{IsFault};
ghost use Rattle.qh_base.specs.declared.connection_error.ConnectionError.TheVariants.{Memory as Wanting, TransportError as Fault};
ghost use Rattle.qh_base.specs.declared.transport_error.TransportError.{TransportError as ATransportError};
ghost use Rattle.qh_handshake.specs.Handshake.{IsHandshake, dropping, ids_used};
ghost use Rattle.qh_handshake.specs.Incoming.{IsHelloRead, IsHelloThere, Learns};
ghost use Rattle.qh_handshake.specs.Unread.{IsHelloUnread};
ghost use Rattle.qh_handshake.specs.declared.initial_space.HelloState.TheVariants.{Waits};
ghost use Rattle.qh_handshake.specs.declared.initial_space.InitialSpace.{InitialSpace as ASpace};
ghost use Rattle.qh_hello.specs.Greetings.{greeting};
ghost use Rattle.qh_hello.specs.Refusals.{ids_of};
ghost use Rattle.qh_hello.specs.declared.hello.HelloError.TheVariants as hello_error;
ghost use Rattle.qh_hello.specs.declared.hello.HelloFault.{HelloFault as AHelloFault};
ghost use Rattle.qh_spec.specs.Codes as codes;
ghost use Rattle.qh_spec.specs.Hello.{IsSayable, hello_bytes, hello_of};
ghost use Rattle.qh_spec.specs.declared.sides.Side.TheVariants.{Server};

use crate::{Handshake, HelloState};
use bytes::Bytes;
use qh_base::{ConnectionError, Memory, Reason, Side, TransportError, TransportErrorCode};
use qh_hello::{
    ConnectionIds, HelloError, ReadHello, TransportParameters, front_hello, get_hello, put_hello,
};
use qh_packet::Session;
use std::alloc::Global;

impl Handshake {
    // Reads the hello of the peer's once it came whole. The error is the one that ends the connection by it.
    pub(crate) fn read_hello<S: Session>(
        &mut self,
        alloc: Global,
        session: &mut S,
    ) -> Result<(), ConnectionError>
        requires { IsHandshake self.old }
        ensures ok { OnOk result ((learned : Option (List ℕ)) × IsHelloRead self.old self.new learned None × Learns (record { name = S.name; knows = S.knows; key = S.key; sealed = S.sealed; accepts = S.accepts }) session.old session.new learned) }
        ensures err { IfErr result (λ e. (session.new ≡ session.old) × ((e ≡ Wanting) ⊎ IsHelloRead self.old self.new None (Some e))) }
        ensures wanting { IfErr result (λ e. e ≡ Wanting → IsHelloUnread self.old) }
        ensures kept { OnErr result (self.new ≡ self.old) }
        ensures whole { IsHandshake self.new }
    {
        let side = self.side;
        let parameters = self.parameters;
        let Some(hello) = self.peer_hello(alloc)? else {
            return Ok(());
        };
        let peer = hello.parameters;
        match side {
            Side::Client => self.leave(peer),
            Side::Server => {
                let Ok(own) = own_hello(alloc, &parameters) else {
                    return Err(ConnectionError::Memory);
                };
                session.learn(hello.server_name);
                self.answer(peer, own);
            }
        }
        Ok(())
    }

    // The hello of the peer's, if it wasn't read yet, and came whole.
    fn peer_hello(&self, alloc: Global) -> Result<Option<ReadHello<'_>>, ConnectionError>
        ensures some { IfOk result (λ o. IfSome o (λ r. IsHelloThere self.now r.server_name.now r.parameters)) }
        ensures none { IfOk result (λ o. o ≡ None → IsHelloRead self.now self.now None None) }
        ensures err { IfErr result (λ e. (e ≡ Wanting) ⊎ IsHelloRead self.now self.now None (Some e)) }
        ensures wanting { IfErr result (λ e. e ≡ Wanting → IsHelloUnread self.now) }
    {
        if self.peer.is_some() {
            return Ok(None);
        }
        let Some(space) = &self.space else {
            return Ok(None);
        };
        let Some(front) = front_hello(space.crypto.bytes()) else {
            return Ok(None);
        };
        match get_hello(alloc, front, self.side.other(), &self.ids_used()) {
            Ok(hello) => Ok(Some(hello)),
            Err(error) => Err(error_of(error)),
        }
    }
}

impl Handshake {
    // The connection ids that the peer's hello has to name.
    fn ids_used(&self) -> ConnectionIds
        ensures { ids_of result ≡ ids_used self.now }
    {
        match self.side {
            Side::Client => ConnectionIds {
                original: Some(self.original_id),
                source: self.remote_id,
                retry: self.retry_id,
            },
            Side::Server => ConnectionIds {
                original: None,
                source: self.remote_id,
                retry: None,
            },
        }
    }

    // A client was greeted so: it has no use for the space any more.
    fn leave(&mut self, peer: TransportParameters)
        ensures { self.new ≡ record (dropping self.old) { peer = Some peer } }
    {
        self.peer = Some(peer);
        self.leave_space();
    }

    // A server was greeted so: its own hello is to be sent.
    fn answer(&mut self, peer: TransportParameters, hello: Bytes)
        ensures { (s : ASpace) → self.old.space ≡ Some s → self.new ≡ record self.old { peer = Some peer; space = Some (record s { hello = hello; state = Waits }) } }
    {
        self.peer = Some(peer);
        if let Some(space) = &mut self.space {
            space.hello = hello;
            space.state = HelloState::Waits;
        }
    }
}

// The bytes of a server's hello.
fn own_hello(alloc: Global, parameters: &TransportParameters) -> Result<Bytes, Memory>
    requires { IsSayable (greeting Server [] parameters.now) }
    ensures hello { IfOk result (λ hello. hello ≡ hello_bytes (hello_of (greeting Server [] parameters.now))) }
    ensures short { IfOk result (λ hello. length hello ≤ 512) }
{
    let mut hello = Vec::new(alloc);
    put_hello(&mut hello, Side::Server, b"", parameters)?;
    Ok(Bytes::from_vec(hello)?)
}

// The error that ends a connection if a hello isn't taken.
fn error_of(error: HelloError) -> ConnectionError
    ensures fault { (f : AHelloFault) → error ≡ hello_error.Fault f → (e : ATransportError) × (result ≡ Fault e) × IsFault codes.transport_parameter_error None e }
    ensures wanting { error ≡ hello_error.Memory → result ≡ Wanting }
{
    match error {
        HelloError::Fault(_) => ConnectionError::TransportError(TransportError {
            code: TransportErrorCode::TRANSPORT_PARAMETER_ERROR,
            frame: None,
            reason: Reason::of(b""),
        }),
        HelloError::Memory => ConnectionError::Memory,
    }
}
