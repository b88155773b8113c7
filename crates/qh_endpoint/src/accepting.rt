ghost use Rattle.std.specs.Prelude.{◌≡◌, ◌↔◌, ◌+◌, ◌≤◌, ℕ, List, [], length, IfErr, IfOk, IsTrue, None, OnErr, Some, false, true};
ghost use Rattle.qh_attempts.specs.Attempts.{IsPending, PlainAttempt};
ghost use Rattle.qh_base.specs.declared.connection_error.ConnectionError.TheVariants as error;
ghost use Rattle.qh_conn.specs.Whole.{IsWhole};
ghost use Rattle.qh_conn.specs.declared.connection.Connection.{Connection as AConnection};
ghost use Rattle.qh_connections.specs.Connections.{IsConnectionAdded, IsConnectionRemoved, IsKept, meta_at};
ghost use Rattle.qh_connections.specs.Ids.{IsIssued, IsSameSource};
ghost use Rattle.qh_endpoint.specs.Accepting.{AreHanded, IsAccepted, IsAdmitted, IsHanded, IsLost, IsNotAccepted, IsReady, IsStale, conn_of, settings_of};
ghost use Rattle.qh_endpoint.specs.Closed.{bare, refused as refusal};
ghost use Rattle.qh_endpoint.specs.Endpoint.{PlainEndpoint};
ghost use Rattle.qh_endpoint.specs.Leaving.{HasLeft};
ghost use Rattle.qh_endpoint.specs.declared.incoming.Waiting.{Waiting as AWaiting};
ghost use Rattle.qh_packet.specs.Packet.{IsInitialOpened};
ghost use Rattle.qh_routes.specs.ConnectionMeta.{PlainMeta};
ghost use Rattle.qh_spec.specs.Codes as codes;
ghost use Rattle.qh_spec.specs.declared.sides.Side.TheVariants.{Client as AClient, Server as AServer};

use crate::closing::error_of;
use crate::incoming::{FirstPacket, Waiting};
use crate::{Endpoint, Incoming};
use qh_attempts::KeptDatagram;
use qh_base::{ConnectionError, ConnectionId, Memory, Moment, Side, Transmit, TransportErrorCode};
use qh_conn::{ConnConfig, Connection};
use qh_kit::{Kit, ServerConfig};
use qh_packet::{InitialForm, Session, open_initial};
use qh_routes::ConnectionHandle;

/// Why an attempt isn't accepted (quinn-proto, `AcceptError`).
#[derive(Drop)]
pub struct AcceptError {
    /// What its connection ended by, or would have.
    pub cause: ConnectionError,
    /// What was written into the buffer and is to be sent, if anything was.
    pub response: Option<Transmit>,
}

impl<K: Kit> Endpoint<K> {
    /// Accepts an attempt, under the config that is given, or else under the one under which it came (quinn-proto, `Endpoint::accept`). It is refused,
    /// in this order: silently with `TimedOut`, if the connection would have been idle for too long already; with `CidsExhausted`, and closed with
    /// CONNECTION_REFUSED, if ids are exhausted; silently with a PROTOCOL_VIOLATION, if the tag of its first packet is refused, or that has no fixed bit, as it may where
    /// that bit is greased; as for exhausted ids, if 64 ids
    /// in a row that were drawn are issued; and by what its first datagram ends the connection with, which is closed if that is an error of the
    /// transport. Datagrams that were kept for it are handed to the connection behind the first one. The buffer is empty before. The attempt is spent
    /// whatever is answered. Want of memory for anything but the connection's own datagrams leaves no connection; for those behind the first one it
    /// ends the connection.
    pub fn accept(
        &mut self,
        incoming: Incoming,
        now: Moment,
        buf: &mut Vec<u8>,
        server: Option<ServerConfig>,
    ) -> Result<(ConnectionHandle, Connection<K::S>), AcceptError>
        requires pending { IsPending self.old.incoming incoming.key }
        requires written { buf.old.items ≡ [] }
        ensures left { (attempt : PlainAttempt AWaiting) × (mid : PlainEndpoint K K.G K.R K.T) × HasLeft incoming.key attempt self.old mid
            × IfOk result (λ made. IsAccepted K.G.cid_len K.G.validates K.G.given (record { name = K.S.name; knows = K.S.knows; key = K.S.key; sealed = K.S.sealed; accepts = K.S.accepts }) (settings_of server attempt.config) attempt.config now attempt.datagrams mid self.new made.0 made.1)
            × IfErr result (IsNotAccepted K.G.cid_len K.G.validates K.G.given (record { name = K.S.name; knows = K.S.knows; key = K.S.key; sealed = K.S.sealed; accepts = K.S.accepts }) (settings_of server attempt.config) attempt.config now mid self.new buf.new.items) }
        ensures whole { IfOk result (λ made. IsWhole made.1) }
        ensures unwritten { IfOk result (λ made. buf.new.items ≡ []) }
        ensures source { IsSameSource K.G.cid_len K.G.validates self.old.connections.ids self.new.connections.ids }
    {
        let (waiting, datagrams) = self.take(&incoming);
        let server = server.unwrap_or(waiting.server);
        self.welcome(now, &server, &waiting, &datagrams, buf)
    }

    // Accepts the attempt, which waits no more.
    fn welcome(
        &mut self,
        now: Moment,
        server: &ServerConfig,
        waiting: &Waiting,
        datagrams: &[KeptDatagram],
        buf: &mut Vec<u8>,
    ) -> Result<(ConnectionHandle, Connection<K::S>), AcceptError>
        requires { buf.old.items ≡ [] }
        ensures accepted { IfOk result (λ made. IsAccepted K.G.cid_len K.G.validates K.G.given (record { name = K.S.name; knows = K.S.knows; key = K.S.key; sealed = K.S.sealed; accepts = K.S.accepts }) server.now waiting.now now datagrams.now self.old self.new made.0 made.1) }
        ensures whole { IfOk result (λ made. IsWhole made.1) }
        ensures unwritten { IfOk result (λ made. buf.new.items ≡ []) }
        ensures lost { IfErr result (IsNotAccepted K.G.cid_len K.G.validates K.G.given (record { name = K.S.name; knows = K.S.knows; key = K.S.key; sealed = K.S.sealed; accepts = K.S.accepts }) server.now waiting.now now self.old self.new buf.new.items) }
        ensures source { IsSameSource K.G.cid_len K.G.validates self.old.connections.ids self.new.connections.ids }
    {
        let (session, local_id) = self.admit(now, server, waiting, buf)?;
        match self.begin_server(server, waiting, session, local_id) {
            Ok((handle, connection)) => self.greet(handle, connection, waiting, datagrams, buf),
            Err(Memory) => Err(silent(ConnectionError::Memory)),
        }
    }

    // A session for the attempt, and an id for its connection, if there may be one.
    fn admit(
        &mut self,
        now: Moment,
        server: &ServerConfig,
        waiting: &Waiting,
        buf: &mut Vec<u8>,
    ) -> Result<(K::S, ConnectionId), AcceptError>
        requires { buf.old.items ≡ [] }
        ensures admitted { IfOk result (λ made. IsAdmitted K.G.cid_len K.G.validates K.G.given (record { name = K.S.name; knows = K.S.knows; key = K.S.key; sealed = K.S.sealed; accepts = K.S.accepts }) server.now waiting.now now self.old self.new made.1 made.0) }
        ensures session { IfOk result (λ made. (K.S.key made.0 ≡ waiting.now.first.destination) × (K.S.name made.0 ≡ []) × (K.S.knows made.0 ≡ false)) }
        ensures unwritten { IfOk result (λ made. buf.new.items ≡ []) }
        ensures refused { IfErr result (IsNotAccepted K.G.cid_len K.G.validates K.G.given (record { name = K.S.name; knows = K.S.knows; key = K.S.key; sealed = K.S.sealed; accepts = K.S.accepts }) server.now waiting.now now self.old self.new buf.new.items) }
        ensures source { IsSameSource K.G.cid_len K.G.validates self.old.connections.ids self.new.connections.ids }
    {
        if is_stale(server, waiting, now) {
            return Err(silent(ConnectionError::TimedOut));
        }
        let first = &waiting.first;
        if self.connections.ids_exhausted() {
            let error = error_of(TransportErrorCode::CONNECTION_REFUSED);
            let sent = self.initial_close(
                &waiting.addresses,
                &first.destination,
                &first.source,
                &error,
                buf,
            );
            return Err(exhausted(sent));
        }
        let Some(form) = InitialForm::read(&waiting.datagram) else {
            return Err(violation());
        };
        let session = match self.kit.session(first.destination, b"") {
            Ok(session) => session,
            Err(Memory) => return Err(silent(ConnectionError::Memory)),
        };
        if !opens(&session, &form) {
            return Err(violation());
        }
        match self.connections.draw() {
            Some(local_id) => Ok((session, local_id)),
            None => {
                let error = error_of(TransportErrorCode::CONNECTION_REFUSED);
                let sent = self.close_from(
                    &first.destination,
                    &waiting.addresses,
                    &first.destination,
                    &first.source,
                    &error,
                    buf,
                );
                Err(exhausted(sent))
            }
        }
    }

    // A server's connection for the attempt, with this id, which isn't issued.
    fn begin_server(
        &mut self,
        server: &ServerConfig,
        waiting: &Waiting,
        session: K::S,
        local_id: ConnectionId,
    ) -> Result<(ConnectionHandle, Connection<K::S>), Memory>
        requires free { IsIssued self.old.connections.routes local_id → ⊥ }
        requires key { K.S.key session ≡ waiting.now.first.destination }
        requires name { K.S.name session ≡ [] }
        requires knows { K.S.knows session ≡ false }
        ensures ready { IfOk result (λ made. IsReady (record { name = K.S.name; knows = K.S.knows; key = K.S.key; sealed = K.S.sealed; accepts = K.S.accepts }) server.now waiting.now local_id session made.1) }
        ensures whole { IfOk result (λ made. IsWhole made.1) }
        ensures added { IfOk result (λ made. IsConnectionAdded self.old.connections self.new.connections made.0 AServer waiting.now.first.destination local_id waiting.now.addresses) }
        ensures ids { self.new.connections.ids ≡ self.old.connections.ids }
        ensures kept { OnErr result (IsKept self.old.connections self.new.connections) }
        ensures rest { self.new ≡ record self.old { connections = self.new.connections } }
    {
        let first = &waiting.first;
        let made = self.add_connection(
            Side::Server,
            session,
            conn_of(server, first),
            first.destination,
            local_id,
            first.source,
            waiting.addresses,
            waiting.received_at,
        );
        match made {
            Ok((handle, mut connection)) => {
                let token = &first.token;
                connection.set_origin(token.orig_dst_cid, token.retry_src_cid, token.validated);
                Ok((handle, connection))
            }
            Err(Memory) => Err(Memory),
        }
    }

    // Hands its datagrams to the connection of the attempt. If the first one ends it, it is forgotten.
    fn greet(
        &mut self,
        handle: ConnectionHandle,
        mut connection: Connection<K::S>,
        waiting: &Waiting,
        datagrams: &[KeptDatagram],
        buf: &mut Vec<u8>,
    ) -> Result<(ConnectionHandle, Connection<K::S>), AcceptError>
        requires whole { IsWhole connection }
        requires written { buf.old.items ≡ [] }
        ensures lives { IfOk result (λ made. (made.0 ≡ handle) × (first : AConnection K.S) × IsHanded (record { name = K.S.name; knows = K.S.knows; key = K.S.key; sealed = K.S.sealed; accepts = K.S.accepts }) waiting.now.received_at waiting.now.datagram connection first
            × (first.core.error ≡ None) × AreHanded (record { name = K.S.name; knows = K.S.knows; key = K.S.key; sealed = K.S.sealed; accepts = K.S.accepts }) datagrams.now first made.1) }
        ensures whole { IfOk result (λ made. IsWhole made.1) }
        ensures kept { IfOk result (λ made. self.new ≡ self.old) }
        ensures unwritten { IfOk result (λ made. buf.new.items ≡ []) }
        ensures lost { IfErr result (λ e. (m : PlainMeta) → meta_at self.old.connections handle ≡ Some m → (first : AConnection K.S) × (gone : PlainEndpoint K K.G K.R K.T)
            × IsHanded (record { name = K.S.name; knows = K.S.knows; key = K.S.key; sealed = K.S.sealed; accepts = K.S.accepts }) waiting.now.received_at waiting.now.datagram connection first
            × IsConnectionRemoved self.old.connections gone.connections handle m × (gone.connections.ids ≡ self.old.connections.ids) × (gone ≡ record self.old { connections = gone.connections })
            × IsLost K.G.cid_len K.G.validates K.G.given (record { name = K.S.name; knows = K.S.knows; key = K.S.key; sealed = K.S.sealed; accepts = K.S.accepts }) waiting.now first gone self.new buf.new.items e) }
        ensures source { IsSameSource K.G.cid_len K.G.validates self.old.connections.ids self.new.connections.ids }
    {
        hand(&mut connection, waiting.received_at, &waiting.datagram);
        match connection.close_reason() {
            None => {
                hand_all(&mut connection, datagrams);
                Ok((handle, connection))
            }
            Some(cause) => {
                // By a call, since a drop where a scope ends is proved field by field.
                drop(connection);
                self.connections.remove(handle);
                Err(self.fail(waiting, cause, buf))
            }
        }
    }

    // What is answered for an attempt whose connection was lost by this.
    fn fail(&mut self, waiting: &Waiting, cause: ConnectionError, buf: &mut Vec<u8>) -> AcceptError
        requires { buf.old.items ≡ [] }
        ensures lost { (first : AConnection K.S) → first.core.error ≡ Some cause → IsLost K.G.cid_len K.G.validates K.G.given (record { name = K.S.name; knows = K.S.knows; key = K.S.key; sealed = K.S.sealed; accepts = K.S.accepts }) waiting.now first self.old self.new buf.new.items result }
        ensures source { IsSameSource K.G.cid_len K.G.validates self.old.connections.ids self.new.connections.ids }
    {
        let ConnectionError::TransportError(error) = cause else {
            return silent(cause);
        };
        let first = &waiting.first;
        let sent = self.initial_close(
            &waiting.addresses,
            &first.destination,
            &first.source,
            &error,
            buf,
        );
        match sent {
            Ok(transmit) => AcceptError {
                cause: ConnectionError::TransportError(error),
                response: Some(transmit),
            },
            Err(Memory) => silent(ConnectionError::Memory),
        }
    }
}

// Nothing is sent.
fn silent(cause: ConnectionError) -> AcceptError
    ensures { result ≡ record { cause = cause; response = None } }
{
    AcceptError {
        cause,
        response: None,
    }
}

// The first packet isn't taken, and nothing is sent.
fn violation() -> AcceptError
    ensures { result ≡ record { cause = error.TransportError (bare (record { 0 = codes.protocol_violation })); response = None } }
{
    let error = error_of(TransportErrorCode::PROTOCOL_VIOLATION);
    silent(ConnectionError::TransportError(error))
}

// Ids are exhausted, and this was written, or couldn't be for want of memory.
fn exhausted(sent: Result<Transmit, Memory>) -> AcceptError
    ensures sent { IfOk sent (λ transmit. result ≡ record { cause = error.CidsExhausted; response = Some transmit }) }
    ensures wanting { IfErr sent (λ e. result ≡ record { cause = error.Memory; response = None }) }
{
    match sent {
        Ok(transmit) => AcceptError {
            cause: ConnectionError::CidsExhausted,
            response: Some(transmit),
        },
        Err(Memory) => silent(ConnectionError::Memory),
    }
}

// Whether the connection would have been idle for too long already.
fn is_stale(server: &ServerConfig, waiting: &Waiting, now: Moment) -> bool
    ensures { IsTrue result ↔ IsStale server.now waiting.now now }
{
    let Some(idle) = server.conn.idle else {
        return false;
    };
    match waiting.received_at.0.checked_add(idle.0) {
        Some(end) => end <= now.0,
        None => false,
    }
}

// Whether a packet of this form is taken, with a client's tag.
fn opens<S: Session>(session: &S, form: &InitialForm<'_>) -> bool
    ensures opened { result ≡ true → (number : ℕ) × (frames : List ℕ) × IsInitialOpened (S.accepts session.now) AClient 0 form.now.first form.now.body.now number frames }
    ensures refused { result ≡ false → (number : ℕ) (frames : List ℕ) → IsInitialOpened (S.accepts session.now) AClient 0 form.now.first form.now.body.now number frames → ⊥ }
{
    match open_initial(session, form, Side::Client, 0) {
        Some(_) => true,
        None => false,
    }
}

// The settings of the attempt's connection.
fn conn_of(server: &ServerConfig, first: &FirstPacket) -> ConnConfig
    ensures { result ≡ conn_of server.now first.now }
{
    ConnConfig {
        version: first.version,
        ..server.conn
    }
}

// Hands a datagram to the connection. If memory is wanting, the connection keeps that as its error.
fn hand<S: Session>(connection: &mut Connection<S>, now: Moment, datagram: &[u8])
    requires { IsWhole connection.old }
    ensures handed { IsHanded (record { name = S.name; knows = S.knows; key = S.key; sealed = S.sealed; accepts = S.accepts }) now datagram.now connection.old connection.new }
    ensures whole { IsWhole connection.new }
{
    let _ = connection.handle_datagram(now, datagram);
}

// Hands the datagrams that were kept to the connection, in order.
fn hand_all<S: Session>(connection: &mut Connection<S>, datagrams: &[KeptDatagram])
    requires { IsWhole connection.old }
    ensures handed { AreHanded (record { name = S.name; knows = S.knows; key = S.key; sealed = S.sealed; accepts = S.accepts }) datagrams.now connection.old connection.new }
    ensures whole { IsWhole connection.new }
{
    for datagram in datagrams {
        hand(connection, datagram.now, datagram.payload.as_slice());
    }
}
