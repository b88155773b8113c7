ghost use Rattle.std.specs.Prelude.{◌≡◌, [], ℕ, ◌≤◌, ◌^◌, ◌↔◌, true, false, filter, List, None, Ok, OnOk, IfOk, IfSome, IsTrue};
ghost use Rattle.qh_core.specs.Inner.{is_open, with_streams};
ghost use Rattle.qh_core.specs.declared.inner.Inner.{Inner as AnInner};
ghost use Rattle.qh_message.specs.Written.{CanBeWritten};
ghost use Rattle.qh_roles.specs.Going.{WentFrom};
ghost use Rattle.qh_roles.specs.Handling.{AcceptStep, Accepts, Advances, AreFitting, HandlerStep, HandlersStep, IsQuiet, IsServed, IsSettledIn, Polls, state_of};
ghost use Rattle.qh_roles.specs.Server.{AreGoing, AreOnStreams, ForgetsNone, GrewByAnswers, HasAccepted, ServerStep, Serving, IsOn, is_done, is_going};
ghost use Rattle.qh_roles.specs.Streams.{IsStirred, KeepsOver, NoneArrived};
ghost use Rattle.qh_roles.specs.declared.server.HandlerState.TheVariants.{Reading, Responding};
ghost use Rattle.qh_spec.specs.Record.{PlainEntry};
ghost use Rattle.qh_spec.specs.Service.{IsServable};
ghost use Rattle.qh_spec.specs.Spelling.{Spells};
ghost use Rattle.qh_spec.specs.Transcript.{Act};
ghost use Rattle.qh_spec.specs.declared.sides.Side.TheVariants.{Server as TheServer};

use crate::outgoing::give_up;
use crate::{Incoming, Outgoing, ReadState, WriteState};
use qh_base::{Code, Dir, Memory, StreamId};
use qh_conduct::behaves;
use qh_core::{Connection, made};
use qh_message::{read_request, writable, write_message};
use qh_service::{Head, Limits, Message, Service};
use std::alloc::Global;
use std::marker::Model;
use std::mem;

/// A server's part of an exchange: it has each request served that comes whole on a stream of the client's, and writes the
/// response there.
#[derive(Drop)]
pub struct Server {
    limits: Limits,
    accepted: u64,
    handlers: Vec<Handler>,
}

impl Model for Server {
    ghost use Rattle.qh_roles.specs.Server.{PlainServer};

    ghost Value = { PlainServer };

    ghost view = { λ s. record { limits = s.limits; accepted = s.accepted; handlers = s.handlers.items } };

    ghost use Rattle.qh_roles.specs.Server.{IsServer};

    ghost invariant = { λ s. IsServer (record { limits = s.limits; accepted = s.accepted; handlers = s.handlers.items }) };
}

/// What handles one stream of the client's.
#[derive(Drop)]
pub struct Handler {
    /// The stream.
    pub stream: StreamId,
    /// How far it is.
    pub state: HandlerState,
}

/// How far a request is at the server.
#[derive(Drop)]
pub enum HandlerState {
    /// It comes.
    Reading(Incoming),
    /// It was served, and bytes of the response are left to be sent.
    Responding(Outgoing),
    /// The response was sent, or the stream was given up.
    Done,
}

impl Server {
    /// A server before the first stream. Responses keep within the limits. It takes no memory.
    pub fn new(alloc: Global, limits: Limits) -> Server
        requires { (limits.max_field_section_size ≤ 2 ^ 20) × (limits.max_response_body ≤ 2 ^ 30) }
        ensures value { result ≡ record { limits = limits; accepted = 0; handlers = [] } }
        ensures serving { Serving result [] [] }
    {
        Server {
            limits,
            accepted: 0,
            handlers: Vec::new(alloc),
        }
    }

    /// Looks at each stream once: accepts those that are new, reads what came, has each request served that is whole, and writes
    /// what is left of each response. How far a stream goes in one call is in no clause. A request that can't be read, or whose sections pass the limit, is
    /// answered by a reset with H3_MESSAGE_ERROR (RFC 9114, section 4.1.2), one that was given up by H3_REQUEST_INCOMPLETE. Want
    /// of memory gives up the stream on which it came.
    pub fn poll<S, V: Service>(
        &mut self,
        alloc: Global,
        connection: &mut Connection<S>,
        service: &mut V,
    ) -> Result<(), Memory>
        requires side { connection.old.side ≡ TheServer }
        requires open { is_open connection.old.state ≡ true }
        ensures rest { connection.new ≡ with_streams connection.old connection.new.space.streams }
        ensures limits { self.new.limits ≡ self.old.limits }
        ensures accepted { HasAccepted self.old connection.old → HasAccepted self.new connection.new }
        ensures serves { HasAccepted self.old connection.old → ServerStep self.old self.new connection.old connection.new (V.served service.old) (V.served service.new) }
        ensures answered { GrewByAnswers (V.may_answer self.old.limits) (V.served service.old) (V.served service.new) }
        ensures all { OnOk result (connection.new.space.streams.bi.accepted ≡ connection.new.space.streams.bi.arrived) }
        ensures going { OnOk result (AreGoing self.new.handlers) }
        ensures forgets_none { OnOk result (AreGoing self.old.handlers → AreOnStreams self.old.handlers → ForgetsNone self.old.handlers self.new.handlers connection.old.space.streams connection.new.space.streams) }
    {
        advance(
            alloc,
            &self.limits,
            &mut self.accepted,
            &mut self.handlers,
            connection,
            service,
        )
    }
}

// Goes on with each stream, and forgets those with which nothing more is done. An open connection isn't lost, as `is_owed` says.
fn advance<S, V: Service>(
    alloc: Global,
    limits: &Limits,
    accepted: &mut u64,
    handlers: &mut Vec<Handler>,
    connection: &mut Connection<S>,
    service: &mut V,
) -> Result<(), Memory>
    requires fitting { AreFitting limits.now }
    requires side { connection.old.side ≡ TheServer }
    requires open { is_open connection.old.state ≡ true }
    ensures step { Advances (V.may_answer limits.now) limits.now accepted.old accepted.new handlers.old.items handlers.new.items connection.old connection.new (V.served service.old) (V.served service.new) }
    ensures all { OnOk result (connection.new.space.streams.bi.accepted ≡ connection.new.space.streams.bi.arrived) }
    ensures going { OnOk result (AreGoing handlers.new.items) }
    ensures forgets_none { OnOk result (AreGoing handlers.old.items → AreOnStreams handlers.old.items → ForgetsNone handlers.old.items handlers.new.items connection.old.space.streams connection.new.space.streams) }
{
    connection.is_owed();
    accept_all(alloc, accepted, handlers, connection)?;
    poll_all(alloc, limits, handlers, connection, service)?;
    forget_done(handlers);
    Ok(())
}

// Forgets the handlers with which nothing more is done.
fn forget_done(handlers: &mut Vec<Handler>)
    ensures { handlers.new.items ≡ filter is_going handlers.old.items }
{
    handlers.retain(|handler| !handler.is_done());
}

// Accepts the streams that the client opened.
fn accept_all<S>(
    alloc: Global,
    accepted: &mut u64,
    handlers: &mut Vec<Handler>,
    connection: &mut Connection<S>,
) -> Result<(), Memory>
    requires side { connection.old.side ≡ TheServer }
    requires sound { connection.old.error ≡ None }
    ensures rest { connection.new ≡ with_streams connection.old connection.new.space.streams }
    ensures step { connection.old.space.streams.bi.accepted ≡ accepted.old → AcceptStep accepted.old accepted.new handlers.old.items handlers.new.items connection.old connection.new }
    ensures all { OnOk result (connection.new.space.streams.bi.accepted ≡ connection.new.space.streams.bi.arrived) }
    ensures accepts { OnOk result (Accepts handlers.old.items handlers.new.items connection.old.space.streams connection.new.space.streams) }
{
    for _stream in 0..u64::MAX {
        if !accept_next(alloc, accepted, handlers, connection)? {
            return Ok(());
        }
    }
    // No memory holds so many handlers.
    Err(Memory)
}

// Accepts the next stream that the client opened; whether one was new.
fn accept_next<S>(
    alloc: Global,
    accepted: &mut u64,
    handlers: &mut Vec<Handler>,
    connection: &mut Connection<S>,
) -> Result<bool, Memory>
    requires side { connection.old.side ≡ TheServer }
    requires sound { connection.old.error ≡ None }
    ensures rest { connection.new ≡ with_streams connection.old connection.new.space.streams }
    ensures step { connection.old.space.streams.bi.accepted ≡ accepted.old → AcceptStep accepted.old accepted.new handlers.old.items handlers.new.items connection.old connection.new }
    ensures none { result ≡ Ok false → connection.new.space.streams.bi.accepted ≡ connection.new.space.streams.bi.arrived }
    ensures accepts { OnOk result (Accepts handlers.old.items handlers.new.items connection.old.space.streams connection.new.space.streams) }
{
    behaves::<S>();
    made::<S>();
    let Some(stream) = connection.accept(Dir::Bi) else {
        return Ok(false);
    };
    *accepted = accepted.saturating_add(1);
    handlers.push(Handler {
        stream,
        state: HandlerState::Reading(Incoming::new(alloc, stream)),
    })?;
    Ok(true)
}

// Goes on with each of the streams.
fn poll_all<S, V: Service>(
    alloc: Global,
    limits: &Limits,
    handlers: &mut [Handler],
    connection: &mut Connection<S>,
    service: &mut V,
) -> Result<(), Memory>
    requires fitting { AreFitting limits.now }
    ensures step { (accepted : ℕ) → HandlersStep (V.may_answer limits.now) limits.now accepted handlers.old handlers.new connection.old connection.new (V.served service.old) (V.served service.new) }
    ensures polls { OnOk result (Polls handlers.old handlers.new connection.old.space.streams connection.new.space.streams) }
{
    for at in 0..handlers.len() {
        read_on(alloc, &mut handlers[at], limits, connection, service)?;
        respond_on(&mut handlers[at], connection)?;
    }
    Ok(())
}

// Reads what came on a handler's stream, and has the request served once it is whole.
fn read_on<S, V: Service>(
    alloc: Global,
    handler: &mut Handler,
    limits: &Limits,
    connection: &mut Connection<S>,
    service: &mut V,
) -> Result<(), Memory>
    requires fitting { AreFitting limits.now }
    ensures same { handler.new.stream ≡ handler.old.stream }
    ensures stirred { IsStirred connection.old connection.new }
    ensures none_arrived { NoneArrived connection.old.space.streams connection.new.space.streams }
    ensures over { KeepsOver connection.old.space.streams.send connection.new.space.streams.send }
    ensures settled { OnOk result (IsSettledIn handler.old.stream.0 connection.old.space.streams handler.old.state → IsSettledIn handler.new.stream.0 connection.new.space.streams handler.new.state) }
    ensures step { HandlerStep handler.old.stream.0 handler.old.state handler.new.state connection.old connection.new (V.served service.old) (V.served service.new) }
    ensures answered { GrewByAnswers (V.may_answer limits.now) (V.served service.old) (V.served service.new) }
{
    match mem::replace(&mut handler.state, HandlerState::Done) {
        HandlerState::Reading(incoming) => {
            handler.state = read(alloc, incoming, handler.stream, limits, connection, service)?;
        }
        state => handler.state = state,
    }
    Ok(())
}

// Sends what is left of the response on a handler's stream.
fn respond_on<S>(handler: &mut Handler, connection: &mut Connection<S>) -> Result<(), Memory>
    ensures same { handler.new.stream ≡ handler.old.stream }
    ensures stirred { IsStirred connection.old connection.new }
    ensures none_arrived { NoneArrived connection.old.space.streams connection.new.space.streams }
    ensures over { KeepsOver connection.old.space.streams.send connection.new.space.streams.send }
    ensures settled { OnOk result (IsSettledIn handler.old.stream.0 connection.old.space.streams handler.old.state → IsSettledIn handler.new.stream.0 connection.new.space.streams handler.new.state) }
    ensures step { (recorded : List PlainEntry) → HandlerStep handler.old.stream.0 handler.old.state handler.new.state connection.old connection.new recorded recorded }
{
    match mem::replace(&mut handler.state, HandlerState::Done) {
        HandlerState::Responding(outgoing) => {
            handler.state = respond(outgoing, handler.stream, connection)?;
        }
        state => handler.state = state,
    }
    Ok(())
}

impl Handler {
    // Whether nothing more is done with it.
    fn is_done(&self) -> bool
        ensures { result ≡ is_done self.now.state }
    {
        matches!(self.state, HandlerState::Done)
    }
}

// Reads what came of the request on this stream, and has it served once it is whole.
fn read<S, V: Service>(
    alloc: Global,
    incoming: Incoming,
    stream: StreamId,
    limits: &Limits,
    connection: &mut Connection<S>,
    service: &mut V,
) -> Result<HandlerState, Memory>
    requires fitting { AreFitting limits.now }
    ensures stirred { IsStirred connection.old connection.new }
    ensures none_arrived { NoneArrived connection.old.space.streams connection.new.space.streams }
    ensures over { KeepsOver connection.old.space.streams.send connection.new.space.streams.send }
    ensures settled { incoming.stream ≡ stream.0 → IfOk result (IsSettledIn stream.0 connection.new.space.streams) }
    ensures step { HandlerStep stream.0 (Reading incoming) (state_of result) connection.old connection.new (V.served service.old) (V.served service.new) }
    ensures answered { GrewByAnswers (V.may_answer limits.now) (V.served service.old) (V.served service.new) }
{
    let mut incoming = incoming;
    match incoming.read(connection)? {
        ReadState::Blocked => Ok(HandlerState::Reading(incoming)),
        ReadState::Ended => serve(alloc, stream, incoming.bytes(), limits, connection, service),
        ReadState::Refused => {
            give_up(connection, stream, Code::H3_REQUEST_INCOMPLETE);
            Ok(HandlerState::Done)
        }
    }
}

// Has the request served that these bytes spell, where they do and it may be.
fn serve<S, V: Service>(
    alloc: Global,
    stream: StreamId,
    bytes: &[u8],
    limits: &Limits,
    connection: &mut Connection<S>,
    service: &mut V,
) -> Result<HandlerState, Memory>
    requires fitting { AreFitting limits.now }
    ensures stirred { IsStirred connection.old connection.new }
    ensures none_arrived { NoneArrived connection.old.space.streams connection.new.space.streams }
    ensures over { KeepsOver connection.old.space.streams.send connection.new.space.streams.send }
    ensures settled { IfOk result (IsSettledIn stream.0 connection.new.space.streams) }
    ensures quiet { (start : AnInner S) (before t : List Act) → WentFrom start before connection.old t → IsQuiet start before stream.0 connection.new t }
    ensures served { IsServed stream.0 bytes.now result (V.served service.old) (V.served service.new) }
    ensures answered { GrewByAnswers (V.may_answer limits.now) (V.served service.old) (V.served service.new) }
{
    match servable_request(alloc, bytes, limits)? {
        Some(request) => answer(alloc, stream, request, limits, service),
        None => {
            give_up(connection, stream, Code::H3_MESSAGE_ERROR);
            Ok(HandlerState::Done)
        }
    }
}

// The request that these bytes spell, where they do and it may be served.
fn servable_request(alloc: Global, bytes: &[u8], limits: &Limits) -> Result<Option<Message>, Memory>
    requires { AreFitting limits.now }
    ensures { IfOk result (λ found. IfSome found (λ request. Spells bytes.now request × IsServable limits.now.max_field_section_size request)) }
{
    match read_request(alloc, bytes)? {
        Some(request) => Ok(servable(request, limits)),
        None => Ok(None),
    }
}

// The request, where it may be served.
fn servable(request: Message, limits: &Limits) -> Option<Message>
    requires { AreFitting limits.now }
    ensures { IfSome result (λ found. (found ≡ request) × IsServable limits.now.max_field_section_size found) }
{
    if is_servable(&request, limits) {
        Some(request)
    } else {
        None
    }
}

// Has a request served, and begins to write the response.
fn answer<V: Service>(
    alloc: Global,
    stream: StreamId,
    request: Message,
    limits: &Limits,
    service: &mut V,
) -> Result<HandlerState, Memory>
    requires fitting { AreFitting limits.now }
    requires servable { IsServable limits.now.max_field_section_size request }
    ensures going { IfOk result (λ state. IsOn stream.0 state × (is_done state ≡ false)) }
    ensures served { (bytes : List ℕ) → Spells bytes request → IsServed stream.0 bytes result (V.served service.old) (V.served service.new) }
    ensures answered { GrewByAnswers (V.may_answer limits.now) (V.served service.old) (V.served service.new) }
{
    writable();
    let response = service.serve(alloc, stream.0, &request, limits)?;
    let bytes = written(alloc, response)?;
    Ok(HandlerState::Responding(Outgoing::new(stream, bytes)))
}

// The bytes of a response.
fn written(alloc: Global, response: Message) -> Result<Vec<u8>, Memory>
    requires { CanBeWritten response }
    ensures { IfOk result (λ bytes. Spells bytes.items response) }
{
    write_message(alloc, &response)
}

// Sends what is left of a response.
fn respond<S>(
    outgoing: Outgoing,
    stream: StreamId,
    connection: &mut Connection<S>,
) -> Result<HandlerState, Memory>
    ensures stirred { IsStirred connection.old connection.new }
    ensures none_arrived { NoneArrived connection.old.space.streams connection.new.space.streams }
    ensures over { KeepsOver connection.old.space.streams.send connection.new.space.streams.send }
    ensures settled { outgoing.stream ≡ stream.0 → IfOk result (IsSettledIn stream.0 connection.new.space.streams) }
    ensures step { (recorded : List PlainEntry) → HandlerStep stream.0 (Responding outgoing) (state_of result) connection.old connection.new recorded recorded }
{
    let mut outgoing = outgoing;
    match outgoing.write(connection)? {
        WriteState::Blocked => Ok(HandlerState::Responding(outgoing)),
        WriteState::Finished => Ok(HandlerState::Done),
        WriteState::Refused => {
            give_up(connection, stream, Code::H3_REQUEST_CANCELLED);
            Ok(HandlerState::Done)
        }
    }
}

// Whether a request may be served: its sections lie within the limits. A size that stands still at the greatest number doesn't.
fn is_servable(request: &Message, limits: &Limits) -> bool
    requires { AreFitting limits.now }
    ensures { IsTrue result ↔ IsServable limits.now.max_field_section_size request.now }
{
    match request.head() {
        Head::Request { .. } => {
            request.section_size() <= limits.max_field_section_size
                && request.trailers_size() <= limits.max_field_section_size
        }
        Head::Response { .. } => false,
    }
}
