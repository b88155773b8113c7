ghost use Rattle.std.specs.Prelude.{◌≡◌, ◌≢◌, ◌⊎◌, ◌↔◌, ◌+◌, ◌≤◌, ℕ, [], List, None, Ok, Option, Result, Some, length, true};
ghost use Rattle.std.specs.Net.Socket.{socket_ip};
ghost use Rattle.std.specs.declared.net.socket_addr.SocketAddr.{SocketAddr};
ghost use Rattle.qh_attempts.specs.Attempts.{AreAttempts, IsLater, IsPending, PlainAttempt, PlainBuffers, attempt_at};
ghost use Rattle.qh_attempts.specs.declared.incoming_buffers.AttemptKey.{AttemptKey as Name};
ghost use Rattle.qh_attempts.specs.declared.attempt.KeptDatagram.{KeptDatagram as Kept};
ghost use Rattle.qh_base.specs.declared.path.FourTuple.{FourTuple as Addresses};
ghost use Rattle.qh_base.specs.declared.time.Moment.{Moment as Time};
ghost use Rattle.qh_base.specs.declared.transport_error.TransportError.{TransportError as AFailure};
ghost use Rattle.qh_conn.specs.declared.event.ConnectionEvent.TheVariants.{Datagram};
ghost use Rattle.qh_conn.specs.declared.connection.Connection.{Connection as AConnection};
ghost use Rattle.qh_conn.specs.declared.event.ConnectionEvent.{ConnectionEvent as Answer};
ghost use Rattle.qh_control.specs.declared.event.EndpointEvent.{EndpointEvent as Asked};
ghost use Rattle.qh_endpoint.specs.Accepting.{IsAccepted, IsNotAccepted};
ghost use Rattle.qh_endpoint.specs.Closed.{IsClosed, IsUnclosed};
ghost use Rattle.qh_endpoint.specs.Connecting.{IsConnectRefused, IsConnected};
ghost use Rattle.qh_endpoint.specs.Endpoint.{PlainEndpoint, numbers};
ghost use Rattle.qh_endpoint.specs.Handled.{IsHandled, IsKept, IsRoutedTo, IsUnhandled, StillWaits};
ghost use Rattle.qh_endpoint.specs.Leaving.{HasLeft};
ghost use Rattle.qh_endpoint.specs.Led.{AreLed};
ghost use Rattle.qh_endpoint.specs.Retrying.{IsNotRetried, IsRetryWritten, later_token};
ghost use Rattle.qh_endpoint.specs.declared.accepting.AcceptError.{AcceptError as Refusal};
ghost use Rattle.qh_endpoint.specs.declared.event.DatagramEvent.{DatagramEvent as Event};
ghost use Rattle.qh_endpoint.specs.declared.event.DatagramEvent.TheVariants.{ConnectionEvent as ForConnection};
ghost use Rattle.qh_endpoint.specs.declared.incoming.Waiting.{Waiting as Content};
ghost use Rattle.qh_endpoint_events.specs.Events.{IsDone, IsExhausted, IsWanting};
ghost use Rattle.qh_endpoint.specs.declared.retrying.RetryFault.{RetryFault as Why};
ghost use Rattle.qh_incoming_token.specs.IncomingToken.{IsTakenFor, answered_by_log, logged, retried, validated};
ghost use Rattle.qh_incoming_token.specs.declared.incoming_token.IncomingToken.{IncomingToken as AToken};
ghost use Rattle.qh_incoming_token.specs.declared.incoming_token.IncomingTokenFault.{IncomingTokenFault as AFault};
ghost use Rattle.qh_incoming_token.specs.declared.incoming_token.TokenLifetimes.{TokenLifetimes as Lifetimes};
ghost use Rattle.qh_kit.specs.declared.config.ClientConfig.{ClientConfig as Client};
ghost use Rattle.qh_kit.specs.declared.config.ServerConfig.{ServerConfig as Server};
ghost use Rattle.qh_kit.specs.declared.error.ConnectError.{ConnectError as ConnectRefusal};
ghost use Rattle.qh_packet.specs.Retry.{retry_bytes};
ghost use Rattle.qh_parts.specs.TokenLog.{IsLook};
ghost use Rattle.qh_parts.specs.declared.token_log.TokenFault.{TokenFault as Fault};
ghost use Rattle.qh_routes.specs.Routes.{NoKeyTwice};
ghost use Rattle.qh_routes.specs.declared.connection_handle.ConnectionHandle.{ConnectionHandle as Handle};
ghost use Rattle.qh_routes.specs.declared.connection_index.RouteDatagramTo.TheVariants as target;
ghost use Rattle.qh_stateless.specs.Header.{Header, IsHeader};
ghost use Rattle.qh_token.specs.Token.{IsToken};

use qh_kit::Kit;

/// A datagram whose first route leads to a connection does nothing but reach it, with all its bytes. One whose first route leads to an attempt is kept
/// for that one, or dropped if there is no room.
pub fn routed_datagrams<K: Kit>()
    ensures reached { (now : Time) (addresses : Addresses) (datagram written : List ℕ) (old new : PlainEndpoint K K.G K.R K.T) (event : Option Event) (h : Header) (handle : Handle) → NoKeyTwice old.connections.routes
        → IsHeader (K.G.cid_len old.connections.ids) (numbers old.config) old.config.grease_quic_bit datagram h → IsRoutedTo {S = K.S} K.G.cid_len K.G.validates K.G.given K.R.given K.T.limits K.T.stands K.S.key K.S.sealed now addresses datagram old h (Some (target.Connection handle))
        → IsHandled {S = K.S} K.G.cid_len K.G.validates K.G.given K.R.given K.T.limits K.T.stands K.S.key K.S.sealed now addresses datagram old new written event
        → (event ≡ Some (ForConnection handle (Datagram now addresses.remote datagram))) × (new ≡ old) × (written ≡ []) }
    ensures kept { (now : Time) (addresses : Addresses) (datagram written : List ℕ) (old new : PlainEndpoint K K.G K.R K.T) (event : Option Event) (h : Header) (k : ℕ) → NoKeyTwice old.connections.routes
        → IsHeader (K.G.cid_len old.connections.ids) (numbers old.config) old.config.grease_quic_bit datagram h → IsRoutedTo {S = K.S} K.G.cid_len K.G.validates K.G.given K.R.given K.T.limits K.T.stands K.S.key K.S.sealed now addresses datagram old h (Some (target.Incoming k))
        → IsHandled {S = K.S} K.G.cid_len K.G.validates K.G.given K.R.given K.T.limits K.T.stands K.S.key K.S.sealed now addresses datagram old new written event
        → IsKept k now addresses.remote datagram old new × (event ≡ None) × (written ≡ []) }
{}

/// An attempt that waits still does after a datagram, whatever that is, with what it had: at most the datagram is kept for it behind the others. None
/// that left comes back (`IsLater`).
pub fn attempts_stay<K: Kit>()
    ensures handled { (now : Time) (addresses : Addresses) (datagram written : List ℕ) (old new : PlainEndpoint K K.G K.R K.T) (event : Option Event) (k : ℕ) (attempt : PlainAttempt Content) → attempt_at old.incoming k ≡ Some attempt
        → IsHandled {S = K.S} K.G.cid_len K.G.validates K.G.given K.R.given K.T.limits K.T.stands K.S.key K.S.sealed now addresses datagram old new written event
        → StillWaits now addresses.remote datagram attempt (attempt_at new.incoming k) }
    ensures unhandled { (now : Time) (addresses : Addresses) (datagram written : List ℕ) (old new : PlainEndpoint K K.G K.R K.T) (k : ℕ) (attempt : PlainAttempt Content) → attempt_at old.incoming k ≡ Some attempt
        → IsUnhandled {S = K.S} K.G.cid_len K.G.validates K.G.given K.R.given K.T.limits K.T.stands K.S.key K.S.sealed now addresses datagram old new written
        → StillWaits now addresses.remote datagram attempt (attempt_at new.incoming k) }
    ensures later { (now : Time) (addresses : Addresses) (datagram written : List ℕ) (old new : PlainEndpoint K K.G K.R K.T) (event : Option Event)
        → IsHandled {S = K.S} K.G.cid_len K.G.validates K.G.given K.R.given K.T.limits K.T.stands K.S.key K.S.sealed now addresses datagram old new written event → IsLater old.incoming new.incoming }
    ensures later_unhandled { (now : Time) (addresses : Addresses) (datagram written : List ℕ) (old new : PlainEndpoint K K.G K.R K.T)
        → IsUnhandled {S = K.S} K.G.cid_len K.G.validates K.G.given K.R.given K.T.limits K.T.stands K.S.key K.S.sealed now addresses datagram old new written → IsLater old.incoming new.incoming }
{}

/// Tokens are taken for what they are, and for nothing else. The one of a Retry packet that comes back in an Initial from the address and port to which the
/// packet was sent, to the id from which it came, and within its life, says that the client answers that packet (`retried`; that it may be taken so, and
/// `only_retried`). A token for later connections that comes from its address within its life is looked up in the log of used ones. If it wasn't used
/// as far as the log knows, it says that its client receives there (`validated`, `by_the_log`).
pub fn tokens_come_back<K: Kit>()
    ensures retried { (now later : Time) (w : Content) (old new : PlainEndpoint K K.G K.R K.T) (written : List ℕ) (lifetimes : Lifetimes) (log : K.T) → later.0 ≤ now.0 + lifetimes.retry.0
        → IsRetryWritten K.G.cid_len K.G.validates K.G.given K.R.given now w old new written
        → (id token : List ℕ) × (written ≡ retry_bytes w.first.source id token w.first.destination)
        × IsTakenFor K.T.limits K.T.stands lifetimes w.addresses.remote later id token log log (Ok (retried id w.first.destination)) }
    ensures only_retried { (now later : Time) (w : Content) (old new : PlainEndpoint K K.G K.R K.T) (written : List ℕ) (lifetimes : Lifetimes) → later.0 ≤ now.0 + lifetimes.retry.0
        → IsRetryWritten K.G.cid_len K.G.validates K.G.given K.R.given now w old new written
        → (id token : List ℕ) × (written ≡ retry_bytes w.first.source id token w.first.destination)
        × ((before after : K.T) (answer : Result AToken AFault) → IsTakenFor K.T.limits K.T.stands lifetimes w.addresses.remote later id token before after answer → (answer ≡ Ok (retried id w.first.destination)) × (after ≡ before)) }
    ensures validated { (now later : Time) (nonce : ℕ) (remote : SocketAddr) (token id : List ℕ) (lifetimes : Lifetimes) (before after : K.T) → later.0 ≤ now.0 + lifetimes.validation.0
        → IsToken token (later_token nonce (socket_ip remote) now) → IsLook K.T.limits K.T.stands before (logged (later_token nonce (socket_ip remote) now) lifetimes) (Ok tt) after
        → IsTakenFor K.T.limits K.T.stands lifetimes remote later id token before after (Ok (validated id)) }
    ensures by_the_log { (now later : Time) (nonce : ℕ) (remote : SocketAddr) (token id : List ℕ) (lifetimes : Lifetimes) (before after : K.T) (answer : Result AToken AFault) → later.0 ≤ now.0 + lifetimes.validation.0
        → IsToken token (later_token nonce (socket_ip remote) now) → IsTakenFor K.T.limits K.T.stands lifetimes remote later id token before after answer
        → (look : Result (Unit {0}) Fault) × IsLook K.T.limits K.T.stands before (logged (later_token nonce (socket_ip remote) now) lifetimes) look after × (answer ≡ answered_by_log id look) }
{}

/// An attempt that left, in whichever way, waits no more, and never again, since no further attempt has its name. All others that waited still do.
pub fn attempts_leave_once<K, G, R, T>()
    ensures gone { (name : Name) (attempt : PlainAttempt Content) (old new : PlainEndpoint K G R T) → HasLeft name attempt old new → IsPending new.incoming name → ⊥ }
    ensures never { (name : Name) (attempt : PlainAttempt Content) (old new : PlainEndpoint K G R T) (later : PlainBuffers Content) → AreAttempts old.incoming → HasLeft name attempt old new → IsLater new.incoming later → IsPending later name → ⊥ }
    ensures others { (name other : Name) (attempt : PlainAttempt Content) (old new : PlainEndpoint K G R T) → HasLeft name attempt old new → other.key ≢ name.key → IsPending new.incoming other ↔ IsPending old.incoming other }
{}

/// A route to an attempt always leads to one that waits, and is that of the id to which its client's first packet went (`AreLed`): no call leaves a route of
/// an attempt that left, or of another id. An endpoint begins without routes.
pub fn attempts_are_led<K: Kit>()
    ensures handled { (now : Time) (addresses : Addresses) (datagram written : List ℕ) (old new : PlainEndpoint K K.G K.R K.T) (event : Option Event) → AreLed old
        → IsHandled {S = K.S} K.G.cid_len K.G.validates K.G.given K.R.given K.T.limits K.T.stands K.S.key K.S.sealed now addresses datagram old new written event → AreLed new }
    ensures unhandled { (now : Time) (addresses : Addresses) (datagram written : List ℕ) (old new : PlainEndpoint K K.G K.R K.T) → AreLed old
        → IsUnhandled {S = K.S} K.G.cid_len K.G.validates K.G.given K.R.given K.T.limits K.T.stands K.S.key K.S.sealed now addresses datagram old new written → AreLed new }
    ensures left { (name : Name) (attempt : PlainAttempt Content) (old new : PlainEndpoint K K.G K.R K.T) → AreLed old → HasLeft name attempt old new → AreLed new }
    ensures accepted { (server : Server) (w : Content) (now : Time) (datagrams : List Kept) (old new : PlainEndpoint K K.G K.R K.T) (handle : Handle) (connection : AConnection K.S) → AreLed old
        → IsAccepted K.G.cid_len K.G.validates K.G.given (record { name = K.S.name; knows = K.S.knows; key = K.S.key; sealed = K.S.sealed; accepts = K.S.accepts }) server w now datagrams old new handle connection → AreLed new }
    ensures unaccepted { (server : Server) (w : Content) (now : Time) (written : List ℕ) (old new : PlainEndpoint K K.G K.R K.T) (e : Refusal) → AreLed old
        → IsNotAccepted K.G.cid_len K.G.validates K.G.given (record { name = K.S.name; knows = K.S.knows; key = K.S.key; sealed = K.S.sealed; accepts = K.S.accepts }) server w now old new written e → AreLed new }
    ensures closed { (destination source written : List ℕ) (error : AFailure) (old new : PlainEndpoint K K.G K.R K.T) → AreLed old → IsClosed {S = K.S} K.G.cid_len K.G.validates K.G.given K.S.key K.S.sealed destination source error old new written → AreLed new }
    ensures unclosed { (written : List ℕ) (old new : PlainEndpoint K K.G K.R K.T) → AreLed old → IsUnclosed K.G.given old new written → AreLed new }
    ensures retried { (now : Time) (w : Content) (written : List ℕ) (old new : PlainEndpoint K K.G K.R K.T) → AreLed old → IsRetryWritten K.G.cid_len K.G.validates K.G.given K.R.given now w old new written → AreLed new }
    ensures unretried { (w : Content) (old new : PlainEndpoint K K.G K.R K.T) (why : Why) → AreLed old → IsNotRetried K.G.cid_len K.G.validates K.G.given K.R.given w old new why → AreLed new }
    ensures connected { (now : Time) (config : Client) (remote : SocketAddr) (name : List ℕ) (old new : PlainEndpoint K K.G K.R K.T) (handle : Handle) (connection : AConnection K.S) → AreLed old
        → IsConnected (K.G.cid_len old.connections.ids) K.G.given K.G.validates K.S.key K.S.name K.S.knows now config remote name old new handle connection → AreLed new }
    ensures unconnected { (now : Time) (config : Client) (remote : SocketAddr) (name : List ℕ) (old new : PlainEndpoint K K.G K.R K.T) (e : ConnectRefusal) → AreLed old
        → IsConnectRefused {S = K.S} (K.G.cid_len old.connections.ids) K.G.given K.G.validates K.S.key K.S.name K.S.knows now config remote name old new e → AreLed new }
    ensures asked { (handle : Handle) (event : Asked) (answer : Option Answer) (old new : PlainEndpoint K K.G K.R K.T) → AreLed old → new ≡ record old { connections = new.connections }
        → IsDone K.G.given K.G.cid_len K.G.validates handle old.connections new.connections event answer → AreLed new }
    ensures unasked { (handle : Handle) (event : Asked) (old new : PlainEndpoint K K.G K.R K.T) → AreLed old → new ≡ record old { connections = new.connections }
        → IsExhausted K.G.given K.G.cid_len K.G.validates handle old.connections new.connections event ⊎ IsWanting K.G.given K.G.cid_len K.G.validates handle old.connections new.connections event → AreLed new }
{}
