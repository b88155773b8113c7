//! A connection that ends with the first error that any of its handles set.
ghost use Rattle.std.specs.Prelude.{◌≡◌, ◌⊎◌, ◌<◌, ◌^◌, Result, None, Some, false};
ghost use Rattle.futures.specs.Poll.{OnPending};
ghost use Rattle.futures.specs.Task.{IsArmed, Keeps};
ghost use Rattle.futures.specs.declared.task.Poll.{Poll};
ghost use Rattle.qh_h3.specs.Closing.{IsFoundBy, IsLooked, IsPassed, IsPast, IsSettled, IsTold as IsTelling, close_of, closed_with, is_wanting};
ghost use Rattle.qh_h3.specs.Connections.{IfStream, closing};
ghost use Rattle.qh_h3.specs.Counts.{counted_accept};
ghost use Rattle.qh_h3.specs.Streams.{IsTold, if_done, unread, unsent};
ghost use Rattle.qh_h3.specs.declared.quic.error.ConnectionErrorIncoming.{ConnectionErrorIncoming as Loss};

use crate::error::{ConnectionError, ErrorOrigin};
use crate::quic::{Connection, ConnectionErrorIncoming, OpenStreams};
use crate::shared_state::{SharedState, StateSeat};
use futures::task::{Context, Poll};
use qh_base::{Code, Memory};
use std::alloc::Global;
use std::marker::Model;
use std::sync::Arc;

// A connection below, with a seat of the state that its handles share.
pub(crate) struct Closable<C> {
    conn: C,
    shared: Arc<SharedState, Global>,
    seat: StateSeat,
    // Whether what the state's error asks for was done.
    is_handled: bool,
    // An error that memory was wanted for when it was to be told to the state.
    owed: Option<ErrorOrigin>,
}

impl<C> Model for Closable<C> {
    ghost use Rattle.std.specs.Prelude.{◌≡◌, IsSome, true};
    ghost use Rattle.qh_h3.specs.Closing.{Closable as Seen};

    ghost Value = { Seen C };

    ghost view = { λ s. record { conn = s.conn; state = s.shared.value; seat = s.seat; is_handled = s.is_handled; owed = s.owed } };

    ghost invariant = { λ s. (s.seat.state ≡ s.shared.value) × (s.is_handled ≡ true → IsSome s.seat.error) };
}

impl<C> Closable<C> {
    // A connection that wasn't closed for an error.
    pub(crate) fn new(conn: C, shared: Arc<SharedState, Global>, seat: StateSeat) -> Closable<C>
        requires { seat.state ≡ shared.value }
        ensures { result ≡ record { conn = conn; state = shared.value; seat = seat; is_handled = false; owed = None } }
    {
        Closable {
            conn,
            shared,
            seat,
            is_handled: false,
            owed: None,
        }
    }
}

impl<C: OpenStreams> Closable<C> {
    // Ends the connection, unless the error is want of memory. The answer is the first error that was set.
    pub(crate) fn handle(
        &mut self,
        at: &mut C::At,
        alloc: Global,
        error: ErrorOrigin,
    ) -> ConnectionError
        ensures found { IsFoundBy (is_wanting error) error result (C.closes self.old.conn at.old) (C.closes self.new.conn at.new) self.old self.new }
        ensures counts { C.counts self.new.conn at.new ≡ C.counts self.old.conn at.old }
        ensures state { self.new.state ≡ self.old.state }
    {
        if is_memory(&error) {
            return ConnectionError::Memory;
        }
        match self.owed.take() {
            Some(first) => self.tell(at, alloc, first),
            None => self.tell(at, alloc, error),
        }
    }

    // The first error that was set, if there is one. The connection is closed for it if that wasn't done.
    pub(crate) fn look(&mut self, at: &mut C::At, alloc: Global) -> Option<ConnectionError>
        ensures looked { IsLooked self.old.owed result (C.closes self.old.conn at.old) (C.closes self.new.conn at.new) self.old self.new }
        ensures counts { C.counts self.new.conn at.new ≡ C.counts self.old.conn at.old }
        ensures state { self.new.state ≡ self.old.state }
    {
        if let Some(first) = self.owed.take() {
            return Some(self.tell(at, alloc, first));
        }
        match self.shared.get_conn_error(&mut self.seat) {
            Some(first) => Some(self.settle(at, alloc, first)),
            None => None,
        }
    }

    // Tells the state an error. It is owed if memory is wanted for that.
    fn tell(&mut self, at: &mut C::At, alloc: Global, error: ErrorOrigin) -> ConnectionError
        requires { self.old.owed ≡ None }
        ensures told { IsTelling error result (C.closes self.old.conn at.old) (C.closes self.new.conn at.new) self.old self.new }
        ensures counts { C.counts self.new.conn at.new ≡ C.counts self.old.conn at.old }
        ensures state { self.new.state ≡ self.old.state }
    {
        let again = error.copied();
        match self.shared.set_conn_error(alloc, &mut self.seat, error) {
            Ok(first) => self.settle(at, alloc, first),
            Err(Memory) => {
                self.owed = Some(again);
                ConnectionError::Memory
            }
        }
    }

    // Closes the connection for its error, if that wasn't done.
    fn settle(&mut self, at: &mut C::At, alloc: Global, first: ErrorOrigin) -> ConnectionError
        requires { self.old.seat.error ≡ Some first }
        ensures settled { IsSettled first result (C.closes self.old.conn at.old) (C.closes self.new.conn at.new) self.old.is_handled self.new.is_handled }
        ensures counts { C.counts self.new.conn at.new ≡ C.counts self.old.conn at.old }
        ensures state { self.new.state ≡ self.old.state }
        ensures seat { self.new.seat ≡ self.old.seat }
        ensures owed { self.new.owed ≡ self.old.owed }
    {
        if self.is_handled {
            return ConnectionError::of_origin(first);
        }
        if close_for(&mut self.conn, at, alloc, &first).is_err() {
            return ConnectionError::Memory;
        }
        self.is_handled = true;
        ConnectionError::of_origin(first)
    }

    // Closes the connection with this code and reason, whatever its error is.
    pub(crate) fn close(
        &mut self,
        at: &mut C::At,
        alloc: Global,
        code: Code,
        reason: &[u8],
    ) -> Result<(), Memory>
        requires { code.0 < 2 ^ 62 }
        ensures closes { C.closes self.new.conn at.new ≡ if_done (closing code.0 reason.now) result (C.closes self.old.conn at.old) }
        ensures counts { C.counts self.new.conn at.new ≡ C.counts self.old.conn at.old }
        ensures state { self.new.state ≡ self.old.state }
        ensures seat { self.new.seat ≡ self.old.seat }
        ensures handled { self.new.is_handled ≡ self.old.is_handled }
        ensures owed { self.new.owed ≡ self.old.owed }
    {
        self.conn.close(at, alloc, code, reason)
    }
}

impl<C: Connection> Closable<C> {
    // The next stream with both halves that the peer opened, unless the connection ended.
    pub(crate) fn poll_accept_bi(
        &mut self,
        at: &mut C::At,
        alloc: Global,
        cx: &mut Context<'_>,
    ) -> Poll<Result<C::BidiStream, ConnectionError>>
        ensures accepted { (IsPast result (C.closes self.old.conn at.old) (C.closes self.new.conn at.new) self.old self.new × (C.counts self.new.conn at.new ≡ C.counts self.old.conn at.old))
            ⊎ ((below : Poll (Result C.BidiStream Loss)) × (C.counts self.new.conn at.new ≡ counted_accept below (C.counts self.old.conn at.old))
            × IsPassed below result (C.closes self.old.conn at.old) (C.closes self.new.conn at.new) self.old self.new) }
        ensures sent { IfStream result (λ s. IsTold (C.BidiStream.sent s at.new) unsent) }
        ensures received { IfStream result (λ s. IsTold (C.BidiStream.received s at.new) unread) }
        ensures state { self.new.state ≡ self.old.state }
        ensures armed { OnPending result (IsArmed cx.new) }
        ensures kept { Keeps cx.old cx.new }
    {
        if let Some(error) = self.look(at, alloc) {
            return Poll::Ready(Err(error));
        }
        match self.conn.poll_accept_bidi(at, alloc, cx) {
            Poll::Pending => Poll::Pending,
            Poll::Ready(Ok(stream)) => Poll::Ready(Ok(stream)),
            Poll::Ready(Err(error)) => Poll::Ready(Err(self.handle(
                at,
                alloc,
                ErrorOrigin::Quic(error),
            ))),
        }
    }
}

// Whether it is want of memory, which ends no connection.
fn is_memory(error: &ErrorOrigin) -> bool
    ensures { result ≡ is_wanting error.now }
{
    matches!(error, ErrorOrigin::Quic(ConnectionErrorIncoming::Memory))
}

// Closes the connection for an error.
pub(crate) fn close_for<C: OpenStreams>(
    conn: &mut C,
    at: &mut C::At,
    alloc: Global,
    error: &ErrorOrigin,
) -> Result<(), Memory>
    ensures closes { C.closes conn.new at.new ≡ if_done (closed_with (close_of error.now)) result (C.closes conn.old at.old) }
    ensures counts { C.counts conn.new at.new ≡ C.counts conn.old at.old }
{
    match error {
        ErrorOrigin::Internal(error) => conn.close(at, alloc, error.code, error.message.bytes()),
        ErrorOrigin::Quic(ConnectionErrorIncoming::InternalError(reason)) => {
            conn.close(at, alloc, Code::H3_INTERNAL_ERROR, reason.bytes())
        }
        ErrorOrigin::Quic(_) => Ok(()),
    }
}
