//! What a stream does with errors of its connection (h3, `error/connection_error_creators.rs`).
ghost use Rattle.std.specs.Prelude.{◌≡◌, MatchOption, MatchResult, None, Some};
ghost use Rattle.qh_h3.specs.Errors.{origin_of, plain_answer, stream_answer};
ghost use Rattle.qh_h3.specs.Seats.{FindsClosing, OffersError, Seated, closing_answer, error_answer};
ghost use Rattle.qh_h3.specs.declared.error.ErrorOrigin.TheVariants.{Internal as OwnError};

use crate::error::{ConnectionError, ErrorOrigin, InternalConnectionError, StreamError};
use crate::quic::{ConnectionErrorIncoming, StreamErrorIncoming};
use crate::shared_state::ConnectionState;
use qh_base::{Code, Memory};
use std::alloc::Global;

/// A handle of a stream, which has a seat of the connection's state. Its calls only put errors into the state: the connection's next call closes.
pub trait CloseStream: ConnectionState {
    /// What it knows of the state.
    ghost seat: { Self → Seated };

    /// The two differ in nothing but what their seats know.
    ghost is_same: { Self → Self → Type 0 };

    /// `set_conn_error_and_wake` with the handle's own seat.
    fn set_own_error(&mut self, alloc: Global, error: ErrorOrigin) -> Result<ErrorOrigin, Memory>
        requires { (seat self.old).state ≡ Self.state self.old }
        ensures answer { result ≡ error_answer (seat self.new).error }
        ensures offered { OffersError error (seat self.old) (seat self.new) }
        ensures state { Self.state self.new ≡ Self.state self.old }
        ensures same { is_same self.old self.new };

    /// `is_closing` with the handle's own seat.
    fn sees_closing(&mut self) -> bool
        requires { (seat self.old).state ≡ Self.state self.old }
        ensures answer { result ≡ (seat self.new).is_closing }
        ensures found { FindsClosing (seat self.old) (seat self.new) }
        ensures state { Self.state self.new ≡ Self.state self.old }
        ensures same { is_same self.old self.new };

    /// Ends the connection for an error that was found on the stream. The answer is the first error that was set.
    fn handle_connection_error_on_stream(
        &mut self,
        alloc: Global,
        error: InternalConnectionError,
    ) -> StreamError
        requires { (seat self.old).state ≡ Self.state self.old }
        ensures answer { result ≡ stream_answer (seat self.new).error }
        ensures offered { OffersError (OwnError error) (seat self.old) (seat self.new) }
        ensures state { Self.state self.new ≡ Self.state self.old }
        ensures same { is_same self.old self.new }
    {
        answer_of(self.set_own_error(alloc, ErrorOrigin::Internal(error)))
    }

    /// The answer to an error of the QUIC implementation. If the connection is lost, that ends it, and the answer is the first error that was set. Want of
    /// memory ends nothing.
    fn handle_quic_stream_error(&mut self, alloc: Global, error: StreamErrorIncoming) -> StreamError
        requires { (seat self.old).state ≡ Self.state self.old }
        ensures answer { MatchOption (origin_of error) (result ≡ plain_answer error) (λ e. result ≡ stream_answer (seat self.new).error) }
        ensures offered { MatchOption (origin_of error) (self.new ≡ self.old) (λ e. OffersError e (seat self.old) (seat self.new) × is_same self.old self.new) }
        ensures state { Self.state self.new ≡ Self.state self.old }
    {
        match error {
            StreamErrorIncoming::ConnectionErrorIncoming {
                connection_error: ConnectionErrorIncoming::Memory,
            } => StreamError::Memory,
            StreamErrorIncoming::ConnectionErrorIncoming { connection_error } => answer_of(
                self.set_own_error(alloc, ErrorOrigin::Quic(connection_error)),
            ),
            StreamErrorIncoming::StreamTerminated { error_code } => StreamError::RemoteTerminate {
                code: Code(error_code),
            },
            StreamErrorIncoming::Unknown(fault) => StreamError::Undefined(fault),
            StreamErrorIncoming::Memory => StreamError::Memory,
        }
    }

    /// `RemoteClosing` if the connection closes: no more requests are taken then.
    fn check_peer_connection_closing(&mut self) -> Option<StreamError>
        requires { (seat self.old).state ≡ Self.state self.old }
        ensures answer { result ≡ closing_answer (seat self.new).is_closing }
        ensures found { FindsClosing (seat self.old) (seat self.new) }
        ensures state { Self.state self.new ≡ Self.state self.old }
        ensures same { is_same self.old self.new }
    {
        if self.sees_closing() {
            Some(StreamError::RemoteClosing)
        } else {
            None
        }
    }
}

// The answer with the error that counts.
fn answer_of(counts: Result<ErrorOrigin, Memory>) -> StreamError
    ensures { MatchResult counts (λ e. result ≡ stream_answer (Some e)) (λ _. result ≡ stream_answer None) }
{
    match counts {
        Ok(error) => StreamError::ConnectionError(ConnectionError::of_origin(error)),
        Err(Memory) => StreamError::Memory,
    }
}
