//! What HTTP/3 asks of a QUIC implementation (h3, `quic.rs`).
//!
//! Calls are made at a place of the type `At`, which handles of one connection may share. So a contract speaks of what one call did: between two calls on
//! a stream others may be made at the same place. Bytes and closes are told if the implementation knows them; faults, Pendings and pieces are always
//! counted.
ghost use Rattle.std.specs.Prelude.{◌≡◌, ◌<◌, ◌^◌, ℕ, List, Option, None, Some, IsOk, IfOk, drop, length};
ghost use Rattle.futures.specs.Poll.{OnPending};
ghost use Rattle.futures.specs.Task.{IsArmed, Keeps};
ghost use Rattle.qh_base.specs.declared.stream_id.StreamId.{StreamId as AnId};
ghost use Rattle.qh_h3.specs.Connections.{Closing, IfStream, closing};
ghost use Rattle.qh_h3.specs.Counts.{Counts, counted, counted_accept, counted_poll, counted_read};
ghost use Rattle.qh_h3.specs.Polled.{IfPiece};
ghost use Rattle.qh_h3.specs.Streams.{IsReady, IsTold, IsWritten, Received, Sent, WaitsForNothing, finished_by, given_by, if_done, reading, resetting, stopping, taken_by, told, unread, unsent};

use bytes::Bytes;
use futures::task::{Context, Poll};
use qh_base::{Code, Memory, StreamId};
use qh_h3wire::WriteBuf;
use std::alloc::Global;

mod error;

pub use error::{ConnectionErrorIncoming, OuterFault, StreamErrorIncoming};

/// A stream, or a half of one.
pub trait Stream {
    /// Where its calls are made.
    type At;

    /// Its id.
    ghost id: { Self → AnId };

    /// What was done with its receiving half, if the implementation tells it.
    ghost received: { Self → Self.At → Option Received };

    /// What was done with its sending half, if the implementation tells it.
    ghost sent: { Self → Self.At → Option Sent };

    /// What its calls answered.
    ghost counts: { Self → Self.At → Counts };

    /// It was ended between the first place and the second.
    ghost ends: { Self → Self.At → Self.At → Type 0 };

    /// Ends it: what isn't read yet is stopped, and what isn't finished is finished, as the implementation does with a handle that nobody holds.
    fn end(self, at: &mut Self::At)
        ensures { ends self at.old at.new };
}

/// The sending half of a stream.
pub trait SendStream: Stream {
    /// Writes on what waits. Ready once all of it is written.
    fn poll_ready(
        &mut self,
        at: &mut Self::At,
        alloc: Global,
        cx: &mut Context<'_>,
    ) -> Poll<Result<(), StreamErrorIncoming>>
        ensures sent { IsReady result (Self.sent self.old at.old) (Self.sent self.new at.new) }
        ensures received { Self.received self.new at.new ≡ Self.received self.old at.old }
        ensures counts { Self.counts self.new at.new ≡ counted_poll result (Self.counts self.old at.old) }
        ensures id { Self.id self.new ≡ Self.id self.old }
        ensures armed { OnPending result (IsArmed cx.new) }
        ensures kept { Keeps cx.old cx.new };

    /// Gives it bytes, which wait in it until `poll_ready` has written them. It takes them only if nothing waits.
    fn send_data(
        &mut self,
        at: &mut Self::At,
        alloc: Global,
        payload: WriteBuf,
    ) -> Result<(), StreamErrorIncoming>
        requires { length payload < 2 ^ 62 }
        ensures sent { Self.sent self.new at.new ≡ given_by payload result (Self.sent self.old at.old) }
        ensures one { IsOk result → WaitsForNothing (Self.sent self.old at.old) }
        ensures received { Self.received self.new at.new ≡ Self.received self.old at.old }
        ensures counts { Self.counts self.new at.new ≡ counted result (Self.counts self.old at.old) }
        ensures id { Self.id self.new ≡ Self.id self.old };

    /// Says that no more is sent.
    fn poll_finish(
        &mut self,
        at: &mut Self::At,
        alloc: Global,
        cx: &mut Context<'_>,
    ) -> Poll<Result<(), StreamErrorIncoming>>
        ensures sent { Self.sent self.new at.new ≡ finished_by result (Self.sent self.old at.old) }
        ensures received { Self.received self.new at.new ≡ Self.received self.old at.old }
        ensures counts { Self.counts self.new at.new ≡ counted_poll result (Self.counts self.old at.old) }
        ensures id { Self.id self.new ≡ Self.id self.old }
        ensures armed { OnPending result (IsArmed cx.new) }
        ensures kept { Keeps cx.old cx.new };

    /// Abandons what it sends, with this code (RFC 9000, section 3.3).
    fn reset(&mut self, at: &mut Self::At, alloc: Global, reset_code: u64) -> Result<(), Memory>
        requires { reset_code < 2 ^ 62 }
        ensures sent { Self.sent self.new at.new ≡ if_done (resetting reset_code) result (Self.sent self.old at.old) }
        ensures received { Self.received self.new at.new ≡ Self.received self.old at.old }
        ensures counts { Self.counts self.new at.new ≡ Self.counts self.old at.old }
        ensures id { Self.id self.new ≡ Self.id self.old };

    /// The id of the stream.
    fn send_id(&self) -> StreamId
        ensures { result ≡ Self.id self.now };
}

/// A sending half that also takes bytes which are no frames.
pub trait SendStreamUnframed: SendStream {
    /// Writes the front of the buffer, which then begins behind it, and says how many bytes that were.
    fn poll_send(
        &mut self,
        at: &mut Self::At,
        alloc: Global,
        buf: &mut Bytes,
        cx: &mut Context<'_>,
    ) -> Poll<Result<usize, StreamErrorIncoming>>
        ensures sent { IsWritten result buf.old buf.new (Self.sent self.old at.old) (Self.sent self.new at.new) }
        ensures received { Self.received self.new at.new ≡ Self.received self.old at.old }
        ensures counts { Self.counts self.new at.new ≡ counted_poll result (Self.counts self.old at.old) }
        ensures id { Self.id self.new ≡ Self.id self.old }
        ensures armed { OnPending result (IsArmed cx.new) }
        ensures kept { Keeps cx.old cx.new };
}

/// The receiving half of a stream.
pub trait RecvStream: Stream {
    /// The next piece, of at least one byte, or None at the end.
    fn poll_data(
        &mut self,
        at: &mut Self::At,
        alloc: Global,
        cx: &mut Context<'_>,
    ) -> Poll<Result<Option<Bytes>, StreamErrorIncoming>>
        ensures piece { IfPiece result (λ piece. 0 < length piece) }
        ensures received { Self.received self.new at.new ≡ told (reading (taken_by result)) (Self.received self.old at.old) }
        ensures sent { Self.sent self.new at.new ≡ Self.sent self.old at.old }
        ensures counts { Self.counts self.new at.new ≡ counted_read result (Self.counts self.old at.old) }
        ensures id { Self.id self.new ≡ Self.id self.old }
        ensures armed { OnPending result (IsArmed cx.new) }
        ensures kept { Keeps cx.old cx.new };

    /// Asks the peer to send no more, with this code (RFC 9000, section 3.5).
    fn stop_sending(
        &mut self,
        at: &mut Self::At,
        alloc: Global,
        error_code: u64,
    ) -> Result<(), Memory>
        requires { error_code < 2 ^ 62 }
        ensures received { Self.received self.new at.new ≡ if_done (stopping error_code) result (Self.received self.old at.old) }
        ensures sent { Self.sent self.new at.new ≡ Self.sent self.old at.old }
        ensures counts { Self.counts self.new at.new ≡ Self.counts self.old at.old }
        ensures id { Self.id self.new ≡ Self.id self.old };

    /// The id of the stream.
    fn recv_id(&self) -> StreamId
        ensures { result ≡ Self.id self.now };
}

/// A stream with both halves.
pub trait BidiStream: SendStream + RecvStream {
    /// The sending half.
    type SendStream: SendStream + Stream<At = Self::At>;

    /// The receiving half.
    type RecvStream: RecvStream + Stream<At = Self::At>;

    /// The halves, each where the whole was.
    fn split(self) -> (Self::SendStream, Self::RecvStream)
        ensures sent { (at : Self.At) → ⟦<Self::SendStream as Stream>⟧.sent result.0 at ≡ Self.sent self at }
        ensures received { (at : Self.At) → ⟦<Self::RecvStream as Stream>⟧.received result.1 at ≡ Self.received self at }
        ensures send_id { ⟦<Self::SendStream as Stream>⟧.id result.0 ≡ Self.id self }
        ensures recv_id { ⟦<Self::RecvStream as Stream>⟧.id result.1 ≡ Self.id self };
}

/// What opens streams of a connection, and closes it.
pub trait OpenStreams {
    /// Where its calls are made.
    type At;

    /// A stream with both halves.
    type BidiStream: BidiStream + Stream<At = Self::At>;

    /// A stream on which only this end sends.
    type SendStream: SendStream + Stream<At = Self::At>;

    /// The closes that were asked for, if the implementation tells them.
    ghost closes: { Self → Self.At → Option (List Closing) };

    /// What its calls answered.
    ghost counts: { Self → Self.At → Counts };

    /// It was ended between the first place and the second.
    ghost ends: { Self → Self.At → Self.At → Type 0 };

    /// Opens a stream with both halves, once the peer permits one more.
    fn poll_open_bidi(
        &mut self,
        at: &mut Self::At,
        alloc: Global,
        cx: &mut Context<'_>,
    ) -> Poll<Result<Self::BidiStream, StreamErrorIncoming>>
        ensures sent { IfStream result (λ s. IsTold (Self.BidiStream.sent s at.new) unsent) }
        ensures received { IfStream result (λ s. IsTold (Self.BidiStream.received s at.new) unread) }
        ensures closes { closes self.new at.new ≡ closes self.old at.old }
        ensures counts { counts self.new at.new ≡ counted_poll result (counts self.old at.old) }
        ensures armed { OnPending result (IsArmed cx.new) }
        ensures kept { Keeps cx.old cx.new };

    /// Opens a stream on which only this end sends, once the peer permits one more.
    fn poll_open_send(
        &mut self,
        at: &mut Self::At,
        alloc: Global,
        cx: &mut Context<'_>,
    ) -> Poll<Result<Self::SendStream, StreamErrorIncoming>>
        ensures sent { IfStream result (λ s. IsTold (Self.SendStream.sent s at.new) unsent) }
        ensures closes { closes self.new at.new ≡ closes self.old at.old }
        ensures counts { counts self.new at.new ≡ counted_poll result (counts self.old at.old) }
        ensures armed { OnPending result (IsArmed cx.new) }
        ensures kept { Keeps cx.old cx.new };

    /// Closes the connection (RFC 9000, section 10.2).
    fn close(
        &mut self,
        at: &mut Self::At,
        alloc: Global,
        code: Code,
        reason: &[u8],
    ) -> Result<(), Memory>
        requires { code.0 < 2 ^ 62 }
        ensures closes { closes self.new at.new ≡ if_done (closing code.0 reason.now) result (closes self.old at.old) }
        ensures counts { counts self.new at.new ≡ counts self.old at.old };

    /// Ends it. The connection goes on.
    fn end(self, at: &mut Self::At)
        ensures { ends self at.old at.new };
}

/// A connection.
pub trait Connection: OpenStreams {
    /// A stream on which only the peer sends.
    type RecvStream: RecvStream + Stream<At = Self::At>;

    /// What opens streams beside the connection.
    type OpenStreams: OpenStreams<At = Self::At>;

    /// The next stream that the peer opened to send on.
    fn poll_accept_recv(
        &mut self,
        at: &mut Self::At,
        alloc: Global,
        cx: &mut Context<'_>,
    ) -> Poll<Result<Self::RecvStream, ConnectionErrorIncoming>>
        ensures received { IfStream result (λ s. IsTold (Self.RecvStream.received s at.new) unread) }
        ensures closes { Self.closes self.new at.new ≡ Self.closes self.old at.old }
        ensures counts { Self.counts self.new at.new ≡ counted_accept result (Self.counts self.old at.old) }
        ensures armed { OnPending result (IsArmed cx.new) }
        ensures kept { Keeps cx.old cx.new };

    /// The next stream with both halves that the peer opened.
    fn poll_accept_bidi(
        &mut self,
        at: &mut Self::At,
        alloc: Global,
        cx: &mut Context<'_>,
    ) -> Poll<Result<Self::BidiStream, ConnectionErrorIncoming>>
        ensures sent { IfStream result (λ s. IsTold (Self.BidiStream.sent s at.new) unsent) }
        ensures received { IfStream result (λ s. IsTold (Self.BidiStream.received s at.new) unread) }
        ensures closes { Self.closes self.new at.new ≡ Self.closes self.old at.old }
        ensures counts { Self.counts self.new at.new ≡ counted_accept result (Self.counts self.old at.old) }
        ensures armed { OnPending result (IsArmed cx.new) }
        ensures kept { Keeps cx.old cx.new };

    /// Another handle that opens streams.
    fn opener(&self, at: &mut Self::At, alloc: Global) -> Result<Self::OpenStreams, Memory>
        ensures closes { Self.closes self.now at.new ≡ Self.closes self.now at.old }
        ensures counts { Self.counts self.now at.new ≡ Self.counts self.now at.old }
        ensures told { IfOk result (λ o. ⟦<Self::OpenStreams as OpenStreams>⟧.closes o at.new ≡ Self.closes self.now at.new) };
}
