ghost use Rattle.std.specs.Prelude.{◌≡◌, ◌<◌, ◌^◌, ◌↔◌, ℕ, [], IsOk, IsTrue, false, true, length};
ghost use Rattle.futures.specs.Poll.{OnPending};
ghost use Rattle.futures.specs.Task.{IsArmed, Keeps};
ghost use Rattle.qh_h3.specs.Counts.{counted, counted_poll};
ghost use Rattle.qh_h3.specs.Frames.{IsData, IsNext};
ghost use Rattle.qh_h3.specs.Typed.{IsTyped};
ghost use Rattle.qh_h3.specs.Drained.{IsDrained};
ghost use Rattle.qh_h3.specs.Streams.{IsReady, WaitsForNothing, finished_by, given_by, if_done, resetting, stopping};

use crate::frame::buffer::Buffer;
use crate::frame::poll::{poll_drained, poll_frame, poll_number, poll_payload};
use crate::quic::{BidiStream, RecvStream, SendStream, Stream, StreamErrorIncoming};
use bytes::Bytes;
use futures::task::{Context, Poll};
use qh_base::{Memory, StreamId, VarInt};
use qh_h3wire::{Frame, WriteBuf};
use std::alloc::Global;
use std::marker::Model;

mod buffer;
mod error;
mod find;
mod front;
mod poll;

pub use error::FrameStreamError;

/// At most so many pieces of a stream are taken in one call.
const PIECES: u32 = 65_536;

/// The frames of a stream (h3, `FrameStream`), in whatever pieces its bytes come. A contract sees the stream, the bytes that were taken of it and not handed
/// out, and how much of these and of what follows is payload of the DATA frame at hand.
pub struct FrameStream<R> {
    stream: R,
    buffer: Buffer,
}

impl<R> Model for FrameStream<R> {
    ghost use Rattle.qh_h3.specs.Buffers.{held_of};
    ghost use Rattle.qh_h3.specs.Framed.{Framed};

    ghost Value = { Framed R };

    ghost view = { λ s. record { stream = s.stream; held = held_of s.buffer } };
}

impl<R> FrameStream<R> {
    /// The frames of a stream of which nothing was taken.
    pub fn new(stream: R) -> FrameStream<R>
        ensures { result ≡ record { stream = stream; held = record { bytes = []; left = 0; is_ended = false } } }
    {
        FrameStream {
            stream,
            buffer: Buffer::new(),
        }
    }

    /// Whether payload of the DATA frame at hand is to come.
    pub fn has_data(&self) -> bool
        ensures { IsTrue result ↔ 0 < self.now.held.left }
    {
        self.buffer.left > 0
    }

    /// Whether the end of the stream was taken, and nothing before it is left.
    pub fn is_eos(&self) -> bool
        ensures yes { result ≡ true → (self.now.held.is_ended ≡ true) × (self.now.held.bytes ≡ []) }
        ensures no { self.now.held.is_ended ≡ true → self.now.held.bytes ≡ [] → result ≡ true }
    {
        self.buffer.is_over()
    }
}

impl<R: Stream> FrameStream<R> {
    /// Ends the stream. What was taken and not handed out is dropped.
    pub fn end(self, at: &mut R::At)
        ensures { R.ends self.stream at.old at.new }
    {
        let FrameStream { stream, buffer: _ } = self;
        stream.end(at);
    }
}

impl<R: RecvStream> FrameStream<R> {
    /// The next frame, or None at the end of the stream. Frames of unknown types are skipped (RFC 9114, section 9). Of a DATA frame it gives the length, also
    /// 0; the payload is then to be taken by `poll_data`. After an error the frame at fault stands in front still, and what was taken is held.
    pub fn poll_next(
        &mut self,
        at: &mut R::At,
        alloc: Global,
        cx: &mut Context<'_>,
    ) -> Poll<Result<Option<Frame>, FrameStreamError>>
        requires { self.old.held.left ≡ 0 }
        ensures next { (spared : ℕ) × IsNext false result 65536 spared (R.received self.old.stream at.old) (R.received self.new.stream at.new) (R.counts self.old.stream at.old) (R.counts self.new.stream at.new) self.old.held self.new.held }
        ensures sent { R.sent self.new.stream at.new ≡ R.sent self.old.stream at.old }
        ensures id { R.id self.new.stream ≡ R.id self.old.stream }
        ensures armed { OnPending result (IsArmed cx.new) }
        ensures kept { Keeps cx.old cx.new }
    {
        let mut budget = PIECES;
        poll_frame(
            &mut self.stream,
            &mut self.buffer,
            at,
            alloc,
            false,
            &mut budget,
            cx,
        )
    }

    /// The next frame, as `poll_next` gives it, for the reader of a body, which passes over DATA frames without a byte. So a DATA frame that it gives has a
    /// byte, and the end of the body is none of them (RFC 9114, section 4.1).
    pub fn poll_body(
        &mut self,
        at: &mut R::At,
        alloc: Global,
        cx: &mut Context<'_>,
    ) -> Poll<Result<Option<Frame>, FrameStreamError>>
        requires { self.old.held.left ≡ 0 }
        ensures next { (spared : ℕ) × IsNext true result 65536 spared (R.received self.old.stream at.old) (R.received self.new.stream at.new) (R.counts self.old.stream at.old) (R.counts self.new.stream at.new) self.old.held self.new.held }
        ensures sent { R.sent self.new.stream at.new ≡ R.sent self.old.stream at.old }
        ensures id { R.id self.new.stream ≡ R.id self.old.stream }
        ensures armed { OnPending result (IsArmed cx.new) }
        ensures kept { Keeps cx.old cx.new }
    {
        let mut budget = PIECES;
        poll_frame(
            &mut self.stream,
            &mut self.buffer,
            at,
            alloc,
            true,
            &mut budget,
            cx,
        )
    }

    // The type with which a one-way stream begins, or None if it ends inside of it (RFC 9114, section 6.2). The budget is lowered by each piece that is taken.
    pub(crate) fn poll_type(
        &mut self,
        at: &mut R::At,
        alloc: Global,
        budget: &mut u32,
        cx: &mut Context<'_>,
    ) -> Poll<Result<Option<VarInt>, FrameStreamError>>
        ensures typed { IsTyped result budget.old budget.new (R.received self.old.stream at.old) (R.received self.new.stream at.new) (R.counts self.old.stream at.old) (R.counts self.new.stream at.new) self.old.held self.new.held }
        ensures sent { R.sent self.new.stream at.new ≡ R.sent self.old.stream at.old }
        ensures id { R.id self.new.stream ≡ R.id self.old.stream }
        ensures armed { OnPending result (IsArmed cx.new) }
        ensures kept { Keeps cx.old cx.new }
    {
        poll_number(&mut self.stream, &mut self.buffer, at, alloc, budget, cx)
    }

    // Drops what comes, up to the end of the stream. The budget is lowered by each piece that is taken.
    pub(crate) fn poll_end(
        &mut self,
        at: &mut R::At,
        alloc: Global,
        budget: &mut u32,
        cx: &mut Context<'_>,
    ) -> Poll<Result<(), FrameStreamError>>
        ensures drained { IsDrained result budget.old budget.new (R.received self.old.stream at.old) (R.received self.new.stream at.new) (R.counts self.old.stream at.old) (R.counts self.new.stream at.new) self.old.held self.new.held }
        ensures sent { R.sent self.new.stream at.new ≡ R.sent self.old.stream at.old }
        ensures id { R.id self.new.stream ≡ R.id self.old.stream }
        ensures armed { OnPending result (IsArmed cx.new) }
        ensures kept { Keeps cx.old cx.new }
    {
        poll_drained(&mut self.stream, &mut self.buffer, at, alloc, budget, cx)
    }

    /// The next piece of the payload of the DATA frame at hand, of at least one byte, or None if none of it is left.
    pub fn poll_data(
        &mut self,
        at: &mut R::At,
        alloc: Global,
        cx: &mut Context<'_>,
    ) -> Poll<Result<Option<Bytes>, FrameStreamError>>
        ensures payload { IsData result (R.received self.old.stream at.old) (R.received self.new.stream at.new) (R.counts self.old.stream at.old) (R.counts self.new.stream at.new) self.old.held self.new.held }
        ensures sent { R.sent self.new.stream at.new ≡ R.sent self.old.stream at.old }
        ensures id { R.id self.new.stream ≡ R.id self.old.stream }
        ensures armed { OnPending result (IsArmed cx.new) }
        ensures kept { Keeps cx.old cx.new }
    {
        poll_payload(&mut self.stream, &mut self.buffer, at, alloc, cx)
    }

    /// The id of the stream.
    pub fn id(&self) -> StreamId
        ensures { result ≡ R.id self.now.stream }
    {
        self.stream.recv_id()
    }

    /// Asks the peer to send no more, with this code (RFC 9000, section 3.5).
    pub fn stop_sending(
        &mut self,
        at: &mut R::At,
        alloc: Global,
        error_code: u64,
    ) -> Result<(), Memory>
        requires { error_code < 2 ^ 62 }
        ensures received { R.received self.new.stream at.new ≡ if_done (stopping error_code) result (R.received self.old.stream at.old) }
        ensures sent { R.sent self.new.stream at.new ≡ R.sent self.old.stream at.old }
        ensures counts { R.counts self.new.stream at.new ≡ R.counts self.old.stream at.old }
        ensures id { R.id self.new.stream ≡ R.id self.old.stream }
        ensures held { self.new.held ≡ self.old.held }
    {
        self.stream.stop_sending(at, alloc, error_code)
    }
}

impl<R: SendStream> FrameStream<R> {
    /// Writes on what waits. Ready once all of it is written.
    pub fn poll_ready(
        &mut self,
        at: &mut R::At,
        alloc: Global,
        cx: &mut Context<'_>,
    ) -> Poll<Result<(), StreamErrorIncoming>>
        ensures sent { IsReady result (R.sent self.old.stream at.old) (R.sent self.new.stream at.new) }
        ensures received { R.received self.new.stream at.new ≡ R.received self.old.stream at.old }
        ensures counts { R.counts self.new.stream at.new ≡ counted_poll result (R.counts self.old.stream at.old) }
        ensures id { R.id self.new.stream ≡ R.id self.old.stream }
        ensures held { self.new.held ≡ self.old.held }
        ensures armed { OnPending result (IsArmed cx.new) }
        ensures kept { Keeps cx.old cx.new }
    {
        self.stream.poll_ready(at, alloc, cx)
    }

    /// Gives the stream bytes, which wait in it until `poll_ready` has written them. It takes them only if nothing waits.
    pub fn send_data(
        &mut self,
        at: &mut R::At,
        alloc: Global,
        payload: WriteBuf,
    ) -> Result<(), StreamErrorIncoming>
        requires { length payload < 2 ^ 62 }
        ensures sent { R.sent self.new.stream at.new ≡ given_by payload result (R.sent self.old.stream at.old) }
        ensures one { IsOk result → WaitsForNothing (R.sent self.old.stream at.old) }
        ensures received { R.received self.new.stream at.new ≡ R.received self.old.stream at.old }
        ensures counts { R.counts self.new.stream at.new ≡ counted result (R.counts self.old.stream at.old) }
        ensures id { R.id self.new.stream ≡ R.id self.old.stream }
        ensures held { self.new.held ≡ self.old.held }
    {
        self.stream.send_data(at, alloc, payload)
    }

    /// Says that no more is sent.
    pub fn poll_finish(
        &mut self,
        at: &mut R::At,
        alloc: Global,
        cx: &mut Context<'_>,
    ) -> Poll<Result<(), StreamErrorIncoming>>
        ensures sent { R.sent self.new.stream at.new ≡ finished_by result (R.sent self.old.stream at.old) }
        ensures received { R.received self.new.stream at.new ≡ R.received self.old.stream at.old }
        ensures counts { R.counts self.new.stream at.new ≡ counted_poll result (R.counts self.old.stream at.old) }
        ensures id { R.id self.new.stream ≡ R.id self.old.stream }
        ensures held { self.new.held ≡ self.old.held }
        ensures armed { OnPending result (IsArmed cx.new) }
        ensures kept { Keeps cx.old cx.new }
    {
        self.stream.poll_finish(at, alloc, cx)
    }

    /// Abandons what the stream sends, with this code (RFC 9000, section 3.3).
    pub fn reset(&mut self, at: &mut R::At, alloc: Global, reset_code: u64) -> Result<(), Memory>
        requires { reset_code < 2 ^ 62 }
        ensures sent { R.sent self.new.stream at.new ≡ if_done (resetting reset_code) result (R.sent self.old.stream at.old) }
        ensures received { R.received self.new.stream at.new ≡ R.received self.old.stream at.old }
        ensures counts { R.counts self.new.stream at.new ≡ R.counts self.old.stream at.old }
        ensures id { R.id self.new.stream ≡ R.id self.old.stream }
        ensures held { self.new.held ≡ self.old.held }
    {
        self.stream.reset(at, alloc, reset_code)
    }

    /// The id of the stream.
    pub fn send_id(&self) -> StreamId
        ensures { result ≡ R.id self.now.stream }
    {
        self.stream.send_id()
    }
}

impl<R: BidiStream> FrameStream<R> {
    /// The halves. What was taken and not handed out is the receiving one's.
    pub fn split(self) -> (FrameStream<R::SendStream>, FrameStream<R::RecvStream>)
        ensures sent { (at : R.At) → ⟦<R::SendStream as Stream>⟧.sent result.0.stream at ≡ R.sent self.stream at }
        ensures received { (at : R.At) → ⟦<R::RecvStream as Stream>⟧.received result.1.stream at ≡ R.received self.stream at }
        ensures send_id { ⟦<R::SendStream as Stream>⟧.id result.0.stream ≡ R.id self.stream }
        ensures recv_id { ⟦<R::RecvStream as Stream>⟧.id result.1.stream ≡ R.id self.stream }
        ensures none { result.0.held ≡ record { bytes = []; left = 0; is_ended = false } }
        ensures held { result.1.held ≡ self.held }
    {
        let FrameStream { stream, buffer } = self;
        let (sender, receiver) = stream.split();
        (
            FrameStream::new(sender),
            FrameStream {
                stream: receiver,
                buffer,
            },
        )
    }
}
