ghost use Rattle.std.specs.Prelude.{◌≡◌, ◌≤◌, [], length};
ghost use Rattle.futures.specs.Poll.{OnPending};
ghost use Rattle.futures.specs.Task.{IsArmed, Keeps};
ghost use Rattle.qh_h3.specs.Buffers.{IsAtEnd, IsFilled, held_of};
ghost use Rattle.qh_h3.specs.Drained.{IsDrained};
ghost use Rattle.qh_h3.specs.Frames.{IsData, IsNext, IsPiece};
ghost use Rattle.qh_h3.specs.Typed.{IsTyped};

use crate::FrameStreamError;
use crate::frame::buffer::Buffer;
use crate::quic::RecvStream;
use bytes::Bytes;
use futures::task::{Context, Poll};
use qh_base::VarInt;
use qh_h3wire::Frame;
use std::alloc::Global;

// Looks for the next frame, and takes at most as many pieces as the budget has, which it lowers by each.
pub(crate) fn poll_frame<R: RecvStream>(
    stream: &mut R,
    buffer: &mut Buffer,
    at: &mut R::At,
    alloc: Global,
    of_body: bool,
    budget: &mut u32,
    cx: &mut Context<'_>,
) -> Poll<Result<Option<Frame>, FrameStreamError>>
    requires { buffer.old.left ≡ 0 }
    ensures next { IsNext of_body result budget.old budget.new (R.received stream.old at.old) (R.received stream.new at.new) (R.counts stream.old at.old) (R.counts stream.new at.new) (held_of buffer.old) (held_of buffer.new) }
    ensures sent { R.sent stream.new at.new ≡ R.sent stream.old at.old }
    ensures id { R.id stream.new ≡ R.id stream.old }
    ensures armed { OnPending result (IsArmed cx.new) }
    ensures kept { Keeps cx.old cx.new }
{
    loop {
        match buffer.find(alloc, of_body) {
            Err(e) => return Poll::Ready(Err(e)),
            Ok(Some(frame)) => return Poll::Ready(Ok(Some(frame))),
            Ok(None) => {}
        }
        if *budget == 0 {
            return cx.yield_now();
        }
        match take_piece(stream, buffer, at, alloc, cx) {
            Poll::Pending => return Poll::Pending,
            Poll::Ready(Err(e)) => return Poll::Ready(Err(e)),
            Poll::Ready(Ok(false)) => return Poll::Ready(at_end(buffer)),
            Poll::Ready(Ok(true)) => *budget -= 1,
        }
    }
}

// What no frame in front means at the end of the stream: none is to come, or it ended inside of one.
fn at_end(buffer: &Buffer) -> Result<Option<Frame>, FrameStreamError>
    ensures { IsAtEnd result (held_of buffer.now) }
{
    if buffer.is_empty() {
        Ok(None)
    } else {
        Err(FrameStreamError::UnexpectedEnd)
    }
}

// Looks for the number with which a stream begins, and takes at most as many pieces as the budget has, which it lowers by each. None if the stream ends
// inside of it.
pub(crate) fn poll_number<R: RecvStream>(
    stream: &mut R,
    buffer: &mut Buffer,
    at: &mut R::At,
    alloc: Global,
    budget: &mut u32,
    cx: &mut Context<'_>,
) -> Poll<Result<Option<VarInt>, FrameStreamError>>
    ensures typed { IsTyped result budget.old budget.new (R.received stream.old at.old) (R.received stream.new at.new) (R.counts stream.old at.old) (R.counts stream.new at.new) (held_of buffer.old) (held_of buffer.new) }
    ensures sent { R.sent stream.new at.new ≡ R.sent stream.old at.old }
    ensures id { R.id stream.new ≡ R.id stream.old }
    ensures armed { OnPending result (IsArmed cx.new) }
    ensures kept { Keeps cx.old cx.new }
{
    loop {
        match buffer.number(alloc) {
            Err(e) => return Poll::Ready(Err(e)),
            Ok(Some(number)) => return Poll::Ready(Ok(Some(number))),
            Ok(None) => {}
        }
        if *budget == 0 {
            return cx.yield_now();
        }
        match take_piece(stream, buffer, at, alloc, cx) {
            Poll::Pending => return Poll::Pending,
            Poll::Ready(Err(e)) => return Poll::Ready(Err(e)),
            Poll::Ready(Ok(false)) => return Poll::Ready(Ok(None)),
            Poll::Ready(Ok(true)) => *budget -= 1,
        }
    }
}

// Drops what is held and what comes, up to the end of the stream, and takes at most as many pieces as the budget has, which it lowers by each.
pub(crate) fn poll_drained<R: RecvStream>(
    stream: &mut R,
    buffer: &mut Buffer,
    at: &mut R::At,
    alloc: Global,
    budget: &mut u32,
    cx: &mut Context<'_>,
) -> Poll<Result<(), FrameStreamError>>
    ensures drained { IsDrained result budget.old budget.new (R.received stream.old at.old) (R.received stream.new at.new) (R.counts stream.old at.old) (R.counts stream.new at.new) (held_of buffer.old) (held_of buffer.new) }
    ensures sent { R.sent stream.new at.new ≡ R.sent stream.old at.old }
    ensures id { R.id stream.new ≡ R.id stream.old }
    ensures armed { OnPending result (IsArmed cx.new) }
    ensures kept { Keeps cx.old cx.new }
{
    buffer.clear();
    loop {
        if *budget == 0 {
            return cx.yield_now();
        }
        match take_piece(stream, buffer, at, alloc, cx) {
            Poll::Pending => return Poll::Pending,
            Poll::Ready(Err(e)) => return Poll::Ready(Err(e)),
            Poll::Ready(Ok(false)) => return Poll::Ready(Ok(())),
            Poll::Ready(Ok(true)) => {
                buffer.clear();
                *budget -= 1;
            }
        }
    }
}

// Takes a piece of the stream, and says whether there was one. At the end there is none.
fn take_piece<R: RecvStream>(
    stream: &mut R,
    buffer: &mut Buffer,
    at: &mut R::At,
    alloc: Global,
    cx: &mut Context<'_>,
) -> Poll<Result<bool, FrameStreamError>>
    requires { buffer.old.more ≡ [] }
    ensures piece { IsPiece result (R.received stream.old at.old) (R.received stream.new at.new) (R.counts stream.old at.old) (R.counts stream.new at.new) (held_of buffer.old) (held_of buffer.new) }
    ensures front { buffer.new.front ≡ buffer.old.front }
    ensures sent { R.sent stream.new at.new ≡ R.sent stream.old at.old }
    ensures id { R.id stream.new ≡ R.id stream.old }
    ensures armed { OnPending result (IsArmed cx.new) }
    ensures kept { Keeps cx.old cx.new }
{
    if buffer.is_ended {
        return Poll::Ready(Ok(false));
    }
    match stream.poll_data(at, alloc, cx) {
        Poll::Pending => Poll::Pending,
        Poll::Ready(Err(fault)) => Poll::Ready(Err(FrameStreamError::of_stream(fault))),
        Poll::Ready(Ok(None)) => {
            buffer.is_ended = true;
            Poll::Ready(Ok(false))
        }
        Poll::Ready(Ok(Some(piece))) => {
            buffer.more = piece;
            Poll::Ready(Ok(true))
        }
    }
}

// The next piece of the payload, or None if none of it is left.
pub(crate) fn poll_payload<R: RecvStream>(
    stream: &mut R,
    buffer: &mut Buffer,
    at: &mut R::At,
    alloc: Global,
    cx: &mut Context<'_>,
) -> Poll<Result<Option<Bytes>, FrameStreamError>>
    ensures payload { IsData result (R.received stream.old at.old) (R.received stream.new at.new) (R.counts stream.old at.old) (R.counts stream.new at.new) (held_of buffer.old) (held_of buffer.new) }
    ensures sent { R.sent stream.new at.new ≡ R.sent stream.old at.old }
    ensures id { R.id stream.new ≡ R.id stream.old }
    ensures armed { OnPending result (IsArmed cx.new) }
    ensures kept { Keeps cx.old cx.new }
{
    if buffer.left == 0 {
        return Poll::Ready(Ok(None));
    }
    match fill(stream, buffer, at, alloc, cx) {
        Poll::Pending => Poll::Pending,
        Poll::Ready(Err(e)) => Poll::Ready(Err(e)),
        Poll::Ready(Ok(false)) => Poll::Ready(Err(FrameStreamError::UnexpectedEnd)),
        Poll::Ready(Ok(true)) => match buffer.cut() {
            Ok(piece) => Poll::Ready(Ok(Some(piece))),
            Err(e) => Poll::Ready(Err(e)),
        },
    }
}

// Brings a byte to the front, and says whether there is one. At the end there is none.
fn fill<R: RecvStream>(
    stream: &mut R,
    buffer: &mut Buffer,
    at: &mut R::At,
    alloc: Global,
    cx: &mut Context<'_>,
) -> Poll<Result<bool, FrameStreamError>>
    ensures filled { IsFilled result (R.received stream.old at.old) (R.received stream.new at.new) (R.counts stream.old at.old) (R.counts stream.new at.new) buffer.old buffer.new }
    ensures sent { R.sent stream.new at.new ≡ R.sent stream.old at.old }
    ensures id { R.id stream.new ≡ R.id stream.old }
    ensures armed { OnPending result (IsArmed cx.new) }
    ensures kept { Keeps cx.old cx.new }
{
    buffer.lift();
    if !buffer.front.is_empty() {
        return Poll::Ready(Ok(true));
    }
    match take_piece(stream, buffer, at, alloc, cx) {
        Poll::Ready(Ok(true)) => {
            buffer.lift();
            Poll::Ready(Ok(true))
        }
        answer => answer,
    }
}
