//! What a control stream may bring (RFC 9114, sections 6.2.1 and 7.2).
ghost use Rattle.std.specs.Prelude.{◌≡◌, ◌<◌, ◌^◌, ℕ, Option, Result, Ok, Some, false};
ghost use Rattle.futures.specs.Poll.{OnPending};
ghost use Rattle.futures.specs.Task.{IsArmed, Keeps};
ghost use Rattle.futures.specs.declared.task.Poll.{Poll};
ghost use Rattle.qh_h3wire.specs.declared.frame.Frame.{Frame as AFrame};
ghost use Rattle.qh_h3.specs.Frames.{IsNext};
ghost use Rattle.qh_h3.specs.declared.frame.error.FrameStreamError.{FrameStreamError as FrameFault};
ghost use Rattle.qh_h3.specs.Control.{HasCode, HasItsCode, IsControl, IsCritical, IsJudged, is_settings as settings};

use crate::error::{ErrorOrigin, InternalConnectionError};
use crate::frame::{FrameStream, FrameStreamError};
use crate::quic::{ConnectionErrorIncoming, RecvStream, StreamErrorIncoming};
use futures::task::{Context, Poll};
use qh_base::{Code, Reason};
use qh_h3wire::Frame;
use std::alloc::Global;

// What the next frame of a control stream means: a frame that may come, or why the connection ends. Want of memory ends nothing.
pub(crate) fn judge(
    had_settings: bool,
    found: Result<Option<Frame>, FrameStreamError>,
) -> Result<Frame, ErrorOrigin>
    requires { HasItsCode found }
    ensures { IsControl had_settings found result }
{
    match found {
        Ok(Some(frame)) => judge_frame(had_settings, frame),
        Ok(None) => Err(ended(Code::H3_CLOSED_CRITICAL_STREAM, b"the control stream ended")),
        Err(FrameStreamError::UnexpectedEnd) => Err(ended(
            Code::H3_FRAME_ERROR,
            b"the control stream ended inside a frame",
        )),
        Err(FrameStreamError::Proto(error)) => Err(ErrorOrigin::Internal(
            InternalConnectionError::got_frame_error(error),
        )),
        Err(FrameStreamError::Quic(error)) => Err(critical(error)),
        Err(FrameStreamError::Memory) => { Err(ErrorOrigin::Quic(ConnectionErrorIncoming::Memory)) }
    }
}

// The next frame of the peer's control stream, or why the connection ends.
pub(crate) fn poll_judged<S: RecvStream>(
    stream: &mut FrameStream<S>,
    at: &mut S::At,
    alloc: Global,
    had_settings: bool,
    cx: &mut Context<'_>,
) -> Poll<Result<Frame, ErrorOrigin>>
    requires { stream.old.held.left ≡ 0 }
    ensures judged { (found : Poll (Result (Option AFrame) FrameFault)) × (spared : ℕ) × IsJudged had_settings found result
        × IsNext false found 65536 spared (S.received stream.old.stream at.old) (S.received stream.new.stream at.new) (S.counts stream.old.stream at.old) (S.counts stream.new.stream at.new) stream.old.held stream.new.held }
    ensures sent { S.sent stream.new.stream at.new ≡ S.sent stream.old.stream at.old }
    ensures id { S.id stream.new.stream ≡ S.id stream.old.stream }
    ensures armed { OnPending result (IsArmed cx.new) }
    ensures kept { Keeps cx.old cx.new }
{
    match stream.poll_next(at, alloc, cx) {
        Poll::Pending => Poll::Pending,
        Poll::Ready(found) => Poll::Ready(judge(had_settings, found)),
    }
}

// The same of a frame: SETTINGS come first and once.
fn judge_frame(had_settings: bool, frame: Frame) -> Result<Frame, ErrorOrigin>
    ensures { IsControl had_settings (Ok (Some frame)) result }
{
    if is_settings(&frame) {
        if had_settings {
            return Err(ended(Code::H3_FRAME_UNEXPECTED, b"SETTINGS came twice"));
        }
        return Ok(frame);
    }
    if !had_settings {
        return Err(ended(Code::H3_MISSING_SETTINGS, b"a frame came before SETTINGS"));
    }
    match frame {
        Frame::Goaway(id) => Ok(Frame::Goaway(id)),
        Frame::CancelPush(id) => Ok(Frame::CancelPush(id)),
        Frame::MaxPushId(id) => Ok(Frame::MaxPushId(id)),
        _ => Err(ended(
            Code::H3_FRAME_UNEXPECTED,
            b"a frame that may not stand on a control stream",
        )),
    }
}

// Whether it is SETTINGS.
pub(crate) fn is_settings(frame: &Frame) -> bool
    ensures { result ≡ settings frame.now }
{
    matches!(frame, Frame::Settings(_))
}

// A fault of a stream that may not close while the connection lasts.
pub(crate) fn critical(error: StreamErrorIncoming) -> ErrorOrigin
    ensures { IsCritical error result }
{
    match error {
        StreamErrorIncoming::ConnectionErrorIncoming { connection_error } => {
            ErrorOrigin::Quic(connection_error)
        }
        StreamErrorIncoming::StreamTerminated { error_code: _ } => ended(
            Code::H3_CLOSED_CRITICAL_STREAM,
            b"the peer ended a critical stream",
        ),
        StreamErrorIncoming::Unknown(_) => ended(
            Code::H3_CLOSED_CRITICAL_STREAM,
            b"a critical stream failed",
        ),
        StreamErrorIncoming::Memory => ErrorOrigin::Quic(ConnectionErrorIncoming::Memory),
    }
}

// An error that this end found.
pub(crate) fn ended(code: Code, text: &[u8]) -> ErrorOrigin
    requires { code.0 < 2 ^ 62 }
    ensures { HasCode code.0 result }
{
    ErrorOrigin::Internal(InternalConnectionError::new(code, Reason::of(text)))
}
