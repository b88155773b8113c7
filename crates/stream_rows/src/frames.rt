//! Frames that speak of streams: as they come, as rows say them, and as they were sent.
ghost use Rattle.std.specs.Prelude.{IfOk};
ghost use Rattle.qh_streams.specs.Streams.{IsOut, PlainStreams};

use crate::settings::{dir_of, stream_of, varint_of};
use bytes::Bytes;
use qh_base::{Memory, StreamId, VarInt};
use qh_frame::Frame;
use qh_streams::{ResetFrame, SentFrame, StreamFrame};
use row_text::{RowFault, Words};
use std::alloc::Global;

/// The frame as streams take it, where it speaks of streams.
pub(crate) fn coming(alloc: Global, frame: &Frame<'_>) -> Result<Option<StreamFrame>, Memory> {
    Ok(Some(match frame {
        Frame::Stream(stream) => StreamFrame::Stream {
            id: stream.id,
            offset: stream.offset,
            payload: Bytes::copy_from_slice(alloc, stream.payload)?,
            fin: stream.fin,
        },
        Frame::ResetStream {
            id,
            error_code,
            final_size,
        } => StreamFrame::Reset {
            id: *id,
            code: *error_code,
            size: *final_size,
        },
        Frame::StopSending { id, error_code } => StreamFrame::Stop {
            id: *id,
            code: *error_code,
        },
        Frame::MaxData(limit) => StreamFrame::MaxData(*limit),
        Frame::MaxStreamData { id, offset } => StreamFrame::MaxStreamData {
            id: *id,
            max: *offset,
        },
        Frame::MaxStreams { dir, count } => StreamFrame::MaxStreams {
            dir: *dir,
            count: *count,
        },
        _ => return Ok(None),
    }))
}

/// A frame of the peer's, as the rest of a row says it.
pub(crate) fn frame_of(alloc: Global, words: &mut Words<'_>) -> Result<StreamFrame, RowFault> {
    match words.next() {
        "stream" => stream_frame_of(alloc, words, false),
        "stream-end" => stream_frame_of(alloc, words, true),
        "reset" => Ok(StreamFrame::Reset {
            id: stream_of(words)?,
            code: varint_of(words)?,
            size: varint_of(words)?,
        }),
        "stop" => Ok(StreamFrame::Stop {
            id: stream_of(words)?,
            code: varint_of(words)?,
        }),
        kind => limit_frame_of(kind, words),
    }
}

/// A STREAM frame of one byte, which is the low byte of its offset.
pub(crate) fn piece_of(alloc: Global, id: StreamId, offset: u64) -> Result<StreamFrame, RowFault> {
    let byte = (offset % 256) as u8;
    Ok(StreamFrame::Stream {
        id,
        offset: VarInt::from_u64(offset).ok_or(RowFault::Form)?,
        payload: Bytes::copy_from_slice(alloc, &[byte])?,
        fin: false,
    })
}

// A STREAM frame: the stream, the offset and the bytes.
fn stream_frame_of(
    alloc: Global,
    words: &mut Words<'_>,
    fin: bool,
) -> Result<StreamFrame, RowFault> {
    let Ok(id) = stream_of(words) else {
        return Err(RowFault::Form);
    };
    let Ok(offset) = varint_of(words) else {
        return Err(RowFault::Form);
    };
    let payload = words.bytes(alloc)?;
    Ok(StreamFrame::Stream {
        id,
        offset,
        payload: Bytes::copy_from_slice(alloc, &payload)?,
        fin,
    })
}

// A frame that sets a limit.
fn limit_frame_of(kind: &str, words: &mut Words<'_>) -> Result<StreamFrame, RowFault> {
    match kind {
        "max-data" => Ok(StreamFrame::MaxData(varint_of(words)?)),
        "max-stream-data" => Ok(StreamFrame::MaxStreamData {
            id: stream_of(words)?,
            max: varint_of(words)?,
        }),
        "max-streams" => Ok(StreamFrame::MaxStreams {
            dir: dir_of(words)?,
            count: varint_of(words)?,
        }),
        _ => Err(RowFault::Form),
    }
}

/// A frame that an end wrote, as the rest of a row says it: any but STREAM.
pub(crate) fn sent_frame_of(words: &mut Words<'_>) -> Result<SentFrame, RowFault>
    ensures out { IfOk result (λ f. (s : PlainStreams) → IsOut s f) }
{
    match words.next() {
        "reset" => Ok(SentFrame::ResetStream {
            id: stream_of(words)?,
            reset: ResetFrame {
                code: varint_of(words)?,
                final_size: varint_of(words)?,
            },
        }),
        "stop" => Ok(SentFrame::StopSending {
            id: stream_of(words)?,
            code: varint_of(words)?,
        }),
        kind => sent_limit_of(kind, words),
    }
}

// A frame that sets a limit and was written.
fn sent_limit_of(kind: &str, words: &mut Words<'_>) -> Result<SentFrame, RowFault>
    ensures out { IfOk result (λ f. (s : PlainStreams) → IsOut s f) }
{
    match kind {
        "max-data" => Ok(SentFrame::MaxData(varint_of(words)?)),
        "max-stream-data" => Ok(SentFrame::MaxStreamData {
            id: stream_of(words)?,
            limit: varint_of(words)?,
        }),
        "max-streams" => Ok(SentFrame::MaxStreams {
            dir: dir_of(words)?,
            count: varint_of(words)?,
        }),
        _ => Err(RowFault::Form),
    }
}
