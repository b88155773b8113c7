ghost use Rattle.std.specs.Prelude.{◌≡◌, List};
ghost use Rattle.std.specs.Option.{option_map};
ghost use Rattle.qh_frame.specs.FrameAt.{fields_at};
ghost use Rattle.qh_frame.specs.Plain.{plain_of};
ghost use Rattle.qh_spec.specs.FrameTypes as frame_types;

use crate::Frame;
use crate::fields::number_of;
use qh_base::{Dir, StreamId};

// The most streams of a direction (RFC 9000, section 4.6).
const MAX_STREAMS: u64 = 1 << 60;

// RESET_STREAM.
#[tactic(auto, unfolding(crate::specs::FrameAt::fields_at, qh_spec::specs::QuicFrames::shape_of))]
pub(super) fn reset_stream(bytes: &[u8]) -> Option<(Frame<'_>, &[u8])>
    ensures { option_map (λ f. (plain_of f.0, f.1.now)) result ≡ fields_at frame_types.reset_stream bytes.now }
{
    let Some((id, rest)) = number_of(bytes) else {
        return None;
    };
    let Some((error_code, rest)) = number_of(rest) else {
        return None;
    };
    let Some((final_size, rest)) = number_of(rest) else {
        return None;
    };
    Some((
        Frame::ResetStream {
            id: StreamId(id.into_inner()),
            error_code,
            final_size,
        },
        rest,
    ))
}

// STOP_SENDING.
#[tactic(auto, unfolding(crate::specs::FrameAt::fields_at, qh_spec::specs::QuicFrames::shape_of))]
pub(super) fn stop_sending(bytes: &[u8]) -> Option<(Frame<'_>, &[u8])>
    ensures { option_map (λ f. (plain_of f.0, f.1.now)) result ≡ fields_at frame_types.stop_sending bytes.now }
{
    let Some((id, rest)) = number_of(bytes) else {
        return None;
    };
    let Some((error_code, rest)) = number_of(rest) else {
        return None;
    };
    Some((
        Frame::StopSending {
            id: StreamId(id.into_inner()),
            error_code,
        },
        rest,
    ))
}

// MAX_DATA.
#[tactic(auto, unfolding(crate::specs::FrameAt::fields_at, qh_spec::specs::QuicFrames::shape_of))]
pub(super) fn max_data(bytes: &[u8]) -> Option<(Frame<'_>, &[u8])>
    ensures { option_map (λ f. (plain_of f.0, f.1.now)) result ≡ fields_at frame_types.max_data bytes.now }
{
    let Some((limit, rest)) = number_of(bytes) else {
        return None;
    };
    Some((Frame::MaxData(limit), rest))
}

// MAX_STREAM_DATA.
#[tactic(auto, unfolding(crate::specs::FrameAt::fields_at, qh_spec::specs::QuicFrames::shape_of))]
pub(super) fn max_stream_data(bytes: &[u8]) -> Option<(Frame<'_>, &[u8])>
    ensures { option_map (λ f. (plain_of f.0, f.1.now)) result ≡ fields_at frame_types.max_stream_data bytes.now }
{
    let Some((id, rest)) = number_of(bytes) else {
        return None;
    };
    let Some((offset, rest)) = number_of(rest) else {
        return None;
    };
    Some((
        Frame::MaxStreamData {
            id: StreamId(id.into_inner()),
            offset,
        },
        rest,
    ))
}

// MAX_STREAMS, two-way.
#[tactic(auto, unfolding(crate::specs::FrameAt::fields_at, qh_spec::specs::QuicFrames::shape_of))]
pub(super) fn max_streams_bi(bytes: &[u8]) -> Option<(Frame<'_>, &[u8])>
    ensures { option_map (λ f. (plain_of f.0, f.1.now)) result ≡ fields_at frame_types.max_streams_bidi bytes.now }
{
    let Some((count, rest)) = number_of(bytes) else {
        return None;
    };
    if count.into_inner() > MAX_STREAMS {
        return None;
    }
    Some((
        Frame::MaxStreams {
            dir: Dir::Bi,
            count,
        },
        rest,
    ))
}

// MAX_STREAMS, one-way.
#[tactic(auto, unfolding(crate::specs::FrameAt::fields_at, qh_spec::specs::QuicFrames::shape_of))]
pub(super) fn max_streams_uni(bytes: &[u8]) -> Option<(Frame<'_>, &[u8])>
    ensures { option_map (λ f. (plain_of f.0, f.1.now)) result ≡ fields_at frame_types.max_streams_uni bytes.now }
{
    let Some((count, rest)) = number_of(bytes) else {
        return None;
    };
    if count.into_inner() > MAX_STREAMS {
        return None;
    }
    Some((
        Frame::MaxStreams {
            dir: Dir::Uni,
            count,
        },
        rest,
    ))
}

// DATA_BLOCKED.
#[tactic(auto, unfolding(crate::specs::FrameAt::fields_at, qh_spec::specs::QuicFrames::shape_of))]
pub(super) fn data_blocked(bytes: &[u8]) -> Option<(Frame<'_>, &[u8])>
    ensures { option_map (λ f. (plain_of f.0, f.1.now)) result ≡ fields_at frame_types.data_blocked bytes.now }
{
    let Some((offset, rest)) = number_of(bytes) else {
        return None;
    };
    Some((Frame::DataBlocked { offset }, rest))
}

// STREAM_DATA_BLOCKED.
#[tactic(auto, unfolding(crate::specs::FrameAt::fields_at, qh_spec::specs::QuicFrames::shape_of))]
pub(super) fn stream_data_blocked(bytes: &[u8]) -> Option<(Frame<'_>, &[u8])>
    ensures { option_map (λ f. (plain_of f.0, f.1.now)) result ≡ fields_at frame_types.stream_data_blocked bytes.now }
{
    let Some((id, rest)) = number_of(bytes) else {
        return None;
    };
    let Some((offset, rest)) = number_of(rest) else {
        return None;
    };
    Some((
        Frame::StreamDataBlocked {
            id: StreamId(id.into_inner()),
            offset,
        },
        rest,
    ))
}

// STREAMS_BLOCKED, two-way.
#[tactic(auto, unfolding(crate::specs::FrameAt::fields_at, qh_spec::specs::QuicFrames::shape_of))]
pub(super) fn streams_blocked_bi(bytes: &[u8]) -> Option<(Frame<'_>, &[u8])>
    ensures { option_map (λ f. (plain_of f.0, f.1.now)) result ≡ fields_at frame_types.streams_blocked_bidi bytes.now }
{
    let Some((limit, rest)) = number_of(bytes) else {
        return None;
    };
    if limit.into_inner() > MAX_STREAMS {
        return None;
    }
    Some((
        Frame::StreamsBlocked {
            dir: Dir::Bi,
            limit,
        },
        rest,
    ))
}

// STREAMS_BLOCKED, one-way.
#[tactic(auto, unfolding(crate::specs::FrameAt::fields_at, qh_spec::specs::QuicFrames::shape_of))]
pub(super) fn streams_blocked_uni(bytes: &[u8]) -> Option<(Frame<'_>, &[u8])>
    ensures { option_map (λ f. (plain_of f.0, f.1.now)) result ≡ fields_at frame_types.streams_blocked_uni bytes.now }
{
    let Some((limit, rest)) = number_of(bytes) else {
        return None;
    };
    if limit.into_inner() > MAX_STREAMS {
        return None;
    }
    Some((
        Frame::StreamsBlocked {
            dir: Dir::Uni,
            limit,
        },
        rest,
    ))
}
