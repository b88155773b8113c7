//! What is sent on the own one-way streams (RFC 9114, sections 6.2 and 7.2, and RFC 9204, section 4.2).
ghost use Rattle.std.specs.Prelude.{◌≡◌, ◌<◌, ◌^◌, ◌++◌, IsOk};
ghost use Rattle.qh_spec.specs.Varint.{varint};
ghost use Rattle.qh_h3.specs.Counts.{counted};
ghost use Rattle.qh_h3.specs.Streams.{WaitsForNothing, given_by};
ghost use Rattle.qh_h3wire.specs.FrameBytes.{IsWritable, frame_bytes};
ghost use Rattle.qh_h3wire.specs.StreamTypes as types;
ghost use Rattle.qh_h3wire.specs.declared.frame.Frame.TheVariants as frames;

use crate::quic::{SendStream, StreamErrorIncoming};
use qh_base::{Memory, VarInt};
use qh_h3wire::{Frame, Settings, StreamType, WriteBuf};
use std::alloc::Global;

// Gives a control stream its type and the SETTINGS frame with which it begins.
pub(crate) fn give_settings<S: SendStream>(
    stream: &mut S,
    at: &mut S::At,
    alloc: Global,
    settings: Settings,
) -> Result<(), StreamErrorIncoming>
    requires { IsWritable (frames.Settings settings) }
    ensures sent { S.sent stream.new at.new ≡ given_by (varint types.control ++ frame_bytes (frames.Settings settings)) result (S.sent stream.old at.old) }
    ensures one { IsOk result → WaitsForNothing (S.sent stream.old at.old) }
    ensures received { S.received stream.new at.new ≡ S.received stream.old at.old }
    ensures counts { S.counts stream.new at.new ≡ counted result (S.counts stream.old at.old) }
    ensures id { S.id stream.new ≡ S.id stream.old }
{
    match WriteBuf::of_control(alloc, settings) {
        Ok(bytes) => give(stream, at, alloc, bytes),
        Err(Memory) => Err(StreamErrorIncoming::Memory),
    }
}

// Gives an encoder or a decoder stream its type, which is all that is sent on it.
pub(crate) fn give_type<S: SendStream>(
    stream: &mut S,
    at: &mut S::At,
    alloc: Global,
    ty: StreamType,
) -> Result<(), StreamErrorIncoming>
    requires { ty.0 < 2 ^ 62 }
    ensures sent { S.sent stream.new at.new ≡ given_by (varint ty.0) result (S.sent stream.old at.old) }
    ensures one { IsOk result → WaitsForNothing (S.sent stream.old at.old) }
    ensures received { S.received stream.new at.new ≡ S.received stream.old at.old }
    ensures counts { S.counts stream.new at.new ≡ counted result (S.counts stream.old at.old) }
    ensures id { S.id stream.new ≡ S.id stream.old }
{
    match WriteBuf::of_type(alloc, ty) {
        Ok(bytes) => give(stream, at, alloc, bytes),
        Err(Memory) => Err(StreamErrorIncoming::Memory),
    }
}

// Gives a control stream a GOAWAY frame with this id.
pub(crate) fn give_goaway<S: SendStream>(
    stream: &mut S,
    at: &mut S::At,
    alloc: Global,
    id: VarInt,
) -> Result<(), StreamErrorIncoming>
    ensures sent { S.sent stream.new at.new ≡ given_by (frame_bytes (frames.Goaway id)) result (S.sent stream.old at.old) }
    ensures one { IsOk result → WaitsForNothing (S.sent stream.old at.old) }
    ensures received { S.received stream.new at.new ≡ S.received stream.old at.old }
    ensures counts { S.counts stream.new at.new ≡ counted result (S.counts stream.old at.old) }
    ensures id { S.id stream.new ≡ S.id stream.old }
{
    match WriteBuf::of_frame(alloc, Frame::Goaway(id)) {
        Ok(bytes) => give(stream, at, alloc, bytes),
        Err(Memory) => Err(StreamErrorIncoming::Memory),
    }
}

// Gives a stream a type without a meaning, and a frame of such a type (RFC 9114, sections 6.2.3 and 7.2.8).
pub(crate) fn give_grease<S: SendStream>(
    stream: &mut S,
    at: &mut S::At,
    alloc: Global,
) -> Result<(), StreamErrorIncoming>
    ensures sent { S.sent stream.new at.new ≡ given_by (varint types.grease ++ frame_bytes frames.Grease) result (S.sent stream.old at.old) }
    ensures one { IsOk result → WaitsForNothing (S.sent stream.old at.old) }
    ensures received { S.received stream.new at.new ≡ S.received stream.old at.old }
    ensures counts { S.counts stream.new at.new ≡ counted result (S.counts stream.old at.old) }
    ensures id { S.id stream.new ≡ S.id stream.old }
{
    match WriteBuf::of_both(alloc, StreamType::GREASE, Frame::Grease) {
        Ok(bytes) => give(stream, at, alloc, bytes),
        Err(Memory) => Err(StreamErrorIncoming::Memory),
    }
}

// Gives a stream bytes. More than can be numbered would be want of memory.
fn give<S: SendStream>(
    stream: &mut S,
    at: &mut S::At,
    alloc: Global,
    bytes: WriteBuf,
) -> Result<(), StreamErrorIncoming>
    ensures sent { S.sent stream.new at.new ≡ given_by bytes result (S.sent stream.old at.old) }
    ensures one { IsOk result → WaitsForNothing (S.sent stream.old at.old) }
    ensures received { S.received stream.new at.new ≡ S.received stream.old at.old }
    ensures counts { S.counts stream.new at.new ≡ counted result (S.counts stream.old at.old) }
    ensures id { S.id stream.new ≡ S.id stream.old }
{
    if bytes.remaining() > VarInt::MAX_VALUE as usize {
        return Err(StreamErrorIncoming::Memory);
    }
    stream.send_data(at, alloc, bytes)
}
