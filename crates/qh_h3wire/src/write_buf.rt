ghost use Rattle.std.specs.Prelude.{◌≡◌, ◌<◌, ◌≤◌, ◌^◌, ◌↔◌, ◌++◌, length, take, drop, IfOk};
ghost use Rattle.qh_spec.specs.Varint.{varint};
ghost use Rattle.qh_h3wire.specs.FrameBytes.{IsWritable, frame_bytes};

use crate::{Frame, Settings, StreamType};
use bytes::Bytes;
use qh_base::{Memory, VarInt, put_varint};
use std::alloc::Global;
use std::marker::Model;

/// What is to be written on a stream. The payload of a frame is shared with its owner, and never copied. A contract sees
/// the bytes that remain.
#[derive(Drop)]
pub struct WriteBuf {
    // Types, lengths, ids and settings.
    head: Bytes,
    payload: Bytes,
}

impl Model for WriteBuf {
    ghost use Rattle.std.specs.Prelude.{ℕ, List, ◌++◌};

    ghost Value = { List ℕ };

    ghost view = { λ b. b.head ++ b.payload };
}

impl WriteBuf {
    /// The type of a stream.
    pub fn of_type(alloc: Global, ty: StreamType) -> Result<WriteBuf, Memory>
        requires { ty.0 < 2 ^ 62 }
        ensures { IfOk result (λ b. b ≡ varint ty.0) }
    {
        let mut head = Vec::new(alloc);
        put_varint(&mut head, VarInt::from_u64(ty.0).unwrap())?;
        WriteBuf::of_parts(head, Bytes::new())
    }

    /// A frame.
    pub fn of_frame(alloc: Global, frame: Frame) -> Result<WriteBuf, Memory>
        requires { IsWritable frame }
        ensures { IfOk result (λ b. b ≡ frame_bytes frame) }
    {
        let mut head = Vec::new(alloc);
        frame.append_head(&mut head)?;
        WriteBuf::of_parts(head, frame.into_shared())
    }

    /// The type of a stream, and a frame.
    pub fn of_both(alloc: Global, ty: StreamType, frame: Frame) -> Result<WriteBuf, Memory>
        requires ty { ty.0 < 2 ^ 62 }
        requires frame { IsWritable frame }
        ensures { IfOk result (λ b. b ≡ varint ty.0 ++ frame_bytes frame) }
    {
        let mut head = Vec::new(alloc);
        put_varint(&mut head, VarInt::from_u64(ty.0).unwrap())?;
        frame.append_head(&mut head)?;
        WriteBuf::of_parts(head, frame.into_shared())
    }

    /// The type of a control stream, and the SETTINGS frame with which it begins (RFC 9114, section 6.2.1).
    pub fn of_control(alloc: Global, settings: Settings) -> Result<WriteBuf, Memory>
        requires { IsWritable (Frame.Settings settings) }
        ensures { IfOk result (λ b. b ≡ varint 0 ++ frame_bytes (Frame.Settings settings)) }
    {
        WriteBuf::of_both(alloc, StreamType::CONTROL, Frame::Settings(settings))
    }

    fn of_parts(head: Vec<u8>, payload: Bytes) -> Result<WriteBuf, Memory>
        ensures { IfOk result (λ b. b ≡ head.items ++ payload) }
    {
        let head = Bytes::from_vec(head)?;
        Ok(WriteBuf { head, payload })
    }

    /// The next bytes, in one piece. It is empty only where nothing remains.
    pub fn chunk(&self) -> &[u8]
        ensures front { result.now ≡ take (length result.now) self.now }
        ensures some { (length result.now ≡ 0) ↔ (length self.now ≡ 0) }
    {
        if self.head.is_empty() {
            self.payload.as_slice()
        } else {
            self.head.as_slice()
        }
    }

    /// How many bytes remain.
    pub fn remaining(&self) -> usize
        ensures { result ≡ length self.now }
    {
        self.head.len() + self.payload.len()
    }

    /// Leaves out the next `n` bytes, which were written.
    pub fn advance(&mut self, n: usize)
        requires { n ≤ length self.old }
        ensures { self.new ≡ drop n self.old }
    {
        let of_head = n.min(self.head.len());
        self.head.advance(of_head);
        self.payload.advance(n - of_head);
    }
}
