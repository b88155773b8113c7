ghost use Rattle.std.specs.Prelude.{◌≡◌, ℕ, ◌+◌, ◌<◌, ◌≤◌, ◌^◌, List, ◌++◌, length, take, IsErrOf, OnOk, OnErr};
ghost use Rattle.qh_base.specs.Varint.{varint_at};
ghost use Rattle.qh_spec.specs.Varint.{varint};
ghost use Rattle.qh_spec.specs.HttpFrame.{HttpFrame, IsHttpFrame, http_frame, headers_frame};
ghost use Rattle.qh_h3wire.specs.Frame.{IsDataHeader, MeansFrame, IfFrame, IfHeaders, IfDataLen, IfForbidden, IfUnknown, IfMalformed, IfSettingsError, IfIncomplete, IsMeant, IsReservedFrame, IsUnknownFrame, IsMalformedFrame, IsFaultySettings, HasNoFrame, HasSoundSettings, IsWholeRead, IsRead};
ghost use Rattle.qh_h3wire.specs.FrameAt.{id_at, with_settings, promise_from, whole_frame, frame_at};
ghost use Rattle.qh_h3wire.specs.FrameBytes.{IsWritable, IsInRoom, frame_bytes, as_read, used_bytes, settings_frame, shared_payload, head_bytes};
ghost use Rattle.qh_h3wire.specs.FrameFault.{code_of};
ghost use Rattle.qh_h3wire.specs.Settings.{AreWritable};
ghost use Rattle.qh_h3wire.specs.SettingsAt.{settings_at};
ghost use Rattle.qh_h3wire.specs.SettingsValue.{plain_of};
ghost use Rattle.qh_h3wire.specs.declared.frame.Frame.{Frame as AFrame};
ghost use Rattle.qh_h3wire.specs.Grown.{HasGrown};

use crate::pair::Pair;
use crate::{Settings, SettingsError};
use bytes::Bytes;
use qh_base::{Code, Memory, VarInt, get_varint, put_varint};
use std::alloc::{AllocError, Global};
use std::error::Error;
use std::fmt;

/// A frame (RFC 9114, section 7.2).
#[derive(Drop)]
pub enum Frame {
    /// A DATA frame with its payload, which is only written.
    Data(Bytes),
    /// A HEADERS frame with its field section.
    Headers(Bytes),
    /// A CANCEL_PUSH frame with the id of the push.
    CancelPush(u64),
    /// A SETTINGS frame.
    Settings(Settings),
    /// A PUSH_PROMISE frame with the id of the push and the field section.
    PushPromise { id: u64, encoded: Bytes },
    /// A GOAWAY frame with the id of a stream or of a push.
    Goaway(VarInt),
    /// A MAX_PUSH_ID frame with the greatest id of a push.
    MaxPushId(u64),
    /// A frame of the type 0x21, which has no meaning and is only written (section 7.2.8).
    Grease,
    /// The length of a DATA frame, in bytes. The payload follows, and isn't part of it.
    DataLen(u64),
}

/// Why no frame was read.
#[derive(Clone, Copy, Debug, PartialEq, Eq)]
pub enum FrameError {
    /// A frame whose id is cut, or which goes on behind it.
    Malformed,
    /// A frame of a type that HTTP/2 had (section 7.2.8).
    ForbiddenFrame(u64),
    /// A frame of a type that no one knows, which is to be skipped (section 9).
    UnknownFrame(u64),
    /// A frame with a value that may not stand in it. No call gives it.
    InvalidFrameValue,
    /// The bytes are too few. The number says how many might do.
    Incomplete(usize),
    /// A SETTINGS frame that is refused. It isn't want of memory, which is `Memory`.
    Settings(SettingsError),
    /// A frame with the id of no stream. No call gives it.
    InvalidStreamId(u64),
    /// A frame with the id of no push. No call gives it.
    InvalidPushId(u64),
    /// The allocator had no memory.
    Memory,
}

impl fmt::Display for FrameError {
    fn fmt<W: fmt::Write>(&self, f: &mut fmt::Formatter<W>) -> fmt::Result {
        match self {
            FrameError::Malformed => f.write_str("a malformed frame"),
            FrameError::ForbiddenFrame(kind) => put_type(f, "a frame of the reserved type", *kind),
            FrameError::UnknownFrame(kind) => put_type(f, "a frame of the unknown type", *kind),
            FrameError::InvalidFrameValue => f.write_str("a frame with an invalid value"),
            FrameError::Incomplete(count) => put_count(f, *count),
            FrameError::Settings(error) => put_refusal(f, error),
            FrameError::InvalidStreamId(id) => put_type(
                f,
                "a frame with the invalid stream id",
                *id,
            ),
            FrameError::InvalidPushId(id) => put_type(f, "a frame with the invalid push id", *id),
            FrameError::Memory => f.write_str("out of memory"),
        }
    }
}

impl Error for FrameError {}

// Writes what a frame has, and the type or id.
fn put_type<W: fmt::Write>(f: &mut fmt::Formatter<W>, text: &str, n: u64) -> fmt::Result {
    write!(f, "{text} {n:#x}")
}

// Writes that a frame is cut, and how many bytes might do.
fn put_count<W: fmt::Write>(f: &mut fmt::Formatter<W>, count: usize) -> fmt::Result {
    write!(f, "a frame that is cut, of which {count} bytes are awaited")
}

// Writes why a SETTINGS frame is refused.
fn put_refusal<W: fmt::Write>(f: &mut fmt::Formatter<W>, error: &SettingsError) -> fmt::Result {
    write!(f, "a SETTINGS frame that is refused: {error}")
}

impl FrameError {
    /// The code with which the connection is to be closed. None for a frame that is to be skipped, and for want of memory.
    /// `Incomplete` counts where the stream ends there.
    pub fn code(&self) -> Option<Code>
        ensures { result ≡ code_of self.now }
    {
        match self {
            FrameError::Malformed | FrameError::InvalidFrameValue | FrameError::Incomplete(_) => {
                Some(Code::H3_FRAME_ERROR)
            }
            FrameError::ForbiddenFrame(_) => Some(Code::H3_FRAME_UNEXPECTED),
            FrameError::Settings(_) => Some(Code::H3_SETTINGS_ERROR),
            FrameError::InvalidStreamId(_) | FrameError::InvalidPushId(_) => Some(
                Code::H3_ID_ERROR,
            ),
            FrameError::UnknownFrame(_) | FrameError::Memory => None,
        }
    }
}

impl From<SettingsError> for FrameError {
    ghost use Rattle.std.specs.Prelude.{◌≡◌};
    ghost use Rattle.qh_h3wire.specs.FrameFault.{frame_error};

    ghost from_gives = { λ error e. e ≡ frame_error error };

    fn from(error: SettingsError) -> FrameError {
        match error {
            SettingsError::Memory => FrameError::Memory,
            error => FrameError::Settings(error),
        }
    }
}

impl From<AllocError> for FrameError {
    ghost use Rattle.std.specs.Prelude.{◌≡◌};
    ghost use Rattle.qh_h3wire.specs.declared.frame.FrameError.TheVariants.{Memory};

    ghost from_gives = { λ _ e. e ≡ Memory };

    fn from(_: AllocError) -> FrameError {
        FrameError::Memory
    }
}

/// The type of a DATA frame (section 7.2.1).
const DATA: u64 = 0;

/// The type of a HEADERS frame (section 7.2.2).
const HEADERS: u64 = 1;

/// The type of a CANCEL_PUSH frame (section 7.2.3).
const CANCEL_PUSH: u64 = 3;

/// The type of a SETTINGS frame (section 7.2.4).
const SETTINGS: u64 = 4;

/// The type of a PUSH_PROMISE frame (section 7.2.5).
const PUSH_PROMISE: u64 = 5;

/// The type of a GOAWAY frame (section 7.2.6).
const GOAWAY: u64 = 7;

/// The type of a MAX_PUSH_ID frame (section 7.2.7).
const MAX_PUSH_ID: u64 = 13;

/// The type of a PRIORITY frame of HTTP/2 (section 7.2.8).
const HTTP2_PRIORITY: u64 = 2;

/// The type of a PING frame of HTTP/2.
const HTTP2_PING: u64 = 6;

/// The type of a WINDOW_UPDATE frame of HTTP/2.
const HTTP2_WINDOW_UPDATE: u64 = 8;

/// The type of a CONTINUATION frame of HTTP/2.
const HTTP2_CONTINUATION: u64 = 9;

/// The first of the types that readers skip (section 7.2.8).
const GREASE: u64 = 0x21;

impl Frame {
    /// Appends the frame with the shortest numbers; of a `DataLen` the type and the length.
    pub fn encode(&self, out: &mut Vec<u8>) -> Result<(), Memory>
        requires { IsWritable self.now }
        ensures ok { OnOk result (out.new.items ≡ out.old.items ++ frame_bytes self.now) }
        ensures err { OnErr result (out.new.items ≡ out.old.items) }
    {
        let start = out.len();
        match self.append(out) {
            Ok(()) => Ok(()),
            Err(memory) => {
                out.truncate(start);
                Err(memory)
            }
        }
    }

    // The same, but want of memory may leave a part of the frame.
    fn append(&self, out: &mut Vec<u8>) -> Result<(), Memory>
        requires { IsWritable self.now }
        ensures ok { OnOk result (out.new.items ≡ out.old.items ++ frame_bytes self.now) }
        ensures err { OnErr result (HasGrown out.old.items out.new.items) }
    {
        self.append_head(out)?;
        match self {
            Frame::Data(payload) => out.extend_from_slice(payload.as_slice())?,
            Frame::Headers(section) => out.extend_from_slice(section.as_slice())?,
            Frame::PushPromise { encoded, .. } => out.extend_from_slice(encoded.as_slice())?,
            _ => {}
        }
        Ok(())
    }

    // Appends all but the payload that the frame shares.
    pub(crate) fn append_head(&self, out: &mut Vec<u8>) -> Result<(), Memory>
        requires { IsWritable self.now }
        ensures ok { OnOk result (out.new.items ≡ out.old.items ++ head_bytes self.now) }
        ensures err { OnErr result (HasGrown out.old.items out.new.items) }
    {
        match self {
            Frame::Data(payload) => Pair::write(out, DATA, payload.len() as u64),
            Frame::Headers(section) => Pair::write(out, HEADERS, section.len() as u64),
            Frame::CancelPush(id) => write_id(out, CANCEL_PUSH, *id),
            Frame::Settings(settings) => write_settings(out, settings),
            Frame::PushPromise { id, encoded } => write_promise(out, *id, encoded.len() as u64),
            Frame::Goaway(id) => write_id(out, GOAWAY, id.into_inner()),
            Frame::MaxPushId(id) => write_id(out, MAX_PUSH_ID, *id),
            Frame::Grease => write_whole(out, GREASE, b"grease"),
            Frame::DataLen(length) => Pair::write(out, DATA, *length),
        }
    }

    // The payload that the frame shares.
    pub(crate) fn into_shared(self) -> Bytes
        ensures { result ≡ shared_payload self }
    {
        match self {
            Frame::Data(payload) => payload,
            Frame::Headers(section) => section,
            Frame::PushPromise { encoded, .. } => encoded,
            _ => Bytes::new(),
        }
    }

    /// Reads the frame that begins the bytes, and says how many bytes it used. Of a DATA frame these are the type and
    /// the length, whether or not the payload is there. A frame that is refused, or to be skipped, is used up with its
    /// payload. After `Incomplete` and `Memory` nothing is used. `Memory` is answered only for a frame that keeps a payload,
    /// and for a SETTINGS frame whose payload has no fault.
    pub fn decode(alloc: Global, bytes: &[u8]) -> (Result<Frame, FrameError>, usize)
        ensures exact { IsRead result.0 result.1 (frame_at bytes.now) }
        ensures within { result.1 ≤ length bytes.now }
        ensures found { IfFrame result.0 (λ frame. IsMeant (take result.1 bytes.now) frame) }
        ensures headers { IfHeaders result.0 (λ section. IsHttpFrame (take result.1 bytes.now) (headers_frame section)) }
        ensures data_len { IfDataLen result.0 (λ n. IsDataHeader (take result.1 bytes.now) n) }
        ensures forbidden { IfForbidden result.0 (λ kind. IsReservedFrame (take result.1 bytes.now) kind) }
        ensures unknown { IfUnknown result.0 (λ kind. IsUnknownFrame (take result.1 bytes.now) kind) }
        ensures malformed { IfMalformed result.0 (IsMalformedFrame (take result.1 bytes.now)) }
        ensures settings { IfSettingsError result.0 (λ e. IsFaultySettings (take result.1 bytes.now) e) }
        ensures incomplete { IfIncomplete result.0 (HasNoFrame bytes.now) }
        ensures memory { IsErrOf result.0 FrameError.Memory → HasSoundSettings bytes.now }
    {
        decode_by_list(alloc, bytes)
    }
}

// Appends a frame with its payload.
fn write_whole(out: &mut Vec<u8>, kind: u64, payload: &[u8]) -> Result<(), Memory>
    requires kind { kind < 2 ^ 62 }
    requires payload { length payload.now < 2 ^ 62 }
    ensures ok { OnOk result (out.new.items
        ≡ out.old.items ++ (varint kind ++ (varint (length payload.now) ++ payload.now))) }
    ensures err { OnErr result (HasGrown out.old.items out.new.items) }
{
    Pair::write(out, kind, payload.len() as u64)?;
    out.extend_from_slice(payload)?;
    Ok(())
}

// Appends a frame whose payload is an id.
fn write_id(out: &mut Vec<u8>, kind: u64, id: u64) -> Result<(), Memory>
    requires kind { kind < 2 ^ 62 }
    requires id { id < 2 ^ 62 }
    ensures ok { OnOk result (out.new.items
        ≡ out.old.items ++ (varint kind ++ (varint (length (varint id)) ++ varint id))) }
    ensures err { OnErr result (HasGrown out.old.items out.new.items) }
{
    let id = VarInt::from_u64(id).unwrap();
    Pair::write(out, kind, id.size() as u64)?;
    put_varint(out, id)
}

// Appends a PUSH_PROMISE frame without its field section, which has this length.
fn write_promise(out: &mut Vec<u8>, id: u64, section: u64) -> Result<(), Memory>
    requires id { id < 2 ^ 62 }
    requires short { length (varint id) + section < 2 ^ 62 }
    ensures ok { OnOk result (out.new.items
        ≡ out.old.items ++ (varint 5 ++ (varint (length (varint id) + section) ++ varint id))) }
    ensures err { OnErr result (HasGrown out.old.items out.new.items) }
{
    let id = VarInt::from_u64(id).unwrap();
    Pair::write(out, PUSH_PROMISE, id.size() as u64 + section)?;
    put_varint(out, id)
}

// Appends a SETTINGS frame.
fn write_settings(out: &mut Vec<u8>, settings: &Settings) -> Result<(), Memory>
    requires { AreWritable (plain_of settings.now) }
    ensures ok { OnOk result (out.new.items ≡ out.old.items ++ http_frame (settings_frame (plain_of settings.now))) }
    ensures err { OnErr result (HasGrown out.old.items out.new.items) }
{
    let mut payload = Vec::new(*out.allocator());
    settings.encode(&mut payload)?;
    write_whole(out, SETTINGS, payload.as_slice())
}

// The same as `Frame::decode`, as what reading the list gives.
#[tactic(auto, unfolding(crate::specs::FrameAt::frame_at))]
fn decode_by_list(alloc: Global, bytes: &[u8]) -> (Result<Frame, FrameError>, usize)
    ensures exact { IsRead result.0 result.1 (frame_at bytes.now) }
    ensures within { result.1 ≤ length bytes.now }
{
    let Some(
        Pair {
            first: kind,
            second: length,
            size,
        },
    ) = Pair::read(bytes)
    else {
        return (Err(FrameError::Incomplete(bytes.len() + 1)), 0);
    };
    if kind == DATA {
        return (Ok(Frame::DataLen(length)), size);
    }
    let rest = &bytes[size..];
    if (rest.len() as u64) < length {
        return (Err(FrameError::Incomplete(length as usize + 2)), 0);
    }
    let payload = &rest[..length as usize];
    match read_whole(alloc, kind, payload) {
        Err(FrameError::Memory) => (Err(FrameError::Memory), 0),
        answer => (answer, size + payload.len()),
    }
}

// A frame that isn't DATA, with its payload.
fn read_whole(alloc: Global, kind: u64, payload: &[u8]) -> Result<Frame, FrameError>
    ensures { IsWholeRead result (whole_frame kind payload.now) }
{
    match kind {
        HEADERS => Ok(Frame::Headers(Bytes::copy_from_slice(alloc, payload)?)),
        CANCEL_PUSH => Ok(Frame::CancelPush(read_id(payload)?.into_inner())),
        SETTINGS => read_settings(alloc, payload),
        PUSH_PROMISE => read_promise(alloc, payload),
        GOAWAY => Ok(Frame::Goaway(read_id(payload)?)),
        MAX_PUSH_ID => Ok(Frame::MaxPushId(read_id(payload)?.into_inner())),
        HTTP2_PRIORITY | HTTP2_PING | HTTP2_WINDOW_UPDATE | HTTP2_CONTINUATION => {
            Err(FrameError::ForbiddenFrame(kind))
        }
        _ => Err(FrameError::UnknownFrame(kind)),
    }
}

// The settings that the payload means.
fn read_settings(alloc: Global, payload: &[u8]) -> Result<Frame, FrameError>
    ensures { IsWholeRead result (with_settings (settings_at payload.now)) }
{
    match Settings::decode(alloc, payload) {
        Ok(settings) => Ok(Frame::Settings(settings)),
        Err(error) => Err(FrameError::from(error)),
    }
}

// The id that is the whole payload.
fn read_id(payload: &[u8]) -> Result<VarInt, FrameError>
    ensures { result ≡ id_at payload.now }
{
    match get_varint(payload) {
        Some((id, size)) if size == payload.len() => Ok(id),
        _ => Err(FrameError::Malformed),
    }
}

// The id that begins the payload, and the section behind it.
fn read_promise(alloc: Global, payload: &[u8]) -> Result<Frame, FrameError>
    ensures { IsWholeRead result (promise_from (varint_at payload.now) payload.now) }
{
    let Some((id, size)) = get_varint(payload) else {
        return Err(FrameError::Malformed);
    };
    Ok(Frame::PushPromise {
        id: id.into_inner(),
        encoded: Bytes::copy_from_slice(alloc, &payload[size..])?,
    })
}

/// What is written is read back, whatever follows it.
pub fn written_frames_are_read()
    ensures { (f : AFrame) (rest : List ℕ) → IsWritable f → IsInRoom f
        → frame_at (frame_bytes f ++ rest) ≡ (as_read f, length (used_bytes f)) }
{}

/// A frame's payload means one frame at most.
pub fn payloads_mean_one_frame()
    ensures { (f : HttpFrame) (a b : AFrame) → MeansFrame f a → MeansFrame f b → a ≡ b }
{}
