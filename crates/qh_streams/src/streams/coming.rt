ghost use Rattle.std.specs.Prelude.{◌≡◌, ℕ, IsOk, ◌+◌, ◌<◌, ◌≤◌, ◌^◌, length, OnErr, OnOk, IfErr, MatchOption, None, true, false};
ghost use Rattle.qh_streams.specs.declared.frames.StreamFrame.TheVariants.{Stream, Reset, Stop, MaxData, MaxStreamData, MaxStreams};
ghost use Rattle.qh_halves.specs.Counts.{has_send, has_recv};
ghost use Rattle.qh_spec.specs.FrameTypes as frame_types;
ghost use Rattle.qh_streams.specs.Streams.{refusal_of, count_refusal, id_refusal, ingest_refusal, size_refusal, was_opened, IsPieceReceived, IsResetReceived, IsRefusal, IsRefusedBy, IsReceived, IsWithinCount, HasUnblocked, KeepsOut};

use crate::{StreamEvent, StreamFault, StreamFrame, Streams};
use bytes::Bytes;
use qh_base::{
    Dir, FrameType, Memory, Reason, StreamId, TransportError, TransportErrorCode, VarInt,
};
use qh_buffers::Chunk;
use qh_half::IngestFault;
use qh_halves::MAX_STREAMS;
use std::alloc::Global;

impl From<Memory> for StreamFault {
    ghost use Rattle.std.specs.Prelude.{◌≡◌};
    ghost use Rattle.qh_streams.specs.declared.fault.StreamFault.TheVariants as variants;

    ghost from_gives = { λ _ e. e ≡ variants.Memory };

    fn from(_: Memory) -> StreamFault {
        StreamFault::Memory
    }
}

impl Streams {
    /// A frame of the peer's came. Frames of a half that is done are dropped. A fault says why the frame is refused, with its
    /// code and the type of the frame (RFC 9000, sections 4, 19 and 20.1): then nothing changes. Memory is answered only for a
    /// frame that isn't at fault.
    pub fn received(&mut self, alloc: Global, frame: StreamFrame) -> Result<(), StreamFault>
        ensures ok { OnOk result (IsReceived self.old self.new frame) }
        ensures taken { OnOk result (refusal_of self.old frame ≡ None) }
        ensures fault { IfErr result (λ e. IsRefusedBy e (refusal_of self.old frame)) }
        ensures free { (limit : ℕ) → frame ≡ MaxData limit → IsOk result }
        ensures err { OnErr result (self.new ≡ self.old) }
        ensures keeps_out { KeepsOut self.old self.new }
    {
        match frame {
            StreamFrame::Stream {
                id,
                offset,
                payload,
                fin,
            } => self.received_stream(alloc, id, offset, payload, fin),
            StreamFrame::Reset { id, code, size } => {
                self.received_reset_stream(alloc, id, code, size)
            }
            StreamFrame::Stop { id, code } => self.received_stop_sending(alloc, id, code),
            StreamFrame::MaxData(limit) => {
                let _ = self.send.received_max_data(limit);
                Ok(())
            }
            StreamFrame::MaxStreamData { id, max } => self.received_max_stream_data(alloc, id, max),
            StreamFrame::MaxStreams { dir, count } => self.received_max_streams(dir, count),
        }
    }

    /// Refuses a STREAM frame exactly if it is at fault, as `received` does, and takes no memory for that.
    pub fn check_stream(
        &self,
        id: StreamId,
        offset: VarInt,
        payload: &[u8],
        fin: bool,
    ) -> Result<(), StreamFault>
        ensures ok { OnOk result (refusal_of self.now (Stream id offset payload.now fin) ≡ None) }
        ensures fault { IfErr result (λ e. IsRefusal e (refusal_of self.now (Stream id offset payload.now fin))) }
    {
        self.check_id(id, self.reads(id), FrameType::STREAM)?;
        let to = offset.into_inner() + payload.len() as u64;
        self.check_size(id, to, fin, FrameType::STREAM)
    }

    /// Refuses a frame exactly if it is at fault, as `received` does, and takes no memory for that.
    pub fn check(&self, frame: &StreamFrame) -> Result<(), StreamFault>
        ensures ok { OnOk result (refusal_of self.now frame.now ≡ None) }
        ensures fault { IfErr result (λ e. IsRefusal e (refusal_of self.now frame.now)) }
    {
        match frame {
            StreamFrame::Stream {
                id,
                offset,
                payload,
                fin,
            } => self.check_stream(*id, *offset, payload, *fin),
            StreamFrame::Reset { id, size, .. } => {
                self.check_id(*id, self.reads(*id), FrameType::RESET_STREAM)?;
                self.check_size(*id, size.into_inner(), true, FrameType::RESET_STREAM)
            }
            StreamFrame::Stop { id, .. } => {
                self.check_id(*id, self.sends(*id), FrameType::STOP_SENDING)
            }
            StreamFrame::MaxData(_) => Ok(()),
            StreamFrame::MaxStreamData { id, .. } => {
                self.check_id(*id, self.sends(*id), FrameType::MAX_STREAM_DATA)
            }
            StreamFrame::MaxStreams { dir, count } => check_count(*dir, *count),
        }
    }

    // A STREAM frame came.
    fn received_stream(
        &mut self,
        alloc: Global,
        id: StreamId,
        offset: VarInt,
        payload: Bytes,
        fin: bool,
    ) -> Result<(), StreamFault>
        ensures ok { OnOk result (IsReceived self.old self.new (Stream id offset payload fin)) }
        ensures taken { OnOk result (refusal_of self.old (Stream id offset payload fin) ≡ None) }
        ensures fault { IfErr result (λ e. IsRefusedBy e (refusal_of self.old (Stream id offset payload fin))) }
        ensures err { OnErr result (self.new ≡ self.old) }
        ensures keeps_out { KeepsOut self.old self.new }
    {
        self.check_id(id, self.reads(id), FrameType::STREAM)?;
        let piece = Chunk {
            offset: offset.into_inner(),
            bytes: payload,
        };
        if self.was_opened(id) {
            self.take_piece(id, piece, fin)
        } else {
            self.take_first_piece(alloc, id, piece, fin)
        }
    }

    // A piece came of a stream that is there.
    fn take_piece(&mut self, id: StreamId, piece: Chunk, fin: bool) -> Result<(), StreamFault>
        requires opened { was_opened self.old id.0 ≡ true }
        requires offset { piece.offset < 2 ^ 62 }
        ensures ok { OnOk result (IsPieceReceived self.old self.new id piece fin) }
        ensures taken { OnOk result (size_refusal self.old id.0 (piece.offset + length piece.bytes) fin frame_types.stream ≡ None) }
        ensures fault { IfErr result (λ e. IsRefusedBy e (size_refusal self.old id.0 (piece.offset + length piece.bytes) fin frame_types.stream)) }
        ensures err { OnErr result (self.new ≡ self.old) }
        ensures keeps_out { KeepsOut self.old self.new }
    {
        let was_live = self.is_live(id);
        let is_told = self.recv.is_wanted(id.0);
        if self.events.try_reserve(self.send.len() + 1).is_err() {
            self.check_size(id, end_of(&piece), fin, FrameType::STREAM)?;
            return Err(StreamFault::Memory);
        }
        if let Err(fault) = self.recv.ingest(id.0, piece, fin) {
            return Err(ingest_fault(fault, FrameType::STREAM));
        }
        if is_told {
            let _ = self.events.push_back(StreamEvent::Readable { id });
        }
        self.count_closed(id, was_live);
        Ok(())
    }

    // The first piece came of a stream that isn't there yet.
    fn take_first_piece(
        &mut self,
        alloc: Global,
        id: StreamId,
        piece: Chunk,
        fin: bool,
    ) -> Result<(), StreamFault>
        requires offset { piece.offset < 2 ^ 62 }
        requires new { was_opened self.old id.0 ≡ false }
        requires within { IsWithinCount self.old id.0 }
        requires reads { has_recv self.old.side id.0 ≡ true }
        ensures ok { OnOk result (IsPieceReceived self.old self.new id piece fin) }
        ensures taken { OnOk result (size_refusal self.old id.0 (piece.offset + length piece.bytes) fin frame_types.stream ≡ None) }
        ensures fault { IfErr result (λ e. IsRefusedBy e (size_refusal self.old id.0 (piece.offset + length piece.bytes) fin frame_types.stream)) }
        ensures err { OnErr result (self.new ≡ self.old) }
        ensures keeps_out { KeepsOut self.old self.new }
    {
        let Ok(arrived) = self.arrive(alloc, id) else {
            self.check_size(id, end_of(&piece), fin, FrameType::STREAM)?;
            return Err(StreamFault::Memory);
        };
        if let Err(fault) = self.recv.ingest(id.0, piece, fin) {
            self.depart(id, arrived);
            return Err(ingest_fault(fault, FrameType::STREAM));
        }
        Ok(())
    }

    // A RESET_STREAM frame came.
    fn received_reset_stream(
        &mut self,
        alloc: Global,
        id: StreamId,
        code: VarInt,
        final_size: VarInt,
    ) -> Result<(), StreamFault>
        ensures ok { OnOk result (IsReceived self.old self.new (Reset id code final_size)) }
        ensures taken { OnOk result (refusal_of self.old (Reset id code final_size) ≡ None) }
        ensures fault { IfErr result (λ e. IsRefusedBy e (refusal_of self.old (Reset id code final_size))) }
        ensures err { OnErr result (self.new ≡ self.old) }
        ensures keeps_out { KeepsOut self.old self.new }
    {
        self.check_id(id, self.reads(id), FrameType::RESET_STREAM)?;
        if self.was_opened(id) {
            self.take_reset(id, code, final_size)
        } else {
            self.take_first_reset(alloc, id, code, final_size)
        }
    }

    // A reset came of a stream that is there.
    fn take_reset(
        &mut self,
        id: StreamId,
        code: VarInt,
        final_size: VarInt,
    ) -> Result<(), StreamFault>
        requires { was_opened self.old id.0 ≡ true }
        ensures ok { OnOk result (IsResetReceived self.old self.new id code final_size) }
        ensures taken { OnOk result (size_refusal self.old id.0 final_size true frame_types.reset_stream ≡ None) }
        ensures fault { IfErr result (λ e. IsRefusedBy e (size_refusal self.old id.0 final_size true frame_types.reset_stream)) }
        ensures err { OnErr result (self.new ≡ self.old) }
        ensures keeps_out { KeepsOut self.old self.new }
    {
        let was_live = self.is_live(id);
        let is_told = self.recv.is_wanted(id.0);
        if self.events.try_reserve(self.send.len() + 1).is_err() {
            self.check_size(id, final_size.into_inner(), true, FrameType::RESET_STREAM)?;
            return Err(StreamFault::Memory);
        }
        if let Err(fault) = self.recv.received_reset(id.0, code, final_size) {
            return Err(ingest_fault(fault, FrameType::RESET_STREAM));
        }
        if is_told {
            let _ = self.events.push_back(StreamEvent::Readable { id });
        }
        self.count_closed(id, was_live);
        Ok(())
    }

    // A reset came of a stream that isn't there yet.
    fn take_first_reset(
        &mut self,
        alloc: Global,
        id: StreamId,
        code: VarInt,
        final_size: VarInt,
    ) -> Result<(), StreamFault>
        requires new { was_opened self.old id.0 ≡ false }
        requires within { IsWithinCount self.old id.0 }
        requires reads { has_recv self.old.side id.0 ≡ true }
        ensures ok { OnOk result (IsResetReceived self.old self.new id code final_size) }
        ensures taken { OnOk result (size_refusal self.old id.0 final_size true frame_types.reset_stream ≡ None) }
        ensures fault { IfErr result (λ e. IsRefusedBy e (size_refusal self.old id.0 final_size true frame_types.reset_stream)) }
        ensures err { OnErr result (self.new ≡ self.old) }
        ensures keeps_out { KeepsOut self.old self.new }
    {
        let Ok(arrived) = self.arrive(alloc, id) else {
            self.check_size(id, final_size.into_inner(), true, FrameType::RESET_STREAM)?;
            return Err(StreamFault::Memory);
        };
        if let Err(fault) = self.recv.received_reset(id.0, code, final_size) {
            self.depart(id, arrived);
            return Err(ingest_fault(fault, FrameType::RESET_STREAM));
        }
        Ok(())
    }

    // A STOP_SENDING frame came.
    fn received_stop_sending(
        &mut self,
        alloc: Global,
        id: StreamId,
        code: VarInt,
    ) -> Result<(), StreamFault>
        ensures ok { OnOk result (IsReceived self.old self.new (Stop id code)) }
        ensures taken { OnOk result (refusal_of self.old (Stop id code) ≡ None) }
        ensures fault { IfErr result (λ e. IsRefusedBy e (refusal_of self.old (Stop id code))) }
        ensures err { OnErr result (self.new ≡ self.old) }
        ensures keeps_out { KeepsOut self.old self.new }
    {
        self.check_id(id, self.sends(id), FrameType::STOP_SENDING)?;
        let arrived = self.arrive(alloc, id)?;
        if self.events.try_reserve(self.send.len() + 1).is_err() {
            self.depart(id, arrived);
            return Err(StreamFault::Memory);
        }
        if self.send.received_stop_sending(id.0, code) {
            let _ = self.events.push_back(StreamEvent::Stopped { id, code });
        }
        Ok(())
    }

    // A MAX_STREAM_DATA frame came.
    fn received_max_stream_data(
        &mut self,
        alloc: Global,
        id: StreamId,
        limit: VarInt,
    ) -> Result<(), StreamFault>
        ensures ok { OnOk result (IsReceived self.old self.new (MaxStreamData id limit)) }
        ensures taken { OnOk result (refusal_of self.old (MaxStreamData id limit) ≡ None) }
        ensures fault { IfErr result (λ e. IsRefusedBy e (refusal_of self.old (MaxStreamData id limit))) }
        ensures err { OnErr result (self.new ≡ self.old) }
        ensures keeps_out { KeepsOut self.old self.new }
    {
        self.check_id(id, self.sends(id), FrameType::MAX_STREAM_DATA)?;
        let arrived = self.arrive(alloc, id)?;
        if self.note_unblocked(id, limit).is_err() {
            self.depart(id, arrived);
            return Err(StreamFault::Memory);
        }
        let _ = self.send.received_max_stream_data(id.0, limit);
        Ok(())
    }

    // If this limit permits bytes again that the stream's own limit forbade, that is to be told.
    fn note_unblocked(&mut self, id: StreamId, limit: VarInt) -> Result<(), Memory>
        ensures ok { OnOk result (HasUnblocked self.old self.new id.0 limit × (self.new ≡ record self.old { blocked = self.new.blocked })) }
        ensures err { OnErr result (self.new ≡ self.old) }
        ensures keeps_out { KeepsOut self.old self.new }
    {
        if !self.send.is_unblocked_by(id.0, limit) {
            return Ok(());
        }
        match self.connection_blocked.insert(id.0) {
            Ok(_) => Ok(()),
            Err(_) => Err(Memory),
        }
    }

    // A MAX_STREAMS frame came.
    fn received_max_streams(&mut self, dir: Dir, count: VarInt) -> Result<(), StreamFault>
        ensures ok { OnOk result (IsReceived self.old self.new (MaxStreams dir count)) }
        ensures taken { OnOk result (refusal_of self.old (MaxStreams dir count) ≡ None) }
        ensures fault { IfErr result (λ e. IsRefusedBy e (refusal_of self.old (MaxStreams dir count))) }
        ensures err { OnErr result (self.new ≡ self.old) }
        ensures keeps_out { KeepsOut self.old self.new }
    {
        check_count(dir, count)?;
        let count = count.into_inner();
        if self.events.try_reserve(self.send.len() + 1).is_err() {
            return Err(StreamFault::Memory);
        }
        let counts = self.counts(dir);
        if counts.max_opened < count {
            let _ = self.events.push_back(StreamEvent::Available { dir });
        }
        self.set_counts(dir, counts.with_max_opened(count));
        Ok(())
    }

    // Refuses a stream that has no such half, or wasn't opened and can't be.
    fn check_id(&self, id: StreamId, has_half: bool, frame: FrameType) -> Result<(), StreamFault>
        ensures ok { OnOk result (id_refusal self.now id.0 has_half frame.0 ≡ None) }
        ensures within { OnOk result (IsWithinCount self.now id.0) }
        ensures fault { IfErr result (λ e. IsRefusal e (id_refusal self.now id.0 has_half frame.0)) }
    {
        if !has_half || (self.is_own(id) && !self.was_opened(id)) {
            return Err(refused(TransportErrorCode::STREAM_STATE_ERROR, frame));
        }
        if !self.is_own(id) && id.index() >= self.counts(id.dir()).announced.value {
            return Err(refused(TransportErrorCode::STREAM_LIMIT_ERROR, frame));
        }
        Ok(())
    }

    // Refuses bytes up to an offset, or an end there, that pass a limit or contradict the stream's size.
    fn check_size(
        &self,
        id: StreamId,
        to: u64,
        is_end: bool,
        frame: FrameType,
    ) -> Result<(), StreamFault>
        requires { was_opened self.now id.0 ≡ false → has_recv self.now.side id.0 ≡ true }
        ensures ok { OnOk result (size_refusal self.now id.0 to is_end frame.0 ≡ None) }
        ensures fault { IfErr result (λ e. IsRefusal e (size_refusal self.now id.0 to is_end frame.0)) }
    {
        let fault = if self.was_opened(id) {
            self.recv.ingest_fault(id.0, to, is_end)
        } else {
            self.recv.first_ingest_fault(to)
        };
        match fault {
            Some(fault) => Err(ingest_fault(fault, frame)),
            None => Ok(()),
        }
    }

    // This end reads the stream.
    fn reads(&self, id: StreamId) -> bool
        ensures { result ≡ has_recv self.now.side id.0 }
    {
        !self.is_own(id) || id.dir() == Dir::Bi
    }

    // This end sends on the stream.
    fn sends(&self, id: StreamId) -> bool
        ensures { result ≡ has_send self.now.side id.0 }
    {
        self.is_own(id) || id.dir() == Dir::Bi
    }
}

// Refuses a count of streams that is too great (RFC 9000, section 19.11).
fn check_count(dir: Dir, count: VarInt) -> Result<(), StreamFault>
    ensures ok { OnOk result (count_refusal dir count ≡ None) }
    ensures small { OnOk result (count ≤ 2 ^ 60) }
    ensures fault { IfErr result (λ e. IsRefusal e (count_refusal dir count)) }
{
    if count.into_inner() <= MAX_STREAMS {
        return Ok(());
    }
    let frame = match dir {
        Dir::Bi => FrameType::MAX_STREAMS_BIDI,
        Dir::Uni => FrameType::MAX_STREAMS_UNI,
    };
    Err(refused(TransportErrorCode::FRAME_ENCODING_ERROR, frame))
}

// The offset behind a piece.
fn end_of(piece: &Chunk) -> u64
    requires { piece.now.offset < 2 ^ 62 }
    ensures { result ≡ piece.now.offset + length piece.now.bytes }
{
    piece.offset + piece.bytes.len() as u64
}

// What is told of a refused frame.
fn refused(code: TransportErrorCode, frame: FrameType) -> StreamFault
    ensures { IsRefusal result (Some (record { code = code.0; frame = frame.0 })) }
{
    StreamFault::Transport(TransportError {
        code,
        frame: Some(frame.0),
        reason: Reason::of(b""),
    })
}

// What is told of bytes or an end that are refused.
fn ingest_fault(fault: IngestFault, frame: FrameType) -> StreamFault
    ensures { IsRefusedBy result (ingest_refusal (Some fault) frame.0) }
{
    match fault {
        IngestFault::FlowControl => refused(TransportErrorCode::FLOW_CONTROL_ERROR, frame),
        IngestFault::FinalSize => refused(TransportErrorCode::FINAL_SIZE_ERROR, frame),
        IngestFault::Memory => StreamFault::Memory,
    }
}
