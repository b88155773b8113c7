ghost use Rattle.std.specs.Prelude.{◌≡◌, ◌⊎◌, ℕ, Bool, ◌+◌, ◌-◌, ◌<◌, ◌≤◌, ◌^◌, ◌==◌, min, length, Option, Some, None, true, false, Err, OnOk, OnErr, IfOk, IfErr, IsOk, IfSome, MatchOption, if◌then◌else◌};
ghost use Rattle.qh_buffers.specs.Assembler.{end_of, HasNothing, IsInserted, read_to, was_given};
ghost use Rattle.qh_half.specs.Recv.{new_recv, ingest_fault, contradicts, readable_fault, with_order, with_size, keeps_bytes, IsFaultOf, IsRead, IsReadAnswer, WantsMemory, WaitsForMore, IsStopped, with_reset_given, limit_of, final_size, reset_code, bytes_read, IsIngested, IsResetBy, is_closed, is_at_end, is_done, is_limit_due, counted, owes_limit, owes_stop, is_stop_due, is_frame_due, wants_more, IsBlocked, AreWaiting, ReadsAtMost, awaits_reset, acked_stop, lost_stop, new_stop};
ghost use Rattle.std.specs.Option.{option_map};
ghost use Rattle.qh_buffers.specs.SendBuffer.{lost_mark};
ghost use Rattle.qh_buffers.specs.declared.send_buffer.Mark.TheVariants.{Sent, Queued, Acked};
ghost use Rattle.qh_half.specs.declared.fault.ReadFault.TheVariants.{Memory as Lacking};
ghost use Rattle.qh_half.specs.declared.recv.IngestFault.TheVariants.{Memory as Wanting};
ghost use Rattle.qh_half.specs.declared.recv.RecvState.TheVariants.{ResetRecvd};

use crate::{ClosedStream, ReadFault, ReadableFault};
use bytes::Bytes;
use qh_base::{Memory, VarInt};
use qh_buffers::{Assembler, Chunk, Mark};
use std::alloc::Global;
use std::marker::Model;

/// What a receiving half knows (RFC 9000, section 3.2).
#[derive(Clone, Copy)]
pub enum RecvState {
    /// Bytes come; the final size, if it is known.
    Recv(Option<u64>),
    /// It was reset, with this final size and this code.
    ResetRecvd(u64, VarInt),
}

impl RecvState {
    /// The final size, if it is known (RFC 9000, section 4.5).
    pub fn final_size(self) -> Option<u64>
        ensures { result ≡ final_size self }
    {
        match self {
            RecvState::Recv(size) => size,
            RecvState::ResetRecvd(size, _) => Some(size),
        }
    }

    /// The code of the reset, if one came.
    pub fn reset_code(self) -> Option<VarInt>
        ensures { result ≡ reset_code self }
    {
        match self {
            RecvState::Recv(_) => None,
            RecvState::ResetRecvd(_, code) => Some(code),
        }
    }

    /// The state after bytes up to an offset, with the end there or not.
    fn ingested(self, fin: bool, to: u64) -> RecvState
        ensures { result ≡ (if fin then with_size to self else self) }
    {
        if !fin {
            return self;
        }
        match self {
            RecvState::Recv(_) => RecvState::Recv(Some(to)),
            RecvState::ResetRecvd(size, code) => RecvState::ResetRecvd(size, code),
        }
    }

    /// The state after a reset: the first one stays.
    fn reset(self, size: u64, code: VarInt) -> RecvState
        ensures first { reset_code self ≡ None → result ≡ ResetRecvd size code }
        ensures again { (known : ℕ) → reset_code self ≡ Some known → result ≡ self }
    {
        match self {
            RecvState::Recv(_) => RecvState::ResetRecvd(size, code),
            RecvState::ResetRecvd(known, first) => RecvState::ResetRecvd(known, first),
        }
    }
}

/// Why bytes or an end that came are refused (RFC 9000, sections 4.1 and 4.5), or aren't kept.
#[derive(Clone, Copy, PartialEq, Eq)]
pub enum IngestFault {
    /// They pass a limit that was announced: FLOW_CONTROL_ERROR.
    FlowControl,
    /// They contradict the known end, or the end known bytes: FINAL_SIZE_ERROR.
    FinalSize,
    /// The allocator had no memory. Nothing changed.
    Memory,
}

impl From<Memory> for IngestFault {
    ghost use Rattle.std.specs.Prelude.{◌≡◌};
    ghost use Rattle.qh_half.specs.declared.recv.IngestFault.TheVariants as variants;

    ghost from_gives = { λ _ e. e ≡ variants.Memory };

    fn from(_: Memory) -> IngestFault {
        IngestFault::Memory
    }
}

impl From<Memory> for ReadFault {
    ghost use Rattle.std.specs.Prelude.{◌≡◌};
    ghost use Rattle.qh_half.specs.declared.fault.ReadFault.TheVariants as variants;

    ghost from_gives = { λ _ e. e ≡ variants.Memory };

    fn from(_: Memory) -> ReadFault {
        ReadFault::Memory
    }
}

/// The STOP_SENDING frame of a stream (RFC 9000, section 19.5).
#[derive(Clone, Copy)]
pub struct StopFrame {
    /// The application's code.
    pub code: VarInt,
    /// What was done with it.
    pub mark: Mark,
}

/// The receiving half of a stream.
#[derive(Drop)]
pub struct Recv {
    assembler: Assembler,
    end: u64,
    sent_max_stream_data: u64,
    state: RecvState,
    is_stopped: bool,
    is_given: bool,
    is_unordered: bool,
    limit_mark: Mark,
    stop_frame: Option<StopFrame>,
}

impl Model for Recv {
    ghost use Rattle.qh_half.specs.Recv.{PlainRecv};

    ghost Value = { PlainRecv };

    ghost view = { λ r. record { assembler = r.assembler; end = r.end; sent_max_stream_data = r.sent_max_stream_data; state = r.state; is_stopped = r.is_stopped; is_given = r.is_given; is_unordered = r.is_unordered; limit_mark = r.limit_mark; stop_frame = r.stop_frame } };

    ghost use Rattle.qh_half.specs.Recv.{IsRecv};

    ghost invariant = { λ r. IsRecv (record { assembler = r.assembler; end = r.end; sent_max_stream_data = r.sent_max_stream_data; state = r.state; is_stopped = r.is_stopped; is_given = r.is_given; is_unordered = r.is_unordered; limit_mark = r.limit_mark; stop_frame = r.stop_frame }) };
}

impl Recv {
    /// A half that takes bytes up to a limit that was announced.
    pub fn new(alloc: Global, max_data: VarInt) -> Recv
        ensures { result ≡ new_recv max_data }
    {
        Recv {
            assembler: Assembler::new(alloc),
            end: 0,
            sent_max_stream_data: max_data.into_inner(),
            state: RecvState::Recv(None),
            is_stopped: false,
            is_given: false,
            is_unordered: false,
            limit_mark: Mark::Acked,
            stop_frame: None,
        }
    }

    /// A piece came, when the connection has received `received` bytes and has announced the limit `max_data`. Answers how many
    /// bytes lie behind the last that came before: they count against the connection's limit.
    pub fn ingest(
        &mut self,
        piece: Chunk,
        fin: bool,
        received: u64,
        max_data: u64,
    ) -> Result<u64, IngestFault>
        requires { (received ≤ max_data) × (max_data < 2 ^ 62) }
        ensures ok { IfOk result (IsIngested self.old self.new piece fin) }
        ensures taken { OnOk result (ingest_fault self.old (piece.offset + length piece.bytes) fin received max_data ≡ None) }
        ensures fault { IfErr result (λ e. IsFaultOf e (ingest_fault self.old (piece.offset + length piece.bytes) fin received max_data)) }
        ensures kept { IfErr result (λ e. e ≡ Wanting → keeps_bytes self.old ≡ true) }
        ensures err { OnErr result (self.new ≡ self.old) }
    {
        let to = end_of(&piece);
        if let Some(fault) = self.ingest_fault(to, fin, received, max_data) {
            return Err(fault);
        }
        let is_kept = self.keeps_bytes();
        keep(&mut self.assembler, is_kept, piece)?;
        let fresh = to.saturating_sub(self.end);
        self.end += fresh;
        self.state = self.state.ingested(fin, to);
        Ok(fresh)
    }

    /// A reset came, with the stream's final size. Answers as `ingest`.
    pub fn received_reset(
        &mut self,
        code: VarInt,
        size: VarInt,
        received: u64,
        max_data: u64,
    ) -> Result<u64, IngestFault>
        requires { (received ≤ max_data) × (max_data < 2 ^ 62) }
        ensures ok { IfOk result (IsResetBy self.old self.new code size) }
        ensures taken { OnOk result (ingest_fault self.old size true received max_data ≡ None) }
        ensures fault { IfErr result (λ e. (ingest_fault self.old size true received max_data ≡ Some e) × (self.new ≡ self.old)) }
    {
        let size = size.into_inner();
        if let Some(fault) = self.ingest_fault(size, true, received, max_data) {
            return Err(fault);
        }
        let fresh = size - self.end;
        self.assembler.clear();
        self.end = size;
        self.state = self.state.reset(size, code);
        Ok(fresh)
    }

    /// Begins to read, in order or not. An ordered read after an unordered one is refused.
    pub fn begin_read(&mut self, ordered: bool) -> Result<(), ReadableFault>
        ensures ok { OnOk result ((readable_fault self.old ordered ≡ None) × (self.new ≡ with_order self.old ordered)) }
        ensures fault { IfErr result (λ e. (readable_fault self.old ordered ≡ Some e) × (self.new ≡ self.old)) }
    {
        if let Some(fault) = self.readable_fault(ordered) {
            return Err(fault);
        }
        self.is_unordered = self.is_unordered || !ordered;
        Ok(())
    }

    /// Gives bytes that wait, at most as many as are asked for, or the end, None, or the reset. With a length of 0 it gives no bytes, and
    /// neither the end nor the reset.
    pub fn next(&mut self, max_length: usize) -> Result<Option<Chunk>, ReadFault>
        requires { is_closed self.old ≡ false }
        ensures answer { IsReadAnswer self.old self.new max_length result }
        ensures lacks { result ≡ Err Lacking → WaitsForMore self.old → ⊥ }
    {
        if max_length == 0 {
            return Ok(Some(no_bytes()));
        }
        if let Some(code) = self.reset_code() {
            self.give_end();
            return Err(ReadFault::Reset(code));
        }
        if let Some(piece) = self.give_bytes(max_length)? {
            return Ok(Some(piece));
        }
        if !self.is_at_end() {
            return Err(ReadFault::Blocked);
        }
        self.give_end();
        Ok(None)
    }

    /// Begins to read, in order or not, and gives what `next` gives. For want of memory nothing changes: the read isn't begun
    /// either.
    pub fn read(&mut self, max_length: usize, ordered: bool) -> Result<Option<Chunk>, ReadFault>
        requires { readable_fault self.old ordered ≡ None }
        ensures answer { (result ≡ Err Lacking → ⊥) → IsReadAnswer (with_order self.old ordered) self.new max_length result }
        ensures memory { result ≡ Err Lacking → (self.new ≡ self.old) × WantsMemory self.old max_length }
        ensures lacks { result ≡ Err Lacking → WaitsForMore (with_order self.old ordered) → ⊥ }
    {
        let was_unordered = self.is_unordered;
        self.set_unordered(was_unordered || !ordered);
        match self.next(max_length) {
            Err(ReadFault::Memory) => {
                self.set_unordered(was_unordered);
                Err(ReadFault::Memory)
            }
            answer => answer,
        }
    }

    // Marks whether an unordered read was begun.
    fn set_unordered(&mut self, is_unordered: bool)
        ensures { self.new ≡ record self.old { is_unordered = is_unordered } }
    {
        self.is_unordered = is_unordered;
    }

    /// No more bytes are wanted: what waits is dropped. If the final size isn't known the peer is to be told, with this code.
    pub fn stop(&mut self, code: VarInt) -> Result<(), ClosedStream>
        ensures ok { OnOk result (IsStopped self.old self.new code) }
        ensures fault { OnErr result ((is_closed self.old ≡ true) × (self.new ≡ self.old)) }
    {
        if self.is_closed() {
            return Err(ClosedStream);
        }
        self.assembler.clear();
        self.is_stopped = true;
        self.stop_frame = stop_frame(self.state, code);
        Ok(())
    }

    /// The code of the peer's reset, if one came. It counts as given then.
    pub fn take_reset(&mut self) -> Result<Option<VarInt>, ClosedStream>
        ensures ok { IfOk result (λ code. (is_closed self.old ≡ false) × (code ≡ reset_code self.old.state) × (self.new ≡ with_reset_given self.old)) }
        ensures fault { OnErr result ((is_closed self.old ≡ true) × (self.new ≡ self.old)) }
    {
        if self.is_closed() {
            return Err(ClosedStream);
        }
        let code = self.state.reset_code();
        self.is_given = code.is_some();
        Ok(code)
    }

    /// Its end or its reset was given, or it was stopped and its final size came.
    pub fn is_done(&self) -> bool
        ensures { result ≡ is_done self.now }
    {
        self.is_given || (self.is_stopped && self.state.final_size().is_some())
    }

    /// How many bytes reads gave.
    pub fn bytes_read(&self) -> u64
        ensures { result ≡ bytes_read self.now }
    {
        self.assembler.bytes_read()
    }

    /// How many bytes count as read for the connection's limit: those that reads gave, and after a stop or a reset all that
    /// came.
    pub fn counted(&self) -> u64
        ensures counted { result ≡ counted self.now }
        ensures within { result ≤ self.now.end }
    {
        if self.keeps_bytes() {
            return self.assembler.bytes_read();
        }
        self.end
    }

    /// It was stopped.
    pub fn is_stopped(&self) -> bool
        ensures { result ≡ self.now.is_stopped }
    {
        self.is_stopped
    }

    /// The stream's limit that is to be announced, if it rose over the last one or a frame with the last one is lost: the
    /// bytes that were read and the window, at most 2^62 - 1, and not less than was announced. It counts as announced then.
    pub fn max_stream_data(&mut self, window: u64) -> Option<VarInt>
        ensures some { IfSome result (λ limit. (limit ≡ limit_of self.old window) × (is_limit_due self.old window ≡ true) × (self.new ≡ record self.old { sent_max_stream_data = limit; limit_mark = Sent })) }
        ensures none { result ≡ None → (is_limit_due self.old window ≡ false) × (self.new ≡ self.old) }
    {
        if !self.is_limit_due(window) {
            return None;
        }
        let limit = self.limit(window);
        self.sent_max_stream_data = limit;
        self.limit_mark = Mark::Sent;
        VarInt::from_u64(limit)
    }

    /// A MAX_STREAM_DATA frame with this limit is acknowledged.
    pub fn ack_max_stream_data(&mut self, limit: VarInt)
        ensures { self.new ≡ record self.old { limit_mark = (if limit == self.old.sent_max_stream_data then Acked else self.old.limit_mark) } }
    {
        let is_last = limit.into_inner() == self.sent_max_stream_data;
        self.limit_mark = if is_last {
            Mark::Acked
        } else {
            self.limit_mark
        };
    }

    /// A MAX_STREAM_DATA frame with this limit is lost: if none with a greater one was sent, it waits again.
    pub fn lose_max_stream_data(&mut self, limit: VarInt)
        ensures { self.new ≡ record self.old { limit_mark = (if limit == self.old.sent_max_stream_data then lost_mark self.old.limit_mark else self.old.limit_mark) } }
    {
        let is_last = limit.into_inner() == self.sent_max_stream_data;
        self.limit_mark = if is_last {
            self.limit_mark.lost()
        } else {
            self.limit_mark
        };
    }

    /// Whether a MAX_STREAM_DATA frame with this limit is still to be acknowledged: it is the last one, and more bytes are
    /// wanted.
    pub fn owes_max_stream_data(&self, limit: VarInt) -> bool
        ensures { result ≡ owes_limit self.now limit }
    {
        self.wants_more()
            && limit.into_inner() == self.sent_max_stream_data
            && self.limit_mark != Mark::Acked
    }

    /// The code of the STOP_SENDING frame that is to be sent; None if none waits. It counts as sent.
    pub fn take_stop_frame(&mut self) -> Option<VarInt>
        ensures some { IfSome result (λ code. (is_stop_due self.old ≡ true) × (self.old.stop_frame ≡ Some (record { code = code; mark = Queued })) × (self.new ≡ record self.old { stop_frame = Some (record { code = code; mark = Sent }) })) }
        ensures none { result ≡ None → (is_stop_due self.old ≡ false) × (self.new ≡ self.old) }
    {
        if !self.is_stop_due() {
            return None;
        }
        let code = self.stop_frame?.code;
        self.stop_frame = Some(StopFrame {
            code,
            mark: Mark::Sent,
        });
        Some(code)
    }

    /// The STOP_SENDING frame is acknowledged.
    pub fn ack_stop(&mut self)
        ensures { self.new ≡ record self.old { stop_frame = option_map acked_stop self.old.stop_frame } }
    {
        self.stop_frame = self.stop_frame.map(StopFrame::acked);
    }

    /// The STOP_SENDING frame is lost: if it isn't acknowledged it waits again.
    pub fn lose_stop(&mut self)
        ensures { self.new ≡ record self.old { stop_frame = option_map lost_stop self.old.stop_frame } }
    {
        self.stop_frame = self.stop_frame.map(StopFrame::lost);
    }

    /// Whether the STOP_SENDING frame is still to be acknowledged: the final size isn't known yet.
    pub fn owes_stop(&self) -> bool
        ensures { result ≡ owes_stop self.now }
    {
        match self.stop_frame {
            Some(frame) => self.state.final_size().is_none() && frame.mark != Mark::Acked,
            None => false,
        }
    }

    /// Whether a STOP_SENDING or a MAX_STREAM_DATA frame waits to be sent.
    pub fn is_frame_due(&self, window: u64) -> bool
        ensures { result ≡ is_frame_due self.now window }
    {
        self.is_stop_due() || self.is_limit_due(window)
    }

    /// A STOP_SENDING frame waits to be sent.
    fn is_stop_due(&self) -> bool
        ensures { result ≡ is_stop_due self.now }
    {
        match self.stop_frame {
            Some(frame) => self.state.final_size().is_none() && frame.mark == Mark::Queued,
            None => false,
        }
    }

    /// The limit that the bytes read and the window make, at least the one that was announced.
    fn limit(&self, window: u64) -> u64
        ensures { result ≡ limit_of self.now window }
    {
        let read = self.assembler.bytes_read();
        let limit = read.saturating_add(window).min(VarInt::MAX_VALUE);
        limit.max(self.sent_max_stream_data)
    }

    /// More bytes are wanted: it wasn't stopped, and the final size isn't known.
    fn wants_more(&self) -> bool
        ensures { result ≡ wants_more self.now }
    {
        !self.is_stopped && self.state.final_size().is_none()
    }

    /// Whether the stream's limit is to be announced.
    pub fn is_limit_due(&self, window: u64) -> bool
        ensures { result ≡ is_limit_due self.now window }
    {
        self.wants_more()
            && (self.limit_mark == Mark::Queued || self.sent_max_stream_data < self.limit(window))
    }

    /// Reads are refused: it was stopped, or its end or its reset was given.
    pub fn is_closed(&self) -> bool
        ensures { result ≡ is_closed self.now }
    {
        self.is_stopped || self.is_given
    }

    /// Why bytes up to an offset, or an end there, are refused, as `ingest` tells it.
    pub fn ingest_fault(
        &self,
        to: u64,
        is_end: bool,
        received: u64,
        max_data: u64,
    ) -> Option<IngestFault>
        requires { (received ≤ max_data) × (max_data < 2 ^ 62) }
        ensures { result ≡ ingest_fault self.now to is_end received max_data }
    {
        if self.sent_max_stream_data < to {
            return Some(IngestFault::FlowControl);
        }
        if max_data < received + to.saturating_sub(self.end) {
            return Some(IngestFault::FlowControl);
        }
        if contradicts(self.state.final_size(), self.end, to, is_end) {
            return Some(IngestFault::FinalSize);
        }
        None
    }

    /// Whether bytes that come are kept.
    fn keeps_bytes(&self) -> bool
        ensures { result ≡ keeps_bytes self.now }
    {
        !(self.is_stopped || self.state.reset_code().is_some())
    }

    /// Why a read isn't begun, in order or not.
    pub fn readable_fault(&self, ordered: bool) -> Option<ReadableFault>
        ensures { result ≡ readable_fault self.now ordered }
    {
        if self.is_closed() {
            return Some(ReadableFault::ClosedStream);
        }
        if ordered && self.is_unordered {
            return Some(ReadableFault::IllegalOrderedRead);
        }
        None
    }

    /// Whether a read in this order waits: it may be made, and there is nothing for it, neither bytes nor the end nor the reset.
    pub fn is_blocked(&self, ordered: bool) -> bool
        ensures yes { result ≡ true → IsBlocked self.now ordered }
        ensures no { result ≡ false → IsBlocked self.now ordered → ⊥ }
    {
        self.readable_fault(ordered).is_none()
            && self.state.reset_code().is_none()
            && !self.is_at_end()
            && !self.assembler.has_next(ordered && !self.is_unordered)
    }

    /// The most bytes that the next read in this order can give, at most `max_length`, as `Assembler::longest` counts them.
    pub fn longest(&self, max_length: usize, ordered: bool) -> usize
        ensures few { result ≤ max_length }
        ensures enough { ReadsAtMost self.now ordered max_length result }
        ensures waits { AreWaiting self.now ordered result }
    {
        self.assembler
            .longest(max_length, ordered && !self.is_unordered)
    }

    /// The offset behind those that reads gave without a gap wasn't given. It does nothing: its contract says so.
    pub fn reads_on(&self)
        ensures { was_given self.now.assembler (read_to self.now.assembler) ≡ false }
    {
        self.assembler.reads_on();
    }

    /// Whether whoever waits for the peer's reset waits still: none came, and reads aren't refused.
    pub fn awaits_reset(&self) -> bool
        ensures { result ≡ awaits_reset self.now }
    {
        !self.is_closed() && self.state.reset_code().is_none()
    }

    /// The code of the peer's reset, if one came.
    fn reset_code(&self) -> Option<VarInt>
        ensures { result ≡ reset_code self.now.state }
    {
        self.state.reset_code()
    }

    /// The end or the reset is given.
    fn give_end(&mut self)
        ensures { self.new ≡ record self.old { is_given = true } }
    {
        self.is_given = true;
    }

    /// Gives bytes that wait, at most as many as are asked for.
    fn give_bytes(&mut self, max_length: usize) -> Result<Option<Chunk>, Memory>
        requires some { 0 < max_length }
        requires not_reset { reset_code self.old.state ≡ None }
        ensures ok { IfOk result (λ o. MatchOption o ((self.new ≡ self.old) × WaitsForMore self.old) (IsRead self.old self.new max_length)) }
        ensures err { OnErr result (self.new ≡ self.old) }
        ensures waits { OnErr result (HasNothing self.old.assembler → ⊥) }
        ensures lacks { OnErr result (WaitsForMore self.old → ⊥) }
    {
        let piece = self.assembler.read(max_length, !self.is_unordered)?;
        self.assembler.counts_below(self.end);
        Ok(piece)
    }

    /// All bytes up to the known end were given.
    fn is_at_end(&self) -> bool
        ensures { result ≡ is_at_end self.now }
    {
        match self.state {
            RecvState::Recv(Some(size)) => self.assembler.bytes_read() == size,
            _ => false,
        }
    }
}

impl StopFrame {
    fn acked(self) -> StopFrame
        ensures { result ≡ acked_stop self }
    {
        StopFrame {
            code: self.code,
            mark: Mark::Acked,
        }
    }

    fn lost(self) -> StopFrame
        ensures { result ≡ lost_stop self }
    {
        StopFrame {
            code: self.code,
            mark: self.mark.lost(),
        }
    }
}

/// The STOP_SENDING frame of a stream that is stopped in this state, if the peer is to be told.
fn stop_frame(state: RecvState, code: VarInt) -> Option<StopFrame>
    ensures { result ≡ new_stop state code }
{
    match state {
        RecvState::Recv(None) => Some(StopFrame {
            code,
            mark: Mark::Queued,
        }),
        _ => None,
    }
}

/// Whether bytes up to an offset, or an end there, contradict the known end or the known bytes.
fn contradicts(known: Option<u64>, end: u64, to: u64, is_end: bool) -> bool
    ensures { result ≡ contradicts known end to is_end }
{
    match known {
        Some(size) => size < to || (is_end && to < size),
        None => is_end && to < end,
    }
}

/// The offset behind a piece, at most 2^64 - 1.
fn end_of(piece: &Chunk) -> u64
    ensures { result ≡ min (end_of piece.now) (2 ^ 64 - 1) }
{
    piece.offset.saturating_add(piece.bytes.len() as u64)
}

/// Keeps a piece if it is wanted.
fn keep(assembler: &mut Assembler, is_wanted: bool, piece: Chunk) -> Result<(), Memory>
    requires { end_of piece < 2 ^ 62 }
    ensures wanted { OnOk result (is_wanted ≡ true → IsInserted assembler.old assembler.new piece) }
    ensures dropped { OnOk result (is_wanted ≡ false → assembler.new ≡ assembler.old) }
    ensures free { is_wanted ≡ false → IsOk result }
    ensures err { OnErr result (assembler.new ≡ assembler.old) }
{
    if !is_wanted {
        return Ok(());
    }
    assembler.insert(piece.offset, piece.bytes)
}

/// A piece without a byte.
fn no_bytes() -> Chunk
    ensures { length result.bytes ≡ 0 }
{
    Chunk {
        offset: 0,
        bytes: Bytes::new(),
    }
}
