ghost use Rattle.std.specs.Prelude.{◌≡◌, ◌⊎◌, ℕ, ◌+◌, ◌<◌, ◌≤◌, ◌^◌, ◌++◌, ◌==◌, ◌↔◌, min, max as max_of, List, length, take, Option, Some, None, true, false, OnOk, OnErr, IfOk, IfErr, MatchOption, MatchResult, drop, IfSome, IsTrue, if◌then◌else◌};
ghost use Rattle.std.specs.List.{concat};
ghost use Rattle.qh_buffers.specs.SendBuffer.{taken_to, is_queued, bytes_between, IsSpan};
ghost use Rattle.qh_half.specs.declared.send.SendState.TheVariants.{Ready, DataSent, ResetSent};
ghost use Rattle.qh_buffers.specs.declared.send_buffer.Mark.TheVariants.{Sent, Queued, Acked};
ghost use Rattle.qh_half.specs.Send.{is_blocked_fault, PlainSend, is_done, is_ready, is_finished, is_end_queued, is_end_acked, is_reset_refused, credit, write_fault, IsWriteFault, with_bytes, finish_fault, is_reset, is_reset_queued, IsPending, IsPieceOut, IsEndOut, IsPieceAcked, IsPieceQueued, IsSettled, with_end_sent, with_end_acked, with_end_lost, with_reset_mark, with_reset_lost, chunks_after, whole_chunks, new_send, owes_reset, held, Waits, is_writable, IsHeld};

mod chunks;

use crate::{ClosedStream, FinishFault, WriteFault};
use bytes::Bytes;
use qh_base::{Memory, VarInt};
use qh_buffers::{Mark, SendBuffer};
use std::alloc::Global;
use std::marker::Model;
use std::ops::Range;

/// What a sending half does (RFC 9000, section 3.1).
#[derive(Clone, Copy)]
pub enum SendState {
    /// It takes bytes.
    Ready,
    /// It was finished. The mark is that of its end.
    DataSent(Mark),
    /// It was reset, with this code. The mark is that of the RESET_STREAM frame.
    ResetSent(VarInt, Mark),
}

impl SendState {
    // It takes bytes.
    fn is_ready(self) -> bool
        ensures { result ≡ is_ready self }
    {
        match self {
            SendState::Ready => true,
            _ => false,
        }
    }

    // It was reset.
    fn is_reset(self) -> bool
        ensures { result ≡ is_reset self }
    {
        match self {
            SendState::ResetSent(..) => true,
            _ => false,
        }
    }

    // It was finished.
    fn is_finished(self) -> bool
        ensures { result ≡ is_finished self }
    {
        match self {
            SendState::DataSent(_) => true,
            _ => false,
        }
    }

    // The end waits to be sent.
    fn is_end_queued(self) -> bool
        ensures { result ≡ is_end_queued self }
    {
        match self {
            SendState::DataSent(Mark::Queued) => true,
            _ => false,
        }
    }

    // The end is acknowledged.
    fn is_end_acked(self) -> bool
        ensures { result ≡ is_end_acked self }
    {
        match self {
            SendState::DataSent(Mark::Acked) => true,
            _ => false,
        }
    }

    // The state once the end went out, if it did.
    fn with_end_sent(self, fin: bool) -> SendState
        ensures { result ≡ (if fin then with_end_sent self else self) }
    {
        match self {
            SendState::DataSent(Mark::Queued) if fin => SendState::DataSent(Mark::Sent),
            _ => self,
        }
    }

    // The state once the end is acknowledged, if it is.
    fn with_end_acked(self, fin: bool) -> SendState
        ensures { result ≡ (if fin then with_end_acked self else self) }
    {
        match self {
            SendState::DataSent(_) if fin => SendState::DataSent(Mark::Acked),
            _ => self,
        }
    }

    // The state once the end is lost, if it is.
    fn with_end_lost(self, fin: bool) -> SendState
        ensures { result ≡ (if fin then with_end_lost self else self) }
    {
        match self {
            SendState::DataSent(Mark::Sent) if fin => SendState::DataSent(Mark::Queued),
            _ => self,
        }
    }

    // The state once the RESET_STREAM frame has another mark.
    fn with_reset_mark(self, mark: Mark) -> SendState
        ensures { result ≡ with_reset_mark mark self }
    {
        match self {
            SendState::ResetSent(code, _) => SendState::ResetSent(code, mark),
            _ => self,
        }
    }

    // The state once the RESET_STREAM frame is lost.
    fn with_reset_lost(self) -> SendState
        ensures { result ≡ with_reset_lost self }
    {
        match self {
            SendState::ResetSent(code, mark) => SendState::ResetSent(code, mark.lost()),
            _ => self,
        }
    }

    // The code of a RESET_STREAM frame that waits to be sent.
    fn queued_reset(self) -> Option<VarInt>
        ensures some { IfSome result (λ code. self ≡ ResetSent code Queued) }
        ensures none { result ≡ None → is_reset_queued self ≡ false }
    {
        match self {
            SendState::ResetSent(code, mark) => match mark {
                Mark::Queued => Some(code),
                _ => None,
            },
            _ => None,
        }
    }
}

impl From<Memory> for WriteFault {
    ghost use Rattle.std.specs.Prelude.{◌≡◌};
    ghost use Rattle.qh_half.specs.declared.fault.WriteFault.TheVariants.{Memory as Wanting};

    ghost from_gives = { λ _ e. e ≡ Wanting };

    fn from(_: Memory) -> WriteFault {
        WriteFault::Memory
    }
}

/// What is handed out to be sent in one STREAM frame: the offsets of the bytes, and whether the stream ends with them.
#[derive(Clone, Drop)]
pub struct Outgoing {
    /// The offsets of the bytes.
    pub offsets: Range<u64>,
    /// The stream ends with them.
    pub fin: bool,
}

/// What was taken of chunks.
#[derive(Clone, Copy)]
pub struct Written {
    /// How many bytes were taken.
    pub bytes: usize,
    /// How many chunks were taken whole, empty ones among and right behind them counted.
    pub chunks: usize,
}

/// What a RESET_STREAM frame says beside the stream (RFC 9000, section 19.4).
#[derive(Clone, Copy)]
pub struct ResetFrame {
    /// The application's code.
    pub code: VarInt,
    /// How many bytes were taken of the stream.
    pub final_size: VarInt,
}

/// The sending half of a stream.
#[derive(Drop)]
pub struct Send {
    pending: SendBuffer,
    max_data: u64,
    state: SendState,
    stop_reason: Option<VarInt>,
    priority: i32,
}

impl Model for Send {
    ghost use Rattle.qh_half.specs.Send.{PlainSend};

    ghost Value = { PlainSend };

    ghost view = { λ s. record { buffer = s.pending; max_data = s.max_data; state = s.state; stop_reason = s.stop_reason; priority = s.priority } };

    ghost use Rattle.std.specs.Prelude.{◌<◌, ◌≤◌, ◌^◌};
    ghost use Rattle.qh_buffers.specs.SendBuffer.{taken_to};
    ghost use Rattle.qh_half.specs.Send.{IsSentAsTaken};

    // what was taken lies within the peer's limit, and what was sent within what was taken
    ghost invariant = { λ s. (s.max_data < 2 ^ 62) × (taken_to s.pending ≤ s.max_data) × IsSentAsTaken s.pending };
}

impl Send {
    /// A half that takes bytes up to the peer's limit.
    pub fn new(alloc: Global, max_data: VarInt) -> Send
        ensures { result ≡ new_send max_data }
    {
        Send {
            pending: SendBuffer::new(alloc),
            max_data: max_data.into_inner(),
            state: SendState::Ready,
            stop_reason: None,
            priority: 0,
        }
    }

    /// The offset behind the last byte that was taken.
    pub fn offset(&self) -> u64
        ensures { result ≡ taken_to self.now.buffer }
    {
        self.pending.offset()
    }

    /// Whether its end is acknowledged.
    pub fn is_end_acked(&self) -> bool
        ensures { result ≡ is_end_acked self.now.state }
    {
        self.state.is_end_acked()
    }

    /// How many bytes were taken and are held: those from the first that isn't acknowledged on.
    pub fn unacked(&self) -> u64
        ensures { result ≡ length self.now.buffer.bytes }
    {
        self.pending.unacked()
    }

    /// Its reset, or its end and all its bytes, are acknowledged.
    pub fn is_done(&self) -> bool
        ensures { result ≡ is_done self.now }
    {
        match self.state {
            SendState::DataSent(Mark::Acked) => self.pending.is_fully_acked(),
            SendState::ResetSent(_, Mark::Acked) => true,
            _ => false,
        }
    }

    /// Whether a write waits, if all streams may take so many bytes more: it is neither refused nor is a byte permitted.
    pub fn is_blocked(&self, limit: u64) -> bool
        ensures { result ≡ is_blocked_fault (write_fault self.now limit) }
    {
        matches!(self.budget(limit), Err(WriteFault::Blocked))
    }

    // How many bytes may be taken now.
    fn budget(&self, limit: u64) -> Result<u64, WriteFault>
        ensures ok { IfOk result (λ n. (n ≡ credit self.now limit) × (write_fault self.now limit ≡ None)) }
        ensures fault { IfErr result (λ e. write_fault self.now limit ≡ Some e) }
    {
        if !self.state.is_ready() {
            return Err(WriteFault::ClosedStream);
        }
        if let Some(code) = self.stop_reason {
            return Err(WriteFault::Stopped(code));
        }
        let budget = limit.min(self.max_data - self.pending.offset());
        if budget == 0 {
            return Err(WriteFault::Blocked);
        }
        Ok(budget)
    }

    // Takes these bytes.
    fn take(&mut self, alloc: Global, payload: &[u8]) -> Result<(), Memory>
        requires { taken_to self.old.buffer + length payload.now ≤ self.old.max_data }
        ensures ok { OnOk result (self.new ≡ with_bytes self.old payload.now) }
        ensures err { OnErr result (self.new ≡ self.old) }
    {
        let bytes = Bytes::copy_from_slice(alloc, payload)?;
        self.pending.write(bytes)
    }

    /// Takes the first bytes, as many as the stream's limit and this one permit. If no byte may be taken it answers
    /// ClosedStream, Stopped or Blocked, the first that fits; if the allocator has no memory, Memory. Then nothing changes.
    pub fn write(&mut self, alloc: Global, payload: &[u8], limit: u64) -> Result<usize, WriteFault>
        ensures ok { IfOk result (λ n. (n ≡ min (length payload.now) (credit self.old limit)) × (self.new ≡ with_bytes self.old (take n payload.now))) }
        ensures open { IfOk result (λ n. write_fault self.old limit ≡ None) }
        ensures fault { IfErr result (λ e. IsWriteFault e (write_fault self.old limit)) }
        ensures err { OnErr result (self.new ≡ self.old) }
    {
        let budget = self.budget(limit)?;
        let count = budget.min(payload.len() as u64) as usize;
        self.take(alloc, &payload[..count])?;
        Ok(count)
    }

    // Takes the first `budget` bytes of chunks, or all if they have fewer.
    fn take_front(&mut self, alloc: Global, chunks: &[Bytes], budget: u64) -> Result<usize, Memory>
        requires { taken_to self.old.buffer + budget ≤ self.old.max_data }
        ensures ok { IfOk result (λ n. (n ≡ min (length (concat chunks.now)) budget) × (self.new ≡ with_bytes self.old (take n (concat chunks.now)))) }
        ensures err { OnErr result (self.new ≡ self.old) }
    {
        let front = chunks::front(alloc, chunks, budget as usize)?;
        let count = front.len();
        self.pending.write(front)?;
        Ok(count)
    }

    /// Takes the first bytes of chunks, as many as the stream's limit and this one permit, and leaves the rest in them: a
    /// chunk that was taken whole is left empty. Refuses as `write` does. If the allocator has no memory the chunks are
    /// left as they were.
    pub fn write_chunks(
        &mut self,
        alloc: Global,
        chunks: &mut [Bytes],
        limit: u64,
    ) -> Result<Written, WriteFault>
        ensures bytes { IfOk result (λ w. w.bytes ≡ min (length (concat chunks.old)) (credit self.old limit)) }
        ensures taken { IfOk result (λ w. self.new ≡ with_bytes self.old (take w.bytes (concat chunks.old))) }
        ensures left { IfOk result (λ w. concat chunks.new ≡ drop w.bytes (concat chunks.old)) }
        ensures chunks { IfOk result (λ w. (chunks.new ≡ chunks_after w.bytes chunks.old) × (w.chunks ≡ whole_chunks w.bytes chunks.old)) }
        ensures open { IfOk result (λ w. write_fault self.old limit ≡ None) }
        ensures fault { IfErr result (λ e. IsWriteFault e (write_fault self.old limit)) }
        ensures err { OnErr result ((self.new ≡ self.old) × (chunks.new ≡ chunks.old)) }
    {
        let budget = self.budget(limit)?;
        let bytes = self.take_front(alloc, chunks, budget)?;
        let whole = chunks::drop_front(chunks, bytes);
        Ok(Written {
            bytes,
            chunks: whole,
        })
    }

    /// No bytes come after those that were taken: the end goes out with the last of them, or alone.
    pub fn finish(&mut self) -> Result<(), FinishFault>
        ensures ok { OnOk result ((finish_fault self.old ≡ None) × (self.new ≡ record self.old { state = DataSent Queued })) }
        ensures fault { IfErr result (λ e. (finish_fault self.old ≡ Some e) × (self.new ≡ self.old)) }
    {
        if let Some(code) = self.stop_reason {
            return Err(FinishFault::Stopped(code));
        }
        if !self.state.is_ready() {
            return Err(FinishFault::ClosedStream);
        }
        self.state = SendState::DataSent(Mark::Queued);
        Ok(())
    }

    /// Resets the stream with this code: what waits isn't sent.
    pub fn reset(&mut self, code: VarInt) -> Result<(), ClosedStream>
        ensures ok { OnOk result ((is_reset_refused self.old ≡ false) × (self.new ≡ record self.old { state = ResetSent code Queued })) }
        ensures fault { OnErr result ((is_reset_refused self.old ≡ true) × (self.new ≡ self.old)) }
    {
        if self.state.is_reset() || self.is_done() {
            return Err(ClosedStream);
        }
        self.state = SendState::ResetSent(code, Mark::Queued);
        Ok(())
    }

    /// Whether the peer asked to stop, and with which code.
    pub fn stopped(&self) -> Result<Option<VarInt>, ClosedStream>
        ensures { MatchResult result (λ code. (is_done self.now ≡ false) × (code ≡ self.now.stop_reason)) (λ e. is_done self.now ≡ true) }
    {
        if self.is_done() {
            return Err(ClosedStream);
        }
        Ok(self.stop_reason)
    }

    /// The peer asks to stop. Answers whether it is the first time: a later code is dropped.
    pub fn try_stop(&mut self, code: VarInt) -> bool
        ensures first { result ≡ true → (self.old.stop_reason ≡ None) × (self.new ≡ record self.old { stop_reason = Some code }) }
        ensures again { result ≡ false → (self.new ≡ self.old) × ((self.old.stop_reason ≡ None) → ⊥) }
    {
        if self.stop_reason.is_some() {
            return false;
        }
        self.stop_reason = Some(code);
        true
    }

    /// The peer's limit rises. Answers whether bytes may be written again that were blocked by it.
    pub fn increase_max_data(&mut self, max: VarInt) -> bool
        ensures value { self.new ≡ record self.old { max_data = max_of self.old.max_data max } }
        ensures unblocked { IsTrue result ↔ (self.old.max_data < max) × (taken_to self.old.buffer ≡ self.old.max_data) × (self.old.state ≡ Ready) }
    {
        let is_unblocked = self.is_unblocked_by(max);
        self.max_data = self.max_data.max(max.into_inner());
        is_unblocked
    }

    /// Whether this limit of the peer permits bytes again that the one before forbade.
    pub fn is_unblocked_by(&self, max: VarInt) -> bool
        ensures { IsTrue result ↔ (self.now.max_data < max) × (taken_to self.now.buffer ≡ self.now.max_data) × (self.now.state ≡ Ready) }
    {
        let is_blocked = self.pending.offset() == self.max_data && self.state.is_ready();
        is_blocked && self.max_data < max.into_inner()
    }

    /// What is to be sent next, at most `max_len` bytes; None if nothing waits. It counts as sent. Bytes come first, and the
    /// end goes with those that reach it, or alone if no byte waits.
    pub fn poll_transmit(&mut self, max_len: usize) -> Result<Option<Outgoing>, Memory>
        requires { 0 < max_len }
        ensures none { IfOk result (λ o. o ≡ None → (self.new ≡ self.old) × (IsPending self.old → ⊥)) }
        ensures some { IfOk result (λ o. MatchOption o (Unit {0}) (λ out. IsPieceOut self.old self.new max_len out.offsets.start out.offsets.end out.fin
            ⊎ IsEndOut self.old self.new out.offsets.start out.offsets.end out.fin)) }
        ensures bound { IfOk result (λ o. IfSome o (λ out. out.offsets.end < 2 ^ 62)) }
        ensures held { IfOk result (λ o. IfSome o (λ out. IsHeld self.new.buffer out.offsets.start out.offsets.end)) }
        ensures err { OnErr result (self.new ≡ self.old) }
    {
        if self.state.is_reset() {
            return Ok(None);
        }
        if let Some(offsets) = self.pending.poll_transmit(max_len)? {
            let fin = self.state.is_finished() && offsets.end == self.pending.offset();
            self.state = self.state.with_end_sent(fin);
            return Ok(Some(Outgoing { offsets, fin }));
        }
        if !self.state.is_end_queued() {
            return Ok(None);
        }
        Ok(Some(self.send_end()))
    }

    // Hands out the end alone.
    fn send_end(&mut self) -> Outgoing
        requires none { (k : ℕ) → is_queued self.old.buffer k ≡ false }
        requires queued { is_end_queued self.old.state ≡ true }
        ensures { IsEndOut self.old self.new result.offsets.start result.offsets.end result.fin }
    {
        let end = self.pending.offset();
        self.state = SendState::DataSent(Mark::Sent);
        Outgoing {
            offsets: end..end,
            fin: true,
        }
    }

    /// A STREAM frame with these bytes is acknowledged. After a reset this changes nothing.
    pub fn ack(&mut self, frame: Outgoing)
        requires { is_reset self.old.state ≡ false → IsSpan self.old.buffer frame.offsets.start frame.offsets.end }
        ensures { IsPieceAcked self.old self.new frame.offsets.start frame.offsets.end frame.fin }
    {
        if self.state.is_reset() {
            return;
        }
        self.pending.ack(frame.offsets);
        self.state = self.state.with_end_acked(frame.fin);
    }

    /// A STREAM frame with these bytes is lost, or is to be sent again for another reason. After a reset this changes nothing.
    pub fn retransmit(&mut self, frame: &Outgoing)
        requires { is_reset self.old.state ≡ false → IsSpan self.old.buffer frame.now.offsets.start frame.now.offsets.end }
        ensures { IsPieceQueued self.old self.new frame.now.offsets.start frame.now.offsets.end frame.now.fin }
    {
        if self.state.is_reset() {
            return;
        }
        self.pending
            .retransmit(frame.offsets.start..frame.offsets.end);
        self.state = self.state.with_end_lost(frame.fin);
    }

    /// Whether something of a STREAM frame with these bytes is still to be acknowledged; nothing is after a reset.
    pub fn owes(&self, frame: &Outgoing) -> bool
        requires { is_reset self.now.state ≡ false → IsSpan self.now.buffer frame.now.offsets.start frame.now.offsets.end }
        ensures some { result ≡ true → IsSettled self.now frame.now.offsets.start frame.now.offsets.end frame.now.fin → ⊥ }
        ensures none { result ≡ false → IsSettled self.now frame.now.offsets.start frame.now.offsets.end frame.now.fin }
    {
        if self.state.is_reset() {
            return false;
        }
        if frame.fin && !self.state.is_end_acked() {
            return true;
        }
        self.pending.owes(frame.offsets.start..frame.offsets.end)
    }

    /// Appends the bytes at these offsets, which must be held.
    pub fn put(&self, offsets: Range<u64>, out: &mut Vec<u8>) -> Result<(), Memory>
        requires { IsHeld self.now.buffer offsets.start offsets.end }
        ensures ok { OnOk result (out.new.items ≡ out.old.items ++ bytes_between self.now.buffer offsets.start offsets.end) }
        ensures err { OnErr result (out.new.items ≡ out.old.items) }
    {
        self.pending.put(offsets, out)
    }

    /// Whether a byte or the end waits to be sent.
    pub fn is_pending(&self) -> bool
        ensures some { result ≡ true → IsPending self.now }
        ensures none { result ≡ false → IsPending self.now → ⊥ }
    {
        if self.state.is_reset() {
            return false;
        }
        self.pending.has_unsent_data() || self.state.is_end_queued()
    }

    /// The priority among the streams that wait to be sent, 0 at first. ClosedStream if the half is done.
    pub fn priority(&self) -> Result<i32, ClosedStream>
        ensures { MatchResult result (λ n. (is_done self.now ≡ false) × (n ≡ self.now.priority)) (λ e. is_done self.now ≡ true) }
    {
        if self.is_done() {
            return Err(ClosedStream);
        }
        Ok(self.priority)
    }

    /// The priority, whether the half is done or not.
    pub fn rank(&self) -> i32
        ensures { result ≡ self.now.priority }
    {
        self.priority
    }

    /// Sets the priority among the streams that wait to be sent. ClosedStream if the half is done.
    pub fn set_priority(&mut self, priority: i32) -> Result<(), ClosedStream>
        ensures ok { OnOk result ((is_done self.old ≡ false) × (self.new ≡ record self.old { priority = priority })) }
        ensures fault { OnErr result ((is_done self.old ≡ true) × (self.new ≡ self.old)) }
    {
        if self.is_done() {
            return Err(ClosedStream);
        }
        self.priority = priority;
        Ok(())
    }

    /// What the RESET_STREAM frame says that is to be sent; None if none waits. It counts as sent.
    pub fn reset_frame(&mut self) -> Option<ResetFrame>
        ensures some { IfSome result (λ f. (self.old.state ≡ ResetSent f.code Queued) × (f.final_size ≡ taken_to self.old.buffer) × (self.new ≡ record self.old { state = with_reset_mark Sent self.old.state })) }
        ensures none { result ≡ None → (is_reset_queued self.old.state ≡ false) × (self.new ≡ self.old) }
    {
        let code = self.state.queued_reset()?;
        let final_size = VarInt::from_u64(self.pending.offset()).unwrap();
        self.state = self.state.with_reset_mark(Mark::Sent);
        Some(ResetFrame { code, final_size })
    }

    /// The RESET_STREAM frame is acknowledged.
    pub fn ack_reset(&mut self)
        ensures { self.new ≡ record self.old { state = with_reset_mark Acked self.old.state } }
    {
        self.state = self.state.with_reset_mark(Mark::Acked);
    }

    /// The RESET_STREAM frame is lost: if it isn't acknowledged it waits again.
    pub fn lose_reset(&mut self)
        ensures { self.new ≡ record self.old { state = with_reset_lost self.old.state } }
    {
        self.state = self.state.with_reset_lost();
    }

    /// Whether a RESET_STREAM frame is still to be acknowledged.
    pub fn owes_reset(&self) -> bool
        ensures { result ≡ owes_reset self.now.state }
    {
        match self.state {
            SendState::ResetSent(_, Mark::Acked) => false,
            SendState::ResetSent(..) => true,
            _ => false,
        }
    }

    /// How many bytes it holds to send: none after a reset.
    pub fn held(&self) -> u64
        ensures { result ≡ held self.now }
    {
        if self.state.is_reset() {
            return 0;
        }
        self.pending.unacked()
    }

    /// Whether bytes, the end or a reset wait to be sent.
    pub fn waits(&self) -> bool
        ensures some { result ≡ true → Waits self.now }
        ensures none { result ≡ false → Waits self.now → ⊥ }
    {
        self.state.queued_reset().is_some() || self.is_pending()
    }

    /// Whether it takes bytes and its limit permits some.
    pub fn is_writable(&self) -> bool
        ensures { result ≡ is_writable self.now }
    {
        self.state.is_ready() && self.pending.offset() < self.max_data
    }
}
