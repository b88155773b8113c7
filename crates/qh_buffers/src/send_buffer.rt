ghost use Rattle.std.specs.Prelude.{◌≡◌, ◌⊎◌, ℕ, ◌+◌, ◌<◌, ◌≤◌, ◌^◌, ◌++◌, ◌==◌, List, length, Option, Some, None, true, false, OnOk, OnErr, IfOk, MatchOption};
ghost use Rattle.qh_buffers.specs.SendBuffer.{PlainSendBuffer, empty_buffer, taken_to, sent_to, is_acked, is_queued, lost_mark, bytes_between, IsSpan, IsHandedOut, IsQueuedAgain, IsAcknowledged};
ghost use Rattle.qh_buffers.specs.SendState.{marked, first_queued};

mod pieces;
mod segments;

use bytes::Bytes;
use qh_base::Memory;
use segments::Segment;
use std::alloc::Global;
use std::collections::VecDeque;
use std::marker::Model;
use std::ops::Range;

/// What was done with a piece of a stream.
#[derive(Clone, Copy, PartialEq, Eq)]
pub enum Mark {
    /// It was sent, and nothing is known of it yet.
    Sent,
    /// It is to be sent again.
    Queued,
    /// It is acknowledged.
    Acked,
}

impl Mark {
    // The mark that this one changes to. An acknowledged byte stays so.
    fn marked(self, to: Mark) -> Mark
        ensures { result ≡ marked to self }
    {
        match self {
            Mark::Acked => Mark::Acked,
            _ => to,
        }
    }

    /// The mark of what is lost: what was sent is to be sent again, where it isn't acknowledged.
    pub fn lost(self) -> Mark
        ensures { result ≡ lost_mark self }
    {
        match self {
            Mark::Sent => Mark::Queued,
            other => other,
        }
    }
}

/// Bytes that were sent together, up to an offset.
#[derive(Clone, Copy)]
pub struct Piece {
    /// The offset behind the last of them. They begin where the piece before them ends.
    pub end: u64,
    /// What was done with them.
    pub mark: Mark,
}

/// The bytes that were taken of a stream's writer and aren't all acknowledged.
#[derive(Drop)]
pub struct SendBuffer {
    // All bytes before this offset are acknowledged.
    start: u64,
    // The offset behind the last byte that was taken.
    end: u64,
    // The bytes from `start` on as they came. The first segment may begin before.
    segments: VecDeque<Segment>,
    // What was sent from `start` on, side by side.
    pieces: VecDeque<Piece>,
    // The place of the first piece that is to be sent again, or how many pieces there are.
    resend_from: usize,
}

impl Model for SendBuffer {
    ghost use Rattle.qh_buffers.specs.SendBuffer.{PlainSendBuffer};
    ghost use Rattle.qh_buffers.specs.SendState.{held, Keeps};

    ghost Value = { PlainSendBuffer };

    ghost view = { λ s. record { start = s.start; bytes = held s.start s.segments.items; pieces = s.pieces.items } };

    ghost invariant = { λ s. Keeps s.start s.end s.segments.items s.pieces.items s.resend_from };
}

impl SendBuffer {
    /// No byte was taken yet.
    pub fn new(alloc: Global) -> SendBuffer
        ensures { result ≡ empty_buffer }
    {
        SendBuffer {
            start: 0,
            end: 0,
            segments: VecDeque::new(alloc),
            pieces: VecDeque::new(alloc),
            resend_from: 0,
        }
    }

    /// The offset behind the last byte that was taken.
    pub fn offset(&self) -> u64
        ensures { result ≡ taken_to self.now }
    {
        self.end
    }

    /// How many bytes are held: those from the first that isn't acknowledged on.
    pub fn unacked(&self) -> u64
        ensures { result ≡ length self.now.bytes }
    {
        self.end - self.start
    }

    /// Whether all bytes that were taken are acknowledged.
    pub fn is_fully_acked(&self) -> bool
        ensures { result ≡ (length self.now.bytes == 0) }
    {
        self.end == self.start
    }

    /// Whether a byte waits to be sent, for the first time or again.
    pub fn has_unsent_data(&self) -> bool
        ensures some { result ≡ true → (k : ℕ) × (is_queued self.now k ≡ true) }
        ensures none { result ≡ false → (k : ℕ) → is_queued self.now k ≡ false }
    {
        self.resend_from < self.pieces.len() || self.sent_to() < self.end
    }

    // The offset behind the last byte that was sent.
    fn sent_to(&self) -> u64
        ensures { result ≡ sent_to self.now }
    {
        pieces::begin_of(self.start, &self.pieces, self.pieces.len())
    }

    /// Takes bytes of the writer.
    pub fn write(&mut self, payload: Bytes) -> Result<(), Memory>
        requires { taken_to self.old + length payload < 2 ^ 62 }
        ensures ok { OnOk result (self.new ≡ record self.old { bytes = self.old.bytes ++ payload }) }
        ensures err { OnErr result (self.new ≡ self.old) }
    {
        if payload.is_empty() {
            return Ok(());
        }
        let end = self.end + payload.len() as u64;
        self.segments.push_back(Segment {
            end,
            bytes: payload,
        })?;
        self.end = end;
        Ok(())
    }

    /// The offsets of the bytes that are to be sent next, at most as many as are asked for; None where none waits. They count as sent.
    pub fn poll_transmit(&mut self, max_len: usize) -> Result<Option<Range<u64>>, Memory>
        requires { 0 < max_len }
        ensures none { IfOk result (λ o. o ≡ None → (self.new ≡ self.old) × ((k : ℕ) → is_queued self.old k ≡ false)) }
        ensures some { IfOk result (λ o. MatchOption o (Unit {0}) (λ r. IsHandedOut self.old self.new max_len r.start r.end)) }
        ensures err { OnErr result (self.new ≡ self.old) }
    {
        if self.resend_from < self.pieces.len() {
            let offsets = self.send_lost(max_len)?;
            return Ok(Some(offsets));
        }
        if self.sent_to() == self.end {
            return Ok(None);
        }
        let offsets = self.send_new(max_len)?;
        Ok(Some(offsets))
    }

    // Hands out the first piece that is to be sent again, or as much of it as there is room for.
    fn send_lost(&mut self, max_len: usize) -> Result<Range<u64>, Memory>
        requires room { 0 < max_len }
        requires some { first_queued self.old.pieces < length self.old.pieces }
        ensures ok { IfOk result (λ r. IsHandedOut self.old self.new max_len r.start r.end) }
        ensures err { OnErr result (self.new ≡ self.old) }
    {
        let place = self.resend_from;
        let start = pieces::begin_of(self.start, &self.pieces, place);
        let len = self.pieces[place].end - start;
        let end = start + len.min(max_len as u64);
        pieces::send_again(&mut self.pieces, place, end)?;
        self.resend_from = pieces::next_queued(&self.pieces, place + 1);
        Ok(start..end)
    }

    // Hands out bytes that were never sent, as many as there is room for.
    fn send_new(&mut self, max_len: usize) -> Result<Range<u64>, Memory>
        requires room { 0 < max_len }
        requires none { first_queued self.old.pieces ≡ length self.old.pieces }
        requires some { sent_to self.old < taken_to self.old }
        ensures ok { IfOk result (λ r. IsHandedOut self.old self.new max_len r.start r.end) }
        ensures err { OnErr result (self.new ≡ self.old) }
    {
        let start = self.sent_to();
        let end = start + (self.end - start).min(max_len as u64);
        self.pieces.push_back(Piece {
            end,
            mark: Mark::Sent,
        })?;
        self.resend_from += 1;
        Ok(start..end)
    }

    /// Appends the bytes between two offsets.
    pub fn put(&self, offsets: Range<u64>, out: &mut Vec<u8>) -> Result<(), Memory>
        requires { (self.now.start ≤ offsets.start) × (offsets.start ≤ offsets.end) × (offsets.end ≤ taken_to self.now) }
        ensures ok { OnOk result (out.new.items ≡ out.old.items ++ bytes_between self.now offsets.start offsets.end) }
        ensures err { OnErr result (out.new.items ≡ out.old.items) }
    {
        segments::put(&self.segments, offsets.start, offsets.end, out)
    }

    /// Whether some byte of a span isn't acknowledged.
    pub fn owes(&self, offsets: Range<u64>) -> bool
        requires { IsSpan self.now offsets.start offsets.end }
        ensures some { result ≡ true → (k : ℕ) × (offsets.start ≤ k) × (k < offsets.end) × (is_acked self.now k ≡ false) }
        ensures none { result ≡ false → (k : ℕ) → offsets.start ≤ k → k < offsets.end → is_acked self.now k ≡ true }
    {
        pieces::owes(&self.pieces, offsets.start, offsets.end)
    }

    /// The bytes of a span are acknowledged.
    pub fn ack(&mut self, offsets: Range<u64>)
        requires { IsSpan self.old offsets.start offsets.end }
        ensures { IsAcknowledged self.old self.new offsets.start offsets.end }
    {
        let before = self.pieces.len();
        pieces::mark_between(&mut self.pieces, offsets.start, offsets.end, Mark::Acked);
        self.start = pieces::let_go(&mut self.pieces, self.start);
        segments::let_go(&mut self.segments, self.start);
        let gone = before - self.pieces.len();
        self.resend_from = pieces::next_queued(&self.pieces, self.resend_from.saturating_sub(gone));
    }

    /// The bytes of a span are to be sent again, but those that are acknowledged.
    pub fn retransmit(&mut self, offsets: Range<u64>)
        requires { IsSpan self.old offsets.start offsets.end }
        ensures { IsQueuedAgain self.old self.new offsets.start offsets.end }
    {
        // With one piece that is queued the search for the next stays within the span.
        if !pieces::owes(&self.pieces, offsets.start, offsets.end) {
            return;
        }
        let first = pieces::mark_between(
            &mut self.pieces,
            offsets.start,
            offsets.end,
            Mark::Queued,
        );
        self.resend_from = pieces::next_queued(&self.pieces, self.resend_from.min(first));
    }
}
