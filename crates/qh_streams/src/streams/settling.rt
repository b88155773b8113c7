ghost use Rattle.std.specs.Prelude.{◌≡◌, true, false};
ghost use Rattle.qh_streams.specs.declared.frames.SentFrame.TheVariants.{Stream, ResetStream, MaxStreams};
ghost use Rattle.qh_half.specs.declared.send.ResetFrame.{ResetFrame as Reset};
ghost use Rattle.qh_streams.specs.Streams.{IsOut, IsLostFrame, IsAckedFrame, IsSettledFrame, AreAllOut, AreAcked, AreLost, KeepsOut, counts_of, with_counts, is_two_way};

use crate::{Outgoing, SentFrame, StreamEvent, Streams};
use qh_base::{Dir, StreamId, VarInt};
use qh_halves::AnnouncedLimit;

impl Streams {
    /// A frame is lost: what of it isn't acknowledged waits to be sent again, bytes as they were, limits with the value of
    /// then.
    pub fn lost(&mut self, frame: SentFrame)
        requires { IsOut self.old frame }
        ensures lost { IsLostFrame self.old self.new frame }
        ensures keeps_out { KeepsOut self.old self.new }
    {
        self.lose(&frame);
    }

    /// Queues again what `lost` would. The frame stays out. Answers whether something of it is still to be acknowledged.
    pub fn again(&mut self, frame: &SentFrame) -> bool
        requires { IsOut self.old frame.now }
        ensures lost { IsLostFrame self.old self.new frame.now }
        ensures some { result ≡ true → IsSettledFrame self.old frame.now → ⊥ }
        ensures none { result ≡ false → IsSettledFrame self.old frame.now }
        ensures keeps_out { KeepsOut self.old self.new }
    {
        let owes = self.owes(frame);
        self.lose(frame);
        owes
    }

    // What of a frame isn't acknowledged waits to be sent again.
    pub(super) fn lose(&mut self, frame: &SentFrame)
        requires { IsOut self.old frame.now }
        ensures lost { IsLostFrame self.old self.new frame.now }
        ensures keeps_out { KeepsOut self.old self.new }
    {
        match frame {
            SentFrame::Stream { id, piece } => self.send.retransmit(id.0, piece),
            SentFrame::ResetStream { id, .. } => self.send.lose_reset(id.0),
            SentFrame::StopSending { id, .. } => self.recv.lose_stop(id.0),
            SentFrame::MaxData(limit) => self.recv.lose_max_data(*limit),
            SentFrame::MaxStreamData { id, limit } => self.recv.lose_max_stream_data(id.0, *limit),
            SentFrame::MaxStreams { dir, count } => self.lose_max_streams(*dir, *count),
        }
    }

    // Whether something of a frame is still to be acknowledged.
    fn owes(&self, frame: &SentFrame) -> bool
        requires { IsOut self.now frame.now }
        ensures some { result ≡ true → IsSettledFrame self.now frame.now → ⊥ }
        ensures none { result ≡ false → IsSettledFrame self.now frame.now }
    {
        match frame {
            SentFrame::Stream { id, piece } => self.send.owes(id.0, piece),
            SentFrame::ResetStream { id, .. } => self.send.owes_reset(id.0),
            SentFrame::StopSending { id, .. } => self.recv.owes_stop(id.0),
            SentFrame::MaxData(limit) => self.recv.owes_max_data(*limit),
            SentFrame::MaxStreamData { id, limit } => self.recv.owes_max_stream_data(id.0, *limit),
            SentFrame::MaxStreams { dir, count } => {
                self.counts(*dir).announced.owes(count.into_inner())
            }
        }
    }

    /// A frame is acknowledged: nothing of it is sent again. A stream whose end and all bytes are acknowledged is told by
    /// `Finished`.
    pub fn acked(&mut self, frame: SentFrame)
        requires { IsOut self.old frame }
        ensures acked { IsAckedFrame self.old self.new frame }
        ensures keeps_out { KeepsOut self.old self.new }
    {
        match frame {
            SentFrame::Stream { id, piece } => self.acked_stream(id, piece),
            SentFrame::ResetStream { id, .. } => self.acked_reset(id),
            SentFrame::StopSending { id, .. } => self.recv.ack_stop(id.0),
            SentFrame::MaxData(limit) => self.recv.ack_max_data(limit),
            SentFrame::MaxStreamData { id, limit } => self.recv.ack_max_stream_data(id.0, limit),
            SentFrame::MaxStreams { dir, count } => self.acked_max_streams(dir, count),
        }
    }

    // A STREAM frame is acknowledged.
    fn acked_stream(&mut self, id: StreamId, piece: Outgoing)
        requires { IsOut self.old (Stream id piece) }
        ensures acked { IsAckedFrame self.old self.new (Stream id piece) }
        ensures keeps_out { KeepsOut self.old self.new }
    {
        let was_live = self.is_live_of_peer(id);
        if self.send.ack(id.0, piece) {
            let _ = self.events.push_back(StreamEvent::Finished { id });
        }
        self.count_closed(id, was_live);
    }

    // A RESET_STREAM frame is acknowledged.
    fn acked_reset(&mut self, id: StreamId)
        ensures acked { (reset : Reset) → IsAckedFrame self.old self.new (ResetStream id reset) }
        ensures keeps_out { KeepsOut self.old self.new }
    {
        let was_live = self.is_live(id);
        let _ = self.send.ack_reset(id.0);
        self.count_closed(id, was_live);
    }

    // A MAX_STREAMS frame is acknowledged.
    fn acked_max_streams(&mut self, dir: Dir, count: VarInt)
        ensures acked { IsAckedFrame self.old self.new (MaxStreams dir count) }
        ensures keeps_out { KeepsOut self.old self.new }
    {
        let announced = self.counts(dir).announced;
        self.set_announced(dir, announced.acked(count.into_inner()));
    }

    // A MAX_STREAMS frame is lost.
    fn lose_max_streams(&mut self, dir: Dir, count: VarInt)
        ensures lost { IsLostFrame self.old self.new (MaxStreams dir count) }
        ensures keeps_out { KeepsOut self.old self.new }
    {
        let announced = self.counts(dir).announced;
        self.set_announced(dir, announced.lost(count.into_inner()));
    }

    // Notes what was done with the last MAX_STREAMS frame of a direction.
    fn set_announced(&mut self, dir: Dir, announced: AnnouncedLimit)
        requires { announced.value ≡ (counts_of self.old (is_two_way dir)).announced.value }
        ensures value { self.new ≡ with_counts self.old (is_two_way dir) (record (counts_of self.old (is_two_way dir)) { announced = announced }) }
        ensures keeps_out { KeepsOut self.old self.new }
    {
        match dir {
            Dir::Bi => self.bi.announced = announced,
            Dir::Uni => self.uni.announced = announced,
        }
    }

    /// Frames are lost, as by `lost`.
    pub fn lost_all(&mut self, frames: Vec<SentFrame>)
        requires { AreAllOut self.old frames.items }
        ensures lost { AreLost self.old self.new frames.items }
        ensures keeps_out { KeepsOut self.old self.new }
    {
        for frame in frames {
            self.lost(frame);
        }
    }
}
