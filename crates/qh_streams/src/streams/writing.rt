ghost use Rattle.std.specs.Prelude.{◌≡◌, ◌⊎◌, ◌+◌, ◌-◌, ◌<◌, ◌≤◌, ℕ, drop, length, reverse, take, OnErr, OnOk, IfOk, IfSome, None, true, false};
ghost use Rattle.qh_frame.specs.FrameBytes.{IsPut};
ghost use Rattle.qh_streams.specs.declared.frames.SentFrame.TheVariants.{Stream, MaxStreams};
ghost use Rattle.qh_streams.specs.declared.streams.writing.Phase.TheVariants as phases;
ghost use Rattle.qh_halves.specs.Counts.{count_limit};
ghost use Rattle.qh_halves.specs.Limit.{is_due};
ghost use Rattle.qh_streams.specs.Streams.{counts_of, is_two_way, IsOutHeld, IsHandedOver, IsIdle, IsOf, IsPhaseIdle, IsPhaseWritten, IsWrittenBy, IsOneWritten, IsCutShort, AreAllOut, AreLimitsWritten, AreLost, AreTakenBack, KeepsOut, written_frame, max_frame_header, payload_length};

use crate::{Outgoing, SentFrame, Streams};
use qh_base::{Dir, Memory, StreamId, VarInt};
use qh_frame::{
    put_max_data, put_max_stream_data, put_max_streams, put_reset_stream, put_stop_sending,
    put_stream_head,
};
use qh_halves::{AnnouncedLimit, StreamControl, StreamCounts, Transmission};

/// The greatest length of a frame's head: type, stream, offset and length (RFC 9000, section 19.8).
const MAX_FRAME_HEADER: usize = 25;

/// The most frames of single streams that go before STREAM frames.
const MOST_BEFORE: usize = 32;

/// Which frames are written.
#[derive(Clone, Copy)]
enum Phase {
    /// MAX_DATA.
    MaxData,
    /// MAX_STREAMS of a direction.
    MaxStreams(Dir),
    /// STOP_SENDING and MAX_STREAM_DATA: each speaks of a single stream.
    SingleStreams,
    /// STREAM and RESET_STREAM, by priority and then by id.
    Sending,
}

impl Streams {
    /// Appends frames that are due, as many as the room permits, and what was written in each: MAX_DATA and MAX_STREAMS, then at
    /// most 32 frames of single streams (STOP_SENDING, MAX_STREAM_DATA), then STREAM and RESET_STREAM frames by their stream's
    /// priority, the greater first, then by its id, then the frames of single streams that are left. It ends when nothing is
    /// left to be sent, or there is no room for a frame's head and one byte. With 600 bytes of room no kind of frame keeps
    /// another from being sent. `Memory` leaves both lists as they were; what was handed over waits again.
    pub fn write_frames(
        &mut self,
        room: usize,
        out: &mut Vec<u8>,
        sent: &mut Vec<SentFrame>,
    ) -> Result<(), Memory>
        ensures written { OnOk result (IsWrittenBy room self.old self.new out.old.items out.new.items sent.old.items sent.new.items) }
        ensures full { OnOk result (IsIdle self.new ⊎ (room < length out.new.items - length out.old.items + max_frame_header + 1)) }
        ensures err { OnErr result ((out.new.items ≡ out.old.items) × (sent.new.items ≡ sent.old.items) × AreTakenBack self.old self.new) }
        ensures out { AreAllOut self.old sent.old.items → AreAllOut self.new sent.new.items }
        ensures keeps_out { KeepsOut self.old self.new }
    {
        let start = out.len();
        let before = sent.len();
        let written = self.write_phases(room, out, sent);
        if written.is_err() {
            out.truncate(start);
            self.take_back(before, sent);
        }
        written
    }

    // The same; after want of memory frames that were handed over stand among those that were sent, and some of their bytes may
    // be written.
    fn write_phases(
        &mut self,
        room: usize,
        out: &mut Vec<u8>,
        sent: &mut Vec<SentFrame>,
    ) -> Result<(), Memory>
        ensures written { OnOk result (IsWrittenBy room self.old self.new out.old.items out.new.items sent.old.items sent.new.items) }
        ensures full { OnOk result (IsIdle self.new ⊎ (room < length out.new.items - length out.old.items + max_frame_header + 1)) }
        ensures cut { OnErr result (IsCutShort self.old self.new out.old.items out.new.items sent.old.items sent.new.items) }
        ensures out { OnOk result (AreAllOut self.old sent.old.items → AreAllOut self.new sent.new.items) }
        ensures keeps_out { KeepsOut self.old self.new }
    {
        let start = out.len();
        self.write_limits(room, out, sent)?;
        let left = room - (out.len() - start);
        self.write_due(Phase::SingleStreams, MOST_BEFORE, left, out, sent)?;
        let left = room - (out.len() - start);
        self.write_phase(Phase::Sending, left, left, out, sent)?;
        let left = room - (out.len() - start);
        self.write_due(Phase::SingleStreams, left, left, out, sent)
    }

    // Appends the frames of limits that all streams share, if they are due.
    fn write_limits(
        &mut self,
        room: usize,
        out: &mut Vec<u8>,
        sent: &mut Vec<SentFrame>,
    ) -> Result<(), Memory>
        ensures written { OnOk result (AreLimitsWritten room self.old self.new out.old.items out.new.items sent.old.items sent.new.items) }
        ensures grown { OnOk result ((length out.old.items ≤ length out.new.items) × (length out.new.items - length out.old.items ≤ room)) }
        ensures cut { OnErr result (IsCutShort self.old self.new out.old.items out.new.items sent.old.items sent.new.items) }
        ensures keeps_out { KeepsOut self.old self.new }
    {
        let start = out.len();
        self.write_due(Phase::MaxData, 1, room, out, sent)?;
        let left = room - (out.len() - start);
        self.write_due(Phase::MaxStreams(Dir::Bi), 1, left, out, sent)?;
        let left = room - (out.len() - start);
        self.write_due(Phase::MaxStreams(Dir::Uni), 1, left, out, sent)
    }

    // Appends frames of a phase, at most `most`. A phase of which none is due costs no more than to see that.
    fn write_due(
        &mut self,
        phase: Phase,
        most: usize,
        room: usize,
        out: &mut Vec<u8>,
        sent: &mut Vec<SentFrame>,
    ) -> Result<(), Memory>
        ensures written { OnOk result (IsPhaseWritten phase most room self.old self.new out.old.items out.new.items sent.old.items sent.new.items) }
        ensures grown { OnOk result ((length out.old.items ≤ length out.new.items) × (length out.new.items - length out.old.items ≤ room)) }
        ensures cut { OnErr result (IsCutShort self.old self.new out.old.items out.new.items sent.old.items sent.new.items) }
        ensures keeps_out { KeepsOut self.old self.new }
    {
        if !self.may_be_due(phase) {
            return Ok(());
        }
        self.write_phase(phase, most, room, out, sent)
    }

    // Appends frames of a phase, at most `most`.
    fn write_phase(
        &mut self,
        phase: Phase,
        most: usize,
        room: usize,
        out: &mut Vec<u8>,
        sent: &mut Vec<SentFrame>,
    ) -> Result<(), Memory>
        ensures written { OnOk result (IsPhaseWritten phase most room self.old self.new out.old.items out.new.items sent.old.items sent.new.items) }
        ensures grown { OnOk result ((length out.old.items ≤ length out.new.items) × (length out.new.items - length out.old.items ≤ room)) }
        ensures cut { OnErr result (IsCutShort self.old self.new out.old.items out.new.items sent.old.items sent.new.items) }
        ensures keeps_out { KeepsOut self.old self.new }
    {
        let start = out.len();
        let before = sent.len();
        while room - (out.len() - start) > MAX_FRAME_HEADER && sent.len() - before < most {
            if !self.write_frame(phase, room - (out.len() - start), out, sent)? {
                return Ok(());
            }
        }
        Ok(())
    }

    // Whether a frame of a phase may be due.
    fn may_be_due(&self, phase: Phase) -> bool
        ensures { result ≡ false → IsPhaseIdle phase self.now }
    {
        match phase {
            Phase::MaxData => self.recv.is_max_data_due(),
            Phase::MaxStreams(dir) => {
                let counts = self.counts(dir);
                counts.announced.is_due(counts.limit())
            }
            Phase::SingleStreams => self.recv.has_control(),
            Phase::Sending => true,
        }
    }

    // Appends the next frame of a phase; false if none is due.
    fn write_frame(
        &mut self,
        phase: Phase,
        room: usize,
        out: &mut Vec<u8>,
        sent: &mut Vec<SentFrame>,
    ) -> Result<bool, Memory>
        requires { max_frame_header < room }
        ensures written { IfOk result (λ b. b ≡ true → IsOneWritten phase room self.old self.new out.old.items out.new.items sent.old.items sent.new.items) }
        ensures idle { IfOk result (λ b. b ≡ false → IsPhaseIdle phase self.old × (self.new ≡ self.old) × (out.new.items ≡ out.old.items) × (sent.new.items ≡ sent.old.items)) }
        ensures cut { OnErr result (IsCutShort self.old self.new out.old.items out.new.items sent.old.items sent.new.items) }
        ensures keeps_out { KeepsOut self.old self.new }
    {
        sent.reserve(1)?;
        let Some(frame) = self.next_frame(phase, room)? else {
            return Ok(false);
        };
        let put = self.put(&frame, out);
        let _ = sent.push(frame);
        put?;
        Ok(true)
    }

    // The next frame of a phase. It counts as sent.
    fn next_frame(&mut self, phase: Phase, room: usize) -> Result<Option<SentFrame>, Memory>
        requires { max_frame_header < room }
        ensures some { IfOk result (λ o. IfSome o (λ f. IsHandedOver self.old self.new room f × IsOf phase f)) }
        ensures out { IfOk result (λ o. IfSome o (IsOutHeld self.new)) }
        ensures none { IfOk result (λ o. o ≡ None → (self.new ≡ self.old) × IsPhaseIdle phase self.old) }
        ensures err { OnErr result (self.new ≡ self.old) }
        ensures keeps_out { KeepsOut self.old self.new }
    {
        match phase {
            Phase::MaxData => Ok(self.next_max_data()),
            Phase::MaxStreams(dir) => Ok(self.next_max_streams(dir)),
            Phase::SingleStreams => Ok(self.next_single()),
            Phase::Sending => self.next_sending(room),
        }
    }

    // The MAX_DATA frame, if it is due. It counts as announced then.
    fn next_max_data(&mut self) -> Option<SentFrame>
        ensures some { IfSome result (λ f. (room : ℕ) → IsHandedOver self.old self.new room f × IsOf phases.MaxData f) }
        ensures out { IfSome result (IsOutHeld self.new) }
        ensures none { result ≡ None → (self.new ≡ self.old) × IsPhaseIdle phases.MaxData self.old }
        ensures keeps_out { KeepsOut self.old self.new }
    {
        let limit = self.recv.next_max_data()?;
        Some(SentFrame::MaxData(limit))
    }

    // The MAX_STREAMS frame of a direction, if it is due. It counts as announced then.
    fn next_max_streams(&mut self, dir: Dir) -> Option<SentFrame>
        ensures some { IfSome result (λ f. (room : ℕ) → IsHandedOver self.old self.new room f × IsOf (phases.MaxStreams dir) f) }
        ensures out { IfSome result (IsOutHeld self.new) }
        ensures none { result ≡ None → (self.new ≡ self.old) × IsPhaseIdle (phases.MaxStreams dir) self.old }
        ensures keeps_out { KeepsOut self.old self.new }
    {
        let count = self.next_count(dir)?;
        Some(SentFrame::MaxStreams { dir, count })
    }

    // The next STOP_SENDING or MAX_STREAM_DATA frame. It counts as sent.
    fn next_single(&mut self) -> Option<SentFrame>
        ensures some { IfSome result (λ f. (room : ℕ) → IsHandedOver self.old self.new room f × IsOf phases.SingleStreams f) }
        ensures out { IfSome result (IsOutHeld self.new) }
        ensures none { result ≡ None → (self.new ≡ self.old) × IsPhaseIdle phases.SingleStreams self.old }
        ensures keeps_out { KeepsOut self.old self.new }
    {
        let (id, control) = self.recv.next_control()?;
        let id = StreamId(id);
        Some(match control {
            StreamControl::StopSending(code) => SentFrame::StopSending { id, code },
            StreamControl::MaxStreamData(limit) => SentFrame::MaxStreamData { id, limit },
        })
    }

    // The next STREAM or RESET_STREAM frame. It counts as sent.
    fn next_sending(&mut self, room: usize) -> Result<Option<SentFrame>, Memory>
        requires { max_frame_header < room }
        ensures some { IfOk result (λ o. IfSome o (λ f. IsHandedOver self.old self.new room f × IsOf phases.Sending f)) }
        ensures out { IfOk result (λ o. IfSome o (IsOutHeld self.new)) }
        ensures none { IfOk result (λ o. o ≡ None → (self.new ≡ self.old) × IsPhaseIdle phases.Sending self.old) }
        ensures err { OnErr result (self.new ≡ self.old) }
        ensures keeps_out { KeepsOut self.old self.new }
    {
        let Some((id, transmission)) = self.send.poll_transmit(room - MAX_FRAME_HEADER)? else {
            return Ok(None);
        };
        let id = StreamId(id);
        Ok(Some(match transmission {
            Transmission::Stream(piece) => SentFrame::Stream { id, piece },
            Transmission::Reset(reset) => SentFrame::ResetStream { id, reset },
        }))
    }

    // Frames from this place on that were handed over are lost, the last one first.
    fn take_back(&mut self, before: usize, sent: &mut Vec<SentFrame>)
        requires within { before ≤ length sent.old.items }
        requires out { AreAllOut self.old (drop before sent.old.items) }
        ensures lost { AreLost self.old self.new (reverse (drop before sent.old.items)) }
        ensures rest { sent.new.items ≡ take before sent.old.items }
        ensures keeps_out { KeepsOut self.old self.new }
    {
        while sent.len() > before {
            if let Some(frame) = sent.pop() {
                self.lose(&frame);
            }
        }
    }

    // The count of streams that is to be announced. It counts as announced then.
    fn next_count(&mut self, dir: Dir) -> Option<VarInt>
        ensures some { IfSome result (λ count. (room : ℕ) → IsHandedOver self.old self.new room (MaxStreams dir count)) }
        ensures none { result ≡ None → (self.new ≡ self.old) × (is_due (counts_of self.old (is_two_way dir)).announced (count_limit (counts_of self.old (is_two_way dir))) ≡ false) }
        ensures keeps_out { KeepsOut self.old self.new }
    {
        let counts = self.counts(dir);
        let limit = counts.limit();
        if !counts.announced.is_due(limit) {
            return None;
        }
        let announced = AnnouncedLimit::sent(limit);
        self.set_counts(
            dir,
            StreamCounts {
                announced,
                ..counts
            },
        );
        VarInt::from_u64(limit)
    }

    // Appends a frame that was just handed over, or nothing.
    fn put(&self, frame: &SentFrame, out: &mut Vec<u8>) -> Result<(), Memory>
        requires { IsOutHeld self.now frame.now }
        ensures ok { OnOk result (IsPut out.old.items out.new.items (written_frame self.now frame.now) (max_frame_header + payload_length frame.now)) }
        ensures err { OnErr result (out.new.items ≡ out.old.items) }
    {
        match frame {
            SentFrame::Stream { id, piece } => self.put_stream(*id, piece, out),
            SentFrame::ResetStream { id, reset } => {
                put_reset_stream(out, *id, reset.code, reset.final_size)
            }
            SentFrame::StopSending { id, code } => put_stop_sending(out, *id, *code),
            SentFrame::MaxData(limit) => put_max_data(out, *limit),
            SentFrame::MaxStreamData { id, limit } => put_max_stream_data(out, *id, *limit),
            SentFrame::MaxStreams { dir, count } => put_max_streams(out, *dir, *count),
        }
    }

    // Appends a STREAM frame that was just handed over, or nothing.
    fn put_stream(&self, id: StreamId, piece: &Outgoing, out: &mut Vec<u8>) -> Result<(), Memory>
        requires { IsOutHeld self.now (Stream id piece.now) }
        ensures ok { OnOk result (IsPut out.old.items out.new.items (written_frame self.now (Stream id piece.now)) (max_frame_header + (piece.now.offsets.end - piece.now.offsets.start))) }
        ensures err { OnErr result (out.new.items ≡ out.old.items) }
    {
        let start = out.len();
        let offset = VarInt::from_u64(piece.offsets.start).unwrap();
        let length = piece.offsets.end - piece.offsets.start;
        put_stream_head(out, id, offset, length, piece.fin)?;
        if self.send.put(id.0, piece, out).is_err() {
            out.truncate(start);
            return Err(Memory);
        }
        Ok(())
    }
}
