ghost use Rattle.std.specs.Prelude.{◌≡◌, ◌⊎◌, ◌+◌, ◌-◌, ◌<◌, ◌≤◌, ◌^◌, ◌++◌, length, None, Some, true, false, IfOk, IfSome, OnOk, OnErr};
ghost use Rattle.qh_recovery.specs.SentPackets.{HasInstead, IsNext};
ghost use Rattle.qh_space.specs.Sending.{ReadsBack, may_elicit, bytes_if, due_bytes, ping_bytes, response_bytes, with_sent, AreElicitingPut, IsAckFirst, IsPacketMade, IsQuiet, IsSentBare};
ghost use Rattle.qh_space.specs.Space.{IsSpace};
ghost use Rattle.qh_streams.specs.Streams.{AreAllOut, AreShared, IsIdle, KeepsOut};

use crate::DataSpace;
use qh_base::{Memory, Moment};
use qh_frame::{put_path_response, put_ping};
use qh_recovery::SentPacket;
use qh_streams::SentFrame;
use std::alloc::Global;

/// Packet numbers are below this one (RFC 9000, section 12.3).
const PACKET_NUMBERS: u64 = 1 << 62;

impl DataSpace {
    /// Appends the frames of the next packet, and answers its number: an ACK if one is due; then, if the window permits it or
    /// a probe is due, a PING and a PATH_RESPONSE that are due and what the streams have to send. None if nothing is to be
    /// sent, or no number is left; then nothing is appended. At most `room` bytes are appended, and the packet's datagram will
    /// have `overhead` more around them. After want of memory the space isn't to be used any more.
    pub fn write_packet(
        &mut self,
        alloc: Global,
        now: Moment,
        overhead: u64,
        room: usize,
        out: &mut Vec<u8>,
    ) -> Result<Option<u64>, Memory>
        requires space { IsSpace self.old }
        requires room { 600 ≤ room }
        requires size { room + overhead < 2 ^ 32 }
        ensures some { IfOk result (λ o. IfSome o (λ n. (n ≡ self.old.next_number) × (n < 2 ^ 62) × IsPacketMade now.0 overhead room self.old self.new out.old.items out.new.items)) }
        ensures none { IfOk result (λ o. o ≡ None → (out.new.items ≡ out.old.items) × (self.new ≡ self.old) × ((self.old.next_number ≡ 2 ^ 62) ⊎ IsQuiet self.old)) }
        ensures space { OnOk result (IsSpace self.new) }
    {
        if self.next_number == PACKET_NUMBERS {
            return Ok(None);
        }
        let start = out.len();
        self.put_ack(out)?;
        let acked = out.len();
        let frames = self.put_eliciting(alloc, room - (acked - start), out)?;
        if out.len() == start {
            return Ok(None);
        }
        let number = self.next_number;
        let packet = SentPacket {
            time_sent: now,
            size: overhead + (out.len() - start) as u64,
            frames,
        };
        self.count_sent(packet, acked < out.len())?;
        Ok(Some(number))
    }

    /// An ack-eliciting packet with the next number was made elsewhere, of this size, of which nothing is kept here that would be sent
    /// again (RFC 9002, appendix A.5). After want of memory the space isn't to be used any more.
    pub fn on_packet_sent(&mut self, alloc: Global, now: Moment, size: u64) -> Result<(), Memory>
        requires space { IsSpace self.old }
        requires bound { self.old.next_number < 2 ^ 62 }
        ensures ok { OnOk result (IsSentBare now.0 size self.old self.new) }
        ensures space { OnOk result (IsSpace self.new) }
    {
        let packet = SentPacket {
            time_sent: now,
            size,
            frames: Vec::new(alloc),
        };
        self.track(packet)
    }

    /// Whether ack-eliciting frames may be sent: the window permits a datagram, or a probe is due (RFC 9002, sections 7 and 7.5).
    pub fn may_elicit(&self) -> bool
        ensures { result ≡ may_elicit self.now }
    {
        self.is_probe_due || self.congestion.allows(self.sent.in_flight())
    }

    // Appends an ACK if one is due.
    fn put_ack(&self, out: &mut Vec<u8>) -> Result<(), Memory>
        requires { self.now.acks.is_due ≡ true → 0 < length self.now.acks.ranges }
        ensures put { OnOk result (IsAckFirst self.now out.old.items out.new.items) }
        ensures some { OnOk result (self.now.acks.is_due ≡ true → length out.old.items < length out.new.items) }
        ensures fits { OnOk result ((length out.old.items ≤ length out.new.items) × (length out.new.items ≤ length out.old.items + 515)) }
    {
        if !self.acks.is_due() {
            return Ok(());
        }
        self.acks.put(out)
    }

    // Appends ack-eliciting frames that may be sent, and answers those of streams.
    fn put_eliciting(
        &mut self,
        alloc: Global,
        room: usize,
        out: &mut Vec<u8>,
    ) -> Result<Vec<SentFrame>, Memory>
        requires { 80 ≤ room }
        ensures put { IfOk result (λ frames. may_elicit self.old ≡ true → AreElicitingPut room self.old self.new out.old.items out.new.items frames.items) }
        ensures none { IfOk result (λ frames. may_elicit self.old ≡ false → (self.new ≡ self.old) × (out.new.items ≡ out.old.items)) }
        ensures idle { OnOk result (out.new.items ≡ out.old.items → may_elicit self.old ≡ true → (self.old.is_ping_due ≡ false) × (self.old.path_response ≡ None) × IsIdle self.new.streams) }
        ensures fits { OnOk result ((length out.old.items ≤ length out.new.items) × (length out.new.items ≤ length out.old.items + room)) }
        ensures shared { IfOk result (λ frames. 610 ≤ room → may_elicit self.old ≡ true → AreShared self.old.streams self.new.streams frames.items) }
        ensures out { IfOk result (λ frames. AreAllOut self.new.streams frames.items) }
        ensures keeps_out { OnOk result (KeepsOut self.old.streams self.new.streams) }
    {
        let mut frames = Vec::new(alloc);
        if !self.may_elicit() {
            return Ok(frames);
        }
        let start = out.len();
        self.put_due(out)?;
        self.streams
            .write_frames(room - (out.len() - start), out, &mut frames)?;
        Ok(frames)
    }

    // Appends the PING and the PATH_RESPONSE that are due. They are due no more.
    fn put_due(&mut self, out: &mut Vec<u8>) -> Result<(), Memory>
        ensures put { OnOk result (out.new.items ≡ out.old.items ++ due_bytes self.old) }
        ensures rest { OnOk result (self.new ≡ record self.old { is_ping_due = false; path_response = None }) }
        ensures few { OnOk result (length (due_bytes self.old) ≤ 10) }
        ensures reads_back { OnOk result (ReadsBack self.old.path_response) }
    {
        self.put_ping(out)?;
        self.put_path_response(out)
    }

    // Appends a PING if one is due. It is due no more.
    fn put_ping(&mut self, out: &mut Vec<u8>) -> Result<(), Memory>
        ensures put { OnOk result (out.new.items ≡ out.old.items ++ bytes_if self.old.is_ping_due ping_bytes) }
        ensures rest { OnOk result (self.new ≡ record self.old { is_ping_due = false }) }
        ensures few { OnOk result (length (bytes_if self.old.is_ping_due ping_bytes) ≤ 1) }
    {
        if !self.is_ping_due {
            return Ok(());
        }
        put_ping(out)?;
        self.is_ping_due = false;
        Ok(())
    }

    // Appends a PATH_RESPONSE if one is due. It is due no more.
    fn put_path_response(&mut self, out: &mut Vec<u8>) -> Result<(), Memory>
        ensures put { OnOk result (out.new.items ≡ out.old.items ++ response_bytes self.old.path_response) }
        ensures rest { OnOk result (self.new ≡ record self.old { path_response = None }) }
        ensures few { OnOk result (length (response_bytes self.old.path_response) ≤ 9) }
        ensures reads_back { OnOk result (ReadsBack self.old.path_response) }
    {
        let Some(bytes) = self.path_response else {
            return Ok(());
        };
        put_path_response(out, &bytes)?;
        self.path_response = None;
        Ok(())
    }

    // A packet with the next number was made. If it is ack-eliciting it is out; no ACK is due any more.
    fn count_sent(
        &mut self,
        packet: SentPacket<SentFrame>,
        is_eliciting: bool,
    ) -> Result<(), Memory>
        requires next { IsNext self.old.next_number self.old.sent }
        requires bound { self.old.next_number < 2 ^ 62 }
        ensures ok { OnOk result (self.new ≡ record (with_sent self.old packet is_eliciting) { acks = record self.old.acks { is_due = false } }) }
        ensures packets { OnOk result (is_eliciting ≡ true → HasInstead self.old.sent self.new.sent self.old.next_number (Some packet)) }
    {
        self.acks.sent();
        if !is_eliciting {
            self.next_number += 1;
            return Ok(());
        }
        self.track(packet)
    }

    // An ack-eliciting packet with the next number is out: the probe packet, if one was due.
    fn track(&mut self, packet: SentPacket<SentFrame>) -> Result<(), Memory>
        requires next { IsNext self.old.next_number self.old.sent }
        requires bound { self.old.next_number < 2 ^ 62 }
        ensures ok { OnOk result (self.new ≡ with_sent self.old packet true) }
        ensures packets { OnOk result (HasInstead self.old.sent self.new.sent self.old.next_number (Some packet)) }
    {
        let number = self.next_number;
        self.sent.insert(number, packet)?;
        self.next_number = number + 1;
        if self.is_probe_due {
            self.is_probe_due = false;
            self.pto_count = self.pto_count.saturating_add(1);
            self.probes_sent = self.probes_sent.saturating_add(1);
        }
        Ok(())
    }
}
