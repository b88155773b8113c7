ghost use Rattle.std.specs.Prelude.{◌≡◌, ◌⊎◌, ◌+◌, ◌-◌, ◌<◌, ◌≤◌, ◌^◌, ◌++◌, [], ◌∷◌, length, nat_lt, min, if◌then◌else◌, ℕ, List, None, true, false, IfOk, IfSome, OnOk, OnErr};
ghost use Rattle.qh_handshake.specs.InitialSpace.{IsInitialSpace};
ghost use Rattle.qh_handshake.specs.declared.initial_space.HelloFrame.{HelloFrame as AHelloFrame};
ghost use Rattle.qh_handshake.specs.Sending.{IsAckFirst, IsPacketMade, IsQuiet, bytes_if, counted, eliciting_bytes, hello_frame_bytes, hello_if, is_waiting, ping_bytes, writes_hello};
ghost use Rattle.qh_handshake.specs.declared.initial_space.HelloState.TheVariants.{Out, Waits};
ghost use Rattle.qh_recovery.specs.declared.sent_packets.SentPacket.{SentPacket as APacket};
ghost use Rattle.qh_spec.specs.Greeted.{crypto_frame};
ghost use Rattle.qh_spec.specs.QuicFrames.{IsQuicFrame};

use crate::{HelloFrame, HelloState, InitialSpace};
use qh_base::{Memory, Moment, VarInt};
use qh_frame::{put_crypto, put_ping};
use qh_recovery::SentPacket;
use std::alloc::Global;

/// Packet numbers are below this one (RFC 9000, section 12.3).
pub(crate) const PACKET_NUMBERS: u64 = 1 << 62;

/// How many bytes the head of a CRYPTO frame takes at most (RFC 9000, section 19.6).
const MAX_CRYPTO_HEAD: usize = 17;

/// The size, in bytes, of a datagram with an ack-eliciting Initial packet (RFC 9000, section 14.1).
const DATAGRAM_SIZE: u64 = 1_200;

/// An Initial packet whose frames were made.
#[derive(Clone, Copy)]
pub struct MadePacket {
    /// Its number.
    pub number: u64,
    /// Whether it wants an acknowledgement.
    pub is_ack_eliciting: bool,
}

impl InitialSpace {
    /// Appends the frames of the next packet, and answers its number: an ACK if one is due; then a PING that is due, and the whole
    /// hello where it waits and has room. None if nothing is to be sent, or no number is left; then nothing is appended. At most
    /// `room` bytes are appended. After want of memory the space is as it was, and what was appended is no packet.
    pub fn write_packet(
        &mut self,
        alloc: Global,
        now: Moment,
        room: usize,
        out: &mut Vec<u8>,
    ) -> Result<Option<MadePacket>, Memory>
        requires space { IsInitialSpace self.old }
        requires room { 532 ≤ room }
        ensures some { IfOk result (λ o. IfSome o (λ made. (made.number ≡ self.old.next_number) × (made.number < 2 ^ 62) × IsPacketMade now room self.old self.new out.old.items out.new.items made.is_ack_eliciting)) }
        ensures none { IfOk result (λ o. o ≡ None → (out.new.items ≡ out.old.items) × (self.new ≡ self.old) × ((self.old.next_number ≡ 2 ^ 62) ⊎ IsQuiet self.old)) }
        ensures wanted { OnErr result (((self.old.next_number ≡ 2 ^ 62) ⊎ IsQuiet self.old) → ⊥) }
        ensures err { OnErr result (self.new ≡ self.old) }
        ensures space { IsInitialSpace self.new }
    {
        if self.next_number == PACKET_NUMBERS {
            return Ok(None);
        }
        let number = self.next_number;
        let start = out.len();
        self.put_ack(out)?;
        let acked = out.len();
        let frames = self.put_eliciting(alloc, room - (acked - start), out)?;
        if out.len() == start {
            return Ok(None);
        }
        let is_ack_eliciting = acked < out.len();
        self.count_sent(now, frames, is_ack_eliciting)?;
        Ok(Some(MadePacket {
            number,
            is_ack_eliciting,
        }))
    }

    // Appends an ACK if one is due.
    fn put_ack(&self, out: &mut Vec<u8>) -> Result<(), Memory>
        requires { IsInitialSpace self.now }
        ensures put { OnOk result (IsAckFirst self.now out.old.items out.new.items) }
        ensures some { OnOk result (self.now.acks.is_due ≡ true → length out.old.items < length out.new.items) }
        ensures fits { OnOk result ((length out.old.items ≤ length out.new.items) × (length out.new.items ≤ length out.old.items + 515)) }
        ensures wanted { OnErr result (self.now.acks.is_due ≡ true) }
    {
        if !self.acks.is_due() {
            return Ok(());
        }
        self.acks.put(out)
    }

    // Appends a PING that is due and the hello where it waits and has room, and answers the frame of the hello, if that is there.
    fn put_eliciting(
        &self,
        alloc: Global,
        room: usize,
        out: &mut Vec<u8>,
    ) -> Result<Vec<HelloFrame>, Memory>
        requires short { length self.now.hello ≤ 512 }
        requires room { 1 ≤ room }
        ensures put { OnOk result (out.new.items ≡ out.old.items ++ eliciting_bytes self.now room) }
        ensures hello { IfOk result (λ frames. frames.items ≡ hello_if (writes_hello self.now (room - length (bytes_if self.now.is_ping_due ping_bytes)))) }
        ensures fits { OnOk result (length (eliciting_bytes self.now room) ≤ room) }
        ensures some { IfOk result (λ frames. nat_lt 0 (length frames.items) ≡ true → 0 < length (eliciting_bytes self.now room)) }
        ensures read_back { IfOk result (λ frames. nat_lt 0 (length frames.items) ≡ true → (rest : List ℕ) → IsQuicFrame (hello_frame_bytes self.now.hello ++ rest) (crypto_frame 0 self.now.hello) rest) }
        ensures wanted { OnErr result ((self.now.is_ping_due ≡ true) ⊎ (self.now.state ≡ Waits)) }
    {
        let mut frames = Vec::new(alloc);
        let start = out.len();
        if self.is_ping_due {
            put_ping(out)?;
        }
        let left = room - (out.len() - start);
        if self.is_hello_waiting() && MAX_CRYPTO_HEAD + self.hello.len() <= left {
            frames.push(HelloFrame)?;
            put_crypto(out, VarInt::from_u32(0), &self.hello)?;
        }
        Ok(frames)
    }

    // Whether the hello is to be sent.
    fn is_hello_waiting(&self) -> bool
        ensures value { result ≡ is_waiting self.now.state }
        ensures waits { result ≡ true → self.now.state ≡ Waits }
    {
        matches!(self.state, HelloState::Waits)
    }

    // A packet with the next number was made. If it is ack-eliciting it is out: the probe packet, if one was due. No ACK is due any
    // more.
    fn count_sent(
        &mut self,
        now: Moment,
        frames: Vec<HelloFrame>,
        is_ack_eliciting: bool,
    ) -> Result<(), Memory>
        requires space { IsInitialSpace self.old }
        requires bound { self.old.next_number < 2 ^ 62 }
        requires hello { nat_lt 0 (length frames.items) ≡ true → is_ack_eliciting ≡ true }
        ensures ok { OnOk result ((packet : APacket AHelloFrame) × (packet.frames.items ≡ frames.items) × (packet.time_sent ≡ now) × (packet.size ≡ 1200)
            × (self.new ≡ record (counted self.old packet is_ack_eliciting (nat_lt 0 (length frames.items))) { acks = record self.old.acks { is_due = false }; last_active = now })) }
        ensures err { OnErr result (self.new ≡ self.old) }
        ensures space { IsInitialSpace self.new }
    {
        if !is_ack_eliciting {
            self.count_number(now);
            return Ok(());
        }
        let has_hello = !frames.is_empty();
        let packet = SentPacket {
            time_sent: now,
            size: DATAGRAM_SIZE,
            frames,
        };
        self.sent.insert(self.next_number, packet)?;
        self.count_eliciting(has_hello);
        self.count_number(now);
        Ok(())
    }

    // The next number is used up, and no ACK is due any more.
    fn count_number(&mut self, now: Moment)
        requires bound { self.old.next_number < 2 ^ 62 }
        ensures { self.new ≡ record self.old { acks = record self.old.acks { is_due = false }; next_number = self.old.next_number + 1; last_active = now } }
    {
        self.acks.sent();
        self.last_active = now;
        self.next_number += 1;
    }

    // An ack-eliciting packet is sent, with or without the hello. If a probe was due, this is the probe packet.
    fn count_eliciting(&mut self, has_hello: bool)
        ensures { self.new ≡ record self.old {
          state = (if has_hello then Out else self.old.state);
          is_ping_due = false;
          is_probe_due = false;
          pto_count = (if self.old.is_probe_due then min (2 ^ 32 - 1) (self.old.pto_count + 1) else self.old.pto_count);
          probes_sent = (if self.old.is_probe_due then min (2 ^ 64 - 1) (self.old.probes_sent + 1) else self.old.probes_sent);
        } }
    {
        if has_hello {
            self.state = HelloState::Out;
        }
        self.is_ping_due = false;
        if self.is_probe_due {
            self.is_probe_due = false;
            self.pto_count = self.pto_count.saturating_add(1);
            self.probes_sent = self.probes_sent.saturating_add(1);
        }
    }
}
