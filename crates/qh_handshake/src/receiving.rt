ghost use Rattle.std.specs.Prelude.{◌≡◌, ◌∷◌, ◌+◌, ◌<◌, ◌≤◌, ◌^◌, length, ◌||◌, if◌then◌else◌, ℕ, List, None, Some, nat_lt, OnOk, OnErr, IfOk, IfErr};
ghost use Rattle.qh_frame.specs.Plain.{ack_of};
ghost use Rattle.qh_handshake.specs.Handshake.{counted};
ghost use Rattle.qh_handshake.specs.InitialSpace.{IsInitialSpace};
ghost use Rattle.qh_handshake.specs.Receiving.{IsAckReceived, IsCryptoFault, IsFrameTaken, IsLossTaken, IsPieceTaken, IsRefusal, IsRefusedBy, KeepsAfter, KeepsPieceAfter, Says, again, frame_refusal, greatest_of, measured, refused, some_type};
ghost use Rattle.qh_handshake.specs.Settled.{AreTaken, Packets as APackets, any_bears};
ghost use Rattle.qh_handshake.specs.declared.initial_space.HelloState.TheVariants.{Acked};
ghost use Rattle.qh_recovery.specs.Accepted.{Remembers};
ghost use Rattle.qh_recovery.specs.PendingAcks.{IsJoined};
ghost use Rattle.qh_recovery.specs.SentPackets.{packet_at};
ghost use Rattle.qh_spec.specs.Acknowledged.{Covers};
ghost use Rattle.qh_spec.specs.Codes as codes;

use crate::settled::{Settled, take_acked, take_lost};
use crate::{HelloState, InitialSpace};
use bytes::Bytes;
use qh_base::{
    ConnectionClose, FrameType, Memory, Moment, Reason, TransportError, TransportErrorCode, VarInt,
};
use qh_frame::{Ack, Frame};
use qh_hello::MAX_CRYPTO;
use qh_recovery::insert_received;
use std::alloc::Global;

/// Why a frame of an Initial packet isn't taken.
#[derive(Drop)]
pub enum SpaceFault {
    /// It is refused, with this code, by the type of the frame.
    Transport(TransportError),
    /// The allocator had no memory. Nothing is wrong with the frame.
    Memory,
}

impl InitialSpace {
    /// A packet with this number is taken, which is new (RFC 9000, section 12.3). It is to be acknowledged at once if it wants
    /// that. After want of memory the space is as it was.
    pub fn accept(&mut self, number: u64, is_ack_eliciting: bool, now: Moment) -> Result<(), Memory>
        requires number { number < 2 ^ 62 }
        requires space { IsInitialSpace self.old }
        ensures remembers { OnOk result ((accepted : List ℕ) → Remembers accepted self.old.dedup → Remembers (number ∷ accepted) self.new.dedup) }
        ensures acks { OnOk result ((bound : ℕ) × IsJoined self.old.acks.ranges self.new.acks.ranges number bound) }
        ensures due { OnOk result (self.new.acks.is_due ≡ (self.old.acks.is_due || is_ack_eliciting)) }
        ensures rest { OnOk result (self.new ≡ record self.old { dedup = self.new.dedup; acks = self.new.acks; last_active = now; packets_accepted = counted (self.old.packets_accepted + 1) }) }
        ensures err { OnErr result (self.new ≡ self.old) }
        ensures space { IsInitialSpace self.new }
    {
        insert_received(&mut self.dedup, &mut self.acks, number, is_ack_eliciting)?;
        self.last_active = now;
        self.packets_accepted = self.packets_accepted.saturating_add(1);
        Ok(())
    }

    /// Takes a frame of the peer's. Answers what the peer says if it closes by it. A fault says why it is refused, with its code and
    /// the type of the frame. Memory is answered only for a CRYPTO frame that isn't at fault.
    pub fn take_frame(
        &mut self,
        alloc: Global,
        frame: &Frame<'_>,
        now: Moment,
    ) -> Result<Option<ConnectionClose>, SpaceFault>
        requires { IsInitialSpace self.old }
        ensures ok { IfOk result (λ closed. IsFrameTaken now.0 self.old self.new frame.now closed) }
        ensures taken { OnOk result (frame_refusal self.old frame.now ≡ None) }
        ensures fault { IfErr result (λ e. IsRefusedBy e frame.now (frame_refusal self.old frame.now)) }
        ensures err { IfErr result (λ e. KeepsAfter e self.old self.new frame.now) }
        ensures space { IsInitialSpace self.new }
    {
        match frame {
            Frame::Padding | Frame::Ping => Ok(None),
            Frame::Ack(ack) => {
                self.take_ack(ack, frame.frame_type(), now)?;
                Ok(None)
            }
            Frame::Crypto { offset, payload } => {
                self.take_crypto(alloc, *offset, payload)?;
                Ok(None)
            }
            Frame::ConnectionClose {
                code,
                frame_type,
                reason,
            } => Ok(Some(close_of(*code, *frame_type, reason))),
            _ => Err(violation(frame.frame_type())),
        }
    }

    // A CRYPTO frame came with these bytes.
    fn take_crypto(
        &mut self,
        alloc: Global,
        offset: VarInt,
        payload: &[u8],
    ) -> Result<(), SpaceFault>
        requires { IsInitialSpace self.old }
        ensures ok { OnOk result (IsPieceTaken self.old self.new (record { offset = offset; bytes = payload.now })) }
        ensures taken { OnOk result (offset + length payload.now ≤ 16384) }
        ensures fault { IfErr result (λ e. IsCryptoFault e (offset + length payload.now)) }
        ensures err { IfErr result (λ e. KeepsPieceAfter e self.old self.new (record { offset = offset; bytes = payload.now })) }
        ensures space { IsInitialSpace self.new }
    {
        let offset = offset.into_inner();
        if offset + payload.len() as u64 > MAX_CRYPTO {
            return Err(fault(
                TransportErrorCode::CRYPTO_BUFFER_EXCEEDED,
                FrameType::CRYPTO,
            ));
        }
        let Ok(bytes) = Bytes::copy_from_slice(alloc, payload) else {
            return Err(SpaceFault::Memory);
        };
        match self.crypto.insert(offset, bytes) {
            Ok(()) => Ok(()),
            Err(_) => Err(SpaceFault::Memory),
        }
    }

    // An ACK came, in a frame of this type.
    fn take_ack(&mut self, ack: &Ack<'_>, frame: FrameType, now: Moment) -> Result<(), SpaceFault>
        requires { IsInitialSpace self.old }
        ensures ok { OnOk result (IsAckReceived now.0 self.old self.new ack.now) }
        ensures taken { OnOk result (ack.now.greatest < self.old.next_number) }
        ensures fault { IfErr result (λ e. IsRefusal e (if nat_lt ack.now.greatest self.old.next_number then None else refused codes.protocol_violation frame.0)) }
        ensures err { OnErr result (self.new ≡ self.old) }
        ensures space { IsInitialSpace self.new }
    {
        let greatest = ack.greatest.into_inner();
        if greatest >= self.next_number {
            return Err(violation(frame));
        }
        self.measure(greatest, now);
        self.acknowledge(ack);
        let largest = greatest_of(self.largest_acked, greatest);
        self.largest_acked = Some(largest);
        self.lose(largest, now);
        Ok(())
    }

    // A round-trip time is measured if the packet with the greatest acknowledged number is out.
    fn measure(&mut self, greatest: u64, now: Moment)
        ensures { self.new ≡ record self.old { rtt = measured (packet_at self.old.sent greatest) now.0 self.old.rtt } }
    {
        if let Some(packet) = self.sent.get(greatest) {
            self.rtt.update(now.since(packet.time_sent));
        }
    }

    // The packets that an ACK covers are acknowledged, and the hello if one of them bears it. If there are any, the PTO count is 0.
    fn acknowledge(&mut self, ack: &Ack<'_>)
        ensures { (taken : APackets) × AreTaken (λ k q. Covers (ack_of ack.now) k) self.old.sent self.new.sent taken
            × (self.new ≡ record self.old { sent = self.new.sent; state = (if any_bears taken then Acked else self.old.state); pto_count = (if nat_lt 0 (length taken) then 0 else self.old.pto_count) }) }
    {
        let acked = take_acked(&mut self.sent, ack);
        self.count_acked(acked);
    }

    // These packets were acknowledged: what became of the hello, and the PTO count.
    fn count_acked(&mut self, acked: Settled)
        ensures { self.new ≡ record self.old { state = (if acked.has_hello then Acked else self.old.state); pto_count = (if nat_lt 0 acked.count then 0 else self.old.pto_count) } }
    {
        if acked.has_hello {
            self.state = HelloState::Acked;
        }
        if acked.count > 0 {
            self.pto_count = 0;
        }
    }

    // The packets that are lost by now, if this is the greatest number that was acknowledged.
    pub(crate) fn lose(&mut self, largest_acked: u64, now: Moment)
        ensures { IsLossTaken largest_acked now.0 self.old self.new }
    {
        let settled = take_lost(&mut self.sent, largest_acked, now, self.rtt.loss_delay());
        if settled.has_hello {
            self.send_again();
        }
        self.packets_lost = self.packets_lost.saturating_add(settled.count);
    }

    // A hello that was out is to be sent again.
    pub(crate) fn send_again(&mut self)
        ensures { self.new ≡ record self.old { state = again self.old.state } }
    {
        if let HelloState::Out = self.state {
            self.state = HelloState::Waits;
        }
    }
}

// The greatest number that is acknowledged, with this one.
fn greatest_of(largest_acked: Option<u64>, number: u64) -> u64
    ensures { result ≡ greatest_of largest_acked number }
{
    match largest_acked {
        None => number,
        Some(largest) => largest.max(number),
    }
}

// PROTOCOL_VIOLATION by a frame of this type.
fn violation(frame: FrameType) -> SpaceFault
    ensures { IsRefusal result (refused codes.protocol_violation frame.0) }
{
    fault(TransportErrorCode::PROTOCOL_VIOLATION, frame)
}

// This code by a frame of this type.
fn fault(code: TransportErrorCode, frame: FrameType) -> SpaceFault
    ensures { IsRefusal result (refused code.0 frame.0) }
{
    SpaceFault::Transport(TransportError {
        code,
        frame: Some(frame.0),
        reason: Reason::of(b""),
    })
}

// What a CONNECTION_CLOSE says.
fn close_of(code: VarInt, frame_type: VarInt, reason: &[u8]) -> ConnectionClose
    ensures { Says result code frame_type reason.now }
{
    ConnectionClose {
        code: TransportErrorCode(code.into_inner()),
        frame: some_type(frame_type),
        reason: Reason::of(reason),
    }
}

// The type of the frame at fault: 0 if none is known.
fn some_type(frame_type: VarInt) -> Option<u64>
    ensures { result ≡ some_type frame_type }
{
    match frame_type.into_inner() {
        0 => None,
        other => Some(other),
    }
}
