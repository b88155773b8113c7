ghost use Rattle.std.specs.Prelude.{◌≡◌, nat_lt, length, ◌<◌, ◌≤◌, ◌^◌, ◌∷◌, ◌||◌, ℕ, List, None, false, true, if◌then◌else◌, is_some, IsOk, OnOk, OnErr, IfOk, IfErr};
ghost use Rattle.qh_frame.specs.Plain.{ack_of};
ghost use Rattle.qh_loss.specs.Owed.{AreOwed};
ghost use Rattle.qh_loss.specs.Settled.{IsAckConfirmed};
ghost use Rattle.qh_recovery.specs.Accepted.{Remembers};
ghost use Rattle.qh_recovery.specs.PendingAcks.{IsJoined};
ghost use Rattle.qh_recovery.specs.SentPackets.{packet_at, frame_count};
ghost use Rattle.qh_space.specs.Receiving.{IsFrameTaken, IsAckReceived, IsLossTaken, IsClosedBy, coming_of, datagram_refusal, frame_refusal, greatest_of, measured, IsStream, may_want_memory, refused_at_server, some_type};
ghost use Rattle.qh_space.specs.Space.{IsSpace};
ghost use Rattle.qh_spec.specs.Codes as codes;
ghost use Rattle.qh_streams.specs.declared.fault.StreamFault.TheVariants.{Memory as Wanting};
ghost use Rattle.qh_streams.specs.declared.frames.StreamFrame.TheVariants.{MaxData};
ghost use Rattle.qh_streams.specs.Items.{items_of, kept_in, logged, HasRoom};
ghost use Rattle.qh_streams.specs.Streams.{IsReceived, IsRefusal, IsRefusedBy, KeepsOut, refusal_of, refused};

use crate::DataSpace;
use bytes::Bytes;
use qh_base::{
    ApplicationClose, ConnectionClose, ConnectionError, FrameType, Memory, Moment, Reason, Side,
    TransportError, TransportErrorCode, VarInt,
};
use qh_frame::{Ack, Frame};
use qh_loss::{detect_lost_packets, on_ack_received};
use qh_recovery::insert_received;
use qh_streams::{Item, StreamFault, StreamFrame};
use std::alloc::Global;

impl DataSpace {
    /// A packet with this number is taken, which is new (RFC 9000, section 12.3). It is to be acknowledged at once if it wants
    /// that. After want of memory the space is as it was.
    pub fn accept(&mut self, number: u64, is_ack_eliciting: bool) -> Result<(), Memory>
        requires number { number < 2 ^ 62 }
        requires space { IsSpace self.old }
        ensures remembers { OnOk result ((accepted : List ℕ) → Remembers accepted self.old.dedup → Remembers (number ∷ accepted) self.new.dedup) }
        ensures acks { OnOk result ((bound : ℕ) × IsJoined self.old.acks.ranges self.new.acks.ranges number bound) }
        ensures due { OnOk result (self.new.acks.is_due ≡ (self.old.acks.is_due || is_ack_eliciting)) }
        ensures rest { self.new ≡ record self.old { dedup = self.new.dedup; acks = self.new.acks } }
        ensures err { OnErr result (self.new ≡ self.old) }
        ensures space { IsSpace self.new }
    {
        insert_received(&mut self.dedup, &mut self.acks, number, is_ack_eliciting)
    }

    /// Takes a frame of the peer's. Answers the error with which the peer closes by it, if it does. A fault says why it is
    /// refused, with its code and the type of the frame. Memory is answered only for a frame that isn't at fault.
    pub fn take_frame(
        &mut self,
        alloc: Global,
        frame: &Frame<'_>,
        now: Moment,
    ) -> Result<Option<ConnectionError>, StreamFault>
        requires { IsSpace self.old }
        ensures ok { IfOk result (λ closed. IsFrameTaken now.0 self.old self.new frame.now closed) }
        ensures taken { OnOk result (frame_refusal self.old frame.now ≡ None) }
        ensures fault { IfErr result (λ e. IsRefusedBy e (frame_refusal self.old frame.now)) }
        ensures memory { IfErr result (λ e. e ≡ Wanting → may_want_memory self.old frame.now ≡ true) }
        ensures err { OnErr result (self.new ≡ self.old) }
        ensures space { IsSpace self.new }
    {
        let Ok(coming) = coming_frame(alloc, frame) else {
            self.check_stream(frame)?;
            return Err(StreamFault::Memory);
        };
        if let Some(coming) = coming {
            self.take_coming(alloc, coming)?;
            return Ok(None);
        }
        self.take_other(frame, now)
    }

    // Takes a frame that speaks of streams, and appends to the log what it brings.
    fn take_coming(&mut self, alloc: Global, frame: StreamFrame) -> Result<(), StreamFault>
        ensures ok { OnOk result (IsReceived self.old.streams self.new.streams frame) }
        ensures rest { OnOk result (self.new ≡ record self.old { streams = self.new.streams; log = logged self.old.log (items_of self.old.streams frame) }) }
        ensures keeps_out { KeepsOut self.old.streams self.new.streams }
        ensures taken { OnOk result (refusal_of self.old.streams frame ≡ None) }
        ensures fault { IfErr result (λ e. IsRefusedBy e (refusal_of self.old.streams frame)) }
        ensures memory { (limit : ℕ) → frame ≡ MaxData limit → self.old.log ≡ None → IsOk result }
        ensures err { OnErr result (self.new ≡ self.old) }
    {
        let before = self.log.len();
        if self.streams.note(&frame, &mut self.log).is_err() {
            self.streams.check(&frame)?;
            return Err(StreamFault::Memory);
        }
        let received = self.streams.received(alloc, frame);
        if received.is_err() {
            self.log.truncate(before);
        }
        received
    }

    // Refuses a STREAM frame that is at fault.
    fn check_stream(&self, frame: &Frame<'_>) -> Result<(), StreamFault>
        requires { IsStream frame.now }
        ensures ok { OnOk result (frame_refusal self.now frame.now ≡ None) }
        ensures fault { IfErr result (λ e. IsRefusal e (frame_refusal self.now frame.now)) }
    {
        match frame {
            Frame::Stream(stream) => {
                self.streams
                    .check_stream(stream.id, stream.offset, stream.payload, stream.fin)
            }
            _ => Ok(()),
        }
    }

    // Takes a frame that doesn't speak of streams.
    fn take_other(
        &mut self,
        frame: &Frame<'_>,
        now: Moment,
    ) -> Result<Option<ConnectionError>, StreamFault>
        requires space { IsSpace self.old }
        requires other { coming_of frame.now ≡ None }
        ensures ok { IfOk result (λ closed. IsFrameTaken now.0 self.old self.new frame.now closed) }
        ensures taken { OnOk result (frame_refusal self.old frame.now ≡ None) }
        ensures fault { IfErr result (λ e. IsRefusedBy e (frame_refusal self.old frame.now)) }
        ensures memory { IfErr result (λ e. e ≡ Wanting → may_want_memory self.old frame.now ≡ true) }
        ensures err { OnErr result (self.new ≡ self.old) }
        ensures space { IsSpace self.new }
    {
        match frame {
            Frame::Ack(ack) => self.take_ack(ack, frame.frame_type(), now)?,
            Frame::PathChallenge(bytes) => self.path_response = Some(*bytes),
            Frame::NewToken { .. } => self.refuse_at_server(FrameType::NEW_TOKEN)?,
            Frame::HandshakeDone => self.refuse_at_server(FrameType::HANDSHAKE_DONE)?,
            Frame::Datagram { payload, .. } => self.refuse_datagram(payload, frame.frame_type())?,
            _ => return Ok(closed_by(frame)),
        }
        Ok(None)
    }

    // An ACK came, in a frame of this type.
    fn take_ack(&mut self, ack: &Ack<'_>, frame: FrameType, now: Moment) -> Result<(), StreamFault>
        requires { IsSpace self.old }
        ensures ok { OnOk result (IsAckReceived now.0 self.old self.new ack.now) }
        ensures taken { OnOk result (ack.now.greatest < self.old.next_number) }
        ensures fault { IfErr result (λ e. IsRefusedBy e (if nat_lt ack.now.greatest self.old.next_number then None else refused codes.protocol_violation frame.0)) }
        ensures memory { IfErr result (λ e. e ≡ Wanting → is_some self.old.log ≡ true) }
        ensures err { OnErr result (self.new ≡ self.old) }
        ensures space { IsSpace self.new }
    {
        let greatest = ack.greatest.into_inner();
        if greatest >= self.next_number {
            return Err(violation(frame));
        }
        let mut log = self.log.lend(self.sent.frame_count())?;
        self.measure(greatest, now);
        self.acknowledge(ack, &mut log);
        self.log.give_back(log);
        let largest = greatest_of(self.largest_acked, greatest);
        self.largest_acked = Some(largest);
        self.lose(largest, now);
        Ok(())
    }

    // A round-trip time is measured if the packet with the greatest acknowledged number is out.
    fn measure(&mut self, greatest: u64, now: Moment)
        ensures { self.new ≡ record self.old { rtt = measured (packet_at self.old.sent greatest) now.0 self.old.rtt } }
    {
        if let Some(packet) = self.sent.get(greatest) {
            self.rtt.update(now.since(packet.time_sent));
        }
    }

    // What an ACK covers is acknowledged. If that is a packet that is out, no probe counts any more. Answers whether it is.
    fn acknowledge(&mut self, ack: &Ack<'_>, log: &mut Option<Vec<Item>>) -> bool
        requires owed { AreOwed self.old.streams self.old.sent }
        requires room { HasRoom log.old (frame_count self.old.sent) }
        ensures taken { IsAckConfirmed (ack_of ack.now) self.old.sent self.new.sent self.old.streams self.new.streams self.old.congestion self.new.congestion (kept_in log.old) (kept_in log.new) }
        ensures none { result ≡ false → self.new.sent ≡ self.old.sent }
        ensures some { result ≡ true → self.new.sent ≡ self.old.sent → ⊥ }
        ensures rest { self.new ≡ record self.old { streams = self.new.streams; sent = self.new.sent; congestion = self.new.congestion; pto_count = (if result then 0 else self.old.pto_count) } }
        ensures owed { AreOwed self.new.streams self.new.sent }
    {
        let is_any = on_ack_received(
            &mut self.streams,
            &mut self.sent,
            &mut self.congestion,
            ack,
            log,
        );
        if is_any {
            self.pto_count = 0;
        }
        is_any
    }

    // The packets that are lost by now, if this is the greatest number that was acknowledged.
    pub(crate) fn lose(&mut self, largest_acked: u64, now: Moment)
        requires { AreOwed self.old.streams self.old.sent }
        ensures lost { IsLossTaken largest_acked now.0 self.old self.new }
        ensures owed { AreOwed self.new.streams self.new.sent }
    {
        let delay = self.rtt.loss_delay();
        let count = detect_lost_packets(
            &mut self.streams,
            &mut self.sent,
            &mut self.congestion,
            largest_acked,
            now,
            delay,
            self.next_number,
        );
        self.packets_lost = self.packets_lost.saturating_add(count);
    }

    // A server takes no such frame.
    fn refuse_at_server(&self, frame: FrameType) -> Result<(), StreamFault>
        ensures ok { OnOk result (refused_at_server self.now.streams.side frame.0 ≡ None) }
        ensures fault { IfErr result (λ e. IsRefusal e (refused_at_server self.now.streams.side frame.0)) }
    {
        match self.streams.side() {
            Side::Server => Err(violation(frame)),
            Side::Client => Ok(()),
        }
    }

    // Refuses the payload of a DATAGRAM frame of this type, if such frames are off or it is longer than the limit.
    fn refuse_datagram(&self, payload: &[u8], frame: FrameType) -> Result<(), StreamFault>
        ensures ok { OnOk result (datagram_refusal self.now.datagram_receive (length payload.now) frame.0 ≡ None) }
        ensures fault { IfErr result (λ e. IsRefusal e (datagram_refusal self.now.datagram_receive (length payload.now) frame.0)) }
    {
        match self.datagram_receive {
            Some(most) if payload.len() as u64 <= most => Ok(()),
            _ => Err(violation(frame)),
        }
    }
}

// The greatest number that is acknowledged, with this one.
fn greatest_of(largest_acked: Option<u64>, number: u64) -> u64
    ensures { result ≡ greatest_of largest_acked number }
{
    match largest_acked {
        None => number,
        Some(largest) => largest.max(number),
    }
}

// PROTOCOL_VIOLATION by a frame of this type.
fn violation(frame: FrameType) -> StreamFault
    ensures { IsRefusal result (refused codes.protocol_violation frame.0) }
{
    StreamFault::Transport(TransportError {
        code: TransportErrorCode::PROTOCOL_VIOLATION,
        frame: Some(frame.0),
        reason: Reason::of(b""),
    })
}

// The frame that speaks of streams, with a copy of the bytes that it bears.
fn coming_frame(alloc: Global, frame: &Frame<'_>) -> Result<Option<StreamFrame>, Memory>
    ensures ok { IfOk result (λ o. o ≡ coming_of frame.now) }
    ensures err { OnErr result (IsStream frame.now) }
{
    Ok(Some(match frame {
        Frame::Stream(stream) => StreamFrame::Stream {
            id: stream.id,
            offset: stream.offset,
            payload: Bytes::copy_from_slice(alloc, stream.payload)?,
            fin: stream.fin,
        },
        Frame::ResetStream {
            id,
            error_code,
            final_size,
        } => StreamFrame::Reset {
            id: *id,
            code: *error_code,
            size: *final_size,
        },
        Frame::StopSending { id, error_code } => StreamFrame::Stop {
            id: *id,
            code: *error_code,
        },
        Frame::MaxData(limit) => StreamFrame::MaxData(*limit),
        Frame::MaxStreamData { id, offset } => StreamFrame::MaxStreamData {
            id: *id,
            max: *offset,
        },
        Frame::MaxStreams { dir, count } => StreamFrame::MaxStreams {
            dir: *dir,
            count: *count,
        },
        _ => return Ok(None),
    }))
}

// The error with which the peer closes by a frame, if it does.
fn closed_by(frame: &Frame<'_>) -> Option<ConnectionError>
    ensures { IsClosedBy frame.now result }
{
    match *frame {
        Frame::ConnectionClose {
            code,
            frame_type,
            reason,
        } => Some(ConnectionError::ConnectionClosed(ConnectionClose {
            code: TransportErrorCode(code.into_inner()),
            frame: some_type(frame_type),
            reason: Reason::of(reason),
        })),
        Frame::ApplicationClose { code, reason } => {
            Some(ConnectionError::ApplicationClosed(ApplicationClose {
                error_code: code,
                reason: Reason::of(reason),
            }))
        }
        _ => None,
    }
}

// The type of the frame at fault: 0 if none is known.
fn some_type(frame_type: VarInt) -> Option<u64>
    ensures { result ≡ some_type frame_type }
{
    match frame_type.into_inner() {
        0 => None,
        other => Some(other),
    }
}
