ghost use Rattle.std.specs.Prelude.{◌≡◌, ◌⊎◌, ◌<◌, ◌^◌, ℕ, List, [], length, None, Some, Bool, true, false, OnOk, OnErr, IfOk, IfSome, IfNone, IfErr, IsTrue};
ghost use Rattle.qh_base.specs.TransportFault.{IsFault};
ghost use Rattle.std.specs.Option.{option_map};
ghost use Rattle.qh_base.specs.declared.connection_error.ConnectionError.TheVariants.{TransportError as Fault};
ghost use Rattle.qh_base.specs.declared.time.Moment.{Moment as AMoment};
ghost use Rattle.qh_base.specs.declared.transport_error.TransportError.{TransportError as ATransportError};
ghost use Rattle.qh_core.specs.Inner.{IsConnection, IsFailedBy, is_open};
ghost use Rattle.qh_core.specs.Receiving.{AreFramesTaken, BringsClose, BringsPacket, GoesOnWith, HasContent, HasWhatOpens, IsAccepted, IsDatagramTaken, IsDatagramUnread, IsExpectedOf, IsFaulted, IsNewTo, IsOpenedBy, IsPacketHandled, IsPacketTaken, IsPacketUnread, StopsUnrefused, is_close};
ghost use Rattle.qh_frame.specs.Plain.{plain_of};
ghost use Rattle.qh_frame.specs.Range.{IsInRange};
ghost use Rattle.qh_frame.specs.TypeOf.{named};
ghost use Rattle.qh_frame.specs.declared.frame.Frame.{Frame as AFrame};
ghost use Rattle.qh_frame.specs.declared.frame.FrameFault.{FrameFault as AFrameFault};
ghost use Rattle.qh_packet.specs.Frames.{AreValidFrames, IsFaultyFrame};
ghost use Rattle.qh_packet.specs.declared.frames.PacketFault.TheVariants as packet_fault;
ghost use Rattle.qh_space.specs.Space.{IsSpace};
ghost use Rattle.qh_spec.specs.Codes as codes;
ghost use Rattle.qh_spec.specs.Link.{other};
ghost use Rattle.qh_spec.specs.QuicFrames.{QuicFrame, AreQuicFrames};
ghost use Rattle.qh_streams.specs.declared.fault.StreamFault.TheVariants.{Transport, Memory as Wanting};
ghost use Rattle.std.specs.List.{AllByRecursion, list_any};

use crate::{Accepted, Inner, Session, State};
use qh_base::{ConnectionError, Memory, Moment, TransportError};
use qh_frame::{Frame, get_frame};
use qh_packet::{OneRttPacket, open_packet, validate_frames};
use qh_space::DataSpace;
use qh_streams::StreamFault;
use std::alloc::Global;

impl<S: Session> Inner<S> {
    // Takes a datagram, and answers the frames of the packet that was accepted, if one was. After want of memory the connection has
    // failed.
    pub(crate) fn handle_datagram<'a>(
        &mut self,
        alloc: Global,
        now: Moment,
        datagram: &'a [u8],
    ) -> Result<Option<Accepted<'a>>, Memory>
        requires { IsConnection self.old }
        ensures ok { OnOk result (IsDatagramTaken (S.accepts self.old.session) now datagram.now self.old self.new) }
        ensures brings { IfOk result (λ o. IfSome o (λ a. (b : BringsPacket (S.accepts self.old.session) now datagram.now a.frames.now self.old self.new) × (a.taken ≡ length b.taken.taken))) }
        ensures none { IfOk result (λ o. o ≡ None → self.new.space ≡ self.old.space) }
        ensures has { is_open self.old.state ≡ true → HasWhatOpens (S.accepts self.old.session) self.old datagram.now }
        ensures err { OnErr result (IsFailedBy self.old self.new) }
        ensures wanting { OnErr result (IsDatagramUnread (S.accepts self.old.session) now datagram.now self.old) }
        ensures connection { IsConnection self.new }
    {
        match self.state {
            State::Established => {}
            State::Closed { .. } => {
                self.take_closed(datagram);
                return Ok(None);
            }
            State::Draining { .. } | State::Drained => return Ok(None),
        }
        let Some(packet) = self.open(datagram) else {
            return Ok(None);
        };
        let stats = self.stats();
        let Ok(accepted) = self.handle_packet(alloc, now, packet.number, packet.frames) else {
            self.fail(alloc, stats);
            return Err(Memory);
        };
        let Some(taken) = accepted else {
            return Ok(None);
        };
        Ok(Some(Accepted {
            frames: packet.frames,
            taken,
        }))
    }

    // The packet that a datagram is, where it is one for this end.
    fn open<'a>(&self, datagram: &'a [u8]) -> Option<OneRttPacket<'a>>
        ensures some { IfSome result (λ p. IsOpenedBy (S.accepts self.now.session) self.now datagram.now p.number p.frames.now × (p.number < 2 ^ 62)) }
        ensures has { IfSome result (λ p. (fs : List QuicFrame) → AreQuicFrames p.frames.now fs → HasContent self.now datagram.now p.number fs) }
        ensures none { IfNone result ((number : ℕ) (frames : List ℕ) → IsOpenedBy (S.accepts self.now.session) self.now datagram.now number frames → ⊥) }
    {
        open_packet(
            &self.session,
            datagram,
            self.local_id.len(),
            self.side.other(),
            self.space.dedup.next_expected(),
        )
    }

    // A datagram came to an end that isn't open.
    fn take_closed(&mut self, datagram: &[u8])
        requires whole { IsConnection self.old }
        requires closed { is_open self.old.state ≡ false }
        ensures taken { (now : AMoment) → IsDatagramTaken (S.accepts self.old.session) now datagram.now self.old self.new }
        ensures connection { IsConnection self.new }
    {
        let brings_close = self.brings_close(datagram);
        self.hear_closed(brings_close);
    }

    // Whether a datagram is a packet that closes.
    fn brings_close(&self, datagram: &[u8]) -> bool
        ensures yes { result ≡ true → BringsClose (S.accepts self.now.session) self.now datagram.now }
        ensures no { result ≡ false → BringsClose (S.accepts self.now.session) self.now datagram.now → ⊥ }
    {
        match self.open(datagram) {
            Some(packet) => has_close(packet.frames),
            None => false,
        }
    }
}

impl<S> Inner<S> {
    // A packet came whose tag was accepted. If it is accepted its number was noted, and its frames were taken up to one that closes or
    // is refused: it answers how many. After want of memory some of it may have been taken.
    fn handle_packet(
        &mut self,
        alloc: Global,
        now: Moment,
        number: u64,
        frames: &[u8],
    ) -> Result<Option<usize>, Memory>
        requires whole { IsConnection self.old }
        requires open { is_open self.old.state ≡ true }
        requires number { number < 2 ^ 62 }
        ensures ok { OnOk result (IsPacketHandled now number frames.now self.old self.new) }
        ensures accepted { IfOk result (λ o. IfSome o (λ count. IsNewTo self.old.space number × ((p : IsPacketTaken now number frames.now self.old self.new) × (count ≡ length p.taken)))) }
        ensures not { IfOk result (λ o. o ≡ None → self.new.space ≡ self.old.space) }
        ensures err { OnErr result (self.new ≡ record self.old { space = self.new.space; idle = self.new.idle }) }
        ensures wanting { OnErr result (IsPacketUnread now number frames.now self.old) }
        ensures connection { OnOk result (IsConnection self.new) }
    {
        if !self.space.dedup.is_new(number) {
            return Ok(None);
        }
        let surveyed = match validate_frames(frames) {
            Ok(surveyed) => surveyed,
            Err(fault) => {
                self.close_by_fault(now, fault.transport_error());
                return Ok(None);
            }
        };
        if self
            .space
            .accept(number, surveyed.is_ack_eliciting)
            .is_err()
        {
            self.refuse_unnoted(alloc, now, frames)?;
            return Ok(None);
        }
        self.idle.on_accepted(now);
        let (count, end) = take_frames(&mut self.space, alloc, now, frames)?;
        if let Some(error) = end {
            self.end_by(now, error);
        }
        Ok(Some(count))
    }

    // Memory is wanting to note the number of a packet. A fault of its first frame closes all the same.
    fn refuse_unnoted(&mut self, alloc: Global, now: Moment, frames: &[u8]) -> Result<(), Memory>
        requires whole { IsConnection self.old }
        requires valid { (is_eliciting : Bool) × AreValidFrames frames.now is_eliciting }
        ensures ok { OnOk result ((e : ATransportError) × AreFramesTaken now.0 frames.now self.old.space self.old.space [] (Some (Fault e)) × IsFaulted now e self.old self.new) }
        ensures err { OnErr result (self.new ≡ record self.old { space = self.new.space }) }
        ensures wanting { OnErr result (StopsUnrefused now.0 frames.now self.old.space) }
        ensures connection { OnOk result (IsConnection self.new) }
    {
        let Ok((frame, _)) = get_frame(frames) else {
            return Err(Memory);
        };
        match self.space.take_frame(alloc, &frame, now) {
            Err(StreamFault::Transport(error)) => {
                self.close_by_fault(now, error);
                Ok(())
            }
            Err(StreamFault::Memory) => Err(Memory),
            Ok(_) => Err(Memory),
        }
    }

    // A frame closed the connection, or was refused.
    fn end_by(&mut self, now: Moment, error: ConnectionError)
        ensures { GoesOnWith now (Some error) self.old self.new }
    {
        match error {
            ConnectionError::TransportError(fault) => self.close_by_fault(now, fault),
            other => self.drain(now, other),
        }
    }
}

// Takes the frames of a packet, up to one that closes or is refused. Answers how many, and the error that ends the connection then.
fn take_frames(
    space: &mut DataSpace,
    alloc: Global,
    now: Moment,
    frames: &[u8],
) -> Result<(usize, Option<ConnectionError>), Memory>
    requires space { IsSpace space.old }
    requires surveyed { (is_eliciting : Bool) × AreValidFrames frames.now is_eliciting }
    ensures ok { IfOk result (λ it. (taken : List AFrame) × AreFramesTaken now.0 frames.now space.old space.new taken it.1 × (it.0 ≡ length taken)) }
    ensures wanting { OnErr result (StopsUnrefused now.0 frames.now space.old) }
    ensures space { OnOk result (IsSpace space.new) }
{
    let mut count = 0;
    let mut rest = frames;
    while let Ok((frame, more)) = get_frame(rest) {
        match space.take_frame(alloc, &frame, now) {
            Ok(None) => {
                rest = more;
                count += 1;
            }
            Ok(Some(closed)) => return Ok((count + 1, Some(closed))),
            Err(fault) => return Ok((count, Some(error_by(fault)?))),
        }
    }
    Ok((count, None))
}

// The error that ends a connection where a frame is refused.
fn error_by(fault: StreamFault) -> Result<ConnectionError, Memory>
    ensures ok { IfOk result (λ end. (error : ATransportError) × (fault ≡ Transport error) × (end ≡ Fault error)) }
    ensures wanting { OnErr result (fault ≡ Wanting) }
{
    match fault {
        StreamFault::Transport(error) => Ok(ConnectionError::TransportError(error)),
        StreamFault::Memory => Err(Memory),
    }
}

// Whether bytes are frames with values in range, and one of them is a CONNECTION_CLOSE.
fn has_close(frames: &[u8]) -> bool
    ensures yes { result ≡ true → (fs : List QuicFrame) × AreQuicFrames frames.now fs × AllByRecursion IsInRange fs × (list_any is_close fs ≡ true) }
    ensures no { result ≡ false → (fs : List QuicFrame) → AreQuicFrames frames.now fs → AllByRecursion IsInRange fs → list_any is_close fs ≡ false }
{
    let mut has_close = false;
    let mut rest = frames;
    while !rest.is_empty() {
        let Ok((frame, more)) = get_frame(rest) else {
            return false;
        };
        has_close |= closes(&frame);
        rest = more;
    }
    has_close
}

// Whether the frame is a CONNECTION_CLOSE.
fn closes(frame: &Frame<'_>) -> bool
    ensures { result ≡ is_close (plain_of frame.now) }
{
    matches!(
        frame,
        Frame::ConnectionClose { .. } | Frame::ApplicationClose { .. }
    )
}
