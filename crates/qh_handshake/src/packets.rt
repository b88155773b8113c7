ghost use Rattle.std.specs.Prelude.{◌≡◌, ◌⊎◌, ◌<◌, ◌^◌, ℕ, List, Some, None, OnOk, IfErr, Bool};
ghost use Rattle.qh_base.specs.declared.connection_error.ConnectionError.TheVariants.{Memory as Wanting, TransportError as Fault};
ghost use Rattle.qh_base.specs.declared.transport_error.TransportError.{TransportError as ATransportError};
ghost use Rattle.qh_frame.specs.FrameAt.{Begins};
ghost use Rattle.qh_frame.specs.Plain.{plain_of};
ghost use Rattle.qh_frame.specs.declared.frame.Frame.{Frame as AFrame};
ghost use Rattle.qh_handshake.specs.Handshake.{KeepsHello};
ghost use Rattle.qh_handshake.specs.Incoming.{AreFramesTaken, IsFirstRefused, IsPacketHandled};
ghost use Rattle.qh_handshake.specs.InitialSpace.{IsInitialSpace};
ghost use Rattle.qh_handshake.specs.Receiving.{frame_refusal};
ghost use Rattle.qh_handshake.specs.Unread.{IsPacketUnread, StopsUnrefused};
ghost use Rattle.qh_handshake.specs.declared.receiving.SpaceFault.TheVariants.{Transport, Memory as SpaceMemory};
ghost use Rattle.qh_packet.specs.Frames.{AreValidFrames};

use crate::{InitialSpace, SpaceFault};
use qh_base::{ConnectionError, Moment};
use qh_frame::get_frame;
use qh_packet::validate_frames;
use std::alloc::Global;

/// A packet came whose tag was accepted. The error is the one that ends the connection by it. After want of memory some of it may have
/// been taken.
pub(crate) fn handle_packet(
    space: &mut InitialSpace,
    alloc: Global,
    now: Moment,
    number: u64,
    frames: &[u8],
) -> Result<(), ConnectionError>
    requires space { IsInitialSpace space.old }
    requires number { number < 2 ^ 62 }
    ensures ok { OnOk result (IsPacketHandled now number frames.now space.old space.new None) }
    ensures err { IfErr result (λ e. (e ≡ Wanting) ⊎ IsPacketHandled now number frames.now space.old space.new (Some e)) }
    ensures wanting { IfErr result (λ e. e ≡ Wanting → IsPacketUnread now number frames.now space.old) }
    ensures space { IsInitialSpace space.new }
    ensures hello { KeepsHello space.old space.new }
{
    if !space.dedup.is_new(number) {
        return Ok(());
    }
    let surveyed = match validate_frames(frames) {
        Ok(surveyed) => surveyed,
        Err(fault) => return Err(ConnectionError::TransportError(fault.transport_error())),
    };
    if space
        .accept(number, surveyed.is_ack_eliciting, now)
        .is_err()
    {
        return Err(refuse_unnoted(space, alloc, now, frames));
    }
    take_frames(space, alloc, now, frames)
}

// Memory is wanting to note the number of a packet. A fault of its first frame ends the connection all the same.
fn refuse_unnoted(
    space: &mut InitialSpace,
    alloc: Global,
    now: Moment,
    frames: &[u8],
) -> ConnectionError
    requires space { IsInitialSpace space.old }
    requires surveyed { (is_eliciting : Bool) × AreValidFrames frames.now is_eliciting }
    ensures error { (result ≡ Wanting) ⊎ ((e : ATransportError) × (result ≡ Fault e) × IsFirstRefused frames.now space.old e × (space.new ≡ space.old)) }
    ensures wanting { result ≡ Wanting → (rest : List ℕ) × (frame : AFrame) × Begins frames.now (plain_of frame) rest × (frame_refusal space.old frame ≡ None) }
    ensures space { IsInitialSpace space.new }
    ensures hello { KeepsHello space.old space.new }
{
    let Ok((frame, _)) = get_frame(frames) else {
        return ConnectionError::Memory;
    };
    match space.take_frame(alloc, &frame, now) {
        Err(fault) => error_by(fault),
        Ok(_) => ConnectionError::Memory,
    }
}

// Takes the frames of a packet, up to one that closes or is refused.
fn take_frames(
    space: &mut InitialSpace,
    alloc: Global,
    now: Moment,
    frames: &[u8],
) -> Result<(), ConnectionError>
    requires space { IsInitialSpace space.old }
    requires surveyed { (is_eliciting : Bool) × AreValidFrames frames.now is_eliciting }
    ensures ok { OnOk result (AreFramesTaken now.0 frames.now space.old space.new None) }
    ensures err { IfErr result (λ e. (e ≡ Wanting) ⊎ AreFramesTaken now.0 frames.now space.old space.new (Some e)) }
    ensures wanting { IfErr result (λ e. e ≡ Wanting → StopsUnrefused now.0 frames.now space.old) }
    ensures space { IsInitialSpace space.new }
    ensures hello { KeepsHello space.old space.new }
{
    let mut rest = frames;
    while let Ok((frame, more)) = get_frame(rest) {
        match space.take_frame(alloc, &frame, now) {
            Ok(None) => rest = more,
            Ok(Some(close)) => return Err(ConnectionError::ConnectionClosed(close)),
            Err(fault) => return Err(error_by(fault)),
        }
    }
    Ok(())
}

// The error that ends a connection if a frame isn't taken.
fn error_by(fault: SpaceFault) -> ConnectionError
    ensures refused { (e : ATransportError) → fault ≡ Transport e → result ≡ Fault e }
    ensures wanting { fault ≡ SpaceMemory → result ≡ Wanting }
{
    match fault {
        SpaceFault::Transport(error) => ConnectionError::TransportError(error),
        SpaceFault::Memory => ConnectionError::Memory,
    }
}
