ghost use Rattle.std.specs.Prelude.{◌≡◌, [], None, Err, IfOk, IfErr};
ghost use Rattle.std.specs.Option.{option_map};
ghost use Rattle.qh_base.specs.TransportFault.{IsFault};
ghost use Rattle.qh_frame.specs.TypeOf.{named};
ghost use Rattle.qh_spec.specs.Codes as codes;
ghost use Rattle.qh_frame.specs.Plain.{plain_of};
ghost use Rattle.qh_frame.specs.declared.frame.FrameFault.{FrameFault as AFrameFault};
ghost use Rattle.qh_packet.specs.Frames.{AreValidFrames, IsFaultyFrame, is_ack_eliciting};
ghost use Rattle.qh_packet.specs.declared.frames.PacketFault.TheVariants as fault;

use qh_base::{Reason, TransportError, TransportErrorCode};
use qh_frame::{Frame, FrameFault, get_frame};

/// What is known of a packet's frames before any is taken.
#[derive(Clone, Copy)]
pub struct ValidFrames {
    /// Whether the packet wants an acknowledgement: it has a frame beside PADDING, ACK and CONNECTION_CLOSE (RFC 9002, section 2).
    pub is_ack_eliciting: bool,
}

/// Why no frame of a packet is taken.
#[derive(Clone, Copy)]
pub enum PacketFault {
    /// It has no frame (RFC 9000, section 12.4).
    Empty,
    /// This one can't be read, or a value in it is out of its range.
    Frame(FrameFault),
}

impl PacketFault {
    /// The error that closes a connection by it (RFC 9000, sections 12.4 and 20.1).
    pub fn transport_error(self) -> TransportError
        ensures empty { self ≡ fault.Empty → IsFault codes.protocol_violation None result }
        ensures frame { (f : AFrameFault) → self ≡ fault.Frame f → IsFault codes.frame_encoding_error (option_map named f.frame) result }
    {
        let (code, frame) = match self {
            PacketFault::Empty => (TransportErrorCode::PROTOCOL_VIOLATION, None),
            PacketFault::Frame(fault) => {
                (TransportErrorCode::FRAME_ENCODING_ERROR, fault.frame_type())
            }
        };
        TransportError {
            code,
            frame,
            reason: Reason::of(b""),
        }
    }
}

/// Reads all frames of a packet and takes none. The first that can't be read is answered.
pub fn validate_frames(bytes: &[u8]) -> Result<ValidFrames, PacketFault>
    ensures ok { IfOk result (λ s. AreValidFrames bytes.now s.is_ack_eliciting) }
    ensures empty { result ≡ Err fault.Empty → bytes.now ≡ [] }
    ensures frame { IfErr result (λ e. (f : AFrameFault) → e ≡ fault.Frame f → IsFaultyFrame bytes.now f.frame) }
{
    if bytes.is_empty() {
        return Err(PacketFault::Empty);
    }
    let mut is_ack_eliciting = false;
    let mut rest = bytes;
    while !rest.is_empty() {
        match get_frame(rest) {
            Ok((frame, more)) => {
                is_ack_eliciting |= is_eliciting(&frame);
                rest = more;
            }
            Err(fault) => return Err(PacketFault::Frame(fault)),
        }
    }
    Ok(ValidFrames { is_ack_eliciting })
}

// Whether a packet with this frame wants an acknowledgement.
fn is_eliciting(frame: &Frame<'_>) -> bool
    ensures { result ≡ is_ack_eliciting (plain_of frame.now) }
{
    !matches!(
        frame,
        Frame::Padding
            | Frame::Ack(_)
            | Frame::ConnectionClose { .. }
            | Frame::ApplicationClose { .. }
    )
}
