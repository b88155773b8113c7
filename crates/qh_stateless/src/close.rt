ghost use Rattle.std.specs.Prelude.{◌≡◌, ℕ, ◌+◌, ◌<◌, ◌≤◌, ◌^◌, ◌++◌, [], ◌∷◌, List, length, OnOk, OnErr};
ghost use Rattle.qh_base.specs.declared.transport_error.TransportError.{TransportError as AnError};
ghost use Rattle.qh_frame.specs.FrameBytes.{frame_bytes};
ghost use Rattle.qh_packet.specs.Initial.{BeginsWithInitial};
ghost use Rattle.qh_packet.specs.Packet.{low_bytes};
ghost use Rattle.qh_packet.specs.Session.{MakesTags, SealsTag};
ghost use Rattle.qh_spec.specs.Datagram.{IsInitialPacket};
ghost use Rattle.qh_spec.specs.declared.sides.Side.TheVariants.{Server};
ghost use Rattle.qh_spec.specs.declared.sides.Space.TheVariants.{Initial};
ghost use Rattle.qh_stateless.specs.Close.{bounded, close_bytes, close_frame, fault_type};

use qh_base::{ConnectionId, Memory, Side, Space, TransportError, VarInt};
use qh_frame::put_connection_close;
use qh_packet::{Session, put_initial};

/// Appends the Initial packet of a server that closes or refuses an attempt, or nothing: number 0, no token, and a CONNECTION_CLOSE of the
/// transport with the error's code, type of frame (0 if it names none) and reason, and the session's tag. It isn't filled up (RFC 9000,
/// sections 10.2.3, 17.2.2 and 19.19).
pub fn put_initial_close<S: Session>(
    session: &S,
    destination: &ConnectionId,
    source: &ConnectionId,
    close: &TransportError,
    out: &mut Vec<u8>,
) -> Result<(), Memory>
    ensures ok { OnOk result (out.new.items ≡ out.old.items ++ close_bytes (S.sealed session.now) destination.now source.now close.now) }
    ensures err { OnErr result (out.new.items ≡ out.old.items) }
{
    let mut frames = Vec::new(*out.allocator());
    put_close(close, &mut frames)?;
    let tag = session.tag(Side::Server, Space::Initial, 0);
    put_initial(out, destination, source, &[], 0, &frames, 0, &tag)
}

/// What `put_initial_close` appends is read back as an Initial packet with these parts, whatever follows it, and by its tag it is the server's
/// packet 0 with that CONNECTION_CLOSE alone.
pub fn written_close()
    ensures form { (sealed : SealsTag) (destination source rest : List ℕ) (e : AnError) → length destination ≤ 20 → length source ≤ 20 → length e.reason ≤ 128 → MakesTags sealed
        → BeginsWithInitial (close_bytes sealed destination source e ++ rest) 195 destination source [] (low_bytes 0 ++ (frame_bytes (close_frame e) ++ sealed Server Initial 0)) rest }
    ensures packet { (sealed : SealsTag) (destination source : List ℕ) (e : AnError) → length destination ≤ 20 → length source ≤ 20 → length e.reason ≤ 128 → MakesTags sealed
        → IsInitialPacket (close_bytes sealed destination source e) (record { space = Initial; sender = Server; number = 0; frames = close_frame e ∷ [] }) }
{}

// Appends the CONNECTION_CLOSE that says the error, or nothing.
fn put_close(error: &TransportError, out: &mut Vec<u8>) -> Result<(), Memory>
    ensures put { OnOk result (out.new.items ≡ out.old.items ++ frame_bytes (close_frame error.now)) }
    ensures short { OnOk result (length (frame_bytes (close_frame error.now)) ≤ 153) }
{
    let kind = match error.frame {
        Some(kind) => bounded(kind),
        None => VarInt::from_u32(0),
    };
    put_connection_close(out, bounded(error.code.0), kind, error.reason.bytes())
}

// The value, or the greatest that a frame can bear (RFC 9000, section 16).
fn bounded(value: u64) -> VarInt
    ensures { result ≡ bounded value }
{
    VarInt::from_u64(value.min(VarInt::MAX_VALUE)).unwrap()
}
