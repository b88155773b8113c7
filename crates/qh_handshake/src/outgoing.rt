ghost use Rattle.std.specs.Prelude.{◌≡◌, ◌⊎◌, ◌+◌, ◌-◌, ◌<◌, ◌≤◌, ◌^◌, ◌++◌, ℕ, List, length, Some, None, true, false, OnOk, OnErr, IfOk, IfSome};
ghost use Rattle.qh_frame.specs.FrameBytes.{frame_bytes};
ghost use Rattle.qh_handshake.specs.Handshake.{IsHandshake, counted, is_limited};
ghost use Rattle.qh_handshake.specs.Outgoing.{IsCloseKept, IsCloseMade, IsCloseUnsent, IsDatagramMade, IsSilent, IsUnsent, bounded, close_frame, datagram_of, fault_type, least_size, room};
ghost use Rattle.qh_handshake.specs.declared.initial_space.InitialSpace.{InitialSpace as ASpace};
ghost use Rattle.qh_spec.specs.QuicFrames.{IsQuicFrame};
ghost use Rattle.qh_spec.specs.Varint.{varint};
ghost use Rattle.qh_spec.specs.declared.sides.Space.TheVariants.{Initial};

use crate::Handshake;
use crate::sending::PACKET_NUMBERS;
use qh_base::{ConnectionClose, Memory, Moment, Side, Space, VarInt};
use qh_frame::put_connection_close;
use qh_packet::{Session, TAG_LEN, put_initial, written_initial};
use std::alloc::Global;

/// No datagram has more bytes, and those that are filled up have as many (RFC 9000, section 14).
const DATAGRAM_SIZE: usize = 1_200;

/// A datagram of one Initial packet that was sent.
#[derive(Clone, Copy)]
pub struct InitialSent {
    /// How many bytes it has.
    pub size: usize,
    /// Whether its packet wants an acknowledgement.
    pub is_ack_eliciting: bool,
}

impl Handshake {
    /// Appends the next datagram, one Initial packet, and answers what was sent; None if nothing is to be sent, or may be sent (RFC 9000,
    /// section 8.1). After want of memory nothing is appended. A packet that was counted as sent by then is in flight, as one that
    /// doesn't arrive.
    pub fn poll_transmit<S: Session>(
        &mut self,
        alloc: Global,
        session: &S,
        now: Moment,
        buf: &mut Vec<u8>,
    ) -> Result<Option<InitialSent>, Memory>
        requires { IsHandshake self.old }
        ensures some { IfOk result (λ o. IfSome o (λ sent. (made : IsDatagramMade (S.sealed session.now) now self.old self.new buf.old.items buf.new.items sent.size) × (sent.is_ack_eliciting ≡ made.is_eliciting))) }
        ensures none { IfOk result (λ o. o ≡ None → (buf.new.items ≡ buf.old.items) × (self.new ≡ self.old) × IsSilent self.old) }
        ensures err { OnErr result (buf.new.items ≡ buf.old.items) }
        ensures wanted { OnErr result (IsSilent self.old → ⊥) }
        ensures unsent { OnErr result (IsUnsent now self.old self.new) }
        ensures whole { IsHandshake self.new }
    {
        if self.is_limited() {
            return Ok(None);
        }
        let room = self.room();
        let Some(space) = &mut self.space else {
            return Ok(None);
        };
        let mut frames = Vec::new(alloc);
        let Some(made) = space.write_packet(alloc, now, room, &mut frames)? else {
            return Ok(None);
        };
        let least = self.least_size(made.is_ack_eliciting);
        let size = self.append(session, made.number, &frames, least, buf)?;
        Ok(Some(InitialSent {
            size,
            is_ack_eliciting: made.is_ack_eliciting,
        }))
    }

    /// Appends a datagram that closes the connection, one Initial packet with a CONNECTION_CLOSE of the transport (RFC 9000, section
    /// 10.2.3), and answers its size; None if no Initial packet may be sent. After want of memory nothing is appended, and at most a
    /// packet number is used up.
    pub fn transmit_close<S: Session>(
        &mut self,
        alloc: Global,
        session: &S,
        close: &ConnectionClose,
        buf: &mut Vec<u8>,
    ) -> Result<Option<usize>, Memory>
        requires { IsHandshake self.old }
        ensures some { IfOk result (λ o. IfSome o (λ size. IsCloseMade (S.sealed session.now) close.now self.old self.new buf.old.items buf.new.items size)) }
        ensures none { IfOk result (λ o. o ≡ None → (buf.new.items ≡ buf.old.items) × (self.new ≡ self.old) × IsCloseKept self.old) }
        ensures err { OnErr result (buf.new.items ≡ buf.old.items) }
        ensures wanted { OnErr result (IsCloseKept self.old → ⊥) }
        ensures unsent { OnErr result (IsCloseUnsent self.old self.new) }
        ensures whole { IsHandshake self.new }
    {
        if self.is_limited() {
            return Ok(None);
        }
        let Some(number) = self.take_number() else {
            return Ok(None);
        };
        // There is room for it: this is called for its contract alone.
        let _ = self.room();
        let mut frames = Vec::new(alloc);
        put_close(&mut frames, close)?;
        let least = self.least_size(false);
        let size = self.append(session, number, &frames, least, buf)?;
        Ok(Some(size))
    }

    // The number of the next packet, which is used up, if the space is there and has one left.
    fn take_number(&mut self) -> Option<u64>
        requires { IsHandshake self.old }
        ensures some { IfSome result (λ number. (s : ASpace) × (self.old.space ≡ Some s) × (number ≡ s.next_number) × (number < 2 ^ 62) × (self.new ≡ record self.old { space = Some (record s { next_number = s.next_number + 1 }) })) }
        ensures none { result ≡ None → (self.new ≡ self.old) × IsCloseKept self.old }
        ensures whole { IsHandshake self.new }
    {
        let Some(space) = &mut self.space else {
            return None;
        };
        let number = space.next_number;
        if number == PACKET_NUMBERS {
            return None;
        }
        space.next_number = number + 1;
        Some(number)
    }

    // Whether the limit before validation forbids another datagram (RFC 9000, section 8.1).
    pub(crate) fn is_limited(&self) -> bool
        ensures { result ≡ is_limited self.now }
    {
        let most = self.bytes_received.saturating_mul(3);
        !self.is_validated && most.saturating_sub(self.bytes_sent) < DATAGRAM_SIZE as u64
    }

    // How many bytes of frames a datagram has room for.
    fn room(&self) -> usize
        requires { length self.now.token ≤ 512 }
        ensures value { result ≡ room self.now }
        ensures wide { 532 ≤ result }
        ensures ids { (length self.now.remote_id ≤ 20) × (length self.now.local_id ≤ 20) }
    {
        let ids = self.remote_id.len() + self.local_id.len();
        DATAGRAM_SIZE - (11 + TAG_LEN + ids + token_size(&self.token) + 2)
    }

    // How many bytes a datagram has at least (RFC 9000, section 14.1).
    fn least_size(&self, is_ack_eliciting: bool) -> usize
        ensures { result ≡ least_size self.now is_ack_eliciting }
    {
        match self.side {
            Side::Client => DATAGRAM_SIZE,
            Side::Server if is_ack_eliciting => DATAGRAM_SIZE,
            Side::Server => 0,
        }
    }

    // Appends an Initial packet with these frames, and counts its bytes.
    fn append<S: Session>(
        &mut self,
        session: &S,
        number: u64,
        frames: &[u8],
        least: usize,
        buf: &mut Vec<u8>,
    ) -> Result<usize, Memory>
        requires token { length self.old.token ≤ 512 }
        requires frames { length frames.now ≤ room self.old }
        requires wide { 532 ≤ room self.old }
        requires least { least ≤ 1200 }
        ensures put { OnOk result (buf.new.items ≡ buf.old.items ++ datagram_of (S.sealed session.now) self.old number frames.now least) }
        ensures size { IfOk result (λ size. (size ≡ length (datagram_of (S.sealed session.now) self.old number frames.now least)) × (size ≤ 1200) × (least ≤ size)) }
        ensures err { OnErr result (buf.new.items ≡ buf.old.items) }
        ensures tag { OnOk result (length (S.sealed session.now self.old.side Initial number) ≡ 32) }
        ensures rest { IfOk result (λ size. self.new ≡ record self.old { bytes_sent = counted (self.old.bytes_sent + size) }) }
        ensures kept { OnErr result (self.new ≡ self.old) }
    {
        written_initial();
        let start = buf.len();
        self.put_packet(session, number, frames, least, buf)?;
        let size = buf.len() - start;
        self.bytes_sent = self.bytes_sent.saturating_add(size as u64);
        Ok(size)
    }

    // Appends an Initial packet with these frames, or nothing.
    fn put_packet<S: Session>(
        &self,
        session: &S,
        number: u64,
        frames: &[u8],
        least: usize,
        buf: &mut Vec<u8>,
    ) -> Result<(), Memory>
        requires token { length self.now.token ≤ 512 }
        requires frames { length frames.now ≤ 1200 }
        requires least { least ≤ 1200 }
        ensures put { OnOk result (buf.new.items ≡ buf.old.items ++ datagram_of (S.sealed session.now) self.now number frames.now least) }
        ensures tag { OnOk result (length (S.sealed session.now self.now.side Initial number) ≡ 32) }
        ensures err { OnErr result (buf.new.items ≡ buf.old.items) }
    {
        let tag = session.tag(self.side, Space::Initial, number);
        put_initial(
            buf,
            &self.remote_id,
            &self.local_id,
            &self.token,
            number,
            frames,
            least,
            &tag,
        )
    }
}

// How many bytes a token has, with its length.
fn token_size(token: &[u8]) -> usize
    requires { length token.now ≤ 512 }
    ensures value { result ≡ length (varint (length token.now)) + length token.now }
    ensures short { result ≤ 520 }
{
    VarInt::from_u32(token.len() as u32).size() + token.len()
}

// Appends a CONNECTION_CLOSE of the transport.
fn put_close(out: &mut Vec<u8>, close: &ConnectionClose) -> Result<(), Memory>
    ensures put { OnOk result (out.new.items ≡ out.old.items ++ frame_bytes (close_frame close.now)) }
    ensures short { OnOk result (length (frame_bytes (close_frame close.now)) ≤ 153) }
    ensures read_back { OnOk result ((rest : List ℕ) → IsQuicFrame (frame_bytes (close_frame close.now) ++ rest) (close_frame close.now) rest) }
{
    let kind = match close.frame {
        Some(kind) => bounded(kind),
        None => VarInt::from_u32(0),
    };
    put_connection_close(out, bounded(close.code.0), kind, close.reason.bytes())
}

// The value, or the greatest that a frame can bear (RFC 9000, section 16).
fn bounded(value: u64) -> VarInt
    ensures { result ≡ bounded value }
{
    VarInt::from_u64(value.min(VarInt::MAX_VALUE)).unwrap()
}
