ghost use Rattle.std.specs.Prelude.{Bool, nat_lt, if◌then◌else◌, ◌≡◌, ◌+◌, ◌-◌, ◌<◌, ◌≤◌, ◌^◌, ◌++◌, ℕ, List, length, None, Some, true, false, OnOk, OnErr, IfOk, IfSome};
ghost use Rattle.qh_core.specs.Config.{bounded};
ghost use Rattle.qh_core.specs.Inner.{IsConnection, IsFailedBy, is_open};
ghost use Rattle.qh_core.specs.Sending.{AreBytesMade, ArePut, BearsNoControl, ClosesReadBack, IsDatagramMade, NothingIsSent, close_frame, fault_type, overhead};
ghost use Rattle.qh_core.specs.Timers.{sent_at};
ghost use Rattle.qh_base.specs.declared.time.Moment.{Moment as AMoment};
ghost use Rattle.qh_core.specs.declared.state.Close.{Close as AClose};
ghost use Rattle.qh_core.specs.declared.state.State.TheVariants.{Closed};
ghost use Rattle.qh_frame.specs.FrameBytes.{IsPut};
ghost use Rattle.qh_spec.specs.declared.sides.Space.TheVariants.{Data};

use crate::config::bounded;
use crate::{Close, Inner, Session, State};
use qh_base::{Memory, Moment, Space, Transmit, VarInt};
use qh_frame::{put_application_close, put_connection_close};
use qh_packet::{TAG_LEN, put_header};
use std::alloc::Global;

/// No datagram has more bytes (RFC 9000, section 14).
pub(super) const DATAGRAM_SIZE: usize = 1_200;

/// Packet numbers are below this one (RFC 9000, section 12.3).
pub(super) const PACKET_NUMBERS: u64 = 1 << 62;

/// The bytes of a header beside the id, and of a tag.
const OVERHEAD: usize = 5 + TAG_LEN;

impl<S: Session> Inner<S> {
    // Appends the next datagram, where something is to be sent. After want of memory nothing is appended, and the connection has
    // failed.
    pub(crate) fn poll_transmit(
        &mut self,
        alloc: Global,
        now: Moment,
        buf: &mut Vec<u8>,
    ) -> Result<Option<Transmit>, Memory>
        requires { IsConnection self.old }
        ensures some { IfOk result (λ o. IfSome o (λ t. IsDatagramMade (S.sealed self.old.session) now self.old self.new buf.old.items buf.new.items t)) }
        ensures no_control { IfOk result (λ o. IfSome o (λ t. BearsNoControl (S.sealed self.old.session) now self.old self.new buf.old.items buf.new.items)) }
        ensures read_back { IfOk result (λ o. IfSome o (λ t. ClosesReadBack self.old.state)) }
        ensures tag { IfOk result (λ o. IfSome o (λ t. length (S.sealed self.old.session self.old.side Data self.old.space.next_number) ≡ 32)) }
        ensures none { IfOk result (λ o. o ≡ None → (buf.new.items ≡ buf.old.items) × NothingIsSent self.old self.new) }
        ensures err { OnErr result ((buf.new.items ≡ buf.old.items) × IsFailedBy self.old self.new) }
        ensures connection { IsConnection self.new }
    {
        let stats = self.stats();
        let Ok(appended) = self.append_datagram(alloc, now, buf) else {
            self.fail(alloc, stats);
            return Err(Memory);
        };
        let Some(size) = appended else {
            return Ok(None);
        };
        self.udp_tx.count(size);
        Ok(Some(Transmit {
            destination: self.addresses.remote,
            size,
            src_ip: self.addresses.local_ip,
        }))
    }

    // Appends the next datagram, where something is to be sent, and answers its size. It is made beside the buffer: where memory
    // lacks nothing is appended.
    fn append_datagram(
        &mut self,
        alloc: Global,
        now: Moment,
        buf: &mut Vec<u8>,
    ) -> Result<Option<usize>, Memory>
        requires { IsConnection self.old }
        ensures some { IfOk result (λ o. IfSome o (λ size. AreBytesMade (S.sealed self.old.session) now self.old self.new buf.old.items buf.new.items size)) }
        ensures no_control { IfOk result (λ o. IfSome o (λ size. BearsNoControl (S.sealed self.old.session) now self.old self.new buf.old.items buf.new.items)) }
        ensures read_back { IfOk result (λ o. IfSome o (λ size. ClosesReadBack self.old.state)) }
        ensures tag { IfOk result (λ o. IfSome o (λ size. length (S.sealed self.old.session self.old.side Data self.old.space.next_number) ≡ 32)) }
        ensures none { IfOk result (λ o. o ≡ None → (buf.new.items ≡ buf.old.items) × NothingIsSent self.old self.new) }
        ensures err { OnErr result ((buf.new.items ≡ buf.old.items) × (self.new ≡ record self.old { space = self.new.space; idle = self.new.idle; state = self.new.state })) }
        ensures counts { self.new.udp_tx ≡ self.old.udp_tx }
        ensures connection { OnOk result (IsConnection self.new) }
    {
        let number = self.space.next_number;
        let room = DATAGRAM_SIZE - self.overhead();
        let mut datagram = Vec::new(alloc);
        datagram.try_reserve(DATAGRAM_SIZE)?;
        put_header(&mut datagram, &self.remote_id, number)?;
        if !self.put_frames(alloc, now, room, &mut datagram)? {
            return Ok(None);
        }
        let tag = self.session.tag(self.side, Space::Data, number);
        put_tag(&mut datagram, &tag)?;
        put_bytes(buf, &datagram)?;
        Ok(Some(datagram.len()))
    }
}

impl<S> Inner<S> {
    // The bytes of a datagram around its frames.
    pub(super) fn overhead(&self) -> usize
        ensures value { result ≡ overhead self.now }
        ensures short { result ≤ 57 }
    {
        OVERHEAD + self.remote_id.len()
    }

    // Appends the frames of the next packet, where there are some.
    fn put_frames(
        &mut self,
        alloc: Global,
        now: Moment,
        room: usize,
        out: &mut Vec<u8>,
    ) -> Result<bool, Memory>
        requires whole { IsConnection self.old }
        requires room { room ≡ 1200 - overhead self.old }
        requires wide { 1143 ≤ room }
        ensures some { IfOk result (λ some. some ≡ true → ArePut now self.old self.new out.old.items out.new.items) }
        ensures read_back { IfOk result (λ some. some ≡ true → ClosesReadBack self.old.state) }
        ensures none { IfOk result (λ some. some ≡ false → NothingIsSent self.old self.new) }
        ensures rest { self.new ≡ record self.old { space = self.new.space; idle = self.new.idle; state = self.new.state } }
        ensures connection { OnOk result (IsConnection self.new) }
    {
        if self.state.is_open() {
            return self.put_packet(alloc, now, room, out);
        }
        if self.state.is_close_due() {
            return self.put_close(out);
        }
        Ok(false)
    }

    // Appends the frames of the space.
    fn put_packet(
        &mut self,
        alloc: Global,
        now: Moment,
        room: usize,
        out: &mut Vec<u8>,
    ) -> Result<bool, Memory>
        requires whole { IsConnection self.old }
        requires open { is_open self.old.state ≡ true }
        requires room { room ≡ 1200 - overhead self.old }
        requires wide { 1143 ≤ room }
        ensures some { IfOk result (λ some. some ≡ true → ArePut now self.old self.new out.old.items out.new.items) }
        ensures none { IfOk result (λ some. some ≡ false → NothingIsSent self.old self.new) }
        ensures rest { self.new ≡ record self.old { space = self.new.space; idle = self.new.idle } }
        ensures connection { OnOk result (IsConnection self.new) }
    {
        let overhead = (DATAGRAM_SIZE - room) as u64;
        let were_out = self.space.sent.len();
        let number = self.space.write_packet(alloc, now, overhead, room, out)?;
        self.restart_idle(now, were_out);
        Ok(number.is_some())
    }

    // The idle time runs from now on, where an ack-eliciting packet is out now beside so many that were.
    pub(super) fn restart_idle(&mut self, now: Moment, were_out: usize)
        ensures { self.new ≡ record self.old { idle = (if nat_lt were_out (length self.old.space.sent) then sent_at now self.old.idle else self.old.idle) } }
    {
        if were_out < self.space.sent.len() {
            self.idle.on_sent(now);
        }
    }

    // Appends a CONNECTION_CLOSE, where a packet number is left.
    fn put_close(&mut self, out: &mut Vec<u8>) -> Result<bool, Memory>
        requires whole { IsConnection self.old }
        requires wide { 1143 ≤ 1200 - overhead self.old }
        requires due { (reason : AClose) × (until : AMoment) × (self.old.state ≡ Closed reason true until) }
        ensures some { IfOk result (λ some. some ≡ true → (now : AMoment) → ArePut now self.old self.new out.old.items out.new.items) }
        ensures read_back { IfOk result (λ some. some ≡ true → ClosesReadBack self.old.state) }
        ensures none { IfOk result (λ some. some ≡ false → NothingIsSent self.old self.new) }
        ensures rest { self.new ≡ record self.old { space = self.new.space; state = self.new.state } }
        ensures connection { OnOk result (IsConnection self.new) }
    {
        if self.space.next_number == PACKET_NUMBERS {
            return Ok(false);
        }
        put_close_of(out, &self.state)?;
        self.state.told();
        self.space.next_number += 1;
        Ok(true)
    }
}

// Appends a tag, which has 32 bytes.
pub(super) fn put_tag(buf: &mut Vec<u8>, tag: &[u8; 32]) -> Result<(), Memory>
    ensures put { OnOk result (buf.new.items ≡ buf.old.items ++ tag.now) }
    ensures size { length tag.now ≡ 32 }
{
    put_bytes(buf, tag)
}

// Appends bytes. Where memory lacks nothing is appended.
pub(super) fn put_bytes(buf: &mut Vec<u8>, bytes: &[u8]) -> Result<(), Memory>
    ensures put { OnOk result (buf.new.items ≡ buf.old.items ++ bytes.now) }
    ensures err { OnErr result (buf.new.items ≡ buf.old.items) }
{
    buf.extend_from_slice(bytes)?;
    Ok(())
}

// Appends the CONNECTION_CLOSE of a connection that this end closed.
fn put_close_of(buf: &mut Vec<u8>, state: &State) -> Result<(), Memory>
    ensures { OnOk result ((reason : AClose) (is_due : Bool) (until : AMoment) → state.now ≡ Closed reason is_due until → IsPut buf.old.items buf.new.items (close_frame reason) 153) }
{
    match state {
        State::Closed { reason, .. } => put_close_frame(buf, reason),
        _ => Ok(()),
    }
}

// Appends a CONNECTION_CLOSE.
fn put_close_frame(buf: &mut Vec<u8>, reason: &Close) -> Result<(), Memory>
    ensures { OnOk result (IsPut buf.old.items buf.new.items (close_frame reason.now) 153) }
{
    match reason {
        Close::Connection(close) => put_connection_close(
            buf,
            bounded(close.code.0),
            fault_type(close.frame),
            close.reason.bytes(),
        ),
        Close::Application(close) => {
            put_application_close(buf, close.error_code, close.reason.bytes())
        }
    }
}

// The type of the frame at fault, 0 where none is known.
fn fault_type(frame: Option<u64>) -> VarInt
    ensures { result ≡ fault_type frame }
{
    match frame {
        Some(kind) => bounded(kind),
        None => VarInt::from_u32(0),
    }
}
