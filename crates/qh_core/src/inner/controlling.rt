ghost use Rattle.std.specs.Prelude.{nat_lt, if◌then◌else◌, ◌≡◌, ◌-◌, ◌<◌, ◌≤◌, ◌^◌, ◌++◌, List, length, take, None, Some, true, false, OnOk, OnErr, IfOk, IfSome};
ghost use Rattle.std.specs.List.{AllByRecursion};
ghost use Rattle.qh_core.specs.Control.{MaySend, control_bytes, fitting};
ghost use Rattle.qh_core.specs.Inner.{IsConnection, IsFailedBy, is_open};
ghost use Rattle.qh_core.specs.Sending.{IsControlKept, IsControlSent, AreControlAppended, AreControlPut, MaySendControl, datagram_of, overhead};
ghost use Rattle.qh_core.specs.declared.control.ControlFrame.{ControlFrame as AControlFrame};
ghost use Rattle.qh_packet.specs.Packet.{header_bytes};
ghost use Rattle.qh_space.specs.Sending.{may_elicit};
ghost use Rattle.qh_spec.specs.declared.sides.Space.TheVariants.{Data};

use super::sending::{DATAGRAM_SIZE, PACKET_NUMBERS, put_bytes, put_tag};
use crate::control::put_control;
use crate::{ControlFrame, ControlSent, Inner, Session};
use qh_base::{Memory, Moment, Space, Transmit};
use qh_packet::put_header;
use std::alloc::Global;

impl<S: Session> Inner<S> {
    // Appends the next datagram, of as many of the frames as it has room for, if they may be sent. After want of memory nothing is
    // appended, and the connection has failed.
    pub(crate) fn transmit_control(
        &mut self,
        alloc: Global,
        now: Moment,
        frames: &[ControlFrame],
        buf: &mut Vec<u8>,
    ) -> Result<Option<ControlSent>, Memory>
        requires whole { IsConnection self.old }
        requires frames { AllByRecursion (MaySend self.old.side self.old.config.peer_datagram) frames.now }
        ensures some { IfOk result (λ o. IfSome o (λ sent. IsControlSent (S.sealed self.old.session) now self.old self.new buf.old.items buf.new.items frames.now sent)) }
        ensures tag { IfOk result (λ o. IfSome o (λ sent. length (S.sealed self.old.session self.old.side Data self.old.space.next_number) ≡ 32)) }
        ensures none { IfOk result (λ o. o ≡ None → (buf.new.items ≡ buf.old.items) × (self.new ≡ self.old) × IsControlKept self.old frames.now) }
        ensures err { OnErr result ((buf.new.items ≡ buf.old.items) × IsFailedBy self.old self.new) }
        ensures wanting { OnErr result (MaySendControl self.old) }
        ensures connection { IsConnection self.new }
    {
        let stats = self.stats();
        let number = self.space.next_number;
        let Ok(appended) = self.append_control(alloc, now, frames, buf) else {
            self.fail(alloc, stats);
            return Err(Memory);
        };
        let Some((size, count)) = appended else {
            return Ok(None);
        };
        self.udp_tx.count(size);
        let transmit = Transmit {
            destination: self.addresses.remote,
            size,
            src_ip: self.addresses.local_ip,
        };
        Ok(Some(ControlSent {
            transmit,
            number,
            count,
        }))
    }

    // Appends the next datagram, of such frames, and answers its size, and how many it bears. It is made beside the buffer: where
    // memory lacks nothing is appended.
    fn append_control(
        &mut self,
        alloc: Global,
        now: Moment,
        frames: &[ControlFrame],
        buf: &mut Vec<u8>,
    ) -> Result<Option<(usize, usize)>, Memory>
        requires whole { IsConnection self.old }
        requires frames { AllByRecursion (MaySend self.old.side self.old.config.peer_datagram) frames.now }
        ensures some { IfOk result (λ o. IfSome o (λ it. AreControlAppended (S.sealed self.old.session) now self.old self.new buf.old.items buf.new.items frames.now it.0 it.1)) }
        ensures tag { IfOk result (λ o. IfSome o (λ it. length (S.sealed self.old.session self.old.side Data self.old.space.next_number) ≡ 32)) }
        ensures none { IfOk result (λ o. o ≡ None → (buf.new.items ≡ buf.old.items) × (self.new ≡ self.old) × IsControlKept self.old frames.now) }
        ensures err { OnErr result ((buf.new.items ≡ buf.old.items) × (self.new ≡ record self.old { space = self.new.space; idle = self.new.idle })) }
        ensures wanting { OnErr result (MaySendControl self.old) }
        ensures counts { self.new.udp_tx ≡ self.old.udp_tx }
        ensures connection { OnOk result (IsConnection self.new) }
    {
        let number = self.space.next_number;
        let room = DATAGRAM_SIZE - self.overhead();
        let mut datagram = Vec::new(alloc);
        if !self.may_send_control() {
            return Ok(None);
        }
        datagram.try_reserve(DATAGRAM_SIZE)?;
        put_header(&mut datagram, &self.remote_id, number)?;
        let count = self.put_control(alloc, now, room, frames, &mut datagram)?;
        if count == 0 {
            return Ok(None);
        }
        let tag = self.session.tag(self.side, Space::Data, number);
        put_tag(&mut datagram, &tag)?;
        put_bytes(buf, &datagram)?;
        Ok(Some((datagram.len(), count)))
    }
}

impl<S> Inner<S> {
    // Whether a packet of such frames may be sent now: the connection is open, a number is left, no ACK is due, which goes first, and
    // the window permits one, or a probe is due.
    fn may_send_control(&self) -> bool
        ensures yes { result ≡ true → (is_open self.now.state ≡ true) × (self.now.space.acks.is_due ≡ false) × (may_elicit self.now.space ≡ true) }
        ensures number { result ≡ true → self.now.space.next_number ≡ 2 ^ 62 → ⊥ }
        ensures no { (frames : List AControlFrame) → result ≡ false → IsControlKept self.now frames }
    {
        self.state.is_open()
            && self.space.next_number != PACKET_NUMBERS
            && !self.space.acks.is_due()
            && self.space.may_elicit()
    }

    // Appends as many of the frames as have room, and answers how many: a packet of them is out then, if there are some.
    fn put_control(
        &mut self,
        alloc: Global,
        now: Moment,
        room: usize,
        frames: &[ControlFrame],
        out: &mut Vec<u8>,
    ) -> Result<usize, Memory>
        requires whole { IsConnection self.old }
        requires open { (is_open self.old.state ≡ true) × (self.old.space.acks.is_due ≡ false) × (may_elicit self.old.space ≡ true) }
        requires number { self.old.space.next_number < 2 ^ 62 }
        requires room { room ≡ 1200 - overhead self.old }
        requires wide { 1143 ≤ room }
        requires frames { AllByRecursion (MaySend self.old.side self.old.config.peer_datagram) frames.now }
        ensures count { IfOk result (λ count. count ≡ fitting room frames.now) }
        ensures some { IfOk result (λ count. 0 < count → AreControlPut now self.old self.new out.old.items out.new.items frames.now) }
        ensures none { IfOk result (λ count. count ≡ 0 → self.new ≡ self.old) }
        ensures rest { self.new ≡ record self.old { space = self.new.space; idle = self.new.idle } }
        ensures connection { OnOk result (IsConnection self.new) }
    {
        let start = out.len();
        let count = put_control(out, frames, room)?;
        if count == 0 {
            return Ok(0);
        }
        let size = DATAGRAM_SIZE - room + (out.len() - start);
        let were_out = self.space.sent.len();
        self.space.on_packet_sent(alloc, now, size as u64)?;
        self.restart_idle(now, were_out);
        Ok(count)
    }
}
