ghost use Rattle.std.specs.Prelude.{◌≡◌, ◌+◌, ◌-◌, ◌<◌, ◌≤◌, ◌++◌, ◌∷◌, ◌||◌, [], ℕ, List, Option, true, false, drop, length, map, slice_get, take, None, Some, IfErr, IfOk, IfSome, OnOk};
ghost use Rattle.std.specs.List.{AllByRecursion};
ghost use Rattle.qh_control.specs.Control.{IsSendable, KeepsSendable};
ghost use Rattle.qh_control.specs.Datagrams.{IsReady, IsSendFault};
ghost use Rattle.qh_control.specs.declared.datagrams.DatagramFault.TheVariants as faults;
ghost use Rattle.qh_core.specs.Control.{MaySend};
ghost use Rattle.qh_core.specs.declared.control.ControlFrame.TheVariants as sending;
ghost use Rattle.qh_datagrams.specs.Datagrams.{bytes_of, with_room};
ghost use Rattle.qh_spec.specs.declared.sides.Side.{Side as ASide};

use crate::ControlState;
use bytes::Bytes;
use qh_base::Memory;
use qh_core::ControlFrame;
use qh_datagrams::SendRefusal;
use std::alloc::Global;
use thiserror::Error;

/// No more frames are made ready for one packet.
const MOST_FRAMES: usize = 64;

/// A packet has room for about so many bytes of frames.
const ROOM: usize = 1_143;

/// Why a datagram isn't queued (quinn-proto, `SendDatagramError`), in the order in which it is looked at.
#[derive(Debug, Drop, Error)]
pub enum DatagramFault {
    /// This end takes none.
    #[error("datagram support disabled")]
    Disabled,
    /// The peer takes none, or its hello wasn't read.
    #[error("datagrams not supported by peer")]
    UnsupportedByPeer,
    /// It is longer than the peer takes, or than a packet has room for.
    #[error("datagram too large")]
    TooLarge,
    /// The queued ones leave no room for it. It is handed back.
    #[error("datagram send blocked")]
    Blocked(Bytes),
    /// The allocator had no memory. Nothing changed.
    #[error("out of memory")]
    Memory,
}

impl ControlState {
    /// Queues a datagram of the application's (RFC 9221, section 5). With `drop_old` as few of the oldest queued ones are dropped as must go
    /// so that it fits, or all of them, and it is queued even if it doesn't fit alone.
    pub fn send_datagram(&mut self, payload: Bytes, drop_old: bool) -> Result<(), DatagramFault>
        ensures refused { IfErr result (λ e. IsSendFault self.old.datagram_receive self.old.peer_datagram self.old.datagram_send drop_old self.old.datagrams payload e) }
        ensures kept { drop_old ≡ false → OnOk result ((bytes_of self.old.datagrams.outgoing + length payload ≤ self.old.datagram_send) × (self.new ≡ record self.old { datagrams = record self.old.datagrams { outgoing = self.old.datagrams.outgoing ++ payload ∷ [] } })) }
        ensures dropped { drop_old ≡ true → OnOk result (self.new ≡ record self.old { datagrams = record self.old.datagrams { outgoing = with_room (length payload) self.old.datagram_send self.old.datagrams.outgoing ++ payload ∷ [] } }) }
        ensures taken { OnOk result ((self.old.datagram_receive ≡ None → ⊥) × ((most : ℕ) × (self.old.peer_datagram ≡ Some most) × (length payload ≤ most))) }
        ensures blocked { IfErr result (λ e. (back : List ℕ) → e ≡ faults.Blocked back → self.new ≡ record self.old { datagrams = record self.old.datagrams { is_send_blocked = true } }) }
        ensures unchanged { IfErr result (λ e. ((back : List ℕ) → e ≡ faults.Blocked back → ⊥) → self.new ≡ self.old) }
        ensures sendable { (side : ASide) → KeepsSendable side self.old self.new }
    {
        if self.datagram_receive.is_none() {
            return Err(DatagramFault::Disabled);
        }
        let Some(most) = self.peer_datagram else {
            return Err(DatagramFault::UnsupportedByPeer);
        };
        if most < payload.len() as u64 {
            return Err(DatagramFault::TooLarge);
        }
        match self.datagrams.send(payload, drop_old, self.datagram_send) {
            Ok(()) => Ok(()),
            Err(SendRefusal::Blocked(payload)) => Err(DatagramFault::Blocked(payload)),
            Err(SendRefusal::Memory) => Err(DatagramFault::Memory),
        }
    }

    /// The payload of the datagram that is read next. None exactly if none waits.
    pub fn incoming_front(&self) -> Option<&Bytes>
        ensures some { IfSome result (λ payload. slice_get self.now.datagrams.incoming 0 ≡ Some payload.now) }
        ensures none { result ≡ None → self.now.datagrams.incoming ≡ [] }
    {
        self.datagrams.incoming_front()
    }

    /// The oldest datagram that came and wasn't read. None exactly if none waits.
    pub fn recv_datagram(&mut self) -> Option<Bytes>
        ensures some { IfSome result (λ payload. (self.old.datagrams.incoming ≡ payload ∷ self.new.datagrams.incoming) × (self.new ≡ record self.old { datagrams = record self.old.datagrams { incoming = self.new.datagrams.incoming } })) }
        ensures none { result ≡ None → (self.old.datagrams.incoming ≡ []) × (self.new ≡ self.old) }
    {
        self.datagrams.recv()
    }

    /// The longest payload that may be sent. None if the peer takes none, or its hello wasn't read.
    pub fn max_datagram_size(&self) -> Option<u64>
        ensures { result ≡ self.now.peer_datagram }
    {
        self.peer_datagram
    }

    /// How many bytes more may be queued without dropping any.
    pub fn datagram_send_space(&self) -> u64
        ensures { result ≡ self.now.datagram_send - bytes_of self.now.datagrams.outgoing }
    {
        self.datagrams.send_buffer_space(self.datagram_send)
    }

    /// DATAGRAM frames of the queued payloads, from the oldest on: one, and as many more as have at most 1,143 bytes together, for which a
    /// packet may have room, and no more than 64 in all.
    pub fn outgoing_datagrams(&self, alloc: Global) -> Result<Vec<ControlFrame>, Memory>
        ensures frames { IfOk result (λ frames. (count : ℕ) × (frames.items ≡ map (λ (payload : List ℕ). sending.Datagram payload) (take count self.now.datagrams.outgoing)) × (0 < length self.now.datagrams.outgoing → 0 < count) × (count ≤ 64) × IsReady self.now.datagrams.outgoing count) }
        ensures sendable { IfOk result (λ frames. (side : ASide) (peer_datagram : Option ℕ) → IsSendable side peer_datagram self.now → AllByRecursion (MaySend side peer_datagram) frames.items) }
    {
        let mut frames = Vec::new(alloc);
        let mut bytes = 0;
        for index in 0..MOST_FRAMES {
            let Some(payload) = self.datagrams.outgoing(index) else {
                return Ok(frames);
            };
            bytes += payload.len();
            if !frames.is_empty() && ROOM < bytes {
                return Ok(frames);
            }
            let payload = payload.clone()?;
            frames.push(ControlFrame::Datagram { payload })?;
        }
        Ok(frames)
    }

    /// The first `count` of them were sent: they are queued no more, and are never sent again (RFC 9221, section 4).
    pub fn datagrams_sent(&mut self, count: usize)
        requires { count ≤ length self.old.datagrams.outgoing }
        ensures some { 0 < count → self.new ≡ record self.old { datagrams = record self.old.datagrams { outgoing = drop count self.old.datagrams.outgoing; is_send_blocked = false }; is_unblocked_due = self.old.datagrams.is_send_blocked || self.old.is_unblocked_due } }
        ensures none { 0 ≡ count → self.new ≡ self.old }
        ensures sendable { (side : ASide) → KeepsSendable side self.old self.new }
    {
        if self.datagrams.sent(count) {
            self.is_unblocked_due = true;
        }
    }

    /// The application is told that a datagram came, if it is to be.
    pub fn take_datagram_news(&mut self) -> bool
        ensures value { result ≡ self.old.is_datagram_due }
        ensures rest { self.new ≡ record self.old { is_datagram_due = false } }
    {
        std::mem::replace(&mut self.is_datagram_due, false)
    }

    /// The application is told that there is room for datagrams again, if it is to be.
    pub fn take_unblocked_news(&mut self) -> bool
        ensures value { result ≡ self.old.is_unblocked_due }
        ensures rest { self.new ≡ record self.old { is_unblocked_due = false } }
    {
        std::mem::replace(&mut self.is_unblocked_due, false)
    }

    /// The connection is over: what waits is dropped.
    pub fn clear_datagrams(&mut self)
        ensures { self.new ≡ record self.old { datagrams = record { incoming = []; outgoing = []; is_send_blocked = false }; is_datagram_due = false; is_unblocked_due = false } }
    {
        self.datagrams.clear();
        self.is_datagram_due = false;
        self.is_unblocked_due = false;
    }
}
