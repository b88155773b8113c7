ghost use Rattle.std.specs.Prelude.{◌≡◌, ℕ, ◌+◌, ◌-◌, ◌<◌, ◌≤◌, ◌++◌, ◌∷◌, ◌==◌, ◌&&◌, List, [], drop, length, slice_get, nat_le, nat_lt, not, None, Some, false, true, IfErr, IfOk, IfSome, OnErr, OnOk};
ghost use Rattle.qh_datagrams.specs.Datagrams.{bytes_of, newest, with_room};
ghost use Rattle.qh_datagrams.specs.declared.datagrams.SendRefusal.TheVariants as refusal;

mod payloads;

use bytes::Bytes;
use payloads::Payloads;
use qh_base::Memory;
use std::alloc::Global;
use std::marker::Model;
use std::mem;
use thiserror::Error;

/// The payloads of DATAGRAM frames at an end: those that came and weren't read, and those that are to be sent.
#[derive(Drop)]
pub struct DatagramState {
    incoming: Payloads,
    outgoing: Payloads,
    send_blocked: bool,
}

/// Why a payload isn't queued. It is handed back where there is no room.
#[derive(Debug, Drop, Error)]
pub enum SendRefusal {
    /// The queued payloads leave no room for it, and none of them is to be dropped.
    #[error("no room in the queue of datagrams")]
    Blocked(Bytes),
    /// The allocator had no memory.
    #[error("out of memory")]
    Memory,
}

impl From<Memory> for SendRefusal {
    ghost use Rattle.std.specs.Prelude.{◌≡◌};
    ghost use Rattle.qh_datagrams.specs.declared.datagrams.SendRefusal.TheVariants as refusal;

    ghost from_gives = { λ _ e. e ≡ refusal.Memory };

    fn from(_: Memory) -> SendRefusal {
        SendRefusal::Memory
    }
}

impl Model for DatagramState {
    ghost use Rattle.qh_datagrams.specs.Datagrams.{PlainDatagrams};

    ghost Value = { PlainDatagrams };

    ghost view = { λ s. record { incoming = s.incoming; outgoing = s.outgoing; is_send_blocked = s.send_blocked } };
}

impl DatagramState {
    /// No payload waits.
    pub fn new(alloc: Global) -> DatagramState
        ensures { result ≡ record { incoming = []; outgoing = []; is_send_blocked = false } }
    {
        DatagramState {
            incoming: Payloads::new(alloc),
            outgoing: Payloads::new(alloc),
            send_blocked: false,
        }
    }

    /// A payload came, which fits into `most` bytes. As few of the oldest as must go are dropped so that all that wait have at most so many.
    /// Whether none waited before.
    pub fn received(&mut self, payload: Bytes, most: u64) -> Result<bool, Memory>
        requires { length payload ≤ most }
        ensures ok { OnOk result (self.new ≡ record self.old { incoming = newest most (self.old.incoming ++ payload ∷ []) }) }
        ensures empty { IfOk result (λ was_empty. was_empty ≡ (length self.old.incoming == 0)) }
        ensures err { OnErr result (self.new ≡ self.old) }
    {
        let was_empty = self.incoming.is_empty();
        self.incoming.push(payload, most)?;
        Ok(was_empty)
    }

    /// The oldest payload that waits to be read, which it is then no more. None exactly if none waits.
    pub fn recv(&mut self) -> Option<Bytes>
        ensures some { IfSome result (λ payload. (self.old.incoming ≡ payload ∷ self.new.incoming) × (self.new ≡ record self.old { incoming = self.new.incoming })) }
        ensures none { result ≡ None → (self.old.incoming ≡ []) × (self.new ≡ self.old) }
    {
        self.incoming.pop()
    }

    /// Queues a payload to be sent. All that are queued may have `room` bytes: if the new one doesn't fit, it is refused, or with `drop_old` as
    /// few of the oldest as must go are dropped so that it fits, or all of them, and it is queued even if it doesn't fit alone.
    pub fn send(&mut self, payload: Bytes, drop_old: bool, room: u64) -> Result<(), SendRefusal>
        ensures kept { drop_old ≡ false → OnOk result ((bytes_of self.old.outgoing + length payload ≤ room) × (self.new ≡ record self.old { outgoing = self.old.outgoing ++ payload ∷ [] })) }
        ensures dropped { drop_old ≡ true → OnOk result (self.new ≡ record self.old { outgoing = with_room (length payload) room self.old.outgoing ++ payload ∷ [] }) }
        ensures blocked { IfErr result (λ e. (back : List ℕ) → e ≡ refusal.Blocked back → (back ≡ payload) × (drop_old ≡ false) × (room < bytes_of self.old.outgoing + length payload) × (self.new ≡ record self.old { is_send_blocked = true })) }
        ensures memory { IfErr result (λ e. e ≡ refusal.Memory → (drop_old ≡ false → bytes_of self.old.outgoing + length payload ≤ room) × (self.new ≡ self.old)) }
    {
        if !drop_old && !self.outgoing.has_room(payload.len() as u64, room) {
            self.send_blocked = true;
            return Err(SendRefusal::Blocked(payload));
        }
        self.outgoing.push(payload, room)?;
        Ok(())
    }

    /// How many bytes more may be queued.
    pub fn send_buffer_space(&self, room: u64) -> u64
        ensures { result ≡ room - bytes_of self.now.outgoing }
    {
        room.saturating_sub(self.outgoing.total())
    }

    /// The payload that is read next. None exactly if none waits.
    pub fn incoming_front(&self) -> Option<&Bytes>
        ensures some { IfSome result (λ payload. slice_get self.now.incoming 0 ≡ Some payload.now) }
        ensures none { result ≡ None → self.now.incoming ≡ [] }
    {
        self.incoming.get(0)
    }

    /// Whether a datagram waits to be read.
    pub fn has_incoming(&self) -> bool
        ensures { result ≡ not (length self.now.incoming == 0) }
    {
        !self.incoming.is_empty()
    }

    /// Whether one of this many bytes more may be queued without dropping any, if the queued ones may have so many together.
    pub fn has_room(&self, size: u64, room: u64) -> bool
        ensures { result ≡ nat_le (bytes_of self.now.outgoing + size) room }
    {
        self.outgoing.has_room(size, room)
    }

    /// The payload that is to be sent as the next but `index`. None exactly if there are no more than `index`.
    pub fn outgoing(&self, index: usize) -> Option<&Bytes>
        ensures some { IfSome result (λ payload. slice_get self.now.outgoing index ≡ Some payload.now) }
        ensures none { result ≡ None → length self.now.outgoing ≤ index }
    {
        self.outgoing.get(index)
    }

    /// The first `count` of the queued payloads were sent. Whether whoever found no room before is to be told that there is some.
    pub fn sent(&mut self, count: usize) -> bool
        requires { count ≤ length self.old.outgoing }
        ensures some { 0 < count → self.new ≡ record self.old { outgoing = drop count self.old.outgoing; is_send_blocked = false } }
        ensures none { 0 ≡ count → self.new ≡ self.old }
        ensures told { result ≡ (self.old.is_send_blocked && nat_lt 0 count) }
    {
        if count == 0 {
            return false;
        }
        self.outgoing.drop_first(count);
        mem::replace(&mut self.send_blocked, false)
    }

    /// All that waits is dropped: the connection is over, and nothing of it is read or sent any more.
    pub fn clear(&mut self)
        ensures { self.new ≡ record { incoming = []; outgoing = []; is_send_blocked = false } }
    {
        self.incoming.clear();
        self.outgoing.clear();
        self.send_blocked = false;
    }
}
