ghost use Rattle.std.specs.Prelude.{◌≡◌, ◌+◌, ◌-◌, ◌≤◌, ◌++◌, ◌∷◌, [], ℕ, List, true, false, length, slice_get, None, Some, IfErr, IfSome, OnOk};
ghost use Rattle.qh_conn.specs.Whole.{IsWhole, StandsStill};
ghost use Rattle.qh_control.specs.Datagrams.{IsSendFault};
ghost use Rattle.qh_control.specs.declared.datagrams.DatagramFault.TheVariants as faults;
ghost use Rattle.qh_datagrams.specs.Datagrams.{bytes_of, with_room};

use crate::Connection;
use bytes::Bytes;
use qh_control::DatagramFault;

// The datagrams of a connection (RFC 9221; quinn-proto, `Datagrams`).
impl<S> Connection<S> {
    /// Queues a datagram. With `drop_old` as few of the oldest queued ones are dropped as must go so that it fits, or all of them, and it is
    /// queued even if it doesn't fit alone.
    pub fn send_datagram(&mut self, payload: Bytes, drop_old: bool) -> Result<(), DatagramFault>
        requires { IsWhole self.old }
        ensures refused { IfErr result (λ e. IsSendFault self.old.control.datagram_receive self.old.control.peer_datagram self.old.control.datagram_send drop_old self.old.control.datagrams payload e) }
        ensures kept { drop_old ≡ false → OnOk result ((bytes_of self.old.control.datagrams.outgoing + length payload ≤ self.old.control.datagram_send) × (self.new.control.datagrams.outgoing ≡ self.old.control.datagrams.outgoing ++ payload ∷ [])) }
        ensures dropped { drop_old ≡ true → OnOk result (self.new.control.datagrams.outgoing ≡ with_room (length payload) self.old.control.datagram_send self.old.control.datagrams.outgoing ++ payload ∷ []) }
        ensures taken { OnOk result ((self.old.control.datagram_receive ≡ None → ⊥) × ((most : ℕ) × (self.old.control.peer_datagram ≡ Some most) × (length payload ≤ most))) }
        ensures stayed { OnOk result (self.new ≡ record self.old { control = record self.old.control { datagrams = record self.old.control.datagrams { outgoing = self.new.control.datagrams.outgoing } } }) }
        ensures blocked { IfErr result (λ e. (back : List ℕ) → e ≡ faults.Blocked back → self.new ≡ record self.old { control = record self.old.control { datagrams = record self.old.control.datagrams { is_send_blocked = true } } }) }
        ensures unchanged { IfErr result (λ e. ((back : List ℕ) → e ≡ faults.Blocked back → ⊥) → self.new ≡ self.old) }
        ensures stands { StandsStill self.old self.new }
        ensures whole { IsWhole self.new }
    {
        self.control.send_datagram(payload, drop_old)
    }

    /// The payload of the datagram that is read next. None exactly if none waits.
    pub fn incoming_front(&self) -> Option<&Bytes>
        ensures some { IfSome result (λ payload. slice_get self.now.control.datagrams.incoming 0 ≡ Some payload.now) }
        ensures none { result ≡ None → self.now.control.datagrams.incoming ≡ [] }
    {
        self.control.incoming_front()
    }

    /// The oldest datagram that came and wasn't read. None exactly if none waits.
    pub fn recv_datagram(&mut self) -> Option<Bytes>
        requires { IsWhole self.old }
        ensures some { IfSome result (λ payload. self.old.control.datagrams.incoming ≡ payload ∷ self.new.control.datagrams.incoming) }
        ensures none { result ≡ None → (self.old.control.datagrams.incoming ≡ []) × (self.new ≡ self.old) }
        ensures rest { self.new ≡ record self.old { control = record self.old.control { datagrams = record self.old.control.datagrams { incoming = self.new.control.datagrams.incoming } } } }
        ensures stands { StandsStill self.old self.new }
        ensures whole { IsWhole self.new }
    {
        self.control.recv_datagram()
    }

    /// The longest payload that the peer takes. None exactly if no hello of the peer's was read that says that it takes datagram frames of two
    /// bytes or more (own). An end that takes no datagrams itself sends none (own).
    pub fn max_datagram_size(&self) -> Option<usize>
        ensures { result ≡ self.now.control.peer_datagram }
    {
        match self.control.max_datagram_size() {
            Some(size) => Some(size as usize),
            None => None,
        }
    }

    /// How many bytes more may be queued without dropping any.
    pub fn datagram_send_buffer_space(&self) -> usize
        ensures { result ≡ self.now.control.datagram_send - bytes_of self.now.control.datagrams.outgoing }
    {
        self.control.datagram_send_space() as usize
    }
}
