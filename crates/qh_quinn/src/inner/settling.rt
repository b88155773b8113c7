ghost use Rattle.std.specs.Prelude.{◌≡◌, None};
ghost use Rattle.std.specs.List.{filter};
ghost use Rattle.qh_book.specs.Book.{Book};
ghost use Rattle.qh_book.specs.Interests.{is_within, settled, waits, waits_open};
ghost use Rattle.qh_book.specs.declared.interest.Interest.TheVariants as interests;
ghost use Rattle.qh_quinn.specs.Acting.{IsChanged};
ghost use Rattle.qh_quinn.specs.States.{IsState, Shows};

use super::StateInner;
use crate::waiting::Waiting;
use qh_base::{Dir, StreamId, VarInt};
use qh_book::{Interest, interests_are_a_set};
use std::mem;

impl<S> StateInner<S> {
    // Whether a call has no other reply than to wait. None waits once an error is kept.
    pub(crate) fn waits(&self, interest: Interest) -> bool
        requires { IsState self.now }
        ensures { (b : Book) → Shows self.now b → result ≡ waits b interest }
    {
        if self.error.is_some() {
            return false;
        }
        self.waits_open(interest)
    }

    // The same of a connection that isn't lost.
    fn waits_open(&self, interest: Interest) -> bool
        requires state { IsState self.now }
        requires none { self.now.error ≡ None }
        ensures { (b : Book) → Shows self.now b → result ≡ waits_open b interest }
    {
        match interest {
            Interest::Connecting => !self.is_connected,
            Interest::HandshakeData => !self.is_connected,
            Interest::Open(dir) => self.waits_to_open(dir),
            Interest::Accept(dir) => self.waits_to_accept(dir),
            Interest::Read { id, is_ordered } => self.waits_to_read(id, is_ordered),
            Interest::Write(id) => self.waits_to_write(id),
            Interest::Stopped(id) => self.waits_for_stop(id),
            Interest::ReceivedReset(id) => self.waits_for_reset(id),
            Interest::ReadDatagram => self.waits_for_datagram(),
            Interest::SendDatagram(size) => self.waits_for_room(size as u64),
            Interest::Closed => true,
        }
    }

    // Whether the peer permits no more streams of a direction.
    fn waits_to_open(&self, dir: Dir) -> bool
        requires state { IsState self.now }
        requires none { self.now.error ≡ None }
        ensures { (b : Book) → Shows self.now b → result ≡ waits_open b (interests.Open dir) }
    {
        !self.connection.can_open(dir)
    }

    // Whether no stream of a direction is left to be accepted.
    fn waits_to_accept(&self, dir: Dir) -> bool
        requires state { IsState self.now }
        requires none { self.now.error ≡ None }
        ensures { (b : Book) → Shows self.now b → result ≡ waits_open b (interests.Accept dir) }
    {
        !self.connection.can_accept(dir)
    }

    // Whether a handle holds the receiving half of a stream, and a read of it has nothing to give.
    fn waits_to_read(&self, id: StreamId, is_ordered: bool) -> bool
        requires state { IsState self.now }
        requires none { self.now.error ≡ None }
        ensures { (b : Book) → Shows self.now b → result ≡ waits_open b (interests.Read id is_ordered) }
    {
        if !self.holds(id) {
            return false;
        }
        self.connection.reads_on(id);
        self.connection.is_read_blocked(id, is_ordered)
    }

    // Whether no byte may be written to a stream, and the peer didn't ask to stop it.
    fn waits_to_write(&self, id: StreamId) -> bool
        requires state { IsState self.now }
        requires none { self.now.error ≡ None }
        ensures { (b : Book) → Shows self.now b → result ≡ waits_open b (interests.Write id) }
    {
        self.connection.is_write_blocked(id)
    }

    // Whether a stream isn't done, and the peer didn't ask to stop it.
    fn waits_for_stop(&self, id: StreamId) -> bool
        requires state { IsState self.now }
        requires none { self.now.error ≡ None }
        ensures { (b : Book) → Shows self.now b → result ≡ waits_open b (interests.Stopped id) }
    {
        match self.connection.stopped(id) {
            Ok(None) => true,
            Ok(Some(code)) => {
                let _code: VarInt = code;
                false
            }
            Err(_) => false,
        }
    }

    // Whether a handle holds the receiving half of a stream, which may still be reset.
    fn waits_for_reset(&self, id: StreamId) -> bool
        requires state { IsState self.now }
        requires none { self.now.error ≡ None }
        ensures { (b : Book) → Shows self.now b → result ≡ waits_open b (interests.ReceivedReset id) }
    {
        if !self.holds(id) {
            return false;
        }
        self.connection.awaits_reset(id)
    }

    // Whether a handle holds the receiving half of the stream.
    fn holds(&self, id: StreamId) -> bool
        ensures { (b : Book) → Shows self.now b → result ≡ b.readers id.0 }
    {
        self.readers.get(id.0).is_some()
    }

    // Whether no datagram is left to be read.
    fn waits_for_datagram(&self) -> bool
        requires state { IsState self.now }
        requires none { self.now.error ≡ None }
        ensures { (b : Book) → Shows self.now b → result ≡ waits_open b interests.ReadDatagram }
    {
        !self.connection.control.datagrams.has_incoming()
    }

    // Whether a datagram of this many bytes may be sent but has no room.
    fn waits_for_room(&self, size: u64) -> bool
        requires state { IsState self.now }
        requires none { self.now.error ≡ None }
        ensures { (b : Book) → Shows self.now b → result ≡ waits_open b (interests.SendDatagram size) }
    {
        let control = &self.connection.control;
        if !control.datagram_receive.is_some() {
            return false;
        }
        if !is_within(size, control.peer_datagram) {
            return false;
        }
        !control.datagrams.has_room(size, control.datagram_send)
    }

    // Wakes the calls that have another reply than to wait.
    pub(crate) fn wake_answered(&mut self)
        requires { IsState self.old }
        ensures settled { IsChanged settled self.old self.new }
        ensures woken { (b : Book) → Shows self.old b → self.new.waiting.items ≡ filter (λ w. waits b w.interest) self.old.waiting.items }
        ensures rest { self.new ≡ record self.old { waiting = self.new.waiting } }
    {
        interests_are_a_set();
        let none = Vec::new(self.alloc);
        let mut waiting = mem::replace(&mut self.waiting, none);
        self.keep_waiting(&mut waiting);
        self.waiting = waiting;
    }

    // Those of the calls stay that wait still. The others are woken as they are dropped.
    fn keep_waiting(&self, waiting: &mut Vec<Waiting>)
        requires { IsState self.now }
        ensures { (b : Book) → Shows self.now b → waiting.new.items ≡ filter (λ w. waits b w.interest) waiting.old.items }
    {
        waiting.retain(|w| self.waits(w.interest));
    }
}

// Whether so many bytes are no more than the most, if there is one.
fn is_within(size: u64, most: Option<u64>) -> bool
    ensures { result ≡ is_within size most }
{
    match most {
        Some(most) => size <= most,
        None => false,
    }
}
