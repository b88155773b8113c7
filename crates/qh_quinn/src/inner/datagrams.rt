ghost use Rattle.std.specs.Prelude.{◌≡◌};
ghost use Rattle.qh_book.specs.declared.call.Call.TheVariants as call;
ghost use Rattle.qh_quinn.specs.Acting.{Answers, IsAnswered, KeepsTurns};
ghost use Rattle.qh_quinn.specs.Calls.{CallsOf, IsCallOf};
ghost use Rattle.qh_quinn.specs.States.{IsState};

use super::{StateInner, closed_or_waits, kept_error};
use bytes::Bytes;
use qh_base::Memory;
use qh_book::Reply;
use qh_conn::DatagramFault;

impl<S> StateInner<S> {
    // Reads the oldest datagram: one that waits comes first, then the kept error.
    pub(crate) fn read_datagram<T>(&mut self) -> Reply<T>
        requires { IsState self.old }
        ensures value { IsAnswered call.ReadDatagram result self.old self.new }
        ensures calls { IsCallOf call.ReadDatagram result self.old self.new }
        ensures waiting { self.new.waiting ≡ self.old.waiting }
        ensures rest { KeepsTurns self.old self.new }
    {
        qh_book::datagrams_shown::<T>();
        if self.is_emptied() {
            return closed_or_waits(&self.error);
        }
        match self.connection.recv_datagram() {
            Some(payload) => Reply::Datagram(payload),
            None => closed_or_waits(&self.error),
        }
    }

    // Queues a datagram: the kept error comes first. One that doesn't wait for room drops the oldest queued ones.
    pub(crate) fn send_datagram<T>(
        &mut self,
        payload: Bytes,
        wait: bool,
    ) -> Result<Reply<T>, Memory>
        requires { IsState self.old }
        ensures value { Answers (call.SendDatagram payload wait) result self.old self.new }
        ensures calls { CallsOf (call.SendDatagram payload wait) result self.old self.new }
        ensures waiting { self.new.waiting ≡ self.old.waiting }
        ensures rest { KeepsTurns self.old self.new }
    {
        qh_book::datagrams_shown::<T>();
        qh_book::datagram_refusals_shown::<T>();
        if let Some(error) = kept_error(&self.error) {
            return Ok(Reply::ConnectionLost(error));
        }
        match self.connection.send_datagram(payload, !wait) {
            Ok(()) => {
                self.wake();
                Ok(Reply::Done)
            }
            Err(DatagramFault::Disabled) => Ok(Reply::Disabled),
            Err(DatagramFault::UnsupportedByPeer) => Ok(Reply::UnsupportedByPeer),
            Err(DatagramFault::TooLarge) => Ok(Reply::TooLarge),
            Err(DatagramFault::Blocked(_)) => Ok(Reply::Pending),
            Err(DatagramFault::Memory) => Err(Memory),
        }
    }
}
