ghost use Rattle.std.specs.Prelude.{◌≡◌, ◌==◌, ◌&&◌, not, None, Some, true, is_some};
ghost use Rattle.qh_book.specs.Book.{Book, with_close, without_handle};
ghost use Rattle.qh_book.specs.Pages.{SendPage, live_send};
ghost use Rattle.qh_book.specs.Receiving.{with_recv_ended, without_reader};
ghost use Rattle.qh_book.specs.Sending.{with_send_ended};
ghost use Rattle.qh_book.specs.declared.call.Call.TheVariants as call;
ghost use Rattle.qh_quinn.specs.Acting.{Answers, IsAnswered, IsChanged, KeepsTurns, recv_handle_ended};
ghost use Rattle.qh_quinn.specs.Calls.{CallsOf, IsCallOf, WakesIfChanged, recv_handle_acts, send_handle_acts};
ghost use Rattle.qh_conn.specs.Whole.{CarriesOn};
ghost use Rattle.qh_book.specs.declared.reply.Reply.TheVariants as reply;
ghost use Rattle.qh_quinn.specs.Readers.{reader_in};
ghost use Rattle.qh_quinn.specs.States.{IsState, Shows};
ghost use Rattle.qh_quinn.specs.Streaming.{EndsReading, EndsSending, is_stopped_by_end};

use super::{StateInner, closed_or_waits, kept_error};
use crate::readers::Reader;
use qh_base::{ConnectionError, Memory, Moment, Reason, StreamId, VarInt};
use qh_book::Reply;

impl<S> StateInner<S> {
    // Why the connection is lost, if it is.
    pub(crate) fn close_reason<T>(&self) -> Reply<T>
        requires { IsState self.now }
        ensures { IsAnswered call.CloseReason result self.now self.now }
    {
        match kept_error(&self.error) {
            Some(error) => Reply::ConnectionLost(error),
            None => Reply::Done,
        }
    }

    // Waits until it is.
    pub(crate) fn closed<T>(&self) -> Reply<T>
        requires { IsState self.now }
        ensures { IsAnswered call.Closed result self.now self.now }
    {
        closed_or_waits(&self.error)
    }

    // Closes, with a code and a reason of the application's; the moment counts from the driver's last turn at the earliest. No call waits any more.
    pub(crate) fn close(&mut self, now: Moment, error_code: VarInt, reason: Reason)
        requires { IsState self.old }
        ensures changed { IsChanged with_close self.old self.new }
        ensures calls { IsCallOf {T = Unit {0}} (call.Close now error_code reason) reply.Done self.old self.new }
        ensures woken { self.new.driver ≡ None }
        ensures rest { KeepsTurns self.old self.new }
    {
        qh_shown::closes_shown::<S>();
        let now = now.max(self.last_turn);
        self.connection.close(now, error_code, reason);
        self.error = Some(ConnectionError::LocallyClosed);
        self.waiting.clear();
        self.wake();
    }

    pub(crate) fn clone_handle<T>(&mut self) -> Result<Reply<T>, Memory>
        requires { IsState self.old }
        ensures value { Answers call.CloneHandle result self.old self.new }
        ensures calls { CallsOf call.CloneHandle result self.old self.new }
        ensures waiting { self.new.waiting ≡ self.old.waiting }
        ensures rest { KeepsTurns self.old self.new }
    {
        let Some(handles) = self.handles.checked_add(1) else {
            return Err(Memory);
        };
        self.handles = handles;
        Ok(Reply::Done)
    }

    // A handle is gone: the last one closes, if no error is kept.
    pub(crate) fn end_handle(&mut self)
        requires { IsState self.old }
        ensures changed { IsChanged without_handle self.old self.new }
        ensures calls { IsCallOf {T = Unit {0}} call.EndHandle reply.Done self.old self.new }
        ensures awake { self.old.driver ≡ None → self.new.driver ≡ None }
        ensures rest { KeepsTurns self.old self.new }
    {
        self.handles = self.handles.saturating_sub(1);
        if is_last(self.handles, &self.error) {
            self.close(self.last_turn, VarInt::from_u32(0), Reason::of(&[]));
        }
    }

    // A `SendStream` ends: the stream is finished, or reset with the peer's code if the peer asked to stop it. Once an error is kept nothing of it changes.
    pub(crate) fn end_send(&mut self, id: StreamId)
        requires { IsState self.old }
        ensures changed { IsChanged (λ b. without_handle (with_send_ended b id.0)) self.old self.new }
        ensures calls { IsCallOf {T = Unit {0}} (call.EndSend id) reply.Done self.old self.new }
        ensures rest { KeepsTurns self.old self.new }
    {
        self.end_half(id);
        self.end_handle();
    }

    // What that does to the half itself.
    fn end_half(&mut self, id: StreamId)
        requires { IsState self.old }
        ensures changed { IsChanged (λ b. with_send_ended b id.0) self.old self.new }
        ensures carries { (b : Book) → Shows self.old b → CarriesOn self.old.connection self.new.connection (send_handle_acts b id.0) }
        ensures half { EndsSending id.0 self.old.connection self.new.connection }
        ensures lost { is_some self.old.error ≡ true → self.new.connection ≡ self.old.connection }
        ensures wakes { WakesIfChanged self.old self.new }
        ensures counts { (self.new.handles ≡ self.old.handles) × (self.new.error ≡ self.old.error) }
        ensures rest { KeepsTurns self.old self.new }
    {
        qh_book::ends_shown::<u8>();
        if self.error.is_some() {
            return;
        }
        let Some(code) = self.stop_code(id) else {
            let _ = self.finish::<u8>(id);
            return;
        };
        let _ = self.reset::<u8>(id, code);
    }

    // The code with which the peer asked to stop a half, if it did and the connection has the half still.
    fn stop_code(&self, id: StreamId) -> Option<VarInt>
        requires state { IsState self.now }
        requires unlost { self.now.error ≡ None }
        ensures { (b : Book) → Shows self.now b → (p : SendPage) → live_send (b.sends id.0) ≡ Some p → p.stop_code ≡ result }
    {
        let told = self.stopped::<u8>(id);
        match &told {
            Reply::Code(code) => *code,
            _ => None,
        }
    }

    // A `RecvStream` ends: the stream is stopped, unless a read gave its end or an error, or it was stopped.
    pub(crate) fn end_recv(&mut self, id: StreamId)
        requires { IsState self.old }
        ensures changed { IsChanged (recv_handle_ended id.0) self.old self.new }
        ensures calls { IsCallOf {T = Unit {0}} (call.EndRecv id) reply.Done self.old self.new }
        ensures rest { KeepsTurns self.old self.new }
    {
        let Some(reader) = self.readers.get(id.0) else {
            return;
        };
        self.end_reading(id, reader);
        self.end_reader(id);
        self.end_handle();
    }

    // What that does to the half itself.
    fn end_reading(&mut self, id: StreamId, reader: Reader)
        requires state { IsState self.old }
        requires there { reader_in self.old.readers id.0 ≡ Some reader }
        ensures changed { IsChanged (λ b. with_recv_ended b id.0) self.old self.new }
        ensures carries { (b : Book) → Shows self.old b → CarriesOn self.old.connection self.new.connection (recv_handle_acts b id.0) }
        ensures half { EndsReading self.old.error reader id.0 self.old.connection self.new.connection }
        ensures lost { is_some self.old.error ≡ true → self.new.connection ≡ self.old.connection }
        ensures wakes { WakesIfChanged self.old self.new }
        ensures counts { (self.new.handles ≡ self.old.handles) × (self.new.error ≡ self.old.error) }
        ensures rest { KeepsTurns self.old self.new }
    {
        qh_book::ends_shown::<u8>();
        if is_stopped_by_end(&self.error, &reader) {
            self.stop_open::<u8>(id, reader, VarInt::from_u32(0));
        }
    }

    // No handle holds the half any more.
    fn end_reader(&mut self, id: StreamId)
        requires { IsState self.old }
        ensures changed { IsChanged (without_reader id.0) self.old self.new }
        ensures same { self.new ≡ record self.old { readers = self.new.readers } }
    {
        self.readers.release(id.0);
    }
}

// Whether no handle is left of a connection that isn't lost.
fn is_last(handles: u64, error: &Option<ConnectionError>) -> bool
    ensures { result ≡ (handles == 0 && not (is_some error.now)) }
{
    handles == 0 && error.is_none()
}

// Whether the end of its handle stops a half: one that is read and gave no error, of a connection that isn't lost.
fn is_stopped_by_end(error: &Option<ConnectionError>, reader: &Reader) -> bool
    ensures { result ≡ is_stopped_by_end error.now reader.now }
{
    error.is_none() && reader.is_open && !reader.gave_error
}
