ghost use Rattle.std.specs.Prelude.{◌≡◌, MatchResult};
ghost use Rattle.qh_book.specs.Shown.{write_reply};
ghost use Rattle.qh_book.specs.declared.call.Call.TheVariants as call;
ghost use Rattle.qh_half.specs.declared.fault.WriteFault.TheVariants as write_faults;
ghost use Rattle.qh_quinn.specs.Acting.{Answers, IsAnswered, KeepsTurns};
ghost use Rattle.qh_quinn.specs.Calls.{CallsOf, IsCallOf, WakesIfChanged};
ghost use Rattle.qh_quinn.specs.States.{IsState};

use super::{StateInner, closed_or_waits, kept_error};
use qh_base::{Memory, StreamId, VarInt};
use qh_book::Reply;
use qh_conn::{ClosedStream, FinishFault, WriteFault};

impl<S> StateInner<S> {
    // Writes to a stream: the kept error comes first.
    pub(crate) fn write<T>(&mut self, id: StreamId, payload: &[u8]) -> Result<Reply<T>, Memory>
        requires { IsState self.old }
        ensures value { Answers (call.Write id payload.now) result self.old self.new }
        ensures calls { CallsOf (call.Write id payload.now) result self.old self.new }
        ensures waiting { self.new.waiting ≡ self.old.waiting }
        ensures rest { KeepsTurns self.old self.new }
    {
        qh_book::writes_shown::<T>();
        qh_book::refusals_shown::<T>();
        qh_book::untold_shown();
        if let Some(error) = kept_error(&self.error) {
            return Ok(Reply::ConnectionLost(error));
        }
        match self.connection.write(id, payload) {
            Ok(count) => {
                self.wake();
                Ok(Reply::Count(count))
            }
            Err(fault) => refused_write(fault),
        }
    }

    // Ends a stream. One that the peer asked to stop needs no end.
    pub(crate) fn finish<T>(&mut self, id: StreamId) -> Reply<T>
        requires { IsState self.old }
        ensures value { IsAnswered (call.Finish id) result self.old self.new }
        ensures calls { IsCallOf (call.Finish id) result self.old self.new }
        ensures wakes { WakesIfChanged self.old self.new }
        ensures counts { (self.new.handles ≡ self.old.handles) × (self.new.error ≡ self.old.error) }
        ensures waiting { self.new.waiting ≡ self.old.waiting }
        ensures rest { KeepsTurns self.old self.new }
    {
        qh_book::writes_shown::<T>();
        qh_book::refusals_shown::<T>();
        if self.is_emptied() {
            return Reply::ClosedStream;
        }
        match self.connection.finish(id) {
            Ok(()) => {
                self.wake();
                Reply::Done
            }
            Err(FinishFault::Stopped(_)) => Reply::Done,
            Err(FinishFault::ClosedStream) => Reply::ClosedStream,
        }
    }

    // Resets a stream.
    pub(crate) fn reset<T>(&mut self, id: StreamId, code: VarInt) -> Reply<T>
        requires { IsState self.old }
        ensures value { IsAnswered (call.Reset id code) result self.old self.new }
        ensures calls { IsCallOf (call.Reset id code) result self.old self.new }
        ensures wakes { WakesIfChanged self.old self.new }
        ensures counts { (self.new.handles ≡ self.old.handles) × (self.new.error ≡ self.old.error) }
        ensures waiting { self.new.waiting ≡ self.old.waiting }
        ensures rest { KeepsTurns self.old self.new }
    {
        qh_book::writes_shown::<T>();
        qh_book::refusals_shown::<T>();
        if self.is_emptied() {
            return Reply::ClosedStream;
        }
        match self.connection.reset(id, code) {
            Ok(()) => {
                self.wake();
                Reply::Done
            }
            Err(ClosedStream) => Reply::ClosedStream,
        }
    }

    // Waits for the code with which the peer asks to stop a stream, or for its end.
    pub(crate) fn stopped<T>(&self, id: StreamId) -> Reply<T>
        requires { IsState self.now }
        ensures { IsAnswered (call.Stopped id) result self.now self.now }
    {
        qh_book::sends_told_shown::<T>();
        if self.is_emptied() {
            return closed_or_waits(&self.error);
        }
        match self.connection.stopped(id) {
            Ok(None) => closed_or_waits(&self.error),
            Ok(Some(code)) => Reply::Code(Some(code)),
            Err(ClosedStream) => Reply::Code(None),
        }
    }

    // Sets the priority of a stream.
    pub(crate) fn set_priority<T>(&mut self, id: StreamId, priority: i32) -> Reply<T>
        requires { IsState self.old }
        ensures value { IsAnswered (call.SetPriority id priority) result self.old self.new }
        ensures calls { IsCallOf (call.SetPriority id priority) result self.old self.new }
        ensures waiting { self.new.waiting ≡ self.old.waiting }
        ensures rest { KeepsTurns self.old self.new }
    {
        qh_book::writes_shown::<T>();
        qh_book::sends_told_shown::<T>();
        if self.is_emptied() {
            return Reply::ClosedStream;
        }
        match self.connection.set_priority(id, priority) {
            Ok(()) => Reply::Done,
            Err(ClosedStream) => Reply::ClosedStream,
        }
    }

    // The priority of a stream.
    pub(crate) fn priority<T>(&self, id: StreamId) -> Reply<T>
        requires { IsState self.now }
        ensures { IsAnswered (call.Priority id) result self.now self.now }
    {
        qh_book::sends_told_shown::<T>();
        if self.is_emptied() {
            return Reply::ClosedStream;
        }
        match self.connection.priority(id) {
            Ok(priority) => Reply::Priority(priority),
            Err(ClosedStream) => Reply::ClosedStream,
        }
    }
}

// What is replied to a write that the connection refuses.
fn refused_write<T>(fault: WriteFault) -> Result<Reply<T>, Memory>
    ensures { MatchResult result (λ r. (r ≡ write_reply fault) × (fault ≡ write_faults.Memory → ⊥)) (λ e. fault ≡ write_faults.Memory) }
{
    match fault {
        WriteFault::Blocked => Ok(Reply::Pending),
        WriteFault::Stopped(code) => Ok(Reply::Stopped(code)),
        WriteFault::ClosedStream => Ok(Reply::ClosedStream),
        WriteFault::Memory => Err(Memory),
    }
}
