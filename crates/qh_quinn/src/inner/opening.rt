ghost use Rattle.std.specs.Prelude.{◌≡◌, ◌+◌, ℕ, false, Some, IfSome, if◌then◌else◌};
ghost use Rattle.qh_book.specs.declared.call.Call.TheVariants as call;
ghost use Rattle.qh_book.specs.Opening.{handles_of, held_by_opener};
ghost use Rattle.qh_quinn.specs.Acting.{Answers, IsAnswered, KeepsTurns};
ghost use Rattle.qh_quinn.specs.Calls.{CallsOf};
ghost use Rattle.qh_quinn.specs.Readers.{HasRoom, new_reader, reader_in};
ghost use Rattle.qh_quinn.specs.States.{IsState};

use super::{StateInner, closed_or_waits, kept_error};
use crate::readers::Readers;
use qh_base::{Dir, Memory};
use qh_book::Reply;

impl<S> StateInner<S> {
    // Waits for the handshake.
    pub(crate) fn connect<T>(&self) -> Reply<T>
        requires { IsState self.now }
        ensures { IsAnswered call.Connecting result self.now self.now }
    {
        if self.is_connected {
            return Reply::Done;
        }
        closed_or_waits(&self.error)
    }

    // Opens a stream: the kept error comes first.
    pub(crate) fn open<T>(&mut self, dir: Dir) -> Result<Reply<T>, Memory>
        requires { IsState self.old }
        ensures value { Answers (call.Open dir) result self.old self.new }
        ensures calls { CallsOf (call.Open dir) result self.old self.new }
        ensures waiting { self.new.waiting ≡ self.old.waiting }
        ensures rest { KeepsTurns self.old self.new }
    {
        qh_book::opens_shown::<T>();
        if let Some(error) = kept_error(&self.error) {
            return Ok(Reply::ConnectionLost(error));
        }
        self.readers.reserve()?;
        let Some(handles) = handles_with(self.handles, dir) else {
            return Err(Memory);
        };
        let Some(id) = self.connection.open(dir)? else {
            return Ok(Reply::Pending);
        };
        self.handles = handles;
        hold_opened(&mut self.readers, dir, id.0);
        Ok(Reply::Opened(id))
    }

    // Accepts a stream: one that waits comes first, then the kept error.
    pub(crate) fn accept<T>(&mut self, dir: Dir) -> Result<Reply<T>, Memory>
        requires { IsState self.old }
        ensures value { Answers (call.Accept dir) result self.old self.new }
        ensures calls { CallsOf (call.Accept dir) result self.old self.new }
        ensures waiting { self.new.waiting ≡ self.old.waiting }
        ensures rest { KeepsTurns self.old self.new }
    {
        qh_book::opens_shown::<T>();
        self.readers.reserve()?;
        let Some(handles) = handles_with(self.handles, dir) else {
            return Err(Memory);
        };
        if self.is_emptied() {
            return Ok(closed_or_waits(&self.error));
        }
        let Some(id) = self.connection.accept(dir) else {
            return Ok(closed_or_waits(&self.error));
        };
        self.handles = handles;
        self.readers.hold(id.0);
        Ok(Reply::Opened(id))
    }
}

// How many handles there are with those of one more stream. None if they can't be counted.
fn handles_with(handles: u64, dir: Dir) -> Option<u64>
    ensures { IfSome result (λ n. n ≡ handles + handles_of dir) }
{
    match dir {
        Dir::Bi => handles.checked_add(2),
        Dir::Uni => handles.checked_add(1),
    }
}

// A handle holds the receiving half of a stream that this end opens, if it has one. There is room for it.
fn hold_opened(held: &mut Readers, dir: Dir, id: u64)
    requires { HasRoom held.old }
    ensures { (k : ℕ) → reader_in held.new k ≡ (if held_by_opener dir id (λ j. false) k then Some new_reader else reader_in held.old k) }
{
    if let Dir::Bi = dir {
        held.hold(id);
    }
}
