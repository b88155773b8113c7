ghost use Rattle.std.specs.Prelude.{◌≡◌, ◌==◌, ℕ, [], true, false, None, Some, is_some, MatchOption, MatchResult, if◌then◌else◌};
ghost use Rattle.qh_book.specs.declared.call.Call.TheVariants as call;
ghost use Rattle.qh_book.specs.declared.reply.Reply.TheVariants as reply;
ghost use Rattle.qh_half.specs.declared.fault.ReadFault.TheVariants as read_faults;
ghost use Rattle.qh_quinn.specs.Acting.{Answers, IsAnswered, KeepsTurns, lost_or_pending};
ghost use Rattle.qh_quinn.specs.Calls.{CallsOf, IsCallOf, WakesIfChanged};
ghost use Rattle.qh_quinn.specs.Readers.{code_of, reader_in, with_reader};
ghost use Rattle.qh_quinn.specs.States.{IsState};
ghost use Rattle.qh_shown.specs.Connections.{is_wanting};

use super::{StateInner, closed_or_waits, kept_error};
use crate::readers::Reader;
use bytes::Bytes;
use qh_base::{Memory, StreamId, VarInt};
use qh_book::Reply;
use qh_conn::{ClosedStream, ReadableFault, TakeFault};
use qh_half::ReadFault;

impl<S> StateInner<S> {
    // What is kept of a stream that a handle holds is this from now on.
    fn keep(&mut self, id: StreamId, reader: Reader)
        ensures readers { (k : ℕ) → reader_in self.new.readers k ≡ (if k == id.0 then with_reader reader (reader_in self.old.readers k) else reader_in self.old.readers k) }
        ensures rest { self.new ≡ record self.old { readers = self.new.readers } }
    {
        self.readers.put(id.0, reader);
    }

    // Reads of a stream that a handle holds.
    pub(crate) fn read<T>(
        &mut self,
        id: StreamId,
        max_length: usize,
        is_ordered: bool,
    ) -> Result<Reply<T>, Memory>
        requires { IsState self.old }
        ensures value { Answers (call.Read id max_length is_ordered) result self.old self.new }
        ensures calls { CallsOf (call.Read id max_length is_ordered) result self.old self.new }
        ensures waiting { self.new.waiting ≡ self.old.waiting }
        ensures rest { KeepsTurns self.old self.new }
    {
        qh_book::emptied_shown::<T>();
        let Some(reader) = self.readers.get(id.0) else {
            return Ok(Reply::ClosedStream);
        };
        if !reader.is_open {
            return Ok(read_shut(max_length));
        }
        if self.is_emptied() {
            return Ok(self.read_emptied(id, reader, max_length, is_ordered));
        }
        self.read_open(id, reader, max_length, is_ordered)
    }

    // Reads of one of which the connection has what came.
    fn read_open<T>(
        &mut self,
        id: StreamId,
        reader: Reader,
        max_length: usize,
        is_ordered: bool,
    ) -> Result<Reply<T>, Memory>
        requires state { IsState self.old }
        requires calm { is_wanting self.old.connection ≡ false }
        requires there { reader_in self.old.readers id.0 ≡ Some reader }
        requires opened { reader.is_open ≡ true }
        ensures value { Answers (call.Read id max_length is_ordered) result self.old self.new }
        ensures calls { CallsOf (call.Read id max_length is_ordered) result self.old self.new }
        ensures waiting { self.new.waiting ≡ self.old.waiting }
        ensures rest { KeepsTurns self.old self.new }
    {
        qh_book::reads_shown::<T>();
        let begun = reader.begun(is_ordered);
        match self.connection.read(id, max_length, is_ordered) {
            Ok(Some(chunk)) => {
                self.take(id, begun);
                Ok(Reply::Bytes {
                    offset: chunk.offset,
                    payload: chunk.bytes,
                })
            }
            Ok(None) => {
                self.take(id, begun.ended());
                Ok(Reply::Ended)
            }
            // A half that is read isn't closed.
            Err(TakeFault::Readable(ReadableFault::ClosedStream)) => Ok(Reply::ClosedStream),
            Err(TakeFault::Readable(ReadableFault::IllegalOrderedRead)) => {
                Ok(self.read_illegal(id, reader, begun, max_length))
            }
            Err(TakeFault::Read(fault)) => match reset_in(fault) {
                Ok(Some(code)) => {
                    self.take(id, begun.reset_by(code));
                    Ok(Reply::Reset(code))
                }
                Ok(None) => Ok(self.read_blocked(id, begun)),
                Err(Memory) => Err(Memory),
            },
        }
    }

    // What is kept of a stream from which a read took something is this. The driver is woken: the peer may be permitted more bytes.
    fn take(&mut self, id: StreamId, reader: Reader)
        ensures readers { (k : ℕ) → reader_in self.new.readers k ≡ (if k == id.0 then with_reader reader (reader_in self.old.readers k) else reader_in self.old.readers k) }
        ensures rest { self.new ≡ record self.old { readers = self.new.readers; driver = None } }
    {
        self.keep(id, reader);
        self.wake();
    }

    // An ordered read after an unordered one gives that error, and if it is of no bytes none.
    fn read_illegal<T>(
        &mut self,
        id: StreamId,
        reader: Reader,
        begun: Reader,
        max_length: usize,
    ) -> Reply<T>
        ensures value { result ≡ (if max_length == 0 then reply.Bytes 0 [] else reply.IllegalOrderedRead) }
        ensures readers { (k : ℕ) → reader_in self.new.readers k ≡ (if k == id.0 then with_reader (if max_length == 0 then begun else record reader { gave_error = true }) (reader_in self.old.readers k) else reader_in self.old.readers k) }
        ensures rest { self.new ≡ record self.old { readers = self.new.readers } }
    {
        if max_length == 0 {
            self.keep(id, begun);
            return no_bytes();
        }
        self.keep(id, reader.failed());
        Reply::IllegalOrderedRead
    }

    // A read that finds nothing waits, unless the connection is lost.
    fn read_blocked<T>(&mut self, id: StreamId, begun: Reader) -> Reply<T>
        ensures value { result ≡ lost_or_pending self.old.error }
        ensures readers { (k : ℕ) → reader_in self.new.readers k ≡ (if k == id.0 then with_reader (if is_some self.old.error then record begun { gave_error = true } else begun) (reader_in self.old.readers k) else reader_in self.old.readers k) }
        ensures rest { self.new ≡ record self.old { readers = self.new.readers } }
    {
        match kept_error(&self.error) {
            Some(error) => {
                self.keep(id, begun.failed());
                Reply::ConnectionLost(error)
            }
            None => {
                self.keep(id, begun);
                Reply::Pending
            }
        }
    }

    // Reads of one of which want of memory left nothing.
    fn read_emptied<T>(
        &mut self,
        id: StreamId,
        reader: Reader,
        max_length: usize,
        is_ordered: bool,
    ) -> Reply<T>
        requires state { IsState self.old }
        requires emptied { is_wanting self.old.connection ≡ true }
        requires there { reader_in self.old.readers id.0 ≡ Some reader }
        requires opened { reader.is_open ≡ true }
        ensures value { IsAnswered (call.Read id max_length is_ordered) result self.old self.new }
        ensures calls { IsCallOf (call.Read id max_length is_ordered) result self.old self.new }
        ensures waiting { self.new.waiting ≡ self.old.waiting }
        ensures rest { KeepsTurns self.old self.new }
    {
        qh_book::emptied_shown::<T>();
        let begun = reader.begun(is_ordered);
        if max_length == 0 {
            self.keep(id, begun);
            return no_bytes();
        }
        if reader.is_out_of_order(is_ordered) {
            self.keep(id, reader.failed());
            return Reply::IllegalOrderedRead;
        }
        self.keep(id, begun.failed());
        closed_or_waits(&self.error)
    }

    // Stops a stream that a handle holds.
    pub(crate) fn stop<T>(&mut self, id: StreamId, code: VarInt) -> Reply<T>
        requires { IsState self.old }
        ensures value { IsAnswered (call.Stop id code) result self.old self.new }
        ensures calls { IsCallOf (call.Stop id code) result self.old self.new }
        ensures waiting { self.new.waiting ≡ self.old.waiting }
        ensures rest { KeepsTurns self.old self.new }
    {
        qh_book::emptied_shown::<T>();
        let Some(reader) = self.readers.get(id.0) else {
            return Reply::ClosedStream;
        };
        if !reader.is_open {
            return Reply::ClosedStream;
        }
        self.stop_open::<T>(id, reader, code);
        Reply::Done
    }

    // Stops a stream that is read. Of one that was reset before, the code is kept.
    pub(crate) fn stop_open<T>(&mut self, id: StreamId, reader: Reader, code: VarInt)
        requires state { IsState self.old }
        requires there { reader_in self.old.readers id.0 ≡ Some reader }
        requires opened { reader.is_open ≡ true }
        ensures value { IsAnswered {T = T} (call.Stop id code) reply.Done self.old self.new }
        ensures calls { IsCallOf {T = T} (call.Stop id code) reply.Done self.old self.new }
        ensures wakes { WakesIfChanged self.old self.new }
        ensures counts { (self.new.handles ≡ self.old.handles) × (self.new.error ≡ self.old.error) }
        ensures waiting { self.new.waiting ≡ self.old.waiting }
        ensures rest { KeepsTurns self.old self.new }
    {
        qh_book::emptied_shown::<T>();
        qh_book::stops_shown::<T>();
        let stopped = Reader {
            is_open: false,
            ..reader
        };
        if self.is_emptied() {
            self.keep(id, stopped);
            return;
        }
        match self.connection.received_reset(id) {
            Ok(Some(reset)) => {
                let known = Reader {
                    code: Some(reset),
                    ..stopped
                };
                self.keep(id, known);
                self.wake();
            }
            Ok(None) => {
                let _ = self.connection.stop(id, code);
                self.keep(id, stopped);
                self.wake();
            }
            // A half that is read isn't closed.
            Err(ClosedStream) => {}
        }
    }

    // Waits for the peer's reset of a stream that a handle holds.
    pub(crate) fn received_reset<T>(&mut self, id: StreamId) -> Reply<T>
        requires { IsState self.old }
        ensures value { IsAnswered (call.ReceivedReset id) result self.old self.new }
        ensures calls { IsCallOf (call.ReceivedReset id) result self.old self.new }
        ensures waiting { self.new.waiting ≡ self.old.waiting }
        ensures rest { KeepsTurns self.old self.new }
    {
        qh_book::emptied_shown::<T>();
        let Some(reader) = self.readers.get(id.0) else {
            return Reply::Code(None);
        };
        let is_emptied = self.is_emptied();
        if let Some(code) = reader.code(is_emptied) {
            return self.tell_reset(id, reader, code);
        }
        if !reader.is_open {
            return Reply::Code(None);
        }
        if is_emptied {
            return closed_or_waits(&self.error);
        }
        self.reset_open(id, reader)
    }

    // Tells the code of the reset of one that isn't read any more.
    fn tell_reset<T>(&mut self, id: StreamId, reader: Reader, code: VarInt) -> Reply<T>
        requires state { IsState self.old }
        requires there { reader_in self.old.readers id.0 ≡ Some reader }
        requires known { code_of (is_wanting self.old.connection) reader ≡ Some code }
        ensures value { IsAnswered (call.ReceivedReset id) result self.old self.new }
        ensures calls { IsCallOf (call.ReceivedReset id) result self.old self.new }
        ensures waiting { self.new.waiting ≡ self.old.waiting }
        ensures rest { KeepsTurns self.old self.new }
    {
        qh_book::emptied_shown::<T>();
        qh_book::closed_recvs_shown::<T>();
        let told = Reader {
            is_told: true,
            ..reader
        };
        self.keep(id, told);
        Reply::Code(Some(code))
    }

    // Waits for the reset of one that is read.
    fn reset_open<T>(&mut self, id: StreamId, reader: Reader) -> Reply<T>
        requires state { IsState self.old }
        requires calm { is_wanting self.old.connection ≡ false }
        requires there { reader_in self.old.readers id.0 ≡ Some reader }
        requires opened { reader.is_open ≡ true }
        ensures value { IsAnswered (call.ReceivedReset id) result self.old self.new }
        ensures calls { IsCallOf (call.ReceivedReset id) result self.old self.new }
        ensures waiting { self.new.waiting ≡ self.old.waiting }
        ensures rest { KeepsTurns self.old self.new }
    {
        qh_book::stops_shown::<T>();
        match self.connection.received_reset(id) {
            Ok(Some(code)) => {
                let told = Reader {
                    is_open: false,
                    code: Some(code),
                    is_told: true,
                    ..reader
                };
                self.keep(id, told);
                self.wake();
                Reply::Code(Some(code))
            }
            Ok(None) => closed_or_waits(&self.error),
            // A half that is read isn't closed.
            Err(ClosedStream) => Reply::Code(None),
        }
    }
}

// A read of one that isn't read any more gives the end, and if it is of no bytes none.
fn read_shut<T>(max_length: usize) -> Reply<T>
    ensures { result ≡ (if max_length == 0 then reply.Bytes 0 [] else reply.Ended) }
{
    if max_length == 0 {
        return no_bytes();
    }
    Reply::Ended
}

fn no_bytes<T>() -> Reply<T>
    ensures { result ≡ reply.Bytes 0 [] }
{
    Reply::Bytes {
        offset: 0,
        payload: Bytes::new(),
    }
}

// The code of the peer's reset, if a read found it; none if it found nothing.
fn reset_in(fault: ReadFault) -> Result<Option<VarInt>, Memory>
    ensures { MatchResult result (λ found. MatchOption found (fault ≡ read_faults.Blocked) (λ code. fault ≡ read_faults.Reset code)) (λ e. fault ≡ read_faults.Memory) }
{
    match fault {
        ReadFault::Blocked => Ok(None),
        ReadFault::Reset(code) => Ok(Some(code)),
        ReadFault::Memory => Err(Memory),
    }
}
