ghost use Rattle.std.specs.Prelude.{◌≡◌, ◌⊎◌, ◌<◌, ◌≤◌, ◌-◌, ◌++◌, ◌∷◌, [], None, Some, IfErr, IfSome, MatchOption, MatchResult, IsOk, OnOk, true, false, is_some, length, ⊤};
ghost use Rattle.futures.specs.Poll.{OnPending};
ghost use Rattle.futures.specs.Task.{IsArmed, Keeps};
ghost use Rattle.qh_book.specs.declared.call.Call.TheVariants as call;
ghost use Rattle.qh_book.specs.declared.reply.Reply.{Reply as AReply};
ghost use Rattle.qh_book.specs.declared.reply.Reply.TheVariants as answer;
ghost use Rattle.qh_parts.specs.ReadToEndBuffer.{PlainBuffer as ABuffer, widened};
ghost use Rattle.qh_handles.specs.declared.told.Told.{Told as AToldValue};
ghost use Rattle.qh_handles.specs.Chains.{AreAll, EndsReads, IsExactError, FitsLimit, IsFilled, IsGathered, IsHalt, IsKeepError, IsPlaced, IsToEndError, IsTooLong, buffer_or, is_reset};
ghost use Rattle.qh_handles.specs.Origins.{IsFrom, read_origin, reset_origin};
ghost use Rattle.qh_handles.specs.Polls.{MatchAnswer};
ghost use Rattle.qh_handles.specs.Streams.{IsReadInto, IsReadOrEnded, chunk_reply};

use crate::ask::ask;
use crate::{At, ReadError, ReadExactError, ReadToEndError, ResetError};
use bytes::Bytes;
use futures::task::{Context, Poll};
use qh_base::{Memory, StreamId, VarInt};
use qh_book::{Call, Reply};
use qh_conn::{Chunk, ClosedStream};
use qh_parts::{PushFault, ReadToEndBuffer};
use std::alloc::Global;

/// The receiving half of a stream (quinn, `RecvStream`). It is one of the handles that the connection's state counts. One that is dropped without `end` stays
/// counted, so the connection isn't closed for want of handles, and the stream isn't stopped.
#[derive(Drop)]
pub struct RecvStream {
    id: StreamId,
}

impl RecvStream {
    // The half that a reply tells.
    pub(crate) fn of_id(id: StreamId) -> RecvStream
        ensures { result.id ≡ id }
    {
        RecvStream { id }
    }

    /// Reads the next bytes into the front of the buffer, and says how many. There are none at the end, or if the buffer is empty.
    pub fn poll_read<A: At>(
        &mut self,
        at: &mut A,
        buf: &mut [u8],
        cx: &mut Context<'_>,
    ) -> Poll<Result<usize, ReadError>>
        ensures same { self.new ≡ self.old }
        ensures value { MatchAnswer result
            (λ count. IsReadOrEnded (λ r. A.acts at.old (call.Read self.old.id (length buf.old) true) r at.new) count buf.old buf.new)
            (λ e. IsFrom (read_origin e) (λ r. A.acts at.old (call.Read self.old.id (length buf.old) true) r at.new) (A.stays at.old at.new))
            (A.acts at.old (call.Read self.old.id (length buf.old) true) answer.Pending at.new) }
        ensures unread { MatchAnswer result (λ _. ⊤) (λ _. buf.new ≡ buf.old) (buf.new ≡ buf.old) }
        ensures armed { OnPending result (IsArmed cx.new) }
        ensures kept { Keeps cx.old cx.new }
    {
        match read_into(self.id, at, buf, cx) {
            Poll::Ready(Ok(Some(count))) => Poll::Ready(Ok(count)),
            Poll::Ready(Ok(None)) => Poll::Ready(Ok(0)),
            Poll::Ready(Err(error)) => Poll::Ready(Err(error)),
            Poll::Pending => Poll::Pending,
        }
    }

    /// Reads the next bytes into the front of a buffer that is lent: a call that waits for some.
    pub fn read<'a>(&mut self, buf: &'a mut [u8]) -> Read<'a>
        ensures same { self.new ≡ self.old }
        ensures stream { result.id ≡ self.old.id }
        ensures lent { result.buf.ghost_name ≡ buf.entry.ghost_name }
        ensures bytes { result.buf.now ≡ buf.old }
    {
        Read { id: self.id, buf }
    }

    /// Reads as many bytes as a buffer that is lent has room for: a call that waits for all of them.
    pub fn read_exact<'a>(&mut self, buf: &'a mut [u8]) -> ReadExact<'a>
        ensures same { self.new ≡ self.old }
        ensures stream { result.id ≡ self.old.id }
        ensures lent { result.buf.ghost_name ≡ buf.entry.ghost_name }
        ensures bytes { result.buf.now ≡ buf.old }
        ensures none { result.filled ≡ 0 }
    {
        ReadExact {
            id: self.id,
            buf,
            filled: 0,
        }
    }

    /// Reads a piece of at most `max_length` bytes, the next one or any that came: a call that waits for one.
    pub fn read_chunk(&mut self, max_length: usize, ordered: bool) -> ReadChunk
        ensures same { self.new ≡ self.old }
        ensures value { result ≡ record { id = self.old.id; max_length = max_length; is_ordered = ordered } }
    {
        ReadChunk {
            id: self.id,
            max_length,
            is_ordered: ordered,
        }
    }

    /// Reads the next pieces into the front of a list that is lent: a call that waits for one, and takes what else came.
    pub fn read_chunks<'a>(&mut self, bufs: &'a mut [Bytes]) -> ReadChunks<'a>
        ensures same { self.new ≡ self.old }
        ensures stream { result.id ≡ self.old.id }
        ensures lent { result.bufs.ghost_name ≡ bufs.entry.ghost_name }
        ensures chunks { result.bufs.now ≡ bufs.old }
    {
        ReadChunks {
            id: self.id,
            bufs,
            count: 0,
        }
    }

    /// Reads all of the stream, which may be so many bytes long: a call that waits for its end. Its reads are in no order.
    pub fn read_to_end(&mut self, size_limit: usize) -> ReadToEnd
        ensures same { self.new ≡ self.old }
        ensures stream { result.id ≡ self.old.id }
        ensures limit { result.size_limit ≡ size_limit }
        ensures none { result.buffer ≡ None }
        ensures over { result.is_over ≡ false }
    {
        ReadToEnd {
            id: self.id,
            size_limit,
            buffer: None,
            is_over: false,
        }
    }

    /// The code of the peer's reset: a call that waits for it.
    pub fn received_reset(&mut self) -> ReceivedReset
        ensures same { self.new ≡ self.old }
        ensures value { result.id ≡ self.old.id }
    {
        ReceivedReset { id: self.id }
    }

    /// Wants no more of the stream, and tells the peer so, with this code of the application (RFC 9000, section 3.5). What came and wasn't read is dropped.
    pub fn stop<A: At>(
        &mut self,
        at: &mut A,
        code: VarInt,
    ) -> Result<Result<(), ClosedStream>, Memory>
        ensures same { self.new ≡ self.old }
        ensures value { MatchResult result (λ r. MatchResult r (λ _. A.acts at.old (call.Stop self.old.id code) answer.Done at.new)
            (λ _. A.acts at.old (call.Stop self.old.id code) answer.ClosedStream at.new)) (λ _. A.stays at.old at.new) }
        ensures free { A.takes_none at.old (call.Stop self.old.id code) → IsOk result }
    {
        match at.act(Call::Stop { id: self.id, code }, None)? {
            Reply::Done => Ok(Ok(())),
            Reply::ClosedStream => Ok(Err(ClosedStream)),
            _ => unreachable!(),
        }
    }

    /// The id of the stream.
    pub fn id(&self) -> StreamId
        ensures { result ≡ self.now.id }
    {
        self.id
    }

    /// Whether it was opened before the handshake was complete. None is.
    pub fn is_0rtt(&self) -> bool
        ensures { result ≡ false }
    {
        false
    }

    /// Ends the handle. The stream is stopped with code 0, unless its end or an error was given, or it was stopped, or the connection is lost.
    pub fn end<A: At>(self, at: &mut A)
        ensures value { A.acts at.old (call.EndRecv self.id) answer.Done at.new ⊎ A.stays at.old at.new }
        ensures free { A.takes_none at.old (call.EndRecv self.id) → A.acts at.old (call.EndRecv self.id) answer.Done at.new }
    {
        match at.act(Call::EndRecv(self.id), None) {
            Ok(Reply::Done) | Err(Memory) => {}
            Ok(_) => unreachable!(),
        }
    }
}

// Reads the next bytes into the front of a buffer, and says how many. None at the end.
fn read_into<A: At>(
    id: StreamId,
    at: &mut A,
    buf: &mut [u8],
    cx: &mut Context<'_>,
) -> Poll<Result<Option<usize>, ReadError>>
    ensures value { MatchAnswer result
        (λ count. IsReadInto (λ r. A.acts at.old (call.Read id (length buf.old) true) r at.new) count buf.old buf.new)
        (λ e. IsFrom (read_origin e) (λ r. A.acts at.old (call.Read id (length buf.old) true) r at.new) (A.stays at.old at.new))
        (A.acts at.old (call.Read id (length buf.old) true) answer.Pending at.new) }
    ensures counts { MatchAnswer result (λ count. IfSome count (λ n. (n ≤ length buf.old) × ((length buf.old ≡ 0) ⊎ (0 < n)))) (λ _. ⊤) ⊤ }
    ensures unread { MatchAnswer result (λ _. ⊤) (λ _. buf.new ≡ buf.old) (buf.new ≡ buf.old) }
    ensures armed { OnPending result (IsArmed cx.new) }
    ensures kept { Keeps cx.old cx.new }
{
    let call = Call::Read {
        id,
        max_length: buf.len(),
        is_ordered: true,
    };
    let Ok(reply) = ask(at, call, cx) else {
        return Poll::Ready(Err(ReadError::Memory));
    };
    match reply {
        Reply::Bytes { payload, .. } => {
            let count = payload.len();
            buf[..count].copy_from_slice(payload.as_slice());
            Poll::Ready(Ok(Some(count)))
        }
        Reply::Ended => Poll::Ready(Ok(None)),
        Reply::Pending => Poll::Pending,
        Reply::Reset(code) => Poll::Ready(Err(ReadError::Reset(code))),
        Reply::ConnectionLost(error) => Poll::Ready(Err(ReadError::ConnectionLost(error))),
        Reply::ClosedStream => Poll::Ready(Err(ReadError::ClosedStream)),
        Reply::IllegalOrderedRead => Poll::Ready(Err(ReadError::IllegalOrderedRead)),
        _ => unreachable!(),
    }
}

// Reads a piece. None at the end.
fn poll_chunk<A: At>(
    id: StreamId,
    at: &mut A,
    max_length: usize,
    is_ordered: bool,
    cx: &mut Context<'_>,
) -> Poll<Result<Option<Chunk>, ReadError>>
    ensures value { MatchAnswer result (λ chunk. A.acts at.old (call.Read id max_length is_ordered) (chunk_reply chunk) at.new)
        (λ e. IsFrom (read_origin e) (λ r. A.acts at.old (call.Read id max_length is_ordered) r at.new) (A.stays at.old at.new))
        (A.acts at.old (call.Read id max_length is_ordered) answer.Pending at.new) }
    ensures armed { OnPending result (IsArmed cx.new) }
    ensures kept { Keeps cx.old cx.new }
{
    let call = Call::Read {
        id,
        max_length,
        is_ordered,
    };
    let Ok(reply) = ask(at, call, cx) else {
        return Poll::Ready(Err(ReadError::Memory));
    };
    match reply {
        Reply::Bytes { offset, payload } => Poll::Ready(Ok(Some(Chunk {
            offset,
            bytes: payload,
        }))),
        Reply::Ended => Poll::Ready(Ok(None)),
        Reply::Pending => Poll::Pending,
        Reply::Reset(code) => Poll::Ready(Err(ReadError::Reset(code))),
        Reply::ConnectionLost(error) => Poll::Ready(Err(ReadError::ConnectionLost(error))),
        Reply::ClosedStream => Poll::Ready(Err(ReadError::ClosedStream)),
        Reply::IllegalOrderedRead => Poll::Ready(Err(ReadError::IllegalOrderedRead)),
        _ => unreachable!(),
    }
}

/// Waits for bytes of a stream (quinn, `Read`).
#[derive(Drop)]
pub struct Read<'a> {
    id: StreamId,
    buf: &'a mut [u8],
}

impl Read<'_> {
    /// How many bytes were read into the front of the buffer. None at the end. A further poll reads the next bytes over these.
    pub fn poll<A: At>(
        &mut self,
        at: &mut A,
        cx: &mut Context<'_>,
    ) -> Poll<Result<Option<usize>, ReadError>>
        ensures same { self.new.id ≡ self.old.id }
        ensures lent { self.new.buf.ghost_name ≡ self.old.buf.ghost_name }
        ensures value { MatchAnswer result
            (λ count. IsReadInto (λ r. A.acts at.old (call.Read self.old.id (length self.old.buf.now) true) r at.new) count self.old.buf.now self.new.buf.now)
            (λ e. IsFrom (read_origin e) (λ r. A.acts at.old (call.Read self.old.id (length self.old.buf.now) true) r at.new) (A.stays at.old at.new))
            (A.acts at.old (call.Read self.old.id (length self.old.buf.now) true) answer.Pending at.new) }
        ensures unread { MatchAnswer result (λ _. ⊤) (λ _. self.new.buf.now ≡ self.old.buf.now) (self.new.buf.now ≡ self.old.buf.now) }
        ensures armed { OnPending result (IsArmed cx.new) }
        ensures kept { Keeps cx.old cx.new }
    {
        let buf = &mut *self.buf;
        read_into(self.id, at, buf, cx)
    }
}

/// Waits until a buffer is full of the bytes of a stream (quinn, `ReadExact`).
#[derive(Drop)]
pub struct ReadExact<'a> {
    id: StreamId,
    buf: &'a mut [u8],
    // How many bytes of the buffer's front were read.
    filled: usize,
}

impl ReadExact<'_> {
    /// Done once the buffer is full; a further poll is done at once then. If it waits, or answers an error, what was read stands in the buffer's front, and a
    /// further poll goes on behind it. If the stream ends before, `FinishedEarly` says how many bytes were read.
    pub fn poll<A: At>(
        &mut self,
        at: &mut A,
        cx: &mut Context<'_>,
    ) -> Poll<Result<(), ReadExactError>>
        ensures same { self.new.id ≡ self.old.id }
        ensures lent { self.new.buf.ghost_name ≡ self.old.buf.ghost_name }
        ensures value { (mid : A) × IsFilled A.acts self.old.id self.old.buf.now self.old.filled at.old self.new.buf.now self.new.filled mid
            × MatchAnswer result (λ _. (length self.old.buf.now ≤ self.new.filled) × (mid ≡ at.new))
            (λ e. (self.new.filled < length self.old.buf.now) × IsExactError e self.new.filled (λ r. A.acts mid (call.Read self.old.id (length self.old.buf.now - self.new.filled) true) r at.new) (A.stays mid at.new))
            ((self.new.filled < length self.old.buf.now) × A.acts mid (call.Read self.old.id (length self.old.buf.now - self.new.filled) true) answer.Pending at.new) }
        ensures armed { OnPending result (IsArmed cx.new) }
        ensures kept { Keeps cx.old cx.new }
    {
        let buf = &mut *self.buf;
        let filled = &mut self.filled;
        fill(self.id, at, buf, filled, cx)
    }
}

// Reads behind the front of a buffer that is filled until all of it is.
fn fill<A: At>(
    id: StreamId,
    at: &mut A,
    buf: &mut [u8],
    filled: &mut usize,
    cx: &mut Context<'_>,
) -> Poll<Result<(), ReadExactError>>
    ensures value { (mid : A) × IsFilled A.acts id buf.old filled.old at.old buf.new filled.new mid
        × MatchAnswer result (λ _. (length buf.old ≤ filled.new) × (mid ≡ at.new))
        (λ e. (filled.new < length buf.old) × IsExactError e filled.new (λ r. A.acts mid (call.Read id (length buf.old - filled.new) true) r at.new) (A.stays mid at.new))
        ((filled.new < length buf.old) × A.acts mid (call.Read id (length buf.old - filled.new) true) answer.Pending at.new) }
    ensures armed { OnPending result (IsArmed cx.new) }
    ensures kept { Keeps cx.old cx.new }
{
    while *filled < buf.len() {
        let rest = &mut buf[*filled..];
        match read_into(id, at, rest, cx) {
            Poll::Ready(Ok(Some(count))) => *filled += count,
            Poll::Ready(Ok(None)) => {
                return Poll::Ready(Err(ReadExactError::FinishedEarly(*filled)));
            }
            Poll::Ready(Err(error)) => return Poll::Ready(Err(ReadExactError::ReadError(error))),
            Poll::Pending => return Poll::Pending,
        }
    }
    Poll::Ready(Ok(()))
}

/// Waits for a piece of a stream (quinn, `ReadChunk`).
#[derive(Drop)]
pub struct ReadChunk {
    id: StreamId,
    max_length: usize,
    is_ordered: bool,
}

impl ReadChunk {
    /// The piece, with its offset. None at the end. A further poll reads another piece.
    pub fn poll<A: At>(
        &mut self,
        at: &mut A,
        cx: &mut Context<'_>,
    ) -> Poll<Result<Option<Chunk>, ReadError>>
        ensures same { self.new ≡ self.old }
        ensures value { MatchAnswer result (λ chunk. A.acts at.old (call.Read self.old.id self.old.max_length self.old.is_ordered) (chunk_reply chunk) at.new)
            (λ e. IsFrom (read_origin e) (λ r. A.acts at.old (call.Read self.old.id self.old.max_length self.old.is_ordered) r at.new) (A.stays at.old at.new))
            (A.acts at.old (call.Read self.old.id self.old.max_length self.old.is_ordered) answer.Pending at.new) }
        ensures armed { OnPending result (IsArmed cx.new) }
        ensures kept { Keeps cx.old cx.new }
    {
        poll_chunk(self.id, at, self.max_length, self.is_ordered, cx)
    }
}

/// Waits for pieces of a stream (quinn, `ReadChunks`).
#[derive(Drop)]
pub struct ReadChunks<'a> {
    id: StreamId,
    bufs: &'a mut [Bytes],
    // How many pieces the last poll read.
    count: usize,
}

impl ReadChunks<'_> {
    /// How many pieces were read into the front of the list. None at the end, and 0 if the list is empty. The first piece is waited for; then what came is
    /// taken. If a later read gives none, what was read is answered, and the next call tells why; but a reset, which is told once, is answered at once, and
    /// then `count` says how many pieces were read before it. A further poll reads the next pieces over these.
    pub fn poll<A: At>(
        &mut self,
        at: &mut A,
        cx: &mut Context<'_>,
    ) -> Poll<Result<Option<usize>, ReadError>>
        ensures same { self.new.id ≡ self.old.id }
        ensures lent { self.new.bufs.ghost_name ≡ self.old.bufs.ghost_name }
        ensures value { (mid : A) × IsPlaced A.acts self.old.id self.old.bufs.now at.old self.new.bufs.now mid self.new.count
            × MatchAnswer result
            (λ answered. MatchOption answered ((self.new.count ≡ 0) × (0 < length self.old.bufs.now) × A.acts mid (call.Read self.old.id usize.MAX true) answer.Ended at.new)
            (λ n. (n ≡ self.new.count) × (((n ≡ length self.old.bufs.now) × (mid ≡ at.new))
            ⊎ ((0 < n) × (n < length self.old.bufs.now) × (A.stays mid at.new ⊎ ((r : AReply (AToldValue A.HandshakeData)) × A.acts mid (call.Read self.old.id usize.MAX true) r at.new × EndsReads r))))))
            (λ e. (self.new.count < length self.old.bufs.now) × IsFrom (read_origin e) (λ r. A.acts mid (call.Read self.old.id usize.MAX true) r at.new × ((self.new.count ≡ 0) ⊎ (is_reset e ≡ true))) (A.stays mid at.new × (self.new.count ≡ 0)))
            ((self.new.count ≡ 0) × (0 < length self.old.bufs.now) × A.acts mid (call.Read self.old.id usize.MAX true) answer.Pending at.new) }
        ensures armed { OnPending result (IsArmed cx.new) }
        ensures kept { Keeps cx.old cx.new }
    {
        let bufs = &mut *self.bufs;
        let count = &mut self.count;
        read_each(self.id, at, bufs, count, cx)
    }

    /// How many pieces the last poll read, also if it answered a reset that came behind them. They stand in the front of the list.
    pub fn count(&self) -> usize
        ensures { result ≡ self.now.count }
    {
        self.count
    }
}

// Reads pieces into the front of a list until there is none, and counts them.
fn read_each<A: At>(
    id: StreamId,
    at: &mut A,
    bufs: &mut [Bytes],
    count: &mut usize,
    cx: &mut Context<'_>,
) -> Poll<Result<Option<usize>, ReadError>>
    ensures value { (mid : A) × IsPlaced A.acts id bufs.old at.old bufs.new mid count.new
        × MatchAnswer result
        (λ answered. MatchOption answered ((count.new ≡ 0) × (0 < length bufs.old) × A.acts mid (call.Read id usize.MAX true) answer.Ended at.new)
        (λ n. (n ≡ count.new) × (((n ≡ length bufs.old) × (mid ≡ at.new))
        ⊎ ((0 < n) × (n < length bufs.old) × (A.stays mid at.new ⊎ ((r : AReply (AToldValue A.HandshakeData)) × A.acts mid (call.Read id usize.MAX true) r at.new × EndsReads r))))))
        (λ e. (count.new < length bufs.old) × IsFrom (read_origin e) (λ r. A.acts mid (call.Read id usize.MAX true) r at.new × ((count.new ≡ 0) ⊎ (is_reset e ≡ true))) (A.stays mid at.new × (count.new ≡ 0)))
        ((count.new ≡ 0) × (0 < length bufs.old) × A.acts mid (call.Read id usize.MAX true) answer.Pending at.new) }
    ensures armed { OnPending result (IsArmed cx.new) }
    ensures kept { Keeps cx.old cx.new }
{
    *count = 0;
    while *count < bufs.len() {
        match poll_chunk(id, at, usize::MAX, true, cx) {
            Poll::Ready(Ok(Some(chunk))) => {
                bufs[*count] = chunk.bytes;
                *count += 1;
            }
            Poll::Ready(Err(error)) => return Poll::Ready(after_error(*count, error)),
            Poll::Ready(Ok(None)) if *count == 0 => return Poll::Ready(Ok(None)),
            Poll::Pending if *count == 0 => return Poll::Pending,
            _ => return Poll::Ready(Ok(Some(*count))),
        }
    }
    Poll::Ready(Ok(Some(*count)))
}

// What is answered if a read fails behind so many that gave pieces.
fn after_error(count: usize, error: ReadError) -> Result<Option<usize>, ReadError>
    ensures { MatchResult result (λ answered. (answered ≡ Some count) × (0 < count) × (is_reset error ≡ false)) (λ e. (e ≡ error) × ((count ≡ 0) ⊎ (is_reset error ≡ true))) }
{
    if count == 0 || matches!(error, ReadError::Reset(_)) {
        Err(error)
    } else {
        Ok(Some(count))
    }
}

/// Waits for all of a stream (quinn, `ReadToEnd`).
#[derive(Drop)]
pub struct ReadToEnd {
    id: StreamId,
    size_limit: usize,
    // What was read; None before the first poll, and once the call is over.
    buffer: Option<ReadToEndBuffer>,
    // Whether it was answered for good.
    is_over: bool,
}

impl ReadToEnd {
    /// The bytes of the stream, from the least offset to the greatest end of the pieces that this call read; where a byte was read before, there is a 0. If it
    /// waits, or memory was wanting for a read, what was read is kept, and a further poll goes on. With every other answer the call is over: it isn't polled any
    /// more. Want of memory that ends it loses what was read.
    pub fn poll<A: At>(
        &mut self,
        at: &mut A,
        alloc: Global,
        cx: &mut Context<'_>,
    ) -> Poll<Result<Vec<u8>, ReadToEndError>>
        requires { self.old.is_over ≡ false }
        ensures same { (self.new.id ≡ self.old.id) × (self.new.size_limit ≡ self.old.size_limit) }
        ensures value { (mid : A) × (b : ABuffer) × IsGathered A.acts self.old.id (buffer_or self.old.buffer self.old.size_limit) at.old b mid
            × MatchAnswer result (λ bytes. A.acts mid (call.Read self.old.id usize.MAX false) answer.Ended at.new × AreAll b bytes.items × (self.new.is_over ≡ true))
            (λ e. ((e ≡ ReadToEndError.Read ReadError.Memory) × A.stays mid at.new × (self.new.buffer ≡ Some b) × (self.new.is_over ≡ false))
            ⊎ (IsToEndError e b (λ r. A.acts mid (call.Read self.old.id usize.MAX false) r at.new) (mid ≡ at.new) × (self.new.is_over ≡ true)))
            (A.acts mid (call.Read self.old.id usize.MAX false) answer.Pending at.new × (self.new.buffer ≡ Some b) × (self.new.is_over ≡ false)) }
        ensures dropped { self.new.is_over ≡ true → self.new.buffer ≡ None }
        ensures limit { FitsLimit self.old.buffer self.old.size_limit → MatchAnswer result (λ bytes. length bytes.items ≤ self.old.size_limit) (λ _. ⊤) ⊤ × FitsLimit self.new.buffer self.old.size_limit }
        ensures armed { OnPending result (IsArmed cx.new) }
        ensures kept { Keeps cx.old cx.new }
    {
        let mut buffer = match self.buffer.take() {
            Some(buffer) => buffer,
            None => ReadToEndBuffer::new(alloc, self.size_limit),
        };
        match gather(self.id, at, &mut buffer, cx) {
            Poll::Ready(Ok(())) => {
                self.is_over = true;
                match put_together(buffer) {
                    Ok(bytes) => Poll::Ready(Ok(bytes)),
                    Err(error) => Poll::Ready(Err(error)),
                }
            }
            Poll::Ready(Err(Halt::Over(error))) => {
                self.is_over = true;
                Poll::Ready(Err(error))
            }
            Poll::Ready(Err(Halt::Wanting)) => {
                self.buffer = Some(buffer);
                Poll::Ready(Err(ReadToEndError::Read(ReadError::Memory)))
            }
            Poll::Pending => {
                self.buffer = Some(buffer);
                Poll::Pending
            }
        }
    }

    /// Whether the call was answered, so that it isn't polled any more. It isn't over if it waits, or memory was wanting for a read.
    pub fn is_over(&self) -> bool
        ensures { result ≡ self.now.is_over }
    {
        self.is_over
    }
}

// Why reads stop before the end: memory was wanting for one, or the call is over.
#[derive(Drop)]
pub enum Halt {
    Wanting,
    Over(ReadToEndError),
}

// The bytes of a buffer.
fn put_together(buffer: ReadToEndBuffer) -> Result<Vec<u8>, ReadToEndError>
    ensures { MatchResult result (λ bytes. AreAll buffer bytes.items) (λ e. (e ≡ ReadToEndError.Read ReadError.Memory) × (is_some buffer.extent ≡ true)) }
{
    match buffer.finish() {
        Ok(bytes) => Ok(bytes),
        Err(Memory) => Err(ReadToEndError::Read(ReadError::Memory)),
    }
}

// Reads pieces until the end.
fn gather<A: At>(
    id: StreamId,
    at: &mut A,
    buffer: &mut ReadToEndBuffer,
    cx: &mut Context<'_>,
) -> Poll<Result<(), Halt>>
    ensures value { (mid : A) × (b : ABuffer) × IsGathered A.acts id buffer.old at.old b mid
        × MatchAnswer result (λ _. A.acts mid (call.Read id usize.MAX false) answer.Ended at.new × (buffer.new ≡ b))
        (λ h. IsHalt h b (λ r. A.acts mid (call.Read id usize.MAX false) r at.new) (A.stays mid at.new × (buffer.new ≡ b)) (mid ≡ at.new))
        (A.acts mid (call.Read id usize.MAX false) answer.Pending at.new × (buffer.new ≡ b)) }
    ensures armed { OnPending result (IsArmed cx.new) }
    ensures kept { Keeps cx.old cx.new }
{
    for _ in 0..u64::MAX {
        match poll_chunk(id, at, usize::MAX, false, cx) {
            Poll::Ready(Ok(Some(chunk))) => match keep(buffer, chunk) {
                Ok(()) => {}
                Err(error) => return Poll::Ready(Err(Halt::Over(error))),
            },
            Poll::Ready(Ok(None)) => return Poll::Ready(Ok(())),
            Poll::Ready(Err(ReadError::Memory)) => return Poll::Ready(Err(Halt::Wanting)),
            Poll::Ready(Err(error)) => {
                return Poll::Ready(Err(Halt::Over(ReadToEndError::Read(error))));
            }
            Poll::Pending => return Poll::Pending,
        }
    }
    Poll::Ready(Err(Halt::Over(ReadToEndError::TooLong)))
}

// Keeps a piece, if what came isn't too long with it.
fn keep(buffer: &mut ReadToEndBuffer, chunk: Chunk) -> Result<(), ReadToEndError>
    ensures ok { OnOk result (buffer.new ≡ record {
      kept = buffer.old.kept ++ chunk ∷ [];
      extent = Some (widened buffer.old.extent chunk);
      size_limit = buffer.old.size_limit;
    }) }
    ensures fits { OnOk result (IsTooLong buffer.old chunk → ⊥) }
    ensures err { IfErr result (λ e. IsKeepError e buffer.old chunk) }
{
    if chunk.bytes.len() as u64 > u64::MAX - chunk.offset {
        return Err(ReadToEndError::TooLong);
    }
    match buffer.push(chunk) {
        Ok(()) => Ok(()),
        Err(PushFault::TooLong) => Err(ReadToEndError::TooLong),
        Err(PushFault::Memory) => Err(ReadToEndError::Read(ReadError::Memory)),
    }
}

/// Waits for the reset of a stream (quinn: the future of `RecvStream::received_reset`).
#[derive(Drop)]
pub struct ReceivedReset {
    id: StreamId,
}

impl ReceivedReset {
    /// The code of the reset, also if a read told it before. None once the stream was stopped or its end was read. A further poll asks again.
    pub fn poll<A: At>(
        &mut self,
        at: &mut A,
        cx: &mut Context<'_>,
    ) -> Poll<Result<Option<VarInt>, ResetError>>
        ensures same { self.new ≡ self.old }
        ensures value { MatchAnswer result (λ code. A.acts at.old (call.ReceivedReset self.old.id) (answer.Code code) at.new)
            (λ e. IsFrom (reset_origin e) (λ r. A.acts at.old (call.ReceivedReset self.old.id) r at.new) (A.stays at.old at.new))
            (A.acts at.old (call.ReceivedReset self.old.id) answer.Pending at.new) }
        ensures armed { OnPending result (IsArmed cx.new) }
        ensures kept { Keeps cx.old cx.new }
    {
        let Ok(reply) = ask(at, Call::ReceivedReset(self.id), cx) else {
            return Poll::Ready(Err(ResetError::Memory));
        };
        match reply {
            Reply::Code(code) => Poll::Ready(Ok(code)),
            Reply::ConnectionLost(error) => Poll::Ready(Err(ResetError::ConnectionLost(error))),
            Reply::Pending => Poll::Pending,
            _ => unreachable!(),
        }
    }
}
