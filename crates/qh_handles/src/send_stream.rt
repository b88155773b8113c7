ghost use Rattle.std.specs.Prelude.{◌≡◌, ◌⊎◌, ◌<◌, ◌≤◌, [], ◌∷◌, IfOk, IsOk, MatchResult, drop, length, take};
ghost use Rattle.std.specs.List.{concat};
ghost use Rattle.futures.specs.Poll.{IfReady, OnPending};
ghost use Rattle.futures.specs.Task.{IsArmed, Keeps};
ghost use Rattle.qh_book.specs.declared.call.Call.TheVariants as call;
ghost use Rattle.qh_book.specs.declared.reply.Reply.TheVariants as answer;
ghost use Rattle.qh_handles.specs.Chains.{IsPartly, IsWritten, IsWrittenOf, OfChunk};
ghost use Rattle.qh_handles.specs.Bufs.{AreLent, SameBufs, chunks_of};
ghost use Rattle.qh_handles.specs.Origins.{IsFrom, stopped_origin, write_origin};
ghost use Rattle.qh_handles.specs.Polls.{MatchAnswer};

use crate::ask::ask;
use crate::{At, StoppedError, WriteError};
use bytes::Bytes;
use futures::task::{Context, Poll};
use qh_base::{Memory, StreamId, VarInt};
use qh_book::{Call, Reply};
use qh_conn::{ClosedStream, Written};
use std::alloc::Global;

/// The sending half of a stream (quinn, `SendStream`). It is one of the handles that the connection's state counts. One that is dropped without `end` stays
/// counted, so the connection isn't closed for want of handles, and the stream isn't finished.
#[derive(Drop)]
pub struct SendStream {
    id: StreamId,
}

impl SendStream {
    // The half that a reply tells.
    pub(crate) fn of_id(id: StreamId) -> SendStream
        ensures { result.id ≡ id }
    {
        SendStream { id }
    }

    /// Writes bytes, as many as the limits permit, and says how many.
    pub fn poll_write<A: At>(
        &mut self,
        at: &mut A,
        alloc: Global,
        buf: &[u8],
        cx: &mut Context<'_>,
    ) -> Poll<Result<usize, WriteError>>
        ensures same { self.new ≡ self.old }
        ensures value { MatchAnswer result (λ count. A.acts at.old (call.Write self.old.id buf.now) (answer.Count count) at.new)
            (λ e. IsFrom (write_origin e) (λ r. A.acts at.old (call.Write self.old.id buf.now) r at.new) (A.stays at.old at.new ⊎ (at.new ≡ at.old)))
            (A.acts at.old (call.Write self.old.id buf.now) answer.Pending at.new) }
        ensures armed { OnPending result (IsArmed cx.new) }
        ensures kept { Keeps cx.old cx.new }
    {
        write_from(self.id, at, alloc, buf, cx)
    }

    /// Writes bytes of a buffer that is lent, as many as the limits permit: a call that waits until some are written.
    pub fn write<'a>(&mut self, buf: &'a [u8]) -> Write<'a>
        ensures same { self.new ≡ self.old }
        ensures stream { result.id ≡ self.old.id }
        ensures bytes { result.buf.now ≡ buf.now }
    {
        Write { id: self.id, buf }
    }

    /// Writes all bytes of a buffer that is lent: a call that waits until all are written.
    pub fn write_all<'a>(&mut self, buf: &'a [u8]) -> WriteAll<'a>
        ensures same { self.new ≡ self.old }
        ensures stream { result.id ≡ self.old.id }
        ensures bytes { result.buf.now ≡ buf.now }
        ensures none { result.written ≡ 0 }
    {
        WriteAll {
            id: self.id,
            buf,
            written: 0,
        }
    }

    /// Writes chunks that are lent, as many of their bytes as the limits permit: a call that waits until some are written.
    pub fn write_chunks<'a>(&mut self, bufs: &'a mut [Bytes]) -> WriteChunks<'a>
        ensures same { self.new ≡ self.old }
        ensures stream { result.id ≡ self.old.id }
        ensures lent { result.bufs.ghost_name ≡ bufs.entry.ghost_name }
        ensures chunks { result.bufs.now ≡ bufs.old }
    {
        WriteChunks { id: self.id, bufs }
    }

    /// Writes all of a chunk: a call that waits until all of it is written.
    pub fn write_chunk(&mut self, payload: Bytes) -> WriteAllChunks<'static>
        ensures same { self.new ≡ self.old }
        ensures stream { result.id ≡ self.old.id }
        ensures none { result.done ≡ 0 }
        ensures chunk { chunks_of result.bufs ≡ payload ∷ [] }
    {
        WriteAllChunks {
            id: self.id,
            bufs: Bufs::Own([payload]),
            done: 0,
        }
    }

    /// Writes all of chunks that are lent: a call that waits until all are written.
    pub fn write_all_chunks<'a>(&mut self, bufs: &'a mut [Bytes]) -> WriteAllChunks<'a>
        ensures same { self.new ≡ self.old }
        ensures stream { result.id ≡ self.old.id }
        ensures none { result.done ≡ 0 }
        ensures lent { AreLent bufs.entry result.bufs }
        ensures chunks { chunks_of result.bufs ≡ bufs.old }
    {
        WriteAllChunks {
            id: self.id,
            bufs: Bufs::Lent(bufs),
            done: 0,
        }
    }

    /// Ends the stream behind the bytes that were written (RFC 9000, section 3.1). If the peer asked to stop it, it stays as it is.
    pub fn finish<A: At>(&mut self, at: &mut A) -> Result<Result<(), ClosedStream>, Memory>
        ensures same { self.new ≡ self.old }
        ensures value { MatchResult result (λ r. MatchResult r (λ _. A.acts at.old (call.Finish self.old.id) answer.Done at.new)
            (λ _. A.acts at.old (call.Finish self.old.id) answer.ClosedStream at.new)) (λ _. A.stays at.old at.new) }
        ensures free { A.takes_none at.old (call.Finish self.old.id) → IsOk result }
    {
        match at.act(Call::Finish(self.id), None)? {
            Reply::Done => Ok(Ok(())),
            Reply::ClosedStream => Ok(Err(ClosedStream)),
            _ => unreachable!(),
        }
    }

    /// Abandons what was written, and tells the peer so, with this code of the application (RFC 9000, section 3.1).
    pub fn reset<A: At>(
        &mut self,
        at: &mut A,
        code: VarInt,
    ) -> Result<Result<(), ClosedStream>, Memory>
        ensures same { self.new ≡ self.old }
        ensures value { MatchResult result (λ r. MatchResult r (λ _. A.acts at.old (call.Reset self.old.id code) answer.Done at.new)
            (λ _. A.acts at.old (call.Reset self.old.id code) answer.ClosedStream at.new)) (λ _. A.stays at.old at.new) }
        ensures free { A.takes_none at.old (call.Reset self.old.id code) → IsOk result }
    {
        match at.act(Call::Reset { id: self.id, code }, None)? {
            Reply::Done => Ok(Ok(())),
            Reply::ClosedStream => Ok(Err(ClosedStream)),
            _ => unreachable!(),
        }
    }

    /// Sets the priority of the stream. Of the bytes that wait, those of streams of a greater one are sent first.
    pub fn set_priority<A: At>(
        &self,
        at: &mut A,
        priority: i32,
    ) -> Result<Result<(), ClosedStream>, Memory>
        ensures value { MatchResult result (λ r. MatchResult r (λ _. A.acts at.old (call.SetPriority self.now.id priority) answer.Done at.new)
            (λ _. A.acts at.old (call.SetPriority self.now.id priority) answer.ClosedStream at.new)) (λ _. A.stays at.old at.new) }
        ensures free { A.takes_none at.old (call.SetPriority self.now.id priority) → IsOk result }
    {
        let call = Call::SetPriority {
            id: self.id,
            priority,
        };
        match at.act(call, None)? {
            Reply::Done => Ok(Ok(())),
            Reply::ClosedStream => Ok(Err(ClosedStream)),
            _ => unreachable!(),
        }
    }

    /// The priority of the stream.
    pub fn priority<A: At>(&self, at: &mut A) -> Result<Result<i32, ClosedStream>, Memory>
        ensures value { MatchResult result (λ r. MatchResult r (λ priority. A.acts at.old (call.Priority self.now.id) (answer.Priority priority) at.new)
            (λ _. A.acts at.old (call.Priority self.now.id) answer.ClosedStream at.new)) (λ _. A.stays at.old at.new) }
        ensures free { A.takes_none at.old (call.Priority self.now.id) → IsOk result }
    {
        match at.act(Call::Priority(self.id), None)? {
            Reply::Priority(priority) => Ok(Ok(priority)),
            Reply::ClosedStream => Ok(Err(ClosedStream)),
            _ => unreachable!(),
        }
    }

    /// Waits until the peer stops the stream or all of it is acknowledged: a call.
    pub fn stopped(&self) -> Stopped
        ensures { result.id ≡ self.now.id }
    {
        Stopped { id: self.id }
    }

    /// The id of the stream.
    pub fn id(&self) -> StreamId
        ensures { result ≡ self.now.id }
    {
        self.id
    }

    /// Ends the handle. The stream is finished, or reset with the peer's code if the peer stopped it, unless the connection is lost.
    pub fn end<A: At>(self, at: &mut A)
        ensures value { A.acts at.old (call.EndSend self.id) answer.Done at.new ⊎ A.stays at.old at.new }
        ensures free { A.takes_none at.old (call.EndSend self.id) → A.acts at.old (call.EndSend self.id) answer.Done at.new }
    {
        match at.act(Call::EndSend(self.id), None) {
            Ok(Reply::Done) | Err(Memory) => {}
            Ok(_) => unreachable!(),
        }
    }
}

// Writes a copy of bytes, as many as the limits permit.
fn write_from<A: At>(
    id: StreamId,
    at: &mut A,
    alloc: Global,
    buf: &[u8],
    cx: &mut Context<'_>,
) -> Poll<Result<usize, WriteError>>
    ensures value { MatchAnswer result (λ count. A.acts at.old (call.Write id buf.now) (answer.Count count) at.new)
        (λ e. IsFrom (write_origin e) (λ r. A.acts at.old (call.Write id buf.now) r at.new) (A.stays at.old at.new ⊎ (at.new ≡ at.old)))
        (A.acts at.old (call.Write id buf.now) answer.Pending at.new) }
    ensures counts { IfReady result (λ r. IfOk r (λ n. (n ≤ length buf.now) × ((buf.now ≡ []) ⊎ (0 < n)))) }
    ensures armed { OnPending result (IsArmed cx.new) }
    ensures kept { Keeps cx.old cx.new }
{
    let Ok(payload) = Bytes::copy_from_slice(alloc, buf) else {
        return Poll::Ready(Err(WriteError::Memory));
    };
    write_bytes(id, at, payload, cx)
}

// Writes bytes, as many as the limits permit.
fn write_bytes<A: At>(
    id: StreamId,
    at: &mut A,
    payload: Bytes,
    cx: &mut Context<'_>,
) -> Poll<Result<usize, WriteError>>
    ensures value { MatchAnswer result (λ count. A.acts at.old (call.Write id payload) (answer.Count count) at.new)
        (λ e. IsFrom (write_origin e) (λ r. A.acts at.old (call.Write id payload) r at.new) (A.stays at.old at.new))
        (A.acts at.old (call.Write id payload) answer.Pending at.new) }
    ensures counts { IfReady result (λ r. IfOk r (λ n. (n ≤ length payload) × ((payload ≡ []) ⊎ (0 < n)))) }
    ensures armed { OnPending result (IsArmed cx.new) }
    ensures kept { Keeps cx.old cx.new }
{
    let Ok(reply) = ask(at, Call::Write { id, payload }, cx) else {
        return Poll::Ready(Err(WriteError::Memory));
    };
    match reply {
        Reply::Count(count) => Poll::Ready(Ok(count)),
        Reply::Pending => Poll::Pending,
        Reply::Stopped(code) => Poll::Ready(Err(WriteError::Stopped(code))),
        Reply::ConnectionLost(error) => Poll::Ready(Err(WriteError::ConnectionLost(error))),
        Reply::ClosedStream => Poll::Ready(Err(WriteError::ClosedStream)),
        _ => unreachable!(),
    }
}

/// Waits until bytes are written (quinn: the future of `SendStream::write`).
#[derive(Drop)]
pub struct Write<'a> {
    id: StreamId,
    buf: &'a [u8],
}

impl Write<'_> {
    /// How many bytes of the buffer's front were written. If it waits, none were. A further poll writes all of the buffer again, from its front.
    pub fn poll<A: At>(
        &mut self,
        at: &mut A,
        alloc: Global,
        cx: &mut Context<'_>,
    ) -> Poll<Result<usize, WriteError>>
        ensures same { self.new.id ≡ self.old.id }
        ensures bytes { self.new.buf.now ≡ self.old.buf.now }
        ensures value { MatchAnswer result (λ count. A.acts at.old (call.Write self.old.id self.old.buf.now) (answer.Count count) at.new)
            (λ e. IsFrom (write_origin e) (λ r. A.acts at.old (call.Write self.old.id self.old.buf.now) r at.new) (A.stays at.old at.new ⊎ (at.new ≡ at.old)))
            (A.acts at.old (call.Write self.old.id self.old.buf.now) answer.Pending at.new) }
        ensures armed { OnPending result (IsArmed cx.new) }
        ensures kept { Keeps cx.old cx.new }
    {
        write_from(self.id, at, alloc, self.buf, cx)
    }
}

/// Waits until all bytes of a buffer are written (quinn: the future of `SendStream::write_all`).
#[derive(Drop)]
pub struct WriteAll<'a> {
    id: StreamId,
    buf: &'a [u8],
    // How many bytes of the buffer's front were written.
    written: usize,
}

impl WriteAll<'_> {
    /// Done once all bytes are written; a further poll is done at once then. If it waits, or answers an error, some may be written, and a further poll goes on
    /// behind them. Each write is of all bytes that are left.
    pub fn poll<A: At>(
        &mut self,
        at: &mut A,
        alloc: Global,
        cx: &mut Context<'_>,
    ) -> Poll<Result<(), WriteError>>
        ensures same { self.new.id ≡ self.old.id }
        ensures bytes { self.new.buf.now ≡ self.old.buf.now }
        ensures value { (mid : A) × IsWritten A.acts self.old.id (drop self.old.written self.old.buf.now) at.old (drop self.new.written self.old.buf.now) mid
            × MatchAnswer result (λ _. (length self.old.buf.now ≤ self.new.written) × (mid ≡ at.new))
            (λ e. (self.new.written < length self.old.buf.now) × IsFrom (write_origin e) (λ r. A.acts mid (call.Write self.old.id (drop self.new.written self.old.buf.now)) r at.new) (A.stays mid at.new ⊎ (at.new ≡ mid)))
            ((self.new.written < length self.old.buf.now) × A.acts mid (call.Write self.old.id (drop self.new.written self.old.buf.now)) answer.Pending at.new) }
        ensures armed { OnPending result (IsArmed cx.new) }
        ensures kept { Keeps cx.old cx.new }
    {
        let written = &mut self.written;
        write_rest(self.id, at, alloc, self.buf, written, cx)
    }
}

// Writes the bytes of a buffer behind those that were written.
fn write_rest<A: At>(
    id: StreamId,
    at: &mut A,
    alloc: Global,
    buf: &[u8],
    written: &mut usize,
    cx: &mut Context<'_>,
) -> Poll<Result<(), WriteError>>
    ensures value { (mid : A) × IsWritten A.acts id (drop written.old buf.now) at.old (drop written.new buf.now) mid
        × MatchAnswer result (λ _. (length buf.now ≤ written.new) × (mid ≡ at.new))
        (λ e. (written.new < length buf.now) × IsFrom (write_origin e) (λ r. A.acts mid (call.Write id (drop written.new buf.now)) r at.new) (A.stays mid at.new ⊎ (at.new ≡ mid)))
        ((written.new < length buf.now) × A.acts mid (call.Write id (drop written.new buf.now)) answer.Pending at.new) }
    ensures armed { OnPending result (IsArmed cx.new) }
    ensures kept { Keeps cx.old cx.new }
{
    while *written < buf.len() {
        match write_from(id, at, alloc, &buf[*written..], cx) {
            Poll::Ready(Ok(count)) => *written += count,
            Poll::Ready(Err(error)) => return Poll::Ready(Err(error)),
            Poll::Pending => return Poll::Pending,
        }
    }
    Poll::Ready(Ok(()))
}

// Writes the front of a chunk, as much as the limits permit, and leaves the rest of it.
fn write_front<A: At>(
    id: StreamId,
    at: &mut A,
    chunk: &mut Bytes,
    cx: &mut Context<'_>,
) -> Poll<Result<usize, WriteError>>
    ensures value { MatchAnswer result (λ count. A.acts at.old (call.Write id chunk.old) (answer.Count count) at.new)
        (λ e. IsFrom (write_origin e) (λ r. A.acts at.old (call.Write id chunk.old) r at.new) (A.stays at.old at.new ⊎ (at.new ≡ at.old)))
        (A.acts at.old (call.Write id chunk.old) answer.Pending at.new) }
    ensures left { MatchAnswer result (λ count. chunk.new ≡ drop count chunk.old) (λ _. chunk.new ≡ chunk.old) (chunk.new ≡ chunk.old) }
    ensures counts { IfReady result (λ r. IfOk r (λ n. (n ≤ length chunk.old) × ((chunk.old ≡ []) ⊎ (0 < n)))) }
    ensures armed { OnPending result (IsArmed cx.new) }
    ensures kept { Keeps cx.old cx.new }
{
    let Ok(payload) = chunk.clone() else {
        return Poll::Ready(Err(WriteError::Memory));
    };
    match write_bytes(id, at, payload, cx) {
        Poll::Ready(Ok(count)) => {
            chunk.advance(count);
            Poll::Ready(Ok(count))
        }
        Poll::Ready(Err(error)) => Poll::Ready(Err(error)),
        Poll::Pending => Poll::Pending,
    }
}

/// Waits until bytes of chunks are written (quinn: the future of `SendStream::write_chunks`).
#[derive(Drop)]
pub struct WriteChunks<'a> {
    id: StreamId,
    bufs: &'a mut [Bytes],
}

impl WriteChunks<'_> {
    /// How many bytes were written, and how many chunks whole. Those are empty then, and of one that was written in part the rest is left. It waits until some
    /// are written. If a later write gives none, what was written is answered, and the next call tells why. It is answered too if memory is wanting for a later
    /// write, which takes some before it is made. A further poll writes what is left of the chunks, from the first of them on.
    pub fn poll<A: At>(
        &mut self,
        at: &mut A,
        cx: &mut Context<'_>,
    ) -> Poll<Result<Written, WriteError>>
        ensures same { self.new.id ≡ self.old.id }
        ensures lent { self.new.bufs.ghost_name ≡ self.old.bufs.ghost_name }
        ensures value { MatchAnswer result (λ w. IsPartly A.acts A.stays self.old.id self.old.bufs.now at.old self.new.bufs.now at.new w.bytes w.chunks)
            (λ e. (self.new.bufs.now ≡ self.old.bufs.now) × (0 < length self.old.bufs.now) × IsFrom (write_origin e) (λ r. OfChunk self.old.bufs.now 0 (λ chunk. A.acts at.old (call.Write self.old.id chunk) r at.new)) (A.stays at.old at.new ⊎ (at.new ≡ at.old)))
            ((self.new.bufs.now ≡ self.old.bufs.now) × OfChunk self.old.bufs.now 0 (λ chunk. A.acts at.old (call.Write self.old.id chunk) answer.Pending at.new)) }
        ensures armed { OnPending result (IsArmed cx.new) }
        ensures kept { Keeps cx.old cx.new }
    {
        let bufs = &mut *self.bufs;
        write_some(self.id, at, bufs, cx)
    }
}

// Writes chunks, one after another, until a write takes less than a whole one.
fn write_some<A: At>(
    id: StreamId,
    at: &mut A,
    bufs: &mut [Bytes],
    cx: &mut Context<'_>,
) -> Poll<Result<Written, WriteError>>
    ensures value { MatchAnswer result (λ w. IsPartly A.acts A.stays id bufs.old at.old bufs.new at.new w.bytes w.chunks)
        (λ e. (bufs.new ≡ bufs.old) × (0 < length bufs.old) × IsFrom (write_origin e) (λ r. OfChunk bufs.old 0 (λ chunk. A.acts at.old (call.Write id chunk) r at.new)) (A.stays at.old at.new ⊎ (at.new ≡ at.old)))
        ((bufs.new ≡ bufs.old) × OfChunk bufs.old 0 (λ chunk. A.acts at.old (call.Write id chunk) answer.Pending at.new)) }
    ensures armed { OnPending result (IsArmed cx.new) }
    ensures kept { Keeps cx.old cx.new }
{
    let mut bytes = 0;
    let mut chunks = 0;
    while chunks < bufs.len() {
        let chunk = &mut bufs[chunks];
        let size = chunk.len();
        if size > usize::MAX - bytes {
            return Poll::Ready(Ok(Written { bytes, chunks }));
        }
        match write_front(id, at, chunk, cx) {
            Poll::Ready(Ok(count)) => {
                bytes += count;
                if count < size {
                    return Poll::Ready(Ok(Written { bytes, chunks }));
                }
                chunks += 1;
            }
            Poll::Ready(Err(error)) => {
                if chunks > 0 {
                    return Poll::Ready(Ok(Written { bytes, chunks }));
                }
                return Poll::Ready(Err(error));
            }
            Poll::Pending if chunks == 0 => return Poll::Pending,
            Poll::Pending => return Poll::Ready(Ok(Written { bytes, chunks })),
        }
    }
    Poll::Ready(Ok(Written { bytes, chunks }))
}

// The chunks of a call: its own, or those that are lent to it.
#[derive(Drop)]
pub enum Bufs<'a> {
    Own([Bytes; 1]),
    Lent(&'a mut [Bytes]),
}

/// Waits until chunks are written whole (quinn: the futures of `SendStream::write_chunk` and `write_all_chunks`).
#[derive(Drop)]
pub struct WriteAllChunks<'a> {
    id: StreamId,
    bufs: Bufs<'a>,
    // How many chunks are written whole.
    done: usize,
}

impl WriteAllChunks<'_> {
    /// Done once all chunks are written; they are empty then, and a further poll is done at once. If it waits, or answers an error, some may be written, and a
    /// further poll goes on behind them.
    pub fn poll<A: At>(&mut self, at: &mut A, cx: &mut Context<'_>) -> Poll<Result<(), WriteError>>
        ensures same { self.new.id ≡ self.old.id }
        ensures lent { SameBufs self.old.bufs self.new.bufs }
        ensures value { (mid : A) × IsWrittenOf A.acts self.old.id (drop self.old.done (chunks_of self.old.bufs)) at.old (drop self.new.done (chunks_of self.new.bufs)) mid
            × MatchAnswer result (λ _. (length (chunks_of self.old.bufs) ≤ self.new.done) × (mid ≡ at.new))
            (λ e. (self.new.done < length (chunks_of self.new.bufs)) × IsFrom (write_origin e) (λ r. OfChunk (chunks_of self.new.bufs) self.new.done (λ chunk. A.acts mid (call.Write self.old.id chunk) r at.new)) (A.stays mid at.new ⊎ (at.new ≡ mid)))
            (OfChunk (chunks_of self.new.bufs) self.new.done (λ chunk. A.acts mid (call.Write self.old.id chunk) answer.Pending at.new)) }
        ensures emptied { concat (take self.old.done (chunks_of self.old.bufs)) ≡ [] → concat (take self.new.done (chunks_of self.new.bufs)) ≡ [] }
        ensures armed { OnPending result (IsArmed cx.new) }
        ensures kept { Keeps cx.old cx.new }
    {
        let done = &mut self.done;
        match &mut self.bufs {
            Bufs::Own(bufs) => write_each(self.id, at, bufs, done, cx),
            Bufs::Lent(bufs) => write_each(self.id, at, bufs, done, cx),
        }
    }
}

// Writes chunks whole, one after another, behind those that are.
fn write_each<A: At>(
    id: StreamId,
    at: &mut A,
    bufs: &mut [Bytes],
    done: &mut usize,
    cx: &mut Context<'_>,
) -> Poll<Result<(), WriteError>>
    ensures value { (mid : A) × IsWrittenOf A.acts id (drop done.old bufs.old) at.old (drop done.new bufs.new) mid
        × MatchAnswer result (λ _. (length bufs.old ≤ done.new) × (mid ≡ at.new))
        (λ e. (done.new < length bufs.new) × IsFrom (write_origin e) (λ r. OfChunk bufs.new done.new (λ chunk. A.acts mid (call.Write id chunk) r at.new)) (A.stays mid at.new ⊎ (at.new ≡ mid)))
        (OfChunk bufs.new done.new (λ chunk. A.acts mid (call.Write id chunk) answer.Pending at.new)) }
    ensures emptied { concat (take done.old bufs.old) ≡ [] → concat (take done.new bufs.new) ≡ [] }
    ensures armed { OnPending result (IsArmed cx.new) }
    ensures kept { Keeps cx.old cx.new }
{
    while *done < bufs.len() {
        let chunk = &mut bufs[*done];
        match write_front(id, at, chunk, cx) {
            Poll::Ready(Ok(_)) => {
                if bufs[*done].is_empty() {
                    *done += 1;
                }
            }
            Poll::Ready(Err(error)) => return Poll::Ready(Err(error)),
            Poll::Pending => return Poll::Pending,
        }
    }
    Poll::Ready(Ok(()))
}

/// Waits until the peer stops a stream, or all of it is acknowledged (quinn: the future of `SendStream::stopped`).
#[derive(Drop)]
pub struct Stopped {
    id: StreamId,
}

impl Stopped {
    /// The code with which the peer stopped the stream. None once its reset, or its end and all bytes before it, were acknowledged. A further poll asks again.
    pub fn poll<A: At>(
        &mut self,
        at: &mut A,
        cx: &mut Context<'_>,
    ) -> Poll<Result<Option<VarInt>, StoppedError>>
        ensures same { self.new ≡ self.old }
        ensures value { MatchAnswer result (λ code. A.acts at.old (call.Stopped self.old.id) (answer.Code code) at.new)
            (λ e. IsFrom (stopped_origin e) (λ r. A.acts at.old (call.Stopped self.old.id) r at.new) (A.stays at.old at.new))
            (A.acts at.old (call.Stopped self.old.id) answer.Pending at.new) }
        ensures armed { OnPending result (IsArmed cx.new) }
        ensures kept { Keeps cx.old cx.new }
    {
        let Ok(reply) = ask(at, Call::Stopped(self.id), cx) else {
            return Poll::Ready(Err(StoppedError::Memory));
        };
        match reply {
            Reply::Code(code) => Poll::Ready(Ok(code)),
            Reply::ConnectionLost(error) => Poll::Ready(Err(StoppedError::ConnectionLost(error))),
            Reply::Pending => Poll::Pending,
            _ => unreachable!(),
        }
    }
}
