//! Calls that wait and borrow nothing: each is made by a row, and polled there, or kept and polled by later ones.
ghost use Rattle.std.specs.Prelude.{◌≡◌, false};

use crate::end::End;
use crate::row::{DIRS, Row};
use crate::state::Rows;
use crate::tell::{put_lost, put_queued, put_read_error};
use futures::task::{Context, Poll};
use qh_base::{ConnectionError, Dir, VarInt};
use qh_handles::{
    AcceptBi, AcceptUni, Closed, Connection, HandshakeData, OpenBi, OpenUni, ReadChunk,
    ReadDatagram, ReadToEnd, ReadToEndError, ReceivedReset, ResetError, SendDatagram, Stopped,
    StoppedError,
};

/// A call that waits.
#[derive(Drop)]
pub(crate) enum Wait {
    Connecting,
    Data(HandshakeData),
    OpenBi(OpenBi),
    OpenUni(OpenUni),
    AcceptBi(AcceptBi),
    AcceptUni(AcceptUni),
    ReadDatagram(ReadDatagram),
    SendDatagram(SendDatagram),
    Closed(Closed),
    Stopped(Stopped),
    ReceivedReset(ReceivedReset),
    ReadChunk(ReadChunk),
    ReadToEnd(ReadToEnd),
}

/// The word of such a call.
#[derive(Clone, Copy)]
pub(crate) enum WaitWord {
    Connecting,
    Data,
    Open,
    Accept,
    ReadDatagram,
    SendWait,
    Closed,
    Stopped,
    ReceivedReset,
    ReadChunk,
    ReadAny,
    ReadToEnd,
}

pub(crate) const WAIT_WORDS: [(&str, WaitWord); 12] = [
    ("connecting", WaitWord::Connecting),
    ("data", WaitWord::Data),
    ("open", WaitWord::Open),
    ("accept", WaitWord::Accept),
    ("read-datagram", WaitWord::ReadDatagram),
    ("send-wait", WaitWord::SendWait),
    ("closed", WaitWord::Closed),
    ("stopped", WaitWord::Stopped),
    ("received-reset", WaitWord::ReceivedReset),
    ("read-chunk", WaitWord::ReadChunk),
    ("read-any", WaitWord::ReadAny),
    ("read-to-end", WaitWord::ReadToEnd),
];

/// The call of a word. None if the row has no answer.
pub(crate) fn made<A: Rows>(end: &mut End<A>, word: WaitWord, row: &mut Row<'_>) -> Option<Wait> {
    let connection = &end.hands.connection;
    Some(match word {
        WaitWord::Connecting => Wait::Connecting,
        WaitWord::Data => Wait::Data(end.hands.connecting.as_ref()?.handshake_data()),
        WaitWord::Open => opening(connection, row.find(&DIRS)?),
        WaitWord::Accept => accepting(connection, row.find(&DIRS)?),
        WaitWord::ReadDatagram => Wait::ReadDatagram(connection.read_datagram()),
        WaitWord::SendWait => Wait::SendDatagram(connection.send_datagram_wait(row.payload())),
        WaitWord::Closed => Wait::Closed(connection.closed()),
        other => return made_of_stream(end, other, row),
    })
}

fn opening(connection: &Connection, dir: Dir) -> Wait {
    match dir {
        Dir::Bi => Wait::OpenBi(connection.open_bi()),
        Dir::Uni => Wait::OpenUni(connection.open_uni()),
    }
}

fn accepting(connection: &Connection, dir: Dir) -> Wait {
    match dir {
        Dir::Bi => Wait::AcceptBi(connection.accept_bi()),
        Dir::Uni => Wait::AcceptUni(connection.accept_uni()),
    }
}

// The same of calls of a stream's half.
fn made_of_stream<A: Rows>(end: &mut End<A>, word: WaitWord, row: &mut Row<'_>) -> Option<Wait> {
    if let WaitWord::Stopped = word {
        return Some(Wait::Stopped(end.hands.send(row)?.stopped()));
    }
    let stream = end.hands.recv(row)?;
    Some(match word {
        WaitWord::ReadChunk => Wait::ReadChunk(stream.read_chunk(row.number() as usize, true)),
        WaitWord::ReadAny => Wait::ReadChunk(stream.read_chunk(row.number() as usize, false)),
        WaitWord::ReadToEnd => Wait::ReadToEnd(stream.read_to_end(row.number() as usize)),
        _ => Wait::ReceivedReset(stream.received_reset()),
    })
}

impl Wait {
    /// Polls it, and puts its answer. Whether it waits.
    pub(crate) fn poll<A: Rows>(
        &mut self,
        end: &mut End<A>,
        cx: &mut Context<'_>,
        row: &mut Row<'_>,
    ) -> bool {
        match self {
            Wait::Connecting => poll_connecting(end, cx, row),
            Wait::Data(call) => poll_data(call, end, cx, row),
            Wait::OpenBi(call) => poll_open_bi(call, end, cx, row),
            Wait::OpenUni(call) => poll_open_uni(call, end, cx, row),
            Wait::AcceptBi(call) => poll_accept_bi(call, end, cx, row),
            Wait::AcceptUni(call) => poll_accept_uni(call, end, cx, row),
            Wait::ReadDatagram(call) => poll_read_datagram(call, end, cx, row),
            Wait::SendDatagram(call) => poll_send_datagram(call, end, cx, row),
            Wait::Closed(call) => poll_closed(call, end, cx, row),
            Wait::Stopped(call) => poll_stopped(call, end, cx, row),
            Wait::ReceivedReset(call) => poll_received_reset(call, end, cx, row),
            Wait::ReadChunk(call) => poll_read_chunk(call, end, cx, row),
            Wait::ReadToEnd(call) => poll_read_to_end(call, end, cx, row),
        }
    }
}

/// Puts that a call waits.
pub(crate) fn waits(row: &mut Row<'_>) -> bool {
    row.put("pending");
    true
}

// Puts why the connection is lost. It doesn't wait.
fn lost(cause: &ConnectionError, row: &mut Row<'_>) -> bool {
    put_lost(cause, row);
    false
}

fn poll_connecting<A: Rows>(end: &mut End<A>, cx: &mut Context<'_>, row: &mut Row<'_>) -> bool {
    let Some(connecting) = &mut end.hands.connecting else {
        row.put("none");
        return false;
    };
    if connecting.is_given() {
        row.put("given");
        return false;
    }
    match connecting.poll(&mut end.state, cx) {
        Poll::Pending => waits(row),
        Poll::Ready(Ok(connection)) => {
            row.put("connection");
            end.hands.hold(connection, row);
            false
        }
        Poll::Ready(Err(cause)) => lost(&cause, row),
    }
}

fn poll_data<A: Rows>(
    call: &mut HandshakeData,
    end: &mut End<A>,
    cx: &mut Context<'_>,
    row: &mut Row<'_>,
) -> bool {
    match call.poll(&mut end.state, cx) {
        Poll::Pending => waits(row),
        Poll::Ready(Ok(data)) => {
            A::put_data(&data, row);
            false
        }
        Poll::Ready(Err(cause)) => lost(&cause, row),
    }
}

fn poll_open_bi<A: Rows>(
    call: &mut OpenBi,
    end: &mut End<A>,
    cx: &mut Context<'_>,
    row: &mut Row<'_>,
) -> bool {
    match call.poll(&mut end.state, cx) {
        Poll::Pending => waits(row),
        Poll::Ready(Ok((send, recv))) => {
            end.hands.keep_recv(recv, row);
            end.hands.keep_send(send, row);
            false
        }
        Poll::Ready(Err(cause)) => lost(&cause, row),
    }
}

fn poll_open_uni<A: Rows>(
    call: &mut OpenUni,
    end: &mut End<A>,
    cx: &mut Context<'_>,
    row: &mut Row<'_>,
) -> bool {
    match call.poll(&mut end.state, cx) {
        Poll::Pending => waits(row),
        Poll::Ready(Ok(send)) => {
            end.hands.keep_send(send, row);
            false
        }
        Poll::Ready(Err(cause)) => lost(&cause, row),
    }
}

fn poll_accept_bi<A: Rows>(
    call: &mut AcceptBi,
    end: &mut End<A>,
    cx: &mut Context<'_>,
    row: &mut Row<'_>,
) -> bool {
    match call.poll(&mut end.state, cx) {
        Poll::Pending => waits(row),
        Poll::Ready(Ok((send, recv))) => {
            end.hands.keep_recv(recv, row);
            end.hands.keep_send(send, row);
            false
        }
        Poll::Ready(Err(cause)) => lost(&cause, row),
    }
}

fn poll_accept_uni<A: Rows>(
    call: &mut AcceptUni,
    end: &mut End<A>,
    cx: &mut Context<'_>,
    row: &mut Row<'_>,
) -> bool {
    match call.poll(&mut end.state, cx) {
        Poll::Pending => waits(row),
        Poll::Ready(Ok(recv)) => {
            row.put_count("stream ", recv.id().0);
            end.hands.keep_recv(recv, row);
            false
        }
        Poll::Ready(Err(cause)) => lost(&cause, row),
    }
}

fn poll_read_datagram<A: Rows>(
    call: &mut ReadDatagram,
    end: &mut End<A>,
    cx: &mut Context<'_>,
    row: &mut Row<'_>,
) -> bool {
    match call.poll(&mut end.state, cx) {
        Poll::Pending => waits(row),
        Poll::Ready(Ok(payload)) => {
            row.put_part("datagram ", &payload);
            false
        }
        Poll::Ready(Err(cause)) => lost(&cause, row),
    }
}

fn poll_send_datagram<A: Rows>(
    call: &mut SendDatagram,
    end: &mut End<A>,
    cx: &mut Context<'_>,
    row: &mut Row<'_>,
) -> bool {
    match call.poll(&mut end.state, cx) {
        Poll::Pending => waits(row),
        Poll::Ready(queued) => {
            put_queued(&queued, row);
            false
        }
    }
}

fn poll_closed<A: Rows>(
    call: &mut Closed,
    end: &mut End<A>,
    cx: &mut Context<'_>,
    row: &mut Row<'_>,
) -> bool {
    match call.poll(&mut end.state, cx) {
        Poll::Pending => waits(row),
        Poll::Ready(cause) => lost(&cause, row),
    }
}

// Puts a code, or `none`. It doesn't wait.
fn code(code: Option<VarInt>, row: &mut Row<'_>) -> bool {
    row.put_code_or_none("code ", code);
    false
}

fn poll_stopped<A: Rows>(
    call: &mut Stopped,
    end: &mut End<A>,
    cx: &mut Context<'_>,
    row: &mut Row<'_>,
) -> bool {
    match call.poll(&mut end.state, cx) {
        Poll::Pending => waits(row),
        Poll::Ready(Ok(stopped)) => code(stopped, row),
        Poll::Ready(Err(StoppedError::ConnectionLost(cause))) => lost(&cause, row),
        Poll::Ready(Err(_)) => lost(&ConnectionError::Memory, row),
    }
}

fn poll_received_reset<A: Rows>(
    call: &mut ReceivedReset,
    end: &mut End<A>,
    cx: &mut Context<'_>,
    row: &mut Row<'_>,
) -> bool {
    match call.poll(&mut end.state, cx) {
        Poll::Pending => waits(row),
        Poll::Ready(Ok(reset)) => code(reset, row),
        Poll::Ready(Err(ResetError::ConnectionLost(cause))) => lost(&cause, row),
        Poll::Ready(Err(_)) => lost(&ConnectionError::Memory, row),
    }
}

fn poll_read_chunk<A: Rows>(
    call: &mut ReadChunk,
    end: &mut End<A>,
    cx: &mut Context<'_>,
    row: &mut Row<'_>,
) -> bool {
    match call.poll(&mut end.state, cx) {
        Poll::Pending => return waits(row),
        Poll::Ready(Ok(Some(chunk))) => {
            row.put_count("at ", chunk.offset);
            row.put_part(" ", &chunk.bytes);
        }
        Poll::Ready(Ok(None)) => row.put("end"),
        Poll::Ready(Err(error)) => put_read_error(&error, row),
    }
    false
}

fn poll_read_to_end<A: Rows>(
    call: &mut ReadToEnd,
    end: &mut End<A>,
    cx: &mut Context<'_>,
    row: &mut Row<'_>,
) -> bool {
    if call.is_over() {
        row.put("over");
        return false;
    }
    match call.poll(&mut end.state, row.alloc, cx) {
        Poll::Pending => return waits(row),
        Poll::Ready(Ok(bytes)) => row.put_part("all ", &bytes),
        Poll::Ready(Err(ReadToEndError::TooLong)) => row.put("too-long"),
        Poll::Ready(Err(ReadToEndError::Read(error))) => put_read_error(&error, row),
    }
    false
}
