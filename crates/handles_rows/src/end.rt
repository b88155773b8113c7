//! An end: its state, its driver with a socket, and the handles that its application holds.
use crate::row::{MILLISECOND, Row};
use crate::settings::COUNT;
use crate::socket::{Gate, RowSocket};
use crate::state::{Rows, address_of};
use crate::tasks::{Task, leave};
use crate::tell::put_endpoint_event;
use crate::waits::Wait;
use bytes::Bytes;
use futures::task::Poll;
use qh_base::{Memory, Moment, Side, StreamId};
use qh_conn::ConnectionEvent;
use qh_handles::{Connecting, Connection, ConnectionDriver, RecvStream, SendStream};
use qh_runtime::IoFault;
use row_text::RowFault;
use std::alloc::Global;

// The most events at once, and the most datagrams that go at once.
const MANY: u32 = 100_000;

/// The handles that an application holds, and its calls that are kept.
#[derive(Drop)]
pub(crate) struct Hands {
    pub(crate) connecting: Option<Connecting>,
    /// One that isn't counted: calls are made with it.
    pub(crate) connection: Connection,
    pub(crate) held: Vec<Connection>,
    pub(crate) sends: Vec<SendStream>,
    pub(crate) recvs: Vec<RecvStream>,
    pub(crate) kept: Vec<Wait>,
}

/// An end.
#[derive(Drop)]
pub(crate) struct End<A: Drop> {
    pub(crate) side: Side,
    pub(crate) state: A,
    pub(crate) driver: ConnectionDriver<RowSocket>,
    pub(crate) socket: RowSocket,
    pub(crate) hands: Hands,
}

impl Hands {
    fn new(alloc: Global, connecting: Connecting) -> Hands {
        Hands {
            connecting: Some(connecting),
            connection: Connection::of_state(),
            held: Vec::new(alloc),
            sends: Vec::new(alloc),
            recvs: Vec::new(alloc),
            kept: Vec::new(alloc),
        }
    }

    /// Keeps a connection.
    pub(crate) fn hold(&mut self, connection: Connection, row: &mut Row<'_>) {
        if self.held.push(connection).is_err() {
            row.fail(RowFault::Memory);
        }
    }

    /// Keeps the sending half of a stream.
    pub(crate) fn keep_send(&mut self, stream: SendStream, row: &mut Row<'_>) {
        row.put_count("stream ", stream.id().0);
        if self.sends.push(stream).is_err() {
            row.fail(RowFault::Memory);
        }
    }

    /// Keeps the receiving half of a stream.
    pub(crate) fn keep_recv(&mut self, stream: RecvStream, row: &mut Row<'_>) {
        if stream.is_0rtt() {
            row.put("early ");
        }
        if self.recvs.push(stream).is_err() {
            row.fail(RowFault::Memory);
        }
    }

    // Where the sending half of a stream stands.
    fn place_of_send(&self, id: StreamId) -> Option<usize> {
        for place in 0..self.sends.len() {
            if self.sends[place].id().0 == id.0 {
                return Some(place);
            }
        }
        None
    }

    // Where the receiving half of a stream stands.
    fn place_of_recv(&self, id: StreamId) -> Option<usize> {
        for place in 0..self.recvs.len() {
            if self.recvs[place].id().0 == id.0 {
                return Some(place);
            }
        }
        None
    }

    /// The sending half of the stream that the next word names. Without one there is no answer.
    pub(crate) fn send(&mut self, row: &mut Row<'_>) -> Option<&mut SendStream> {
        let Some(place) = self.place_of_send(row.stream()) else {
            row.fail(RowFault::Form);
            return None;
        };
        self.sends.get_mut(place)
    }

    /// The receiving half of the stream that the next word names. Without one there is no answer.
    pub(crate) fn recv(&mut self, row: &mut Row<'_>) -> Option<&mut RecvStream> {
        let Some(place) = self.place_of_recv(row.stream()) else {
            row.fail(RowFault::Form);
            return None;
        };
        self.recvs.get_mut(place)
    }

    /// The sending half of a stream, which isn't held any more.
    pub(crate) fn take_send(&mut self, id: StreamId) -> Option<SendStream> {
        let place = self.place_of_send(id)?;
        if place < self.sends.len() {
            Some(self.sends.remove(place))
        } else {
            None
        }
    }

    /// The receiving half of a stream, which isn't held any more.
    pub(crate) fn take_recv(&mut self, id: StreamId) -> Option<RecvStream> {
        let place = self.place_of_recv(id)?;
        if place < self.recvs.len() {
            Some(self.recvs.remove(place))
        } else {
            None
        }
    }
}

impl<A: Rows> End<A> {
    /// A fresh one.
    pub(crate) fn new(
        alloc: Global,
        side: Side,
        settings: &[u64; COUNT],
    ) -> Result<End<A>, Memory> {
        let (state, connecting, driver) = A::fresh(alloc, side, settings, Moment(0))?;
        Ok(End {
            side,
            state,
            driver,
            socket: RowSocket::new(alloc),
            hands: Hands::new(alloc, connecting),
        })
    }

    /// Makes a turn of the driver, by its task. Whether it waits.
    pub(crate) fn turn(&mut self, task: &mut Task, now: Moment, row: &mut Row<'_>) -> bool {
        let before = self.socket.waiting();
        let mut cx = task.solo.begin();
        let answer = self
            .driver
            .poll(&mut self.state, &mut self.socket, now, &mut cx);
        leave(cx, &task.source, &mut task.slot);
        put_turn(&answer, self.driver.keep_going(), row);
        let sent = self.socket.waiting().saturating_sub(before);
        if sent > 0 {
            row.put_count(" sent ", sent as u64);
        }
        matches!(answer, Poll::Pending)
    }

    /// A datagram comes from the other end.
    pub(crate) fn hear(&mut self, now: Moment, payload: Bytes, row: &mut Row<'_>) {
        let event = ConnectionEvent::Datagram {
            now,
            remote: address_of(self.side.other()),
            payload,
        };
        self.push(event, row);
    }

    /// Hands an event to the driver.
    pub(crate) fn push(&mut self, event: ConnectionEvent, row: &mut Row<'_>) {
        row.note(self.state.hand_event(event));
    }

    /// Puts what the endpoint is to be told.
    pub(crate) fn put_events(&mut self, row: &mut Row<'_>) {
        for _event in 0..MANY {
            match self.state.next_event() {
                Some(event) => put_endpoint_event(&event, row),
                None => break,
            }
        }
        if row.is_empty() {
            row.put("-");
        }
    }

    /// Puts when something is due.
    pub(crate) fn put_due(&self, row: &mut Row<'_>) {
        match self.state.next_due() {
            Some(moment) => row.put_count("", moment.0 / MILLISECOND),
            None => row.put("never"),
        }
    }

    /// The driver's poller answers this from now on, if there is one.
    pub(crate) fn set_poller(&mut self, gate: Gate, row: &mut Row<'_>) {
        match &mut self.driver.part.poller {
            Some(poller) => {
                poller.set(gate);
                row.put("ok");
            }
            None => row.put("none"),
        }
    }
}

// Puts what a turn answered.
fn put_turn(answer: &Poll<Result<(), IoFault>>, keeps_going: bool, row: &mut Row<'_>) {
    row.put(match answer {
        Poll::Pending if keeps_going => "again",
        Poll::Pending => "pending",
        Poll::Ready(Ok(())) => "drained",
        Poll::Ready(Err(IoFault::Failed)) => "failed",
        Poll::Ready(Err(_)) => "memory",
    });
}
