ghost use Rattle.std.specs.Prelude.{◌≡◌, ◌++◌, ◌∷◌, [], false, None, OnErr, OnOk};
ghost use Rattle.qh_conn.specs.Telling.{IsEndpointTold};
ghost use Rattle.qh_conn.specs.Whole.{IsWhole};
ghost use Rattle.qh_quinn.specs.Acting.{IsChanged, lost_or_pending};
ghost use Rattle.qh_quinn.specs.First.{IsFirstState};
ghost use Rattle.qh_quinn.specs.Recording.{IsUnused};
ghost use Rattle.qh_quinn.specs.States.{IsState};
ghost use Rattle.qh_shown.specs.Brings.{IsLogging};
ghost use Rattle.qh_shown.specs.Connections.{IsBegun, IsBegunLogged, is_wanting};

mod acting;
mod closing;
mod datagrams;
mod driving;
mod opening;
mod reading;
mod recording;
mod settling;
mod telling;
mod turning;
mod values;
mod writing;

use crate::readers::Readers;
use crate::waiting::Waiting;
use futures::task::{Source, Waker};
use qh_base::{ConnectionError, Memory, Moment, Transmit};
use qh_book::Reply;
use qh_conn::{Connection, ConnectionEvent, EndpointEvent};
use std::alloc::Global;
use std::collections::VecDeque;

/// A connection with its handles, the calls that wait on it, and what waits for its driver (quinn, `State`).
#[derive(Drop)]
pub struct StateInner<S> {
    pub(crate) alloc: Global,
    pub(crate) connection: Connection<S>,
    stable_id: u64,
    /// Whether the handles may know that the handshake is complete.
    pub(crate) is_connected: bool,
    /// Why the connection is lost, as the handles are told.
    pub(crate) error: Option<ConnectionError>,
    pub(crate) handles: u64,
    pub(crate) readers: Readers,
    pub(crate) waiting: Vec<Waiting>,
    /// What the endpoint handed in and the driver didn't hand over yet.
    events: VecDeque<ConnectionEvent>,
    /// The datagram that was made and that the socket didn't take yet.
    outgoing: Option<Transmit>,
    send_buffer: Vec<u8>,
    /// The moment of the driver's last turn, or of the state's making.
    last_turn: Moment,
    source: Source,
    driver: Option<Waker>,
}

impl<S> StateInner<S> {
    // A state of a connection that nobody else has, with the one handle that it counts.
    pub(crate) fn new(
        alloc: Global,
        connection: Connection<S>,
        stable_id: u64,
        now: Moment,
    ) -> StateInner<S>
        requires whole { IsWhole connection }
        requires begun { IsBegun connection }
        requires logging { IsLogging connection }
        ensures first { IsFirstState connection stable_id now result }
        ensures unused { IsBegunLogged connection → is_wanting connection ≡ false → IsUnused result }
    {
        qh_shown::times_bring::<S>();
        connection.core.is_owed();
        let error = connection.close_reason();
        let mut state = StateInner {
            alloc,
            connection,
            stable_id,
            is_connected: false,
            error,
            handles: 1,
            readers: Readers::new(alloc),
            waiting: Vec::new(alloc),
            events: VecDeque::new(alloc),
            outgoing: None,
            send_buffer: Vec::new(alloc),
            last_turn: now,
            source: Source::new(),
            driver: None,
        };
        state.forward_app_events();
        state
    }

    // Keeps what the endpoint hands in, for the driver's next turn, and wakes the driver.
    pub(crate) fn push_event(&mut self, event: ConnectionEvent) -> Result<(), Memory>
        ensures rest { self.new ≡ record self.old { events = self.new.events; driver = self.new.driver } }
        ensures ok { OnOk result ((self.new.events.items ≡ self.old.events.items ++ event ∷ []) × (self.new.driver ≡ None)) }
        ensures err { OnErr result ((self.new.events.items ≡ self.old.events.items) × (self.new.driver ≡ self.old.driver)) }
    {
        self.events.try_reserve(1)?;
        self.events.push_back_reserved(event);
        self.wake();
        Ok(())
    }

    // What the endpoint is to be told next.
    pub(crate) fn pop_endpoint_event(&mut self) -> Option<EndpointEvent>
        requires { IsState self.old }
        ensures told { IsEndpointTold self.old.connection self.new.connection result }
        ensures rest { self.new ≡ record self.old { connection = self.new.connection } }
        ensures kept { IsChanged (λ b. b) self.old self.new }
    {
        qh_shown::times_bring::<S>();
        self.connection.poll_endpoint_events()
    }

    // The driver is woken: there may be something to send.
    pub(crate) fn wake(&mut self)
        ensures { self.new ≡ record self.old { driver = None } }
    {
        self.driver = None;
    }

    // Whether want of memory ended the connection: it has nothing of its streams any more.
    pub(crate) fn is_emptied(&self) -> bool
        ensures { result ≡ is_wanting self.now.connection }
    {
        matches!(
            self.connection.close_reason(),
            Some(ConnectionError::Memory)
        )
    }
}

// The error that is kept, again.
pub(crate) fn kept_error(error: &Option<ConnectionError>) -> Option<ConnectionError>
    ensures { result ≡ error.now }
{
    match error {
        Some(error) => Some(error.copied()),
        None => None,
    }
}

// The kept error; if there is none the call waits.
pub(crate) fn closed_or_waits<T>(error: &Option<ConnectionError>) -> Reply<T>
    ensures { result ≡ lost_or_pending error.now }
{
    match error {
        Some(error) => Reply::ConnectionLost(error.copied()),
        None => Reply::Pending,
    }
}
