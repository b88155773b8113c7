ghost use Rattle.std.specs.Prelude.{◌≡◌, [], None, IfErr, IfOk, IfSome};
ghost use Rattle.std.specs.declared.net.socket_addr.SocketAddr.{SocketAddr as AnAddress};
ghost use Rattle.futures.specs.Poll.{OnPending};
ghost use Rattle.futures.specs.Task.{IsArmed, Keeps};
ghost use Rattle.qh_runtime.specs.Socket.{IsNeither, has_failed};
ghost use Rattle.qh_runtime.specs.declared.runtime.IoFault.TheVariants as fault;
ghost use Rattle.qh_spec.specs.Fault.{CountsFaults};

use crate::runtime::{AsyncTimer, Runtime};
use futures::task::{Context, Poll, Source, Waker};
use qh_base::{Memory, Moment};
use qh_runtime::{IoFault, QueueSocket};
use std::alloc::Global;
use std::cell::{Cell, RefCell};
use std::marker::Model;
use std::net::UdpSocket;
use std::rc::Rc;

/// A runtime whose time is set by hand, with sockets in memory (own). Its timers are for the thread that it is on.
#[derive(Drop)]
pub struct ManualRuntime {
    alloc: Global,
    now: Moment,
    faults: u64,
    clock: Rc<Clock>,
}

// What a runtime shares with its timers.
#[derive(Drop)]
struct Clock {
    now: Cell<Moment>,
    // How often the time was set.
    turn: Cell<u64>,
    // The tasks that wait for the time to be set, by the place of the timer that they wait for.
    waiting: RefCell<Vec<Option<Waker>>>,
}

/// A timer of a runtime whose time is set by hand. It expires when the time is set to its moment or a later one, and each task that waits for one of the
/// runtime's timers is woken then.
#[derive(Drop)]
pub struct ManualTimer {
    due: Moment,
    // None: there are more timers than can be counted, and this one expires at once.
    clock: Option<Rc<Clock>>,
    place: Option<Place>,
    source: Source,
}

// Where the task of a timer waits, as long as the time isn't set again.
#[derive(Clone, Copy)]
struct Place {
    turn: u64,
    at: usize,
}

impl Model for ManualRuntime {
    ghost use Rattle.qh_quinn_end.specs.Manual.{PlainRuntime};

    ghost Value = { PlainRuntime };

    ghost view = { λ r. record { now = r.now; faults = r.faults } };
}

impl ManualRuntime {
    /// A runtime with this time.
    pub fn new(alloc: Global, now: Moment) -> Result<ManualRuntime, Memory>
        ensures { IfOk result (λ r. r ≡ record { now = now; faults = 0 }) }
    {
        let clock = Clock {
            now: Cell::new(now),
            turn: Cell::new(0),
            waiting: RefCell::new(Vec::new(alloc)),
        };
        Ok(ManualRuntime {
            alloc,
            now,
            faults: 0,
            clock: Rc::new(alloc, clock).map_err(|_| Memory)?,
        })
    }

    /// Sets the time, also to an earlier one, and wakes each task that waits for a timer.
    pub fn set_now(&mut self, now: Moment)
        ensures { self.new ≡ record self.old { now = now } }
    {
        self.now = now;
        self.clock.set(now);
    }
}

impl Runtime for ManualRuntime {
    type Timer = ManualTimer;

    type Socket = QueueSocket;

    ghost faults = { λ r. r.faults };

    fn new_timer(&mut self, i: Moment) -> ManualTimer
        ensures due { result.due ≡ i }
        ensures same { self.new ≡ self.old }
    {
        ManualTimer {
            due: i,
            clock: self.clock.clone().ok(),
            place: None,
            source: Source::new(),
        }
    }

    /// An empty socket in memory, of the address of the system's, which is closed. It fails if the system doesn't tell the address.
    fn wrap_udp_socket(&mut self, t: UdpSocket) -> Result<QueueSocket, IoFault>
        ensures empty { IfOk result (λ socket. (addr : AnAddress) × (socket ≡ record { addr = addr; arrived = []; departed = []; fails_in = None; faults = 0 })) }
        ensures cause { CountsFaults self.old.faults self.new.faults (has_failed result) }
        ensures rest { self.new ≡ record self.old { faults = self.new.faults } }
        ensures errors { IfErr result (λ e. e ≡ fault.Failed) }
    {
        match t.local_addr() {
            Ok(addr) => Ok(QueueSocket::new(self.alloc, addr, None)),
            Err(_) => {
                self.faults = self.faults.saturating_add(1);
                Err(IoFault::Failed)
            }
        }
    }

    fn now(&mut self) -> Moment
        ensures value { result ≡ self.old.now }
        ensures same { self.new ≡ self.old }
    {
        self.now
    }
}

impl AsyncTimer for ManualTimer {
    fn reset(&mut self, i: Moment)
        ensures { self.new ≡ record self.old { due = i } }
    {
        self.due = i;
    }

    fn poll(&mut self, cx: &mut Context<'_>) -> Poll<()>
        ensures due { self.new.due ≡ self.old.due }
        ensures armed { OnPending result (IsArmed cx.new) }
        ensures kept { Keeps cx.old cx.new }
    {
        let Some(clock) = &self.clock else {
            return Poll::Ready(());
        };
        if self.due <= clock.now.get() {
            return Poll::Ready(());
        }
        clock.wait(&mut self.place, &self.source, cx)
    }
}

impl Clock {
    // Each task that waits is woken, by the drop of its waker.
    fn set(&self, now: Moment) {
        self.now.set(now);
        self.turn.set(self.turn.get().wrapping_add(1));
        if let Ok(mut waiting) = self.waiting.try_borrow_mut() {
            waiting.clear();
        }
    }

    // The task of a timer waits until the time is set. It is polled again at once if there is no memory to note that it waits.
    fn wait(&self, place: &mut Option<Place>, source: &Source, cx: &mut Context<'_>) -> Poll<()>
        ensures pending { OnPending result (IsArmed cx.new) }
        ensures kept { Keeps cx.old cx.new }
    {
        let Ok(mut waiting) = self.waiting.try_borrow_mut() else {
            return cx.yield_now();
        };
        let turn = self.turn.get();
        let known = place.filter(|known| known.turn == turn);
        let at = match known {
            Some(known) => known.at,
            None => waiting.len(),
        };
        if at >= waiting.len() && waiting.push(None).is_err() {
            return cx.yield_now();
        }
        let Some(slot) = waiting.get_mut(at) else {
            return cx.yield_now();
        };
        *place = Some(Place { turn, at });
        cx.register(source, slot)
    }
}
