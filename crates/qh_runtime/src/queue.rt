ghost use Rattle.std.specs.Prelude.{◌≡◌, ◌⊎◌, ◌≤◌, ◌<◌, ◌++◌, ◌∷◌, [], List, Ok, IsOk, Some, None, length, false, true, IfErr, IfOk, IfSome, OnErr, OnOk};
ghost use Rattle.std.specs.List.{AllByRecursion};
ghost use Rattle.futures.specs.Poll.{IfReady, OnPending};
ghost use Rattle.futures.specs.declared.task.Poll.TheVariants as polls;
ghost use Rattle.futures.specs.Task.{IsArmed, Keeps};
ghost use Rattle.qh_base.specs.Io.{calls_left, fails_now, next_call as call_after, one_more};
ghost use Rattle.qh_spec.specs.Fault.{CountsFaults};
ghost use Rattle.qh_runtime.specs.Socket.{IsAnswerOfReceive, IsAnswerOfSend, IsDry, IsNeither, IsReceived, IsSent, has_blocked, has_failed, poll_failed};
ghost use Rattle.qh_runtime.specs.declared.runtime.IoFault.TheVariants as faults;
ghost use Rattle.qh_runtime.specs.declared.runtime.Message.{Message as AMessage};

use crate::{AsyncUdpSocket, IoFault, Message, OutMessage, RecvMeta, UdpPoller};
use bytes::Bytes;
use futures::task::{Context, Poll, Source, Waker};
use qh_base::{Memory, Transmit};
use std::alloc::Global;
use std::collections::VecDeque;
use std::marker::Model;
use std::net::SocketAddr;

/// A socket over messages in memory, one call of which may fail. Of its calls `try_send`, `poll_recv` and `local_addr` are counted.
#[derive(Drop)]
pub struct QueueSocket {
    alloc: Global,
    addr: SocketAddr,
    arrived: VecDeque<Message>,
    departed: VecDeque<OutMessage>,
    // The number of calls up to the one that fails.
    fails_in: Option<u64>,
    faults: u64,
    // What a task waits for that receives, and that task.
    source: Source,
    waker: Option<Waker>,
}

impl Model for QueueSocket {
    ghost use Rattle.qh_runtime.specs.Queue.{PlainQueueSocket};

    ghost Value = { PlainQueueSocket };

    ghost view = { λ s. record { addr = s.addr; arrived = s.arrived.items; departed = s.departed.items; fails_in = s.fails_in; faults = s.faults } };
}

/// It can always be written to.
#[derive(Drop)]
pub struct QueuePoller;

impl UdpPoller for QueuePoller {
    ghost faults = { λ _. 0 };

    ghost never_blocks = { λ _. Unit {0} };

    fn poll_writable(&mut self, cx: &mut Context<'_>) -> Poll<Result<(), IoFault>>
        ensures ready { result ≡ polls.Ready (Ok tt) }
        ensures kept { Keeps cx.old cx.new }
    {
        let _cx = cx;
        Poll::Ready(Ok(()))
    }
}

impl QueueSocket {
    /// A socket of this address, without a message. The `fail_at`-th call fails, counted from 1, and does nothing else; the calls after it don't.
    pub fn new(alloc: Global, addr: SocketAddr, fail_at: Option<u64>) -> QueueSocket
        ensures { result ≡ record { addr = addr; arrived = []; departed = []; fails_in = calls_left fail_at; faults = 0 } }
    {
        QueueSocket {
            alloc,
            addr,
            arrived: VecDeque::new(alloc),
            departed: VecDeque::new(alloc),
            fails_in: fail_at.filter(|at| *at > 0),
            faults: 0,
            source: Source::new(),
            waker: None,
        }
    }

    /// A message comes, behind those that came before. The task that waits for one is woken.
    pub fn give(&mut self, meta: RecvMeta, bytes: Bytes) -> Result<(), Memory>
        requires { meta.len ≡ length bytes }
        ensures ok { OnOk result (self.new ≡ record self.old { arrived = self.old.arrived ++ record { addr = meta.addr; stride = meta.stride; dst_ip = meta.dst_ip; bytes = bytes } ∷ [] }) }
        ensures err { OnErr result (self.new ≡ self.old) }
    {
        self.arrived.try_reserve(1)?;
        self.arrived.push_back_reserved(Message {
            addr: meta.addr,
            stride: meta.stride,
            dst_ip: meta.dst_ip,
            bytes,
        });
        drop(self.waker.take());
        Ok(())
    }

    /// Takes the oldest message that was sent and not yet taken. None exactly if there is none.
    pub fn sent(&mut self) -> Option<(Transmit, Bytes)>
        ensures some { IfSome result (λ s. self.old ≡ record self.new { departed = record { transmit = s.0; bytes = s.1 } ∷ self.new.departed }) }
        ensures none { result ≡ None → (self.old.departed ≡ []) × (self.new ≡ self.old) }
    {
        let message = self.departed.pop_front()?;
        Some((message.transmit, message.bytes))
    }

    // Counts a call. Whether it fails.
    fn fails(&mut self) -> bool
        ensures answer { result ≡ fails_now self.old.fails_in }
        ensures cause { CountsFaults self.old.faults self.new.faults result }
        ensures after { self.new ≡ record self.old { fails_in = call_after self.old.fails_in; faults = self.new.faults } }
        ensures faults { result ≡ true → self.new.faults ≡ one_more self.old.faults }
    {
        let fails = self.fails_in == Some(1);
        self.fails_in = next_call(self.fails_in);
        if fails {
            self.faults = self.faults.saturating_add(1);
        }
        fails
    }

    // Takes the oldest message that has room in so many bytes. Those before it are dropped, or all if none has.
    fn next_message(&mut self, room: usize) -> Option<Message>
        ensures some { IfSome result (λ m. (dropped : List AMessage) × (self.old.arrived ≡ dropped ++ m ∷ self.new.arrived) × AllByRecursion (λ d. room < length d.bytes) dropped × (length m.bytes ≤ room)) }
        ensures none { result ≡ None → IsDry room self.old.arrived self.new.arrived }
        ensures rest { self.new ≡ record self.old { arrived = self.new.arrived } }
    {
        while let Some(message) = self.arrived.pop_front() {
            if message.bytes.len() <= room {
                return Some(message);
            }
        }
        None
    }
}

impl AsyncUdpSocket for QueueSocket {
    type Poller = QueuePoller;

    ghost arrived = { λ s. Some s.arrived };

    ghost departed = { λ s. Some s.departed };

    ghost faults = { λ s. s.faults };

    ghost never_blocks = { λ _. Unit {0} };

    fn create_io_poller(&mut self) -> Result<QueuePoller, Memory>
        ensures ok { IsOk result }
        ensures same { self.new ≡ self.old }
    {
        Ok(QueuePoller)
    }

    fn try_send(&mut self, transmit: &Transmit, contents: &[u8]) -> Result<(), IoFault>
        ensures sent { IsSent transmit.now contents.now result (Some self.old.departed) (Some self.new.departed) }
        ensures cause { CountsFaults self.old.faults self.new.faults (has_failed result) }
        ensures taken { has_blocked result ≡ false }
        ensures errors { IfErr result IsAnswerOfSend }
        ensures only { IfErr result (λ e. (e ≡ faults.Failed) ⊎ (e ≡ faults.Memory)) }
        ensures rest { self.new ≡ record self.old { departed = self.new.departed; fails_in = call_after self.old.fails_in; faults = self.new.faults } }
        ensures fails { fails_now self.old.fails_in ≡ has_failed result }
    {
        if self.fails() {
            return Err(IoFault::Failed);
        }
        let bytes = Bytes::copy_from_slice(self.alloc, contents).map_err(|_| Memory)?;
        self.departed.try_reserve(1).map_err(|_| Memory)?;
        self.departed.push_back_reserved(OutMessage {
            transmit: *transmit,
            bytes,
        });
        Ok(())
    }

    fn poll_recv(
        &mut self,
        buf: &mut [u8],
        meta: &mut RecvMeta,
        cx: &mut Context<'_>,
    ) -> Poll<Result<(), IoFault>>
        ensures received { IsReceived (length buf.old) result (Some self.old.arrived) (Some self.new.arrived) meta.new buf.new }
        ensures room { length buf.new ≡ length buf.old }
        ensures fits { IfReady result (λ r. IfOk r (λ _. meta.new.len ≤ length buf.new)) }
        ensures cause { CountsFaults self.old.faults self.new.faults (poll_failed result) }
        ensures errors { IfReady result (λ r. IfErr r IsAnswerOfReceive) }
        ensures only { IfReady result (λ r. IfErr r (λ e. e ≡ faults.Failed)) }
        ensures armed { OnPending result (IsArmed cx.new) }
        ensures kept { Keeps cx.old cx.new }
        ensures rest { self.new ≡ record self.old { arrived = self.new.arrived; fails_in = call_after self.old.fails_in; faults = self.new.faults } }
        ensures fails { fails_now self.old.fails_in ≡ poll_failed result }
    {
        if self.fails() {
            return Poll::Ready(Err(IoFault::Failed));
        }
        let Some(message) = self.next_message(buf.len()) else {
            return cx.register(&self.source, &mut self.waker);
        };
        let len = message.bytes.len();
        buf[..len].copy_from_slice(message.bytes.as_slice());
        *meta = RecvMeta {
            addr: message.addr,
            len,
            stride: message.stride,
            dst_ip: message.dst_ip,
        };
        Poll::Ready(Ok(()))
    }

    fn local_addr(&mut self) -> Result<SocketAddr, IoFault>
        ensures value { IfOk result (λ addr. addr ≡ self.old.addr) }
        ensures cause { CountsFaults self.old.faults self.new.faults (has_failed result) }
        ensures errors { IfErr result IsNeither }
        ensures only { IfErr result (λ e. e ≡ faults.Failed) }
        ensures rest { self.new ≡ record self.old { fails_in = call_after self.old.fails_in; faults = self.new.faults } }
        ensures fails { fails_now self.old.fails_in ≡ has_failed result }
    {
        if self.fails() {
            return Err(IoFault::Failed);
        }
        Ok(self.addr)
    }
}

// The number of calls up to the one that fails, after a call.
fn next_call(fails_in: Option<u64>) -> Option<u64>
    ensures { result ≡ call_after fails_in }
{
    match fails_in {
        Some(calls) if calls > 1 => Some(calls - 1),
        _ => None,
    }
}
