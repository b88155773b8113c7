ghost use Rattle.std.specs.Prelude.{◌≡◌, ◌⊎◌, ◌≤◌, ℕ, List, Option, false, length, IfErr, IfOk, IfSome};
ghost use Rattle.futures.specs.Poll.{IfReady, OnPending};
ghost use Rattle.futures.specs.Task.{IsArmed, Keeps};
ghost use Rattle.futures.specs.declared.task.Poll.TheVariants as polls;
ghost use Rattle.qh_spec.specs.Fault.{CountsFaults};
ghost use Rattle.qh_runtime.specs.Socket.{IsAnswerOfReceive, IsAnswerOfSend, IsNeither, IsReceived, IsSent, has_blocked, has_failed, poll_failed};
ghost use Rattle.qh_runtime.specs.declared.runtime.Message.{Message as AMessage};
ghost use Rattle.qh_runtime.specs.declared.runtime.OutMessage.{OutMessage as AnOutMessage};

use bytes::Bytes;
use futures::task::{Context, Poll};
use qh_base::{Memory, Transmit};
use std::net::{IpAddr, SocketAddr};
use thiserror::Error;

/// Why a socket, or what tells that it can be written to, didn't do what it was asked (quinn: `io::Error`).
#[derive(Clone, Copy, Debug, PartialEq, Eq, Error)]
pub enum IoFault {
    /// The socket takes no message now. Only `try_send` answers it.
    #[error("the socket can't be written to now")]
    WouldBlock,
    /// An earlier message didn't reach its peer (`io::ErrorKind::ConnectionReset`). Only `poll_recv` answers it.
    #[error("a peer can't be reached")]
    Reset,
    /// The socket failed, and counted it.
    #[error("the socket failed")]
    Failed,
    /// The allocator had no memory. Nothing was sent or received.
    #[error("out of memory")]
    Memory,
}

impl From<Memory> for IoFault {
    ghost use Rattle.std.specs.Prelude.{◌≡◌};
    ghost use Rattle.qh_runtime.specs.declared.runtime.IoFault.TheVariants.{Memory as Wanting};

    ghost from_gives = { λ _ e. e ≡ Wanting };

    fn from(_: Memory) -> IoFault {
        IoFault::Memory
    }
}

/// What is known of a message that was received (quinn-udp, `RecvMeta`).
#[derive(Clone, Copy)]
pub struct RecvMeta {
    /// The address that it came from.
    pub addr: SocketAddr,
    /// How many bytes it has.
    pub len: usize,
    /// How many bytes each of its datagrams has, but for the last, which may be shorter. A message of one datagram has as many as it.
    pub stride: usize,
    /// The address that it was sent to, if the socket knows it.
    pub dst_ip: Option<IpAddr>,
}

/// A message that came: a datagram, or several of one length but for the last (own).
#[derive(Drop)]
pub struct Message {
    /// The address that it came from.
    pub addr: SocketAddr,
    /// How many bytes each of its datagrams has, but for the last.
    pub stride: usize,
    /// The address that it was sent to, if the socket knows it.
    pub dst_ip: Option<IpAddr>,
    /// Its bytes.
    pub bytes: Bytes,
}

/// A message that was sent (own).
#[derive(Drop)]
pub struct OutMessage {
    /// Where it goes.
    pub transmit: Transmit,
    /// Its bytes.
    pub bytes: Bytes,
}

/// Tells when a socket can be written to again (quinn, `UdpPoller`).
pub trait UdpPoller: Drop {
    /// How often it failed.
    ghost faults: { Self → ℕ };

    /// A message may be sent at any time.
    ghost never_blocks: { Self → Type 0 };

    /// Ready once a message may be sent. Until then the task waits.
    fn poll_writable(&mut self, cx: &mut Context<'_>) -> Poll<Result<(), IoFault>>
        ensures cause { CountsFaults (faults self.old) (faults self.new) (poll_failed result) }
        ensures errors { IfReady result (λ r. IfErr r IsNeither) }
        ensures ready { never_blocks self.old → never_blocks self.new × (result ≡ polls.Pending → ⊥) }
        ensures armed { OnPending result (IsArmed cx.new) }
        ensures kept { Keeps cx.old cx.new };
}

/// A socket that sends and receives messages (quinn, `AsyncUdpSocket`). It may lose, repeat, delay and reorder what it carries.
pub trait AsyncUdpSocket: Drop {
    /// Tells when it can be written to again.
    type Poller: UdpPoller;

    /// The messages that came and weren't received yet, the oldest first, if it tells them.
    ghost arrived: { Self → Option (List AMessage) };

    /// The messages that were sent and not yet taken from it, the oldest first, if it tells them.
    ghost departed: { Self → Option (List AnOutMessage) };

    /// How often it failed.
    ghost faults: { Self → ℕ };

    /// Whoever sends never has to wait for it.
    ghost never_blocks: { Self → Type 0 };

    /// Something that tells when it can be written to again. It has not failed yet.
    fn create_io_poller(&mut self) -> Result<Self::Poller, Memory>
        ensures fresh { IfOk result (λ poller. Self.Poller.faults poller ≡ 0) }
        ensures ready { never_blocks self.old → never_blocks self.new × IfOk result (λ poller. Self.Poller.never_blocks poller) }
        ensures arrived { arrived self.new ≡ arrived self.old }
        ensures departed { departed self.new ≡ departed self.old }
        ensures faults { faults self.new ≡ faults self.old };

    /// Sends a message, whole or not at all. After `WouldBlock` it may be tried again once a poller is ready.
    fn try_send(&mut self, transmit: &Transmit, contents: &[u8]) -> Result<(), IoFault>
        ensures sent { IsSent transmit.now contents.now result (departed self.old) (departed self.new) }
        ensures arrived { arrived self.new ≡ arrived self.old }
        ensures cause { CountsFaults (faults self.old) (faults self.new) (has_failed result) }
        ensures ready { never_blocks self.old → never_blocks self.new × (has_blocked result ≡ false) }
        ensures errors { IfErr result IsAnswerOfSend };

    /// Writes the oldest message into the front of the slice, and says what is known of it. One that is longer than the slice is dropped. If none is
    /// left, the task waits until one comes.
    fn poll_recv(
        &mut self,
        buf: &mut [u8],
        meta: &mut RecvMeta,
        cx: &mut Context<'_>,
    ) -> Poll<Result<(), IoFault>>
        ensures received { IsReceived (length buf.old) result (arrived self.old) (arrived self.new) meta.new buf.new }
        ensures room { length buf.new ≡ length buf.old }
        ensures fits { IfReady result (λ r. IfOk r (λ _. meta.new.len ≤ length buf.new)) }
        ensures departed { departed self.new ≡ departed self.old }
        ensures cause { CountsFaults (faults self.old) (faults self.new) (poll_failed result) }
        ensures ready { never_blocks self.old → never_blocks self.new }
        ensures errors { IfReady result (λ r. IfErr r IsAnswerOfReceive) }
        ensures armed { OnPending result (IsArmed cx.new) }
        ensures kept { Keeps cx.old cx.new };

    /// Its own address.
    fn local_addr(&mut self) -> Result<SocketAddr, IoFault>
        ensures arrived { arrived self.new ≡ arrived self.old }
        ensures departed { departed self.new ≡ departed self.old }
        ensures cause { CountsFaults (faults self.old) (faults self.new) (has_failed result) }
        ensures ready { never_blocks self.old → never_blocks self.new }
        ensures errors { IfErr result IsNeither };

    /// How many datagrams a message that it receives may have.
    fn max_receive_segments(&self) -> usize
        ensures { 1 ≤ result }
    {
        1
    }
}
