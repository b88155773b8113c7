//! A socket in memory that can be made to block and to fail, and what tells when it can be written to.
ghost use Rattle.std.specs.Prelude.{◌≡◌, None};

use bytes::Bytes;
use futures::task::{Context, Poll, Source, Waker};
use qh_base::{Memory, Transmit};
use qh_runtime::{AsyncUdpSocket, IoFault, RecvMeta, UdpPoller};
use std::alloc::Global;
use std::collections::VecDeque;
use std::net::{IpAddr, Ipv4Addr, SocketAddr};

/// What a poller answers.
#[derive(Clone, Copy)]
pub(crate) enum Gate {
    Open,
    Shut,
    Failing,
}

/// Tells that the socket can be written to, while its gate is open.
#[derive(Drop)]
pub(crate) struct RowPoller {
    gate: Gate,
    faults: u64,
    source: Source,
    waker: Option<Waker>,
}

/// A socket that keeps what is sent.
#[derive(Drop)]
pub(crate) struct RowSocket {
    alloc: Global,
    sent: VecDeque<Bytes>,
    // So many sends would block.
    pub(crate) blocks: u64,
    // The number of sends up to the one that fails, 0 if none does.
    pub(crate) fails_in: u64,
    faults: u64,
}

impl RowPoller {
    /// From now on it answers this. Its task is woken.
    pub(crate) fn set(&mut self, gate: Gate) {
        self.gate = gate;
        self.waker = None;
    }
}

impl UdpPoller for RowPoller {
    ghost faults = { λ p. p.faults };

    ghost never_blocks = { λ _. ⊥ };

    fn poll_writable(&mut self, cx: &mut Context<'_>) -> Poll<Result<(), IoFault>> {
        match self.gate {
            Gate::Open => Poll::Ready(Ok(())),
            Gate::Shut => cx.register(&self.source, &mut self.waker),
            Gate::Failing => {
                self.faults = self.faults.saturating_add(1);
                Poll::Ready(Err(IoFault::Failed))
            }
        }
    }
}

impl RowSocket {
    /// One that takes all.
    pub(crate) fn new(alloc: Global) -> RowSocket {
        RowSocket {
            alloc,
            sent: VecDeque::new(alloc),
            blocks: 0,
            fails_in: 0,
            faults: 0,
        }
    }

    /// How many datagrams were sent and not yet taken.
    pub(crate) fn waiting(&self) -> usize {
        self.sent.len()
    }

    /// Takes the oldest datagram that was sent.
    pub(crate) fn take(&mut self) -> Option<Bytes> {
        self.sent.pop_front()
    }

    // Counts a send. Whether it fails.
    fn fails(&mut self) -> bool
        ensures { self.new.faults ≡ self.old.faults }
    {
        let fails = self.fails_in == 1;
        self.fails_in = self.fails_in.saturating_sub(1);
        fails
    }

    fn keep(&mut self, contents: &[u8]) -> Result<(), Memory>
        ensures { self.new.faults ≡ self.old.faults }
    {
        let bytes = Bytes::copy_from_slice(self.alloc, contents).map_err(|_| Memory)?;
        self.sent.try_reserve(1).map_err(|_| Memory)?;
        self.sent.push_back_reserved(bytes);
        Ok(())
    }
}

impl AsyncUdpSocket for RowSocket {
    type Poller = RowPoller;

    ghost arrived = { λ _. None };

    ghost departed = { λ _. None };

    ghost faults = { λ s. s.faults };

    ghost never_blocks = { λ _. ⊥ };

    fn create_io_poller(&mut self) -> Result<RowPoller, Memory> {
        Ok(RowPoller {
            gate: Gate::Open,
            faults: 0,
            source: Source::new(),
            waker: None,
        })
    }

    fn try_send(&mut self, _transmit: &Transmit, contents: &[u8]) -> Result<(), IoFault> {
        if self.fails() {
            self.faults = self.faults.saturating_add(1);
            return Err(IoFault::Failed);
        }
        if self.blocks > 0 {
            self.blocks -= 1;
            return Err(IoFault::WouldBlock);
        }
        match self.keep(contents) {
            Ok(()) => Ok(()),
            Err(Memory) => Err(IoFault::Memory),
        }
    }

    // Datagrams come to the connection as events.
    fn poll_recv(
        &mut self,
        _buf: &mut [u8],
        _meta: &mut RecvMeta,
        cx: &mut Context<'_>,
    ) -> Poll<Result<(), IoFault>> {
        cx.yield_now()
    }

    fn local_addr(&mut self) -> Result<SocketAddr, IoFault> {
        Ok(SocketAddr::new(IpAddr::V4(Ipv4Addr::new(10, 0, 0, 1)), 443))
    }
}
