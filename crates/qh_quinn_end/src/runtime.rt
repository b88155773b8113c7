ghost use Rattle.std.specs.Prelude.{◌≡◌, ℕ, IfErr, IfOk};
ghost use Rattle.futures.specs.Poll.{OnPending};
ghost use Rattle.futures.specs.Task.{IsArmed, Keeps};
ghost use Rattle.qh_spec.specs.Fault.{CountsFaults};
ghost use Rattle.qh_runtime.specs.Socket.{IsNeither, has_failed};

use futures::task::{Context, Poll};
use qh_base::Moment;
use qh_runtime::{AsyncUdpSocket, IoFault};
use std::net::UdpSocket;

/// A timer that expires at a moment (quinn, `AsyncTimer`).
pub trait AsyncTimer: Drop {
    /// Lets it expire at this moment, whether it had expired or not.
    fn reset(&mut self, i: Moment);

    /// Ready once it has expired. Until then the task waits.
    fn poll(&mut self, cx: &mut Context<'_>) -> Poll<()>
        ensures armed { OnPending result (IsArmed cx.new) }
        ensures kept { Keeps cx.old cx.new };
}

/// What drivers stand on beside their sockets (quinn, `Runtime`, which also spawns their tasks: here whoever has a driver polls it).
pub trait Runtime: Drop {
    /// Its timers.
    type Timer: AsyncTimer;

    /// Its sockets.
    type Socket: AsyncUdpSocket;

    /// How often it failed to take a socket of the system's.
    ghost faults: { Self → ℕ };

    /// A timer that expires at this moment.
    fn new_timer(&mut self, i: Moment) -> Self::Timer
        ensures { faults self.new ≡ faults self.old };

    /// Makes one of its sockets of a socket of the system's. It has not failed yet.
    fn wrap_udp_socket(&mut self, t: UdpSocket) -> Result<Self::Socket, IoFault>
        ensures fresh { IfOk result (λ socket. Self.Socket.faults socket ≡ 0) }
        ensures cause { CountsFaults (faults self.old) (faults self.new) (has_failed result) }
        ensures errors { IfErr result IsNeither };

    /// The time now.
    fn now(&mut self) -> Moment
        ensures { faults self.new ≡ faults self.old };
}
