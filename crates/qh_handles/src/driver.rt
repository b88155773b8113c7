ghost use Rattle.std.specs.Prelude.{◌≡◌, ◌≤◌, List, None, false, IfErr};
ghost use Rattle.futures.specs.Poll.{IfReady, OnPending};
ghost use Rattle.futures.specs.Task.{IsArmed, Keeps};
ghost use Rattle.futures.specs.declared.task.Poll.TheVariants as polls;
ghost use Rattle.qh_handles.specs.Turns.{AreReady, AreSent, HasCause, IsFull, IsTurnFault};
ghost use Rattle.qh_runtime.specs.declared.runtime.OutMessage.{OutMessage as AnOutMessage};

use crate::{At, DriverPart};
use futures::task::{Context, Poll};
use qh_base::Moment;
use qh_runtime::{AsyncUdpSocket, IoFault};

/// Makes the turns of a connection: hands in what came, sends, and runs timers (quinn, `ConnectionDriver`). Nothing moves unless it is polled.
#[derive(Drop)]
pub struct ConnectionDriver<X: AsyncUdpSocket> {
    /// What it owns beside the state.
    pub part: DriverPart<X>,
}

impl<X: AsyncUdpSocket> ConnectionDriver<X> {
    /// The driver of a new state (own).
    pub fn of_state() -> ConnectionDriver<X>
        ensures poller { result.part.poller ≡ None }
        ensures made { result.part.made ≡ 0 }
        ensures held { result.part.is_held ≡ false }
        ensures going { result.part.keeps_going ≡ false }
    {
        ConnectionDriver {
            part: DriverPart {
                poller: None,
                made: 0,
                is_held: false,
                keeps_going: false,
            },
        }
    }

    /// Makes a turn. It is ready once the connection is drained (RFC 9000, section 10.2), or if the socket failed or memory was wanting.
    pub fn poll<A: At>(
        &mut self,
        at: &mut A,
        socket: &mut X,
        now: Moment,
        cx: &mut Context<'_>,
    ) -> Poll<Result<(), IoFault>>
        ensures value { (out : List AnOutMessage) × A.drives at.old now self.old.part.is_held out result self.new.part.keeps_going cx.old cx.new at.new × AreSent out (X.departed socket.old) (X.departed socket.new)
            × (AreReady X.never_blocks X.Poller.never_blocks socket.old self.old.part.poller → result ≡ polls.Pending → IsFull self.new.part.keeps_going out) }
        ensures arrived { X.arrived socket.new ≡ X.arrived socket.old }
        ensures cause { HasCause X.Poller.faults result (X.faults socket.old) (X.faults socket.new) self.old.part.made self.new.part.made self.old.part.poller self.new.part.poller }
        ensures sent { self.old.part.is_held ≡ false → AreReady X.never_blocks X.Poller.never_blocks socket.old self.old.part.poller → result ≡ polls.Pending → self.new.part.keeps_going ≡ false → A.is_sent at.new }
        ensures ready { AreReady X.never_blocks X.Poller.never_blocks socket.old self.old.part.poller → AreReady X.never_blocks X.Poller.never_blocks socket.new self.new.part.poller }
        ensures made { self.old.part.made ≤ self.new.part.made }
        ensures errors { IfReady result (λ r. IfErr r IsTurnFault) }
        ensures held { self.new.part.is_held ≡ self.old.part.is_held }
        ensures armed { OnPending result (IsArmed cx.new) }
        ensures kept { Keeps cx.old cx.new }
    {
        at.drive(&mut self.part, socket, now, cx)
    }

    /// Whether the last turn ended because it had made as many sends as one turn may (one that would block counts), and not because none was left.
    pub fn keep_going(&self) -> bool
        ensures { result ≡ self.now.part.keeps_going }
    {
        self.part.keeps_going
    }

    /// While it is held, a turn makes no datagram (own).
    pub fn hold(&mut self, held: bool)
        ensures held { self.new.part.is_held ≡ held }
        ensures poller { self.new.part.poller ≡ self.old.part.poller }
        ensures made { self.new.part.made ≡ self.old.part.made }
        ensures going { self.new.part.keeps_going ≡ self.old.part.keeps_going }
    {
        self.part.is_held = held;
    }
}
