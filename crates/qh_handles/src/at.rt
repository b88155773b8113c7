ghost use Rattle.std.specs.Prelude.{◌≡◌, ◌≤◌, ℕ, Bool, List, MatchResult, IfErr, IfOk, IsOk, false};
ghost use Rattle.futures.specs.Poll.{IfReady, OnPending};
ghost use Rattle.futures.specs.Task.{IsArmed, Keeps};
ghost use Rattle.futures.specs.declared.task.Poll.TheVariants as polls;
ghost use Rattle.futures.specs.declared.task.Poll.{Poll as APoll};
ghost use Rattle.futures.specs.declared.task.context.Context.{Context as AContext};
ghost use Rattle.std.specs.Prelude.{Result as AResult};
ghost use Rattle.qh_base.specs.declared.time.Moment.{Moment as AMoment};
ghost use Rattle.qh_book.specs.declared.call.Call.{Call as ACall};
ghost use Rattle.qh_book.specs.declared.reply.Reply.{Reply as AReply};
ghost use Rattle.qh_book.specs.declared.reply.Reply.TheVariants as reply;
ghost use Rattle.qh_handles.specs.Contexts.{ContextArmed, ContextKept, HasContext};
ghost use Rattle.qh_handles.specs.Told.{IsDrive, IsPolled, MayReply};
ghost use Rattle.qh_handles.specs.Turns.{AreReady, AreSent, HasCause, IsFull, IsTurnFault};
ghost use Rattle.qh_handles.specs.declared.told.Told.{Told as AToldValue};
ghost use Rattle.qh_runtime.specs.declared.runtime.IoFault.{IoFault as AFault};
ghost use Rattle.qh_runtime.specs.declared.runtime.OutMessage.{OutMessage as AnOutMessage};

use crate::Told;
use futures::task::{Context, Poll};
use qh_base::{Memory, Moment};
use qh_book::{Call, Reply};
use qh_runtime::{AsyncUdpSocket, IoFault};

/// Where calls are made: at the state of a connection itself, or at one that is shared. What a call does there is as whoever implements this says; it is meant
/// to be one step of that state, done while nobody else has it.
pub trait At {
    /// What the handshake tells of the peer.
    type HandshakeData: Drop;

    /// The call was made and replied so.
    ghost acts: { Self → ACall → AReply (AToldValue Self.HandshakeData) → Self → Type 0 };

    /// A call was tried, and wasn't made for want of memory.
    ghost stays: { Self → Self → Type 0 };

    /// This call takes no memory: it is made, whatever the allocator has.
    ghost takes_none: { Self → ACall → Type 0 };

    /// A turn of the driver was made at this moment, while it was held or wasn't; it handed these messages to the socket and answered so. The last flag says
    /// whether there may be more to send than one turn sends, and the contexts are those before the turn and behind it.
    ghost drives: { Self → AMoment → Bool → List AnOutMessage → APoll (AResult (Unit {0}) AFault) → Bool → AContext → AContext → Self → Type 0 };

    /// The connection has nothing left to send for now, and no datagram of it waits for the socket.
    ghost is_sent: { Self → Type 0 };

    /// Makes a call that is none of the driver's. One that may have to wait needs a context to wait by.
    fn act(
        &mut self,
        call: Call,
        cx: Option<&mut Context<'_>>,
    ) -> Result<Reply<Told<Self::HandshakeData>>, Memory>
        requires polled { IsPolled call → HasContext cx }
        requires no_turn { IsDrive call → ⊥ }
        ensures value { MatchResult result (λ r. acts self.old call r self.new) (λ _. stays self.old self.new) }
        ensures free { takes_none self.old call → IsOk result }
        ensures armed { IfOk result (λ r. r ≡ reply.Pending → ContextArmed cx.entry cx.exit) }
        ensures kept { ContextKept cx.entry cx.exit };

    /// Makes a turn of the driver.
    fn drive<X: AsyncUdpSocket>(
        &mut self,
        part: &mut DriverPart<X>,
        socket: &mut X,
        now: Moment,
        cx: &mut Context<'_>,
    ) -> Poll<Result<(), IoFault>>
        ensures value { (out : List AnOutMessage) × drives self.old now part.old.is_held out result part.new.keeps_going cx.old cx.new self.new × AreSent out (X.departed socket.old) (X.departed socket.new)
            × (AreReady X.never_blocks X.Poller.never_blocks socket.old part.old.poller → result ≡ polls.Pending → IsFull part.new.keeps_going out) }
        ensures arrived { X.arrived socket.new ≡ X.arrived socket.old }
        ensures cause { HasCause X.Poller.faults result (X.faults socket.old) (X.faults socket.new) part.old.made part.new.made part.old.poller part.new.poller }
        ensures sent { part.old.is_held ≡ false → AreReady X.never_blocks X.Poller.never_blocks socket.old part.old.poller → result ≡ polls.Pending → part.new.keeps_going ≡ false → is_sent self.new }
        ensures ready { AreReady X.never_blocks X.Poller.never_blocks socket.old part.old.poller → AreReady X.never_blocks X.Poller.never_blocks socket.new part.new.poller }
        ensures made { part.old.made ≤ part.new.made }
        ensures errors { IfReady result (λ r. IfErr r IsTurnFault) }
        ensures held { part.new.is_held ≡ part.old.is_held }
        ensures armed { OnPending result (IsArmed cx.new) }
        ensures kept { Keeps cx.old cx.new };

    /// The reply has a form that the call may have.
    ghost fits: { (x y : Self) (c : ACall) (r : AReply (AToldValue Self.HandshakeData)) → acts x c r y → MayReply c r };
}

/// What a driver owns beside the state of its connection.
#[derive(Drop)]
pub struct DriverPart<X: AsyncUdpSocket> {
    /// What tells that the socket can be written to, if it was asked for yet.
    pub poller: Option<X::Poller>,
    /// How many of those were made. The number saturates.
    pub made: u64,
    /// Whether it makes no datagram for now.
    pub is_held: bool,
    /// Whether the last turn ended because it had made as many sends as one turn may (one that would block counts), and not because none was left.
    pub keeps_going: bool,
}
