ghost use Rattle.std.specs.Prelude.{◌≡◌, Some, IfOk, IsOk};
ghost use Rattle.futures.specs.Task.{IsArmed, Keeps};
ghost use Rattle.qh_book.specs.Interests.{interest_of};
ghost use Rattle.qh_book.specs.declared.interest.Interest.{Interest as AnInterest};
ghost use Rattle.qh_book.specs.declared.reply.Reply.TheVariants as reply;
ghost use Rattle.qh_handles.specs.Told.{IsDrive, IsPolled, MayReply};
ghost use Rattle.qh_quinn.specs.Acting.{Acts, Answers, IsFree, IsLent, IsOfStream, IsTelling, KeepsTurns};
ghost use Rattle.qh_quinn.specs.Calls.{CallsOf};
ghost use Rattle.qh_quinn.specs.States.{IsState};
ghost use Rattle.qh_quinn.specs.Told.{TellsOf};
ghost use Rattle.qh_quinn.specs.Waiting.{IsHeard, KeepsOthers};

use super::StateInner;
use crate::waiting::{interest_of, register};
use futures::task::Context;
use qh_base::Memory;
use qh_book::{Call, Reply, pending_registers, replies_fit};
use qh_handles::Told;
use qh_packet::Session;

impl<S: Session> StateInner<S>
where
    S::HandshakeData: Drop,
{
    /// Makes a call that never waits.
    pub fn plain(&mut self, call: Call) -> Result<Reply<Told<S::HandshakeData>>, Memory>
        requires state { IsState self.old }
        requires unpolled { IsPolled call → ⊥ }
        requires no_turn { IsDrive call → ⊥ }
        ensures acted { Acts call result self.old self.new }
        ensures calls { CallsOf call result self.old self.new }
        ensures ready { IfOk result (λ r. r ≡ reply.Pending → ⊥) }
        ensures fits { IfOk result (λ r. MayReply call r) }
        ensures free { IsFree call → IsOk result }
        ensures tells { IsTelling call → IfOk result (λ r. TellsOf S.knows S.name S.told self.old.connection self.old.error call r) }
        ensures rest { KeepsTurns self.old self.new }
    {
        pending_registers::<Told<S::HandshakeData>>();
        replies_fit::<Told<S::HandshakeData>>();
        self.answered(call)
    }

    /// Makes a call that may have to wait, with a context to wait by.
    pub fn polled(
        &mut self,
        call: Call,
        cx: &mut Context<'_>,
    ) -> Result<Reply<Told<S::HandshakeData>>, Memory>
        requires state { IsState self.old }
        requires no_turn { IsDrive call → ⊥ }
        ensures acted { Acts call result self.old self.new }
        ensures calls { CallsOf call result self.old self.new }
        ensures armed { IfOk result (λ r. r ≡ reply.Pending → IsArmed cx.new) }
        ensures heard { IfOk result (λ r. r ≡ reply.Pending → (i : AnInterest) → interest_of call ≡ Some i → IsHeard i cx.old cx.new self.new.waiting.items) }
        ensures others { IfOk result (λ r. r ≡ reply.Pending → (i : AnInterest) → interest_of call ≡ Some i → KeepsOthers i cx.old.turn.task self.old.waiting.items self.new.waiting.items) }
        ensures kept { Keeps cx.old cx.new }
        ensures fits { IfOk result (λ r. MayReply call r) }
        ensures free { IsFree call → IsOk result }
        ensures tells { IsTelling call → IfOk result (λ r. TellsOf S.knows S.name S.told self.old.connection self.old.error call r) }
        ensures rest { KeepsTurns self.old self.new }
    {
        pending_registers::<Told<S::HandshakeData>>();
        replies_fit::<Told<S::HandshakeData>>();
        let Some(interest) = interest_of(&call) else {
            return self.answered(call);
        };
        self.waiting.reserve(1)?;
        let reply = self.answered(call)?;
        if let Reply::Pending = reply {
            register(&mut self.waiting, &self.source, interest, cx);
            return Ok(Reply::Pending);
        }
        Ok(reply)
    }

    // What a call is replied, before it is known that it waits.
    fn answered(&mut self, call: Call) -> Result<Reply<Told<S::HandshakeData>>, Memory>
        requires state { IsState self.old }
        requires no_turn { IsDrive call → ⊥ }
        ensures value { Answers call result self.old self.new }
        ensures calls { CallsOf call result self.old self.new }
        ensures waiting { IfOk result (λ r. r ≡ reply.Pending → self.new.waiting ≡ self.old.waiting) }
        ensures fits { IsTelling call → IfOk result (λ r. MayReply call r) }
        ensures free { IsFree call → IsOk result }
        ensures tells { IsTelling call → IfOk result (λ r. TellsOf S.knows S.name S.told self.old.connection self.old.error call r) }
        ensures rest { KeepsTurns self.old self.new }
    {
        match call {
            Call::Close {
                now,
                error_code,
                reason,
            } => {
                self.close(now, error_code, reason);
                Ok(Reply::Done)
            }
            Call::SendDatagram { payload, wait } => self.send_datagram(payload, wait),
            other => self.answered_by(&other),
        }
    }

    // The same of calls that hand nothing over.
    fn answered_by(&mut self, call: &Call) -> Result<Reply<Told<S::HandshakeData>>, Memory>
        requires state { IsState self.old }
        requires no_turn { IsDrive call.now → ⊥ }
        requires lent { IsLent call.now }
        ensures value { Answers call.now result self.old self.new }
        ensures calls { CallsOf call.now result self.old self.new }
        ensures waiting { IfOk result (λ r. r ≡ reply.Pending → self.new.waiting ≡ self.old.waiting) }
        ensures fits { IsTelling call.now → IfOk result (λ r. MayReply call.now r) }
        ensures free { IsFree call.now → IsOk result }
        ensures tells { IsTelling call.now → IfOk result (λ r. TellsOf S.knows S.name S.told self.old.connection self.old.error call.now r) }
        ensures rest { KeepsTurns self.old self.new }
    {
        match call {
            Call::Connecting => Ok(self.connect()),
            Call::HandshakeData => Ok(self.handshake_data()),
            Call::Open(dir) => self.open(*dir),
            Call::Accept(dir) => self.accept(*dir),
            Call::ReadDatagram => Ok(self.read_datagram()),
            Call::CloseReason => Ok(self.close_reason()),
            Call::Closed => Ok(self.closed()),
            Call::CloneHandle => self.clone_handle(),
            Call::Get(getter) => Ok(self.value(*getter)),
            Call::Set(setting) => {
                self.set(*setting);
                Ok(Reply::Done)
            }
            Call::EndHandle => {
                self.end_handle();
                Ok(Reply::Done)
            }
            _ => self.answered_of_stream(call),
        }
    }

    // The same of calls on one stream.
    fn answered_of_stream(&mut self, call: &Call) -> Result<Reply<Told<S::HandshakeData>>, Memory>
        requires state { IsState self.old }
        requires of_stream { IsOfStream call.now }
        ensures value { Answers call.now result self.old self.new }
        ensures calls { CallsOf call.now result self.old self.new }
        ensures waiting { IfOk result (λ r. r ≡ reply.Pending → self.new.waiting ≡ self.old.waiting) }
        ensures free { IsFree call.now → IsOk result }
        ensures rest { KeepsTurns self.old self.new }
    {
        match call {
            Call::Read {
                id,
                max_length,
                is_ordered,
            } => self.read(*id, *max_length, *is_ordered),
            Call::Write { id, payload } => self.write(*id, payload.as_slice()),
            Call::Finish(id) => Ok(self.finish(*id)),
            Call::Reset { id, code } => Ok(self.reset(*id, *code)),
            Call::Stop { id, code } => Ok(self.stop(*id, *code)),
            Call::Stopped(id) => Ok(self.stopped(*id)),
            Call::ReceivedReset(id) => Ok(self.received_reset(*id)),
            Call::SetPriority { id, priority } => Ok(self.set_priority(*id, *priority)),
            Call::Priority(id) => Ok(self.priority(*id)),
            Call::EndSend(id) => {
                self.end_send(*id);
                Ok(Reply::Done)
            }
            Call::EndRecv(id) => {
                self.end_recv(*id);
                Ok(Reply::Done)
            }
            _ => Err(Memory),
        }
    }
}
