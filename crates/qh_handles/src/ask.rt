ghost use Rattle.std.specs.Prelude.{◌≡◌, MatchResult, IfOk};
ghost use Rattle.futures.specs.Task.{IsArmed, Keeps};
ghost use Rattle.qh_book.specs.declared.reply.Reply.TheVariants as answer;
ghost use Rattle.qh_handles.specs.Told.{IsDrive, MayReply};

use crate::{At, Told};
use futures::task::Context;
use qh_base::Memory;
use qh_book::{Call, Reply};

// Makes a call that may have to wait.
pub(crate) fn ask<A: At>(
    at: &mut A,
    call: Call,
    cx: &mut Context<'_>,
) -> Result<Reply<Told<A::HandshakeData>>, Memory>
    requires { IsDrive call → ⊥ }
    ensures value { MatchResult result (λ r. A.acts at.old call r at.new) (λ _. A.stays at.old at.new) }
    ensures fits { IfOk result (MayReply call) }
    ensures armed { IfOk result (λ r. r ≡ answer.Pending → IsArmed cx.new) }
    ensures kept { Keeps cx.old cx.new }
{
    at.act(call, Some(cx))
}
