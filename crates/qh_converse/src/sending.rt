ghost use Rattle.std.specs.Prelude.{◌≡◌, ◌++◌, ◌∷◌, ℕ, Bool, true, List, [], length, drop, Option, None, is_some};
ghost use Rattle.qh_base.specs.declared.connection_error.ConnectionClose.{ConnectionClose as AClose};
ghost use Rattle.qh_base.specs.declared.path.Transmit.{Transmit as ATransmit};
ghost use Rattle.qh_base.specs.declared.time.Moment.{Moment as AMoment};
ghost use Rattle.qh_conduct.specs.Announced.{MakesTags};
ghost use Rattle.qh_conduct.specs.Reached.{AreNamed};
ghost use Rattle.qh_converse.specs.Converses.{Converses};
ghost use Rattle.qh_core.specs.Made.{AcceptsTags, MakesTagsOf, AreMadeLocally, IsMade};
ghost use Rattle.qh_core.specs.Sending.{IsDatagramMade as IsCoreDatagramMade};
ghost use Rattle.qh_core.specs.declared.inner.Inner.{Inner as AnInner};
ghost use Rattle.qh_handshake.specs.Handshake.{IsHandshake, dropping};
ghost use Rattle.qh_handshake.specs.Moments.{IsTimedOut};
ghost use Rattle.qh_handshake.specs.Outgoing.{IsCloseMade, IsCloseUnsent, IsDatagramMade, IsUnsent};
ghost use Rattle.qh_handshake.specs.declared.handshake.Handshake.{Handshake as AHandshake};
ghost use Rattle.qh_packet.specs.Session.{MakesTags as MakesAllTags};
ghost use Rattle.qh_spec.specs.Parted.{IsShort};
ghost use Rattle.qh_spec.specs.Transcript.{Act, HandedOut};
ghost use Rattle.qh_spec.specs.declared.sides.Side.TheVariants.{Server};
ghost use Rattle.qh_spec.specs.declared.sides.Side.{Side as ASide};
ghost use Rattle.qh_spec.specs.declared.sides.Space.{Space as ASpace};

use qh_conduct::behaves_on;
use qh_handshake::follows;

/// What an end does beside taking datagrams: the handshake's datagrams go out, and its close; the 1-RTT packets of an end that was
/// greeted, a server's once it is connected; and what hands out no datagram.
pub fn sends<S>()
    ensures made { (accepts : AcceptsTags S) (sealed : MakesTagsOf S) (makes : ASide → ASpace → ℕ → List ℕ) (now : AMoment) (before after hello : List ℕ) (old new : AHandshake) (size : ℕ) (c : AnInner S) (k : Bool) (t : List Act)
        → MakesAllTags makes → IsHandshake old → IsDatagramMade makes now old new before after size → Converses accepts sealed hello old c k t
        → Converses accepts sealed hello new c k (t ++ HandedOut (drop (length before) after) ∷ []) }
    ensures close { (accepts : AcceptsTags S) (sealed : MakesTagsOf S) (makes : ASide → ASpace → ℕ → List ℕ) (close : AClose) (before after hello : List ℕ) (old new : AHandshake) (size : ℕ) (c : AnInner S) (k : Bool) (t : List Act)
        → MakesAllTags makes → IsHandshake old → IsCloseMade makes close old new before after size → Converses accepts sealed hello old c k t
        → Converses accepts sealed hello new c k (t ++ HandedOut (drop (length before) after) ∷ []) }
    ensures short { (sealed : ASide → ASpace → ℕ → List ℕ) (now : AMoment) (old new : AnInner S) (before after : List ℕ) (transmit : ATransmit)
        → IsCoreDatagramMade sealed now old new before after transmit → IsShort (drop (length before) after) }
    ensures sent { (accepts : AcceptsTags S) (sealed : MakesTagsOf S) (hello d : List ℕ) (h : AHandshake) (c new : AnInner S) (k : Bool) (t : List Act)
        → AreNamed (accepts c.session) → MakesTags (sealed c.session) → IsMade accepts sealed c new (HandedOut d ∷ []) → IsShort d
        → is_some h.peer ≡ true → (h.side ≡ Server → k ≡ true) → Converses accepts sealed hello h c k t → Converses accepts sealed hello h new k (t ++ HandedOut d ∷ []) }
    ensures called { (accepts : AcceptsTags S) (sealed : MakesTagsOf S) (hello : List ℕ) (h : AHandshake) (c new : AnInner S) (k : Bool) (acts t : List Act)
        → AreMadeLocally c new acts → (h.peer ≡ None → acts ≡ [])
        → Converses accepts sealed hello h c k t → Converses accepts sealed hello h new k (t ++ acts) }
    ensures unsent { (accepts : AcceptsTags S) (sealed : MakesTagsOf S) (now : AMoment) (hello : List ℕ) (old new : AHandshake) (c : AnInner S) (k : Bool) (t : List Act) → IsUnsent now old new → Converses accepts sealed hello old c k t
        → Converses accepts sealed hello new c k t }
    ensures close_unsent { (accepts : AcceptsTags S) (sealed : MakesTagsOf S) (hello : List ℕ) (old new : AHandshake) (c : AnInner S) (k : Bool) (t : List Act) → IsCloseUnsent old new → Converses accepts sealed hello old c k t
        → Converses accepts sealed hello new c k t }
    ensures timed_out { (accepts : AcceptsTags S) (sealed : MakesTagsOf S) (now : ℕ) (hello : List ℕ) (old new : AHandshake) (c : AnInner S) (k : Bool) (t : List Act) → IsTimedOut now old new → Converses accepts sealed hello old c k t
        → Converses accepts sealed hello new c k t }
    ensures dropped { (accepts : AcceptsTags S) (sealed : MakesTagsOf S) (hello : List ℕ) (h : AHandshake) (c : AnInner S) (k : Bool) (t : List Act) → Converses accepts sealed hello h c k t → Converses accepts sealed hello (dropping h) c k t }
{
    behaves_on::<S>();
    follows();
    qh_handshake::sends();
}
