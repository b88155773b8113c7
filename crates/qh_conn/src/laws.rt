ghost use Rattle.std.specs.Prelude.{◌≡◌, ℕ, Bool, List, [], is_some};
ghost use Rattle.qh_conn.specs.Same.{IsSameConnection, IsSameControl};
ghost use Rattle.qh_conn.specs.Whole.{HasSameParts, IsWhole};
ghost use Rattle.qh_conn.specs.declared.connection.Connection.{Connection as AConnection};
ghost use Rattle.qh_control.specs.declared.control.ControlState.{ControlState as AControlState};
ghost use Rattle.qh_converse.specs.Converses.{Converses};
ghost use Rattle.qh_core.specs.Made.{AcceptsTags, AreMadeLocally, IsMadeLocally, IsMadeOnStreams, MakesTagsOf};
ghost use Rattle.qh_core.specs.declared.inner.Inner.{Inner as AnInner};
ghost use Rattle.qh_handshake.specs.declared.handshake.Handshake.{Handshake as AHandshake};
ghost use Rattle.qh_spec.specs.Transcript.{Act};

use qh_converse::sends;

// A call of the end of the 1-RTT packets that hands no datagram in or out leaves how the connection stands to all that was done with it, and
// what holds of it.
pub(crate) fn still<S>()
    ensures stands { (accepts : AcceptsTags S) (sealed : MakesTagsOf S) (hello : List ℕ) (h : AHandshake) (c new : AnInner S) (k : Bool) (t : List Act) → IsMadeLocally c new [] → Converses accepts sealed hello h c k t
        → Converses accepts sealed hello h new k t }
    ensures whole { (old new : AConnection S) → HasSameParts old new → IsMadeLocally old.core new.core [] → IsWhole old → IsWhole new }
    ensures streams_stand { (accepts : AcceptsTags S) (sealed : MakesTagsOf S) (hello : List ℕ) (h : AHandshake) (c new : AnInner S) (k : Bool) (t : List Act) → IsMadeOnStreams c new [] → Converses accepts sealed hello h c k t
        → Converses accepts sealed hello h new k t }
    ensures streams_whole { (old new : AConnection S) → HasSameParts old new → IsMadeOnStreams old.core new.core [] → IsWhole old → IsWhole new }
{
    sends::<S>();
}

/// A connection is the same end of the same connection as itself (`same`), and as one later than a later one (`both`). It stays so by calls of
/// the end of its 1-RTT packets that hand no datagram in or out (`called`), and whatever becomes of the frames of its own, if what was said of
/// them stays (`control`).
pub fn same_connection<S>()
    ensures same { (key : S → List ℕ) (c : AConnection S) → IsSameConnection key c c }
    ensures both { (key : S → List ℕ) (old mid new : AConnection S) → IsSameConnection key old mid → IsSameConnection key mid new → IsSameConnection key old new }
    ensures called { (key : S → List ℕ) (c : AConnection S) (core : AnInner S) (acts : List Act) → AreMadeLocally c.core core acts → IsSameConnection key c (record c { core = core }) }
    ensures control { (key : S → List ℕ) (c : AConnection S) (control : AControlState) → IsSameControl (is_some c.handshake.peer) c.control control → IsSameConnection key c (record c { control = control }) }
{}
