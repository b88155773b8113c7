ghost use Rattle.std.specs.Prelude.{◌≡◌, ◌++◌, ℕ, List, [], ◌∷◌, length, drop};
ghost use Rattle.qh_base.specs.declared.time.Moment.{Moment as AMoment};
ghost use Rattle.qh_handshake.specs.Handshake.{IsHandshake};
ghost use Rattle.qh_handshake.specs.Outgoing.{IsDatagramMade};
ghost use Rattle.qh_handshake.specs.Sends.{NeverCloses};
ghost use Rattle.qh_handshake.specs.declared.handshake.Handshake.{Handshake as AHandshake};
ghost use Rattle.qh_packet.specs.Session.{MakesTags};
ghost use Rattle.qh_spec.specs.Lists.{In};
ghost use Rattle.qh_spec.specs.Transcript.{Act, HandedOut, handed_out, out_of};
ghost use Rattle.qh_spec.specs.declared.sides.Side.{Side as ASide};
ghost use Rattle.qh_spec.specs.declared.sides.Space.{Space as ASpaceOf};

/// An end that isn't asked to close says no close: no Initial packet of what a handshake makes by itself has a CONNECTION_CLOSE (RFC 9000,
/// section 19.19). It is so before the first datagram, and behind each that is made, and what hands out no datagram changes nothing.
pub fn silent()
    ensures fresh { (side : ASide) → NeverCloses side [] }
    ensures made { (sealed : ASide → ASpaceOf → ℕ → List ℕ) (now : AMoment) (before after : List ℕ) (old new : AHandshake) (size : ℕ) (t : List Act)
        → MakesTags sealed → IsHandshake old → IsDatagramMade sealed now old new before after size → NeverCloses old.side t
        → NeverCloses old.side (t ++ HandedOut (drop (length before) after) ∷ []) }
    ensures fewer { (side : ASide) (t u : List Act) → ((d : List ℕ) → In d (handed_out u) → In d (handed_out t)) → NeverCloses side t → NeverCloses side u }
    ensures unsaid { (side : ASide) (act : Act) (t : List Act) → out_of act ≡ [] → NeverCloses side t → NeverCloses side (t ++ act ∷ []) }
{}
