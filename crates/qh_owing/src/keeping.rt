ghost use Rattle.std.specs.Prelude.{◌≡◌, ◌⊎◌, ◌++◌, ◌<◌, [], ℕ, List, None, Some, length, slice_get, true};
ghost use Rattle.qh_core.specs.Inner.{IsNewSpace, is_open};
ghost use Rattle.qh_core.specs.Made.{AcceptsTags, MakesTagsOf, AreMade};
ghost use Rattle.qh_core.specs.Progress.{NumberedPacket as APacket};
ghost use Rattle.qh_core.specs.declared.inner.Inner.{Inner as AnInner};
ghost use Rattle.qh_owing.specs.Ledger.{AreSent, HasLedger, IsLedger, IsSentIn};
ghost use Rattle.qh_packet.specs.Session.{AcceptsTag};
ghost use Rattle.qh_spec.specs.Transcript.{Act, handed_out};
ghost use Rattle.qh_spec.specs.declared.sides.Side.{Side as ASide};
ghost use Rattle.qh_spec.specs.declared.sides.Space.{Space as ASpace};

/// The ledger of a connection: what it sent and what it accepted, packet by packet, is what the datagrams tell, one packet a datagram
/// that it handed out, with the next number (RFC 9000, section 12.3). An end that begins has it, and each call carries it on; an open end
/// stands to those packets as arrival asks (`progress` of `qh_core`), and nothing that they brought is lost.
pub fn ledger<S>()
    ensures fresh { (accepts : AcceptsTag) (sealed : ASide → ASpace → ℕ → List ℕ) (c : AnInner S) → IsNewSpace c.config c.side c.space → HasLedger accepts sealed c [] }
    ensures made { (accepts : AcceptsTags S) (sealed : MakesTagsOf S) (old new : AnInner S) (acts t : List Act) → AreMade accepts sealed old new acts
        → HasLedger (accepts old.session) (sealed old.session) old t → HasLedger (accepts old.session) (sealed old.session) new (t ++ acts) }
    ensures open { (accepts : AcceptsTag) (sealed : ASide → ASpace → ℕ → List ℕ) (c : AnInner S) (t : List Act) → is_open c.state ≡ true → HasLedger accepts sealed c t
        → (sent : List APacket) × AreSent sealed c.side (length c.remote_id) (handed_out t) sent × ((accepted : List APacket) × IsLedger accepts sealed c sent accepted t) }
    ensures sent { (accepts : AcceptsTag) (sealed : ASide → ASpace → ℕ → List ℕ) (c : AnInner S) (t : List Act) → HasLedger accepts sealed c t
        → (sent : List APacket) × AreSent sealed c.side (length c.remote_id) (handed_out t) sent }
{}

/// Datagrams that are packets one each have as many numbers: the one at each place has that number, and none has another's.
pub fn sent_once()
    ensures numbers { (sealed : ASide → ASpace → ℕ → List ℕ) (side : ASide) (id_length : ℕ) (datagrams : List (List ℕ)) (sent : List APacket) (k : ℕ) (d : List ℕ)
        → AreSent sealed side id_length datagrams sent → slice_get datagrams k ≡ Some d
        → (p : APacket) × (slice_get sent k ≡ Some p) × (p.number ≡ k) × IsSentIn sealed side id_length d p }
    ensures lengths { (sealed : ASide → ASpace → ℕ → List ℕ) (side : ASide) (id_length : ℕ) (datagrams : List (List ℕ)) (sent : List APacket)
        → AreSent sealed side id_length datagrams sent → length sent ≡ length datagrams }
{}
