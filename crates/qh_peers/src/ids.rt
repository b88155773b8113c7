ghost use Rattle.std.specs.Prelude.{◌≡◌, ℕ, ◌<◌, ◌^◌, ◌++◌, ◌∷◌, true, List, [], length, drop, Option, None, is_some};
ghost use Rattle.std.specs.declared.net.socket_addr.SocketAddr.{SocketAddr as AnAddress};
ghost use Rattle.qh_base.specs.declared.path.Transmit.{Transmit as ATransmit};
ghost use Rattle.qh_base.specs.declared.time.Moment.{Moment as AMoment};
ghost use Rattle.qh_conn.specs.Incoming.{AreIdsIssued, IsCloseCalled, IsDatagramHandled};
ghost use Rattle.qh_conn.specs.Outgoing.{IsStill, IsTransmitted};
ghost use Rattle.qh_conn.specs.Parameters.{first_control};
ghost use Rattle.qh_conn.specs.Telling.{IsEndpointTold, IsTimedOut, IsTold};
ghost use Rattle.qh_conn.specs.Whole.{IsSound};
ghost use Rattle.qh_conn.specs.declared.config.ConnConfig.{ConnConfig as AConfig};
ghost use Rattle.qh_conn.specs.declared.connection.Connection.{Connection as AConnection};
ghost use Rattle.qh_conn.specs.declared.event.Event.{Event as AnEvent};
ghost use Rattle.qh_control.specs.declared.event.EndpointEvent.{EndpointEvent as AnEndpointEvent};
ghost use Rattle.qh_control.specs.declared.event.IssuedCid.{IssuedCid as ACid};
ghost use Rattle.qh_core.specs.declared.control.ControlFrame.TheVariants as sending;
ghost use Rattle.qh_core.specs.declared.state.State.TheVariants.{Established};
ghost use Rattle.qh_handshake.specs.Incoming.{SessionView};
ghost use Rattle.qh_packet.specs.Session.{MakesTags, NamesTags};
ghost use Rattle.qh_peers.specs.Ids.{HasSameIds, HaveOwnTokens, KeepsFewIds, NoneIsRefusedIn, SayFewIds, SaysOwnToken};
ghost use Rattle.qh_spec.specs.Link.{other};
ghost use Rattle.qh_spec.specs.Transcript.{Act, HandedIn, HandedOut, handed_out};
ghost use Rattle.qh_spec.specs.declared.sides.Side.{Side as ASide};
ghost use Rattle.qh_spec.specs.declared.sides.Space.{Space as ASpace};

/// An end announces connection ids with sequence numbers below eight alone, and retires none and asks for none to be retired (RFC 9000,
/// sections 5.1.1 and 5.1.2), if its peer does so too. Such an end says that it keeps eight. So it is before anything came (`fresh`), after a
/// datagram that says so (`heard`), after one that it sends (`transmitted`), and after each other call that doesn't want memory. Of such a
/// datagram no frame of the connection's own is refused (`unrefused`).
///
/// The peer's ids have the length `n`: that of the id in use, if the end was greeted before, and that of the id that the peer's packets come
/// from, if it was greeted now. The token of the peer's hello, if it says one, and those of the ids that the endpoint issues belong to their
/// ids.
pub fn few_ids<S>()
    ensures fresh { (c : AConnection S) (config : AConfig) (local_id remote_id : List ℕ) (remote : AnAddress) (room : ℕ) → c.control ≡ first_control config local_id remote_id remote room → c.core.local_id ≡ local_id
        → c.core.state ≡ Established → KeepsFewIds c [] }
    ensures heard { (v : SessionView S) (now : AMoment) (d : List ℕ) (n : ℕ) (old new : AConnection S) (t : List Act) → NamesTags (v.accepts old.core.session) → IsSound old
        → (is_some old.handshake.peer ≡ true → n ≡ length old.core.remote_id) → (old.handshake.peer ≡ None → is_some new.handshake.peer ≡ true → n ≡ length new.handshake.remote_id) → SayFewIds n (length old.core.local_id) (d ∷ []) (other old.core.side) → SaysOwnToken new.handshake.remote_id new.handshake.peer
        → KeepsFewIds old t → IsDatagramHandled v now d old new → KeepsFewIds new (t ++ HandedIn d ∷ []) }
    ensures unrefused { (v : SessionView S) (now : AMoment) (d : List ℕ) (n : ℕ) (old new : AConnection S) (t : List Act) → NamesTags (v.accepts old.core.session) → IsSound old
        → (is_some old.handshake.peer ≡ true → n ≡ length old.core.remote_id) → (old.handshake.peer ≡ None → is_some new.handshake.peer ≡ true → n ≡ length new.handshake.remote_id) → SayFewIds n (length old.core.local_id) (d ∷ []) (other old.core.side) → SaysOwnToken new.handshake.remote_id new.handshake.peer
        → KeepsFewIds old t → (is : IsDatagramHandled v now d old new) → NoneIsRefusedIn is }
    ensures transmitted { (sealed : ASide → ASpace → ℕ → List ℕ) (now : AMoment) (old new : AConnection S) (before after : List ℕ) (transmit : ATransmit) (t : List Act) → MakesTags sealed → IsSound old
        → IsTransmitted sealed now old new before after transmit → KeepsFewIds old t → KeepsFewIds new (t ++ HandedOut (drop (length before) after) ∷ []) }
    ensures unsent { (old new : AConnection S) (t : List Act) → IsStill old new → KeepsFewIds old t → KeepsFewIds new t }
    ensures timed_out { (now : ℕ) (old new : AConnection S) (t : List Act) → IsTimedOut now old new → KeepsFewIds old t → KeepsFewIds new t }
    ensures issued { (ids : List ACid) (old new : AConnection S) (t : List Act) → HaveOwnTokens ids → AreIdsIssued ids old new → KeepsFewIds old t → KeepsFewIds new t }
    ensures closed { (now : AMoment) (code : ℕ) (reason : List ℕ) (old new : AConnection S) (t : List Act) → code < 2 ^ 62 → IsCloseCalled now code reason old new → KeepsFewIds old t → KeepsFewIds new t }
    ensures queued { (old new : AConnection S) (token : List ℕ) (t : List Act)
        → new ≡ record old { control = record old.control { queue = record old.control.queue { waiting = old.control.queue.waiting ++ sending.NewToken token ∷ [] } } } → KeepsFewIds old t → KeepsFewIds new t }
    ensures told { (old new : AConnection S) (event : Option AnEvent) (t : List Act) → IsTold old new event → KeepsFewIds old t → KeepsFewIds new t }
    ensures endpoint_told { (old new : AConnection S) (event : Option AnEndpointEvent) (t : List Act) → IsEndpointTold old new event → KeepsFewIds old t → KeepsFewIds new t }
    ensures still { (old new : AConnection S) (t more : List Act) → handed_out more ≡ [] → HasSameIds old new → KeepsFewIds old t → KeepsFewIds new (t ++ more) }
{}
