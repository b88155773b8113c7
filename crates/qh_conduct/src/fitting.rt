ghost use Rattle.std.specs.Prelude.{◌≡◌, ◌⊎◌, ◌+◌, ◌-◌, ◌<◌, ◌≤◌, ◌∷◌, ℕ, Bool, List, None, Some, length};
ghost use Rattle.qh_base.specs.declared.connection_error.ConnectionError.TheVariants.{TransportError as Fault};
ghost use Rattle.qh_base.specs.declared.time.Moment.{Moment as AMoment};
ghost use Rattle.qh_base.specs.declared.transport_error.TransportError.{TransportError as AFault};
ghost use Rattle.qh_conduct.specs.Fitting.{AgreeOnSizes, AreWithinWritten, IsFaultOf, IsWithinStream, NamesKnown};
ghost use Rattle.qh_conduct.specs.Reached.{AreApart, AreNamed, AreReached, CameIn, EndsAt, IsAny, Reaches, sum_of};
ghost use Rattle.qh_core.specs.Receiving.{IsDatagramTaken};
ghost use Rattle.qh_core.specs.declared.inner.Inner.{Inner as AnInner};
ghost use Rattle.qh_half.specs.Recv.{PlainRecv, final_size};
ghost use Rattle.qh_spec.specs.Lists.{In};
ghost use Rattle.qh_spec.specs.Transcript.{Act, written};
ghost use Rattle.qh_spec.specs.declared.sides.Side.{Side as ASide};
ghost use Rattle.qh_spec.specs.declared.sides.Space.{Space as ASpace};
ghost use Rattle.qh_streams.specs.Streams.{PlainStreams, recv_or_new, refusal_of};
ghost use Rattle.qh_streams.specs.declared.frames.StreamFrame.{StreamFrame as AFrame};
ghost use Rattle.qh_transcript.specs.Within.{written_in_all};

/// What an end doesn't refuse, by what its streams know of the frames that came. So far as a half reaches a frame reached, and its
/// final size a frame said. A frame isn't refused that names a stream which is there or may be, where none of it and those that came
/// reaches farther than was written by the sender, nor past a final size that one of them says, and all that was written is within the
/// limit that this end announced, and the frame within that of its stream. `t` is what was done with the sender. A frame that came in
/// some datagrams came in others that have them (`among`).
pub fn frames_fit()
    ensures among { (id_length : ℕ) (sender : ASide) (datagrams others : List (List ℕ)) → ((d : List ℕ) → In d datagrams → In d others) → (f : AFrame)
        → CameIn id_length datagrams sender f → CameIn id_length others sender f }
    ensures sum { (t : List Act) (ends : List (ℕ × ℕ)) → AreApart ends → ((stream to : ℕ) → In (stream, to) ends → to ≤ length (written t stream)) → sum_of ends ≤ written_in_all t }
    ensures half { (side : ASide) (s : PlainStreams) (frames : List AFrame) → AreReached side s frames → (stream : ℕ) (h : PlainRecv) → recv_or_new s stream ≡ Some h
        → (h.end ≡ 0) ⊎ IsAny (Reaches stream h.end) frames }
    ensures size { (side : ASide) (s : PlainStreams) (frames : List AFrame) → AreReached side s frames → (stream size : ℕ) (h : PlainRecv) → recv_or_new s stream ≡ Some h
        → final_size h.state ≡ Some size → IsAny (EndsAt stream size) frames }
    ensures received { (side : ASide) (s : PlainStreams) (frames : List AFrame) → AreReached side s frames → (t : List Act) (f : AFrame) (stream to : ℕ) (h : PlainRecv)
        → AreWithinWritten (f ∷ frames) t → Reaches stream to f → recv_or_new s stream ≡ Some h → s.recv.received + (to - h.end) ≤ written_in_all t }
    ensures unrefused { (side : ASide) (s : PlainStreams) (frames : List AFrame) → AreReached side s frames → (f : AFrame) (t : List Act) → AgreeOnSizes (f ∷ frames) → AreWithinWritten (f ∷ frames) t
        → written_in_all t ≤ s.recv.announced.value → IsWithinStream s f → NamesKnown s f → refusal_of s f ≡ None }
{}

/// Why a datagram is a fault of the peer's: its packet has no frame, or bytes that are no frame, or a frame that the space refuses as
/// it is once the frames before it are taken, and as the connection keeps it then.
pub fn faults<S>()
    ensures fault { (accepts : ASide → ASpace → ℕ → List ℕ → Bool) (now : AMoment) (datagram : List ℕ) → AreNamed accepts → (old new : AnInner S) (e : AFault) → IsDatagramTaken accepts now datagram old new
        → old.error ≡ None → new.error ≡ Some (Fault e) → IsFaultOf accepts old new datagram e }
{}
