ghost use Rattle.std.specs.Prelude.{◌≡◌, ◌⊎◌, ◌++◌, [], ◌∷◌, ℕ, ◌+◌, ◌-◌, ◌<◌, ◌≤◌, ◌^◌, List, Option, None, Some, length, true, false};
ghost use Rattle.qh_base.specs.declared.path.Transmit.{Transmit as ATransmit};
ghost use Rattle.qh_base.specs.declared.time.Moment.{Moment as AMoment};
ghost use Rattle.qh_base.specs.declared.time.Span.{Span as ASpan};
ghost use Rattle.qh_core.specs.Follows.{Follows, IsWithinLimits};
ghost use Rattle.qh_core.specs.Inner.{IsNewSpace, is_open};
ghost use Rattle.qh_core.specs.Progress.{AreAllAcknowledged, IsHeld, NumberedPacket, Progress, Rises};
ghost use Rattle.qh_core.specs.Receiving.{IsPacketTaken};
ghost use Rattle.qh_core.specs.Sending.{IsDatagramMade, NothingIsSent};
ghost use Rattle.qh_core.specs.Timers.{IsTimedOut};
ghost use Rattle.qh_core.specs.declared.inner.Inner.{Inner as AnInner};
ghost use Rattle.qh_frame.specs.Plain.{ack_of};
ghost use Rattle.qh_frame.specs.declared.ack.Ack.{Ack as AnAck};
ghost use Rattle.qh_recovery.specs.SentPackets.{packet_at};
ghost use Rattle.qh_recovery.specs.declared.sent_packets.SentPacket.{SentPacket};
ghost use Rattle.qh_space.specs.Receiving.{IsAckReceived, greatest_of};
ghost use Rattle.qh_space.specs.declared.data_space.DataSpace.{DataSpace as ASpaceOfData};
ghost use Rattle.qh_spec.specs.Acknowledged.{Covers};
ghost use Rattle.qh_spec.specs.Lawful.{Lawful};
ghost use Rattle.qh_spec.specs.Lists.{In};
ghost use Rattle.qh_spec.specs.QuicFrames.{QuicFrame, AreQuicFrames};
ghost use Rattle.qh_spec.specs.Transcript.{Act, HandedOut};
ghost use Rattle.qh_spec.specs.declared.sides.Side.{Side as ASide};
ghost use Rattle.qh_spec.specs.declared.sides.Space.{Space as ASpace};
ghost use Rattle.qh_streams.specs.Streams.{PlainStreams, AreWritten};
ghost use Rattle.qh_streams.specs.declared.frames.SentFrame.{SentFrame};

/// Whatever came to a connection, it keeps the laws of an end of a connection: it sends of a stream only what was written there,
/// and gives to readers only what was carried to it. And the STREAM and RESET_STREAM frames of each datagram keep within the limits
/// that the peer had given before.
pub fn lawful<S>()
    ensures faithful { (c : AnInner S) (t : List Act) → Follows c t → Lawful c.side (length c.local_id) (length c.remote_id) t }
    ensures within { (c : AnInner S) (t before after : List Act) (datagram : List ℕ) → Follows c t → t ≡ before ++ HandedOut datagram ∷ after
        → IsWithinLimits (length c.local_id) (length c.remote_id) c.side c.config before datagram }
{}

/// A session that was told more, or another one, leaves how a connection stands to all that was done with it.
pub fn other_session<S>()
    ensures follows { (c : AnInner S) (s : S) (t : List Act) → Follows c t → Follows (record c { session = s }) t }
{}

/// What arrival over a link that gives datagrams in time rests on. An open connection stands to the packets that it sent and
/// accepted so that what is out awaits its acknowledgement, and what came and wants one is acknowledged or about to be. Once
/// `poll_transmit` was asked, all that came and wants it is acknowledged, and what waits is sent or held by the window, and that
/// only while something is out that is to be acknowledged. A limit of the connection or of a stream and a count of streams is
/// announced only where it rose, or where the frame that said it was lost. The limit of a stream is the number of bytes that were
/// read of it and the window, as far as a frame can bear it, and never falls.
pub fn progress<S>()
    ensures fresh { (c : AnInner S) → IsNewSpace c.config c.side c.space → Progress c [] [] }
    ensures others { (old new : AnInner S) (sent accepted : List NumberedPacket) → new.space.sent ≡ old.space.sent → new.space.next_number ≡ old.space.next_number
        → new.space.acks ≡ old.space.acks → Progress old sent accepted → Progress new sent accepted }
    ensures accepted { (now : AMoment) (number : ℕ) (frames : List ℕ) (old new : AnInner S) (fs : List QuicFrame) (sent accepted : List NumberedPacket)
        → IsPacketTaken now number frames old new → is_open new.state ≡ true → AreQuicFrames frames fs
        → Progress old sent accepted → Progress new sent (accepted ++ record { number = number; at = now; frames = fs } ∷ []) }
    ensures made { (sealed : ASide → ASpace → ℕ → List ℕ) (now : AMoment) (old new : AnInner S) (before after : List ℕ) (transmit : ATransmit) (sent accepted : List NumberedPacket)
        → (made : IsDatagramMade sealed now old new before after transmit) → is_open old.state ≡ true → Progress old sent accepted
        → (fs : List QuicFrame) × AreQuicFrames made.bytes.frames fs × Progress new (sent ++ record { number = old.space.next_number; at = now; frames = fs } ∷ []) accepted
        × AreAllAcknowledged (sent ++ record { number = old.space.next_number; at = now; frames = fs } ∷ []) accepted }
    ensures none { (old new : AnInner S) (sent accepted : List NumberedPacket) → NothingIsSent old new → is_open old.state ≡ true → Progress old sent accepted
        → Progress new sent accepted × ((old.space.next_number ≡ 2 ^ 62) ⊎ (AreAllAcknowledged sent accepted × IsHeld new)) }
    ensures timeout { (now : ℕ) (old new : AnInner S) (sent accepted : List NumberedPacket) → IsTimedOut now old new → Progress old sent accepted → Progress new sent accepted }
    ensures rises { (room : ℕ) (old new : PlainStreams) (frames : List SentFrame) (bytes : List ℕ) → AreWritten room old new frames bytes
        → (f : SentFrame) → In f frames → Rises old f }
{}

/// Nothing is due in time (RFC 9002, sections 6.1 and 6.2). An ACK that covers each packet that is out below the greatest number that was
/// acknowledged loses none; and where none is out below that number, at a moment less than 26 ms after each that is out was sent, before
/// the idle time has passed, `handle_timeout` changes nothing.
pub fn in_time<S>()
    ensures ack { (now : ℕ) (old new : ASpaceOfData) (ack : AnAck) → (received : IsAckReceived now old new ack)
        → ((k : ℕ) (q : SentPacket SentFrame) → packet_at old.sent k ≡ Some q → k < greatest_of old.largest_acked ack.greatest → Covers (ack_of ack) k)
        → (received.lost.lost.taken ≡ []) × (received.lost.count ≡ 0) }
    ensures timeout { (now : ℕ) (old new : AnInner S) → is_open old.state ≡ true → now < 2 ^ 64 - 1 → IsTimedOut now old new
        → ((k : ℕ) (q : SentPacket SentFrame) → packet_at old.space.sent k ≡ Some q → now < q.time_sent.0 + 26000000)
        → ((k greatest : ℕ) (q : SentPacket SentFrame) → packet_at old.space.sent k ≡ Some q → old.space.largest_acked ≡ Some greatest → greatest ≤ k)
        → ((timeout : ASpan) → old.idle.timeout ≡ Some timeout → now < old.idle.since.0 + timeout.0)
        → new ≡ old }
{}
