ghost use Rattle.std.specs.Prelude.{◌≡◌, ℕ, List, true, Option, Some};
ghost use Rattle.qh_base.specs.declared.connection_error.ConnectionClose.{ConnectionClose as AClose};
ghost use Rattle.qh_base.specs.declared.connection_error.ConnectionError.TheVariants.{TransportError as Fault, ConnectionClosed, VersionMismatch};
ghost use Rattle.qh_base.specs.declared.connection_error.ConnectionError.{ConnectionError as AnError};
ghost use Rattle.qh_base.specs.declared.time.Moment.{Moment as AMoment};
ghost use Rattle.qh_base.specs.declared.transport_error.TransportError.{TransportError as ATransportError};
ghost use Rattle.qh_packet.specs.Session.{NamesTags};
ghost use Rattle.qh_handshake.specs.Incoming.{IsDatagramTaken};
ghost use Rattle.qh_packet.specs.Session.{AcceptsTag};
ghost use Rattle.qh_handshake.specs.Peers.{IsPeer};
ghost use Rattle.qh_handshake.specs.Sends.{NeverCloses};
ghost use Rattle.qh_handshake.specs.declared.handshake.Handshake.{Handshake as AHandshake};
ghost use Rattle.qh_hello.specs.Greetings.{greeting};
ghost use Rattle.qh_hello.specs.declared.transport_parameters.TransportParameters.{TransportParameters as Parameters};
ghost use Rattle.qh_spec.specs.Hello.{hello_bytes, hello_of};
ghost use Rattle.qh_spec.specs.Lists.{In};
ghost use Rattle.qh_spec.specs.Transcript.{Act, handed_out};

/// Two honest handshakes that are the ends of one connection, over an honest link, with a Retry packet between them too: what one knows of
/// the other's parameters is what the other says, and the id that the other says is the one that this one knows its packets by; where memory
/// isn't wanting, a session learns the name that the other's hello bears. No datagram that one hands out is a fault of the transport to the
/// other, or tells it of other versions; if its Initial packets never close, none ends the other's handshake, but for want of memory (RFC
/// 9000, sections 6.2, 7.3, 12.4 and 19.19).
pub fn peers()
    ensures parameters { (own_hello peer_hello : List ℕ) (own peer : AHandshake) (p : Parameters) (t u : List Act) → IsPeer own_hello peer_hello own peer t u → own.peer ≡ Some p
        → p ≡ peer.parameters }
    ensures remote { (own_hello peer_hello : List ℕ) (own peer : AHandshake) (p : Parameters) (t u : List Act) → IsPeer own_hello peer_hello own peer t u → own.peer ≡ Some p
        → peer.parameters.initial_source_connection_id ≡ own.remote_id }
    ensures name { (accepts : AcceptsTag) (now : AMoment) (datagram rest own_hello peer_hello name : List ℕ) (own new peer : AHandshake) (retried : Option (List ℕ)) (end : Option AnError) (t u : List Act)
        → NamesTags accepts → IsPeer own_hello peer_hello own peer t u → In datagram (handed_out u) → IsDatagramTaken accepts now datagram own new rest retried (Some name) end
        → peer_hello ≡ hello_bytes (hello_of (greeting peer.side name peer.parameters)) }
    ensures faults { (accepts : AcceptsTag) (now : AMoment) (datagram rest own_hello peer_hello : List ℕ) (own new peer : AHandshake) (retried learned : Option (List ℕ)) (e : ATransportError) (t u : List Act)
        → NamesTags accepts → IsPeer own_hello peer_hello own peer t u → In datagram (handed_out u)
        → IsDatagramTaken accepts now datagram own new rest retried learned (Some (Fault e)) → ⊥ }
    ensures versions { (accepts : AcceptsTag) (now : AMoment) (datagram rest own_hello peer_hello : List ℕ) (own new peer : AHandshake) (retried learned : Option (List ℕ)) (t u : List Act)
        → IsPeer own_hello peer_hello own peer t u → In datagram (handed_out u)
        → IsDatagramTaken accepts now datagram own new rest retried learned (Some VersionMismatch) → ⊥ }
    ensures closes { (accepts : AcceptsTag) (now : AMoment) (datagram rest own_hello peer_hello : List ℕ) (own new peer : AHandshake) (retried learned : Option (List ℕ)) (close : AClose) (t u : List Act)
        → NamesTags accepts → IsPeer own_hello peer_hello own peer t u → NeverCloses peer.side u → In datagram (handed_out u)
        → IsDatagramTaken accepts now datagram own new rest retried learned (Some (ConnectionClosed close)) → ⊥ }
    ensures unended { (accepts : AcceptsTag) (now : AMoment) (datagram rest own_hello peer_hello : List ℕ) (own new peer : AHandshake) (retried learned : Option (List ℕ)) (e : AnError) (t u : List Act)
        → NamesTags accepts → IsPeer own_hello peer_hello own peer t u → NeverCloses peer.side u → In datagram (handed_out u)
        → IsDatagramTaken accepts now datagram own new rest retried learned (Some e) → ⊥ }
{}
