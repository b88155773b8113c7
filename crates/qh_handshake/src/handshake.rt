ghost use Rattle.std.specs.Prelude.{◌≡◌, ◌≤◌, [], None, Some, true, false, is_some, length, IfOk, IsSomeAnd};
ghost use Rattle.qh_handshake.specs.Handshake.{IsHandshake, dropping, stats_in, with_origin};
ghost use Rattle.qh_handshake.specs.InitialSpace.{IsUnused, first_stats};
ghost use Rattle.qh_handshake.specs.declared.initial_space.HelloState.TheVariants.{Held, Waits};
ghost use Rattle.qh_hello.specs.Greetings.{greeting};
ghost use Rattle.qh_spec.specs.Hello.{IsSayable, hello_bytes, hello_of};
ghost use Rattle.qh_spec.specs.declared.sides.Side.TheVariants.{Client, Server};

use crate::{HelloState, InitialSpace, InitialStats};
use bytes::Bytes;
use qh_base::{ConnectionId, Memory, Moment, Side, Span};
use qh_hello::{TransportParameters, put_hello};
use qh_packet::{Session, Version};
use std::alloc::Global;

/// The handshake of an end of a connection: its Initial packets, both hellos, and the limit on what a server sends before the client's
/// address is validated (RFC 9000, sections 7 and 8.1). What holds of its parts together is `IsHandshake`.
#[derive(Drop)]
pub struct Handshake {
    /// Which end it is.
    pub side: Side,
    /// The version of its packets.
    pub version: Version,
    /// The source id of its packets.
    pub local_id: ConnectionId,
    /// The destination id of its packets: the peer's, or at a client that doesn't know that yet the id that it chose, or that of the
    /// Retry packet.
    pub remote_id: ConnectionId,
    /// The destination id of the client's first packet.
    pub original_id: ConnectionId,
    /// At a client that took a Retry packet, the id that this came from.
    pub retry_id: Option<ConnectionId>,
    /// What a client's packets bear as their token, at most 512 bytes.
    pub token: Bytes,
    /// What this end says of itself.
    pub parameters: TransportParameters,
    /// The Initial packet number space, while it is in use.
    pub space: Option<InitialSpace>,
    /// What was counted and measured in the Initial space when it was dropped; until then, what it began with.
    pub stats: InitialStats,
    /// What the peer says of itself, once its whole hello was read: this end is greeted then.
    pub peer: Option<TransportParameters>,
    /// Whether the peer's id is known: at a server always, at a client once it accepted a packet.
    pub knows_peer: bool,
    /// Whether the peer's address is validated: at a client always.
    pub is_validated: bool,
    /// How many bytes came, in all datagrams.
    pub bytes_received: u64,
    /// How many bytes went out.
    pub bytes_sent: u64,
}

impl Handshake {
    /// The handshake of a client that asks for the server name of its session, and chose this id for the server. Its hello waits.
    pub fn client<S: Session>(
        alloc: Global,
        session: &S,
        parameters: TransportParameters,
        original_id: ConnectionId,
        initial_rtt: Span,
        now: Moment,
    ) -> Result<Handshake, Memory>
        requires sayable { IsSayable (greeting Client (S.name session.now) parameters) }
        ensures handshake { IfOk result (λ h. IsHandshake h) }
        ensures ids { IfOk result (λ h. (h.side ≡ Client) × (h.local_id ≡ parameters.initial_source_connection_id) × (h.remote_id ≡ original_id) × (h.original_id ≡ original_id) × (h.retry_id ≡ None)) }
        ensures parts { IfOk result (λ h. (h.parameters ≡ parameters) × (h.token ≡ []) × (h.peer ≡ None) × (h.knows_peer ≡ false) × (h.is_validated ≡ true) × (h.bytes_received ≡ 0) × (h.bytes_sent ≡ 0)) }
        ensures space { IfOk result (λ h. IsSomeAnd h.space (IsUnused (hello_bytes (hello_of (greeting Client (S.name session.now) parameters))) Waits initial_rtt.0 now)) }
        ensures stats { IfOk result (λ h. h.stats ≡ first_stats initial_rtt.0) }
    {
        let mut hello = Vec::new(alloc);
        put_hello(&mut hello, Side::Client, session.server_name(), &parameters)?;
        let hello = Bytes::from_vec(hello)?;
        let space = InitialSpace::new(alloc, hello, HelloState::Waits, initial_rtt, now);
        Ok(Handshake {
            side: Side::Client,
            version: Version::One,
            local_id: parameters.initial_source_connection_id,
            remote_id: original_id,
            original_id,
            retry_id: None,
            token: Bytes::new(),
            parameters,
            space: Some(space),
            stats: InitialStats::new(initial_rtt),
            peer: None,
            knows_peer: false,
            is_validated: true,
            bytes_received: 0,
            bytes_sent: 0,
        })
    }

    /// The handshake of a server with a client that has this id, and whose first packet went to `original_id`, which its hello says
    /// (RFC 9000, section 7.3). It holds its hello until it is greeted. It takes no memory.
    pub fn server(
        alloc: Global,
        parameters: TransportParameters,
        remote_id: ConnectionId,
        original_id: ConnectionId,
        initial_rtt: Span,
        now: Moment,
    ) -> Handshake
        requires sayable { IsSayable (greeting Server [] parameters) }
        ensures handshake { IsHandshake result }
        ensures ids { (result.side ≡ Server) × (result.local_id ≡ parameters.initial_source_connection_id) × (result.remote_id ≡ remote_id) × (result.original_id ≡ original_id) × (result.retry_id ≡ None) }
        ensures parts { (result.parameters ≡ record parameters { original_destination_connection_id = Some original_id; retry_source_connection_id = None }) × (result.token ≡ []) × (result.peer ≡ None) × (result.knows_peer ≡ true) × (result.is_validated ≡ false) × (result.bytes_received ≡ 0) × (result.bytes_sent ≡ 0) }
        ensures space { IsSomeAnd result.space (IsUnused [] Held initial_rtt.0 now) }
        ensures stats { result.stats ≡ first_stats initial_rtt.0 }
    {
        // Its length is read for the bound alone.
        let _ = original_id.len();
        let mut parameters = parameters;
        parameters.original_destination_connection_id = Some(original_id);
        parameters.retry_source_connection_id = None;
        let space = InitialSpace::new(alloc, Bytes::new(), HelloState::Held, initial_rtt, now);
        Handshake {
            side: Side::Server,
            version: Version::One,
            local_id: parameters.initial_source_connection_id,
            remote_id,
            original_id,
            retry_id: None,
            token: Bytes::new(),
            parameters,
            space: Some(space),
            stats: InitialStats::new(initial_rtt),
            peer: None,
            knows_peer: true,
            is_validated: false,
            bytes_received: 0,
            bytes_sent: 0,
        }
    }

    /// At a server before its first datagram: the client's first packet went to `original_id`, was answered by a Retry packet that came
    /// from `retry_id` if there is one, and the address of the client was validated by a token, or wasn't.
    pub fn set_origin(
        &mut self,
        original_id: ConnectionId,
        retry_id: Option<ConnectionId>,
        is_validated: bool,
    )
        requires whole { IsHandshake self.old }
        requires server { self.old.side ≡ Server }
        requires first { (self.old.peer ≡ None) × (self.old.bytes_received ≡ 0) × (self.old.bytes_sent ≡ 0) }
        ensures origin { self.new ≡ with_origin self.old original_id retry_id is_validated }
        ensures whole { IsHandshake self.new }
    {
        // Their lengths are read for the bound alone.
        let _ = original_id.len();
        if let Some(id) = &retry_id {
            let _ = id.len();
        }
        self.original_id = original_id;
        self.is_validated = is_validated;
        self.parameters.original_destination_connection_id = Some(original_id);
        self.parameters.retry_source_connection_id = retry_id;
    }

    /// At a client before its first datagram: its packets bear this token, which an earlier connection was given (RFC 9000, section
    /// 8.1.3), until it takes a Retry packet.
    pub fn bear(&mut self, token: Bytes)
        requires whole { IsHandshake self.old }
        requires client { self.old.side ≡ Client }
        requires first { (self.old.retry_id ≡ None) × (self.old.bytes_received ≡ 0) × (self.old.bytes_sent ≡ 0) }
        requires short { length token ≤ 512 }
        ensures token { self.new ≡ record self.old { token = token } }
        ensures whole { IsHandshake self.new }
    {
        self.token = token;
    }

    /// A 1-RTT packet of the peer's was accepted, which only an end that was greeted does: the peer's address is validated (RFC 9000,
    /// section 8.1), and the Initial space isn't used any more: nothing of it is sent, lost or due (RFC 9001, section 4.9.1).
    pub fn discard_space(&mut self)
        requires whole { IsHandshake self.old }
        requires greeted { is_some self.old.peer ≡ true }
        ensures gone { self.new ≡ record (dropping self.old) { is_validated = true } }
        ensures whole { IsHandshake self.new }
    {
        self.leave_space();
        self.is_validated = true;
    }

    /// The connection is over: nothing of the handshake is sent or taken any more.
    pub fn drop_space(&mut self)
        requires { IsHandshake self.old }
        ensures gone { self.new ≡ dropping self.old }
        ensures whole { IsHandshake self.new }
    {
        self.leave_space();
    }

    // The Initial space isn't used any more: what was counted and measured in it is kept.
    pub(crate) fn leave_space(&mut self)
        ensures { self.new ≡ dropping self.old }
    {
        self.stats = self.stats();
        self.space = None;
    }

    /// What was counted and measured in the Initial space: so far, or when it was dropped.
    pub fn stats(&self) -> InitialStats
        ensures { result ≡ stats_in self.now.space self.now.stats }
    {
        match &self.space {
            Some(space) => space.stats(),
            None => self.stats,
        }
    }
}
