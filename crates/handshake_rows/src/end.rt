//! One end of a handshake.
ghost use Rattle.std.specs.Prelude.{◌≡◌, ◌≤◌, ℕ, List, [], length, None, true, IfOk, IfSome, OnOk};
ghost use Rattle.qh_handshake.specs.Handshake.{IsHandshake};
ghost use Rattle.qh_hello.specs.Greetings.{greeting};
ghost use Rattle.qh_spec.specs.Hello.{IsSayable};
ghost use Rattle.qh_spec.specs.declared.sides.Side.TheVariants.{Client, Server};

use crate::say::{MILLISECOND, put_named};
use bytes::Bytes;
use qh_base::{
    ConnectionClose, ConnectionError, ConnectionId, Memory, Moment, Reason, Side, Space, Span,
    TransportErrorCode, VarInt,
};
use qh_handshake::{Handshake, HelloState, InitialSpace};
use qh_hello::TransportParameters;
use qh_packet::{PlainSession, Session};
use row_text::{RowFault, put_hex_number, put_text};
use std::alloc::Global;
use std::marker::Model;
use std::mem;

/// The id that a client chooses for its server.
pub(crate) const ORIGINAL: &[u8] = &[0xd0, 0xd1, 0xd2, 0xd3, 0xd4, 0xd5, 0xd6, 0xd7];

const CLIENT: &[u8] = &[0xc1, 0xc2, 0xc3, 0xc4];

const SERVER: &[u8] = &[0x51, 0x52, 0x53, 0x54, 0x55];

// The round-trip time that is assumed at first: 100 ms.
const INITIAL_RTT: Span = Span(100_000_000);

const START: Moment = Moment(0);

/// An end: its handshake, and the keys of its packets.
#[derive(Drop)]
pub(crate) struct End {
    handshake: Handshake,
    session: PlainSession,
}

impl Model for End {
    ghost use Rattle.qh_handshake.specs.Handshake.{IsHandshake};
    ghost use Rattle.qh_handshake.specs.declared.handshake.Handshake.{Handshake};

    ghost Value = { Handshake };

    ghost view = { λ e. e.handshake };

    ghost invariant = { λ e. IsHandshake e.handshake };
}

impl End {
    /// A client that asks for a name.
    pub(crate) fn client(alloc: Global, name: &[u8]) -> Result<End, RowFault> {
        if name.len() > 255 {
            return Err(RowFault::Form);
        }
        let session = session(name);
        Ok(End {
            handshake: client(alloc, &session)?,
            session,
        })
    }

    /// A server whose client it is.
    pub(crate) fn server(alloc: Global) -> End {
        End {
            handshake: server(alloc),
            session: session(b""),
        }
    }

    /// Appends its next datagram, or with a code one by which it closes, if there is one. Whether there is. After want of memory the
    /// end begins anew.
    pub(crate) fn send(
        &mut self,
        alloc: Global,
        now: Moment,
        code: Option<u64>,
        buf: &mut Vec<u8>,
    ) -> Result<bool, RowFault> {
        let mut handshake = mem::replace(&mut self.handshake, server(alloc));
        let is_sent = match code {
            Some(code) => close_by(&mut handshake, alloc, &self.session, code, buf)?,
            None => poll(&mut handshake, alloc, &self.session, now, buf)?,
        };
        self.handshake = handshake;
        Ok(is_sent)
    }

    /// A datagram comes: what comes of it.
    pub(crate) fn hand_in(
        &mut self,
        alloc: Global,
        now: Moment,
        datagram: &[u8],
        out: &mut Vec<u8>,
    ) -> Result<(), RowFault> {
        let was_greeted = self.handshake.peer.is_some();
        match take(&mut self.handshake, alloc, &mut self.session, now, datagram) {
            Ok(rest) => {
                let is_new = self.handshake.peer.is_some() && !was_greeted;
                Ok(put_taken(out, is_new, rest)?)
            }
            Err(error) => put_error(out, &error),
        }
    }

    /// Whether a datagram brings its peer's close.
    pub(crate) fn brings_close(&self, datagram: &[u8]) -> bool {
        self.handshake.brings_close(&self.session, datagram)
    }

    /// The tag of a packet of its own with this number.
    pub(crate) fn tag(&self, number: u64) -> [u8; 32] {
        self.session
            .tag(self.handshake.side, Space::Initial, number)
    }

    /// The destination id of its packets.
    pub(crate) fn peer_id(&self) -> ConnectionId {
        self.handshake.remote_id
    }

    /// The keys of its packets.
    pub(crate) fn session(&self) -> &PlainSession {
        &self.session
    }

    /// At a server: the client was sent on by a Retry packet from this id.
    pub(crate) fn set_origin(&mut self, retry_id: ConnectionId, is_validated: bool) {
        if self.handshake.peer.is_some() || !is_first(&self.handshake) {
            return;
        }
        if let Side::Server = self.handshake.side {
            let original_id = self.handshake.original_id;
            self.handshake
                .set_origin(original_id, Some(retry_id), is_validated);
            self.session.rekey(retry_id);
        }
    }

    /// At a client: its packets bear a token.
    pub(crate) fn bear(&mut self, token: Bytes) -> Result<(), RowFault> {
        match self.handshake.side {
            Side::Client
                if token.len() <= 512
                    && self.handshake.retry_id.is_none()
                    && is_first(&self.handshake) => {
                self.handshake.bear(token);
                Ok(())
            }
            _ => Err(RowFault::Form),
        }
    }

    /// A 1-RTT packet was accepted.
    pub(crate) fn discard(&mut self) {
        if self.handshake.peer.is_some() {
            self.handshake.discard_space();
        }
    }

    /// What is due is done.
    pub(crate) fn pass(&mut self, now: Moment) {
        pass(&mut self.handshake, now);
    }

    /// When something is due.
    pub(crate) fn due(&self) -> Option<Moment> {
        due(&self.handshake)
    }

    /// Appends how far it is.
    pub(crate) fn put_state(&self, out: &mut Vec<u8>) -> Result<(), Memory> {
        put_text(out, hello_state(&self.handshake.space))?;
        put_text(
            out,
            match self.handshake.peer {
                Some(_) => " greeted",
                None => " ungreeted",
            },
        )?;
        put_named(out, " received ", self.handshake.bytes_received)?;
        put_named(out, " sent ", self.handshake.bytes_sent)?;
        match &self.handshake.space {
            Some(space) => put_counts(out, space),
            None => Ok(()),
        }
    }

    /// Appends what was counted and measured in its Initial space.
    pub(crate) fn put_stats(&self, out: &mut Vec<u8>) -> Result<(), Memory> {
        let stats = self.handshake.stats();
        put_named(out, "lost ", stats.packets_lost)?;
        put_named(out, " probes ", stats.probes)?;
        put_named(out, " rtt ", stats.rtt.get().0 / MILLISECOND)
    }
}

// No datagram came or went.
fn is_first(handshake: &Handshake) -> bool
    ensures { result ≡ true → (handshake.now.bytes_received ≡ 0) × (handshake.now.bytes_sent ≡ 0) }
{
    handshake.bytes_received == 0 && handshake.bytes_sent == 0
}

fn id(bytes: &[u8]) -> ConnectionId
    requires { length bytes.now ≤ 20 }
    ensures { length result ≤ 20 }
{
    ConnectionId::new(bytes).unwrap()
}

// What an end with this id says.
fn parameters(id: ConnectionId, original: Option<ConnectionId>) -> TransportParameters
    requires id { length id ≤ 20 }
    requires original { IfSome original (λ original. length original ≤ 20) }
    ensures client { (name : List ℕ) → original ≡ None → length name ≤ 255 → IsSayable (greeting Client name result) }
    ensures server { IsSayable (greeting Server [] result) }
{
    let none = VarInt::from_u32(0);
    TransportParameters {
        original_destination_connection_id: original,
        max_idle_timeout: none,
        stateless_reset_token: None,
        initial_max_data: none,
        initial_max_stream_data_bidi_local: none,
        initial_max_stream_data_bidi_remote: none,
        initial_max_stream_data_uni: none,
        initial_max_streams_bidi: none,
        initial_max_streams_uni: none,
        active_connection_id_limit: VarInt::from_u32(2),
        initial_source_connection_id: id,
        retry_source_connection_id: None,
        max_datagram_frame_size: None,
    }
}

fn session(name: &[u8]) -> PlainSession
    requires { length name.now ≤ 255 }
{
    PlainSession::new(id(ORIGINAL), name).unwrap()
}

fn client(alloc: Global, session: &PlainSession) -> Result<Handshake, Memory>
    ensures { IfOk result IsHandshake }
{
    // Its name is read for the bound alone.
    let _ = session.server_name();
    let parameters = parameters(id(CLIENT), None);
    Handshake::client(alloc, session, parameters, id(ORIGINAL), INITIAL_RTT, START)
}

fn server(alloc: Global) -> Handshake
    ensures { IsHandshake result }
{
    let original = id(ORIGINAL);
    let parameters = parameters(id(SERVER), Some(original));
    Handshake::server(alloc, parameters, id(CLIENT), original, INITIAL_RTT, START)
}

// Whether a datagram was appended.
fn poll(
    handshake: &mut Handshake,
    alloc: Global,
    session: &PlainSession,
    now: Moment,
    buf: &mut Vec<u8>,
) -> Result<bool, Memory>
    requires { IsHandshake handshake.old }
    ensures { OnOk result (IsHandshake handshake.new) }
{
    let sent = handshake.poll_transmit(alloc, session, now, buf)?;
    Ok(sent.is_some())
}

// Whether one was that closes.
fn close_by(
    handshake: &mut Handshake,
    alloc: Global,
    session: &PlainSession,
    code: u64,
    buf: &mut Vec<u8>,
) -> Result<bool, Memory>
    requires { IsHandshake handshake.old }
    ensures { OnOk result (IsHandshake handshake.new) }
{
    let close = ConnectionClose {
        code: TransportErrorCode(code),
        frame: Some(6),
        reason: Reason::of(b"why"),
    };
    let sent = handshake.transmit_close(alloc, session, &close, buf)?;
    Ok(sent.is_some())
}

// Answers how many bytes are left behind the Initial packets.
fn take(
    handshake: &mut Handshake,
    alloc: Global,
    session: &mut PlainSession,
    now: Moment,
    datagram: &[u8],
) -> Result<usize, ConnectionError>
    requires { IsHandshake handshake.old }
    ensures { IsHandshake handshake.new }
{
    let rest = handshake.handle_datagram(alloc, session, now, datagram)?;
    Ok(rest.len())
}

fn pass(handshake: &mut Handshake, now: Moment)
    requires { IsHandshake handshake.old }
    ensures { IsHandshake handshake.new }
{
    handshake.handle_timeout(now);
}

fn due(handshake: &Handshake) -> Option<Moment>
    requires { IsHandshake handshake.now }
{
    handshake.poll_timeout()
}

// Appends what came of a datagram that is no fault.
fn put_taken(out: &mut Vec<u8>, is_greeted: bool, rest: usize) -> Result<(), Memory> {
    put_text(out, if is_greeted { "greeted" } else { "ok" })?;
    if rest > 0 {
        put_named(out, " rest ", rest as u64)?;
    }
    Ok(())
}

fn put_error(out: &mut Vec<u8>, error: &ConnectionError) -> Result<(), RowFault> {
    match error {
        ConnectionError::VersionMismatch => put_text(out, "mismatch")?,
        ConnectionError::TransportError(error) => put_code(out, "error ", error.code, error.frame)?,
        ConnectionError::ConnectionClosed(close) => {
            put_code(out, "closed ", close.code, close.frame)?;
        }
        _ => return Err(RowFault::Memory),
    }
    Ok(())
}

// Appends a code, and the type of a frame.
fn put_code(
    out: &mut Vec<u8>,
    name: &str,
    code: TransportErrorCode,
    frame: Option<u64>,
) -> Result<(), Memory> {
    put_text(out, name)?;
    put_hex_number(out, code.0)?;
    match frame {
        Some(kind) => {
            put_text(out, " frame ")?;
            put_hex_number(out, kind)
        }
        None => Ok(()),
    }
}

fn hello_state(space: &Option<InitialSpace>) -> &'static str {
    match space {
        None => "gone",
        Some(space) => match space.state {
            HelloState::Held => "held",
            HelloState::Waits => "waits",
            HelloState::Out => "out",
            HelloState::Acked => "acked",
        },
    }
}

fn put_counts(out: &mut Vec<u8>, space: &InitialSpace) -> Result<(), Memory> {
    put_named(out, " next ", space.next_number)?;
    put_named(out, " expects ", space.dedup.next_expected())?;
    put_named(out, " crypto ", space.crypto.bytes().len() as u64)?;
    put_named(out, " lost ", space.packets_lost)?;
    put_named(out, " probes ", space.probes_sent)
}
