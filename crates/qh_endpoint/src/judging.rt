ghost use Rattle.std.specs.Prelude.{◌≡◌, ℕ, ◌↔◌, ◌/◌, ◌%◌, ◌≤◌, Contains, IfOk, IfSome, IsTrue, None, OnErr, Some, length};
ghost use Rattle.std.specs.declared.net.socket_addr.SocketAddr.{SocketAddr as AnAddress};
ghost use Rattle.qh_base.specs.declared.time.Moment.{Moment as AMoment};
ghost use Rattle.qh_endpoint.specs.Endpoint.{numbers};
ghost use Rattle.qh_endpoint.specs.Ids.{IsFitting};
ghost use Rattle.qh_endpoint.specs.Stranger.{CannotWait, IsFirstId, IsJudged, IsUnjudged};
ghost use Rattle.qh_packet.specs.Version.{number_of};
ghost use Rattle.qh_packet.specs.declared.version.Version.{Version as AVersion};
ghost use Rattle.qh_stateless.specs.Header.{Initial, Short};
ghost use Rattle.qh_stateless.specs.View.{header_of};

use crate::Endpoint;
use crate::incoming::FirstPacket;
use crate::stranger::Stranger;
use qh_base::{ConnectionId, Memory, Moment, TransportErrorCode};
use qh_generator::ConnectionIdGenerator;
use qh_incoming_token::{IncomingToken, IncomingTokenFault, TokenLifetimes};
use qh_kit::{Kit, ServerConfig};
use qh_packet::Version;
use qh_stateless::DatagramHeader;
use std::net::SocketAddr;

// The least length of a datagram with an Initial packet (RFC 9000, section 14.1).
pub(crate) const MIN_INITIAL_SIZE: usize = 1_200;

// The least length of the id to which a client's first packet goes (RFC 9000, section 7.2).
const MIN_FIRST_ID: usize = 8;

impl<K: Kit> Endpoint<K> {
    /// What a datagram of so many bytes is by its first header, where nothing has its route.
    pub(crate) fn judge(
        &mut self,
        now: Moment,
        remote: SocketAddr,
        size: usize,
        header: &DatagramHeader<'_>,
    ) -> Result<Stranger, Memory>
        requires { IsFitting (numbers self.old.config) (header_of header.now) }
        ensures judged { IfOk result (IsJudged (K.G.cid_len self.old.connections.ids) (K.G.validates self.old.connections.ids) K.T.limits K.T.stands now remote size self.old self.new (header_of header.now)) }
        ensures err { OnErr result (IsUnjudged (K.G.cid_len self.old.connections.ids) (K.G.validates self.old.connections.ids) K.T.limits K.T.stands now remote size self.old self.new (header_of header.now)) }
        ensures ids { self.new.connections.ids ≡ self.old.connections.ids }
    {
        match *header {
            DatagramHeader::Initial {
                version,
                first,
                destination,
                source,
                token,
            } => self.judge_initial(
                now,
                remote,
                size,
                version,
                first,
                destination,
                source,
                token,
            ),
            DatagramHeader::ZeroRtt { .. } => Ok(Stranger::Ignored),
            DatagramHeader::Long { .. } => Ok(Stranger::Ignored),
            DatagramHeader::Short { destination, .. } => Ok(self.judge_short(id_of(destination))),
        }
    }

    // What a datagram with a short header to this id is.
    fn judge_short(&self, id: ConnectionId) -> Stranger
        ensures { (now : AMoment) (remote : AnAddress) (size first : ℕ) → IsJudged (K.G.cid_len self.now.connections.ids) (K.G.validates self.now.connections.ids) K.T.limits K.T.stands now remote size self.now self.now (Short first id) result }
    {
        if id.is_empty() || !self.connections.ids().validate(&id) {
            return Stranger::Ignored;
        }
        Stranger::Unknown(id)
    }

    // What a datagram that begins with an Initial packet is.
    fn judge_initial(
        &mut self,
        now: Moment,
        remote: SocketAddr,
        size: usize,
        version: u32,
        first: u8,
        destination: &[u8],
        source: &[u8],
        token: &[u8],
    ) -> Result<Stranger, Memory>
        requires destination { length destination.now ≤ 20 }
        requires source { length source.now ≤ 20 }
        requires listed { Contains (numbers self.old.config) version }
        ensures judged { IfOk result (λ stranger. IsJudged (K.G.cid_len self.old.connections.ids) (K.G.validates self.old.connections.ids) K.T.limits K.T.stands now remote size self.old self.new (Initial version first destination.now source.now token.now) stranger) }
        ensures err { OnErr result (IsUnjudged (K.G.cid_len self.old.connections.ids) (K.G.validates self.old.connections.ids) K.T.limits K.T.stands now remote size self.old self.new (Initial version first destination.now source.now token.now)) }
        ensures ids { self.new.connections.ids ≡ self.old.connections.ids }
    {
        let id = id_of(destination);
        let Some(server) = self.server else {
            return Ok(Stranger::Unknown(id));
        };
        if self.cannot_wait(&server, size) {
            return Ok(Stranger::Ignored);
        }
        if !self.is_first_id(destination, token) {
            return Ok(Stranger::Refused {
                destination: id,
                source: id_of(source),
                code: TransportErrorCode::PROTOCOL_VIOLATION,
            });
        }
        if first / 4 % 4 != 0 {
            return Ok(Stranger::Ignored);
        }
        let version = version_of(version).unwrap();
        self.judge_token(now, remote, version, id, id_of(source), token, server)
    }

    // What a datagram is that begins with an Initial packet with this token, if its attempt can wait.
    fn judge_token(
        &mut self,
        now: Moment,
        remote: SocketAddr,
        version: Version,
        destination: ConnectionId,
        source: ConnectionId,
        token: &[u8],
        server: ServerConfig,
    ) -> Result<Stranger, Memory>
        ensures judged { IfOk result (λ stranger. (first size : ℕ) → self.old.server ≡ Some server
            → (CannotWait (K.G.cid_len self.old.connections.ids) (K.G.validates self.old.connections.ids) K.T.limits K.T.stands self.old server size → ⊥)
            → IsFirstId (K.G.cid_len self.old.connections.ids) destination token.now → first / 4 % 4 ≡ 0
            → IsJudged (K.G.cid_len self.old.connections.ids) (K.G.validates self.old.connections.ids) K.T.limits K.T.stands now remote size self.old self.new (Initial (number_of version) first destination source token.now) stranger) }
        ensures err { OnErr result ((first size : ℕ) → self.old.server ≡ Some server
            → (CannotWait (K.G.cid_len self.old.connections.ids) (K.G.validates self.old.connections.ids) K.T.limits K.T.stands self.old server size → ⊥)
            → IsFirstId (K.G.cid_len self.old.connections.ids) destination token.now → first / 4 % 4 ≡ 0
            → IsUnjudged (K.G.cid_len self.old.connections.ids) (K.G.validates self.old.connections.ids) K.T.limits K.T.stands now remote size self.old self.new (Initial (number_of version) first destination source token.now)) }
        ensures ids { self.new.connections.ids ≡ self.old.connections.ids }
    {
        let lifetimes = TokenLifetimes {
            retry: server.retry_token_lifetime,
            validation: server.validation_lifetime,
        };
        let taken = IncomingToken::from_header(
            self.alloc,
            token,
            destination,
            remote,
            now,
            &lifetimes,
            &mut self.token_log,
        );
        match taken {
            Ok(token) => Ok(Stranger::Attempt {
                first: FirstPacket {
                    version,
                    destination,
                    source,
                    token,
                },
                server,
            }),
            Err(fault) => match fault {
                IncomingTokenFault::InvalidRetryToken => Ok(Stranger::Refused {
                    destination,
                    source,
                    code: TransportErrorCode::INVALID_TOKEN,
                }),
                IncomingTokenFault::Memory => Err(Memory),
            },
        }
    }

    // Whether an attempt with a datagram of so many bytes can't be let wait.
    fn cannot_wait(&self, server: &ServerConfig, size: usize) -> bool
        ensures { IsTrue result ↔ CannotWait (K.G.cid_len self.now.connections.ids) (K.G.validates self.now.connections.ids) K.T.limits K.T.stands self.now server.now size }
    {
        // Each number has 64 bits.
        self.incoming.are_attempts();
        size < MIN_INITIAL_SIZE
            || self.connections.ids_exhausted()
            || self.incoming.len() >= server.max_incoming
            || !self.incoming.has_next_number()
    }

    // Whether a client's first packet may go to this id.
    fn is_first_id(&self, destination: &[u8], token: &[u8]) -> bool
        ensures { IsTrue result ↔ IsFirstId (K.G.cid_len self.now.connections.ids) destination.now token.now }
    {
        destination.len() >= MIN_FIRST_ID
            || !token.is_empty() && destination.len() == self.connections.ids().cid_len()
    }
}

// An id that a header has.
pub(crate) fn id_of(bytes: &[u8]) -> ConnectionId
    requires { length bytes.now ≤ 20 }
    ensures { result ≡ bytes.now }
{
    ConnectionId::new(bytes).unwrap()
}

// The version of this number, if there is one.
fn version_of(number: u32) -> Option<Version>
    ensures found { IfSome result (λ version. number_of version ≡ number) }
    ensures none { result ≡ None → (version : AVersion) → number_of version ≡ number → ⊥ }
{
    match number {
        1 => Some(Version::One),
        _ => None,
    }
}
