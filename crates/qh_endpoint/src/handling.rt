ghost use Rattle.std.specs.Prelude.{◌≡◌, ◌≢◌, ◌↔◌, ℕ, ◌+◌, ◌-◌, ◌<◌, ◌≤◌, ◌^◌, [], List, length, Some, None, IfErr, IfOk, IsTrue, OnErr, OnOk};
ghost use Rattle.qh_attempts.specs.Attempts.{HasRoom};
ghost use Rattle.qh_base.specs.declared.time.Moment.{Moment as AMoment};
ghost use Rattle.qh_connections.specs.Ids.{IsSameSource};
ghost use Rattle.qh_endpoint.specs.Endpoint.{PlainEndpoint, numbers};
ghost use Rattle.qh_endpoint.specs.Handled.{IsHandled, IsKept, IsLetGo, IsNegotiated, IsReset, IsResetEarly, IsUnhandled, IsWaiting};
ghost use Rattle.qh_endpoint.specs.Ids.{IsFitting};
ghost use Rattle.qh_endpoint.specs.Stranger.{IsJudged};
ghost use Rattle.qh_endpoint.specs.declared.incoming.FirstPacket.{FirstPacket as AFirst};
ghost use Rattle.qh_endpoint.specs.declared.stranger.Stranger.TheVariants.{Attempt as AnAttempt};
ghost use Rattle.qh_kit.specs.declared.config.ServerConfig.{ServerConfig as AServer};
ghost use Rattle.qh_routes.specs.Routes.{IsRouted, keys_of};
ghost use Rattle.qh_stateless.specs.Header.{Header, IsFault, IsHeader};
ghost use Rattle.qh_stateless.specs.View.{destination_of, fault_of, header_of, is_first};
ghost use Rattle.qh_stateless.specs.Words.{HasDrawn, and_word};

use crate::closing::{error_of, reply};
use crate::incoming::{FirstPacket, Waiting};
use crate::judging::{MIN_INITIAL_SIZE, id_of};
use crate::stranger::Stranger;
use crate::{DatagramEvent, Endpoint, Incoming};
use bytes::Bytes;
use qh_attempts::{BufferLimits, KeptDatagram};
use qh_base::{ConnectionId, FourTuple, Memory, Moment};
use qh_conn::ConnectionEvent;
use qh_generator::ConnectionIdGenerator;
use qh_kit::{Kit, ServerConfig};
use qh_routes::{RouteDatagramTo, Routed};
use qh_stateless::{
    DatagramHeader, HeaderFault, put_stateless_reset, put_versions, read_header, stateless_resets,
};
use std::net::{IpAddr, SocketAddr};

// A datagram of at most so many bytes gets no stateless reset, which is shorter than its cause and has 21 bytes at least (RFC 9000, section 10.3).
const MAX_UNANSWERED: usize = 21;

impl<K: Kit> Endpoint<K> {
    /// What becomes of a datagram that came: its connection gets it, or an attempt keeps it, or it begins one, or is answered by what was written
    /// into the buffer, which is empty. None: nothing is to be done with it.
    pub fn handle(
        &mut self,
        now: Moment,
        remote: SocketAddr,
        local_ip: Option<IpAddr>,
        datagram: Bytes,
        buf: &mut Vec<u8>,
    ) -> Result<Option<DatagramEvent>, Memory>
        requires { buf.old.items ≡ [] }
        ensures handled { IfOk result (IsHandled {S = K.S} K.G.cid_len K.G.validates K.G.given K.R.given K.T.limits K.T.stands K.S.key K.S.sealed now (record { remote = remote; local_ip = local_ip }) datagram self.old self.new buf.new.items) }
        ensures err { OnErr result (IsUnhandled {S = K.S} K.G.cid_len K.G.validates K.G.given K.R.given K.T.limits K.T.stands K.S.key K.S.sealed now (record { remote = remote; local_ip = local_ip }) datagram self.old self.new buf.new.items) }
        ensures source { IsSameSource K.G.cid_len K.G.validates self.old.connections.ids self.new.connections.ids }
    {
        let addresses = FourTuple { remote, local_ip };
        let header = match self.read(&datagram) {
            Ok(header) => header,
            Err(fault) => match fault {
                HeaderFault::Malformed => return Ok(None),
                HeaderFault::UnsupportedVersion {
                    version,
                    destination,
                    source,
                } => {
                    let size = datagram.len();
                    return self.negotiate(&addresses, version, destination, source, size, buf);
                }
            },
        };
        let Some(target) = self.find(&addresses, &header, &datagram) else {
            let stranger = self.judge(now, remote, datagram.len(), &header)?;
            return self.answer(now, &addresses, stranger, datagram, buf);
        };
        match target {
            RouteDatagramTo::Incoming(key) => {
                self.keep(now, remote, key, datagram)?;
                Ok(None)
            }
            RouteDatagramTo::Connection(handle) => {
                let event = ConnectionEvent::Datagram {
                    now,
                    remote,
                    payload: datagram,
                };
                Ok(Some(DatagramEvent::ConnectionEvent(handle, event)))
            }
        }
    }

    // The header of the datagram's first packet.
    fn read<'a>(&self, datagram: &'a [u8]) -> Result<DatagramHeader<'a>, HeaderFault<'a>>
        ensures header { IfOk result (λ h. IsHeader (K.G.cid_len self.now.connections.ids) (numbers self.now.config) self.now.config.grease_quic_bit datagram.now (header_of h)) }
        ensures fitting { IfOk result (λ h. IsFitting (numbers self.now.config) (header_of h)) }
        ensures fault { IfErr result (λ f. IsFault (K.G.cid_len self.now.connections.ids) (numbers self.now.config) self.now.config.grease_quic_bit datagram.now (fault_of f)) }
    {
        let id_len = self.connections.ids().cid_len();
        read_header(
            datagram,
            id_len,
            &self.versions,
            self.config.grease_quic_bit,
        )
    }

    // Where the first route of a datagram leads. None if it has none.
    fn find(
        &self,
        addresses: &FourTuple,
        header: &DatagramHeader<'_>,
        datagram: &[u8],
    ) -> Option<RouteDatagramTo>
        requires { IsFitting (numbers self.now.config) (header_of header.now) }
        ensures { IsRouted self.now.connections.routes (keys_of addresses.now (destination_of (header_of header.now)) (is_first (header_of header.now)) datagram.now) result }
    {
        let packet = Routed {
            dst_cid: id_of(header.destination()),
            is_first: header.is_first(),
            data: datagram,
        };
        self.connections.route(addresses, &packet)
    }

    // The attempt that waits by this key keeps a datagram, if there is room for it.
    fn keep(
        &mut self,
        now: Moment,
        remote: SocketAddr,
        key: usize,
        payload: Bytes,
    ) -> Result<(), Memory>
        ensures ok { OnOk result (IsKept key now remote payload self.old self.new) }
        ensures had_room { OnErr result (HasRoom self.old.incoming key (length payload)) }
        ensures err { OnErr result (self.new ≡ self.old) }
        ensures ids { self.new.connections.ids ≡ self.old.connections.ids }
    {
        let datagram = KeptDatagram {
            now,
            remote,
            payload,
        };
        let _ = self.incoming.keep(key, datagram)?;
        Ok(())
    }

    // What is done with a datagram without a route, which was judged to be this.
    fn answer(
        &mut self,
        now: Moment,
        addresses: &FourTuple,
        stranger: Stranger,
        datagram: Bytes,
        buf: &mut Vec<u8>,
    ) -> Result<Option<DatagramEvent>, Memory>
        requires written { buf.old.items ≡ [] }
        requires numbered { (first : AFirst) (server : AServer) → stranger ≡ AnAttempt first server → self.old.incoming.numbered ≢ 2 ^ 64 - 1 }
        // The log of used tokens may have changed when the datagram was judged.
        ensures handled { IfOk result (λ event. (log : K.T) (h : Header)
            → IsHeader (K.G.cid_len self.old.connections.ids) (numbers self.old.config) self.old.config.grease_quic_bit datagram h
            → IsRouted self.old.connections.routes (keys_of addresses.now (destination_of h) (is_first h) datagram) None
            → IsJudged (K.G.cid_len self.old.connections.ids) (K.G.validates self.old.connections.ids) K.T.limits K.T.stands now addresses.now.remote (length datagram) (record self.old { token_log = log }) self.old h stranger
            → IsHandled {S = K.S} K.G.cid_len K.G.validates K.G.given K.R.given K.T.limits K.T.stands K.S.key K.S.sealed now addresses.now datagram
            (record self.old { token_log = log }) self.new buf.new.items event) }
        ensures err { OnErr result ((log : K.T) (h : Header)
            → IsHeader (K.G.cid_len self.old.connections.ids) (numbers self.old.config) self.old.config.grease_quic_bit datagram h
            → IsRouted self.old.connections.routes (keys_of addresses.now (destination_of h) (is_first h) datagram) None
            → IsJudged (K.G.cid_len self.old.connections.ids) (K.G.validates self.old.connections.ids) K.T.limits K.T.stands now addresses.now.remote (length datagram) (record self.old { token_log = log }) self.old h stranger
            → IsUnhandled {S = K.S} K.G.cid_len K.G.validates K.G.given K.R.given K.T.limits K.T.stands K.S.key K.S.sealed now addresses.now datagram
            (record self.old { token_log = log }) self.new buf.new.items) }
        ensures source { IsSameSource K.G.cid_len K.G.validates self.old.connections.ids self.new.connections.ids }
    {
        match stranger {
            Stranger::Ignored => Ok(None),
            Stranger::Unknown(id) => self.stateless_reset(now, addresses, &id, datagram.len(), buf),
            Stranger::Refused {
                destination,
                source,
                code,
            } => {
                let error = error_of(code);
                let transmit = self.initial_close(addresses, &destination, &source, &error, buf)?;
                Ok(Some(DatagramEvent::Response(transmit)))
            }
            Stranger::Attempt { first, server } => {
                let incoming = self.let_wait(now, addresses, first, server, datagram)?;
                Ok(Some(DatagramEvent::NewConnection(incoming)))
            }
        }
    }

    // A packet of version negotiation, at a server, for a datagram that is large enough.
    fn negotiate(
        &mut self,
        addresses: &FourTuple,
        version: u32,
        destination: &[u8],
        source: &[u8],
        size: usize,
        buf: &mut Vec<u8>,
    ) -> Result<Option<DatagramEvent>, Memory>
        requires destination { length destination.now ≤ 20 }
        requires source { length source.now ≤ 20 }
        requires written { buf.old.items ≡ [] }
        ensures negotiated { IfOk result (λ event. (now : AMoment) (datagram : List ℕ) → length datagram ≡ size
            → IsNegotiated {S = K.S} K.G.cid_len K.G.validates K.G.given K.R.given K.T.limits K.T.stands K.S.key K.S.sealed now addresses.now datagram version destination.now source.now self.old self.new buf.new.items event) }
        ensures wanting { OnErr result ((server : AServer) × (self.old.server ≡ Some server) × (1200 ≤ size)) }
        ensures drawn { OnErr result ((word : ℕ) × (K.R.given self.new.words ≡ and_word (K.R.given self.old.words) word)) }
        ensures err { OnErr result (self.new ≡ record self.old { words = self.new.words }) }
        ensures unwritten { OnErr result (buf.new.items ≡ []) }
        ensures ids { self.new.connections.ids ≡ self.old.connections.ids }
    {
        if self.server.is_none() || size < MIN_INITIAL_SIZE {
            return Ok(None);
        }
        put_versions(
            &mut self.words,
            version,
            destination,
            source,
            &self.versions,
            buf,
        )?;
        Ok(Some(DatagramEvent::Response(reply(addresses, buf.len()))))
    }

    // A stateless reset, unless one was sent too short a time ago, or the datagram is too short for one.
    fn stateless_reset(
        &mut self,
        now: Moment,
        addresses: &FourTuple,
        id: &ConnectionId,
        size: usize,
        buf: &mut Vec<u8>,
    ) -> Result<Option<DatagramEvent>, Memory>
        requires { buf.old.items ≡ [] }
        ensures reset { IfOk result (λ event. (datagram : List ℕ) → length datagram ≡ size
            → IsReset {S = K.S} K.G.cid_len K.G.validates K.G.given K.R.given K.T.limits K.T.stands K.S.key K.S.sealed now addresses.now datagram id.now self.old self.new buf.new.items event) }
        ensures late { OnErr result (IsResetEarly {S = K.S} K.G.cid_len K.G.validates K.G.given K.R.given K.T.limits K.T.stands K.S.key K.S.sealed now addresses.now [] self.old → ⊥) }
        ensures long { OnErr result (21 < size) }
        ensures drawn { OnErr result (HasDrawn (size - 16) (K.R.given self.old.words) (K.R.given self.new.words)) }
        ensures err { OnErr result (self.new ≡ record self.old { words = self.new.words }) }
        ensures unwritten { OnErr result (buf.new.items ≡ []) }
        ensures ids { self.new.connections.ids ≡ self.old.connections.ids }
    {
        stateless_resets();
        if self.is_reset_early(now) || size <= MAX_UNANSWERED {
            return Ok(None);
        }
        // It is appended, since the datagram is long enough.
        let _ = put_stateless_reset(&mut self.words, size, id, buf)?;
        self.last_reset = Some(now);
        Ok(Some(DatagramEvent::Response(reply(addresses, buf.len()))))
    }

    // Whether a stateless reset was sent so short a time ago that no further one may be.
    fn is_reset_early(&self, now: Moment) -> bool
        ensures { IsTrue result ↔ ((last : AMoment) × (self.now.last_reset ≡ Some last) × (now.0 < last.0 + self.now.config.min_reset_interval.0)) }
    {
        let Some(last) = self.last_reset else {
            return false;
        };
        match last.0.checked_add(self.config.min_reset_interval.0) {
            Some(next) => now.0 < next,
            None => true,
        }
    }

    // An attempt waits from now on.
    fn let_wait(
        &mut self,
        now: Moment,
        addresses: &FourTuple,
        first: FirstPacket,
        server: ServerConfig,
        datagram: Bytes,
    ) -> Result<Incoming, Memory>
        requires { self.old.incoming.numbered ≢ 2 ^ 64 - 1 }
        ensures waiting { IfOk result (IsWaiting {S = K.S} K.G.cid_len K.G.validates K.G.given K.R.given K.T.limits K.T.stands K.S.key K.S.sealed now addresses.now datagram first server self.old self.new) }
        ensures err { OnErr result (IsLetGo self.old self.new) }
        ensures ids { self.new.connections.ids ≡ self.old.connections.ids }
    {
        let limits = BufferLimits {
            incoming_buffer_size: server.incoming_buffer_size,
            incoming_buffer_size_total: server.incoming_buffer_size_total,
        };
        let waiting = Waiting {
            server,
            received_at: now,
            addresses: *addresses,
            first,
            datagram,
        };
        let key = self.incoming.insert(limits, waiting)?.unwrap();
        let led = self
            .connections
            .insert_initial_incoming(first.destination, key.key);
        if led.is_err() {
            let _ = self.incoming.take(key);
            return Err(Memory);
        }
        Ok(Incoming {
            key,
            addresses: *addresses,
            token: first.token,
        })
    }
}
