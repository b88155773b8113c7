ghost use Rattle.std.specs.Prelude.{◌≡◌, ◌⊎◌, ◌<◌, ℕ, List, [], Ok, true, OnErr, OnOk};
ghost use Rattle.std.specs.VecDeque.{deque_capacity, deque_len};
ghost use Rattle.qh_attempts.specs.Attempts.{IsPending};
ghost use Rattle.qh_quinn_end.specs.Receiving.{AreBrought, AreCut, AreSegments, HandlesNone, IsBrought, IsRefused, IsResponse, inbox};

use crate::connection_set::ConnectionSet;
use bytes::Bytes;
use qh_base::{Memory, Moment, Transmit};
use qh_endpoint::{DatagramEvent, Endpoint, Incoming};
use qh_kit::Kit;
use qh_runtime::{AsyncUdpSocket, IoFault, RecvMeta};
use std::alloc::Global;
use std::collections::VecDeque;
use std::net::{IpAddr, SocketAddr};

/// What an endpoint's sockets brought, until it is taken (quinn, `RecvState`).
#[derive(Drop)]
pub(crate) struct RecvState {
    alloc: Global,
    attempts: VecDeque<Incoming>,
    connections: ConnectionSet,
    responses_lost: u64,
}

impl RecvState {
    // Hands each datagram of a message to the endpoint, in their order. A message whose datagrams have no bytes has none.
    pub(crate) fn handle_message<K: Kit, X: AsyncUdpSocket>(
        &mut self,
        endpoint: &mut Endpoint<K>,
        socket: &mut X,
        is_closed: bool,
        now: Moment,
        meta: &RecvMeta,
        message: Bytes,
    ) -> Result<(), Memory>
        ensures none { meta.now.stride ≡ 0 → (result ≡ Ok tt) × (self.new ≡ self.old) × (endpoint.new ≡ endpoint.old) × (socket.new ≡ socket.old) }
        ensures brought { 0 < meta.now.stride → OnOk result ((datagrams : List (List ℕ)) × AreSegments meta.now.stride message datagrams × AreBrought (record { cid_len = K.G.cid_len; validates = K.G.validates; given = K.G.given; drawn = K.R.given; limits = K.T.limits; stands = K.T.stands; key = K.S.key; sealed = K.S.sealed }) (X.never_blocks socket.old) is_closed now (record { remote = meta.now.addr; local_ip = meta.now.dst_ip }) datagrams
            endpoint.old endpoint.new (record { departed = X.departed socket.old; faults = X.faults socket.old }) (record { departed = X.departed socket.new; faults = X.faults socket.new }) (inbox self.old) (inbox self.new)) }
        ensures cut { OnErr result (AreCut (record { cid_len = K.G.cid_len; validates = K.G.validates; given = K.G.given; drawn = K.R.given; limits = K.T.limits; stands = K.T.stands; key = K.S.key; sealed = K.S.sealed }) (X.never_blocks socket.old) is_closed now (record { remote = meta.now.addr; local_ip = meta.now.dst_ip }) meta.now.stride message
            endpoint.old endpoint.new (record { departed = X.departed socket.old; faults = X.faults socket.old }) (record { departed = X.departed socket.new; faults = X.faults socket.new }) (inbox self.old) (inbox self.new)) }
        ensures arrived { X.arrived socket.new ≡ X.arrived socket.old }
        ensures ready { X.never_blocks socket.old → X.never_blocks socket.new }
    {
        if meta.stride == 0 {
            return Ok(());
        }
        let mut left = message;
        while !left.is_empty() {
            let datagram = left.split_to(meta.stride.min(left.len()))?;
            self.handle_datagram(
                endpoint,
                socket,
                is_closed,
                now,
                meta.addr,
                meta.dst_ip,
                datagram,
            )?;
        }
        Ok(())
    }

    // Hands a datagram to the endpoint, and does with what it answers what is to be done. For want of memory before that nothing is done with it.
    pub(crate) fn handle_datagram<K: Kit, X: AsyncUdpSocket>(
        &mut self,
        endpoint: &mut Endpoint<K>,
        socket: &mut X,
        is_closed: bool,
        now: Moment,
        remote: SocketAddr,
        local_ip: Option<IpAddr>,
        datagram: Bytes,
    ) -> Result<(), Memory>
        ensures brought { OnOk result (IsBrought (record { cid_len = K.G.cid_len; validates = K.G.validates; given = K.G.given; drawn = K.R.given; limits = K.T.limits; stands = K.T.stands; key = K.S.key; sealed = K.S.sealed }) (X.never_blocks socket.old) is_closed now (record { remote = remote; local_ip = local_ip }) datagram
            endpoint.old endpoint.new (record { departed = X.departed socket.old; faults = X.faults socket.old }) (record { departed = X.departed socket.new; faults = X.faults socket.new }) (inbox self.old) (inbox self.new)) }
        ensures arrived { X.arrived socket.new ≡ X.arrived socket.old }
        ensures ready { X.never_blocks socket.old → X.never_blocks socket.new }
        ensures err { OnErr result ((inbox self.new ≡ inbox self.old) × (socket.new ≡ socket.old)) }
        ensures unhandled { OnErr result ((endpoint.new ≡ endpoint.old) ⊎ ((written : List ℕ) × HandlesNone (record { cid_len = K.G.cid_len; validates = K.G.validates; given = K.G.given; drawn = K.R.given; limits = K.T.limits; stands = K.T.stands; key = K.S.key; sealed = K.S.sealed }) (X.never_blocks socket.old) is_closed now (record { remote = remote; local_ip = local_ip }) datagram endpoint.old endpoint.new written)) }
    {
        self.reserve()?;
        let mut response = Vec::new(self.alloc);
        match endpoint.handle(now, remote, local_ip, datagram, &mut response)? {
            Some(DatagramEvent::ConnectionEvent(handle, event)) => {
                self.connections.send_reserved(handle, event);
            }
            Some(DatagramEvent::NewConnection(incoming)) => {
                if is_closed {
                    self.refuse(endpoint, socket, incoming, &mut response);
                } else {
                    self.attempts.push_back_reserved(incoming);
                }
            }
            Some(DatagramEvent::Response(transmit)) => self.respond(socket, &transmit, &response),
            None => {}
        }
        Ok(())
    }

    // Room for an attempt more, and for one event more of a connection.
    fn reserve(&mut self) -> Result<(), Memory>
        ensures ok { OnOk result ((deque_len self.new.attempts < deque_capacity self.new.attempts) × (self.new.connections.has_room ≡ true)) }
        ensures same { inbox self.new ≡ inbox self.old }
    {
        self.attempts.try_reserve(1)?;
        self.connections.reserve()
    }

    // Refuses an attempt, since the endpoint is closed.
    fn refuse<K: Kit, X: AsyncUdpSocket>(
        &mut self,
        endpoint: &mut Endpoint<K>,
        socket: &mut X,
        incoming: Incoming,
        response: &mut Vec<u8>,
    )
        requires pending { IsPending endpoint.old.incoming incoming.key }
        requires empty { response.old.items ≡ [] }
        ensures refused { IsRefused (record { cid_len = K.G.cid_len; validates = K.G.validates; given = K.G.given; drawn = K.R.given; limits = K.T.limits; stands = K.T.stands; key = K.S.key; sealed = K.S.sealed }) (X.never_blocks socket.old) incoming
            endpoint.old endpoint.new (record { departed = X.departed socket.old; faults = X.faults socket.old }) (record { departed = X.departed socket.new; faults = X.faults socket.new }) (inbox self.old) (inbox self.new) }
        ensures arrived { X.arrived socket.new ≡ X.arrived socket.old }
        ensures ready { X.never_blocks socket.old → X.never_blocks socket.new }
    {
        match endpoint.refuse(incoming, response) {
            Ok(transmit) => self.respond(socket, &transmit, response),
            Err(Memory) => self.responses_lost = self.responses_lost.saturating_add(1),
        }
    }

    // Hands a response to the socket. One that the socket doesn't take is dropped.
    fn respond<X: AsyncUdpSocket>(&mut self, socket: &mut X, transmit: &Transmit, response: &[u8])
        ensures response { IsResponse (X.never_blocks socket.old) transmit.now response.now (record { departed = X.departed socket.old; faults = X.faults socket.old }) (record { departed = X.departed socket.new; faults = X.faults socket.new }) (inbox self.old) (inbox self.new) }
        ensures arrived { X.arrived socket.new ≡ X.arrived socket.old }
        ensures ready { X.never_blocks socket.old → X.never_blocks socket.new }
        ensures rest { self.new ≡ record self.old { responses_lost = self.new.responses_lost } }
    {
        if let Err(IoFault::Memory) = socket.try_send(transmit, response) {
            self.responses_lost = self.responses_lost.saturating_add(1);
        }
    }
}
