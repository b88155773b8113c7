//! The calls of an end, without their contracts, of which nothing is used here.
use bytes::Bytes;
use qh_base::{
    ConnectionError, ConnectionId, Dir, FourTuple, Memory, Moment, Reason, Side, Span, StreamId,
    Transmit, VarInt,
};
use qh_buffers::Chunk;
use qh_core::{
    ConnConfig, Connection, ConnectionEvent, ConnectionStats, ControllerMetrics, EndpointEvent,
    Event, PlainSession, TakeFault,
};
use qh_streams::{ClosedStream, FinishFault, WriteFault, Written};
use std::alloc::Global;

/// What an application calls of the streams of an end, with a connection or without one.
pub(crate) trait StreamCalls {
    fn open(&mut self, alloc: Global, dir: Dir) -> Result<Option<StreamId>, Memory>;

    fn accept(&mut self, dir: Dir) -> Option<StreamId>;

    fn write(&mut self, alloc: Global, id: StreamId, payload: &[u8]) -> Result<usize, WriteFault>;

    fn write_chunks(
        &mut self,
        alloc: Global,
        id: StreamId,
        chunks: &mut [Bytes],
    ) -> Result<Written, WriteFault>;

    fn finish(&mut self, id: StreamId) -> Result<(), FinishFault>;

    fn reset(&mut self, id: StreamId, code: VarInt) -> Result<(), ClosedStream>;

    fn stopped(&self, id: StreamId) -> Result<Option<VarInt>, ClosedStream>;

    fn priority(&self, id: StreamId) -> Result<i32, ClosedStream>;

    fn set_priority(&mut self, id: StreamId, priority: i32) -> Result<(), ClosedStream>;

    fn read(
        &mut self,
        id: StreamId,
        max_length: usize,
        ordered: bool,
    ) -> Result<Option<Chunk>, TakeFault>;

    fn stop(&mut self, id: StreamId, code: VarInt) -> Result<(), ClosedStream>;

    fn received_reset(&mut self, id: StreamId) -> Result<Option<VarInt>, ClosedStream>;

    fn set_max_concurrent(&mut self, dir: Dir, count: VarInt);

    fn set_send_window(&mut self, bytes: u64);

    fn set_receive_window(&mut self, bytes: VarInt);

    fn poll(&mut self) -> Option<Event>;
}

/// An end of a connection.
#[derive(Drop)]
pub(crate) struct ConnectionEnd {
    connection: Connection<PlainSession>,
}

impl ConnectionEnd {
    pub(crate) fn new(
        alloc: Global,
        config: ConnConfig,
        side: Side,
        session: PlainSession,
        local: ConnectionId,
        remote: ConnectionId,
        addresses: FourTuple,
    ) -> ConnectionEnd {
        ConnectionEnd {
            connection: Connection::new(
                alloc,
                config,
                side,
                session,
                local,
                remote,
                addresses,
                Moment(0),
            ),
        }
    }

    /// The connection itself.
    pub(crate) fn connection(&mut self) -> &mut Connection<PlainSession> {
        &mut self.connection
    }

    pub(crate) fn handle_event(&mut self, event: ConnectionEvent) -> Result<(), Memory> {
        self.connection.handle_event(event)
    }

    pub(crate) fn handle_timeout(&mut self, now: Moment) {
        self.connection.handle_timeout(now);
    }

    pub(crate) fn poll_timeout(&self) -> Option<Moment> {
        self.connection.poll_timeout()
    }

    pub(crate) fn poll_transmit(
        &mut self,
        now: Moment,
        buf: &mut Vec<u8>,
    ) -> Result<Option<Transmit>, Memory> {
        self.connection.poll_transmit(now, buf)
    }

    pub(crate) fn poll_endpoint_events(&mut self) -> Option<EndpointEvent> {
        self.connection.poll_endpoint_events()
    }

    pub(crate) fn close(&mut self, now: Moment, code: VarInt, reason: Reason) {
        self.connection.close(now, code, reason);
    }

    pub(crate) fn stats(&self) -> ConnectionStats {
        self.connection.stats()
    }

    pub(crate) fn rtt(&self) -> Span {
        self.connection.rtt()
    }

    pub(crate) fn min_rtt(&self) -> Span {
        self.connection.min_rtt()
    }

    pub(crate) fn congestion_state(&self) -> ControllerMetrics {
        self.connection.congestion_state()
    }

    pub(crate) fn close_reason(&self) -> Option<ConnectionError> {
        self.connection.close_reason()
    }

    pub(crate) fn is_closed(&self) -> bool {
        self.connection.is_closed()
    }

    pub(crate) fn is_drained(&self) -> bool {
        self.connection.is_drained()
    }
}

impl StreamCalls for ConnectionEnd {
    fn open(&mut self, _alloc: Global, dir: Dir) -> Result<Option<StreamId>, Memory> {
        self.connection.open(dir)
    }

    fn accept(&mut self, dir: Dir) -> Option<StreamId> {
        self.connection.accept(dir)
    }

    fn write(&mut self, _alloc: Global, id: StreamId, payload: &[u8]) -> Result<usize, WriteFault> {
        self.connection.write(id, payload)
    }

    fn write_chunks(
        &mut self,
        _alloc: Global,
        id: StreamId,
        chunks: &mut [Bytes],
    ) -> Result<Written, WriteFault> {
        self.connection.write_chunks(id, chunks)
    }

    fn finish(&mut self, id: StreamId) -> Result<(), FinishFault> {
        self.connection.finish(id)
    }

    fn reset(&mut self, id: StreamId, code: VarInt) -> Result<(), ClosedStream> {
        self.connection.reset(id, code)
    }

    fn stopped(&self, id: StreamId) -> Result<Option<VarInt>, ClosedStream> {
        self.connection.stopped(id)
    }

    fn priority(&self, id: StreamId) -> Result<i32, ClosedStream> {
        self.connection.priority(id)
    }

    fn set_priority(&mut self, id: StreamId, priority: i32) -> Result<(), ClosedStream> {
        self.connection.set_priority(id, priority)
    }

    fn read(
        &mut self,
        id: StreamId,
        max_length: usize,
        ordered: bool,
    ) -> Result<Option<Chunk>, TakeFault> {
        self.connection.read(id, max_length, ordered)
    }

    fn stop(&mut self, id: StreamId, code: VarInt) -> Result<(), ClosedStream> {
        self.connection.stop(id, code)
    }

    fn received_reset(&mut self, id: StreamId) -> Result<Option<VarInt>, ClosedStream> {
        self.connection.received_reset(id)
    }

    fn set_max_concurrent(&mut self, dir: Dir, count: VarInt) {
        self.connection.set_max_concurrent_streams(dir, count);
    }

    fn set_send_window(&mut self, bytes: u64) {
        self.connection.set_send_window(bytes);
    }

    fn set_receive_window(&mut self, bytes: VarInt) {
        self.connection.set_receive_window(bytes);
    }

    fn poll(&mut self) -> Option<Event> {
        self.connection.poll()
    }
}
