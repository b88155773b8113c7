ghost use Rattle.std.specs.Prelude.{◌≡◌, ◌⊎◌, IfOk, IsOk, MatchOption, MatchResult, false, take, true};
ghost use Rattle.futures.specs.Poll.{IfReady, OnPending};
ghost use Rattle.futures.specs.Task.{IsArmed, Keeps};
ghost use Rattle.qh_book.specs.declared.call.Call.TheVariants as call;
ghost use Rattle.qh_book.specs.declared.call.Getter.TheVariants as getter;
ghost use Rattle.qh_book.specs.declared.call.Setting.TheVariants as setting;
ghost use Rattle.qh_book.specs.declared.reply.Reply.TheVariants as answer;
ghost use Rattle.qh_handles.specs.Origins.{IsFrom, IsLostBy, datagram_origin};
ghost use Rattle.qh_handles.specs.Polls.{MatchAnswer, MatchPoll};
ghost use Rattle.qh_handles.specs.declared.told.Told.TheVariants as tells;

use crate::ask::ask;
use crate::{At, RecvStream, SendDatagramError, SendStream, Told};
use bytes::Bytes;
use futures::task::{Context, Poll};
use qh_base::{ConnectionError, Dir, Memory, Moment, Reason, Side, Span, StreamId, VarInt};
use qh_book::{Call, Getter, Reply, Setting};
use qh_conn::{ConnectionStats, ControllerMetrics};
use std::net::{IpAddr, SocketAddr};

/// A connection (quinn, `Connection`). It is one of the handles that the connection's state counts. One that is dropped without `end` stays counted, so the
/// connection isn't closed for want of handles.
#[derive(Drop)]
pub struct Connection {
    counted: (),
}

impl Connection {
    /// Hands out the handle that a new state counts (own).
    pub fn of_state() -> Connection {
        Connection { counted: () }
    }

    /// Opens a stream on which this end alone sends: a call that waits while the peer permits no more (RFC 9000, section 4.6).
    pub fn open_uni(&self) -> OpenUni {
        OpenUni { asked: () }
    }

    /// Opens a stream on which both ends send: a call that waits while the peer permits no more (RFC 9000, section 4.6).
    pub fn open_bi(&self) -> OpenBi {
        OpenBi { asked: () }
    }

    /// Accepts the next stream on which the peer alone sends: a call that waits for one.
    pub fn accept_uni(&self) -> AcceptUni {
        AcceptUni { asked: () }
    }

    /// Accepts the next stream that the peer opened and on which both ends send: a call that waits for one.
    pub fn accept_bi(&self) -> AcceptBi {
        AcceptBi { asked: () }
    }

    /// Reads the oldest datagram that came (RFC 9221): a call that waits for one.
    pub fn read_datagram(&self) -> ReadDatagram {
        ReadDatagram { asked: () }
    }

    /// Queues a datagram (RFC 9221): a call that waits while the queue has no room for it.
    pub fn send_datagram_wait(&self, payload: Bytes) -> SendDatagram
        ensures { result.payload ≡ payload }
    {
        SendDatagram { payload }
    }

    /// Waits until the connection is lost, in whatever way: a call.
    pub fn closed(&self) -> Closed {
        Closed { asked: () }
    }

    /// Queues a datagram (RFC 9221). If the queue has no room for it, as few of the oldest queued ones are dropped as must go.
    pub fn send_datagram<A: At>(&self, at: &mut A, payload: Bytes) -> Result<(), SendDatagramError>
        ensures { MatchResult result (λ _. A.acts at.old (call.SendDatagram payload false) answer.Done at.new)
            (λ e. IsFrom (datagram_origin e) (λ r. A.acts at.old (call.SendDatagram payload false) r at.new) (A.stays at.old at.new)) }
    {
        let call = Call::SendDatagram {
            payload,
            wait: false,
        };
        let Ok(reply) = at.act(call, None) else {
            return Err(SendDatagramError::Memory);
        };
        match reply {
            Reply::Done => Ok(()),
            Reply::ConnectionLost(error) => Err(SendDatagramError::ConnectionLost(error)),
            Reply::Disabled => Err(SendDatagramError::Disabled),
            Reply::UnsupportedByPeer => Err(SendDatagramError::UnsupportedByPeer),
            Reply::TooLarge => Err(SendDatagramError::TooLarge),
            _ => unreachable!(),
        }
    }

    /// Why the connection is lost, if it is.
    pub fn close_reason<A: At>(&self, at: &mut A) -> Result<Option<ConnectionError>, Memory>
        ensures value { MatchResult result (λ lost. MatchOption lost (A.acts at.old call.CloseReason answer.Done at.new)
            (λ e. A.acts at.old call.CloseReason (answer.ConnectionLost e) at.new)) (λ _. A.stays at.old at.new) }
        ensures free { A.takes_none at.old call.CloseReason → IsOk result }
    {
        match at.act(Call::CloseReason, None)? {
            Reply::ConnectionLost(error) => Ok(Some(error)),
            Reply::Done => Ok(None),
            _ => unreachable!(),
        }
    }

    /// Closes the connection at this moment, with this code of the application (RFC 9000, section 10.2). Of the reason the first 128 bytes are kept.
    pub fn close<A: At>(
        &self,
        at: &mut A,
        now: Moment,
        error_code: VarInt,
        reason: &[u8],
    ) -> Result<(), Memory>
        ensures value { MatchResult result (λ _. A.acts at.old (call.Close now error_code (take 128 reason.now)) answer.Done at.new) (λ _. A.stays at.old at.new) }
        ensures free { A.takes_none at.old (call.Close now error_code (take 128 reason.now)) → IsOk result }
    {
        let call = Call::Close {
            now,
            error_code,
            reason: Reason::of(reason),
        };
        match at.act(call, None)? {
            Reply::Done => Ok(()),
            _ => unreachable!(),
        }
    }

    /// How many bytes the longest datagram has that may be sent (RFC 9221, section 3). None if the peer takes none, or it isn't known yet.
    pub fn max_datagram_size<A: At>(&self, at: &mut A) -> Result<Option<usize>, Memory>
        ensures value { MatchResult result (λ size. A.acts at.old (call.Get getter.MaxDatagramSize) (answer.MaxDatagramSize size) at.new) (λ _. A.stays at.old at.new) }
        ensures free { A.takes_none at.old (call.Get getter.MaxDatagramSize) → IsOk result }
    {
        match at.act(Call::Get(Getter::MaxDatagramSize), None)? {
            Reply::MaxDatagramSize(Some(size)) => Ok(Some(size as usize)),
            Reply::MaxDatagramSize(None) => Ok(None),
            _ => unreachable!(),
        }
    }

    /// How many bytes of datagrams may be queued beside those that are.
    pub fn datagram_send_buffer_space<A: At>(&self, at: &mut A) -> Result<usize, Memory>
        ensures value { MatchResult result (λ bytes. A.acts at.old (call.Get getter.DatagramSendBufferSpace) (answer.Number bytes) at.new) (λ _. A.stays at.old at.new) }
        ensures free { A.takes_none at.old (call.Get getter.DatagramSendBufferSpace) → IsOk result }
    {
        match at.act(Call::Get(Getter::DatagramSendBufferSpace), None)? {
            Reply::Number(bytes) => Ok(bytes as usize),
            _ => unreachable!(),
        }
    }

    /// Which end this is.
    pub fn side<A: At>(&self, at: &mut A) -> Result<Side, Memory>
        ensures value { MatchResult result (λ side. A.acts at.old (call.Get getter.Side) (answer.Side side) at.new) (λ _. A.stays at.old at.new) }
        ensures free { A.takes_none at.old (call.Get getter.Side) → IsOk result }
    {
        match at.act(Call::Get(Getter::Side), None)? {
            Reply::Side(side) => Ok(side),
            _ => unreachable!(),
        }
    }

    /// The peer's address.
    pub fn remote_address<A: At>(&self, at: &mut A) -> Result<SocketAddr, Memory>
        ensures value { MatchResult result (λ address. A.acts at.old (call.Get getter.RemoteAddress) (answer.RemoteAddress address) at.new) (λ _. A.stays at.old at.new) }
        ensures free { A.takes_none at.old (call.Get getter.RemoteAddress) → IsOk result }
    {
        match at.act(Call::Get(Getter::RemoteAddress), None)? {
            Reply::RemoteAddress(address) => Ok(address),
            _ => unreachable!(),
        }
    }

    /// This end's address, if it is known.
    pub fn local_ip<A: At>(&self, at: &mut A) -> Result<Option<IpAddr>, Memory>
        ensures value { MatchResult result (λ address. A.acts at.old (call.Get getter.LocalIp) (answer.LocalIp address) at.new) (λ _. A.stays at.old at.new) }
        ensures free { A.takes_none at.old (call.Get getter.LocalIp) → IsOk result }
    {
        match at.act(Call::Get(Getter::LocalIp), None)? {
            Reply::LocalIp(address) => Ok(address),
            _ => unreachable!(),
        }
    }

    /// The smoothed round-trip time (RFC 9002, section 5.3).
    pub fn rtt<A: At>(&self, at: &mut A) -> Result<Span, Memory>
        ensures value { MatchResult result (λ span. A.acts at.old (call.Get getter.Rtt) (answer.Told (tells.Rtt span)) at.new) (λ _. A.stays at.old at.new) }
        ensures free { A.takes_none at.old (call.Get getter.Rtt) → IsOk result }
    {
        match at.act(Call::Get(Getter::Rtt), None)? {
            Reply::Told(Told::Rtt(span)) => Ok(span),
            _ => unreachable!(),
        }
    }

    /// The least round-trip time (RFC 9002, section 5.2).
    pub fn min_rtt<A: At>(&self, at: &mut A) -> Result<Span, Memory>
        ensures value { MatchResult result (λ span. A.acts at.old (call.Get getter.MinRtt) (answer.Told (tells.MinRtt span)) at.new) (λ _. A.stays at.old at.new) }
        ensures free { A.takes_none at.old (call.Get getter.MinRtt) → IsOk result }
    {
        match at.act(Call::Get(Getter::MinRtt), None)? {
            Reply::Told(Told::MinRtt(span)) => Ok(span),
            _ => unreachable!(),
        }
    }

    /// What was done since the connection was made.
    pub fn stats<A: At>(&self, at: &mut A) -> Result<ConnectionStats, Memory>
        ensures value { MatchResult result (λ stats. A.acts at.old (call.Get getter.Stats) (answer.Told (tells.Stats stats)) at.new) (λ _. A.stays at.old at.new) }
        ensures free { A.takes_none at.old (call.Get getter.Stats) → IsOk result }
    {
        match at.act(Call::Get(Getter::Stats), None)? {
            Reply::Told(Told::Stats(stats)) => Ok(stats),
            _ => unreachable!(),
        }
    }

    /// The congestion window, in bytes, and the threshold below which it grows fast (RFC 9002, section 7.3).
    pub fn congestion_state<A: At>(&self, at: &mut A) -> Result<ControllerMetrics, Memory>
        ensures value { MatchResult result (λ metrics. A.acts at.old (call.Get getter.CongestionState) (answer.Told (tells.CongestionState metrics)) at.new) (λ _. A.stays at.old at.new) }
        ensures free { A.takes_none at.old (call.Get getter.CongestionState) → IsOk result }
    {
        match at.act(Call::Get(Getter::CongestionState), None)? {
            Reply::Told(Told::CongestionState(metrics)) => Ok(metrics),
            _ => unreachable!(),
        }
    }

    /// A number that stays the same as long as the connection lives.
    pub fn stable_id<A: At>(&self, at: &mut A) -> Result<u64, Memory>
        ensures value { MatchResult result (λ id. A.acts at.old (call.Get getter.StableId) (answer.Number id) at.new) (λ _. A.stays at.old at.new) }
        ensures free { A.takes_none at.old (call.Get getter.StableId) → IsOk result }
    {
        match at.act(Call::Get(Getter::StableId), None)? {
            Reply::Number(id) => Ok(id),
            _ => unreachable!(),
        }
    }

    /// What the handshake tells of the peer, if it is there.
    pub fn handshake_data<A: At>(&self, at: &mut A) -> Result<Option<A::HandshakeData>, Memory>
        ensures value { MatchResult result (λ d. A.acts at.old (call.Get getter.HandshakeData) (answer.Told (tells.HandshakeData d)) at.new) (λ _. A.stays at.old at.new) }
        ensures free { A.takes_none at.old (call.Get getter.HandshakeData) → IsOk result }
    {
        match at.act(Call::Get(Getter::HandshakeData), None)? {
            Reply::Told(Told::HandshakeData(told)) => Ok(told),
            _ => unreachable!(),
        }
    }

    /// How many streams on which the peer alone sends may be open at once.
    pub fn set_max_concurrent_uni_streams<A: At>(
        &self,
        at: &mut A,
        count: VarInt,
    ) -> Result<(), Memory>
        ensures value { MatchResult result (λ _. A.acts at.old (call.Set (setting.MaxConcurrentUniStreams count)) answer.Done at.new) (λ _. A.stays at.old at.new) }
        ensures free { A.takes_none at.old (call.Set (setting.MaxConcurrentUniStreams count)) → IsOk result }
    {
        match at.act(Call::Set(Setting::MaxConcurrentUniStreams(count)), None)? {
            Reply::Done => Ok(()),
            _ => unreachable!(),
        }
    }

    /// How many streams that the peer opens and on which both ends send may be open at once.
    pub fn set_max_concurrent_bi_streams<A: At>(
        &self,
        at: &mut A,
        count: VarInt,
    ) -> Result<(), Memory>
        ensures value { MatchResult result (λ _. A.acts at.old (call.Set (setting.MaxConcurrentBiStreams count)) answer.Done at.new) (λ _. A.stays at.old at.new) }
        ensures free { A.takes_none at.old (call.Set (setting.MaxConcurrentBiStreams count)) → IsOk result }
    {
        match at.act(Call::Set(Setting::MaxConcurrentBiStreams(count)), None)? {
            Reply::Done => Ok(()),
            _ => unreachable!(),
        }
    }

    /// How many bytes may be written and not yet acknowledged.
    pub fn set_send_window<A: At>(&self, at: &mut A, bytes: u64) -> Result<(), Memory>
        ensures value { MatchResult result (λ _. A.acts at.old (call.Set (setting.SendWindow bytes)) answer.Done at.new) (λ _. A.stays at.old at.new) }
        ensures free { A.takes_none at.old (call.Set (setting.SendWindow bytes)) → IsOk result }
    {
        match at.act(Call::Set(Setting::SendWindow(bytes)), None)? {
            Reply::Done => Ok(()),
            _ => unreachable!(),
        }
    }

    /// How many bytes of all streams the peer may send before they are read (RFC 9000, section 4.1).
    pub fn set_receive_window<A: At>(&self, at: &mut A, bytes: VarInt) -> Result<(), Memory>
        ensures value { MatchResult result (λ _. A.acts at.old (call.Set (setting.ReceiveWindow bytes)) answer.Done at.new) (λ _. A.stays at.old at.new) }
        ensures free { A.takes_none at.old (call.Set (setting.ReceiveWindow bytes)) → IsOk result }
    {
        match at.act(Call::Set(Setting::ReceiveWindow(bytes)), None)? {
            Reply::Done => Ok(()),
            _ => unreachable!(),
        }
    }

    /// Another handle of the connection, which is counted too.
    pub fn try_clone<A: At>(&self, at: &mut A) -> Result<Connection, Memory>
        ensures { MatchResult result (λ _. A.acts at.old call.CloneHandle answer.Done at.new) (λ _. A.stays at.old at.new) }
    {
        match at.act(Call::CloneHandle, None)? {
            Reply::Done => Ok(Connection { counted: () }),
            _ => unreachable!(),
        }
    }

    /// Ends the handle. If it was the last one, and no error is kept, the connection is closed with code 0 and an empty reason.
    pub fn end<A: At>(self, at: &mut A)
        ensures value { A.acts at.old call.EndHandle answer.Done at.new ⊎ A.stays at.old at.new }
        ensures free { A.takes_none at.old call.EndHandle → A.acts at.old call.EndHandle answer.Done at.new }
    {
        match at.act(Call::EndHandle, None) {
            Ok(Reply::Done) | Err(Memory) => {}
            Ok(_) => unreachable!(),
        }
    }
}

/// Waits until a stream is opened on which this end alone sends (quinn, `OpenUni`).
#[derive(Drop)]
pub struct OpenUni {
    asked: (),
}

impl OpenUni {
    /// The stream. The error is the one by which the connection was lost, or `Memory`: then this call wanted memory, and wasn't made, or the connection was
    /// lost for want of it. A further poll opens another stream.
    pub fn poll<A: At>(
        &mut self,
        at: &mut A,
        cx: &mut Context<'_>,
    ) -> Poll<Result<SendStream, ConnectionError>>
        ensures value { MatchAnswer result (λ stream. A.acts at.old (call.Open Dir.Uni) (answer.Opened stream.id) at.new)
            (λ e. IsLostBy e (λ r. A.acts at.old (call.Open Dir.Uni) r at.new) (A.stays at.old at.new))
            (A.acts at.old (call.Open Dir.Uni) answer.Pending at.new) }
        ensures armed { OnPending result (IsArmed cx.new) }
        ensures kept { Keeps cx.old cx.new }
    {
        match poll_open(at, Dir::Uni, cx) {
            Poll::Ready(Ok(id)) => Poll::Ready(Ok(SendStream::of_id(id))),
            Poll::Ready(Err(error)) => Poll::Ready(Err(error)),
            Poll::Pending => Poll::Pending,
        }
    }
}

/// Waits until a stream is opened on which both ends send (quinn, `OpenBi`).
#[derive(Drop)]
pub struct OpenBi {
    asked: (),
}

impl OpenBi {
    /// The halves of the stream. The error is the one by which the connection was lost, or `Memory`: then this call wanted memory, and wasn't made, or the
    /// connection was lost for want of it. A further poll opens another stream.
    pub fn poll<A: At>(
        &mut self,
        at: &mut A,
        cx: &mut Context<'_>,
    ) -> Poll<Result<(SendStream, RecvStream), ConnectionError>>
        ensures value { MatchAnswer result (λ halves. A.acts at.old (call.Open Dir.Bi) (answer.Opened halves.0.id) at.new)
            (λ e. IsLostBy e (λ r. A.acts at.old (call.Open Dir.Bi) r at.new) (A.stays at.old at.new))
            (A.acts at.old (call.Open Dir.Bi) answer.Pending at.new) }
        ensures same { IfReady result (λ r. IfOk r (λ halves. halves.1.id ≡ halves.0.id)) }
        ensures armed { OnPending result (IsArmed cx.new) }
        ensures kept { Keeps cx.old cx.new }
    {
        match poll_open(at, Dir::Bi, cx) {
            Poll::Ready(Ok(id)) => Poll::Ready(Ok((SendStream::of_id(id), RecvStream::of_id(id)))),
            Poll::Ready(Err(error)) => Poll::Ready(Err(error)),
            Poll::Pending => Poll::Pending,
        }
    }
}

/// Waits until a stream is accepted on which the peer alone sends (quinn, `AcceptUni`).
#[derive(Drop)]
pub struct AcceptUni {
    asked: (),
}

impl AcceptUni {
    /// The stream. One that waits comes before an error. The error is the one by which the connection was lost, or `Memory`: then this call wanted memory, and
    /// wasn't made, or the connection was lost for want of it. A further poll accepts the next stream.
    pub fn poll<A: At>(
        &mut self,
        at: &mut A,
        cx: &mut Context<'_>,
    ) -> Poll<Result<RecvStream, ConnectionError>>
        ensures value { MatchAnswer result (λ stream. A.acts at.old (call.Accept Dir.Uni) (answer.Opened stream.id) at.new)
            (λ e. IsLostBy e (λ r. A.acts at.old (call.Accept Dir.Uni) r at.new) (A.stays at.old at.new))
            (A.acts at.old (call.Accept Dir.Uni) answer.Pending at.new) }
        ensures armed { OnPending result (IsArmed cx.new) }
        ensures kept { Keeps cx.old cx.new }
    {
        match poll_accept(at, Dir::Uni, cx) {
            Poll::Ready(Ok(id)) => Poll::Ready(Ok(RecvStream::of_id(id))),
            Poll::Ready(Err(error)) => Poll::Ready(Err(error)),
            Poll::Pending => Poll::Pending,
        }
    }
}

/// Waits until a stream is accepted on which both ends send (quinn, `AcceptBi`).
#[derive(Drop)]
pub struct AcceptBi {
    asked: (),
}

impl AcceptBi {
    /// The halves of the stream. One that waits comes before an error. The error is the one by which the connection was lost, or `Memory`: then this call
    /// wanted memory, and wasn't made, or the connection was lost for want of it. A further poll accepts the next stream.
    pub fn poll<A: At>(
        &mut self,
        at: &mut A,
        cx: &mut Context<'_>,
    ) -> Poll<Result<(SendStream, RecvStream), ConnectionError>>
        ensures value { MatchAnswer result (λ halves. A.acts at.old (call.Accept Dir.Bi) (answer.Opened halves.0.id) at.new)
            (λ e. IsLostBy e (λ r. A.acts at.old (call.Accept Dir.Bi) r at.new) (A.stays at.old at.new))
            (A.acts at.old (call.Accept Dir.Bi) answer.Pending at.new) }
        ensures same { IfReady result (λ r. IfOk r (λ halves. halves.1.id ≡ halves.0.id)) }
        ensures armed { OnPending result (IsArmed cx.new) }
        ensures kept { Keeps cx.old cx.new }
    {
        match poll_accept(at, Dir::Bi, cx) {
            Poll::Ready(Ok(id)) => Poll::Ready(Ok((SendStream::of_id(id), RecvStream::of_id(id)))),
            Poll::Ready(Err(error)) => Poll::Ready(Err(error)),
            Poll::Pending => Poll::Pending,
        }
    }
}

// Opens a stream in a direction, or waits.
fn poll_open<A: At>(
    at: &mut A,
    dir: Dir,
    cx: &mut Context<'_>,
) -> Poll<Result<StreamId, ConnectionError>>
    ensures value { MatchAnswer result (λ id. A.acts at.old (call.Open dir) (answer.Opened id) at.new)
        (λ e. IsLostBy e (λ r. A.acts at.old (call.Open dir) r at.new) (A.stays at.old at.new))
        (A.acts at.old (call.Open dir) answer.Pending at.new) }
    ensures armed { OnPending result (IsArmed cx.new) }
    ensures kept { Keeps cx.old cx.new }
{
    let Ok(reply) = ask(at, Call::Open(dir), cx) else {
        return Poll::Ready(Err(ConnectionError::Memory));
    };
    match reply {
        Reply::Opened(id) => Poll::Ready(Ok(id)),
        Reply::ConnectionLost(error) => Poll::Ready(Err(error)),
        Reply::Pending => Poll::Pending,
        _ => unreachable!(),
    }
}

// Accepts a stream of a direction, or waits.
fn poll_accept<A: At>(
    at: &mut A,
    dir: Dir,
    cx: &mut Context<'_>,
) -> Poll<Result<StreamId, ConnectionError>>
    ensures value { MatchAnswer result (λ id. A.acts at.old (call.Accept dir) (answer.Opened id) at.new)
        (λ e. IsLostBy e (λ r. A.acts at.old (call.Accept dir) r at.new) (A.stays at.old at.new))
        (A.acts at.old (call.Accept dir) answer.Pending at.new) }
    ensures armed { OnPending result (IsArmed cx.new) }
    ensures kept { Keeps cx.old cx.new }
{
    let Ok(reply) = ask(at, Call::Accept(dir), cx) else {
        return Poll::Ready(Err(ConnectionError::Memory));
    };
    match reply {
        Reply::Opened(id) => Poll::Ready(Ok(id)),
        Reply::ConnectionLost(error) => Poll::Ready(Err(error)),
        Reply::Pending => Poll::Pending,
        _ => unreachable!(),
    }
}

/// Waits for a datagram (quinn, `ReadDatagram`).
#[derive(Drop)]
pub struct ReadDatagram {
    asked: (),
}

impl ReadDatagram {
    /// The payload of the oldest datagram. One that waits comes before an error. The error is the one by which the connection was lost, or `Memory`: then
    /// this call wanted memory, and wasn't made, or the connection was lost for want of it. A further poll reads the next datagram.
    pub fn poll<A: At>(
        &mut self,
        at: &mut A,
        cx: &mut Context<'_>,
    ) -> Poll<Result<Bytes, ConnectionError>>
        ensures value { MatchAnswer result (λ payload. A.acts at.old call.ReadDatagram (answer.Datagram payload) at.new)
            (λ e. IsLostBy e (λ r. A.acts at.old call.ReadDatagram r at.new) (A.stays at.old at.new))
            (A.acts at.old call.ReadDatagram answer.Pending at.new) }
        ensures armed { OnPending result (IsArmed cx.new) }
        ensures kept { Keeps cx.old cx.new }
    {
        let Ok(reply) = ask(at, Call::ReadDatagram, cx) else {
            return Poll::Ready(Err(ConnectionError::Memory));
        };
        match reply {
            Reply::Datagram(payload) => Poll::Ready(Ok(payload)),
            Reply::ConnectionLost(error) => Poll::Ready(Err(error)),
            Reply::Pending => Poll::Pending,
            _ => unreachable!(),
        }
    }
}

/// Waits until a datagram is queued (quinn, `SendDatagram`).
#[derive(Drop)]
pub struct SendDatagram {
    payload: Bytes,
}

impl SendDatagram {
    /// Queues the datagram once there is room for it. After it was queued a further poll queues it again. `Memory`: this call wanted memory, and wasn't made.
    pub fn poll<A: At>(
        &mut self,
        at: &mut A,
        cx: &mut Context<'_>,
    ) -> Poll<Result<(), SendDatagramError>>
        ensures same { self.new.payload ≡ self.old.payload }
        ensures value { MatchAnswer result (λ _. A.acts at.old (call.SendDatagram self.old.payload true) answer.Done at.new)
            (λ e. IsFrom (datagram_origin e) (λ r. A.acts at.old (call.SendDatagram self.old.payload true) r at.new) (A.stays at.old at.new ⊎ (at.new ≡ at.old)))
            (A.acts at.old (call.SendDatagram self.old.payload true) answer.Pending at.new) }
        ensures armed { OnPending result (IsArmed cx.new) }
        ensures kept { Keeps cx.old cx.new }
    {
        let Ok(payload) = self.payload.clone() else {
            return Poll::Ready(Err(SendDatagramError::Memory));
        };
        let call = Call::SendDatagram {
            payload,
            wait: true,
        };
        let Ok(reply) = ask(at, call, cx) else {
            return Poll::Ready(Err(SendDatagramError::Memory));
        };
        match reply {
            Reply::Done => Poll::Ready(Ok(())),
            Reply::ConnectionLost(error) => {
                Poll::Ready(Err(SendDatagramError::ConnectionLost(error)))
            }
            Reply::Disabled => Poll::Ready(Err(SendDatagramError::Disabled)),
            Reply::UnsupportedByPeer => Poll::Ready(Err(SendDatagramError::UnsupportedByPeer)),
            Reply::TooLarge => Poll::Ready(Err(SendDatagramError::TooLarge)),
            Reply::Pending => Poll::Pending,
            _ => unreachable!(),
        }
    }
}

/// Waits until the connection is lost (quinn: the future of `Connection::closed`).
#[derive(Drop)]
pub struct Closed {
    asked: (),
}

impl Closed {
    /// The error by which the connection was lost, or `Memory`: then this call wanted memory, and wasn't made, or the connection was lost for want of it. A
    /// further poll asks again.
    pub fn poll<A: At>(&mut self, at: &mut A, cx: &mut Context<'_>) -> Poll<ConnectionError>
        ensures value { MatchPoll result (λ e. IsLostBy e (λ r. A.acts at.old call.Closed r at.new) (A.stays at.old at.new)) (A.acts at.old call.Closed answer.Pending at.new) }
        ensures armed { OnPending result (IsArmed cx.new) }
        ensures kept { Keeps cx.old cx.new }
    {
        let Ok(reply) = ask(at, Call::Closed, cx) else {
            return Poll::Ready(ConnectionError::Memory);
        };
        match reply {
            Reply::ConnectionLost(error) => Poll::Ready(error),
            Reply::Pending => Poll::Pending,
            _ => unreachable!(),
        }
    }
}
