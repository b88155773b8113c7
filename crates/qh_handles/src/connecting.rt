ghost use Rattle.std.specs.Prelude.{◌≡◌, ◌⊎◌, MatchResult, true, false};
ghost use Rattle.futures.specs.Poll.{OnPending};
ghost use Rattle.futures.specs.Task.{IsArmed, Keeps};
ghost use Rattle.qh_book.specs.declared.call.Call.TheVariants as call;
ghost use Rattle.qh_book.specs.declared.call.Getter.TheVariants as getter;
ghost use Rattle.qh_book.specs.declared.reply.Reply.TheVariants as answer;
ghost use Rattle.qh_handles.specs.Origins.{IsLostBy};
ghost use Rattle.qh_handles.specs.Polls.{MatchAnswer};
ghost use Rattle.qh_handles.specs.declared.told.Told.TheVariants as tells;
ghost use Rattle.std.specs.Prelude.{Some};

use crate::ask::ask;
use crate::{At, Connection, Told};
use futures::task::{Context, Poll};
use qh_base::{ConnectionError, Memory};
use qh_book::{Call, Getter, Reply};
use std::net::{IpAddr, SocketAddr};

/// A connection whose handshake isn't complete yet (quinn, `Connecting`). It is one of the handles that the connection's state counts. One that is dropped
/// without `end` stays counted, so the connection isn't closed for want of handles.
#[derive(Drop)]
pub struct Connecting {
    // Whether it was answered: then the connection is the handle that is counted, in its place.
    is_given: bool,
}

impl Connecting {
    /// Hands out the handle that a new state counts (own).
    pub fn of_state() -> Connecting
        ensures { result.is_given ≡ false }
    {
        Connecting { is_given: false }
    }

    /// Whether the connection was given: it is counted now in place of this one, which isn't polled any more.
    pub fn is_given(&self) -> bool
        ensures { result ≡ self.now.is_given }
    {
        self.is_given
    }

    /// Waits until the handshake is complete. The error is the one by which the connection was lost, or `Memory`: then this call wanted memory, and wasn't
    /// made, or the connection was lost for want of it. Once the connection was given this one isn't polled any more; after an error a further poll asks again.
    pub fn poll<A: At>(
        &mut self,
        at: &mut A,
        cx: &mut Context<'_>,
    ) -> Poll<Result<Connection, ConnectionError>>
        requires { self.old.is_given ≡ false }
        ensures given { MatchAnswer result (λ _. self.new.is_given ≡ true) (λ _. self.new.is_given ≡ false) (self.new.is_given ≡ false) }
        ensures value { MatchAnswer result (λ _. A.acts at.old call.Connecting answer.Done at.new)
            (λ e. IsLostBy e (λ r. A.acts at.old call.Connecting r at.new) (A.stays at.old at.new))
            (A.acts at.old call.Connecting answer.Pending at.new) }
        ensures armed { OnPending result (IsArmed cx.new) }
        ensures kept { Keeps cx.old cx.new }
    {
        let Ok(reply) = ask(at, Call::Connecting, cx) else {
            return Poll::Ready(Err(ConnectionError::Memory));
        };
        match reply {
            Reply::Done => {
                self.is_given = true;
                Poll::Ready(Ok(Connection::of_state()))
            }
            Reply::ConnectionLost(error) => Poll::Ready(Err(error)),
            Reply::Pending => Poll::Pending,
            _ => unreachable!(),
        }
    }

    /// What the handshake tells of the peer, once it is there: a call that waits for it.
    pub fn handshake_data(&self) -> HandshakeData {
        HandshakeData { asked: () }
    }

    /// This end's address, if it is known.
    pub fn local_ip<A: At>(&self, at: &mut A) -> Result<Option<IpAddr>, Memory>
        ensures { MatchResult result (λ address. A.acts at.old (call.Get getter.LocalIp) (answer.LocalIp address) at.new) (λ _. A.stays at.old at.new) }
    {
        match at.act(Call::Get(Getter::LocalIp), None)? {
            Reply::LocalIp(address) => Ok(address),
            _ => unreachable!(),
        }
    }

    /// The peer's address.
    pub fn remote_address<A: At>(&self, at: &mut A) -> Result<SocketAddr, Memory>
        ensures { MatchResult result (λ address. A.acts at.old (call.Get getter.RemoteAddress) (answer.RemoteAddress address) at.new) (λ _. A.stays at.old at.new) }
    {
        match at.act(Call::Get(Getter::RemoteAddress), None)? {
            Reply::RemoteAddress(address) => Ok(address),
            _ => unreachable!(),
        }
    }

    /// Ends the handle. If it was the last one, and no error is kept, the connection is closed with code 0 and an empty reason. One that gave the connection
    /// isn't counted any more, and makes no call.
    pub fn end<A: At>(self, at: &mut A)
        ensures given { self.is_given ≡ true → at.new ≡ at.old }
        ensures value { self.is_given ≡ false → A.acts at.old call.EndHandle answer.Done at.new ⊎ A.stays at.old at.new }
        ensures free { self.is_given ≡ false → A.takes_none at.old call.EndHandle → A.acts at.old call.EndHandle answer.Done at.new }
    {
        if self.is_given {
            return;
        }
        match at.act(Call::EndHandle, None) {
            Ok(Reply::Done) | Err(Memory) => {}
            Ok(_) => unreachable!(),
        }
    }
}

/// Waits for what the handshake tells of the peer (quinn: the future of `Connecting::handshake_data`).
#[derive(Drop)]
pub struct HandshakeData {
    asked: (),
}

impl HandshakeData {
    /// The data. The error is the one by which the connection was lost, or `Memory`: then this call wanted memory, and wasn't made, or the connection was
    /// lost for want of it. A further poll asks again.
    pub fn poll<A: At>(
        &mut self,
        at: &mut A,
        cx: &mut Context<'_>,
    ) -> Poll<Result<A::HandshakeData, ConnectionError>>
        ensures value { MatchAnswer result (λ d. A.acts at.old call.HandshakeData (answer.Told (tells.HandshakeData (Some d))) at.new)
            (λ e. IsLostBy e (λ r. A.acts at.old call.HandshakeData r at.new) (A.stays at.old at.new))
            (A.acts at.old call.HandshakeData answer.Pending at.new) }
        ensures armed { OnPending result (IsArmed cx.new) }
        ensures kept { Keeps cx.old cx.new }
    {
        let Ok(reply) = ask(at, Call::HandshakeData, cx) else {
            return Poll::Ready(Err(ConnectionError::Memory));
        };
        match reply {
            Reply::Told(Told::HandshakeData(Some(told))) => Poll::Ready(Ok(told)),
            Reply::ConnectionLost(error) => Poll::Ready(Err(error)),
            Reply::Pending => Poll::Pending,
            _ => unreachable!(),
        }
    }
}
