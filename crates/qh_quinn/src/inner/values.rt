ghost use Rattle.std.specs.Prelude.{◌≡◌, ◌-◌, [], true, false, None};
ghost use Rattle.qh_book.specs.Values.{with_setting};
ghost use Rattle.qh_book.specs.declared.call.Call.TheVariants as call;
ghost use Rattle.qh_book.specs.declared.call.Setting.TheVariants as setting;
ghost use Rattle.qh_datagrams.specs.Datagrams.{bytes_of};
ghost use Rattle.qh_handles.specs.Told.{MayReply};
ghost use Rattle.qh_quinn.specs.Acting.{IsAnswered, IsChanged, KeepsTurns};
ghost use Rattle.qh_quinn.specs.Calls.{IsCallOf, IsLimitSet};
ghost use Rattle.qh_conn.specs.Greeting.{early_concurrent, with_concurrent};
ghost use Rattle.qh_conn.specs.Whole.{CarriesOn};
ghost use Rattle.qh_book.specs.declared.reply.Reply.TheVariants as reply;
ghost use Rattle.qh_quinn.specs.States.{IsState};
ghost use Rattle.qh_quinn.specs.Told.{TellsOf};
ghost use Rattle.qh_shown.specs.Connections.{is_wanting};

use super::{StateInner, kept_error};
use qh_base::{Dir, VarInt};
use qh_book::{Getter, Reply, Setting};
use qh_handles::Told;
use qh_packet::Session;

impl<S: Session> StateInner<S>
where
    S::HandshakeData: Drop,
{
    // Waits for what the handshake tells.
    pub(crate) fn handshake_data(&self) -> Reply<Told<S::HandshakeData>>
        requires { IsState self.now }
        ensures value { IsAnswered call.HandshakeData result self.now self.now }
        ensures fits { MayReply call.HandshakeData result }
        ensures tells { TellsOf S.knows S.name S.told self.now.connection self.now.error call.HandshakeData result }
    {
        let data = self.connection.session().handshake_data();
        if data.is_some() {
            return Reply::Told(Told::HandshakeData(data));
        }
        match kept_error(&self.error) {
            Some(error) => Reply::ConnectionLost(error),
            None => Reply::Pending,
        }
    }

    // A value of the connection.
    pub(crate) fn value(&self, getter: Getter) -> Reply<Told<S::HandshakeData>>
        requires { IsState self.now }
        ensures value { IsAnswered (call.Get getter) result self.now self.now }
        ensures fits { MayReply (call.Get getter) result }
        ensures tells { TellsOf S.knows S.name S.told self.now.connection self.now.error (call.Get getter) result }
    {
        let connection = &self.connection;
        match getter {
            Getter::MaxDatagramSize => Reply::MaxDatagramSize(
                connection.max_datagram_size().map(|size| size as u64),
            ),
            Getter::DatagramSendBufferSpace => Reply::Number(self.datagram_room()),
            Getter::Side => Reply::Side(connection.side()),
            Getter::RemoteAddress => Reply::RemoteAddress(connection.remote_address()),
            Getter::LocalIp => Reply::LocalIp(connection.local_ip()),
            Getter::Rtt => Reply::Told(Told::Rtt(connection.rtt())),
            Getter::MinRtt => Reply::Told(Told::MinRtt(connection.min_rtt())),
            Getter::Stats => Reply::Told(Told::Stats(connection.stats())),
            Getter::CongestionState => {
                Reply::Told(Told::CongestionState(connection.congestion_state()))
            }
            Getter::StableId => Reply::Number(self.stable_id),
            Getter::HandshakeData => Reply::Told(Told::HandshakeData(
                connection.session().handshake_data(),
            )),
        }
    }
}

impl<S> StateInner<S> {
    // How many bytes of datagrams more may be queued without dropping any.
    fn datagram_room(&self) -> u64
        ensures live { is_wanting self.now.connection ≡ false → result ≡ self.now.connection.control.datagram_send - bytes_of self.now.connection.control.datagrams.outgoing }
        ensures emptied { is_wanting self.now.connection ≡ true → result ≡ self.now.connection.control.datagram_send }
    {
        if self.is_emptied() {
            return self.connection.control.datagram_send;
        }
        self.connection.datagram_send_buffer_space() as u64
    }

    // Changes a setting of the connection.
    pub(crate) fn set(&mut self, setting: Setting)
        requires { IsState self.old }
        ensures changed { IsChanged (with_setting setting) self.old self.new }
        ensures calls { IsCallOf {T = Unit {0}} (call.Set setting) reply.Done self.old self.new }
        ensures rest { KeepsTurns self.old self.new }
    {
        match setting {
            Setting::MaxConcurrentUniStreams(count) => self.set_streams(Dir::Uni, count),
            Setting::MaxConcurrentBiStreams(count) => self.set_streams(Dir::Bi, count),
            Setting::SendWindow(bytes) => self.set_send_window(bytes),
            Setting::ReceiveWindow(bytes) => self.set_receive_window(bytes),
        }
    }

    // How many streams of a direction the peer may have open.
    fn set_streams(&mut self, dir: Dir, count: VarInt)
        requires { IsState self.old }
        ensures changed { IsChanged (λ b. b) self.old self.new }
        ensures called { IsLimitSet (with_concurrent dir count self.old.connection.core.space.streams) (early_concurrent dir count self.old.connection.early) self.old.connection self.new.connection }
        ensures carries { CarriesOn self.old.connection self.new.connection [] }
        ensures woken { self.new.driver ≡ None }
        ensures rest { KeepsTurns self.old self.new }
    {
        qh_book::first_shown();
        self.connection.set_max_concurrent_streams(dir, count);
        self.wake();
    }

    // How many bytes may be written that the peer didn't confirm.
    fn set_send_window(&mut self, bytes: u64)
        requires { IsState self.old }
        ensures changed { IsChanged (with_setting (setting.SendWindow bytes)) self.old self.new }
        ensures calls { IsCallOf {T = Unit {0}} (call.Set (setting.SendWindow bytes)) reply.Done self.old self.new }
        ensures rest { KeepsTurns self.old self.new }
    {
        qh_book::first_shown();
        self.connection.set_send_window(bytes);
        self.wake();
    }

    // How many bytes the peer may send that weren't read.
    fn set_receive_window(&mut self, bytes: VarInt)
        requires { IsState self.old }
        ensures changed { IsChanged (λ b. b) self.old self.new }
        ensures calls { IsCallOf {T = Unit {0}} (call.Set (setting.ReceiveWindow bytes)) reply.Done self.old self.new }
        ensures rest { KeepsTurns self.old self.new }
    {
        qh_book::first_shown();
        self.connection.set_receive_window(bytes);
        self.wake();
    }
}
