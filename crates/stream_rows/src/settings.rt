//! What ends begin with, and the small words of rows: streams, directions, codes.
use crate::answers::find;
use qh_base::{Dir, Span, StreamId, VarInt};
use qh_core::{ConnConfig, first_limits};
use qh_space::SpaceConfig;
use qh_streams::{PeerLimits, StreamLimits};
use row_text::{RowFault, Words};

// The word of a setting.
#[derive(Clone, Copy)]
enum Setting {
    Receive,
    Stream,
    Send,
    Bidi,
    Uni,
    Idle,
    Rtt,
    Window,
    PeerReceive,
    PeerLocal,
    PeerRemote,
    PeerOneWay,
    PeerBidi,
    PeerUni,
}

const WORDS: [(&str, Setting); 14] = [
    ("receive", Setting::Receive),
    ("stream", Setting::Stream),
    ("send", Setting::Send),
    ("bidi", Setting::Bidi),
    ("uni", Setting::Uni),
    ("idle", Setting::Idle),
    ("rtt", Setting::Rtt),
    ("window", Setting::Window),
    ("peer-receive", Setting::PeerReceive),
    ("peer-local", Setting::PeerLocal),
    ("peer-remote", Setting::PeerRemote),
    ("peer-one-way", Setting::PeerOneWay),
    ("peer-bidi", Setting::PeerBidi),
    ("peer-uni", Setting::PeerUni),
];

/// What both ends of a pair begin with.
#[derive(Clone, Copy)]
pub(crate) struct Settings {
    pub(crate) limits: StreamLimits,
    pub(crate) idle: u64,
    pub(crate) rtt: u64,
    pub(crate) window: u64,
    peer: PeerSettings,
}

// The first limits of the peer.
#[derive(Clone, Copy)]
struct PeerSettings {
    data: u64,
    local: u64,
    remote: u64,
    one_way: u64,
    bidi: u64,
    uni: u64,
}

/// What ends begin with where a row says nothing else.
pub(crate) const USUAL: Settings = Settings {
    limits: StreamLimits {
        receive_window: 100_000,
        stream_window: 100_000,
        send_window: 100_000,
        max_bidi: 10,
        max_uni: 10,
    },
    idle: 10_000_000_000,
    rtt: 20_000_000,
    window: 12_000,
    peer: PeerSettings {
        data: 100_000,
        local: 100_000,
        remote: 100_000,
        one_way: 100_000,
        bidi: 10,
        uni: 10,
    },
};

impl Settings {
    /// The usual settings, with those that the rest of a row names, each behind its word.
    pub(crate) fn of(words: &mut Words<'_>) -> Result<Settings, RowFault> {
        let mut settings = USUAL;
        for _ in 0..100u8 {
            if words.is_at_end() {
                return Ok(settings);
            }
            settings.set_next(words)?;
        }
        Err(RowFault::Form)
    }

    // Sets what the next words name.
    fn set_next(&mut self, words: &mut Words<'_>) -> Result<(), RowFault> {
        let setting = find(&WORDS, words.next());
        let Ok(value) = words.number() else {
            return Err(RowFault::Form);
        };
        match setting {
            Some(setting) => self.set(setting, value),
            None => return Err(RowFault::Form),
        }
        Ok(())
    }

    // Sets one of this end's, and the peer's like it, or one of the peer's alone.
    fn set(&mut self, setting: Setting, value: u64) {
        match setting {
            Setting::Receive => self.set_receive(value),
            Setting::Stream => self.set_stream(value),
            Setting::Send => self.limits.send_window = value,
            Setting::Bidi => self.set_bidi(value),
            Setting::Uni => self.set_uni(value),
            Setting::Idle => self.idle = value,
            Setting::Rtt => self.rtt = value,
            Setting::Window => self.window = value,
            Setting::PeerReceive => self.peer.data = value,
            Setting::PeerLocal => self.peer.local = value,
            Setting::PeerRemote => self.peer.remote = value,
            Setting::PeerOneWay => self.peer.one_way = value,
            Setting::PeerBidi => self.peer.bidi = value,
            Setting::PeerUni => self.peer.uni = value,
        }
    }

    /// So many bytes may come before they are read, at this end and at the peer.
    pub(crate) fn set_receive(&mut self, value: u64) {
        self.limits.receive_window = value;
        self.peer.data = value;
    }

    /// So many bytes of a stream may come before they are read, at this end and at the peer.
    pub(crate) fn set_stream(&mut self, value: u64) {
        self.limits.stream_window = value;
        self.peer.local = value;
        self.peer.remote = value;
        self.peer.one_way = value;
    }

    /// So many two-way streams may be open, of this end's and of the peer's.
    pub(crate) fn set_bidi(&mut self, value: u64) {
        self.limits.max_bidi = value;
        self.peer.bidi = value;
    }

    fn set_uni(&mut self, value: u64) {
        self.limits.max_uni = value;
        self.peer.uni = value;
    }

    /// What a connection begins with.
    pub(crate) fn config(&self) -> ConnConfig {
        ConnConfig {
            limits: self.limits,
            peer: first_limits(self.limits),
            idle: match self.idle {
                0 => None,
                idle => Some(Span(idle)),
            },
            initial_rtt: Span(self.rtt),
            initial_window: self.window,
            datagram_receive: None,
            peer_datagram: None,
        }
    }

    /// What a space with no connection begins with.
    pub(crate) fn space(&self) -> SpaceConfig {
        SpaceConfig {
            limits: self.limits,
            peer: self.peer(),
            initial_rtt: Span(self.rtt),
            initial_window: self.window,
            datagram_receive: None,
        }
    }

    /// The first limits of the peer.
    pub(crate) fn peer(&self) -> PeerLimits {
        let peer = self.peer;
        PeerLimits {
            max_data: bounded(peer.data),
            bidi_local: bounded(peer.local),
            bidi_remote: bounded(peer.remote),
            uni: bounded(peer.one_way),
            max_bidi: peer.bidi,
            max_uni: peer.uni,
        }
    }
}

// The value, or the greatest that a frame can bear.
fn bounded(value: u64) -> VarInt {
    VarInt::from_u64(value.min(VarInt::MAX_VALUE)).unwrap_or(VarInt::from_u32(0))
}

/// The next word as a stream's id.
pub(crate) fn stream_of(words: &mut Words<'_>) -> Result<StreamId, RowFault> {
    Ok(StreamId(words.number()?))
}

/// The next word as a number below 2^62.
pub(crate) fn varint_of(words: &mut Words<'_>) -> Result<VarInt, RowFault> {
    VarInt::from_u64(words.number()?).ok_or(RowFault::Form)
}

/// The next word as a direction.
pub(crate) fn dir_of(words: &mut Words<'_>) -> Result<Dir, RowFault> {
    match words.next() {
        "bi" => Ok(Dir::Bi),
        "uni" => Ok(Dir::Uni),
        _ => Err(RowFault::Form),
    }
}

/// The word for a direction.
pub(crate) fn name_of_dir(dir: Dir) -> &'static str {
    match dir {
        Dir::Bi => "bi",
        Dir::Uni => "uni",
    }
}
