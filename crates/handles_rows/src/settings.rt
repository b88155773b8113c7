//! What both ends begin with.
use crate::row::Row;
use qh_base::{Side, Span};
use qh_conn::ConnConfig;
use qh_packet::Version;
use qh_streams::StreamLimits;

/// How many settings an end has.
pub(crate) const COUNT: usize = 11;

// The place of each among them.
const IDLE: usize = 0;

const RECEIVE: usize = 1;

const STREAM: usize = 2;

const SEND: usize = 3;

const BIDI: usize = 4;

const UNI: usize = 5;

const DATAGRAMS: usize = 6;

const DATAGRAM_SEND: usize = 7;

const RTT: usize = 8;

const WINDOW: usize = 9;

/// The place of the one that says whether a state keeps its history.
pub(crate) const RECORD: usize = 10;

// The settings where nothing is said.
const USUAL: [u64; COUNT] = [
    30_000, 100_000, 10_000, 100_000, 10, 10, 5_000, 5_000, 100, 12_000, 0,
];

// What a word of settings is.
#[derive(Clone, Copy)]
enum Word {
    End,
    Of(Side),
    Place(usize),
}

const WORDS: [(&str, Word); 14] = [
    ("", Word::End),
    ("client", Word::Of(Side::Client)),
    ("server", Word::Of(Side::Server)),
    ("idle", Word::Place(IDLE)),
    ("receive", Word::Place(RECEIVE)),
    ("stream", Word::Place(STREAM)),
    ("send", Word::Place(SEND)),
    ("bidi", Word::Place(BIDI)),
    ("uni", Word::Place(UNI)),
    ("datagrams", Word::Place(DATAGRAMS)),
    ("datagram-send", Word::Place(DATAGRAM_SEND)),
    ("rtt", Word::Place(RTT)),
    ("window", Word::Place(WINDOW)),
    ("record", Word::Place(RECORD)),
];

/// What both ends begin with.
#[derive(Clone, Copy)]
pub(crate) struct Settings {
    client: [u64; COUNT],
    server: [u64; COUNT],
}

impl Settings {
    /// The settings where nothing is said.
    pub(crate) fn usual() -> Settings {
        Settings {
            client: USUAL,
            server: USUAL,
        }
    }

    /// Reads names and values: of both ends up to the word `client` or `server`, and of that one behind it.
    pub(crate) fn read(row: &mut Row<'_>) -> Settings {
        let mut settings = Settings::usual();
        let mut side = None;
        for _word in 0..u64::MAX {
            match row.find(&WORDS) {
                None | Some(Word::End) => break,
                Some(Word::Of(one)) => side = Some(one),
                Some(Word::Place(place)) => settings.set(side, place, row.number()),
            }
        }
        settings
    }

    // Sets one of an end, or of both.
    fn set(&mut self, side: Option<Side>, place: usize, value: u64) {
        if side != Some(Side::Server)
            && let Some(setting) = self.client.get_mut(place)
        {
            *setting = value;
        }
        if side != Some(Side::Client)
            && let Some(setting) = self.server.get_mut(place)
        {
            *setting = value;
        }
    }

    /// Those of one end.
    pub(crate) fn of(&self, side: Side) -> &[u64; COUNT] {
        match side {
            Side::Client => &self.client,
            Side::Server => &self.server,
        }
    }
}

/// With what the connection of an end begins.
pub(crate) fn config_of(settings: &[u64; COUNT]) -> ConnConfig {
    ConnConfig {
        limits: StreamLimits {
            receive_window: settings[RECEIVE],
            stream_window: settings[STREAM],
            send_window: settings[SEND],
            max_bidi: settings[BIDI],
            max_uni: settings[UNI],
        },
        idle: match settings[IDLE] {
            0 => None,
            millis => Some(Span::from_millis(millis)),
        },
        initial_rtt: Span::from_millis(settings[RTT]),
        initial_window: settings[WINDOW],
        datagram_receive: match settings[DATAGRAMS] {
            0 => None,
            bytes => Some(bytes),
        },
        datagram_send: settings[DATAGRAM_SEND],
        version: Version::One,
    }
}
