//! What both ends begin with: their connections, and their endpoints.
use crate::row::Row;
use qh_base::{ConnectionId, Memory, Side, Span};
use qh_conn::ConnConfig;
use qh_kit::{EndpointConfig, ServerConfig};
use qh_packet::Version;
use qh_streams::StreamLimits;
use row_text::RowFault;
use std::alloc::Global;

// In a story of connections the client's id is the first of these bytes.
const CLIENT: [u8; 20] = [
    0xc0, 0xc1, 0xc2, 0xc3, 0xc4, 0xc5, 0xc6, 0xc7, 0xc8, 0xc9, 0xca, 0xcb, 0xcc, 0xcd, 0xce, 0xcf,
    0xb0, 0xb1, 0xb2, 0xb3,
];

// And the server's id is the first of these.
const SERVER: [u8; 20] = [
    0x50, 0x51, 0x52, 0x53, 0x54, 0x55, 0x56, 0x57, 0x58, 0x59, 0x5a, 0x5b, 0x5c, 0x5d, 0x5e, 0x5f,
    0x60, 0x61, 0x62, 0x63,
];

/// What one end begins with. Times are in milliseconds; 1 is yes.
#[derive(Clone, Copy)]
pub(crate) struct EndSettings {
    /// How long its ids are.
    pub(crate) id: u64,
    // Of its connections.
    idle: u64,
    receive: u64,
    stream: u64,
    send: u64,
    bidi: u64,
    uni: u64,
    datagrams: Option<u64>,
    datagram_send: u64,
    rtt: u64,
    window: u64,
    // Of its endpoint.
    takes: u64,
    versions: u64,
    pub(crate) strict: u64,
    grease: u64,
    max: u64,
    buffer: u64,
    total: u64,
    reset: u64,
    retry: u64,
    life: u64,
    pub(crate) log: u64,
}

/// What both ends begin with.
#[derive(Clone, Copy)]
pub(crate) struct Settings {
    client: EndSettings,
    server: EndSettings,
}

const USUAL: EndSettings = EndSettings {
    id: 8,
    idle: 30_000,
    receive: 100_000,
    stream: 10_000,
    send: 100_000,
    bidi: 10,
    uni: 10,
    datagrams: Some(5_000),
    datagram_send: 5_000,
    rtt: 100,
    window: 12_000,
    takes: 1,
    versions: 1,
    strict: 0,
    grease: 0,
    max: 10,
    buffer: 2_400,
    total: 4_800,
    reset: 20,
    retry: 15_000,
    life: 60_000,
    log: 10_000,
};

// A window of a stream, of the connection, of what is held to send, and of what may be in flight at first, where windows are wide.
const WINDOW: u64 = 1_048_576;

// Which setting.
#[derive(Clone, Copy)]
enum Setting {
    Id,
    Idle,
    Receive,
    Stream,
    Send,
    Bidi,
    Uni,
    Datagrams,
    DatagramSend,
    Rtt,
    Window,
    Takes,
    Versions,
    Strict,
    Grease,
    Max,
    Buffer,
    Total,
    Reset,
    Retry,
    Life,
    Log,
}

// What a word of settings is.
#[derive(Clone, Copy)]
enum Word {
    End,
    Of(Side),
    Name(Setting),
}

const WORDS: [(&str, Word); 25] = [
    ("", Word::End),
    ("client", Word::Of(Side::Client)),
    ("server", Word::Of(Side::Server)),
    ("id", Word::Name(Setting::Id)),
    ("idle", Word::Name(Setting::Idle)),
    ("receive", Word::Name(Setting::Receive)),
    ("stream", Word::Name(Setting::Stream)),
    ("send", Word::Name(Setting::Send)),
    ("bidi", Word::Name(Setting::Bidi)),
    ("uni", Word::Name(Setting::Uni)),
    ("datagrams", Word::Name(Setting::Datagrams)),
    ("datagram-send", Word::Name(Setting::DatagramSend)),
    ("rtt", Word::Name(Setting::Rtt)),
    ("window", Word::Name(Setting::Window)),
    ("takes", Word::Name(Setting::Takes)),
    ("versions", Word::Name(Setting::Versions)),
    ("strict", Word::Name(Setting::Strict)),
    ("grease", Word::Name(Setting::Grease)),
    ("max", Word::Name(Setting::Max)),
    ("buffer", Word::Name(Setting::Buffer)),
    ("total", Word::Name(Setting::Total)),
    ("reset", Word::Name(Setting::Reset)),
    ("retry", Word::Name(Setting::Retry)),
    ("life", Word::Name(Setting::Life)),
    ("log", Word::Name(Setting::Log)),
];

impl Settings {
    /// The settings that a row doesn't name. The client's endpoint takes no attempts.
    pub(crate) fn usual() -> Settings {
        let mut client = USUAL;
        client.takes = 0;
        Settings {
            client,
            server: USUAL,
        }
    }

    /// Wide windows, that many two-way streams, no datagrams and no idle time.
    pub(crate) fn wide(streams: u64) -> Settings {
        let end = EndSettings {
            idle: 0,
            receive: WINDOW,
            stream: WINDOW,
            send: WINDOW,
            bidi: streams,
            uni: 0,
            datagrams: None,
            datagram_send: 0,
            rtt: 1,
            window: WINDOW,
            ..USUAL
        };
        Settings {
            client: end,
            server: end,
        }
    }

    /// Those of one end.
    pub(crate) fn of(&self, side: Side) -> &EndSettings {
        match side {
            Side::Client => &self.client,
            Side::Server => &self.server,
        }
    }

    /// Reads names and values: of both ends up to the word `client` or `server`, and of that one after it.
    pub(crate) fn read(row: &mut Row<'_>) -> Settings {
        let mut settings = Settings::usual();
        let mut side = None;
        for _word in 0..u64::MAX {
            match row.find(&WORDS) {
                None | Some(Word::End) => break,
                Some(Word::Of(one)) => side = Some(one),
                Some(Word::Name(setting)) => settings.set(side, setting, row),
            }
        }
        settings
    }

    // Sets one of an end, or of both.
    fn set(&mut self, side: Option<Side>, setting: Setting, row: &mut Row<'_>) {
        let value = match setting {
            Setting::Datagrams => number_or_none(row),
            _ => Some(row.number()),
        };
        if side != Some(Side::Server) {
            self.client.set(setting, value);
        }
        if side != Some(Side::Client) {
            self.server.set(setting, value);
        }
    }
}

// The next word as a number, if it isn't `none`.
fn number_or_none(row: &mut Row<'_>) -> Option<u64> {
    let word = row.word();
    if word == "none" {
        return None;
    }
    let mut named = Row::new(row.alloc, word);
    let number = named.number();
    row.fail_as(&named);
    Some(number)
}

impl EndSettings {
    fn set(&mut self, setting: Setting, value: Option<u64>) {
        let number = value.unwrap_or(0);
        match setting {
            Setting::Id => self.id = number,
            Setting::Idle => self.idle = number,
            Setting::Receive => self.receive = number,
            Setting::Stream => self.stream = number,
            Setting::Send => self.send = number,
            Setting::Bidi => self.bidi = number,
            Setting::Uni => self.uni = number,
            Setting::Datagrams => self.datagrams = value,
            Setting::DatagramSend => self.datagram_send = number,
            Setting::Rtt => self.rtt = number,
            Setting::Window => self.window = number,
            Setting::Takes => self.takes = number,
            Setting::Versions => self.versions = number,
            Setting::Strict => self.strict = number,
            Setting::Grease => self.grease = number,
            Setting::Max => self.max = number,
            Setting::Buffer => self.buffer = number,
            Setting::Total => self.total = number,
            Setting::Reset => self.reset = number,
            Setting::Retry => self.retry = number,
            Setting::Life => self.life = number,
            Setting::Log => self.log = number,
        }
    }

    /// In a story of connections the id of the end of this side.
    pub(crate) fn own_id(&self, side: Side, row: &mut Row<'_>) -> ConnectionId {
        let bytes = match side {
            Side::Client => &CLIENT,
            Side::Server => &SERVER,
        };
        match bytes.get(..self.id.min(21) as usize) {
            Some(bytes) => ConnectionId::new(bytes).unwrap(),
            None => {
                row.fail(RowFault::Form);
                ConnectionId::new(bytes).unwrap()
            }
        }
    }

    /// The settings of the endpoint.
    pub(crate) fn endpoint(&self, alloc: Global) -> Result<EndpointConfig, Memory> {
        let mut versions = Vec::new(alloc);
        if self.versions > 0 {
            versions.push(Version::One)?;
        }
        Ok(EndpointConfig {
            versions,
            grease_quic_bit: self.grease > 0,
            min_reset_interval: Span::from_millis(self.reset),
            max_udp_payload: 1_200,
        })
    }

    /// How it takes attempts, if it does.
    pub(crate) fn server(&self) -> Option<ServerConfig> {
        if self.takes == 0 {
            return None;
        }
        Some(ServerConfig {
            conn: self.conn(),
            max_incoming: self.max as usize,
            incoming_buffer_size: self.buffer,
            incoming_buffer_size_total: self.total,
            retry_token_lifetime: Span::from_millis(self.retry),
            validation_lifetime: Span::from_millis(self.life),
        })
    }

    /// With what its connections begin.
    pub(crate) fn conn(&self) -> ConnConfig {
        ConnConfig {
            limits: StreamLimits {
                receive_window: self.receive,
                stream_window: self.stream,
                send_window: self.send,
                max_bidi: self.bidi,
                max_uni: self.uni,
            },
            idle: match self.idle {
                0 => None,
                millis => Some(Span::from_millis(millis)),
            },
            initial_rtt: Span::from_millis(self.rtt),
            initial_window: self.window,
            datagram_receive: self.datagrams,
            datagram_send: self.datagram_send,
            version: Version::One,
        }
    }
}
