ghost use Rattle.std.specs.Prelude.{◌≡◌};
ghost use Rattle.qh_spec.specs.Link.{other};

/// An end of a connection.
#[derive(Clone, Copy, PartialEq, Eq)]
pub enum Side {
    /// The end that opened the connection.
    Client,
    /// The end that accepted it.
    Server,
}

impl Side {
    /// The end at the other side of the connection, `!side` in `quinn-proto`.
    pub fn other(self) -> Side
        ensures { result ≡ other self }
    {
        match self {
            Side::Client => Side::Server,
            Side::Server => Side::Client,
        }
    }
}

/// Whether a stream carries bytes both ways or from its initiator alone (RFC 9000, section 2.1).
#[derive(Clone, Copy, PartialEq, Eq)]
pub enum Dir {
    /// Both ends send.
    Bi,
    /// The initiator alone sends.
    Uni,
}

/// A packet number space (RFC 9000, section 12.3). There is no Handshake space: the session has no handshake keys.
#[derive(Clone, Copy, PartialEq, Eq)]
pub enum Space {
    /// That of Initial packets.
    Initial,
    /// That of 1-RTT packets.
    Data,
}
