ghost use Rattle.std.specs.Prelude.{◌≡◌, true, false, MatchOption};
ghost use Rattle.qh_base.specs.declared.time.Moment.{Moment as AMoment};
ghost use Rattle.qh_core.specs.Event.{is_drained};
ghost use Rattle.qh_core.specs.Inner.{is_open};
ghost use Rattle.qh_core.specs.Sending.{is_close_due, without_close_due};
ghost use Rattle.qh_core.specs.Timers.{ends_at};
ghost use Rattle.qh_core.specs.declared.state.State.TheVariants.{Closed};

use qh_base::{ApplicationClose, ConnectionClose, Moment};

/// What a CONNECTION_CLOSE frame says (RFC 9000, section 19.19; quinn-proto, `Close`).
#[derive(Drop)]
pub enum Close {
    /// Of the transport (type 1c).
    Connection(ConnectionClose),
    /// Of the application (type 1d).
    Application(ApplicationClose),
}

/// How far a connection is (RFC 9000, section 10; quinn-proto, `State`).
#[derive(Drop)]
pub enum State {
    /// Packets go both ways.
    Established,
    /// This end closed (the closing state of section 10.2.1): it sends nothing but CONNECTION_CLOSE.
    Closed {
        /// What it closes with.
        reason: Close,
        /// Whether a CONNECTION_CLOSE is to be sent: it is at first, and again for each datagram that comes.
        is_close_due: bool,
        /// When it is forgotten.
        until: Moment,
    },
    /// The peer closed (section 10.2.2): nothing is sent.
    Draining {
        /// When it is forgotten.
        until: Moment,
    },
    /// Nothing is sent or taken any more.
    Drained,
}

impl State {
    /// Whether packets go both ways.
    pub fn is_open(&self) -> bool
        ensures { result ≡ is_open self.now }
    {
        matches!(self, State::Established)
    }

    /// Whether nothing is sent or taken any more.
    pub fn is_drained(&self) -> bool
        ensures { result ≡ is_drained self.now }
    {
        matches!(self, State::Drained)
    }

    // Whether a CONNECTION_CLOSE is to be sent.
    pub(crate) fn is_close_due(&self) -> bool
        ensures { result ≡ is_close_due self.now }
    {
        match self {
            State::Closed { is_close_due, .. } => *is_close_due,
            _ => false,
        }
    }

    // What the CONNECTION_CLOSE says that is to be sent.
    pub(crate) fn close_due(&self) -> Option<&Close>
        ensures { MatchOption result (is_close_due self.now ≡ false) (λ close. (until : AMoment) × (self.now ≡ Closed close.now true until)) }
    {
        match self {
            State::Closed {
                reason,
                is_close_due: true,
                ..
            } => Some(reason),
            _ => None,
        }
    }

    // A CONNECTION_CLOSE was sent: none is to be sent any more.
    pub(crate) fn told(&mut self)
        ensures { self.new ≡ without_close_due self.old }
    {
        if let State::Closed { is_close_due, .. } = self {
            *is_close_due = false;
        }
    }

    // When a connection that was closed is drained.
    pub(crate) fn ends_at(&self) -> Option<Moment>
        ensures { result ≡ ends_at self.now }
    {
        match self {
            State::Closed { until, .. } => Some(*until),
            State::Draining { until } => Some(*until),
            _ => None,
        }
    }
}
