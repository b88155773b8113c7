ghost use Rattle.std.specs.Prelude.{◌≡◌, true, false};
ghost use Rattle.qh_base.specs.declared.connection_error.ConnectionError.TheVariants.{LocallyClosed};
ghost use Rattle.qh_core.specs.Inner.{IsConnection, is_open};
ghost use Rattle.qh_core.specs.Receiving.{IsClosedWith, IsFaulted, IsDrainingFrom};
ghost use Rattle.qh_core.specs.Timers.{later, three_probes};
ghost use Rattle.qh_core.specs.declared.state.Close.TheVariants.{Application};

use crate::idle::three_probes;
use crate::{Close, Inner, State};
use qh_base::{
    ApplicationClose, ConnectionClose, ConnectionError, Moment, Reason, TransportError, VarInt,
};

impl<S> Inner<S> {
    // The application closes. Nothing where the connection is closed already.
    pub(crate) fn close(&mut self, now: Moment, error_code: VarInt, reason: Reason)
        requires { IsConnection self.old }
        ensures closed { is_open self.old.state ≡ true → IsClosedWith now (Application (record { error_code = error_code; reason = reason })) LocallyClosed self.old self.new }
        ensures kept { is_open self.old.state ≡ false → self.new ≡ self.old }
        ensures connection { IsConnection self.new }
    {
        if !self.state.is_open() {
            return;
        }
        let close = Close::Application(ApplicationClose { error_code, reason });
        self.close_with(now, close, ConnectionError::LocallyClosed);
    }

    // This end found a fault, and closes.
    pub(crate) fn close_by_fault(&mut self, now: Moment, error: TransportError)
        ensures { IsFaulted now error self.old self.new }
    {
        let close = Close::Connection(ConnectionClose {
            code: error.code,
            frame: error.frame,
            reason: error.reason.copied(),
        });
        self.close_with(now, close, ConnectionError::TransportError(error));
    }

    // The peer closed.
    pub(crate) fn drain(&mut self, now: Moment, error: ConnectionError)
        ensures { IsDrainingFrom now error self.old self.new }
    {
        self.state = State::Draining {
            until: self.closing_end(now),
        };
        self.error = Some(error);
    }

    fn close_with(&mut self, now: Moment, reason: Close, error: ConnectionError)
        ensures { IsClosedWith now reason error self.old self.new }
    {
        self.state = State::Closed {
            reason,
            is_close_due: true,
            until: self.closing_end(now),
        };
        self.error = Some(error);
    }

    // When a connection that ends now is forgotten.
    fn closing_end(&self, now: Moment) -> Moment
        ensures { result.0 ≡ later now.0 (three_probes self.now.space.rtt) }
    {
        now.plus(three_probes(self.space.rtt))
    }
}
