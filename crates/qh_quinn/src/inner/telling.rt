ghost use Rattle.std.specs.Prelude.{◌≡◌, false};
ghost use Rattle.qh_conn.specs.Whole.{IsWhole};
ghost use Rattle.qh_quinn.specs.Telling.{AreTold};
ghost use Rattle.qh_quinn.specs.Waiting.{interests_in, nudged_if};

use super::StateInner;
use crate::waiting::nudge_handshake;
use qh_conn::Event;

impl<S> StateInner<S> {
    // The application's events: what they tell the connection holds, but that the handshake is complete.
    pub(crate) fn forward_app_events(&mut self)
        requires { IsWhole self.old.connection }
        ensures told { AreTold self.old.is_connected self.old.connection self.new.is_connected self.new.connection }
        ensures whole { IsWhole self.new.connection }
        ensures due { self.new.connection.is_connected_due ≡ false }
        ensures waiting { interests_in self.new.waiting.items ≡ interests_in self.old.waiting.items }
        ensures woken { self.new.waiting.items ≡ nudged_if self.old.connection.is_data_due self.old.waiting.items }
        ensures rest { self.new ≡ record self.old { connection = self.new.connection; is_connected = self.new.is_connected; waiting = self.new.waiting } }
    {
        while let Some(event) = self.connection.poll() {
            match event {
                Event::Connected => self.is_connected = true,
                Event::HandshakeDataReady => nudge_handshake(&mut self.waiting),
                _ => {}
            }
        }
    }
}
