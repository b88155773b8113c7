ghost use Rattle.std.specs.Prelude.{◌≡◌};
ghost use Rattle.qh_core.specs.Event.{IsDrainedTold, IsPolledEvent};
ghost use Rattle.qh_core.specs.Inner.{IsConnection};

use crate::{EndpointEvent, Event, Inner};

impl<S> Inner<S> {
    // What happened next, for the application.
    pub(crate) fn poll(&mut self) -> Option<Event>
        requires { IsConnection self.old }
        ensures told { IsPolledEvent self.old self.new result }
        ensures connection { IsConnection self.new }
    {
        if let Some(event) = self.space.streams.poll_event() {
            return Some(Event::Stream(event));
        }
        if self.is_lost_told {
            return None;
        }
        let Some(error) = &self.error else {
            return None;
        };
        let reason = error.copied();
        self.is_lost_told = true;
        Some(Event::ConnectionLost { reason })
    }

    // What the endpoint is to be told.
    pub(crate) fn poll_endpoint_events(&mut self) -> Option<EndpointEvent>
        requires { IsConnection self.old }
        ensures told { IsDrainedTold self.old self.new result }
        ensures connection { IsConnection self.new }
    {
        if self.is_drained_told {
            return None;
        }
        if !self.state.is_drained() {
            return None;
        }
        self.is_drained_told = true;
        Some(EndpointEvent::Drained)
    }
}
