ghost use Rattle.std.specs.Prelude.{◌≡◌, [], Bool, None, Some, false, OnOk, OnErr};
ghost use Rattle.std.specs.Option.{option_map};
ghost use Rattle.qh_core.specs.Inner.{is_open, with_space};
ghost use Rattle.qh_core.specs.Receiving.{IsClosedHeard};
ghost use Rattle.qh_core.specs.Sending.{without_close_due};
ghost use Rattle.qh_core.specs.Timers.{restarted, sent_at};
ghost use Rattle.qh_space.specs.Space.{AreUnused};
ghost use Rattle.qh_streams.specs.Items.{first_items, kept_in};
ghost use Rattle.qh_streams.specs.Streams.{counts_of};

use crate::{Inner, State};
use qh_base::{ConnectionId, Memory, Moment};
use qh_streams::Item;
use std::alloc::Global;

impl<S> Inner<S> {
    // A CONNECTION_CLOSE was sent: none is to be sent any more.
    pub(crate) fn close_told(&mut self)
        ensures { self.new ≡ record self.old { state = without_close_due self.old.state } }
    {
        self.state.told();
    }

    // A datagram came to an end that isn't open. One that closed says so again, unless the peer closed too.
    pub(crate) fn hear_closed(&mut self, brings_close: bool)
        requires { is_open self.old.state ≡ false }
        ensures { IsClosedHeard brings_close self.old self.new }
    {
        if let State::Closed {
            is_close_due,
            until,
            ..
        } = &mut self.state
        {
            if brings_close {
                self.state = State::Draining { until: *until };
            } else {
                *is_close_due = true;
            }
        }
    }

    // A packet was accepted.
    pub(crate) fn on_packet_accepted(&mut self, now: Moment)
        ensures { self.new ≡ record self.old { idle = restarted now self.old.idle } }
    {
        self.idle.on_accepted(now);
    }

    // An ack-eliciting packet was sent.
    pub(crate) fn on_packet_sent(&mut self, now: Moment)
        ensures { self.new ≡ record self.old { idle = sent_at now self.old.idle } }
    {
        self.idle.on_sent(now);
    }

    // The peer is heard under another id from now on.
    pub(crate) fn set_remote_id(&mut self, id: ConnectionId)
        ensures { self.new ≡ record self.old { remote_id = id } }
    {
        self.remote_id = id;
    }

    // Keeps a log from now on of what the peer's frames bring the streams.
    pub(crate) fn start_log(&mut self, alloc: Global) -> Result<(), Memory>
        requires unused { AreUnused self.old.space.streams self.old.space.streams.peer }
        requires arrived { (two_way : Bool) → (counts_of self.old.space.streams two_way).arrived ≡ 0 }
        requires off { self.old.space.log ≡ None }
        ensures ok { OnOk result (self.new ≡ with_space self.old (record self.old.space { log = Some (first_items self.old.space.streams.peer) })) }
        ensures err { OnErr result (self.new ≡ self.old) }
    {
        self.space.start_log(alloc)
    }

    // Hands over the items that came since.
    pub(crate) fn take_items(&mut self, alloc: Global) -> Option<Vec<Item>>
        ensures taken { kept_in result ≡ self.old.space.log }
        ensures rest { self.new ≡ with_space self.old (record self.old.space { log = option_map (λ _. []) self.old.space.log }) }
    {
        self.space.take_items(alloc)
    }
}
