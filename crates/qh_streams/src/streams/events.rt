ghost use Rattle.std.specs.Prelude.{◌≡◌};
ghost use Rattle.qh_streams.specs.Streams.{IsPolled, IsWritablePolled, KeepsOut};

use crate::{StreamEvent, Streams};
use qh_base::StreamId;

impl Streams {
    /// What happened next; None exactly if nothing is left to be told. Streams on which bytes may be written again come
    /// first, then the rest in the order in which it happened.
    pub fn poll_event(&mut self) -> Option<StreamEvent>
        ensures told { IsPolled self.old self.new result }
        ensures keeps_out { KeepsOut self.old self.new }
    {
        if let Some(id) = self.poll_writable() {
            return Some(StreamEvent::Writable { id });
        }
        self.events.pop_front()
    }

    // The first stream on which bytes may be written again that the limits forbade which all share. Those on which none may
    // for other reasons are forgotten.
    fn poll_writable(&mut self) -> Option<StreamId>
        ensures { IsWritablePolled self.old self.new result }
    {
        if self.send.write_limit() == 0 {
            return None;
        }
        while let Some(id) = self.connection_blocked.pop_first() {
            if self.send.is_writable(id) {
                return Some(StreamId(id));
            }
        }
        None
    }
}
