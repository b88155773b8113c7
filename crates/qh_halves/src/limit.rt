ghost use Rattle.std.specs.Prelude.{◌≡◌, false};
ghost use Rattle.qh_buffers.specs.declared.send_buffer.Mark.TheVariants.{Sent, Acked};
ghost use Rattle.qh_halves.specs.Limit.{is_due, acked_at, lost_at, owes_value};
ghost use Rattle.qh_half.specs.Recv.{is_queued_mark};

use qh_buffers::Mark;

/// A limit that was announced to the peer in a MAX frame, and what was done with that frame (RFC 9000, section 4).
#[derive(Clone, Copy)]
pub struct AnnouncedLimit {
    /// The greatest that was announced.
    pub value: u64,
    /// What was done with the frame that says it.
    pub mark: Mark,
}

impl AnnouncedLimit {
    /// A limit that the peer knows.
    pub fn new(value: u64) -> AnnouncedLimit
        ensures { result ≡ record { value = value; mark = Acked } }
    {
        AnnouncedLimit {
            value,
            mark: Mark::Acked,
        }
    }

    /// Whether a frame is to be sent if the limit is `limit` now: it rose, or the last frame is lost.
    pub fn is_due(self, limit: u64) -> bool
        ensures { result ≡ is_due self limit }
    {
        self.mark == Mark::Queued || self.value < limit
    }

    /// The limit once a frame with this value is sent.
    pub fn sent(value: u64) -> AnnouncedLimit
        ensures { result ≡ record { value = value; mark = Sent } }
    {
        AnnouncedLimit {
            value,
            mark: Mark::Sent,
        }
    }

    /// The limit once a frame with this value is acknowledged.
    pub fn acked(self, value: u64) -> AnnouncedLimit
        ensures { result ≡ acked_at value self }
    {
        if value != self.value {
            return self;
        }
        AnnouncedLimit {
            value,
            mark: Mark::Acked,
        }
    }

    /// The limit once a frame with this value is lost: the last one waits again.
    pub fn lost(self, value: u64) -> AnnouncedLimit
        ensures { result ≡ lost_at value self }
    {
        if value != self.value {
            return self;
        }
        AnnouncedLimit {
            value,
            mark: self.mark.lost(),
        }
    }

    /// Whether a frame with this value is still to be acknowledged.
    pub fn owes(self, value: u64) -> bool
        ensures { result ≡ owes_value self value }
    {
        value == self.value && self.mark != Mark::Acked
    }
}
