ghost use Rattle.std.specs.Prelude.{◌≡◌};
ghost use Rattle.qh_halves.specs.Counts.{count_limit, new_counts, with_max_opened};

use crate::AnnouncedLimit;

/// The greatest count of streams in one direction (RFC 9000, section 4.6).
pub const MAX_STREAMS: u64 = 1 << 60;

/// How many streams of one direction there were.
#[derive(Clone, Copy)]
pub struct StreamCounts {
    /// How many this end opened.
    pub opened: u64,
    /// How many the peer permits it to open.
    pub max_opened: u64,
    /// How many the peer opened: those before the last that a frame named are open too.
    pub arrived: u64,
    /// How many of these were given to the application.
    pub accepted: u64,
    /// How many of these are closed: each half is done.
    pub closed: u64,
    /// How many of them may be open at once.
    pub max_concurrent: u64,
    /// The count that was announced to the peer.
    pub announced: AnnouncedLimit,
}

impl StreamCounts {
    /// No streams. The peer knows the first count, which is the limit, at most 2^60.
    pub fn new(max_concurrent: u64) -> StreamCounts
        ensures { result ≡ new_counts max_concurrent }
    {
        StreamCounts {
            opened: 0,
            max_opened: 0,
            arrived: 0,
            accepted: 0,
            closed: 0,
            max_concurrent,
            announced: AnnouncedLimit::new(max_concurrent.min(MAX_STREAMS)),
        }
    }

    /// The count that the peer may open: those that are closed and the limit, at most 2^60. It never falls.
    pub fn limit(self) -> u64
        ensures { result ≡ count_limit self }
    {
        let limit = self.closed.saturating_add(self.max_concurrent);
        limit.min(MAX_STREAMS).max(self.announced.value)
    }

    /// The counts once the peer permits `count` streams, at most 2^60. It never falls.
    pub fn with_max_opened(self, count: u64) -> StreamCounts
        ensures { result ≡ with_max_opened count self }
    {
        StreamCounts {
            max_opened: self.max_opened.max(count.min(MAX_STREAMS)),
            ..self
        }
    }
}
