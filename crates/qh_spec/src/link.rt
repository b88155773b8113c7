use crate::Side;
use bytes::Bytes;

/// What happened on a link, seen from the two ends that use it.
#[derive(Drop)]
pub enum Event {
    /// This end sent a datagram.
    Sent { side: Side, datagram: Bytes },
    /// This end was given a datagram.
    Given { side: Side, datagram: Bytes },
    /// This end asked, and no datagram was ready for it.
    Dry { side: Side },
    /// A round began at this moment, in nanoseconds.
    Round { moment: u64 },
    /// The link failed.
    Fault,
}

/// Which of the sends on a link. They are counted from 1, whichever end sends.
#[derive(Clone, Copy)]
pub enum Select {
    /// The one with this number.
    One(u64),
    /// Every one.
    All,
    /// Those whose numbers this divides.
    Each(u64),
}

/// What a link in memory does to the datagrams that are sent on it.
#[derive(Drop)]
pub enum Upset {
    /// Gives them never. This wins over `Twice` and `Late`.
    Lose(Select),
    /// Gives them twice, one right after the other.
    Twice(Select),
    /// Gives them this many rounds later than it would. Of several that fit, the last counts.
    Late(Select, u64),
    /// Lets the send with this number fail.
    Fail(u64),
    /// Gives this end, in this round, bytes that nobody sent, after the datagrams of that round.
    Forge {
        round: u64,
        side: Side,
        bytes: Bytes,
    },
}
