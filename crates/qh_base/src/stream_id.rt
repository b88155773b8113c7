ghost use Rattle.std.specs.Prelude.{◌≡◌, ◌<◌, ◌^◌, ◌/◌, ◌%◌, ◌↔◌, IsTrue};
ghost use Rattle.qh_spec.specs.StreamId.{side_bit, dir_bit, stream_id};

use crate::{Dir, Side};

/// The identifier of a stream (RFC 9000, section 2.1). Any number of 64 bits names one here; those from 2^62 on have no
/// form on the wire.
#[derive(Clone, Copy, PartialEq, Eq, PartialOrd, Ord, Hash)]
pub struct StreamId(pub u64);

impl StreamId {
    /// The index-th stream, counted from 0, of those that this side opens in this direction.
    pub fn new(side: Side, dir: Dir, index: u64) -> StreamId
        requires { index < 2 ^ 60 }
        ensures { result.0 ≡ stream_id side dir index }
    {
        let side_bit = match side {
            Side::Client => 0,
            Side::Server => 1,
        };
        let dir_bit = match dir {
            Dir::Bi => 0,
            Dir::Uni => 1,
        };
        StreamId(4 * index + 2 * dir_bit + side_bit)
    }

    /// The side that opens the stream.
    pub fn initiator(self) -> Side
        ensures { side_bit result ≡ self.0 % 2 }
    {
        if self.0 % 2 == 0 {
            Side::Client
        } else {
            Side::Server
        }
    }

    /// Whether both sides send on it.
    pub fn dir(self) -> Dir
        ensures { dir_bit result ≡ self.0 / 2 % 2 }
    {
        if self.0 / 2 % 2 == 0 {
            Dir::Bi
        } else {
            Dir::Uni
        }
    }

    /// How many streams of its initiator and direction come before it.
    pub fn index(self) -> u64
        ensures { result ≡ self.0 / 4 }
    {
        self.0 / 4
    }

    /// Whether the stream carries a request: a client opens it, and both sides send (RFC 9114, section 6.1).
    pub fn is_request(self) -> bool
        ensures { IsTrue result ↔ (self.0 % 4 ≡ 0) }
    {
        self.0 % 4 == 0
    }
}
