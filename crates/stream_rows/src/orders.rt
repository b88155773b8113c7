//! Three frames of which one is lost, one sent again and one acknowledged, in each order.
ghost use Rattle.std.specs.Prelude.{IfOk, IfSome};
ghost use Rattle.qh_streams.specs.Streams.{IsOut, KeepsOut};

use crate::streams::{StreamsEnd, hand_over, put_owed};
use qh_base::Memory;
use qh_streams::{SentFrame, Streams};
use row_text::{RowFault, Words};
use std::alloc::Global;

// How much room there is for each frame.
const ROOM: usize = 1_200;

/// An end writes three frames, and the second and third come to the other. The first is lost, the second sent again and the
/// third acknowledged, in the order of the row's words, and then the second is acknowledged. Tells whether something of the second
/// was still to be acknowledged before.
pub(crate) fn settle(
    alloc: Global,
    from: &mut StreamsEnd,
    to: &mut StreamsEnd,
    words: &mut Words<'_>,
    out: &mut Vec<u8>,
) -> Result<(), RowFault> {
    let mut packet = Vec::new(alloc);
    let is_owed = settle_three(alloc, &mut from.streams, &mut packet, words)?;
    match hand_over(alloc, &packet, to) {
        Ok(()) => put_owed(out, is_owed),
        Err(_) => Err(RowFault::Form),
    }
}

// Writes three frames, the last two behind one another, and tells of them.
fn settle_three(
    alloc: Global,
    streams: &mut Streams,
    packet: &mut Vec<u8>,
    words: &mut Words<'_>,
) -> Result<bool, RowFault> {
    let mut lost = Vec::new(alloc);
    let Some(first) = send_one(alloc, streams, &mut lost)? else {
        return Err(RowFault::Form);
    };
    let Some(second) = send_one(alloc, streams, packet)? else {
        return Err(RowFault::Form);
    };
    let Some(third) = send_one(alloc, streams, packet)? else {
        return Err(RowFault::Form);
    };
    tell(streams, (&first, &second, &third), words.next())?;
    tell(streams, (&first, &second, &third), words.next())?;
    tell(streams, (&first, &second, &third), words.next())?;
    let is_owed = streams.again(&second);
    streams.acked(second);
    Ok(is_owed)
}

// Writes one frame, behind what stands there.
fn send_one(
    alloc: Global,
    from: &mut Streams,
    out: &mut Vec<u8>,
) -> Result<Option<SentFrame>, Memory>
    ensures is_out { IfOk result (λ o. IfSome o (IsOut from.new)) }
    ensures keeps_out { KeepsOut from.old from.new }
{
    let mut sent = Vec::new(alloc);
    from.write_frames(ROOM, out, &mut sent)?;
    Ok(sent.pop())
}

// Tells of one of three frames: that the first is lost, the second to be sent again, or the third acknowledged.
fn tell(
    streams: &mut Streams,
    frames: (&SentFrame, &SentFrame, &SentFrame),
    word: &str,
) -> Result<(), RowFault>
    requires first { IsOut streams.old frames.0.now }
    requires second { IsOut streams.old frames.1.now }
    requires third { IsOut streams.old frames.2.now }
    ensures keeps_out { KeepsOut streams.old streams.new }
{
    let (first, second, third) = frames;
    match word {
        "lost" => streams.lost(first.clone()?),
        "again" => {
            streams.again(second);
        }
        "acked" => streams.acked(third.clone()?),
        _ => return Err(RowFault::Form),
    }
    Ok(())
}
