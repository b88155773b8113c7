ghost use Rattle.std.specs.Prelude.{◌≡◌, ◌<◌, length};
ghost use Rattle.qh_h3.specs.Finding.{IsFound, IsStep, is_passed, is_short as short, is_unknown as unknown, left_of};
ghost use Rattle.qh_h3.specs.Typed.{IsNumber};
ghost use Rattle.qh_h3.specs.declared.frame.find.Step.TheVariants as steps;

use crate::FrameStreamError;
use crate::frame::front::Front;
use qh_base::{VarInt, get_varint};
use qh_h3wire::{Frame, FrameError};
use std::alloc::Global;

// What stands in front of bytes.
#[derive(Drop)]
pub(crate) enum Step {
    // A frame that is skipped.
    Skipped,
    // A frame that is handed out.
    Found(Frame),
    // No whole frame.
    Short,
    // A frame at fault, or want of memory.
    Halted(FrameStreamError),
}

// Whether it is a DATA frame without a byte, which the reader of a body passes over.
fn passes(of_body: bool, frame: &Frame) -> bool
    ensures { result ≡ is_passed of_body frame.now }
{
    match frame {
        Frame::DataLen(length) => of_body && *length == 0,
        _ => false,
    }
}

// How much payload is to come.
pub(crate) fn payload_left(frame: &Frame) -> u64
    ensures { result ≡ left_of frame.now }
{
    match frame {
        Frame::DataLen(length) => *length,
        _ => 0,
    }
}

// Reads the frame in front, and uses it up unless it is refused.
fn next_step(alloc: Global, held: &mut Front, of_body: bool) -> Step
    ensures step { IsStep of_body result held.old held.new }
    ensures shorter { result ≡ steps.Skipped → length held.new < length held.old }
{
    let (answer, used) = Frame::decode(alloc, held.as_slice());
    match answer {
        Ok(frame) => {
            held.advance(used);
            if passes(of_body, &frame) {
                Step::Skipped
            } else {
                Step::Found(frame)
            }
        }
        Err(error) => {
            if is_unknown(&error) {
                held.advance(used);
                return Step::Skipped;
            }
            if is_short(&error) {
                return Step::Short;
            }
            Step::Halted(FrameStreamError::of_frame(error))
        }
    }
}

// Whether the frame is of an unknown type.
fn is_unknown(error: &FrameError) -> bool
    ensures { result ≡ unknown error.now }
{
    matches!(error, FrameError::UnknownFrame(_))
}

// Whether the frame is cut.
fn is_short(error: &FrameError) -> bool
    ensures { result ≡ short error.now }
{
    matches!(error, FrameError::Incomplete(_))
}

// Finds the next frame that isn't skipped, and uses it up with those before it. None if it isn't whole yet. A frame that is refused stays.
pub(crate) fn find(
    alloc: Global,
    held: &mut Front,
    of_body: bool,
) -> Result<Option<Frame>, FrameStreamError>
    ensures { IsFound of_body result held.old held.new }
{
    loop {
        match next_step(alloc, held, of_body) {
            Step::Skipped => {}
            Step::Found(frame) => return Ok(Some(frame)),
            Step::Short => return Ok(None),
            Step::Halted(error) => return Err(error),
        }
    }
}

// Reads the number in front, and uses it up. None if it isn't whole yet.
pub(crate) fn next_number(held: &mut Front) -> Option<VarInt>
    ensures { IsNumber result held.old held.new }
{
    match get_varint(held.as_slice()) {
        Some((number, used)) => {
            held.advance(used);
            Some(number)
        }
        None => None,
    }
}
