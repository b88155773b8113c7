ghost use Rattle.std.specs.Prelude.{◌≡◌, ◌<◌, ◌+◌, ◌↔◌, ◌++◌, [], IfErr, IfOk, IsTrue, OnOk, None, Ok, false, true, length};
ghost use Rattle.qh_h3.specs.Buffers.{IsLook, held_of, left_by};
ghost use Rattle.qh_h3.specs.Typed.{IsNumberLook};
ghost use Rattle.qh_h3.specs.declared.frame.error.FrameStreamError.TheVariants.{Memory as Wanting};

use crate::FrameStreamError;
use crate::frame::find::{find, next_number, payload_left};
use crate::frame::front::Front;
use bytes::Bytes;
use qh_base::VarInt;
use qh_h3wire::Frame;
use std::alloc::{AllocError, Global};
use std::mem;

// What was taken of a stream and not handed out.
#[derive(Drop)]
pub(crate) struct Buffer {
    pub(crate) front: Front,
    // A piece that came behind it. It is joined to the front when a frame is looked for, so that no piece is lost for want of memory.
    pub(crate) more: Bytes,
    // How much payload of the DATA frame at hand is to come.
    pub(crate) left: u64,
    // Whether the end of the stream was taken.
    pub(crate) is_ended: bool,
}

impl Buffer {
    pub(crate) fn new() -> Buffer
        ensures { result ≡ record { front = []; more = []; left = 0; is_ended = false } }
    {
        Buffer {
            front: Front::new(),
            more: Bytes::new(),
            left: 0,
            is_ended: false,
        }
    }

    // Whether nothing is held.
    pub(crate) fn is_empty(&self) -> bool
        ensures { IsTrue result ↔ self.now.front ++ self.now.more ≡ [] }
    {
        self.front.is_empty() && self.more.is_empty()
    }

    // Whether the end was taken, and nothing is held.
    pub(crate) fn is_over(&self) -> bool
        ensures yes { result ≡ true → (self.now.is_ended ≡ true) × (self.now.front ++ self.now.more ≡ []) }
        ensures no { self.now.is_ended ≡ true → self.now.front ++ self.now.more ≡ [] → result ≡ true }
    {
        if self.is_ended {
            self.is_empty()
        } else {
            false
        }
    }

    // Brings what is held into one piece.
    fn join(&mut self, alloc: Global) -> Result<(), AllocError>
        ensures same { held_of self.new ≡ held_of self.old }
        ensures one { OnOk result (self.new.more ≡ []) }
    {
        self.lift();
        if self.more.is_empty() {
            return Ok(());
        }
        self.front.append(alloc, &self.more)?;
        self.more = Bytes::new();
        Ok(())
    }

    // Finds the next frame in what is held. None if it isn't whole yet.
    pub(crate) fn find(
        &mut self,
        alloc: Global,
        of_body: bool,
    ) -> Result<Option<Frame>, FrameStreamError>
        requires { self.old.left ≡ 0 }
        ensures look { IsLook of_body result (held_of self.old) (held_of self.new) }
        ensures one { result ≡ Ok None → self.new.more ≡ [] }
    {
        if self.join(alloc).is_err() {
            return Err(FrameStreamError::Memory);
        }
        let found = find(alloc, &mut self.front, of_body)?;
        self.left = left_behind(&found);
        Ok(found)
    }

    // Reads the number in front of what is held. None if it isn't whole yet.
    pub(crate) fn number(&mut self, alloc: Global) -> Result<Option<VarInt>, FrameStreamError>
        ensures look { IsNumberLook result (held_of self.old) (held_of self.new) }
        ensures one { result ≡ Ok None → self.new.more ≡ [] }
    {
        if self.join(alloc).is_err() {
            return Err(FrameStreamError::Memory);
        }
        Ok(next_number(&mut self.front))
    }

    // Sees to it that nothing is held behind an empty front.
    pub(crate) fn lift(&mut self)
        ensures same { held_of self.new ≡ held_of self.old }
        ensures front { self.new.front ≡ [] → self.new.more ≡ [] }
    {
        if self.front.is_empty() {
            self.front = Front::of(mem::replace(&mut self.more, Bytes::new()));
        }
    }

    // Drops what is held.
    pub(crate) fn clear(&mut self)
        ensures held { held_of self.new ≡ record { bytes = []; left = self.old.left; is_ended = self.old.is_ended } }
        ensures more { self.new.more ≡ [] }
    {
        self.front = Front::new();
        self.more = Bytes::new();
    }

    // Hands out what is held of the payload, up to the end of its first piece.
    pub(crate) fn cut(&mut self) -> Result<Bytes, FrameStreamError>
        requires held { 0 < length self.old.front }
        requires left { 0 < self.old.left }
        ensures piece { IfOk result (λ piece. (0 < length piece) × (length piece + self.new.left ≡ self.old.left)) }
        ensures gives { IfOk result (λ piece. self.old.front ++ self.old.more ≡ piece ++ (self.new.front ++ self.new.more)) }
        ensures is_ended { self.new.is_ended ≡ self.old.is_ended }
        ensures err { IfErr result (λ e. (e ≡ Wanting) × (self.new ≡ self.old)) }
    {
        let count = self.left.min(self.front.len() as u64) as usize;
        match self.front.split_to(count) {
            Ok(piece) => {
                self.left -= count as u64;
                Ok(piece)
            }
            Err(AllocError) => Err(FrameStreamError::Memory),
        }
    }
}

// How much payload is to come behind what was found.
fn left_behind(found: &Option<Frame>) -> u64
    ensures { result ≡ left_by (Ok found.now) }
{
    match found {
        Some(frame) => payload_left(frame),
        None => 0,
    }
}
