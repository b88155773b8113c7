//! What is held in front of a stream: a piece as it came, or several that were joined.
ghost use Rattle.std.specs.Prelude.{◌≡◌, ◌≤◌, ◌++◌, ◌↔◌, [], IfOk, IsTrue, OnErr, OnOk, drop, length, take};

use bytes::{Bytes, BytesMut};
use std::alloc::{AllocError, Global};
use std::marker::Model;

// Bytes in front. A contract sees them as a list. A run grows by doubling, so pieces of n bytes in all are joined in O(n).
#[derive(Drop)]
pub(crate) struct Front {
    kept: Kept,
}

#[derive(Drop)]
enum Kept {
    // A piece as it came.
    Piece(Bytes),
    // Pieces that were joined.
    Run(BytesMut),
}

impl Model for Front {
    ghost use Rattle.std.specs.Prelude.{ℕ, List};
    ghost use Rattle.qh_h3.specs.Front.{bytes_of};

    ghost Value = { List ℕ };

    ghost view = { λ f. bytes_of f.kept };
}

impl Front {
    // Nothing.
    pub(crate) fn new() -> Front
        ensures { result ≡ [] }
    {
        Front::of(Bytes::new())
    }

    // A piece.
    pub(crate) fn of(piece: Bytes) -> Front
        ensures { result ≡ piece }
    {
        Front {
            kept: Kept::Piece(piece),
        }
    }

    pub(crate) fn len(&self) -> usize
        ensures { result ≡ length self.now }
    {
        match &self.kept {
            Kept::Piece(piece) => piece.len(),
            Kept::Run(run) => run.len(),
        }
    }

    pub(crate) fn is_empty(&self) -> bool
        ensures { IsTrue result ↔ self.now ≡ [] }
    {
        match &self.kept {
            Kept::Piece(piece) => piece.is_empty(),
            Kept::Run(run) => run.is_empty(),
        }
    }

    pub(crate) fn as_slice(&self) -> &[u8]
        ensures { result.now ≡ self.now }
    {
        match &self.kept {
            Kept::Piece(piece) => piece.as_slice(),
            Kept::Run(run) => run.as_slice(),
        }
    }

    // Uses up so many bytes.
    pub(crate) fn advance(&mut self, count: usize)
        requires { count ≤ length self.old }
        ensures { self.new ≡ drop count self.old }
    {
        match &mut self.kept {
            Kept::Piece(piece) => piece.advance(count),
            Kept::Run(run) => run.advance(count),
        }
    }

    // Hands out so many bytes, without a copy.
    pub(crate) fn split_to(&mut self, count: usize) -> Result<Bytes, AllocError>
        requires { count ≤ length self.old }
        ensures front { IfOk result (λ b. b ≡ take count self.old) }
        ensures rest { OnOk result (self.new ≡ drop count self.old) }
        ensures err { OnErr result (self.new ≡ self.old) }
    {
        match &mut self.kept {
            Kept::Piece(piece) => piece.split_to(count),
            Kept::Run(run) => run.freeze_to(count),
        }
    }

    // Appends a piece.
    pub(crate) fn append(&mut self, alloc: Global, piece: &Bytes) -> Result<(), AllocError>
        ensures ok { OnOk result (self.new ≡ self.old ++ piece.now) }
        ensures err { OnErr result (self.new ≡ self.old) }
    {
        match &mut self.kept {
            Kept::Piece(first) => {
                let run = joined(alloc, first, piece)?;
                self.kept = Kept::Run(run);
                Ok(())
            }
            Kept::Run(run) => run.extend_from_slice(piece.as_slice()),
        }
    }
}

// Two pieces as a run.
fn joined(alloc: Global, front: &Bytes, back: &Bytes) -> Result<BytesMut, AllocError>
    ensures { IfOk result (λ run. run.items ≡ front.now ++ back.now) }
{
    let mut run = BytesMut::new(alloc);
    run.extend_from_slice(front.as_slice())?;
    run.extend_from_slice(back.as_slice())?;
    Ok(run)
}
