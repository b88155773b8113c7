//! A cell that is set once, and what a seat knows of it.
ghost use Rattle.std.specs.Prelude.{◌≡◌, ◌⊎◌, None, Some, IfSome, MatchOption, MatchResult};
ghost use Rattle.once_cell.specs.Once.{cell_name};
ghost use Rattle.qh_h3.specs.Known.{AreOne, IsOffered, Stays, first_of, own_of};

use once_cell::race::{Note, OnceBox};
use std::alloc::{AllocError, Global};
use std::mem;
use std::snapshot::Snapshot;

// A cell that is set once.
#[derive(Drop)]
pub(crate) struct Cell<T> {
    inner: OnceBox<T>,
}

// What a seat knows of a cell: its value, and whether the seat set it.
#[derive(Drop)]
pub(crate) struct Known<T> {
    note: Note<T>,
    own: Option<Snapshot<T>>,
}

impl<T: Drop> Cell<T> {
    // An empty cell, and what is known of it at first.
    pub(crate) fn new(alloc: Global) -> (Cell<T>, Known<T>)
        ensures { (result.1.note.cell ≡ cell_name result.0.inner) × (result.1.note.known ≡ None) × (own_of result.1.own ≡ None) }
    {
        let inner = OnceBox::new(alloc);
        let note = inner.note();
        (Cell { inner }, Known { note, own: None })
    }

    // The value, if there is one.
    pub(crate) fn get<'a>(&'a self, known: &mut Known<T>) -> Option<&'a T>
        requires { known.old.note.cell ≡ cell_name self.now.inner }
        ensures cell { known.new.note.cell ≡ known.old.note.cell }
        ensures own { own_of known.new.own ≡ own_of known.old.own }
        ensures value { MatchOption result (known.new.note.known ≡ None) (λ r. known.new.note.known ≡ Some r.now) }
        ensures stays { Stays known.old.note.known known.new.note.known }
    {
        self.inner.get_as(&mut known.note)
    }

    // Sets the value if there is none.
    pub(crate) fn set(
        &self,
        alloc: Global,
        known: &mut Known<T>,
        value: T,
    ) -> Result<(), AllocError>
        requires { known.old.note.cell ≡ cell_name self.now.inner }
        ensures cell { known.new.note.cell ≡ known.old.note.cell }
        ensures offered { IsOffered value known.old.note.known known.new.note.known (own_of known.old.own) (own_of known.new.own) }
        ensures done { MatchResult result (λ _. (x : T) × (known.new.note.known ≡ Some x)) (λ _. known.new ≡ known.old) }
    {
        let offer = Snapshot::of(&value);
        let boxed = Box::new(alloc, value)?;
        if self.inner.set_as(boxed, &mut known.note).is_ok() {
            known.own = Some(offer);
        }
        Ok(())
    }
}

impl<T> Known<T> {
    // What another seat then knows, which set nothing.
    pub(crate) fn again(&mut self) -> Known<T>
        ensures same { self.new ≡ self.old }
        ensures note { result.note ≡ self.old.note }
        ensures own { own_of result.own ≡ None }
    {
        Known {
            note: self.note.again(),
            own: None,
        }
    }

    // Two seats that both know the value know the same.
    pub(crate) fn compare(&mut self, other: &mut Known<T>)
        requires { self.old.note.cell ≡ other.old.note.cell }
        ensures one { AreOne self.old.note.known other.old.note.known }
        ensures this { self.new ≡ self.old }
        ensures that { other.new ≡ other.old }
    {
        self.note.compare(other.note.again());
    }
}

impl<T: Drop> Cell<T> {
    // Takes in what another seat knows. What both knew is one value.
    pub(crate) fn join(&self, known: &mut Known<T>, mut other: Known<T>)
        requires { (known.old.note.cell ≡ cell_name self.now.inner) × (other.note.cell ≡ cell_name self.now.inner) }
        ensures cell { known.new.note.cell ≡ known.old.note.cell }
        ensures this { Stays known.old.note.known known.new.note.known }
        ensures that { Stays other.note.known known.new.note.known }
        ensures own { own_of known.new.own ≡ first_of (own_of known.old.own) (own_of other.own) }
    {
        if self.get(&mut other).is_some() {
            mem::swap(&mut known.note, &mut other.note);
        }
        let Known { note, own } = other;
        known.note.compare(note);
        if known.own.is_none() {
            known.own = own;
        }
    }
}
