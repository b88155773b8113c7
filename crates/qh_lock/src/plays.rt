//! The kinds of step that a seat makes on the table, and what each tells it.
ghost use Rattle.qh_lock.specs.Turns.{drawn, compared, looked, published, kept_half, given_half, both, spent};

use crate::kept::Kept;
use crate::view::View;
use atomic_table::{Join, Play, Split};
use std::marker::PhantomData;

// The next ticket is drawn, or nothing changes.
pub(crate) struct Draw;

impl<S, E> Play<S, View<E>> for Draw {
    ghost then = { drawn };
}

// The ticket that is served is read. If it is the seat's own, the seat has the turn and the value.
pub(crate) struct Look<T> {
    of: PhantomData<T>,
}

impl<T: Kept> Play<Option<T>, View<T::Entry>> for Look<T> {
    ghost then = { looked T.history T.is_ready };
}

// The value is put back, and the next ticket is served.
pub(crate) struct Publish<T> {
    of: PhantomData<T>,
}

impl<T: Kept> Play<Option<T>, View<T::Entry>> for Publish<T> {
    ghost then = { published T.history T.is_ready };
}

// A view is cut in two, and two views are made one.
pub(crate) struct Halves;

impl<E> Split<View<E>> for Halves {
    ghost left = { kept_half };

    ghost right = { given_half };
}

impl<E> Join<View<E>> for Halves {
    ghost both = { both };

    ghost spent = { spent };
}

// After a join, the two histories that were seen are compared.
pub(crate) struct Settle;

impl<S, E> Play<S, View<E>> for Settle {
    ghost then = { compared };
}
