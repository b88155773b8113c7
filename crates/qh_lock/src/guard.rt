ghost use Rattle.std.specs.Prelude.{◌≡◌, ◌-◌, ◌^◌, ◌<◌};

use crate::lock::Mutex;

/// The value, while its holder has the turn. It is given back by `unlock` alone: no guard can be dropped.
///
/// `M` is the way to the lock, a reference to it. As a parameter it keeps the lifetime out of this struct.
pub struct Held<M, T> {
    pub(crate) mutex: M,
    pub(crate) value: T,
    pub(crate) ticket: u64,
    ghost small: { ticket < 2 ^ 64 - 1 },
}

/// The value under a mutex, while its holder has the turn.
pub type Guard<'a, T> = Held<&'a Mutex<T>, T>;

impl<M, T> Held<M, T> {
    ghost use Rattle.std.specs.Borrow.{Lends, sem};
    ghost use Rattle.qh_lock.specs.contracts.guard.Held.{the_row};
    ghost use Rattle.qh_lock.specs.Guards.{value_of, with_value};

    /// The value, to read and to write.
    pub fn value(&mut self) -> &mut T
        ensures* writes_back { sem 𝓛 (Lends (the_row M.row T.row) T.row self.entry result (λ w. with_value self.old w)) }
        ensures value { result.now ≡ value_of self.old }
    {
        &mut self.value
    }
}
