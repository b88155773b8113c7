ghost use Rattle.std.specs.Prelude.{◌≡◌, List, length, ⊤};

/// A value that stores its history: a list to which each change adds at most one entry.
pub trait Kept: Drop {
    /// One entry of its history: what a change of the value adds.
    type Entry;

    /// What was done to it, in order.
    ghost history: { Self → List Self.Entry };

    /// It may be put under the lock. Every value may, unless its type says otherwise.
    ghost is_ready: { Self → Type 0 } = { λ _. ⊤ };

    /// What histories the type permits, as those that lead to such a value.
    ghost is_legal: { List Self.Entry → Type 0 };

    /// The length of its history.
    fn entries(&self) -> u64
        ensures { result ≡ length (history self.now) };

    /// Every value has a history that its type permits.
    ghost keeps: { (x : Self) → is_legal (history x) };
}
