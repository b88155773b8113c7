ghost use Rattle.std.specs.Prelude.{ℕ, List, [], ◌∷◌, ◌++◌};
ghost use Rattle.qh_lock.specs.Places.{AreBelow, IsAscending};

/// The places of a seat's own entries stay in the order in which they were made: `unlock` puts the place of an added entry,
/// which is the length of the history before it, behind them, and they lie below that.
pub fn own_places_ascend()
    ensures { (own : List ℕ) (front : ℕ) → AreBelow front own → IsAscending own → IsAscending (own ++ front ∷ []) }
{}
