//! Laws of transcripts: what a projection sees of two, one after the other, is what it sees of each.

ghost use Rattle.std.specs.Prelude.{◌≡◌, ◌++◌, ◌||◌, ℕ, true, false, List, [], ◌∷◌};
ghost use Rattle.qh_spec.specs.EventRows.{some_acts};
ghost use Rattle.qh_spec.specs.Transcript.{Act, handed_in, handed_out, written, finished, pieces_read, read, ended};

/// The datagrams that were handed in and out.
pub fn datagrams()
    ensures taken { (t u : List Act) → handed_in (t ++ u) ≡ handed_in t ++ handed_in u }
    ensures given { (t u : List Act) → handed_out (t ++ u) ≡ handed_out t ++ handed_out u }
{}

/// What was written on a stream, and whether it was finished.
pub fn writing()
    ensures bytes { (t u : List Act) (id : ℕ) → written (t ++ u) id ≡ written t id ++ written u id }
    ensures end { (t u : List Act) (id : ℕ) → finished (t ++ u) id ≡ finished t id || finished u id }
{}

/// What was read of a stream, and whether its end was.
pub fn reading()
    ensures pieces { (t u : List Act) (id : ℕ) → pieces_read (t ++ u) id ≡ pieces_read t id ++ pieces_read u id }
    ensures bytes { (t u : List Act) (id : ℕ) → read (t ++ u) id ≡ read t id ++ read u id }
    ensures end { (t u : List Act) (id : ℕ) → ended (t ++ u) id ≡ ended t id || ended u id }
{}

/// What is seen of two streams in one transcript.
pub fn rows()
    ensures out { handed_out some_acts ≡ (9 ∷ []) ∷ [] }
    ensures taken { handed_in some_acts ≡ (8 ∷ []) ∷ [] }
    ensures written { written some_acts 0 ≡ 1 ∷ 2 ∷ 4 ∷ [] }
    ensures other { written some_acts 4 ≡ 3 ∷ [] }
    ensures finished { (finished some_acts 0 ≡ true) × (finished some_acts 4 ≡ false) }
    ensures pieces { pieces_read some_acts 4 ≡ (0, 5 ∷ 6 ∷ []) ∷ (2, 7 ∷ []) ∷ [] }
    ensures read { (read some_acts 4 ≡ 5 ∷ 6 ∷ 7 ∷ []) × (read some_acts 0 ≡ []) }
    ensures ended { (ended some_acts 4 ≡ true) × (ended some_acts 0 ≡ false) }
{}
