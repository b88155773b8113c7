ghost use Rattle.std.specs.Prelude.{◌≡◌, ℕ, List};
ghost use Rattle.qh_stateless.specs.Words.{and_word};

/// A source of random words.
pub trait Words {
    /// The words that it has given, in order; past 2^64 - 1 of them, the later ones aren't told.
    ghost given: { Self → List ℕ };

    /// Gives the next word.
    fn next(&mut self) -> u64
        ensures { given self.new ≡ and_word (given self.old) result };
}
