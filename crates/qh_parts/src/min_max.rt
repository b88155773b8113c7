ghost use Rattle.std.specs.Prelude.{◌≡◌, ◌+◌, ◌≤◌, ◌∷◌, All, Contains};
ghost use Rattle.qh_parts.specs.MinMax.{no_samples, all_three, with_second, with_third, without_first, starts_anew, ranked, moved_on, aged, with_sample, updated, list_of};

use std::marker::Model;

/// For how many rounds a measurement counts.
const WINDOW: u64 = 10;

/// A measurement, and the round that it was made in.
#[derive(Clone, Copy)]
pub struct Sample {
    pub round: u64,
    pub value: u64,
}

/// The greatest sample of the window, and the two that may follow it.
#[derive(Clone, Copy)]
pub struct Samples {
    pub first: Sample,
    pub second: Sample,
    pub third: Sample,
}

/// The greatest measurement of the last ten rounds, by Kathleen Nichols' windowed filter: its three samples take
/// constant space, and almost always tell what all the measurements would. A contract sees the samples.
#[derive(Clone, Copy)]
pub struct MinMax {
    samples: Samples,
}

impl Model for MinMax {
    ghost use Rattle.qh_parts.specs.declared.min_max.Samples.{Samples};
    ghost use Rattle.qh_parts.specs.MinMax.{IsInOrder};

    ghost Value = { Samples };

    ghost view = { λ m. m.samples };

    ghost invariant = { λ m. IsInOrder m.samples };

    ghost inverse = { λ s. record { samples = s } };
}

impl MinMax {
    /// A filter without measurements.
    pub fn new() -> MinMax
        ensures { result ≡ no_samples }
    {
        MinMax {
            samples: Samples::all(Sample { round: 0, value: 0 }),
        }
    }

    /// The greatest measurement that counts, 0 where there is none.
    pub fn get(&self) -> u64
        ensures { result ≡ self.now.first.value }
    {
        self.samples.first.value
    }

    /// Forgets all measurements.
    pub fn reset(&mut self)
        ensures { self.new ≡ no_samples }
    {
        *self = MinMax::new();
    }

    /// Takes a measurement. Rounds never fall.
    pub fn update_max(&mut self, round: u64, measurement: u64)
        requires { self.old.third.round ≤ round }
        ensures exact { self.new ≡ updated self.old round measurement }
        ensures greatest { measurement ≤ self.new.first.value }
        ensures recent { round ≤ self.new.first.round + 10 }
        ensures rounds { self.new.third.round ≤ round }
        // Each sample was there, or is this measurement.
        ensures given { All
            (Contains (record { round = round; value = measurement } ∷ list_of self.old))
            (list_of self.new) }
    {
        let sample = Sample {
            round,
            value: measurement,
        };
        self.samples = self.samples.update(sample);
    }
}

impl Samples {
    // All three are this one.
    fn all(sample: Sample) -> Samples
        ensures { result ≡ all_three sample }
    {
        Samples {
            first: sample,
            second: sample,
            third: sample,
        }
    }

    // The samples after one more.
    #[tactic(auto, unfolding(crate::specs::MinMax::with_sample))]
    fn update(self, sample: Sample) -> Samples
        requires first { self.first.round ≤ sample.round }
        requires second { self.second.round ≤ sample.round }
        requires third { self.third.round ≤ sample.round }
        ensures { result ≡ with_sample self sample }
    {
        if self.is_outdone(sample) {
            return Samples::all(sample);
        }
        self.rank(sample).grow_old(sample)
    }

    // Whether nothing that was kept counts beside the sample.
    fn is_outdone(self, sample: Sample) -> bool
        requires { self.third.round ≤ sample.round }
        ensures { result ≡ starts_anew self sample }
    {
        self.first.value == 0
            || sample.value >= self.first.value
            || sample.round - self.third.round > WINDOW
    }

    // The sample stands in the place of what isn't greater, behind the first.
    #[tactic(auto, unfolding(crate::specs::MinMax::ranked))]
    fn rank(self, sample: Sample) -> Samples
        ensures { result ≡ ranked self sample }
    {
        if sample.value >= self.second.value {
            return self.with_second(sample);
        }
        if sample.value >= self.third.value {
            return self.with_third(sample);
        }
        self
    }

    // A quarter and half of the window leave less of samples of one round, and the whole window moves on.
    #[tactic(auto, unfolding(crate::specs::MinMax::aged))]
    fn grow_old(self, sample: Sample) -> Samples
        requires first { self.first.round ≤ sample.round }
        requires second { self.second.round ≤ sample.round }
        ensures { result ≡ aged self sample }
    {
        let age = sample.round - self.first.round;
        if age > WINDOW {
            return self.move_on(sample);
        }
        if self.second.round == self.first.round && age > WINDOW / 4 {
            return self.with_second(sample);
        }
        if self.third.round == self.second.round && age > WINDOW / 2 {
            return self.with_third(sample);
        }
        self
    }

    // The first goes, and so does the one behind it where it is too old.
    #[tactic(auto, unfolding(crate::specs::MinMax::moved_on))]
    fn move_on(self, sample: Sample) -> Samples
        requires { self.second.round ≤ sample.round }
        ensures { result ≡ moved_on self sample }
    {
        if sample.round - self.second.round > WINDOW {
            return self.without_first(sample).without_first(sample);
        }
        self.without_first(sample)
    }

    // The first goes, and the sample comes last.
    fn without_first(self, sample: Sample) -> Samples
        ensures { result ≡ without_first self sample }
    {
        Samples {
            first: self.second,
            second: self.third,
            third: sample,
        }
    }

    // The sample stands in the place of the second and the third.
    fn with_second(self, sample: Sample) -> Samples
        ensures { result ≡ with_second self sample }
    {
        Samples {
            second: sample,
            third: sample,
            ..self
        }
    }

    // The sample stands in the place of the third.
    fn with_third(self, sample: Sample) -> Samples
        ensures { result ≡ with_third self sample }
    {
        Samples {
            third: sample,
            ..self
        }
    }
}
