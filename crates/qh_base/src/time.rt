ghost use Rattle.std.specs.Prelude.{◌≡◌, ◌⊎◌, ◌+◌, ◌-◌, ◌*◌, ◌^◌, ◌<◌, ◌≤◌, min, Some, None, true, false};
ghost use Rattle.qh_base.specs.declared.time.Moment.{Moment as AMoment};

/// A moment, in whole nanoseconds since a start that whoever hands in the times has chosen.
#[derive(Clone, Copy, PartialEq, Eq, PartialOrd, Ord, Hash)]
pub struct Moment(pub u64);

/// A length of time, in whole nanoseconds.
#[derive(Clone, Copy, PartialEq, Eq, PartialOrd, Ord, Hash)]
pub struct Span(pub u64);

impl Moment {
    /// The moment that much later, or the last one that there is.
    pub fn plus(self, span: Span) -> Moment
        ensures { result.0 ≡ min (2 ^ 64 - 1) (self.0 + span.0) }
    {
        Moment(self.0.saturating_add(span.0))
    }

    /// The time from an earlier moment to this one, none where that one isn't earlier.
    pub fn since(self, earlier: Moment) -> Span
        ensures { result.0 ≡ self.0 - earlier.0 }
    {
        Span(self.0.saturating_sub(earlier.0))
    }
}

impl Span {
    /// That many milliseconds, or the greatest length that there is.
    pub fn from_millis(millis: u64) -> Span
        ensures { result.0 ≡ min (2 ^ 64 - 1) (millis * 1000000) }
    {
        Span(millis.saturating_mul(1_000_000))
    }
}

/// Whether there is such a moment and it has come.
pub fn is_due(moment: Option<Moment>, now: Moment) -> bool
    ensures yes { result ≡ true → (t : AMoment) × (moment ≡ Some t) × (t.0 ≤ now.0) }
    ensures no { result ≡ false → (t : AMoment) → moment ≡ Some t → now.0 < t.0 }
{
    match moment {
        Some(moment) => moment <= now,
        None => false,
    }
}

/// The earlier of two moments, of which either may be absent.
pub fn earlier(one: Option<Moment>, other: Option<Moment>) -> Option<Moment>
    ensures none { result ≡ None → (one ≡ None) × (other ≡ None) }
    ensures one { (t : AMoment) → result ≡ Some t → (one ≡ Some t) ⊎ (other ≡ Some t) }
    ensures first { (t s : AMoment) → result ≡ Some t → (one ≡ Some s) ⊎ (other ≡ Some s) → t.0 ≤ s.0 }
{
    match (one, other) {
        (Some(one), Some(other)) => Some(one.min(other)),
        (Some(only), None) | (None, Some(only)) => Some(only),
        (None, None) => None,
    }
}
