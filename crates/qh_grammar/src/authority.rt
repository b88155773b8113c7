//! Authorities.
ghost use Rattle.std.specs.Prelude.{◌≡◌, ◌≤◌, ◌↔◌, [], ◌∷◌, ◌++◌, ℕ, List, length, IsTrue, IsFalse, MatchOption};
ghost use Rattle.http_uri.specs.ByteClasses.{is_authority_byte, count_of, percent_sign, colon, left_bracket, right_bracket};
ghost use Rattle.http_uri.specs.Grammar.{IsAuthority, MayFollow, authority_len, last_piece};
ghost use Rattle.qh_grammar.specs.Authority.{Counts};

/// How many colons an IPv6 address and a port may have.
const MAX_COLONS: u32 = 8;

/// Whether the text is an authority: userinfo, host and port.
pub fn is_authority(text: &[u8]) -> bool
    ensures yes { IsTrue result → IsAuthority text.now }
    ensures no { IsFalse result → ¬ (IsAuthority text.now) }
{
    let mut scan = Scan::start();
    for b in text {
        match scan.step(*b) {
            Some(next) => scan = next,
            None => return false,
        }
    }
    !text.is_empty() && scan.may_end() && text.last() != Some(&b'@')
}

/// How long the text is up to the first `/`, `?` or `#`, which end an authority.
pub(crate) fn authority_run(text: &[u8]) -> usize
    ensures value { result ≡ authority_len text.now }
    ensures within { result ≤ length text.now }
{
    text.iter()
        .take_while(|b| !matches!(**b, b'/' | b'?' | b'#'))
        .count()
}

/// What counts of the bytes of an authority so far.
#[derive(Clone, Copy)]
struct Scan {
    /// How many colons stand behind the last `@` or `]`.
    colons: u32,
    /// Whether there is a `[`.
    opened: bool,
    /// Whether there is a `]`.
    closed: bool,
    /// Whether a `%` stands behind the last `@` or `]`.
    has_percent: bool,
}

impl Scan {
    // Before the first byte.
    fn start() -> Scan
        ensures { Counts [] result }
    {
        Scan {
            colons: 0,
            opened: false,
            closed: false,
            has_percent: false,
        }
    }

    // What counts with this byte, if it may follow.
    fn step(self, b: u8) -> Option<Scan>
        ensures { (front : List ℕ) → Counts front self → MatchOption result (¬ (MayFollow front b)) (λ next. MayFollow front b × Counts (front ++ b ∷ []) next) }
    {
        if !is_authority_byte(b) {
            return None;
        }
        match b {
            b'%' => Some(Scan {
                has_percent: true,
                ..self
            }),
            b':' => self.colon(),
            b'[' => self.opening(),
            b']' => self.closing(),
            b'@' => Some(Scan {
                colons: 0,
                has_percent: false,
                ..self
            }),
            _ => Some(self),
        }
    }

    fn colon(self) -> Option<Scan>
        ensures { (front : List ℕ) → Counts front self → MatchOption result (¬ (MayFollow front colon)) (λ next. MayFollow front colon × Counts (front ++ colon ∷ []) next) }
    {
        if self.colons < MAX_COLONS {
            Some(Scan {
                colons: self.colons + 1,
                ..self
            })
        } else {
            None
        }
    }

    fn opening(self) -> Option<Scan>
        ensures { (front : List ℕ) → Counts front self → MatchOption result (¬ (MayFollow front left_bracket)) (λ next. MayFollow front left_bracket × Counts (front ++ left_bracket ∷ []) next) }
    {
        if self.has_percent || self.opened {
            None
        } else {
            Some(Scan {
                opened: true,
                ..self
            })
        }
    }

    fn closing(self) -> Option<Scan>
        ensures { (front : List ℕ) → Counts front self → MatchOption result (¬ (MayFollow front right_bracket)) (λ next. MayFollow front right_bracket × Counts (front ++ right_bracket ∷ []) next) }
    {
        if self.opened && !self.closed {
            Some(Scan {
                colons: 0,
                closed: true,
                has_percent: false,
                ..self
            })
        } else {
            None
        }
    }

    // Whether an authority may end behind these bytes, but for an `@` at its end.
    fn may_end(self) -> bool
        ensures { (front : List ℕ) → Counts front self → IsTrue result ↔ ((count_of left_bracket front ≡ count_of right_bracket front) × (count_of colon (last_piece front) ≤ 1) × (count_of percent_sign (last_piece front) ≡ 0)) }
    {
        self.opened == self.closed && self.colons <= 1 && !self.has_percent
    }
}

fn is_authority_byte(b: u8) -> bool
    ensures { result ≡ is_authority_byte b }
{
    matches!(b, b'!' | b'$'..=b'.' | b'0'..=b';' | b'=' | b'@'..=b'[' | b']' | b'_' | b'a'..=b'z' | b'~')
}
