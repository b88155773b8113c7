//! Words, which are parted by one space.

ghost use Rattle.std.specs.Prelude.{MatchOption};
ghost use Rattle.qh_script.specs.Line.{HasNoSpace, SplitsFirst, SplitsLast};

/// What stands before the first space, and what stands behind it.
pub(crate) fn split_first(text: &[u8]) -> Option<(&[u8], &[u8])>
    ensures { MatchOption result (HasNoSpace text.now) (λ parts. SplitsFirst text.now parts.0.now parts.1.now) }
{
    for (i, byte) in text.iter().enumerate() {
        if *byte == b' ' {
            return Some((&text[..i], &text[i + 1..]));
        }
    }
    None
}

/// What stands before the last space, and what stands behind it.
pub(crate) fn split_last(text: &[u8]) -> Option<(&[u8], &[u8])>
    ensures { MatchOption result (HasNoSpace text.now) (λ parts. SplitsLast text.now parts.0.now parts.1.now) }
{
    let mut at = text.len();
    while at > 0 {
        at -= 1;
        if text[at] == b' ' {
            return Some((&text[..at], &text[at + 1..]));
        }
    }
    None
}
