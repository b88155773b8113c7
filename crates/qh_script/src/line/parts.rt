//! What may stand behind a line's word.

ghost use Rattle.std.specs.Prelude.{◌≡◌, ◌≢◌, ◌<◌, ◌≤◌, ◌^◌, ◌++◌, codes, MatchOption};
ghost use Rattle.qh_spec.specs.ScriptLine.{IsSelect, side_word};
ghost use Rattle.qh_spec.specs.declared.link.Select.{Select as TheSelect};
ghost use Rattle.qh_spec.specs.declared.sides.Side.{Side as TheSide};
ghost use Rattle.qh_script.specs.Line.{IsNumber, IsNoPositive};

use super::numbers::{NUMBER_END, read_below};
use super::words::split_first;
use qh_spec::{Select, Side};

/// A number from 1 on, below 2^63.
pub(crate) fn read_positive(text: &[u8]) -> Option<u64>
    ensures { MatchOption result (IsNoPositive text.now) (λ n. IsNumber text.now n × (1 ≤ n) × (n < 2 ^ 63)) }
{
    match read_below(text, NUMBER_END) {
        Some(0) => None,
        other => other,
    }
}

/// Which sends are meant.
pub(crate) fn read_select(text: &[u8]) -> Option<Select>
    ensures { MatchOption result ((which : TheSelect) → IsSelect text.now which → ⊥) (IsSelect text.now) }
{
    if text == b"all".as_slice() {
        return Some(Select::All);
    }
    match split_first(text) {
        Some((word, behind)) => read_each(word, behind),
        None => read_one(text),
    }
}

fn read_one(text: &[u8]) -> Option<Select>
    ensures { MatchOption result (IsNoPositive text.now) (IsSelect text.now) }
{
    let number = read_positive(text)?;
    Some(Select::One(number))
}

fn read_each(word: &[u8], behind: &[u8]) -> Option<Select>
    ensures { MatchOption result (word.now ≡ codes "each" → IsNoPositive behind.now) (IsSelect (word.now ++ (codes " " ++ behind.now))) }
{
    if word != b"each".as_slice() {
        return None;
    }
    let number = read_positive(behind)?;
    Some(Select::Each(number))
}

/// The end that this word names.
pub(crate) fn read_side(word: &[u8]) -> Option<Side>
    ensures { MatchOption result ((side : TheSide) → word.now ≢ side_word side) (λ side. word.now ≡ side_word side) }
{
    if word == b"client".as_slice() {
        return Some(Side::Client);
    }
    if word == b"server".as_slice() {
        return Some(Side::Server);
    }
    None
}
