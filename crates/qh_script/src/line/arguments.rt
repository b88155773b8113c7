//! What a keyword and the text behind it say.

ghost use Rattle.std.specs.Prelude.{◌≡◌, MatchOption};
ghost use Rattle.qh_spec.specs.ScriptLine.{Line as PlainLine, Says, setting_bound};
ghost use Rattle.qh_script.specs.Line.{keyword_word, Means, Tells};
ghost use Rattle.qh_script.specs.declared.line.keywords.Keyword.TheVariants.{Fill, Set, Retry, Grease, Disturb};

use super::keywords::{Keyword, UpsetKind};
use super::messages::{read_field, read_request, read_trailer};
use super::numbers::{NUMBER_END, read_below};
use super::upsets::read_upset;
use crate::line::Line;
use qh_spec::Setting;

/// The greatest length of a body that is filled.
const MAX_FILL: u64 = 1 << 30;

/// What the text behind a keyword says.
pub(crate) fn read_argument(keyword: Keyword, text: &[u8]) -> Option<Line<'_>>
    ensures { MatchOption result ((l : PlainLine) → Says (keyword_word keyword) text.now l → ⊥) (Tells Means (Says (keyword_word keyword) text.now)) }
{
    match keyword {
        Keyword::Request => read_request(text),
        Keyword::Field => read_field(text),
        Keyword::Trailer => read_trailer(text),
        Keyword::Body => Some(Line::Body(text)),
        Keyword::Fill => read_fill(text),
        Keyword::Set(setting) => read_setting(setting, text),
        Keyword::Retry => read_retry(text),
        Keyword::Grease => read_grease(text),
        Keyword::Disturb(kind) => read_disturbance(kind, text),
    }
}

fn read_fill(text: &[u8]) -> Option<Line<'_>>
    ensures { MatchOption result ((l : PlainLine) → Says (keyword_word Fill) text.now l → ⊥) (Tells Means (Says (keyword_word Fill) text.now)) }
{
    let len = read_below(text, MAX_FILL + 1)?;
    Some(Line::Fill(len))
}

fn read_setting(setting: Setting, text: &[u8]) -> Option<Line<'_>>
    ensures { MatchOption result ((l : PlainLine) → Says (keyword_word (Set setting)) text.now l → ⊥) (Tells Means (Says (keyword_word (Set setting)) text.now)) }
{
    let number = read_below(text, number_end(setting))?;
    Some(Line::Set(setting, number))
}

// What the numbers of a setting lie below.
fn number_end(setting: Setting) -> u64
    ensures { result ≡ setting_bound setting }
{
    match setting {
        Setting::Rounds => 1 << 48,
        Setting::Step => 10_001,
        _ => NUMBER_END,
    }
}

fn read_retry(text: &[u8]) -> Option<Line<'_>>
    ensures { MatchOption result ((l : PlainLine) → Says (keyword_word Retry) text.now l → ⊥) (Tells Means (Says (keyword_word Retry) text.now)) }
{
    if text == b"on".as_slice() {
        Some(Line::RetryOn)
    } else {
        None
    }
}

fn read_grease(text: &[u8]) -> Option<Line<'_>>
    ensures { MatchOption result ((l : PlainLine) → Says (keyword_word Grease) text.now l → ⊥) (Tells Means (Says (keyword_word Grease) text.now)) }
{
    if text == b"off".as_slice() {
        Some(Line::GreaseOff)
    } else {
        None
    }
}

fn read_disturbance(kind: UpsetKind, text: &[u8]) -> Option<Line<'_>>
    ensures { MatchOption result ((l : PlainLine) → Says (keyword_word (Disturb kind)) text.now l → ⊥) (Tells Means (Says (keyword_word (Disturb kind)) text.now)) }
{
    let disturbance = read_upset(kind, text)?;
    Some(Line::Disturb(disturbance))
}
