//! What lines say of a request.

ghost use Rattle.std.specs.Prelude.{ℕ, List, MatchOption};
ghost use Rattle.qh_spec.specs.ScriptLine.{Line as PlainLine, IsNamedValue, Says};
ghost use Rattle.qh_script.specs.Line.{keyword_word, Means, Tells};
ghost use Rattle.qh_script.specs.declared.line.keywords.Keyword.TheVariants.{Request, Field, Trailer};

use super::words::split_first;
use crate::line::Line;
use http_header::is_token;
use qh_grammar::{is_field_name, is_field_value, is_uri};

/// A method and a target.
pub(crate) fn read_request(text: &[u8]) -> Option<Line<'_>>
    ensures { MatchOption result ((l : PlainLine) → Says (keyword_word Request) text.now l → ⊥) (Tells Means (Says (keyword_word Request) text.now)) }
{
    let (method, uri) = split_first(text)?;
    if !is_token(method) {
        return None;
    }
    if !is_uri(uri) {
        return None;
    }
    Some(Line::Request { method, uri })
}

/// A field's name and its value.
pub(crate) fn read_field(text: &[u8]) -> Option<Line<'_>>
    ensures { MatchOption result ((l : PlainLine) → Says (keyword_word Field) text.now l → ⊥) (Tells Means (Says (keyword_word Field) text.now)) }
{
    let (name, value) = read_named_value(text)?;
    Some(Line::Field { name, value })
}

/// A trailer's name and its value.
pub(crate) fn read_trailer(text: &[u8]) -> Option<Line<'_>>
    ensures { MatchOption result ((l : PlainLine) → Says (keyword_word Trailer) text.now l → ⊥) (Tells Means (Says (keyword_word Trailer) text.now)) }
{
    let (name, value) = read_named_value(text)?;
    Some(Line::Trailer { name, value })
}

// A field's name and its value, which isn't empty.
fn read_named_value(text: &[u8]) -> Option<(&[u8], &[u8])>
    ensures { MatchOption result ((name value : List ℕ) → IsNamedValue text.now name value → ⊥) (λ named. IsNamedValue text.now named.0.now named.1.now) }
{
    let (name, value) = split_first(text)?;
    if value.is_empty() {
        return None;
    }
    if !is_field_name(name) {
        return None;
    }
    if !is_field_value(value) {
        return None;
    }
    Some((name, value))
}
