//! The words that begin a line.

ghost use Rattle.std.specs.Prelude.{◌≡◌, ◌≢◌, MatchOption};
ghost use Rattle.qh_spec.specs.declared.script.Setting.{Setting as TheSetting};
ghost use Rattle.qh_spec.specs.ScriptLine.{setting_word};
ghost use Rattle.qh_script.specs.declared.line.keywords.Keyword.{Keyword as TheKeyword};
ghost use Rattle.qh_script.specs.declared.line.keywords.UpsetKind.{UpsetKind as TheKind};
ghost use Rattle.qh_script.specs.Line.{keyword_word, upset_word};

use qh_spec::Setting;

/// What the first word of a line asks for.
#[derive(Clone, Copy)]
pub(crate) enum Keyword {
    Request,
    Field,
    Trailer,
    Body,
    Fill,
    Set(Setting),
    Retry,
    Grease,
    Disturb(UpsetKind),
}

/// What is asked of the link.
#[derive(Clone, Copy, PartialEq, Eq)]
pub(crate) enum UpsetKind {
    Lose,
    Twice,
    Late,
    Fail,
    Forge,
}

/// The keyword that this word is.
pub(crate) fn keyword_of(word: &[u8]) -> Option<Keyword>
    ensures { MatchOption result ((k : TheKeyword) → word.now ≢ keyword_word k) (λ k. word.now ≡ keyword_word k) }
{
    if let Some(setting) = setting_of(word) {
        return Some(Keyword::Set(setting));
    }
    if word == b"request".as_slice() {
        return Some(Keyword::Request);
    }
    if word == b"field".as_slice() {
        return Some(Keyword::Field);
    }
    if word == b"trailer".as_slice() {
        return Some(Keyword::Trailer);
    }
    if word == b"body".as_slice() {
        return Some(Keyword::Body);
    }
    if word == b"fill".as_slice() {
        return Some(Keyword::Fill);
    }
    if word == b"retry".as_slice() {
        return Some(Keyword::Retry);
    }
    if word == b"grease".as_slice() {
        return Some(Keyword::Grease);
    }
    let kind = upset_of(word)?;
    Some(Keyword::Disturb(kind))
}

fn upset_of(word: &[u8]) -> Option<UpsetKind>
    ensures { MatchOption result ((k : TheKind) → word.now ≢ upset_word k) (λ k. word.now ≡ upset_word k) }
{
    if word == b"drop".as_slice() {
        return Some(UpsetKind::Lose);
    }
    if word == b"twice".as_slice() {
        return Some(UpsetKind::Twice);
    }
    if word == b"late".as_slice() {
        return Some(UpsetKind::Late);
    }
    if word == b"fail".as_slice() {
        return Some(UpsetKind::Fail);
    }
    if word == b"forge".as_slice() {
        return Some(UpsetKind::Forge);
    }
    None
}

fn setting_of(word: &[u8]) -> Option<Setting>
    ensures { MatchOption result ((x : TheSetting) → word.now ≢ setting_word x) (λ x. word.now ≡ setting_word x) }
{
    if word == b"section".as_slice() {
        return Some(Setting::Section);
    }
    if word == b"requestbody".as_slice() {
        return Some(Setting::RequestBody);
    }
    if word == b"response".as_slice() {
        return Some(Setting::Response);
    }
    if word == b"cap".as_slice() {
        return Some(Setting::Cap);
    }
    if word == b"bidi".as_slice() {
        return Some(Setting::Bidi);
    }
    if word == b"window".as_slice() {
        return Some(Setting::Window);
    }
    if word == b"idle".as_slice() {
        return Some(Setting::Idle);
    }
    if word == b"rtt".as_slice() {
        return Some(Setting::Rtt);
    }
    if word == b"rounds".as_slice() {
        return Some(Setting::Rounds);
    }
    if word == b"step".as_slice() {
        return Some(Setting::Step);
    }
    None
}
