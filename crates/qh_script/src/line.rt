//! The lines of a script. They are read where they lie, so it takes no memory.

ghost use Rattle.std.specs.Prelude.{MatchOption};
ghost use Rattle.qh_spec.specs.ScriptLine.{Line as PlainLine, IsLine};
ghost use Rattle.qh_script.specs.Line.{StandsFor};

mod arguments;
mod hex;
mod keywords;
mod messages;
mod numbers;
mod parts;
mod upsets;
mod words;

use arguments::read_argument;
pub(crate) use hex::read_hex;
use keywords::keyword_of;
pub(crate) use numbers::{NUMBER_END, read_below, read_number};
use qh_spec::{Select, Setting, Side};
pub(crate) use words::split_first;

/// What a line says. Texts are as they stand in it.
#[derive(Clone, Copy)]
pub(crate) enum Line<'a> {
    /// Nothing.
    Empty,
    /// A request begins.
    Request { method: &'a [u8], uri: &'a [u8] },
    /// The last request has this field.
    Field { name: &'a [u8], value: &'a [u8] },
    /// The last request has this trailer.
    Trailer { name: &'a [u8], value: &'a [u8] },
    /// The last request has this body.
    Body(&'a [u8]),
    /// The last request has a body of so many bytes.
    Fill(u64),
    /// This number is set.
    Set(Setting, u64),
    /// The server asks for a Retry.
    RetryOn,
    /// No reserved frames, stream types and settings are sent.
    GreaseOff,
    /// The link does this.
    Disturb(Disturbance<'a>),
}

/// What a line asks of the link, as `Upset` has it.
#[derive(Clone, Copy)]
pub(crate) enum Disturbance<'a> {
    Lose(Select),
    Twice(Select),
    Late(Select, u64),
    Fail(u64),
    /// The bytes are in hexadecimal.
    Forge {
        round: u64,
        side: Side,
        hex: &'a [u8],
    },
}

/// What a line says, without its newline. None if it isn't of any form.
pub(crate) fn read_line(text: &[u8]) -> Option<Line<'_>>
    ensures { MatchOption result ((l : PlainLine) → IsLine text.now l → ⊥) (StandsFor text.now) }
{
    if text.is_empty() {
        return Some(Line::Empty);
    }
    let (word, behind) = split_first(text)?;
    let keyword = keyword_of(word)?;
    read_argument(keyword, behind)
}
