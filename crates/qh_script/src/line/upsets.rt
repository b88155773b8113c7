//! What a line asks of the link.

ghost use Rattle.std.specs.Prelude.{◌↔◌, IsTrue, MatchOption};
ghost use Rattle.qh_spec.specs.declared.link.Upset.{Upset};
ghost use Rattle.qh_spec.specs.ScriptLine.{IsUpset};
ghost use Rattle.qh_script.specs.declared.line.keywords.UpsetKind.TheVariants.{Lose, Twice, Late, Fail, Forge};
ghost use Rattle.qh_script.specs.Line.{IsLate, IsNoLate, IsForge, IsNoForge, IsForgeable, MeansUpset, Tells, upset_word};

use super::hex::is_hex;
use super::keywords::UpsetKind;
use super::parts::{read_positive, read_select, read_side};
use super::words::{split_first, split_last};
use crate::line::Disturbance;
use qh_spec::{Select, Side};

/// The most rounds that a datagram may be late.
const MAX_ROUNDS: u64 = 1_000;

/// The most bytes that are forged.
const MAX_FORGED: usize = 2_048;

/// What the text behind this word asks of the link.
pub(crate) fn read_upset(kind: UpsetKind, text: &[u8]) -> Option<Disturbance<'_>>
    ensures { MatchOption result ((u : Upset) → IsUpset (upset_word kind) text.now u → ⊥) (Tells MeansUpset (IsUpset (upset_word kind) text.now)) }
{
    match kind {
        UpsetKind::Lose => read_lose(text),
        UpsetKind::Twice => read_twice(text),
        UpsetKind::Late => read_late(text),
        UpsetKind::Fail => read_fail(text),
        UpsetKind::Forge => read_forge(text),
    }
}

fn read_lose(text: &[u8]) -> Option<Disturbance<'_>>
    ensures { MatchOption result ((u : Upset) → IsUpset (upset_word Lose) text.now u → ⊥) (Tells MeansUpset (IsUpset (upset_word Lose) text.now)) }
{
    let which = read_select(text)?;
    Some(Disturbance::Lose(which))
}

fn read_twice(text: &[u8]) -> Option<Disturbance<'_>>
    ensures { MatchOption result ((u : Upset) → IsUpset (upset_word Twice) text.now u → ⊥) (Tells MeansUpset (IsUpset (upset_word Twice) text.now)) }
{
    let which = read_select(text)?;
    Some(Disturbance::Twice(which))
}

fn read_late(text: &[u8]) -> Option<Disturbance<'_>>
    ensures { MatchOption result ((u : Upset) → IsUpset (upset_word Late) text.now u → ⊥) (Tells MeansUpset (IsUpset (upset_word Late) text.now)) }
{
    let (which, rounds) = split_late(text)?;
    Some(Disturbance::Late(which, rounds))
}

fn read_fail(text: &[u8]) -> Option<Disturbance<'_>>
    ensures { MatchOption result ((u : Upset) → IsUpset (upset_word Fail) text.now u → ⊥) (Tells MeansUpset (IsUpset (upset_word Fail) text.now)) }
{
    let number = read_positive(text)?;
    Some(Disturbance::Fail(number))
}

fn read_forge(text: &[u8]) -> Option<Disturbance<'_>>
    ensures { MatchOption result ((u : Upset) → IsUpset (upset_word Forge) text.now u → ⊥) (Tells MeansUpset (IsUpset (upset_word Forge) text.now)) }
{
    let (round, side, hex) = split_forge(text)?;
    if !is_forgeable(hex) {
        return None;
    }
    Some(Disturbance::Forge { round, side, hex })
}

// Which sends, and how many rounds they are late.
fn split_late(text: &[u8]) -> Option<(Select, u64)>
    ensures { MatchOption result (IsNoLate text.now) (λ late. IsLate text.now late.0 late.1) }
{
    let (select, rounds) = split_last(text)?;
    let which = read_select(select)?;
    let rounds = read_positive(rounds)?;
    if rounds > MAX_ROUNDS {
        return None;
    }
    Some((which, rounds))
}

// Whether the text has as many bytes in hexadecimal as are forged.
fn is_forgeable(hex: &[u8]) -> bool
    ensures { IsTrue result ↔ IsForgeable hex.now }
{
    if hex.is_empty() {
        return false;
    }
    if hex.len() > 2 * MAX_FORGED {
        return false;
    }
    is_hex(hex)
}

// A round, a side and what stands behind them.
fn split_forge(text: &[u8]) -> Option<(u64, Side, &[u8])>
    ensures { MatchOption result (IsNoForge text.now) (λ forge. IsForge text.now forge.0 forge.1 forge.2.now) }
{
    let (round, behind) = split_first(text)?;
    let (side, hex) = split_first(behind)?;
    let round = read_positive(round)?;
    let side = read_side(side)?;
    Some((round, side, hex))
}
