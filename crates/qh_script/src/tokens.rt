//! Commands on a log of used tokens.

ghost use Rattle.std.specs.Prelude.{◌≡◌, ◌+◌, ◌≤◌, ◌<◌, ◌^◌, length, Some, None, IsTrue, IsFalse, OnOk, IfOk, IfErr, IfSome, MatchOption};
ghost use Rattle.qh_spec.specs.Lines.{lines};
ghost use Rattle.qh_spec.specs.TokenScript.{TokenScript, empty_tokens, applied, IsTaken, AreTaken, IsTokenScript};
ghost use Rattle.qh_spec.specs.TokenScript as says;
ghost use Rattle.qh_script.specs.Script.{IsFirstRefused};
ghost use Rattle.qh_script.specs.Tokens.{limits_of, token_of, tokens_of, line_of, HasLimits, IsTakenBehind, AreTakenBehind, IsAppliedBehind, IsFaultBehind, WhenUntaken, RefusesTokenLines, RefusesTokens};

mod line;

use crate::script::{MAX_SCRIPT, ScriptError, Untaken, cut_line};
use line::{TokenLine, read_token_line};
use qh_base::{Moment, Span};
use std::alloc::Global;
use std::marker::Model;

/// The limits of a token log.
#[derive(Clone, Copy)]
pub struct TokenLimits {
    /// How many bytes its two filters may take, at most 2^30.
    pub max_bytes: usize,
    /// How many positions of a bit filter a token has, before that is bounded.
    pub k_num: u32,
}

/// A token that is looked at.
#[derive(Clone, Copy)]
pub struct TokenCommand {
    pub nonce: u64,
    /// When it was issued, before 2^63 nanoseconds.
    pub issued: Moment,
    /// How long it lives, less than 2^63 nanoseconds.
    pub lifetime: Span,
}

/// Commands on a token log.
#[derive(Drop)]
pub struct TokenCommands {
    pub limits: TokenLimits,
    /// The tokens that are looked at, one after another.
    pub tokens: Vec<TokenCommand>,
}

/// The commands of a text: a line `tokenlog MAX_BYTES K` once, and behind it lines `token NONCE ISSUED LIFETIME`. Empty
/// lines count for nothing. Where memory is wanting for a token, the rest of the text is still looked at, so that a
/// fault is answered in its place.
pub fn read_tokens(alloc: Global, text: &[u8]) -> Result<TokenCommands, ScriptError>
    ensures commands { IfOk result (λ c. IsTokenScript text.now (limits_of c.limits) (tokens_of c.tokens.items)) }
    ensures refused { IfErr result (RefusesTokens text.now) }
{
    if text.len() > MAX_SCRIPT {
        return Err(ScriptError::Refused(0));
    }
    let mut reading = Reading::empty(alloc);
    let count = reading.take_lines(text)?;
    match reading.limits {
        Some(limits) => Ok(TokenCommands {
            limits,
            tokens: reading.tokens,
        }),
        None => Err(ScriptError::Refused(count + 1)),
    }
}

/// What the lines so far say.
#[derive(Drop)]
struct Reading {
    limits: Option<TokenLimits>,
    tokens: Vec<TokenCommand>,
}

impl Model for Reading {
    ghost use Rattle.std.specs.Option.{option_map};
    ghost use Rattle.qh_spec.specs.TokenScript.{TokenScript};
    ghost use Rattle.qh_script.specs.Tokens.{limits_of, tokens_of};

    ghost Value = { TokenScript };

    ghost view = { λ r. record { limits = option_map limits_of r.limits; tokens = tokens_of r.tokens.items } };
}

impl Reading {
    fn empty(alloc: Global) -> Reading
        ensures { result ≡ empty_tokens }
    {
        Reading {
            limits: None,
            tokens: Vec::new(alloc),
        }
    }

    // Takes the lines of a text, one after another, and counts them. After an `Err` it isn't used any more.
    fn take_lines(&mut self, text: &[u8]) -> Result<usize, ScriptError>
        ensures taken { IfOk result (λ n. AreTaken (lines text.now) self.old self.new) }
        ensures count { IfOk result (λ n. n ≡ length (lines text.now)) }
        ensures bound { IfOk result (λ n. n ≤ length text.now) }
        ensures refused { IfErr result (RefusesTokenLines text.now self.old) }
    {
        let mut rest = text;
        let mut count = 0;
        while !rest.is_empty() {
            let (line, behind) = cut_line(rest);
            count += 1;
            match self.take_line(line) {
                Ok(()) => {}
                Err(Untaken::Refused) => return Err(ScriptError::Refused(count)),
                Err(Untaken::Memory) => return Err(fault_behind(count, behind)),
            }
            rest = behind;
        }
        Ok(count)
    }

    // What the text makes of it, where it is a line that is taken.
    fn take_line(&mut self, text: &[u8]) -> Result<(), Untaken>
        ensures taken { OnOk result (IsTaken text.now self.old self.new) }
        ensures refused { IfErr result (λ e. WhenUntaken e ((t : TokenScript) → IsTaken text.now self.old t → ⊥) (IsTakenBehind text.now self.old)) }
    {
        match read_token_line(text) {
            Some(line) => self.apply(line),
            None => Err(Untaken::Refused),
        }
    }

    // What the line makes of it.
    fn apply(&mut self, line: TokenLine) -> Result<(), Untaken>
        ensures taken { OnOk result (applied (line_of line) self.old ≡ Some self.new) }
        ensures refused { IfErr result (λ e. WhenUntaken e (applied (line_of line) self.old ≡ None) (IsAppliedBehind (line_of line) self.old)) }
    {
        match line {
            TokenLine::Empty => Ok(()),
            TokenLine::Log(limits) => self.set_limits(limits),
            TokenLine::Look(token) => self.look(token),
        }
    }

    fn set_limits(&mut self, limits: TokenLimits) -> Result<(), Untaken>
        ensures taken { OnOk result (applied (says.Log (limits_of limits)) self.old ≡ Some self.new) }
        ensures refused { IfErr result (λ e. WhenUntaken e (applied (says.Log (limits_of limits)) self.old ≡ None) (IsAppliedBehind (says.Log (limits_of limits)) self.old)) }
    {
        if self.limits.is_some() {
            return Err(Untaken::Refused);
        }
        self.limits = Some(limits);
        Ok(())
    }

    fn look(&mut self, token: TokenCommand) -> Result<(), Untaken>
        ensures taken { OnOk result (applied (says.Look (token_of token)) self.old ≡ Some self.new) }
        ensures refused { IfErr result (λ e. WhenUntaken e (applied (says.Look (token_of token)) self.old ≡ None) (IsAppliedBehind (says.Look (token_of token)) self.old)) }
    {
        if self.limits.is_none() {
            return Err(Untaken::Refused);
        }
        self.tokens.push(token)?;
        Ok(())
    }
}

// Why lines aren't taken, the last of which wanted memory for a token: the first line of the text behind them that is
// refused, or that want.
fn fault_behind(count: usize, text: &[u8]) -> ScriptError
    requires { count + length text.now < 2 ^ 64 }
    ensures { (s : TokenScript) → HasLimits s → IsFaultBehind text.now s count result }
{
    match first_refused(text) {
        Some(line) => ScriptError::Refused(count + line),
        None => ScriptError::Memory,
    }
}

// The first line of a text, counted from 1, that isn't taken behind the limits. It takes no memory.
fn first_refused(text: &[u8]) -> Option<usize>
    ensures lines { (s : TokenScript) → HasLimits s → MatchOption result (AreTakenBehind text.now s) (IsFirstRefused IsTaken text.now s) }
    ensures bound { IfSome result (λ n. n ≤ length text.now) }
{
    let mut rest = text;
    let mut count = 0;
    while !rest.is_empty() {
        let (line, behind) = cut_line(rest);
        count += 1;
        if !is_taken_behind(line) {
            return Some(count);
        }
        rest = behind;
    }
    None
}

// Whether a line is taken behind the limits: it is empty, or a token's.
fn is_taken_behind(text: &[u8]) -> bool
    ensures taken { IsTrue result → (s : TokenScript) → HasLimits s → IsTakenBehind text.now s }
    ensures refused { IsFalse result → (s t : TokenScript) → HasLimits s → IsTaken text.now s t → ⊥ }
{
    let Some(line) = read_token_line(text) else {
        return false;
    };
    match line {
        TokenLine::Empty => true,
        TokenLine::Look(_) => true,
        TokenLine::Log(_) => false,
    }
}
