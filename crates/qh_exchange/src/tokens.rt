//! A run of commands on a log of used tokens.

ghost use Rattle.std.specs.Prelude.{◌≡◌, ◌++◌, ℕ, List, IfOk};
ghost use Rattle.qh_link.specs.ScriptLink.{PlainLink};
ghost use Rattle.qh_spec.specs.Record.{PlainEntry};
ghost use Rattle.qh_spec.specs.TokenLog.{TokenLog as PlainLog, accepts, checked};
ghost use Rattle.qh_spec.specs.TokenScript.{token_lines, token_report};
ghost use Rattle.qh_spec.specs.Words.{Tokens, IsCommand};
ghost use Rattle.qh_script.specs.Tokens.{limits_of, token_of, tokens_of};
ghost use Rattle.qh_exchange.specs.Ending.{status_of, text_of};
ghost use Rattle.qh_exchange.specs.Endings.{EndsLooked};
ghost use Rattle.qh_exchange.specs.Program.{Ends, IsAsAtEntry, TokensEnd};

use crate::ExchangeError;
use crate::ending::{Ending, Outcome};
use crate::input::read_text;
use qh_base::{Memory, Source};
use qh_parts::{BloomTokenLog, TokenFault, TokenLog};
use qh_script::{
    ScriptError, TokenCommand, TokenCommands, put_ok_line, put_token_line, read_tokens,
};
use std::alloc::Global;

/// Reads commands on a token log, and says of each token whether it counts. Nothing is done before all was read.
pub(crate) fn run_tokens<S: Source>(alloc: Global, source: &mut S) -> Ending
    ensures { (words : List (List ℕ)) (link : PlainLink) (served : List PlainEntry) → IsCommand words Tokens → IsAsAtEntry link link served
        → Ends words (S.left source.old) (S.left source.new) (S.faults source.old) (S.faults source.new) link link served (status_of result.last) (text_of result) }
{
    match read_text(alloc, source) {
        Ok(Some(text)) => run_commands(alloc, &text),
        Ok(None) => Ending::bare(alloc, Outcome::ReadFault),
        Err(Memory) => Ending::bare(alloc, Outcome::Failed(ExchangeError::Memory)),
    }
}

// Carries out the commands of a text.
fn run_commands(alloc: Global, text: &[u8]) -> Ending
    ensures { TokensEnd text.now (status_of result.last) (text_of result) }
{
    match read_tokens(alloc, text) {
        Ok(commands) => look_at_all(alloc, &commands),
        Err(ScriptError::Refused(number)) => Ending::bare(alloc, Outcome::Refused(number)),
        Err(ScriptError::Memory) => Ending::bare(alloc, Outcome::Failed(ExchangeError::Memory)),
    }
}

// What a new log says of each token, or want of memory.
fn look_at_all(alloc: Global, commands: &TokenCommands) -> Ending
    ensures { EndsLooked (limits_of commands.now.limits) (tokens_of commands.now.tokens.items) result }
{
    match report_tokens(alloc, commands) {
        Ok(text) => Ending {
            text,
            last: Outcome::Done,
        },
        Err(Memory) => Ending::bare(alloc, Outcome::Failed(ExchangeError::Memory)),
    }
}

// The line of each token, as a new log comes to it, and how many there are.
fn report_tokens(alloc: Global, commands: &TokenCommands) -> Result<Vec<u8>, Memory>
    ensures { IfOk result (λ text. text.items ≡ token_report (limits_of commands.now.limits) (tokens_of commands.now.tokens.items)) }
{
    let limits = commands.limits;
    let mut log = BloomTokenLog::new(limits.max_bytes, limits.k_num);
    let mut text = Vec::new(alloc);
    put_token_lines(alloc, &mut text, &mut log, &commands.tokens)?;
    put_ok_line(alloc, &mut text, commands.tokens.len() as u64)?;
    Ok(text)
}

// Appends the line of each token, as the log comes to it.
fn put_token_lines<L: TokenLog>(
    alloc: Global,
    out: &mut Vec<u8>,
    log: &mut L,
    tokens: &[TokenCommand],
) -> Result<(), Memory>
    ensures { (l : PlainLog) → L.stands log.old l → IfOk result (λ _. out.new.items ≡ out.old.items ++ token_lines (L.limits log.old) l (tokens_of tokens.now)) }
{
    for token in tokens {
        let counts = look_at(alloc, log, token)?;
        put_token_line(out, counts)?;
    }
    Ok(())
}

// Whether a token counts that the log comes to.
fn look_at<L: TokenLog>(alloc: Global, log: &mut L, token: &TokenCommand) -> Result<bool, Memory>
    ensures limits { L.limits log.new ≡ L.limits log.old }
    ensures counts { (l : PlainLog) → L.stands log.old l → IfOk result (λ counts. (counts ≡ accepts (L.limits log.old) l (token_of token.now))
        × L.stands log.new (checked (L.limits log.old) l (token_of token.now))) }
{
    match log.check_and_insert(alloc, u128::from(token.nonce), token.issued, token.lifetime) {
        Ok(()) => Ok(true),
        Err(TokenFault::Reused) => Ok(false),
        Err(TokenFault::Memory) => Err(Memory),
    }
}
