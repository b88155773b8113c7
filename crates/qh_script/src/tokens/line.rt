//! The lines of such commands.

ghost use Rattle.std.specs.Prelude.{◌++◌, codes, MatchOption};
ghost use Rattle.qh_spec.specs.TokenFilter.{TokenLimits as PlainLimits};
ghost use Rattle.qh_spec.specs.TokenLog.{Token};
ghost use Rattle.qh_spec.specs.TokenScript as says;
ghost use Rattle.qh_spec.specs.TokenScript.{TokenLine as PlainLine, IsTokenLine};
ghost use Rattle.qh_script.specs.Tokens.{limits_of, token_of, line_of};

use super::{TokenCommand, TokenLimits};
use crate::line::{NUMBER_END, read_below, read_number, split_first};
use qh_base::{Moment, Span};

/// The most bytes that a log may take.
const MAX_BYTES: u64 = 1 << 30;

/// What a line says.
#[derive(Clone, Copy)]
pub(super) enum TokenLine {
    /// Nothing.
    Empty,
    /// The log has these limits.
    Log(TokenLimits),
    /// This token is looked at.
    Look(TokenCommand),
}

/// What a line says, without its newline.
pub(super) fn read_token_line(text: &[u8]) -> Option<TokenLine>
    ensures { MatchOption result ((l : PlainLine) → IsTokenLine text.now l → ⊥) (λ l. IsTokenLine text.now (line_of l)) }
{
    if text.is_empty() {
        return Some(TokenLine::Empty);
    }
    let (word, behind) = split_first(text)?;
    if word == b"tokenlog".as_slice() {
        let limits = read_limits(behind)?;
        return Some(TokenLine::Log(limits));
    }
    if word == b"token".as_slice() {
        let token = read_token(behind)?;
        return Some(TokenLine::Look(token));
    }
    None
}

// MAX_BYTES K
fn read_limits(text: &[u8]) -> Option<TokenLimits>
    ensures { MatchOption result ((l : PlainLimits) → IsTokenLine (codes "tokenlog " ++ text.now) (says.Log l) → ⊥)
        (λ l. IsTokenLine (codes "tokenlog " ++ text.now) (says.Log (limits_of l))) }
{
    let (bytes, k) = split_first(text)?;
    let max_bytes = read_below(bytes, MAX_BYTES + 1)? as usize;
    let k_num = read_below(k, 1 << 32)? as u32;
    Some(TokenLimits { max_bytes, k_num })
}

// NONCE ISSUED LIFETIME
fn read_token(text: &[u8]) -> Option<TokenCommand>
    ensures { MatchOption result ((t : Token) → IsTokenLine (codes "token " ++ text.now) (says.Look t) → ⊥)
        (λ t. IsTokenLine (codes "token " ++ text.now) (says.Look (token_of t))) }
{
    let (nonce, behind) = split_first(text)?;
    let (issued, lifetime) = split_first(behind)?;
    let nonce = read_number(nonce)?;
    let issued = read_below(issued, NUMBER_END)?;
    let lifetime = read_below(lifetime, NUMBER_END)?;
    Some(TokenCommand {
        nonce,
        issued: Moment(issued),
        lifetime: Span(lifetime),
    })
}
