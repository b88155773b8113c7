//! What the words of the program ask for.

ghost use Rattle.std.specs.Prelude.{◌≡◌, ℕ, ◌≤◌, ◌<◌, ◌^◌, ◌∷◌, [], map, MatchOption, string_bytes};
ghost use Rattle.qh_spec.specs.Words.{IsCommand, AreUnknown};
ghost use Rattle.qh_script.specs.Command.{plain_command};
ghost use Rattle.qh_script.specs.Line.{IsNumber};

use crate::line::read_below;

/// What the words of the program ask for.
#[derive(Clone, Copy)]
pub enum Command {
    /// Run the script that is read.
    Exchange,
    /// Run so many requests, from 1 to 10,000, that are made from a seed below 2^32.
    Make { count: u64, seed: u64 },
    /// Run the script that is read with so many threads, from 1 to 64.
    Workers { count: u64 },
    /// Run the commands that are read on a token log.
    Tokens,
}

/// What the words, those after the program's name, ask for. Numbers are decimal, without a sign and without a leading
/// zero but for `0`. None where the words are of no form.
pub fn read_command(words: &[String]) -> Option<Command>
    ensures { MatchOption result (AreUnknown (map string_bytes words.now)) (λ c. IsCommand (map string_bytes words.now) (plain_command c)) }
{
    match words {
        [word] => read_word(word.as_str()),
        [word, count] => read_workers(word.as_str(), count.as_str()),
        [word, count, seed] => read_make(word.as_str(), count.as_str(), seed.as_str()),
        _ => None,
    }
}

fn read_word(word: &str) -> Option<Command>
    ensures { MatchOption result (AreUnknown (word.now ∷ [])) (λ c. IsCommand (word.now ∷ []) (plain_command c)) }
{
    match word {
        "exchange" => Some(Command::Exchange),
        "tokens" => Some(Command::Tokens),
        _ => None,
    }
}

fn read_workers(word: &str, count: &str) -> Option<Command>
    ensures { MatchOption result (AreUnknown (word.now ∷ count.now ∷ [])) (λ c. IsCommand (word.now ∷ count.now ∷ []) (plain_command c)) }
{
    match word {
        "workers" => Some(Command::Workers {
            count: read_count(count, 64)?,
        }),
        _ => None,
    }
}

fn read_make(word: &str, count: &str, seed: &str) -> Option<Command>
    ensures { MatchOption result (AreUnknown (word.now ∷ count.now ∷ seed.now ∷ [])) (λ c. IsCommand (word.now ∷ count.now ∷ seed.now ∷ []) (plain_command c)) }
{
    match word {
        "make" => Some(Command::Make {
            count: read_count(count, 10_000)?,
            seed: read_below(seed.as_bytes(), 1 << 32)?,
        }),
        _ => None,
    }
}

// A number from 1 to this one.
fn read_count(text: &str, most: u64) -> Option<u64>
    requires { most < 2 ^ 62 }
    ensures { MatchOption result ((n : ℕ) → IsNumber text.now n → 1 ≤ n → n ≤ most → ⊥) (λ n. IsNumber text.now n × (1 ≤ n) × (n ≤ most)) }
{
    let number = read_below(text.as_bytes(), most + 1)?;
    if number > 0 { Some(number) } else { None }
}
