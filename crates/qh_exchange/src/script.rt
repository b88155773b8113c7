ghost use Rattle.std.specs.Prelude.{ℕ, MatchOption, bytes_eq, not, length, ◌==◌, ◌≡◌, ◌≤◌};
ghost use Rattle.std.specs.List.{list_any, prefix_len};
ghost use Rattle.qh_exchange.specs.Unbuilt.{IsUnbuiltAt, is_unbuilt_word, first_word};

use qh_script::cut_line;

// The first words of the lines that aren't built yet.
const UNBUILT_WORDS: [&str; 3] = ["retry", "forge", "grease"];

/// The number, counted from 1, of the first line that isn't built yet.
pub fn unbuilt_line(text: &[u8]) -> Option<usize>
    ensures { MatchOption result ((n : ℕ) → IsUnbuiltAt text.now n → ⊥) (IsUnbuiltAt text.now) }
{
    let mut rest = text;
    let mut number = 0usize;
    while !rest.is_empty() {
        let (line, behind) = cut_line(rest);
        number += 1;
        if is_unbuilt(first_word(line)) {
            return Some(number);
        }
        rest = behind;
    }
    None
}

fn is_unbuilt(word: &[u8]) -> bool
    ensures { result ≡ is_unbuilt_word word.now }
{
    is_among(&UNBUILT_WORDS, word)
}

fn is_among(words: &[&str], word: &[u8]) -> bool
    ensures { result ≡ list_any (λ other. bytes_eq other.now word.now) words.now }
{
    for other in words {
        if other.as_bytes() == word {
            return true;
        }
    }
    false
}

// What stands before the first space.
fn first_word(line: &[u8]) -> &[u8]
    ensures { result.now ≡ first_word line.now }
{
    &line[..word_len(line)]
}

fn word_len(line: &[u8]) -> usize
    ensures value { result ≡ prefix_len (λ b. not (b == 32)) line.now }
    ensures within { result ≤ length line.now }
{
    let mut end = 0;
    while end < line.len() && line[end] != b' ' {
        end += 1;
    }
    end
}
