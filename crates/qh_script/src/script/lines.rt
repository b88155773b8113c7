//! The lines of a text.

ghost use Rattle.std.specs.Prelude.{◌≡◌, ℕ, ◌<◌, ◌≤◌, ◌∷◌, length, slice_index};
ghost use Rattle.qh_spec.specs.Lines.{lines};

/// The first line of a text, and the text behind its newline.
pub fn cut_line(text: &[u8]) -> (&[u8], &[u8])
    requires { 0 < length text.now }
    ensures cut { lines text.now ≡ result.0.now ∷ lines result.1.now }
    ensures shorter { length result.1.now < length text.now }
{
    let end = line_len(text);
    if end < text.len() {
        (&text[..end], &text[end + 1..])
    } else {
        (text, &text[end..])
    }
}

// How long the first line is.
fn line_len(text: &[u8]) -> usize
    ensures within { result ≤ length text.now }
    ensures before { (k : ℕ) → k < result → slice_index text.now k ≡ 10 → ⊥ }
    ensures found { result < length text.now → slice_index text.now result ≡ 10 }
{
    text.iter().position(|b| *b == b'\n').unwrap_or(text.len())
}
