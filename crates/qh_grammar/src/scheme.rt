//! Schemes.
ghost use Rattle.std.specs.Prelude.{◌≡◌, ◌≤◌, IsTrue, IsFalse, length};
ghost use Rattle.std.specs.List.{prefix_len};
ghost use Rattle.http_uri.specs.ByteClasses.{is_scheme_byte};
ghost use Rattle.http_uri.specs.Grammar.{IsScheme, scheme_len};

/// The greatest length of a scheme.
const MAX_SCHEME: usize = 64;

/// Whether the text is a scheme of at most 64 bytes.
pub fn is_scheme(text: &[u8]) -> bool
    ensures yes { IsTrue result → IsScheme text.now }
    ensures no { IsFalse result → ¬ (IsScheme text.now) }
{
    text.len() <= MAX_SCHEME && text.iter().all(|b| is_scheme_byte(*b))
}

/// How many bytes of a scheme the text begins with.
pub(crate) fn scheme_run(text: &[u8]) -> usize
    ensures value { result ≡ scheme_len text.now }
    ensures within { result ≤ length text.now }
{
    text.iter().take_while(|b| is_scheme_byte(**b)).count()
}

fn is_scheme_byte(b: u8) -> bool
    ensures { result ≡ is_scheme_byte b }
{
    matches!(b, b'+' | b'-' | b'.' | b'0'..=b'9' | b'A'..=b'Z' | b'a'..=b'z' | b'~')
}
