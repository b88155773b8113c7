//! Paths with a query.
ghost use Rattle.std.specs.Prelude.{◌≡◌, ◌≢◌, ◌<◌, ◌≤◌, ◌↔◌, ℕ, length, slice_index, IsTrue, IsFalse, IfSome, MatchOption};
ghost use Rattle.std.specs.List.{prefix_len};
ghost use Rattle.http_uri.specs.ByteClasses.{is_path_byte, is_query_byte, hash_sign};
ghost use Rattle.http_uri.specs.Grammar.{IsPathInput, IsScanOf, StartsPath};

use std::str;

/// The greatest length of a path with its query and its fragment.
const MAX_PATH: usize = 65534;

/// Whether the text is a path, with a query and a fragment or without, or `*`.
pub fn is_path_input(text: &[u8]) -> bool
    ensures yes { IsTrue result → IsPathInput text.now }
    ensures no { IsFalse result → ¬ (IsPathInput text.now) }
{
    match path_end(text) {
        Some(end) => str::from_utf8(&text[..end]).is_ok(),
        None => false,
    }
}

/// Where the fragment of a path begins, or the path ends. It doesn't look whether the text is UTF-8.
fn path_end(text: &[u8]) -> Option<usize>
    ensures value { MatchOption result (¬ (IsPathInput text.now)) (λ end. (mark : ℕ) × IsScanOf text.now (mark, end)) }
    ensures within { IfSome result (λ end. end ≤ length text.now) }
{
    if text.is_empty() || text.len() > MAX_PATH || !starts_path(text) {
        return None;
    }
    let path = path_run(text);
    if is_end(text, path) {
        return Some(path);
    }
    if text[path] != b'?' {
        return None;
    }
    let end = path + 1 + query_run(&text[path + 1..]);
    if is_end(text, end) { Some(end) } else { None }
}

fn starts_path(text: &[u8]) -> bool
    ensures { IsTrue result ↔ StartsPath text.now }
{
    text == b"*".as_slice() || matches!(text.first(), Some(b'/' | b'?' | b'#'))
}

/// Whether the text ends at `i`, or its fragment begins there.
fn is_end(text: &[u8], i: usize) -> bool
    requires { i ≤ length text.now }
    ensures yes { IsTrue result → i < length text.now → slice_index text.now i ≡ hash_sign }
    ensures no { IsFalse result → (i < length text.now) × (slice_index text.now i ≢ hash_sign) }
{
    i == text.len() || text[i] == b'#'
}

fn path_run(text: &[u8]) -> usize
    ensures value { result ≡ prefix_len is_path_byte text.now }
    ensures within { result ≤ length text.now }
{
    text.iter().take_while(|b| is_path_byte(**b)).count()
}

fn query_run(text: &[u8]) -> usize
    ensures value { result ≡ prefix_len is_query_byte text.now }
    ensures within { result ≤ length text.now }
{
    text.iter().take_while(|b| is_query_byte(**b)).count()
}

fn is_path_byte(b: u8) -> bool
    ensures { result ≡ is_path_byte b }
{
    matches!(b, b'!'..=b'"' | b'$'..=b';' | b'=' | b'@'..=b'_' | b'a'..=b'~' | 0x80..)
}

fn is_query_byte(b: u8) -> bool
    ensures { result ≡ is_query_byte b }
{
    matches!(b, b'!' | b'$'..=b';' | b'=' | b'?'..=b'~' | 0x80..)
}
