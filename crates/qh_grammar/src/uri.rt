//! URIs as request targets.
ghost use Rattle.std.specs.Prelude.{◌≡◌, ◌+◌, ◌≤◌, ◌↔◌, length, IsTrue, IfSome, MatchOption};
ghost use Rattle.http_uri.specs.Grammar.{EndsAuthority, HasScheme, StartsOrigin, scheme_len as the_scheme_len};
ghost use Rattle.qh_grammar.specs.Uri.{IsAbsolute, IsSomeTail, IsUri};

use crate::authority::{authority_run, is_authority};
use crate::path::is_path_input;
use crate::scheme::{is_scheme, scheme_run};

/// The greatest length of a URI.
const MAX_URI: usize = 65534;

/// Whether the text is a URI: `/path?query`, `*`, `host:port` or `scheme://host/path?query`.
pub fn is_uri(text: &[u8]) -> bool
    ensures { IsTrue result ↔ IsUri text.now }
{
    if text.len() > MAX_URI {
        return false;
    }
    if starts_origin(text) {
        return is_path_input(text);
    }
    match scheme_end(text) {
        Some(end) => is_absolute(text, end),
        None => is_authority(text),
    }
}

// Whether the text can only be a path: it is `*`, or begins with a slash.
fn starts_origin(text: &[u8]) -> bool
    ensures { IsTrue result ↔ StartsOrigin text.now }
{
    text == b"*".as_slice() || text.first() == Some(&b'/')
}

// Where `://` stands behind the scheme's bytes.
fn scheme_end(text: &[u8]) -> Option<usize>
    ensures found { MatchOption result (¬ (HasScheme text.now)) (λ end. HasScheme text.now × (end ≡ the_scheme_len text.now)) }
    ensures within { IfSome result (λ end. end + 3 ≤ length text.now) }
{
    let end = scheme_run(text);
    if text.len() > 3 && text[end..].starts_with(b"://") {
        Some(end)
    } else {
        None
    }
}

// Whether the text, in which `://` stands behind so many bytes of a scheme, has an authority and a tail behind that.
fn is_absolute(text: &[u8], scheme_len: usize) -> bool
    requires has { HasScheme text.now }
    requires len { scheme_len ≡ the_scheme_len text.now }
    requires room { scheme_len + 3 ≤ length text.now }
    ensures { IsTrue result ↔ IsAbsolute text.now }
{
    let behind = &text[scheme_len + 3..];
    let end = authority_run(behind);
    if !is_scheme(&text[..scheme_len]) {
        return false;
    }
    if !is_authority(&behind[..end]) {
        return false;
    }
    is_tail(&behind[end..])
}

// Whether this may follow an authority: nothing, or a path.
fn is_tail(text: &[u8]) -> bool
    requires { EndsAuthority text.now }
    ensures { IsTrue result ↔ IsSomeTail text.now }
{
    text.is_empty() || is_path_input(text)
}
