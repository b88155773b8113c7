//! The head that fields mean (RFC 9114, section 4.3).
ghost use Rattle.std.specs.Prelude.{◌≡◌, ◌↔◌, ◌==◌, ◌||◌, [], ℕ, List, not, length, is_some, codes, option_copied, Some, IsSome, IfOk, IsTrue, MatchOption, if◌then◌else◌};
ghost use Rattle.http.specs.StatusCode.{code_digits};
ghost use Rattle.http_uri.specs.Grammar.{path_of, query_of};
ghost use Rattle.qh_spec.specs.Meaning.{MeansHead, MeansRequest, MeansResponse, MakesTarget, ChoosesAuthority, pseudo, host_of, kept_path};
ghost use Rattle.qh_spec.specs.Message.{target_of, target_path, target_query};
ghost use Rattle.qh_spec.specs.Same.{SameTarget};
ghost use Rattle.qh_service.specs.Message.{head_of};
ghost use Rattle.qh_plain.specs.Given.{given_of};

use super::readable::is_authority;
use super::text::{back, front};
use super::values::{first_value, last_value};
use crate::sections::FieldLine;
use http::{Method, StatusCode};
use http_uri::Uri;
use qh_base::Memory;
use qh_service::Head;
use std::alloc::Global;

/// The parts of a target, as fields give them.
#[derive(Clone, Copy)]
struct Given<'a> {
    scheme: Option<&'a [u8]>,
    authority: &'a [u8],
    path_and_query: &'a [u8],
}

/// Whether the pseudo fields, and the host field of a request, give the head.
pub fn means_head(alloc: Global, fields: &[FieldLine], head: &Head) -> Result<bool, Memory>
    ensures { IfOk result (λ means. IsTrue means ↔ MeansHead fields.now (head_of head.now)) }
{
    match head {
        Head::Request { method, uri } => means_request(alloc, fields, method, uri),
        Head::Response { status } => Ok(means_response(fields, *status)),
    }
}

fn means_response(fields: &[FieldLine], status: StatusCode) -> bool
    ensures { IsTrue result ↔ MeansResponse fields.now status }
{
    let _code = status.as_u16();
    last_value(fields, b":status") == Some(status.as_str().as_bytes())
}

fn means_request(
    alloc: Global,
    fields: &[FieldLine],
    method: &Method,
    uri: &Uri,
) -> Result<bool, Memory>
    ensures { IfOk result (λ means. IsTrue means ↔ MeansRequest fields.now method.now (target_of uri.now)) }
{
    if last_value(fields, b":method") != Some(method.as_str().as_bytes()) {
        return Ok(false);
    }
    let own = last_value(fields, b":authority");
    let Some(authority) = chosen_authority(own, first_value(fields, b"host")) else {
        return Ok(false);
    };
    if !makes_target(alloc, fields, authority)? {
        return Ok(false);
    }
    let given = Given {
        scheme: last_value(fields, b":scheme"),
        authority,
        path_and_query: kept_path(last_value(fields, b":path")),
    };
    Ok(is_same_target(&given, uri))
}

// The authority of a request: its own, or that of the first host field. Both have the same bytes where both are there.
fn chosen_authority<'a>(own: Option<&'a [u8]>, host: Option<&'a [u8]>) -> Option<&'a [u8]>
    ensures { MatchOption result
        ((a : List ℕ) → ChoosesAuthority (option_copied own.entry) (option_copied host.entry) a → ⊥)
        (λ a. ChoosesAuthority (option_copied own.entry) (option_copied host.entry) a.now) }
{
    match (own, host) {
        (Some(own), Some(host)) => { if own == host { Some(host) } else { None } }
        (Some(own), None) => Some(own),
        (None, host) => host,
    }
}

// Whether this is an authority, and a scheme and a path are both there or both missing.
fn makes_target(alloc: Global, fields: &[FieldLine], authority: &[u8]) -> Result<bool, Memory>
    ensures { IfOk result (λ makes. IsTrue makes ↔ MakesTarget fields.now authority.now) }
{
    let has_scheme = last_value(fields, b":scheme").is_some();
    let has_path = last_value(fields, b":path").is_some();
    if has_scheme != has_path {
        return Ok(false);
    }
    is_authority(alloc, authority)
}

// A path as a target keeps it, without a fragment. A missing one is kept as nothing.
fn kept_path(path: Option<&[u8]>) -> &[u8]
    ensures { result.now ≡ kept_path (option_copied path.entry) }
{
    match path {
        Some(path) => front(path, b'#'),
        None => b"",
    }
}

// Whether the parts that are given are those of a target.
fn is_same_target(given: &Given<'_>, uri: &Uri) -> bool
    ensures { IsTrue result ↔ SameTarget (given_of given.now) (target_of uri.now) }
{
    is_same_scheme(given.scheme, uri)
        && is_same_authority(given.authority, uri)
        && is_same_path(given, uri)
        && is_same_query(given.path_and_query, uri)
}

fn is_same_scheme(scheme: Option<&[u8]>, uri: &Uri) -> bool
    ensures { IsTrue result ↔ (option_copied scheme.entry ≡ (target_of uri.now).scheme) }
{
    scheme == uri.scheme_str().map(|scheme| scheme.as_bytes())
}

fn is_same_authority(authority: &[u8], uri: &Uri) -> bool
    ensures { IsTrue result ↔ (Some authority.now ≡ (target_of uri.now).authority) }
{
    match uri.authority() {
        Some(own) => own.as_str().as_bytes() == authority,
        None => false,
    }
}

// An empty path is `/`, but for a target that has an authority alone.
fn is_same_path(given: &Given<'_>, uri: &Uri) -> bool
    ensures { IsTrue result ↔ (target_path (given_of given.now) ≡ target_path (target_of uri.now)) }
{
    if given.path_and_query.is_empty() && given.scheme.is_none() {
        return uri.path().is_empty();
    }
    path_of(given.path_and_query) == uri.path().as_bytes()
}

fn path_of(text: &[u8]) -> &[u8]
    ensures { result.now ≡ path_of text.now }
{
    let path = front(text, b'?');
    if path.is_empty() { b"/" } else { path }
}

fn is_same_query(text: &[u8], uri: &Uri) -> bool
    ensures { IsTrue result ↔ (query_of text.now ≡ target_query (target_of uri.now)) }
{
    back(text, b'?') == uri.query().map(|query| query.as_bytes())
}
