//! Which requests may be asked.
ghost use Rattle.std.specs.Prelude.{◌≡◌, ◌≢◌, [], ◌↔◌, ◌-◌, ◌^◌, min, codes, slice_index, option_copied, None, IfOk, OnErr, IfSome, IsTrue};
ghost use Rattle.http_uri.specs.ByteClasses.{count_of, at_sign, hash_sign, slash};
ghost use Rattle.http_uri.specs.Grammar.{or_slash};
ghost use Rattle.qh_spec.specs.Fields.{message_fields, map_fields};
ghost use Rattle.qh_spec.specs.Message.{target_of};
ghost use Rattle.qh_spec.specs.Same.{bytes_under};
ghost use Rattle.qh_spec.specs.Size.{message_size};
ghost use Rattle.qh_spec.specs.Validity.{FitsSection, IsValidTarget, AreValidHosts, AreValidTrailers, IsValidHead, IsValidRequest, IsFaultIndex, IsValidList};
ghost use Rattle.qh_service.specs.Message.{head_of};
ghost use Rattle.qh_plain.specs.Target.{IsWebScheme, IsPlainPath, HasPlainAuthority};
ghost use Rattle.qh_plain.specs.Undecided.{with_slash, head_with_slash, IsUndecided, IsUndecidedList, ShowsSlash};

use http_header::HeaderMap;
use http_uri::{PathAndQuery, Uri};
use qh_base::Memory;
use qh_service::{Head, Message};
use room::{Room, after_head, after_map};

mod room;

// The greatest number of fields in a section.
const MAX_FIELDS: u64 = 1024;

/// The size of a message: both sections, the body, and 64 for what frames it, at most 2^64 - 1.
pub fn message_size(message: &Message) -> u64
    ensures { result ≡ min (2 ^ 64 - 1) (message_size message.now) }
{
    message.size()
}

// Whether the section of the head and the fields fits.
fn has_fitting_fields(section: u64, message: &Message) -> bool
    ensures { IsTrue result ↔ FitsSection section (message_fields message.now) }
{
    let room = Room {
        fields: MAX_FIELDS,
        bytes: section,
    };
    let room = after_head(Some(room), message.head());
    after_map(room, message.fields()).is_some()
}

// Whether a section of the fields of a map fits.
fn is_fitting_map(section: u64, fields: &HeaderMap) -> bool
    ensures { IsTrue result ↔ FitsSection section (map_fields fields.now) }
{
    let room = Room {
        fields: MAX_FIELDS,
        bytes: section,
    };
    after_map(Some(room), fields).is_some()
}

// Whether the trailers have a field and their section fits.
fn are_valid_trailers(section: u64, trailers: Option<&HeaderMap>) -> bool
    ensures { IsTrue result ↔ AreValidTrailers section (option_copied trailers.entry) }
{
    match trailers {
        Some(fields) => fields.len() > 0 && is_fitting_map(section, fields),
        None => true,
    }
}

// Whether there is one host field at most, and that is the authority.
fn are_valid_hosts(authority: Option<&str>, fields: &HeaderMap) -> bool
    ensures { IsTrue result ↔ AreValidHosts (option_copied authority.entry) (bytes_under fields.now (codes "host")) }
{
    let mut hosts = fields.get_all("host").iter();
    let Some(first) = hosts.next() else {
        return true;
    };
    if hosts.next().is_some() {
        return false;
    }
    match authority {
        Some(authority) => authority.as_bytes() == first.as_bytes(),
        None => false,
    }
}

fn is_web_scheme(scheme: Option<&str>) -> bool
    ensures { IsTrue result ↔ IsWebScheme (option_copied scheme.entry) }
{
    match scheme {
        Some(scheme) => scheme == "http" || scheme == "https",
        None => false,
    }
}

// How many times the byte comes.
fn occurrences(text: &[u8], byte: u8) -> usize
    ensures { result ≡ count_of byte text.now }
{
    text.iter().filter(|b| **b == byte).count()
}

// Whether a path, as it is shown, begins with a slash and has no fragment.
fn shows_plain_path(path: &PathAndQuery) -> bool
    ensures { IsTrue result ↔ IsPlainPath (or_slash path.now) }
{
    let text = path.as_str().as_bytes();
    text.first() == Some(&b'/') && occurrences(text, b'#') == 0
}

// Whether a path is empty. It is shown as `/` but where it stands alone in a target, which takes a copy.
fn is_empty_path(path: &PathAndQuery) -> Result<bool, Memory>
    ensures { IfOk result (λ empty. IsTrue empty ↔ (path.now ≡ [])) }
{
    let alone = Uri::from(path.clone()?);
    Ok(alone.path().is_empty())
}

// Whether a path begins with a slash and has no fragment. Only one that is shown as `/` takes memory.
fn is_plain_path(path: &PathAndQuery) -> Result<bool, Memory>
    ensures value { IfOk result (λ plain. IsTrue plain ↔ IsPlainPath path.now) }
    ensures memory { OnErr result (or_slash path.now ≡ codes "/") }
{
    if !shows_plain_path(path) {
        return Ok(false);
    }
    if path.as_str() != "/" {
        return Ok(true);
    }
    Ok(!is_empty_path(path)?)
}

// Whether the authority of a target has no user part.
fn is_plain_authority(uri: &Uri) -> bool
    ensures { IsTrue result ↔ HasPlainAuthority (target_of uri.now).authority }
{
    match uri.authority() {
        Some(authority) => occurrences(authority.as_str().as_bytes(), b'@') == 0,
        None => false,
    }
}

fn is_valid_target(uri: &Uri) -> Result<bool, Memory>
    ensures value { IfOk result (λ valid. IsTrue valid ↔ IsValidTarget (target_of uri.now)) }
    ensures shown { OnErr result (or_slash (target_of uri.now).path_and_query ≡ codes "/") }
    ensures sound { OnErr result (IsValidTarget (with_slash (target_of uri.now))) }
{
    if !is_web_scheme(uri.scheme_str()) || !is_plain_authority(uri) {
        return Ok(false);
    }
    match uri.path_and_query() {
        Some(path) => is_plain_path(path),
        None => Ok(false),
    }
}

fn is_valid_head(message: &Message) -> Result<bool, Memory>
    ensures value { IfOk result (λ valid. IsTrue valid ↔ IsValidHead message.now.head (bytes_under message.now.fields (codes "host"))) }
    ensures shown { OnErr result (ShowsSlash message.now.head) }
    ensures sound { OnErr result (IsValidHead (head_with_slash message.now.head) (bytes_under message.now.fields (codes "host"))) }
{
    match message.head() {
        Head::Request { method, uri } => {
            let authority = uri.authority().map(|authority| authority.as_str());
            if method.as_str() == "CONNECT" || !are_valid_hosts(authority, message.fields()) {
                return Ok(false);
            }
            is_valid_target(uri)
        }
        Head::Response { .. } => Ok(false),
    }
}

/// Whether an exchange takes this as a request, where its sections may have `section` bytes and its body
/// `request_body`. Memory is taken only for a path that is shown as `/`, which may be empty, and after all else was
/// found sound.
pub fn is_valid_request(section: u64, request_body: u64, message: &Message) -> Result<bool, Memory>
    ensures value { IfOk result (λ valid. IsTrue valid ↔ IsValidRequest section request_body message.now) }
    ensures memory { OnErr result (IsUndecided section request_body message.now) }
{
    if !has_fitting_fields(section, message)
        || !are_valid_trailers(section, message.trailers())
        || message.body().len() as u64 > request_body
    {
        return Ok(false);
    }
    is_valid_head(message)
}

/// The index of the first request that may not be asked, or that is one too many, where at most `max_requests` may be
/// asked. On want of memory each request before the one that wanted it may be asked.
pub fn fault_index(
    max_requests: u64,
    section: u64,
    request_body: u64,
    requests: &[Message],
) -> Result<Option<usize>, Memory>
    ensures some { IfOk result (λ found. IfSome found (IsFaultIndex max_requests section request_body requests.now)) }
    ensures none { IfOk result (λ found. (found ≡ None) → IsValidList max_requests section request_body requests.now) }
    ensures memory { OnErr result (IsUndecidedList max_requests section request_body requests.now) }
{
    for (index, request) in requests.iter().enumerate() {
        if index as u64 == max_requests {
            return Ok(Some(index));
        }
        if !is_valid_request(section, request_body, request)? {
            return Ok(Some(index));
        }
    }
    Ok(None)
}
