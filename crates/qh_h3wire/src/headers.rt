//! The heads of messages (RFC 9114, section 4.3), as `h3`'s `proto::headers` has them.
ghost use Rattle.std.specs.Prelude.{◌≡◌, ◌≢◌, ◌↔◌, ◌⊎◌, ℕ, List, [], take, None, Some, Ok, IfOk, IfErr, IsErrOf, IsSome, IsNone, MatchResult, option_copied};
ghost use Rattle.std.specs.Option.{option_map};
ghost use Rattle.qh_spec.specs.Fields.{Field};
ghost use Rattle.qh_spec.specs.Meaning.{AreReadable, MeansRequest, MeansResponse};
ghost use Rattle.qh_spec.specs.Message.{PlainTarget, target_of};
ghost use Rattle.qh_spec.specs.Refusal.{AreTaken, IsRefused, IsRequestFault, IsResponseFault, MissingStatus};
ghost use Rattle.qh_h3wire.specs.HeadFields.{with_fields};
ghost use Rattle.qh_h3wire.specs.HeadReading.{most_names};
ghost use Rattle.qh_h3wire.specs.Header.{request_header, response_header, trailer_header, written_fields, IsHeaderOf, IsSendable, IsTargetOf, map_host};
ghost use Rattle.qh_h3wire.specs.HeadParts.{target_fault, IsPartsAnswer, IsTargetAnswer, IsUriAnswer};
ghost use Rattle.qh_h3wire.specs.HeaderFault.{authority_fault, IfFault, IsAuthorityAnswer, IsHostAnswer, IsPartsFault};
ghost use Rattle.qh_h3wire.specs.PlainHeader.{PlainHeader};

use field::fault_of_lines;
use http::{Method, StatusCode};
use http_header::{HeaderMap, HeaderValue};
use http_uri::{Authority, Parts, PathAndQuery, Scheme, Uri};
use pseudo::{Pseudo, push_map};
use qh_base::Memory;
use qh_grammar::is_authority;
use qh_qpack::HeaderField;
use std::alloc::Global;
use std::marker::Model;
use thiserror::Error;

mod field;
mod pseudo;

/// The head of a message, and its fields. A contract sees it as a plain value.
#[derive(Drop)]
pub struct Header {
    pseudo: Pseudo,
    fields: HeaderMap,
}

impl Model for Header {
    ghost use Rattle.qh_h3wire.specs.PlainHeader.{PlainHeader};

    ghost Value = { PlainHeader };

    ghost view = { λ h. record { method = h.pseudo.method; scheme = h.pseudo.scheme; authority = h.pseudo.authority; path = h.pseudo.path; status = h.pseudo.status; fields = h.fields } };
}

/// Why a head couldn't be made, or read.
#[derive(Clone, Copy, Debug, PartialEq, Eq, Error)]
pub enum HeaderError {
    /// A name that begins with ':' and isn't known, a name that isn't one in lower case, or one field more than a map holds.
    #[error("a malformed name of a field, or one field too many")]
    InvalidHeaderName,
    /// A value that isn't of its field's kind.
    #[error("a malformed value of a field")]
    InvalidHeaderValue,
    /// The parts of a request make no target.
    #[error("the parts of the request make no target")]
    InvalidRequest,
    /// A request without :method.
    #[error("a request without a method")]
    MissingMethod,
    /// A response without :status.
    #[error("a response without a status")]
    MissingStatus,
    /// A request with neither :authority nor a host field.
    #[error("a request without an authority")]
    MissingAuthority,
    /// A request whose :authority and first host field have unlike bytes.
    #[error("a request with two unlike authorities")]
    ContradictedAuthority,
    /// The allocator had no memory.
    #[error("out of memory")]
    Memory,
}

impl From<Memory> for HeaderError {
    ghost use Rattle.std.specs.Prelude.{◌≡◌};
    ghost use Rattle.qh_h3wire.specs.declared.headers.HeaderError.TheVariants.{Memory};

    ghost from_gives = { λ _ e. e ≡ Memory };

    fn from(_: Memory) -> HeaderError {
        HeaderError::Memory
    }
}

impl Header {
    /// The head of a request. Its authority may stand in the target, in a host field or, with the same bytes, in both. Where
    /// it stands in the target, the parts of the head make this target again. A target that is a path alone has no scheme,
    /// so `into_request_parts` refuses its head.
    pub fn request(method: Method, uri: Uri, fields: HeaderMap) -> Result<Header, HeaderError>
        ensures value { IfOk result (λ h. h ≡ request_header method (target_of uri) fields) }
        ensures target { IfOk result (λ h. IsSome (target_of uri).authority → IsTargetOf h (target_of uri)) }
        ensures missing { IsErrOf result HeaderError.MissingAuthority
            ↔ ((target_of uri).authority ≡ None) × (map_host fields ≡ None) }
        ensures contradicted { IsErrOf result HeaderError.ContradictedAuthority
            ↔ (a : List ℕ) × (b : List ℕ) × ((target_of uri).authority ≡ Some a) × (map_host fields ≡ Some b) × (a ≢ b) }
        ensures no_other { IfErr result (λ e. (e ≡ HeaderError.MissingAuthority) ⊎ (e ≡ HeaderError.ContradictedAuthority)) }
    {
        match authority_fault(uri.authority(), fields.get("host")) {
            Some(fault) => {
                // A destructor that is called is proved once; at the end of a scope it is proved there.
                drop(method);
                drop(uri);
                drop(fields);
                Err(fault)
            }
            None => Ok(request_head(method, uri, fields)),
        }
    }

    /// The head of a response.
    pub fn response(status: StatusCode, fields: HeaderMap) -> Header
        ensures { result ≡ response_header status fields }
    {
        let mut pseudo = Pseudo::empty();
        pseudo.status = Some(status);
        Header { pseudo, fields }
    }

    /// Trailers: fields without a head.
    pub fn trailer(fields: HeaderMap) -> Header
        ensures { result ≡ trailer_header fields }
    {
        Header {
            pseudo: Pseudo::empty(),
            fields,
        }
    }

    /// Reads field lines. A pseudo field that comes again counts by its last value. The first line that isn't kept
    /// decides the fault: its name comes first, then its value, and then that a map has no room for it. `Memory` is
    /// answered only if the lines can be read; of those behind the first 24576, as many as a map may have names, it says nothing.
    pub fn from_fields(alloc: Global, fields: Vec<HeaderField>) -> Result<Header, HeaderError>
        ensures taken { IfOk result (λ h. AreTaken [] fields.items) }
        ensures value { IfOk result (IsHeaderOf fields.items) }
        ensures refused { IfErr result (λ e. IfFault e (IsRefused [] fields.items)) }
        ensures memory { IsErrOf result HeaderError.Memory → AreReadable (take most_names fields.items) }
    {
        let mut pseudo = Pseudo::empty();
        let mut map = HeaderMap::new(alloc);
        match pseudo.keep_lines(&mut map, alloc, fields.as_slice()) {
            Ok(()) => Ok(Header {
                pseudo,
                fields: map,
            }),
            Err(fault) => {
                drop(pseudo);
                drop(map);
                Err(match fault {
                    HeaderError::Memory => fault_of_lines(alloc, fields.as_slice()),
                    fault => fault,
                })
            }
        }
    }

    /// The field lines in the order in which they are written: the pseudo fields, and then the fields name by name. An
    /// empty path is written as `/` (section 4.3.1). What is listed can be sent: `heads_are_read_back` tells that it is
    /// read as the same head.
    pub fn into_list(self, alloc: Global) -> Result<Vec<HeaderField>, HeaderError>
        ensures value { IfOk result (λ list. list.items ≡ written_fields self) }
        ensures sendable { IfOk result (λ list. IsSendable self) }
        ensures err { IfErr result (λ e. e ≡ HeaderError.Memory) }
    {
        let list = self.list(alloc);
        drop(self);
        list
    }

    /// The same of a head that is lent.
    fn list(&self, alloc: Global) -> Result<Vec<HeaderField>, HeaderError>
        ensures value { IfOk result (λ list. list.items ≡ written_fields self.now) }
        ensures sendable { IfOk result (λ list. IsSendable self.now) }
        ensures err { IfErr result (λ e. e ≡ HeaderError.Memory) }
    {
        let mut list = self.pseudo.fields(alloc)?;
        push_map(alloc, &mut list, &self.fields)?;
        Ok(list)
    }

    /// The method, the target and the fields of a request. Where there is no :authority, the first host field is the
    /// target's. The faults come in the order of the error's cases here: no method, no authority, two unlike ones, parts
    /// that make no target. `Memory` is answered only if the parts make a target.
    pub fn into_request_parts(self) -> Result<(Method, Uri, HeaderMap), HeaderError>
        ensures value { IfOk result (λ p. (self.method ≡ Some p.0) × IsTargetOf self (target_of p.1) × (p.2 ≡ self.fields)) }
        ensures missing_method { IsErrOf result HeaderError.MissingMethod ↔ IsNone self.method }
        ensures missing_authority { IsErrOf result HeaderError.MissingAuthority
            ↔ IsSome self.method × (self.authority ≡ None) × (map_host self.fields ≡ None) }
        ensures contradicted { IsErrOf result HeaderError.ContradictedAuthority
            ↔ IsSome self.method × ((a : List ℕ) × (b : List ℕ) × (self.authority ≡ Some a) × (map_host self.fields ≡ Some b) × (a ≢ b)) }
        ensures invalid { IsErrOf result HeaderError.InvalidRequest → (t : PlainTarget) → IsTargetOf self t → ⊥ }
        ensures memory { IsErrOf result HeaderError.Memory → (self.authority ≡ None) × ((t : PlainTarget) × IsTargetOf self t) }
        ensures no_other { IfErr result IsPartsFault }
        ensures means { IfOk result (λ p. (fields : List Field) → AreTaken [] fields → IsHeaderOf fields self → MeansRequest fields p.0 (target_of p.1)) }
        ensures refused { IfErr result (λ e. (fields : List Field) → AreTaken [] fields → IsHeaderOf fields self → IfFault e (IsRequestFault fields)) }
    {
        let Header { pseudo, fields } = self;
        request_parts(pseudo, fields)
    }

    /// The status and the fields of a response.
    pub fn into_response_parts(self) -> Result<(StatusCode, HeaderMap), HeaderError>
        ensures value { MatchResult result (λ p. (self.status ≡ Some p.0) × (p.1 ≡ self.fields))
            (λ e. (e ≡ HeaderError.MissingStatus) × (self.status ≡ None)) }
        ensures means { IfOk result (λ p. (fields : List Field) → AreTaken [] fields → IsHeaderOf fields self → MeansResponse fields p.0) }
        ensures refused { IfErr result (λ e. (fields : List Field) → IsHeaderOf fields self → IfFault e (IsResponseFault fields)) }
    {
        let Header { pseudo, fields } = self;
        match pseudo.status {
            Some(status) => Ok((status, fields)),
            None => Err(HeaderError::MissingStatus),
        }
    }

    /// The fields, without the head.
    pub fn into_fields(self) -> HeaderMap
        ensures { result ≡ self.fields }
    {
        self.fields
    }
}

/// The head of a request.
fn request_head(method: Method, uri: Uri, fields: HeaderMap) -> Header
    ensures { result ≡ request_header method (target_of uri) fields }
{
    let Parts {
        scheme,
        authority,
        path_and_query,
    } = uri.into_parts();
    let pseudo = Pseudo {
        method: Some(method),
        scheme,
        authority,
        path: path_and_query,
        status: None,
    };
    Header { pseudo, fields }
}

/// The parts of a request's head.
fn request_parts(pseudo: Pseudo, fields: HeaderMap) -> Result<(Method, Uri, HeaderMap), HeaderError>
    ensures { IsPartsAnswer result (with_fields fields pseudo) }
{
    let Pseudo {
        method,
        scheme,
        authority,
        path,
        status: _,
    } = pseudo;
    let Some(method) = method else {
        drop(scheme);
        drop(authority);
        drop(path);
        drop(fields);
        return Err(HeaderError::MissingMethod);
    };
    match request_target(scheme, authority, path, fields.get("host")) {
        Ok(uri) => Ok((method, uri, fields)),
        Err(fault) => {
            drop(method);
            drop(fields);
            Err(fault)
        }
    }
}

/// The target that these parts make beside the first host field.
fn request_target(
    scheme: Option<Scheme>,
    authority: Option<Authority>,
    path: Option<PathAndQuery>,
    host: Option<&HeaderValue>,
) -> Result<Uri, HeaderError>
    ensures { IsTargetAnswer result scheme authority path (option_map (λ v. v.now.bytes) host.entry) }
{
    let fits = scheme.is_some() == path.is_some();
    match authority_of(authority, host) {
        Ok(authority) => target_with(scheme, authority, path),
        Err(fault) => Err(target_fault(fault, fits)),
    }
}

/// The fault of parts whose authority has this one. Where the others don't fit, want of memory isn't told.
fn target_fault(fault: HeaderError, fits: bool) -> HeaderError
    ensures { result ≡ target_fault fault fits }
{
    match fault {
        HeaderError::Memory if !fits => HeaderError::InvalidRequest,
        fault => fault,
    }
}

/// The target of this authority.
fn target_with(
    scheme: Option<Scheme>,
    authority: Authority,
    path_and_query: Option<PathAndQuery>,
) -> Result<Uri, HeaderError>
    ensures { IsUriAnswer result (Ok authority) scheme path_and_query }
{
    let parts = Parts {
        scheme,
        authority: Some(authority),
        path_and_query,
    };
    match Uri::from_parts(parts) {
        Ok(uri) => Ok(uri),
        Err(_) => Err(HeaderError::InvalidRequest),
    }
}

/// What is wrong with an authority beside the first host field.
fn authority_fault(authority: Option<&Authority>, host: Option<&HeaderValue>) -> Option<HeaderError>
    ensures { result ≡ authority_fault (option_copied authority.entry) (option_map (λ v. v.now.bytes) host.entry) }
{
    match (authority, host) {
        (None, None) => Some(HeaderError::MissingAuthority),
        (Some(own), Some(host)) if own.as_str().as_bytes() != host.as_bytes() => {
            Some(HeaderError::ContradictedAuthority)
        }
        _ => None,
    }
}

/// The authority of a request: its own, or that of the first host field.
fn authority_of(
    authority: Option<Authority>,
    host: Option<&HeaderValue>,
) -> Result<Authority, HeaderError>
    ensures { IsAuthorityAnswer result authority (option_map (λ v. v.now.bytes) host.entry) }
{
    if let Some(fault) = authority_fault(authority.as_ref(), host) {
        return Err(fault);
    }
    match (authority, host) {
        (Some(own), _) => Ok(own),
        (None, Some(host)) => host_authority(host),
        (None, None) => Err(HeaderError::MissingAuthority),
    }
}

/// A host field as an authority. It shares the field's bytes.
fn host_authority(host: &HeaderValue) -> Result<Authority, HeaderError>
    ensures { IsHostAnswer result host.now.bytes }
{
    if !is_authority(host.as_bytes()) {
        return Err(HeaderError::InvalidRequest);
    }
    let Ok(bytes) = host.as_shared().clone() else {
        return Err(HeaderError::Memory);
    };
    match Authority::from_shared(bytes) {
        Ok(authority) => Ok(authority),
        Err(_) => Err(HeaderError::InvalidRequest),
    }
}
