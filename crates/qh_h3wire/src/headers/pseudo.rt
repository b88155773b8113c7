//! The pseudo-header fields of a head.
ghost use Rattle.std.specs.Prelude.{◌≡◌, ◌++◌, List, [], None, OnOk, OnErr, IfOk, IfErr, IfSome, option_copied};
ghost use Rattle.std.specs.List.{AllByRecursion};
ghost use Rattle.std.specs.Option.{option_map};
ghost use Rattle.http.specs.StatusCode.{code_digits, IsStatusCode};
ghost use Rattle.http_header.specs.HeaderMap.{IsHeaderMap};
ghost use Rattle.http_header.specs.Token.{IsToken};
ghost use Rattle.http_uri.specs.Grammar.{or_slash, IsAuthority, IsPathAndQuery, IsScheme};
ghost use Rattle.qh_qpack.specs.SectionFault.{IsWritable};
ghost use Rattle.qh_spec.specs.Fields.{Field, optional_field, map_fields};
ghost use Rattle.qh_h3wire.specs.HeadFields.{with_fields, with_parsed, IsPlainField};
ghost use Rattle.qh_h3wire.specs.HeadReading.{AreRead, TakesLine, TakesLines};
ghost use Rattle.qh_h3wire.specs.Header.{header_fields, trailer_header, HasKinds};
ghost use Rattle.qh_h3wire.specs.HeaderFault.{RefusesMore, HasRoomFor};

use super::HeaderError;
use super::field::ParsedField;
use http::{Method, StatusCode};
use http_header::{HeaderMap, HeaderMapError};
use http_uri::{Authority, PathAndQuery, Scheme};
use qh_base::Memory;
use qh_qpack::{HeaderField, Octets};
use std::alloc::Global;

/// The pseudo-header fields (RFC 9114, section 4.3) that are there.
#[derive(Drop)]
pub(super) struct Pseudo {
    pub(super) method: Option<Method>,
    pub(super) scheme: Option<Scheme>,
    pub(super) authority: Option<Authority>,
    pub(super) path: Option<PathAndQuery>,
    pub(super) status: Option<StatusCode>,
}

impl Pseudo {
    pub(super) fn empty() -> Pseudo
        ensures { result ≡ record { method = None; scheme = None; authority = None; path = None; status = None } }
    {
        Pseudo {
            method: None,
            scheme: None,
            authority: None,
            path: None,
            status: None,
        }
    }

    /// Keeps the fields that the lines give, here or in the map.
    pub(super) fn keep_lines(
        &mut self,
        fields: &mut HeaderMap,
        alloc: Global,
        lines: &[HeaderField],
    ) -> Result<(), HeaderError>
        requires { with_fields fields.old self.old ≡ trailer_header [] }
        ensures { TakesLines result lines.now (with_fields fields.new self.new) }
    {
        for line in lines {
            self.keep_line(fields, alloc, line)?;
        }
        Ok(())
    }

    /// Keeps the field that a line gives, behind those before it.
    fn keep_line(
        &mut self,
        fields: &mut HeaderMap,
        alloc: Global,
        line: &HeaderField,
    ) -> Result<(), HeaderError>
        ensures { (front : List Field) → AreRead front (with_fields fields.old self.old) → TakesLine result front line.now (with_fields fields.new self.new) }
    {
        let field = ParsedField::parse(alloc, line)?;
        self.keep(fields, field)
    }

    /// Keeps a field that was read, here or in the map.
    fn keep(&mut self, fields: &mut HeaderMap, field: ParsedField) -> Result<(), HeaderError>
        ensures ok { OnOk result (with_fields fields.new self.new ≡ with_parsed field (with_fields fields.old self.old)) }
        ensures room { OnOk result (HasRoomFor fields.old field) }
        ensures err { IfErr result (λ e. RefusesMore e fields.old field) }
    {
        match field {
            ParsedField::Method(method) => self.method = Some(method),
            ParsedField::Scheme(scheme) => self.scheme = Some(scheme),
            ParsedField::Authority(authority) => self.authority = Some(authority),
            ParsedField::Path(path) => self.path = Some(path),
            ParsedField::Status(status) => self.status = Some(status),
            ParsedField::Plain(name, value) => match fields.append(name, value) {
                Ok(_) => return Ok(()),
                Err(HeaderMapError::MaxSizeReached) => return Err(HeaderError::InvalidHeaderName),
                Err(HeaderMapError::OutOfMemory) => return Err(HeaderError::Memory),
            },
        }
        Ok(())
    }

    /// The fields that are there, in the order in which they are written.
    pub(super) fn fields(&self, alloc: Global) -> Result<Vec<HeaderField>, Memory>
        ensures value { IfOk result (λ fields. fields.items ≡ header_fields (with_fields [] self.now)) }
        ensures kinds { IfOk result (λ fields. HasKinds (with_fields [] self.now)) }
        ensures short { IfOk result (λ fields. AllByRecursion IsWritable fields.items) }
    {
        let mut fields = Vec::new(alloc);
        push_field(alloc, &mut fields, ":method", self.method_str())?;
        push_field(alloc, &mut fields, ":scheme", self.scheme_str())?;
        push_field(alloc, &mut fields, ":authority", self.authority_str())?;
        push_field(alloc, &mut fields, ":path", self.path_str())?;
        push_field(alloc, &mut fields, ":status", self.status_str())?;
        Ok(fields)
    }

    fn method_str(&self) -> Option<&str>
        ensures value { option_copied result ≡ self.now.method }
        ensures kind { IfSome self.now.method IsToken }
    {
        match &self.method {
            Some(method) => Some(method.as_str()),
            None => None,
        }
    }

    fn scheme_str(&self) -> Option<&str>
        ensures value { option_copied result ≡ self.now.scheme }
        ensures kind { IfSome self.now.scheme IsScheme }
    {
        match &self.scheme {
            Some(scheme) => Some(scheme.as_str()),
            None => None,
        }
    }

    fn authority_str(&self) -> Option<&str>
        ensures value { option_copied result ≡ self.now.authority }
        ensures kind { IfSome self.now.authority IsAuthority }
    {
        match &self.authority {
            Some(authority) => Some(authority.as_str()),
            None => None,
        }
    }

    fn path_str(&self) -> Option<&str>
        ensures value { option_copied result ≡ option_map or_slash self.now.path }
        ensures kind { IfSome self.now.path IsPathAndQuery }
    {
        match &self.path {
            Some(path) => Some(path.as_str()),
            None => None,
        }
    }

    fn status_str(&self) -> Option<&str>
        ensures value { option_copied result ≡ option_map code_digits self.now.status }
        ensures kind { IfSome self.now.status IsStatusCode }
    {
        match &self.status {
            Some(status) => {
                // The proof takes from this call that the number has three digits.
                let _ = status.as_u16();
                Some(status.as_str())
            }
            None => None,
        }
    }
}

/// Appends a field that is there.
fn push_field(
    alloc: Global,
    fields: &mut Vec<HeaderField>,
    name: &'static str,
    value: Option<&str>,
) -> Result<(), Memory>
    ensures value { OnOk result (fields.new.items ≡ fields.old.items ++ optional_field name.now (option_copied value.entry)) }
    ensures short { OnOk result (AllByRecursion IsWritable fields.old.items → AllByRecursion IsWritable fields.new.items) }
{
    if let Some(value) = value {
        fields.push(copied_field(alloc, name.as_bytes(), value.as_bytes())?)?;
    }
    Ok(())
}

/// Appends the fields of a map, name by name.
pub(super) fn push_map(
    alloc: Global,
    fields: &mut Vec<HeaderField>,
    map: &HeaderMap,
) -> Result<(), Memory>
    ensures value { OnOk result (fields.new.items ≡ fields.old.items ++ map_fields map.now) }
    ensures plain { OnOk result (AllByRecursion IsPlainField (map_fields map.now)) }
    ensures is_map { OnOk result (IsHeaderMap map.now) }
    ensures short { OnOk result (AllByRecursion IsWritable fields.old.items → AllByRecursion IsWritable fields.new.items) }
{
    fields.reserve(map.len())?;
    for (name, value) in map.iter() {
        fields.push(copied_field(alloc, name.as_bytes(), value.as_bytes())?)?;
    }
    Ok(())
}

/// A field with bytes of its own.
fn copied_field(alloc: Global, name: &[u8], value: &[u8]) -> Result<HeaderField, Memory>
    ensures value { IfOk result (λ f. f ≡ record { name = name.now; value = value.now }) }
    ensures short { IfOk result IsWritable }
{
    let name = Octets::copied_from(alloc, name)?;
    let value = Octets::copied_from(alloc, value)?;
    Ok(HeaderField::new(name, value))
}
