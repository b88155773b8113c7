//! What a line stands for, in memory of its own. Each text is of the form that is asked for, so that nothing but want of
//! memory is in the way.

ghost use Rattle.std.specs.Prelude.{◌≡◌, ℕ, List, IfOk};
ghost use Rattle.http_header.specs.Token.{IsToken, lowercase};
ghost use Rattle.http_header.specs.FieldName.{IsFieldName};
ghost use Rattle.http_header.specs.FieldValue.{IsFieldValue, plain_value};
ghost use Rattle.http_uri.specs.Uri.{Spells};
ghost use Rattle.qh_grammar.specs.Uri.{IsUri};
ghost use Rattle.qh_spec.specs.declared.link.Upset.TheVariants.{Forge};
ghost use Rattle.qh_script.specs.Line.{AreForged, HasUpset, IsForgeable, MeansUpset};

use crate::line::{Disturbance, read_hex};
use http::Method;
use http::method::MethodError;
use http_header::{HeaderName, HeaderNameError, HeaderValue, HeaderValueError};
use http_uri::{Uri, UriError};
use qh_base::Memory;
use qh_spec::{Side, Upset};
use std::alloc::Global;

/// The method of this text.
pub(super) fn method_of(alloc: Global, text: &[u8]) -> Result<Method, Memory>
    requires { IsToken text.now }
    ensures { IfOk result (λ method. method ≡ text.now) }
{
    match Method::from_bytes(alloc, text) {
        Ok(method) => Ok(method),
        Err(MethodError::Invalid) => unreachable!(),
        Err(MethodError::OutOfMemory) => Err(Memory),
    }
}

/// The URI of this text.
pub(super) fn uri_of(alloc: Global, text: &[u8]) -> Result<Uri, Memory>
    requires { IsUri text.now }
    ensures { IfOk result (Spells text.now) }
{
    match Uri::from_bytes(alloc, text) {
        Ok(uri) => Ok(uri),
        Err(UriError::Invalid(_)) => unreachable!(),
        Err(UriError::OutOfMemory) => Err(Memory),
    }
}

/// The field's name of this text, in lower case.
pub(super) fn name_of(alloc: Global, text: &[u8]) -> Result<HeaderName, Memory>
    requires { IsFieldName text.now }
    ensures { IfOk result (λ name. name ≡ lowercase text.now) }
{
    match HeaderName::from_bytes(alloc, text) {
        Ok(name) => Ok(name),
        Err(HeaderNameError::Invalid) => unreachable!(),
        Err(HeaderNameError::OutOfMemory) => Err(Memory),
    }
}

/// The field's value of this text, none that is kept out of logs.
pub(super) fn value_of(alloc: Global, text: &[u8]) -> Result<HeaderValue, Memory>
    requires { IsFieldValue text.now }
    ensures { IfOk result (λ value. value ≡ plain_value text.now) }
{
    match HeaderValue::from_bytes(alloc, text) {
        Ok(value) => Ok(value),
        Err(HeaderValueError::Invalid) => unreachable!(),
        Err(HeaderValueError::OutOfMemory) => Err(Memory),
    }
}

/// What the line asks of the link.
pub(super) fn upset_of(alloc: Global, disturbance: Disturbance) -> Result<Upset, Memory>
    requires { HasUpset disturbance }
    ensures { IfOk result (MeansUpset disturbance.entry) }
{
    match disturbance {
        Disturbance::Lose(which) => Ok(Upset::Lose(which)),
        Disturbance::Twice(which) => Ok(Upset::Twice(which)),
        Disturbance::Late(which, rounds) => Ok(Upset::Late(which, rounds)),
        Disturbance::Fail(number) => Ok(Upset::Fail(number)),
        Disturbance::Forge { round, side, hex } => forge_of(alloc, round, side, hex),
    }
}

fn forge_of(alloc: Global, round: u64, side: Side, hex: &[u8]) -> Result<Upset, Memory>
    requires { IsForgeable hex.now }
    ensures { IfOk result (λ u. (bytes : List ℕ) × AreForged hex.now bytes × (u ≡ Forge round side bytes)) }
{
    let bytes = read_hex(alloc, hex)?;
    Ok(Upset::Forge { round, side, bytes })
}
