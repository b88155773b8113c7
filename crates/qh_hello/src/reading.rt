ghost use Rattle.std.specs.Prelude.{◌<◌, ◌^◌, ℕ, List, length, IfSome, IfNone};
ghost use Rattle.qh_hello.specs.Parts.{IsCounted};
ghost use Rattle.qh_spec.specs.Hello.{Parameter as AParameter, IsParameter};
ghost use Rattle.qh_spec.specs.QuicFrames.{IsNumber};

use qh_base::{get_counted, get_number};

/// A parameter that begins some bytes, and what follows it.
#[derive(Clone, Copy)]
pub(crate) struct FrontParameter<'a> {
    pub(crate) id: u64,
    pub(crate) value: &'a [u8],
    pub(crate) rest: &'a [u8],
}

/// The parameter that begins the bytes. None exactly if it is cut, as the empty slice is (RFC 9000, section 18).
pub(crate) fn next_parameter(bytes: &[u8]) -> Option<FrontParameter<'_>>
    ensures found { IfSome result (λ p. IsParameter bytes.now (record { id = p.id; value = p.value.now }) p.rest.now) }
    ensures shorter { IfSome result (λ p. length p.rest.now < length bytes.now) }
    ensures none { IfNone result ((p : AParameter) (rest : List ℕ) → IsParameter bytes.now p rest → ⊥) }
{
    let (id, rest) = get_number(bytes)?;
    let (value, rest) = get_counted(rest)?;
    Some(FrontParameter { id, value, rest })
}
