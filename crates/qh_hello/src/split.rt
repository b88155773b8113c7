ghost use Rattle.std.specs.Prelude.{◌≡◌, IfSome, IfNone};
ghost use Rattle.qh_hello.specs.Parts.{IsSplit};
ghost use Rattle.qh_spec.specs.Hello.{Hello, IsHelloOf, hello_byte};

use crate::walk::are_parameters;
use qh_base::{Side, get_counted};

/// The server name of the hello of `sender`, and the bytes of its parameters. None exactly if the bytes are no hello of `sender`.
pub(crate) fn split_hello(bytes: &[u8], sender: Side) -> Option<(&[u8], &[u8])>
    ensures found { IfSome result (λ p. (h : Hello) × IsSplit sender bytes.now p.0.now p.1.now h) }
    ensures none { IfNone result ((h : Hello) → IsHelloOf sender bytes.now h → ⊥) }
{
    let (first, rest) = bytes.split_first()?;
    if *first != hello_byte(sender) {
        return None;
    }
    let (server_name, rest) = get_counted(rest)?;
    let (parameters, rest) = get_counted(rest)?;
    if !rest.is_empty() {
        return None;
    }
    if !are_parameters(parameters) {
        return None;
    }
    Some((server_name, parameters))
}

/// The first byte of a side's hello.
pub(crate) fn hello_byte(side: Side) -> u8
    ensures { result ≡ hello_byte side }
{
    match side {
        Side::Client => 1,
        Side::Server => 2,
    }
}
