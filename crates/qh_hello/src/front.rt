ghost use Rattle.std.specs.Prelude.{◌≡◌, ◌++◌, ℕ, List, IfSome, IfNone};
ghost use Rattle.qh_hello.specs.Parts.{IsHelloForm};

use qh_base::get_counted;

/// The prefix that has the form of a hello by its lengths, whatever it says. None exactly if some bytes of it are still to come. The
/// lengths are variable-length integers (RFC 9000, section 16), and they alone tell where it ends: CRYPTO frames have no mark of an
/// end (RFC 9000, section 19.6).
pub fn front_hello(bytes: &[u8]) -> Option<&[u8]>
    ensures found { IfSome result (λ front. (rest : List ℕ) × (bytes.now ≡ front.now ++ rest) × IsHelloForm front.now) }
    ensures none { IfNone result ((front rest : List ℕ) → bytes.now ≡ front ++ rest → IsHelloForm front → ⊥) }
{
    let (_first, behind) = bytes.split_first()?;
    let (_name, counted) = get_counted(behind)?;
    let (_parameters, rest) = get_counted(counted)?;
    Some(&bytes[..bytes.len() - rest.len()])
}
