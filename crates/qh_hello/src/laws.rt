ghost use Rattle.std.specs.Prelude.{◌≡◌, ◌++◌, ◌≤◌, ℕ, List, length};
ghost use Rattle.qh_hello.specs.Parts.{IsHelloForm};
ghost use Rattle.qh_spec.specs.Hello.{Hello, IsHello, Greeting, IsSayable, hello_of, hello_bytes};

use crate::MAX_CRYPTO;

/// At most 16,384 bytes of CRYPTO frames are kept. An end must be able to keep 4,096 (RFC 9000, section 7.5).
pub fn crypto_is_limited()
    ensures { MAX_CRYPTO ≡ 16384 }
{}

/// The hello that an end writes has at most 512 bytes.
pub fn hello_size()
    ensures { (g : Greeting) → IsSayable g → length (hello_bytes (hello_of g)) ≤ 512 }
{}

/// A hello has the form of one, and bytes have at most one prefix of that form: so if they begin with a hello, it is what
/// `front_hello` gives.
pub fn hello_forms()
    ensures hello { (bytes : List ℕ) (h : Hello) → IsHello bytes h → IsHelloForm bytes }
    ensures one { (a b x y : List ℕ) → IsHelloForm a → IsHelloForm b → a ++ x ≡ b ++ y → (a ≡ b) × (x ≡ y) }
{}
