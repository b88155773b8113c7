ghost use Rattle.std.specs.Prelude.{◌≡◌, ℕ, ◌<◌, ◌≤◌, ◌^◌, ◌++◌, [], ◌∷◌, List, length, take, IfSome, IfNone, OnOk, OnErr};
ghost use Rattle.std.specs.Int.{w64, to_be_bytes};
ghost use Rattle.qh_token.specs.Parts.{AreParts, kind_of, value_of_parts};
ghost use Rattle.qh_token.specs.Token.{IsAddress, TokenKind, TokenValue, family_byte, kind_byte, octets, token_bytes};

use qh_base::{Memory, Moment};
use std::net::{IpAddr, Ipv4Addr, Ipv6Addr};

// The last byte of a token.
const END: u8 = 0x7e;

/// For what a token was given.
#[derive(Clone, Copy)]
pub(crate) enum Kind {
    Retry,
    Validation,
}

impl Kind {
    fn byte(self) -> u8
        ensures { result ≡ kind_byte (kind_of self) }
    {
        match self {
            Kind::Retry => 0,
            Kind::Validation => 1,
        }
    }

    // The kind that has this byte. None exactly if none has it.
    fn at(byte: u8) -> Option<Kind>
        ensures found { IfSome result (λ k. byte ≡ kind_byte (kind_of k)) }
        ensures none { IfNone result ((kind : TokenKind) → byte ≡ kind_byte kind → ⊥) }
    {
        match byte {
            0 => Some(Kind::Retry),
            1 => Some(Kind::Validation),
            _ => None,
        }
    }
}

/// The parts of a token, in the order of its bytes.
#[derive(Clone, Copy)]
pub(crate) struct Parts<'a> {
    pub nonce: u128,
    pub kind: Kind,
    pub ip: IpAddr,
    /// 0 for a validation.
    pub port: u16,
    /// The original destination id, empty for a validation.
    pub original: &'a [u8],
    pub issued: Moment,
}

impl<'a> Parts<'a> {
    /// The parts that the bytes are, however long the id is, and whatever a validation's port and id are. None exactly if they aren't
    /// any.
    pub fn read(bytes: &'a [u8]) -> Option<Parts<'a>>
        ensures found { IfSome result (λ p. AreParts bytes.now (value_of_parts p)) }
        ensures none { IfNone result ((v : TokenValue) → AreParts bytes.now v → ⊥) }
    {
        let (nonce, rest) = bytes.split_first_chunk::<16>()?;
        let (kind, rest) = rest.split_first()?;
        let kind = Kind::at(*kind)?;
        let (ip, rest) = get_ip(rest)?;
        let (port, rest) = rest.split_first_chunk::<2>()?;
        let (original, rest) = get_id(rest)?;
        let issued = get_issued(rest)?;
        Some(Parts {
            nonce: u128::from_be_bytes(*nonce),
            kind,
            ip,
            port: u16::from_be_bytes(*port),
            original,
            issued,
        })
    }

    /// Appends the parts. After an Err some of them may stand behind what stood there.
    pub fn put(&self, out: &mut Vec<u8>) -> Result<(), Memory>
        requires { length self.now.original.now ≤ 20 }
        ensures ok { OnOk result (out.new.items ≡ out.old.items ++ token_bytes (value_of_parts self.now)) }
        ensures are { OnOk result (AreParts (token_bytes (value_of_parts self.now)) (value_of_parts self.now)) }
        ensures err { OnErr result (take (length out.old.items) out.new.items ≡ out.old.items) }
    {
        out.extend_from_slice(&self.nonce.to_be_bytes())?;
        out.push(self.kind.byte())?;
        put_ip(out, self.ip)?;
        out.extend_from_slice(&self.port.to_be_bytes())?;
        out.push(self.original.len() as u8)?;
        out.extend_from_slice(self.original)?;
        out.extend_from_slice(&self.issued.0.to_be_bytes())?;
        out.push(END)?;
        Ok(())
    }
}

// Appends 4 or 6 and an address.
fn put_ip(out: &mut Vec<u8>, ip: IpAddr) -> Result<(), Memory>
    ensures ok { OnOk result (out.new.items ≡ out.old.items ++ (family_byte (octets ip) ∷ octets ip)) }
    ensures size { OnOk result (IsAddress (octets ip)) }
    ensures err { OnErr result (take (length out.old.items) out.new.items ≡ out.old.items) }
{
    match ip {
        IpAddr::V4(ip) => {
            out.push(4)?;
            out.extend_from_slice(&ip.octets())?;
        }
        IpAddr::V6(ip) => {
            out.push(6)?;
            out.extend_from_slice(&ip.octets())?;
        }
    }
    Ok(())
}

// The address behind 4 or 6, and what follows. None exactly if there is none.
fn get_ip(bytes: &[u8]) -> Option<(IpAddr, &[u8])>
    ensures found { IfSome result (λ f. bytes.now ≡ family_byte (octets f.0) ∷ (octets f.0 ++ f.1.now)) }
    ensures size { IfSome result (λ f. IsAddress (octets f.0)) }
    ensures none { IfNone result ((address rest : List ℕ) → IsAddress address → bytes.now ≡ family_byte address ∷ (address ++ rest) → ⊥) }
{
    let (family, rest) = bytes.split_first()?;
    match *family {
        4 => {
            let (octets, rest) = rest.split_first_chunk::<4>()?;
            Some((IpAddr::V4(Ipv4Addr::from_octets(*octets)), rest))
        }
        6 => {
            let (octets, rest) = rest.split_first_chunk::<16>()?;
            Some((IpAddr::V6(Ipv6Addr::from_octets(*octets)), rest))
        }
        _ => None,
    }
}

// The bytes behind their length, and what follows. None exactly if they are cut.
fn get_id(bytes: &[u8]) -> Option<(&[u8], &[u8])>
    ensures found { IfSome result (λ f. bytes.now ≡ length f.0.now ∷ (f.0.now ++ f.1.now)) }
    ensures none { IfNone result ((id rest : List ℕ) → bytes.now ≡ length id ∷ (id ++ rest) → ⊥) }
{
    let (length, rest) = bytes.split_first()?;
    let length = *length as usize;
    if length > rest.len() {
        return None;
    }
    Some(rest.split_at(length))
}

// The moment in 8 bytes before 7E, if that is all.
fn get_issued(bytes: &[u8]) -> Option<Moment>
    ensures found { IfSome result (λ m. bytes.now ≡ to_be_bytes w64 m.0 ++ 126 ∷ []) }
    ensures bound { IfSome result (λ m. m.0 < 2 ^ 64) }
    ensures none { IfNone result ((n : ℕ) → bytes.now ≡ to_be_bytes w64 n ++ 126 ∷ [] → ⊥) }
{
    let (issued, rest) = bytes.split_first_chunk::<8>()?;
    if rest != [END].as_slice() {
        return None;
    }
    Some(Moment(u64::from_be_bytes(*issued)))
}
