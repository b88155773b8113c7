ghost use Rattle.std.specs.Prelude.{◌≡◌, ◌≤◌, ◌<◌, ℕ, ◌∷◌, ◌++◌, List, length, IfSome, IfNone};
ghost use Rattle.qh_spec.specs.Datagram.{IsInitialForm};
ghost use Rattle.qh_spec.specs.QuicFrames.{Text, ShortCounted as AShortCounted, IsValue};

use super::value::{counted, fixed, short_counted};

/// An Initial packet by its lengths, and what follows it in its datagram.
#[derive(Clone, Copy)]
pub(super) struct InitialForm<'a> {
    pub(super) first: u8,
    pub(super) body: &'a [u8],
    pub(super) rest: &'a [u8],
}

impl<'a> InitialForm<'a> {
    /// The Initial packet of version 1 that begins the bytes (RFC 9000, section 17.2.2).
    pub(super) fn read(bytes: &'a [u8]) -> Option<InitialForm<'a>>
        ensures found { IfSome result (λ f. (front : List ℕ) × (bytes.now ≡ front ++ f.rest.now) × IsInitialForm front f.first f.body.now) }
        ensures none { IfNone result ((front rest body : List ℕ) (first : ℕ) → bytes.now ≡ front ++ rest → IsInitialForm front first body → ⊥) }
    {
        let Some((first, rest)) = long_header(bytes) else {
            return None;
        };
        let Some((_destination, rest)) = id(rest) else {
            return None;
        };
        let Some((_source, rest)) = id(rest) else {
            return None;
        };
        let Some((_token, rest)) = counted(rest) else {
            return None;
        };
        let Some((body, rest)) = counted(rest) else {
            return None;
        };
        Some(InitialForm { first, body, rest })
    }
}

/// The first byte of an Initial packet of version 1, and what follows the version.
fn long_header(bytes: &[u8]) -> Option<(u8, &[u8])>
    ensures found { IfSome result (λ f. (bytes.now ≡ f.0 ∷ 0 ∷ 0 ∷ 0 ∷ 1 ∷ f.1.now) × (192 ≤ f.0) × (f.0 < 208)) }
    ensures none { IfNone result ((first : ℕ) (rest : List ℕ) → bytes.now ≡ first ∷ 0 ∷ 0 ∷ 0 ∷ 1 ∷ rest → 192 ≤ first → first < 208 → ⊥) }
{
    match bytes {
        [first @ 192..208, 0, 0, 0, 1, rest @ ..] => Some((*first, rest)),
        _ => None,
    }
}

/// A connection id of at most 20 bytes behind its length.
fn id(bytes: &[u8]) -> Option<(&[u8], &[u8])>
    ensures found { IfSome result (λ f. IsValue AShortCounted bytes.now (Text f.0.now) f.1.now × (length f.0.now ≤ 20)) }
    ensures none { IfNone result ((text rest : List ℕ) → IsValue AShortCounted bytes.now (Text text) rest → length text ≤ 20 → ⊥) }
{
    let Some((id, rest)) = short_counted(bytes) else {
        return None;
    };
    if id.len() > 20 {
        return None;
    }
    Some((id, rest))
}

/// The first byte, and what follows an id of this length behind it.
pub(super) fn short_header(id_length: usize, bytes: &[u8]) -> Option<(u8, &[u8])>
    ensures found { IfSome result (λ f. (id : List ℕ) × (bytes.now ≡ f.0 ∷ (id ++ f.1.now)) × (length id ≡ id_length)) }
    ensures none { IfNone result ((first : ℕ) (id body : List ℕ) → bytes.now ≡ first ∷ (id ++ body) → length id ≡ id_length → ⊥) }
{
    let [first, rest @ ..] = bytes else {
        return None;
    };
    let Some((_id, body)) = fixed(id_length as u64, rest) else {
        return None;
    };
    Some((*first, body))
}
