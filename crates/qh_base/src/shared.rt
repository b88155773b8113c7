ghost use Rattle.std.specs.Prelude.{◌≡◌, ◌==◌, ◌≤◌, ◌↔◌, length, IsSome, IfSome};

use std::marker::Model;

/// A connection id of at most 20 bytes (RFC 9000, section 5.1). A contract sees it as its bytes.
#[derive(Clone, Copy, PartialEq, Eq, PartialOrd, Ord, Hash)]
pub struct ConnectionId {
    len: u8,
    // Zero from `len` on.
    bytes: [u8; 20],
}

impl Model for ConnectionId {
    ghost use Rattle.std.specs.Prelude.{ℕ, List, take, length};
    ghost use Rattle.qh_base.specs.ConnectionId.{IsConnectionId, zero_padded};

    ghost Value = { List ℕ };

    ghost view = { λ id. take id.len id.bytes };

    ghost invariant = { λ id. IsConnectionId id.len id.bytes };

    ghost inverse = { λ bytes. record { len = length bytes; bytes = zero_padded bytes } };

    ghost use Rattle.qh_base.specs.ConnectionIdInverse.{same_id};

    ghost inverse_ok = { λ id h. same_id id h };
}

impl ConnectionId {
    /// The greatest length that version 1 of QUIC has for one.
    pub const MAX_LEN: usize = 20;

    /// None exactly above 20 bytes.
    pub fn new(bytes: &[u8]) -> Option<ConnectionId>
        ensures found { IfSome result (λ id. id ≡ bytes.now) }
        ensures fits { IsSome result ↔ (length bytes.now ≤ 20) }
    {
        if bytes.len() > ConnectionId::MAX_LEN {
            return None;
        }
        let mut padded = [0; ConnectionId::MAX_LEN];
        padded[..bytes.len()].copy_from_slice(bytes);
        Some(ConnectionId {
            len: bytes.len() as u8,
            bytes: padded,
        })
    }

    /// The bytes.
    pub fn bytes(&self) -> &[u8]
        ensures value { result.now ≡ self.now }
        ensures short { length result.now ≤ 20 }
    {
        &self.bytes[..self.len as usize]
    }

    /// How many bytes it has.
    pub fn len(&self) -> usize
        ensures value { result ≡ length self.now }
        ensures short { result ≤ 20 }
    {
        self.len as usize
    }

    /// Whether it has none.
    pub fn is_empty(&self) -> bool
        ensures { result ≡ (length self.now == 0) }
    {
        self.len == 0
    }
}

/// The last 16 bytes of a stateless reset (RFC 9000, section 10.3).
#[derive(Clone, Copy, PartialEq, Eq, PartialOrd, Ord, Hash)]
pub struct ResetToken(pub [u8; 16]);
