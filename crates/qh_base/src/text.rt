ghost use Rattle.std.specs.Prelude.{◌≡◌, ◌≤◌, length, take};

use arrayvec::ArrayVec;
use std::marker::Model;

// How many bytes of a reason are kept, and of a name.
const KEPT_REASON: usize = 128;

const KEPT_NAME: usize = 255;

/// The reason of a close, of which the first 128 bytes are kept. A contract sees it as these bytes.
#[derive(Debug, PartialEq, Eq, Drop)]
pub struct Reason(ArrayVec<u8, 128>);

impl Model for Reason {
    ghost use Rattle.std.specs.Prelude.{ℕ, List, ◌≤◌, length};

    ghost Value = { List ℕ };

    ghost view = { λ r. r.0.items };

    ghost invariant = { λ r. length r.0.items ≤ 128 };

    ghost inverse = { λ bytes. record { 0 = record { items = bytes } } };
}

impl Reason {
    /// Keeps the first 128 bytes.
    pub fn of(bytes: &[u8]) -> Reason
        ensures { result ≡ take 128 bytes.now }
    {
        let mut kept = ArrayVec::new();
        kept.try_extend_from_slice(&bytes[..KEPT_REASON.min(bytes.len())])
            .unwrap();
        Reason(kept)
    }

    /// The bytes that were kept.
    pub fn bytes(&self) -> &[u8]
        ensures value { result.now ≡ self.now }
        ensures short { length result.now ≤ 128 }
    {
        self.0.as_slice()
    }

    /// The same reason again. It takes no memory.
    pub fn copied(&self) -> Reason
        ensures { result ≡ self.now }
    {
        Reason::of(self.bytes())
    }
}

/// A server name, of which the first 255 bytes are kept. A contract sees it as these bytes.
#[derive(Drop)]
pub struct Name(ArrayVec<u8, 255>);

impl Model for Name {
    ghost use Rattle.std.specs.Prelude.{ℕ, List, ◌≤◌, length};

    ghost Value = { List ℕ };

    ghost view = { λ n. n.0.items };

    ghost invariant = { λ n. length n.0.items ≤ 255 };

    ghost inverse = { λ bytes. record { 0 = record { items = bytes } } };
}

impl Name {
    /// Keeps the first 255 bytes.
    pub fn of(bytes: &[u8]) -> Name
        ensures { result ≡ take 255 bytes.now }
    {
        let mut kept = ArrayVec::new();
        kept.try_extend_from_slice(&bytes[..KEPT_NAME.min(bytes.len())])
            .unwrap();
        Name(kept)
    }

    /// The bytes that were kept.
    pub fn bytes(&self) -> &[u8]
        ensures value { result.now ≡ self.now }
        ensures short { length result.now ≤ 255 }
    {
        self.0.as_slice()
    }

    /// The same name again. It takes no memory.
    pub fn copied(&self) -> Name
        ensures { result ≡ self.now }
    {
        Name::of(self.bytes())
    }
}
