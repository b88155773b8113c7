ghost use Rattle.std.specs.Prelude.{◌≡◌, ◌==◌, length, nat_eq, IfOk};
ghost use Rattle.std.specs.Cmp.Lexicographic.{pointwise, nat_list_eq_equiv, on_texts_equal};
ghost use Rattle.std.specs.Cmp.{partial_equiv_from_equiv};
ghost use Rattle.std.specs.Ordering.{on, eq_of_both};
ghost use Rattle.std.proofs.lemmas.Cmp.{and_equiv};
ghost use Rattle.qh_qpack.specs.Lines.{size_added};

use qh_base::Memory;
use std::alloc::Global;
use std::marker::Model;

/// The bytes of a name or a value. A contract sees them as a list.
#[derive(Drop)]
pub struct Octets {
    bytes: Vec<u8>,
}

impl Model for Octets {
    ghost use Rattle.std.specs.Prelude.{ℕ, List};

    ghost Value = { List ℕ };

    ghost view = { λ o. o.bytes.items };
}

impl Octets {
    /// These bytes. It takes no memory.
    pub fn new(bytes: Vec<u8>) -> Octets
        ensures { result ≡ bytes.items }
    {
        Octets { bytes }
    }

    /// A copy of these bytes.
    pub fn copied_from(alloc: Global, bytes: &[u8]) -> Result<Octets, Memory>
        ensures { IfOk result (λ o. o ≡ bytes.now) }
    {
        Ok(Octets {
            bytes: bytes.to_vec(alloc)?,
        })
    }

    pub fn as_slice(&self) -> &[u8]
        ensures { result.now ≡ self.now }
    {
        &self.bytes
    }

    /// How many bytes it has.
    pub fn len(&self) -> usize
        ensures { result ≡ length self.now }
    {
        self.bytes.len()
    }

    /// Whether it has none.
    pub fn is_empty(&self) -> bool
        ensures { result ≡ (length self.now == 0) }
    {
        self.bytes.is_empty()
    }

    /// The same bytes, in memory of their own.
    pub fn try_clone(&self) -> Result<Octets, Memory>
        ensures { IfOk result (λ o. o ≡ self.now) }
    {
        Ok(Octets {
            bytes: self.bytes.clone()?,
        })
    }

    /// The bytes again. It takes no memory.
    pub fn into_vec(self) -> Vec<u8>
        ensures { result.items ≡ self }
    {
        self.bytes
    }
}

impl PartialEq for Octets {
    ghost eq = { pointwise nat_eq };

    ghost laws = { partial_equiv_from_equiv nat_list_eq_equiv };

    fn eq(&self, other: &Octets) -> bool {
        self.bytes == other.bytes
    }
}

impl Eq for Octets {
    ghost laws = { nat_list_eq_equiv };
}

/// A field line: a name and a value. A contract sees it as both lists of bytes.
#[derive(Drop)]
pub struct HeaderField {
    pub name: Octets,
    pub value: Octets,
}

impl Model for HeaderField {
    ghost use Rattle.qh_spec.specs.Fields.{Field};

    ghost Value = { Field };

    ghost view = { λ f. record { name = f.name; value = f.value } };
}

impl HeaderField {
    /// A field of this name and this value. It takes no memory.
    pub fn new(name: Octets, value: Octets) -> HeaderField
        ensures { result ≡ record { name = name; value = value } }
    {
        HeaderField { name, value }
    }
}

impl PartialEq for HeaderField {
    ghost eq = { eq_of_both (on (λ f. f.name) (pointwise nat_eq)) (on (λ f. f.value) (pointwise nat_eq)) };

    ghost laws = { partial_equiv_from_equiv (and_equiv (on_texts_equal (λ f. f.name)) (on_texts_equal (λ f. f.value))) };

    fn eq(&self, other: &HeaderField) -> bool {
        self.name == other.name && self.value == other.value
    }
}

impl Eq for HeaderField {
    ghost laws = { and_equiv (on_texts_equal (λ f. f.name)) (on_texts_equal (λ f. f.value)) };
}

/// The size of a section with one more field (RFC 9114, section 4.2.2), at most the greatest number of 64 bits.
pub(crate) fn added_size(size: u64, name: &[u8], value: &[u8]) -> u64
    ensures { result ≡ size_added size (record { name = name.now; value = value.now }) }
{
    size.saturating_add(name.len() as u64)
        .saturating_add(value.len() as u64)
        .saturating_add(32)
}
