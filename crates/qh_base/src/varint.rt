ghost use Rattle.std.specs.Prelude.{◌≡◌, ℕ, ◌<◌, ◌≤◌, ◌^◌, ◌-◌, ◌++◌, ◌↔◌, List, length, take, IsSome, OnOk, OnErr, IfSome, IfNone};
ghost use Rattle.std.specs.Option.{option_map};
ghost use Rattle.qh_spec.specs.Varint.{IsVarint, varint};
ghost use Rattle.qh_base.specs.Varint.{varint_at};

use crate::Memory;
use std::marker::Model;

/// A number below 2^62, as QUIC and HTTP/3 write them (RFC 9000, section 16). A contract sees it as the number.
#[derive(Clone, Copy, Debug, PartialEq, Eq, PartialOrd, Ord, Hash)]
pub struct VarInt {
    value: u64,
}

impl Model for VarInt {
    ghost use Rattle.std.specs.Prelude.{ℕ, ◌<◌, ◌^◌};

    ghost Value = { ℕ };

    ghost view = { λ v. v.value };

    ghost invariant = { λ v. v.value < 2 ^ 62 };

    ghost inverse = { λ n. record { value = n } };
}

impl VarInt {
    /// The greatest number that has a form, 2^62 - 1.
    pub const MAX_VALUE: u64 = (1 << 62) - 1;

    /// None exactly from 2^62 on.
    pub fn from_u64(x: u64) -> Option<VarInt>
        ensures found { IfSome result (λ v. v ≡ x) }
        ensures fits { IsSome result ↔ (x < 2 ^ 62) }
    {
        if x <= VarInt::MAX_VALUE {
            Some(VarInt { value: x })
        } else {
            None
        }
    }

    /// Any number of 32 bits is below 2^62.
    pub fn from_u32(x: u32) -> VarInt
        ensures { result ≡ x }
    {
        VarInt {
            value: u64::from(x),
        }
    }

    /// The number.
    pub fn into_inner(self) -> u64
        ensures value { result ≡ self }
        ensures bound { result < 2 ^ 62 }
    {
        self.value
    }

    /// How many bytes the shortest form has: 1, 2, 4 or 8.
    #[tactic(auto, unfolding(qh_spec::specs::Varint::varint))]
    pub fn size(self) -> usize
        ensures { result ≡ length (varint self) }
    {
        if self.value < 1 << 6 {
            1
        } else if self.value < 1 << 14 {
            2
        } else if self.value < 1 << 30 {
            4
        } else {
            8
        }
    }
}

/// Appends the shortest form.
#[tactic(auto, unfolding(qh_spec::specs::Varint::varint))]
pub fn put_varint(out: &mut Vec<u8>, v: VarInt) -> Result<(), Memory>
    ensures ok { OnOk result (out.new.items ≡ out.old.items ++ varint v) }
    ensures err { OnErr result (out.new.items ≡ out.old.items) }
{
    let n = v.into_inner();
    if n < 1 << 6 {
        out.extend_from_slice(&[n as u8])?;
    } else if n < 1 << 14 {
        out.extend_from_slice(&(0x4000 + n as u16).to_be_bytes())?;
    } else if n < 1 << 30 {
        out.extend_from_slice(&(0x8000_0000 + n as u32).to_be_bytes())?;
    } else {
        out.extend_from_slice(&(0xc000_0000_0000_0000 + n).to_be_bytes())?;
    }
    Ok(())
}

/// Reads the number that begins the bytes, in any of the four forms, and says how many bytes it took. None exactly
/// where the form is cut, which the empty slice is.
pub fn get_varint(bytes: &[u8]) -> Option<(VarInt, usize)>
    ensures exact { option_map (λ f. (f.0, f.1)) result ≡ varint_at bytes.now }
    ensures found { IfSome result (λ f. (f.1 ≤ length bytes.now) × IsVarint (take f.1 bytes.now) f.0) }
    ensures none { IfNone result ((n k : ℕ) → IsVarint (take k bytes.now) n → ⊥) }
{
    varint_of(bytes)
}

// The same, as what reading the list gives.
#[tactic(auto, unfolding(crate::specs::Varint::varint_at))]
fn varint_of(bytes: &[u8]) -> Option<(VarInt, usize)>
    ensures { option_map (λ f. (f.0, f.1)) result ≡ varint_at bytes.now }
{
    let (value, size) = match *bytes.first()? {
        first @ 0..64 => (u64::from(first), 1),
        64..128 => (
            u64::from(u16::from_be_bytes(*bytes.first_chunk()?) - 0x4000),
            2,
        ),
        128..192 => (
            u64::from(u32::from_be_bytes(*bytes.first_chunk()?) - 0x8000_0000),
            4,
        ),
        _ => (
            u64::from_be_bytes(*bytes.first_chunk()?) - 0xc000_0000_0000_0000,
            8,
        ),
    };
    Some((VarInt { value }, size))
}
