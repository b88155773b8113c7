ghost use Rattle.std.specs.Prelude.{◌≡◌, ◌++◌, ◌<◌, ◌≤◌, ◌^◌, length, OnOk, OnErr, IfSome};
ghost use Rattle.qh_spec.specs.Varint.{varint};
ghost use Rattle.qh_h3wire.specs.Grown.{HasGrown};
ghost use Rattle.qh_h3wire.specs.Pair.{pair_at};

use qh_base::{Memory, VarInt, get_varint, put_varint};

/// Two numbers that stand one after another, and how many bytes they take: the type and the length of a frame (RFC 9114,
/// section 7.1), or the id and the value of a setting (section 7.2.4).
#[derive(Clone, Copy)]
pub(crate) struct Pair {
    pub(crate) first: u64,
    pub(crate) second: u64,
    pub(crate) size: usize,
}

impl Pair {
    /// None where a number is cut.
    #[tactic(auto, unfolding(crate::specs::Pair::pair_at))]
    pub(crate) fn read(bytes: &[u8]) -> Option<Pair>
        ensures exact { result ≡ pair_at bytes.now }
        ensures within { IfSome result (λ p. p.size ≤ length bytes.now) }
        ensures bound { IfSome result (λ p. p.second < 2 ^ 62) }
    {
        let (one, one_size) = get_varint(bytes)?;
        let (two, two_size) = get_varint(&bytes[one_size..])?;
        Some(Pair {
            first: one.into_inner(),
            second: two.into_inner(),
            size: one_size + two_size,
        })
    }

    /// Appends two numbers in the shortest forms.
    pub(crate) fn write(out: &mut Vec<u8>, first: u64, second: u64) -> Result<(), Memory>
        requires first { first < 2 ^ 62 }
        requires second { second < 2 ^ 62 }
        ensures ok { OnOk result (out.new.items ≡ out.old.items ++ (varint first ++ varint second)) }
        ensures err { OnErr result (HasGrown out.old.items out.new.items) }
    {
        put_varint(out, VarInt::from_u64(first).unwrap())?;
        put_varint(out, VarInt::from_u64(second).unwrap())
    }
}
