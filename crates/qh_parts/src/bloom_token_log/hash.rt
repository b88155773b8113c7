//! The words of splitmix64, from which the positions of a fingerprint come.
ghost use Rattle.std.specs.Prelude.{◌≡◌, ◌<◌};
ghost use Rattle.qh_spec.specs.TokenFilter.{folded, mixed, stream_word, hash_word};

// The number of which splitmix64 makes its j-th word.
fn stream_word(fingerprint: u64, j: u64) -> u64
    ensures { result ≡ stream_word fingerprint j }
{
    fingerprint.wrapping_add(j.wrapping_mul(11_400_714_819_323_198_485))
}

// The high bits folded in.
fn folded(shift: u32, z: u64) -> u64
    requires { shift < 64 }
    ensures { result ≡ folded shift z }
{
    z ^ (z >> shift)
}

// One round of splitmix64.
fn mixed(shift: u32, factor: u64, z: u64) -> u64
    requires { shift < 64 }
    ensures { result ≡ mixed shift factor z }
{
    folded(shift, z).wrapping_mul(factor)
}

// The j-th word of splitmix64 from a fingerprint on.
pub fn hash_word(fingerprint: u64, j: u64) -> u64
    ensures { result ≡ hash_word fingerprint j }
{
    let start = mixed(30, 13_787_848_793_156_543_929, stream_word(fingerprint, j));
    folded(31, mixed(27, 10_723_151_780_598_845_931, start))
}
