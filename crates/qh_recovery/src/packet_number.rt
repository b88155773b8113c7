ghost use Rattle.std.specs.Prelude.{◌≡◌, ℕ, ◌+◌, ◌/◌, ◌<◌, ◌≤◌, ◌%◌, ◌^◌};
ghost use Rattle.qh_recovery.specs.PacketNumber.{IsCandidate, IsExpanded, IsNearest};

/// Packet numbers are below this one (RFC 9000, section 12.3).
const PACKET_NUMBERS: u64 = 1 << 62;

/// The whole number of a packet whose header has its low bytes, `width` of them, where `expected` is one more than the greatest
/// number that came, or 0 before any (RFC 9000, section 17.1 and appendix A.3). It is the nearest to the expected one that ends
/// in these bytes, and the greater of two that are as near.
///
/// No number of 2^62 or more is meant while the expected one is below 2^62. If that is 2^62, so that no packet number is
/// left, the result is 2^62 or more exactly if `low` is at most half of `256^width`. Who called drops such a packet.
pub fn expand(expected: u64, low: u64, width: usize) -> u64
    requires some { 1 ≤ width }
    requires few { width ≤ 4 }
    requires bytes { low < 256 ^ width }
    requires number { expected ≤ 2 ^ 62 }
    ensures expanded { IsExpanded expected low width result }
    ensures found { (n : ℕ) → IsCandidate expected low width n → expected < n + 256 ^ width / 2 → n ≤ expected + 256 ^ width / 2 → result ≡ n }
{
    let window = 256u64.pow(width as u32);
    nearest(expected, expected - expected % window + low, window)
}

/// Low bytes mean one number.
pub fn one_number()
    ensures { (expected low width n m : ℕ) → IsExpanded expected low width n → IsExpanded expected low width m → n ≡ m }
{}

/// The nearest to the expected number of a candidate, the one a window above it, if that is a packet number, and the one a
/// window below it, if there is one.
fn nearest(expected: u64, candidate: u64, window: u64) -> u64
    requires expected { expected ≤ 2 ^ 62 }
    requires above { candidate < expected + window }
    requires below { expected < candidate + window }
    requires window { window ≤ 2 ^ 32 }
    requires even { window % 2 ≡ 0 }
    ensures { IsNearest expected candidate window result }
{
    let half = window / 2;
    if candidate + half <= expected && candidate + window < PACKET_NUMBERS {
        return candidate + window;
    }
    if expected + half < candidate && window <= candidate {
        return candidate - window;
    }
    candidate
}
