ghost use Rattle.std.specs.Prelude.{◌≡◌};
ghost use Rattle.qh_token.specs.Reset.{reset_token_of};

use qh_base::{ConnectionId, ResetToken};

/// How many bytes a reset token has (RFC 9000, section 10.3).
pub const RESET_TOKEN_LEN: usize = 16;

// How many bytes of an id it has.
const KEPT: usize = 14;

/// The token of stateless resets that belongs to a connection id of the end that resets (own, where `quinn-proto` has a key): 5A, the
/// id's length, and its last 14 bytes with zeros in front of them. The last 16 bytes of a packet that isn't a reset are the last of a
/// tag, and never begin with 5A.
pub fn reset_token(id: &ConnectionId) -> ResetToken
    ensures { result.0 ≡ reset_token_of id.now }
{
    let id = id.bytes();
    let kept = &id[id.len().saturating_sub(KEPT)..];
    let mut token = [0; RESET_TOKEN_LEN];
    token[0] = 0x5a;
    token[1] = id.len() as u8;
    token[RESET_TOKEN_LEN - kept.len()..].copy_from_slice(kept);
    ResetToken(token)
}
