//! Which ids GOAWAY frames name (RFC 9114, section 5.2).
ghost use Rattle.std.specs.Prelude.{◌≡◌, ◌<◌, ◌^◌};
ghost use Rattle.qh_h3.specs.Goaway.{falls as falls_to, goaway_id as named_id};

use qh_base::VarInt;

// The greatest id of a request.
const LAST_REQUEST: u128 = (1 << 62) - 4;

/// The id of the GOAWAY frame with which a server takes so many requests more. `next` is the id of the next request, 0 before the first (RFC 9114, section 5.2).
pub fn goaway_id(next: u64, requests: usize) -> VarInt
    ensures { result ≡ named_id next requests }
{
    let id = u128::from(next) + 4 * requests as u128;
    VarInt::from_u64(id.min(LAST_REQUEST) as u64).unwrap()
}

// Whether a GOAWAY frame with this id may follow the one that was sent.
pub(crate) fn falls(sent: &Option<VarInt>, id: VarInt) -> bool
    ensures { result ≡ falls_to sent.now id }
{
    match sent {
        Some(sent) => id.into_inner() < sent.into_inner(),
        None => true,
    }
}
