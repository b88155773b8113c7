ghost use Rattle.std.specs.Prelude.{◌≡◌};

use qh_base::{FourTuple, ResetToken};
use std::net::{IpAddr, SocketAddr};

// The addresses of a path as the key of a map, in an order that looks at all of them.
#[derive(Clone, Copy, PartialEq, Eq, PartialOrd, Ord)]
pub struct PathKey {
    pub remote: SocketAddr,
    pub local_ip: Option<IpAddr>,
}

// A reset token with the address that it comes from, as the key of a map.
#[derive(Clone, Copy, PartialEq, Eq, PartialOrd, Ord)]
pub struct ResetKey {
    pub remote: SocketAddr,
    pub token: ResetToken,
}

impl From<FourTuple> for PathKey {
    ghost from_gives = { λ addresses key. key ≡ record { remote = addresses.remote; local_ip = addresses.local_ip } };

    fn from(addresses: FourTuple) -> PathKey {
        PathKey {
            remote: addresses.remote,
            local_ip: addresses.local_ip,
        }
    }
}
