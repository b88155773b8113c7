ghost use Rattle.std.specs.Prelude.{◌≡◌, ◌≤◌, ◌==◌, length, not, IfOk};

use qh_base::{ConnectionId, Memory};
use qh_generator::ConnectionIdGenerator;
use qh_packet::Session;
use qh_parts::TokenLog;
use qh_stateless::Words;

/// What an endpoint is made with (own, where `quinn-proto` has crypto configs, a generator, a source of randomness and a token log of their own).
pub trait Kit: Drop {
    /// Makes and opens the tags of a connection's packets.
    type S: Session + Drop;

    /// Gives connection ids.
    type G: ConnectionIdGenerator + Drop;

    /// Gives random words.
    type R: Words + Drop;

    /// Keeps which tokens were used.
    type T: TokenLog + Drop;

    /// A session with this key id. A client's has the server name that its hello bears; a server's has an empty one, and learns it.
    fn session(&mut self, key_id: ConnectionId, server_name: &[u8]) -> Result<Self::S, Memory>
        requires { length server_name.now ≤ 255 }
        ensures key { IfOk result (λ s. Self.S.key s ≡ key_id) }
        ensures name { IfOk result (λ s. Self.S.name s ≡ server_name.now) }
        ensures knows { IfOk result (λ s. Self.S.knows s ≡ not (length server_name.now == 0)) };
}
