ghost use Rattle.std.specs.Prelude.{◌≡◌, ◌++◌, ◌∷◌, [], drop, None, IfSome, OnOk, OnErr};

use qh_base::{ConnectionId, Memory, Moment, ResetToken};
use std::alloc::Global;
use std::collections::VecDeque;
use std::marker::Model;
use std::net::SocketAddr;

/// What a connection tells the endpoint that it belongs to (quinn-proto, `EndpointEvent`).
#[derive(Clone, Copy)]
pub enum EndpointEvent {
    /// It wants this many further connection ids.
    NeedIdentifiers(Moment, u64),
    /// A datagram that comes from this address and ends with this token resets it (RFC 9000, section 10.3). It takes the place of its
    /// earlier one.
    ResetToken(SocketAddr, ResetToken),
    /// The peer retired the id with this sequence; whether another may be issued in its place.
    RetireConnectionId(Moment, u64, bool),
    /// Nothing more is sent or taken: it can be forgotten.
    Drained,
}

/// An id that the endpoint issued for a connection (quinn-proto, `IssuedCid`).
#[derive(Clone, Copy)]
pub struct IssuedCid {
    /// Below 2^62.
    pub sequence: u64,
    pub id: ConnectionId,
    /// The token of the stateless resets that belong to it.
    pub reset_token: ResetToken,
}

/// What the endpoint wasn't told yet, the oldest first.
#[derive(Drop)]
pub struct EndpointEvents {
    events: VecDeque<EndpointEvent>,
}

impl Model for EndpointEvents {
    ghost use Rattle.std.specs.Prelude.{List};
    ghost use Rattle.qh_control.specs.declared.event.EndpointEvent.{EndpointEvent};

    ghost Value = { List EndpointEvent };

    ghost view = { λ e. e.events.items };
}

impl EndpointEvents {
    /// None waits.
    pub fn new(alloc: Global) -> EndpointEvents
        ensures { result ≡ [] }
    {
        EndpointEvents {
            events: VecDeque::new(alloc),
        }
    }

    /// One more is to be told, behind the others. For want of memory nothing changes.
    pub fn push(&mut self, event: EndpointEvent) -> Result<(), Memory>
        ensures ok { OnOk result (self.new ≡ self.old ++ event ∷ []) }
        ensures err { OnErr result (self.new ≡ self.old) }
    {
        self.events.push_back(event)?;
        Ok(())
    }

    /// The oldest one, which is told by that. None exactly if none is left.
    pub fn pop(&mut self) -> Option<EndpointEvent>
        ensures some { IfSome result (λ event. self.old ≡ event ∷ self.new) }
        ensures none { result ≡ None → (self.old ≡ []) × (self.new ≡ []) }
    {
        self.events.pop_front()
    }
}
