//! The attempts of an endpoint: how they begin, and what is done with them.
ghost use Rattle.std.specs.Prelude.{◌≡◌, [], IfSome};
ghost use Rattle.qh_attempts.specs.Attempts.{IsPending};

use crate::end::End;
use crate::link::Link;
use crate::row::Row;
use crate::tell::put_cause;
use qh_base::{Memory, Moment, Transmit};
use qh_endpoint::{AcceptError, Incoming, RetryError, RetryFault};
use qh_kit::ServerConfig;
use qh_routes::ConnectionHandle;
use row_text::RowFault;
use std::mem;

impl End {
    /// A new attempt waits.
    pub(crate) fn add_attempt(&mut self, incoming: Incoming, row: &mut Row<'_>) {
        put_attempt(self.attempts.len() as u64, &incoming, row);
        if let Err(failed) = self.attempts.push(Some(incoming)) {
            drop(failed);
            row.fail(RowFault::Memory);
        }
    }

    // The attempt with this number, which is spent by that. None if there is none, it was spent before, or it doesn't wait.
    fn take_attempt(&mut self, place: usize) -> Option<Incoming>
        ensures { IfSome result (λ incoming. IsPending self.new.endpoint.incoming incoming.key) }
    {
        let taken = match self.attempts.get_mut(place) {
            Some(slot) => slot.take(),
            None => None,
        };
        match taken {
            Some(incoming) => {
                if self.endpoint.pending(&incoming) {
                    Some(incoming)
                } else {
                    None
                }
            }
            None => None,
        }
    }

    /// Whether an attempt waits.
    pub(crate) fn put_pending(&self, place: usize, row: &mut Row<'_>) {
        match self.attempts.get(place) {
            Some(Some(incoming)) if self.endpoint.pending(incoming) => row.put("waits"),
            Some(Some(_)) => row.put("unknown"),
            Some(None) => row.put("spent"),
            None => row.fail(RowFault::Form),
        }
    }

    /// Accepts an attempt, under this config if there is one.
    pub(crate) fn accept(
        &mut self,
        now: Moment,
        place: usize,
        server: Option<ServerConfig>,
        buf: &mut Vec<u8>,
        row: &mut Row<'_>,
    )
        requires { buf.old.items ≡ [] }
    {
        let Some(incoming) = self.take_attempt(place) else {
            return row.fail(RowFault::Form);
        };
        match self.accept_attempt(incoming, now, buf, server) {
            Ok((handle, link)) => self.add(handle, link, row),
            Err(error) => put_unaccepted(&error, row),
        }
    }

    // Accepts an attempt that waits. Nothing of the contract is used here but that its connection is whole.
    fn accept_attempt(
        &mut self,
        incoming: Incoming,
        now: Moment,
        buf: &mut Vec<u8>,
        server: Option<ServerConfig>,
    ) -> Result<(ConnectionHandle, Link), AcceptError>
        requires pending { IsPending self.old.endpoint.incoming incoming.key }
        requires written { buf.old.items ≡ [] }
    {
        match self.endpoint.accept(incoming, now, buf, server) {
            Ok((handle, connection)) => Ok((handle, Link::of(connection))),
            Err(error) => Err(error),
        }
    }

    /// Refuses an attempt.
    pub(crate) fn refuse(&mut self, place: usize, buf: &mut Vec<u8>, row: &mut Row<'_>)
        requires { buf.old.items ≡ [] }
    {
        let Some(incoming) = self.take_attempt(place) else {
            return row.fail(RowFault::Form);
        };
        match self.endpoint.refuse(incoming, buf) {
            Ok(transmit) => put_response(&transmit, row),
            Err(Memory) => row.fail(RowFault::Memory),
        }
    }

    /// Answers an attempt by a Retry packet.
    pub(crate) fn retry(&mut self, now: Moment, place: usize, buf: &mut Vec<u8>, row: &mut Row<'_>)
        requires { buf.old.items ≡ [] }
    {
        let Some(incoming) = self.take_attempt(place) else {
            return row.fail(RowFault::Form);
        };
        match self.endpoint.retry(incoming, now, buf) {
            Ok(transmit) => put_response(&transmit, row),
            Err(error) => self.put_unretried(place, error, row),
        }
    }

    // An attempt that isn't answered by a Retry packet is handed back, and has its number again.
    fn put_unretried(&mut self, place: usize, error: RetryError, row: &mut Row<'_>) {
        row.put(match error.cause() {
            RetryFault::Answered => "answered",
            RetryFault::CidsExhausted => "exhausted",
            RetryFault::Memory => "memory",
        });
        let incoming = error.into_incoming();
        if let Some(slot) = self.attempts.get_mut(place) {
            drop(mem::replace(slot, Some(incoming)));
        }
    }

    /// Ignores an attempt.
    pub(crate) fn ignore(&mut self, place: usize, row: &mut Row<'_>) {
        match self.take_attempt(place) {
            Some(incoming) => self.endpoint.ignore(incoming),
            None => row.fail(RowFault::Form),
        }
    }
}

// Puts why an attempt isn't accepted, and what is answered.
fn put_unaccepted(error: &AcceptError, row: &mut Row<'_>) {
    put_cause(&error.cause, row);
    match &error.response {
        Some(transmit) => {
            row.put(", ");
            put_response(transmit, row);
        }
        None => row.put(", no response"),
    }
}

// Puts what an attempt tells.
fn put_attempt(number: u64, incoming: &Incoming, row: &mut Row<'_>) {
    row.put_count("attempt ", number);
    row.put_address(" from ", incoming.remote_address());
    match incoming.local_ip() {
        Some(ip) => row.put_ip(" to ", ip),
        None => row.put(" to none"),
    }
    row.put_part(" original ", incoming.orig_dst_cid().bytes());
    if incoming.may_retry() {
        row.put(" may-retry");
    }
    if incoming.remote_address_validated() {
        row.put(" validated");
    }
}

/// Puts how many bytes are to be sent, and where.
pub(crate) fn put_response(transmit: &Transmit, row: &mut Row<'_>) {
    row.put_count("response ", transmit.size as u64);
    if let Some(ip) = transmit.src_ip {
        row.put_ip(" from ", ip);
    }
    row.put_address(" to ", transmit.destination);
}
