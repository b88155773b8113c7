ghost use Rattle.std.specs.Prelude.{◌≡◌, ◌⊎◌, ◌+◌, ◌<◌, ◌≤◌, List, [], ◌∷◌, ◌++◌, Some, length, true, is_some, IfOk, IfErr, OnOk, OnErr};
ghost use Rattle.qh_connections.specs.Connections.{AreConnections, IsKept, PlainConnections, id_at, meta_at};
ghost use Rattle.qh_connections.specs.Ids.{AreNoneFresh, IsSameSource};
ghost use Rattle.qh_control.specs.declared.event.EndpointEvent.TheVariants as asked;
ghost use Rattle.qh_control.specs.declared.event.IssuedCid.{IssuedCid as Cid};
ghost use Rattle.qh_endpoint_events.specs.Events.{AreIssued, IsDone, IsDrawn, IsExhausted, IsWanting, sequences};
ghost use Rattle.qh_kit.specs.declared.error.EventFault.TheVariants as fault;
ghost use Rattle.qh_routes.specs.ConnectionMeta.{PlainMeta};
ghost use Rattle.qh_token.specs.Reset.{reset_token_of};
ghost use Rattle.qh_base.specs.declared.time.Moment.{Moment as Time};

use qh_base::{ConnectionId, Memory, Moment};
use qh_conn::ConnectionEvent;
use qh_connections::{Connections, IssueFault};
use qh_control::{EndpointEvent, IssuedCid};
use qh_generator::ConnectionIdGenerator;
use qh_kit::EventFault;
use qh_routes::ConnectionHandle;
use qh_token::reset_token;
use std::alloc::Global;

// No id has a sequence as great as this (RFC 9000, section 19.15).
const SEQUENCES: u64 = 1 << 62;

/// Does what a connection asks of its endpoint, and gives what is to be handed to the connection. A `Drained` of a connection that isn't live is
/// ignored; at each other event it is live. Ids that are needed are all issued, or none; none comes if one would need a sequence of 2^62 or more.
/// An id that takes the place of a retired one is issued first, so that for want of memory the old one stays.
pub fn handle_event<G: ConnectionIdGenerator>(
    alloc: Global,
    connections: &mut Connections<G>,
    handle: ConnectionHandle,
    event: EndpointEvent,
) -> Result<Option<ConnectionEvent>, EventFault>
    requires { (is_some (meta_at connections.old handle) ≡ true) ⊎ (event ≡ asked.Drained) }
    ensures done { IfOk result (IsDone G.given G.cid_len G.validates handle connections.old connections.new event) }
    ensures exhausted { IfErr result (λ e. e ≡ fault.CidsExhausted → IsExhausted G.given G.cid_len G.validates handle connections.old connections.new event) }
    ensures wanting { IfErr result (λ e. e ≡ fault.Memory → IsWanting G.given G.cid_len G.validates handle connections.old connections.new event) }
    ensures source { IsSameSource G.cid_len G.validates connections.old.ids connections.new.ids }
{
    match event {
        EndpointEvent::NeedIdentifiers(now, count) => issue_all(
            alloc,
            connections,
            handle,
            now,
            count,
        ),
        EndpointEvent::ResetToken(remote, token) => {
            match connections.set_reset_token(handle, remote, token) {
                Ok(()) => Ok(None),
                Err(Memory) => Err(EventFault::Memory),
            }
        }
        EndpointEvent::RetireConnectionId(now, sequence, allow_more) => {
            retire(alloc, connections, handle, now, sequence, allow_more)
        }
        EndpointEvent::Drained => {
            connections.remove(handle);
            Ok(None)
        }
    }
}

// Issues `count` further ids, or none if one would need too great a sequence.
fn issue_all<G: ConnectionIdGenerator>(
    alloc: Global,
    connections: &mut Connections<G>,
    handle: ConnectionHandle,
    now: Moment,
    count: u64,
) -> Result<Option<ConnectionEvent>, EventFault>
    requires { is_some (meta_at connections.old handle) ≡ true }
    ensures done { IfOk result (IsDone G.given G.cid_len G.validates handle connections.old connections.new (asked.NeedIdentifiers now count)) }
    ensures exhausted { IfErr result (λ e. e ≡ fault.CidsExhausted → IsExhausted G.given G.cid_len G.validates handle connections.old connections.new (asked.NeedIdentifiers now count)) }
    ensures wanting { IfErr result (λ e. e ≡ fault.Memory → IsWanting G.given G.cid_len G.validates handle connections.old connections.new (asked.NeedIdentifiers now count)) }
    ensures source { IsSameSource G.cid_len G.validates connections.old.ids connections.new.ids }
{
    if count > SEQUENCES || issued_by(connections, handle) > SEQUENCES - count {
        return Ok(None);
    }
    match issue_many(alloc, connections, handle, count) {
        Ok(ids) => Ok(Some(ConnectionEvent::NewIdentifiers(ids, now))),
        Err(fault) => Err(fault),
    }
}

// Issues `count` further ids, for which there are sequences. After a fault those that were issued are taken back.
fn issue_many<G: ConnectionIdGenerator>(
    alloc: Global,
    connections: &mut Connections<G>,
    handle: ConnectionHandle,
    count: u64,
) -> Result<Vec<IssuedCid>, EventFault>
    requires live { is_some (meta_at connections.old handle) ≡ true }
    requires room { (m : PlainMeta) → meta_at connections.old handle ≡ Some m → m.cids_issued + count ≤ sequences }
    ensures issued { IfOk result (λ ids. AreIssued G.given G.cid_len G.validates handle ids.items connections.old connections.new) }
    ensures all { IfOk result (λ ids. length ids.items ≡ count) }
    ensures exhausted { IfErr result (λ e. e ≡ fault.CidsExhausted → (now : Time) → IsExhausted G.given G.cid_len G.validates handle connections.old connections.new (asked.NeedIdentifiers now count)) }
    ensures err { OnErr result (IsKept connections.old connections.new) }
    ensures wanting { IfErr result (λ e. e ≡ fault.Memory → (now : Time) → IsWanting G.given G.cid_len G.validates handle connections.old connections.new (asked.NeedIdentifiers now count)) }
    ensures source { IsSameSource G.cid_len G.validates connections.old.ids connections.new.ids }
{
    connections.are_connections();
    let mut ids = Vec::new(alloc);
    for _ in 0..count {
        if let Err(fault) = issue_into(connections, handle, &mut ids) {
            take_back(connections, handle, ids.len());
            return Err(fault);
        }
    }
    Ok(ids)
}

// Issues one id more. None is issued if there is no memory to hold it.
fn issue_into<G: ConnectionIdGenerator>(
    connections: &mut Connections<G>,
    handle: ConnectionHandle,
    ids: &mut Vec<IssuedCid>,
) -> Result<(), EventFault>
    requires live { is_some (meta_at connections.old handle) ≡ true }
    requires room { (m : PlainMeta) → meta_at connections.old handle ≡ Some m → m.cids_issued < sequences }
    ensures issued { OnOk result ((cid : Cid) × (ids.new.items ≡ ids.old.items ++ cid ∷ []) × AreIssued G.given G.cid_len G.validates handle (cid ∷ []) connections.old connections.new) }
    ensures exhausted { IfErr result (λ e. e ≡ fault.CidsExhausted → AreNoneFresh connections.old.routes (G.given connections.old.ids) (G.given connections.new.ids)) }
    ensures err { OnErr result (IsKept connections.old connections.new) }
    ensures wanting { IfErr result (λ e. e ≡ fault.Memory → IsDrawn G.given G.cid_len G.validates handle connections.old connections.new) }
    ensures kept { OnErr result (ids.new.items ≡ ids.old.items) }
    ensures source { IsSameSource G.cid_len G.validates connections.old.ids connections.new.ids }
{
    if ids.try_reserve(1).is_err() {
        return Err(EventFault::Memory);
    }
    let sequence = issued_by(connections, handle);
    let id = match connections.issue(handle) {
        Ok(id) => id,
        Err(IssueFault::CidsExhausted) => return Err(EventFault::CidsExhausted),
        Err(IssueFault::Memory) => return Err(EventFault::Memory),
    };
    ids.push_reserved(issued(sequence, id));
    Ok(())
}

// Takes back the `count` ids that were issued last.
fn take_back<G: ConnectionIdGenerator>(
    connections: &mut Connections<G>,
    handle: ConnectionHandle,
    count: usize,
)
    requires live { is_some (meta_at connections.old handle) ≡ true }
    requires some { (m : PlainMeta) → meta_at connections.old handle ≡ Some m → count ≤ m.cids_issued }
    ensures back { (ids : List Cid) (old mid : PlainConnections G) → AreConnections old → AreIssued G.given G.cid_len G.validates handle ids old mid → IsKept mid connections.old → length ids ≡ count → IsKept old connections.new }
    ensures ids { connections.new.ids ≡ connections.old.ids }
{
    for _ in 0..count {
        connections.take_back(handle);
    }
}

// Retires the id with this sequence, if it is there, and issues another in its place, if one may be issued.
fn retire<G: ConnectionIdGenerator>(
    alloc: Global,
    connections: &mut Connections<G>,
    handle: ConnectionHandle,
    now: Moment,
    sequence: u64,
    allow_more: bool,
) -> Result<Option<ConnectionEvent>, EventFault>
    requires { is_some (meta_at connections.old handle) ≡ true }
    ensures done { IfOk result (IsDone G.given G.cid_len G.validates handle connections.old connections.new (asked.RetireConnectionId now sequence allow_more)) }
    ensures exhausted { IfErr result (λ e. e ≡ fault.CidsExhausted → IsExhausted G.given G.cid_len G.validates handle connections.old connections.new (asked.RetireConnectionId now sequence allow_more)) }
    ensures wanting { IfErr result (λ e. e ≡ fault.Memory → IsWanting G.given G.cid_len G.validates handle connections.old connections.new (asked.RetireConnectionId now sequence allow_more)) }
    ensures source { IsSameSource G.cid_len G.validates connections.old.ids connections.new.ids }
{
    connections.are_connections();
    if !has_id(connections, handle, sequence) {
        return Ok(None);
    }
    if !allow_more || issued_by(connections, handle) >= SEQUENCES {
        connections.retire(handle, sequence);
        return Ok(None);
    }
    let mut ids = Vec::new(alloc);
    match issue_into(connections, handle, &mut ids) {
        Ok(()) => {
            connections.retire(handle, sequence);
            Ok(Some(ConnectionEvent::NewIdentifiers(ids, now)))
        }
        Err(EventFault::CidsExhausted) => {
            connections.retire(handle, sequence);
            Err(EventFault::CidsExhausted)
        }
        Err(EventFault::Memory) => Err(EventFault::Memory),
    }
}

// How many ids were issued for the connection.
fn issued_by<G>(connections: &Connections<G>, handle: ConnectionHandle) -> u64
    ensures { (m : PlainMeta) → meta_at connections.now handle ≡ Some m → result ≡ m.cids_issued }
{
    match connections.meta(handle) {
        Some(meta) => meta.issued(),
        None => 0,
    }
}

// Whether the id with this sequence was issued and not retired.
fn has_id<G>(connections: &Connections<G>, handle: ConnectionHandle, sequence: u64) -> bool
    ensures { (m : PlainMeta) → meta_at connections.now handle ≡ Some m → result ≡ is_some (id_at m sequence) }
{
    match connections.meta(handle) {
        Some(meta) => meta.has_id(sequence),
        None => false,
    }
}

// The id with this sequence, as the connection is told of it.
fn issued(sequence: u64, id: ConnectionId) -> IssuedCid
    ensures sequence { result.sequence ≡ sequence }
    ensures id { result.id ≡ id }
    ensures token { result.reset_token.0 ≡ reset_token_of id }
{
    IssuedCid {
        sequence,
        id,
        reset_token: reset_token(&id),
    }
}
