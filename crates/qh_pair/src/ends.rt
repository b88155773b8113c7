ghost use Rattle.std.specs.Prelude.{◌≡◌, ◌≤◌, ◌<◌, ◌^◌, ◌++◌, ◌∷◌, [], ℕ, List, Option, Some, None, true, false, length, is_some, IfOk, IfErr, IfSome, MatchOption, OnOk, OnErr};
ghost use Rattle.qh_base.specs.declared.connection_error.ConnectionError.TheVariants.{Memory as OutOfMemory, TimedOut};
ghost use Rattle.qh_base.specs.declared.time.Span.{Span as ASpan};
ghost use Rattle.qh_conduct.specs.Calls.{ToldTheSame};
ghost use Rattle.qh_conn.specs.Outgoing.{IsSilent, IsStill};
ghost use Rattle.qh_conn.specs.Whole.{IsWhole};
ghost use Rattle.qh_conn.specs.declared.config.ConnConfig.{ConnConfig as AConfig};
ghost use Rattle.qh_conn.specs.declared.connection.Connection.{Connection as AConnection};
ghost use Rattle.qh_core.specs.Inner.{is_open};
ghost use Rattle.qh_pair.specs.Clock.{IsEndClocked, IsTimedOutAt};
ghost use Rattle.qh_pair.specs.EndCalls.{IsMadeBy, IsPolledOut, IsTicked, IsUndisturbedBy, KeepsGreetable, KeepsHonest, polled_acts};
ghost use Rattle.qh_pair.specs.Ends.{IsWholeAt, Stands, first_destination, own_id};
ghost use Rattle.qh_pair.specs.Errors.{IfLink};
ghost use Rattle.qh_pair.specs.Full.{IsSentOut, OpensBy, ToldAsBefore};
ghost use Rattle.qh_pair.specs.Sound.{AreSoundEnds, IsFirst, IsGreetedAt, IsHeardAt};
ghost use Rattle.qh_pair.specs.Steps.{Did, EndStep, EndTicked, IsEndUndisturbed, IsLinkError, IsLostFairly, IsNewEnd, TakesFrom, is_done};
ghost use Rattle.qh_pair.specs.Turn.{AddsFault, IsLostWith, IsNotLost, has_link_failed};
ghost use Rattle.qh_pair.specs.declared.ends.Ids.{Ids as TheIds};
ghost use Rattle.qh_packet.specs.Session.{PlainKeys};
ghost use Rattle.qh_spec.specs.declared.link.Event.{Event};
ghost use Rattle.qh_spec.specs.declared.link.Event.TheVariants.{Given};
ghost use Rattle.qh_spec.specs.declared.sides.Side.{Side as ASide};
ghost use Rattle.qh_spec.specs.declared.sides.Side.TheVariants.{Client as TheClient};
ghost use Rattle.qh_spec.specs.Fault.{CountsFaults};
ghost use Rattle.qh_spec.specs.Transcript.{Act, HandedIn};
ghost use Rattle.qh_spec.specs.Turns.{IsIntake, IsOutput};

use crate::ExchangeError;
use qh_base::{ConnectionError, ConnectionId, FourTuple, Memory, Moment, Side};
use qh_conduct::permits;
use qh_conn::{ConnConfig, Connection, same_connection};
use qh_converse::converses;
use qh_link::{Link, MAX_DATAGRAM};
use qh_packet::{InitialForm, PlainSession};
use qh_peers::{can_greet, greets, honest_ends, initials_sealed, says_its_own, two_ends};
use std::alloc::Global;
use std::net::{IpAddr, Ipv4Addr, SocketAddr};

// What the ids of the client, those of the server, and the one that their tags are made of begin with.
const CLIENT_MARK: u8 = 0xc0;

const SERVER_MARK: u8 = 0x50;

const KEY_MARK: u8 = 0xd0;

/// The longest server name.
pub(crate) const MAX_NAME: usize = 255;

// The fewest bytes of a client's first datagram (RFC 9000, section 14.1).
const LEAST_FIRST: usize = 1_200;

// How many datagrams an end takes in a turn, and how many it sends.
const TAKEN_A_TURN: u32 = 65_536;

const SENT_A_TURN: u32 = 4_096;

/// An end of the connection of a pair.
pub(crate) type End = Connection<PlainSession>;

/// The connection ids of the two ends, and the one that the client chooses for its server, of which their tags are made.
#[derive(Clone, Copy)]
pub(crate) struct Ids {
    pub(crate) client: ConnectionId,
    pub(crate) server: ConnectionId,
    pub(crate) key: ConnectionId,
}

impl Ids {
    /// Ids of these lengths.
    pub(crate) fn of(local_id_len: u64, first_id_len: u64) -> Ids
        requires local { (1 ≤ local_id_len) × (local_id_len ≤ 20) }
        requires first { (1 ≤ first_id_len) × (first_id_len ≤ 20) }
        ensures lengths { (length result.client ≡ local_id_len) × (length result.server ≡ local_id_len) }
        ensures key { length result.key ≡ first_id_len }
    {
        Ids {
            client: marked_id(CLIENT_MARK, local_id_len),
            server: marked_id(SERVER_MARK, local_id_len),
            key: marked_id(KEY_MARK, first_id_len),
        }
    }
}

// An id of this length, which begins with the mark and is zero behind it.
fn marked_id(mark: u8, count: u64) -> ConnectionId
    requires some { 1 ≤ count }
    requires short { count ≤ 20 }
    ensures { length result ≡ count }
{
    let mut bytes = [0; ConnectionId::MAX_LEN];
    bytes[0] = mark;
    ConnectionId::new(&bytes[..count as usize]).unwrap()
}

/// The ids and settings that an end opens with.
#[derive(Clone, Copy)]
pub(crate) struct Opening {
    pub(crate) ids: Ids,
    pub(crate) config: ConnConfig,
}

/// This side's end, which opens now.
pub(crate) fn open_end(
    alloc: Global,
    side: Side,
    opening: &Opening,
    name: &str,
    now: Moment,
) -> Result<End, Memory>
    requires name { length name.now ≤ MAX_NAME }
    requires ids { length opening.now.ids.server ≡ length opening.now.ids.client }
    ensures { IfOk result (IsNewEnd side opening.now.ids opening.now.config now) }
{
    says_its_own::<PlainSession>();
    honest_ends::<PlainSession>();
    can_greet::<PlainSession>();
    converses::<PlainSession>();
    let session = PlainSession::new(opening.ids.key, name.as_bytes())?;
    let (local, remote) = ids_from(side, &opening.ids);
    Connection::new(
        alloc,
        opening.config,
        side,
        session,
        opening.ids.key,
        local,
        remote,
        path_from(side),
        now,
    )
}

// The id of this side, and the one to which its packets go at first: a client's to the one that it chose for its server.
fn ids_from(side: Side, ids: &Ids) -> (ConnectionId, ConnectionId)
    ensures own { result.0 ≡ own_id side ids.now }
    ensures there { result.1 ≡ first_destination side ids.now }
{
    match side {
        Side::Client => (ids.client, ids.key),
        Side::Server => (ids.server, ids.client),
    }
}

// Whether the datagram is a client's first one (RFC 9000, section 14.1).
fn is_first(ids: &Ids, datagram: &[u8]) -> bool
    ensures yes { result ≡ true → IsFirst ids.now datagram.now }
    ensures no { result ≡ false → IsFirst ids.now datagram.now → ⊥ }
{
    if datagram.len() < LEAST_FIRST {
        return false;
    }
    match InitialForm::read(datagram) {
        Some(form) => is_between(ids, &form),
        None => false,
    }
}

// Whether the packet goes from the client to the id that it chose for its server.
fn is_between(ids: &Ids, form: &InitialForm<'_>) -> bool
    ensures yes { result ≡ true → (form.now.destination.now ≡ ids.now.key) × (form.now.source.now ≡ ids.now.client) }
    ensures no { result ≡ false → form.now.destination.now ≡ ids.now.key → form.now.source.now ≡ ids.now.client → ⊥ }
{
    if form.destination != ids.key.bytes() {
        return false;
    }
    form.source == ids.client.bytes()
}

// The client is 10.0.0.1 port 1000, the server 10.0.0.2 port 443.
fn path_from(side: Side) -> FourTuple {
    let client = SocketAddr::new(IpAddr::V4(Ipv4Addr::new(10, 0, 0, 1)), 1_000);
    let server = SocketAddr::new(IpAddr::V4(Ipv4Addr::new(10, 0, 0, 2)), 443);
    let (local, remote) = match side {
        Side::Client => (client, server),
        Side::Server => (server, client),
    };
    FourTuple {
        remote,
        local_ip: Some(local.ip()),
    }
}

/// Hands an end each datagram that the link has ready for it. A server's end opens by a client's first one; those before it are dropped.
pub(crate) fn receive_at<L: Link>(
    alloc: Global,
    slot: &mut Option<End>,
    opening: &Opening,
    side: Side,
    now: Moment,
    link: &mut L,
) -> Result<(), ExchangeError>
    requires ids { length opening.now.ids.server ≡ length opening.now.ids.client }
    requires client { side ≡ TheClient → is_some slot.old ≡ true }
    requires whole { IsWholeAt slot.old }
    ensures step { EndStep (is_done result) now side opening.now.ids opening.now.config slot.old slot.new (L.events link.old) (L.events link.new) (λ more. IfOk result (λ _. IsIntake side more × OpensBy opening.now.ids side more (is_some slot.new ≡ true))) }
    ensures open { is_some slot.old ≡ true → is_some slot.new ≡ true }
    ensures moments { L.moments link.new ≡ L.moments link.old }
    ensures cause { CountsFaults (L.faults link.old) (L.faults link.new) (has_link_failed result) }
    ensures fault { IfLink result (AddsFault (L.events link.old) (L.events link.new)) }
    ensures plan { L.plan link.new ≡ L.plan link.old }
    ensures errors { IfErr result IsLinkError }
{
    let mut buf = [0; MAX_DATAGRAM];
    for _datagram in 0..TAKEN_A_TURN {
        let Some(len) = link.take(alloc, side, &mut buf)? else {
            return Ok(());
        };
        hand_in(alloc, slot, opening, side, now, &buf[..len])?;
    }
    Ok(())
}

// Hands in one datagram, at an end that is there or opens by it.
fn hand_in(
    alloc: Global,
    slot: &mut Option<End>,
    opening: &Opening,
    side: Side,
    now: Moment,
    datagram: &[u8],
) -> Result<(), Memory>
    requires ids { length opening.now.ids.server ≡ length opening.now.ids.client }
    requires client { side ≡ TheClient → is_some slot.old ≡ true }
    requires whole { IsWholeAt slot.old }
    ensures does { (t : List Act) → Stands side opening.now.ids opening.now.config slot.old t
        → Did (is_done result) now side opening.now.ids opening.now.config slot.old slot.new t (Given side datagram.now ∷ []) }
    ensures undisturbed { IsEndUndisturbed (is_done result) now opening.now.config.idle slot.old slot.new }
    ensures known { IsGreetedAt slot.old → IsGreetedAt slot.new }
    ensures open { is_some slot.old ≡ true → is_some slot.new ≡ true }
    ensures opens { is_done result ≡ true → IsFirst opening.now.ids datagram.now → is_some slot.new ≡ true }
    ensures whole { IsWholeAt slot.new }
{
    let Some(end) = slot else {
        return open_by(alloc, slot, opening, side, now, datagram);
    };
    hand_to(end, now, datagram)
}

// Opens a server's end, if the datagram is a client's first one, and hands it in; else it is dropped.
fn open_by(
    alloc: Global,
    slot: &mut Option<End>,
    opening: &Opening,
    side: Side,
    now: Moment,
    datagram: &[u8],
) -> Result<(), Memory>
    requires ids { length opening.now.ids.server ≡ length opening.now.ids.client }
    requires client { side ≡ TheClient → ⊥ }
    requires none { slot.old ≡ None }
    ensures does { (t : List Act) → Stands side opening.now.ids opening.now.config slot.old t
        → Did (is_done result) now side opening.now.ids opening.now.config slot.old slot.new t (Given side datagram.now ∷ []) }
    ensures undisturbed { IsEndUndisturbed (is_done result) now opening.now.config.idle slot.old slot.new }
    ensures opens { is_done result ≡ true → IsFirst opening.now.ids datagram.now → is_some slot.new ≡ true }
    ensures whole { IsWholeAt slot.new }
{
    if !is_first(&opening.ids, datagram) {
        return Ok(());
    }
    let mut end = open_end(alloc, side, opening, "", now)?;
    let taken = hand_to(&mut end, now, datagram);
    *slot = Some(end);
    taken
}

// Hands a datagram to an end.
fn hand_to(end: &mut End, now: Moment, datagram: &[u8]) -> Result<(), Memory>
    requires { IsWhole end.old }
    ensures made { IsMadeBy end.old end.new (HandedIn datagram.now ∷ []) }
    ensures undisturbed { OnOk result (IsUndisturbedBy now end.old end.new) }
    ensures lost { OnErr result (end.new.core.error ≡ Some OutOfMemory) }
    ensures two { OnOk result (TakesFrom now end.old end.new datagram.now) }
{
    end.session().key_id();
    qh_packet::plain_tags();
    qh_conduct::plain_tags();
    converses::<PlainSession>();
    two_ends::<PlainSession>();
    initials_sealed::<PlainSession>();
    can_greet::<PlainSession>();
    greets::<PlainSession>();
    end.handle_datagram(now, datagram)
}

/// Hands the link each datagram that an end has to send.
pub(crate) fn transmit_at<L: Link>(
    alloc: Global,
    slot: &mut Option<End>,
    side: Side,
    now: Moment,
    link: &mut L,
) -> Result<(), ExchangeError>
    requires going { IsNotLost slot.old }
    requires whole { IsWholeAt slot.old }
    ensures step { (ids : TheIds) (config : AConfig) → EndStep (is_done result) now side ids config slot.old slot.new (L.events link.old) (L.events link.new) (λ more. IfOk result (λ _. IsOutput side more × IsSentOut side slot.new more × ToldAsBefore slot.old slot.new)) }
    ensures open { is_some slot.new ≡ is_some slot.old }
    ensures moments { L.moments link.new ≡ L.moments link.old }
    ensures cause { CountsFaults (L.faults link.old) (L.faults link.new) (has_link_failed result) }
    ensures fault { IfLink result (AddsFault (L.events link.old) (L.events link.new)) }
    ensures plan { L.plan link.new ≡ L.plan link.old }
    ensures errors { IfErr result IsLinkError }
{
    let Some(end) = slot else {
        return Ok(());
    };
    // Its contract says that an end which isn't lost is open.
    end.core.is_owed();
    send_datagrams(alloc, end, side, now, link)
}

/// Does what is due for an end by now, and says why it is lost, where it is. Its events are told to nobody.
pub(crate) fn tick_at(slot: &mut Option<End>, now: Moment) -> Option<ConnectionError>
    requires bound { now.0 < 2 ^ 62 }
    requires whole { IsWholeAt slot.old }
    ensures ticked { (side : ASide) → EndTicked now.0 side slot.old slot.new }
    ensures open { is_some slot.new ≡ is_some slot.old }
    ensures lost { MatchOption result (IsNotLost slot.new) (λ e. IsLostWith e slot.new) }
    ensures clocked { (idle : Option ASpan) (moments : List ℕ) → IsEndClocked idle moments slot.old → result ≡ None → IsEndClocked idle moments slot.new }
    ensures timed_out { (idle : Option ASpan) (moments front : List ℕ) → IsEndClocked idle moments slot.old → moments ≡ front ++ now.0 ∷ []
        → result ≡ Some TimedOut → IsTimedOutAt idle moments slot.new }
    ensures sound { (side : ASide) (ids : TheIds) (config : AConfig) (peer : Option (AConnection PlainKeys)) (t u : List Act) → AreSoundEnds side ids config slot.old peer t u
        → MatchOption result (AreSoundEnds side ids config slot.new peer t u) (λ e. IsLostFairly now.0 e slot.old) }
    ensures heard { (side : ASide) (k : ℕ) (config : AConfig) (events : List Event) → result ≡ None → IsHeardAt side k config slot.old events → IsHeardAt side k config slot.new events }
{
    let Some(end) = slot else {
        return None;
    };
    same_connection::<PlainSession>();
    run_timers(end, now);
    drop_events(end);
    drop_endpoint_events(end);
    end.core.close_reason()
}

// Does what is due by now. Want of memory ends the end, which says so.
fn run_timers(end: &mut End, now: Moment)
    requires bound { now.0 < 2 ^ 62 }
    requires whole { IsWhole end.old }
    ensures { IsTicked now.0 end.old end.new }
{
    // `is_owed` does nothing. Its contract says that an end which is open isn't lost.
    end.core.is_owed();
    converses::<PlainSession>();
    honest_ends::<PlainSession>();
    can_greet::<PlainSession>();
    let _ = end.handle_timeout(now);
}

// Takes all events, which nobody waits for.
fn drop_events(end: &mut End)
    requires { IsWhole end.old }
    ensures { IsPolledOut end.old end.new }
{
    converses::<PlainSession>();
    honest_ends::<PlainSession>();
    same_connection::<PlainSession>();
    for _event in 0..u64::MAX {
        if end.poll().is_none() {
            break;
        }
    }
}

// Takes all that the endpoint would be told.
fn drop_endpoint_events(end: &mut End)
    requires { IsWhole end.old }
    ensures { IsPolledOut end.old end.new }
{
    converses::<PlainSession>();
    honest_ends::<PlainSession>();
    same_connection::<PlainSession>();
    for _event in 0..u64::MAX {
        if end.poll_endpoint_events().is_none() {
            break;
        }
    }
}

// Hands the link each datagram that an end has to send.
fn send_datagrams<L: Link>(
    alloc: Global,
    end: &mut End,
    side: Side,
    now: Moment,
    link: &mut L,
) -> Result<(), ExchangeError>
    requires open { is_open end.old.core.state ≡ true }
    requires whole { IsWhole end.old }
    ensures step { (ids : TheIds) (config : AConfig) → EndStep (is_done result) now side ids config (Some end.old) (Some end.new) (L.events link.old) (L.events link.new)
        (λ more. IfOk result (λ _. IsOutput side more × IsSentOut side (Some end.new) more × ToldAsBefore (Some end.old) (Some end.new))) }
    ensures moments { L.moments link.new ≡ L.moments link.old }
    ensures cause { CountsFaults (L.faults link.old) (L.faults link.new) (has_link_failed result) }
    ensures fault { IfLink result (AddsFault (L.events link.old) (L.events link.new)) }
    ensures plan { L.plan link.new ≡ L.plan link.old }
    ensures errors { IfErr result IsLinkError }
{
    let mut datagram = Vec::new(alloc);
    for _datagram in 0..SENT_A_TURN {
        let found = has_next(end, now, &mut datagram)?;
        if !found {
            return Ok(());
        }
        link.send(alloc, side, &datagram)?;
    }
    Ok(())
}

// Whether an end has a datagram to send. Then the buffer has that alone.
fn has_next(end: &mut End, now: Moment, datagram: &mut Vec<u8>) -> Result<bool, Memory>
    requires open { is_open end.old.core.state ≡ true }
    requires whole { IsWhole end.old }
    ensures made { IsMadeBy end.old end.new (polled_acts datagram.new.items result) }
    ensures undisturbed { OnOk result (IsUndisturbedBy now end.old end.new) }
    ensures lost { OnErr result (end.new.core.error ≡ Some OutOfMemory) }
    ensures open { OnOk result (is_open end.new.core.state ≡ true) }
    ensures names { OnOk result ((end.new.handshake.peer ≡ end.old.handshake.peer) × (end.new.handshake.retry_id ≡ end.old.handshake.retry_id) × (end.new.handshake.remote_id ≡ end.old.handshake.remote_id)) }
    ensures told { OnOk result (ToldTheSame end.old.core.space.streams end.new.core.space.streams) }
    ensures none { IfOk result (λ found. found ≡ false → IsStill end.old end.new × IsSilent end.old) }
    ensures honest { OnOk result (KeepsHonest end.old end.new (polled_acts datagram.new.items result)) }
    ensures greets { OnOk result (KeepsGreetable end.old end.new (polled_acts datagram.new.items result)) }
    ensures first { IfOk result (λ found. found ≡ true → (ids : TheIds) → end.old.core.side ≡ TheClient → end.old.core.local_id ≡ ids.client → end.old.handshake.remote_id ≡ ids.key → end.old.handshake.peer ≡ None
        → IsFirst ids datagram.new.items) }
{
    end.session().key_id();
    qh_packet::plain_tags();
    converses::<PlainSession>();
    honest_ends::<PlainSession>();
    initials_sealed::<PlainSession>();
    can_greet::<PlainSession>();
    permits::<PlainSession>();
    datagram.clear();
    let transmit = end.poll_transmit(now, datagram)?;
    Ok(transmit.is_some())
}
