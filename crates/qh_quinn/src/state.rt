ghost use Rattle.std.specs.Prelude.{◌≡◌, ◌++◌, ◌∷◌, [], ℕ, false, None, Some, MatchOption, MatchResult, IfOk, IfSome, IsOk, OnErr, OnOk};
ghost use Rattle.futures.specs.Task.{IsArmed, Keeps};
ghost use Rattle.qh_book.specs.Interests.{interest_of};
ghost use Rattle.qh_book.specs.declared.interest.Interest.{Interest as AnInterest};
ghost use Rattle.qh_book.specs.declared.reply.Reply.TheVariants as reply;
ghost use Rattle.qh_conn.specs.Telling.{IsDueAt, IsEndpointTold, IsFirstDue};
ghost use Rattle.qh_conn.specs.Whole.{IsWhole};
ghost use Rattle.qh_handles.specs.Told.{IsDrive, IsPolled};
ghost use Rattle.qh_quinn.specs.Acting.{IsKept, IsMade, IsTelling, IsUnmade, KeepsTurns};
ghost use Rattle.qh_quinn.specs.First.{IsFirstState};
ghost use Rattle.qh_quinn.specs.Kept.{BeginsHistory, IsFreeAt, IsLogTaken};
ghost use Rattle.qh_quinn.specs.Recording.{IsRecorded, IsUnused, Records, TellsAt};
ghost use Rattle.qh_quinn.specs.Told.{TellsOf};
ghost use Rattle.qh_quinn.specs.Waiting.{IsHeard, KeepsOthers};
ghost use Rattle.qh_shown.specs.Brings.{IsLogging};
ghost use Rattle.qh_shown.specs.Connections.{IsBegun, IsBegunLogged, is_wanting};

use crate::history::{History, HistoryEntry};
use crate::inner::StateInner;
use futures::task::{Context, Poll};
use qh_base::{Memory, Moment};
use qh_book::{Call, Reply};
use qh_conn::{Connection, ConnectionEvent, EndpointEvent};
use qh_handles::{At, Connecting, ConnectionDriver, DriverPart, Told};
use qh_packet::Session;
use qh_runtime::{AsyncUdpSocket, IoFault};
use std::alloc::Global;
use std::marker::Model;

/// A connection with its handles, the calls that wait on it, and what waits for its driver (quinn, `State`): what holds of it between two turns of the driver
/// holds at every moment. It may keep its history (own).
#[derive(Drop)]
pub struct State<S: Session>
where
    S::HandshakeData: Drop,
{
    inner: StateInner<S>,
    history: Option<History<Told<S::HandshakeData>>>,
}

impl<S: Session> Model for State<S>
where
    S::HandshakeData: Drop,
{
    ghost use Rattle.std.specs.Option.{option_map};
    ghost use Rattle.qh_quinn.specs.Kept.{HasHistory, PlainState};
    ghost use Rattle.qh_quinn.specs.States.{IsState};

    ghost Value = { PlainState S S.HandshakeData };

    ghost view = { λ s. record { inner = s.inner; history = option_map (λ h. h.entries.items) s.history } };

    ghost invariant = { λ s. IsState s.inner × HasHistory s.inner s.history };
}

impl<S: Session> State<S>
where
    S::HandshakeData: Drop,
{
    /// A state of a connection that nobody else has, with the one handle that it counts, and its driver. The connection has begun, and may have had its first
    /// datagram; no call of an application was made on it. If its log was on from the first, the state may keep its history (`record`).
    pub fn new<X: AsyncUdpSocket>(
        alloc: Global,
        connection: Connection<S>,
        stable_id: u64,
        now: Moment,
    ) -> Result<(State<S>, Connecting, ConnectionDriver<X>), Memory>
        requires whole { IsWhole connection }
        requires begun { IsBegun connection }
        requires logging { IsLogging connection }
        ensures ok { IsOk result }
        ensures first { IfOk result (λ r. IsFirstState connection stable_id now r.0.inner) }
        ensures unkept { IfOk result (λ r. r.0.history ≡ None) }
        ensures unused { IsBegunLogged connection → is_wanting connection ≡ false → IfOk result (λ r. IsUnused r.0.inner) }
        ensures handle { IfOk result (λ r. r.1.is_given ≡ false) }
        ensures driver { IfOk result (λ r. (r.2.part.poller ≡ None) × (r.2.part.made ≡ 0) × (r.2.part.is_held ≡ false) × (r.2.part.keeps_going ≡ false)) }
    {
        let inner = StateInner::new(alloc, connection, stable_id, now);
        Ok((
            State {
                inner,
                history: None,
            },
            Connecting::of_state(),
            ConnectionDriver::of_state(),
        ))
    }

    /// Keeps the history from now on (own): each call and each turn with its reply, and what each turn brought. No call and no turn was made yet, and the
    /// connection's log was on since it was made. The first entry is a turn that brings what the connection holds by now. Each later call and turn takes the
    /// memory of its entry first, and isn't made if there is none, but for the end of a handle, whose room is taken when the handle is made. Of a getter that
    /// tells a value which the book doesn't have, the entry has the value that the connection told then. For want of memory nothing changes.
    pub fn record(&mut self) -> Result<(), Memory>
        requires unkept { self.old.history ≡ None }
        requires unused { IsUnused self.old.inner }
        ensures ok { OnOk result (BeginsHistory self.old.inner self.new.history) }
        ensures connection { OnOk result (IsLogTaken self.old.inner self.new.inner) }
        ensures err { OnErr result (self.new ≡ self.old) }
    {
        qh_shown::times_bring::<S>();
        self.history = Some(self.inner.begin_history()?);
        Ok(())
    }

    /// The history, if it is kept.
    pub fn history(&self) -> Option<&[HistoryEntry<Told<S::HandshakeData>>]>
        ensures kept { MatchOption result (self.now.history ≡ None) (λ es. self.now.history ≡ Some es.now) }
        ensures legal { IfSome self.now.history (λ es. IsRecorded self.now.inner es) }
    {
        self.history
            .as_ref()
            .map(|history| history.entries.as_slice())
    }

    /// Keeps what the endpoint hands in, for the driver's next turn, and wakes the driver. For want of memory it isn't kept.
    pub fn push_event(&mut self, event: ConnectionEvent) -> Result<(), Memory>
        ensures rest { self.new ≡ record self.old { inner = record self.old.inner { events = self.new.inner.events; driver = self.new.inner.driver } } }
        ensures ok { OnOk result ((self.new.inner.events.items ≡ self.old.inner.events.items ++ event ∷ []) × (self.new.inner.driver ≡ None)) }
        ensures err { OnErr result ((self.new.inner.events.items ≡ self.old.inner.events.items) × (self.new.inner.driver ≡ self.old.inner.driver)) }
    {
        self.inner.push_event(event)
    }

    /// What the endpoint is to be told next. None exactly if nothing is left to be told.
    pub fn pop_endpoint_event(&mut self) -> Option<EndpointEvent>
        ensures told { IsEndpointTold self.old.inner.connection self.new.inner.connection result }
        ensures rest { self.new ≡ record self.old { inner = record self.old.inner { connection = self.new.inner.connection } } }
        ensures kept { IsKept self.old.inner self.new.inner }
    {
        self.inner.pop_endpoint_event()
    }

    /// When the driver has something to do, if nothing else comes. None exactly if nothing is due.
    pub fn poll_timeout(&self) -> Option<Moment>
        ensures { MatchOption result ((moment : ℕ) → IsDueAt self.now.inner.connection moment → ⊥) (λ t. IsFirstDue self.now.inner.connection t.0) }
    {
        self.inner.connection.poll_timeout()
    }

    /// Makes a call that never waits.
    pub fn act(&mut self, call: Call) -> Result<Reply<Told<S::HandshakeData>>, Memory>
        requires unpolled { IsPolled call → ⊥ }
        requires no_turn { IsDrive call → ⊥ }
        ensures value { MatchResult result (λ r. IsMade call r self.old.inner self.new.inner × Records (TellsAt S.knows S.name S.told self.old.inner call) call r self.old.history self.new.history) (λ _. IsUnmade self.old.inner self.new.inner × (self.new.history ≡ self.old.history)) }
        ensures ready { IfOk result (λ r. r ≡ reply.Pending → ⊥) }
        ensures free { IsFreeAt self.old call → IsOk result }
        ensures rest { KeepsTurns self.old.inner self.new.inner }
        ensures tells { IsTelling call → IfOk result (λ r. TellsOf S.knows S.name S.told self.old.inner.connection self.old.inner.error call r) }
    {
        match &mut self.history {
            Some(history) => self.inner.plain_kept(history, call),
            None => self.inner.plain(call),
        }
    }

    /// Makes a call that may have to wait, with a context to wait by.
    pub fn poll_act(
        &mut self,
        call: Call,
        cx: &mut Context<'_>,
    ) -> Result<Reply<Told<S::HandshakeData>>, Memory>
        requires { IsDrive call → ⊥ }
        ensures value { MatchResult result (λ r. IsMade call r self.old.inner self.new.inner × Records (TellsAt S.knows S.name S.told self.old.inner call) call r self.old.history self.new.history) (λ _. IsUnmade self.old.inner self.new.inner × (self.new.history ≡ self.old.history)) }
        ensures free { IsFreeAt self.old call → IsOk result }
        ensures rest { KeepsTurns self.old.inner self.new.inner }
        ensures tells { IsTelling call → IfOk result (λ r. TellsOf S.knows S.name S.told self.old.inner.connection self.old.inner.error call r) }
        ensures armed { IfOk result (λ r. r ≡ reply.Pending → IsArmed cx.new) }
        ensures heard { IfOk result (λ r. r ≡ reply.Pending → (i : AnInterest) → interest_of call ≡ Some i → IsHeard i cx.old cx.new self.new.inner.waiting.items) }
        ensures others { IfOk result (λ r. r ≡ reply.Pending → (i : AnInterest) → interest_of call ≡ Some i → KeepsOthers i cx.old.turn.task self.old.inner.waiting.items self.new.inner.waiting.items) }
        ensures kept { Keeps cx.old cx.new }
    {
        match &mut self.history {
            Some(history) => self.inner.polled_kept(history, call, cx),
            None => self.inner.polled(call, cx),
        }
    }
}

impl<S: Session> At for State<S>
where
    S::HandshakeData: Drop,
{
    type HandshakeData = S::HandshakeData;

    ghost use Rattle.std.specs.Prelude.{List};
    ghost use Rattle.qh_quinn.specs.Acting.{IsMade, IsTelling, IsUnmade, KeepsTurns};
    ghost use Rattle.qh_quinn.specs.Kept.{IsFreeAt, TurnsKept};
    ghost use Rattle.qh_quinn.specs.Recording.{Records, TellsAt};
    ghost use Rattle.qh_quinn.specs.Told.{TellsOf};
    ghost use Rattle.qh_quinn.specs.Turning.{HasSentAll, IsTurned};
    ghost use Rattle.qh_quinn.specs.Waiting.{HearsDriver};
    ghost use Rattle.futures.specs.declared.task.Poll.TheVariants as polls;
    ghost use Rattle.qh_handles.specs.declared.told.Told.{Told as AToldValue};

    ghost acts = { λ s c r t. IsMade c r s.inner t.inner × Records (TellsAt S.knows S.name S.told s.inner c) c r s.history t.history × KeepsTurns s.inner t.inner × (IsTelling c → TellsOf S.knows S.name S.told s.inner.connection s.inner.error c r) };

    ghost stays = { λ s t. IsUnmade s.inner t.inner × (t.history ≡ s.history) × KeepsTurns s.inner t.inner };

    ghost takes_none = { λ s c. IsFreeAt s c };

    ghost drives = { λ s now held out answer going before after t. TurnsKept (record { name = S.name; knows = S.knows; key = S.key; sealed = S.sealed; accepts = S.accepts }) s now held out answer t × (answer ≡ polls.Pending → going ≡ false → HearsDriver t.inner.driver before after) };

    ghost is_sent = { λ s. HasSentAll s.inner };

    fn act(
        &mut self,
        call: Call,
        cx: Option<&mut Context<'_>>,
    ) -> Result<Reply<Told<S::HandshakeData>>, Memory> {
        match cx {
            Some(cx) => self.poll_act(call, cx),
            None => State::act(self, call),
        }
    }

    fn drive<X: AsyncUdpSocket>(
        &mut self,
        part: &mut DriverPart<X>,
        socket: &mut X,
        now: Moment,
        cx: &mut Context<'_>,
    ) -> Poll<Result<(), IoFault>> {
        match &mut self.history {
            Some(history) => self.inner.turn_kept(history, part, socket, now, cx),
            None => self.inner.turn(part, socket, now, cx),
        }
    }

    ghost fits = { λ x y c r h. h.0.fits };
}
