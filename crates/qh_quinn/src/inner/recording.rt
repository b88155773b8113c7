ghost use Rattle.std.specs.Prelude.{◌≡◌, ◌⊎◌, ◌+◌, ◌≤◌, ◌<◌, ◌-◌, ◌∷◌, ◌++◌, [], true, false, is_some, length, Err, List, MatchResult, None, Some, map, IfErr, IfOk, IfSome, IsOk, OnErr, OnOk, vec_len, vec_capacity};
ghost use Rattle.futures.specs.Poll.{IfReady, OnPending};
ghost use Rattle.futures.specs.Task.{IsArmed, Keeps};
ghost use Rattle.futures.specs.declared.task.Poll.TheVariants as polls;
ghost use Rattle.qh_book.specs.Interests.{interest_of};
ghost use Rattle.qh_book.specs.declared.interest.Interest.{Interest as AnInterest};
ghost use Rattle.qh_book.specs.declared.call.Call.TheVariants as calls;
ghost use Rattle.qh_book.specs.declared.reply.Reply.{Reply as AReply};
ghost use Rattle.qh_book.specs.declared.reply.Reply.TheVariants as replies;
ghost use Rattle.qh_conn.specs.Items.{came};
ghost use Rattle.qh_conn.specs.Whole.{IsWhole};
ghost use Rattle.qh_control.specs.declared.items.ConnectionItem.{ConnectionItem as AnItem};
ghost use Rattle.qh_handles.specs.Told.{IsDrive, IsPolled, MayReply, is_of_getter};
ghost use Rattle.qh_handles.specs.Turns.{AreReady, AreSent, HasCause, IsFull, IsTurnFault, turn_reply};
ghost use Rattle.qh_handles.specs.declared.told.Told.{Told as AToldValue};
ghost use Rattle.qh_quinn.specs.Acting.{IsMade, IsTelling, IsUnmade, KeepsTurns};
ghost use Rattle.qh_quinn.specs.Kept.{HasHistory, IsLogTaken, IsTurnKeptIn};
ghost use Rattle.qh_quinn.specs.Losses.{is_newly_lost, lost_items, new_loss};
ghost use Rattle.qh_quinn.specs.Recording.{EndsOne, EndsOneOf, HasTold, IsLonger, IsUnused, TellsAt, again, items_kept, payload_of};
ghost use Rattle.qh_quinn.specs.States.{IsState};
ghost use Rattle.qh_quinn.specs.Told.{IsValue, TellsOf};
ghost use Rattle.qh_quinn.specs.Turning.{HasSentAll};
ghost use Rattle.qh_quinn.specs.Waiting.{HearsDriver, IsHeard, KeepsOthers};
ghost use Rattle.qh_quinn.specs.declared.inner.StateInner.{StateInner as AState};
ghost use Rattle.qh_runtime.specs.Socket.{poll_failed};
ghost use Rattle.qh_runtime.specs.declared.runtime.IoFault.TheVariants as faults;
ghost use Rattle.qh_runtime.specs.declared.runtime.OutMessage.{OutMessage as AnOutMessage};
ghost use Rattle.qh_shown.specs.Connections.{is_wanting};
ghost use Rattle.qh_shown.specs.Items.{item_of};
ghost use Rattle.std.specs.Option.{option_map};

use super::{StateInner, kept_error};
use crate::history::{History, Room};
use crate::readers::Readers;
use futures::task::{Context, Poll};
use qh_base::{ConnectionError, Memory, Moment};
use qh_book::{Call, Getter, Reply};
use qh_handles::{DriverPart, Told};
use qh_packet::Session;
use qh_runtime::{AsyncUdpSocket, IoFault};

/// What a turn may change of why the connection is lost.
#[derive(Clone, Copy)]
pub(crate) struct Standing {
    is_lost: bool,
    is_emptied: bool,
}

impl<S: Session> StateInner<S>
where
    S::HandshakeData: Drop,
{
    // Makes a call that never waits, and keeps its entry.
    pub(crate) fn plain_kept(
        &mut self,
        history: &mut History<Told<S::HandshakeData>>,
        call: Call,
    ) -> Result<Reply<Told<S::HandshakeData>>, Memory>
        requires state { IsState self.old }
        requires kept { HasHistory self.old (Some history.old) }
        requires unpolled { IsPolled call → ⊥ }
        requires no_turn { IsDrive call → ⊥ }
        ensures value { MatchResult result (λ r. IsMade call r self.old self.new × IsLonger (TellsAt S.knows S.name S.told self.old call) call r history.old.entries.items history.new.entries.items) (λ _. IsUnmade self.old self.new × (history.new.entries.items ≡ history.old.entries.items)) }
        ensures state { IsState self.new }
        ensures kept { HasHistory self.new (Some history.new) }
        ensures ready { IfOk result (λ r. r ≡ replies.Pending → ⊥) }
        ensures free { EndsOne self.old call → IsOk result }
        ensures tells { IsTelling call → IfOk result (λ r. TellsOf S.knows S.name S.told self.old.connection self.old.error call r) }
        ensures rest { KeepsTurns self.old self.new }
    {
        let room = self.room(history, &call)?;
        let told = self.told(&call);
        let reply = self.plain(call)?;
        history.push(self.alloc, room, &reply, told);
        Ok(reply)
    }

    // Makes a call that may have to wait, with a context to wait by, and keeps its entry.
    pub(crate) fn polled_kept(
        &mut self,
        history: &mut History<Told<S::HandshakeData>>,
        call: Call,
        cx: &mut Context<'_>,
    ) -> Result<Reply<Told<S::HandshakeData>>, Memory>
        requires state { IsState self.old }
        requires kept { HasHistory self.old (Some history.old) }
        requires no_turn { IsDrive call → ⊥ }
        ensures value { MatchResult result (λ r. IsMade call r self.old self.new × IsLonger (TellsAt S.knows S.name S.told self.old call) call r history.old.entries.items history.new.entries.items) (λ _. IsUnmade self.old self.new × (history.new.entries.items ≡ history.old.entries.items)) }
        ensures state { IsState self.new }
        ensures kept { HasHistory self.new (Some history.new) }
        ensures free { EndsOne self.old call → IsOk result }
        ensures tells { IsTelling call → IfOk result (λ r. TellsOf S.knows S.name S.told self.old.connection self.old.error call r) }
        ensures rest { KeepsTurns self.old self.new }
        ensures armed { IfOk result (λ r. r ≡ replies.Pending → IsArmed cx.new) }
        ensures heard { IfOk result (λ r. r ≡ replies.Pending → (i : AnInterest) → interest_of call ≡ Some i → IsHeard i cx.old cx.new self.new.waiting.items) }
        ensures others { IfOk result (λ r. r ≡ replies.Pending → (i : AnInterest) → interest_of call ≡ Some i → KeepsOthers i cx.old.turn.task self.old.waiting.items self.new.waiting.items) }
        ensures kept_cx { Keeps cx.old cx.new }
    {
        let room = self.room(history, &call)?;
        let told = self.told(&call);
        let reply = self.polled(call, cx)?;
        history.push(self.alloc, room, &reply, told);
        Ok(reply)
    }

    // Makes a turn of the driver, and keeps its entry. For want of memory for that none is made.
    pub(crate) fn turn_kept<X: AsyncUdpSocket>(
        &mut self,
        history: &mut History<Told<S::HandshakeData>>,
        part: &mut DriverPart<X>,
        socket: &mut X,
        now: Moment,
        cx: &mut Context<'_>,
    ) -> Poll<Result<(), IoFault>>
        requires state { IsState self.old }
        requires kept { HasHistory self.old (Some history.old) }
        ensures turned { (out : List AnOutMessage) × (IsTurnKeptIn (record { name = S.name; knows = S.knows; key = S.key; sealed = S.sealed; accepts = S.accepts }) self.old history.old.entries.items now part.old.is_held out result self.new history.new.entries.items
            ⊎ ((result ≡ polls.Ready (Err faults.Memory)) × (out ≡ []) × (self.new ≡ self.old) × (history.new.entries.items ≡ history.old.entries.items)))
            × AreSent out (X.departed socket.old) (X.departed socket.new)
            × (AreReady X.never_blocks X.Poller.never_blocks socket.old part.old.poller → result ≡ polls.Pending → IsFull part.new.keeps_going out) }
        ensures state { IsState self.new }
        ensures kept { HasHistory self.new (Some history.new) }
        ensures arrived { X.arrived socket.new ≡ X.arrived socket.old }
        ensures cause { HasCause X.Poller.faults result (X.faults socket.old) (X.faults socket.new) part.old.made part.new.made part.old.poller part.new.poller }
        ensures sent { part.old.is_held ≡ false → AreReady X.never_blocks X.Poller.never_blocks socket.old part.old.poller → result ≡ polls.Pending → part.new.keeps_going ≡ false → HasSentAll self.new }
        ensures ready { AreReady X.never_blocks X.Poller.never_blocks socket.old part.old.poller → AreReady X.never_blocks X.Poller.never_blocks socket.new part.new.poller }
        ensures made { part.old.made ≤ part.new.made }
        ensures errors { IfReady result (λ r. IfErr r IsTurnFault) }
        ensures held { part.new.is_held ≡ part.old.is_held }
        ensures armed { OnPending result (IsArmed cx.new) }
        ensures heard { result ≡ polls.Pending → part.new.keeps_going ≡ false → HearsDriver self.new.driver cx.old cx.new }
        ensures kept_cx { Keeps cx.old cx.new }
    {
        if room_for_turn(self.handles, history).is_err() {
            return Poll::Ready(Err(IoFault::Memory));
        }
        let before = self.standing();
        let answer = self.turn(part, socket, now, cx);
        self.keep_turn(history, now, before, &answer);
        answer
    }

    // Room for the entry of a call, and for those of the ends of the handles that there are then.
    pub(crate) fn room(
        &self,
        history: &mut History<Told<S::HandshakeData>>,
        call: &Call,
    ) -> Result<Room, Memory>
        requires state { IsState self.now }
        requires slots { vec_len history.old.entries + self.now.handles ≤ vec_capacity history.old.entries }
        ensures same { history.new.entries.items ≡ history.old.entries.items }
        ensures kept { vec_len history.new.entries + self.now.handles ≤ vec_capacity history.new.entries }
        ensures call { IfOk result (λ room. (room.call ≡ call.now) × (room.payload.items ≡ [])) }
        ensures enough { IfOk result (λ room. (r : AReply (AToldValue S.HandshakeData)) (new : AState S) → IsMade call.now r self.now new → (length (payload_of r) ≤ vec_capacity room.payload) × (vec_len history.new.entries + (1 + new.handles) ≤ vec_capacity history.new.entries)) }
        ensures free { EndsOne self.now call.now → IsOk result }
    {
        let bytes = self.payload_room(call);
        let Some(more) = handles_then(self.handles, &self.readers, call) else {
            return Err(Memory);
        };
        history.room(self.alloc, call, bytes, more as usize)
    }

    // How many bytes the reply of a call has at most.
    fn payload_room(&self, call: &Call) -> usize
        requires { IsState self.now }
        ensures enough { (r : AReply (AToldValue S.HandshakeData)) (new : AState S) → IsMade call.now r self.now new → length (payload_of r) ≤ result }
        ensures none { EndsOne self.now call.now → result ≡ 0 }
    {
        match call {
            Call::Read {
                id,
                max_length,
                is_ordered,
            } => self.connection.longest(*id, *max_length, *is_ordered),
            Call::ReadDatagram => match self.connection.incoming_front() {
                Some(payload) => payload.len(),
                None => 0,
            },
            _ => 0,
        }
    }

    // A value that the call is told and that the book doesn't have, if it is told one.
    pub(crate) fn told(&self, call: &Call) -> Option<Told<S::HandshakeData>>
        ensures has { (r : AReply (AToldValue S.HandshakeData)) → MayReply call.now r → HasTold r result }
        ensures again { (r : AReply (AToldValue S.HandshakeData)) → TellsAt S.knows S.name S.told self.now call.now r → TellsAt S.knows S.name S.told self.now call.now (again r result) }
    {
        match call {
            Call::HandshakeData => self.told_by(Getter::HandshakeData),
            Call::Get(getter) => self.told_by(*getter),
            _ => None,
        }
    }

    fn told_by(&self, getter: Getter) -> Option<Told<S::HandshakeData>>
        ensures some { (value : AToldValue S.HandshakeData) → is_of_getter getter value ≡ true → is_some result ≡ true }
        ensures is { IfSome result (λ value. (is_of_getter getter value ≡ true) × IsValue S.knows S.name S.told self.now.connection getter value) }
    {
        let connection = &self.connection;
        Some(match getter {
            Getter::Rtt => Told::Rtt(connection.rtt()),
            Getter::MinRtt => Told::MinRtt(connection.min_rtt()),
            Getter::Stats => Told::Stats(connection.stats()),
            Getter::CongestionState => Told::CongestionState(connection.congestion_state()),
            Getter::HandshakeData => { Told::HandshakeData(connection.session().handshake_data()) }
            _ => return None,
        })
    }

    pub(crate) fn standing(&self) -> Standing
        ensures { result ≡ record { is_lost = is_some self.now.error; is_emptied = is_wanting self.now.connection } }
    {
        Standing {
            is_lost: self.error.is_some(),
            is_emptied: self.is_emptied(),
        }
    }

    // Keeps the entry of a turn that was made, with what it brought. There is room for it.
    pub(crate) fn keep_turn(
        &mut self,
        history: &mut History<Told<S::HandshakeData>>,
        now: Moment,
        before: Standing,
        answer: &Poll<Result<(), IoFault>>,
    )
        requires state { IsState self.old }
        requires slot { vec_len history.old.entries < vec_capacity history.old.entries }
        ensures taken { IsLogTaken self.old self.new }
        ensures state { IsState self.new }
        ensures came { came self.new.connection ≡ option_map (λ _. []) (came self.old.connection) }
        ensures entry { (first : AState S) → before ≡ record { is_lost = is_some first.error; is_emptied = is_wanting first.connection } → (items : List AnItem) → came self.old.connection ≡ Some items
            → history.new.entries.items ≡ history.old.entries.items ++ record { call = calls.Drive now; reply = turn_reply answer.now; items = map item_of items ++ lost_items (new_loss (poll_failed answer.now) first self.old) } ∷ [] }
        ensures len { vec_len history.new.entries ≡ vec_len history.old.entries + 1 }
        ensures capacity { vec_capacity history.new.entries ≡ vec_capacity history.old.entries }
    {
        qh_shown::times_bring::<S>();
        let lost = self.lost_since(before, answer);
        let brought = match self.connection.take_log() {
            Some(entries) => entries,
            None => Vec::new(self.alloc),
        };
        history.push_turn(self.alloc, now, turn_reply(answer), brought, lost);
    }

    // Why the connection is lost, if it is lost by the turn that answered so.
    fn lost_since(
        &self,
        before: Standing,
        answer: &Poll<Result<(), IoFault>>,
    ) -> Option<ConnectionError>
        ensures { (first : AState S) → before ≡ record { is_lost = is_some first.error; is_emptied = is_wanting first.connection } → result ≡ new_loss (poll_failed answer.now) first self.now }
    {
        let has_failed = matches!(answer, Poll::Ready(Err(IoFault::Failed)));
        if has_failed || !before.is_lost || !before.is_emptied && self.is_emptied() {
            return kept_error(&self.error);
        }
        None
    }

    // The history of a state at which nothing was called yet: a turn brings what the connection holds.
    pub(crate) fn begin_history(&mut self) -> Result<History<Told<S::HandshakeData>>, Memory>
        requires state { IsState self.old }
        requires unused { IsUnused self.old }
        ensures taken { OnOk result (IsLogTaken self.old self.new) }
        ensures state { IsState self.new }
        ensures history { IfOk result (λ h. HasHistory self.new (Some h)) }
        ensures entry { IfOk result (λ h. (items : List AnItem) → came self.old.connection ≡ Some items → h.entries.items ≡ record { call = calls.Drive self.old.last_turn; reply = replies.Pending; items = map item_of items ++ lost_items self.old.error } ∷ []) }
        ensures err { OnErr result (self.new ≡ self.old) }
    {
        let mut history = History {
            entries: Vec::new(self.alloc),
        };
        room_for_turn(self.handles, &mut history)?;
        let lost = kept_error(&self.error);
        let brought = match self.connection.take_log() {
            Some(entries) => entries,
            None => Vec::new(self.alloc),
        };
        history.push_turn(self.alloc, self.last_turn, Reply::Pending, brought, lost);
        Ok(history)
    }
}

// The book's reply to a turn.
fn turn_reply<T>(answer: &Poll<Result<(), IoFault>>) -> Reply<T>
    ensures { result ≡ turn_reply answer.now }
{
    match answer {
        Poll::Pending => Reply::Pending,
        Poll::Ready(Ok(())) => Reply::Done,
        Poll::Ready(Err(IoFault::Failed)) => Reply::Failed,
        Poll::Ready(Err(_)) => Reply::Memory,
    }
}

// How many handles there are at most behind a call. None if they can't be counted.
fn handles_then(handles: u64, readers: &Readers, call: &Call) -> Option<u64>
    ensures ends { EndsOneOf handles readers.now call.now → result ≡ Some (handles - 1) }
    ensures other { (EndsOneOf handles readers.now call.now → ⊥) → IfSome result (λ n. n ≡ handles + 2) }
{
    if ends_one(handles, readers, call) {
        return Some(handles - 1);
    }
    handles.checked_add(2)
}

// Whether a call ends a handle that there is.
fn ends_one(handles: u64, readers: &Readers, call: &Call) -> bool
    ensures yes { result ≡ true → EndsOneOf handles readers.now call.now }
    ensures some { result ≡ true → 0 < handles }
    ensures no { result ≡ false → EndsOneOf handles readers.now call.now → ⊥ }
{
    match call {
        Call::EndSend(_) | Call::EndHandle => handles > 0,
        Call::EndRecv(id) => handles > 0 && readers.get(id.0).is_some(),
        _ => false,
    }
}

// Room for the entry of a turn, and for those of the ends of the handles that there are.
fn room_for_turn<T: Drop>(handles: u64, history: &mut History<T>) -> Result<(), Memory>
    ensures same { history.new.entries.items ≡ history.old.entries.items }
    ensures len { vec_len history.new.entries ≡ vec_len history.old.entries }
    ensures kept { vec_capacity history.old.entries ≤ vec_capacity history.new.entries }
    ensures room { OnOk result (vec_len history.new.entries + (1 + handles) ≤ vec_capacity history.new.entries) }
{
    let Some(count) = handles.checked_add(1) else {
        return Err(Memory);
    };
    history.entries.reserve(count as usize)?;
    Ok(())
}
