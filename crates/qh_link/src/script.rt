ghost use Rattle.std.specs.Prelude.{◌≡◌, ◌+◌, ◌-◌, ◌^◌, ◌<◌, ◌≤◌, ◌++◌, ◌∷◌, [], ℕ, true, false, List, Some, min, take, drop, option_map, OnOk, OnErr, IfOk, IfErr, IfSome, MatchResult, nat_lt, if◌then◌else◌, length, All};
ghost use Rattle.qh_spec.specs.Fault.{CountsFaults};
ghost use Rattle.qh_spec.specs.Link.{told, moments_of, other};
ghost use Rattle.qh_spec.specs.Schedule.{IsScheduled, IsUpset, is_failing as failing_of, next_for, moment_of as scheduled_moment, send_count, round_count, copies_of as copies_by};
ghost use Rattle.qh_link.specs.Link.{send_events, round_events, round_moments, take_events, has_failed, is_failed, taken};
ghost use Rattle.qh_link.specs.ScriptLink.{PlainLink, plan_of};
ghost use Rattle.qh_spec.specs.declared.link.Event.TheVariants.{Sent, Round, Fault};
ghost use Rattle.qh_link.specs.declared.link.LinkFault.TheVariants.{Memory as OutOfMemory};

use crate::link::{Link, LinkFault, MAX_DATAGRAM};
use crate::schedule::{copies_of, delay_of, is_failing};
use crate::ways::Ways;
use bytes::Bytes;
use qh_base::{Memory, Moment, Side};
use qh_spec::{Event, Upset};
use std::alloc::{AllocError, Global};
use std::marker::Model;

/// A link in memory with a step and a schedule. What is sent in a round comes in the next one, in order, but for what
/// the schedule says.
#[derive(Drop)]
pub struct ScriptLink {
    // Milliseconds from round to round.
    step: u64,
    schedule: Vec<Upset>,
    events: Vec<Event>,
    // How many rounds began.
    round: u64,
    // How many sends were made, those that failed among them.
    sends: u64,
    faults: u64,
    ways: Ways,
}

impl Model for ScriptLink {
    ghost use Rattle.qh_link.specs.ScriptLink.{PlainLink, IsKept};

    ghost Value = { PlainLink };

    ghost view = { λ l. record { step = l.step; schedule = l.schedule.items; events = l.events.items; faults = l.faults } };

    ghost invariant = { λ l. IsKept l.step l.schedule.items l.events.items l.round l.sends l.ways };
}

impl ScriptLink {
    /// A link whose rounds are `step` milliseconds apart, before anything happened on it, with an empty schedule.
    pub fn new(alloc: Global, step: u64) -> ScriptLink
        requires { step ≤ 10000 }
        ensures { result ≡ record { step = step; schedule = []; events = []; faults = 0 } }
    {
        ScriptLink {
            step,
            schedule: Vec::new(alloc),
            events: Vec::new(alloc),
            round: 0,
            sends: 0,
            faults: 0,
            ways: Ways::new(alloc),
        }
    }

    /// A link with this schedule, before anything happened on it. `is_valid_upset` tests whether an entry is in range.
    pub fn scheduled(alloc: Global, step: u64, schedule: Vec<Upset>) -> ScriptLink
        requires step { step ≤ 10000 }
        requires valid { All IsUpset schedule.items }
        ensures { result ≡ record { step = step; schedule = schedule.items; events = []; faults = 0 } }
    {
        ScriptLink {
            step,
            schedule,
            events: Vec::new(alloc),
            round: 0,
            sends: 0,
            faults: 0,
            ways: Ways::new(alloc),
        }
    }

    /// Adds an entry to the schedule, before anything happened on the link. `is_valid_upset` tests whether the entry is
    /// in range.
    pub fn upset(&mut self, upset: Upset) -> Result<(), Memory>
        requires unused { self.old.events ≡ [] }
        requires valid { IsUpset upset }
        ensures ok { OnOk result (self.new ≡ record self.old { schedule = self.old.schedule ++ upset ∷ [] }) }
        ensures err { OnErr result (self.new ≡ self.old) }
    {
        self.schedule.push(upset)?;
        Ok(())
    }

    /// What happened on the link, in order.
    pub fn events(&self) -> &[Event]
        ensures value { result.now ≡ self.now.events }
        ensures scheduled { IsScheduled self.now.step self.now.schedule self.now.events }
    {
        &self.events
    }

    // Whether the next send fails.
    fn fails_next(&self) -> bool
        ensures { result ≡ failing_of self.now.schedule (send_count self.now.events + 1) }
    {
        is_failing(&self.schedule, self.sends + 1)
    }

    // Lets a send fail.
    fn fail(&mut self) -> Result<(), AllocError>
        requires { failing_of self.old.schedule (send_count self.old.events + 1) ≡ true }
        ensures ok { OnOk result (self.new
            ≡ record self.old { events = self.old.events ++ Fault ∷ []; faults = min (2 ^ 64 - 1) (self.old.faults + 1) }) }
        ensures counts { OnOk result (CountsFaults self.old.faults self.new.faults true) }
        ensures err { OnErr result (self.new ≡ self.old) }
    {
        self.events.push(Event::Fault)?;
        self.sends += 1;
        self.faults = self.faults.saturating_add(1);
        Ok(())
    }

    // Takes a datagram from an end, and puts it on its way to the other.
    fn carry(&mut self, alloc: Global, from: Side, datagram: &[u8]) -> Result<(), AllocError>
        requires { failing_of self.old.schedule (send_count self.old.events + 1) ≡ false }
        ensures ok { OnOk result (self.new ≡ record self.old { events = self.old.events ++ Sent from datagram.now ∷ [] }) }
        ensures err { OnErr result (self.new ≡ self.old) }
    {
        let number = self.sends + 1;
        let copies = copies_that_fit(&self.schedule, number, datagram);
        let round = self.round + 1 + delay_of(&self.schedule, number);
        let sent = Bytes::copy_from_slice(alloc, datagram)?;
        self.events.try_reserve(1)?;
        self.ways.put(alloc, other_end(from), copies, round, &sent)?;
        let event = Event::Sent {
            side: from,
            datagram: sent,
        };
        self.events.push(event).unwrap();
        self.sends = number;
        Ok(())
    }
}

// The end that a side sends to.
fn other_end(side: Side) -> Side
    ensures { result ≡ other side }
{
    match side {
        Side::Client => Side::Server,
        Side::Server => Side::Client,
    }
}

// In how many copies a datagram comes, where one that is too long doesn't come.
fn copies_that_fit(schedule: &[Upset], number: u64, datagram: &[u8]) -> usize
    requires { All IsUpset schedule.now }
    ensures { result
        ≡ (if nat_lt 2048 (length datagram.now) then 0 else copies_by schedule.now number) }
{
    if datagram.len() > MAX_DATAGRAM {
        return 0;
    }
    copies_of(schedule, number)
}

// Writes the datagram into the front of the slice, and answers its length.
fn write_front(datagram: &[u8], buf: &mut [u8]) -> usize
    requires { length datagram.now ≤ length buf.old }
    ensures value { result ≡ length datagram.now }
    ensures front { take (length datagram.now) buf.new ≡ datagram.now }
    ensures rest { drop (length datagram.now) buf.new ≡ drop (length datagram.now) buf.old }
{
    buf[..datagram.len()].copy_from_slice(datagram);
    datagram.len()
}

// The moment of a round.
pub(crate) fn moment_of(step: u64, round: u64) -> Moment
    requires { step ≤ 10000 }
    ensures { result.0 ≡ scheduled_moment step round }
{
    const LAST: u64 = (1 << 62) - 1;
    Moment(round.saturating_mul(step * 1_000_000).min(LAST))
}

impl Link for ScriptLink {
    ghost events = { λ l. Some l.events };

    ghost moments = { λ l. moments_of l.events };

    ghost faults = { λ l. l.faults };

    ghost plan = { plan_of };

    ghost same_rounds = { λ l es e. cc };

    /// A send fails where the schedule says so.
    fn send(&mut self, alloc: Global, from: Side, datagram: &[u8]) -> Result<(), LinkFault>
        ensures events { Some self.new.events ≡ told (Some self.old.events) (send_events from datagram.now result) }
        ensures moments { moments_of self.new.events ≡ moments_of self.old.events }
        ensures cause { CountsFaults self.old.faults self.new.faults (has_failed result) }
        ensures plan { plan_of self.new ≡ plan_of self.old }
        ensures exact { MatchResult result
            (λ _. failing_of self.old.schedule (send_count self.old.events + 1) ≡ false)
            (λ e. is_failed e ≡ true → failing_of self.old.schedule (send_count self.old.events + 1) ≡ true) }
        ensures kept { (self.new.step ≡ self.old.step) × (self.new.schedule ≡ self.old.schedule) }
        ensures counted { self.new.faults
            ≡ (if has_failed result then min (2 ^ 64 - 1) (self.old.faults + 1) else self.old.faults) }
        ensures memory { IfErr result (λ e. e ≡ OutOfMemory → self.new ≡ self.old) }
    {
        if self.fails_next() {
            self.fail()?;
            return Err(LinkFault::Failed);
        }
        self.carry(alloc, from, datagram)?;
        Ok(())
    }

    /// The moment is the round's number times the step, or the last moment below 2^62 nanoseconds.
    fn next_round(&mut self, alloc: Global) -> Result<Moment, LinkFault>
        ensures events { Some self.new.events ≡ told (Some self.old.events) (round_events result) }
        ensures moments { moments_of self.new.events ≡ moments_of self.old.events ++ round_moments result }
        ensures order { IfOk result (λ moment. All (λ before. before ≤ moment.0) (moments_of self.old.events)) }
        ensures bound { IfOk result (λ moment. moment.0 < 2 ^ 62) }
        ensures cause { CountsFaults self.old.faults self.new.faults (has_failed result) }
        ensures plan { plan_of self.new ≡ plan_of self.old }
        ensures exact { IfOk result (λ moment. moment.0
            ≡ scheduled_moment self.old.step (round_count self.old.events + 1)) }
        ensures kept { (self.new.step ≡ self.old.step) × (self.new.schedule ≡ self.old.schedule)
            × (self.new.faults ≡ self.old.faults) }
        ensures memory { IfErr result (λ e. (e ≡ OutOfMemory) × (self.new ≡ self.old)) }
    {
        let round = self.round + 1;
        let moment = moment_of(self.step, round);
        self.events.try_reserve(1)?;
        self.ways.begin(alloc, &self.schedule, round)?;
        self.events.push(Event::Round { moment: moment.0 }).unwrap();
        self.round = round;
        Ok(moment)
    }

    /// Each datagram is given in the order of sending, first what is left of earlier rounds.
    fn take(&mut self, _alloc: Global, to: Side, buf: &mut [u8]) -> Result<Option<usize>, LinkFault>
        requires { MAX_DATAGRAM ≤ length buf.old }
        ensures events { Some self.new.events ≡ told (Some self.old.events) (take_events to buf.new result) }
        ensures moments { moments_of self.new.events ≡ moments_of self.old.events }
        ensures fits { IfOk result (λ found. IfSome found (λ n. n ≤ length buf.new)) }
        ensures cause { CountsFaults self.old.faults self.new.faults (has_failed result) }
        ensures plan { plan_of self.new ≡ plan_of self.old }
        ensures exact { IfOk result (λ found. next_for self.old.schedule self.old.events to
            ≡ option_map (λ n. take n buf.new) found) }
        ensures rest { drop (taken result) buf.new ≡ drop (taken result) buf.old }
        ensures kept { (self.new.step ≡ self.old.step) × (self.new.schedule ≡ self.old.schedule)
            × (self.new.faults ≡ self.old.faults) }
        ensures memory { IfErr result (λ e. (e ≡ OutOfMemory) × (self.new ≡ self.old)) }
    {
        self.events.try_reserve(1)?;
        let Some(datagram) = self.ways.pop(to) else {
            self.events.push(Event::Dry { side: to }).unwrap();
            return Ok(None);
        };
        let len = write_front(&datagram, buf);
        let event = Event::Given { side: to, datagram };
        self.events.push(event).unwrap();
        Ok(Some(len))
    }
}
