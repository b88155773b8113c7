ghost use Rattle.std.specs.Prelude.{◌≡◌, ◌+◌, ◌≤◌, ◌++◌, ◌∷◌, ◌||◌, [], List, length, drop, take, map, filter, not, nat_lt, is_some, vec_len, vec_capacity, OnOk, OnErr};
ghost use Rattle.qh_control.specs.Queue.{AreAcknowledged, AreLost, StaySendable, is_retire as is_retire_by, retires, sent_in};
ghost use Rattle.qh_core.specs.declared.control.ControlFrame.{ControlFrame as AFrame};
ghost use Rattle.qh_recovery.specs.SentPackets.{packet_at};

use qh_base::Memory;
use qh_core::{Connection, ControlFrame, Session};
use qh_frame::{Ack, AckRange};
use std::alloc::Global;
use std::marker::Model;

/// A frame that is out.
#[derive(Drop)]
pub struct SentControl {
    /// The number of its packet.
    pub number: u64,
    pub frame: ControlFrame,
}

/// Frames of a connection's own that wait to be sent, and those that are out: sent, and neither acknowledged nor lost (RFC 9000, section
/// 13.3). There are few: an end has at most eight ids at a time, and takes no further one while 80 retirements aren't acknowledged; tokens are
/// as many as the application queues.
#[derive(Drop)]
pub struct ControlQueue {
    waiting: Vec<ControlFrame>,
    sent: Vec<SentControl>,
}

impl Model for ControlQueue {
    ghost use Rattle.std.specs.Prelude.{◌-◌, vec_len, vec_capacity};
    ghost use Rattle.qh_control.specs.Queue.{PlainQueue};

    ghost Value = { PlainQueue };

    ghost view = { λ q. record { waiting = q.waiting.items; sent = q.sent.items; room = vec_capacity q.sent - vec_len q.sent } };
}

impl ControlQueue {
    /// No frame waits or is out.
    pub fn new(alloc: Global) -> ControlQueue
        ensures { (result.waiting ≡ []) × (result.sent ≡ []) }
    {
        ControlQueue {
            waiting: Vec::new(alloc),
            sent: Vec::new(alloc),
        }
    }

    /// A frame waits to be sent, behind those that do. For want of memory nothing changes.
    pub fn push(&mut self, frame: ControlFrame) -> Result<(), Memory>
        ensures ok { OnOk result (self.new ≡ record self.old { waiting = self.old.waiting ++ frame ∷ [] }) }
        ensures err { OnErr result (self.new ≡ self.old) }
    {
        self.waiting.push(frame)?;
        Ok(())
    }

    // The frame that was queued last waits no more.
    pub(crate) fn take_back(&mut self)
        ensures { (frames : List AFrame) (last : AFrame) → self.old.waiting ≡ frames ++ last ∷ [] → self.new ≡ record self.old { waiting = frames } }
    {
        self.waiting.pop();
    }

    /// The frames that wait, in the order in which they are to be sent.
    pub fn waiting(&self) -> &[ControlFrame]
        ensures { result.now ≡ self.now.waiting }
    {
        self.waiting.as_slice()
    }

    /// How many RETIRE_CONNECTION_ID frames aren't acknowledged yet.
    pub fn retires(&self) -> usize
        ensures { result ≡ retires self.now }
    {
        waiting_retires(&self.waiting) + sent_retires(&self.sent)
    }

    /// Takes memory for what waits, so that `on_sent` needs none.
    pub fn reserve(&mut self) -> Result<(), Memory>
        ensures ok { OnOk result (length self.new.waiting ≤ self.new.room) }
        ensures rest { self.new ≡ record self.old { room = self.new.room } }
    {
        self.sent.try_reserve(self.waiting.len())?;
        Ok(())
    }

    /// The first `count` frames that wait went out in the packet with this number. It takes no memory.
    pub fn on_sent(&mut self, number: u64, count: usize)
        requires some { count ≤ length self.old.waiting }
        requires room { count ≤ self.old.room }
        ensures sent { self.new ≡ record self.old { waiting = drop count self.old.waiting; sent = self.old.sent ++ map (sent_in number) (take count self.old.waiting); room = self.new.room } }
        ensures sendable { StaySendable self.old self.new }
    {
        move_sent(&mut self.waiting, &mut self.sent, number, count);
    }

    /// An ACK came: the frames in packets that it covers are out no more (RFC 9002, section 6).
    pub fn on_ack(&mut self, ack: &Ack<'_>)
        ensures left { AreAcknowledged ack.now self.old self.new }
        ensures sendable { StaySendable self.old self.new }
    {
        if self.sent.is_empty() {
            return;
        }
        let (range, mut rest) = ack.split();
        self.take_range(range);
        while let Some(ranges) = rest {
            let (range, below) = ranges.split();
            self.take_range(range);
            rest = below;
        }
    }

    // The frames in the packets of a range are out no more.
    fn take_range(&mut self, range: AckRange)
        ensures { self.new ≡ record self.old { sent = filter (λ s. nat_lt s.number range.least || nat_lt range.greatest s.number) self.old.sent; room = self.new.room } }
    {
        self.sent.retain(|sent| sent.number < range.least || range.greatest < sent.number);
    }

    /// The frames whose packets are out no more were lost, and wait again, behind those that do (RFC 9000, section 13.3). For want of
    /// memory nothing changes.
    pub fn on_lost<S: Session>(&mut self, core: &Connection<S>) -> Result<(), Memory>
        ensures ok { OnOk result (AreLost (λ number. is_some (packet_at core.now.space.sent number)) self.old self.new) }
        ensures err { OnErr result (self.new ≡ self.old) }
        ensures sendable { StaySendable self.old self.new }
    {
        self.waiting.try_reserve(count_lost(&self.sent, core))?;
        move_lost(&mut self.sent, &mut self.waiting, core);
        Ok(())
    }
}

// Whether it is a RETIRE_CONNECTION_ID frame.
fn is_retire(frame: &ControlFrame) -> bool
    ensures { result ≡ is_retire_by frame.now }
{
    matches!(frame, ControlFrame::RetireConnectionId { .. })
}

// How many of them are.
fn waiting_retires(frames: &[ControlFrame]) -> usize
    ensures count { result ≡ length (filter is_retire_by frames.now) }
    ensures within { result ≤ length frames.now }
{
    frames.iter().filter(|frame| is_retire(frame)).count()
}

// How many of those that are out are.
fn sent_retires(sent: &[SentControl]) -> usize
    ensures count { result ≡ length (filter (λ s. is_retire_by s.frame) sent.now) }
    ensures within { result ≤ length sent.now }
{
    sent.iter().filter(|sent| is_retire(&sent.frame)).count()
}

// The first `count` frames went out in the packet with this number.
fn move_sent(
    waiting: &mut Vec<ControlFrame>,
    sent: &mut Vec<SentControl>,
    number: u64,
    count: usize,
)
    requires some { count ≤ length waiting.old.items }
    requires room { vec_len sent.old + count ≤ vec_capacity sent.old }
    ensures waiting { waiting.new.items ≡ drop count waiting.old.items }
    ensures sent { sent.new.items ≡ sent.old.items ++ map (sent_in number) (take count waiting.old.items) }
{
    for _ in 0..count {
        let frame = waiting.remove(0);
        sent.push_reserved(SentControl { number, frame });
    }
}

// How many of the frames were lost.
fn count_lost<S: Session>(sent: &[SentControl], core: &Connection<S>) -> usize
    ensures { result ≡ length (filter (λ s. not (is_some (packet_at core.now.space.sent s.number))) sent.now) }
{
    sent.iter().filter(|sent| !core.is_out(sent.number)).count()
}

// The frames that were lost wait again.
fn move_lost<S: Session>(
    sent: &mut Vec<SentControl>,
    waiting: &mut Vec<ControlFrame>,
    core: &Connection<S>,
)
    requires { vec_len waiting.old + length (filter (λ s. not (is_some (packet_at core.now.space.sent s.number))) sent.old.items) ≤ vec_capacity waiting.old }
    ensures sent { sent.new.items ≡ filter (λ s. is_some (packet_at core.now.space.sent s.number)) sent.old.items }
    ensures waiting { waiting.new.items ≡ waiting.old.items ++ map (λ s. s.frame) (filter (λ s. not (is_some (packet_at core.now.space.sent s.number))) sent.old.items) }
{
    let mut index = 0;
    for _ in 0..sent.len() {
        if core.is_out(sent[index].number) {
            index += 1;
        } else {
            let lost = sent.remove(index);
            waiting.push_reserved(lost.frame);
        }
    }
}
