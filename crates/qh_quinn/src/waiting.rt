ghost use Rattle.std.specs.Prelude.{◌≡◌, ◌≢◌, ◌⊎◌, ℕ, ◌<◌, ◌||◌, Bool, [], true, length, slice_get, None, Some, IfSome, IsSomeAnd, vec_capacity, vec_len};
ghost use Rattle.futures.specs.Task.{IsArmed, Keeps, Wakes};
ghost use Rattle.qh_book.specs.Interests.{interest_of, is_same, is_same_dir};
ghost use Rattle.qh_book.specs.declared.interest.Interest.{Interest as AnInterest};
ghost use Rattle.qh_quinn.specs.Waiting.{IsHeard, KeepsOthers, interests_in, is_among, nudged_at, nudged_if};

use futures::task::{Context, Poll, Source, Waker};
use qh_base::Dir;
use qh_book::{Call, Interest, interests_are_a_set};

/// A task that waits for a call to have a reply.
#[derive(Drop)]
pub struct Waiting {
    pub interest: Interest,
    /// The task's number with its executor.
    pub task: usize,
    /// It wakes the task, also when it is dropped.
    pub waker: Option<Waker>,
}

// Where the task stands that waits for this call, if it does.
fn place(waiting: &[Waiting], interest: Interest, task: usize) -> Option<usize>
    ensures { IfSome result (λ at. IsSomeAnd (slice_get waiting.now at) (λ w. (is_same w.interest interest ≡ true) × (w.task ≡ task))) }
{
    for at in 0..waiting.len() {
        if waiting[at].task == task && is_same(waiting[at].interest, interest) {
            return Some(at);
        }
    }
    None
}

// The task at a place waits.
fn arm(waiting: &mut [Waiting], at: usize, source: &Source, cx: &mut Context<'_>)
    requires { at < length waiting.old }
    ensures same { interests_in waiting.new ≡ interests_in waiting.old }
    ensures heard { (cx.new.lacks_waker ≡ true) ⊎ IsSomeAnd (slice_get waiting.new at) (λ w. IsSomeAnd w.waker (λ k. Wakes k cx.old)) }
    ensures others { (k : ℕ) → k ≢ at → slice_get waiting.new k ≡ slice_get waiting.old k }
    ensures armed { IsArmed cx.new }
    ensures kept { Keeps cx.old cx.new }
{
    let _pending: Poll<()> = cx.register(source, &mut waiting[at].waker);
}

/// The call waits, and the task with it. There is room for it.
pub fn register(
    waiting: &mut Vec<Waiting>,
    source: &Source,
    interest: Interest,
    cx: &mut Context<'_>,
)
    requires { vec_len waiting.old < vec_capacity waiting.old }
    ensures interests { (i : AnInterest) → is_among i waiting.new.items ≡ (is_among i waiting.old.items || is_same interest i) }
    ensures heard { IsHeard interest cx.old cx.new waiting.new.items }
    ensures others { KeepsOthers interest cx.old.turn.task waiting.old.items waiting.new.items }
    ensures armed { IsArmed cx.new }
    ensures kept { Keeps cx.old cx.new }
{
    interests_are_a_set();
    let task = cx.task();
    if let Some(at) = place(waiting.as_slice(), interest, task) {
        arm(waiting.as_mut_slice(), at, source, cx);
        return;
    }
    let at = waiting.len();
    waiting.push_reserved(Waiting {
        interest,
        task,
        waker: None,
    });
    arm(waiting.as_mut_slice(), at, source, cx);
}

/// The tasks are woken that wait for what the handshake tells. As far as the book goes they wait still.
pub fn nudge_handshake(waiting: &mut Vec<Waiting>)
    ensures { waiting.new.items ≡ nudged_if true waiting.old.items }
{
    nudge_all(waiting.as_mut_slice());
}

fn nudge_all(waiting: &mut [Waiting])
    ensures { waiting.new ≡ nudged_if true waiting.old }
{
    for at in 0..waiting.len() {
        nudge(waiting, at);
    }
}

// The task at a place is woken, if it waits for what the handshake tells.
fn nudge(waiting: &mut [Waiting], at: usize)
    requires { at < length waiting.old }
    ensures { waiting.new ≡ nudged_at at waiting.old }
{
    if let Interest::HandshakeData = waiting[at].interest {
        waiting[at].waker = None;
    }
}

/// Whether two calls that wait are the same.
pub fn is_same(one: Interest, other: Interest) -> bool
    ensures { result ≡ is_same one other }
{
    match (one, other) {
        (Interest::Connecting, Interest::Connecting)
        | (Interest::HandshakeData, Interest::HandshakeData)
        | (Interest::ReadDatagram, Interest::ReadDatagram)
        | (Interest::Closed, Interest::Closed) => true,
        (Interest::Open(dir), Interest::Open(other))
        | (Interest::Accept(dir), Interest::Accept(other)) => is_same_dir(dir, other),
        (
            Interest::Read { id, is_ordered },
            Interest::Read {
                id: other,
                is_ordered: order,
            },
        ) => id.0 == other.0 && is_ordered == order,
        (Interest::Write(id), Interest::Write(other))
        | (Interest::Stopped(id), Interest::Stopped(other))
        | (Interest::ReceivedReset(id), Interest::ReceivedReset(other)) => id.0 == other.0,
        (Interest::SendDatagram(size), Interest::SendDatagram(other)) => size == other,
        _ => false,
    }
}

fn is_same_dir(one: Dir, other: Dir) -> bool
    ensures { result ≡ is_same_dir one other }
{
    matches!((one, other), (Dir::Bi, Dir::Bi) | (Dir::Uni, Dir::Uni))
}

/// The call as one that waits. None of one that never does.
pub fn interest_of(call: &Call) -> Option<Interest>
    ensures { result ≡ interest_of call.now }
{
    match call {
        Call::Connecting => Some(Interest::Connecting),
        Call::HandshakeData => Some(Interest::HandshakeData),
        Call::Open(dir) => Some(Interest::Open(*dir)),
        Call::Accept(dir) => Some(Interest::Accept(*dir)),
        Call::Read {
            id,
            max_length,
            is_ordered,
        } => {
            if *max_length == 0 {
                return None;
            }
            Some(Interest::Read {
                id: *id,
                is_ordered: *is_ordered,
            })
        }
        Call::Write { id, .. } => Some(Interest::Write(*id)),
        Call::Stopped(id) => Some(Interest::Stopped(*id)),
        Call::ReceivedReset(id) => Some(Interest::ReceivedReset(*id)),
        Call::ReadDatagram => Some(Interest::ReadDatagram),
        Call::SendDatagram { payload, wait } => {
            if *wait {
                return Some(Interest::SendDatagram(payload.len()));
            }
            None
        }
        Call::Closed => Some(Interest::Closed),
        _ => None,
    }
}
