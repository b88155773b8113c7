ghost use Rattle.std.specs.Prelude.{◌≡◌, ◌+◌, ◌-◌, ◌*◌, ◌<◌, ◌^◌, ◌==◌, ◌≤◌, ◌&&◌, if◌then◌else◌, ℕ, OnErr, OnOk, IsOk, IfOk, IfSome, None, Some, true, false, MatchOption, length, min};
ghost use Rattle.std.specs.Ordering.{nat_cmp};
ghost use Rattle.std.specs.Map.{keys_of};
ghost use Rattle.std.specs.List.Sorted.{IsStrictlySortedBy};
ghost use Rattle.qh_spec.specs.StreamId.{stream_id};
ghost use Rattle.qh_streams.specs.Streams.{counts_of, is_two_way, first_limit, was_opened, IsOpened, HasArrived, IsWithinCount, IsSorted, CanDepart, PlainStreams, KeepsOut};
ghost use Rattle.qh_halves.specs.Counts.{is_bi, is_in_range};
ghost use Rattle.qh_half.specs.Send.{new_send};
ghost use Rattle.qh_halves.specs.SendHalves.{send_at, IsHalf, AreAdded};
ghost use Rattle.qh_half.specs.Recv.{new_recv};
ghost use Rattle.qh_halves.specs.RecvHalves.{recv_at, IsRecvHalf, AreRecvAdded};

use crate::{StreamEvent, Streams};
use qh_base::{Dir, Memory, StreamId, VarInt};
use qh_halves::{RecvHalves, SendHalves, StreamCounts};
use std::alloc::Global;

impl Streams {
    /// Opens a stream; None exactly if the peer permits no more in this direction. It takes room for all that the stream may
    /// have to send or to tell.
    pub fn open(&mut self, alloc: Global, dir: Dir) -> Result<Option<StreamId>, Memory>
        ensures some { IfOk result (λ o. IfSome o (λ id. (id.0 ≡ stream_id self.old.side dir (counts_of self.old (is_two_way dir)).opened)
            × ((counts_of self.old (is_two_way dir)).opened < (counts_of self.old (is_two_way dir)).max_opened) × IsOpened self.old self.new id.0)) }
        ensures none { IfOk result (λ o. o ≡ None → ((counts_of self.old (is_two_way dir)).opened ≡ (counts_of self.old (is_two_way dir)).max_opened) × (self.new ≡ self.old)) }
        ensures limited { (counts_of self.old (is_two_way dir)).opened ≡ (counts_of self.old (is_two_way dir)).max_opened → IsOk result }
        ensures err { OnErr result (self.new ≡ self.old) }
        ensures keeps_out { KeepsOut self.old self.new }
    {
        let counts = self.counts(dir);
        if counts.opened == counts.max_opened {
            return Ok(None);
        }
        let id = StreamId::new(self.side, dir, counts.opened);
        let limit = self.first_limit(id);
        let after = StreamCounts {
            opened: counts.opened + 1,
            ..counts
        };
        let (bi, uni) = self.counts_with(dir, after);
        self.events.try_reserve(self.send.len() + 1)?;
        insert_halves(&mut self.send, &mut self.recv, alloc, dir, id.0, limit)?;
        self.bi = bi;
        self.uni = uni;
        Ok(Some(id))
    }

    // The first limit of the peer on a stream.
    pub(super) fn first_limit(&self, id: StreamId) -> VarInt
        ensures { result ≡ first_limit self.now id.0 }
    {
        match (id.dir(), self.is_own(id)) {
            (Dir::Bi, true) => self.peer.bidi_remote,
            (Dir::Bi, false) => self.peer.bidi_local,
            (Dir::Uni, _) => self.peer.uni,
        }
    }

    // A frame named a stream within the counts: if the peer opens it and it didn't come yet, it gets its halves, as do
    // those before it, and `Opened` is to be told. Answers how many came before.
    pub(super) fn arrive(&mut self, alloc: Global, id: StreamId) -> Result<u64, Memory>
        requires { IsWithinCount self.old id.0 }
        ensures ok { OnOk result (HasArrived self.old self.new id.0) }
        ensures count { IfOk result (λ n. n ≡ (counts_of self.old (is_bi id.0)).arrived) }
        ensures departs { IfOk result (CanDepart self.new id.0) }
        ensures sorted { OnOk result (was_opened self.old id.0 ≡ false → IsSorted self.old) }
        ensures err { OnErr result (self.new ≡ self.old) }
        ensures keeps_out { KeepsOut self.old self.new }
    {
        let dir = id.dir();
        let counts = self.counts(dir);
        if self.was_opened(id) {
            return Ok(counts.arrived);
        }
        let arrived = id.index() + 1;
        let count = arrived - counts.arrived;
        let first = id.0 - 4 * (count - 1);
        let limit = self.first_limit(id);
        let (bi, uni) = self.counts_with(dir, StreamCounts { arrived, ..counts });
        self.events
            .try_reserve(self.send.len() + count as usize + 1)?;
        insert_ranges(
            &mut self.send,
            &mut self.recv,
            alloc,
            dir,
            first,
            count,
            limit,
        )?;
        let _ = self.events.push_back(StreamEvent::Opened { dir });
        self.bi = bi;
        self.uni = uni;
        Ok(counts.arrived)
    }

    // Takes back that a stream arrived, and those before it: `arrived` had come before.
    pub(super) fn depart(&mut self, id: StreamId, arrived: u64)
        requires { CanDepart self.old id.0 arrived }
        ensures { (before : PlainStreams) → (was_opened before id.0 ≡ false → IsSorted before) → arrived ≡ (counts_of before (is_bi id.0)).arrived → HasArrived before self.old id.0
            → self.new ≡ before }
    {
        let dir = id.dir();
        let counts = self.counts(dir);
        if self.is_own(id) || counts.arrived <= arrived {
            return;
        }
        let count = counts.arrived - arrived;
        let first = id.0 - 4 * (count - 1);
        let (bi, uni) = self.counts_with(dir, StreamCounts { arrived, ..counts });
        // Streams of one direction have no sending halves here: then none is taken back.
        self.send.withdraw_range(first, count);
        self.recv.withdraw_range(first, count);
        let _ = self.events.pop_back();
        self.bi = bi;
        self.uni = uni;
    }
}

// A stream that this end opens gets its halves, with the peer's limit on it.
fn insert_halves(
    send: &mut SendHalves,
    recv: &mut RecvHalves,
    alloc: Global,
    dir: Dir,
    id: u64,
    limit: VarInt,
) -> Result<(), Memory>
    requires send { send_at send.old id ≡ None }
    requires recv { recv_at recv.old id ≡ None }
    ensures send { OnOk result (IsHalf send.old send.new id (Some (new_send limit)) 0) }
    ensures len { OnOk result (length send.new.halves ≡ length send.old.halves + 1) }
    ensures bi { OnOk result (is_two_way dir ≡ true → IsRecvHalf recv.old recv.new id (Some (new_recv (min recv.old.stream_window (2 ^ 62 - 1))))) }
    ensures uni { OnOk result (is_two_way dir ≡ false → recv.new ≡ recv.old) }
    ensures err { OnErr result ((send.new ≡ send.old) × (recv.new ≡ recv.old)) }
{
    send.insert(alloc, id, limit)?;
    if dir == Dir::Uni {
        return Ok(());
    }
    if recv.insert(alloc, id).is_err() {
        send.withdraw(id);
        return Err(Memory);
    }
    Ok(())
}

// Streams that the peer opens in this direction get their halves: `count` of them, each fourth id from the first on.
fn insert_ranges(
    send: &mut SendHalves,
    recv: &mut RecvHalves,
    alloc: Global,
    dir: Dir,
    first: u64,
    count: u64,
    limit: VarInt,
) -> Result<(), Memory>
    requires fits { first + 4 * count < 2 ^ 64 }
    requires send { (k : ℕ) → is_in_range first count k ≡ true → send_at send.old k ≡ None }
    requires recv { (k : ℕ) → is_in_range first count k ≡ true → recv_at recv.old k ≡ None }
    ensures bi { OnOk result (is_two_way dir ≡ true → AreAdded send.old send.new first count limit) }
    ensures uni { OnOk result (is_two_way dir ≡ false → send.new ≡ send.old) }
    ensures len { OnOk result (length send.new.halves ≤ length send.old.halves + count) }
    ensures recv { OnOk result (AreRecvAdded recv.old recv.new first count) }
    ensures sorted { OnOk result (IsStrictlySortedBy nat_cmp (keys_of recv.old.halves)) }
    ensures err { OnErr result ((send.new ≡ send.old) × (recv.new ≡ recv.old)) }
{
    if dir == Dir::Uni {
        return recv.insert_range(alloc, first, count);
    }
    send.insert_range(alloc, first, count, limit)?;
    if recv.insert_range(alloc, first, count).is_err() {
        send.withdraw_range(first, count);
        return Err(Memory);
    }
    Ok(())
}
